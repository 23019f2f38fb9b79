//! A console that keeps to a policy.
ghost use Rattle.std.specs.Prelude.{◌≡◌, ◌+◌, ◌≤◌, ◌||◌, [], OnErr, OnOk, None, length, true, false};
ghost use Rattle.mv_outside.specs.Told.{told_more, AddsPart};
ghost use Rattle.mv_outside.specs.Causes.{Rose};
ghost use Rattle.mv_outside.specs.Console.{IfLine, Takes, EndsLines, line_limit};
ghost use Rattle.mv_outside.specs.Counts.{one_more};
ghost use Rattle.mv_policy.specs.Guarded.{IsKept, orders_of, replies_of, seen};
ghost use Rattle.mv_policy.specs.Looks.{HasReplied, Looks};

use crate::parts::Parts;
use crate::policy::Policy;
use crate::ruled::Ruled;
use crate::spoken::Shelf;
use mv_calls::OutOfMemory;
use mv_outside::{Console, Failed, Line};
use std::alloc::Global;
use std::marker::{Model, PhantomData};

/// A console whose lines are `NAME TOKEN ORDER`. It hands on the orders that a policy allows, and answers each other line by
/// `{"no":"denied","rule":N}`, where N is the line of the policy that denies it, or 0 where none does. `N` names the run that
/// it belongs to, and its policy.
#[derive(Drop)]
pub struct PolicyConsole<C: Console, N: Ruled> {
    parts: Parts<C>,
    run: PhantomData<N>,
}

impl<C: Console, N: Ruled> Model for PolicyConsole<C, N> {
    ghost use Rattle.mv_policy.specs.Guarded.{Guarded, IsKept};
    ghost use Rattle.mv_policy.specs.Parted.{IsGuard, guarded, seen_in};

    ghost Value = { Guarded C };

    ghost view = { λ c. guarded c.parts };

    ghost invariant = { λ c. IsGuard C.room (IsKept N.began.coming N.began.said N.policy) (seen_in C.coming C.said c.parts) c.parts };
}

impl<C: Console, N: Ruled> PolicyConsole<C, N> {
    /// A console over `inner` whose operators are held to the policy. It takes no memory.
    pub fn new(alloc: Global, inner: C, policy: Policy) -> PolicyConsole<C, N>
        requires coming { N.began.coming ≡ C.coming inner }
        requires said { N.began.said ≡ C.said inner }
        requires policy { N.policy ≡ policy }
        ensures parts { result ≡ record { inner = inner; policy = policy; stored = []; failed_at = None; deaf = false; misses = 0; room = 0 } }
        ensures kept { IsKept N.began.coming N.began.said N.policy (seen C.coming C.said result) }
    {
        PolicyConsole {
            parts: Parts {
                inner,
                policy,
                shelf: Shelf::new(alloc),
                room: 0,
                failed_at: None,
                deaf: false,
                misses: 0,
            },
            run: PhantomData,
        }
    }

    /// The console under it.
    pub fn inner(self) -> C
        ensures inner { result ≡ self.inner }
        ensures kept { IsKept N.began.coming N.began.said N.policy (seen C.coming C.said self) }
    {
        let PolicyConsole { parts, run: _ } = self;
        let Parts {
            inner,
            policy: _,
            shelf: _,
            room: _,
            failed_at: _,
            deaf: _,
            misses: _,
        } = parts;
        inner
    }
}

impl<C: Console, N: Ruled> Console for PolicyConsole<C, N> {
    ghost use Rattle.std.specs.Prelude.{◌+◌, ◌||◌};
    ghost use Rattle.mv_policy.specs.Guarded.{orders_of, replies_of, seen};

    /// The orders of the lines that the policy allows; a denied line is an idle turn.
    ghost coming = { λ c. orders_of (seen C.coming C.said c) };

    /// The replies alone.
    ghost said = { λ c. replies_of (seen C.coming C.said c) };

    /// Those of the inner console, and each Failed that was answered without asking it.
    ghost faults = { λ c. C.faults c.inner + c.misses };

    ghost room = { λ c. c.room };

    ghost ended = { λ c. C.ended c.inner || c.deaf };

    /// Asks the inner console once. It fails where that fails, and where a denial can't be said; after that it fails without
    /// asking. Memory leaves the line where it was.
    fn next(&mut self, alloc: Global) -> Line
        ensures taken { Takes (orders_of (seen C.coming C.said self.old)) result (orders_of (seen C.coming C.said self.new)) }
        ensures short { IfLine result (λ line. length line ≤ line_limit) }
        ensures ended { EndsLines (C.ended self.old.inner || self.old.deaf) result (C.ended self.new.inner || self.new.deaf) }
        ensures room { IfLine result (λ _. self.old.room ≤ self.new.room) }
        ensures said { replies_of (seen C.coming C.said self.new) ≡ replies_of (seen C.coming C.said self.old) }
        ensures later { C.faults self.old.inner + self.old.misses ≤ C.faults self.new.inner + self.new.misses }
        ensures cause { result ≡ Line.Failed → Rose (C.faults self.old.inner + self.old.misses) (C.faults self.new.inner + self.new.misses) }
        // What it took of the inner console, what the policy says of it, and what was said.
        ensures looks { Looks (seen C.coming C.said self.old) result (seen C.coming C.said self.new) }
        // After a denial couldn't be said, nothing is asked.
        ensures deaf { self.old.deaf ≡ true → (result ≡ Line.Failed) × (self.new ≡ record self.old { misses = one_more self.old.misses }) }
        ensures misses { self.old.deaf ≡ false → self.new.misses ≡ self.old.misses }
        ensures kept { IsKept N.began.coming N.began.said N.policy (seen C.coming C.said self.new) }
    {
        self.parts.look(alloc)
    }

    fn prepare(&mut self, alloc: Global, len: usize) -> Result<(), OutOfMemory>
        ensures room { OnOk result (len ≤ self.new.room) }
        ensures coming { orders_of (seen C.coming C.said self.new) ≡ orders_of (seen C.coming C.said self.old) }
        ensures ended { (C.ended self.new.inner || self.new.deaf) ≡ (C.ended self.old.inner || self.old.deaf) }
        ensures said { replies_of (seen C.coming C.said self.new) ≡ replies_of (seen C.coming C.said self.old) }
        ensures later { C.faults self.old.inner + self.old.misses ≤ C.faults self.new.inner + self.new.misses }
        ensures same { seen C.coming C.said self.new ≡ seen C.coming C.said self.old }
    {
        self.parts.prepare(alloc, len)
    }

    fn say(&mut self, line: &[u8]) -> Result<(), Failed>
        requires { length line.now ≤ self.old.room }
        ensures ok { OnOk result (replies_of (seen C.coming C.said self.new) ≡ told_more (replies_of (seen C.coming C.said self.old)) line.now) }
        ensures part { OnErr result (AddsPart (replies_of (seen C.coming C.said self.old)) line.now (replies_of (seen C.coming C.said self.new))) }
        ensures coming { orders_of (seen C.coming C.said self.new) ≡ orders_of (seen C.coming C.said self.old) }
        ensures ended { (C.ended self.new.inner || self.new.deaf) ≡ (C.ended self.old.inner || self.old.deaf) }
        ensures later { C.faults self.old.inner + self.old.misses ≤ C.faults self.new.inner + self.new.misses }
        ensures cause { OnErr result (Rose (C.faults self.old.inner + self.old.misses) (C.faults self.new.inner + self.new.misses)) }
        // The inner console says the line, and it is stored.
        ensures replied { HasReplied (seen C.coming C.said self.old) line.now result (seen C.coming C.said self.new) }
        ensures kept { IsKept N.began.coming N.began.said N.policy (seen C.coming C.said self.new) }
    {
        self.parts.say(line)
    }
}
