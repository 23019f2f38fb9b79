//! The rewriter, to which items come one by one.
ghost use Rattle.std.specs.Prelude.{◌≡◌, ◌↔◌, ◌≤◌, ◌<◌, [], ◌∷◌, ◌++◌, false, true, List, length, drop, Some, None, IfOk, OnErr, IfNone, IfSome};
ghost use Rattle.mv_calls.specs.declared.calls.Call.{Call as call};
ghost use Rattle.mv_calls.specs.declared.calls.Reply.{Reply as reply};
ghost use Rattle.mv_rewrite.specs.RewriterState.{Advances, GivesNext, IsUndecided, PassesOrCounts, Stands};

use crate::decide::{Decision, decide_front};
use crate::held::Held;
use crate::items::Items;
use arrayvec::ArrayVec;
use mv_calls::{Item, OutOfMemory};
use mv_rulecheck::KeptRules;
use std::alloc::Global;
use std::marker::Model;

/// Rewrites items by rules, as they come (docs/DEFINITIONS.md, "Rewriting"). It has eight places for the items that no
/// decision has taken, and forgets the others.
#[derive(Drop)]
pub struct Rewriter {
    rules: KeptRules,
    held: ArrayVec<Held, 8>,
    finished: bool,
}

impl Model for Rewriter {
    ghost use Rattle.std.specs.Prelude.{◌≤◌, length};
    ghost use Rattle.mv_rules.specs.Shape.{AreShaped};
    ghost use Rattle.mv_rewrite.specs.RewriterState.{RewriterState};

    ghost Value = { RewriterState };

    ghost view = { λ w. record { rules = w.rules; held = w.held.items; finished = w.finished } };

    ghost invariant = { λ w. AreShaped w.rules };
}

/// Lets the first `count` items go.
fn drop_front(held: &mut ArrayVec<Held, 8>, count: usize)
    requires { count ≤ length held.old.items }
    ensures { held.new.items ≡ drop count held.old.items }
{
    for _ in 0..count {
        held.remove(0);
    }
}

impl Rewriter {
    ghost use Rattle.mv_rules.specs.Shape.{AreShaped};

    /// A rewriter that was fed nothing. It takes no memory.
    pub fn new(rules: KeptRules) -> Result<Rewriter, OutOfMemory>
        ensures fresh { IfOk result (λ w. w ≡ record { rules = rules; held = []; finished = false }) }
        ensures stands { IfOk result (λ w. Stands w [] []) }
    {
        let _ = rules.slice();
        Ok(Rewriter {
            rules,
            held: ArrayVec::new(),
            finished: false,
        })
    }

    /// How many items no decision has taken, from 0 to 8.
    pub fn held(&self) -> usize
        ensures held { result ≡ length self.now.held }
        ensures few { result ≤ 8 }
    {
        self.held.len()
    }

    /// Takes the next item. Fewer than eight are held, and [`finish`](Rewriter::finish) was not called. It takes no memory.
    pub fn feed(&mut self, item: Item)
        requires room { length self.old.held < 8 }
        requires running { self.old.finished ≡ false }
        ensures fed { self.new ≡ record self.old { held = self.old.held ++ item ∷ [] } }
        ensures stands { (fed : List (call × reply)) (given : List (List (call × reply))) → Stands self.old fed given → Stands self.new (fed ++ item ∷ []) given }
    {
        self.held.push(Held::new(item));
    }

    /// Decides the front once: what the right side of the first rule that matches there makes, or the first item where none
    /// does, and at most 16 items. It answers none exactly where nothing is held, or, before [`finish`](Rewriter::finish),
    /// while a rule that could match with more items stands before each that matches already; then at most seven items are
    /// held. Where memory is wanted, or a made item has a length that doesn't fit, everything stays as it was. A length fits
    /// where it is below 2^32, so that a count can say it; a write that is made with an error number is held to that too.
    pub fn next(&mut self, alloc: Global) -> Result<Option<Items>, OutOfMemory>
        ensures advances { IfOk result (λ group. Advances self.old group self.new) }
        ensures err { OnErr result (self.new ≡ self.old) }

        // What was given before and now is what the decisions give; where it answers none, that is all of the rewritten list.
        ensures given { IfOk result (λ group. GivesNext self.old group self.new) }
        ensures few { IfOk result (λ group. IfNone group (length self.new.held < 8)) }
        ensures none { IfOk result (λ group. (group ≡ None) ↔ IsUndecided self.old) }
        ensures size { IfOk result (λ group. IfSome group (λ items. length items ≤ 16)) }
        ensures counted { IfOk result (λ group. IfSome group (λ items. PassesOrCounts self.old items)) }
    {
        self.advance(alloc)
    }

    fn advance(&mut self, alloc: Global) -> Result<Option<Items>, OutOfMemory>
        ensures advances { IfOk result (λ group. Advances self.old group self.new) }
        ensures err { OnErr result (self.new ≡ self.old) }
        ensures counted { IfOk result (λ group. IfSome group (λ items. PassesOrCounts self.old items)) }
        ensures shaped { AreShaped self.old.rules }
    {
        if self.held.is_empty() {
            return Ok(None);
        }
        match decide_front(
            alloc,
            self.rules.slice(),
            self.held.as_slice(),
            !self.finished,
        )? {
            Decision::Wait => Ok(None),
            Decision::Pass => {
                let mut group = Vec::with_capacity(alloc, 1)?;
                let item = self.held.remove(0).into_item();
                let _ = group.push(item);
                Ok(Some(Items::from_vec(group)))
            }
            Decision::Replace { made, count } => {
                drop_front(&mut self.held, count);
                Ok(Some(made))
            }
        }
    }

    /// No more items come: what is held is decided from now on without waiting. It gives up nothing.
    pub fn finish(&mut self)
        ensures finished { self.new ≡ record self.old { finished = true } }
        ensures stands { (fed : List (call × reply)) (given : List (List (call × reply))) → Stands self.old fed given → Stands self.new fed given }
    {
        self.finished = true;
    }

    /// Begins anew by the same rules: nothing is held, and items may come. It takes no memory.
    pub fn clear(&mut self)
        ensures cleared { self.new ≡ record self.old { held = []; finished = false } }
        ensures stands { Stands self.new [] [] }
    {
        self.held.clear();
        self.finished = false;
    }
}
