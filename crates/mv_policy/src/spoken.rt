//! What was said over a console that keeps to a policy, with the place for more.
ghost use Rattle.std.specs.Prelude.{◌≡◌, ◌∷◌, ◌++◌, [], ◌<◌, ◌≤◌, OnOk, length};
ghost use Rattle.mv_policy.specs.Looks.{with_reply};

use mv_calls::{Bytes, OutOfMemory};
use std::alloc::Global;
use std::marker::Model;
use std::mem;

/// What was said.
#[derive(Debug, Drop)]
pub enum Spoken {
    /// A line that was given to be said.
    Reply(Bytes),
    /// The line that denies an order by the rule on this line of the policy, or by none, which is 0.
    Denial { rule: u32 },
}

/// What was said, oldest first, and the place for one more. Contracts see the list and the places.
#[derive(Drop)]
pub(crate) struct Shelf {
    spoken: Vec<Spoken>,
    spare: Vec<u8>,
    alloc: Global,
}

impl Model for Shelf {
    ghost use Rattle.std.specs.Prelude.{◌≡◌, ◌-◌, [], vec_len, vec_capacity};
    ghost use Rattle.mv_policy.specs.Shelved.{Shelved};

    ghost Value = { Shelved };

    ghost view = { λ s. record { spoken = s.spoken.items; room = vec_capacity s.spare; free = vec_capacity s.spoken - vec_len s.spoken } };

    ghost invariant = { λ s. s.spare.items ≡ [] };
}

impl Shelf {
    pub(crate) fn new(alloc: Global) -> Shelf
        ensures { result.spoken ≡ [] }
    {
        Shelf {
            spoken: Vec::new(alloc),
            spare: Vec::new(alloc),
            alloc,
        }
    }

    /// How many were said.
    pub(crate) fn len(&self) -> usize
        ensures { result ≡ length self.now.spoken }
    {
        self.spoken.len()
    }

    /// Makes the place for one more denial.
    pub(crate) fn make_free(&mut self) -> Result<(), OutOfMemory>
        ensures free { OnOk result (0 < self.new.free) }
        ensures spoken { self.new.spoken ≡ self.old.spoken }
        ensures room { self.new.room ≡ self.old.room }
    {
        self.spoken.reserve(1)?;
        Ok(())
    }

    /// Makes the place for one more reply of at most `len` bytes.
    pub(crate) fn make_room(&mut self, len: usize) -> Result<(), OutOfMemory>
        ensures free { OnOk result (0 < self.new.free) }
        ensures room { OnOk result (len ≤ self.new.room) }
        ensures spoken { self.new.spoken ≡ self.old.spoken }
    {
        self.spoken.reserve(1)?;
        self.spare.reserve(len)?;
        Ok(())
    }

    /// Keeps a reply.
    fn keep(&mut self, line: &[u8])
        requires room { length line.now ≤ self.old.room }
        requires free { 0 < self.old.free }
        ensures { self.new.spoken ≡ self.old.spoken ++ Spoken.Reply line.now ∷ [] }
    {
        let mut text = mem::replace(&mut self.spare, Vec::new(self.alloc));
        let _ = text.extend_from_slice(line);
        let _ = self.spoken.push(Spoken::Reply(Bytes::from_vec(text)));
    }

    /// Keeps a reply; an empty one needs no place.
    pub(crate) fn keep_reply(&mut self, line: &[u8])
        requires room { length line.now ≤ self.old.room }
        requires free { 0 < length line.now → 0 < self.old.free }
        ensures { self.new.spoken ≡ with_reply self.old.spoken line.now }
    {
        if !line.is_empty() {
            self.keep(line);
        }
    }

    /// Keeps a denial.
    pub(crate) fn keep_denial(&mut self, rule: u32)
        requires { 0 < self.old.free }
        ensures { self.new.spoken ≡ self.old.spoken ++ Spoken.Denial rule ∷ [] }
    {
        let _ = self.spoken.push(Spoken::Denial { rule });
    }
}
