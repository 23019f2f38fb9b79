//! The files of accepted updates.
ghost use Rattle.std.specs.Prelude.{◌≡◌, ◌+◌, ◌≤◌, ◌<◌, [], ◌∷◌, ◌++◌, OnOk, length};

use mv_calls::{Bytes, OutOfMemory};
use std::alloc::Global;
use std::marker::Model;

/// The files of an accepted update. For a list of rules that the order calls `none`, it is the file `mvrules 1` with its
/// line feed.
#[derive(Debug, Drop)]
pub struct Update {
    /// The new module.
    pub module: Bytes,
    /// The rules from the old version's calls to the new one's.
    pub forward: Bytes,
    /// The rules from the new version's calls to the old one's.
    pub reverse: Bytes,
}

/// The files of accepted updates, which contracts see as a list, with how many more take no memory.
#[derive(Debug, Drop)]
pub struct Updates {
    items: Vec<Update>,
}

impl Model for Updates {
    ghost use Rattle.std.specs.Prelude.{List, vec_capacity, vec_len, ◌-◌};
    ghost use Rattle.mv_history.specs.Roomy.{Roomy};
    ghost use Rattle.mv_history.specs.declared.updates.Update.{Update};

    ghost Value = { Roomy Update };

    ghost view = { λ u. record { list = u.items.items; room = vec_capacity u.items - vec_len u.items } };
}

impl Updates {
    /// No update.
    pub fn new(alloc: Global) -> Updates
        ensures list { result.list ≡ [] }
    {
        Updates {
            items: Vec::new(alloc),
        }
    }

    /// The updates of the vector, in its place in memory.
    pub fn from_vec(items: Vec<Update>) -> Updates
        ensures list { result.list ≡ items.items }
    {
        Updates { items }
    }

    /// The updates as a vector, in their place in memory.
    pub fn into_vec(self) -> Vec<Update>
        ensures list { result.items ≡ self.list }
    {
        let Updates { items } = self;
        items
    }

    /// The updates, to be looked at.
    pub fn slice(&self) -> &[Update]
        ensures list { result.now ≡ self.now.list }
    {
        self.items.as_slice()
    }

    /// Makes the places of `more` updates, so that as many pushes take no memory.
    pub fn reserve(&mut self, more: usize) -> Result<(), OutOfMemory>
        ensures list { self.new.list ≡ self.old.list }
        ensures room { OnOk result (more ≤ self.new.room) }
        ensures kept { self.old.room ≤ self.new.room }
    {
        match self.items.reserve(more) {
            Ok(()) => Ok(()),
            Err(_) => Err(OutOfMemory),
        }
    }

    /// Adds an update, for which there is a place.
    pub fn push(&mut self, update: Update)
        requires place { 0 < self.old.room }
        ensures list { self.new.list ≡ self.old.list ++ update ∷ [] }
        ensures room { self.new.room + 1 ≡ self.old.room }
    {
        self.items.push_reserved(update);
    }
}
