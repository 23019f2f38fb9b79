//! A list of entries with places for more.
ghost use Rattle.std.specs.Prelude.{◌≡◌, ◌+◌, ◌≤◌, ◌<◌, [], ◌∷◌, ◌++◌, OnOk, OnErr, length};

use crate::log::Entry;
use mv_calls::OutOfMemory;
use std::alloc::Global;
use std::marker::Model;

/// Entries, which contracts see as a list, with how many more take no memory.
#[derive(Debug, Drop)]
pub struct Entries {
    items: Vec<Entry>,
}

impl Model for Entries {
    ghost use Rattle.std.specs.Prelude.{List, vec_capacity, vec_len, ◌-◌};
    ghost use Rattle.mv_history.specs.Roomy.{Roomy};
    ghost use Rattle.mv_history.specs.declared.log.Entry.{Entry};

    ghost Value = { Roomy Entry };

    ghost view = { λ e. record { list = e.items.items; room = vec_capacity e.items - vec_len e.items } };
}

impl Entries {
    /// No entry.
    pub fn new(alloc: Global) -> Entries
        ensures list { result.list ≡ [] }
    {
        Entries {
            items: Vec::new(alloc),
        }
    }

    /// The entries of the vector, in its place in memory.
    pub fn from_vec(items: Vec<Entry>) -> Entries
        ensures list { result.list ≡ items.items }
    {
        Entries { items }
    }

    /// The entries as a vector, in their place in memory.
    pub fn into_vec(self) -> Vec<Entry>
        ensures list { result.items ≡ self.list }
    {
        let Entries { items } = self;
        items
    }

    /// The entries, to be looked at.
    pub fn slice(&self) -> &[Entry]
        ensures list { result.now ≡ self.now.list }
    {
        self.items.as_slice()
    }

    /// Makes the places of `more` entries, so that as many pushes take no memory.
    pub fn reserve(&mut self, more: usize) -> Result<(), OutOfMemory>
        ensures list { self.new.list ≡ self.old.list }
        ensures room { OnOk result (more ≤ self.new.room) }
        ensures kept { self.old.room ≤ self.new.room }
    {
        match self.items.reserve(more) {
            Ok(()) => Ok(()),
            Err(_) => Err(OutOfMemory),
        }
    }

    /// Adds an entry, for which there is a place.
    pub fn push(&mut self, entry: Entry)
        requires place { 0 < self.old.room }
        ensures list { self.new.list ≡ self.old.list ++ entry ∷ [] }
        ensures room { self.new.room + 1 ≡ self.old.room }
    {
        self.items.push_reserved(entry);
    }
}
