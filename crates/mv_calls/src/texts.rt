//! Lists of byte lists, such as the arguments of a guest.
ghost use Rattle.std.specs.Prelude.{◌≡◌, IfOk};

use crate::bytes::Bytes;
use crate::fault::OutOfMemory;
use std::alloc::Global;
use std::marker::Model;

/// A list of byte lists.
#[derive(Debug, Drop)]
pub struct Texts {
    items: Vec<Bytes>,
}

impl Model for Texts {
    ghost use Rattle.std.specs.Prelude.{List, ℕ};

    ghost Value = { List (List ℕ) };

    ghost view = { λ t. t.items.items };
}

impl Texts {
    /// The byte lists of the vector, in its place in memory.
    pub fn from_vec(items: Vec<Bytes>) -> Texts
        ensures { result ≡ items.items }
    {
        Texts { items }
    }

    /// The byte lists as a vector, in their place in memory.
    pub fn into_vec(self) -> Vec<Bytes>
        ensures { result.items ≡ self }
    {
        let Texts { items } = self;
        items
    }

    /// The byte lists, to be looked at.
    pub fn slice(&self) -> &[Bytes]
        ensures { result.now ≡ self.now }
    {
        self.items.as_slice()
    }

    /// A copy of these byte lists. The one error is want of memory.
    pub fn from_slice(alloc: Global, items: &[Bytes]) -> Result<Texts, OutOfMemory>
        ensures { IfOk result (λ copy. copy ≡ items.now) }
    {
        let mut copies: Vec<Bytes> = Vec::with_capacity(alloc, items.len())?;
        while copies.len() < items.len() {
            copies.push(items[copies.len()].copy(alloc)?)?;
        }
        Ok(Texts { items: copies })
    }

    /// An equal list in a place of its own. The one error is want of memory.
    pub fn copy(&self, alloc: Global) -> Result<Texts, OutOfMemory>
        ensures { IfOk result (λ copy. copy ≡ self.now) }
    {
        Texts::from_slice(alloc, self.slice())
    }
}
