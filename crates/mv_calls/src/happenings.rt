//! What `poll_oneoff` found.
ghost use Rattle.std.specs.Prelude.{◌≡◌, IfOk};

use crate::fault::OutOfMemory;
use std::alloc::Global;
use std::marker::Model;

/// One event of `poll_oneoff` (WASI preview 1, `event`), without its userdata.
#[derive(Clone, Copy, PartialEq, Eq, Debug)]
pub struct Happened {
    /// The number of the subscription that it answers, from 0.
    pub sub: u32,
    /// An error number of WASI preview 1, or 0 for none.
    pub error: u16,
    /// How many bytes can be read or written.
    pub nbytes: u64,
    /// Flags of the descriptor (`eventrwflags`).
    pub flags: u16,
}

/// A list of events, which contracts see as a list.
#[derive(Debug, Drop)]
pub struct Happenings {
    items: Vec<Happened>,
}

impl Model for Happenings {
    ghost use Rattle.std.specs.Prelude.{List};
    ghost use Rattle.mv_calls.specs.declared.happenings.Happened.{Happened};

    ghost Value = { List Happened };

    ghost view = { λ h. h.items.items };
}

impl Happenings {
    /// The events of the vector, in its place in memory.
    pub fn from_vec(items: Vec<Happened>) -> Happenings
        ensures { result ≡ items.items }
    {
        Happenings { items }
    }

    /// The events as a vector, in their place in memory.
    pub fn into_vec(self) -> Vec<Happened>
        ensures { result.items ≡ self }
    {
        let Happenings { items } = self;
        items
    }

    /// The events, to be looked at.
    pub fn slice(&self) -> &[Happened]
        ensures { result.now ≡ self.now }
    {
        self.items.as_slice()
    }

    /// A copy of these events. The one error is want of memory.
    pub fn from_slice(alloc: Global, items: &[Happened]) -> Result<Happenings, OutOfMemory>
        ensures { IfOk result (λ copy. copy ≡ items.now) }
    {
        Ok(Happenings {
            items: Vec::from_slice(alloc, items)?,
        })
    }

    /// An equal list in a place of its own. The one error is want of memory.
    pub fn copy(&self, alloc: Global) -> Result<Happenings, OutOfMemory>
        ensures { IfOk result (λ copy. copy ≡ self.now) }
    {
        Happenings::from_slice(alloc, self.slice())
    }
}
