//! What a guest asks `poll_oneoff` to wait for.
ghost use Rattle.std.specs.Prelude.{◌≡◌, IfOk};

use crate::fault::OutOfMemory;
use std::alloc::Global;
use std::marker::Model;

/// One subscription of `poll_oneoff` (WASI preview 1, `subscription`), without its userdata.
#[derive(Clone, Copy, PartialEq, Eq, Debug)]
pub enum Sub {
    /// A clock reaches a time. `id` is 0 for the real time and 1 for the monotonic clock, `timeout`
    /// is in nanoseconds, and bit 0 of `flags` says that it is a time of the clock and no span.
    Clock { id: u32, timeout: u64, flags: u16 },
    /// The descriptor has bytes to be read.
    Read { fd: u32 },
    /// The descriptor takes bytes.
    Write { fd: u32 },
}

/// A list of subscriptions, which contracts see as a list.
#[derive(Debug, Drop)]
pub struct Subs {
    items: Vec<Sub>,
}

impl Model for Subs {
    ghost use Rattle.std.specs.Prelude.{List};
    ghost use Rattle.mv_calls.specs.declared.subs.Sub.{Sub};

    ghost Value = { List Sub };

    ghost view = { λ s. s.items.items };
}

impl Subs {
    /// The subscriptions of the vector, in its place in memory.
    pub fn from_vec(items: Vec<Sub>) -> Subs
        ensures { result ≡ items.items }
    {
        Subs { items }
    }

    /// The subscriptions as a vector, in their place in memory.
    pub fn into_vec(self) -> Vec<Sub>
        ensures { result.items ≡ self }
    {
        let Subs { items } = self;
        items
    }

    /// The subscriptions, to be looked at.
    pub fn slice(&self) -> &[Sub]
        ensures { result.now ≡ self.now }
    {
        self.items.as_slice()
    }

    /// A copy of these subscriptions. The one error is want of memory.
    pub fn from_slice(alloc: Global, items: &[Sub]) -> Result<Subs, OutOfMemory>
        ensures { IfOk result (λ copy. copy ≡ items.now) }
    {
        Ok(Subs {
            items: Vec::from_slice(alloc, items)?,
        })
    }

    /// An equal list in a place of its own. The one error is want of memory.
    pub fn copy(&self, alloc: Global) -> Result<Subs, OutOfMemory>
        ensures { IfOk result (λ copy. copy ≡ self.now) }
    {
        Subs::from_slice(alloc, self.slice())
    }
}
