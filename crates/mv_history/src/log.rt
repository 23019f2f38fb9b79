//! Logs and their entries (docs/FORMATS.md, "Log file").
ghost use Rattle.std.specs.Prelude.{◌≡◌, ◌≤◌, [], IfOk};

use crate::entries::Entries;
use crate::updates::Updates;
use mv_calls::{Bytes, Call, Item, OutOfMemory, Texts, Trap};
use mv_orders::OrderReply;
use mv_rules::RuleFault;
use mv_syntax::BornFault;
use mv_version::Event;
use std::alloc::Global;

/// Why the leader asks for a hand-over.
#[derive(Clone, Copy, PartialEq, Eq, Debug)]
pub enum Why {
    /// The new version is ordered to lead.
    Promote,
    /// The old version is ordered to lead again.
    Back,
    /// The leader trapped.
    Trap(Trap),
}

/// The two lists of rules of an update.
#[derive(Clone, Copy, PartialEq, Eq, Debug)]
pub enum Side {
    /// From the old version's calls to the new one's.
    Forward,
    /// From the new version's calls to the old one's.
    Reverse,
}

/// Why a follower is given up. `k` counts the items that were rewritten for it, from 0.
#[derive(Debug, Drop)]
pub enum Cause {
    /// At item `k` the follower is stopped by a trap.
    Trap { k: u64, trap: Trap },
    /// Item `k` is a reply to `want`, and the follower does something else there: it makes another call, or ends.
    Mismatch { k: u64, want: Call, got: Event },
    /// The new version couldn't be born.
    Refused(BornFault),
    /// A rules file is refused.
    Rules { side: Side, fault: RuleFault },
    /// The operator ordered it, by the order of entry `n`.
    Order { n: u64 },
    /// Memory was wanted.
    Memory,
}

/// How a run ended.
#[derive(Clone, Copy, PartialEq, Eq, Debug)]
pub enum How {
    /// The guest ended with this code.
    Ended(u32),
    /// The guest trapped, and no other version could take over.
    Trapped(Trap),
    /// The operator ordered it.
    Halted,
    /// The schedule came to its end.
    Cut,
    /// The kernel failed.
    KernelFault,
    /// The log has reached its limit of entries or of payload.
    LogLimit,
    /// Memory was wanted.
    Memory,
}

/// A change of the run's state that is no event of the guest.
#[derive(Debug, Drop)]
pub enum Mark {
    /// A copy of the leader was sent, for the follower of this update to be born of.
    Fork { update: u32 },
    /// There was no memory for that copy.
    NoCopy { update: u32 },
    /// The leader asks for a hand-over.
    Hand { why: Why },
    /// The new version leads, and the old one follows as it stands.
    Promote,
    /// The new version leads alone: the old one trapped.
    Over,
    /// The old version leads alone: it was ordered, or the new one trapped.
    Back,
    /// The old version is let go: the new one leads alone.
    Finish,
    /// The new version is given up, before it led.
    Discard { cause: Cause },
    /// The old version is given up, while the new one leads.
    Dropped { cause: Cause },
    /// The run ended.
    End { how: How },
}

/// One entry of a log. Entries are numbered from 0.
#[derive(Debug, Drop)]
pub enum Entry {
    /// The leader made a call, and the kernel gave it this reply.
    Call { item: Item },
    /// The leader passed an update point.
    Point,
    /// A line came from the operator, and was answered so.
    Order { text: Bytes, reply: OrderReply },
    /// The run's state changed.
    Mark(Mark),
}

/// What a run began with.
#[derive(Debug, Drop)]
pub struct Start {
    /// The bytes of the module that leads first.
    pub module: Bytes,
    /// Its arguments.
    pub args: Texts,
}

/// All that a run did, in order.
#[derive(Debug, Drop)]
pub struct Log {
    pub start: Start,
    /// The files of the accepted updates, in the order of their numbers.
    pub updates: Updates,
    pub entries: Entries,
}

impl Log {
    /// The log of no run: no module, no argument, no update, no entry.
    pub fn empty(alloc: Global) -> Log
        ensures start { (result.start.«module» ≡ []) × (result.start.args ≡ []) }
        ensures updates { result.updates.list ≡ [] }
        ensures entries { result.entries.list ≡ [] }
    {
        Log {
            start: Start {
                module: Bytes::from_vec(Vec::new(alloc)),
                args: Texts::from_vec(Vec::new(alloc)),
            },
            updates: Updates::new(alloc),
            entries: Entries::new(alloc),
        }
    }

    /// A log without an update or an entry, with the places of three entries.
    pub fn make(alloc: Global, start: Start) -> Result<Log, OutOfMemory>
        ensures start { IfOk result (λ log. log.start ≡ start) }
        ensures updates { IfOk result (λ log. log.updates.list ≡ []) }
        ensures entries { IfOk result (λ log. log.entries.list ≡ []) }
        ensures places { IfOk result (λ log. 3 ≤ log.entries.room) }
    {
        let mut entries = Entries::new(alloc);
        entries.reserve(3)?;
        Ok(Log {
            start,
            updates: Updates::new(alloc),
            entries,
        })
    }
}
