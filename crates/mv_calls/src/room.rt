//! Places that are reserved for one reply, so that a call that was done finds memory for its answer.
ghost use Rattle.std.specs.Prelude.{◌≡◌, [], IfOk, vec_capacity};
ghost use Rattle.mv_calls.specs.Places.{Holds, places_of};

use crate::calls::{Call, reply_room};
use crate::fault::OutOfMemory;
use crate::happenings::Happened;
use std::alloc::Global;
use std::marker::Model;

/// A reserved place for one reply. Contracts see it as how many bytes and how many events it has
/// place for.
#[derive(Debug, Drop)]
pub struct Room {
    bytes: Vec<u8>,
    events: Vec<Happened>,
}

impl Model for Room {
    ghost use Rattle.std.specs.Prelude.{◌≡◌, [], vec_capacity};
    ghost use Rattle.mv_calls.specs.Places.{Places};

    ghost Value = { Places };

    ghost view = { λ r. record { bytes = vec_capacity r.bytes; events = vec_capacity r.events } };

    ghost invariant = { λ r. (r.bytes.items ≡ []) × (r.events.items ≡ []) };
}

impl Room {
    /// A place that is large enough for each reply to the call: for bytes or for events, as the
    /// call's replies have them. The one error is want of memory.
    pub fn make(alloc: Global, call: &Call) -> Result<Room, OutOfMemory>
        ensures { IfOk result (λ room. Holds room (places_of call.now)) }
    {
        match call {
            Call::Poll { .. } => Ok(Room {
                bytes: Vec::new(alloc),
                events: Vec::with_capacity(alloc, reply_room(call))?,
            }),
            _ => Ok(Room {
                bytes: Vec::with_capacity(alloc, reply_room(call))?,
                events: Vec::new(alloc),
            }),
        }
    }

    /// The place for bytes, as an empty vector.
    pub fn bytes(self) -> Vec<u8>
        ensures empty { result.items ≡ [] }
        ensures room { vec_capacity result ≡ self.bytes }
    {
        let Room { bytes, events: _ } = self;
        bytes
    }

    /// The place for events, as an empty vector.
    pub fn events(self) -> Vec<Happened>
        ensures empty { result.items ≡ [] }
        ensures room { vec_capacity result ≡ self.events }
    {
        let Room { bytes: _, events } = self;
        events
    }
}
