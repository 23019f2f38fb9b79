//! What does a guest's calls.
ghost use Rattle.std.specs.Prelude.{◌≡◌, ℕ, ◌≤◌, [], ◌∷◌, List, Option, IfOk, OnOk, OnErr, IsTrue};
ghost use Rattle.mv_calls.specs.declared.calls.Call.{Call};
ghost use Rattle.mv_calls.specs.declared.calls.Item.{Item};
ghost use Rattle.mv_calls.specs.Places.{Holds, places_of};
ghost use Rattle.mv_calls.specs.Suits.{suits_of};
ghost use Rattle.mv_outside.specs.Told.{told_more};
ghost use Rattle.mv_outside.specs.Causes.{Rose};

use crate::fault::Failed;
use mv_calls::{Call, OutOfMemory, Reply, Room};
use std::alloc::Global;

/// Does the calls of a guest, each at most once.
pub trait Kernel: Drop {
    /// The calls done so far with their replies, oldest first, where they are told.
    ghost done: { Self → Option (List Item) };

    /// How often it has failed.
    ghost faults: { Self → ℕ };

    /// Whether the memory for doing this call is there.
    ghost ready_for: { Self → Call → Type 0 };

    /// Makes the memory that doing the call takes. The call isn't done, and nothing fails but for want of memory.
    fn ready(&mut self, alloc: Global, call: &Call) -> Result<(), OutOfMemory>
        ensures ready { OnOk result (ready_for self.new call.now) }
        ensures done { done self.new ≡ done self.old }
        ensures faults { faults self.new ≡ faults self.old };

    /// Does the call, and takes no memory but `room`.
    fn perform(&mut self, call: &Call, room: Room) -> Result<Reply, Failed>
        requires ready { ready_for self.old call.now }
        requires room { Holds room (places_of call.now) }
        ensures suits { IfOk result (λ reply. IsTrue (suits_of call.now reply)) }
        ensures did { IfOk result (λ reply. done self.new ≡ told_more (done self.old) ((call.now, reply) ∷ [])) }
        ensures did_not { OnErr result (done self.new ≡ done self.old) }
        ensures later { faults self.old ≤ faults self.new }
        ensures cause { OnErr result (Rose (faults self.old) (faults self.new)) };
}
