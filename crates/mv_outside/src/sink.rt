//! Where the program prints.
ghost use Rattle.std.specs.Prelude.{◌≡◌, ℕ, ◌≤◌, List, Option, OnOk};
ghost use Rattle.mv_calls.specs.Or.{IsFault, WantsMemory};
ghost use Rattle.mv_outside.specs.Told.{told_more, AddsPart};
ghost use Rattle.mv_outside.specs.Causes.{Rose};

use crate::fault::Failed;
use mv_calls::Or;
use std::alloc::Global;

/// Takes what the program prints.
pub trait Sink {
    /// What was written, where it is told.
    ghost written: { Self → Option (List ℕ) };

    /// How often it has failed.
    ghost faults: { Self → ℕ };

    /// Writes the piece. Where it fails, a part of the piece may have been written.
    fn write_all_of(&mut self, alloc: Global, bytes: &[u8]) -> Result<(), Or<Failed>>
        ensures ok { OnOk result (written self.new ≡ told_more (written self.old) bytes.now) }
        ensures part { IsFault result → AddsPart (written self.old) bytes.now (written self.new) }
        ensures memory { WantsMemory result → written self.new ≡ written self.old }
        ensures later { faults self.old ≤ faults self.new }
        ensures cause { IsFault result → Rose (faults self.old) (faults self.new) };
}
