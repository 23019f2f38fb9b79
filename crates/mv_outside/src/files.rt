//! The files that the words and orders name.
ghost use Rattle.std.specs.Prelude.{◌≡◌, ℕ, ◌+◌, ◌≤◌, Option, length, OnOk};
ghost use Rattle.mv_calls.specs.Or.{IsFault, WantsMemory};
ghost use Rattle.mv_outside.specs.Causes.{Rose};
ghost use Rattle.mv_outside.specs.Files.{FileMap, Finds, IfBytes, HasFile, ChangesOnly};

use crate::fault::Failed;
use mv_calls::{Bytes, Or};
use std::alloc::Global;

/// What a read of a file gave.
#[derive(Debug, Drop)]
pub enum Found {
    /// The first `cap + 1` bytes, or all where there are fewer.
    Bytes(Bytes),
    /// There is no file of this path.
    Missing,
    /// The read failed.
    Failed,
    /// There was no memory for the bytes.
    Memory,
}

/// Reads and writes whole files.
pub trait Files: Drop {
    /// What stands at each path, where it is told.
    ghost content: { Self → Option FileMap };

    /// How often it has failed.
    ghost faults: { Self → ℕ };

    /// The first `cap + 1` bytes of the file, or all where there are fewer.
    fn read(&mut self, alloc: Global, path: &[u8], cap: usize) -> Found
        ensures found { Finds (content self.old) path.now cap result }
        ensures short { IfBytes result (λ bytes. length bytes ≤ cap + 1) }
        ensures same { content self.new ≡ content self.old }
        ensures later { faults self.old ≤ faults self.new }
        ensures cause { result ≡ Found.Failed → Rose (faults self.old) (faults self.new) };

    /// Makes these bytes the whole content of the file. Where it fails, the content is in doubt.
    fn write(&mut self, alloc: Global, path: &[u8], bytes: &[u8]) -> Result<(), Or<Failed>>
        ensures written { OnOk result (HasFile (content self.new) path.now bytes.now) }
        ensures others { ChangesOnly (content self.old) path.now (content self.new) }
        ensures memory { WantsMemory result → content self.new ≡ content self.old }
        ensures later { faults self.old ≤ faults self.new }
        ensures cause { IsFault result → Rose (faults self.old) (faults self.new) };
}
