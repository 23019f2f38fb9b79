//! Where the operator's orders come from, and where they are answered.
ghost use Rattle.std.specs.Prelude.{◌≡◌, ℕ, ◌≤◌, List, Option, Bool, length, OnOk, OnErr};
ghost use Rattle.mv_outside.specs.Told.{told_more, AddsPart};
ghost use Rattle.mv_outside.specs.Causes.{Rose};
ghost use Rattle.mv_outside.specs.Console.{IfLine, Takes, EndsLines, line_limit};

use crate::fault::Failed;
use mv_calls::{Bytes, OutOfMemory};
use std::alloc::Global;

/// What one look at the console found.
#[derive(Debug, Drop)]
pub enum Line {
    /// A line without its end. Of a line of more than 8,192 bytes these are the first 8,192.
    Line(Bytes),
    /// Nothing has come. A turn passes.
    Idle,
    /// Nothing comes any more.
    Closed,
    /// The console failed, and nothing comes any more.
    Failed,
    /// There was no memory for the line, which waits.
    Memory,
}

/// Hands on lines, and says lines.
pub trait Console: Drop {
    /// The lines and idle turns (`None`) that are still to come, where they are told.
    ghost coming: { Self → Option (List (Option (List ℕ))) };

    /// What was said, where it is told.
    ghost said: { Self → Option (List ℕ) };

    /// How often it has failed.
    ghost faults: { Self → ℕ };

    /// How long a line may be that is said now.
    ghost room: { Self → ℕ };

    /// Whether it has answered Closed or Failed.
    ghost ended: { Self → Bool };

    /// The next line, if one has come.
    fn next(&mut self, alloc: Global) -> Line
        ensures taken { Takes (coming self.old) result (coming self.new) }
        ensures short { IfLine result (λ line. length line ≤ line_limit) }
        ensures ended { EndsLines (ended self.old) result (ended self.new) }
        ensures room { IfLine result (λ _. room self.old ≤ room self.new) }
        ensures said { said self.new ≡ said self.old }
        ensures later { faults self.old ≤ faults self.new }
        ensures cause { result ≡ Line.Failed → Rose (faults self.old) (faults self.new) };

    /// Makes the memory for a line of `len` bytes that is to be said.
    fn prepare(&mut self, alloc: Global, len: usize) -> Result<(), OutOfMemory>
        ensures room { OnOk result (len ≤ room self.new) }
        ensures coming { coming self.new ≡ coming self.old }
        ensures ended { ended self.new ≡ ended self.old }
        ensures said { said self.new ≡ said self.old }
        ensures later { faults self.old ≤ faults self.new };

    /// Says a line, and takes no memory. Where it fails, a part of the line may have been said.
    fn say(&mut self, line: &[u8]) -> Result<(), Failed>
        requires { length line.now ≤ room self.old }
        ensures ok { OnOk result (said self.new ≡ told_more (said self.old) line.now) }
        ensures part { OnErr result (AddsPart (said self.old) line.now (said self.new)) }
        ensures coming { coming self.new ≡ coming self.old }
        ensures ended { ended self.new ≡ ended self.old }
        ensures later { faults self.old ≤ faults self.new }
        ensures cause { OnErr result (Rose (faults self.old) (faults self.new)) };
}
