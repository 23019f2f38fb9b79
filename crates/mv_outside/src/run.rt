//! What one run began with, for contracts alone.
ghost use Rattle.std.specs.Prelude.{None, []};
ghost use Rattle.mv_outside.specs.Began.{Began};

use std::marker::Brand;

/// A type that is a `Run` stands, for contracts alone, for what one run began with: the module and
/// the arguments of its guest, and the counts of faults of the kernel, the console and the files, and
/// what these told. It has no calls.
pub trait Run {
    /// What the run began with.
    ghost began: { Began };
}

impl Run for Brand {
    ghost began = { record { start = []; args = []; done = None; coming = None; said = None; files = None; kernel_faults = 0; console_faults = 0; files_faults = 0 } };
}
