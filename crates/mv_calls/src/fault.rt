//! Want of memory, alone and beside the faults of a call.

use std::alloc::{AllocError, AllocFailed};

/// No memory was found. What was asked for is as it was before, unless the call says otherwise.
#[derive(Clone, Copy, PartialEq, Eq, Debug)]
pub struct OutOfMemory;

/// Why a call failed: by a fault of its own, or because no memory was found.
#[derive(PartialEq, Eq, Debug, Drop)]
pub enum Or<E> {
    Fault(E),
    OutOfMemory,
}

impl From<AllocError> for OutOfMemory {
    fn from(_error: AllocError) -> OutOfMemory {
        OutOfMemory
    }
}

impl<T: Drop> From<AllocFailed<T>> for OutOfMemory {
    fn from(_error: AllocFailed<T>) -> OutOfMemory {
        OutOfMemory
    }
}

impl<E> From<OutOfMemory> for Or<E> {
    ghost use Rattle.std.specs.Prelude.{◌≡◌};
    ghost use Rattle.mv_calls.specs.declared.fault.Or.TheVariants.{OutOfMemory as no_memory};

    ghost from_gives = { λ _ error. error ≡ no_memory };

    fn from(_error: OutOfMemory) -> Or<E> {
        Or::OutOfMemory
    }
}

impl<E> From<AllocError> for Or<E> {
    ghost use Rattle.std.specs.Prelude.{◌≡◌};
    ghost use Rattle.mv_calls.specs.declared.fault.Or.TheVariants.{OutOfMemory as no_memory};

    ghost from_gives = { λ _ error. error ≡ no_memory };

    fn from(_error: AllocError) -> Or<E> {
        Or::OutOfMemory
    }
}

impl<T: Drop, E> From<AllocFailed<T>> for Or<E> {
    ghost use Rattle.std.specs.Prelude.{◌≡◌};
    ghost use Rattle.mv_calls.specs.declared.fault.Or.TheVariants.{OutOfMemory as no_memory};

    ghost from_gives = { λ _ error. error ≡ no_memory };

    fn from(_error: AllocFailed<T>) -> Or<E> {
        Or::OutOfMemory
    }
}
