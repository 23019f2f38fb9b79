//! The gate that holds nobody.

use crate::gate::Gate;

/// A gate that returns at once.
#[derive(Clone, Copy, PartialEq, Eq, Debug)]
pub struct FreeGate;

impl FreeGate {
    /// The gate of the program itself.
    pub fn new() -> FreeGate {
        FreeGate
    }
}

impl Gate for FreeGate {
    fn lead(&self, _n: u64) {}

    fn follow(&self, _n: u64) {}
}
