//! The one fault of the outside.

/// A call of the outside failed. The object counts its faults, and the count rose in this call.
#[derive(Clone, Copy, PartialEq, Eq, Debug)]
pub struct Failed;
