//! Where a test may hold one of the two activities.

/// Called outside the locks, before each turn of the leading activity and each step of the following
/// one. It changes nothing: a test may wait in it, and the program's own gate returns at once.
pub trait Gate {
    /// Before the leading activity's turn of this number, counted from 0.
    fn lead(&self, n: u64);

    /// Before the following activity's step of this number, counted from 0.
    fn follow(&self, n: u64);
}
