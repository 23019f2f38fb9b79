//! Why a file is no log.

use thiserror::Error;

/// What is wrong with a log file.
#[derive(Clone, Copy, PartialEq, Eq, Debug)]
pub enum RecordKind {
    /// The file doesn't begin with `MVLOG001`. The place is that of the first byte that differs.
    Magic,
    /// The file ends too early. The place is its length.
    Cut,
    /// A code that no table has. The place is its byte.
    Code,
    /// A body passes its length, or ends before it. The place is the first byte of the length.
    Length,
    /// A reply doesn't suit its call. The place is the reply's first byte.
    Suit,
    /// The file has more than 536,870,912 bytes. The place is 0.
    Limit,
}

/// The first fault of a log file, from the left.
#[derive(Clone, Copy, PartialEq, Eq, Debug, Error)]
#[error("{kind:?} at byte {place}")]
pub struct RecordFault {
    /// How many bytes of the file stand before the fault.
    pub place: u64,
    pub kind: RecordKind,
}

/// What is wrong in a body: it passes its length, or a code or a reply stands where so many bytes of it are left.
#[derive(Clone, Copy, PartialEq, Eq, Debug)]
pub enum BodyFault {
    Passes,
    Code(usize),
    Suit(usize),
}
