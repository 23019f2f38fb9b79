//! What a line of a policy says.

use mv_calls::Bytes;

/// Whom a line speaks of.
#[derive(Debug, Drop)]
pub enum Who {
    /// Each user, written `*`.
    Anyone,
    /// The user of this name.
    Named(Bytes),
}

/// Which orders a line speaks of: all, written `*`, or those that begin with the word of one of the seven.
#[derive(Clone, Copy, PartialEq, Eq, Debug)]
pub enum Which {
    Any,
    Update,
    Promote,
    Discard,
    Finish,
    Back,
    Halt,
    Status,
}

/// A line of a policy behind its first (docs/FORMATS.md, "Policy").
#[derive(Debug, Drop)]
pub enum PolicyLine {
    /// Nothing stands on it.
    Empty,
    /// A user, and the token by which he is known.
    User { name: Bytes, token: Bytes },
    /// These orders are allowed.
    Allow { who: Who, which: Which },
    /// These orders are denied.
    Deny { who: Who, which: Which },
}
