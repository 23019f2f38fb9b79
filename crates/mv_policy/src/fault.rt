//! What may be wrong with the text of a policy.

use thiserror::Error;

/// What is wrong with a line of a policy (docs/FORMATS.md, "Faults of a policy"). The order is that of the table: where one
/// line has several faults, the first kind counts.
#[derive(Clone, Copy, PartialEq, Eq, Debug, Error)]
pub enum PolicyKind {
    /// The text has more than 65,536 bytes.
    #[error("Size")]
    Size,
    /// Line 1 is not that of a policy.
    #[error("Header")]
    Header,
    /// A line that has none of the forms.
    #[error("Word")]
    Word,
    /// A name or a token of another form than 1 to 64 printable bytes without a space, or a user of the name `*`.
    #[error("Name")]
    Name,
    /// A user who was named before.
    #[error("Twice")]
    Twice,
    /// A user who was not named before.
    #[error("Who")]
    Who,
    /// A line behind the 1,000th.
    #[error("Many")]
    Many,
}

/// The first fault of a policy, with its line, counted from 1.
#[derive(Clone, Copy, PartialEq, Eq, Debug, Error)]
#[error("{kind} {line}")]
pub struct PolicyFault {
    pub line: u32,
    pub kind: PolicyKind,
}
