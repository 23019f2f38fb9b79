//! What may be wrong with a rules file.

use thiserror::Error;

/// What is wrong with a line of a rules file (docs/FORMATS.md, "Faults of rules"). The order is that of the table: where
/// one line has several faults, the first kind counts.
#[derive(Clone, Copy, PartialEq, Eq, Debug, Error)]
pub enum RuleKind {
    /// The file has more than 65,536 bytes.
    #[error("Size")]
    Size,
    /// Line 1 is not that of a rules file.
    #[error("Header")]
    Header,
    /// An item outside a rule, or `rule`, `to`, `end` or the file's end out of place.
    #[error("Shape")]
    Shape,
    /// The 65th rule, the 9th left or the 17th right item, or the 17th part of a byte list.
    #[error("Many")]
    Many,
    /// `to` after no left item.
    #[error("Empty")]
    Empty,
    /// A line that has none of the forms.
    #[error("Word")]
    Word,
    /// A number out of its range.
    #[error("Number")]
    Number,
    /// A text that doesn't end, or has another byte or escape.
    #[error("Quote")]
    Quote,
    /// A name of another form, or a part that doesn't stand on this side or in this place.
    #[error("Name")]
    Name,
    /// A byte name that stood on the left before.
    #[error("Twice")]
    Twice,
    /// A name on the right that the left doesn't bind.
    #[error("Unbound")]
    Unbound,
    /// The two sides of a rule read different bytes.
    #[error("Reads")]
    Reads,
    /// The two sides of a rule accept different connections.
    #[error("Accepts")]
    Accepts,
    /// A guard of a name that no earlier left item binds, or a rule's ninth guard.
    #[error("Guard")]
    Guard,
}

/// The first fault of a rules file, with its line, counted from 1.
#[derive(Clone, Copy, PartialEq, Eq, Debug, Error)]
#[error("{kind} {line}")]
pub struct RuleFault {
    pub line: u32,
    pub kind: RuleKind,
}
