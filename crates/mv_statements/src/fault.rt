//! What may be wrong with an assembler text.
ghost use Rattle.std.specs.Prelude.{◌≡◌};
ghost use Rattle.mv_statements.specs.Form.{rank, sooner};

use thiserror::Error;

/// What is wrong with a line of an assembler text (docs/FORMATS.md, "Assembler text"). The order is that of the table:
/// where one line has several faults, the first kind counts.
#[derive(Clone, Copy, PartialEq, Eq, Debug, Error)]
pub enum TextKind {
    /// The text has more than 16 MiB.
    #[error("Size")]
    Size,
    /// An unknown first word, or another word where a type, `const` or `var`, an export's kind or `->` must stand.
    #[error("Word")]
    Word,
    /// A directive in a function, an instruction or `endfunc` outside, a second table, memory or start.
    #[error("Place")]
    Place,
    /// Words that are missing or left over, a 1,001st parameter, or a 10,001st local.
    #[error("Count")]
    Count,
    /// A text that doesn't end, has another byte or escape or isn't there, or a name that isn't UTF-8.
    #[error("Quote")]
    Quote,
    /// A number of another form or out of its range.
    #[error("Number")]
    Number,
    /// `else` or `end` without its block, or `endfunc` in a block.
    #[error("Nest")]
    Nest,
    /// A function without `endfunc`.
    #[error("Unended")]
    Unended,
}

/// The first fault of an assembler text, with its line, counted from 1.
#[derive(Clone, Copy, PartialEq, Eq, Debug, Error)]
#[error("{kind} {line}")]
pub struct TextFault {
    pub line: u32,
    pub kind: TextKind,
}

/// The place of a kind in the order.
fn rank(kind: TextKind) -> u8
    ensures { result ≡ rank kind }
{
    match kind {
        TextKind::Size => 0,
        TextKind::Word => 1,
        TextKind::Place => 2,
        TextKind::Count => 3,
        TextKind::Quote => 4,
        TextKind::Number => 5,
        TextKind::Nest => 6,
        TextKind::Unended => 7,
    }
}

/// The kind that counts, once another was met before, or none.
pub fn sooner(before: Option<TextKind>, kind: TextKind) -> TextKind
    ensures { result ≡ sooner before kind }
{
    match before {
        Some(first) if rank(first) <= rank(kind) => first,
        _ => kind,
    }
}
