//! What a side of a rule reads and accepts, piece by piece.
ghost use Rattle.std.specs.Prelude.{◌≡◌, ◌↔◌, ◌∷◌, ◌<◌, [], IsTrue, MatchOption};
ghost use Rattle.mv_rulecheck.specs.Atoms.{accepts, read_atoms, read_atoms_of};
ghost use Rattle.mv_rulecheck.specs.Weights.{begun_weight, pattern_weight};
ghost use Rattle.mv_rulecheck.specs.Cursors.{atoms_left, atom_seen, begun_pieces, piece_seen};

use mv_calls::Bytes;
use mv_rules::{FdTerm, Part, Pattern};

/// A byte of a text, a byte name, or the length of what a byte name is bound to.
#[derive(Clone, Copy)]
pub enum PieceRef<'a> {
    Byte(u8),
    Name(&'a Bytes),
    LengthOf(&'a Bytes),
}

/// What is left of a read: its descriptor, the text that is begun, and the parts after it.
#[derive(Clone, Copy)]
pub struct Reading<'a> {
    pub fd: &'a FdTerm,
    pub text: &'a [u8],
    pub parts: &'a [Part],
}

/// What is left of a side: a read that is begun, and the patterns after it.
#[derive(Clone, Copy)]
pub struct Cursor<'a> {
    pub reading: Option<Reading<'a>>,
    pub patterns: &'a [Pattern],
}

/// One piece that is read, with its descriptor.
#[derive(Clone, Copy)]
pub struct AtomRef<'a> {
    pub fd: &'a FdTerm,
    pub piece: PieceRef<'a>,
}

/// The read that a pattern begins.
fn opened(pattern: &Pattern) -> Option<Reading<'_>>
    ensures atoms { begun_pieces result ≡ read_atoms_of pattern.now }
    ensures weight { begun_weight result < pattern_weight pattern.now }
{
    match pattern {
        Pattern::Read { fd, bytes } => Some(Reading {
            fd,
            text: &[],
            parts: bytes.slice(),
        }),
        _ => None,
    }
}

/// The next piece, and what is left behind it.
pub fn next_atom<'a>(cursor: Cursor<'a>) -> Option<(AtomRef<'a>, Cursor<'a>)>
    ensures { MatchOption result (atoms_left cursor.entry ≡ []) (λ t. atoms_left cursor.entry ≡ atom_seen t.0 ∷ atoms_left t.1) }
{
    let patterns = cursor.patterns;
    match cursor.reading {
        Some(
            Reading {
                fd,
                text: [byte, text @ ..],
                parts,
            },
        ) => Some((
            AtomRef {
                fd,
                piece: PieceRef::Byte(*byte),
            },
            Cursor {
                reading: Some(Reading { fd, text, parts }),
                patterns,
            },
        )),
        Some(
            Reading {
                fd,
                parts: [Part::Text(text), parts @ ..],
                ..
            },
        ) => next_atom(Cursor {
            reading: Some(Reading {
                fd,
                text: text.slice(),
                parts,
            }),
            patterns,
        }),
        Some(
            Reading {
                fd,
                parts: [Part::Sized { name, .. }, parts @ ..],
                ..
            },
        ) => Some((
            AtomRef {
                fd,
                piece: PieceRef::Name(name),
            },
            Cursor {
                reading: Some(Reading {
                    fd,
                    text: &[],
                    parts,
                }),
                patterns,
            },
        )),
        Some(
            Reading {
                fd,
                parts: [Part::Named(name), parts @ ..],
                ..
            },
        ) => Some((
            AtomRef {
                fd,
                piece: PieceRef::Name(name),
            },
            Cursor {
                reading: Some(Reading {
                    fd,
                    text: &[],
                    parts,
                }),
                patterns,
            },
        )),
        Some(
            Reading {
                fd,
                parts: [Part::Length(name), parts @ ..],
                ..
            },
        ) => Some((
            AtomRef {
                fd,
                piece: PieceRef::LengthOf(name),
            },
            Cursor {
                reading: Some(Reading {
                    fd,
                    text: &[],
                    parts,
                }),
                patterns,
            },
        )),
        Some(_) => next_atom(Cursor {
            reading: None,
            patterns,
        }),
        None => match patterns {
            [] => None,
            [pattern, patterns @ ..] => next_atom(Cursor {
                reading: opened(pattern),
                patterns,
            }),
        },
    }
}

/// A whole side.
fn begin(patterns: &[Pattern]) -> Cursor<'_>
    ensures { atoms_left result ≡ read_atoms patterns.now }
{
    let reading = None;
    Cursor { reading, patterns }
}

fn same_fd(a: &FdTerm, b: &FdTerm) -> bool
    ensures { IsTrue result ↔ (a.now ≡ b.now) }
{
    match (a, b) {
        (FdTerm::Number(x), FdTerm::Number(y)) => *x == *y,
        (FdTerm::Name(x), FdTerm::Name(y)) => x.slice() == y.slice(),
        _ => false,
    }
}

fn same_piece(a: PieceRef, b: PieceRef) -> bool
    ensures { IsTrue result ↔ (piece_seen a.entry ≡ piece_seen b.entry) }
{
    match (a, b) {
        (PieceRef::Byte(x), PieceRef::Byte(y)) => x == y,
        (PieceRef::Name(x), PieceRef::Name(y)) => x.slice() == y.slice(),
        (PieceRef::LengthOf(x), PieceRef::LengthOf(y)) => x.slice() == y.slice(),
        _ => false,
    }
}

fn same_atom(a: AtomRef, b: AtomRef) -> bool
    ensures { IsTrue result ↔ (atom_seen a.entry ≡ atom_seen b.entry) }
{
    same_fd(a.fd, b.fd) && same_piece(a.piece, b.piece)
}

/// Whether both sides read the same pieces of the same descriptors, as they are written.
pub fn same_reads(left: &[Pattern], right: &[Pattern]) -> bool
    ensures { IsTrue result ↔ (read_atoms right.now ≡ read_atoms left.now) }
{
    let mut a = begin(left);
    let mut b = begin(right);
    while let Some((x, rest)) = next_atom(a) {
        match next_atom(b) {
            Some((y, others)) => {
                if !same_atom(x, y) {
                    return false;
                }
                a = rest;
                b = others;
            }
            None => return false,
        }
    }
    next_atom(b).is_none()
}

/// The next accept without an errno, and the patterns behind it.
fn next_accept(patterns: &[Pattern]) -> Option<(&FdTerm, &FdTerm, &[Pattern])>
    ensures { MatchOption result (accepts patterns.now ≡ []) (λ t. accepts patterns.now ≡ (t.0.now, t.1.now) ∷ accepts t.2.now) }
{
    match patterns {
        [] => None,
        [Pattern::Accept { listener, made, .. }, rest @ ..] => Some((listener, made, rest)),
        [_, rest @ ..] => next_accept(rest),
    }
}

/// Whether both sides accept the same descriptors of the same listeners, as they are written.
pub fn same_accepts(left: &[Pattern], right: &[Pattern]) -> bool
    ensures { IsTrue result ↔ (accepts right.now ≡ accepts left.now) }
{
    let mut a = left;
    let mut b = right;
    while let Some((listener, made, rest)) = next_accept(a) {
        match next_accept(b) {
            Some((listener2, made2, others)) => {
                if !(same_fd(listener, listener2) && same_fd(made, made2)) {
                    return false;
                }
                a = rest;
                b = others;
            }
            None => return false,
        }
    }
    next_accept(b).is_none()
}
