//! The text of a policy.
ghost use Rattle.std.specs.Prelude.{◌≡◌, ◌≢◌, ◌⊎◌, ◌∷◌, ◌++◌, [], ◌≤◌, Err, IfOk, List, ℕ, Ok, Result, map, length};
ghost use Rattle.mv_calls.specs.Or.{IfFault};
ghost use Rattle.mv_policy.specs.declared.line.PolicyLine.{PolicyLine};
ghost use Rattle.mv_policy.specs.declared.fault.PolicyFault.{PolicyFault};
ghost use Rattle.mv_policy.specs.PolicyText.{IsFirstFault, Reads, Spells};
ghost use Rattle.mv_policy.specs.Reading.{cut, read_all};

use crate::fault::{PolicyFault, PolicyKind};
use crate::policy::Policy;
use crate::reading::read_lines;
use mv_calls::{Or, OutOfMemory};
use std::alloc::Global;

/// The largest text, in bytes.
const LARGEST: usize = 65_536;

/// The text without a line feed at its very end.
fn without_end(text: &[u8]) -> &[u8]
    ensures { (text.now ≡ result.now ++ 10 ∷ []) ⊎ ((result.now ≡ text.now) × ((front : List ℕ) → text.now ≢ front ++ 10 ∷ [])) }
{
    match text.split_last() {
        Some((b'\n', front)) => front,
        _ => text,
    }
}

/// What stands between line feeds.
fn lines_in(alloc: Global, text: &[u8]) -> Result<Vec<&[u8]>, OutOfMemory>
    ensures { IfOk result (λ v. map (λ w. w.now) v.items ≡ cut 10 text.now) }
{
    let lines = text.split(|b| *b == b'\n').collect(alloc)?;
    Ok(lines)
}

/// The policy of some lines, of which the first is the text's first.
fn read_all(alloc: Global, lines: &[&[u8]]) -> Result<Policy, Or<PolicyFault>>
    ensures read { IfOk result (λ policy. read_all (map (λ w. w.now) lines.now) ≡ Ok policy) }
    ensures fault { IfFault result (λ fault. read_all (map (λ w. w.now) lines.now) ≡ Err fault) }
{
    match lines.split_first() {
        Some((first, rest)) if *first == b"mvpolicy 1".as_slice() => Ok(Policy {
            lines: read_lines(alloc, rest)?,
        }),
        _ => Err(Or::Fault(PolicyFault {
            line: 1,
            kind: PolicyKind::Header,
        })),
    }
}

/// The policy that a text spells (docs/FORMATS.md, "Policy"). The fault is the first: that of the first faulty line, and on it
/// the first kind in the order of the table. The other error is want of memory.
pub fn parse_policy(alloc: Global, text: &[u8]) -> Result<Policy, Or<PolicyFault>>
    ensures policy { IfOk result (λ policy. Spells text.now policy) }
    ensures fault { IfFault result (λ fault. IsFirstFault text.now fault) }
{
    if text.len() > LARGEST {
        return Err(Or::Fault(PolicyFault {
            line: 1,
            kind: PolicyKind::Size,
        }));
    }
    let lines = lines_in(alloc, without_end(text))?;
    read_all(alloc, lines.as_slice())
}

/// A text is read in one way, as one policy or as one first fault: a law about the definition, which every reader of policies
/// stands on.
pub fn one_reading()
    ensures { (text : List ℕ) (a b : Result (List PolicyLine) PolicyFault) → Reads text a → Reads text b → a ≡ b }
{}
