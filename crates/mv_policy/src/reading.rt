//! The lines of a policy, one after another.
ghost use Rattle.std.specs.Prelude.{◌≡◌, ◌∷◌, [], ◌<◌, ◌≤◌, Err, IfOk, IfSome, Ok, Some, None, map, length, IfErr};
ghost use Rattle.std.specs.List.{list_all, list_any};
ghost use Rattle.mv_calls.specs.Or.{IfFault};
ghost use Rattle.mv_policy.specs.PolicyText.{fault_of, has_bad_name, has_stranger, is_again, is_name, is_name_byte, is_name_of, is_stranger, is_user};
ghost use Rattle.mv_policy.specs.Reading.{cut, judged, line_of, next_line, one_word, read_lines, rule_of, three_words, which_of, who_of};

use crate::fault::{PolicyFault, PolicyKind};
use crate::line::{PolicyLine, Which, Who};
use mv_calls::{Bytes, Or, OutOfMemory};
use std::alloc::Global;

/// The most lines behind the first.
const MOST_LINES: usize = 999;

/// The most bytes of a name or a token.
const LONGEST_NAME: usize = 64;

/// What stands between spaces.
fn words_in(alloc: Global, line: &[u8]) -> Result<Vec<&[u8]>, OutOfMemory>
    ensures { IfOk result (λ v. map (λ w. w.now) v.items ≡ cut 32 line.now) }
{
    let words = line.split(|b| *b == b' ').collect(alloc)?;
    Ok(words)
}

fn which_of(word: &[u8]) -> Option<Which>
    ensures { result ≡ which_of word.now }
{
    if word == b"*".as_slice() {
        Some(Which::Any)
    } else if word == b"update".as_slice() {
        Some(Which::Update)
    } else if word == b"promote".as_slice() {
        Some(Which::Promote)
    } else if word == b"discard".as_slice() {
        Some(Which::Discard)
    } else if word == b"finish".as_slice() {
        Some(Which::Finish)
    } else if word == b"back".as_slice() {
        Some(Which::Back)
    } else if word == b"halt".as_slice() {
        Some(Which::Halt)
    } else if word == b"status".as_slice() {
        Some(Which::Status)
    } else {
        None
    }
}

fn who_of(alloc: Global, word: &[u8]) -> Result<Who, OutOfMemory>
    ensures { IfOk result (λ who. who ≡ who_of word.now) }
{
    if word == b"*".as_slice() {
        Ok(Who::Anyone)
    } else {
        Ok(Who::Named(Bytes::from_slice(alloc, word)?))
    }
}

fn rule_of(verb: &[u8], who: Who, which: Which) -> Option<PolicyLine>
    ensures { result ≡ rule_of verb.now who which }
{
    if verb == b"allow".as_slice() {
        Some(PolicyLine::Allow { who, which })
    } else if verb == b"deny".as_slice() {
        Some(PolicyLine::Deny { who, which })
    } else {
        None
    }
}

/// The line of three words, if they have one of the forms.
fn three_words(
    alloc: Global,
    verb: &[u8],
    first: &[u8],
    second: &[u8],
) -> Result<Option<PolicyLine>, OutOfMemory>
    ensures { IfOk result (λ line. line ≡ three_words verb.now first.now second.now) }
{
    if first.is_empty() || second.is_empty() {
        return Ok(None);
    }
    if verb == b"user".as_slice() {
        return Ok(Some(PolicyLine::User {
            name: Bytes::from_slice(alloc, first)?,
            token: Bytes::from_slice(alloc, second)?,
        }));
    }
    match which_of(second) {
        Some(which) => Ok(rule_of(verb, who_of(alloc, first)?, which)),
        None => Ok(None),
    }
}

/// The line of some words, if they have one of the forms.
fn line_of(alloc: Global, words: &[&[u8]]) -> Result<Option<PolicyLine>, OutOfMemory>
    ensures { IfOk result (λ line. line ≡ line_of (map (λ w. w.now) words.now)) }
{
    if words.len() == 1 {
        Ok(words[0].is_empty().then_some(PolicyLine::Empty))
    } else if words.len() == 3 {
        three_words(alloc, words[0], words[1], words[2])
    } else {
        Ok(None)
    }
}

fn is_name_byte(byte: u8) -> bool
    ensures { result ≡ is_name_byte byte }
{
    33 <= byte && byte <= 126
}

fn are_name_bytes(name: &[u8]) -> bool
    ensures { result ≡ list_all is_name_byte name.now }
{
    name.iter().all(|byte| is_name_byte(*byte))
}

/// Whether the bytes have the form of a name.
fn is_name(name: &[u8]) -> bool
    ensures { result ≡ is_name name.now }
{
    1 <= name.len() && name.len() <= LONGEST_NAME && are_name_bytes(name)
}

fn is_name_of(who: &Who) -> bool
    ensures { result ≡ is_name_of who.now }
{
    match who {
        Who::Anyone => true,
        Who::Named(name) => is_name(name.slice()),
    }
}

fn has_bad_name(line: &PolicyLine) -> bool
    ensures { result ≡ has_bad_name line.now }
{
    match line {
        PolicyLine::Empty => false,
        PolicyLine::User { name, token } => {
            !is_name(name.slice()) || name.slice() == b"*".as_slice() || !is_name(token.slice())
        }
        PolicyLine::Allow { who, which: _ } => !is_name_of(who),
        PolicyLine::Deny { who, which: _ } => !is_name_of(who),
    }
}

fn is_user(name: &[u8], line: &PolicyLine) -> bool
    ensures { result ≡ is_user name.now line.now }
{
    match line {
        PolicyLine::User {
            name: other,
            token: _,
        } => other.slice() == name,
        _ => false,
    }
}

fn has_user(before: &[PolicyLine], name: &[u8]) -> bool
    ensures { result ≡ list_any (is_user name.now) before.now }
{
    before.iter().any(|line| is_user(name, line))
}

fn is_again(before: &[PolicyLine], line: &PolicyLine) -> bool
    ensures { result ≡ is_again before.now line.now }
{
    match line {
        PolicyLine::User { name, token: _ } => has_user(before, name.slice()),
        _ => false,
    }
}

fn is_stranger(before: &[PolicyLine], who: &Who) -> bool
    ensures { result ≡ is_stranger before.now who.now }
{
    match who {
        Who::Anyone => false,
        Who::Named(name) => !has_user(before, name.slice()),
    }
}

fn has_stranger(before: &[PolicyLine], line: &PolicyLine) -> bool
    ensures { result ≡ has_stranger before.now line.now }
{
    match line {
        PolicyLine::Allow { who, which: _ } => is_stranger(before, who),
        PolicyLine::Deny { who, which: _ } => is_stranger(before, who),
        _ => false,
    }
}

/// What is wrong with a line behind these.
fn fault_of(before: &[PolicyLine], line: &PolicyLine) -> Option<PolicyKind>
    ensures fault { result ≡ fault_of before.now line.now }
    ensures few { result ≡ None → length before.now < 999 }
{
    if has_bad_name(line) {
        Some(PolicyKind::Name)
    } else if is_again(before, line) {
        Some(PolicyKind::Twice)
    } else if has_stranger(before, line) {
        Some(PolicyKind::Who)
    } else if before.len() >= MOST_LINES {
        Some(PolicyKind::Many)
    } else {
        None
    }
}

/// The line, unless it has a fault behind these.
fn judged(before: &[PolicyLine], line: Option<PolicyLine>) -> Result<PolicyLine, PolicyFault>
    requires { length before.now ≤ 999 }
    ensures read { IfOk result (λ l. judged before.now line ≡ Ok l) }
    ensures few { IfOk result (λ _. length before.now < 999) }
    ensures fault { IfErr result (λ fault. judged before.now line ≡ Err fault) }
{
    let at = before.len() as u32 + 2;
    let Some(line) = line else {
        return Err(PolicyFault {
            line: at,
            kind: PolicyKind::Word,
        });
    };
    match fault_of(before, &line) {
        Some(kind) => Err(PolicyFault { line: at, kind }),
        None => Ok(line),
    }
}

/// The line that the bytes spell, unless it has a fault behind these.
fn next_line(
    alloc: Global,
    before: &[PolicyLine],
    bytes: &[u8],
) -> Result<PolicyLine, Or<PolicyFault>>
    requires { length before.now ≤ 999 }
    ensures read { IfOk result (λ line. next_line before.now bytes.now ≡ Ok line) }
    ensures few { IfOk result (λ _. length before.now < 999) }
    ensures fault { IfFault result (λ fault. next_line before.now bytes.now ≡ Err fault) }
{
    let words = words_in(alloc, bytes)?;
    let line = line_of(alloc, words.as_slice())?;
    match judged(before, line) {
        Ok(line) => Ok(line),
        Err(fault) => Err(Or::Fault(fault)),
    }
}

/// The lines that these bytes spell, up to the first that has a fault.
pub(crate) fn read_lines(alloc: Global, lines: &[&[u8]]) -> Result<Vec<PolicyLine>, Or<PolicyFault>>
    ensures read { IfOk result (λ policy. read_lines [] (map (λ w. w.now) lines.now) ≡ Ok policy.items) }
    ensures few { IfOk result (λ policy. length policy.items ≤ 999) }
    ensures fault { IfFault result (λ fault. read_lines [] (map (λ w. w.now) lines.now) ≡ Err fault) }
{
    let mut policy = Vec::new(alloc);
    for line in lines {
        let next = next_line(alloc, policy.as_slice(), line)?;
        policy.push(next)?;
    }
    Ok(policy)
}
