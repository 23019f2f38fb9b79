//! Descriptors, moments and parts of byte lists.
ghost use Rattle.std.specs.Prelude.{◌≡◌, ◌==◌, ◌<◌, IfOk, IfSome, length};
ghost use Rattle.std.specs.List.{position};
ghost use Rattle.mv_rules.specs.Forms.{all_parts, byte_name_of, fd_of, lone_fd, lone_time, named_at, part_of, parts_of, time_of};

use crate::lists::Parts;
use crate::rule::{FdTerm, Part, TimeTerm};
use mv_calls::{Bytes, OutOfMemory};
use mv_scan::{Found, Token, read_number};
use std::alloc::Global;

/// A descriptor, or a name that stands for one.
pub fn read_fd(alloc: Global, token: &Token) -> Result<Found<FdTerm>, OutOfMemory>
    ensures { IfOk result (λ found. found ≡ fd_of token.now) }
{
    let Token::Plain(word) = token else {
        return Ok(Found::Other);
    };
    match word.slice() {
        [b'$', name @ ..] => Ok(Found::Is(FdTerm::Name(Bytes::from_slice(alloc, name)?))),
        digits => Ok(match read_number(digits, 0, 0xFFFF_FFFF) {
            Found::Other => Found::Other,
            Found::OutOfRange => Found::OutOfRange,
            Found::Is(n) => Found::Is(FdTerm::Number(n as u32)),
        }),
    }
}

/// A moment, or a name that stands for one.
pub fn read_time(alloc: Global, token: &Token) -> Result<Found<TimeTerm>, OutOfMemory>
    ensures { IfOk result (λ found. found ≡ time_of token.now) }
{
    let Token::Plain(word) = token else {
        return Ok(Found::Other);
    };
    match word.slice() {
        [b'%', name @ ..] => Ok(Found::Is(TimeTerm::Name(Bytes::from_slice(alloc, name)?))),
        digits => Ok(match read_number(digits, 0, 0xFFFF_FFFF_FFFF_FFFF) {
            Found::Other => Found::Other,
            Found::OutOfRange => Found::OutOfRange,
            Found::Is(n) => Found::Is(TimeTerm::Number(n)),
        }),
    }
}

/// A descriptor that stands alone.
pub fn read_lone_fd(alloc: Global, tokens: &[Token]) -> Result<Found<FdTerm>, OutOfMemory>
    ensures { IfOk result (λ found. found ≡ lone_fd tokens.now) }
{
    match tokens {
        [token] => read_fd(alloc, token),
        _ => Ok(Found::Other),
    }
}

/// A moment that stands alone.
pub fn read_lone_time(alloc: Global, tokens: &[Token]) -> Result<Found<TimeTerm>, OutOfMemory>
    ensures { IfOk result (λ found. found ≡ lone_time tokens.now) }
{
    match tokens {
        [token] => read_time(alloc, token),
        _ => Ok(Found::Other),
    }
}

/// `@` and a name.
pub fn read_byte_name(alloc: Global, token: &Token) -> Result<Found<Bytes>, OutOfMemory>
    ensures { IfOk result (λ found. found ≡ byte_name_of token.now) }
{
    let Token::Plain(word) = token else {
        return Ok(Found::Other);
    };
    match word.slice() {
        [b'@', name @ ..] => Ok(Found::Is(Bytes::from_slice(alloc, name)?)),
        _ => Ok(Found::Other),
    }
}

/// The place of the first colon.
fn colon_in(word: &[u8]) -> Option<usize>
    ensures colon { result ≡ position (λ c. c == 58) word.now }
    ensures within { IfSome result (λ colon. colon < length word.now) }
{
    word.iter().position(|byte| *byte == b':')
}

/// What stands behind the `@` of a part: `name:N` where digits stand behind the first colon, else a name.
fn read_named(alloc: Global, word: &[u8], colon: Option<usize>) -> Result<Found<Part>, OutOfMemory>
    requires { IfSome colon (λ colon. colon < length word.now) }
    ensures { IfOk result (λ found. found ≡ named_at word.now colon) }
{
    let Some(colon) = colon else {
        return Ok(Found::Is(Part::Named(Bytes::from_slice(alloc, word)?)));
    };
    let (_, digits) = word.split_at(colon + 1);
    match read_number(digits, 1, 65_536) {
        Found::Other => Ok(Found::Is(Part::Named(Bytes::from_slice(alloc, word)?))),
        Found::OutOfRange => Ok(Found::OutOfRange),
        Found::Is(n) => Ok(Found::Is(Part::Sized {
            name: Bytes::from_slice(alloc, word.split_at(colon).0)?,
            length: n as u32,
        })),
    }
}

/// A part, which may be a length only where lengths may stand. A text that isn't one is read as a text of no bytes.
fn read_part(alloc: Global, lengths: bool, token: &Token) -> Result<Found<Part>, OutOfMemory>
    ensures { IfOk result (λ found. found ≡ part_of lengths token.now) }
{
    match token {
        Token::Plain(word) => match word.slice() {
            [b'@', name @ ..] => read_named(alloc, name, colon_in(name)),
            [b'#', name @ ..] => {
                if lengths {
                    Ok(Found::Is(Part::Length(Bytes::from_slice(alloc, name)?)))
                } else {
                    Ok(Found::Other)
                }
            }
            _ => Ok(Found::Other),
        },
        Token::Quoted(Some(text)) => Ok(Found::Is(Part::Text(text.copy(alloc)?))),
        Token::Quoted(None) => Ok(Found::Is(Part::Text(Bytes::from_vec(Vec::new(alloc))))),
        Token::Glued => Ok(Found::Other),
    }
}

/// One part or more.
pub fn read_parts(
    alloc: Global,
    lengths: bool,
    tokens: &[Token],
) -> Result<Found<Parts>, OutOfMemory>
    ensures { IfOk result (λ found. found ≡ parts_of lengths tokens.now) }
{
    if tokens.is_empty() {
        return Ok(Found::Other);
    }
    read_all_parts(alloc, lengths, tokens)
}

fn read_all_parts(
    alloc: Global,
    lengths: bool,
    tokens: &[Token],
) -> Result<Found<Parts>, OutOfMemory>
    ensures { IfOk result (λ found. found ≡ all_parts lengths tokens.now) }
{
    let mut parts = Vec::new(alloc);
    let mut in_range = true;
    for token in tokens {
        match read_part(alloc, lengths, token)? {
            Found::Other => return Ok(Found::Other),
            Found::OutOfRange => in_range = false,
            Found::Is(part) => parts.push(part)?,
        }
    }
    if in_range {
        Ok(Found::Is(Parts::from_vec(parts)))
    } else {
        Ok(Found::OutOfRange)
    }
}
