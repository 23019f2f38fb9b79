//! The forms of items and guards.
ghost use Rattle.std.specs.Prelude.{◌≡◌, ◌<◌, codes, IfOk, IfSome, length};
ghost use Rattle.std.specs.List.{position};
ghost use Rattle.mv_rules.specs.Forms.{accept_form, clock_form, close_form, comparison_of, errno_in, form_of, guard_of, is_errno, item_at, item_of, random_form, read_form, shutdown_form, verb_of, write_form, yield_form};
ghost use Rattle.mv_scan.specs.Words.{is_lone_word, is_word};
ghost use Rattle.mv_scan.specs.Numbers.{number_of};

use crate::rule::{Comparison, Guard, Pattern};
use crate::terms::{read_byte_name, read_fd, read_lone_fd, read_lone_time, read_parts};
use crate::verb::Verb;
use mv_calls::OutOfMemory;
use mv_scan::{Found, Token, both, is_lone_word, is_word, number_word, short_word};
use std::alloc::Global;

/// Whether the outcome begins with `errno`.
fn is_errno(tokens: &[Token]) -> bool
    ensures { result ≡ is_errno tokens.now }
{
    match tokens {
        [token, ..] => is_word(b"errno", token),
        [] => false,
    }
}

/// The number of `errno N`.
fn read_errno(tokens: &[Token]) -> Found<u16>
    ensures { result ≡ errno_in tokens.now }
{
    match tokens {
        [_, number] => short_word(number, 1, 65_535),
        _ => Found::Other,
    }
}

/// `read F -> B`, `read F -> errno N`
fn read_form(
    alloc: Global,
    lengths: bool,
    subject: &[Token],
    outcome: &[Token],
) -> Result<Found<Pattern>, OutOfMemory>
    ensures { IfOk result (λ found. found ≡ read_form lengths subject.now outcome.now) }
{
    let [fd] = subject else {
        return Ok(Found::Other);
    };
    let fd = read_fd(alloc, fd)?;
    if is_errno(outcome) {
        return Ok(match both(fd, read_errno(outcome)) {
            Found::Other => Found::Other,
            Found::OutOfRange => Found::OutOfRange,
            Found::Is((fd, errno)) => Found::Is(Pattern::ReadErrno { fd, errno }),
        });
    }
    Ok(match both(fd, read_parts(alloc, lengths, outcome)?) {
        Found::Other => Found::Other,
        Found::OutOfRange => Found::OutOfRange,
        Found::Is((fd, bytes)) => Found::Is(Pattern::Read { fd, bytes }),
    })
}

/// `write F B -> all`, `write F B -> errno N`
fn write_form(
    alloc: Global,
    lengths: bool,
    subject: &[Token],
    outcome: &[Token],
) -> Result<Found<Pattern>, OutOfMemory>
    ensures { IfOk result (λ found. found ≡ write_form lengths subject.now outcome.now) }
{
    let [fd, bytes @ ..] = subject else {
        return Ok(Found::Other);
    };
    let written = both(read_fd(alloc, fd)?, read_parts(alloc, lengths, bytes)?);
    if is_errno(outcome) {
        return Ok(match both(written, read_errno(outcome)) {
            Found::Other => Found::Other,
            Found::OutOfRange => Found::OutOfRange,
            Found::Is(((fd, bytes), errno)) => Found::Is(Pattern::WriteErrno { fd, bytes, errno }),
        });
    }
    if !is_lone_word(b"all", outcome) {
        return Ok(Found::Other);
    }
    Ok(match written {
        Found::Other => Found::Other,
        Found::OutOfRange => Found::OutOfRange,
        Found::Is((fd, bytes)) => Found::Is(Pattern::Write { fd, bytes }),
    })
}

/// `accept F K -> F`, `accept F K -> errno N`
fn accept_form(
    alloc: Global,
    subject: &[Token],
    outcome: &[Token],
) -> Result<Found<Pattern>, OutOfMemory>
    ensures { IfOk result (λ found. found ≡ accept_form subject.now outcome.now) }
{
    let [listener, flags] = subject else {
        return Ok(Found::Other);
    };
    let asked = both(read_fd(alloc, listener)?, short_word(flags, 0, 65_535));
    if is_errno(outcome) {
        return Ok(match both(asked, read_errno(outcome)) {
            Found::Other => Found::Other,
            Found::OutOfRange => Found::OutOfRange,
            Found::Is(((listener, flags), errno)) => Found::Is(Pattern::AcceptErrno {
                listener,
                flags,
                errno,
            }),
        });
    }
    Ok(match both(asked, read_lone_fd(alloc, outcome)?) {
        Found::Other => Found::Other,
        Found::OutOfRange => Found::OutOfRange,
        Found::Is(((listener, flags), made)) => Found::Is(Pattern::Accept {
            listener,
            flags,
            made,
        }),
    })
}

/// `close F -> done`, `close F -> errno N`
fn close_form(
    alloc: Global,
    subject: &[Token],
    outcome: &[Token],
) -> Result<Found<Pattern>, OutOfMemory>
    ensures { IfOk result (λ found. found ≡ close_form subject.now outcome.now) }
{
    let [fd] = subject else {
        return Ok(Found::Other);
    };
    let fd = read_fd(alloc, fd)?;
    if is_errno(outcome) {
        return Ok(match both(fd, read_errno(outcome)) {
            Found::Other => Found::Other,
            Found::OutOfRange => Found::OutOfRange,
            Found::Is((fd, errno)) => Found::Is(Pattern::CloseErrno { fd, errno }),
        });
    }
    if !is_lone_word(b"done", outcome) {
        return Ok(Found::Other);
    }
    Ok(match fd {
        Found::Other => Found::Other,
        Found::OutOfRange => Found::OutOfRange,
        Found::Is(fd) => Found::Is(Pattern::Close { fd }),
    })
}

/// The side of a connection that is shut down, from 1 to 3.
fn read_how(token: &Token) -> Found<u8>
    ensures { result ≡ number_of 1 3 token.now }
{
    match short_word(token, 1, 3) {
        Found::Other => Found::Other,
        Found::OutOfRange => Found::OutOfRange,
        Found::Is(how) => Found::Is(how as u8),
    }
}

/// `shutdown F H -> done`, `shutdown F H -> errno N`
fn shutdown_form(
    alloc: Global,
    subject: &[Token],
    outcome: &[Token],
) -> Result<Found<Pattern>, OutOfMemory>
    ensures { IfOk result (λ found. found ≡ shutdown_form subject.now outcome.now) }
{
    let [fd, how] = subject else {
        return Ok(Found::Other);
    };
    let asked = both(read_fd(alloc, fd)?, read_how(how));
    if is_errno(outcome) {
        return Ok(match both(asked, read_errno(outcome)) {
            Found::Other => Found::Other,
            Found::OutOfRange => Found::OutOfRange,
            Found::Is(((fd, how), errno)) => Found::Is(Pattern::ShutdownErrno { fd, how, errno }),
        });
    }
    if !is_lone_word(b"done", outcome) {
        return Ok(Found::Other);
    }
    Ok(match asked {
        Found::Other => Found::Other,
        Found::OutOfRange => Found::OutOfRange,
        Found::Is((fd, how)) => Found::Is(Pattern::Shutdown { fd, how }),
    })
}

/// `yield -> done`
fn yield_form(subject: &[Token], outcome: &[Token]) -> Found<Pattern>
    ensures { result ≡ yield_form subject.now outcome.now }
{
    match subject {
        [] => {
            if is_lone_word(b"done", outcome) {
                Found::Is(Pattern::Yield)
            } else {
                Found::Other
            }
        }
        _ => Found::Other,
    }
}

/// `clock I -> T`
fn clock_form(
    alloc: Global,
    subject: &[Token],
    outcome: &[Token],
) -> Result<Found<Pattern>, OutOfMemory>
    ensures { IfOk result (λ found. found ≡ clock_form subject.now outcome.now) }
{
    let [id] = subject else {
        return Ok(Found::Other);
    };
    Ok(
        match both(number_word(id, 0, 1), read_lone_time(alloc, outcome)?) {
            Found::Other => Found::Other,
            Found::OutOfRange => Found::OutOfRange,
            Found::Is((id, time)) => Found::Is(Pattern::Clock { id, time }),
        },
    )
}

/// `random -> B`
fn random_form(
    alloc: Global,
    lengths: bool,
    subject: &[Token],
    outcome: &[Token],
) -> Result<Found<Pattern>, OutOfMemory>
    ensures { IfOk result (λ found. found ≡ random_form lengths subject.now outcome.now) }
{
    let [] = subject else {
        return Ok(Found::Other);
    };
    Ok(match read_parts(alloc, lengths, outcome)? {
        Found::Other => Found::Other,
        Found::OutOfRange => Found::OutOfRange,
        Found::Is(bytes) => Found::Is(Pattern::Random { bytes }),
    })
}

/// What stands before an item's arrow and behind it, read by the form of its first word.
fn read_form_of(
    alloc: Global,
    verb: Verb,
    lengths: bool,
    subject: &[Token],
    outcome: &[Token],
) -> Result<Found<Pattern>, OutOfMemory>
    ensures { IfOk result (λ found. found ≡ form_of verb lengths subject.now outcome.now) }
{
    match verb {
        Verb::Read => read_form(alloc, lengths, subject, outcome),
        Verb::Write => write_form(alloc, lengths, subject, outcome),
        Verb::Accept => accept_form(alloc, subject, outcome),
        Verb::Close => close_form(alloc, subject, outcome),
        Verb::Shutdown => shutdown_form(alloc, subject, outcome),
        Verb::Yield => Ok(yield_form(subject, outcome)),
        Verb::Clock => clock_form(alloc, subject, outcome),
        Verb::Random => random_form(alloc, lengths, subject, outcome),
    }
}

/// The place of the first arrow.
fn arrow_in(tokens: &[Token]) -> Option<usize>
    ensures arrow { result ≡ position (is_word (codes "->")) tokens.now }
    ensures within { IfSome result (λ arrow. arrow < length tokens.now) }
{
    tokens.iter().position(|token| is_word(b"->", token))
}

fn read_item_at(
    alloc: Global,
    verb: Verb,
    lengths: bool,
    tokens: &[Token],
    arrow: Option<usize>,
) -> Result<Found<Pattern>, OutOfMemory>
    requires { IfSome arrow (λ arrow. arrow < length tokens.now) }
    ensures { IfOk result (λ found. found ≡ item_at verb lengths tokens.now arrow) }
{
    let Some(arrow) = arrow else {
        return Ok(Found::Other);
    };
    let (subject, _) = tokens.split_at(arrow);
    let (_, outcome) = tokens.split_at(arrow + 1);
    read_form_of(alloc, verb, lengths, subject, outcome)
}

/// The words of an item behind its first one.
pub fn read_item(
    alloc: Global,
    verb: Verb,
    lengths: bool,
    tokens: &[Token],
) -> Result<Found<Pattern>, OutOfMemory>
    ensures { IfOk result (λ found. found ≡ item_of verb lengths tokens.now) }
{
    read_item_at(alloc, verb, lengths, tokens, arrow_in(tokens))
}

/// What the first word of an item says.
pub fn verb_of(word: &[u8]) -> Option<Verb>
    ensures { result ≡ verb_of word.now }
{
    if word == b"read".as_slice() {
        Some(Verb::Read)
    } else if word == b"write".as_slice() {
        Some(Verb::Write)
    } else if word == b"accept".as_slice() {
        Some(Verb::Accept)
    } else if word == b"close".as_slice() {
        Some(Verb::Close)
    } else if word == b"shutdown".as_slice() {
        Some(Verb::Shutdown)
    } else if word == b"yield".as_slice() {
        Some(Verb::Yield)
    } else if word == b"clock".as_slice() {
        Some(Verb::Clock)
    } else if word == b"random".as_slice() {
        Some(Verb::Random)
    } else {
        None
    }
}

fn read_comparison(token: &Token) -> Found<Comparison>
    ensures { result ≡ comparison_of token.now }
{
    if is_word(b"=", token) {
        Found::Is(Comparison::Equal)
    } else if is_word(b"<", token) {
        Found::Is(Comparison::Less)
    } else if is_word(b">", token) {
        Found::Is(Comparison::Greater)
    } else {
        Found::Other
    }
}

/// What stands behind `when`.
pub fn read_guard(alloc: Global, tokens: &[Token]) -> Result<Found<Guard>, OutOfMemory>
    ensures { IfOk result (λ found. found ≡ guard_of tokens.now) }
{
    let [name, comparison, length] = tokens else {
        return Ok(Found::Other);
    };
    let named = both(read_byte_name(alloc, name)?, read_comparison(comparison));
    Ok(match both(named, number_word(length, 0, 65_536)) {
        Found::Other => Found::Other,
        Found::OutOfRange => Found::OutOfRange,
        Found::Is(((name, comparison), length)) => Found::Is(Guard {
            name,
            comparison,
            length,
        }),
    })
}
