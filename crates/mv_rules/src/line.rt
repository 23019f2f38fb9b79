//! What a line of a rules text is.
ghost use Rattle.std.specs.Prelude.{◌≡◌, IfOk};
ghost use Rattle.mv_rules.specs.RulesText.{guard_line, has_words, item_line, lengths_stand, line_of, line_under};

use crate::forms::{read_guard, read_item, verb_of};
use crate::reading::{Phase, Version};
use crate::rule::{Guard, Pattern};
use crate::verb::Verb;
use mv_calls::OutOfMemory;
use mv_scan::{Found, Token};
use std::alloc::Global;

/// A line, by its first word. The `bool` says whether other words follow `rule`, `to` or `end`.
#[derive(Drop)]
pub enum Line {
    Blank,
    Begins(bool),
    Turns(bool),
    Ends(bool),
    Item(Found<Pattern>),
    When(Found<Guard>),
    Other,
}

/// Whether a `#name` is a part here.
pub fn lengths_stand(version: Version, phase: &Phase) -> bool
    ensures { result ≡ lengths_stand version phase.now }
{
    match (version, phase) {
        (Version::Second, Phase::InRight(_)) => true,
        _ => false,
    }
}

fn item_line(
    alloc: Global,
    lengths: bool,
    rest: &[Token],
    verb: Option<Verb>,
) -> Result<Line, OutOfMemory>
    ensures { IfOk result (λ line. line ≡ item_line lengths rest.now verb) }
{
    match verb {
        Some(verb) => Ok(Line::Item(read_item(alloc, verb, lengths, rest)?)),
        None => Ok(Line::Other),
    }
}

fn guard_line(alloc: Global, version: Version, rest: &[Token]) -> Result<Line, OutOfMemory>
    ensures { IfOk result (λ line. line ≡ guard_line version rest.now) }
{
    match version {
        Version::First => Ok(Line::Other),
        Version::Second => Ok(Line::When(read_guard(alloc, rest)?)),
    }
}

fn has_words(tokens: &[Token]) -> bool
    ensures { result ≡ has_words tokens.now }
{
    match tokens {
        [] => false,
        _ => true,
    }
}

fn line_under(
    alloc: Global,
    version: Version,
    lengths: bool,
    word: &[u8],
    rest: &[Token],
) -> Result<Line, OutOfMemory>
    ensures { IfOk result (λ line. line ≡ line_under version lengths word.now rest.now) }
{
    if word == b"rule".as_slice() {
        Ok(Line::Begins(has_words(rest)))
    } else if word == b"to".as_slice() {
        Ok(Line::Turns(has_words(rest)))
    } else if word == b"end".as_slice() {
        Ok(Line::Ends(has_words(rest)))
    } else if word == b"when".as_slice() {
        guard_line(alloc, version, rest)
    } else {
        item_line(alloc, lengths, rest, verb_of(word))
    }
}

/// The line that has these words.
pub fn read_line_of(
    alloc: Global,
    version: Version,
    lengths: bool,
    tokens: &[Token],
) -> Result<Line, OutOfMemory>
    ensures { IfOk result (λ line. line ≡ line_of version lengths tokens.now) }
{
    match tokens {
        [] => Ok(Line::Blank),
        [Token::Plain(word), rest @ ..] => line_under(alloc, version, lengths, word.slice(), rest),
        _ => Ok(Line::Other),
    }
}
