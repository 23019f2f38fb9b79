//! The words of a line.
ghost use Rattle.std.specs.Prelude.{◌≡◌, ◌↔◌, ◌≤◌, IfOk, List, length};
ghost use Rattle.std.specs.Option.{option_map};
ghost use Rattle.mv_scan.specs.declared.token.Token.{Token};
ghost use Rattle.mv_scan.specs.Words.{drop_spaces, first_word, word_len, words_of, words_within};
ghost use Rattle.mv_scan.specs.WordGrammar.{SpellsLine, SpellsWords};

use crate::scan::scan_text;
use crate::token::Token;
use mv_calls::{Bytes, OutOfMemory};
use std::alloc::Global;

/// What stands behind the spaces at the front.
fn skip_spaces(bytes: &[u8]) -> &[u8]
    ensures { result.now ≡ drop_spaces bytes.now }
{
    let mut rest = bytes;
    while let [b' ', after @ ..] = rest {
        rest = after;
    }
    rest
}

/// How many bytes stand before the first space.
fn count_to_space(bytes: &[u8]) -> usize
    ensures count { result ≡ word_len bytes.now }
    ensures within { result ≤ length bytes.now }
{
    for (index, byte) in bytes.iter().enumerate() {
        if *byte == b' ' {
            return index;
        }
    }
    bytes.len()
}

/// The first word behind the spaces at the front, and the bytes behind it.
fn next_word(alloc: Global, bytes: &[u8]) -> Result<Option<(Token, &[u8])>, OutOfMemory>
    ensures { IfOk result (λ word. option_map (λ t. (t.0, t.1.now)) word ≡ first_word (drop_spaces bytes.now)) }
{
    let rest = skip_spaces(bytes);
    match rest {
        [] => Ok(None),
        [b'"', text @ ..] => {
            let (text, after) = scan_text(alloc, text)?;
            let count = count_to_space(after);
            if count == 0 {
                return Ok(Some((Token::Quoted(text), after)));
            }
            let (_, after) = after.split_at(count);
            Ok(Some((Token::Glued, after)))
        }
        _ => {
            let (word, after) = rest.split_at(count_to_space(rest));
            Ok(Some((Token::Plain(Bytes::from_slice(alloc, word)?), after)))
        }
    }
}

fn find_words(alloc: Global, line: &[u8]) -> Result<Vec<Token>, OutOfMemory>
    ensures { IfOk result (λ words. words.items ≡ words_within (length line.now) line.now) }
{
    let mut words = Vec::new(alloc);
    let mut rest = line;
    for _ in 0..line.len() {
        match next_word(alloc, rest)? {
            Some((word, after)) => {
                words.push(word)?;
                rest = after;
            }
            None => return Ok(words),
        }
    }
    Ok(words)
}

/// The words of bytes among which no comment is looked for: those that spell the bytes, and no others do. The error is want
/// of memory.
pub fn split_words(alloc: Global, line: &[u8]) -> Result<Vec<Token>, OutOfMemory>
    ensures words { IfOk result (λ found. found.items ≡ words_within (length line.now) line.now) }
    ensures spelled { IfOk result (λ found. (words : List Token) → SpellsWords words line.now ↔ (found.items ≡ words)) }
{
    find_words(alloc, line)
}

fn find_line(alloc: Global, line: &[u8]) -> Result<Vec<Token>, OutOfMemory>
    ensures { IfOk result (λ words. words.items ≡ words_of line.now) }
{
    match skip_spaces(line) {
        [b';', ..] => Ok(Vec::new(alloc)),
        _ => find_words(alloc, line),
    }
}

/// The words of a line; none where its first byte behind spaces is `;`. They spell the line, and no others do. The error is
/// want of memory.
pub fn split_line(alloc: Global, line: &[u8]) -> Result<Vec<Token>, OutOfMemory>
    ensures words { IfOk result (λ found. found.items ≡ words_of line.now) }
    ensures spelled { IfOk result (λ found. (words : List Token) → SpellsLine words line.now ↔ (found.items ≡ words)) }
{
    find_line(alloc, line)
}
