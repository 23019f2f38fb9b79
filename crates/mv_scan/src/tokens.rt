//! Words that are looked for.
ghost use Rattle.std.specs.Prelude.{◌≡◌};
ghost use Rattle.std.specs.List.{list_any};
ghost use Rattle.mv_scan.specs.Words.{is_bad_text, is_lone_word, is_word};

use crate::token::Token;

/// Whether the word is a plain one of these bytes.
pub fn is_word(word: &[u8], token: &Token) -> bool
    ensures { result ≡ is_word word.now token.now }
{
    match token {
        Token::Plain(bytes) => bytes.slice() == word,
        Token::Quoted(_) => false,
        Token::Glued => false,
    }
}

/// Whether this word stands alone.
pub fn is_lone_word(word: &[u8], tokens: &[Token]) -> bool
    ensures { result ≡ is_lone_word word.now tokens.now }
{
    match tokens {
        [token] => is_word(word, token),
        _ => false,
    }
}

/// Whether a word is a text that doesn't end or has another byte or escape.
pub fn has_bad_text(tokens: &[Token]) -> bool
    ensures { result ≡ list_any is_bad_text tokens.now }
{
    for token in tokens {
        if let Token::Quoted(None) = token {
            return true;
        }
    }
    false
}
