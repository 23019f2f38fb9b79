//! Numbers in decimal digits.
ghost use Rattle.std.specs.Prelude.{◌≡◌, ◌+◌, ◌-◌, ◌*◌, ◌^◌, ◌<◌, ◌≤◌, MatchOption, Some, true};
ghost use Rattle.std.specs.List.{list_all};
ghost use Rattle.std.specs.Option.{SomeIff};
ghost use Rattle.mv_scan.specs.Numbers.{decimal, decimal_from, in_range, is_digit, number_of};
ghost use Rattle.mv_scan.specs.Ranges.{IsAtMost};

use crate::found::Found;
use crate::token::Token;

fn are_digits(bytes: &[u8]) -> bool
    ensures { result ≡ list_all is_digit bytes.now }
{
    for byte in bytes {
        if !byte.is_ascii_digit() {
            return false;
        }
    }
    true
}

/// A number in decimal digits, from `low` to `high`; zeros may lead. It is `Other` where the bytes aren't digits alone, at least
/// one, and `OutOfRange` where they are digits of another number, however large.
pub fn read_number(bytes: &[u8], low: u64, high: u64) -> Found<u64>
    ensures found { result ≡ in_range low high (decimal bytes.now) }
    ensures most { IsAtMost high result }
{
    if bytes.is_empty() || !are_digits(bytes) {
        return Found::Other;
    }
    match read_digits(bytes, high) {
        Some(n) => {
            if low <= n {
                Found::Is(n)
            } else {
                Found::OutOfRange
            }
        }
        None => Found::OutOfRange,
    }
}

fn read_digits(bytes: &[u8], max: u64) -> Option<u64>
    requires { list_all is_digit bytes.now ≡ true }
    ensures { MatchOption result (max < decimal_from 0 bytes.now) (λ n. (n ≡ decimal_from 0 bytes.now) × (n ≤ max)) }
{
    let mut value: u64 = 0;
    for byte in bytes {
        match next_value(value, *byte) {
            Some(next) => {
                if next > max {
                    return None;
                }
                value = next;
            }
            None => return None,
        }
    }
    Some(value)
}

fn next_value(value: u64, byte: u8) -> Option<u64>
    ensures { SomeIff result (10 * value + (byte - 48) < 2 ^ 64) (10 * value + (byte - 48)) }
{
    value
        .checked_mul(10)?
        .checked_add(u64::from(byte.saturating_sub(48)))
}

/// A plain word that is a number from `low` to `high`, as `read_number` finds it; a text in quotes is `Other`.
pub fn number_word(token: &Token, low: u32, high: u32) -> Found<u32>
    ensures found { result ≡ number_of low high token.now }
    ensures most { IsAtMost high result }
{
    match token {
        Token::Plain(word) => match read_number(word.slice(), u64::from(low), u64::from(high)) {
            Found::Other => Found::Other,
            Found::OutOfRange => Found::OutOfRange,
            Found::Is(n) => Found::Is(n as u32),
        },
        Token::Quoted(_) => Found::Other,
        Token::Glued => Found::Other,
    }
}

/// A number as `number_word` finds it, of 16 bits.
pub fn short_word(token: &Token, low: u16, high: u16) -> Found<u16>
    ensures found { result ≡ number_of low high token.now }
    ensures most { IsAtMost high result }
{
    match number_word(token, u32::from(low), u32::from(high)) {
        Found::Other => Found::Other,
        Found::OutOfRange => Found::OutOfRange,
        Found::Is(n) => Found::Is(n as u16),
    }
}
