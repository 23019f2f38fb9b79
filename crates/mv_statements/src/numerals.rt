//! Numbers.
ghost use Rattle.std.specs.Prelude.{◌≡◌, ◌+◌, ◌-◌, ◌*◌, ◌^◌, ◌<◌, ◌≤◌, IfSome, IsSome, MatchOption, Some, true};
ghost use Rattle.std.specs.List.{list_all};
ghost use Rattle.std.specs.Option.{SomeIff};
ghost use Rattle.mv_scan.specs.Words.{hex_value};
ghost use Rattle.mv_scan.specs.Numbers.{decimal};
ghost use Rattle.mv_syntax.specs.Types.{bit_width};
ghost use Rattle.mv_statements.specs.Numerals.{at_most, constant, hex_digit, hexadecimal, hexadecimal_from, is_hex_digit, negated, numeral};

use mv_scan::{Found, read_number};
use mv_syntax::ValType;

/// The value of a hexadecimal digit.
fn hex_value(byte: u8) -> Option<u8>
    ensures value { result ≡ hex_value byte }
    ensures digit { IfSome result (λ digit. digit < 16) }
{
    match byte {
        b'0'..=b'9' => Some(byte - b'0'),
        b'a'..=b'f' => Some(byte - b'a' + 10),
        b'A'..=b'F' => Some(byte - b'A' + 10),
        _ => None,
    }
}

fn are_hex_digits(bytes: &[u8]) -> bool
    ensures { result ≡ list_all is_hex_digit bytes.now }
{
    for byte in bytes {
        if hex_value(*byte).is_none() {
            return false;
        }
    }
    true
}

fn next_value(value: u64, byte: u8) -> Option<u64>
    ensures { SomeIff result (16 * value + hex_digit byte < 2 ^ 64) (16 * value + hex_digit byte) }
{
    let digit = hex_value(byte).unwrap_or(0);
    value.checked_mul(16)?.checked_add(u64::from(digit))
}

fn read_digits(bytes: &[u8], most: u64) -> Option<u64>
    ensures { MatchOption result (most < hexadecimal_from 0 bytes.now) (λ n. (n ≡ hexadecimal_from 0 bytes.now) × (n ≤ most)) }
{
    let mut value: u64 = 0;
    for byte in bytes {
        match next_value(value, *byte) {
            Some(next) => {
                if next > most {
                    return None;
                }
                value = next;
            }
            None => return None,
        }
    }
    Some(value)
}

fn read_hexadecimal(bytes: &[u8], most: u64) -> Option<u64>
    ensures { result ≡ at_most most (hexadecimal bytes.now) }
{
    if bytes.is_empty() || !are_hex_digits(bytes) {
        return None;
    }
    read_digits(bytes, most)
}

fn read_decimal(bytes: &[u8], most: u64) -> Option<u64>
    ensures { result ≡ at_most most (decimal bytes.now) }
{
    match read_number(bytes, 0, most) {
        Found::Is(n) => Some(n),
        Found::Other => None,
        Found::OutOfRange => None,
    }
}

/// A number of at most `most`: decimal digits, or `0x` and hexadecimal digits.
pub fn read_numeral(bytes: &[u8], most: u64) -> Option<u64>
    ensures value { result ≡ at_most most (numeral bytes.now) }
    ensures most { IfSome result (λ n. n ≤ most) }
{
    match bytes {
        [b'0', b'x', digits @ ..] => read_hexadecimal(digits, most),
        _ => read_decimal(bytes, most),
    }
}

/// The largest constant of the type, without a sign.
fn largest(vtype: ValType) -> u64
    ensures { result ≡ 2 ^ bit_width vtype - 1 }
{
    match vtype {
        ValType::I32 => 0xffff_ffff,
        ValType::I64 => 0xffff_ffff_ffff_ffff,
    }
}

/// The least constant of the type, without its sign.
fn least(vtype: ValType) -> u64
    ensures { result ≡ 2 ^ (bit_width vtype - 1) }
{
    match vtype {
        ValType::I32 => 0x8000_0000,
        ValType::I64 => 0x8000_0000_0000_0000,
    }
}

/// The number with its sign turned, as its sum with 2 to the width.
fn negated(vtype: ValType, value: u64) -> u64
    requires { value ≤ 2 ^ (bit_width vtype - 1) }
    ensures { result ≡ negated vtype value }
{
    if value == 0 {
        return 0;
    }
    largest(vtype) - (value - 1)
}

/// A constant of the type, of which one with `-` is held as its sum with 2 to the width.
pub fn read_constant(vtype: ValType, bytes: &[u8]) -> Option<u64>
    ensures { result ≡ constant vtype bytes.now }
{
    match bytes {
        [b'-', digits @ ..] => match read_decimal(digits, least(vtype)) {
            Some(n) => Some(negated(vtype, n)),
            None => None,
        },
        _ => read_numeral(bytes, largest(vtype)),
    }
}
