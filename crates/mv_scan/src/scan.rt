//! Texts in quotes.
ghost use Rattle.std.specs.Prelude.{◌≡◌, ◌<◌, IfOk, IfSome};
ghost use Rattle.mv_scan.specs.Words.{escaped, given_by, hex_value, no_digit, scan, step_of, IsPlace, LeadsToPlace};

use mv_calls::{Bytes, OutOfMemory};
use std::alloc::Global;

/// Where a text has got to: among its bytes, behind a backslash, behind `\x`, or behind `\x` and a first digit.
#[derive(Clone, Copy)]
pub enum Place {
    Among,
    Backslash,
    High,
    Low(u8),
}

/// What a byte does: it closes the text, leads on, or gives a byte of it. Where it may not stand there is no text, whose end is
/// still looked for: it leads on all the same, or closes it.
#[derive(Clone, Copy)]
pub enum Effect {
    Closes,
    Leads(Place),
    Gives(u8),
    Spoils(Place),
    Breaks,
}

fn hex_value(byte: u8) -> Option<u8>
    ensures value { result ≡ hex_value byte }
    ensures digit { IfSome result (λ digit. digit < 16) }
{
    match byte {
        b'0'..=b'9' => Some(byte - b'0'),
        b'a'..=b'f' => Some(byte - b'a' + 10),
        b'A'..=b'F' => Some(byte - b'A' + 10),
        _ => None,
    }
}

/// The byte that a backslash and this byte stand for.
fn escaped(byte: u8) -> Option<u8>
    ensures { result ≡ escaped byte }
{
    match byte {
        b'n' => Some(b'\n'),
        b'r' => Some(b'\r'),
        b't' => Some(b'\t'),
        b'"' => Some(b'"'),
        b'\\' => Some(b'\\'),
        _ => None,
    }
}

/// A byte that is given, or one that may not stand.
fn given_by(byte: Option<u8>) -> Effect
    ensures effect { result ≡ given_by byte }
    ensures place { LeadsToPlace result }
{
    match byte {
        Some(byte) => Effect::Gives(byte),
        None => Effect::Spoils(Place::Among),
    }
}

/// A byte in a digit's place that is none: it is read as one among the others.
fn no_digit(byte: u8) -> Effect
    ensures effect { result ≡ no_digit byte }
    ensures place { LeadsToPlace result }
{
    match byte {
        b'"' => Effect::Breaks,
        b'\\' => Effect::Spoils(Place::Backslash),
        _ => Effect::Spoils(Place::Among),
    }
}

fn step(place: Place, byte: u8) -> Effect
    requires { IsPlace place }
    ensures effect { result ≡ step_of place byte }
    ensures place { LeadsToPlace result }
{
    match place {
        Place::Among => match byte {
            b'"' => Effect::Closes,
            b'\\' => Effect::Leads(Place::Backslash),
            0x20..=0x7E => Effect::Gives(byte),
            _ => Effect::Spoils(Place::Among),
        },
        Place::Backslash => {
            if byte == b'x' {
                Effect::Leads(Place::High)
            } else {
                given_by(escaped(byte))
            }
        }
        Place::High => match hex_value(byte) {
            Some(high) => Effect::Leads(Place::Low(high)),
            None => no_digit(byte),
        },
        Place::Low(high) => match hex_value(byte) {
            Some(low) => Effect::Gives(16 * high + low),
            None => no_digit(byte),
        },
    }
}

/// A text after its opening quote, up to its closing one, and the bytes behind that. It is none where it doesn't end or has
/// another byte or escape. A backslash takes the byte behind it along, so `\"` closes no text; each other quote does.
pub fn scan_text(alloc: Global, bytes: &[u8]) -> Result<(Option<Bytes>, &[u8]), OutOfMemory>
    ensures { IfOk result (λ scanned. (scanned.0, scanned.1.now) ≡ scan Place.Among bytes.now) }
{
    let mut text = Vec::new(alloc);
    let mut good = true;
    let mut place = Place::Among;
    let mut rest = bytes;
    while let [byte, after @ ..] = rest {
        rest = after;
        match step(place, *byte) {
            Effect::Closes => return Ok((
                if good {
                    Some(Bytes::from_vec(text))
                } else {
                    None
                },
                rest,
            )),
            Effect::Breaks => return Ok((None, rest)),
            Effect::Leads(next) => place = next,
            Effect::Spoils(next) => {
                place = next;
                good = false;
            }
            Effect::Gives(value) => {
                place = Place::Among;
                text.push(value)?;
            }
        }
    }
    Ok((None, rest))
}
