//! Byte lists against their parts.
ghost use Rattle.std.specs.Prelude.{◌≡◌, IfOk};
ghost use Rattle.std.specs.Option.{option_map};
ghost use Rattle.mv_rewrite.specs.Matching.{bind_part, bind_parts};

use crate::names::Names;
use mv_calls::OutOfMemory;
use mv_rules::Part;
use std::alloc::Global;

/// Takes a part's bytes off the front: what is bound then, and the bytes behind them.
fn match_part<'a>(
    alloc: Global,
    names: Names,
    part: &Part,
    bytes: &'a [u8],
) -> Result<Option<(Names, &'a [u8])>, OutOfMemory>
    ensures { IfOk result (λ found. option_map (λ t. (t.0, t.1.now)) found ≡ bind_part part.now bytes.now names) }
{
    match part {
        Part::Text(text) => match bytes.strip_prefix(text.slice()) {
            Some(rest) => Ok(Some((names, rest))),
            None => Ok(None),
        },
        Part::Sized { name, length } => {
            let count = *length as usize;
            if count > bytes.len() {
                return Ok(None);
            }
            match names.bind_bytes(alloc, name, &bytes[..count])? {
                Some(names) => Ok(Some((names, &bytes[count..]))),
                None => Ok(None),
            }
        }
        Part::Named(name) => match names.bind_bytes(alloc, name, bytes)? {
            Some(names) => Ok(Some((names, &[]))),
            None => Ok(None),
        },
        Part::Length(_) => Ok(None),
    }
}

/// Matches all of the bytes.
pub fn match_parts(
    alloc: Global,
    names: Names,
    parts: &[Part],
    bytes: &[u8],
) -> Result<Option<Names>, OutOfMemory>
    ensures { IfOk result (λ found. found ≡ bind_parts parts.now bytes.now names) }
{
    let mut bound = names;
    let mut rest = bytes;
    for part in parts {
        match match_part(alloc, bound, part, rest)? {
            Some((names, after)) => {
                bound = names;
                rest = after;
            }
            None => return Ok(None),
        }
    }
    Ok(if rest.is_empty() { Some(bound) } else { None })
}
