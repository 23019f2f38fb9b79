//! Reading lists.
ghost use Rattle.std.specs.Prelude.{◌≡◌};
ghost use Rattle.mv_record.specs.Reading.{Gives, GivesField, list_at, many_at, byte_list_at, sub_at, happened_at};

use crate::fields::{Field, byte_list_of, u32_at};
use crate::reading_calls::{happened_of, sub_of};
use mv_calls::{Bytes, Happened, Happenings, Sub, Subs, Texts};
use std::alloc::Global;

/// Reads a count and as many byte lists.
pub(crate) fn texts_of(alloc: Global, bytes: &[u8]) -> Field<'_, Texts>
    ensures { GivesField result (list_at byte_list_at bytes.now) }
{
    let (count, rest) = u32_at(bytes)?;
    let (texts, rest) = many_texts(alloc, count, rest)?;
    Ok((Texts::from_vec(texts), rest))
}

fn many_texts(alloc: Global, count: u32, bytes: &[u8]) -> Field<'_, Vec<Bytes>>
    ensures { Gives (λ x. (x.0.items, x.1.now)) result (many_at byte_list_at count bytes.now) }
{
    let mut values = Vec::new(alloc);
    let mut rest = bytes;
    for _ in 0..count {
        let (value, after) = byte_list_of(alloc, rest)?;
        values.push(value)?;
        rest = after;
    }
    Ok((values, rest))
}

/// Reads a count and as many subscriptions.
pub(crate) fn subs_of(alloc: Global, bytes: &[u8]) -> Field<'_, Subs>
    ensures { GivesField result (list_at sub_at bytes.now) }
{
    let (count, rest) = u32_at(bytes)?;
    let (subs, rest) = many_subs(alloc, count, rest)?;
    Ok((Subs::from_vec(subs), rest))
}

fn many_subs(alloc: Global, count: u32, bytes: &[u8]) -> Field<'_, Vec<Sub>>
    ensures { Gives (λ x. (x.0.items, x.1.now)) result (many_at sub_at count bytes.now) }
{
    let mut values = Vec::new(alloc);
    let mut rest = bytes;
    for _ in 0..count {
        let (value, after) = sub_of(rest)?;
        values.push(value)?;
        rest = after;
    }
    Ok((values, rest))
}

/// Reads a count and as many events.
pub(crate) fn happenings_of(alloc: Global, bytes: &[u8]) -> Field<'_, Happenings>
    ensures { GivesField result (list_at happened_at bytes.now) }
{
    let (count, rest) = u32_at(bytes)?;
    let (happenings, rest) = many_happenings(alloc, count, rest)?;
    Ok((Happenings::from_vec(happenings), rest))
}

fn many_happenings(alloc: Global, count: u32, bytes: &[u8]) -> Field<'_, Vec<Happened>>
    ensures { Gives (λ x. (x.0.items, x.1.now)) result (many_at happened_at count bytes.now) }
{
    let mut values = Vec::new(alloc);
    let mut rest = bytes;
    for _ in 0..count {
        let (value, after) = happened_of(rest)?;
        values.push(value)?;
        rest = after;
    }
    Ok((values, rest))
}
