//! Reading numbers and byte lists.
ghost use Rattle.std.specs.Prelude.{◌≡◌, length, drop, take};
ghost use Rattle.mv_record.specs.Reading.{GivesField, number_at, byte_list_at};

use crate::fault::BodyFault;
use byteorder::{ByteOrder, LittleEndian};
use mv_calls::{Bytes, Or};
use std::alloc::Global;

/// A value and the bytes after it.
pub(crate) type Field<'a, T> = Result<(T, &'a [u8]), Or<BodyFault>>;

/// Reads a number of one byte.
pub(crate) fn u8_at(bytes: &[u8]) -> Field<'_, u8>
    ensures { GivesField result (number_at 1 bytes.now) }
{
    if bytes.is_empty() {
        return Err(Or::Fault(BodyFault::Passes));
    }
    Ok((bytes[0], &bytes[1..]))
}

/// Reads a number of 2 bytes.
pub(crate) fn u16_at(bytes: &[u8]) -> Field<'_, u16>
    ensures { GivesField result (number_at 2 bytes.now) }
{
    if bytes.len() < 2 {
        return Err(Or::Fault(BodyFault::Passes));
    }
    Ok((LittleEndian::read_u16(bytes), &bytes[2..]))
}

/// Reads a number of 4 bytes.
pub(crate) fn u32_at(bytes: &[u8]) -> Field<'_, u32>
    ensures { GivesField result (number_at 4 bytes.now) }
{
    if bytes.len() < 4 {
        return Err(Or::Fault(BodyFault::Passes));
    }
    Ok((LittleEndian::read_u32(bytes), &bytes[4..]))
}

/// Reads a number of 8 bytes.
pub(crate) fn u64_at(bytes: &[u8]) -> Field<'_, u64>
    ensures { GivesField result (number_at 8 bytes.now) }
{
    if bytes.len() < 8 {
        return Err(Or::Fault(BodyFault::Passes));
    }
    Ok((LittleEndian::read_u64(bytes), &bytes[8..]))
}

/// Reads a length and as many bytes.
#[tactic(auto, unfolding(crate::specs::Reading::byte_list_at))]
pub(crate) fn byte_list_of(alloc: Global, bytes: &[u8]) -> Field<'_, Bytes>
    ensures { GivesField result (byte_list_at bytes.now) }
{
    let (length, rest) = u32_at(bytes)?;
    let length = length as usize;
    if rest.len() < length {
        return Err(Or::Fault(BodyFault::Passes));
    }
    Ok((Bytes::from_slice(alloc, &rest[..length])?, &rest[length..]))
}
