//! Writing numbers, byte lists and lists.
ghost use Rattle.std.specs.Prelude.{◌≡◌, ◌++◌, length, OnOk};
ghost use Rattle.std.specs.List.{flat_map, AllByRecursion};
ghost use Rattle.byteorder.specs.Endian.{little_bytes};
ghost use Rattle.mv_record.specs.Spelling.{byte, byte_list, list_text, sub_text, happened_text};
ghost use Rattle.mv_record.specs.Fitting.{IsU8, IsU16, IsU32, IsU64, IsSmall, FitsList, FitsSub, FitsHappened};

use crate::writing_calls::{put_happened, put_sub};
use byteorder::{ByteOrder, LittleEndian};
use mv_calls::{Bytes, Happened, OutOfMemory, Sub};

/// Writes a number of one byte.
pub(crate) fn put_u8(out: &mut Vec<u8>, number: u8) -> Result<(), OutOfMemory>
    ensures range { OnOk result (IsU8 number) }
    ensures text { OnOk result (out.new.items ≡ out.old.items ++ byte number) }
{
    out.push(number)?;
    Ok(())
}

/// Writes a number of 2 bytes.
pub(crate) fn put_u16(out: &mut Vec<u8>, number: u16) -> Result<(), OutOfMemory>
    ensures range { OnOk result (IsU16 number) }
    ensures text { OnOk result (out.new.items ≡ out.old.items ++ little_bytes 2 number) }
{
    let mut bytes = [0u8; 2];
    LittleEndian::write_u16(&mut bytes, number);
    out.extend_from_slice(&bytes)?;
    Ok(())
}

/// Writes a number of 4 bytes.
pub(crate) fn put_u32(out: &mut Vec<u8>, number: u32) -> Result<(), OutOfMemory>
    ensures range { OnOk result (IsU32 number) }
    ensures text { OnOk result (out.new.items ≡ out.old.items ++ little_bytes 4 number) }
{
    let mut bytes = [0u8; 4];
    LittleEndian::write_u32(&mut bytes, number);
    out.extend_from_slice(&bytes)?;
    Ok(())
}

/// Writes a number of 8 bytes.
pub(crate) fn put_u64(out: &mut Vec<u8>, number: u64) -> Result<(), OutOfMemory>
    ensures range { OnOk result (IsU64 number) }
    ensures text { OnOk result (out.new.items ≡ out.old.items ++ little_bytes 8 number) }
{
    let mut bytes = [0u8; 8];
    LittleEndian::write_u64(&mut bytes, number);
    out.extend_from_slice(&bytes)?;
    Ok(())
}

/// Writes a length and as many bytes. A length that doesn't fit has no file.
pub(crate) fn put_byte_list(out: &mut Vec<u8>, bytes: &[u8]) -> Result<(), OutOfMemory>
    ensures fits { OnOk result (IsSmall bytes.now) }
    ensures text { OnOk result (out.new.items ≡ out.old.items ++ byte_list bytes.now) }
{
    if bytes.len() > u32::MAX as usize {
        return Err(OutOfMemory);
    }
    put_u32(out, bytes.len() as u32)?;
    out.extend_from_slice(bytes)?;
    Ok(())
}

/// Writes a count and as many byte lists. A count that doesn't fit has no file.
pub(crate) fn put_texts(out: &mut Vec<u8>, values: &[Bytes]) -> Result<(), OutOfMemory>
    ensures fits { OnOk result (FitsList IsSmall values.now) }
    ensures text { OnOk result (out.new.items ≡ out.old.items ++ list_text byte_list values.now) }
{
    if values.len() > u32::MAX as usize {
        return Err(OutOfMemory);
    }
    put_u32(out, values.len() as u32)?;
    put_each_texts(out, values)
}

fn put_each_texts(out: &mut Vec<u8>, values: &[Bytes]) -> Result<(), OutOfMemory>
    ensures fits { OnOk result (AllByRecursion IsSmall values.now) }
    ensures text { OnOk result (out.new.items ≡ out.old.items ++ flat_map byte_list values.now) }
{
    for value in values {
        put_byte_list(out, value.slice())?;
    }
    Ok(())
}

/// Writes a count and as many subscriptions. A count that doesn't fit has no file.
pub(crate) fn put_subs(out: &mut Vec<u8>, values: &[Sub]) -> Result<(), OutOfMemory>
    ensures fits { OnOk result (FitsList FitsSub values.now) }
    ensures text { OnOk result (out.new.items ≡ out.old.items ++ list_text sub_text values.now) }
{
    if values.len() > u32::MAX as usize {
        return Err(OutOfMemory);
    }
    put_u32(out, values.len() as u32)?;
    put_each_subs(out, values)
}

fn put_each_subs(out: &mut Vec<u8>, values: &[Sub]) -> Result<(), OutOfMemory>
    ensures fits { OnOk result (AllByRecursion FitsSub values.now) }
    ensures text { OnOk result (out.new.items ≡ out.old.items ++ flat_map sub_text values.now) }
{
    for value in values {
        put_sub(out, *value)?;
    }
    Ok(())
}

/// Writes a count and as many events. A count that doesn't fit has no file.
pub(crate) fn put_happenings(out: &mut Vec<u8>, values: &[Happened]) -> Result<(), OutOfMemory>
    ensures fits { OnOk result (FitsList FitsHappened values.now) }
    ensures text { OnOk result (out.new.items ≡ out.old.items ++ list_text happened_text values.now) }
{
    if values.len() > u32::MAX as usize {
        return Err(OutOfMemory);
    }
    put_u32(out, values.len() as u32)?;
    put_each_happenings(out, values)
}

fn put_each_happenings(out: &mut Vec<u8>, values: &[Happened]) -> Result<(), OutOfMemory>
    ensures fits { OnOk result (AllByRecursion FitsHappened values.now) }
    ensures text { OnOk result (out.new.items ≡ out.old.items ++ flat_map happened_text values.now) }
{
    for value in values {
        put_happened(out, *value)?;
    }
    Ok(())
}
