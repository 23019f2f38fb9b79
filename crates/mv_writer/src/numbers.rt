//! Numbers, in groups of seven bits, the low ones first.
ghost use Rattle.std.specs.Prelude.{◌≡◌, ◌+◌, ◌*◌, ◌^◌, ◌≤◌, ◌<◌, ◌++◌, length, OnOk};
ghost use Rattle.mv_writer.specs.Written.{short_groups, short_u32, half as half_of, short_signed, short_s32, short_s64, behind_size};

use mv_calls::OutOfMemory;

/// Appends a number in as few groups as hold it, of which it has at most so many.
fn push_groups(out: &mut Vec<u8>, groups: u32, value: u64) -> Result<(), OutOfMemory>
    ensures { OnOk result (out.new.items ≡ out.old.items ++ short_groups groups value) }
{
    if groups == 0 {
        return Ok(());
    }
    if value < 128 {
        out.push(value as u8)?;
        return Ok(());
    }
    out.push((128 + value % 128) as u8)?;
    push_groups(out, groups - 1, value / 128)
}

/// Appends a number of 32 bits. The counts and sizes of a module that has a spelling are such numbers.
#[tactic(auto, unfolding(crate::specs::Written::short_u32))]
pub fn push_number(out: &mut Vec<u8>, value: u64) -> Result<(), OutOfMemory>
    ensures { OnOk result (out.new.items ≡ out.old.items ++ short_u32 value) }
{
    push_groups(out, 5, value)
}

/// How many numbers of the last group of `width` bits aren't negative; `max` has all of these bits.
#[tactic(auto, using(mv_syntax::proofs::Powers::half_is, mv_syntax::proofs::Powers::half_is_64, mv_syntax::proofs::Powers::half_least))]
fn half(width: u32, max: u64) -> u64
    requires max { max + 1 ≡ 2 ^ width }
    requires some { 1 ≤ width }
    ensures half { result ≡ half_of width }
    ensures fits { 2 * result ≤ max + 1 }
    ensures most { result ≤ 64 }
{
    if width < 7 { max / 2 + 1 } else { 64 }
}

/// Appends a number of `width` bits with a sign, a negative one as its sum with 2^`width`, in as few groups as
/// hold it, of which it has at most so many; `max` has all bits of the width.
fn push_signed(
    out: &mut Vec<u8>,
    groups: u32,
    width: u32,
    max: u64,
    value: u64,
) -> Result<(), OutOfMemory>
    requires max { max + 1 ≡ 2 ^ width }
    requires some { 1 ≤ width }
    requires value { value ≤ max }
    ensures { OnOk result (out.new.items ≡ out.old.items ++ short_signed groups width value) }
{
    if groups == 0 {
        return Ok(());
    }
    let half = half(width, max);
    if value < half {
        out.push(value as u8)?;
        return Ok(());
    }
    if value <= max - half {
        out.push((128 + value % 128) as u8)?;
        return push_signed(out, groups - 1, width - 7, max / 128, value / 128);
    }
    out.push((127 - (max - value)) as u8)?;
    Ok(())
}

/// Appends a number of 32 bits with a sign, a negative one as its sum with 2^32.
#[tactic(auto, unfolding(crate::specs::Written::short_s32))]
pub fn push_s32(out: &mut Vec<u8>, value: u64) -> Result<(), OutOfMemory>
    requires { value < 2 ^ 32 }
    ensures { OnOk result (out.new.items ≡ out.old.items ++ short_s32 value) }
{
    push_signed(out, 5, 32, 0xffff_ffff, value)
}

/// Appends a number of 64 bits with a sign, a negative one as its sum with 2^64.
#[tactic(auto, unfolding(crate::specs::Written::short_s64))]
pub fn push_s64(out: &mut Vec<u8>, value: u64) -> Result<(), OutOfMemory>
    ensures { OnOk result (out.new.items ≡ out.old.items ++ short_s64 value) }
{
    push_signed(out, 10, 64, u64::MAX, value)
}

/// Appends some bytes behind their number.
pub fn push_sized(out: &mut Vec<u8>, bytes: &[u8]) -> Result<(), OutOfMemory>
    ensures { OnOk result (out.new.items ≡ out.old.items ++ behind_size bytes.now) }
{
    push_number(out, bytes.len() as u64)?;
    out.extend_from_slice(bytes)?;
    Ok(())
}
