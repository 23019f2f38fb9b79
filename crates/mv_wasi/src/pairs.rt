//! Writes to the memory of a guest that are made all or not at all.
ghost use Rattle.std.specs.Prelude.{◌≡◌, ◌≤◌, ◌+◌, OnOk, OnErr, length};
ghost use Rattle.mv_memory.specs.Bytes.{written};
ghost use Rattle.mv_memory.specs.Memory.{HasBytes, IsOwnedRange};
ghost use Rattle.mv_wasi.specs.Machines.{cleaned};

use crate::filling::own_range;
use crate::ranges::size_of;
use mv_calls::OutOfMemory;
use mv_memory::Memory;
use std::alloc::Global;

/// Makes the place of these bytes ready to be written.
fn own_place(
    alloc: Global,
    memory: &mut Memory,
    place: u32,
    bytes: &[u8],
) -> Result<(), OutOfMemory>
    requires { place + length bytes.now ≤ length memory.old.bytes }
    ensures same { HasBytes memory.old memory.new memory.old.bytes }
    ensures owned { OnOk result (IsOwnedRange memory.new place (length bytes.now)) }
{
    // No memory has more than 2^26 bytes, and so these bytes are no more.
    let _ = size_of(memory);
    own_range(alloc, memory, place, bytes.len() as u32)
}

/// Writes bytes to a place that was made ready, which takes no memory.
fn write_owned(alloc: Global, memory: &mut Memory, place: u32, bytes: &[u8])
    requires within { place + length bytes.now ≤ length memory.old.bytes }
    requires owned { IsOwnedRange memory.old place (length bytes.now) }
    ensures { memory.new ≡ record memory.old { bytes = written memory.old.bytes place bytes.now } }
{
    match memory.fill_from(alloc, u64::from(place), bytes) {
        Ok(()) => {}
        Err(_) => unreachable!(),
    }
}

/// Writes bytes to two places, one after the other, so that the later ones stand where both are to. For want of memory nothing
/// is written.
pub fn write_both(
    alloc: Global,
    memory: &mut Memory,
    first_at: u32,
    first: &[u8],
    second_at: u32,
    second: &[u8],
) -> Result<(), OutOfMemory>
    requires first { first_at + length first.now ≤ length memory.old.bytes }
    requires second { second_at + length second.now ≤ length memory.old.bytes }
    ensures ok { OnOk result (cleaned memory.new ≡ cleaned (record memory.old { bytes = written (written memory.old.bytes first_at first.now) second_at second.now })) }
    ensures err { OnErr result (cleaned memory.new ≡ cleaned memory.old) }
{
    own_place(alloc, memory, first_at, first)?;
    own_place(alloc, memory, second_at, second)?;
    write_owned(alloc, memory, first_at, first);
    write_owned(alloc, memory, second_at, second);
    Ok(())
}
