//! Ranges of a memory that are made ready before, so that they are written without want of memory, and the bytes for them.
ghost use Rattle.std.specs.Prelude.{◌≡◌, ◌≤◌, ◌+◌, ◌++◌, OnOk, length};
ghost use Rattle.mv_memory.specs.Bytes.{IsWidth, written};
ghost use Rattle.mv_memory.specs.Memory.{HasBytes};
ghost use Rattle.arrayvec.specs.ArrayVec.{array_vec_len};
ghost use Rattle.mv_wasi.specs.Ranges.{with_number};
ghost use Rattle.mv_wasi.specs.Readies.{HasRange};

use arrayvec::ArrayVec;
use mv_calls::{Or, OutOfMemory};
use mv_memory::Memory;
use std::alloc::Global;

/// Makes a range ready to be written, which is in bounds.
pub fn own_range(
    alloc: Global,
    memory: &mut Memory,
    place: u32,
    len: u32,
) -> Result<(), OutOfMemory>
    requires { place + len ≤ length memory.old.bytes }
    ensures same { HasBytes memory.old memory.new memory.old.bytes }
    ensures owned { OnOk result (HasRange memory.new place len) }
{
    match memory.own_pages(alloc, u64::from(place), len) {
        Ok(()) => Ok(()),
        Err(Or::OutOfMemory) => Err(OutOfMemory),
        Err(Or::Fault(_)) => unreachable!(),
    }
}

/// Writes a number in so many bytes, which takes no memory.
pub fn write_number(alloc: Global, memory: &mut Memory, place: u32, width: u8, value: u64)
    requires width { IsWidth width }
    requires ready { HasRange memory.old place width }
    ensures { memory.new ≡ record memory.old { bytes = with_number place width value memory.old.bytes } }
{
    match memory.store(alloc, u64::from(place), width, value) {
        Ok(()) => {}
        Err(_) => unreachable!(),
    }
}

/// Writes bytes, which takes no memory.
pub fn write_bytes(alloc: Global, memory: &mut Memory, place: u32, bytes: &[u8])
    requires ready { HasRange memory.old place (length bytes.now) }
    ensures { memory.new ≡ record memory.old { bytes = written memory.old.bytes place bytes.now } }
{
    match memory.fill_from(alloc, u64::from(place), bytes) {
        Ok(()) => {}
        Err(_) => unreachable!(),
    }
}

/// Adds bytes, for which there is room.
pub fn push_all<const N: usize>(bytes: &mut ArrayVec<u8, N>, more: &[u8])
    requires { array_vec_len bytes.old + length more.now ≤ N }
    ensures { bytes.new.items ≡ bytes.old.items ++ more.now }
{
    match bytes.try_extend_from_slice(more) {
        Ok(()) => {}
        Err(_) => unreachable!(),
    }
}
