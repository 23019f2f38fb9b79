//! The pieces of a read: made ready before, and filled from the bytes that were read.
ghost use Rattle.std.specs.Prelude.{◌≡◌, ◌≤◌, ◌+◌, ◌*◌, ◌∷◌, OnOk, length};
ghost use Rattle.mv_memory.specs.Memory.{HasBytes};
ghost use Rattle.mv_wasi.specs.Ranges.{pieces as pieces_in, scattered, vector_limit, with_number};
ghost use Rattle.mv_wasi.specs.Readies.{HasArray, HasRanges, LieWithin};

use crate::filling::{own_range, write_bytes, write_number};
use crate::ranges::{VECTOR_LIMIT, piece_at};
use arrayvec::ArrayVec;
use mv_calls::OutOfMemory;
use mv_memory::Memory;
use std::alloc::Global;

/// How many pieces one call may have.
const MOST_PIECES: usize = VECTOR_LIMIT as usize;

/// The places and the lengths of the pieces, beside the memory: what fills one piece may lie over the array of all.
fn pieces_of(memory: &Memory, iovs: u32, count: u32) -> ArrayVec<(u32, u32), MOST_PIECES>
    requires few { count ≤ vector_limit }
    requires array { iovs + 8 * count ≤ length memory.now.bytes }
    ensures { result.items ≡ pieces_in memory.now.bytes iovs count }
{
    let mut pieces = ArrayVec::new();
    for index in 0..count {
        pieces.push(piece_at(memory, iovs, index));
    }
    pieces
}

/// Makes each piece ready to be written, which is in bounds.
fn own_pieces(alloc: Global, memory: &mut Memory, pieces: &[(u32, u32)]) -> Result<(), OutOfMemory>
    requires { LieWithin memory.old.bytes pieces.now }
    ensures same { HasBytes memory.old memory.new memory.old.bytes }
    ensures owned { OnOk result (HasRanges memory.new pieces.now) }
{
    for (place, len) in pieces {
        own_range(alloc, memory, *place, *len)?;
    }
    Ok(())
}

/// Makes ready what the answer to a read writes, which is in bounds: the pieces, and the place of the count.
pub fn own_read(
    alloc: Global,
    memory: &mut Memory,
    iovs: u32,
    count: u32,
    result_at: u32,
) -> Result<(), OutOfMemory>
    requires array { HasArray memory.old iovs 8 count }
    requires within { LieWithin memory.old.bytes ((result_at, 4) ∷ pieces_in memory.old.bytes iovs count) }
    ensures same { HasBytes memory.old memory.new memory.old.bytes }
    ensures owned { OnOk result (HasRanges memory.new ((result_at, 4) ∷ pieces_in memory.new.bytes iovs count)) }
{
    own_range(alloc, memory, result_at, 4)?;
    let pieces = pieces_of(memory, iovs, count);
    own_pieces(alloc, memory, pieces.as_slice())
}

/// Fills the pieces in order, each from what those before it left of the bytes.
fn fill_pieces(alloc: Global, memory: &mut Memory, pieces: &[(u32, u32)], bytes: &[u8])
    requires { HasRanges memory.old pieces.now }
    ensures { memory.new ≡ record memory.old { bytes = scattered pieces.now bytes.now memory.old.bytes } }
{
    let mut done = 0;
    for (place, len) in pieces {
        let some = (bytes.len() - done).min(*len as usize);
        write_bytes(alloc, memory, *place, &bytes[done..done + some]);
        done += some;
    }
}

/// Writes the answer to a read, which takes no memory: the pieces are filled, and the count is written last.
pub fn put_read(
    alloc: Global,
    memory: &mut Memory,
    iovs: u32,
    count: u32,
    result_at: u32,
    bytes: &[u8],
)
    requires array { HasArray memory.old iovs 8 count }
    requires ready { HasRanges memory.old ((result_at, 4) ∷ pieces_in memory.old.bytes iovs count) }
    ensures { memory.new ≡ record memory.old { bytes = with_number result_at 4 (length bytes.now) (scattered (pieces_in memory.old.bytes iovs count) bytes.now memory.old.bytes) } }
{
    let pieces = pieces_of(memory, iovs, count);
    fill_pieces(alloc, memory, pieces.as_slice(), bytes);
    write_number(alloc, memory, result_at, 4, bytes.len() as u64);
}
