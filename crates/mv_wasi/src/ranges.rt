//! Numbers, ranges and pieces in the memory of a guest.
ghost use Rattle.std.specs.Prelude.{◌≡◌, ◌≤◌, ◌<◌, ◌+◌, ◌-◌, ◌*◌, ◌^◌, ◌++◌, IfOk, OnOk, IsTrue, length, take, drop, min, vec_len, slice_range, slice_get, Some};
ghost use Rattle.mv_memory.specs.Bytes.{IsWidth};
ghost use Rattle.mv_wasi.specs.Ranges.{number_at as number_in, piece_at as piece_in, pieces, is_within, are_within, total, joined, pieces_are_within, vector_limit, transfer_limit};

use mv_calls::OutOfMemory;
use mv_memory::Memory;
use std::alloc::Global;

/// How many iovecs, or subscriptions, one call may have.
pub const VECTOR_LIMIT: u32 = 1_024;

/// How many bytes one call moves at most.
pub const TRANSFER_LIMIT: usize = 65_536;

/// The number in so many bytes, the lowest first.
pub fn number_at(memory: &Memory, place: u64, width: u8) -> u64
    requires within { place + width ≤ length memory.now.bytes }
    requires width { IsWidth width }
    ensures value { result ≡ number_in memory.now.bytes place width }
    ensures fits { result < 2 ^ (8 * width) }
{
    match memory.load(place, width) {
        Ok(value) => value,
        Err(_) => unreachable!(),
    }
}

/// The number in four bytes.
pub fn word_at(memory: &Memory, place: u64) -> u32
    requires { place + 4 ≤ length memory.now.bytes }
    ensures { result ≡ number_in memory.now.bytes place 4 }
{
    number_at(memory, place, 4) as u32
}

/// The size of the memory in bytes.
pub fn size_of(memory: &Memory) -> u64
    ensures is { result ≡ length memory.now.bytes }
    ensures small { result ≤ 2 ^ 26 }
{
    u64::from(memory.pages()) * 65_536
}

/// Whether a range is in bounds.
pub fn lies_within(memory: &Memory, place: u32, len: u64) -> bool
    requires { len < 2 ^ 63 }
    ensures { result ≡ is_within memory.now.bytes place len }
{
    u64::from(place) + len <= size_of(memory)
}

/// Whether a piece is in bounds.
fn piece_lies_within(memory: &Memory, place: u32, len: u32) -> bool
    ensures { result ≡ is_within memory.now.bytes place len }
{
    lies_within(memory, place, u64::from(len))
}

/// The place and the length of the piece with this number.
pub fn piece_at(memory: &Memory, iovs: u32, index: u32) -> (u32, u32)
    requires { iovs + 8 * index + 8 ≤ length memory.now.bytes }
    ensures { result ≡ piece_in memory.now.bytes (iovs + 8 * index) }
{
    let place = u64::from(iovs) + 8 * u64::from(index);
    (word_at(memory, place), word_at(memory, place + 4))
}

/// Whether each piece is in bounds.
fn pieces_lie_within(memory: &Memory, iovs: u32, count: u32) -> bool
    requires { iovs + 8 * count ≤ length memory.now.bytes }
    ensures { result ≡ are_within memory.now.bytes (pieces memory.now.bytes iovs count) }
{
    for index in 0..count {
        let (place, len) = piece_at(memory, iovs, index);
        if !piece_lies_within(memory, place, len) {
            return false;
        }
    }
    true
}

/// Whether the place of the result, the array of iovecs and each piece are in bounds.
pub fn ranges_lie_within(memory: &Memory, iovs: u32, count: u32, result_at: u32) -> bool
    requires { count ≤ vector_limit }
    ensures { result ≡ pieces_are_within memory.now.bytes iovs count result_at }
{
    lies_within(memory, result_at, 4)
        && lies_within(memory, iovs, 8 * u64::from(count))
        && pieces_lie_within(memory, iovs, count)
}

/// How many bytes the pieces have together, but no more than one call moves.
pub fn total_of(memory: &Memory, iovs: u32, count: u32) -> u32
    requires { iovs + 8 * count ≤ length memory.now.bytes }
    ensures { result ≡ min (total (pieces memory.now.bytes iovs count)) transfer_limit }
{
    let mut sum = 0;
    for index in 0..count {
        let (_, len) = piece_at(memory, iovs, index);
        sum = capped_sum(sum, len);
    }
    sum
}

/// A sum, but no more than one call moves.
fn capped_sum(sum: u32, len: u32) -> u32
    requires { sum ≤ transfer_limit }
    ensures { result ≡ min (sum + len) transfer_limit }
{
    let limit = TRANSFER_LIMIT as u32;
    sum + len.min(limit - sum)
}

/// A byte of the memory, so many behind a place.
fn byte_at(memory: &Memory, place: u32, index: u32) -> u8
    requires { place + index < length memory.now.bytes }
    ensures { result ≡ number_in memory.now.bytes (place + index) 1 }
{
    number_at(memory, u64::from(place) + u64::from(index), 1) as u8
}

/// Adds bytes of the memory.
fn push_bytes(memory: &Memory, place: u32, len: u32, bytes: &mut Vec<u8>) -> Result<(), OutOfMemory>
    requires { place + len ≤ length memory.now.bytes }
    ensures { OnOk result (bytes.new.items ≡ bytes.old.items ++ slice_range memory.now.bytes place (place + len)) }
{
    for index in 0..len {
        bytes.push(byte_at(memory, place, index))?;
    }
    Ok(())
}

/// Adds as much of a piece as one call still moves.
fn push_piece(memory: &Memory, place: u32, len: u32, bytes: &mut Vec<u8>) -> Result<(), OutOfMemory>
    requires piece { place + len ≤ length memory.now.bytes }
    requires room { vec_len bytes.old ≤ transfer_limit }
    ensures added { OnOk result (bytes.new.items ≡ bytes.old.items ++ take (transfer_limit - length bytes.old.items) (take len (drop place memory.now.bytes))) }
    ensures short { OnOk result (vec_len bytes.new ≤ transfer_limit) }
{
    let room = (TRANSFER_LIMIT - bytes.len()) as u32;
    push_bytes(memory, place, room.min(len), bytes)
}

/// The pieces joined, but no more than the first 65,536 bytes.
pub fn gathered(
    alloc: Global,
    memory: &Memory,
    iovs: u32,
    count: u32,
) -> Result<Vec<u8>, OutOfMemory>
    requires array { iovs + 8 * count ≤ length memory.now.bytes }
    requires pieces { IsTrue (are_within memory.now.bytes (pieces memory.now.bytes iovs count)) }
    ensures { IfOk result (λ bytes. bytes.items ≡ take transfer_limit (joined memory.now.bytes (pieces memory.now.bytes iovs count))) }
{
    let mut bytes = Vec::new(alloc);
    for index in 0..count {
        let (place, len) = piece_at(memory, iovs, index);
        push_piece(memory, place, len, &mut bytes)?;
    }
    Ok(bytes)
}
