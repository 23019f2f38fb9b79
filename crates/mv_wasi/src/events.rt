//! The events of a poll: made ready before, and written with what the memory has of their subscriptions.
ghost use Rattle.std.specs.Prelude.{◌≡◌, ◌<◌, ◌≤◌, ◌+◌, ◌*◌, ◌^◌, ◌∷◌, [], ◌++◌, OnOk, length, slice_range};
ghost use Rattle.arrayvec.specs.ArrayVec.{array_vec_len};
ghost use Rattle.mv_memory.specs.Bytes.{written};
ghost use Rattle.mv_memory.specs.Memory.{HasBytes};
ghost use Rattle.mv_wasi.specs.Ranges.{vector_limit, with_number};
ghost use Rattle.mv_wasi.specs.Polls.{event_bytes, events_bytes};
ghost use Rattle.mv_wasi.specs.Readies.{HasRanges, HaveSubs, LieWithin};

use crate::filling::{own_range, push_all, write_bytes, write_number};
use crate::ranges::{VECTOR_LIMIT, number_at};
use arrayvec::ArrayVec;
use mv_calls::{Happened, OutOfMemory};
use mv_memory::Memory;
use std::alloc::Global;

/// The bytes of as many events as one call may have.
const MOST_BYTES: usize = 32 * VECTOR_LIMIT as usize;

/// Adds bytes of the memory, for which there is room.
fn push_range(memory: &Memory, place: u64, len: u64, bytes: &mut ArrayVec<u8, MOST_BYTES>)
    requires within { place + len ≤ length memory.now.bytes }
    requires small { place < 2 ^ 40 }
    requires room { array_vec_len bytes.old + len ≤ MOST_BYTES }
    ensures { bytes.new.items ≡ bytes.old.items ++ slice_range memory.now.bytes place (place + len) }
{
    for index in 0..len {
        bytes.push(number_at(memory, place + index, 1) as u8);
    }
}

/// Adds the bytes of one event, with the userdata and the tag of its subscription.
fn push_event(memory: &Memory, subs: u32, happened: Happened, bytes: &mut ArrayVec<u8, MOST_BYTES>)
    requires within { subs + 48 * happened.sub + 48 ≤ length memory.now.bytes }
    requires room { array_vec_len bytes.old + 32 ≤ MOST_BYTES }
    ensures bytes { bytes.new.items ≡ bytes.old.items ++ event_bytes memory.now.bytes subs happened }
    ensures len { array_vec_len bytes.new ≡ array_vec_len bytes.old + 32 }
{
    let place = u64::from(subs) + 48 * u64::from(happened.sub);
    push_range(memory, place, 8, bytes);
    push_all(bytes, &happened.error.to_le_bytes());
    push_range(memory, place + 8, 1, bytes);
    push_all(bytes, &[0; 5]);
    push_all(bytes, &happened.nbytes.to_le_bytes());
    push_all(bytes, &happened.flags.to_le_bytes());
    push_all(bytes, &[0; 6]);
}

/// The bytes of the events, beside the memory: the events may lie over the subscriptions.
fn bytes_of(memory: &Memory, subs: u32, happened: &[Happened]) -> ArrayVec<u8, MOST_BYTES>
    requires few { length happened.now ≤ vector_limit }
    requires within { HaveSubs memory.now.bytes subs happened.now }
    ensures bytes { result.items ≡ events_bytes memory.now.bytes subs happened.now }
    ensures len { array_vec_len result ≡ 32 * length happened.now }
{
    let mut bytes = ArrayVec::new();
    for event in happened {
        push_event(memory, subs, *event, &mut bytes);
    }
    bytes
}

/// Makes ready what the answer to a poll with so many subscriptions writes, which is in bounds: the events, and the place of
/// their number.
pub fn own_events(
    alloc: Global,
    memory: &mut Memory,
    events: u32,
    count: usize,
    result_at: u32,
) -> Result<(), OutOfMemory>
    requires few { count ≤ vector_limit }
    requires within { LieWithin memory.old.bytes ((result_at, 4) ∷ (events, 32 * count) ∷ []) }
    ensures same { HasBytes memory.old memory.new memory.old.bytes }
    ensures owned { OnOk result (HasRanges memory.new ((result_at, 4) ∷ (events, 32 * count) ∷ [])) }
{
    own_range(alloc, memory, result_at, 4)?;
    own_range(alloc, memory, events, 32 * count as u32)
}

/// Writes the answer to a poll, which takes no memory: the events, and their number last.
pub fn put_events(
    alloc: Global,
    memory: &mut Memory,
    subs: u32,
    events: u32,
    result_at: u32,
    happened: &[Happened],
)
    requires few { length happened.now ≤ vector_limit }
    requires within { HaveSubs memory.old.bytes subs happened.now }
    requires ready { HasRanges memory.old ((result_at, 4) ∷ (events, 32 * length happened.now) ∷ []) }
    ensures { memory.new ≡ record memory.old { bytes = with_number result_at 4 (length happened.now) (written memory.old.bytes events (events_bytes memory.old.bytes subs happened.now)) } }
{
    let bytes = bytes_of(memory, subs, happened);
    write_bytes(alloc, memory, events, bytes.as_slice());
    write_number(alloc, memory, result_at, 4, happened.len() as u64);
}
