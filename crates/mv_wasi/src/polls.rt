//! Subscriptions of `poll_oneoff`.
ghost use Rattle.std.specs.Prelude.{◌≡◌, ◌<◌, ◌≤◌, ◌+◌, ◌*◌, ◌^◌, ◌&&◌, [], IfOk, length};
ghost use Rattle.mv_imports.specs.declared.function.HostFunction.TheVariants as Function;
ghost use Rattle.mv_wasi.specs.Ranges.{is_within, vector_limit};
ghost use Rattle.mv_wasi.specs.Polls.{clock_at as clock_in, sub_at as sub_in, subs_at as subs_in};
ghost use Rattle.mv_wasi.specs.Decoding.{decoded};

use crate::made::{ERRNO_FAULT, ERRNO_INVAL, Made};
use crate::ranges::{VECTOR_LIMIT, lies_within, number_at, word_at};
use mv_calls::{Call, OutOfMemory, Sub, Subs};
use mv_memory::Memory;
use std::alloc::Global;

/// How many bytes a subscription has.
const SUBSCRIPTION_BYTES: u64 = 48;

/// How many bytes an event has.
const EVENT_BYTES: u64 = 32;

/// The clock of the subscription at this place; `None` where there is no clock of its id.
fn clock_at(memory: &Memory, place: u64) -> Option<Sub>
    requires within { place + 48 ≤ length memory.now.bytes }
    requires place { place < 2 ^ 63 }
    ensures { result ≡ clock_in memory.now.bytes place }
{
    let id = word_at(memory, place + 16);
    if id < 2 {
        Some(Sub::Clock {
            id,
            timeout: number_at(memory, place + 24, 8),
            flags: number_at(memory, place + 40, 2) as u16,
        })
    } else {
        None
    }
}

/// The subscription at this place; `None` where it is of no form that this host knows.
fn sub_at(memory: &Memory, place: u64) -> Option<Sub>
    requires within { place + 48 ≤ length memory.now.bytes }
    requires place { place < 2 ^ 63 }
    ensures { result ≡ sub_in memory.now.bytes place }
{
    match number_at(memory, place + 8, 1) {
        0 => clock_at(memory, place),
        1 => Some(Sub::Read {
            fd: word_at(memory, place + 16),
        }),
        2 => Some(Sub::Write {
            fd: word_at(memory, place + 16),
        }),
        _ => None,
    }
}

/// The subscription with this number in an array.
fn sub_with(memory: &Memory, subs: u32, index: u32) -> Option<Sub>
    requires { subs + 48 * index + 48 ≤ length memory.now.bytes }
    ensures { result ≡ sub_in memory.now.bytes (subs + 48 * index) }
{
    let place = u64::from(subs) + SUBSCRIPTION_BYTES * u64::from(index);
    sub_at(memory, place)
}

/// An array of subscriptions; `None` where one of them is of no form that this host knows.
fn subs_at(
    alloc: Global,
    memory: &Memory,
    subs: u32,
    count: u32,
) -> Result<Option<Subs>, OutOfMemory>
    requires { subs + 48 * count ≤ length memory.now.bytes }
    ensures { IfOk result (λ found. found ≡ subs_in memory.now.bytes subs count) }
{
    let mut found = Vec::new(alloc);
    for index in 0..count {
        match sub_with(memory, subs, index) {
            Some(sub) => found.push(sub)?,
            None => return Ok(None),
        }
    }
    Ok(Some(Subs::from_vec(found)))
}

/// Whether the place of the result, the array of subscriptions and that of events are in bounds.
fn arrays_lie_within(memory: &Memory, subs: u32, events: u32, count: u32, result_at: u32) -> bool
    ensures { result ≡ (is_within memory.now.bytes result_at 4 && (is_within memory.now.bytes subs (48 * count) && is_within memory.now.bytes events (32 * count))) }
{
    lies_within(memory, result_at, 4)
        && lies_within(memory, subs, SUBSCRIPTION_BYTES * u64::from(count))
        && lies_within(memory, events, EVENT_BYTES * u64::from(count))
}

/// `poll_oneoff`: a count that is out of its range is judged first, then the ranges, and the forms of the subscriptions last.
pub fn poll_made(
    alloc: Global,
    memory: &Memory,
    subs: u32,
    events: u32,
    count: u32,
    result_at: u32,
) -> Result<Made, OutOfMemory>
    ensures made { IfOk result (λ made. made ≡ (decoded Function.PollOneoff subs events count result_at [] memory.now.bytes).0) }
    ensures left { (decoded Function.PollOneoff subs events count result_at [] memory.now.bytes).1 ≡ memory.now.bytes }
{
    if count == 0 || count > VECTOR_LIMIT {
        return Ok(Made::Local(ERRNO_INVAL));
    }
    if !arrays_lie_within(memory, subs, events, count, result_at) {
        return Ok(Made::Local(ERRNO_FAULT));
    }
    Ok(match subs_at(alloc, memory, subs, count)? {
        Some(subs) => Made::Outside(Call::Poll { subs }),
        None => Made::Local(ERRNO_INVAL),
    })
}
