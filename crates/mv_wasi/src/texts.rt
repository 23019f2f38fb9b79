//! Texts for a guest, such as its arguments: how many there are, and the texts themselves.
ghost use Rattle.std.specs.Prelude.{◌≡◌, ◌≤◌, ◌+◌, ◌*◌, ◌^◌, ◌&&◌, IfOk, IsTrue, OnErr, length};
ghost use Rattle.mv_memory.specs.Bytes.{low_bytes};
ghost use Rattle.mv_wasi.specs.Ranges.{is_within, text_size, text_bytes, place_bytes};
ghost use Rattle.mv_wasi.specs.Decoding.{sizes_answered, texts_answered};
ghost use Rattle.mv_wasi.specs.Machines.{cleaned};

use crate::made::{ERRNO_FAULT, Made};
use crate::pairs::write_both;
use crate::ranges::{lies_within, size_of};
use mv_calls::{Bytes, OutOfMemory};
use mv_memory::Memory;
use std::alloc::Global;

/// How many numbers four bytes can spell.
const WORDS: u128 = 4_294_967_296;

/// What the texts take, each with a zero byte behind it. A `u128` holds it whatever the texts: there are fewer than 2^64 of
/// them, and each has fewer than 2^64 bytes.
fn size_of_texts(texts: &[Bytes]) -> u128
    ensures size { result ≡ text_size texts.now }
    ensures fits { result ≤ length texts.now * 2 ^ 64 }
{
    let mut size = 0;
    for text in texts {
        size += text.slice().len() as u128 + 1;
    }
    size
}

/// Whether the places of two numbers of four bytes are in bounds.
fn words_lie_within(memory: &Memory, count_at: u32, size_at: u32) -> bool
    ensures { result ≡ (is_within memory.now.bytes count_at 4 && is_within memory.now.bytes size_at 4) }
{
    lies_within(memory, count_at, 4) && lies_within(memory, size_at, 4)
}

/// `args_sizes_get` and `environ_sizes_get`: how many texts there are and what they take, both modulo 2^32. For want of memory
/// nothing is written.
pub fn sizes_made(
    alloc: Global,
    memory: &mut Memory,
    count_at: u32,
    size_at: u32,
    texts: &[Bytes],
) -> Result<Made, OutOfMemory>
    ensures made { IfOk result (λ made. made ≡ (sizes_answered count_at size_at texts.now memory.old.bytes).0) }
    ensures left { IfOk result (λ made. cleaned memory.new ≡ cleaned (record memory.old { bytes = (sizes_answered count_at size_at texts.now memory.old.bytes).1 })) }
    ensures err { OnErr result (cleaned memory.new ≡ cleaned memory.old) }
{
    if !words_lie_within(memory, count_at, size_at) {
        return Ok(Made::Local(ERRNO_FAULT));
    }
    let count = (texts.len() as u128 % WORDS) as u32;
    let size = (size_of_texts(texts) % WORDS) as u32;
    write_both(
        alloc,
        memory,
        count_at,
        &count.to_le_bytes(),
        size_at,
        &size.to_le_bytes(),
    )?;
    Ok(Made::Local(0))
}

/// The places of the texts, where the first one lies at `buf`.
fn places_of(alloc: Global, buf: u32, texts: &[Bytes]) -> Result<Vec<u8>, OutOfMemory>
    requires { buf + text_size texts.now ≤ 2 ^ 26 }
    ensures { IfOk result (λ places. places.items ≡ place_bytes buf texts.now) }
{
    let mut places = Vec::new(alloc);
    let mut place = buf;
    for text in texts {
        places.extend_from_slice(&place.to_le_bytes())?;
        place += text.slice().len() as u32 + 1;
    }
    Ok(places)
}

/// The texts, each with a zero byte behind it.
fn joined_texts(alloc: Global, texts: &[Bytes]) -> Result<Vec<u8>, OutOfMemory>
    ensures { IfOk result (λ bytes. bytes.items ≡ text_bytes texts.now) }
{
    let mut bytes = Vec::new(alloc);
    for text in texts {
        bytes.extend_from_slice(text.slice())?;
        bytes.push(0)?;
    }
    Ok(bytes)
}

/// Whether the list of places and the texts are in bounds.
fn texts_lie_within(memory: &Memory, list: u32, buf: u32, texts: &[Bytes]) -> bool
    ensures small { IsTrue result → buf + text_size texts.now ≤ 2 ^ 26 }
    ensures within { result ≡ (is_within memory.now.bytes list (4 * length texts.now) && is_within memory.now.bytes buf (text_size texts.now)) }
{
    let size = u128::from(size_of(memory));
    u128::from(list) + 4 * texts.len() as u128 <= size
        && u128::from(buf) + size_of_texts(texts) <= size
}

/// `args_get` and `environ_get`: the places of the texts, and then the texts. For want of memory nothing is written.
pub fn texts_made(
    alloc: Global,
    memory: &mut Memory,
    list: u32,
    buf: u32,
    texts: &[Bytes],
) -> Result<Made, OutOfMemory>
    ensures made { IfOk result (λ made. made ≡ (texts_answered list buf texts.now memory.old.bytes).0) }
    ensures left { IfOk result (λ made. cleaned memory.new ≡ cleaned (record memory.old { bytes = (texts_answered list buf texts.now memory.old.bytes).1 })) }
    ensures err { OnErr result (cleaned memory.new ≡ cleaned memory.old) }
{
    if !texts_lie_within(memory, list, buf, texts) {
        return Ok(Made::Local(ERRNO_FAULT));
    }
    let places = places_of(alloc, buf, texts)?;
    let bytes = joined_texts(alloc, texts)?;
    write_both(alloc, memory, list, &places, buf, &bytes)?;
    Ok(Made::Local(0))
}
