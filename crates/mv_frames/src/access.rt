//! Loads and stores.

ghost use Rattle.std.specs.Prelude.{◌≡◌, true, ◌∷◌, ◌+◌, ◌*◌, ◌^◌, ◌<◌, OnOk, OnErr, IfOk, IfSome};
ghost use Rattle.mv_arith.specs.Integers.{signed as signed_number, wrapped};
ghost use Rattle.mv_execution.specs.Values.{is_width};
ghost use Rattle.mv_execution.specs.Rows.{acted, extended, IsGoing, CameTo};
ghost use Rattle.mv_frames.specs.Blocks.{is_access};
ghost use Rattle.mv_frames.specs.Frames.{frame_of, IsPlaced};
ghost use Rattle.mv_frames.specs.Stores.{store_of};

use crate::frame::{Frame, pop, replace_top, second, top};
use crate::store::Store;
use mv_calls::{Or, OutOfMemory, Trap};
use mv_syntax::{Instr, ValType};
use std::alloc::Global;

/// The i32 with the value of a signed byte.
fn byte_in_32(value: u8) -> u64
    ensures { result ≡ wrapped 32 (signed_number 8 value) }
{
    u64::from(i32::from(value.cast_signed()).cast_unsigned())
}

/// The i32 with the value of two signed bytes.
fn half_in_32(value: u16) -> u64
    ensures { result ≡ wrapped 32 (signed_number 16 value) }
{
    u64::from(i32::from(value.cast_signed()).cast_unsigned())
}

/// The i32 that four bytes are, which is its own signed reading.
fn word_in_32(value: u32) -> u64
    ensures { result ≡ wrapped 32 (signed_number 32 value) }
{
    u64::from(value.cast_signed().cast_unsigned())
}

/// The i64 with the value of a signed byte.
fn byte_in_64(value: u8) -> u64
    ensures { result ≡ wrapped 64 (signed_number 8 value) }
{
    i64::from(value.cast_signed()).cast_unsigned()
}

/// The i64 with the value of two signed bytes.
fn half_in_64(value: u16) -> u64
    ensures { result ≡ wrapped 64 (signed_number 16 value) }
{
    i64::from(value.cast_signed()).cast_unsigned()
}

/// The i64 with the value of four signed bytes.
fn word_in_64(value: u32) -> u64
    ensures { result ≡ wrapped 64 (signed_number 32 value) }
{
    i64::from(value.cast_signed()).cast_unsigned()
}

/// The i64 that eight bytes are, which is its own signed reading.
fn whole_in_64(value: u64) -> u64
    ensures { result ≡ wrapped 64 (signed_number 64 value) }
{
    value.cast_signed().cast_unsigned()
}

/// The i32 with the value of so many bytes, read as a signed number.
fn narrow_signed(bytes: u8, value: u64) -> u64
    requires width { is_width ValType.I32 bytes ≡ true }
    requires value { value < 2 ^ (8 * bytes) }
    ensures { result ≡ wrapped 32 (signed_number (8 * bytes) value) }
{
    match bytes {
        1 => byte_in_32(value as u8),
        2 => half_in_32(value as u16),
        _ => word_in_32(value as u32),
    }
}

/// The i64 with the value of so many bytes, read as a signed number.
fn wide_signed(bytes: u8, value: u64) -> u64
    requires width { is_width ValType.I64 bytes ≡ true }
    requires value { value < 2 ^ (8 * bytes) }
    ensures { result ≡ wrapped 64 (signed_number (8 * bytes) value) }
{
    match bytes {
        1 => byte_in_64(value as u8),
        2 => half_in_64(value as u16),
        4 => word_in_64(value as u32),
        _ => whole_in_64(value),
    }
}

/// What so many bytes are as a value of the type (WebAssembly Core 1.0, 4.4.4).
fn extend(vtype: ValType, bytes: u8, signed: bool, value: u64) -> u64
    requires width { is_width vtype bytes ≡ true }
    requires value { value < 2 ^ (8 * bytes) }
    ensures { result ≡ extended vtype bytes signed value }
{
    if !signed {
        return value;
    }
    match vtype {
        ValType::I32 => narrow_signed(bytes, value),
        ValType::I64 => wide_signed(bytes, value),
    }
}

/// A load or a store; the frame is behind it already. After a trap and for want of memory all is as before.
pub fn run_access(
    alloc: Global,
    code: &[Instr],
    store: &mut Store,
    frame: &mut Frame,
    instr: &Instr,
) -> Result<Option<Trap>, OutOfMemory>
    requires placed { IsPlaced code.now frame.old }
    requires accesses { is_access instr.now ≡ true }
    requires runs { IsGoing (acted instr.now (store_of store.old) (frame_of code.now frame.old)) }
    ensures ok { IfOk result (λ trap. CameTo trap (acted instr.now (store_of store.old) (frame_of code.now frame.old)) (store_of store.old, frame_of code.now frame.old) (store_of store.new, frame_of code.now frame.new)) }
    ensures trap { IfOk result (λ trap. IfSome trap (λ t. frame.new ≡ frame.old)) }
    ensures err { OnErr result ((store_of store.new ≡ store_of store.old) × (frame.new ≡ frame.old)) }
    ensures placed { IsPlaced code.now frame.new }
    ensures func { frame.new.func ≡ frame.old.func }
{
    match instr {
        Instr::Load {
            result,
            bytes,
            signed,
            offset,
            ..
        } => {
            let place = top(frame) + u64::from(*offset);
            match store.memory.load(place, *bytes) {
                Ok(value) => replace_top(frame, extend(*result, *bytes, *signed, value)),
                Err(_) => return Ok(Some(Trap::Bounds)),
            }
        }
        Instr::Store { bytes, offset, .. } => {
            let value = top(frame);
            let place = second(frame) + u64::from(*offset);
            match store.memory.store(alloc, place, *bytes, value) {
                Ok(()) => {
                    pop(frame);
                    pop(frame);
                }
                Err(Or::Fault(_)) => return Ok(Some(Trap::Bounds)),
                Err(Or::OutOfMemory) => return Err(OutOfMemory),
            }
        }
        _ => unreachable!(),
    }
    Ok(None)
}
