//! The start function and the segments of an instance.
ghost use Rattle.std.specs.Prelude.{◌≡◌, ◌+◌, ◌^◌, [], Ok as done_as, Err as faulty_as, ◌<◌, ◌≤◌, OnOk, length};
ghost use Rattle.mv_calls.specs.Or.{IfFault};
ghost use Rattle.mv_execution.specs.Instance.{with_element};
ghost use Rattle.mv_machine.specs.Calls.{HasFunction};
ghost use Rattle.mv_start.specs.Instances.{start_ran, with_segments, with_elements};
ghost use Rattle.mv_start.specs.Writings.{IsWritten, IsEntry, IsEntered, IsFilled, HasCount, HasEntry, AreSegmentsWithin, TakesElements};

use crate::checks::constant;
use mv_calls::{Or, OutOfMemory, Trap};
use mv_machine::{Machine, Stop};
use mv_syntax::StartFault;
use std::alloc::Global;

/// Fuel for one instruction more than a gap may have.
const AMPLE: u32 = 50_000_001;

/// The start function, where there is one.
fn start_of(machine: &Machine) -> Option<u32>
    ensures { result ≡ machine.now.parts.start }
{
    machine.module().module().start
}

/// Runs the start function, where there is one. The gap is 0 again behind it.
pub fn begin(alloc: Global, machine: &mut Machine) -> Result<(), Or<StartFault>>
    requires idle { machine.old.config.frames ≡ [] }
    ensures ok { OnOk result (start_ran machine.old.parts machine.old.config ≡ done_as machine.new.config) }
    ensures fault { IfFault result (λ fault. start_ran machine.old.parts machine.old.config ≡ faulty_as fault) }
    ensures parts { machine.new.parts ≡ machine.old.parts }
    ensures idle { OnOk result (machine.new.config.frames ≡ []) }
{
    machine.keeps();
    let Some(start) = start_of(machine) else {
        return Ok(());
    };
    machine.enter(alloc, start)?;
    machine.keeps();
    match machine.run(alloc, AMPLE) {
        Stop::Memory => Err(Or::OutOfMemory),
        Stop::Fuel => unreachable!(),
        Stop::Trap(trap) => Err(Or::Fault(StartFault::Trap(trap))),
        Stop::Import { .. } => Err(Or::Fault(StartFault::Trap(Trap::NotNow))),
        Stop::Ended { .. } => {
            machine.new_gap();
            Ok(())
        }
    }
}

/// Writes the data segment with this number. It is in bounds, as all are.
fn write_segment(alloc: Global, machine: &mut Machine, number: usize) -> Result<(), OutOfMemory>
    requires number { number < length machine.old.parts.segments }
    requires within { AreSegmentsWithin machine.old.parts.segments (length machine.old.config.store.memory.bytes) }
    ensures ok { OnOk result (IsWritten machine.old number machine.new) }
    ensures size { length machine.new.config.store.memory.bytes ≡ length machine.old.config.store.memory.bytes }
    ensures parts { machine.new.parts ≡ machine.old.parts }
{
    let segment = &machine.module().module().segments.slice()[number];
    let offset = constant(segment.offset.slice());
    let bytes = segment.bytes.copy(alloc)?;
    let memory = machine.memory_mut();
    match memory.fill_from(alloc, offset, bytes.slice()) {
        Ok(()) => Ok(()),
        Err(Or::OutOfMemory) => Err(OutOfMemory),
        Err(Or::Fault(_)) => unreachable!(),
    }
}

/// Writes all data segments, which are in bounds.
pub fn write_segments(alloc: Global, machine: &mut Machine) -> Result<(), OutOfMemory>
    requires { AreSegmentsWithin machine.old.parts.segments (length machine.old.config.store.memory.bytes) }
    ensures ok { OnOk result (machine.new.config ≡ with_segments machine.old.parts.segments machine.old.config) }
    ensures parts { machine.new.parts ≡ machine.old.parts }
{
    let count = machine.module().module().segments.slice().len();
    for number in 0..count {
        write_segment(alloc, machine, number)?;
    }
    Ok(())
}

/// How many functions the element with this number has.
fn entry_count(machine: &Machine, number: usize) -> usize
    requires { number < length machine.now.parts.elements }
    ensures { HasCount machine.now number result }
{
    let element = &machine.module().module().elements.slice()[number];
    element.funcs.slice().len()
}

/// Where the element with this number begins, and one of its functions.
fn entry_at(machine: &Machine, number: usize, index: usize) -> (u64, u32)
    requires { HasEntry machine.now number index }
    ensures { IsEntry machine.now number index result.0 result.1 }
{
    let element = &machine.module().module().elements.slice()[number];
    (
        constant(element.offset.slice()),
        element.funcs.slice()[index],
    )
}

/// Lets an entry of the table hold a function. It stands so far behind a place.
fn put_entry(machine: &mut Machine, place: u64, index: usize, func: u32)
    requires within { place + index < length machine.old.config.store.table }
    requires short { length machine.old.config.store.table ≤ 2 ^ 32 }
    requires there { HasFunction machine.old.parts func }
    ensures { machine.new ≡ record machine.old { config = with_element (place + index) func machine.old.config } }
{
    machine.set_element((place + index as u64) as u32, func);
}

/// Writes one entry of an element.
fn write_entry(machine: &mut Machine, number: usize, index: usize)
    requires takes { TakesElements machine.old }
    requires entry { HasEntry machine.old number index }
    ensures entered { IsEntered machine.old number index machine.new }
    ensures parts { machine.new.parts ≡ machine.old.parts }
{
    let (place, func) = entry_at(machine, number, index);
    put_entry(machine, place, index, func);
}

/// Writes the element with this number.
fn write_element(machine: &mut Machine, number: usize)
    requires takes { TakesElements machine.old }
    requires number { number < length machine.old.parts.elements }
    ensures filled { IsFilled machine.old number machine.new }
    ensures parts { machine.new.parts ≡ machine.old.parts }
{
    let count = entry_count(machine, number);
    for index in 0..count {
        write_entry(machine, number, index);
    }
}

/// Writes all elements, which the table takes.
pub fn write_elements(machine: &mut Machine)
    requires { TakesElements machine.old }
    ensures written { machine.new.config ≡ with_elements machine.old.parts.elements machine.old.config }
    ensures parts { machine.new.parts ≡ machine.old.parts }
{
    let count = machine.module().module().elements.slice().len();
    for number in 0..count {
        write_element(machine, number);
    }
}
