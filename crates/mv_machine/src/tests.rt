//! Runs of small modules. Code is spelled by hand, byte by byte, and what it comes to is counted by hand from WebAssembly Core
//! 1.0, section 4, and the limits of this host.

ghost use Rattle.std.specs.Prelude.{◌≡◌, [], IfSome, Some};
ghost use Rattle.mv_machine.specs.Stops.{StopStands};

use super::*;
use mv_calls::{OutOfMemory, Trap};
use mv_reader::read_module;
use mv_syntax::ValType;
use mv_validator::validate;
use std::alloc::Global;
use std::test::Fail;

/// Fuel for as many instructions as a gap may have, and some more.
const AMPLE: u32 = 60_000_000;

/// The preamble, and types `[] -> []`, `[] -> [i32]` and `[i32] -> [i32]`.
const TYPES: &[u8; 23] =
    b"\0asm\x01\0\0\0\x01\x0d\x03\x60\x00\x00\x60\x00\x01\x7f\x60\x01\x7f\x01\x7f";

/// A machine for the module with these types and sections, where it is one and there is memory.
fn machine_of(alloc: Global, sections: &[u8]) -> Option<Machine>
    ensures idle { IfSome result (λ machine. machine.config.frames ≡ []) }
{
    let mut bytes = Vec::from_slice(alloc, TYPES).ok()?;
    bytes.extend_from_slice(sections).ok()?;
    let module = read_module(alloc, bytes.as_slice()).ok()?;
    let valid = validate(alloc, module).ok()?;
    match Machine::new(alloc, valid) {
        Ok(machine) => Some(machine),
        Err(OutOfMemory) => None,
    }
}

/// How a run of so much fuel of this function stops, which has no parameter; `None` where there is no such function.
fn stop_of(alloc: Global, machine: &mut Machine, func: u32, fuel: u32) -> Option<Stop>
    requires idle { machine.old.config.frames ≡ [] }
    ensures stands { IfSome result (λ stop. StopStands stop machine.new.config) }
{
    let takes_none = match machine.function_type(func) {
        Some(ftype) => ftype.params.slice().is_empty(),
        None => false,
    };
    if !takes_none {
        return None;
    }
    match machine.enter(alloc, func) {
        Ok(()) => Some(machine.run(alloc, fuel)),
        Err(OutOfMemory) => Some(Stop::Memory),
    }
}

/// A machine for a module of one function of the type with this index, with this body of at most 100 bytes, its locals first,
/// and these sections between its declaration and its code.
fn machine_with(alloc: Global, ftype: u8, between: &[u8], body: &[u8]) -> Option<Machine>
    ensures idle { IfSome result (λ machine. machine.config.frames ≡ []) }
{
    let size = body.len().min(100) as u8;
    let mut sections = Vec::from_slice(alloc, &[0x03, 0x02, 0x01, ftype]).ok()?;
    sections.extend_from_slice(between).ok()?;
    sections
        .extend_from_slice(&[0x0a, size + 2, 0x01, size])
        .ok()?;
    sections.extend_from_slice(body).ok()?;
    machine_of(alloc, sections.as_slice())
}

/// How such a module's function stops, which has a result where `ftype` is 1.
fn outcome(alloc: Global, ftype: u8, between: &[u8], body: &[u8]) -> Option<Stop> {
    let mut machine = machine_with(alloc, ftype, between, body)?;
    stop_of(alloc, &mut machine, 0, AMPLE)
}

const fn value(value: u64) -> Option<Stop> {
    Some(Stop::Ended { value: Some(value) })
}

const NO_VALUE: Option<Stop> = Some(Stop::Ended { value: None });

const fn trap(trap: Trap) -> Option<Stop> {
    Some(Stop::Trap(trap))
}

#[test]
fn signed_and_unsigned_division(rt: HostRuntime) -> Result<(), Fail> {
    let least_by_minus_one = b"\x00\x41\x80\x80\x80\x80\x78\x41\x7f\x6d\x0b";
    assert_eq!(rt;
        outcome(rt.alloc(), 1, b"", least_by_minus_one),
        trap(Trap::Overflow)
    );
    let its_remainder = b"\x00\x41\x80\x80\x80\x80\x78\x41\x7f\x6f\x0b";
    assert_eq!(rt; outcome(rt.alloc(), 1, b"", its_remainder), value(0));
    let by_zero = b"\x00\x41\x07\x41\x00\x6e\x0b";
    assert_eq!(rt;
        outcome(rt.alloc(), 1, b"", by_zero),
        trap(Trap::DivideByZero)
    );
    Ok(())
}

/// A memory of one page without a maximum.
const ONE_PAGE: &[u8; 5] = b"\x05\x03\x01\x00\x01";

#[test]
fn a_memory_grows_to_1024_pages(rt: HostRuntime) -> Result<(), Fail> {
    let by_1023 = b"\x00\x41\xff\x07\x40\x00\x0b";
    assert_eq!(rt; outcome(rt.alloc(), 1, ONE_PAGE, by_1023), value(1));
    let by_one_more = b"\x00\x41\xff\x07\x40\x00\x1a\x41\x01\x40\x00\x0b";
    assert_eq!(rt;
        outcome(rt.alloc(), 1, ONE_PAGE, by_one_more),
        value(0xffff_ffff)
    );
    let then_its_size = b"\x00\x41\xff\x07\x40\x00\x1a\x41\x01\x40\x00\x1a\x3f\x00\x0b";
    assert_eq!(rt;
        outcome(rt.alloc(), 1, ONE_PAGE, then_its_size),
        value(1024)
    );
    Ok(())
}

#[test]
fn a_branch_leaves_two_blocks_with_what_it_carries(rt: HostRuntime) -> Result<(), Fail> {
    let body = b"\x00\x02\x7f\x02\x40\x41\x07\x0c\x01\x0b\x41\x08\x0b\x0b";
    assert_eq!(rt; outcome(rt.alloc(), 1, b"", body), value(7));
    Ok(())
}

/// How three runs of a loop without an end stop: of 50,000,000 instructions, of one more, and of one in a new gap.
fn endless_stops(alloc: Global) -> Option<[Stop; 3]> {
    let mut machine = machine_with(alloc, 0, b"", b"\x00\x03\x40\x0c\x00\x0b\x0b")?;
    let whole_gap = stop_of(alloc, &mut machine, 0, 50_000_000)?;
    let one_more = machine.run(alloc, 1);
    machine.new_gap();
    Some([whole_gap, one_more, machine.run(alloc, 1)])
}

#[test]
fn instruction_50000000_is_done_and_the_next_traps(rt: HostRuntime) -> Result<(), Fail> {
    let stops = [Stop::Fuel, Stop::Trap(Trap::Spent), Stop::Fuel];
    assert_eq!(rt; endless_stops(rt.alloc()), Some(stops));
    Ok(())
}

#[test]
fn a_run_of_50000000_instructions_ends(rt: HostRuntime) -> Result<(), Fail> {
    // One `loop`, and 7,142,857 times seven instructions.
    let exactly =
        b"\x01\x01\x7f\x03\x40\x20\x00\x41\x01\x6a\x22\x00\x41\xc9\xfb\xb3\x03\x49\x0d\x00\x0b\x0b";
    assert_eq!(rt; outcome(rt.alloc(), 0, b"", exactly), NO_VALUE);
    // The same, and a `nop`.
    let one_more =
        b"\x01\x01\x7f\x03\x40\x20\x00\x41\x01\x6a\x22\x00\x41\xc9\xfb\xb3\x03\x49\x0d\x00\x0b\x01\x0b";
    assert_eq!(rt; outcome(rt.alloc(), 0, b"", one_more), trap(Trap::Spent));
    Ok(())
}

/// A global of 0 that may change.
const COUNTER: &[u8; 8] = b"\x06\x06\x01\x7f\x01\x41\x00\x0b";

#[test]
fn call_1024_is_open_and_the_next_traps(rt: HostRuntime) -> Result<(), Fail> {
    // Each call counts itself, and calls again while the count is below 1,024.
    let to_the_limit =
        b"\x00\x23\x00\x41\x01\x6a\x24\x00\x23\x00\x41\x80\x08\x49\x04\x40\x10\x00\x0b\x0b";
    assert_eq!(rt; outcome(rt.alloc(), 0, COUNTER, to_the_limit), NO_VALUE);
    // While it is below 1,025.
    let past_it =
        b"\x00\x23\x00\x41\x01\x6a\x24\x00\x23\x00\x41\x81\x08\x49\x04\x40\x10\x00\x0b\x0b";
    assert_eq!(rt;
        outcome(rt.alloc(), 0, COUNTER, past_it),
        trap(Trap::Frames)
    );
    Ok(())
}

/// The number as five bytes, the last of which is 0 or more: a padded u32.
fn push_padded(bytes: &mut Vec<u8>, number: u32) -> Option<()> {
    let mut rest = number;
    for _ in 0..4 {
        bytes.push((rest % 128) as u8 + 128).ok()?;
        rest /= 128;
    }
    bytes.push((rest % 16) as u8).ok()
}

/// A machine for a function that pushes so many constants and drops them.
fn machine_of_constants(alloc: Global, count: u32) -> Option<Machine>
    ensures idle { IfSome result (λ machine. machine.config.frames ≡ []) }
{
    let size = 3 * count.min(100_000) + 2;
    let mut sections = Vec::from_slice(alloc, b"\x03\x02\x01\x00\x0a").ok()?;
    push_padded(&mut sections, size + 6)?;
    sections.push(0x01).ok()?;
    push_padded(&mut sections, size)?;
    sections.push(0x00).ok()?;
    for _ in 0..count {
        sections.extend_from_slice(b"\x41\x00").ok()?;
    }
    for _ in 0..count {
        sections.push(0x1a).ok()?;
    }
    sections.push(0x0b).ok()?;
    machine_of(alloc, sections.as_slice())
}

fn outcome_of_constants(alloc: Global, count: u32) -> Option<Stop> {
    let mut machine = machine_of_constants(alloc, count)?;
    stop_of(alloc, &mut machine, 0, AMPLE)
}

#[test]
fn operand_65536_is_pushed_and_the_next_traps(rt: HostRuntime) -> Result<(), Fail> {
    assert_eq!(rt; outcome_of_constants(rt.alloc(), 65_536), NO_VALUE);
    assert_eq!(rt;
        outcome_of_constants(rt.alloc(), 65_537),
        trap(Trap::Operands)
    );
    Ok(())
}

/// How a call through the table at this place stops, where the first of two entries holds this function: 1 has another type,
/// and 2 gives 7.
fn indirect_outcome(alloc: Global, place: u8, held: u32) -> Option<Stop> {
    let mut sections = Vec::from_slice(
        alloc,
        b"\x03\x04\x03\x01\x00\x01\x04\x04\x01\x70\x00\x02\x0a\x11\x03\x07\x00\x41",
    )
    .ok()?;
    sections.push(place.min(63)).ok()?;
    sections
        .extend_from_slice(b"\x11\x01\x00\x0b\x02\x00\x0b\x04\x00\x41\x07\x0b")
        .ok()?;
    let mut machine = machine_of(alloc, sections.as_slice())?;
    if machine.table_size() > 0 && machine.function_type(held).is_some() {
        machine.set_element(0, held);
    }
    stop_of(alloc, &mut machine, 0, AMPLE)
}

#[test]
fn calls_through_the_table(rt: HostRuntime) -> Result<(), Fail> {
    assert_eq!(rt; indirect_outcome(rt.alloc(), 0, 2), value(7));
    assert_eq!(rt;
        indirect_outcome(rt.alloc(), 0, 1),
        trap(Trap::IndirectType)
    );
    assert_eq!(rt;
        indirect_outcome(rt.alloc(), 1, 2),
        trap(Trap::EmptyElement)
    );
    assert_eq!(rt; indirect_outcome(rt.alloc(), 2, 2), trap(Trap::TableIndex));
    Ok(())
}

/// The first argument of the call that waits, where it has one.
fn first_argument(machine: &Machine, index: u32) -> Option<u64>
    requires waits { machine.now.config.waiting ≡ Some index }
{
    let ftype = machine.function_type(index)?;
    if ftype.params.slice().is_empty() {
        return None;
    }
    Some(machine.arg(0))
}

/// How the run goes on once the call that waits is answered by this number; `None` where it has no i32 for a result.
fn answered_stop(alloc: Global, machine: &mut Machine, index: u32, value: u32) -> Option<Stop>
    requires waits { machine.old.config.waiting ≡ Some index }
{
    let gives_i32 = match machine.function_type(index) {
        Some(ftype) => matches!(ftype.result, Some(ValType::I32)),
        None => false,
    };
    if !gives_i32 {
        return None;
    }
    machine.push_result(Some(u64::from(value)));
    Some(machine.run(alloc, AMPLE))
}

/// An import of `[i32] -> [i32]`, and a function that calls it with 5 and adds 1 to its result.
const ASKING: &[u8; 26] =
    b"\x02\x07\x01\x01a\x01b\x00\x02\x03\x02\x01\x01\x0a\x0b\x01\x09\x00\x41\x05\x10\x00\x41\x01\x6a\x0b";

/// The first argument of the import, and how the run of a copy and that of the machine go on, answered by 8 and by 9.
fn asked_and_answered(alloc: Global) -> Option<(Option<u64>, Option<Stop>, Option<Stop>)> {
    let mut machine = machine_of(alloc, ASKING)?;
    match stop_of(alloc, &mut machine, 1, AMPLE)? {
        Stop::Import { index } => {
            let argument = first_argument(&machine, index);
            let mut copy = machine.copy(alloc).ok()?;
            let of_copy = answered_stop(alloc, &mut copy, index, 8);
            Some((
                argument,
                of_copy,
                answered_stop(alloc, &mut machine, index, 9),
            ))
        }
        _ => None,
    }
}

#[test]
fn an_import_waits_and_a_copy_goes_its_own_way(rt: HostRuntime) -> Result<(), Fail> {
    let found = asked_and_answered(rt.alloc());
    assert_eq!(rt; found, Some((Some(5), value(9), value(10))));
    Ok(())
}
