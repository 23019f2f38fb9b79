//! Small modules and what their first function comes to, as another engine (V8) told it; and what a machine lends, promises and
//! takes with it to another thread.

ghost use Rattle.std.specs.Prelude.{◌≡◌, [], IfSome};

use mv_calls::Trap;
use mv_machine::{Machine, Stop};
use mv_reader::read_module;
use mv_start::fill;
use mv_validator::validate;
use std::alloc::{AllocError, Global};
use std::test::Fail;
use std::thread::{Threads, join};

/// What each file begins with.
const PREAMBLE: &[u8; 8] = b"\0asm\x01\0\0\0";

/// Fuel for each of the rows.
const AMPLE: u32 = 10_000;

/// What a function comes to.
#[derive(Clone, Copy, PartialEq, Eq, Debug)]
enum Outcome {
    Value(u64),
    Trap(Trap),
    Other,
}

/// Sections behind the preamble, and what the first function comes to.
const ROWS: [(&str, &[u8], Outcome); 34] = [
    (
        "the least i32 shifted arithmetically",
        b"\x01\x05\x01`\0\x01\x7f\x03\x02\x01\0\x07\x05\x01\x01f\0\0\x0a\x0d\x01\x0b\0A\x80\x80\x80\x80xA!u\x0b",
        Outcome::Value(3_221_225_472),
    ),
    (
        "rotations count their bits alone",
        b"\x01\x05\x01`\0\x01\x7f\x03\x02\x01\0\x07\x05\x01\x01f\0\0\x0a\x0d\x01\x0b\0A\x81\x80\x80\x80xA$w\x0b",
        Outcome::Value(24),
    ),
    (
        "an i64 rotated right",
        b"\x01\x05\x01`\0\x01~\x03\x02\x01\0\x07\x05\x01\x01f\0\0\x0a\x13\x01\x11\0B\x81\x80\x80\x80\x80\x80\x80\x80\x80\x7fB\xc4\0\x8a\x0b",
        Outcome::Value(1_729_382_256_910_270_464),
    ),
    (
        "leading zeros of a small i64",
        b"\x01\x05\x01`\0\x01~\x03\x02\x01\0\x07\x05\x01\x01f\0\0\x0a\x08\x01\x06\0B\xff\x01y\x0b",
        Outcome::Value(56),
    ),
    (
        "trailing zeros of no bits",
        b"\x01\x05\x01`\0\x01\x7f\x03\x02\x01\0\x07\x05\x01\x01f\0\0\x0a\x07\x01\x05\0A\0h\x0b",
        Outcome::Value(32),
    ),
    (
        "bits of a negative i64",
        b"\x01\x05\x01`\0\x01~\x03\x02\x01\0\x07\x05\x01\x01f\0\0\x0a\x07\x01\x05\0B~{\x0b",
        Outcome::Value(63),
    ),
    (
        "a remainder of the least i32",
        b"\x01\x05\x01`\0\x01\x7f\x03\x02\x01\0\x07\x05\x01\x01f\0\0\x0a\x0d\x01\x0b\0A\x80\x80\x80\x80xA\x7fo\x0b",
        Outcome::Value(0),
    ),
    (
        "a quotient of the least i32",
        b"\x01\x05\x01`\0\x01\x7f\x03\x02\x01\0\x07\x05\x01\x01f\0\0\x0a\x0d\x01\x0b\0A\x80\x80\x80\x80xA\x7fm\x0b",
        Outcome::Trap(Trap::Overflow),
    ),
    (
        "a signed remainder takes the sign of the first",
        b"\x01\x05\x01`\0\x01~\x03\x02\x01\0\x07\x05\x01\x01f\0\0\x0a\x09\x01\x07\0ByB\x03\x81\x0b",
        Outcome::Value(18_446_744_073_709_551_615),
    ),
    (
        "an unsigned quotient of a negative i64",
        b"\x01\x05\x01`\0\x01~\x03\x02\x01\0\x07\x05\x01\x01f\0\0\x0a\x09\x01\x07\0ByB\x03\x80\x0b",
        Outcome::Value(6_148_914_691_236_517_203),
    ),
    (
        "no remainder by zero",
        b"\x01\x05\x01`\0\x01~\x03\x02\x01\0\x07\x05\x01\x01f\0\0\x0a\x09\x01\x07\0B\x05B\0\x82\x0b",
        Outcome::Trap(Trap::DivideByZero),
    ),
    (
        "a sign-extended product",
        b"\x01\x05\x01`\0\x01~\x03\x02\x01\0\x07\x05\x01\x01f\0\0\x0a\x0f\x01\x0d\0A}\xacB\x80\x80\x80\x80\x80\x20~\x0b",
        Outcome::Value(18_446_740_775_174_668_288),
    ),
    (
        "an i64 wrapped",
        b"\x01\x05\x01`\0\x01\x7f\x03\x02\x01\0\x07\x05\x01\x01f\0\0\x0a\x0f\x01\x0d\0B\xef\x9b\xaf\x85\x89\xcf\x95\x9a\x12\xa7\x0b",
        Outcome::Value(2_427_178_479),
    ),
    (
        "a comparison without signs",
        b"\x01\x05\x01`\0\x01\x7f\x03\x02\x01\0\x07\x05\x01\x01f\0\0\x0a\x09\x01\x07\0A\x7fA\x01I\x0b",
        Outcome::Value(0),
    ),
    (
        "a comparison with signs",
        b"\x01\x05\x01`\0\x01\x7f\x03\x02\x01\0\x07\x05\x01\x01f\0\0\x0a\x09\x01\x07\0B\x7fB\x01S\x0b",
        Outcome::Value(1),
    ),
    (
        "bytes of the memory are little-endian",
        b"\x01\x05\x01`\0\x01\x7f\x03\x02\x01\0\x05\x03\x01\0\x01\x07\x05\x01\x01f\0\0\x0a\x14\x01\x12\0A\x08A\xc4\xe6\x88\x89\x016\x02\0A\x09/\x01\0\x0b",
        Outcome::Value(8_755),
    ),
    (
        "a byte read with its sign",
        b"\x01\x05\x01`\0\x01~\x03\x02\x01\0\x05\x03\x01\0\x01\x07\x05\x01\x01f\0\0\x0a\x11\x01\x0f\0A\x03B\x80\x01<\0\x05A\x080\0\0\x0b",
        Outcome::Value(18_446_744_073_709_551_488),
    ),
    (
        "the last bytes of a page",
        b"\x01\x05\x01`\0\x01~\x03\x02\x01\0\x05\x03\x01\0\x01\x07\x05\x01\x01f\0\0\x0a\x1c\x01\x1a\0A\xf8\xff\x03B\x88\x8e\x98\xa8\xc0\xe0\x80\x81\x017\x03\0A\xfc\xff\x035\x02\0\x0b",
        Outcome::Value(16_909_060),
    ),
    (
        "a byte past the page",
        b"\x01\x05\x01`\0\x01\x7f\x03\x02\x01\0\x05\x03\x01\0\x01\x07\x05\x01\x01f\0\0\x0a\x0b\x01\x09\0A\xfd\xff\x03(\x02\0\x0b",
        Outcome::Trap(Trap::Bounds),
    ),
    (
        "an offset that leaves 32 bits",
        b"\x01\x05\x01`\0\x01\x7f\x03\x02\x01\0\x05\x03\x01\0\x01\x07\x05\x01\x01f\0\0\x0a\x09\x01\x07\0A\x7f-\0\x02\x0b",
        Outcome::Trap(Trap::Bounds),
    ),
    (
        "a segment is read",
        b"\x01\x05\x01`\0\x01~\x03\x02\x01\0\x05\x03\x01\0\x01\x07\x05\x01\x01f\0\0\x0a\x09\x01\x07\0A\x02)\x03\0\x0b\x0b\x0a\x01\0A\x04\x0b\x04\xff\x80\x01\x7f",
        Outcome::Value(139_644_435_890_176),
    ),
    (
        "a grown memory has its old size first",
        b"\x01\x05\x01`\0\x01\x7f\x03\x02\x01\0\x05\x03\x01\0\x01\x07\x05\x01\x01f\0\0\x0a\x0e\x01\x0c\0A\x02@\0A\x10t?\0j\x0b",
        Outcome::Value(65_539),
    ),
    (
        "the sum to ten by a loop",
        b"\x01\x05\x01`\0\x01\x7f\x03\x02\x01\0\x07\x05\x01\x01f\0\0\x0a\x1e\x01\x1c\x01\x02\x7f\x03@\x20\0A\x01j\x22\0\x20\x01j!\x01\x20\0A\x0aH\x0d\0\x0b\x20\x01\x0b",
        Outcome::Value(55),
    ),
    (
        "the first label of a table",
        b"\x01\x05\x01`\0\x01\x7f\x03\x02\x01\0\x07\x05\x01\x01f\0\0\x0a\x1c\x01\x1a\0\x02@\x02@\x02@A\0\x0e\x02\0\x01\x02\x0bA\x0a\x0f\x0bA\x14\x0f\x0bA\x1e\x0b",
        Outcome::Value(10),
    ),
    (
        "the last label of a table",
        b"\x01\x05\x01`\0\x01\x7f\x03\x02\x01\0\x07\x05\x01\x01f\0\0\x0a\x1c\x01\x1a\0\x02@\x02@\x02@A\x09\x0e\x02\0\x01\x02\x0bA\x0a\x0f\x0bA\x14\x0f\x0bA\x1e\x0b",
        Outcome::Value(30),
    ),
    (
        "a branch leaves what lies below",
        b"\x01\x05\x01`\0\x01\x7f\x03\x02\x01\0\x07\x05\x01\x01f\0\0\x0a\x12\x01\x10\0A\x07\x02\x7fA\x01A\x02A\x03\x0c\0\x0bj\x0b",
        Outcome::Value(10),
    ),
    (
        "an else is taken",
        b"\x01\x05\x01`\0\x01~\x03\x02\x01\0\x07\x05\x01\x01f\0\0\x0a\x0e\x01\x0c\0A\0\x04~B\x01\x05B\x7f\x0b\x0b",
        Outcome::Value(18_446_744_073_709_551_615),
    ),
    (
        "a select",
        b"\x01\x05\x01`\0\x01\x7f\x03\x02\x01\0\x07\x05\x01\x01f\0\0\x0a\x0b\x01\x09\0A\x05A\x06A\0\x1b\x0b",
        Outcome::Value(6),
    ),
    (
        "a factorial by calls",
        b"\x01\x0a\x02`\0\x01~`\x01~\x01~\x03\x03\x02\0\x01\x07\x05\x01\x01f\0\0\x0a\x1e\x02\x06\0B\x14\x10\x01\x0b\x15\0\x20\0P\x04~B\x01\x05\x20\0\x20\0B\x01}\x10\x01~\x0b\x0b",
        Outcome::Value(2_432_902_008_176_640_000),
    ),
    (
        "a call through the table",
        b"\x01\x0a\x02`\0\x01\x7f`\x01\x7f\x01\x7f\x03\x04\x03\0\x01\x01\x04\x04\x01p\0\x02\x07\x05\x01\x01f\0\0\x09\x08\x01\0A\0\x0b\x02\x01\x02\x0a\x1b\x03\x09\0A\x09A\x01\x11\x01\0\x0b\x07\0\x20\0A\x01j\x0b\x07\0\x20\0A\x01k\x0b",
        Outcome::Value(8),
    ),
    (
        "a call through the table of another type",
        b"\x01\x0a\x02`\0\x01\x7f`\x01\x7f\x01\x7f\x03\x03\x02\0\x01\x04\x04\x01p\0\x01\x07\x05\x01\x01f\0\0\x09\x07\x01\0A\0\x0b\x01\x01\x0a\x0e\x02\x07\0A\0\x11\0\0\x0b\x04\0\x20\0\x0b",
        Outcome::Trap(Trap::IndirectType),
    ),
    (
        "a call through no entry",
        b"\x01\x0a\x02`\0\x01\x7f`\x01\x7f\x01\x7f\x03\x03\x02\0\x01\x04\x04\x01p\0\x01\x07\x05\x01\x01f\0\0\x09\x07\x01\0A\0\x0b\x01\x01\x0a\x10\x02\x09\0A\x09A\x07\x11\x01\0\x0b\x04\0\x20\0\x0b",
        Outcome::Trap(Trap::TableIndex),
    ),
    (
        "a global set and read",
        b"\x01\x05\x01`\0\x01~\x03\x02\x01\0\x06\x06\x01~\x01B%\x0b\x07\x05\x01\x01f\0\0\x0a\x0d\x01\x0b\0#\0B\x05|$\0#\0\x0b",
        Outcome::Value(42),
    ),
    (
        "code that is never reached",
        b"\x01\x05\x01`\0\x01\x7f\x03\x02\x01\0\x07\x05\x01\x01f\0\0\x0a\x05\x01\x03\0\0\x0b",
        Outcome::Trap(Trap::Unreachable),
    ),
];

/// An instance of the module with these sections, where it is one and there is memory.
fn machine_of(alloc: Global, sections: &[u8]) -> Option<Machine>
    ensures idle { IfSome result (λ machine. machine.config.frames ≡ []) }
{
    let mut bytes = Vec::from_slice(alloc, PREAMBLE).ok()?;
    bytes.extend_from_slice(sections).ok()?;
    let module = read_module(alloc, bytes.as_slice()).ok()?;
    let valid = validate(alloc, module).ok()?;
    let mut machine = Machine::new(alloc, valid).ok()?;
    match fill(alloc, &mut machine) {
        Ok(()) => Some(machine),
        Err(_) => None,
    }
}

/// What the first function comes to, where it has no parameter.
fn outcome_of(alloc: Global, machine: &mut Machine) -> Outcome
    requires idle { machine.old.config.frames ≡ [] }
{
    let takes_none = match machine.function_type(0) {
        Some(ftype) => ftype.params.slice().is_empty(),
        None => false,
    };
    if !takes_none || machine.enter(alloc, 0).is_err() {
        return Outcome::Other;
    }
    match machine.run(alloc, AMPLE) {
        Stop::Ended { value: Some(value) } => Outcome::Value(value),
        Stop::Trap(trap) => Outcome::Trap(trap),
        _ => Outcome::Other,
    }
}

/// What the first function of the module with these sections comes to.
fn outcome_by(alloc: Global, sections: &[u8]) -> Outcome {
    match machine_of(alloc, sections) {
        Some(mut machine) => outcome_of(alloc, &mut machine),
        None => Outcome::Other,
    }
}

#[test]
fn modules_come_to_what_another_engine_told(rt: HostRuntime) -> Result<(), Fail> {
    for (name, sections, wanted) in ROWS {
        assert_eq!(rt; outcome_by(rt.alloc(), sections), wanted, "{name}");
    }
    Ok(())
}

/// What the machine comes to in another thread, while this one waits for it.
fn outcome_there<R: Threads + Sync>(rt: &R, alloc: Global, mut machine: Machine) -> Outcome
    requires idle { machine.config.frames ≡ [] }
{
    let (outcome, ()) = join(rt, move || outcome_of(alloc, &mut machine), || ());
    outcome
}

#[test]
fn a_machine_crosses_threads(rt: HostRuntime) -> Result<(), Fail> {
    let (_, sections, wanted) = ROWS[22];
    if let Some(machine) = machine_of(rt.alloc(), sections) {
        assert_eq!(rt; outcome_there(&rt, rt.alloc(), machine), wanted);
    }
    Ok(())
}
