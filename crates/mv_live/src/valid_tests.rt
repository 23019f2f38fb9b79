//! Modules that are valid, and for each kind of fault some that have it. What is wrong and where is counted by hand from
//! WebAssembly Core 1.0, section 3, and docs/FORMATS.md.

use mv_calls::Or;
use mv_reader::read_module;
use mv_syntax::{Limits, ValidFault, ValidKind};
use mv_validator::validate;
use std::alloc::{AllocError, Global};
use std::test::Fail;

/// The empty module.
const EMPTY: &[u8; 8] = b"\0asm\x01\0\0\0";

/// A type without parameters and results.
const TYPE: &[u8; 6] = b"\x01\x04\x01\x60\x00\x00";

/// The declaration of one function of that type.
const DECLARATION: &[u8; 4] = b"\x03\x02\x01\x00";

/// What reading and validating say.
#[derive(Clone, Copy, PartialEq, Eq, Debug)]
enum Answer {
    Valid,
    Fault(u8, u32, u32, ValidKind),
    Unread,
    NoMemory,
}

fn answer_to(alloc: Global, bytes: &[u8]) -> Answer {
    let Ok(module) = read_module(alloc, bytes) else {
        return Answer::Unread;
    };
    match validate(alloc, module) {
        Ok(_) => Answer::Valid,
        Err(
            Or::Fault(
                ValidFault {
                    part,
                    item,
                    at,
                    kind,
                },
            ),
        ) => Answer::Fault(part, item, at, kind),
        Err(Or::OutOfMemory) => Answer::NoMemory,
    }
}

/// The answer for the preamble and these sections.
fn of_sections(alloc: Global, sections: &[u8]) -> Result<Answer, AllocError> {
    let mut file = Vec::from_slice(alloc, EMPTY)?;
    file.extend_from_slice(sections)?;
    Ok(answer_to(alloc, file.as_slice()))
}

/// The answer for a module of one function with this code of at most 100 bytes, and these sections between its
/// declaration and its code.
fn of_code(alloc: Global, between: &[u8], code: &[u8]) -> Result<Answer, AllocError> {
    let size = code.len().min(100) as u8;
    let mut sections = Vec::from_slice(alloc, TYPE)?;
    sections.extend_from_slice(DECLARATION)?;
    sections.extend_from_slice(between)?;
    sections.extend_from_slice(&[0x0a, size + 3, 0x01, size + 1, 0x00])?;
    sections.extend_from_slice(code)?;
    of_sections(alloc, sections.as_slice())
}

#[test]
fn a_valid_module_is_given_back(rt: HostRuntime) -> Result<(), Fail> {
    let bytes = b"\0asm\x01\0\0\0\x05\x83\x80\x80\x80\x00\x01\x00\x01";
    let module = read_module(rt.alloc(), bytes)?;
    let valid = validate(rt.alloc(), module)?;
    let one_page = Some(Limits { min: 1, max: None });
    assert_eq!(rt; valid.module().memory, one_page);
    assert_eq!(rt; valid.into_module().memory, one_page);
    assert_eq!(rt; of_sections(rt.alloc(), b"")?, Answer::Valid);
    Ok(())
}

/// Sections, and the part, the item and the kind of their first fault.
const SECTION_ROWS: [(&[u8], u8, u32, ValidKind); 18] = [
    (
        b"\x02\x07\x01\x01a\x01b\x00\x05",
        2,
        0,
        ValidKind::TypeIndex,
    ),
    (
        b"\x01\x04\x01\x60\x00\x00\x03\x03\x02\x00\x01\x0a\x07\x02\x02\x00\x0b\x02\x00\x0b",
        3,
        1,
        ValidKind::TypeIndex,
    ),
    (b"\x04\x05\x01\x70\x01\x02\x01", 4, 0, ValidKind::Limits),
    (b"\x05\x04\x01\x01\x02\x01", 5, 0, ValidKind::Limits),
    (b"\x05\x06\x01\x01\x00\x81\x80\x04", 5, 0, ValidKind::Limits),
    (
        b"\x06\x06\x01\x7f\x00\x42\x00\x0b",
        6,
        0,
        ValidKind::Constant,
    ),
    (
        b"\x06\x08\x01\x7f\x00\x41\x00\x41\x00\x0b",
        6,
        0,
        ValidKind::Constant,
    ),
    (b"\x07\x05\x01\x01a\x00\x00", 7, 0, ValidKind::FuncIndex),
    (b"\x07\x05\x01\x01a\x01\x00", 7, 0, ValidKind::NoTable),
    (b"\x07\x05\x01\x01a\x02\x00", 7, 0, ValidKind::NoMemory),
    (b"\x07\x05\x01\x01a\x03\x00", 7, 0, ValidKind::GlobalIndex),
    // The name stands in front of the index.
    (
        b"\x05\x03\x01\x00\x01\x07\x09\x02\x01a\x02\x00\x01a\x00\x00",
        7,
        1,
        ValidKind::ExportName,
    ),
    (b"\x08\x01\x00", 8, 0, ValidKind::FuncIndex),
    (
        b"\x01\x05\x01\x60\x01\x7f\x00\x03\x02\x01\x00\x08\x01\x00\x0a\x04\x01\x02\x00\x0b",
        8,
        0,
        ValidKind::StartType,
    ),
    (
        b"\x09\x06\x01\x00\x42\x00\x0b\x00",
        9,
        0,
        ValidKind::NoTable,
    ),
    (
        b"\x04\x04\x01\x70\x00\x01\x09\x07\x01\x00\x41\x00\x0b\x01\x00",
        9,
        0,
        ValidKind::FuncIndex,
    ),
    (
        b"\x0b\x06\x01\x00\x42\x00\x0b\x00",
        11,
        0,
        ValidKind::NoMemory,
    ),
    (
        b"\x05\x03\x01\x00\x01\x0b\x06\x01\x00\x42\x00\x0b\x00",
        11,
        0,
        ValidKind::Constant,
    ),
];

#[test]
fn faults_of_sections(rt: HostRuntime) -> Result<(), Fail> {
    for (bytes, part, item, kind) in SECTION_ROWS {
        assert_eq!(rt;
            of_sections(rt.alloc(), bytes)?,
            Answer::Fault(part, item, 0, kind),
            "in section {part}"
        );
    }
    Ok(())
}

/// One page of memory.
const PAGE: &[u8] = b"\x05\x03\x01\x00\x01";

/// A constant global.
const GLOBAL: &[u8] = b"\x06\x06\x01\x7f\x00\x41\x00\x0b";

/// Sections between the declaration and the code, code, and the place and the kind of its first fault.
const BODY_ROWS: [(&[u8], &[u8], u32, ValidKind); 17] = [
    (b"", b"\x11\x01\x00\x0b", 0, ValidKind::TypeIndex),
    (b"", b"\x11\x00\x00\x0b", 0, ValidKind::NoTable),
    (b"", b"\x10\x01\x0b", 0, ValidKind::FuncIndex),
    (b"", b"\x3f\x00\x1a\x0b", 0, ValidKind::NoMemory),
    (b"", b"\x23\x00\x1a\x0b", 0, ValidKind::GlobalIndex),
    (b"", b"\x20\x00\x1a\x0b", 0, ValidKind::LocalIndex),
    (b"", b"\x0c\x01\x0b", 0, ValidKind::LabelIndex),
    (b"", b"\x00\x0e\x01\x05\x00\x0b", 1, ValidKind::LabelIndex),
    // `i32.const 1`, `i64.const 1`, `i32.add`, `drop`
    (b"", b"\x41\x01\x42\x01\x6a\x1a\x0b", 2, ValidKind::Operand),
    // An `if` with a result and no `else` is faulty at its `end`.
    (
        b"",
        b"\x41\x00\x04\x7f\x41\x00\x0b\x1a\x0b",
        3,
        ValidKind::Operand,
    ),
    (b"", b"\x41\x00\x0b", 1, ValidKind::Operand),
    // A `br_table` to a block with a result and to one without
    (
        b"",
        b"\x02\x7f\x41\x00\x41\x00\x0e\x01\x00\x01\x0b\x1a\x0b",
        3,
        ValidKind::Operand,
    ),
    // What is never reached has a type too.
    (b"", b"\x0c\x00\x42\x00\x45\x1a\x0b", 2, ValidKind::Operand),
    (GLOBAL, b"\x24\x00\x0b", 0, ValidKind::Immutable),
    (PAGE, b"\x28\x03\x00\x1a\x0b", 0, ValidKind::Align),
    (b"", b"\x28\x03\x00\x1a\x0b", 0, ValidKind::NoMemory),
    // A `select` of two types
    (
        b"",
        b"\x41\x00\x42\x00\x41\x00\x1b\x1a\x0b",
        3,
        ValidKind::Operand,
    ),
];

/// Code that is valid: `br 0`, `i32.add`, `drop`; a `select` of what is unknown; a loop.
const TYPED: [&[u8]; 3] = [
    b"\x0c\x00\x6a\x1a\x0b",
    b"\x00\x1b\x1a\x0b",
    b"\x03\x40\x41\x00\x0d\x00\x0b\x0b",
];

#[test]
fn faults_of_bodies(rt: HostRuntime) -> Result<(), Fail> {
    for code in TYPED {
        assert_eq!(rt; of_code(rt.alloc(), b"", code)?, Answer::Valid);
    }
    for (between, code, at, kind) in BODY_ROWS {
        assert_eq!(rt;
            of_code(rt.alloc(), between, code)?,
            Answer::Fault(10, 0, at, kind),
            "at {at}"
        );
    }
    Ok(())
}
