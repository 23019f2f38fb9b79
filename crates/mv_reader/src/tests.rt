//! Modules that are read, and for each kind of fault some bytes that have it. Places and kinds are counted by hand from
//! WebAssembly Core 1.0, section 5, and docs/FORMATS.md.

use super::*;
use crate::cursor::Cursor;
use crate::functions::locals_at;
use mv_calls::Or;
use mv_syntax::{
    Export, Func, FuncType, Import, Instr, Limits, ReadFault, ReadKind, Segment, ValType,
};
use std::alloc::{AllocError, Global};
use std::test::Fail;

/// The module that writes `hi` to descriptor 1 and exits, of 159 bytes.
const HELLO: &[u8; 159] = b"\0asm\x01\0\0\0\
\x01\x10\x03\x60\x04\x7f\x7f\x7f\x7f\x01\x7f\x60\x01\x7f\x00\x60\x00\x00\
\x02\x46\x02\x16wasi_snapshot_preview1\x08fd_write\x00\x00\x16wasi_snapshot_preview1\x09proc_exit\x00\x01\
\x03\x02\x01\x02\x05\x03\x01\x00\x01\x07\x0a\x01\x06_start\x00\x02\
\x0a\x13\x01\x11\x00\x41\x01\x41\x00\x41\x01\x41\x0c\x10\x00\x1a\x41\x00\x10\x01\x0b\
\x0b\x11\x01\x00\x41\x00\x0b\x0b\x08\x00\x00\x00\x03\x00\x00\x00hi\x0a";

/// The empty module.
const EMPTY: &[u8; 8] = b"\0asm\x01\0\0\0";

/// A type without parameters and results, and the declaration of one function of it, which are ten bytes. Behind them
/// the code of the function begins at place 23.
const ONE_FUNCTION: &[u8; 10] = b"\x01\x04\x01\x60\x00\x00\x03\x02\x01\x00";

/// What the reader says.
#[derive(Clone, Copy, PartialEq, Eq, Debug)]
enum Answer {
    Module,
    Fault(u64, ReadKind),
    NoMemory,
}

fn answer_to(alloc: Global, bytes: &[u8]) -> Answer {
    match read_module(alloc, bytes) {
        Ok(_) => Answer::Module,
        Err(Or::Fault(ReadFault { place, kind })) => Answer::Fault(place, kind),
        Err(Or::OutOfMemory) => Answer::NoMemory,
    }
}

/// The answer for the preamble and these sections.
fn of_sections(alloc: Global, sections: &[u8]) -> Result<Answer, AllocError> {
    let mut file = Vec::from_slice(alloc, EMPTY)?;
    file.extend_from_slice(sections)?;
    Ok(answer_to(alloc, file.as_slice()))
}

/// The answer for a module of one function without locals, with this code of at most 100 bytes.
fn of_code(alloc: Global, code: &[u8]) -> Result<Answer, AllocError> {
    let size = code.len().min(100) as u8;
    let mut sections = Vec::from_slice(alloc, ONE_FUNCTION)?;
    sections.extend_from_slice(&[0x0a, size + 3, 0x01, size + 1, 0x00])?;
    sections.extend_from_slice(code)?;
    of_sections(alloc, sections.as_slice())
}

/// `fd_write` of four i32, and so on.
fn are_hellos_types(types: &[FuncType]) -> bool {
    match types {
        [write, _, start] => {
            write.params.slice() == [ValType::I32; 4].as_slice()
                && write.result == Some(ValType::I32)
                && start.params.slice().is_empty()
        }
        _ => false,
    }
}

fn is_exit(import: &Import) -> bool {
    import.module.slice() == b"wasi_snapshot_preview1".as_slice()
        && import.name.slice() == b"proc_exit".as_slice()
        && import.ftype == 1
}

fn is_start(export: &Export) -> bool {
    export.name.slice() == b"_start".as_slice() && export.kind == 0 && export.index == 2
}

/// A call of `fd_write` with four constants, a drop, a call of `proc_exit` with one.
fn is_hellos_code(code: &[Instr]) -> bool {
    matches!(
        code,
        [
            Instr::Const { value: 1, .. },
            _,
            _,
            Instr::Const {
                vtype: ValType::I32,
                value: 12,
            },
            Instr::Call(0),
            Instr::Drop,
            _,
            Instr::Call(1),
            Instr::End,
        ]
    )
}

fn is_hellos_function(function: &Func) -> bool {
    function.ftype == 2 && function.locals.len() == 0 && is_hellos_code(function.code.slice())
}

fn is_hellos_data(segment: &Segment) -> bool {
    segment.offset.slice().len() == 2
        && segment.bytes.slice() == b"\x08\0\0\0\x03\0\0\0hi\n".as_slice()
}

/// Two of one type, none of the other, one of that, and one of the first again.
#[test]
fn a_local_has_the_type_of_its_run(rt: HostRuntime) -> Result<(), Fail> {
    let mut at = Cursor::new(b"\x02\x7f\x00\x7e\x01\x7e\x01\x7f");
    let locals = locals_at(rt.alloc(), 4, &mut at)?;
    let types = [
        Some(ValType::I32),
        Some(ValType::I32),
        Some(ValType::I64),
        Some(ValType::I32),
        None,
    ];
    for (index, vtype) in types.iter().enumerate() {
        assert_eq!(rt; locals.get(index), *vtype);
    }
    Ok(())
}

#[test]
fn hello_is_read_part_by_part(rt: HostRuntime) -> Result<(), Fail> {
    let module = read_module(rt.alloc(), HELLO)?;
    assert!(rt; are_hellos_types(module.types.slice()));
    assert!(rt; matches!(module.imports.slice(), [_, exit] if is_exit(exit)));
    assert!(rt; matches!(module.exports.slice(), [start] if is_start(start)));
    assert!(rt; matches!(module.funcs.slice(), [function] if is_hellos_function(function)));
    assert!(rt; matches!(module.segments.slice(), [data] if is_hellos_data(data)));
    assert_eq!(rt; module.memory, Some(Limits { min: 1, max: None }));
    assert_eq!(rt; (module.table, module.start), (None, None));
    Ok(())
}

/// What hello is where it is cut to so many bytes.
fn cut_to(len: usize) -> Answer {
    match len {
        8 | 26 | 98 | 140 => Answer::Module,
        102 | 107 | 119 => Answer::Fault(len as u64, ReadKind::Count),
        _ => Answer::Fault(len as u64, ReadKind::Cut),
    }
}

#[test]
fn hello_is_cut_at_each_place(rt: HostRuntime) {
    for len in 0..HELLO.len() {
        assert_eq!(rt;
            answer_to(rt.alloc(), &HELLO[..len]),
            cut_to(len),
            "at {len}"
        );
    }
}

/// A module, with a padded size, a custom section and an empty one, a table beside an empty memory.
const SECTIONS: [&[u8]; 4] = [
    b"",
    b"\x05\x83\x80\x80\x80\x00\x01\x00\x01",
    b"\x00\x02\x01a\x01\x04\x01\x60\x00\x00\x00\x01\x00",
    b"\x04\x04\x01\x70\x00\x01\x05\x01\x00",
];

/// Bodies that are read, with padded numbers, an `if` with both lists, and a branch out of two blocks.
const BODIES: [&[u8]; 4] = [
    b"\x0b",
    b"\x41\xff\xff\x7f\x04\x40\x01\x05\x01\x0b\x0b",
    b"\x02\x40\x03\x40\x0c\x01\x0b\x0b\x0b",
    b"\x42\xff\xff\xff\xff\xff\xff\xff\xff\xff\x7f\x1a\x0b",
];

#[test]
fn forms_that_are_read(rt: HostRuntime) -> Result<(), Fail> {
    for bytes in SECTIONS {
        assert_eq!(rt; of_sections(rt.alloc(), bytes)?, Answer::Module);
    }
    for code in BODIES {
        assert_eq!(rt; of_code(rt.alloc(), code)?, Answer::Module);
    }
    Ok(())
}

/// Bytes, and the place and kind of their first fault.
const SECTION_ROWS: [(&[u8], u64, ReadKind); 22] = [
    (b"\x05", 9, ReadKind::Cut),
    (b"\x05\x83", 10, ReadKind::Cut),
    (b"\x05\x04\x00", 11, ReadKind::Cut),
    (b"\x05\x01\x00\x05\x01\x00", 11, ReadKind::Order),
    (b"\x05\x01\x00\x04\x01\x00", 11, ReadKind::Order),
    (b"\x05\x02\x01\x00", 12, ReadKind::Size),
    (b"\x05\x04\x01\x00\x01\x00", 13, ReadKind::Size),
    (b"\x00\x02\x02a", 12, ReadKind::Size),
    (
        b"\x05\x83\x80\x80\x80\x80\x00\x01\x00\x01",
        9,
        ReadKind::Leb,
    ),
    (b"\x05\x83\x80\x80\x80\x10\x01\x00\x01", 9, ReadKind::Leb),
    (b"\x00\x03\x02a\xff", 11, ReadKind::Utf8),
    (b"\x07\x05\x01\x01\xff\x00\x00", 12, ReadKind::Utf8),
    (b"\x0e", 8, ReadKind::Kind),
    (b"\x0c", 8, ReadKind::LaterFeature),
    (b"\x0d", 8, ReadKind::LaterFeature),
    (b"\x04\x01\x02", 10, ReadKind::LaterFeature),
    (b"\x05\x01\x02", 10, ReadKind::LaterFeature),
    (b"\x0a\x01\x01", 10, ReadKind::Count),
    (ONE_FUNCTION, 18, ReadKind::Count),
    (b"\x01\x05\x01\x60\xe9\x07\x00", 12, ReadKind::Limit),
    (b"\x04\x06\x01\x70\x00\x81\x80\x04", 13, ReadKind::Limit),
    (b"\x05\x04\x01\x00\x81\x08", 12, ReadKind::Limit),
];

#[test]
fn faults_of_the_file_and_of_sections(rt: HostRuntime) -> Result<(), Fail> {
    assert_eq!(rt;
        answer_to(rt.alloc(), b"\0asn\x01\0\0\0"),
        Answer::Fault(3, ReadKind::Magic)
    );
    assert_eq!(rt;
        answer_to(rt.alloc(), b"\0asm\x02\0\0\0"),
        Answer::Fault(4, ReadKind::Magic)
    );
    for (bytes, place, kind) in SECTION_ROWS {
        assert_eq!(rt;
            of_sections(rt.alloc(), bytes)?,
            Answer::Fault(place, kind),
            "at {place}"
        );
    }
    Ok(())
}

/// Bytes, and the place and kind of their first fault.
const CONTENTS_ROWS: [(&[u8], u64, ReadKind); 18] = [
    (b"\x01\x02\x01\x61", 11, ReadKind::Kind),
    (b"\x01\x04\x01\x60\x01\x40", 13, ReadKind::Kind),
    (b"\x01\x04\x01\x60\x01\x7d", 13, ReadKind::Float),
    (b"\x01\x05\x01\x60\x00\x01\x7c", 14, ReadKind::Float),
    (b"\x01\x04\x01\x60\x01\x7b", 13, ReadKind::LaterFeature),
    (b"\x01\x04\x01\x60\x01\x70", 13, ReadKind::LaterFeature),
    (b"\x01\x04\x01\x60\x01\x6f", 13, ReadKind::LaterFeature),
    (
        b"\x01\x06\x01\x60\x00\x02\x7f\x7f",
        13,
        ReadKind::LaterFeature,
    ),
    (b"\x02\x06\x01\x01a\x01b\x01", 15, ReadKind::Kind),
    (b"\x04\x02\x01\x7d", 11, ReadKind::Float),
    (b"\x04\x04\x01\x6f\x00\x01", 11, ReadKind::LaterFeature),
    (b"\x04\x04\x01\x70\x02\x01", 12, ReadKind::LaterFeature),
    (b"\x05\x03\x01\x03\x01", 11, ReadKind::LaterFeature),
    (b"\x06\x03\x01\x7f\x02", 12, ReadKind::Kind),
    (b"\x07\x04\x01\x00\x04\x00", 12, ReadKind::Kind),
    (b"\x09\x02\x01\x01", 11, ReadKind::LaterFeature),
    (b"\x0b\x02\x01\x01", 11, ReadKind::LaterFeature),
    (b"\x0b\x06\x01\x00\x41\x00\x0b\x01", 16, ReadKind::Size),
];

#[test]
fn faults_of_what_sections_hold(rt: HostRuntime) -> Result<(), Fail> {
    for (bytes, place, kind) in CONTENTS_ROWS {
        assert_eq!(rt;
            of_sections(rt.alloc(), bytes)?,
            Answer::Fault(place, kind),
            "at {place}"
        );
    }
    Ok(())
}

/// The answer for a module of one function with this section of code.
fn of_bodies(alloc: Global, section: &[u8]) -> Result<Answer, AllocError> {
    let mut sections = Vec::from_slice(alloc, ONE_FUNCTION)?;
    sections.extend_from_slice(section)?;
    of_sections(alloc, sections.as_slice())
}

/// Bytes, and the place and kind of their first fault.
const BODY_ROWS: [(&[u8], u64, ReadKind); 8] = [
    (b"\x0a\x05\x01\x01\x00\x0b\x00", 23, ReadKind::Size),
    (b"\x0a\x06\x01\x04\x00\x0b\x01\x01", 24, ReadKind::Size),
    // The size passes the section: what is inside is read as far as it goes.
    (b"\x0a\x04\x01\x09\x00\x01", 24, ReadKind::Size),
    (b"\x0a\x04\x01\x09\x00\x0b", 24, ReadKind::Size),
    (b"\x0a\x04\x01\x09\x00\x43", 23, ReadKind::Float),
    // One local too many, in one run and in two.
    (b"\x0a\x06\x01\x04\x01\x91\x4e\x7f", 23, ReadKind::Limit),
    (
        b"\x0a\x08\x01\x06\x02\x90\x4e\x7f\x01\x7f",
        26,
        ReadKind::Limit,
    ),
    (b"\x0a\x03\x02\x01\x00", 20, ReadKind::Count),
];

#[test]
fn faults_of_bodies_and_their_sizes(rt: HostRuntime) -> Result<(), Fail> {
    for (bytes, place, kind) in BODY_ROWS {
        assert_eq!(rt;
            of_bodies(rt.alloc(), bytes)?,
            Answer::Fault(place, kind),
            "at {place}"
        );
    }
    Ok(())
}

/// Bytes, and the place and kind of their first fault.
const INSTRUCTION_ROWS: [(&[u8], u64, ReadKind); 20] = [
    (b"\x00\x43\x00\x00\x00\x00\x1a\x0b", 24, ReadKind::Float),
    (b"\x2a\x0b", 23, ReadKind::Float),
    (b"\x5b\x0b", 23, ReadKind::Float),
    (b"\xa6\x0b", 23, ReadKind::Float),
    (b"\xa8\x0b", 23, ReadKind::Float),
    (b"\xbf\x0b", 23, ReadKind::Float),
    (b"\x02\x7d\x0b\x0b", 24, ReadKind::Float),
    (b"\xc0\x0b", 23, ReadKind::LaterFeature),
    (b"\x06\x0b", 23, ReadKind::LaterFeature),
    (b"\xfc\x0b", 23, ReadKind::LaterFeature),
    (b"\x02\x00\x0b\x0b", 24, ReadKind::LaterFeature),
    (b"\x11\x00\x01\x0b", 25, ReadKind::LaterFeature),
    (b"\x3f\x01\x0b", 24, ReadKind::LaterFeature),
    (b"\x40\x01\x0b", 24, ReadKind::LaterFeature),
    (b"\x41\x80\x80\x80\x80\x08\x0b", 24, ReadKind::Leb),
    (
        b"\x42\x80\x80\x80\x80\x80\x80\x80\x80\x80\x01\x0b",
        24,
        ReadKind::Leb,
    ),
    (b"\x05\x0b", 23, ReadKind::Kind),
    (b"\x02\x40\x05\x0b\x0b", 25, ReadKind::Kind),
    (b"\x04\x40\x05\x05\x0b\x0b", 26, ReadKind::Kind),
    (b"\x04\x40\x0b", 26, ReadKind::Size),
];

#[test]
fn faults_of_instructions(rt: HostRuntime) -> Result<(), Fail> {
    for (code, place, kind) in INSTRUCTION_ROWS {
        assert_eq!(rt;
            of_code(rt.alloc(), code)?,
            Answer::Fault(place, kind),
            "at {place}"
        );
    }
    Ok(())
}

#[test]
fn a_file_past_the_limit_is_refused_at_its_start(rt: HostRuntime) -> Result<(), Fail> {
    let mut file = Vec::from_slice(rt.alloc(), EMPTY)?;
    file.resize(16_777_217, 0)?;
    assert_eq!(rt;
        answer_to(rt.alloc(), file.as_slice()),
        Answer::Fault(0, ReadKind::Limit)
    );
    Ok(())
}
