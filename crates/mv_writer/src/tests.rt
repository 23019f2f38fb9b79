//! Shortest spellings.

use crate::numbers::{push_number, push_s32, push_s64};
use crate::vectors::Write;
use crate::write_module;
use mv_syntax::{
    Code, Elements, Exports, Func, FuncTypes, Funcs, Globals, Imports, Instr, Locals, Module,
    Segments, ValType,
};
use std::test::*;

/// The examples of the public standard of the encoding (DWARF 4, section 7.6), and the largest number.
#[test]
fn numbers_take_as_few_bytes_as_hold_them(rt: HostRuntime) -> Result<(), Fail> {
    let rows: [(u64, &[u8]); 5] = [
        (2, b"\x02"),
        (127, b"\x7f"),
        (128, b"\x80\x01"),
        (12857, b"\xb9\x64"),
        (0xffff_ffff, b"\xff\xff\xff\xff\x0f"),
    ];
    for (value, bytes) in rows {
        let mut out = Vec::new(rt.alloc());
        push_number(&mut out, value)?;
        assert_eq!(rt; out.as_slice(), bytes);
    }
    let signed: [(u64, &[u8]); 6] = [
        (2, b"\x02"),
        (0xffff_ffff_ffff_fffe, b"\x7e"),
        (127, b"\xff\x00"),
        (0xffff_ffff_ffff_ff81, b"\x81\x7f"),
        (0xffff_ffff_ffff_ff80, b"\x80\x7f"),
        (0xffff_ffff_ffff_ff7f, b"\xff\x7e"),
    ];
    for (value, bytes) in signed {
        let mut narrow = Vec::new(rt.alloc());
        push_s32(&mut narrow, value % 0x1_0000_0000)?;
        assert_eq!(rt; narrow.as_slice(), bytes);
        let mut wide = Vec::new(rt.alloc());
        push_s64(&mut wide, value)?;
        assert_eq!(rt; wide.as_slice(), bytes);
    }
    Ok(())
}

#[test]
fn neighbouring_locals_of_one_type_are_one_run(rt: HostRuntime) -> Result<(), Fail> {
    let alloc = rt.alloc();
    let mut locals = Locals::new(alloc);
    locals.push_run(1, ValType::I32)?;
    locals.push_run(1, ValType::I32)?;
    locals.push_run(1, ValType::I64)?;
    locals.push_run(1, ValType::I32)?;
    let mut code = Vec::new(alloc);
    code.push(Instr::End)?;
    let func = Func {
        ftype: 0,
        locals,
        code: Code::from_vec(code),
    };
    let mut out = Vec::new(alloc);
    func.write(alloc, &mut out)?;
    assert_eq!(rt;
        out.as_slice(),
        b"\x08\x03\x02\x7f\x01\x7e\x01\x7f\x0b".as_slice()
    );
    Ok(())
}

#[test]
fn the_empty_module_has_no_section(rt: HostRuntime) -> Result<(), Fail> {
    let alloc = rt.alloc();
    let module = Module {
        types: FuncTypes::from_vec(Vec::new(alloc)),
        imports: Imports::from_vec(Vec::new(alloc)),
        funcs: Funcs::from_vec(Vec::new(alloc)),
        table: None,
        memory: None,
        globals: Globals::from_vec(Vec::new(alloc)),
        exports: Exports::from_vec(Vec::new(alloc)),
        start: None,
        elements: Elements::from_vec(Vec::new(alloc)),
        segments: Segments::from_vec(Vec::new(alloc)),
    };
    assert_eq!(rt;
        write_module(alloc, &module)?.as_slice(),
        b"\0asm\x01\0\0\0".as_slice()
    );
    Ok(())
}
