//! Lines and what they say.

use super::*;
use mv_scan::split_line;
use std::alloc::Global;
use std::test::Fail;

/// Lines, each behind its first kind of fault, or behind `ok`.
const LINES: &str = "\
ok type i32 i64 -> i32
ok type ->
ok import \"m\" \"\" 4294967295
ok func 0
ok func 0x1F i32 i64
ok endfunc
ok table 65536
ok memory 1024 4294967295
ok global i32 const -2147483648
ok global i64 var 0xffffffffffffffff
ok export \"\\xc3\\xa9\" memory 0
ok start 0
ok elem -1
ok elem 0 1 2
ok data 0 \"\\x00\\xff\"
ok block
ok loop i32
ok if i64
ok br_table 0
ok br_table 1 2 0
ok i32.const 4294967295
ok i64.const -9223372036854775808
ok i64.const 18446744073709551615
ok i32.load 2 0xFFFFFFFF
ok call_indirect 3
ok memory.size
Word types
Word \"nop\"
Word i32.div
Word f32.add
Word i32.load32_s 0 0
Word type i32 f32 -> i32
Word type i32 -> i32x
Word func x i16
Word global i32 let 0
Word global f64 const 0 0
Word export \"bad\\q\" function
Word block i31
Count type i32
Count type i32 -> i32 i32
Count import \"m\" \"n\"
Count func
Count endfunc 1
Count table
Count memory 1 2 3
Count export \"n\" func
Count start 0 0
Count elem
Count data 0
Count br
Count br_table
Count nop nop
Count call_indirect 0 0
Count i32.load 0
Count import \"m 0
Count data 0 \"\\x4\" x
Quote import \"m\\q\" \"n\" 0
Quote import \"\\xff\" \"n\" x
Quote export name func x
Quote data x \"a\\q\"
Quote data 0 \"\\x4\"
Quote data 0 \"a\"b
Quote start \"0
Number start x
Number start 4294967296
Number start -1
Number start 0x
Number start 0xg
Number start \"0\"
Number table 65537
Number memory 1025
Number i32.const -2147483649
Number i32.const 4294967296
Number i32.const -0x1
Number i64.const 18446744073709551616
Number i64.const 0x10000000000000000
Number br -0
";

/// The instructions, each with its immediates.
const INSTRUCTIONS: &str = "\
unreachable
nop
block
loop
if
else
end
br 0
br_if 0
br_table 0
return
call 0
call_indirect 0
drop
select
local.get 0
local.set 0
local.tee 0
global.get 0
global.set 0
memory.size
memory.grow
i32.load 0 0
i32.load8_s 0 0
i32.load8_u 0 0
i32.load16_s 0 0
i32.load16_u 0 0
i32.store 0 0
i32.store8 0 0
i32.store16 0 0
i32.const 0
i32.eqz
i32.clz
i32.ctz
i32.popcnt
i32.eq
i32.ne
i32.lt_s
i32.lt_u
i32.gt_s
i32.gt_u
i32.le_s
i32.le_u
i32.ge_s
i32.ge_u
i32.add
i32.sub
i32.mul
i32.div_s
i32.div_u
i32.rem_s
i32.rem_u
i32.and
i32.or
i32.xor
i32.shl
i32.shr_s
i32.shr_u
i32.rotl
i32.rotr
i64.load 0 0
i64.load8_s 0 0
i64.load8_u 0 0
i64.load16_s 0 0
i64.load16_u 0 0
i64.load32_s 0 0
i64.load32_u 0 0
i64.store 0 0
i64.store8 0 0
i64.store16 0 0
i64.store32 0 0
i64.const 0
i64.eqz
i64.clz
i64.ctz
i64.popcnt
i64.eq
i64.ne
i64.lt_s
i64.lt_u
i64.gt_s
i64.gt_u
i64.le_s
i64.le_u
i64.ge_s
i64.ge_u
i64.add
i64.sub
i64.mul
i64.div_s
i64.div_u
i64.rem_s
i64.rem_u
i64.and
i64.or
i64.xor
i64.shl
i64.shr_s
i64.shr_u
i64.rotl
i64.rotr
i32.wrap_i64
i64.extend_i32_s
i64.extend_i32_u
";

/// Whether a line is an instruction.
fn is_instruction(alloc: Global, line: &str) -> Result<bool, Fail> {
    let words = split_line(alloc, line.as_bytes())?;
    match read_statement(alloc, words.as_slice())? {
        Reading::Unknown => Ok(false),
        Reading::Known { statement, fault } => match statement {
            Statement::Instr(_instr) => Ok(fault.is_none()),
            _ => Ok(false),
        },
    }
}

/// Whether the line of a row has the row's fault.
fn comes(alloc: Global, row: &str) -> Result<bool, Fail> {
    let Some((fault, line)) = row.split_once(" ") else {
        return Ok(false);
    };
    let words = split_line(alloc, line.as_bytes())?;
    match read_statement(alloc, words.as_slice())? {
        Reading::Unknown => Ok(fault == "Word"),
        Reading::Known {
            statement: _statement,
            fault: kind,
        } => match kind {
            Some(kind) => Ok(format!(in alloc; "{kind}")?.as_str() == fault),
            None => Ok(fault == "ok"),
        },
    }
}

#[test]
fn each_kind_comes_in_its_order(rt: HostRuntime) -> Result<(), Fail> {
    let alloc = rt.alloc();
    for row in LINES.lines() {
        assert!(rt; comes(alloc, row)?, "{row}");
    }
    let fault = TextFault {
        line: 7,
        kind: TextKind::Nest,
    };
    assert_eq!(rt; format!(in alloc; "{fault}")?.as_str(), "Nest 7");
    Ok(())
}

#[test]
fn each_instruction_has_its_line(rt: HostRuntime) -> Result<(), Fail> {
    let alloc = rt.alloc();
    for line in INSTRUCTIONS.lines() {
        assert!(rt; is_instruction(alloc, line)?, "{line}");
    }
    Ok(())
}
