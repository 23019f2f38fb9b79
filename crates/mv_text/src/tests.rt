//! Texts and what they spell.

use super::*;
use mv_calls::Or;
use mv_writer::write_module;
use std::alloc::Global;
use std::test::Fail;

/// Faults with their lines, and the texts that have them, with `~` for a line feed.
const FAULTS: &str = "\
Word 1: nonsense
Word 3: ~ ~nonsense
Word 1: func 0 x~endfunc
Word 2: func 0~block x y~types~endfunc
Place 2: func 0~memory x y z~types~endfunc
Place 1: nop
Place 1: end
Place 1: endfunc
Place 1: br x
Place 2: func 0~memory
Place 2: func 0~func 0
Place 2: memory 1~memory x
Place 2: table 1~table 1
Place 3: start 0~~start 0
Count 1: memory~memory 1
Count 2: ;; none~memory 1 2 3
Quote 1: data 0 \"a;; b
Quote 1: import \"\\xff\" \"n\" 0
Quote 1: data 0 \"\\x4\" ;; a b
Number 1: memory 1025
Number 3: func 0~nop~br_if -1~endfunc
Nest 2: func 0~else~endfunc
Nest 2: func 0~end~endfunc
Nest 3: func 0~block~endfunc
Nest 4: func 0~if~else~else~end~endfunc
Nest 4: func 0~loop~if i32~endfunc~end~end
Unended 2: func 0
Unended 2: func 0~
Unended 4: func 0~nop~ ;; endfunc
Unended 5: func 0~endfunc~func 0~nop~
";

/// The text of a row.
fn text_of(alloc: Global, row: &str) -> Result<Vec<u8>, Fail> {
    let mut text = Vec::new(alloc);
    for byte in row.bytes() {
        text.push(if byte == b'~' { b'\n' } else { byte })?;
    }
    Ok(text)
}

/// Whether a row's text has the row's fault.
fn comes(alloc: Global, row: &str) -> Result<bool, Fail> {
    let Some((fault, lines)) = row.split_once(": ") else {
        return Ok(false);
    };
    let text = text_of(alloc, lines)?;
    match assemble(alloc, text.as_slice()) {
        Err(Or::Fault(found)) => Ok(format!(in alloc; "{found}")?.as_str() == fault),
        _ => Ok(false),
    }
}

#[test]
fn each_kind_comes_at_its_line(rt: HostRuntime) -> Result<(), Fail> {
    let alloc = rt.alloc();
    for row in FAULTS.lines() {
        assert!(rt; comes(alloc, row)?, "{row}");
    }
    Ok(())
}

/// A text with each directive, of which some stand before what they name.
const WHOLE: &str = "\
;; every directive
memory 0x1 2
export \"_start\" func 1
start 1
table 16
func 1 i32 i64 ;; a function
block i32 ;; with blocks
if
br_table 0 1 0
else
i64.const -1
drop
end
i32.const 0xffffffff
end
i64.load8_u 0 16
endfunc
type i32 -> i64
type ->
import \"live\" \"a;;b\" 0
global i64 var -9223372036854775808
elem 0 1 0 1
data -4 \"\\x00;; \\\"\";;
endfunc_is_not_here";

#[test]
fn every_directive_is_read(rt: HostRuntime) -> Result<(), Fail> {
    let alloc = rt.alloc();
    let Some((text, _)) = WHOLE.split_once("endfunc_is_not_here") else {
        return Ok(());
    };
    let module = assemble(alloc, text.as_bytes())?;
    assert_eq!(rt; module.types.slice().len(), 2);
    assert_eq!(rt; module.imports.slice().len(), 1);
    assert_eq!(rt; module.imports.slice()[0].name.slice(), b"a;;b".as_slice());
    assert_eq!(rt; module.funcs.slice().len(), 1);
    assert_eq!(rt; module.funcs.slice()[0].locals.len(), 2);
    assert_eq!(rt; module.funcs.slice()[0].code.slice().len(), 11);
    assert_eq!(rt; module.globals.slice().len(), 1);
    assert_eq!(rt; module.exports.slice().len(), 1);
    assert_eq!(rt; module.start, Some(1));
    assert_eq!(rt; module.elements.slice().len(), 1);
    assert_eq!(rt;
        module.elements.slice()[0].funcs.slice(),
        [1, 0, 1].as_slice()
    );
    assert_eq!(rt; module.segments.slice().len(), 1);
    assert_eq!(rt;
        module.segments.slice()[0].bytes.slice(),
        b"\0;; \"".as_slice()
    );
    Ok(())
}

#[test]
fn one_page_is_thirteen_bytes(rt: HostRuntime) -> Result<(), Fail> {
    let alloc = rt.alloc();
    let module = assemble(alloc, b"memory 1\n")?;
    assert_eq!(rt;
        write_module(alloc, &module)?.as_slice(),
        b"\0asm\x01\0\0\0\x05\x03\x01\0\x01".as_slice()
    );
    Ok(())
}
