//! The program over objects in memory, and its own objects.

use crate::disk_files::DiskFiles;
use crate::fixtures::{console, files, kernel, list, module_of, texts};
use crate::writer_sink::WriterSink;
use mv_calls::{Bytes, Call, Item, Reply};
use mv_commands::{carry_out, program};
use mv_history::{Entry, Mark};
use mv_outside::{FileAt, Files, Found, FreeGate, MemFiles, Sink, VecSink, paths_differ};
use mv_reader::read_module;
use mv_text::assemble;
use mv_validator::validate;
use mv_writer::write_module;
use std::alloc::{AllocError, Global};
use std::io;
use std::process::Abort;
use std::sync::Wait;
use std::test::Fail;
use std::thread::Threads;

/// The module of 159 bytes that writes `hi` to descriptor 1 and exits.
const HELLO: &[u8; 159] = b"\0asm\x01\0\0\0\
\x01\x10\x03\x60\x04\x7f\x7f\x7f\x7f\x01\x7f\x60\x01\x7f\x00\x60\x00\x00\
\x02\x46\x02\x16wasi_snapshot_preview1\x08fd_write\x00\x00\x16wasi_snapshot_preview1\x09proc_exit\x00\x01\
\x03\x02\x01\x02\x05\x03\x01\x00\x01\x07\x0a\x01\x06_start\x00\x02\
\x0a\x13\x01\x11\x00\x41\x01\x41\x00\x41\x01\x41\x0c\x10\x00\x1a\x41\x00\x10\x01\x0b\
\x0b\x11\x01\x00\x41\x00\x0b\x0b\x08\x00\x00\x00\x03\x00\x00\x00hi\x0a";

/// Where the constants of HELLO stand that the tests change.
const IOVS: usize = 127;

const CODE: usize = 136;

/// A version: its `_start` stands at a point, writes `hi`, stands at a point, and ends; its `live_transform` answers 0; its
/// `live_resume` writes `hi`, stands at a point, and ends.
const VERSION: &[u8; 233] = b"\0asm\x01\0\0\0\
\x01\x14\x04\x60\x04\x7f\x7f\x7f\x7f\x01\x7f\x60\x01\x7f\x00\x60\x00\x00\x60\x00\x01\x7f\
\x02\x53\x03\x16wasi_snapshot_preview1\x08fd_write\x00\x00\x16wasi_snapshot_preview1\x09proc_exit\x00\x01\
\x04live\x05point\x00\x03\
\x03\x04\x03\x02\x03\x02\x05\x03\x01\x00\x01\
\x07\x29\x03\x06_start\x00\x03\x0elive_transform\x00\x04\x0blive_resume\x00\x05\
\x0a\x2b\x03\
\x13\x00\x10\x02\x1a\x41\x01\x41\x00\x41\x01\x41\x0c\x10\x00\x1a\x10\x02\x1a\x0b\
\x04\x00\x41\x00\x0b\
\x10\x00\x41\x01\x41\x00\x41\x01\x41\x0c\x10\x00\x1a\x10\x02\x1a\x0b\
\x0b\x11\x01\x00\x41\x00\x0b\x0b\x08\x00\x00\x00\x03\x00\x00\x00hi\x0a";

/// What was asked of the program, beside its files.
#[derive(Clone, Copy)]
struct Asked<'a> {
    words: &'a [&'a str],
    /// What the operator says at the looks of these numbers, from 0.
    orders: &'a [(usize, &'a str)],
    /// What comes over the one connection, before its end; where there is no piece, none waits.
    pieces: &'a [&'a [u8]],
    /// The numbers of the calls that are to fail.
    perform: Option<u64>,
    read: Option<u64>,
    print: Option<u64>,
}

/// These words, where nothing fails and nobody orders.
fn words<'a>(words: &'a [&'a str]) -> Asked<'a> {
    Asked {
        words,
        orders: &[],
        pieces: &[],
        perform: None,
        read: None,
        print: None,
    }
}

/// These words, where nothing fails and the operator orders so.
fn ordered<'a>(words: &'a [&'a str], orders: &'a [(usize, &'a str)]) -> Asked<'a> {
    Asked {
        words,
        orders,
        pieces: &[],
        perform: None,
        read: None,
        print: None,
    }
}

/// What a run showed.
#[derive(Drop)]
struct Shown {
    status: u8,
    line: Vec<u8>,
    /// A letter for each entry, as `letter` gives it.
    log: Vec<u8>,
    /// How many calls the kernel did, and whether the first is the write of `hi`, taken whole.
    done: usize,
    says_hi: bool,
}

/// The letter of an entry.
fn letter(entry: &Entry) -> u8 {
    match entry {
        Entry::Call { .. } => b'C',
        Entry::Point => b'P',
        Entry::Order { .. } => b'O',
        Entry::Mark(Mark::Fork { .. }) => b'F',
        Entry::Mark(Mark::Discard { .. }) => b'D',
        Entry::Mark(Mark::Hand { .. }) => b'H',
        Entry::Mark(Mark::Promote) => b'N',
        Entry::Mark(Mark::Back) => b'B',
        Entry::Mark(Mark::Finish) => b'A',
        Entry::Mark(Mark::End { .. }) => b'E',
        Entry::Mark(_) => b'x',
    }
}

/// The letters of all entries.
fn letters(alloc: Global, entries: &[Entry]) -> Result<Vec<u8>, AllocError> {
    let mut all = Vec::new(alloc);
    for entry in entries {
        all.push(letter(entry))?;
    }
    Ok(all)
}

/// Whether the first of the calls is the write of `hi`, taken whole.
fn says_hi(done: &[Item]) -> bool {
    match done.first() {
        Some(item) => is_hi(item),
        None => false,
    }
}

fn is_hi(item: &Item) -> bool {
    match (&item.call, &item.reply) {
        (Call::Write { fd: 1, bytes }, Reply::Count(3)) => bytes.slice() == b"hi\n".as_slice(),
        _ => false,
    }
}

/// Carries out the words over these files.
fn row_of(
    rt: &impl Abort,
    alloc: Global,
    asked: Asked<'_>,
    named: &[(&str, &[u8])],
) -> Result<Shown, Fail> {
    let said = texts(alloc, asked.words)?;
    let kernel = kernel(alloc, asked.pieces, asked.perform)?;
    let console = console(alloc, asked.orders, None, None)?;
    let files = files(rt, alloc, named, asked.read)?;
    let mut sink = VecSink::new(alloc, list(alloc, asked.print)?);
    let came = carry_out(alloc, said.as_slice(), kernel, console, files, &mut sink);
    Ok(Shown {
        status: came.status.code(),
        line: Vec::from_slice(alloc, sink.bytes())?,
        log: letters(alloc, came.log.entries.slice())?,
        done: came.kernel.done().len(),
        says_hi: says_hi(came.kernel.done()),
    })
}

/// HELLO with one byte changed.
fn changed(alloc: Global, place: usize, byte: u8) -> Result<Vec<u8>, AllocError> {
    let mut bytes = Vec::from_slice(alloc, HELLO)?;
    if place < bytes.len() {
        bytes[place] = byte;
    }
    Ok(bytes)
}

#[test]
fn hello_is_run_to_its_end(rt: HostRuntime) -> Result<(), Fail> {
    let alloc = rt.alloc();
    let hello = words(&["run", "hello", "an", "argument"]);
    let row = row_of(&rt, alloc, hello, &[("hello", HELLO)])?;
    assert!(rt; row.status == 0 && row.line.as_slice() == b"ended 0\n".as_slice());
    assert!(rt; row.done == 1 && row.says_hi && row.log.as_slice() == b"CE".as_slice());
    Ok(())
}

#[test]
fn changed_guests_run(rt: HostRuntime) -> Result<(), Fail> {
    let alloc = rt.alloc();
    let code = changed(alloc, CODE, 7)?;
    // The iovecs stand at -3: errno 21, and no call.
    let iovecs = changed(alloc, IOVS, 0x7d)?;
    // The size of the memory section, which is 3, in five bytes.
    let hello = HELLO.as_slice();
    let mut padded = Vec::from_slice(alloc, &hello[..103])?;
    padded.extend_from_slice(b"\x83\x80\x80\x80\x00")?;
    padded.extend_from_slice(&hello[104..])?;
    let rows = [
        (code.as_slice(), 1, b"ended 7\n".as_slice(), 1),
        (iovecs.as_slice(), 0, b"ended 0\n".as_slice(), 0),
        (padded.as_slice(), 0, b"ended 0\n".as_slice(), 1),
    ];
    for (module, status, line, done) in rows {
        let row = row_of(&rt, alloc, words(&["run", "hello"]), &[("hello", module)])?;
        assert!(rt; row.status == status && row.line.as_slice() == line && row.done == done);
    }
    Ok(())
}

#[test]
fn rules_are_counted_or_refused(rt: HostRuntime) -> Result<(), Fail> {
    let drops = b"mvrules 1\nrule\nread $f -> @x\nto\nend\n".as_slice();
    let keeps =
        b"mvrules 1\nrule\nwrite $f \"OK\" -> all\nto\nwrite $f \"+OK\" -> all\nend".as_slice();
    let rows = [
        (keeps, 0, b"rules 1\n".as_slice()),
        (drops, 4, b"mv: fwd: Reads 2\n".as_slice()),
        // Without the last line.
        (
            &drops[..drops.len() - 4],
            4,
            b"mv: fwd: Shape 5\n".as_slice(),
        ),
    ];
    for (text, status, line) in rows {
        let row = row_of(&rt, rt.alloc(), words(&["rules", "fwd"]), &[("fwd", text)])?;
        assert!(rt; row.status == status && row.line.as_slice() == line);
    }
    Ok(())
}

#[test]
fn modules_are_valid_or_have_their_first_fault(rt: HostRuntime) -> Result<(), Fail> {
    let empty = b"\0asm\x01\0\0\0".as_slice();
    // i32.const 1, i64.const 1, i32.add, drop
    let operand = b"\0asm\x01\0\0\0\x01\x04\x01\x60\0\0\x03\x02\x01\0\
\x0a\x0a\x01\x08\0\x41\x01\x42\x01\x6a\x1a\x0b"
        .as_slice();
    // br 0, i32.add, drop
    let dead = b"\0asm\x01\0\0\0\x01\x04\x01\x60\0\0\x03\x02\x01\0\
\x0a\x08\x01\x06\0\x0c\0\x6a\x1a\x0b"
        .as_slice();
    let long_number = b"\0asm\x01\0\0\0\x05\x83\x80\x80\x80\x80\0\x01\0\x01".as_slice();
    let float = b"\0asm\x01\0\0\0\x01\x04\x01\x60\0\0\x03\x02\x01\0\
\x0a\x0b\x01\x09\0\0\x43\0\0\0\0\x1a\x0b"
        .as_slice();
    let rows = [
        (empty, 0, b"valid\n".as_slice()),
        (HELLO.as_slice(), 0, b"valid\n".as_slice()),
        (dead, 0, b"valid\n".as_slice()),
        (&empty[..7], 4, b"mv: module: Cut 7\n".as_slice()),
        (long_number, 4, b"mv: module: Leb 9\n".as_slice()),
        (float, 4, b"mv: module: Float 24\n".as_slice()),
        (operand, 4, b"mv: module: Operand 10 0 2\n".as_slice()),
    ];
    for (module, status, line) in rows {
        let row = row_of(
            &rt,
            rt.alloc(),
            words(&["check", "module"]),
            &[("module", module)],
        )?;
        assert!(rt; row.status == status && row.line.as_slice() == line);
    }
    Ok(())
}

/// A body with each opcode, `else` within an `if`, up to those without immediates.
const OPCODES: &[u8] = b"\x00\x01\x02\x40\x0b\x03\x7f\x0b\x04\x7e\x05\x0b\
\x0c\x00\x0d\x00\x0e\x01\x00\x00\x0f\x10\x00\x11\x00\x00\x1a\x1b\
\x20\x00\x21\x00\x22\x00\x23\x00\x24\x00\
\x28\x02\x00\x29\x03\x00\x2c\x00\x00\x2d\x00\x00\x2e\x01\x00\x2f\x01\x00\
\x30\x00\x00\x31\x00\x00\x32\x01\x00\x33\x01\x00\x34\x02\x00\x35\x02\x00\
\x36\x02\x00\x37\x03\x00\x3a\x00\x00\x3b\x01\x00\x3c\x00\x00\x3d\x01\x00\x3e\x02\x00\
\x3f\x00\x40\x00\x41\x7f\x42\x80\x01";

/// A module of one function with each opcode once, each number in its shortest spelling.
fn every_opcode(alloc: Global) -> Result<Vec<u8>, Fail> {
    let mut body = Vec::from_slice(alloc, b"\x00")?;
    body.extend_from_slice(OPCODES)?;
    for (first, last) in [(0x45, 0x5a), (0x67, 0x8a), (0xa7, 0xa7), (0xac, 0xad)] {
        for opcode in first..=last {
            body.push(opcode)?;
        }
    }
    body.push(0x0b)?;
    let mut module = Vec::from_slice(
        alloc,
        b"\0asm\x01\0\0\0\x01\x04\x01\x60\x00\x00\x03\x02\x01\x00\x0a".as_slice(),
    )?;
    // The count of bodies stands before the body's size, which has two bytes.
    module.extend_from_slice(&two_groups(body.len() + 3))?;
    module.push(1)?;
    module.extend_from_slice(&two_groups(body.len()))?;
    module.extend_from_slice(body.as_slice())?;
    Ok(module)
}

/// A number from 128 to 16,383 in its two groups of seven bits.
fn two_groups(number: usize) -> [u8; 2] {
    [(number % 128) as u8 | 0x80, (number / 128 % 128) as u8]
}

#[test]
fn every_opcode_is_read_and_written(rt: HostRuntime) -> Result<(), Fail> {
    let bytes = every_opcode(rt.alloc())?;
    let module = read_module(rt.alloc(), bytes.as_slice())?;
    let written = write_module(rt.alloc(), &module)?;
    assert!(rt; written.as_slice() == bytes.as_slice());
    Ok(())
}

/// The text of the same module, with the names of the standard's index.
const NAMES: &str = "\
type ->
func 0
unreachable
nop
block
end
loop i32
end
if i64
else
end
br 0
br_if 0
br_table 0 0
return
call 0
call_indirect 0
drop
select
local.get 0
local.set 0
local.tee 0
global.get 0
global.set 0
i32.load 2 0
i64.load 3 0
i32.load8_s 0 0
i32.load8_u 0 0
i32.load16_s 1 0
i32.load16_u 1 0
i64.load8_s 0 0
i64.load8_u 0 0
i64.load16_s 1 0
i64.load16_u 1 0
i64.load32_s 2 0
i64.load32_u 2 0
i32.store 2 0
i64.store 3 0
i32.store8 0 0
i32.store16 1 0
i64.store8 0 0
i64.store16 1 0
i64.store32 2 0
memory.size
memory.grow
i32.const -1
i64.const 128
i32.eqz
i32.eq
i32.ne
i32.lt_s
i32.lt_u
i32.gt_s
i32.gt_u
i32.le_s
i32.le_u
i32.ge_s
i32.ge_u
i64.eqz
i64.eq
i64.ne
i64.lt_s
i64.lt_u
i64.gt_s
i64.gt_u
i64.le_s
i64.le_u
i64.ge_s
i64.ge_u
i32.clz
i32.ctz
i32.popcnt
i32.add
i32.sub
i32.mul
i32.div_s
i32.div_u
i32.rem_s
i32.rem_u
i32.and
i32.or
i32.xor
i32.shl
i32.shr_s
i32.shr_u
i32.rotl
i32.rotr
i64.clz
i64.ctz
i64.popcnt
i64.add
i64.sub
i64.mul
i64.div_s
i64.div_u
i64.rem_s
i64.rem_u
i64.and
i64.or
i64.xor
i64.shl
i64.shr_s
i64.shr_u
i64.rotl
i64.rotr
i32.wrap_i64
i64.extend_i32_s
i64.extend_i32_u
endfunc
";

#[test]
fn each_name_has_its_opcode(rt: HostRuntime) -> Result<(), Fail> {
    let module = assemble(rt.alloc(), NAMES.as_bytes())?;
    let written = write_module(rt.alloc(), &module)?;
    assert!(rt; written.as_slice() == every_opcode(rt.alloc())?.as_slice());
    Ok(())
}

/// A text of 200 functions, each exported, and of a segment of 70,000 bytes.
fn long_text(alloc: Global) -> Result<String, Fail> {
    let mut text = String::from_str(alloc, "type ->\nmemory 2\n")?;
    for number in 0..200 {
        let line = format!(in alloc; "export \"f{number}\" func {number}\n")?;
        text.push_str(line.as_str())?;
    }
    text.push_str("data 0 \"")?;
    for _ in 0..70_000 {
        text.push_str("a")?;
    }
    text.push_str("\"\n")?;
    for _ in 0..200 {
        text.push_str("func 0\nendfunc\n")?;
    }
    Ok(text)
}

#[test]
fn a_long_module_is_read_validated_and_written_back(rt: HostRuntime) -> Result<(), Fail> {
    let text = long_text(rt.alloc())?;
    let file = module_of(rt.alloc(), text.as_bytes())?;
    // The header, and the sections of types, functions, memories, exports, bodies and data with their sizes.
    assert_eq!(rt; file.len(), 8 + 6 + 205 + 5 + 1_367 + 605 + 70_012);
    let read = read_module(rt.alloc(), file.as_slice())?;
    let valid = validate(rt.alloc(), read)?;
    let again = write_module(rt.alloc(), valid.module())?;
    assert!(rt; again.as_slice() == file.as_slice());
    Ok(())
}

#[test]
fn hello_is_written_as_it_is_read(rt: HostRuntime) -> Result<(), Fail> {
    let module = read_module(rt.alloc(), HELLO)?;
    let written = write_module(rt.alloc(), &module)?;
    assert!(rt; written.as_slice() == HELLO.as_slice());
    Ok(())
}

#[test]
fn words_and_files_are_refused(rt: HostRuntime) -> Result<(), Fail> {
    let bad = b"mv: bad words\n".as_slice();
    let rows: [(&[&str], u8, &[u8]); 13] = [
        (&["run", "nofile"], 3, b"mv: file nofile\n"),
        (&["check", "nofile"], 3, b"mv: file nofile\n"),
        (&["rehearse", "hello", "nofile"], 3, b"mv: file nofile\n"),
        (&["run", "empty"], 4, b"mv: empty: NoEntry\n"),
        (&["run", "cut"], 4, b"mv: cut: Cut 7\n"),
        (&["rehearse", "hello", "cut"], 4, b"mv: cut: Letter 0\n"),
        (&["run"], 2, bad),
        (&["rehearse", "hello"], 2, bad),
        (&["run", "hello", "-x"], 2, bad),
        (&["check", "hello", "more"], 2, bad),
        (&["rehearse", "hello", "plan", "--ring", "3"], 2, bad),
        // Without threads there is no such command.
        (&["serve", "hello"], 2, bad),
        (&["jump"], 2, bad),
    ];
    let empty = b"\0asm\x01\0\0\0".as_slice();
    for (said, status, line) in rows {
        let named = [
            ("hello", HELLO.as_slice()),
            ("empty", empty),
            ("cut", &empty[..7]),
            ("plan", b"L".as_slice()),
        ];
        let row = row_of(&rt, rt.alloc(), words(said), &named)?;
        assert!(rt; row.status == status && row.line.as_slice() == line && row.log.is_empty());
    }
    Ok(())
}

#[test]
fn failures_outside_show(rt: HostRuntime) -> Result<(), Fail> {
    let alloc = rt.alloc();
    let named = [("hello", HELLO.as_slice())];
    let mut asked = words(&["run", "hello"]);
    asked.perform = Some(0);
    let row = row_of(&rt, alloc, asked, &named)?;
    assert!(rt; row.status == 6 && row.line.as_slice() == b"kernel fault\n".as_slice());
    assert!(rt; row.done == 0 && row.log.as_slice() == b"E".as_slice());
    let mut asked = words(&["run", "hello"]);
    asked.print = Some(0);
    let row = row_of(&rt, alloc, asked, &named)?;
    assert!(rt; row.status == 7 && row.done == 1);
    let mut asked = words(&["run", "hello"]);
    asked.read = Some(0);
    let row = row_of(&rt, alloc, asked, &named)?;
    assert!(rt; row.status == 3 && row.line.as_slice() == b"mv: file hello\n".as_slice());
    Ok(())
}

/// A guest that accepts a connection and reads from it twice, into a piece of 64 bytes: first with the place for the count three
/// bytes before the memory's end, then with one in bounds. Its code is the errno of the first read and the count of the second.
const READER: &[u8; 225] = b"\0asm\x01\0\0\0\
\x01\x17\x04\x60\x04\x7f\x7f\x7f\x7f\x01\x7f\x60\x01\x7f\x00\x60\x00\x00\x60\x03\x7f\x7f\x7f\x01\x7f\
\x02\x6a\x03\x16wasi_snapshot_preview1\x07fd_read\x00\x00\x16wasi_snapshot_preview1\x09proc_exit\x00\x01\
\x16wasi_snapshot_preview1\x0bsock_accept\x00\x03\
\x03\x02\x01\x02\x05\x03\x01\x00\x01\x07\x0a\x01\x06_start\x00\x03\
\x0a\x2d\x01\x2b\x00\x41\x03\x41\x00\x41\xe4\x00\x10\x02\x1a\
\x41\x04\x41\x00\x41\x01\x41\xfd\xff\x03\x10\x00\
\x41\x04\x41\x00\x41\x01\x41\x14\x10\x00\x1a\
\x41\x14\x28\x02\x00\x6a\x10\x01\x0b\
\x0b\x0e\x01\x00\x41\x00\x0b\x08\x40\x00\x00\x00\x40\x00\x00\x00";

#[test]
fn a_read_without_a_place_for_its_count_takes_nothing(rt: HostRuntime) -> Result<(), Fail> {
    let asked = Asked {
        words: &["run", "reader"],
        orders: &[],
        pieces: &[b"0123456789".as_slice()],
        perform: None,
        read: None,
        print: None,
    };
    let row = row_of(&rt, rt.alloc(), asked, &[("reader", READER)])?;
    // Errno 21, and ten bytes; the calls are the accept and one read.
    assert!(rt; row.line.as_slice() == b"ended 31\n".as_slice());
    assert!(rt; row.done == 2 && row.log.as_slice() == b"CCE".as_slice());
    Ok(())
}

#[test]
fn each_fault_of_a_start_is_told(rt: HostRuntime) -> Result<(), Fail> {
    let unknown = b"\0asm\x01\0\0\0\x01\x04\x01\x60\0\0\x02\x07\x01\x01x\x01y\0\0".as_slice();
    // `fd_close` without a parameter.
    let mistyped = b"\0asm\x01\0\0\0\x01\x04\x01\x60\0\0\
\x02\x23\x01\x16wasi_snapshot_preview1\x08fd_close\0\0"
        .as_slice();
    // A function at 1 of a table of one entry.
    let element = b"\0asm\x01\0\0\0\x01\x04\x01\x60\0\0\x03\x02\x01\0\x04\x04\x01\x70\0\x01\
\x07\x0a\x01\x06_start\0\0\x09\x07\x01\0\x41\x01\x0b\x01\0\x0a\x04\x01\x02\0\x0b"
        .as_slice();
    // A byte behind the end of one page.
    let data = b"\0asm\x01\0\0\0\x01\x04\x01\x60\0\0\x03\x02\x01\0\x05\x03\x01\0\x01\
\x07\x0a\x01\x06_start\0\0\x0a\x04\x01\x02\0\x0b\x0b\x09\x01\0\x41\x80\x80\x04\x0b\x01a"
        .as_slice();
    // A start function of `unreachable`.
    let trap = b"\0asm\x01\0\0\0\x01\x04\x01\x60\0\0\x03\x02\x01\0\
\x07\x0a\x01\x06_start\0\0\x08\x01\0\x0a\x05\x01\x03\0\0\x0b"
        .as_slice();
    let rows = [
        (unknown, b"mv: guest: UnknownImport 0\n".as_slice()),
        (mistyped, b"mv: guest: ImportType 0\n".as_slice()),
        (element, b"mv: guest: ElementBounds 0\n".as_slice()),
        (data, b"mv: guest: DataBounds 0\n".as_slice()),
        (trap, b"mv: guest: Unreachable\n".as_slice()),
    ];
    for (module, line) in rows {
        let row = row_of(
            &rt,
            rt.alloc(),
            words(&["run", "guest"]),
            &[("guest", module)],
        )?;
        assert!(rt; row.status == 4 && row.line.as_slice() == line && row.log.is_empty());
    }
    Ok(())
}

/// The schedule whose beats are leader, carry, three steps, judgement, twelve times.
const BLOCKS: &[u8] =
    b"LCFFFJ LCFFFJ LCFFFJ LCFFFJ LCFFFJ LCFFFJ\nLCFFFJ LCFFFJ LCFFFJ LCFFFJ LCFFFJ LCFFFJ\n";

#[test]
fn updates_are_rehearsed(rt: HostRuntime) -> Result<(), Fail> {
    let alloc = rt.alloc();
    let mut other = Vec::from_slice(alloc, VERSION)?;
    let last = other.len() - 2;
    other[last] = b'o';
    let rows: [(&[(usize, &str)], &str, &[u8], &[u8]); 8] = [
        // Nobody orders.
        (&[], "blocks", b"PCPE", b"ended 0\n"),
        // The new version makes equal calls.
        (
            &[(0, "update new none none")],
            "blocks",
            b"OFPCPE",
            b"ended 0\n",
        ),
        // It writes `ho` where the leader wrote `hi`.
        (
            &[(0, "update other none none")],
            "blocks",
            b"OFPCDPE",
            b"ended 0\n",
        ),
        // The operator gives it up.
        (
            &[(0, "update new none none"), (2, "discard")],
            "blocks",
            b"OFODPCPE",
            b"ended 0\n",
        ),
        // The new version leads: behind its point the write is its own.
        (
            &[(0, "update new none none"), (2, "promote")],
            "blocks",
            b"OFOHNCPE",
            b"ended 0\n",
        ),
        // It leads alone.
        (
            &[(0, "update new none none"), (2, "promote"), (4, "finish")],
            "blocks",
            b"OFOHNOACPE",
            b"ended 0\n",
        ),
        // The old version leads again: it took the new one's write for its own.
        (
            &[(0, "update new none none"), (2, "promote"), (4, "back")],
            "blocks",
            b"OFOHNOCHBPE",
            b"ended 0\n",
        ),
        // The schedule ends before the log does.
        (&[(0, "update new none none")], "once", b"OE", b"cut\n"),
    ];
    for (orders, schedule, log, line) in rows {
        let named = [
            ("old", VERSION.as_slice()),
            ("new", VERSION.as_slice()),
            ("other", other.as_slice()),
            ("blocks", BLOCKS),
            ("once", b"L".as_slice()),
        ];
        let said = ["rehearse", "old", schedule];
        let row = row_of(&rt, alloc, ordered(&said, orders), &named)?;
        assert!(rt; row.status == 0 && row.log.as_slice() == log && row.line.as_slice() == line);
        // In each run that ends, `hi` is written once.
        assert!(rt; row.says_hi == (schedule == "blocks") && row.done <= 1);
    }
    Ok(())
}

/// What is there after a rehearsal of `old`, whose update the operator orders: the status, what was printed, and the files.
#[derive(Drop)]
struct Left {
    status: u8,
    printed: Vec<u8>,
    files: MemFiles,
}

/// Carries out the words over these files, with this order at the first look.
fn carried(alloc: Global, said: &[&str], order: &str, files: MemFiles) -> Result<Left, Fail> {
    let said = texts(alloc, said)?;
    let kernel = kernel(alloc, &[], None)?;
    let console = console(alloc, &[(0, order)], None, None)?;
    let mut sink = VecSink::new(alloc, Vec::new(alloc));
    let came = carry_out(alloc, said.as_slice(), kernel, console, files, &mut sink);
    Ok(Left {
        status: came.status.code(),
        printed: Vec::from_slice(alloc, sink.bytes())?,
        files: came.files,
    })
}

/// The log of an update that was discarded, as it is shown.
const DISCARDED: &[u8] = b"\
{\"kind\":\"order\",\"number\":0,\"reply\":{\"ok\":\"update\",\"update\":1},\"text\":\"update other none none\"}\n\
{\"kind\":\"mark\",\"mark\":\"fork\",\"number\":1,\"update\":1}\n\
{\"kind\":\"point\",\"number\":2}\n\
{\"call\":{\"bytes\":\"hi\\n\",\"call\":\"write\",\"fd\":1},\"kind\":\"call\",\"number\":3,\"reply\":{\"count\":3,\"reply\":\"count\"}}\n\
{\"cause\":{\"cause\":\"mismatch\",\"got\":{\"call\":{\"bytes\":\"ho\\n\",\"call\":\"write\",\"fd\":1},\"event\":\"calls\"},\"item\":0,\"want\":{\"bytes\":\"hi\\n\",\"call\":\"write\",\"fd\":1}},\"kind\":\"mark\",\"mark\":\"discard\",\"number\":4}\n\
{\"kind\":\"point\",\"number\":5}\n\
{\"code\":0,\"how\":\"ended\",\"kind\":\"mark\",\"mark\":\"end\",\"number\":6}\n";

#[test]
fn a_log_is_kept_audited_and_shown(rt: HostRuntime) -> Result<(), Fail> {
    let alloc = rt.alloc();
    let mut other = Vec::from_slice(alloc, VERSION)?;
    let last = other.len() - 2;
    other[last] = b'o';
    let named = [
        ("old", VERSION.as_slice()),
        ("new", VERSION.as_slice()),
        ("other", other.as_slice()),
        ("blocks", BLOCKS),
    ];
    let order = "update other none none";
    let said = ["rehearse", "old", "blocks", "--log", "kept"];
    let mut left = carried(alloc, &said, order, files(&rt, alloc, &named, None)?)?;
    assert!(rt; left.status == 0 && left.printed.as_slice() == b"ended 0\n".as_slice());
    let rows: [(&[&str], u8, &[u8]); 6] = [
        (
            &["audit", "kept", "old", "other", "none", "none"],
            0,
            b"yes\n",
        ),
        // An update that makes equal calls shows no mismatch.
        (
            &["audit", "kept", "old", "new", "none", "none"],
            8,
            b"no 4\n",
        ),
        (&["audit", "old", "old"], 4, b"mv: old: Magic 0\n"),
        (&["audit", "nothing", "old"], 3, b"mv: file nothing\n"),
        (&["show", "kept"], 0, DISCARDED),
        (&["show", "old"], 4, b"mv: old: Magic 0\n"),
    ];
    for (said, status, printed) in rows {
        let row = carried(alloc, said, order, left.files)?;
        assert!(rt; row.status == status && row.printed.as_slice() == printed);
        left = row;
    }
    // A log that can't be written is told in place of the run's end.
    let mut all = Vec::new(alloc);
    all.push(FileAt {
        path: Bytes::from_slice(alloc, b"old")?,
        bytes: Bytes::from_slice(alloc, VERSION)?,
    })?;
    all.push(FileAt {
        path: Bytes::from_slice(alloc, b"blocks")?,
        bytes: Bytes::from_slice(alloc, BLOCKS)?,
    })?;
    assert!(rt; paths_differ(all.as_slice()));
    let failing = MemFiles::new(all, Vec::new(alloc), list(alloc, Some(0))?);
    let row = carried(alloc, &said, order, failing)?;
    assert!(rt; row.status == 3 && row.printed.as_slice() == b"mv: file kept\n".as_slice());
    Ok(())
}

#[test]
fn a_text_is_assembled(rt: HostRuntime) -> Result<(), Fail> {
    let alloc = rt.alloc();
    let named = [
        ("text", b"memory 1\n".as_slice()),
        ("nest", b"type ->\nfunc 0\nend\nendfunc\n".as_slice()),
        ("unvalid", b"export \"m\" memory 0\n".as_slice()),
    ];
    let order = "status";
    let said = ["assemble", "text", "out"];
    let mut left = carried(alloc, &said, order, files(&rt, alloc, &named, None)?)?;
    assert!(rt; left.status == 0 && left.printed.as_slice() == b"bytes 13\n".as_slice());
    assert!(rt;
        left.files.content(b"out") == Some(b"\0asm\x01\0\0\0\x05\x03\x01\x00\x01".as_slice())
    );
    let rows: [(&[&str], u8, &[u8]); 4] = [
        (&["check", "out"], 0, b"valid\n"),
        (&["assemble", "nest", "out"], 4, b"mv: nest: Nest 3\n"),
        (
            &["assemble", "unvalid", "other"],
            4,
            b"mv: unvalid: NoMemory 7 0 0\n",
        ),
        (&["check", "other"], 3, b"mv: file other\n"),
    ];
    for (said, status, printed) in rows {
        let row = carried(alloc, said, order, left.files)?;
        assert!(rt; row.status == status && row.printed.as_slice() == printed);
        left = row;
    }
    Ok(())
}

/// What the program showed on these words, with two threads where it takes them.
fn of_program<R: Threads + Wait + Sync>(
    rt: &R,
    alloc: Global,
    asked: Asked<'_>,
    files: MemFiles,
) -> Result<Shown, Fail> {
    let said = texts(alloc, asked.words)?;
    let kernel = kernel(alloc, asked.pieces, asked.perform)?;
    let console = console(alloc, asked.orders, None, None)?;
    let gate = FreeGate::new();
    let mut sink = VecSink::new(alloc, Vec::new(alloc));
    let came = program(
        rt,
        alloc,
        said.as_slice(),
        kernel,
        console,
        files,
        &gate,
        &mut sink,
    );
    Ok(Shown {
        status: came.status.code(),
        line: Vec::from_slice(alloc, sink.bytes())?,
        log: letters(alloc, came.log.entries.slice())?,
        done: came.kernel.done().len(),
        says_hi: says_hi(came.kernel.done()),
    })
}

#[test]
fn the_program_runs_and_serves(rt: HostRuntime) -> Result<(), Fail> {
    let alloc = rt.alloc();
    let named = [("hello", HELLO.as_slice())];
    let row = of_program(
        &rt,
        alloc,
        words(&["run", "hello"]),
        files(&rt, alloc, &named, None)?,
    )?;
    assert!(rt; row.status == 0 && row.log.as_slice() == b"CE".as_slice());
    // The update's follower runs beside the leader, in another thread.
    let named = [("old", VERSION.as_slice()), ("new", VERSION.as_slice())];
    let asked = ordered(
        &["serve", "old", "--ring", "16"],
        &[(0, "update new none none")],
    );
    let row = of_program(&rt, alloc, asked, files(&rt, alloc, &named, None)?)?;
    assert!(rt; row.status == 0 && row.log.as_slice() == b"OFPCPE".as_slice() && row.says_hi);
    Ok(())
}

/// A writer that fails.
#[derive(Drop)]
struct Broken;

impl io::Write for Broken {
    fn write(&mut self, _bytes: &[u8]) -> io::Result<usize> {
        Err(io::Error::from(io::ErrorKind::BrokenPipe))
    }

    fn flush(&mut self) -> io::Result<()> {
        Ok(())
    }
}

#[test]
fn a_broken_writer_fails_the_sink(rt: HostRuntime) -> Result<(), Fail> {
    let mut sink = WriterSink::new(Broken);
    assert!(rt; sink.write_all_of(rt.alloc(), b"ended 0\n").is_err());
    let mut files = DiskFiles::new(&rt);
    assert!(rt; matches!(files.read(rt.alloc(), b"no/such/file", 16), Found::Missing));
    Ok(())
}
