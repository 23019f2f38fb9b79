//! Polls and the sizes of the arguments, as a guest finds them over the scripted kernel.

use crate::fixtures::{console, files, kernel, module_of, texts};
use mv_calls::{Call, Happened, Item, Reply, Sub};
use mv_commands::carry_out;
use mv_kernmem::MemKernel;
use mv_outside::VecSink;
use std::alloc::Global;
use std::process::Abort;
use std::test::Fail;

/// What stands before each guest's body: at 0 two subscriptions, and at 96 an iovec of the 64 bytes at 200.
const HEAD: &str = r#"type i32 i32 -> i32
type i32 i32 i32 i32 -> i32
type i32 ->
type ->
import "wasi_snapshot_preview1" "args_sizes_get" 0
import "wasi_snapshot_preview1" "poll_oneoff" 1
import "wasi_snapshot_preview1" "fd_write" 1
import "wasi_snapshot_preview1" "proc_exit" 2
memory 1
export "_start" func 4
data 0 "\x07"                                   ;; with userdata 7 a clock,
data 16 "\x01"                                  ;; of id 1 and timeout 0
data 48 "\x08\x00\x00\x00\x00\x00\x00\x00\x01" ;; with userdata 8 a read,
data 64 "\x09"                                  ;; of descriptor 9
data 96 "\xc8\x00\x00\x00\x40"
func 3 i32
"#;

/// A poll of two; the 64 bytes of both events are written, and it ends with 256 times the errno and the number of events.
const POLLS_TWO: &str = "\
i32.const 0\ni32.const 200\ni32.const 2\ni32.const 112\ncall 1\nlocal.set 0\n\
i32.const 1\ni32.const 96\ni32.const 1\ni32.const 104\ncall 2\ndrop\n\
local.get 0\ni32.const 8\ni32.shl\ni32.const 112\ni32.load 2 0\ni32.add\ncall 3\nendfunc\n";

/// A poll of nothing, which ends with the errno.
const POLLS_NOTHING: &str =
    "i32.const 0\ni32.const 200\ni32.const 0\ni32.const 112\ncall 1\ncall 3\nendfunc\n";

/// It ends with 65,536 times the errno, 256 times the number of its arguments (three), and their size (seven).
const COUNTS: &str = "\
i32.const 120\ni32.const 124\ncall 0\ni32.const 16\ni32.shl\n\
i32.const 120\ni32.load 2 0\ni32.const 8\ni32.shl\ni32.add\ni32.const 124\ni32.load 2 0\ni32.add\ncall 3\nendfunc\n";

/// The line of `run g a bc` where the guest has this body, and what the kernel did.
fn run_of(rt: &impl Abort, alloc: Global, body: &str) -> Result<(Vec<u8>, MemKernel), Fail> {
    let mut text = String::from_str(alloc, HEAD)?;
    text.push_str(body)?;
    let module = module_of(alloc, text.as_bytes())?;
    let said = texts(alloc, &["run", "g", "a", "bc"])?;
    let files = files(rt, alloc, &[("g", module.as_slice())], None)?;
    let (kernel, console) = (kernel(alloc, &[], None)?, console(alloc, &[], None, None)?);
    let mut sink = VecSink::new(alloc, Vec::new(alloc));
    let came = carry_out(alloc, said.as_slice(), kernel, console, files, &mut sink);
    Ok((Vec::from_slice(alloc, sink.bytes())?, came.kernel))
}

/// What a poll of the two finds.
fn found(item: &Item) -> Option<&[Happened]> {
    let clock = Sub::Clock {
        id: 1,
        timeout: 0,
        flags: 0,
    };
    match (&item.call, &item.reply) {
        (Call::Poll { subs }, Reply::Ready(found))
            if subs.slice() == [clock, Sub::Read { fd: 9 }].as_slice() => { Some(found.slice()) }
        _ => None,
    }
}

/// The bytes that are written to descriptor 1, where all are taken.
fn written(item: &Item) -> Option<&[u8]> {
    match (&item.call, &item.reply) {
        (Call::Write { fd: 1, bytes }, Reply::Count(64)) => Some(bytes.slice()),
        _ => None,
    }
}

#[test]
fn a_poll_finds_a_clock_and_an_unknown_descriptor(rt: HostRuntime) -> Result<(), Fail> {
    let ready = Happened {
        sub: 0,
        error: 0,
        nbytes: 0,
        flags: 0,
    };
    let unknown = Happened {
        sub: 1,
        error: 8,
        ..ready
    };
    let mut events = [0; 64];
    for (place, byte) in [(0, 7), (32, 8), (40, 8), (42, 1)] {
        events[place] = byte;
    }
    let (line, kernel) = run_of(&rt, rt.alloc(), POLLS_TWO)?;
    let done = kernel.done();
    assert!(rt; line.as_slice() == b"ended 2\n".as_slice() && done.len() == 2);
    assert!(rt; found(&done[0]) == Some([ready, unknown].as_slice()));
    assert!(rt; written(&done[1]) == Some(events.as_slice()));
    Ok(())
}

#[test]
fn a_poll_of_nothing_and_counts_are_no_calls(rt: HostRuntime) -> Result<(), Fail> {
    let rows = [
        (POLLS_NOTHING, b"ended 28\n".as_slice()),
        (COUNTS, b"ended 775\n".as_slice()),
    ];
    for (body, want) in rows {
        let (line, kernel) = run_of(&rt, rt.alloc(), body)?;
        assert!(rt; line.as_slice() == want && kernel.done().is_empty());
    }
    Ok(())
}
