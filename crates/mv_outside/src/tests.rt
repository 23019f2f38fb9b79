//! Each call that takes memory once with ample memory, and each object at a call that fails.

use super::*;
use mv_calls::{Bytes, OutOfMemory};
use std::alloc::Global;
use std::test::Fail;

fn text_of(line: Line) -> Option<Bytes> {
    match line {
        Line::Line(bytes) => Some(bytes),
        _ => None,
    }
}

fn read_of(found: Found) -> Option<Bytes> {
    match found {
        Found::Bytes(bytes) => Some(bytes),
        _ => None,
    }
}

fn file(alloc: Global, path: &[u8], bytes: &[u8]) -> Result<FileAt, OutOfMemory> {
    Ok(FileAt {
        path: Bytes::from_slice(alloc, path)?,
        bytes: Bytes::from_slice(alloc, bytes)?,
    })
}

#[test]
fn console_hands_on_lines_and_fails_from_a_named_look_on(rt: HostRuntime) -> Result<(), Fail> {
    let alloc = rt.alloc();
    let mut lines = Vec::new(alloc);
    lines.push(Some(Bytes::from_slice(alloc, b"status")?))?;
    lines.push(None)?;
    lines.push(Some(Bytes::from_vec(vec![in alloc; 7; 8_193]?)))?;
    lines.push(Some(Bytes::from_slice(alloc, b"halt")?))?;
    let mut fail_next = Vec::new(alloc);
    fail_next.push(3)?;
    let mut fail_say = Vec::new(alloc);
    fail_say.push(1)?;
    let mut console = MemConsole::new(alloc, lines, fail_next, fail_say);
    let status = text_of(console.next(alloc)).ok_or("a line")?;
    assert_eq!(rt; status.slice(), b"status".as_slice());
    assert!(rt; matches!(console.next(alloc), Line::Idle));
    let long = text_of(console.next(alloc)).ok_or("a line")?;
    assert_eq!(rt; long.slice().len(), 8_192);
    assert!(rt; matches!(console.next(alloc), Line::Failed));
    assert!(rt; matches!(console.next(alloc), Line::Failed));
    console.prepare(alloc, 8)?;
    assert!(rt; console.say(b"done").is_ok());
    console.prepare(alloc, 4)?;
    assert!(rt; console.say(b"more").is_err());
    assert_eq!(rt; console.said(), b"donemo".as_slice());
    Ok(())
}

#[test]
fn files_are_read_and_written(rt: HostRuntime) -> Result<(), Fail> {
    let alloc = rt.alloc();
    let mut list = Vec::new(alloc);
    list.push(file(alloc, b"a", b"0123456789")?)?;
    list.push(file(alloc, b"b", b"bee")?)?;
    let mut fail_read = Vec::new(alloc);
    fail_read.push(2)?;
    let mut fail_write = Vec::new(alloc);
    fail_write.push(1)?;
    assert!(rt; paths_differ(list.as_slice()));
    let mut files = MemFiles::new(list, fail_read, fail_write);
    let front = read_of(files.read(alloc, b"a", 4)).ok_or("bytes")?;
    assert_eq!(rt; front.slice(), b"01234".as_slice());
    assert!(rt; matches!(files.read(alloc, b"c", 4), Found::Missing));
    assert!(rt; matches!(files.read(alloc, b"a", 4), Found::Failed));
    assert!(rt; files.write(alloc, b"c", b"see").is_ok());
    assert!(rt; files.write(alloc, b"b", b"bees").is_err());
    assert!(rt; files.write(alloc, b"a", b"ay").is_ok());
    let all = read_of(files.read(alloc, b"c", 4)).ok_or("bytes")?;
    assert_eq!(rt; all.slice(), b"see".as_slice());
    assert_eq!(rt; files.content(b"a").ok_or("a file")?, b"ay".as_slice());
    assert_eq!(rt; files.content(b"b").ok_or("a file")?, b"".as_slice());
    assert!(rt; files.content(b"d").is_none());
    Ok(())
}

#[test]
fn sink_keeps_pieces_and_half_of_a_failed_one(rt: HostRuntime) -> Result<(), Fail> {
    let alloc = rt.alloc();
    let mut fail = Vec::new(alloc);
    fail.push(1)?;
    let mut sink = VecSink::new(alloc, fail);
    assert!(rt; sink.write_all_of(alloc, b"ended ").is_ok());
    assert!(rt; sink.write_all_of(alloc, b"lost").is_err());
    assert!(rt; sink.write_all_of(alloc, b"0\n").is_ok());
    assert_eq!(rt; sink.bytes(), b"ended lo0\n".as_slice());
    let gate = FreeGate::new();
    gate.lead(0);
    gate.follow(0);
    Ok(())
}
