//! The rows of the format, each call of the disk failing in turn, and crashes at every byte.

ghost use Rattle.std.specs.Prelude.{◌≡◌, ◌<◌, ◌≤◌, IfOk, length, false};

use super::*;
use mv_calls::{Bytes, Or, Texts};
use mv_outside::Failed;
use std::alloc::Global;
use std::marker::Send;
use std::process::Abort;
use std::test::Fail;

/// One record of four zero bytes, and the next gate, which is open but has no record.
const ONE: [u8; 18] = *b"MVDISK01\x01\x04\0\0\0\0\0\0\0\x07";

fn sent<T: Send>(value: T) -> T
    ensures { result ≡ value }
{
    value
}

/// A disk of these bytes, none of whose calls fails.
fn sound(alloc: Global, bytes: &[u8]) -> Result<MemDisk, Fail> {
    Ok(MemDisk::new(
        alloc,
        Bytes::from_slice(alloc, bytes)?,
        Vec::new(alloc),
        Vec::new(alloc),
        Vec::new(alloc),
        Vec::new(alloc),
    ))
}

/// The records that such a disk holds.
fn found(alloc: Global, bytes: &[u8]) -> Result<Texts, Fail> {
    let mut disk = sound(alloc, bytes)?;
    Ok(recover(alloc, &mut disk).ok().ok_or("records")?)
}

fn made(alloc: Global, disk: MemDisk) -> Result<Journal<MemDisk>, Fail>
    ensures { IfOk result (λ journal. journal.failed ≡ false) }
{
    match Journal::create(alloc, disk) {
        Made::Journal(journal) => Ok(journal),
        _ => Err(Fail::from("a journal")),
    }
}

#[test]
fn records_are_read_up_to_the_first_that_does_not_count(rt: HostRuntime) -> Result<(), Fail> {
    let alloc = rt.alloc();
    let texts = found(alloc, &ONE)?;
    assert_eq!(rt; texts.slice().len(), 1);
    assert_eq!(rt; texts.slice()[0].slice(), [0; 4].as_slice());
    let table: [(&[u8], usize); 7] = [
        (b"", 0),
        (b"MVDISK0", 0),
        (b"MVDISK01", 0),
        (b"MVDISK02\x01\0\0\0\0\x01", 0),
        (b"MVDISK01\x01\0\0\0\0", 0),
        (b"MVDISK01\x02\0\0\0\0\x01", 0),
        (b"MVDISK01\x01\0\0\0\0\x01\x01\0\0\0a\x01\0\0\0\0", 2),
    ];
    for (bytes, count) in table {
        assert_eq!(rt; found(alloc, bytes)?.slice().len(), count);
    }
    Ok(())
}

#[test]
fn appended_records_are_read_back(rt: HostRuntime) -> Result<(), Fail> {
    let alloc = rt.alloc();
    let mut journal = sent(made(alloc, sound(alloc, b"")?)?);
    assert!(rt; journal.append(alloc, &[0; 4]).is_ok());
    assert!(rt; journal.append(alloc, b"bc").is_ok());
    let disk = journal.close();
    assert_eq!(rt;
        disk.bytes(),
        b"MVDISK01\x01\x04\0\0\0\0\0\0\0\x01\x02\0\0\0bc\0".as_slice()
    );
    let texts = found(alloc, disk.bytes())?;
    assert_eq!(rt; texts.slice().len(), 2);
    assert_eq!(rt; texts.slice()[1].slice(), b"bc".as_slice());
    assert!(rt; matches!(Journal::create(alloc, disk), Made::Used { len: 25, .. }));
    Ok(())
}

/// A list of one number, or of none.
fn numbers(alloc: Global, list: usize, of: usize, number: u64) -> Result<Vec<u64>, Fail> {
    let mut numbers = Vec::new(alloc);
    if list == of {
        numbers.push(number)?;
    }
    Ok(numbers)
}

/// How many of these steps were done: the journal made, and each of two records appended; and how many records the disk then
/// holds. One call fails: of the length, of writing or of syncing, the one of this number.
fn steps_done(alloc: Global, list: usize, number: u64) -> Result<(usize, usize), Fail> {
    let disk = MemDisk::new(
        alloc,
        Bytes::from_vec(Vec::new(alloc)),
        numbers(alloc, list, 0, number)?,
        Vec::new(alloc),
        numbers(alloc, list, 1, number)?,
        numbers(alloc, list, 2, number)?,
    );
    let mut journal = match Journal::create(alloc, disk) {
        Made::Journal(journal) => journal,
        Made::Failed { disk } => return Ok((0, found(alloc, disk.bytes())?.slice().len())),
        _ => return Err(Fail::from("an answer")),
    };
    let mut done = 1;
    if journal.append(alloc, b"ab").is_ok() {
        done = 2;
        if journal.append(alloc, b"").is_ok() {
            done = 3;
        }
    }
    Ok((done, found(alloc, journal.close().bytes())?.slice().len()))
}

#[test]
fn each_failing_call_is_told(rt: HostRuntime) -> Result<(), Fail> {
    let alloc = rt.alloc();
    let table = [
        (0, 0, 0, 0),
        (1, 0, 0, 0),
        (2, 0, 0, 0),
        (1, 1, 0, 0),
        (2, 1, 0, 0),
        (1, 2, 1, 0),
        (2, 2, 1, 0),
        (1, 3, 1, 0),
        (2, 3, 1, 1),
        (1, 4, 2, 1),
        (2, 4, 2, 1),
        (1, 5, 2, 1),
        (2, 5, 2, 2),
        (0, 1, 3, 2),
        (1, 6, 3, 2),
        (2, 6, 3, 2),
    ];
    for (list, number, done, records) in table {
        let tried = steps_done(alloc, list, number)?;
        assert_eq!(rt; tried.0, done, "at {list} {number}");
        assert_eq!(rt; tried.1, records, "at {list} {number}");
    }
    for (list, number, fails) in [
        (0, 0, true),
        (3, 0, true),
        (3, 1, true),
        (3, 2, true),
        (3, 3, false),
    ] {
        let mut disk = MemDisk::new(
            alloc,
            Bytes::from_slice(alloc, &ONE)?,
            numbers(alloc, list, 0, number)?,
            numbers(alloc, list, 3, number)?,
            Vec::new(alloc),
            Vec::new(alloc),
        );
        assert_eq!(rt;
            matches!(recover(alloc, &mut disk), Err(Or::Fault(Failed))),
            fails
        );
    }
    Ok(())
}

/// The content that a crash may leave of an append: what stood before it with this gate, the record as far as `kept`, and any
/// bytes as far as `end`.
fn cut(
    alloc: Global,
    whole: &[u8],
    start: usize,
    gate: u8,
    kept: usize,
    fill: u8,
    end: usize,
) -> Result<Vec<u8>, Fail>
    requires start { start < kept }
    requires kept { kept ≤ length whole.now }
{
    let mut content = Vec::from_slice(alloc, &whole[..start])?;
    content.push(gate)?;
    content.extend_from_slice(&whole[start + 1..kept])?;
    for _ in content.len()..end {
        content.push(fill)?;
    }
    Ok(content)
}

/// The first records are there, and no others.
fn has_first<R: Abort>(
    rt: &R,
    alloc: Global,
    content: &[u8],
    all: &[Bytes],
    count: usize,
) -> Result<(), Fail> {
    let texts = found(alloc, content)?;
    assert_eq!(rt; texts.slice().len(), count);
    for (text, body) in texts.slice().iter().zip(all) {
        assert_eq!(rt; text.slice(), body.slice());
    }
    Ok(())
}

/// Each content that a crash in the first write of an append may leave by a cut, with some bytes behind it, holds the records
/// before it; so does the whole one behind a gate that isn't open, and behind an open gate it holds one more.
fn cuts_hold<R: Abort>(
    rt: &R,
    alloc: Global,
    whole: &[u8],
    all: &[Bytes],
    count: usize,
    start: usize,
    next: usize,
) -> Result<(), Fail>
    requires some { start < next }
    requires inside { next < length whole.now }
    requires few { count < 3 }
{
    for kept in start + 1..next + 1 {
        has_first(
            rt,
            alloc,
            &cut(alloc, whole, start, 0, kept, 0, 0)?,
            all,
            count,
        )?;
        has_first(
            rt,
            alloc,
            &cut(alloc, whole, start, 0, kept, 1, next + 1)?,
            all,
            count,
        )?;
    }
    for (gate, holds) in [(0, count), (1, count + 1), (2, count), (255, count)] {
        let content = cut(alloc, whole, start, gate, next, 0, next + 1)?;
        has_first(rt, alloc, &content, all, holds)?;
    }
    Ok(())
}

#[test]
fn a_crash_at_any_byte_leaves_the_first_records(rt: HostRuntime) -> Result<(), Fail> {
    let alloc = rt.alloc();
    let mut journal = made(alloc, sound(alloc, b"")?)?;
    assert!(rt; journal.append(alloc, b"a").is_ok());
    assert!(rt; journal.append(alloc, b"").is_ok());
    assert!(rt; journal.append(alloc, b"bc").is_ok());
    let disk = journal.close();
    let whole = disk.bytes();
    let all = found(alloc, whole)?;
    assert_eq!(rt; whole.len(), 27);
    for (count, start, next) in [(0, 8, 14), (1, 14, 19), (2, 19, 26)] {
        assert!(rt; start < next && next < whole.len() && count < 3);
        cuts_hold(&rt, alloc, whole, all.slice(), count, start, next)?;
    }
    Ok(())
}
