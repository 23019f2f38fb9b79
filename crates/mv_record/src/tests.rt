ghost use Rattle.std.specs.Prelude.{◌≡◌, IfOk};
ghost use Rattle.mv_record.specs.Fitting.{IsToldEntry};

use super::*;
use mv_calls::{Bytes, Call, Item, Or, OutOfMemory, Reply, Texts, Trap, suits};
use mv_history::{Cause, Entries, Entry, How, Log, Mark, Start, Updates};
use mv_orders::OrderReply;
use mv_version::Event;
use std::alloc::Global;
use std::test::*;

/// No argument, a point and a halt.
const SHORT: [u8; 24] = [
    0x4D, 0x56, 0x4C, 0x4F, 0x47, 0x30, 0x30, 0x31, 0, 0, 0, 0, 1, 0, 0, 0, 1, 3, 0, 0, 0, 3, 9, 2,
];

/// An argument, and an entry of each kind.
const LONG: [u8; 98] = [
    0x4D, 0x56, 0x4C, 0x4F, 0x47, 0x30, 0x30, 0x31, 1, 0, 0, 0, 1, 0, 0, 0, 0x61, // arguments
    17, 0, 0, 0, 0, 3, 1, 0, 0, 0, 2, 0, 0, 0, 0x68, 0x69, 3, 2, 0, 0, 0, // a call
    1, 0, 0, 0, 1, // a point
    14, 0, 0, 0, 2, 2, 0, 0, 0, 0x67, 0x6F, 4, 2, 0, 0, 0, 0x67, 0x6F, // an order
    25, 0, 0, 0, 3, 7, 1, 2, 1, 0, 0, 0, 0, 0, 0, 2, 4, 0, 0, 0, 64, 0, 0, 0, 1, 3, 0, 0, 0, // a discard
    4, 0, 0, 0, 3, 9, 1, 9, // the end
];

fn log_of(alloc: Global, args: Vec<Bytes>, entries: Vec<Entry>) -> Log
    ensures { result.entries.list ≡ entries.items }
{
    Log {
        start: Start {
            module: Bytes::from_vec(Vec::new(alloc)),
            args: Texts::from_vec(args),
        },
        updates: Updates::new(alloc),
        entries: Entries::from_vec(entries),
    }
}

fn fault_of(alloc: Global, bytes: &[u8]) -> Option<RecordFault> {
    match read_log(alloc, bytes) {
        Err(Or::Fault(fault)) => Some(fault),
        _ => None,
    }
}

#[test]
fn a_point_and_a_halt(rt: HostRuntime) -> Result<(), Fail> {
    let alloc = rt.alloc();
    let mut entries = Vec::new(alloc);
    entries.push(Entry::Point)?;
    entries.push(Entry::Mark(Mark::End { how: How::Halted }))?;
    let log = log_of(alloc, Vec::new(alloc), entries);
    let file = write_log(alloc, &log)?;
    assert_eq!(rt; file.as_slice(), SHORT.as_slice());
    Ok(())
}

fn written_call(alloc: Global) -> Result<Entry, OutOfMemory>
    ensures { IfOk result (λ e. IsToldEntry e) }
{
    let call = Call::Write {
        fd: 1,
        bytes: Bytes::from_slice(alloc, b"hi")?,
    };
    let reply = Reply::Count(2);
    if suits(&call, &reply) {
        Ok(Entry::Call {
            item: Item { call, reply },
        })
    } else {
        Ok(Entry::Point)
    }
}

fn unknown_order(alloc: Global) -> Result<Entry, OutOfMemory>
    ensures { IfOk result (λ e. IsToldEntry e) }
{
    Ok(Entry::Order {
        text: Bytes::from_slice(alloc, b"go")?,
        reply: OrderReply::Unknown {
            text: Bytes::from_slice(alloc, b"go")?,
        },
    })
}

fn discard() -> Entry
    ensures { IsToldEntry result }
{
    Entry::Mark(Mark::Discard {
        cause: Cause::Mismatch {
            k: 258,
            want: Call::Read { fd: 4, cap: 64 },
            got: Event::Ends(3),
        },
    })
}

#[test]
fn each_kind_of_entry_is_written_and_read_back(rt: HostRuntime) -> Result<(), Fail> {
    let alloc = rt.alloc();
    let mut args = Vec::new(alloc);
    args.push(Bytes::from_slice(alloc, b"a")?)?;
    let mut entries = Vec::new(alloc);
    entries.push(written_call(alloc)?)?;
    entries.push(Entry::Point)?;
    entries.push(unknown_order(alloc)?)?;
    entries.push(discard())?;
    entries.push(Entry::Mark(Mark::End {
        how: How::Trapped(Trap::Spent),
    }))?;
    let log = log_of(alloc, args, entries);
    let file = write_log(alloc, &log)?;
    assert_eq!(rt; file.as_slice(), LONG.as_slice());
    match read_log(alloc, file.as_slice()) {
        Ok((args, entries)) => {
            let read = format!(in alloc; "{args:?} {entries:?}")?;
            let written = format!(in alloc; "{:?} {:?}", log.start.args, log.entries)?;
            assert_eq!(rt; read.as_str(), written.as_str());
        }
        Err(_) => assert!(rt; false),
    }
    Ok(())
}

#[test]
fn a_file_is_cut_at_each_length(rt: HostRuntime) {
    let alloc = rt.alloc();
    for length in 0..24usize {
        let fault = fault_of(alloc, &SHORT[..length]);
        if length == 12 || length == 17 {
            assert!(rt; fault.is_none());
        } else {
            let place = length as u64;
            let kind = RecordKind::Cut;
            assert!(rt; fault == Some(RecordFault { place, kind }));
        }
    }
}

#[test]
fn a_changed_byte_is_the_first_fault(rt: HostRuntime) {
    let alloc = rt.alloc();
    let rows = [
        (3usize, 0u8, RecordKind::Magic, 3u64),
        (7, 0x32, RecordKind::Magic, 7),
        (12, 2, RecordKind::Length, 12),
        (16, 4, RecordKind::Code, 16),
        (17, 2, RecordKind::Length, 17),
        (17, 4, RecordKind::Cut, 24),
        (22, 10, RecordKind::Code, 22),
        (23, 0, RecordKind::Length, 17),
        (23, 7, RecordKind::Code, 23),
    ];
    for (changed, byte, kind, place) in rows {
        let mut bytes = SHORT;
        bytes[changed] = byte;
        let fault = RecordFault { place, kind };
        assert!(rt; fault_of(alloc, &bytes) == Some(fault));
    }
}

#[test]
fn a_reply_must_suit(rt: HostRuntime) {
    let alloc = rt.alloc();
    let bytes = [
        0x4D, 0x56, 0x4C, 0x4F, 0x47, 0x30, 0x30, 0x31, 0, 0, 0, 0, 7, 0, 0, 0, 0, 6, 3, 0, 0, 0, 0,
    ];
    let fault = RecordFault {
        place: 18,
        kind: RecordKind::Suit,
    };
    assert!(rt; fault_of(alloc, &bytes) == Some(fault));
}
