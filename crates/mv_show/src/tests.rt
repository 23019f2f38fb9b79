//! Entries with their lines (docs/FORMATS.md, "Shown log").

use super::*;
use mv_calls::{
    Bytes, Call, Happened, Happenings, Item, OutOfMemory, Reply, Sub, Subs, Trap, suits,
};
use mv_history::{Cause, Entry, How, Mark, Side, Why};
use mv_orders::{OrderReply, Word};
use mv_rules::{RuleFault, RuleKind};
use mv_syntax::{BornFault, ReadFault, ReadKind, StartFault, ValidFault, ValidKind};
use mv_version::Event;
use std::alloc::Global;
use std::test::*;

/// Whether the entries are shown as these lines.
fn are_shown(alloc: Global, entries: Vec<Entry>, lines: &[&str]) -> Result<bool, Fail> {
    let mut text: Vec<u8> = Vec::new(alloc);
    for line in lines {
        text.extend_from_slice(line.as_bytes())?;
        text.push(b'\n')?;
    }
    Ok(log_lines(alloc, entries.as_slice())?.as_slice() == text.as_slice())
}

/// A call with its reply, or a point where the reply doesn't suit.
fn answered(call: Call, reply: Reply) -> Entry {
    if suits(&call, &reply) {
        Entry::Call {
            item: Item { call, reply },
        }
    } else {
        Entry::Point
    }
}

fn write(alloc: Global, bytes: &[u8]) -> Result<Call, OutOfMemory> {
    Ok(Call::Write {
        fd: 4,
        bytes: Bytes::from_slice(alloc, bytes)?,
    })
}

fn discard(cause: Cause) -> Entry {
    Entry::Mark(Mark::Discard { cause })
}

fn refused(fault: BornFault) -> Entry {
    discard(Cause::Refused(fault))
}

#[test]
fn calls_a_point_and_orders(rt: HostRuntime) -> Result<(), Fail> {
    let alloc = rt.alloc();
    let mut entries = Vec::new(alloc);
    entries.push(answered(write(alloc, b"OK\n")?, Reply::Count(3)))?;
    entries.push(answered(write(alloc, b"\xff\x0a")?, Reply::Errno(8)))?;
    entries.push(Entry::Point)?;
    entries.push(Entry::Order {
        text: Bytes::from_slice(alloc, b"promote")?,
        reply: OrderReply::Accepted {
            word: Word::Promote,
            update: 0,
        },
    })?;
    entries.push(Entry::Order {
        text: Bytes::from_slice(alloc, b"a\xfe")?,
        reply: OrderReply::Utf8,
    })?;
    entries.push(Entry::Order {
        text: Bytes::from_slice(alloc, b"update m none none")?,
        reply: OrderReply::Missing {
            path: Bytes::from_slice(alloc, b"\xc3")?,
        },
    })?;
    let lines = [
        r#"{"call":{"bytes":"OK\n","call":"write","fd":4},"kind":"call","number":0,"reply":{"count":3,"reply":"count"}}"#,
        r#"{"call":{"call":"write","fd":4,"hex":"ff0a"},"kind":"call","number":1,"reply":{"errno":8,"reply":"errno"}}"#,
        r#"{"kind":"point","number":2}"#,
        r#"{"kind":"order","number":3,"reply":{"ok":"promote"},"text":"promote"}"#,
        r#"{"hex":"61fe","kind":"order","number":4,"reply":{"no":"utf8"}}"#,
        r#"{"kind":"order","number":5,"reply":{"hex":"c3","no":"missing"},"text":"update m none none"}"#,
    ];
    assert!(rt; are_shown(alloc, entries, &lines)?);
    Ok(())
}

#[test]
fn replies(rt: HostRuntime) -> Result<(), Fail> {
    let alloc = rt.alloc();
    let subs = Vec::from_array(
        alloc,
        [
            Sub::Clock {
                id: 1,
                timeout: 18_446_744_073_709_551_615,
                flags: 0,
            },
            Sub::Read { fd: 3 },
        ],
    )?;
    let events = Vec::from_array(
        alloc,
        [Happened {
            sub: 1,
            error: 0,
            nbytes: 5,
            flags: 0,
        }],
    )?;
    let mut entries = Vec::new(alloc);
    entries.push(answered(
        Call::Poll {
            subs: Subs::from_vec(subs),
        },
        Reply::Ready(Happenings::from_vec(events)),
    ))?;
    entries.push(answered(
        Call::Read { fd: 4, cap: 64 },
        Reply::Bytes(Bytes::from_slice(alloc, b"hi")?),
    ))?;
    entries.push(answered(
        Call::FdStat { fd: 0 },
        Reply::Stat {
            filetype: 2,
            flags: 1,
            rights: 66,
            heirs: 0,
        },
    ))?;
    entries.push(answered(Call::Accept { fd: 3, flags: 4 }, Reply::Fd(5)))?;
    let lines = [
        r#"{"call":{"call":"poll","subs":[{"flags":0,"id":1,"sub":"clock","timeout":18446744073709551615},{"fd":3,"sub":"read"}]},"kind":"call","number":0,"reply":{"events":[{"error":0,"flags":0,"nbytes":5,"sub":1}],"reply":"ready"}}"#,
        r#"{"call":{"call":"read","cap":64,"fd":4},"kind":"call","number":1,"reply":{"bytes":"hi","reply":"bytes"}}"#,
        r#"{"call":{"call":"fdstat","fd":0},"kind":"call","number":2,"reply":{"filetype":2,"flags":1,"heirs":0,"reply":"stat","rights":66}}"#,
        r#"{"call":{"call":"accept","fd":3,"flags":4},"kind":"call","number":3,"reply":{"fd":5,"reply":"fd"}}"#,
    ];
    assert!(rt; are_shown(alloc, entries, &lines)?);
    Ok(())
}

#[test]
fn marks(rt: HostRuntime) -> Result<(), Fail> {
    let alloc = rt.alloc();
    let marks = Vec::from_array(
        alloc,
        [
            Entry::Mark(Mark::Fork { update: 1 }),
            Entry::Mark(Mark::NoCopy { update: 2 }),
            Entry::Mark(Mark::Hand { why: Why::Promote }),
            Entry::Mark(Mark::Hand {
                why: Why::Trap(Trap::Bounds),
            }),
            Entry::Mark(Mark::Promote),
            Entry::Mark(Mark::Over),
            Entry::Mark(Mark::Back),
            Entry::Mark(Mark::Finish),
            Entry::Mark(Mark::Dropped {
                cause: Cause::Memory,
            }),
            Entry::Mark(Mark::End { how: How::Ended(7) }),
            Entry::Mark(Mark::End {
                how: How::Trapped(Trap::Spent),
            }),
            Entry::Mark(Mark::End {
                how: How::KernelFault,
            }),
        ],
    )?;
    let lines = [
        r#"{"kind":"mark","mark":"fork","number":0,"update":1}"#,
        r#"{"kind":"mark","mark":"nocopy","number":1,"update":2}"#,
        r#"{"kind":"mark","mark":"hand","number":2,"why":"promote"}"#,
        r#"{"kind":"mark","mark":"hand","number":3,"trap":"Bounds","why":"trap"}"#,
        r#"{"kind":"mark","mark":"promote","number":4}"#,
        r#"{"kind":"mark","mark":"over","number":5}"#,
        r#"{"kind":"mark","mark":"back","number":6}"#,
        r#"{"kind":"mark","mark":"finish","number":7}"#,
        r#"{"cause":{"cause":"memory"},"kind":"mark","mark":"dropped","number":8}"#,
        r#"{"code":7,"how":"ended","kind":"mark","mark":"end","number":9}"#,
        r#"{"how":"trapped","kind":"mark","mark":"end","number":10,"trap":"Spent"}"#,
        r#"{"how":"kernel fault","kind":"mark","mark":"end","number":11}"#,
    ];
    assert!(rt; are_shown(alloc, marks, &lines)?);
    Ok(())
}

#[test]
fn causes(rt: HostRuntime) -> Result<(), Fail> {
    let alloc = rt.alloc();
    let mut entries = Vec::new(alloc);
    entries.push(discard(Cause::Mismatch {
        k: 2,
        want: write(alloc, b"OK\n")?,
        got: Event::Calls(Call::Close { fd: 4 }),
    }))?;
    entries.push(discard(Cause::Mismatch {
        k: 0,
        want: Call::Yield,
        got: Event::Ends(3),
    }))?;
    entries.push(discard(Cause::Trap {
        k: 5,
        trap: Trap::DivideByZero,
    }))?;
    entries.push(discard(Cause::Rules {
        side: Side::Reverse,
        fault: RuleFault {
            line: 12,
            kind: RuleKind::Reads,
        },
    }))?;
    entries.push(discard(Cause::Order { n: 4 }))?;
    let lines = [
        r#"{"cause":{"cause":"mismatch","got":{"call":{"call":"close","fd":4},"event":"calls"},"item":2,"want":{"bytes":"OK\n","call":"write","fd":4}},"kind":"mark","mark":"discard","number":0}"#,
        r#"{"cause":{"cause":"mismatch","got":{"code":3,"event":"ends"},"item":0,"want":{"call":"yield"}},"kind":"mark","mark":"discard","number":1}"#,
        r#"{"cause":{"cause":"trap","item":5,"trap":"DivideByZero"},"kind":"mark","mark":"discard","number":2}"#,
        r#"{"cause":{"cause":"rules","kind":"Reads","line":12,"side":"reverse"},"kind":"mark","mark":"discard","number":3}"#,
        r#"{"cause":{"cause":"order","entry":4},"kind":"mark","mark":"discard","number":4}"#,
    ];
    assert!(rt; are_shown(alloc, entries, &lines)?);
    Ok(())
}

#[test]
fn refused_births(rt: HostRuntime) -> Result<(), Fail> {
    let alloc = rt.alloc();
    let births = Vec::from_array(
        alloc,
        [
            refused(BornFault::Read(ReadFault {
                place: 8,
                kind: ReadKind::Cut,
            })),
            refused(BornFault::Valid(ValidFault {
                part: 10,
                item: 1,
                at: 3,
                kind: ValidKind::Operand,
            })),
            refused(BornFault::Start(StartFault::UnknownImport { import: 2 })),
            refused(BornFault::Start(StartFault::DataBounds { segment: 0 })),
            refused(BornFault::NoTransform),
            refused(BornFault::Transform(Trap::CallInTransform)),
            refused(BornFault::Code(9)),
        ],
    )?;
    let lines = [
        r#"{"cause":{"birth":{"birth":"read","kind":"Cut","place":8},"cause":"refused"},"kind":"mark","mark":"discard","number":0}"#,
        r#"{"cause":{"birth":{"at":3,"birth":"valid","item":1,"kind":"Operand","part":10},"cause":"refused"},"kind":"mark","mark":"discard","number":1}"#,
        r#"{"cause":{"birth":{"birth":"start","import":2,"kind":"UnknownImport"},"cause":"refused"},"kind":"mark","mark":"discard","number":2}"#,
        r#"{"cause":{"birth":{"birth":"start","kind":"DataBounds","segment":0},"cause":"refused"},"kind":"mark","mark":"discard","number":3}"#,
        r#"{"cause":{"birth":{"birth":"no transform"},"cause":"refused"},"kind":"mark","mark":"discard","number":4}"#,
        r#"{"cause":{"birth":{"birth":"transform","trap":"CallInTransform"},"cause":"refused"},"kind":"mark","mark":"discard","number":5}"#,
        r#"{"cause":{"birth":{"birth":"code","code":9},"cause":"refused"},"kind":"mark","mark":"discard","number":6}"#,
    ];
    assert!(rt; are_shown(alloc, births, &lines)?);
    Ok(())
}
