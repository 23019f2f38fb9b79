//! The rows of the table of the scripted kernel.

use super::*;
use mv_calls::{Bytes, Call, Happened, Happenings, Reply, Room, Sub, Subs, Texts};
use mv_outside::Kernel;
use std::alloc::Global;
use std::test::Fail;

/// A script with one connection, which sends the piece `abc`, the times 5 and 7 and the random bytes `ab`. The calls of these
/// numbers fail.
fn script(alloc: Global, ends: bool, fail: &[u64]) -> Result<Script, Fail> {
    let pieces = Texts::from_slice(alloc, &[Bytes::from_slice(alloc, b"abc")?])?;
    let mut conns = Vec::new(alloc);
    conns.push(Conn { pieces, ends })?;
    Ok(Script {
        conns: Conns::from_vec(conns),
        clock: Numbers::from_vec(Vec::from_slice(alloc, &[5, 7])?),
        random: Bytes::from_slice(alloc, b"ab")?,
        fail: Numbers::from_vec(Vec::from_slice(alloc, fail)?),
    })
}

/// A kernel of such a script.
fn play(alloc: Global, ends: bool, fail: &[u64]) -> Result<MemKernel, Fail> {
    let script = script(alloc, ends, fail)?;
    if script.conns.slice().len() > 1 {
        return Err("one connection".into());
    }
    Ok(MemKernel::new(alloc, script)?)
}

/// Does the call, which isn't to fail.
fn ask(alloc: Global, kernel: &mut MemKernel, call: &Call) -> Result<Reply, Fail> {
    kernel.ready(alloc, call)?;
    let room = Room::make(alloc, call)?;
    Ok(kernel.perform(call, room).ok().ok_or("a reply")?)
}

/// What a reply without bytes and events is: its kind, and its number.
fn told(reply: &Reply) -> (&str, u64) {
    match reply {
        Reply::Errno(errno) => ("errno", u64::from(*errno)),
        Reply::Done => ("done", 0),
        Reply::Count(count) => ("count", u64::from(*count)),
        Reply::Fd(fd) => ("fd", u64::from(*fd)),
        Reply::Time(time) => ("time", *time),
        Reply::Stat {
            filetype,
            flags: 0,
            rights: 66,
            heirs: 0,
        } => ("stat", u64::from(*filetype)),
        _ => ("other", 0),
    }
}

/// Whether each of the calls, done one after another, is answered so.
fn answers(
    alloc: Global,
    kernel: &mut MemKernel,
    calls: &[Call],
    wanted: &[(&str, u64)],
) -> Result<bool, Fail> {
    let mut all = calls.len() == wanted.len();
    for (call, wanted) in calls.iter().zip(wanted) {
        let reply = ask(alloc, kernel, call)?;
        all = all && told(&reply) == *wanted;
    }
    Ok(all)
}

/// Whether the call is answered with these bytes.
fn gives(alloc: Global, kernel: &mut MemKernel, call: &Call, bytes: &[u8]) -> Result<bool, Fail> {
    match ask(alloc, kernel, call)? {
        Reply::Bytes(found) => Ok(found.slice() == bytes),
        _ => Ok(false),
    }
}

/// The events of a poll.
fn events(alloc: Global, kernel: &mut MemKernel, subs: &[Sub]) -> Result<Happenings, Fail> {
    let subs = Subs::from_slice(alloc, subs)?;
    match ask(alloc, kernel, &Call::Poll { subs })? {
        Reply::Ready(events) => Ok(events),
        _ => Err("events".into()),
    }
}

fn accept(fd: u32) -> Call {
    Call::Accept { fd, flags: 0 }
}

#[test]
fn calls_are_answered_by_their_rows(rt: HostRuntime) -> Result<(), Fail> {
    let alloc = rt.alloc();
    let mut kernel = play(alloc, true, &[])?;
    let calls = [
        accept(3),
        accept(3),
        accept(1),
        Call::FdStat { fd: 1 },
        Call::FdStat { fd: 3 },
        Call::Clock { id: 0 },
        Call::Clock { id: 0 },
        Call::Clock { id: 0 },
        Call::Yield,
        Call::Shutdown { fd: 4, how: 3 },
        Call::Close { fd: 4 },
        Call::Read { fd: 4, cap: 64 },
        Call::Read { fd: 9, cap: 64 },
    ];
    let wanted = [
        ("fd", 4),
        ("errno", 6),
        ("errno", 8),
        ("stat", 2),
        ("stat", 6),
        ("time", 5),
        ("time", 7),
        ("time", 7),
        ("done", 0),
        ("done", 0),
        ("done", 0),
        ("errno", 8),
        ("errno", 8),
    ];
    assert!(rt; answers(alloc, &mut kernel, &calls, &wanted)?);
    assert_eq!(rt; kernel.done().len(), 13);
    Ok(())
}

#[test]
fn what_is_written_is_taken_whole(rt: HostRuntime) -> Result<(), Fail> {
    let alloc = rt.alloc();
    let mut kernel = play(alloc, true, &[])?;
    let calls = [
        accept(3),
        Call::Write {
            fd: 1,
            bytes: Bytes::from_slice(alloc, b"hi\n")?,
        },
        Call::Write {
            fd: 4,
            bytes: Bytes::from_slice(alloc, b"OK")?,
        },
        Call::Write {
            fd: 9,
            bytes: Bytes::from_slice(alloc, b"OK")?,
        },
    ];
    let wanted = [("fd", 4), ("count", 3), ("count", 2), ("errno", 8)];
    assert!(rt; answers(alloc, &mut kernel, &calls, &wanted)?);
    Ok(())
}

#[test]
fn a_piece_is_read_in_parts(rt: HostRuntime) -> Result<(), Fail> {
    let alloc = rt.alloc();
    let mut kernel = play(alloc, true, &[])?;
    let two = Call::Read { fd: 4, cap: 2 };
    assert!(rt; answers(alloc, &mut kernel, &[accept(3)], &[("fd", 4)])?);
    assert!(rt; gives(alloc, &mut kernel, &two, b"ab")?);
    assert!(rt; gives(alloc, &mut kernel, &two, b"c")?);
    assert!(rt; gives(alloc, &mut kernel, &two, b"")?);
    Ok(())
}

#[test]
fn without_an_end_a_read_is_to_be_tried_again(rt: HostRuntime) -> Result<(), Fail> {
    let alloc = rt.alloc();
    let mut kernel = play(alloc, false, &[])?;
    assert!(rt; answers(alloc, &mut kernel, &[accept(3)], &[("fd", 4)])?);
    assert!(rt; gives(alloc, &mut kernel, &Call::Read { fd: 4, cap: 64 }, b"abc")?);
    assert!(rt;
        answers(
            alloc,
            &mut kernel,
            &[Call::Read { fd: 4, cap: 64 }],
            &[("errno", 6)]
        )?
    );
    assert!(rt; gives(alloc, &mut kernel, &Call::Random { len: 3 }, b"aba")?);
    Ok(())
}

#[test]
fn a_poll_tells_what_is_ready(rt: HostRuntime) -> Result<(), Fail> {
    let alloc = rt.alloc();
    let mut kernel = play(alloc, true, &[])?;
    let clock = Sub::Clock {
        id: 0,
        timeout: 1,
        flags: 0,
    };
    let found = events(alloc, &mut kernel, &[clock, Sub::Read { fd: 9 }])?;
    let timed = Happened {
        sub: 0,
        error: 0,
        nbytes: 0,
        flags: 0,
    };
    let unknown = Happened {
        sub: 1,
        error: 8,
        nbytes: 0,
        flags: 0,
    };
    assert_eq!(rt; found.slice(), [timed, unknown].as_slice());
    Ok(())
}

#[test]
fn a_named_call_fails_and_is_only_counted(rt: HostRuntime) -> Result<(), Fail> {
    let alloc = rt.alloc();
    let mut kernel = play(alloc, true, &[0])?;
    kernel.ready(alloc, &Call::Yield)?;
    let room = Room::make(alloc, &Call::Yield)?;
    assert!(rt; kernel.perform(&Call::Yield, room).is_err());
    assert_eq!(rt; kernel.done().len(), 0);
    assert!(rt; answers(alloc, &mut kernel, &[Call::Yield], &[("done", 0)])?);
    assert_eq!(rt; kernel.done().len(), 1);
    Ok(())
}
