//! The table of replies that suit, and each call that takes memory with ample memory.

use super::*;
use std::alloc::Global;
use std::test::Fail;

fn bytes_of(alloc: Global, bytes: &[u8]) -> Result<Bytes, OutOfMemory> {
    Bytes::from_slice(alloc, bytes)
}

fn ready(alloc: Global, subs: &[u32]) -> Result<Reply, Fail> {
    let mut list = Vec::new(alloc);
    for sub in subs {
        list.push(Happened {
            sub: *sub,
            error: 0,
            nbytes: 1,
            flags: 0,
        })?;
    }
    Ok(Reply::Ready(Happenings::from_vec(list)))
}

fn two_subs(alloc: Global) -> Result<Call, Fail> {
    let subs = [Sub::Read { fd: 3 }, Sub::Write { fd: 1 }];
    Ok(Call::Poll {
        subs: Subs::from_slice(alloc, &subs)?,
    })
}

#[test]
fn replies_that_suit(rt: HostRuntime) -> Result<(), Fail> {
    let alloc = rt.alloc();
    let three = Reply::Bytes(bytes_of(alloc, b"abc")?);
    let write = Call::Write {
        fd: 1,
        bytes: bytes_of(alloc, b"hi\n")?,
    };
    let poll = two_subs(alloc)?;
    let accept = Call::Accept { fd: 3, flags: 0 };
    assert!(rt; suits(&Call::Clock { id: 0 }, &Reply::Time(7)));
    assert!(rt; !suits(&Call::Clock { id: 0 }, &Reply::Done));
    assert!(rt; suits(&Call::Random { len: 3 }, &three));
    assert!(rt; !suits(&Call::Random { len: 4 }, &three));
    assert!(rt; suits(&Call::Read { fd: 0, cap: 3 }, &three));
    assert!(rt; suits(&Call::Read { fd: 0, cap: 64 }, &three));
    assert!(rt; !suits(&Call::Read { fd: 0, cap: 2 }, &three));
    assert!(rt; suits(&write, &Reply::Count(3)));
    assert!(rt; suits(&write, &Reply::Count(0)));
    assert!(rt; !suits(&write, &Reply::Count(4)));
    assert!(rt; suits(&write, &Reply::Errno(1)));
    assert!(rt; suits(&write, &Reply::Errno(65_535)));
    assert!(rt; !suits(&write, &Reply::Errno(0)));
    assert!(rt; suits(&Call::Close { fd: 4 }, &Reply::Done));
    assert!(rt; suits(&Call::Yield, &Reply::Done));
    assert!(rt; suits(&Call::Shutdown { fd: 4, how: 1 }, &Reply::Done));
    assert!(rt; suits(&accept, &Reply::Fd(4)));
    assert!(rt; !suits(&accept, &Reply::Done));
    assert!(rt; suits(&poll, &ready(alloc, &[])?));
    assert!(rt; suits(&poll, &ready(alloc, &[0, 1])?));
    assert!(rt; suits(&poll, &ready(alloc, &[1])?));
    assert!(rt; !suits(&poll, &ready(alloc, &[1, 0])?));
    assert!(rt; !suits(&poll, &ready(alloc, &[0, 0])?));
    assert!(rt; !suits(&poll, &ready(alloc, &[2])?));
    Ok(())
}

#[test]
fn calls_that_fit(rt: HostRuntime) -> Result<(), Fail> {
    let alloc = rt.alloc();
    let five = Reply::Bytes(bytes_of(alloc, b"hello")?);
    let wide = Call::Read { fd: 4, cap: 64 };
    let narrow = Call::Read { fd: 4, cap: 5 };
    let tight = Call::Read { fd: 4, cap: 4 };
    let other = Call::Read { fd: 5, cap: 64 };
    let shout = Call::Write {
        fd: 4,
        bytes: bytes_of(alloc, b"+OK\n")?,
    };
    let plain = Call::Write {
        fd: 4,
        bytes: bytes_of(alloc, b"OK\n")?,
    };
    assert!(rt; fits(&narrow, &wide, &five));
    assert!(rt; !fits(&tight, &wide, &five));
    assert!(rt; fits(&tight, &wide, &Reply::Errno(6)));
    assert!(rt; !fits(&other, &wide, &five));
    assert!(rt; !fits(&shout, &plain, &Reply::Count(3)));
    assert!(rt; fits(&plain, &copy_call(alloc, &plain)?, &Reply::Count(3)));
    assert!(rt;
        fits(
            &two_subs(alloc)?,
            &copy_call(alloc, &two_subs(alloc)?)?,
            &ready(alloc, &[1])?
        )
    );
    Ok(())
}

#[test]
fn copies_are_equal(rt: HostRuntime) -> Result<(), Fail> {
    let alloc = rt.alloc();
    let word = bytes_of(alloc, b"mv")?;
    assert_eq!(rt; word.copy(alloc)?.slice(), b"mv".as_slice());
    let texts = Texts::from_slice(alloc, &[word])?.copy(alloc)?;
    assert_eq!(rt; texts.slice().len(), 1);
    assert_eq!(rt; texts.slice()[0].slice(), b"mv".as_slice());
    let sub = Sub::Clock {
        id: 1,
        timeout: 9,
        flags: 0,
    };
    let subs = Subs::from_slice(alloc, &[sub])?.copy(alloc)?;
    assert_eq!(rt; subs.slice(), [sub].as_slice());
    let event = Happened {
        sub: 0,
        error: 0,
        nbytes: 2,
        flags: 1,
    };
    let events = Happenings::from_slice(alloc, &[event])?.copy(alloc)?;
    assert_eq!(rt; events.slice(), [event].as_slice());
    let read = Call::Read { fd: 4, cap: 5 };
    let five = Reply::Bytes(bytes_of(alloc, b"hello")?);
    assert!(rt; suits(&read, &five));
    let copied = match copy_reply(&five, Room::make(alloc, &read)?) {
        Reply::Bytes(bytes) => bytes,
        _ => bytes_of(alloc, b"")?,
    };
    assert_eq!(rt; copied.slice(), b"hello".as_slice());
    let poll = two_subs(alloc)?;
    let one = ready(alloc, &[1])?;
    assert!(rt; suits(&poll, &one));
    let found = match copy_reply(&one, Room::make(alloc, &poll)?) {
        Reply::Ready(events) => events,
        _ => Happenings::from_slice(alloc, &[])?,
    };
    assert_eq!(rt; found.slice().len(), 1);
    Ok(())
}

#[test]
fn rooms_are_no_larger_than_needed(rt: HostRuntime) -> Result<(), Fail> {
    let alloc = rt.alloc();
    let read = Call::Read { fd: 4, cap: 5 };
    let poll = two_subs(alloc)?;
    assert_eq!(rt; Room::make(alloc, &read)?.bytes().capacity(), 5);
    assert_eq!(rt; Room::make(alloc, &read)?.events().capacity(), 0);
    assert_eq!(rt; Room::make(alloc, &poll)?.bytes().capacity(), 0);
    assert_eq!(rt; Room::make(alloc, &poll)?.events().capacity(), 2);
    assert_eq!(rt; Room::make(alloc, &Call::Yield)?.bytes().capacity(), 0);
    Ok(())
}
