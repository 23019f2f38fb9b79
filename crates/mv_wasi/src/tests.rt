//! Rows of polls and of texts, over a memory of one page.

use crate::made::Made;
use crate::polls::poll_made;
use crate::texts::{sizes_made, texts_made};
use mv_calls::{Bytes, Call, OutOfMemory, Sub};
use mv_memory::Memory;
use std::alloc::Global;
use std::test::Fail;

/// A page that begins with these bytes.
fn page(alloc: Global, bytes: &[u8]) -> Result<Memory, Fail> {
    let mut memory = Memory::new(alloc, 1, None)?;
    memory.fill_from(alloc, 0, bytes)?;
    Ok(memory)
}

/// The errno that is answered at once.
fn errno(made: &Made) -> Option<u16> {
    match made {
        Made::Local(errno) => Some(*errno),
        _ => None,
    }
}

/// The subscriptions of a poll.
fn subscriptions(made: &Made) -> Option<&[Sub]> {
    match made {
        Made::Outside(Call::Poll { subs }) => Some(subs.slice()),
        _ => None,
    }
}

/// The arguments `g`, `a` and `bc`.
fn arguments(alloc: Global) -> Result<[Bytes; 3], OutOfMemory> {
    Ok([
        Bytes::from_slice(alloc, b"g")?,
        Bytes::from_slice(alloc, b"a")?,
        Bytes::from_slice(alloc, b"bc")?,
    ])
}

#[test]
fn texts_are_counted(rt: HostRuntime) -> Result<(), Fail> {
    let alloc = rt.alloc();
    let texts = arguments(alloc)?;
    let mut memory = page(alloc, &[9; 24])?;
    assert_eq!(rt;
        errno(&sizes_made(alloc, &mut memory, 4, 8, &texts)?),
        Some(0)
    );
    assert_eq!(rt; memory.load(0, 4), Ok(0x0909_0909));
    assert_eq!(rt; memory.load(4, 4), Ok(3));
    assert_eq!(rt; memory.load(8, 4), Ok(7));
    assert_eq!(rt; memory.load(12, 4), Ok(0x0909_0909));
    assert_eq!(rt; errno(&sizes_made(alloc, &mut memory, 4, 8, &[])?), Some(0));
    assert_eq!(rt; memory.load(4, 8), Ok(0));
    assert_eq!(rt;
        errno(&sizes_made(alloc, &mut memory, 0, 65_533, &texts)?),
        Some(21)
    );
    assert_eq!(rt;
        errno(&sizes_made(alloc, &mut memory, 65_533, 0, &texts)?),
        Some(21)
    );
    assert_eq!(rt; memory.load(0, 4), Ok(0x0909_0909));
    Ok(())
}

#[test]
fn texts_are_written_behind_their_places(rt: HostRuntime) -> Result<(), Fail> {
    let alloc = rt.alloc();
    let texts = arguments(alloc)?;
    let mut memory = page(alloc, &[9; 24])?;
    assert_eq!(rt;
        errno(&texts_made(alloc, &mut memory, 0, 12, &texts)?),
        Some(0)
    );
    assert_eq!(rt; memory.load(0, 4), Ok(12));
    assert_eq!(rt; memory.load(4, 4), Ok(14));
    assert_eq!(rt; memory.load(8, 4), Ok(16));
    assert_eq!(rt;
        memory.load(12, 8),
        Ok(u64::from_le_bytes(*b"g\0a\0bc\0\x09"))
    );
    assert_eq!(rt;
        errno(&texts_made(alloc, &mut memory, 65_525, 12, &texts)?),
        Some(21)
    );
    assert_eq!(rt;
        errno(&texts_made(alloc, &mut memory, 0, 65_530, &texts)?),
        Some(21)
    );
    assert_eq!(rt; memory.load(0, 4), Ok(12));
    assert_eq!(rt;
        errno(&texts_made(alloc, &mut memory, 0, 2, &texts)?),
        Some(0)
    );
    assert_eq!(rt;
        memory.load(0, 8),
        Ok(u64::from_le_bytes(*b"\x02\0g\0a\0bc"))
    );
    assert_eq!(rt; memory.load(8, 4), Ok(0x0000_0000));
    Ok(())
}

/// The bytes of two subscriptions: a clock with id 1, and a read of descriptor 9.
fn two_subscriptions() -> [u8; 96] {
    let mut bytes = [0; 96];
    bytes[16] = 1;
    bytes[56] = 1;
    bytes[64] = 9;
    bytes
}

#[test]
fn a_poll_is_judged_in_order(rt: HostRuntime) -> Result<(), Fail> {
    let alloc = rt.alloc();
    let mut bytes = two_subscriptions();
    let memory = page(alloc, &bytes)?;
    let rows = [
        (0, 96, 0, 160, 28),
        (65_535, 65_535, 0, 65_535, 28),
        (0, 96, 1_025, 160, 28),
        (0, 96, 2, 65_533, 21),
        (65_441, 96, 2, 160, 21),
        (0, 65_473, 2, 160, 21),
    ];
    for (subs, events, count, result_at, want) in rows {
        let made = poll_made(alloc, &memory, subs, events, count, result_at)?;
        assert_eq!(rt; errno(&made), Some(want));
    }
    for (place, byte) in [(8, 3), (16, 2)] {
        bytes[place] = byte;
        let other = page(alloc, &bytes)?;
        assert_eq!(rt; errno(&poll_made(alloc, &other, 0, 96, 2, 160)?), Some(28));
        assert_eq!(rt;
            errno(&poll_made(alloc, &other, 0, 96, 2, 65_533)?),
            Some(21)
        );
        bytes = two_subscriptions();
    }
    let made = poll_made(alloc, &memory, 0, 96, 2, 160)?;
    let clock = Sub::Clock {
        id: 1,
        timeout: 0,
        flags: 0,
    };
    let want = [clock, Sub::Read { fd: 9 }];
    assert_eq!(rt; subscriptions(&made), Some(want.as_slice()));
    Ok(())
}
