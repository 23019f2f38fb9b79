//! Answers that lie over what they are read from.

use crate::events::{own_events, put_events};
use crate::iovecs::{own_read, put_read};
use crate::ranges::{ranges_lie_within, size_of};
use mv_calls::Happened;
use mv_memory::Memory;
use std::test::Fail;

/// Four bytes over the second iovec, and then 64 bytes at 100.
const IOVECS: &[u8; 16] = b"\x08\0\0\0\x04\0\0\0\x64\0\0\0\x40\0\0\0";

#[test]
fn a_piece_may_lie_over_an_iovec(rt: HostRuntime) -> Result<(), Fail> {
    let mut memory = Memory::new(rt.alloc(), 1, None)?;
    assert_eq!(rt; memory.fill_from(rt.alloc(), 0, IOVECS), Ok(()));
    assert!(rt; ranges_lie_within(&memory, 0, 2, 200));
    own_read(rt.alloc(), &mut memory, 0, 2, 200)?;
    put_read(rt.alloc(), &mut memory, 0, 2, 200, b"abcdefghij");
    assert_eq!(rt; memory.load(8, 4), Ok(0x6463_6261));
    assert_eq!(rt; memory.load(100, 8), Ok(0x0000_6a69_6867_6665));
    assert_eq!(rt; memory.load(200, 8), Ok(10));
    Ok(())
}

#[test]
fn events_may_lie_over_their_subscriptions(rt: HostRuntime) -> Result<(), Fail> {
    let mut memory = Memory::new(rt.alloc(), 1, None)?;
    // A clock with id 1 and userdata 7, and a read of descriptor 9 with userdata 8.
    for (place, value) in [(0, 7), (16, 1), (48, 8), (56, 1), (64, 9)] {
        assert_eq!(rt; memory.store(rt.alloc(), place, 8, value), Ok(()));
    }
    assert!(rt; size_of(&memory) == 65_536);
    own_events(rt.alloc(), &mut memory, 0, 2, 200)?;
    let both = [
        Happened {
            sub: 0,
            error: 0,
            nbytes: 0,
            flags: 0,
        },
        Happened {
            sub: 1,
            error: 8,
            nbytes: 0,
            flags: 0,
        },
    ];
    put_events(rt.alloc(), &mut memory, 0, 0, 200, &both);
    assert_eq!(rt; memory.load(0, 8), Ok(7));
    assert_eq!(rt; memory.load(8, 8), Ok(0));
    assert_eq!(rt; memory.load(32, 8), Ok(8));
    assert_eq!(rt; memory.load(40, 8), Ok(0x0001_0008));
    assert_eq!(rt; memory.load(48, 8), Ok(0));
    assert_eq!(rt; memory.load(64, 8), Ok(9));
    assert_eq!(rt; memory.load(200, 8), Ok(2));
    Ok(())
}
