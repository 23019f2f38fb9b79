//! A schedule that is read, and texts that are none.

use super::*;
use mv_calls::Or;
use mv_rehearse::Beat;
use std::alloc::Global;
use std::test::Fail;

/// The fault of a text, if it has one.
fn fault_of(alloc: Global, text: &[u8]) -> Option<ScheduleFault> {
    match read_schedule(alloc, text) {
        Err(Or::Fault(fault)) => Some(fault),
        _ => None,
    }
}

#[test]
fn letters_and_blanks(rt: HostRuntime) -> Result<(), Fail> {
    let beats = read_schedule(rt.alloc(), b"LC\nF J")?;
    let all = [Beat::Lead, Beat::Carry, Beat::Follow, Beat::Judge];
    assert!(rt; beats.as_slice() == all.as_slice());
    assert_eq!(rt; read_schedule(rt.alloc(), b"")?.len(), 0);
    Ok(())
}

#[test]
fn other_bytes(rt: HostRuntime) {
    let alloc = rt.alloc();
    assert!(rt; fault_of(alloc, b"LCFFFJx") == Some(ScheduleFault::Letter { place: 6 }));
    assert!(rt; fault_of(alloc, b"L\rF") == Some(ScheduleFault::Letter { place: 1 }));
    assert!(rt; fault_of(alloc, b"LL\n").is_none());
}
