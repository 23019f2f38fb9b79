//! The worked rows of a policy, each kind of fault, and each call that takes memory with ample memory.
ghost use Rattle.std.specs.Prelude.{◌≡◌, Some};

use super::*;
use mv_calls::{Bytes, Or};
use mv_outside::{Console, Line, MemConsole};
use std::alloc::Global;
use std::marker::{Brand, Send};
use std::test::Fail;

fn fault_of(alloc: Global, text: &[u8]) -> Option<PolicyFault> {
    match parse_policy(alloc, text) {
        Err(Or::Fault(fault)) => Some(fault),
        _ => None,
    }
}

#[test]
fn each_kind_of_fault_is_found_at_its_line(rt: HostRuntime) -> Result<(), Fail> {
    let alloc = rt.alloc();
    for (text, line, kind) in [
        (b"mvpolicy 2\n".as_slice(), 1, PolicyKind::Header),
        (
            b"mvpolicy 1\n\nallow  * halt".as_slice(),
            3,
            PolicyKind::Word,
        ),
        (b"mvpolicy 1\nuser * s1\n".as_slice(), 2, PolicyKind::Name),
        (
            b"mvpolicy 1\nuser ann s1\nuser ann s2\n".as_slice(),
            3,
            PolicyKind::Twice,
        ),
        (
            b"mvpolicy 1\ndeny bob halt\n".as_slice(),
            2,
            PolicyKind::Who,
        ),
    ] {
        assert_eq!(rt; fault_of(alloc, text), Some(PolicyFault { line, kind }));
    }
    let large = vec![in alloc; b'\n'; 65_537]?;
    assert_eq!(rt;
        fault_of(alloc, large.as_slice()),
        Some(PolicyFault {
            line: 1,
            kind: PolicyKind::Size
        })
    );
    let mut long = Vec::from_slice(alloc, b"mvpolicy 1\n")?;
    let ends = vec![in alloc; b'\n'; 999]?;
    long.extend_from_slice(ends.as_slice())?;
    assert!(rt; parse_policy(alloc, long.as_slice()).is_ok());
    long.push(b'\n')?;
    assert_eq!(rt;
        fault_of(alloc, long.as_slice()),
        Some(PolicyFault {
            line: 1_001,
            kind: PolicyKind::Many
        })
    );
    Ok(())
}

#[test]
fn the_first_rule_that_applies_decides(rt: HostRuntime) -> Result<(), Fail> {
    let alloc = rt.alloc();
    let none = parse_policy(alloc, b"mvpolicy 1\nuser ann s1\n")?;
    let some = parse_policy(
        alloc,
        b"mvpolicy 1\nuser ann s1\nuser bob k9\ndeny bob halt\nallow ann *\nallow * status",
    )?;
    for (line, says) in [
        (
            b"ann s1 halt".as_slice(),
            Decision::Allowed { from: 7, rule: 5 },
        ),
        (b"bob k9 halt".as_slice(), Decision::Denied { rule: 4 }),
        (b"bob k9 promote".as_slice(), Decision::Denied { rule: 0 }),
        (
            b"bob k9 status".as_slice(),
            Decision::Allowed { from: 7, rule: 6 },
        ),
        (b"bob s1 status".as_slice(), Decision::Denied { rule: 0 }),
        (b"ann s status".as_slice(), Decision::Denied { rule: 0 }),
        (b"ann s1".as_slice(), Decision::Denied { rule: 0 }),
    ] {
        assert_eq!(rt; decide(&none, line), Decision::Denied { rule: 0 });
        assert_eq!(rt; decide(&some, line), says);
    }
    Ok(())
}

fn text_of(line: Line) -> Option<Bytes> {
    match line {
        Line::Line(bytes) => Some(bytes),
        _ => None,
    }
}

/// A value that may go to another thread.
fn sent<T: Send>(value: T) -> T
    ensures { result ≡ value }
{
    value
}

/// What is handed on of three lines, and the console at the end.
fn ask<N: Ruled + Send>(
    alloc: Global,
    inner: MemConsole,
    policy: Policy,
) -> Result<(Option<Bytes>, Option<Bytes>, Option<Bytes>, MemConsole), Fail>
    requires coming { N.began.coming ≡ Some inner.state.coming }
    requires said { N.began.said ≡ Some inner.state.said }
    requires policy { N.policy ≡ policy }
{
    let mut console: PolicyConsole<MemConsole, N> = sent(PolicyConsole::new(alloc, inner, policy));
    let first = text_of(console.next(alloc));
    console.prepare(alloc, 5)?;
    let _ = console.say(b"told\n");
    let second = text_of(console.next(alloc));
    let third = text_of(console.next(alloc));
    Ok((first, second, third, console.inner()))
}

#[test]
fn a_denied_order_is_answered_and_not_handed_on(rt: HostRuntime) -> Result<(), Fail> {
    let alloc = rt.alloc();
    let policy = parse_policy(
        alloc,
        b"mvpolicy 1\nuser ann s1\ndeny ann halt\nallow ann *\n",
    )?;
    let mut lines = Vec::new(alloc);
    lines.push(Some(Bytes::from_slice(alloc, b"ann s1 status")?))?;
    lines.push(Some(Bytes::from_slice(alloc, b"ann s1 halt")?))?;
    lines.push(Some(Bytes::from_slice(alloc, b"ann s2 status")?))?;
    let inner = MemConsole::new(alloc, lines, Vec::new(alloc), Vec::new(alloc));
    let (first, second, third, inner) = ask::<Brand>(alloc, inner, policy)?;
    assert_eq!(rt; first.ok_or("an order")?.slice(), b"status".as_slice());
    assert!(rt; second.is_none());
    assert!(rt; third.is_none());
    assert_eq!(rt;
        inner.said(),
        b"told\n{\"no\":\"denied\",\"rule\":3}\n{\"no\":\"denied\",\"rule\":0}\n".as_slice()
    );
    Ok(())
}
