//! Words inside the grammar and outside of it.

use super::*;
use mv_calls::Or;
use std::alloc::{AllocError, Global};
use std::test::Fail;

fn texts(alloc: Global, words: &[&str]) -> Result<Vec<String>, AllocError> {
    let mut all = Vec::new(alloc);
    for word in words {
        all.push(String::from_str(alloc, word)?)?;
    }
    Ok(all)
}

/// Whether the words are those of no command.
fn are_refused(alloc: Global, words: &[&str]) -> Result<bool, AllocError> {
    let words = texts(alloc, words)?;
    Ok(matches!(
        read_words(alloc, words.as_slice()),
        Err(Or::Fault(BadWords))
    ))
}

/// The capacity that the words of a rehearsal give, with how many arguments; 0 where they are another command's.
fn rehearsal(alloc: Global, words: &[&str]) -> Result<(u32, usize), Fail> {
    let words = texts(alloc, words)?;
    match read_words(alloc, words.as_slice())? {
        Command::Rehearse { args, ring, .. } => Ok((ring, args.slice().len())),
        _ => Ok((0, 0)),
    }
}

/// Whether the words are those of a rehearsal with a log at this path.
fn has_log(alloc: Global, words: &[String], path: &[u8]) -> Result<bool, Fail> {
    match read_words(alloc, words)? {
        Command::Rehearse { log, .. } => match log {
            Some(named) => Ok(named.slice() == path),
            None => Ok(false),
        },
        _ => Ok(false),
    }
}

/// How many files of updates the words of an audit give; 0 where they are another command's.
fn updates(alloc: Global, words: &[String]) -> Result<usize, Fail> {
    match read_words(alloc, words)? {
        Command::Audit { updates, .. } => Ok(updates.slice().len()),
        _ => Ok(0),
    }
}

/// The capacity that the words of a service give; 0 where they are another command's.
fn service(alloc: Global, words: &[&str]) -> Result<u32, Fail> {
    let words = texts(alloc, words)?;
    match read_words(alloc, words.as_slice())? {
        Command::Serve { ring, .. } => Ok(ring),
        _ => Ok(0),
    }
}

/// The word of the command that the words ask for, of some commands.
fn asked(alloc: Global, words: &[&str]) -> Result<&'static str, Fail> {
    let words = texts(alloc, words)?;
    match read_words(alloc, words.as_slice())? {
        Command::Show { .. } => Ok("show"),
        Command::Assemble { .. } => Ok("assemble"),
        Command::Help => Ok("--help"),
        _ => Ok(""),
    }
}

/// How many connections the words of a load give; 0 where they are another command's.
fn connections(alloc: Global, words: &[&str]) -> Result<u32, Fail> {
    let words = texts(alloc, words)?;
    match read_words(alloc, words.as_slice())? {
        Command::Load { connections } => Ok(connections),
        _ => Ok(0),
    }
}

#[test]
fn rehearsals(rt: HostRuntime) -> Result<(), Fail> {
    let alloc = rt.alloc();
    assert_eq!(rt; rehearsal(alloc, &["rehearse", "old", "plan"])?, (256, 0));
    assert_eq!(rt;
        rehearsal(alloc, &["rehearse", "old", "--ring", "8", "plan", "a", "b"])?,
        (8, 2)
    );
    assert_eq!(rt;
        rehearsal(alloc, &["rehearse", "old", "plan", "--ring=04096"])?,
        (4_096, 0)
    );
    assert_eq!(rt;
        rehearsal(alloc, &["rehearse", "--", "-", "--ring", "-"])?,
        (256, 1)
    );
    Ok(())
}

#[test]
fn a_log_and_two_addresses(rt: HostRuntime) -> Result<(), Fail> {
    let alloc = rt.alloc();
    let words = texts(
        alloc,
        &[
            "rehearse",
            "old",
            "plan",
            "--log=kept",
            "--listen",
            "a:1",
            "--console=b:2",
        ],
    )?;
    assert!(rt; has_log(alloc, words.as_slice(), b"kept".as_slice())?);
    let addresses = places(alloc, words.as_slice())?;
    assert_eq!(rt; addresses.listen.slice(), b"a:1".as_slice());
    assert_eq!(rt; addresses.console.slice(), b"b:2".as_slice());
    Ok(())
}

#[test]
fn an_audit(rt: HostRuntime) -> Result<(), Fail> {
    let alloc = rt.alloc();
    let words = texts(alloc, &["audit", "log", "old", "new", "none", "rev"])?;
    assert_eq!(rt; updates(alloc, words.as_slice())?, 3);
    assert_eq!(rt;
        places(alloc, words.as_slice())?.console.slice(),
        b"127.0.0.1:7071".as_slice()
    );
    Ok(())
}

#[test]
fn other_commands(rt: HostRuntime) -> Result<(), Fail> {
    let alloc = rt.alloc();
    assert_eq!(rt; service(alloc, &["serve", "old", "a", "--ring=4"])?, 4);
    assert_eq!(rt; asked(alloc, &["show", "log"])?, "show");
    assert_eq!(rt; asked(alloc, &["assemble", "text", "out"])?, "assemble");
    assert_eq!(rt; asked(alloc, &["check", "--help"])?, "--help");
    Ok(())
}

#[test]
fn loads(rt: HostRuntime) -> Result<(), Fail> {
    let alloc = rt.alloc();
    assert_eq!(rt; connections(alloc, &["load", "1"])?, 1);
    assert_eq!(rt; connections(alloc, &["load", "00012"])?, 12);
    assert_eq!(rt; connections(alloc, &["load", "10000"])?, 10_000);
    Ok(())
}

#[test]
fn words_outside_the_grammar(rt: HostRuntime) -> Result<(), Fail> {
    let rows: [&[&str]; 22] = [
        &[],
        &["jump"],
        &["run"],
        &["run", "old", "-"],
        &["run", "old", "-x"],
        &["run", "old", ""],
        &["run", "old", "--ring", "8"],
        &["serve"],
        &["check", "old", "more"],
        &["rehearse", "old", "plan", "--ring=4", "--ring=4"],
        &["rehearse", "old", "plan", "--ring", "3"],
        &["rehearse", "old", "plan", "--ring", "000004"],
        &["rehearse", "old", "plan", "--help"],
        &["run", "old", "--log", "kept"],
        &["serve", "old", "--listen=a:1", "--listen=a:1"],
        &["audit", "log", "old", "new", "none"],
        &["show", "log", "--console=b:2"],
        &["assemble", "text"],
        &["load", "0"],
        &["load", "10001"],
        &["load", "000001"],
        &["load", "1", "--ring", "8"],
    ];
    for words in rows {
        assert!(rt; are_refused(rt.alloc(), words)?);
    }
    Ok(())
}
