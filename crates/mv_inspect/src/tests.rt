//! Log files over a guest that ends at once, and files in memory.
ghost use Rattle.std.specs.Prelude.{IfOk};
ghost use Rattle.mv_inspect.specs.Audits.{AreInThrees};

use super::*;
use mv_calls::{Bytes, OutOfMemory, Texts};
use mv_outside::{FileAt, MemFiles, paths_differ};
use mv_record::{RecordFault, RecordKind};
use mv_syntax::{BornFault, ReadFault, ReadKind};
use std::alloc::Global;
use std::process::Abort;
use std::test::Fail;

/// A module whose `_start` ends at once.
const ENDS: &[u8; 36] = b"\0asm\x01\0\0\0\
\x01\x04\x01\x60\0\0\x03\x02\x01\0\x07\x0a\x01\x06_start\0\0\x0a\x04\x01\x02\0\x0b";

/// A point, and the end that an operator ordered.
const HALTED: &[u8; 24] = b"MVLOG001\0\0\0\0\x01\0\0\0\x01\x03\0\0\0\x03\x09\x02";

/// The end of the guest with 0, and a point.
const PASSES: &[u8; 28] = b"MVLOG001\0\0\0\0\x07\0\0\0\x03\x09\0\0\0\0\0\x01\0\0\0\x01";

/// An order of an update to the module `new` without rules, which is accepted, and the end of the guest with 0.
const UPDATES: &[u8; 58] = b"MVLOG001\0\0\0\0\
\x1f\0\0\0\x02\x14\0\0\0update new none none\0\0\x01\0\0\0\x07\0\0\0\x03\x09\0\0\0\0\0";

fn file(alloc: Global, path: &[u8], bytes: &[u8]) -> Result<FileAt, OutOfMemory> {
    Ok(FileAt {
        path: Bytes::from_slice(alloc, path)?,
        bytes: Bytes::from_slice(alloc, bytes)?,
    })
}

/// These files, one of a log and one of a module.
fn files(rt: &impl Abort, alloc: Global, log: &[u8], old: &[u8]) -> Result<MemFiles, Fail> {
    let mut all = Vec::new(alloc);
    all.push(file(alloc, b"log", log)?)?;
    all.push(file(alloc, b"old", old)?)?;
    assert!(rt; paths_differ(all.as_slice()));
    Ok(MemFiles::new(all, Vec::new(alloc), Vec::new(alloc)))
}

/// One update to a module, without rules.
fn update_to(alloc: Global, module: &[u8]) -> Result<Texts, OutOfMemory>
    ensures { IfOk result AreInThrees }
{
    let mut names = Vec::new(alloc);
    names.push(Bytes::from_slice(alloc, module)?)?;
    names.push(Bytes::from_slice(alloc, b"none")?)?;
    names.push(Bytes::from_slice(alloc, b"none")?)?;
    Ok(Texts::from_vec(names))
}

/// What an audit over the two files answers where no update is named.
fn alone(rt: &impl Abort, alloc: Global, log: &[u8], old: &[u8]) -> Result<Inspected, Fail> {
    let mut files = files(rt, alloc, log, old)?;
    let (log, old) = (
        Bytes::from_slice(alloc, b"log")?,
        Bytes::from_slice(alloc, b"old")?,
    );
    let names = Texts::from_vec(Vec::new(alloc));
    Ok(audit_at(alloc, &log, &old, &names, &mut files))
}

/// What an audit of the update's log answers where its module is named so.
fn updated(rt: &impl Abort, alloc: Global, log: &[u8], module: &[u8]) -> Result<Inspected, Fail> {
    let mut files = files(rt, alloc, UPDATES, ENDS)?;
    let (log, old) = (
        Bytes::from_slice(alloc, log)?,
        Bytes::from_slice(alloc, b"old")?,
    );
    let names = update_to(alloc, module)?;
    Ok(audit_at(alloc, &log, &old, &names, &mut files))
}

/// The path of the file that isn't there.
fn missing(found: Inspected) -> Option<Bytes> {
    match found {
        Inspected::NoFile { path } => Some(path),
        _ => None,
    }
}

#[test]
fn a_log_is_listed(rt: HostRuntime) -> Result<(), Fail> {
    let alloc = rt.alloc();
    let mut files = files(&rt, alloc, HALTED, ENDS)?;
    let (log, none) = (
        Bytes::from_slice(alloc, b"log")?,
        Bytes::from_slice(alloc, b"no")?,
    );
    match log_at(alloc, &log, &mut files) {
        Listed::Log { args, entries } => {
            assert!(rt; args.slice().is_empty() && entries.slice().len() == 2);
        }
        _ => assert!(rt; false),
    }
    assert!(rt; matches!(log_at(alloc, &none, &mut files), Listed::NoFile));
    Ok(())
}

#[test]
fn logs_are_audited(rt: HostRuntime) -> Result<(), Fail> {
    let alloc = rt.alloc();
    let ends = &PASSES[..23];
    assert!(rt; matches!(alone(&rt, alloc, ends, ENDS)?, Inspected::Legal));
    let passes = alone(&rt, alloc, PASSES, ENDS)?;
    assert!(rt; matches!(passes, Inspected::Illegal { entry: 1 }));
    let cut = RecordFault {
        place: 22,
        kind: RecordKind::Cut,
    };
    let found = alone(&rt, alloc, &PASSES[..22], ENDS)?;
    assert!(rt; matches!(found, Inspected::BadLog(fault) if fault == cut));
    let read = ReadFault {
        place: 7,
        kind: ReadKind::Cut,
    };
    let found = alone(&rt, alloc, ends, &ENDS[..7])?;
    assert!(rt; matches!(found, Inspected::BadModule(fault) if fault == BornFault::Read(read)));
    Ok(())
}

#[test]
fn the_files_of_updates_are_read(rt: HostRuntime) -> Result<(), Fail> {
    let alloc = rt.alloc();
    assert!(rt; matches!(updated(&rt, alloc, b"log", b"old")?, Inspected::Legal));
    let found = alone(&rt, alloc, UPDATES, ENDS)?;
    assert!(rt; matches!(found, Inspected::Illegal { entry: 0 }));
    let new = missing(updated(&rt, alloc, b"log", b"new")?).ok_or("a path")?;
    assert!(rt; new.slice() == b"new".as_slice());
    let log = missing(updated(&rt, alloc, b"gone", b"new")?).ok_or("a path")?;
    assert!(rt; log.slice() == b"gone".as_slice());
    Ok(())
}
