//! Writing a log file.
ghost use Rattle.std.specs.Prelude.{◌≡◌, ◌++◌, OnOk, IfOk};
ghost use Rattle.std.specs.List.{flat_map, AllByRecursion};
ghost use Rattle.mv_record.specs.Spelling.{entry_text, file_text};
ghost use Rattle.mv_record.specs.Fitting.{FitsEntry, FitsFile, IsToldEntry};

use crate::putting::put_texts;
use crate::writing_bodies::put_entry;
use mv_calls::OutOfMemory;
use mv_history::{Entry, Log};
use std::alloc::Global;

fn put_entries(alloc: Global, out: &mut Vec<u8>, entries: &[Entry]) -> Result<(), OutOfMemory>
    requires told { AllByRecursion IsToldEntry entries.now }
    ensures fits { OnOk result (AllByRecursion FitsEntry entries.now) }
    ensures text { OnOk result (out.new.items ≡ out.old.items ++ flat_map entry_text entries.now) }
{
    for entry in entries {
        put_entry(alloc, out, entry)?;
    }
    Ok(())
}

/// The file of a log, of which each Mismatch tells another call or an end. The module that it starts with and the files of
/// its updates don't stand in it. The one error is want of memory; it is also the answer where a length, or a count, doesn't
/// fit the u32 that it is written as, so that the log has no file.
pub fn write_log(alloc: Global, log: &Log) -> Result<Vec<u8>, OutOfMemory>
    requires told { AllByRecursion IsToldEntry log.now.entries.list }
    ensures text { IfOk result (λ v. v.items ≡ file_text log.now.start.args log.now.entries.list) }
    ensures fits { OnOk result (FitsFile log.now.start.args log.now.entries.list) }
{
    let mut out = Vec::new(alloc);
    out.extend_from_slice(b"MVLOG001")?;
    put_texts(&mut out, log.start.args.slice())?;
    put_entries(alloc, &mut out, log.entries.slice())?;
    Ok(out)
}
