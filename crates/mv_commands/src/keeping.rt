//! The file of a run's log, written once the run is over.
ghost use Rattle.std.specs.Prelude.{◌≡◌, ◌≤◌};
ghost use Rattle.std.specs.List.{AllByRecursion};
ghost use Rattle.mv_history.specs.Ends.{EndsBy};
ghost use Rattle.mv_history.specs.declared.log.How.{How as hows};
ghost use Rattle.mv_record.specs.Fitting.{IsToldEntry};
ghost use Rattle.mv_commands.specs.Causes.{Keeps, seen_of};
ghost use Rattle.mv_commands.specs.Keeping.{SaysHow, IsWritten};

use crate::ending::Ending;
use crate::running::Came;
use mv_calls::{Bytes, Or};
use mv_history::{Entry, How, Log, Mark};
use mv_outside::{Console, Files, Kernel};
use mv_record::write_log;
use mv_rehearse::Outcome;
use std::alloc::Global;

/// How a log has ended.
pub fn how_of(log: &Log) -> How
    ensures { (h : hows) → EndsBy log.now.entries.list h → result ≡ h }
{
    match log.entries.slice().last() {
        Some(Entry::Mark(Mark::End { how })) => *how,
        _ => How::Memory,
    }
}

/// What became of the file of a log.
#[derive(Clone, Copy, PartialEq, Eq, Debug)]
pub enum Written {
    /// The file is the log's.
    Kept,
    /// Writing it failed.
    Failed,
    /// There was no memory for it, or the log has no file.
    NoMemory,
}

/// Writes a log to the file of this path.
fn write_to<F: Files>(alloc: Global, path: &Bytes, log: &Log, files: &mut F) -> Written
    requires told { AllByRecursion IsToldEntry log.now.entries.list }
    ensures written { IsWritten (F.content files.old) (F.faults files.old) path.now log.now (F.content files.new) (F.faults files.new) result }
    ensures later { F.faults files.old ≤ F.faults files.new }
{
    let Ok(text) = write_log(alloc, log) else {
        return Written::NoMemory;
    };
    match files.write(alloc, path.slice(), text.as_slice()) {
        Ok(()) => Written::Kept,
        Err(Or::Fault(_)) => Written::Failed,
        Err(Or::OutOfMemory) => Written::NoMemory,
    }
}

/// What a run comes to: its log is written to the file of this path, if there is one.
pub fn keep_log<K: Kernel, C: Console, F: Files>(
    alloc: Global,
    path: Option<Bytes>,
    outcome: Outcome<K, C, F>,
) -> Came<K, C, F>
    requires told { AllByRecursion IsToldEntry outcome.log.entries.list }
    ensures log { result.log ≡ outcome.log }
    ensures how { (h : hows) → EndsBy outcome.log.entries.list h → SaysHow h result.ending }
    ensures keeps { Keeps path (seen_of K.done K.faults C.coming C.said C.faults F.content F.faults outcome.kernel outcome.console outcome.files) outcome.log (seen_of K.done K.faults C.coming C.said C.faults F.content F.faults result.kernel result.console result.files) result.ending }
{
    let how = how_of(&outcome.log);
    let mut files = outcome.files;
    let ending = match path {
        None => Ending::Ran(how),
        Some(path) => match write_to(alloc, &path, &outcome.log, &mut files) {
            Written::Kept => Ending::Ran(how),
            Written::Failed => Ending::LogFailed { path, how },
            Written::NoMemory => Ending::LogNotMade(how),
        },
    };
    Came {
        ending,
        kernel: outcome.kernel,
        console: outcome.console,
        files,
        log: outcome.log,
    }
}
