//! The file of a log.
ghost use Rattle.std.specs.Prelude.{◌≡◌, ◌≤◌};
ghost use Rattle.mv_inspect.specs.Logs.{IsListed};
ghost use Rattle.mv_inspect.specs.Steps.{IsListedOf};

use mv_calls::{Bytes, Or, Texts};
use mv_history::Entries;
use mv_outside::{Files, Found};
use mv_record::{RecordFault, read_log};
use std::alloc::Global;

/// The most bytes of a log file. One more is read of a longer one, which is then refused.
const LOG_CAP: usize = 536_870_912;

/// What the file of a log is found to be.
#[derive(Drop)]
pub enum Listed {
    /// It is missing, or reading it failed.
    NoFile,
    /// There was no memory for it.
    NoMemory,
    /// It isn't the file of a log, and this is its first fault.
    Refused(RecordFault),
    /// The arguments that the run began with, and its entries.
    Log { args: Texts, entries: Entries },
}

/// Reads the log file of this path (docs/FORMATS.md, "Log file").
pub fn log_at<F: Files>(alloc: Global, path: &Bytes, files: &mut F) -> Listed
    ensures listed { IsListed (F.content files.old) path.now (F.faults files.old) (F.faults files.new) result }
    ensures same { F.content files.new ≡ F.content files.old }
    ensures later { F.faults files.old ≤ F.faults files.new }
{
    match files.read(alloc, path.slice(), LOG_CAP) {
        Found::Bytes(text) => log_in(alloc, text.slice()),
        Found::Missing | Found::Failed => Listed::NoFile,
        Found::Memory => Listed::NoMemory,
    }
}

/// What a text is as the file of a log.
fn log_in(alloc: Global, text: &[u8]) -> Listed
    ensures { IsListedOf text.now result }
{
    match read_log(alloc, text) {
        Ok((args, entries)) => Listed::Log { args, entries },
        Err(Or::Fault(fault)) => Listed::Refused(fault),
        Err(Or::OutOfMemory) => Listed::NoMemory,
    }
}
