//! The audit of a log file over a module and the files of updates.
ghost use Rattle.std.specs.Prelude.{◌≡◌, ◌≤◌, List, ℕ};
ghost use Rattle.mv_transform.specs.Births.{behaviour};
ghost use Rattle.mv_inspect.specs.Logs.{HasRecord};
ghost use Rattle.mv_inspect.specs.Audits.{AreInThrees, IsInspected};
ghost use Rattle.mv_inspect.specs.Steps.{answer_to as spec_answer_to, HasGuest, IsAuditOf, IsBegun, IsBegunOf};

use crate::listing::{Listed, log_at};
use crate::naming::{MODULE_CAP, Unread, no_file, updates_at};
use mv_audit::first_illegal;
use mv_calls::{Bytes, Or, Texts};
use mv_history::{Entries, Updates};
use mv_outside::{Files, Found};
use mv_record::RecordFault;
use mv_syntax::BornFault;
use mv_transform::Guest;
use mv_version::Version;
use std::alloc::Global;

/// What an audit answers.
#[derive(Drop)]
pub enum Inspected {
    /// The file of this path is missing, or reading it failed.
    NoFile { path: Bytes },
    /// Memory was wanted.
    NoMemory,
    /// The log file isn't that of a log, and this is its first fault.
    BadLog(RecordFault),
    /// No guest with the log's arguments starts of the module.
    BadModule(BornFault),
    /// Each entry may come where it comes.
    Legal,
    /// The entry of this number, from 0, is the first that may not come.
    Illegal { entry: u64 },
}

/// What the module of a run is found to be.
#[derive(Drop)]
enum Begun {
    /// It is missing, or reading it failed.
    NoFile,
    /// There was no memory for it.
    NoMemory,
    /// No guest starts of it.
    Refused(BornFault),
    /// A guest at the beginning of its run.
    Starts(Guest),
}

/// Audits the log file LOG of a run that began with the module OLD. The files of its updates are named in threes: module,
/// forward rules, reverse rules; the word `none` stands for no rules. The files are read in this order, the log and the module
/// judged as they are read, and the first that is missing or no good is answered.
pub fn audit_at<F: Files>(
    alloc: Global,
    log: &Bytes,
    old: &Bytes,
    updates: &Texts,
    files: &mut F,
) -> Inspected
    requires { AreInThrees updates.now }
    ensures inspected { IsInspected (F.content files.old) log.now old.now updates.now (F.faults files.old) (F.faults files.new) result }
    ensures same { F.content files.new ≡ F.content files.old }
    ensures later { F.faults files.old ≤ F.faults files.new }
{
    match log_at(alloc, log, files) {
        Listed::NoFile => answer_to(no_file(alloc, log)),
        Listed::NoMemory => Inspected::NoMemory,
        Listed::Refused(fault) => Inspected::BadLog(fault),
        Listed::Log { args, entries } => audit_log(alloc, &args, &entries, old, updates, files),
    }
}

/// What is answered where the files aren't all read.
fn answer_to(why: Unread) -> Inspected
    ensures { result ≡ spec_answer_to why }
{
    match why {
        Unread::NoFile(path) => Inspected::NoFile { path },
        Unread::NoMemory => Inspected::NoMemory,
    }
}

/// Audits a log that was read.
fn audit_log<F: Files>(
    alloc: Global,
    args: &Texts,
    entries: &Entries,
    old: &Bytes,
    updates: &Texts,
    files: &mut F,
) -> Inspected
    requires { AreInThrees updates.now }
    ensures inspected { (log : List ℕ) → HasRecord (F.content files.old) log args.now entries.now.list
        → IsInspected (F.content files.old) log old.now updates.now (F.faults files.old) (F.faults files.new) result }
    ensures same { F.content files.new ≡ F.content files.old }
    ensures later { F.faults files.old ≤ F.faults files.new }
{
    match guest_at(alloc, old, args, files) {
        Begun::NoFile => answer_to(no_file(alloc, old)),
        Begun::NoMemory => Inspected::NoMemory,
        Begun::Refused(fault) => Inspected::BadModule(fault),
        Begun::Starts(guest) => audit_run(alloc, guest, entries, updates, files),
    }
}

/// Reads the module of this path, and starts a guest of it.
fn guest_at<F: Files>(alloc: Global, path: &Bytes, args: &Texts, files: &mut F) -> Begun
    ensures begun { IsBegun (F.content files.old) path.now args.now (F.faults files.old) (F.faults files.new) result }
    ensures same { F.content files.new ≡ F.content files.old }
    ensures later { F.faults files.old ≤ F.faults files.new }
{
    match files.read(alloc, path.slice(), MODULE_CAP) {
        Found::Bytes(text) => guest_of(alloc, text.slice(), args),
        Found::Missing | Found::Failed => Begun::NoFile,
        Found::Memory => Begun::NoMemory,
    }
}

/// What a text is as a guest's module.
fn guest_of(alloc: Global, text: &[u8], args: &Texts) -> Begun
    ensures { IsBegunOf text.now args.now result }
{
    match Guest::start(alloc, text, args) {
        Ok(guest) => Begun::Starts(guest),
        Err(Or::Fault(fault)) => Begun::Refused(fault),
        Err(Or::OutOfMemory) => Begun::NoMemory,
    }
}

/// Reads the files of the updates, and audits the entries of a run that began with this guest.
fn audit_run<F: Files>(
    alloc: Global,
    guest: Guest,
    entries: &Entries,
    updates: &Texts,
    files: &mut F,
) -> Inspected
    requires { AreInThrees updates.now }
    ensures inspected { (log old : List ℕ) (args : List (List ℕ)) → HasRecord (F.content files.old) log args entries.now.list
        → HasGuest (F.content files.old) old args (behaviour.state guest)
        → IsInspected (F.content files.old) log old updates.now (F.faults files.old) (F.faults files.new) result }
    ensures same { F.content files.new ≡ F.content files.old }
    ensures later { F.faults files.old ≤ F.faults files.new }
{
    match updates_at(alloc, updates.slice(), files) {
        Ok(updates) => audit_entries(alloc, guest, &updates, entries),
        Err(why) => answer_to(why),
    }
}

/// Audits the entries of a run that began with this guest and had these updates.
fn audit_entries(alloc: Global, guest: Guest, updates: &Updates, entries: &Entries) -> Inspected
    ensures { IsAuditOf updates.now.list (behaviour.state guest) entries.now.list result }
{
    match first_illegal(alloc, guest, updates, entries.slice()) {
        Ok(None) => Inspected::Legal,
        Ok(Some(entry)) => Inspected::Illegal { entry },
        Err(_) => Inspected::NoMemory,
    }
}
