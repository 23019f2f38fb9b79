//! What each command does, up to the line that it prints.
ghost use Rattle.std.specs.Prelude.{◌≡◌, ◌≤◌, [], IsTrue, false};
ghost use Rattle.mv_core.specs.Found.{AreFilesKept};
ghost use Rattle.mv_core.specs.Sound.{IsNewRun};
ghost use Rattle.mv_rehearse.specs.Runs.{DidCalls, HasEnded, IsLegalRun, OrdersAnswered, began_with};
ghost use Rattle.mv_load.specs.Loads.{IsRehearsal};
ghost use Rattle.mv_words.specs.declared.command.Command.TheVariants as ask;
ghost use Rattle.mv_commands.specs.Causes.{CauseOf, IsFeasible, IsOnOneThread, seen_of};
ghost use Rattle.mv_commands.specs.Loading.{audit_ending_by, ending_by, show_ending_by};

use crate::assembling::assemble_asked;
use crate::ending::{Ending, Finding};
use crate::judging::{Judged, module_at, rules_at};
use crate::keeping::{how_of, keep_log};
use crate::loading::{Loaded, Planned, guest_at, schedule_at};
use crate::loads::load_asked;
use mv_calls::{Bytes, Texts};
use mv_history::Log;
use mv_host::serve;
use mv_inspect::{Inspected, Listed, audit_at, log_at};
use mv_outside::{Console, Files, Gate, Kernel};
use mv_rehearse::{Beat, Outcome, alone, rehearse};
use mv_transform::Guest;
use mv_version::Version;
use mv_words::Command;
use std::alloc::Global;
use std::sync::Wait;
use std::thread::Threads;

/// What a command came to, with the objects that it was given.
#[derive(Drop)]
pub struct Came<K, C, F> {
    pub ending: Ending,
    pub kernel: K,
    pub console: C,
    pub files: F,
    pub log: Log,
}

/// No guest ran: kernel, console and files are as they were.
pub fn not_run<K: Kernel, C: Console, F: Files>(
    alloc: Global,
    ending: Ending,
    kernel: K,
    console: C,
    files: F,
) -> Came<K, C, F>
    ensures ending { result.ending ≡ ending }
    ensures same { (result.kernel ≡ kernel) × (result.console ≡ console) × (result.files ≡ files) }
    ensures log { (result.log.entries.list ≡ []) × (result.log.updates.list ≡ []) × (result.log.start.«module» ≡ []) × (result.log.start.args ≡ []) }
{
    Came {
        ending,
        kernel,
        console,
        files,
        log: Log::empty(alloc),
    }
}

/// `run OLD [ARG ..]`: runs a guest to its end, and asks nobody for orders.
fn run_asked<K: Kernel, C: Console, F: Files>(
    alloc: Global,
    old: Bytes,
    args: &Texts,
    kernel: K,
    console: C,
    mut files: F,
) -> Came<K, C, F>
    ensures { CauseOf (ask.Run old args.now) (seen_of K.done K.faults C.coming C.said C.faults F.content F.faults kernel console files) (seen_of K.done K.faults C.coming C.said C.faults F.content F.faults result.kernel result.console result.files) result.log result.ending }
{
    match guest_at(alloc, &old, args, &mut files) {
        Loaded::NoFile => not_run(alloc, Ending::NoFile { path: old }, kernel, console, files),
        Loaded::NoMemory => not_run(alloc, Ending::NoMemory, kernel, console, files),
        Loaded::Refused(fault) => {
            let finding = Finding::Refused(fault);
            let ending = Ending::Found { path: old, finding };
            not_run(alloc, ending, kernel, console, files)
        }
        Loaded::Starts { guest, log } => {
            let outcome = alone::<Guest, K, C, F>(alloc, guest, log, kernel, console, files);
            let how = how_of(&outcome.log);
            Came {
                ending: Ending::Ran(how),
                kernel: outcome.kernel,
                console: outcome.console,
                files: outcome.files,
                log: outcome.log,
            }
        }
    }
}

/// Rehearses the beats of a schedule, with any version.
fn by_beats<V: Version, K: Kernel, C: Console, F: Files>(
    alloc: Global,
    guest: V,
    log: Log,
    kernel: K,
    console: C,
    files: F,
    capacity: usize,
    beats: &[Beat],
) -> Outcome<K, C, F>
    requires new_run { IsNewRun V.behaviour guest log }
    requires capacity { (4 ≤ capacity) × (capacity ≤ 4096) }
    ensures beats { IsRehearsal V.behaviour (began_with K.done K.faults C.coming C.said C.faults F.content F.faults log kernel console files) capacity beats.now result.log }
    ensures legal { IsLegalRun V.behaviour (began_with K.done K.faults C.coming C.said C.faults F.content F.faults log kernel console files) result.log }
    ensures done { DidCalls (began_with K.done K.faults C.coming C.said C.faults F.content F.faults log kernel console files) result.log.entries.list (K.done result.kernel) (K.faults result.kernel) }
    ensures orders { OrdersAnswered (began_with K.done K.faults C.coming C.said C.faults F.content F.faults log kernel console files) result.log.entries.list (C.coming result.console) (C.said result.console) (C.faults result.console) }
    ensures files { AreFilesKept (F.content files) (F.faults files) result.log.entries.list result.log.updates.list (F.content result.files) (F.faults result.files) }
    ensures ended { HasEnded result.log.entries.list result.status }
{
    rehearse::<V, K, C, F>(alloc, guest, log, kernel, console, files, capacity, beats)
}

/// `rehearse OLD SCHEDULE [ARG ..] [--ring N] [--log PATH]`: runs a guest by the beats of a schedule, and asks the operator for orders.
fn rehearse_asked<K: Kernel, C: Console, F: Files>(
    alloc: Global,
    old: Bytes,
    schedule: Bytes,
    args: &Texts,
    ring: u32,
    log: Option<Bytes>,
    kernel: K,
    console: C,
    mut files: F,
) -> Came<K, C, F>
    requires ring { (4 ≤ ring) × (ring ≤ 4096) }
    ensures { CauseOf (ask.Rehearse old schedule args.now ring log) (seen_of K.done K.faults C.coming C.said C.faults F.content F.faults kernel console files) (seen_of K.done K.faults C.coming C.said C.faults F.content F.faults result.kernel result.console result.files) result.log result.ending }
{
    let (guest, first) = match guest_at(alloc, &old, args, &mut files) {
        Loaded::NoFile => {
            return not_run(alloc, Ending::NoFile { path: old }, kernel, console, files);
        }
        Loaded::NoMemory => return not_run(alloc, Ending::NoMemory, kernel, console, files),
        Loaded::Refused(fault) => {
            let finding = Finding::Refused(fault);
            let ending = Ending::Found { path: old, finding };
            return not_run(alloc, ending, kernel, console, files);
        }
        Loaded::Starts { guest, log: first } => (guest, first),
    };
    match schedule_at(alloc, &schedule, &mut files) {
        Planned::NoFile => {
            not_run(
                alloc,
                Ending::NoFile { path: schedule },
                kernel,
                console,
                files,
            )
        }
        Planned::NoMemory => not_run(alloc, Ending::NoMemory, kernel, console, files),
        Planned::Refused(fault) => {
            let finding = Finding::BadSchedule(fault);
            let ending = Ending::Found {
                path: schedule,
                finding,
            };
            not_run(alloc, ending, kernel, console, files)
        }
        Planned::Beats(beats) => {
            let capacity = ring as usize;
            let outcome = by_beats::<Guest, K, C, F>(
                alloc,
                guest,
                first,
                kernel,
                console,
                files,
                capacity,
                beats.as_slice(),
            );
            keep_log(alloc, log, outcome)
        }
    }
}

/// `serve OLD [ARG ..] [--ring N] [--log PATH]`: runs a guest on two threads to its end, and asks the operator for orders.
pub fn serve_asked<
    R: Threads + Wait + Sync,
    K: Kernel + Send,
    C: Console + Send,
    F: Files + Send,
    G: Gate + Sync,
>(
    rt: &R,
    alloc: Global,
    old: Bytes,
    args: &Texts,
    ring: u32,
    log: Option<Bytes>,
    kernel: K,
    console: C,
    mut files: F,
    gate: &G,
) -> Came<K, C, F>
    requires ring { (4 ≤ ring) × (ring ≤ 4096) }
    ensures { CauseOf (ask.Serve old args.now ring log) (seen_of K.done K.faults C.coming C.said C.faults F.content F.faults kernel console files) (seen_of K.done K.faults C.coming C.said C.faults F.content F.faults result.kernel result.console result.files) result.log result.ending }
{
    match guest_at(alloc, &old, args, &mut files) {
        Loaded::NoFile => not_run(alloc, Ending::NoFile { path: old }, kernel, console, files),
        Loaded::NoMemory => not_run(alloc, Ending::NoMemory, kernel, console, files),
        Loaded::Refused(fault) => {
            let finding = Finding::Refused(fault);
            let ending = Ending::Found { path: old, finding };
            not_run(alloc, ending, kernel, console, files)
        }
        Loaded::Starts { guest, log: first } => {
            let capacity = ring as usize;
            let outcome = serve::<R, Guest, K, C, F, G>(
                rt, alloc, guest, first, kernel, console, files, capacity, gate,
            );
            keep_log(alloc, log, outcome)
        }
    }
}

/// What a file was found to be.
fn ending_of(path: Bytes, judged: Judged) -> Ending
    ensures { result ≡ ending_by path judged }
{
    match judged {
        Judged::NoFile => Ending::NoFile { path },
        Judged::NoMemory => Ending::NoMemory,
        Judged::Found(finding) => Ending::Found { path, finding },
    }
}

/// What an audit comes to.
fn audit_ending(log: Bytes, old: Bytes, inspected: Inspected) -> Ending
    ensures { result ≡ audit_ending_by log old inspected }
{
    match inspected {
        Inspected::NoFile { path } => Ending::NoFile { path },
        Inspected::NoMemory => Ending::NoMemory,
        Inspected::BadLog(fault) => Ending::Found {
            path: log,
            finding: Finding::BadLog(fault),
        },
        Inspected::BadModule(fault) => Ending::Found {
            path: old,
            finding: Finding::Refused(fault),
        },
        Inspected::Legal => Ending::Audited { illegal: None },
        Inspected::Illegal { entry } => Ending::Audited {
            illegal: Some(entry),
        },
    }
}

/// What a log that is to be shown comes to.
fn show_ending(log: Bytes, listed: Listed) -> Ending
    ensures { result ≡ show_ending_by log listed }
{
    match listed {
        Listed::NoFile => Ending::NoFile { path: log },
        Listed::NoMemory => Ending::NoMemory,
        Listed::Refused(fault) => Ending::Found {
            path: log,
            finding: Finding::BadLog(fault),
        },
        Listed::Log { entries, .. } => Ending::Shown { entries },
    }
}

/// Whether a command starts threads.
pub fn is_service(command: &Command) -> bool
    ensures yes { IsTrue result → IsOnOneThread command.now → ⊥ }
    ensures no { result ≡ false → IsOnOneThread command.now }
{
    matches!(command, Command::Serve { .. })
}

/// Does what a command line asks for, on one thread.
pub fn did<K: Kernel, C: Console, F: Files>(
    alloc: Global,
    command: Command,
    kernel: K,
    console: C,
    mut files: F,
) -> Came<K, C, F>
    requires feasible { IsFeasible command }
    requires one_thread { IsOnOneThread command }
    ensures { CauseOf command (seen_of K.done K.faults C.coming C.said C.faults F.content F.faults kernel console files) (seen_of K.done K.faults C.coming C.said C.faults F.content F.faults result.kernel result.console result.files) result.log result.ending }
{
    match command {
        Command::Run { old, args } => run_asked(alloc, old, &args, kernel, console, files),
        Command::Rehearse {
            old,
            schedule,
            args,
            ring,
            log,
        } => rehearse_asked(
            alloc, old, schedule, &args, ring, log, kernel, console, files,
        ),
        Command::Serve { .. } => unreachable!(),
        Command::Check { path } => {
            let judged = module_at(alloc, &path, &mut files);
            not_run(alloc, ending_of(path, judged), kernel, console, files)
        }
        Command::Rules { forward } => {
            let judged = rules_at(alloc, &forward, &mut files);
            not_run(alloc, ending_of(forward, judged), kernel, console, files)
        }
        Command::Audit { log, old, updates } => {
            let inspected = audit_at(alloc, &log, &old, &updates, &mut files);
            not_run(
                alloc,
                audit_ending(log, old, inspected),
                kernel,
                console,
                files,
            )
        }
        Command::Assemble { text, to } => {
            assemble_asked(alloc, text, to, kernel, console, files)
        }
        Command::Load { connections } => load_asked(alloc, connections, kernel, console, files),
        Command::Show { log } => {
            let listed = log_at(alloc, &log, &mut files);
            not_run(alloc, show_ending(log, listed), kernel, console, files)
        }
        Command::Help | Command::Version => { not_run(alloc, Ending::Told, kernel, console, files) }
    }
}

/// Does what a command line asks for.
pub fn did_any<
    R: Threads + Wait + Sync,
    K: Kernel + Send,
    C: Console + Send,
    F: Files + Send,
    G: Gate + Sync,
>(
    rt: &R,
    alloc: Global,
    command: Command,
    kernel: K,
    console: C,
    files: F,
    gate: &G,
) -> Came<K, C, F>
    requires { IsFeasible command }
    ensures { CauseOf command (seen_of K.done K.faults C.coming C.said C.faults F.content F.faults kernel console files) (seen_of K.done K.faults C.coming C.said C.faults F.content F.faults result.kernel result.console result.files) result.log result.ending }
{
    match command {
        Command::Serve {
            old,
            args,
            ring,
            log,
        } => serve_asked(
            rt, alloc, old, &args, ring, log, kernel, console, files, gate,
        ),
        other => did(alloc, other, kernel, console, files),
    }
}
