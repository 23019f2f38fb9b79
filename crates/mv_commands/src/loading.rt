//! The files of a guest and of its schedule.
ghost use Rattle.std.specs.Prelude.{◌≡◌, ◌≤◌, ◌∷◌, IfOk, Ok};
ghost use Rattle.mv_transform.specs.Births.{behaviour, started};
ghost use Rattle.mv_commands.specs.Loading.{IsLoaded, IsStarted, IsPlanned, IsPlannedOf};

use mv_calls::{Bytes, Or, OutOfMemory, Texts};
use mv_history::{Log, Start};
use mv_outside::{Files, Found};
use mv_rehearse::Beat;
use mv_schedule::{ScheduleFault, read_schedule};
use mv_syntax::BornFault;
use mv_transform::Guest;
use mv_version::Version;
use std::alloc::Global;

/// How many bytes a module's file, or a schedule's, has at most.
pub const FILE_LIMIT: usize = 16_777_216;

/// What the file of a guest is found to be.
#[derive(Drop)]
pub enum Loaded {
    /// It is missing, or reading it failed.
    NoFile,
    /// There was no memory for it.
    NoMemory,
    /// No guest starts of it.
    Refused(BornFault),
    /// A guest at the beginning of its run, and its log.
    Starts { guest: Guest, log: Log },
}

/// What the file of a schedule is found to be.
#[derive(Drop)]
pub enum Planned {
    /// It is missing, or reading it failed.
    NoFile,
    /// There was no memory for it.
    NoMemory,
    /// It isn't a schedule.
    Refused(ScheduleFault),
    /// Its beats, in order.
    Beats(Vec<Beat>),
}

/// Reads the module OLD, and starts a guest of it with the arguments OLD and these.
pub fn guest_at<F: Files>(alloc: Global, old: &Bytes, args: &Texts, files: &mut F) -> Loaded
    ensures loaded { IsLoaded (F.content files.old) old.now (old.now ∷ args.now) (F.faults files.old) (F.faults files.new) result }
    ensures same { F.content files.new ≡ F.content files.old }
    ensures later { F.faults files.old ≤ F.faults files.new }
{
    match files.read(alloc, old.slice(), FILE_LIMIT) {
        Found::Bytes(text) => guest_of(alloc, text, old, args),
        Found::Missing | Found::Failed => Loaded::NoFile,
        Found::Memory => Loaded::NoMemory,
    }
}

/// What a text is as a guest's module.
fn guest_of(alloc: Global, text: Bytes, old: &Bytes, args: &Texts) -> Loaded
    ensures { IsStarted text (old.now ∷ args.now) result }
{
    let Ok(all) = arguments(alloc, old, args) else {
        return Loaded::NoMemory;
    };
    match Guest::start(alloc, text.slice(), &all) {
        Ok(guest) => begun(alloc, guest, text, all),
        Err(Or::Fault(fault)) => Loaded::Refused(fault),
        Err(Or::OutOfMemory) => Loaded::NoMemory,
    }
}

/// A guest that was started, with the log of its run.
fn begun(alloc: Global, guest: Guest, text: Bytes, args: Texts) -> Loaded
    requires started { started text args ≡ Ok (behaviour.state guest) }
    ensures { IsStarted text args result }
{
    let start = Start { module: text, args };
    match Log::make(alloc, start) {
        Ok(log) => Loaded::Starts { guest, log },
        Err(_) => Loaded::NoMemory,
    }
}

/// The arguments of a guest: its module's path, and those behind it.
fn arguments(alloc: Global, old: &Bytes, args: &Texts) -> Result<Texts, OutOfMemory>
    ensures { IfOk result (λ all. all ≡ old.now ∷ args.now) }
{
    let mut all = Vec::with_capacity(alloc, 1)?;
    all.push(old.copy(alloc)?)?;
    for arg in args.slice() {
        all.push(arg.copy(alloc)?)?;
    }
    Ok(Texts::from_vec(all))
}

/// Reads the schedule of this path.
pub fn schedule_at<F: Files>(alloc: Global, path: &Bytes, files: &mut F) -> Planned
    ensures planned { IsPlanned (F.content files.old) path.now (F.faults files.old) (F.faults files.new) result }
    ensures same { F.content files.new ≡ F.content files.old }
    ensures later { F.faults files.old ≤ F.faults files.new }
{
    match files.read(alloc, path.slice(), FILE_LIMIT) {
        Found::Bytes(text) => schedule_in(alloc, text.slice()),
        Found::Missing | Found::Failed => Planned::NoFile,
        Found::Memory => Planned::NoMemory,
    }
}

/// What a text is as a schedule.
fn schedule_in(alloc: Global, text: &[u8]) -> Planned
    ensures { IsPlannedOf text.now result }
{
    match read_schedule(alloc, text) {
        Ok(beats) => Planned::Beats(beats),
        Err(Or::Fault(fault)) => Planned::Refused(fault),
        Err(Or::OutOfMemory) => Planned::NoMemory,
    }
}
