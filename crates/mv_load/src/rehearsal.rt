//! The rehearsal of a load.
ghost use Rattle.std.specs.Prelude.{◌≡◌, ◌≤◌, IfOk, Ok, Err};
ghost use Rattle.mv_calls.specs.Or.{IfFault};
ghost use Rattle.mv_core.specs.Found.{AreFilesKept};
ghost use Rattle.mv_core.specs.Sound.{IsNewRun};
ghost use Rattle.mv_kernmem.specs.Kernels.{Begins};
ghost use Rattle.mv_rehearse.specs.Runs.{DidCalls, HasEnded, IsLegalRun, OrdersAnswered, began_with};
ghost use Rattle.mv_schedule.specs.Schedules.{schedule_of};
ghost use Rattle.mv_transform.specs.Births.{started};
ghost use Rattle.mv_load.specs.Connections.{load_script as script_of_load};
ghost use Rattle.mv_load.specs.Files.{guest_file as file_of_guest};
ghost use Rattle.mv_load.specs.Loads.{IsLoad, IsLoadOf, IsRehearsal, IsRunOf, load_args};
ghost use Rattle.mv_load.specs.Schedule.{load_beats as beats_of_load};

use crate::files::{guest_file, load_files};
use crate::guests::Demo;
use crate::player::{Plan, Player};
use crate::script::{load_beats, load_lines, load_script};
use mv_calls::{Bytes, Or, OutOfMemory, Texts};
use mv_history::{Log, Start};
use mv_kernmem::MemKernel;
use mv_outside::{Console, Files, Kernel, MemConsole, MemFiles};
use mv_rehearse::{Beat, Outcome, rehearse};
use mv_schedule::read_schedule;
use mv_syntax::BornFault;
use mv_transform::Guest;
use mv_version::Version;
use std::alloc::Global;
use std::marker::Brand;

/// The capacity of the feed of a load.
const CAPACITY: usize = 256;

/// A guest at the beginning of its run, and its log.
#[derive(Drop)]
struct NewRun<V> {
    guest: V,
    log: Log,
}

/// Rehearses a load of `n` connections (docs/FORMATS.md, "Load"): the guest of the file `old` runs by the beats of the load's
/// schedule, over a kernel that plays the load's connections, with the operator's lines and the files of the load. A fault is that
/// of the guest's start.
pub fn load(alloc: Global, n: u32) -> Result<Log, Or<BornFault>>
    requires { (1 ≤ n) × (n ≤ 10000) }
    ensures load { IfOk result (λ log. IsLoad n log) }
    ensures fault { IfFault result (λ fault. started (file_of_guest Demo.Old) load_args ≡ Err fault) }
{
    rehearsed::<Guest>(alloc, n)
}

/// The same, with any version as the guest.
fn rehearsed<V: Version>(alloc: Global, n: u32) -> Result<Log, Or<BornFault>>
    requires { n ≤ 10000 }
    ensures load { IfOk result (λ log. IsLoadOf V.behaviour n log) }
    ensures fault { IfFault result (λ fault. V.behaviour.started (file_of_guest Demo.Old) load_args ≡ Err fault) }
{
    let begun = begun::<V>(alloc)?;
    let beats = beats_by(alloc, n)?;
    let log = rehearsed_by::<V, Brand>(alloc, n, begun, beats.as_slice())?;
    Ok(log)
}

/// The guest of the file `old`, started with this path as its argument.
fn begun<V: Version>(alloc: Global) -> Result<NewRun<V>, Or<BornFault>>
    ensures new_run { IfOk result (λ b. IsNewRun V.behaviour b.guest b.log) }
    ensures start { IfOk result (λ b. (b.log.start.«module» ≡ file_of_guest Demo.Old) × (b.log.start.args ≡ load_args)) }
    ensures fault { IfFault result (λ fault. V.behaviour.started (file_of_guest Demo.Old) load_args ≡ Err fault) }
{
    let file = guest_file(alloc, Demo::Old)?;
    let args = arguments(alloc)?;
    match V::start(alloc, file.as_slice(), &args) {
        Ok(guest) => Ok(with_log(alloc, guest, file, args)?),
        Err(fault) => Err(fault),
    }
}

/// The arguments of the guest: the path of its module.
fn arguments(alloc: Global) -> Result<Texts, OutOfMemory>
    ensures { IfOk result (λ args. args ≡ load_args) }
{
    let mut args = Vec::with_capacity(alloc, 1)?;
    args.push(Bytes::from_slice(alloc, b"old")?)?;
    Ok(Texts::from_vec(args))
}

/// A guest that was started of this file, with a log of its run.
fn with_log<V: Version>(
    alloc: Global,
    guest: V,
    file: Vec<u8>,
    args: Texts,
) -> Result<NewRun<V>, OutOfMemory>
    requires { V.behaviour.started file.items args ≡ Ok (V.behaviour.state guest) }
    ensures new_run { IfOk result (λ b. IsNewRun V.behaviour b.guest b.log) }
    ensures start { IfOk result (λ b. (b.log.start.«module» ≡ file.items) × (b.log.start.args ≡ args)) }
{
    let start = Start {
        module: Bytes::from_vec(file),
        args,
    };
    let log = Log::make(alloc, start)?;
    Ok(NewRun { guest, log })
}

/// The beats of the schedule of a load.
fn beats_by(alloc: Global, n: u32) -> Result<Vec<Beat>, OutOfMemory>
    requires { n ≤ 10000 }
    ensures { IfOk result (λ beats. schedule_of (beats_of_load n) ≡ Ok beats.items) }
{
    let letters = load_beats(alloc, n)?;
    match read_schedule(alloc, letters.as_slice()) {
        Ok(beats) => Ok(beats),
        Err(Or::Fault(_)) => unreachable!(),
        Err(Or::OutOfMemory) => Err(OutOfMemory),
    }
}

/// A kernel that is to play the connections of a load.
fn player_of<N: Plan>(alloc: Global, n: u32) -> Result<Player<N>, OutOfMemory>
    requires few { n ≤ 10000 }
    requires plan { N.script ≡ script_of_load n }
    ensures { IfOk result (λ player. Begins N.script player) }
{
    let script = load_script(alloc, n)?;
    let kernel = MemKernel::new(alloc, script)?;
    Ok(Player::new(kernel))
}

/// Rehearses beats over the feed of a load, with any version and over any objects.
fn by_beats<V: Version, K: Kernel, C: Console, F: Files>(
    alloc: Global,
    begun: NewRun<V>,
    kernel: K,
    console: C,
    files: F,
    beats: &[Beat],
) -> Outcome<K, C, F>
    requires { IsNewRun V.behaviour begun.guest begun.log }
    ensures beats { IsRehearsal V.behaviour (began_with K.done K.faults C.coming C.said C.faults F.content F.faults begun.log kernel console files) 256 beats.now result.log }
    ensures legal { IsLegalRun V.behaviour (began_with K.done K.faults C.coming C.said C.faults F.content F.faults begun.log kernel console files) result.log }
    ensures done { DidCalls (began_with K.done K.faults C.coming C.said C.faults F.content F.faults begun.log kernel console files) result.log.entries.list (K.done result.kernel) (K.faults result.kernel) }
    ensures orders { OrdersAnswered (began_with K.done K.faults C.coming C.said C.faults F.content F.faults begun.log kernel console files) result.log.entries.list (C.coming result.console) (C.said result.console) (C.faults result.console) }
    ensures files { AreFilesKept (F.content files) (F.faults files) result.log.entries.list result.log.updates.list (F.content result.files) (F.faults result.files) }
    ensures ended { HasEnded result.log.entries.list result.status }
{
    let NewRun { guest, log } = begun;
    rehearse::<V, K, C, F>(alloc, guest, log, kernel, console, files, CAPACITY, beats)
}

/// Rehearses beats from the beginning of a load, over a kernel that plays the script of `N`.
fn rehearsed_by<V: Version, N: Plan>(
    alloc: Global,
    n: u32,
    begun: NewRun<V>,
    beats: &[Beat],
) -> Result<Log, OutOfMemory>
    requires few { n ≤ 10000 }
    requires plan { N.script ≡ script_of_load n }
    requires new_run { IsNewRun V.behaviour begun.guest begun.log }
    requires start { (begun.log.start.«module» ≡ file_of_guest Demo.Old) × (begun.log.start.args ≡ load_args) }
    ensures { IfOk result (λ log. IsRunOf V.behaviour (script_of_load n) beats.now log) }
{
    let kernel = player_of::<N>(alloc, n)?;
    let console = load_lines(alloc)?;
    let files = load_files(alloc)?;
    let outcome = by_beats(alloc, begun, kernel, console, files, beats);
    outcome.kernel.has_played();
    Ok(outcome.log)
}
