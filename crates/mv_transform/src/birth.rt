//! Guests that are born from an old one.
ghost use Rattle.std.specs.Prelude.{◌≡◌, [], OnOk, IfOk, IfErr, Ok as done_as, Err as faulty_as};
ghost use Rattle.mv_calls.specs.Or.{IfFault};
ghost use Rattle.mv_syntax.specs.declared.types.FuncType.{FuncType as Signature};
ghost use Rattle.mv_validator.specs.Typing.{func_type};
ghost use Rattle.mv_execution.specs.Fits.{module_context};
ghost use Rattle.mv_machine.specs.Calls.{HasFunction};
ghost use Rattle.mv_start.specs.Instances.{filled};
ghost use Rattle.mv_wasi.specs.Machines.{clean};
ghost use Rattle.mv_wasi.specs.Known.{AreKnown};
ghost use Rattle.mv_guest.specs.Standing.{Standing, stands_from, unready};
ghost use Rattle.mv_guest.specs.Running.{stands_of};
ghost use Rattle.mv_transform.specs.Shown.{IsEntry, WaitsForImport, shown, resumed_config};
ghost use Rattle.mv_transform.specs.Transforms.{transformed};
ghost use Rattle.mv_transform.specs.Births.{born_of, born, resumed, transformed_from};

use crate::beginning::read_valid;
use crate::transformer::transform;
use mv_calls::{Or, OutOfMemory};
use mv_guest::Runner;
use mv_machine::Machine;
use mv_start::{entry, fault_of_imports, fill};
use mv_syntax::BornFault;
use std::alloc::Global;

/// The functions that are entered in a birth, by their indices.
#[derive(Clone, Copy)]
struct Entries {
    /// `live_transform`
    transform: u32,
    /// `live_resume`
    resume: u32,
}

/// A new version's machine, which has entered the transformer.
#[derive(Drop)]
struct Newborn {
    machine: Machine,
    /// The function with which it goes on then.
    resume: u32,
}

/// The functions of the module that are entered, or the first fault of its imports and of these.
fn find_entries(machine: &Machine) -> Result<Entries, BornFault>
    ensures entries { IfOk result (λ entries. (old : Standing) → born_of old machine.now.parts ≡ transformed_from old machine.now.parts entries.transform entries.resume (filled machine.now.parts)) }
    ensures refused { IfErr result (λ fault. (old : Standing) → born_of old machine.now.parts ≡ faulty_as fault) }
    ensures known { OnOk result (AreKnown machine.now.parts) }
    ensures transform { IfOk result (λ entries. IsEntry machine.now.parts entries.transform) }
    ensures resume { IfOk result (λ entries. IsEntry machine.now.parts entries.resume) }
{
    machine.keeps();
    if let Some(fault) = fault_of_imports(machine.module().module()) {
        return Err(BornFault::Start(fault));
    }
    let Some(transform) = entry(machine, b"live_transform", true) else {
        return Err(BornFault::NoTransform);
    };
    let Some(resume) = entry(machine, b"live_resume", false) else {
        return Err(BornFault::NoResume);
    };
    Ok(Entries { transform, resume })
}

/// An instance of the module that the bytes spell, which has entered the transformer, or the first fault.
fn enter_transformer(alloc: Global, bytes: &[u8]) -> Result<Newborn, Or<BornFault>>
    ensures entered { IfOk result (λ new. (old : Standing) → born old bytes.now ≡ resumed old new.machine.parts new.resume (transformed new.machine.parts old new.machine.config)) }
    ensures refused { IfFault result (λ fault. (old : Standing) → born old bytes.now ≡ faulty_as fault) }
    ensures known { IfOk result (λ new. AreKnown new.machine.parts) }
    ensures waits { IfOk result (λ new. WaitsForImport new.machine.parts new.machine.config.waiting) }
    ensures resume { IfOk result (λ new. IsEntry new.machine.parts new.resume) }
{
    let valid = read_valid(alloc, bytes)?;
    let mut machine = Machine::new(alloc, valid)?;
    let entries = match find_entries(&machine) {
        Ok(entries) => entries,
        Err(fault) => return Err(Or::Fault(fault)),
    };
    match fill(alloc, &mut machine) {
        Ok(()) => {}
        Err(Or::OutOfMemory) => return Err(Or::OutOfMemory),
        Err(Or::Fault(fault)) => return Err(Or::Fault(BornFault::Start(fault))),
    }
    machine.enter(alloc, entries.transform)?;
    let resume = entries.resume;
    Ok(Newborn { machine, resume })
}

/// Brings the old guest to its next event, from which it is read.
fn reach_event(alloc: Global, old: &mut Runner) -> Result<(), OutOfMemory>
    ensures there { OnOk result (clean old.new.machine.config ≡ (stands_of old.old).config) }
    ensures parts { OnOk result (old.new.machine.parts ≡ (stands_of old.old).parts) }
    ensures args { OnOk result (old.new.args ≡ (stands_of old.old).args) }
{
    old.go(alloc)?;
    Ok(())
}

/// Runs the transformer that the machine has entered to its end, and enters the function with which the new version goes on, in
/// a new gap.
fn run_transformer(
    alloc: Global,
    machine: &mut Machine,
    resume: u32,
    old: &Machine,
) -> Result<(), Or<BornFault>>
    requires known { AreKnown machine.old.parts }
    requires waits { WaitsForImport machine.old.parts machine.old.config.waiting }
    requires resume { IsEntry machine.old.parts resume }
    ensures ok { OnOk result (resumed_config machine.old.parts resume (transformed machine.old.parts (shown old.now) machine.old.config) ≡ done_as machine.new.config) }
    ensures fault { IfFault result (λ fault. resumed_config machine.old.parts resume (transformed machine.old.parts (shown old.now) machine.old.config) ≡ faulty_as fault) }
    ensures parts { machine.new.parts ≡ machine.old.parts }
{
    transform(alloc, machine, old)?;
    machine.new_gap();
    machine.enter(alloc, resume)?;
    Ok(())
}

/// The new version's machine, in the function with which it goes on, or the first fault. The transformer is answered from where
/// the old guest stands at its next event.
fn new_machine(alloc: Global, old: &mut Runner, bytes: &[u8]) -> Result<Machine, Or<BornFault>>
    ensures born { IfOk result (λ machine. born (unready (stands_of old.old)) bytes.now ≡ done_as (stands_from machine.parts old.new.args machine.config)) }
    ensures refused { IfFault result (λ fault. born (unready (stands_of old.old)) bytes.now ≡ faulty_as fault) }
    ensures known { IfOk result (λ machine. AreKnown machine.parts) }
{
    let Newborn {
        mut machine,
        resume,
    } = enter_transformer(alloc, bytes)?;
    reach_event(alloc, old)?;
    run_transformer(alloc, &mut machine, resume, old.machine())?;
    Ok(machine)
}

/// A guest that is born from an old one, which is used up, with its arguments, or the first fault.
pub fn born_guest(alloc: Global, old: Runner, bytes: &[u8]) -> Result<Runner, Or<BornFault>>
    ensures born { IfOk result (λ runner. born (unready (stands_of old)) bytes.now ≡ done_as (unready (stands_of runner))) }
    ensures refused { IfFault result (λ fault. born (unready (stands_of old)) bytes.now ≡ faulty_as fault) }
{
    let mut old = old;
    let machine = new_machine(alloc, &mut old, bytes)?;
    let args = old.args().copy(alloc)?;
    Ok(Runner::resume(alloc, machine, args))
}
