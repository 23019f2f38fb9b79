//! A transformer's run.
ghost use Rattle.std.specs.Prelude.{◌≡◌, ◌≢◌, [], OnOk, OnErr, IfOk, IfErr, Ok as done_as, Err as faulty_as};
ghost use Rattle.mv_calls.specs.Or.{IfFault};
ghost use Rattle.mv_syntax.specs.declared.fault.BornFault.TheVariants.{Code};
ghost use Rattle.mv_execution.specs.Instance.{program_of};
ghost use Rattle.mv_execution.specs.Run.{run as run_of};
ghost use Rattle.mv_machine.specs.States.{values_of};
ghost use Rattle.mv_start.specs.Instances.{ample};
ghost use Rattle.mv_wasi.specs.Known.{AreKnown};
ghost use Rattle.mv_transform.specs.Shown.{shown, met_by, IsIdleAt, WaitsForImport};
ghost use Rattle.mv_transform.specs.Transforms.{Fails, met, transformed, code_of};

use crate::questions::answer;
use mv_calls::{Or, OutOfMemory, Trap};
use mv_machine::{Machine, Stop};
use mv_syntax::BornFault;
use std::alloc::Global;

/// Fuel for one instruction more than a gap may have.
const AMPLE: u32 = 50_000_001;

/// The code that is a transformer's result. It is of type i32, so it always fits; the contract of a run doesn't say so, and want
/// of memory, the one free answer, stands where it wouldn't.
fn code_in(value: Option<u64>) -> Result<u32, OutOfMemory>
    ensures { IfOk result (λ code. code ≡ code_of (values_of value)) }
{
    match u32::try_from(value.unwrap_or(0)) {
        Ok(code) => Ok(code),
        Err(_) => Err(OutOfMemory),
    }
}

/// Runs the transformer up to its next stop, and answers its question there. Where it has ended its code comes.
fn advance(alloc: Global, machine: &mut Machine, old: &Machine) -> Result<Option<u32>, Or<Trap>>
    requires known { AreKnown machine.old.parts }
    requires waits { WaitsForImport machine.old.parts machine.old.config.waiting }
    ensures met { IfOk result (λ code. met machine.old.parts (shown old.now) (run_of (program_of machine.old.parts) ample machine.old.config) ≡ met_by code machine.new.config) }
    ensures fault { IfFault result (λ trap. met machine.old.parts (shown old.now) (run_of (program_of machine.old.parts) ample machine.old.config) ≡ Fails trap) }
    ensures parts { machine.new.parts ≡ machine.old.parts }
    ensures idle { IfOk result (λ code. IsIdleAt code machine.new.config) }
{
    machine.keeps();
    match machine.run(alloc, AMPLE) {
        Stop::Memory => Err(Or::OutOfMemory),
        Stop::Fuel => unreachable!(),
        Stop::Trap(trap) => Err(Or::Fault(trap)),
        Stop::Ended { value } => Ok(Some(code_in(value)?)),
        Stop::Import { index } => {
            answer(alloc, machine, old, index)?;
            Ok(None)
        }
    }
}

/// What the code of a transformer that has ended comes to: 0 means done.
fn judge(code: u32) -> Result<(), BornFault>
    ensures done { OnOk result (code ≡ 0) }
    ensures fault { IfErr result (λ fault. fault ≡ Code code) }
    ensures other { OnErr result (code ≢ 0) }
{
    if code == 0 {
        Ok(())
    } else {
        Err(BornFault::Code(code))
    }
}

/// Runs the transformer that the machine has entered to its end. The fault is its trap, or its code where that isn't 0.
pub fn transform(alloc: Global, machine: &mut Machine, old: &Machine) -> Result<(), Or<BornFault>>
    requires known { AreKnown machine.old.parts }
    requires waits { WaitsForImport machine.old.parts machine.old.config.waiting }
    ensures ok { OnOk result (transformed machine.old.parts (shown old.now) machine.old.config ≡ done_as machine.new.config) }
    ensures fault { IfFault result (λ fault. transformed machine.old.parts (shown old.now) machine.old.config ≡ faulty_as fault) }
    ensures parts { machine.new.parts ≡ machine.old.parts }
    ensures idle { OnOk result (machine.new.config.frames ≡ []) }
{
    loop {
        match advance(alloc, machine, old) {
            Ok(None) => {}
            Ok(Some(code)) => {
                return match judge(code) {
                    Ok(()) => Ok(()),
                    Err(fault) => Err(Or::Fault(fault)),
                };
            }
            Err(Or::Fault(trap)) => return Err(Or::Fault(BornFault::Transform(trap))),
            Err(Or::OutOfMemory) => return Err(Or::OutOfMemory),
        }
    }
}
