//! Runs: one counted instruction after the other.

ghost use Rattle.std.specs.Prelude.{◌≡◌, ◌<◌, ◌+◌, OnErr, IfOk};
ghost use Rattle.mv_execution.specs.Rows.{CameTo};
ghost use Rattle.mv_validator.specs.Valid.{IsValid};
ghost use Rattle.mv_execution.specs.Instance.{program_of};
ghost use Rattle.mv_execution.specs.Step.{step};
ghost use Rattle.mv_machine.specs.States.{config_of, IsFine};
ghost use Rattle.mv_machine.specs.Turns.{IsReady, StopIs, counted_step, WentOn};

use crate::calls::{advance_newest, call_function, call_indirect};
use crate::state::{GAP_LIMIT, State};
use crate::turns::{Front, settle};
use mv_calls::{OutOfMemory, Trap};
use mv_syntax::{Instr, Module};
use std::alloc::Global;

/// How a run stops.
#[derive(Clone, Copy, PartialEq, Eq, Debug)]
pub enum Stop {
    /// At a call of this imported function, which is to be answered.
    Import { index: u32 },
    /// The first call has returned, with this result where it has one.
    Ended { value: Option<u64> },
    /// At an instruction that can't be done, or may not.
    Trap(Trap),
    /// As many instructions have counted as were allowed, and another one stands in front.
    Fuel,
    /// Between two instructions, for want of memory.
    Memory,
}

/// One instruction of the newest call, which was counted. After a trap and for want of memory all is as before.
fn execute(alloc: Global, module: &Module, state: &mut State) -> Result<Option<Trap>, OutOfMemory>
    requires valid { IsValid «module».now }
    requires fine { IsFine «module».now state.old }
    requires ready { IsReady (config_of «module».now state.old) }
    ensures ok { IfOk result (λ trap. CameTo trap (counted_step (program_of «module».now) (config_of «module».now state.old)) (config_of «module».now state.old) (config_of «module».now state.new)) }
    ensures err { OnErr result (config_of «module».now state.new ≡ config_of «module».now state.old) }
    ensures fine { IsFine «module».now state.new }
{
    let newest = &state.frames[state.frames.len() - 1];
    match &module.funcs.slice()[newest.func].code.slice()[newest.at] {
        Instr::Call(x) => call_function(alloc, module, state, *x, 0),
        Instr::CallIndirect(y) => call_indirect(alloc, module, state, *y),
        _ => advance_newest(alloc, module, state),
    }
}

/// Counts one instruction and does it. For want of memory nothing changes.
fn take_step(alloc: Global, module: &Module, state: &mut State) -> Result<Option<Trap>, OutOfMemory>
    requires valid { IsValid «module».now }
    requires fine { IsFine «module».now state.old }
    requires ready { IsReady (config_of «module».now state.old) }
    requires gap { state.old.gap < GAP_LIMIT }
    ensures ok { IfOk result (λ trap. WentOn trap (step (program_of «module».now) (config_of «module».now state.old)) (config_of «module».now state.old) (config_of «module».now state.new)) }
    ensures counts { IfOk result (λ trap. state.new.gap ≡ state.old.gap + 1) }
    ensures err { OnErr result (config_of «module».now state.new ≡ config_of «module».now state.old) }
    ensures fine { IsFine «module».now state.new }
{
    state.gap += 1;
    let outcome = execute(alloc, module, state);
    if outcome.is_err() {
        state.gap -= 1;
    }
    outcome
}

/// Runs for at most so many instructions (WebAssembly Core 1.0, section 4).
pub fn run(alloc: Global, module: &Module, state: &mut State, fuel: u32) -> Stop
    requires valid { IsValid «module».now }
    requires fine { IsFine «module».now state.old }
    ensures stop { StopIs result (program_of «module».now) fuel (config_of «module».now state.old) (config_of «module».now state.new) }
    ensures fine { IsFine «module».now state.new }
{
    for _ in 0..fuel {
        match settle(module, state) {
            Err(_) => return Stop::Memory,
            Ok(Front::Waits(index)) => return Stop::Import { index },
            Ok(Front::Ended(value)) => return Stop::Ended { value },
            Ok(Front::AtInstruction) => {}
        }
        if state.gap >= GAP_LIMIT {
            return Stop::Trap(Trap::Spent);
        }
        match take_step(alloc, module, state) {
            Err(_) => return Stop::Memory,
            Ok(Some(trap)) => return Stop::Trap(trap),
            Ok(None) => {}
        }
    }
    match settle(module, state) {
        Err(_) => Stop::Memory,
        Ok(Front::Waits(index)) => Stop::Import { index },
        Ok(Front::Ended(value)) => Stop::Ended { value },
        Ok(Front::AtInstruction) => Stop::Fuel,
    }
}
