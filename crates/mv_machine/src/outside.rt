//! What is done with a state from outside: a function is entered, a call that waits is looked at and answered.

ghost use Rattle.std.specs.Prelude.{◌≡◌, ◌<◌, ◌≤◌, ◌-◌, ◌++◌, [], ℕ, Some, OnOk, OnErr, IfSome, IsSome, drop, length, reverse, slice_get, vec_len, vec_capacity};
ghost use Rattle.mv_syntax.specs.declared.types.FuncType.{FuncType as Signature};
ghost use Rattle.mv_validator.specs.Types.{operands_of};
ghost use Rattle.mv_validator.specs.Typing.{func_type};
ghost use Rattle.mv_validator.specs.Valid.{IsValid};
ghost use Rattle.mv_execution.specs.Instance.{program_of};
ghost use Rattle.mv_execution.specs.Run.{entered, arguments, answered, param_count};
ghost use Rattle.mv_execution.specs.Fits.{AreOf, module_context};
ghost use Rattle.mv_machine.specs.States.{config_of, values_of, IsFine};
ghost use Rattle.mv_machine.specs.Calls.{HasFunction};

use crate::calls::function_type;
use crate::state::State;
use mv_calls::OutOfMemory;
use mv_frames::{Frame, new_call};
use mv_syntax::Module;
use std::alloc::Global;

/// Enters a function without parameters, where no call is left.
pub fn enter_function(
    alloc: Global,
    module: &Module,
    state: &mut State,
    func: u32,
) -> Result<(), OutOfMemory>
    requires valid { IsValid «module».now }
    requires fine { IsFine «module».now state.old }
    requires idle { vec_len state.old.frames ≡ 0 }
    requires there { HasFunction «module».now func }
    requires no_parameter { (t : Signature) → func_type (module_context «module».now) func ≡ Some t → t.params ≡ [] }
    ensures ok { OnOk result (config_of «module».now state.new ≡ entered (program_of «module».now) func (config_of «module».now state.old)) }
    ensures err { OnErr result (config_of «module».now state.new ≡ config_of «module».now state.old) }
    ensures fine { IsFine «module».now state.new }
{
    let imports = module.imports.slice().len();
    let index = func as usize;
    if index < imports {
        state.waiting = Some(func);
        state.given = None;
        return Ok(());
    }
    let own = index - imports;
    let callee = &module.funcs.slice()[own];
    let call = new_call(alloc, own, function_type(module, func), callee, &[])?;
    state.frames.push(call)?;
    state.waiting = None;
    state.given = None;
    Ok(())
}

/// An argument of the call that waits, the first one is 0.
pub fn argument(module: &Module, state: &State, x: u32, n: u32) -> u64
    requires valid { IsValid «module».now }
    requires fine { IsFine «module».now state.now }
    requires waits { state.now.waiting ≡ Some x }
    requires within { n < param_count (program_of «module».now) x }
    ensures { slice_get (arguments (program_of «module».now) (config_of «module».now state.now)) n ≡ Some result }
{
    let count = function_type(module, x).params.slice().len();
    let caller = &state.frames[state.frames.len() - 1];
    let first = caller.operands.len() - count;
    caller.operands[first + n as usize]
}

/// Puts a result, where there is one, in the place of so many arguments. Where there are none a place was reserved.
fn answer_frame(frame: &mut Frame, count: usize, value: Option<u64>)
    requires within { count ≤ vec_len frame.old.operands }
    requires place { count ≡ 0 → vec_len frame.old.operands < vec_capacity frame.old.operands }
    ensures rest { frame.new ≡ record frame.old { operands = frame.new.operands } }
    ensures answered { reverse frame.new.operands.items ≡ values_of value ++ drop count (reverse frame.old.operands.items) }
{
    let first = frame.operands.len() - count;
    match value {
        None => frame.operands.truncate(first),
        Some(value) if count > 0 => {
            frame.operands[first] = value;
            frame.operands.truncate(first + 1);
        }
        Some(value) => {
            if frame.operands.push(value).is_err() {
                unreachable!();
            }
        }
    }
}

/// Answers the call that waits.
pub fn answer_call(module: &Module, state: &mut State, x: u32, value: Option<u64>)
    requires valid { IsValid «module».now }
    requires fine { IsFine «module».now state.old }
    requires waits { state.old.waiting ≡ Some x }
    requires fits { (t : Signature) → func_type (module_context «module».now) x ≡ Some t → AreOf (operands_of t.result) (values_of value) }
    ensures answered { config_of «module».now state.new ≡ answered (program_of «module».now) (values_of value) (config_of «module».now state.old) }
    ensures fine { IsFine «module».now state.new }
{
    let count = function_type(module, x).params.slice().len();
    state.waiting = None;
    let calls = state.frames.len();
    if calls == 0 {
        state.given = value;
        return;
    }
    answer_frame(&mut state.frames[calls - 1], count, value);
    state.operands = state.operands - count + usize::from(value.is_some());
}
