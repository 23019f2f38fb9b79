//! Calls over the state of a machine: an instruction of the newest call, calls, returns, and imports that wait.

ghost use Rattle.std.specs.Prelude.{◌≡◌, ◌≤◌, ◌<◌, ◌+◌, ◌↔◌, IsTrue, OnOk, OnErr, IfOk, IsSome, Some, None, ℕ, length, reverse, slice_get, take, vec_len, vec_capacity};
ghost use Rattle.mv_frames.specs.Arity.{arity_if};
ghost use Rattle.mv_validator.specs.Valid.{IsValid};
ghost use Rattle.mv_execution.specs.Config.{Function};
ghost use Rattle.mv_syntax.specs.Types.{same_type, same_types, same_function_type};
ghost use Rattle.mv_execution.specs.Instance.{program_of};
ghost use Rattle.mv_execution.specs.Rows.{Goes, IsGoing, CameTo};
ghost use Rattle.mv_execution.specs.Rises.{leaves_more};
ghost use Rattle.mv_machine.specs.States.{code_at, config_of, values_of, IsFine, open_count};
ghost use Rattle.mv_machine.specs.Turns.{IsReady, counted_step};
ghost use Rattle.mv_machine.specs.Calls.{call_above, IsAtCall, IsAtIndirect, IsAtPlain, HasFunction, closed_newest, returned_newest};

use crate::state::{FRAME_LIMIT, OPERAND_LIMIT, State};
use mv_calls::{OutOfMemory, Trap};
use mv_frames::{Frame, advance, close, new_call, push, top};
use mv_syntax::{FuncType, Instr, Module, ValType};
use std::alloc::Global;

/// Whether the instruction leaves one operand more.
fn adds_operand(instr: &Instr) -> bool
    ensures { result ≡ leaves_more instr.now }
{
    matches!(
        instr,
        Instr::Const { .. } | Instr::LocalGet(_) | Instr::GlobalGet(_) | Instr::MemorySize
    )
}

/// One instruction of the newest call that calls nothing. After a trap and for want of memory all is as before.
pub fn advance_newest(
    alloc: Global,
    module: &Module,
    state: &mut State,
) -> Result<Option<Trap>, OutOfMemory>
    requires valid { IsValid «module».now }
    requires fine { IsFine «module».now state.old }
    requires ready { IsReady (config_of «module».now state.old) }
    requires plain { IsAtPlain «module».now state.old }
    ensures ok { IfOk result (λ trap. CameTo trap (counted_step (program_of «module».now) (config_of «module».now state.old)) (config_of «module».now state.old) (config_of «module».now state.new)) }
    ensures err { OnErr result (config_of «module».now state.new ≡ config_of «module».now state.old) }
    ensures fine { IsFine «module».now state.new }
{
    let newest = state.frames.len() - 1;
    let frame = &mut state.frames[newest];
    let code = module.funcs.slice()[frame.func].code.slice();
    if state.operands >= OPERAND_LIMIT && adds_operand(&code[frame.at]) {
        return Ok(Some(Trap::Operands));
    }
    let before = frame.operands.len();
    let outcome = advance(alloc, code, &mut state.store, frame)?;
    let after = frame.operands.len();
    state.operands = state.operands - before + after;
    Ok(outcome)
}

/// The newest call leaves a block whose list is at its end.
pub fn close_block(module: &Module, state: &mut State)
    requires fine { IsFine «module».now state.old }
    requires running { state.old.waiting ≡ None }
    requires ends { IsSome (closed_newest (config_of «module».now state.old)) }
    ensures closes { closed_newest (config_of «module».now state.old) ≡ Some (config_of «module».now state.new) }
    ensures fewer { open_count (reverse state.new.frames.items) < open_count (reverse state.old.frames.items) }
    ensures fine { IsFine «module».now state.new }
{
    let newest = state.frames.len() - 1;
    let frame = &mut state.frames[newest];
    close(module.funcs.slice()[frame.func].code.slice(), frame);
}

/// What a call gives that has left its blocks.
fn given_by(frame: &Frame) -> Option<u64>
    requires { arity_if frame.now.gives ≤ vec_len frame.now.operands }
    ensures { take (arity_if frame.now.gives) (reverse frame.now.operands.items) ≡ values_of result }
{
    if frame.gives { Some(top(frame)) } else { None }
}

/// Returns from the newest call, which has left its blocks, to the one before it. What the last call gives is kept.
pub fn leave_call(module: &Module, state: &mut State) -> Result<(), OutOfMemory>
    requires fine { IsFine «module».now state.old }
    requires running { state.old.waiting ≡ None }
    requires returns { IsSome (returned_newest (config_of «module».now state.old)) }
    ensures ok { OnOk result (returned_newest (config_of «module».now state.old) ≡ Some (config_of «module».now state.new)) }
    ensures err { OnErr result (config_of «module».now state.new ≡ config_of «module».now state.old) }
    ensures fewer { OnOk result (open_count (reverse state.new.frames.items) < open_count (reverse state.old.frames.items)) }
    ensures fine { IsFine «module».now state.new }
{
    let newest = state.frames.len() - 1;
    let value = given_by(&state.frames[newest]);
    if newest == 0 {
        state.given = value;
        state.operands = 0;
        state.frames.clear();
        return Ok(());
    }
    if let Some(value) = value {
        push(&mut state.frames[newest - 1], value)?;
    }
    state.frames.truncate(newest);
    Ok(())
}

/// Whether the module has a function with this index.
pub fn has_function(module: &Module, x: u32) -> bool
    ensures { IsTrue result ↔ HasFunction «module».now x }
{
    let imports = module.imports.slice().len();
    let index = x as usize;
    index < imports || index - imports < module.funcs.slice().len()
}

/// The type of the function with this index, the imported ones first.
pub fn function_type(module: &Module, x: u32) -> &FuncType
    requires valid { IsValid «module».now }
    requires there { HasFunction «module».now x }
    ensures { (function : Function) → slice_get (program_of «module».now).functions x ≡ Some function → result.now ≡ function.ftype }
{
    let imports = module.imports.slice();
    let index = x as usize;
    let ftype = if index < imports.len() {
        imports[index].ftype
    } else {
        module.funcs.slice()[index - imports.len()].ftype
    };
    &module.types.slice()[ftype as usize]
}

/// The call goes behind its instruction, with so many of its oldest operands.
fn go_behind(module: &Module, call: &mut Frame, operands: usize)
    requires function { call.old.func < length («module».now).funcs }
    requires within { call.old.at < length (code_at («module».now).funcs call.old.func) }
    ensures same { call.new ≡ record call.old { at = call.old.at + 1; operands = call.new.operands } }
    ensures operands { call.new.operands.items ≡ take operands call.old.operands.items }
    ensures room { vec_capacity call.new.operands ≡ vec_capacity call.old.operands }
{
    // To look at the code brings up that a place behind an instruction fits.
    let _code = module.funcs.slice()[call.func].code.slice();
    call.operands.truncate(operands);
    call.at += 1;
}

/// Enters a function of the module's own, whose arguments lie below so many of the newest call's operands.
fn enter_call(
    alloc: Global,
    module: &Module,
    state: &mut State,
    x: u32,
    above: usize,
) -> Result<(), OutOfMemory>
    requires valid { IsValid «module».now }
    requires fine { IsFine «module».now state.old }
    requires ready { IsReady (config_of «module».now state.old) }
    requires at { IsAtCall above «module».now state.old }
    requires there { HasFunction «module».now x }
    requires own { length («module».now).imports ≤ x }
    requires few { vec_len state.old.frames < FRAME_LIMIT }
    requires step { counted_step (program_of «module».now) (config_of «module».now state.old) ≡ call_above (program_of «module».now) x above (config_of «module».now state.old) }
    requires going { IsGoing (call_above (program_of «module».now) x above (config_of «module».now state.old)) }
    ensures ok { OnOk result (call_above (program_of «module».now) x above (config_of «module».now state.old) ≡ Goes (config_of «module».now state.new)) }
    ensures err { OnErr result (config_of «module».now state.new ≡ config_of «module».now state.old) }
    ensures fine { IsFine «module».now state.new }
{
    let func = x as usize - module.imports.slice().len();
    let callee = &module.funcs.slice()[func];
    let ftype = function_type(module, x);
    let newest = state.frames.len() - 1;
    let caller = &state.frames[newest];
    let count = ftype.params.slice().len();
    let end = caller.operands.len() - above;
    let first = end - count;
    let call = new_call(alloc, func, ftype, callee, &caller.operands[first..end])?;
    state.frames.push(call)?;
    go_behind(module, &mut state.frames[newest], first);
    state.operands = state.operands - above - count;
    Ok(())
}

/// Lets an imported function wait for its answer, whose place is reserved. Its arguments lie below so many of the newest call's
/// operands.
fn wait_for(
    module: &Module,
    state: &mut State,
    x: u32,
    above: usize,
) -> Result<Option<Trap>, OutOfMemory>
    requires valid { IsValid «module».now }
    requires fine { IsFine «module».now state.old }
    requires ready { IsReady (config_of «module».now state.old) }
    requires at { IsAtCall above «module».now state.old }
    requires there { HasFunction «module».now x }
    requires imported { x < length («module».now).imports }
    requires few { vec_len state.old.frames < FRAME_LIMIT }
    requires step { counted_step (program_of «module».now) (config_of «module».now state.old) ≡ call_above (program_of «module».now) x above (config_of «module».now state.old) }
    requires going { IsGoing (call_above (program_of «module».now) x above (config_of «module».now state.old)) }
    ensures ok { IfOk result (λ trap. CameTo trap (call_above (program_of «module».now) x above (config_of «module».now state.old)) (config_of «module».now state.old) (config_of «module».now state.new)) }
    ensures err { OnErr result (config_of «module».now state.new ≡ config_of «module».now state.old) }
    ensures fine { IsFine «module».now state.new }
{
    let ftype = function_type(module, x);
    let left = state.operands - above;
    let results = usize::from(ftype.result.is_some());
    if left - ftype.params.slice().len() + results > OPERAND_LIMIT {
        return Ok(Some(Trap::Operands));
    }
    let newest = state.frames.len() - 1;
    let caller = &mut state.frames[newest];
    if ftype.params.slice().is_empty() {
        caller.operands.reserve(1)?;
    }
    let end = caller.operands.len() - above;
    go_behind(module, caller, end);
    state.operands = left;
    state.waiting = Some(x);
    Ok(None)
}

/// Calls a function whose arguments lie below so many of the newest call's operands. After a trap and for want of memory all
/// is as before.
pub fn call_function(
    alloc: Global,
    module: &Module,
    state: &mut State,
    x: u32,
    above: usize,
) -> Result<Option<Trap>, OutOfMemory>
    requires valid { IsValid «module».now }
    requires fine { IsFine «module».now state.old }
    requires ready { IsReady (config_of «module».now state.old) }
    requires at { IsAtCall above «module».now state.old }
    requires there { HasFunction «module».now x }
    requires step { counted_step (program_of «module».now) (config_of «module».now state.old) ≡ call_above (program_of «module».now) x above (config_of «module».now state.old) }
    requires going { IsGoing (call_above (program_of «module».now) x above (config_of «module».now state.old)) }
    ensures ok { IfOk result (λ trap. CameTo trap (call_above (program_of «module».now) x above (config_of «module».now state.old)) (config_of «module».now state.old) (config_of «module».now state.new)) }
    ensures err { OnErr result (config_of «module».now state.new ≡ config_of «module».now state.old) }
    ensures fine { IsFine «module».now state.new }
{
    if state.frames.len() >= FRAME_LIMIT {
        return Ok(Some(Trap::Frames));
    }
    if (x as usize) < module.imports.slice().len() {
        return wait_for(module, state, x, above);
    }
    enter_call(alloc, module, state, x, above)?;
    Ok(None)
}

/// Whether two value types are the same.
fn is_same_type(a: ValType, b: ValType) -> bool
    ensures { result ≡ same_type a b }
{
    matches!(
        (a, b),
        (ValType::I32, ValType::I32) | (ValType::I64, ValType::I64)
    )
}

/// Whether the lists have the same types in the same order.
fn are_same_types(a: &[ValType], b: &[ValType]) -> bool
    ensures { result ≡ same_types a.now b.now }
{
    if a.len() != b.len() {
        return false;
    }
    for (index, vtype) in a.iter().enumerate() {
        if !is_same_type(*vtype, b[index]) {
            return false;
        }
    }
    true
}

/// Whether the types have the same parameters and results (WebAssembly Core 1.0, 4.4.7).
fn is_same_function_type(a: &FuncType, b: &FuncType) -> bool
    ensures { result ≡ same_function_type a.now b.now }
{
    let same_result = match (a.result, b.result) {
        (None, None) => true,
        (Some(one), Some(other)) => is_same_type(one, other),
        _ => false,
    };
    are_same_types(a.params.slice(), b.params.slice()) && same_result
}

/// Calls the function that the table has at the newest operand, where it is of the type with this index. After a trap and for
/// want of memory all is as before.
pub fn call_indirect(
    alloc: Global,
    module: &Module,
    state: &mut State,
    y: u32,
) -> Result<Option<Trap>, OutOfMemory>
    requires valid { IsValid «module».now }
    requires fine { IsFine «module».now state.old }
    requires ready { IsReady (config_of «module».now state.old) }
    requires at { IsAtIndirect y «module».now state.old }
    ensures ok { IfOk result (λ trap. CameTo trap (counted_step (program_of «module».now) (config_of «module».now state.old)) (config_of «module».now state.old) (config_of «module».now state.new)) }
    ensures err { OnErr result (config_of «module».now state.new ≡ config_of «module».now state.old) }
    ensures fine { IsFine «module».now state.new }
{
    let place = top(&state.frames[state.frames.len() - 1]);
    let table = &state.store.table;
    if place >= table.len() as u64 {
        return Ok(Some(Trap::TableIndex));
    }
    let x = match table[place as usize] {
        None => return Ok(Some(Trap::EmptyElement)),
        Some(x) => x,
    };
    let expected = &module.types.slice()[y as usize];
    if !is_same_function_type(function_type(module, x), expected) {
        return Ok(Some(Trap::IndirectType));
    }
    call_function(alloc, module, state, x, 1)
}
