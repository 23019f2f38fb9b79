// Bodies that have the type of their function.

ghost use Rattle.std.specs.Prelude.{◌≡◌, List, ◌∷◌, [], ◌++◌, Some, None, OnOk, IfOk, IfSome, IfNone, if◌then◌else◌, reverse, map, slice_get, option_and_then, true};
ghost use Rattle.mv_syntax.specs.Types.{same_result};
ghost use Rattle.mv_syntax.specs.Expressions.{is_plain};
ghost use Rattle.mv_validator.specs.Views.{frame_of, frames_of, type_told};
ghost use Rattle.mv_validator.specs.ControlFrames.{label_of as label_of_kind, labels_of, context_at, behind, next, new_frame as begun, is_complete, may_end as may_end_as, is_simple, behind_type, needs_table, taken_by, all_take};
ghost use Rattle.mv_validator.specs.Typing.{Context as TypingContext, type_of, called, IsTyped};
ghost use Rattle.mv_validator.specs.Valid.{context_in};
ghost use Rattle.mv_syntax.specs.declared.types.FuncType.{FuncType as TypeOfFunc};
ghost use Rattle.mv_syntax.specs.declared.ops.ValType.{ValType as TypeOfValue};
ghost use Rattle.mv_validator.specs.Faults.{IsFirstFault};
ghost use Rattle.mv_syntax.specs.Tree.{Tree, IsBody};
ghost use Rattle.mv_validator.specs.Types.{operands_of};
ghost use Rattle.mv_validator.specs.OperandStack.{all_taken};

use crate::control_frame::{
    ControlFrame, Kind, die, put_result, select, take, take_any, take_result,
};
use crate::instr_type::{InstrType, instr_type_of, type_index};
use crate::kind::kind_of;
use mv_syntax::{FuncType, Instr, Locals, Module, ValType, ValidKind};
use std::alloc::{AllocError, Global};

/// The first faulty instruction of a body, from 0, and what is wrong with it.
#[derive(Clone, Copy)]
pub struct BodyFault {
    pub at: usize,
    pub kind: ValidKind,
}

// What a branch to the nth open block carries, the innermost being 0, if there is one.
fn label_at(frame: &ControlFrame, outer: &[ControlFrame], n: u32) -> Option<Option<ValType>>
    ensures { result ≡ slice_get (labels_of (frame_of frame.now ∷ frames_of outer.now)) n }
{
    let n = n as usize;
    if n == 0 {
        Some(label_of(frame))
    } else if n <= outer.len() {
        Some(label_of(&outer[outer.len() - n]))
    } else {
        None
    }
}

// What a branch to the block carries.
fn label_of(frame: &ControlFrame) -> Option<ValType>
    ensures { result ≡ label_of_kind frame.now.kind frame.now.result }
{
    match frame.kind {
        Kind::Loop => None,
        _ => frame.result,
    }
}

// Takes operands that a branch to the nth open block carries.
fn take_label(frame: &mut ControlFrame, outer: &[ControlFrame], n: u32) -> bool
    ensures rest { frame.new ≡ record frame.old { operands = frame.new.operands } }
    ensures taken { option_and_then (λ t. all_taken (operands_of t) (reverse frame.old.operands.items) frame.old.unreachable) (slice_get (labels_of (frame_of frame.old ∷ frames_of outer.now)) n) ≡ (if result then Some (reverse frame.new.operands.items) else None) }
{
    match label_at(frame, outer, n) {
        None => false,
        Some(label) => take_result(frame, label),
    }
}

// Takes and gives operands of these types.
fn apply(frame: &mut ControlFrame, instr_type: InstrType) -> Result<bool, AllocError>
    ensures { IfOk result (λ ok. behind_type (frame_of frame.old) (Some (type_told instr_type)) ≡ (if ok then Some (frame_of frame.new) else None)) }
{
    if !take_result(frame, instr_type.top) || !take_result(frame, instr_type.below) {
        return Ok(false);
    }
    put_result(frame, instr_type.gives)?;
    Ok(true)
}

// An instruction whose type is known without the blocks around it.
fn check_simple(
    module: &Module,
    ftype: &FuncType,
    locals: &Locals,
    frame: &mut ControlFrame,
    instr: &Instr,
) -> Result<bool, AllocError>
    requires { is_simple instr.now ≡ true }
    ensures { IfOk result (λ ok. behind_type (frame_of frame.old) (type_of (context_in «module».now ftype.now locals.now) instr.now) ≡ (if ok then Some (frame_of frame.new) else None)) }
{
    match instr_type_of(module, ftype, locals, instr) {
        None => Ok(false),
        Some(instr_type) => apply(frame, instr_type),
    }
}

// Takes what a function takes, and puts what it gives.
fn call(frame: &mut ControlFrame, callee: &FuncType) -> Result<bool, AllocError>
    ensures { IfOk result (λ ok. behind_type (frame_of frame.old) (Some (called callee.now)) ≡ (if ok then Some (frame_of frame.new) else None)) }
{
    if !take_params(frame, callee.params.slice()) {
        return Ok(false);
    }
    put_result(frame, callee.result)?;
    Ok(true)
}

// A call of the function with this index.
fn check_call(module: &Module, frame: &mut ControlFrame, f: u32) -> Result<bool, AllocError>
    ensures { (t : TypeOfFunc) (locals : List TypeOfValue) → IfOk result (λ ok. behind_type (frame_of frame.old) (type_of (context_in «module».now t locals) (Instr.Call f)) ≡ (if ok then Some (frame_of frame.new) else None)) }
{
    let Some(t) = type_index(module, f) else {
        return Ok(false);
    };
    match module.types.slice().get(t as usize) {
        None => Ok(false),
        Some(callee) => call(frame, callee),
    }
}

// A call of an entry of the table that has the type with this index.
fn check_indirect(module: &Module, frame: &mut ControlFrame, x: u32) -> Result<bool, AllocError>
    ensures { (t : TypeOfFunc) (locals : List TypeOfValue) → IfOk result (λ ok. behind_type (frame_of frame.old) (type_of (context_in «module».now t locals) (Instr.CallIndirect x)) ≡ (if ok then Some (frame_of frame.new) else None)) }
{
    if module.table.is_none() {
        return Ok(false);
    }
    match module.types.slice().get(x as usize) {
        None => Ok(false),
        Some(callee) => Ok(take(frame, ValType::I32) && call(frame, callee)?),
    }
}

// A branch to the nth open block where the condition isn't zero.
fn check_branch(
    frame: &mut ControlFrame,
    outer: &[ControlFrame],
    n: u32,
) -> Result<bool, AllocError>
    ensures { (c : TypingContext) → IfOk result (λ ok. behind_type (frame_of frame.old) (type_of (context_at c (frame_of frame.old ∷ frames_of outer.now)) (Instr.BrIf n)) ≡ (if ok then Some (frame_of frame.new) else None)) }
{
    if !take(frame, ValType::I32) {
        return Ok(false);
    }
    match label_at(frame, outer, n) {
        None => Ok(false),
        Some(label) => {
            if !take_result(frame, label) {
                return Ok(false);
            }
            put_result(frame, label)?;
            Ok(true)
        }
    }
}

// One instruction that begins and ends no list.
fn check_plain(
    module: &Module,
    ftype: &FuncType,
    locals: &Locals,
    outer: &[ControlFrame],
    frame: &mut ControlFrame,
    instr: &Instr,
) -> Result<bool, AllocError>
    requires { is_plain instr.now ≡ true }
    ensures { IfOk result (λ ok. behind (context_at (context_in «module».now ftype.now locals.now) (frame_of frame.old ∷ frames_of outer.now)) instr.now (frame_of frame.old) ≡ (if ok then Some (frame_of frame.new) else None)) }
{
    match instr {
        Instr::Unreachable => {
            die(frame);
            Ok(true)
        }
        Instr::Br(n) => {
            let ok = take_label(frame, outer, *n);
            die(frame);
            Ok(ok)
        }
        Instr::BrIf(n) => check_branch(frame, outer, *n),
        Instr::BrTable { labels, last } => {
            let ok = take_table(frame, outer, labels.slice(), *last);
            die(frame);
            Ok(ok)
        }
        Instr::Return => {
            let ok = take_result(frame, ftype.result);
            die(frame);
            Ok(ok)
        }
        Instr::Call(f) => check_call(module, frame, *f),
        Instr::CallIndirect(x) => check_indirect(module, frame, *x),
        Instr::Drop => Ok(take_any(frame)),
        Instr::Select => select(frame),
        Instr::Block(_) | Instr::Loop(_) | Instr::If(_) | Instr::Else | Instr::End =>
            unreachable!(),
        _ => check_simple(module, ftype, locals, frame, instr),
    }
}

// Takes what a branch through a table of labels takes.
fn take_table(frame: &mut ControlFrame, outer: &[ControlFrame], labels: &[u32], last: u32) -> bool
    ensures rest { frame.new ≡ record frame.old { operands = frame.new.operands } }
    ensures taken { (c : TypingContext) → taken_by (needs_table (context_at c (frame_of frame.old ∷ frames_of outer.now)) labels.now last) (frame_of frame.old) ≡ (if result then Some (reverse frame.new.operands.items) else None) }
{
    match label_at(frame, outer, last) {
        None => false,
        Some(wanted) => {
            all_carry(frame, outer, labels, wanted)
                && take(frame, ValType::I32)
                && take_result(frame, wanted)
        }
    }
}

// Takes what a function takes, of which the last is the newest.
fn take_params(frame: &mut ControlFrame, params: &[ValType]) -> bool
    ensures rest { frame.new ≡ record frame.old { operands = frame.new.operands } }
    ensures taken { all_taken (reverse params.now) (reverse frame.old.operands.items) frame.old.unreachable ≡ (if result then Some (reverse frame.new.operands.items) else None) }
{
    let mut left = params.len();
    while left > 0 {
        left -= 1;
        if !take(frame, params[left]) {
            return false;
        }
    }
    true
}

// Whether a branch to each of the blocks carries this.
fn all_carry(
    frame: &ControlFrame,
    outer: &[ControlFrame],
    labels: &[u32],
    wanted: Option<ValType>,
) -> bool
    ensures { (c : TypingContext) → result ≡ all_take (context_at c (frame_of frame.now ∷ frames_of outer.now)) labels.now wanted }
{
    for n in labels {
        match label_at(frame, outer, *n) {
            None => return false,
            Some(label) => {
                if !is_same(label, wanted) {
                    return false;
                }
            }
        }
    }
    true
}

// Whether two blocks give the same.
fn is_same(a: Option<ValType>, b: Option<ValType>) -> bool
    ensures { result ≡ same_result a b }
{
    match (a, b) {
        (None, None) => true,
        (Some(a), Some(b)) => a == b,
        _ => false,
    }
}

// A block that begins.
fn new_frame(alloc: Global, kind: Kind, given: Option<ValType>) -> ControlFrame
    ensures { frame_of result ≡ begun kind given }
{
    ControlFrame {
        kind,
        result: given,
        operands: Vec::new(alloc),
        unreachable: false,
    }
}

// Whether the operands are what the block gives, and no more; they are taken.
fn take_all(frame: &mut ControlFrame) -> bool
    ensures rest { frame.new ≡ record frame.old { operands = frame.new.operands } }
    ensures complete { result ≡ is_complete (frame_of frame.old) }
{
    let wanted = frame.result;
    take_result(frame, wanted) && frame.operands.is_empty()
}

// Whether a block may end here: an `if` with a result has an `else`.
fn may_end(frame: &ControlFrame) -> bool
    ensures { result ≡ may_end_as frame.now.kind frame.now.result }
{
    frame.kind != Kind::If || frame.result.is_none()
}

// The frames behind an instruction, and whether it is right.
#[tactic(auto, using(crate::proofs::Flat::frames_push))]
fn check_instr(
    alloc: Global,
    module: &Module,
    ftype: &FuncType,
    locals: &Locals,
    frames: &mut Vec<ControlFrame>,
    instr: &Instr,
) -> Result<bool, AllocError>
    ensures { IfOk result (λ ok. next (context_in «module».now ftype.now locals.now) instr.now (frames_of frames.old.items) ≡ (if ok then Some (frames_of frames.new.items) else None)) }
{
    let Some(mut frame) = frames.pop() else {
        return Ok(false);
    };
    match instr {
        Instr::Block(given) => {
            frames.push(frame)?;
            frames.push(new_frame(alloc, Kind::Block, *given))?;
            Ok(true)
        }
        Instr::Loop(given) => {
            frames.push(frame)?;
            frames.push(new_frame(alloc, Kind::Loop, *given))?;
            Ok(true)
        }
        Instr::If(given) => {
            let ok = take(&mut frame, ValType::I32);
            frames.push(frame)?;
            frames.push(new_frame(alloc, Kind::If, *given))?;
            Ok(ok)
        }
        Instr::Else => {
            if frame.kind != Kind::If || !take_all(&mut frame) {
                return Ok(false);
            }
            frames.push(new_frame(alloc, Kind::Else, frame.result))?;
            Ok(true)
        }
        Instr::End => {
            if !may_end(&frame) || !take_all(&mut frame) {
                return Ok(false);
            }
            if let Some(mut outer) = frames.pop() {
                put_result(&mut outer, frame.result)?;
                frames.push(outer)?;
            }
            Ok(true)
        }
        _ => {
            let ok = check_plain(module, ftype, locals, frames.as_slice(), &mut frame, instr)?;
            frames.push(frame)?;
            Ok(ok)
        }
    }
}

/// The first faulty instruction of a closed body, if it hasn't the type of its function.
pub fn check_body(
    alloc: Global,
    module: &Module,
    ftype: &FuncType,
    locals: &Locals,
    code: &[Instr],
) -> Result<Option<BodyFault>, AllocError>
    requires closed { (body : Tree) × IsBody code.now body }
    // Without a fault it has the type of its function.
    ensures typed { IfOk result (λ fault. IfNone fault (IsTyped (context_in «module».now ftype.now locals.now) code.now)) }
    // A fault is the first one, and the body hasn't that type.
    ensures faulty { IfOk result (λ fault. IfSome fault (λ f. IsFirstFault (context_in «module».now ftype.now locals.now) code.now f.at f.kind)) }
    ensures untyped { IfOk result (λ fault. IfSome fault (λ _. IsTyped (context_in «module».now ftype.now locals.now) code.now → ⊥)) }
{
    let mut frames = Vec::new(alloc);
    frames.push(new_frame(alloc, Kind::Body, ftype.result))?;
    for (at, instr) in code.iter().enumerate() {
        let depth = frames.len();
        if !check_instr(alloc, module, ftype, locals, &mut frames, instr)? {
            let kind = kind_of(module, ftype, locals, depth, instr);
            return Ok(Some(BodyFault { at, kind }));
        }
    }
    Ok(None)
}
