//! A call that has not returned, over flat code.
ghost use Rattle.std.specs.Prelude.{◌≡◌, [], ◌∷◌, OnOk, OnErr, IfOk, IsSome, ◌≤◌, ◌<◌, ◌+◌, ◌-◌, ◌++◌, Some, length, reverse, take, drop, vec_len, slice_get, unwrap_or};
ghost use Rattle.std.proofs.Common.{replicate};
ghost use Rattle.mv_frames.specs.Arity.{arity_if};
ghost use Rattle.mv_execution.specs.Rows.{branched, returned};
ghost use Rattle.mv_frames.specs.Blocks.{closed, began_block};
ghost use Rattle.mv_frames.specs.Frames.{frame_of, IsPlaced, IsIf};
ghost use Rattle.mv_execution.specs.Step.{entry_frame};
ghost use Rattle.mv_execution.specs.Instance.{tree_of};
ghost use Rattle.mv_syntax.specs.Tree.{IsClosedCode};

use crate::walk::{other_list, past_ends};
use mv_syntax::{Func, FuncType, Instr};
use std::alloc::{AllocError, Global};

/// An open block: whether a branch to it carries an operand, how many operands lie below it, and, of
/// a loop, where its body starts.
#[derive(Clone, Copy)]
pub struct Label {
    pub carries: bool,
    pub height: usize,
    pub start: Option<usize>,
}

/// A call: its function, whether it gives a result, its place in the function's code, its locals, its operands and
/// its open blocks, the newest of each last.
#[derive(Drop)]
pub struct Frame {
    pub func: usize,
    pub gives: bool,
    pub at: usize,
    pub locals: Vec<u64>,
    pub operands: Vec<u64>,
    pub labels: Vec<Label>,
}

/// Leaves the newest operand, where it is carried, over so many of the oldest.
fn keep_top(operands: &mut Vec<u64>, height: usize, carries: bool)
    requires { height + arity_if carries ≤ vec_len operands.old }
    ensures { reverse operands.new.items ≡ take (arity_if carries) (reverse operands.old.items) ++ drop (vec_len operands.old - height) (reverse operands.old.items) }
{
    if carries {
        let top = operands[operands.len() - 1];
        operands[height] = top;
        operands.truncate(height + 1);
    } else {
        operands.truncate(height);
    }
}

/// Goes to the end of the nth open block, or to the start of its body where it is a loop; the innermost is 0.
pub fn branch(code: &[Instr], frame: &mut Frame, n: usize)
    requires placed { IsPlaced code.now frame.old }
    requires operands { IsSome (branched n (frame_of code.now frame.old)) }
    ensures moves { branched n (frame_of code.now frame.old) ≡ Some (frame_of code.now frame.new) }
    ensures placed { IsPlaced code.now frame.new }
    ensures func { frame.new.func ≡ frame.old.func }
{
    let below = frame.labels.len() - 1 - n;
    let label = frame.labels[below];
    keep_top(&mut frame.operands, label.height, label.carries);
    match label.start {
        Some(start) => {
            frame.at = start;
            frame.labels.truncate(below + 1);
        }
        None => {
            frame.at = past_ends(code, frame.at, n + 1);
            frame.labels.truncate(below);
        }
    }
}

/// Leaves the innermost block, whose list is at its end.
pub fn close(code: &[Instr], frame: &mut Frame)
    requires placed { IsPlaced code.now frame.old }
    requires ends { IsSome (closed (frame_of code.now frame.old)) }
    ensures closes { closed (frame_of code.now frame.old) ≡ Some (frame_of code.now frame.new) }
    ensures placed { IsPlaced code.now frame.new }
    ensures fewer { vec_len frame.new.labels + 1 ≡ vec_len frame.old.labels }
    ensures func { frame.new.func ≡ frame.old.func }
{
    let at = match &code[frame.at] {
        Instr::Else => past_ends(code, frame.at, 1),
        _ => frame.at + 1,
    };
    frame.at = at;
    frame.labels.truncate(frame.labels.len() - 1);
}

/// Enters a block at its place.
pub fn enter(frame: &mut Frame, at: usize, label: Label) -> Result<(), AllocError>
    ensures ok { OnOk result ((frame.new ≡ record frame.old { at = at; labels = frame.new.labels }) × (frame.new.labels.items ≡ frame.old.labels.items ++ label ∷ [])) }
    ensures err { OnErr result ((frame.new ≡ record frame.old { labels = frame.new.labels }) × (frame.new.labels.items ≡ frame.old.labels.items)) }
{
    frame.labels.push(label)?;
    frame.at = at;
    Ok(())
}

/// Takes the newest operand.
pub fn pop(frame: &mut Frame) -> u64
    requires { 0 < vec_len frame.old.operands }
    ensures rest { frame.new ≡ record frame.old { operands = frame.new.operands } }
    ensures top { reverse frame.old.operands.items ≡ result ∷ reverse frame.new.operands.items }
{
    let below = frame.operands.len() - 1;
    let top = frame.operands[below];
    frame.operands.truncate(below);
    top
}

/// Puts an operand on the others.
pub fn push(frame: &mut Frame, value: u64) -> Result<(), AllocError>
    ensures ok { OnOk result ((frame.new ≡ record frame.old { operands = frame.new.operands }) × (reverse frame.new.operands.items ≡ value ∷ reverse frame.old.operands.items)) }
    ensures err { OnErr result ((frame.new ≡ record frame.old { operands = frame.new.operands }) × (frame.new.operands.items ≡ frame.old.operands.items)) }
{
    frame.operands.push(value)?;
    Ok(())
}

/// The newest operand.
pub fn top(frame: &Frame) -> u64
    requires { 0 < vec_len frame.now.operands }
    ensures { reverse frame.now.operands.items ≡ result ∷ drop 1 (reverse frame.now.operands.items) }
{
    frame.operands[frame.operands.len() - 1]
}

/// The operand under the newest one.
pub fn second(frame: &Frame) -> u64
    requires { 1 < vec_len frame.now.operands }
    ensures { drop 1 (reverse frame.now.operands.items) ≡ result ∷ drop 2 (reverse frame.now.operands.items) }
{
    frame.operands[frame.operands.len() - 2]
}

/// Writes over the newest operand.
pub fn replace_top(frame: &mut Frame, value: u64)
    requires { 0 < vec_len frame.old.operands }
    ensures rest { frame.new ≡ record frame.old { operands = frame.new.operands } }
    ensures top { reverse frame.new.operands.items ≡ value ∷ drop 1 (reverse frame.old.operands.items) }
{
    let last = frame.operands.len() - 1;
    frame.operands[last] = value;
}

/// Begins the block at the frame's place. For want of memory nothing changes.
pub fn begin_block(code: &[Instr], frame: &mut Frame) -> Result<(), AllocError>
    requires placed { IsPlaced code.now frame.old }
    requires runs { IsSome (began_block (frame_of code.now frame.old)) }
    ensures ok { OnOk result (began_block (frame_of code.now frame.old) ≡ Some (frame_of code.now frame.new)) }
    ensures err { OnErr result (frame_of code.now frame.new ≡ frame_of code.now frame.old) }
    ensures placed { IsPlaced code.now frame.new }
    ensures func { frame.new.func ≡ frame.old.func }
{
    let at = frame.at;
    let instr = &code[at];
    let next = at + 1;
    match instr {
        Instr::Block(result) => {
            let label = Label {
                carries: result.is_some(),
                height: frame.operands.len(),
                start: None,
            };
            enter(frame, next, label)
        }
        Instr::Loop(_) => {
            let label = Label {
                carries: false,
                height: frame.operands.len(),
                start: Some(next),
            };
            enter(frame, next, label)
        }
        Instr::If(result) => enter_if(code, frame, result.is_some()),
        _ => unreachable!(),
    }
}

/// Enters the list of an `if` that the newest operand chooses.
pub fn enter_if(code: &[Instr], frame: &mut Frame, carries: bool) -> Result<(), AllocError>
    requires placed { IsPlaced code.now frame.old }
    requires here { IsIf carries code.now frame.old.at }
    requires runs { IsSome (began_block (frame_of code.now frame.old)) }
    ensures ok { OnOk result (began_block (frame_of code.now frame.old) ≡ Some (frame_of code.now frame.new)) }
    ensures err { OnErr result (frame_of code.now frame.new ≡ frame_of code.now frame.old) }
    ensures placed { IsPlaced code.now frame.new }
    ensures func { frame.new.func ≡ frame.old.func }
{
    let start = frame.at + 1;
    let at = if top(frame) == 0 {
        other_list(code, start)
    } else {
        start
    };
    let label = Label {
        carries,
        height: frame.operands.len() - 1,
        start: None,
    };
    enter(frame, at, label)?;
    pop(frame);
    Ok(())
}

/// Leaves all blocks with what the function gives.
pub fn leave_blocks(code: &[Instr], frame: &mut Frame)
    requires { IsSome (returned (frame_of code.now frame.old)) }
    ensures left { returned (frame_of code.now frame.old) ≡ Some (frame_of code.now frame.new) }
    ensures placed { IsPlaced code.now frame.new }
    ensures func { frame.new.func ≡ frame.old.func }
{
    let gives = frame.gives;
    keep_top(&mut frame.operands, 0, gives);
    frame.labels.clear();
    frame.at = code.len();
}

/// The arguments, and so many zeros behind them.
fn new_locals(alloc: Global, arguments: &[u64], more: usize) -> Result<Vec<u64>, AllocError>
    ensures { IfOk result (λ v. v.items ≡ arguments.now ++ replicate more 0) }
{
    let mut locals = Vec::with_capacity(alloc, arguments.len().saturating_add(more))?;
    locals.extend_from_slice(arguments)?;
    for _ in 0..more {
        locals.push(0)?;
    }
    Ok(locals)
}

/// A call of a function with these arguments, at the start of its code.
pub fn new_call(
    alloc: Global,
    func: usize,
    ftype: &FuncType,
    callee: &Func,
    arguments: &[u64],
) -> Result<Frame, AllocError>
    requires { IsClosedCode callee.now.code }
    ensures call { IfOk result (λ frame. frame_of callee.now.code frame ≡ entry_frame ftype.now (record { locals = length callee.now.locals; tree = tree_of callee.now.code }) arguments.now) }
    ensures placed { IfOk result (IsPlaced callee.now.code) }
    ensures func { IfOk result (λ frame. frame.func ≡ func) }
{
    let locals = new_locals(alloc, arguments, callee.locals.len())?;
    let carries = ftype.result.is_some();
    let mut labels = Vec::new(alloc);
    labels.push(Label {
        carries,
        height: 0,
        start: None,
    })?;
    Ok(Frame {
        func,
        gives: carries,
        at: 0,
        locals,
        operands: Vec::new(alloc),
        labels,
    })
}
