//! Instructions that begin no block and call nothing.

ghost use Rattle.std.specs.Prelude.{◌≡◌, true, ◌∷◌, ◌+◌, ◌≤◌, ◌<◌, OnOk, OnErr, IfOk, IfSome, Some, vec_len, slice_get, unwrap_or};
ghost use Rattle.mv_execution.specs.Rows.{acted, IsGoing, CameTo};
ghost use Rattle.mv_frames.specs.Frames.{frame_of, IsPlaced};
ghost use Rattle.mv_frames.specs.Blocks.{acts};
ghost use Rattle.mv_frames.specs.Stores.{store_of};

use crate::frame::{Frame, branch, leave_blocks, pop, push, replace_top, second, top};
use crate::store::Store;
use mv_arith::{ArithTrap, binop, compare_op, test_op, unop};
use mv_calls::{OutOfMemory, Trap};
use mv_syntax::Instr;
use std::alloc::Global;

/// The index at a place of a list, or the last one past its end.
fn listed_or(labels: &[u32], place: u64, last: u32) -> u32
    ensures { result ≡ unwrap_or (slice_get labels.now place) last }
{
    if place < labels.len() as u64 {
        labels[place as usize]
    } else {
        last
    }
}

/// One instruction on operands, locals and globals, or a branch; the frame is behind it already. After a trap and for
/// want of memory all is as before.
pub fn act(
    alloc: Global,
    code: &[Instr],
    store: &mut Store,
    frame: &mut Frame,
    instr: &Instr,
) -> Result<Option<Trap>, OutOfMemory>
    requires placed { IsPlaced code.now frame.old }
    requires acts { acts instr.now ≡ true }
    requires runs { IsGoing (acted instr.now (store_of store.old) (frame_of code.now frame.old)) }
    ensures ok { IfOk result (λ trap. CameTo trap (acted instr.now (store_of store.old) (frame_of code.now frame.old)) (store_of store.old, frame_of code.now frame.old) (store_of store.new, frame_of code.now frame.new)) }
    ensures trap { IfOk result (λ trap. IfSome trap (λ t. frame.new ≡ frame.old)) }
    ensures err { OnErr result ((store_of store.new ≡ store_of store.old) × (frame.new ≡ record frame.old { operands = frame.new.operands }) × (frame.new.operands.items ≡ frame.old.operands.items)) }
    ensures placed { IsPlaced code.now frame.new }
    ensures func { frame.new.func ≡ frame.old.func }
{
    match instr {
        Instr::Unreachable => return Ok(Some(Trap::Unreachable)),
        Instr::Nop => {}
        Instr::Br(label) => branch(code, frame, *label as usize),
        Instr::BrIf(label) => {
            if pop(frame) != 0 {
                branch(code, frame, *label as usize);
            }
        }
        Instr::BrTable { labels, last } => {
            let chosen = pop(frame);
            let label = listed_or(labels.slice(), chosen, *last);
            branch(code, frame, label as usize);
        }
        Instr::Return => leave_blocks(code, frame),
        Instr::Drop => {
            pop(frame);
        }
        Instr::Select => {
            let condition = pop(frame);
            let other = pop(frame);
            if condition == 0 {
                replace_top(frame, other);
            }
        }
        Instr::LocalGet(x) => {
            let value = frame.locals[*x as usize];
            push(frame, value)?;
        }
        Instr::LocalSet(x) => {
            let value = pop(frame);
            frame.locals[*x as usize] = value;
        }
        Instr::LocalTee(x) => {
            let value = top(frame);
            frame.locals[*x as usize] = value;
        }
        Instr::GlobalGet(x) => {
            let value = store.globals[*x as usize];
            push(frame, value)?;
        }
        Instr::GlobalSet(x) => {
            let value = pop(frame);
            store.globals[*x as usize] = value;
        }
        Instr::Const { value, .. } => push(frame, *value)?,
        Instr::Un(op) => {
            let a = top(frame);
            replace_top(frame, unop(*op, a));
        }
        Instr::Test(op) => {
            let a = top(frame);
            replace_top(frame, u64::from(test_op(*op, a)));
        }
        Instr::Rel(op) => {
            let b = pop(frame);
            let a = top(frame);
            replace_top(frame, u64::from(compare_op(*op, a, b)));
        }
        Instr::Bin(op) => {
            let b = top(frame);
            let a = second(frame);
            match binop(*op, a, b) {
                Ok(value) => {
                    pop(frame);
                    replace_top(frame, value);
                }
                Err(ArithTrap::DivideByZero) => return Ok(Some(Trap::DivideByZero)),
                Err(ArithTrap::Overflow) => return Ok(Some(Trap::Overflow)),
            }
        }
        Instr::MemorySize => push(frame, u64::from(store.memory.pages()))?,
        Instr::MemoryGrow => {
            let count = top(frame);
            let before = store.memory.grow(alloc, count as u32)?;
            replace_top(frame, before.map_or(0xFFFF_FFFF, u64::from));
        }
        Instr::Block(_)
        | Instr::Loop(_)
        | Instr::If(_)
        | Instr::Else
        | Instr::End
        | Instr::Call(_)
        | Instr::CallIndirect(_)
        | Instr::Load { .. }
        | Instr::Store { .. } => unreachable!(),
    }
    Ok(None)
}
