//! Copies of a state.

ghost use Rattle.std.specs.Prelude.{◌≡◌, ◌<◌, IfOk, vec_len, vec_capacity};
ghost use Rattle.mv_memory.specs.Memory.{disowned};
ghost use Rattle.mv_execution.specs.Instance.{with_memory};
ghost use Rattle.mv_machine.specs.States.{config_of, IsFine};
ghost use Rattle.mv_machine.specs.Copies.{IsSameFrame, AreSameFrames};

use crate::state::State;
use mv_calls::OutOfMemory;
use mv_frames::{Frame, Label, Store};
use mv_syntax::Module;
use std::alloc::Global;

/// The same numbers, with place for one more.
fn copy_operands(alloc: Global, operands: &[u64]) -> Result<Vec<u64>, OutOfMemory>
    ensures same { IfOk result (λ copy. copy.items ≡ operands.now) }
    ensures place { IfOk result (λ copy. vec_len copy < vec_capacity copy) }
{
    let mut copy = Vec::with_capacity(alloc, operands.len() + 1)?;
    copy.extend_from_slice(operands)?;
    Ok(copy)
}

fn copy_labels(alloc: Global, labels: &[Label]) -> Result<Vec<Label>, OutOfMemory>
    ensures { IfOk result (λ copy. copy.items ≡ labels.now) }
{
    Ok(Vec::from_slice(alloc, labels)?)
}

fn copy_frame(alloc: Global, frame: &Frame) -> Result<Frame, OutOfMemory>
    ensures { IfOk result (IsSameFrame frame.now) }
{
    Ok(Frame {
        func: frame.func,
        gives: frame.gives,
        at: frame.at,
        locals: Vec::from_slice(alloc, frame.locals.as_slice())?,
        operands: copy_operands(alloc, frame.operands.as_slice())?,
        labels: copy_labels(alloc, frame.labels.as_slice())?,
    })
}

fn copy_frames(alloc: Global, frames: &[Frame]) -> Result<Vec<Frame>, OutOfMemory>
    ensures { IfOk result (λ copies. AreSameFrames frames.now copies.items) }
{
    let mut copies = Vec::with_capacity(alloc, frames.len())?;
    for frame in frames {
        copies.push(copy_frame(alloc, frame)?)?;
    }
    Ok(copies)
}

fn copy_table(alloc: Global, table: &[Option<u32>]) -> Result<Vec<Option<u32>>, OutOfMemory>
    ensures { IfOk result (λ copy. copy.items ≡ table.now) }
{
    Ok(Vec::from_slice(alloc, table)?)
}

/// The same state. Its memory owns nothing.
pub fn copy_state(alloc: Global, module: &Module, state: &State) -> Result<State, OutOfMemory>
    requires fine { IsFine «module».now state.now }
    ensures same { IfOk result (λ copy. config_of «module».now copy ≡ with_memory (disowned state.now.store.memory) (config_of «module».now state.now)) }
    ensures fine { IfOk result (λ copy. IsFine «module».now copy) }
{
    let store = Store {
        memory: state.store.memory.copy(alloc)?,
        globals: Vec::from_slice(alloc, state.store.globals.as_slice())?,
        table: copy_table(alloc, state.store.table.as_slice())?,
    };
    Ok(State {
        store,
        frames: copy_frames(alloc, state.frames.as_slice())?,
        operands: state.operands,
        waiting: state.waiting,
        given: state.given,
        gap: state.gap,
    })
}
