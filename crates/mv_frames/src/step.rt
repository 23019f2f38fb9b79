//! One counted instruction of a call.

ghost use Rattle.std.specs.Prelude.{◌≡◌, true, false, ◌+◌, ◌<◌, length, IfOk, IfSome, OnErr};
ghost use Rattle.mv_execution.specs.Rows.{acted, IsGoing, CameTo};
ghost use Rattle.mv_frames.specs.Blocks.{acts, is_access, starts_block, advanced_frame};
ghost use Rattle.mv_frames.specs.Frames.{frame_of, IsPlaced};
ghost use Rattle.mv_frames.specs.Stores.{store_of};

use crate::access::run_access;
use crate::frame::{Frame, begin_block};
use crate::instruction::act;
use crate::store::Store;
use mv_calls::{OutOfMemory, Trap};
use mv_syntax::Instr;
use std::alloc::Global;

/// Whether the instruction reads or writes bytes of the memory.
fn is_memory_access(instr: &Instr) -> bool
    ensures { result ≡ is_access instr.now }
{
    matches!(instr, Instr::Load { .. } | Instr::Store { .. })
}

/// An instruction that begins no block and calls nothing, the frame being at its place. After a trap and for want of memory
/// all is as before.
fn advance_plain(
    alloc: Global,
    code: &[Instr],
    store: &mut Store,
    frame: &mut Frame,
    instr: &Instr,
) -> Result<Option<Trap>, OutOfMemory>
    requires within { frame.old.at < length code.now }
    requires placed { IsPlaced code.now frame.old }
    requires behind { IsPlaced code.now (record frame.old { at = frame.old.at + 1 }) }
    requires runs { IsGoing (acted instr.now (store_of store.old) (frame_of code.now (record frame.old { at = frame.old.at + 1 }))) }
    requires acts { is_access instr.now ≡ false → acts instr.now ≡ true }
    ensures ok { IfOk result (λ trap. CameTo trap (acted instr.now (store_of store.old) (frame_of code.now (record frame.old { at = frame.old.at + 1 }))) (store_of store.old, frame_of code.now frame.old) (store_of store.new, frame_of code.now frame.new)) }
    ensures err { OnErr result ((store_of store.new ≡ store_of store.old) × (frame_of code.now frame.new ≡ frame_of code.now frame.old)) }
    ensures placed { IsPlaced code.now frame.new }
    ensures func { frame.new.func ≡ frame.old.func }
{
    let at = frame.at;
    frame.at = at + 1;
    let outcome = if is_memory_access(instr) {
        run_access(alloc, code, store, frame, instr)
    } else {
        act(alloc, code, store, frame, instr)
    };
    match outcome {
        Ok(None) => Ok(None),
        stopped => {
            frame.at = at;
            stopped
        }
    }
}

/// Whether the instruction begins a block.
fn is_block_start(instr: &Instr) -> bool
    ensures { result ≡ starts_block instr.now }
{
    matches!(instr, Instr::Block(_) | Instr::Loop(_) | Instr::If(_))
}

/// One counted instruction that calls nothing (WebAssembly Core 1.0, 4.4). After a trap and for want of memory all is as
/// before.
pub fn advance(
    alloc: Global,
    code: &[Instr],
    store: &mut Store,
    frame: &mut Frame,
) -> Result<Option<Trap>, OutOfMemory>
    requires placed { IsPlaced code.now frame.old }
    requires runs { IsGoing (advanced_frame (store_of store.old) (frame_of code.now frame.old)) }
    ensures ok { IfOk result (λ trap. CameTo trap (advanced_frame (store_of store.old) (frame_of code.now frame.old)) (store_of store.old, frame_of code.now frame.old) (store_of store.new, frame_of code.now frame.new)) }
    ensures err { OnErr result ((store_of store.new ≡ store_of store.old) × (frame_of code.now frame.new ≡ frame_of code.now frame.old)) }
    ensures placed { IsPlaced code.now frame.new }
    ensures func { frame.new.func ≡ frame.old.func }
{
    let instr = &code[frame.at];
    if is_block_start(instr) {
        begin_block(code, frame)?;
        return Ok(None);
    }
    advance_plain(alloc, code, store, frame, instr)
}
