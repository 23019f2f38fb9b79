//! What stands in front of the newest call, once ends of blocks and returns are passed.

ghost use Rattle.std.specs.Prelude.{◌≡◌, ◌<◌, OnErr, IfOk, reverse};
ghost use Rattle.mv_execution.specs.Run.{settled};
ghost use Rattle.mv_machine.specs.States.{config_of, IsFine, open_count};
ghost use Rattle.mv_machine.specs.Turns.{TurnIs, FrontIs};

use crate::calls::{close_block, leave_call};
use crate::state::State;
use mv_calls::OutOfMemory;
use mv_frames::is_list_end;
use mv_syntax::Module;

/// What stands in front: a call that waits, nothing since all calls have returned, an instruction, or an end, which was passed.
pub enum Turn {
    Waits(u32),
    Ended(Option<u64>),
    Ready,
    Closed,
}

/// What stands in front of a configuration that is settled.
pub enum Front {
    Waits(u32),
    Ended(Option<u64>),
    AtInstruction,
}

/// Passes the end of a list or a return at the end of a body, where the newest call is at one.
fn settle_once(module: &Module, state: &mut State) -> Result<Turn, OutOfMemory>
    requires fine { IsFine «module».now state.old }
    ensures fine { IsFine «module».now state.new }
    ensures same { settled (config_of «module».now state.old) ≡ settled (config_of «module».now state.new) }
    ensures gap { state.new.gap ≡ state.old.gap }
    ensures turn { IfOk result (λ turn. TurnIs turn (config_of «module».now state.new)) }
    ensures fewer { IfOk result (λ turn. turn ≡ Turn.Closed → open_count (reverse state.new.frames.items) < open_count (reverse state.old.frames.items)) }
{
    if let Some(x) = state.waiting {
        return Ok(Turn::Waits(x));
    }
    if state.frames.is_empty() {
        return Ok(Turn::Ended(state.given));
    }
    let newest = &state.frames[state.frames.len() - 1];
    if newest.labels.is_empty() {
        leave_call(module, state)?;
        return Ok(Turn::Closed);
    }
    if is_list_end(&module.funcs.slice()[newest.func].code.slice()[newest.at]) {
        close_block(module, state);
        return Ok(Turn::Closed);
    }
    Ok(Turn::Ready)
}

/// Passes the ends of lists, and the returns at the ends of bodies, up to the next instruction. For want of memory some are
/// passed.
pub fn settle(module: &Module, state: &mut State) -> Result<Front, OutOfMemory>
    requires fine { IsFine «module».now state.old }
    ensures fine { IsFine «module».now state.new }
    ensures same { settled (config_of «module».now state.old) ≡ settled (config_of «module».now state.new) }
    ensures gap { state.new.gap ≡ state.old.gap }
    ensures front { IfOk result (λ front. FrontIs front (config_of «module».now state.new)) }
{
    loop {
        match settle_once(module, state)? {
            Turn::Waits(x) => return Ok(Front::Waits(x)),
            Turn::Ended(value) => return Ok(Front::Ended(value)),
            Turn::Ready => return Ok(Front::AtInstruction),
            Turn::Closed => {}
        }
    }
}
