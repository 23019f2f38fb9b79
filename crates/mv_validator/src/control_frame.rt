// What is known of the operands of a block that is being checked.

ghost use Rattle.std.specs.Prelude.{◌≡◌, ◌∷◌, [], ◌++◌, true, Some, None, OnOk, IfOk, if◌then◌else◌, reverse, map};
ghost use Rattle.std.specs.Option.{option_map};
ghost use Rattle.mv_validator.specs.Types.{operands_of};
ghost use Rattle.mv_validator.specs.OperandStack.{taken, any_taken, all_taken, operand_taken, met as both, selected};

use mv_syntax::ValType;
use std::alloc::AllocError;

/// What opened a block.
#[derive(Clone, Copy, PartialEq, Eq, Debug)]
pub enum Kind {
    Body,
    Block,
    Loop,
    If,
    Else,
}

/// A block that is being checked: what opened it, what it gives, its operands with the newest last, of
/// which some may have any type, and whether any may lie below them, since no run comes here.
#[derive(Drop)]
pub struct ControlFrame {
    pub kind: Kind,
    pub result: Option<ValType>,
    pub operands: Vec<Option<ValType>>,
    pub unreachable: bool,
}

// Takes an operand of the type, and tells whether there was one.
pub fn take(frame: &mut ControlFrame, wanted: ValType) -> bool
    ensures rest { frame.new ≡ record frame.old { operands = frame.new.operands } }
    ensures taken { taken wanted (reverse frame.old.operands.items) frame.old.unreachable ≡ (if result then Some (reverse frame.new.operands.items) else None) }
{
    match frame.operands.pop() {
        None => frame.unreachable,
        Some(None) => true,
        Some(Some(found)) => found == wanted,
    }
}

// Takes an operand of any type.
pub fn take_any(frame: &mut ControlFrame) -> bool
    ensures rest { frame.new ≡ record frame.old { operands = frame.new.operands } }
    ensures taken { any_taken (reverse frame.old.operands.items) frame.old.unreachable ≡ (if result then Some (reverse frame.new.operands.items) else None) }
{
    match frame.operands.pop() {
        None => frame.unreachable,
        Some(_) => true,
    }
}

// Takes what a block gives.
pub fn take_result(frame: &mut ControlFrame, wanted: Option<ValType>) -> bool
    ensures rest { frame.new ≡ record frame.old { operands = frame.new.operands } }
    ensures taken { all_taken (operands_of wanted) (reverse frame.old.operands.items) frame.old.unreachable ≡ (if result then Some (reverse frame.new.operands.items) else None) }
{
    match wanted {
        None => true,
        Some(wanted) => take(frame, wanted),
    }
}

// Takes an operand, and tells what is known of its type.
fn take_operand(frame: &mut ControlFrame) -> Option<Option<ValType>>
    ensures rest { frame.new ≡ record frame.old { operands = frame.new.operands } }
    ensures taken { operand_taken (reverse frame.old.operands.items) frame.old.unreachable ≡ option_map (λ o. (o, reverse frame.new.operands.items)) result }
{
    match frame.operands.pop() {
        None => { if frame.unreachable { Some(None) } else { None } }
        Some(found) => Some(found),
    }
}

// What is known of a type of which two things are known.
fn met(a: Option<ValType>, b: Option<ValType>) -> Option<Option<ValType>>
    ensures { result ≡ both a b }
{
    match (a, b) {
        (None, b) => Some(b),
        (a, None) => Some(a),
        (Some(a), Some(b)) => { if a == b { Some(Some(a)) } else { None } }
    }
}

// Takes a condition and two operands of one type, and puts one of them.
pub fn select(frame: &mut ControlFrame) -> Result<bool, AllocError>
    ensures rest { frame.new ≡ record frame.old { operands = frame.new.operands } }
    ensures selected { IfOk result (λ ok. selected (reverse frame.old.operands.items) frame.old.unreachable ≡ (if ok then Some (reverse frame.new.operands.items) else None)) }
{
    if !take(frame, ValType::I32) {
        return Ok(false);
    }
    let Some(a) = take_operand(frame) else {
        return Ok(false);
    };
    let Some(b) = take_operand(frame) else {
        return Ok(false);
    };
    match met(a, b) {
        None => Ok(false),
        Some(known) => {
            frame.operands.push(known)?;
            Ok(true)
        }
    }
}

// Puts an operand on the others.
pub fn put(frame: &mut ControlFrame, found: ValType) -> Result<(), AllocError>
    ensures rest { frame.new ≡ record frame.old { operands = frame.new.operands } }
    ensures put { OnOk result (reverse frame.new.operands.items ≡ Some found ∷ reverse frame.old.operands.items) }
{
    frame.operands.push(Some(found))?;
    Ok(())
}

// Puts what a block gives on the others.
pub fn put_result(frame: &mut ControlFrame, given: Option<ValType>) -> Result<(), AllocError>
    ensures rest { frame.new ≡ record frame.old { operands = frame.new.operands } }
    ensures put { OnOk result (reverse frame.new.operands.items ≡ map Some (operands_of given) ++ reverse frame.old.operands.items) }
{
    match given {
        None => Ok(()),
        Some(given) => put(frame, given),
    }
}

// No run comes behind this place.
pub fn die(frame: &mut ControlFrame)
    ensures { frame.new ≡ record frame.old { operands = frame.new.operands; unreachable = true } × (reverse frame.new.operands.items ≡ []) }
{
    frame.operands.clear();
    frame.unreachable = true;
}
