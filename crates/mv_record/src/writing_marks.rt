//! Writing marks.
ghost use Rattle.std.specs.Prelude.{◌≡◌, ◌++◌, OnOk};
ghost use Rattle.mv_record.specs.Spelling.{cause_text, got_text, how_text, mark_text, rule_fault_text, rule_kind_text, side_text, why_text};
ghost use Rattle.mv_record.specs.Fitting.{FitsCause, FitsGot, FitsHow, FitsMark, FitsRuleFault, IsTold, IsToldCause, IsToldMark};

use crate::putting::{put_u8, put_u32, put_u64};
use crate::writing_births::{put_born_fault, put_trap};
use crate::writing_calls::put_call;
use mv_calls::{OutOfMemory, Trap};
use mv_history::{Cause, How, Mark, Side, Why};
use mv_orders::Word;
use mv_rules::{RuleFault, RuleKind};
use mv_version::Event;

/// Writes the side of a list of rules.
fn put_side(out: &mut Vec<u8>, value: Side) -> Result<(), OutOfMemory>
    ensures text { OnOk result (out.new.items ≡ out.old.items ++ side_text value) }
{
    match value {
        Side::Forward => put_u8(out, 0),
        Side::Reverse => put_u8(out, 1),
    }
}

/// Writes what is wrong with a line of rules.
fn put_rule_kind(out: &mut Vec<u8>, value: RuleKind) -> Result<(), OutOfMemory>
    ensures text { OnOk result (out.new.items ≡ out.old.items ++ rule_kind_text value) }
{
    match value {
        RuleKind::Size => put_u8(out, 0),
        RuleKind::Header => put_u8(out, 1),
        RuleKind::Shape => put_u8(out, 2),
        RuleKind::Many => put_u8(out, 3),
        RuleKind::Empty => put_u8(out, 4),
        RuleKind::Word => put_u8(out, 5),
        RuleKind::Number => put_u8(out, 6),
        RuleKind::Quote => put_u8(out, 7),
        RuleKind::Name => put_u8(out, 8),
        RuleKind::Twice => put_u8(out, 9),
        RuleKind::Unbound => put_u8(out, 10),
        RuleKind::Reads => put_u8(out, 11),
        RuleKind::Accepts => put_u8(out, 12),
        RuleKind::Guard => put_u8(out, 13),
    }
}

/// Writes the first fault of a rules file.
fn put_rule_fault(out: &mut Vec<u8>, value: RuleFault) -> Result<(), OutOfMemory>
    ensures fits { OnOk result (FitsRuleFault value) }
    ensures text { OnOk result (out.new.items ≡ out.old.items ++ rule_fault_text value) }
{
    put_u32(out, value.line)?;
    put_rule_kind(out, value.kind)
}

/// Writes what a follower did instead.
fn put_got(out: &mut Vec<u8>, value: &Event) -> Result<(), OutOfMemory>
    requires told { IsTold value.now }
    ensures fits { OnOk result (FitsGot value.now) }
    ensures text { OnOk result (out.new.items ≡ out.old.items ++ got_text value.now) }
{
    match value {
        Event::Calls(call) => {
            put_u8(out, 0)?;
            put_call(out, call)
        }
        Event::Ends(code) => {
            put_u8(out, 1)?;
            put_u32(out, *code)
        }
        Event::Point | Event::Traps(_) => unreachable!(),
    }
}

/// Writes why a follower is given up.
fn put_cause(out: &mut Vec<u8>, value: &Cause) -> Result<(), OutOfMemory>
    requires told { IsToldCause value.now }
    ensures fits { OnOk result (FitsCause value.now) }
    ensures text { OnOk result (out.new.items ≡ out.old.items ++ cause_text value.now) }
{
    match value {
        Cause::Trap { k, trap } => {
            put_u8(out, 0)?;
            put_u64(out, *k)?;
            put_trap(out, *trap)
        }
        Cause::Mismatch { k, want, got } => {
            put_u8(out, 1)?;
            put_u64(out, *k)?;
            put_call(out, want)?;
            put_got(out, got)
        }
        Cause::Refused(fault) => {
            put_u8(out, 2)?;
            put_born_fault(out, *fault)
        }
        Cause::Rules { side, fault } => {
            put_u8(out, 3)?;
            put_side(out, *side)?;
            put_rule_fault(out, *fault)
        }
        Cause::Order { n } => {
            put_u8(out, 4)?;
            put_u64(out, *n)
        }
        Cause::Memory => put_u8(out, 5),
    }
}

/// Writes why a hand-over is asked for.
fn put_why(out: &mut Vec<u8>, value: Why) -> Result<(), OutOfMemory>
    ensures text { OnOk result (out.new.items ≡ out.old.items ++ why_text value) }
{
    match value {
        Why::Promote => put_u8(out, 0),
        Why::Back => put_u8(out, 1),
        Why::Trap(trap) => {
            put_u8(out, 2)?;
            put_trap(out, trap)
        }
    }
}

/// Writes how a run ended.
fn put_how(out: &mut Vec<u8>, value: How) -> Result<(), OutOfMemory>
    ensures fits { OnOk result (FitsHow value) }
    ensures text { OnOk result (out.new.items ≡ out.old.items ++ how_text value) }
{
    match value {
        How::Ended(code) => {
            put_u8(out, 0)?;
            put_u32(out, code)
        }
        How::Trapped(trap) => {
            put_u8(out, 1)?;
            put_trap(out, trap)
        }
        How::Halted => put_u8(out, 2),
        How::Cut => put_u8(out, 3),
        How::KernelFault => put_u8(out, 4),
        How::LogLimit => put_u8(out, 5),
        How::Memory => put_u8(out, 6),
    }
}

/// Writes a mark.
pub(crate) fn put_mark(out: &mut Vec<u8>, value: &Mark) -> Result<(), OutOfMemory>
    requires told { IsToldMark value.now }
    ensures fits { OnOk result (FitsMark value.now) }
    ensures text { OnOk result (out.new.items ≡ out.old.items ++ mark_text value.now) }
{
    match value {
        Mark::Fork { update } => {
            put_u8(out, 0)?;
            put_u32(out, *update)
        }
        Mark::NoCopy { update } => {
            put_u8(out, 1)?;
            put_u32(out, *update)
        }
        Mark::Hand { why } => {
            put_u8(out, 2)?;
            put_why(out, *why)
        }
        Mark::Promote => put_u8(out, 3),
        Mark::Over => put_u8(out, 4),
        Mark::Back => put_u8(out, 5),
        Mark::Finish => put_u8(out, 6),
        Mark::Discard { cause } => {
            put_u8(out, 7)?;
            put_cause(out, cause)
        }
        Mark::Dropped { cause } => {
            put_u8(out, 8)?;
            put_cause(out, cause)
        }
        Mark::End { how } => {
            put_u8(out, 9)?;
            put_how(out, *how)
        }
    }
}
