//! Reading marks.
ghost use Rattle.std.specs.Prelude.{◌≡◌};
ghost use Rattle.mv_record.specs.Reading.{GivesField, calls_got_at, cause_at, discard_mark_at, dropped_mark_at, end_mark_at, ended_how_at, ends_got_at, fork_mark_at, got_at, hand_mark_at, how_at, mark_at, mismatch_cause_at, no_copy_mark_at, order_cause_at, refused_cause_at, rule_fault_at, rule_kind_at, rules_cause_at, side_at, trap_cause_at, trap_why_at, trapped_how_at, why_at};

use crate::fault::BodyFault;
use crate::fields::{Field, u8_at, u32_at, u64_at};
use crate::reading_births::{born_fault_of, trap_of};
use crate::reading_calls::call_of;
use mv_calls::{Or, Trap};
use mv_history::{Cause, How, Mark, Side, Why};
use mv_orders::Word;
use mv_rules::{RuleFault, RuleKind};
use mv_version::Event;
use std::alloc::Global;

/// Reads the side of a list of rules.
#[tactic(auto, unfolding(crate::specs::Reading::side_at))]
fn side_of(bytes: &[u8]) -> Field<'_, Side>
    ensures { GivesField result (side_at bytes.now) }
{
    let (code, rest) = u8_at(bytes)?;
    match code {
        0 => Ok((Side::Forward, rest)),
        1 => Ok((Side::Reverse, rest)),
        _ => Err(Or::Fault(BodyFault::Code(bytes.len()))),
    }
}

/// Reads what is wrong with a line of rules.
#[tactic(auto, unfolding(crate::specs::Reading::rule_kind_at))]
fn rule_kind_of(bytes: &[u8]) -> Field<'_, RuleKind>
    ensures { GivesField result (rule_kind_at bytes.now) }
{
    let (code, rest) = u8_at(bytes)?;
    match code {
        0 => Ok((RuleKind::Size, rest)),
        1 => Ok((RuleKind::Header, rest)),
        2 => Ok((RuleKind::Shape, rest)),
        3 => Ok((RuleKind::Many, rest)),
        4 => Ok((RuleKind::Empty, rest)),
        5 => Ok((RuleKind::Word, rest)),
        6 => Ok((RuleKind::Number, rest)),
        7 => Ok((RuleKind::Quote, rest)),
        8 => Ok((RuleKind::Name, rest)),
        9 => Ok((RuleKind::Twice, rest)),
        10 => Ok((RuleKind::Unbound, rest)),
        11 => Ok((RuleKind::Reads, rest)),
        12 => Ok((RuleKind::Accepts, rest)),
        13 => Ok((RuleKind::Guard, rest)),
        _ => Err(Or::Fault(BodyFault::Code(bytes.len()))),
    }
}

/// Reads the first fault of a rules file.
#[tactic(auto, unfolding(crate::specs::Reading::rule_fault_at))]
fn rule_fault_of(bytes: &[u8]) -> Field<'_, RuleFault>
    ensures { GivesField result (rule_fault_at bytes.now) }
{
    let (line, rest) = u32_at(bytes)?;
    let (kind, rest) = rule_kind_of(rest)?;
    Ok((RuleFault { line, kind }, rest))
}

#[tactic(auto, unfolding(crate::specs::Reading::calls_got_at))]
fn calls_got_of(alloc: Global, bytes: &[u8]) -> Field<'_, Event>
    ensures { GivesField result (calls_got_at bytes.now) }
{
    let (call, rest) = call_of(alloc, bytes)?;
    Ok((Event::Calls(call), rest))
}

#[tactic(auto, unfolding(crate::specs::Reading::ends_got_at))]
fn ends_got_of(bytes: &[u8]) -> Field<'_, Event>
    ensures { GivesField result (ends_got_at bytes.now) }
{
    let (code, rest) = u32_at(bytes)?;
    Ok((Event::Ends(code), rest))
}

/// Reads what a follower did instead.
#[tactic(auto, unfolding(crate::specs::Reading::got_at))]
fn got_of(alloc: Global, bytes: &[u8]) -> Field<'_, Event>
    ensures { GivesField result (got_at bytes.now) }
{
    let (code, rest) = u8_at(bytes)?;
    match code {
        0 => calls_got_of(alloc, rest),
        1 => ends_got_of(rest),
        _ => Err(Or::Fault(BodyFault::Code(bytes.len()))),
    }
}

#[tactic(auto, unfolding(crate::specs::Reading::trap_cause_at))]
fn trap_cause_of(bytes: &[u8]) -> Field<'_, Cause>
    ensures { GivesField result (trap_cause_at bytes.now) }
{
    let (k, rest) = u64_at(bytes)?;
    let (trap, rest) = trap_of(rest)?;
    Ok((Cause::Trap { k, trap }, rest))
}

#[tactic(auto, unfolding(crate::specs::Reading::mismatch_cause_at))]
fn mismatch_cause_of(alloc: Global, bytes: &[u8]) -> Field<'_, Cause>
    ensures { GivesField result (mismatch_cause_at bytes.now) }
{
    let (k, rest) = u64_at(bytes)?;
    let (want, rest) = call_of(alloc, rest)?;
    let (got, rest) = got_of(alloc, rest)?;
    Ok((Cause::Mismatch { k, want, got }, rest))
}

#[tactic(auto, unfolding(crate::specs::Reading::refused_cause_at))]
fn refused_cause_of(bytes: &[u8]) -> Field<'_, Cause>
    ensures { GivesField result (refused_cause_at bytes.now) }
{
    let (fault, rest) = born_fault_of(bytes)?;
    Ok((Cause::Refused(fault), rest))
}

#[tactic(auto, unfolding(crate::specs::Reading::rules_cause_at))]
fn rules_cause_of(bytes: &[u8]) -> Field<'_, Cause>
    ensures { GivesField result (rules_cause_at bytes.now) }
{
    let (side, rest) = side_of(bytes)?;
    let (fault, rest) = rule_fault_of(rest)?;
    Ok((Cause::Rules { side, fault }, rest))
}

#[tactic(auto, unfolding(crate::specs::Reading::order_cause_at))]
fn order_cause_of(bytes: &[u8]) -> Field<'_, Cause>
    ensures { GivesField result (order_cause_at bytes.now) }
{
    let (n, rest) = u64_at(bytes)?;
    Ok((Cause::Order { n }, rest))
}

/// Reads why a follower is given up.
#[tactic(auto, unfolding(crate::specs::Reading::cause_at))]
fn cause_of(alloc: Global, bytes: &[u8]) -> Field<'_, Cause>
    ensures { GivesField result (cause_at bytes.now) }
{
    let (code, rest) = u8_at(bytes)?;
    match code {
        0 => trap_cause_of(rest),
        1 => mismatch_cause_of(alloc, rest),
        2 => refused_cause_of(rest),
        3 => rules_cause_of(rest),
        4 => order_cause_of(rest),
        5 => Ok((Cause::Memory, rest)),
        _ => Err(Or::Fault(BodyFault::Code(bytes.len()))),
    }
}

#[tactic(auto, unfolding(crate::specs::Reading::trap_why_at))]
fn trap_why_of(bytes: &[u8]) -> Field<'_, Why>
    ensures { GivesField result (trap_why_at bytes.now) }
{
    let (trap, rest) = trap_of(bytes)?;
    Ok((Why::Trap(trap), rest))
}

/// Reads why a hand-over is asked for.
#[tactic(auto, unfolding(crate::specs::Reading::why_at))]
fn why_of(bytes: &[u8]) -> Field<'_, Why>
    ensures { GivesField result (why_at bytes.now) }
{
    let (code, rest) = u8_at(bytes)?;
    match code {
        0 => Ok((Why::Promote, rest)),
        1 => Ok((Why::Back, rest)),
        2 => trap_why_of(rest),
        _ => Err(Or::Fault(BodyFault::Code(bytes.len()))),
    }
}

#[tactic(auto, unfolding(crate::specs::Reading::ended_how_at))]
fn ended_how_of(bytes: &[u8]) -> Field<'_, How>
    ensures { GivesField result (ended_how_at bytes.now) }
{
    let (code, rest) = u32_at(bytes)?;
    Ok((How::Ended(code), rest))
}

#[tactic(auto, unfolding(crate::specs::Reading::trapped_how_at))]
fn trapped_how_of(bytes: &[u8]) -> Field<'_, How>
    ensures { GivesField result (trapped_how_at bytes.now) }
{
    let (trap, rest) = trap_of(bytes)?;
    Ok((How::Trapped(trap), rest))
}

/// Reads how a run ended.
#[tactic(auto, unfolding(crate::specs::Reading::how_at))]
fn how_of(bytes: &[u8]) -> Field<'_, How>
    ensures { GivesField result (how_at bytes.now) }
{
    let (code, rest) = u8_at(bytes)?;
    match code {
        0 => ended_how_of(rest),
        1 => trapped_how_of(rest),
        2 => Ok((How::Halted, rest)),
        3 => Ok((How::Cut, rest)),
        4 => Ok((How::KernelFault, rest)),
        5 => Ok((How::LogLimit, rest)),
        6 => Ok((How::Memory, rest)),
        _ => Err(Or::Fault(BodyFault::Code(bytes.len()))),
    }
}

#[tactic(auto, unfolding(crate::specs::Reading::fork_mark_at))]
fn fork_mark_of(bytes: &[u8]) -> Field<'_, Mark>
    ensures { GivesField result (fork_mark_at bytes.now) }
{
    let (update, rest) = u32_at(bytes)?;
    Ok((Mark::Fork { update }, rest))
}

#[tactic(auto, unfolding(crate::specs::Reading::no_copy_mark_at))]
fn no_copy_mark_of(bytes: &[u8]) -> Field<'_, Mark>
    ensures { GivesField result (no_copy_mark_at bytes.now) }
{
    let (update, rest) = u32_at(bytes)?;
    Ok((Mark::NoCopy { update }, rest))
}

#[tactic(auto, unfolding(crate::specs::Reading::hand_mark_at))]
fn hand_mark_of(bytes: &[u8]) -> Field<'_, Mark>
    ensures { GivesField result (hand_mark_at bytes.now) }
{
    let (why, rest) = why_of(bytes)?;
    Ok((Mark::Hand { why }, rest))
}

#[tactic(auto, unfolding(crate::specs::Reading::discard_mark_at))]
fn discard_mark_of(alloc: Global, bytes: &[u8]) -> Field<'_, Mark>
    ensures { GivesField result (discard_mark_at bytes.now) }
{
    let (cause, rest) = cause_of(alloc, bytes)?;
    Ok((Mark::Discard { cause }, rest))
}

#[tactic(auto, unfolding(crate::specs::Reading::dropped_mark_at))]
fn dropped_mark_of(alloc: Global, bytes: &[u8]) -> Field<'_, Mark>
    ensures { GivesField result (dropped_mark_at bytes.now) }
{
    let (cause, rest) = cause_of(alloc, bytes)?;
    Ok((Mark::Dropped { cause }, rest))
}

#[tactic(auto, unfolding(crate::specs::Reading::end_mark_at))]
fn end_mark_of(bytes: &[u8]) -> Field<'_, Mark>
    ensures { GivesField result (end_mark_at bytes.now) }
{
    let (how, rest) = how_of(bytes)?;
    Ok((Mark::End { how }, rest))
}

/// Reads a mark.
#[tactic(auto, unfolding(crate::specs::Reading::mark_at))]
pub(crate) fn mark_of(alloc: Global, bytes: &[u8]) -> Field<'_, Mark>
    ensures { GivesField result (mark_at bytes.now) }
{
    let (code, rest) = u8_at(bytes)?;
    match code {
        0 => fork_mark_of(rest),
        1 => no_copy_mark_of(rest),
        2 => hand_mark_of(rest),
        3 => Ok((Mark::Promote, rest)),
        4 => Ok((Mark::Over, rest)),
        5 => Ok((Mark::Back, rest)),
        6 => Ok((Mark::Finish, rest)),
        7 => discard_mark_of(alloc, rest),
        8 => dropped_mark_of(alloc, rest),
        9 => end_mark_of(rest),
        _ => Err(Or::Fault(BodyFault::Code(bytes.len()))),
    }
}
