//! Reading answers to orders.
ghost use Rattle.std.specs.Prelude.{◌≡◌};
ghost use Rattle.mv_record.specs.Reading.{GivesField, accepted_answer_at, answer_at, busy_answer_at, failed_answer_at, last_at, missing_answer_at, stage_answer_at, stage_at, told_answer_at, unknown_answer_at, word_at};

use crate::fault::BodyFault;
use crate::fields::{Field, byte_list_of, u8_at, u32_at};
use mv_calls::{Or, Trap};
use mv_orders::{Last, OrderReply, Stage, Word};
use std::alloc::Global;

/// Reads an accepted word.
#[tactic(auto, unfolding(crate::specs::Reading::word_at))]
fn word_of(bytes: &[u8]) -> Field<'_, Word>
    ensures { GivesField result (word_at bytes.now) }
{
    let (code, rest) = u8_at(bytes)?;
    match code {
        0 => Ok((Word::Update, rest)),
        1 => Ok((Word::Promote, rest)),
        2 => Ok((Word::Discard, rest)),
        3 => Ok((Word::Finish, rest)),
        4 => Ok((Word::Back, rest)),
        5 => Ok((Word::Halt, rest)),
        _ => Err(Or::Fault(BodyFault::Code(bytes.len()))),
    }
}

/// Reads a stage.
#[tactic(auto, unfolding(crate::specs::Reading::stage_at))]
fn stage_of(bytes: &[u8]) -> Field<'_, Stage>
    ensures { GivesField result (stage_at bytes.now) }
{
    let (code, rest) = u8_at(bytes)?;
    match code {
        0 => Ok((Stage::OldAlone, rest)),
        1 => Ok((Stage::OldLeads, rest)),
        2 => Ok((Stage::NewLeads, rest)),
        3 => Ok((Stage::NewAlone, rest)),
        _ => Err(Or::Fault(BodyFault::Code(bytes.len()))),
    }
}

/// Reads why the last follower was dropped.
#[tactic(auto, unfolding(crate::specs::Reading::last_at))]
fn last_of(bytes: &[u8]) -> Field<'_, Last>
    ensures { GivesField result (last_at bytes.now) }
{
    let (code, rest) = u8_at(bytes)?;
    match code {
        0 => Ok((Last::Never, rest)),
        1 => Ok((Last::Trap, rest)),
        2 => Ok((Last::Mismatch, rest)),
        3 => Ok((Last::Refused, rest)),
        4 => Ok((Last::Rules, rest)),
        5 => Ok((Last::Order, rest)),
        6 => Ok((Last::Memory, rest)),
        _ => Err(Or::Fault(BodyFault::Code(bytes.len()))),
    }
}

#[tactic(auto, unfolding(crate::specs::Reading::accepted_answer_at))]
fn accepted_answer_of(bytes: &[u8]) -> Field<'_, OrderReply>
    ensures { GivesField result (accepted_answer_at bytes.now) }
{
    let (word, rest) = word_of(bytes)?;
    let (update, rest) = u32_at(rest)?;
    Ok((OrderReply::Accepted { word, update }, rest))
}

#[tactic(auto, unfolding(crate::specs::Reading::told_answer_at))]
fn told_answer_of(bytes: &[u8]) -> Field<'_, OrderReply>
    ensures { GivesField result (told_answer_at bytes.now) }
{
    let (stage, rest) = stage_of(bytes)?;
    let (update, rest) = u32_at(rest)?;
    let (last, rest) = last_of(rest)?;
    Ok((
        OrderReply::Told {
            stage,
            update,
            last,
        },
        rest,
    ))
}

#[tactic(auto, unfolding(crate::specs::Reading::unknown_answer_at))]
fn unknown_answer_of(alloc: Global, bytes: &[u8]) -> Field<'_, OrderReply>
    ensures { GivesField result (unknown_answer_at bytes.now) }
{
    let (text, rest) = byte_list_of(alloc, bytes)?;
    Ok((OrderReply::Unknown { text }, rest))
}

#[tactic(auto, unfolding(crate::specs::Reading::stage_answer_at))]
fn stage_answer_of(bytes: &[u8]) -> Field<'_, OrderReply>
    ensures { GivesField result (stage_answer_at bytes.now) }
{
    let (now, rest) = stage_of(bytes)?;
    Ok((OrderReply::Stage { now }, rest))
}

#[tactic(auto, unfolding(crate::specs::Reading::busy_answer_at))]
fn busy_answer_of(bytes: &[u8]) -> Field<'_, OrderReply>
    ensures { GivesField result (busy_answer_at bytes.now) }
{
    let (update, rest) = u32_at(bytes)?;
    Ok((OrderReply::Busy { update }, rest))
}

#[tactic(auto, unfolding(crate::specs::Reading::missing_answer_at))]
fn missing_answer_of(alloc: Global, bytes: &[u8]) -> Field<'_, OrderReply>
    ensures { GivesField result (missing_answer_at bytes.now) }
{
    let (path, rest) = byte_list_of(alloc, bytes)?;
    Ok((OrderReply::Missing { path }, rest))
}

#[tactic(auto, unfolding(crate::specs::Reading::failed_answer_at))]
fn failed_answer_of(alloc: Global, bytes: &[u8]) -> Field<'_, OrderReply>
    ensures { GivesField result (failed_answer_at bytes.now) }
{
    let (path, rest) = byte_list_of(alloc, bytes)?;
    Ok((OrderReply::Failed { path }, rest))
}

/// Reads the answer to an order.
#[tactic(auto, unfolding(crate::specs::Reading::answer_at))]
pub(crate) fn answer_of(alloc: Global, bytes: &[u8]) -> Field<'_, OrderReply>
    ensures { GivesField result (answer_at bytes.now) }
{
    let (code, rest) = u8_at(bytes)?;
    match code {
        0 => accepted_answer_of(rest),
        1 => told_answer_of(rest),
        2 => Ok((OrderReply::Long, rest)),
        3 => Ok((OrderReply::Utf8, rest)),
        4 => unknown_answer_of(alloc, rest),
        5 => stage_answer_of(rest),
        6 => busy_answer_of(rest),
        7 => Ok((OrderReply::Many, rest)),
        8 => missing_answer_of(alloc, rest),
        9 => failed_answer_of(alloc, rest),
        _ => Err(Or::Fault(BodyFault::Code(bytes.len()))),
    }
}
