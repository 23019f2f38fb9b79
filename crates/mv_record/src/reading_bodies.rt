//! Reading the bodies of entries.
ghost use Rattle.std.specs.Prelude.{◌≡◌};
ghost use Rattle.mv_record.specs.Reading.{GivesField, Gives, body_at, call_body_at, item_at, mark_body_at, order_body_at, whole_body};

use crate::fault::BodyFault;
use crate::fields::{Field, byte_list_of, u8_at};
use crate::reading_calls::{call_of, reply_of};
use crate::reading_marks::mark_of;
use crate::reading_orders::answer_of;
use mv_calls::{Call, Item, Or, suits};
use mv_history::{Entry, Mark};
use std::alloc::Global;

/// Reads a call and a reply that suits it.
#[tactic(auto, unfolding(crate::specs::Reading::item_at))]
fn item_of(alloc: Global, bytes: &[u8]) -> Field<'_, Item>
    ensures { GivesField result (item_at bytes.now) }
{
    let (call, rest) = call_of(alloc, bytes)?;
    let (reply, after) = reply_of(alloc, rest)?;
    if !suits(&call, &reply) {
        return Err(Or::Fault(BodyFault::Suit(rest.len())));
    }
    Ok((Item { call, reply }, after))
}

#[tactic(auto, unfolding(crate::specs::Reading::call_body_at))]
fn call_body_of(alloc: Global, bytes: &[u8]) -> Field<'_, Entry>
    ensures { GivesField result (call_body_at bytes.now) }
{
    let (item, rest) = item_of(alloc, bytes)?;
    Ok((Entry::Call { item }, rest))
}

#[tactic(auto, unfolding(crate::specs::Reading::order_body_at))]
fn order_body_of(alloc: Global, bytes: &[u8]) -> Field<'_, Entry>
    ensures { GivesField result (order_body_at bytes.now) }
{
    let (text, rest) = byte_list_of(alloc, bytes)?;
    let (reply, rest) = answer_of(alloc, rest)?;
    Ok((Entry::Order { text, reply }, rest))
}

#[tactic(auto, unfolding(crate::specs::Reading::mark_body_at))]
fn mark_body_of(alloc: Global, bytes: &[u8]) -> Field<'_, Entry>
    ensures { GivesField result (mark_body_at bytes.now) }
{
    let (mark, rest) = mark_of(alloc, bytes)?;
    Ok((Entry::Mark(mark), rest))
}

/// Reads an entry.
#[tactic(auto, unfolding(crate::specs::Reading::body_at))]
fn body_of(alloc: Global, bytes: &[u8]) -> Field<'_, Entry>
    ensures { GivesField result (body_at bytes.now) }
{
    let (code, rest) = u8_at(bytes)?;
    match code {
        0 => call_body_of(alloc, rest),
        1 => Ok((Entry::Point, rest)),
        2 => order_body_of(alloc, rest),
        3 => mark_body_of(alloc, rest),
        _ => Err(Or::Fault(BodyFault::Code(bytes.len()))),
    }
}

/// Reads a whole body.
#[tactic(auto, unfolding(crate::specs::Reading::whole_body))]
pub(crate) fn whole_body_of(alloc: Global, bytes: &[u8]) -> Result<Entry, Or<BodyFault>>
    ensures { Gives (λ e. e) result (whole_body bytes.now) }
{
    let (entry, rest) = body_of(alloc, bytes)?;
    if !rest.is_empty() {
        return Err(Or::Fault(BodyFault::Passes));
    }
    Ok(entry)
}
