//! What an entry weighs. Each number stands still at the greatest of its type.
ghost use Rattle.std.specs.Prelude.{◌≡◌, ◌+◌, ◌-◌, ◌^◌, min, length};
ghost use Rattle.mv_history.specs.Payload.{call_payload as of_call, cause_payload as of_cause, event_payload as of_event, mark_payload as of_mark, payload_of, reply_payload as of_reply};

use crate::log::{Cause, Entry, Mark};
use mv_calls::{Call, Reply};
use mv_orders::reply_length;
use mv_version::Event;

/// The payload of a subscription or an event.
const POLLED: u64 = 32;

/// The payload of a call.
fn call_payload(call: &Call) -> u64
    ensures { result ≡ min (of_call call.now) (2 ^ 64 - 1) }
{
    match call {
        Call::Write { bytes, .. } => bytes.slice().len() as u64,
        Call::Poll { subs } => POLLED.saturating_mul(subs.slice().len() as u64),
        _ => 0,
    }
}

/// The payload of a reply.
fn reply_payload(reply: &Reply) -> u64
    ensures { result ≡ min (of_reply reply.now) (2 ^ 64 - 1) }
{
    match reply {
        Reply::Bytes(bytes) => bytes.slice().len() as u64,
        Reply::Ready(happenings) => POLLED.saturating_mul(happenings.slice().len() as u64),
        _ => 0,
    }
}

/// The payload of an event.
fn event_payload(event: &Event) -> u64
    ensures { result ≡ min (of_event event.now) (2 ^ 64 - 1) }
{
    match event {
        Event::Calls(call) => call_payload(call),
        _ => 0,
    }
}

/// The payload of a cause.
#[tactic(auto, using(crate::proofs::Weights::adds_once))]
fn cause_payload(cause: &Cause) -> u64
    ensures { result ≡ min (of_cause cause.now) (2 ^ 64 - 1) }
{
    match cause {
        Cause::Mismatch { want, got, .. } => call_payload(want).saturating_add(event_payload(got)),
        _ => 0,
    }
}

/// The payload of a mark.
fn mark_payload(mark: &Mark) -> u64
    ensures { result ≡ min (of_mark mark.now) (2 ^ 64 - 1) }
{
    match mark {
        Mark::Discard { cause } => cause_payload(cause),
        Mark::Dropped { cause } => cause_payload(cause),
        _ => 0,
    }
}

impl Entry {
    /// What this entry weighs in a log: the bytes of writes, of reads, of random bytes, of order texts and of reply lines,
    /// and 32 for each subscription and each event of a poll.
    #[tactic(auto, using(crate::proofs::Weights::adds_once))]
    pub(crate) fn payload(&self) -> u64
        ensures { result ≡ min (payload_of self.now) (2 ^ 64 - 1) }
    {
        match self {
            Entry::Call { item } => call_payload(&item.call).saturating_add(reply_payload(
                &item.reply,
            )),
            Entry::Point => 0,
            Entry::Order { text, reply } => {
                (text.slice().len() as u64).saturating_add(reply_length(reply) as u64)
            }
            Entry::Mark(mark) => mark_payload(mark),
        }
    }
}
