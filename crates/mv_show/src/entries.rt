//! Entries of a log as JSON values.
ghost use Rattle.std.specs.Prelude.{◌≡◌, codes, IfOk};
ghost use Rattle.serde_json.specs.Data.{object, member, no_members};
ghost use Rattle.serde_json.specs.View.{view};
ghost use Rattle.mv_show.specs.Calls.{text_at, number_at};
ghost use Rattle.mv_show.specs.Causes.{cause_data};
ghost use Rattle.mv_show.specs.Lines.{marked, hand_data, end_data, mark_data, order_data, entry_data};

use crate::calls::{call_value, reply_value};
use crate::causes::cause_value;
use crate::names::trap_name;
use crate::orders::order_reply_value;
use crate::texts::text_of;
use mv_calls::Bytes;
use mv_history::{Cause, Entry, How, Mark, Why};
use mv_orders::OrderReply;
use serde_json::{Value, json};
use std::alloc::{AllocError, Global};

/// A mark with nothing more to say.
fn plain_mark(alloc: Global, number: usize, name: &str) -> Result<Value, AllocError>
    ensures { IfOk result (λ v. view v ≡ object (marked name.now number no_members)) }
{
    json!(in alloc; {"number": number, "kind": "mark", "mark": name})
}

/// A mark of an update's follower.
fn update_mark(alloc: Global, number: usize, name: &str, update: u32) -> Result<Value, AllocError>
    ensures { IfOk result (λ v. view v ≡ object (marked name.now number (number_at (codes "update") update no_members))) }
{
    json!(in alloc; {"number": number, "kind": "mark", "mark": name, "update": update})
}

/// A mark that a follower is given up.
fn cause_mark(alloc: Global, number: usize, name: &str, cause: &Cause) -> Result<Value, AllocError>
    ensures { IfOk result (λ v. view v ≡ object (member (codes "cause") (cause_data cause.now) (marked name.now number no_members))) }
{
    let cause = cause_value(alloc, cause)?;
    json!(in alloc; {"number": number, "kind": "mark", "mark": name, "cause": cause})
}

/// The mark that the leader asks for a hand-over.
fn hand_mark(alloc: Global, number: usize, why: Why) -> Result<Value, AllocError>
    ensures { IfOk result (λ v. view v ≡ hand_data number why) }
{
    match why {
        Why::Promote => {
            json!(in alloc; {"number": number, "kind": "mark", "mark": "hand", "why": "promote"})
        }
        Why::Back => {
            json!(in alloc; {"number": number, "kind": "mark", "mark": "hand", "why": "back"})
        }
        Why::Trap(trap) => json!(in alloc; {
            "number": number,
            "kind": "mark",
            "mark": "hand",
            "why": "trap",
            "trap": trap_name(trap)
        }),
    }
}

/// The mark of an end with nothing more to say.
fn plain_end(alloc: Global, number: usize, how: &str) -> Result<Value, AllocError>
    ensures { IfOk result (λ v. view v ≡ object (text_at (codes "how") how.now (marked (codes "end") number no_members))) }
{
    json!(in alloc; {"number": number, "kind": "mark", "mark": "end", "how": how})
}

/// The mark that the run ended.
fn end_mark(alloc: Global, number: usize, how: How) -> Result<Value, AllocError>
    ensures { IfOk result (λ v. view v ≡ end_data number how) }
{
    match how {
        How::Ended(code) => json!(in alloc; {
            "number": number,
            "kind": "mark",
            "mark": "end",
            "how": "ended",
            "code": code
        }),
        How::Trapped(trap) => json!(in alloc; {
            "number": number,
            "kind": "mark",
            "mark": "end",
            "how": "trapped",
            "trap": trap_name(trap)
        }),
        How::Halted => plain_end(alloc, number, "halted"),
        How::Cut => plain_end(alloc, number, "cut"),
        How::KernelFault => plain_end(alloc, number, "kernel fault"),
        How::LogLimit => plain_end(alloc, number, "log limit"),
        How::Memory => plain_end(alloc, number, "memory"),
    }
}

/// A mark.
fn mark_value(alloc: Global, number: usize, mark: &Mark) -> Result<Value, AllocError>
    ensures { IfOk result (λ v. view v ≡ mark_data number mark.now) }
{
    match mark {
        Mark::Fork { update } => update_mark(alloc, number, "fork", *update),
        Mark::NoCopy { update } => update_mark(alloc, number, "nocopy", *update),
        Mark::Hand { why } => hand_mark(alloc, number, *why),
        Mark::Promote => plain_mark(alloc, number, "promote"),
        Mark::Over => plain_mark(alloc, number, "over"),
        Mark::Back => plain_mark(alloc, number, "back"),
        Mark::Finish => plain_mark(alloc, number, "finish"),
        Mark::Discard { cause } => cause_mark(alloc, number, "discard", cause),
        Mark::Dropped { cause } => cause_mark(alloc, number, "dropped", cause),
        Mark::End { how } => end_mark(alloc, number, *how),
    }
}

/// An order with its answer. The line is text where it is UTF-8.
fn order_value(
    alloc: Global,
    number: usize,
    text: &Bytes,
    reply: &OrderReply,
) -> Result<Value, AllocError>
    ensures { IfOk result (λ v. view v ≡ order_data number text.now reply.now) }
{
    let reply = order_reply_value(alloc, reply)?;
    match text_of(text) {
        Some(text) => {
            json!(in alloc; {"number": number, "kind": "order", "text": text, "reply": reply})
        }
        None => {
            let digits = hex::encode(alloc, text.slice())?;
            json!(in alloc; {"number": number, "kind": "order", "hex": digits, "reply": reply})
        }
    }
}

/// The entry of this number.
pub(crate) fn entry_value(alloc: Global, number: usize, entry: &Entry) -> Result<Value, AllocError>
    ensures { IfOk result (λ v. view v ≡ entry_data number entry.now) }
{
    match entry {
        Entry::Call { item } => {
            let call = call_value(alloc, &item.call)?;
            let reply = reply_value(alloc, &item.reply)?;
            json!(in alloc; {"number": number, "kind": "call", "call": call, "reply": reply})
        }
        Entry::Point => json!(in alloc; {"number": number, "kind": "point"}),
        Entry::Order { text, reply } => order_value(alloc, number, text, reply),
        Entry::Mark(mark) => mark_value(alloc, number, mark),
    }
}
