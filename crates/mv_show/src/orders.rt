//! Answers to orders as JSON values: those that the console got.
ghost use Rattle.std.specs.Prelude.{◌≡◌, codes, IfOk};
ghost use Rattle.serde_json.specs.Data.{string, object, member, no_members};
ghost use Rattle.serde_json.specs.View.{view};
ghost use Rattle.mv_orders.specs.Reply.{stage_name as stage_text, word_name as word_text, last_name as last_text, reply_data};
ghost use Rattle.mv_show.specs.Orders.{order_reply_data, hex_refusal};

use crate::texts::text_of;
use mv_calls::Bytes;
use mv_orders::{Last, OrderReply, Stage, Word};
use serde_json::{Value, json};
use std::alloc::{AllocError, Global};

/// The name of a stage, as in the answer to `status`.
pub fn stage_name(stage: Stage) -> &'static str
    ensures { result.now ≡ stage_text stage }
{
    match stage {
        Stage::OldAlone => "OldAlone",
        Stage::OldLeads => "OldLeads",
        Stage::NewLeads => "NewLeads",
        Stage::NewAlone => "NewAlone",
    }
}

/// The word of an order.
fn word_name(word: Word) -> &'static str
    ensures { result.now ≡ word_text word }
{
    match word {
        Word::Update => "update",
        Word::Promote => "promote",
        Word::Discard => "discard",
        Word::Finish => "finish",
        Word::Back => "back",
        Word::Halt => "halt",
    }
}

/// Why the last follower was dropped.
fn last_name(last: Last) -> &'static str
    ensures { result.now ≡ last_text last }
{
    match last {
        Last::Never => "never",
        Last::Trap => "trap",
        Last::Mismatch => "mismatch",
        Last::Refused => "refused",
        Last::Rules => "rules",
        Last::Order => "order",
        Last::Memory => "memory",
    }
}

/// A refusal with nothing more to say.
fn refusal(alloc: Global, why: &str) -> Result<Value, AllocError>
    ensures { IfOk result (λ v. view v ≡ object (member (codes "no") (string why.now) no_members)) }
{
    json!(in alloc; {"no": why})
}

/// A refusal because of bytes that are no UTF-8.
fn hex_refusal_value(alloc: Global, why: &str, bytes: &Bytes) -> Result<Value, AllocError>
    ensures { IfOk result (λ v. view v ≡ hex_refusal why.now bytes.now) }
{
    let digits = hex::encode(alloc, bytes.slice())?;
    json!(in alloc; {"no": why, "hex": digits})
}

/// The answer to a line that is no order.
fn unknown_value(alloc: Global, text: &Bytes) -> Result<Value, AllocError>
    ensures { IfOk result (λ v. view v ≡ order_reply_data (OrderReply.Unknown text.now)) }
{
    match text_of(text) {
        Some(text) => json!(in alloc; {"no": "unknown", "text": text}),
        None => hex_refusal_value(alloc, "unknown", text),
    }
}

/// The answer to an order for which a file isn't there.
fn missing_value(alloc: Global, path: &Bytes) -> Result<Value, AllocError>
    ensures { IfOk result (λ v. view v ≡ order_reply_data (OrderReply.Missing path.now)) }
{
    match text_of(path) {
        Some(path) => json!(in alloc; {"no": "missing", "path": path}),
        None => hex_refusal_value(alloc, "missing", path),
    }
}

/// The answer to an order for which a file couldn't be read.
fn failed_value(alloc: Global, path: &Bytes) -> Result<Value, AllocError>
    ensures { IfOk result (λ v. view v ≡ order_reply_data (OrderReply.Failed path.now)) }
{
    match text_of(path) {
        Some(path) => json!(in alloc; {"no": "failed", "path": path}),
        None => hex_refusal_value(alloc, "failed", path),
    }
}

/// The answer to `status`.
fn told_value(alloc: Global, stage: Stage, update: u32, last: Last) -> Result<Value, AllocError>
    ensures { IfOk result (λ v. view v ≡ reply_data (OrderReply.Told stage update last)) }
{
    json!(in alloc; {
        "ok": "status",
        "stage": stage_name(stage),
        "update": update,
        "last": last_name(last)
    })
}

/// The answer to an order.
pub(crate) fn order_reply_value(alloc: Global, reply: &OrderReply) -> Result<Value, AllocError>
    ensures { IfOk result (λ v. view v ≡ order_reply_data reply.now) }
{
    match reply {
        OrderReply::Accepted {
            word: Word::Update,
            update,
        } => json!(in alloc; {"ok": "update", "update": *update}),
        OrderReply::Accepted { word, update: _ } => json!(in alloc; {"ok": word_name(*word)}),
        OrderReply::Told {
            stage,
            update,
            last,
        } => told_value(alloc, *stage, *update, *last),
        OrderReply::Long => refusal(alloc, "long"),
        OrderReply::Utf8 => refusal(alloc, "utf8"),
        OrderReply::Unknown { text } => unknown_value(alloc, text),
        OrderReply::Stage { now } => json!(in alloc; {"no": "stage", "now": stage_name(*now)}),
        OrderReply::Busy { update } => json!(in alloc; {"no": "busy", "update": *update}),
        OrderReply::Many => refusal(alloc, "many"),
        OrderReply::Missing { path } => missing_value(alloc, path),
        OrderReply::Failed { path } => failed_value(alloc, path),
    }
}
