//! The lines that answer orders.

ghost use Rattle.std.specs.Prelude.{◌≡◌, IfOk};
ghost use Rattle.mv_orders.specs.Reply.{reply_text, reply_data, IsText};
ghost use Rattle.std.specs.Prelude.{IsUtf8, ◌∷◌, ◌++◌, [], codes, decimal};
ghost use Rattle.json.specs.Print.{quoted};
ghost use Rattle.serde_json.specs.Data.{number, unsigned, string, object, member, no_members};
ghost use Rattle.serde_json.specs.View.{view};

use crate::stage::{Last, Stage, Word, last_name, stage_name, word_name};
use mv_calls::{Bytes, OutOfMemory};
use serde_json::{Value, json};
use std::alloc::{AllocError, Global};

/// The answer to an order line. Refusals are in the order in which they are chosen.
#[derive(Drop, Debug)]
pub enum OrderReply {
    /// The order is wanted from now on. `update` is the number of an accepted update, from 1, and 0 for
    /// another word.
    Accepted {
        word: Word,
        update: u32,
    },
    /// The answer to `status`. `update` is the number of the update whose follower is there, or 0.
    Told {
        stage: Stage,
        update: u32,
        last: Last,
    },
    /// The line has more than 4,096 bytes.
    Long,
    /// The line isn't UTF-8.
    Utf8,
    /// The line is no order.
    Unknown {
        text: Bytes,
    },
    /// The order isn't one of this stage.
    Stage {
        now: Stage,
    },
    /// An update is wanted already, of this number.
    Busy {
        update: u32,
    },
    /// As many updates were accepted as a run may have.
    Many,
    /// A file that the line names isn't there.
    Missing {
        path: Bytes,
    },
    /// A file that the line names couldn't be read.
    Failed {
        path: Bytes,
    },
}

/// A refusal with nothing more to say.
fn refusal(alloc: Global, why: &str) -> Result<Value, AllocError>
    ensures { IfOk result (λ v. view v ≡ object (member (codes "no") (string why.now) no_members)) }
{
    json!(in alloc; {"no": why})
}

/// A refusal because of a file.
fn refusal_of_path(alloc: Global, why: &str, path: &str) -> Result<Value, AllocError>
    ensures { IfOk result (λ v. view v ≡ object (member (codes "no") (string why.now) (member (codes "path") (string path.now) no_members))) }
{
    json!(in alloc; {"no": why, "path": path})
}

/// The value that a reply's line writes.
fn reply_value(alloc: Global, reply: &OrderReply) -> Result<Value, AllocError>
    requires { IsText reply.now }
    ensures { IfOk result (λ v. view v ≡ reply_data reply.now) }
{
    match reply {
        OrderReply::Accepted {
            word: Word::Update,
            update,
        } => { json!(in alloc; {"ok": "update", "update": *update}) }
        OrderReply::Accepted { word, update: _ } => json!(in alloc; {"ok": word_name(*word)}),
        OrderReply::Told {
            stage,
            update,
            last,
        } => told(alloc, *stage, *update, *last),
        OrderReply::Long => refusal(alloc, "long"),
        OrderReply::Utf8 => refusal(alloc, "utf8"),
        OrderReply::Unknown { text } => json!(in alloc; {"no": "unknown", "text": text_of(text)}),
        OrderReply::Stage { now } => json!(in alloc; {"no": "stage", "now": stage_name(*now)}),
        OrderReply::Busy { update } => json!(in alloc; {"no": "busy", "update": *update}),
        OrderReply::Many => refusal(alloc, "many"),
        OrderReply::Missing { path } => refusal_of_path(alloc, "missing", text_of(path)),
        OrderReply::Failed { path } => refusal_of_path(alloc, "failed", text_of(path)),
    }
}

/// The text of bytes that are one.
fn text_of(bytes: &Bytes) -> &str
    requires { IsUtf8 bytes.now }
    ensures { result.now ≡ bytes.now }
{
    match std::str::from_utf8(bytes.slice()) {
        Ok(text) => text,
        Err(_) => unreachable!(),
    }
}

/// The answer to `status`.
fn told(alloc: Global, stage: Stage, update: u32, last: Last) -> Result<Value, AllocError>
    ensures { IfOk result (λ v. view v ≡ reply_data (OrderReply.Told stage update last)) }
{
    json!(in alloc; {
        "last": last_name(last),
        "ok": "status",
        "stage": stage_name(stage),
        "update": update
    })
}

/// The line that answers an order, with its line feed: a JSON object with its keys in their order, without
/// blanks. Its texts and paths are UTF-8.
pub fn reply_line(alloc: Global, reply: &OrderReply) -> Result<Bytes, OutOfMemory>
    requires text { IsText reply.now }
    ensures line { IfOk result (λ b. b ≡ reply_text reply.now) }
{
    let value = reply_value(alloc, reply)?;
    let mut line = value.to_vec(alloc)?;
    line.push(b'\n')?;
    Ok(Bytes::from_vec(line))
}
