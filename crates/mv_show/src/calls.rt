//! Calls and replies as JSON values.
ghost use Rattle.std.specs.Prelude.{◌≡◌, IfOk};
ghost use Rattle.serde_json.specs.Data.{array};
ghost use Rattle.serde_json.specs.View.{view, items_of};
ghost use Rattle.std.specs.Prelude.{map};
ghost use Rattle.mv_show.specs.Calls.{call_data, reply_data, sub_data, happened_data, write_data, bytes_data};

use crate::texts::text_of;
use mv_calls::{Bytes, Call, Happened, Reply, Sub};
use serde_json::{Value, json};
use std::alloc::{AllocError, Global};

/// A subscription.
fn sub_value(alloc: Global, sub: Sub) -> Result<Value, AllocError>
    ensures { IfOk result (λ v. view v ≡ sub_data sub) }
{
    match sub {
        Sub::Clock { id, timeout, flags } => {
            json!(in alloc; {"sub": "clock", "id": id, "timeout": timeout, "flags": flags})
        }
        Sub::Read { fd } => json!(in alloc; {"sub": "read", "fd": fd}),
        Sub::Write { fd } => json!(in alloc; {"sub": "write", "fd": fd}),
    }
}

/// Subscriptions.
fn subs_value(alloc: Global, subs: &[Sub]) -> Result<Value, AllocError>
    ensures { IfOk result (λ v. view v ≡ array (items_of (map sub_data subs.now))) }
{
    let mut values = Vec::new(alloc);
    for sub in subs {
        values.push(sub_value(alloc, *sub)?)?;
    }
    Ok(Value::Array(values))
}

/// A write. Its bytes are text where they are UTF-8.
fn write_value(alloc: Global, fd: u32, bytes: &Bytes) -> Result<Value, AllocError>
    ensures { IfOk result (λ v. view v ≡ write_data fd bytes.now) }
{
    match text_of(bytes) {
        Some(text) => json!(in alloc; {"call": "write", "fd": fd, "bytes": text}),
        None => {
            let digits = hex::encode(alloc, bytes.slice())?;
            json!(in alloc; {"call": "write", "fd": fd, "hex": digits})
        }
    }
}

/// A call.
pub(crate) fn call_value(alloc: Global, call: &Call) -> Result<Value, AllocError>
    ensures { IfOk result (λ v. view v ≡ call_data call.now) }
{
    match call {
        Call::Clock { id } => json!(in alloc; {"call": "clock", "id": *id}),
        Call::Random { len } => json!(in alloc; {"call": "random", "len": *len}),
        Call::Read { fd, cap } => json!(in alloc; {"call": "read", "fd": *fd, "cap": *cap}),
        Call::Write { fd, bytes } => write_value(alloc, *fd, bytes),
        Call::Close { fd } => json!(in alloc; {"call": "close", "fd": *fd}),
        Call::FdStat { fd } => json!(in alloc; {"call": "fdstat", "fd": *fd}),
        Call::Yield => json!(in alloc; {"call": "yield"}),
        Call::Poll { subs } => {
            let subs = subs_value(alloc, subs.slice())?;
            json!(in alloc; {"call": "poll", "subs": subs})
        }
        Call::Accept { fd, flags } => {
            json!(in alloc; {"call": "accept", "fd": *fd, "flags": *flags})
        }
        Call::Shutdown { fd, how } => json!(in alloc; {"call": "shutdown", "fd": *fd, "how": *how}),
    }
}

/// An event of a poll.
fn happened_value(alloc: Global, happened: Happened) -> Result<Value, AllocError>
    ensures { IfOk result (λ v. view v ≡ happened_data happened) }
{
    json!(in alloc; {
        "sub": happened.sub,
        "error": happened.error,
        "nbytes": happened.nbytes,
        "flags": happened.flags
    })
}

/// The events of a poll.
fn happenings_value(alloc: Global, happenings: &[Happened]) -> Result<Value, AllocError>
    ensures { IfOk result (λ v. view v ≡ array (items_of (map happened_data happenings.now))) }
{
    let mut values = Vec::new(alloc);
    for happened in happenings {
        values.push(happened_value(alloc, *happened)?)?;
    }
    Ok(Value::Array(values))
}

/// A reply of bytes, which are text where they are UTF-8.
fn bytes_value(alloc: Global, bytes: &Bytes) -> Result<Value, AllocError>
    ensures { IfOk result (λ v. view v ≡ bytes_data bytes.now) }
{
    match text_of(bytes) {
        Some(text) => json!(in alloc; {"reply": "bytes", "bytes": text}),
        None => {
            let digits = hex::encode(alloc, bytes.slice())?;
            json!(in alloc; {"reply": "bytes", "hex": digits})
        }
    }
}

/// A reply.
pub(crate) fn reply_value(alloc: Global, reply: &Reply) -> Result<Value, AllocError>
    ensures { IfOk result (λ v. view v ≡ reply_data reply.now) }
{
    match reply {
        Reply::Errno(errno) => json!(in alloc; {"reply": "errno", "errno": *errno}),
        Reply::Done => json!(in alloc; {"reply": "done"}),
        Reply::Bytes(bytes) => bytes_value(alloc, bytes),
        Reply::Count(count) => json!(in alloc; {"reply": "count", "count": *count}),
        Reply::Fd(fd) => json!(in alloc; {"reply": "fd", "fd": *fd}),
        Reply::Time(time) => json!(in alloc; {"reply": "time", "time": *time}),
        Reply::Stat {
            filetype,
            flags,
            rights,
            heirs,
        } => json!(in alloc; {
            "reply": "stat",
            "filetype": *filetype,
            "flags": *flags,
            "rights": *rights,
            "heirs": *heirs
        }),
        Reply::Ready(happenings) => {
            let events = happenings_value(alloc, happenings.slice())?;
            json!(in alloc; {"reply": "ready", "events": events})
        }
    }
}
