//! Logs as short texts, which tests compare with what they expect.

use mv_calls::{Bytes, Call, Item, Reply};
use mv_history::{Cause, Entry, Mark};
use mv_orders::OrderReply;
use mv_version::Event;
use std::alloc::Global;
use std::test::Fail;

/// Bytes as they stand in a text.
fn plain(bytes: &Bytes) -> &str {
    str::from_utf8(bytes.slice()).unwrap_or("?")
}

fn call_text(alloc: Global, call: &Call) -> Result<String, Fail> {
    Ok(match call {
        Call::Accept { fd, flags } => format!(in alloc; "accept {fd} {flags}")?,
        Call::Read { fd, cap } => format!(in alloc; "read {fd} {cap}")?,
        Call::Write { fd, bytes } => format!(in alloc; "write {fd} {}", plain(bytes))?,
        Call::Close { fd } => format!(in alloc; "close {fd}")?,
        _ => String::from_str(alloc, "another call")?,
    })
}

fn item_text(alloc: Global, item: &Item) -> Result<String, Fail> {
    let call = call_text(alloc, &item.call)?;
    Ok(match &item.reply {
        Reply::Errno(errno) => format!(in alloc; "{call} = errno {errno}")?,
        Reply::Done => format!(in alloc; "{call} = done")?,
        Reply::Bytes(bytes) => format!(in alloc; "{call} = bytes {}", plain(bytes))?,
        Reply::Count(count) => format!(in alloc; "{call} = count {count}")?,
        Reply::Fd(fd) => format!(in alloc; "{call} = fd {fd}")?,
        _ => format!(in alloc; "{call} = another reply")?,
    })
}

fn order_text(alloc: Global, text: &str, reply: &OrderReply) -> Result<String, Fail> {
    Ok(match reply {
        OrderReply::Accepted { word, update } => {
            format!(in alloc; "order {text} = {word:?} {update}")?
        }
        OrderReply::Told {
            stage,
            update,
            last,
        } => format!(in alloc; "order {text} = {stage:?} {update} {last:?}")?,
        OrderReply::Unknown { text: said } => {
            format!(in alloc; "order {text} = unknown {}", plain(said))?
        }
        OrderReply::Failed { path } => {
            format!(in alloc; "order {text} = failed {}", plain(path))?
        }
        OrderReply::Stage { now } => format!(in alloc; "order {text} = not in {now:?}")?,
        _ => format!(in alloc; "order {text} = another answer")?,
    })
}

fn cause_text(alloc: Global, cause: &Cause) -> Result<String, Fail> {
    Ok(match cause {
        Cause::Mismatch {
            k,
            want,
            got: Event::Calls(got),
        } => {
            let want = call_text(alloc, want)?;
            let got = call_text(alloc, got)?;
            format!(in alloc; "mismatch {k} want {want} got {got}")?
        }
        Cause::Refused(fault) => format!(in alloc; "{fault:?}")?,
        Cause::Rules { side, fault } => {
            format!(in alloc; "{side:?} rules {:?} {}", fault.kind, fault.line)?
        }
        Cause::Order { n } => format!(in alloc; "order {n}")?,
        _ => String::from_str(alloc, "another cause")?,
    })
}

fn mark_text(alloc: Global, mark: &Mark) -> Result<String, Fail> {
    Ok(match mark {
        Mark::Fork { update } => format!(in alloc; "fork {update}")?,
        Mark::Hand { why } => format!(in alloc; "hand {why:?}")?,
        Mark::Promote => String::from_str(alloc, "promote")?,
        Mark::Over => String::from_str(alloc, "over")?,
        Mark::Back => String::from_str(alloc, "back")?,
        Mark::Finish => String::from_str(alloc, "finish")?,
        Mark::Discard { cause } => format!(in alloc; "discard {}", cause_text(alloc, cause)?)?,
        Mark::End { how } => format!(in alloc; "end {how:?}")?,
        _ => String::from_str(alloc, "another mark")?,
    })
}

fn entry_text(alloc: Global, entry: &Entry) -> Result<String, Fail> {
    match entry {
        Entry::Call { item } => item_text(alloc, item),
        Entry::Point => Ok(String::from_str(alloc, "point")?),
        Entry::Order { text, reply } => order_text(alloc, plain(text), reply),
        Entry::Mark(mark) => mark_text(alloc, mark),
    }
}

/// The entries, with `|` behind each.
pub(crate) fn log_text(alloc: Global, entries: &[Entry]) -> Result<String, Fail> {
    let mut all = String::new(alloc);
    for entry in entries {
        all.push_str(entry_text(alloc, entry)?.as_str())?;
        all.push_str("|")?;
    }
    Ok(all)
}

/// The calls, with `|` behind each.
pub(crate) fn done_text(alloc: Global, done: &[Item]) -> Result<String, Fail> {
    let mut all = String::new(alloc);
    for item in done {
        all.push_str(item_text(alloc, item)?.as_str())?;
        all.push_str("|")?;
    }
    Ok(all)
}
