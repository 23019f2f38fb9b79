//! Whether a reply may answer an order line, plainly.
ghost use Rattle.std.specs.Prelude.{◌≡◌, ◌≢◌, ◌↔◌, ◌+◌, IfOk, IsTrue, Some, slice_get};
ghost use Rattle.mv_orders.specs.Order.{Reads};
ghost use Rattle.mv_history.specs.Answers.{Answers, IsFilesReply, IsPathOf, IsReplyTo, StandsFor, none_word};
ghost use Rattle.mv_history.specs.Rules.{no_rules_text};
ghost use Rattle.mv_history.specs.declared.updates.Update.{Update as update};

use crate::same::{same_bytes, same_reply};
use mv_calls::{Or, OutOfMemory};
use mv_history::{Status, Update};
use mv_orders::{Order, OrderFault, OrderReply, Word, read_order};
use std::alloc::Global;

/// Whether the word is that for no rules.
fn is_none(word: &[u8]) -> bool
    ensures { IsTrue result ↔ (word.now ≡ none_word) }
{
    word == b"none".as_slice()
}

/// Whether the file is that of no rules, if the word says so.
fn stands_for_word(word: &[u8], file: &[u8]) -> bool
    ensures { IsTrue result ↔ (word.now ≡ none_word → file.now ≡ no_rules_text) }
{
    if is_none(word) {
        file == b"mvrules 1\n".as_slice()
    } else {
        true
    }
}

/// Whether the files may be those of the order.
fn stands_for(order: &Order, files: &Update) -> bool
    ensures { IsTrue result ↔ StandsFor order.now files.now }
{
    match order {
        Order::Update {
            forward,
            reverse,
            ..
        } => {
            stands_for_word(forward.slice(), files.forward.slice())
                && stands_for_word(reverse.slice(), files.reverse.slice())
        }
        _ => false,
    }
}

/// Whether the log has files for the order.
fn has_files(status: &Status, updates: &[Update], order: &Order) -> bool
    ensures { IsTrue result ↔ ((files : update) × (slice_get updates.now status.now.fresh ≡ Some files) × StandsFor order.now files) }
{
    match updates.get(status.fresh as usize) {
        Some(files) => stands_for(order, files),
        None => false,
    }
}

/// Whether the path is that of a list of rules which the order names.
fn is_file(path: &[u8], file: &[u8]) -> bool
    ensures { IsTrue result ↔ ((path.now ≡ file.now) × (file.now ≢ none_word)) }
{
    same_bytes(path, file) && !is_none(file)
}

/// Whether the path is one of the order's.
fn is_path_of(order: &Order, path: &[u8]) -> bool
    ensures { IsTrue result ↔ IsPathOf order.now path.now }
{
    match order {
        Order::Update {
            module,
            forward,
            reverse,
        } => {
            same_bytes(path, module.slice())
                || is_file(path, forward.slice())
                || is_file(path, reverse.slice())
        }
        _ => false,
    }
}

/// Whether the number is the next after the count.
fn is_next(number: u32, count: u32) -> bool
    ensures { IsTrue result ↔ (number ≡ count + 1) }
{
    number > 0 && number - 1 == count
}

/// Whether the reply may answer an update that goes on to its files.
fn is_files_reply(status: &Status, updates: &[Update], order: &Order, reply: &OrderReply) -> bool
    ensures { IsTrue result ↔ IsFilesReply status.now updates.now order.now reply.now }
{
    match reply {
        OrderReply::Accepted {
            word: Word::Update,
            update,
        } => is_next(*update, status.updates) && has_files(status, updates, order),
        OrderReply::Missing { path } => is_path_of(order, path.slice()),
        OrderReply::Failed { path } => is_path_of(order, path.slice()),
        _ => false,
    }
}

/// Whether the reply is that to a line that is no order.
fn is_unknown(text: &[u8], reply: &OrderReply) -> bool
    ensures { IsTrue result ↔ (reply.now ≡ OrderReply.Unknown text.now) }
{
    match reply {
        OrderReply::Unknown { text: found } => same_bytes(found.slice(), text),
        _ => false,
    }
}

/// Whether the reply may answer a line of this reading.
fn is_reply_to(
    status: &Status,
    updates: &[Update],
    text: &[u8],
    reading: &Result<Order, OrderFault>,
    reply: &OrderReply,
) -> bool
    ensures { IsTrue result ↔ IsReplyTo status.now updates.now text.now reading.now reply.now }
{
    match reading {
        Ok(order) => match status.early_reply(order) {
            Some(early) => same_reply(reply, &early),
            None => is_files_reply(status, updates, order, reply),
        },
        Err(OrderFault::Long) => same_reply(reply, &OrderReply::Long),
        Err(OrderFault::Utf8) => same_reply(reply, &OrderReply::Utf8),
        Err(OrderFault::Unknown) => is_unknown(text, reply),
    }
}

/// How the line is read.
fn reading_of(alloc: Global, text: &[u8]) -> Result<Result<Order, OrderFault>, OutOfMemory>
    ensures { IfOk result (Reads text.now) }
{
    match read_order(alloc, text) {
        Ok(order) => Ok(Ok(order)),
        Err(Or::Fault(fault)) => Ok(Err(fault)),
        Err(Or::OutOfMemory) => Err(OutOfMemory),
    }
}

/// Whether the reply may answer the line.
pub(crate) fn answers(
    alloc: Global,
    status: &Status,
    updates: &[Update],
    text: &[u8],
    reply: &OrderReply,
) -> Result<bool, OutOfMemory>
    ensures { IfOk result (λ answer. IsTrue answer ↔ Answers status.now updates.now text.now reply.now) }
{
    let reading = reading_of(alloc, text)?;
    Ok(is_reply_to(status, updates, text, &reading, reply))
}
