//! Writing the bodies of entries.
ghost use Rattle.std.specs.Prelude.{◌≡◌, ◌++◌, OnOk};
ghost use Rattle.mv_record.specs.Spelling.{body_text, entry_text, item_text};
ghost use Rattle.mv_record.specs.Fitting.{FitsBody, FitsEntry, FitsItem, IsToldEntry};

use crate::putting::{put_byte_list, put_u8};
use crate::writing_calls::{put_call, put_reply};
use crate::writing_marks::put_mark;
use crate::writing_orders::put_answer;
use mv_calls::{Call, Item, OutOfMemory};
use mv_history::{Entry, Mark};
use std::alloc::Global;

/// Writes a call and its reply.
fn put_item(out: &mut Vec<u8>, value: &Item) -> Result<(), OutOfMemory>
    ensures fits { OnOk result (FitsItem value.now) }
    ensures text { OnOk result (out.new.items ≡ out.old.items ++ item_text value.now) }
{
    put_call(out, &value.call)?;
    put_reply(out, &value.reply)
}

/// Writes an entry.
fn put_body(out: &mut Vec<u8>, value: &Entry) -> Result<(), OutOfMemory>
    requires told { IsToldEntry value.now }
    ensures fits { OnOk result (FitsBody value.now) }
    ensures text { OnOk result (out.new.items ≡ out.old.items ++ body_text value.now) }
{
    match value {
        Entry::Call { item } => {
            put_u8(out, 0)?;
            put_item(out, item)
        }
        Entry::Point => put_u8(out, 1),
        Entry::Order { text, reply } => {
            put_u8(out, 2)?;
            put_byte_list(out, text.slice())?;
            put_answer(out, reply)
        }
        Entry::Mark(mark) => {
            put_u8(out, 3)?;
            put_mark(out, mark)
        }
    }
}

/// Writes the length of an entry's body and the body.
pub(crate) fn put_entry(alloc: Global, out: &mut Vec<u8>, entry: &Entry) -> Result<(), OutOfMemory>
    requires told { IsToldEntry entry.now }
    ensures fits { OnOk result (FitsEntry entry.now) }
    ensures text { OnOk result (out.new.items ≡ out.old.items ++ entry_text entry.now) }
{
    let mut body = Vec::new(alloc);
    put_body(&mut body, entry)?;
    put_byte_list(out, body.as_slice())
}
