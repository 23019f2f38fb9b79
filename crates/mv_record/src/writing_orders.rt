//! Writing answers to orders.
ghost use Rattle.std.specs.Prelude.{◌≡◌, ◌++◌, OnOk};
ghost use Rattle.mv_record.specs.Spelling.{answer_text, last_text, stage_text, word_text};
ghost use Rattle.mv_record.specs.Fitting.{FitsAnswer};

use crate::putting::{put_byte_list, put_u8, put_u32};
use mv_calls::{OutOfMemory, Trap};
use mv_orders::{Last, OrderReply, Stage, Word};

/// Writes an accepted word.
fn put_word(out: &mut Vec<u8>, value: Word) -> Result<(), OutOfMemory>
    ensures text { OnOk result (out.new.items ≡ out.old.items ++ word_text value) }
{
    match value {
        Word::Update => put_u8(out, 0),
        Word::Promote => put_u8(out, 1),
        Word::Discard => put_u8(out, 2),
        Word::Finish => put_u8(out, 3),
        Word::Back => put_u8(out, 4),
        Word::Halt => put_u8(out, 5),
    }
}

/// Writes a stage.
fn put_stage(out: &mut Vec<u8>, value: Stage) -> Result<(), OutOfMemory>
    ensures text { OnOk result (out.new.items ≡ out.old.items ++ stage_text value) }
{
    match value {
        Stage::OldAlone => put_u8(out, 0),
        Stage::OldLeads => put_u8(out, 1),
        Stage::NewLeads => put_u8(out, 2),
        Stage::NewAlone => put_u8(out, 3),
    }
}

/// Writes why the last follower was dropped.
fn put_last(out: &mut Vec<u8>, value: Last) -> Result<(), OutOfMemory>
    ensures text { OnOk result (out.new.items ≡ out.old.items ++ last_text value) }
{
    match value {
        Last::Never => put_u8(out, 0),
        Last::Trap => put_u8(out, 1),
        Last::Mismatch => put_u8(out, 2),
        Last::Refused => put_u8(out, 3),
        Last::Rules => put_u8(out, 4),
        Last::Order => put_u8(out, 5),
        Last::Memory => put_u8(out, 6),
    }
}

/// Writes the answer to an order.
pub(crate) fn put_answer(out: &mut Vec<u8>, value: &OrderReply) -> Result<(), OutOfMemory>
    ensures fits { OnOk result (FitsAnswer value.now) }
    ensures text { OnOk result (out.new.items ≡ out.old.items ++ answer_text value.now) }
{
    match value {
        OrderReply::Accepted { word, update } => {
            put_u8(out, 0)?;
            put_word(out, *word)?;
            put_u32(out, *update)
        }
        OrderReply::Told {
            stage,
            update,
            last,
        } => {
            put_u8(out, 1)?;
            put_stage(out, *stage)?;
            put_u32(out, *update)?;
            put_last(out, *last)
        }
        OrderReply::Long => put_u8(out, 2),
        OrderReply::Utf8 => put_u8(out, 3),
        OrderReply::Unknown { text } => {
            put_u8(out, 4)?;
            put_byte_list(out, text.slice())
        }
        OrderReply::Stage { now } => {
            put_u8(out, 5)?;
            put_stage(out, *now)
        }
        OrderReply::Busy { update } => {
            put_u8(out, 6)?;
            put_u32(out, *update)
        }
        OrderReply::Many => put_u8(out, 7),
        OrderReply::Missing { path } => {
            put_u8(out, 8)?;
            put_byte_list(out, path.slice())
        }
        OrderReply::Failed { path } => {
            put_u8(out, 9)?;
            put_byte_list(out, path.slice())
        }
    }
}
