//! How long the lines are that answer orders, without making them.

ghost use Rattle.std.specs.Prelude.{◌≡◌, ◌-◌, ◌^◌, ◌≤◌, decimal, length, min};
ghost use Rattle.json.specs.Print.{escape_byte, quoted};
ghost use Rattle.mv_orders.specs.Reply.{reply_text};

use crate::reply::OrderReply;
use crate::stage::{Word, last_name, stage_name, word_name};
use itoa::Buffer;

/// How many digits a number has.
fn digits_of(number: u32) -> usize
    ensures digits { result ≡ length (decimal number) }
    ensures few { result ≤ 40 }
{
    let mut buffer = Buffer::new();
    buffer.format(number).len()
}

/// How many bytes stand for one byte in a JSON string.
#[tactic(auto, unfolding(json::specs::Print::escape_byte))]
fn escaped_length(byte: u8) -> usize
    ensures { result ≡ length (escape_byte byte) }
{
    match byte {
        b'"' | b'\\' | 8 | b'\t' | b'\n' | 12 | b'\r' => 2,
        0..=31 => 6,
        _ => 1,
    }
}

/// How many bytes a text has as a JSON string, with its quotation marks. It stands still at the greatest value of its type.
fn quoted_length(text: &[u8]) -> usize
    ensures { result ≡ min (length (quoted text.now)) (2 ^ 64 - 1) }
{
    let mut length: usize = 2;
    for byte in text {
        length = length.saturating_add(escaped_length(*byte));
    }
    length
}

/// How many bytes the line of a reply has, with its line feed, as [`reply_line`](crate::reply_line) makes it. It stands still
/// at the greatest value of its type, and takes no memory.
pub fn reply_length(reply: &OrderReply) -> usize
    ensures { result ≡ min (length (reply_text reply.now)) (2 ^ 64 - 1) }
{
    match reply {
        OrderReply::Accepted {
            word: Word::Update,
            update,
        } => b"{'ok':'update','update':}\n".len() + digits_of(*update),
        OrderReply::Accepted { word, update: _ } => {
            b"{'ok':''}\n".len() + word_name(*word).len()
        }
        OrderReply::Told {
            stage,
            update,
            last,
        } => {
            b"{'last':'','ok':'status','stage':'','update':}\n".len()
                + last_name(*last).len()
                + stage_name(*stage).len()
                + digits_of(*update)
        }
        OrderReply::Long => b"{'no':'long'}\n".len(),
        OrderReply::Utf8 => b"{'no':'utf8'}\n".len(),
        OrderReply::Unknown { text } => b"{'no':'unknown','text':}\n"
            .len()
            .saturating_add(quoted_length(text.slice())),
        OrderReply::Stage { now } => { b"{'no':'stage','now':''}\n".len() + stage_name(*now).len() }
        OrderReply::Busy { update } => b"{'no':'busy','update':}\n".len() + digits_of(*update),
        OrderReply::Many => b"{'no':'many'}\n".len(),
        OrderReply::Missing { path } => b"{'no':'missing','path':}\n"
            .len()
            .saturating_add(quoted_length(path.slice())),
        OrderReply::Failed { path } => b"{'no':'failed','path':}\n"
            .len()
            .saturating_add(quoted_length(path.slice())),
    }
}
