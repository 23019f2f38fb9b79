//! Reading a whole log file.
ghost use Rattle.std.specs.Prelude.{◌≡◌, ◌≤◌, List, ℕ, Ok, length, codes, IfOk};
ghost use Rattle.mv_history.specs.declared.log.Entry.{Entry};
ghost use Rattle.mv_record.specs.Reading.{Gives, GivesField, byte_list_at, list_at};
ghost use Rattle.mv_record.specs.Fitting.{IsFile};
ghost use Rattle.mv_record.specs.File.{after_magic, record_at, entries_at, contents_of, log_of, file_limit, unless_cut, GivesLog, fault as spec_fault, placed_fault as spec_placed_fault};

use crate::fault::{BodyFault, RecordFault, RecordKind};
use crate::fields::byte_list_of;
use crate::lists::texts_of;
use crate::reading_bodies::whole_body_of;
use mv_calls::{Bytes, Or, Texts};
use mv_history::{Entries, Entry};
use std::alloc::Global;

/// The most bytes of a file.
const FILE_LIMIT: usize = 536_870_912;

/// `MVLOG001`
const MAGIC: [u8; 8] = [77, 86, 76, 79, 71, 48, 48, 49];

/// What follows the first eight bytes.
fn magic_rest(bytes: &[u8]) -> Result<&[u8], Or<RecordFault>>
    ensures { Gives (λ rest. rest.now) result (after_magic (length bytes.now) (codes "MVLOG001") bytes.now) }
{
    for i in 0..8usize {
        if i == bytes.len() {
            let place = bytes.len() as u64;
            let kind = RecordKind::Cut;
            return Err(Or::Fault(RecordFault { place, kind }));
        }
        if bytes[i] != MAGIC[i] {
            let place = i as u64;
            let kind = RecordKind::Magic;
            return Err(Or::Fault(RecordFault { place, kind }));
        }
    }
    Ok(&bytes[8..])
}

/// The fault of a body by its place in the file.
fn placed_fault(fault: BodyFault, total: usize, here: usize, after: usize) -> RecordFault
    ensures { result ≡ spec_placed_fault total here after fault }
{
    match fault {
        BodyFault::Passes => RecordFault {
            place: total.saturating_sub(here) as u64,
            kind: RecordKind::Length,
        },
        BodyFault::Code(left) => RecordFault {
            place: total.saturating_sub(after).saturating_sub(left) as u64,
            kind: RecordKind::Code,
        },
        BodyFault::Suit(left) => RecordFault {
            place: total.saturating_sub(after).saturating_sub(left) as u64,
            kind: RecordKind::Suit,
        },
    }
}

/// A length and a body of exactly that length, in a file of `total` bytes.
#[tactic(auto, unfolding(crate::specs::File::record_at))]
fn record_of(alloc: Global, total: usize, bytes: &[u8]) -> Result<(Entry, &[u8]), Or<RecordFault>>
    ensures { GivesField result (record_at total bytes.now) }
{
    let (text, rest) = text_of(alloc, total, bytes)?;
    match whole_body_of(alloc, text.slice()) {
        Ok(entry) => Ok((entry, rest)),
        Err(Or::OutOfMemory) => Err(Or::OutOfMemory),
        Err(Or::Fault(fault)) => Err(Or::Fault(placed_fault(
            fault,
            total,
            bytes.len(),
            rest.len(),
        ))),
    }
}

/// A byte list, in a file of `total` bytes.
fn text_of(alloc: Global, total: usize, bytes: &[u8]) -> Result<(Bytes, &[u8]), Or<RecordFault>>
    ensures { GivesField result (unless_cut total (byte_list_at bytes.now)) }
{
    match byte_list_of(alloc, bytes) {
        Ok((text, rest)) => Ok((text, rest)),
        Err(Or::OutOfMemory) => Err(Or::OutOfMemory),
        Err(Or::Fault(_)) => Err(Or::Fault(cut(total))),
    }
}

/// The arguments, in a file of `total` bytes.
fn args_of(alloc: Global, total: usize, bytes: &[u8]) -> Result<(Texts, &[u8]), Or<RecordFault>>
    ensures { GivesField result (unless_cut total (list_at byte_list_at bytes.now)) }
{
    match texts_of(alloc, bytes) {
        Ok((args, rest)) => Ok((args, rest)),
        Err(Or::OutOfMemory) => Err(Or::OutOfMemory),
        Err(Or::Fault(_)) => Err(Or::Fault(cut(total))),
    }
}

/// A file of `total` bytes ends too early.
fn cut(total: usize) -> RecordFault
    ensures { result ≡ spec_fault RecordKind.Cut total }
{
    RecordFault {
        place: total as u64,
        kind: RecordKind::Cut,
    }
}

/// The entries up to the end of the file.
fn entries_of(alloc: Global, total: usize, bytes: &[u8]) -> Result<Vec<Entry>, Or<RecordFault>>
    ensures { Gives (λ x. x.items) result (entries_at total (length bytes.now) bytes.now) }
{
    let mut entries = Vec::new(alloc);
    let mut rest = bytes;
    for _ in 0..bytes.len() {
        if rest.is_empty() {
            return Ok(entries);
        }
        let (entry, after) = record_of(alloc, total, rest)?;
        entries.push(entry)?;
        rest = after;
    }
    Ok(entries)
}

#[tactic(auto, unfolding(crate::specs::File::contents_of))]
fn contents(alloc: Global, bytes: &[u8]) -> Result<(Texts, Entries), Or<RecordFault>>
    ensures { GivesLog result (contents_of bytes.now) }
{
    let rest = magic_rest(bytes)?;
    let (args, rest) = args_of(alloc, bytes.len(), rest)?;
    let entries = entries_of(alloc, bytes.len(), rest)?;
    Ok((args, Entries::from_vec(entries)))
}

/// The arguments and entries of which this is the file, or its first fault, from the left (docs/FORMATS.md, "Log file").
/// Where memory is wanted, nothing is said of the file.
pub fn read_log(alloc: Global, bytes: &[u8]) -> Result<(Texts, Entries), Or<RecordFault>>
    ensures found { IfOk result (λ x. IsFile bytes.now x.0 x.1.list) }
    ensures only { (args : List (List ℕ)) (entries : List Entry) → IsFile bytes.now args entries → length bytes.now ≤ file_limit
        → GivesLog result (Ok (args, entries)) }
    ensures exact { GivesLog result (log_of bytes.now) }
{
    log_from(alloc, bytes)
}

fn log_from(alloc: Global, bytes: &[u8]) -> Result<(Texts, Entries), Or<RecordFault>>
    ensures { GivesLog result (log_of bytes.now) }
{
    if bytes.len() > FILE_LIMIT {
        let kind = RecordKind::Limit;
        return Err(Or::Fault(RecordFault { place: 0, kind }));
    }
    contents(alloc, bytes)
}
