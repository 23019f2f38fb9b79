//! From the bytes of a text to the beats of a schedule.
ghost use Rattle.std.specs.Prelude.{◌≡◌, ◌||◌, ◌++◌, not, is_some, option_to_list, IfOk, OnOk, Ok, Err};
ghost use Rattle.mv_calls.specs.Or.{IfFault};
ghost use Rattle.mv_schedule.specs.Schedules.{beat_of, beats_in, first_other, is_blank, schedule_of};

use crate::fault::ScheduleFault;
use mv_calls::{Or, OutOfMemory};
use mv_rehearse::Beat;
use std::alloc::Global;

/// How many bytes a schedule has at most.
const MOST_BYTES: usize = 16_777_216;

/// Reads a schedule: each byte of the text is the letter of a beat, `L`, `C`, `F` or `J`, or a space or a line feed, which says
/// nothing. A text of more than 16 MiB is refused as such, else the first other byte is the fault.
pub fn read_schedule(alloc: Global, text: &[u8]) -> Result<Vec<Beat>, Or<ScheduleFault>>
    ensures ok { IfOk result (λ beats. schedule_of text.now ≡ Ok beats.items) }
    ensures fault { IfFault result (λ fault. schedule_of text.now ≡ Err fault) }
{
    if text.len() > MOST_BYTES {
        return Err(Or::Fault(ScheduleFault::Limit));
    }
    if let Some(place) = other_byte(text) {
        return Err(Or::Fault(ScheduleFault::Letter { place }));
    }
    Ok(beats_of(alloc, text)?)
}

/// The place of the first byte that is neither a beat's letter nor a blank.
#[tactic(auto, using(crate::proofs::Letters::other_here, crate::proofs::Letters::none_here, crate::proofs::Letters::none_at_end))]
fn other_byte(text: &[u8]) -> Option<u64>
    ensures { result ≡ first_other 0 text.now }
{
    for place in 0..text.len() {
        if is_other(text[place]) {
            return Some(place as u64);
        }
    }
    None
}

/// Whether a byte is neither a beat's letter nor a blank.
fn is_other(byte: u8) -> bool
    ensures { result ≡ not (is_some (beat_of byte) || is_blank byte) }
{
    beat_in(byte).is_none() && byte != b' ' && byte != b'\n'
}

/// The beat of a letter.
fn beat_in(byte: u8) -> Option<Beat>
    ensures { result ≡ beat_of byte }
{
    match byte {
        b'L' => Some(Beat::Lead),
        b'C' => Some(Beat::Carry),
        b'F' => Some(Beat::Follow),
        b'J' => Some(Beat::Judge),
        _ => None,
    }
}

/// The beats of a text.
#[tactic(auto, using(crate::proofs::Letters::beats_step, crate::proofs::Letters::beats_done))]
fn beats_of(alloc: Global, text: &[u8]) -> Result<Vec<Beat>, OutOfMemory>
    ensures { IfOk result (λ beats. beats.items ≡ beats_in text.now) }
{
    let mut beats = Vec::new(alloc);
    for place in 0..text.len() {
        add_beat(&mut beats, text[place])?;
    }
    Ok(beats)
}

/// Adds the beat of a letter, where it is one's.
fn add_beat(beats: &mut Vec<Beat>, byte: u8) -> Result<(), OutOfMemory>
    ensures { OnOk result (beats.new.items ≡ beats.old.items ++ option_to_list (beat_of byte)) }
{
    if let Some(beat) = beat_in(byte) {
        beats.push(beat)?;
    }
    Ok(())
}
