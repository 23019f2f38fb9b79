//! The reading of the logs of a small guest, and the laws of logs at it.
ghost use Rattle.std.specs.Prelude.{◌≡◌, ◌∷◌, ◌==◌, [], cond, Ok, Err, refl};
ghost use Rattle.std.proofs.Common.{lit<};
ghost use Rattle.mv_calls.specs.declared.calls.Call.TheVariants as call;
ghost use Rattle.mv_calls.specs.declared.trap.Trap.TheVariants as trap;
ghost use Rattle.mv_syntax.specs.declared.fault.BornFault.TheVariants as born;
ghost use Rattle.mv_audit.specs.declared.tests.Small.TheVariants as small;
ghost use Rattle.mv_version.specs.declared.event.Event.TheVariants as event;

use super::*;
use mv_calls::{Bytes, Call, Item, Or, OutOfMemory, Reply, Texts, Trap};
use mv_history::{
    Cause, Entry, How, Mark, Update, Updates, Why, accepted_rules_are_shaped, bases_follow,
    counts_fit, followers_hear, judgements_may_come, later_updates_are_unread, leads_by_itself,
    logs_end_once, logs_join, messages_are_settled, messages_make_the_follower, no_byte_lost,
    orders_keep_the_rest, readings_stay, replays_join, spots_are_tied, steps_are_shown,
    turns_are_legal, turns_send_little, verdicts_stay, worlds_have_a_shape,
};
use mv_orders::{OrderReply, Word};
use mv_syntax::BornFault;
use mv_version::{Event, Version};
use std::alloc::Global;
use std::test::*;

/// A guest that passes a point, reads, writes and ends. One that begins in `Breaks` passes a point and traps. A new version is
/// born by the first letter of its module: `!` traps, `.` ends with 7, `c` closes, at `?` there is never memory, and any other
/// goes on as the old one. An empty module has no transformer.
#[derive(Drop)]
pub(crate) enum Small {
    Begins,
    Reads,
    Writes,
    Ends,
    Breaks,
    Traps,
    Quits,
    Closes,
}

impl Version for Small {
    ghost behaviour = { record {
      state = λ s. s;
      go = λ s. elim s [ small.Begins ↦ event.Point | small.Reads ↦ event.Calls (call.Read 0 4) | small.Writes ↦ event.Calls (call.Write 1 (97 ∷ [])) | small.Ends ↦ event.Ends 0 | small.Breaks ↦ event.Point | small.Traps ↦ event.Traps trap.Unreachable | small.Quits ↦ event.Ends 7 | small.Closes ↦ event.Calls (call.Close 1) ];
      after = λ s r. elim s [ small.Begins ↦ small.Reads | small.Reads ↦ small.Writes | small.Writes ↦ small.Ends | small.Ends ↦ small.Ends | small.Breaks ↦ small.Traps | small.Traps ↦ small.Traps | small.Quits ↦ small.Quits | small.Closes ↦ small.Ends ];
      passed = λ s. elim s [ small.Begins ↦ small.Reads | small.Reads ↦ small.Writes | small.Writes ↦ small.Ends | small.Ends ↦ small.Ends | small.Breaks ↦ small.Traps | small.Traps ↦ small.Traps | small.Quits ↦ small.Quits | small.Closes ↦ small.Ends ];
      started = λ m a. Ok small.Begins;
      born = λ s m. elim m [ [] ↦ Err born.NoTransform | x ∷ rest ↦ Ok (cond (x == 33) small.Traps (cond (x == 46) small.Quits (cond (x == 99) small.Closes s))) ];
      left = λ s. elim s [ small.Begins ↦ 1 | small.Reads ↦ 0 | small.Writes ↦ 0 | small.Ends ↦ 0 | small.Breaks ↦ 1 | small.Traps ↦ 0 | small.Quits ↦ 0 | small.Closes ↦ 0 ];
    } };

    ghost prepared = { λ s. Unit {0} };

    fn start(_alloc: Global, _module: &[u8], _args: &Texts) -> Result<Self, Or<BornFault>> {
        Ok(Small::Begins)
    }

    fn born(_alloc: Global, old: Self, module: &[u8]) -> Result<Self, Or<BornFault>> {
        match module {
            [] => Err(Or::Fault(BornFault::NoTransform)),
            [b'?', ..] => Err(Or::OutOfMemory),
            [letter, ..] => Ok(old.turned(*letter)),
        }
    }

    fn go(&mut self, alloc: Global) -> Result<Event, OutOfMemory> {
        match self {
            Small::Begins => Ok(Event::Point),
            Small::Reads => Ok(Event::Calls(Call::Read { fd: 0, cap: 4 })),
            Small::Writes => Ok(Event::Calls(Call::Write {
                fd: 1,
                bytes: Bytes::from_slice(alloc, b"a")?,
            })),
            Small::Ends => Ok(Event::Ends(0)),
            Small::Breaks => Ok(Event::Point),
            Small::Traps => Ok(Event::Traps(Trap::Unreachable)),
            Small::Quits => Ok(Event::Ends(7)),
            Small::Closes => Ok(Event::Calls(Call::Close { fd: 1 })),
        }
    }

    fn prepare(&mut self, _alloc: Global) -> Result<(), OutOfMemory> {
        Ok(())
    }

    fn answer(&mut self, _reply: &Reply) {
        self.pass();
    }

    fn pass_point(&mut self) {
        self.pass();
    }

    fn copy(&self, _alloc: Global) -> Result<Self, OutOfMemory> {
        match self {
            Small::Begins => Ok(Small::Begins),
            Small::Reads => Ok(Small::Reads),
            Small::Writes => Ok(Small::Writes),
            Small::Ends => Ok(Small::Ends),
            Small::Breaks => Ok(Small::Breaks),
            Small::Traps => Ok(Small::Traps),
            Small::Quits => Ok(Small::Quits),
            Small::Closes => Ok(Small::Closes),
        }
    }

    ghost points_end = { elim [ small.Begins ↦ (λ here again. lit< tt) | small.Reads ↦ (λ here again. absurd (let bad : event.Calls (call.Read 0 4) ≡ event.Point = here in cc)) | small.Writes ↦ (λ here again. absurd (let bad : event.Calls (call.Write 1 (97 ∷ [])) ≡ event.Point = here in cc)) | small.Ends ↦ (λ here again. absurd (let bad : event.Ends 0 ≡ event.Point = here in cc)) | small.Breaks ↦ (λ here again. lit< tt) | small.Traps ↦ (λ here again. absurd (let bad : event.Traps trap.Unreachable ≡ event.Point = here in cc)) | small.Quits ↦ (λ here again. absurd (let bad : event.Ends 7 ≡ event.Point = here in cc)) | small.Closes ↦ (λ here again. absurd (let bad : event.Calls (call.Close 1) ≡ event.Point = here in cc)) ] };

    ghost settled = { record { state_once = λ s. refl; after_is = λ s r. refl; passed_is = λ s. refl; started_is = λ m a s h. refl; born_is = λ s m. refl; newborn_is = λ s m v h. refl } };
}

impl Small {
    /// Goes one on.
    fn pass(&mut self)
        ensures { self.new ≡ elim self.old [ small.Begins ↦ small.Reads | small.Reads ↦ small.Writes | small.Writes ↦ small.Ends | small.Ends ↦ small.Ends | small.Breaks ↦ small.Traps | small.Traps ↦ small.Traps | small.Quits ↦ small.Quits | small.Closes ↦ small.Ends ] }
    {
        *self = match self {
            Small::Begins => Small::Reads,
            Small::Reads => Small::Writes,
            Small::Writes => Small::Ends,
            Small::Ends => Small::Ends,
            Small::Breaks => Small::Traps,
            Small::Traps => Small::Traps,
            Small::Quits => Small::Quits,
            Small::Closes => Small::Ends,
        };
    }

    /// The new version of a module with this first letter.
    fn turned(self, letter: u8) -> Small
        ensures { result ≡ cond (letter == 33) small.Traps (cond (letter == 46) small.Quits (cond (letter == 99) small.Closes self)) }
    {
        if letter == b'!' {
            Small::Traps
        } else if letter == b'.' {
            Small::Quits
        } else if letter == b'c' {
            Small::Closes
        } else {
            self
        }
    }
}

#[test]
fn the_laws_speak_of_a_version(_rt: HostRuntime) -> Result<(), Fail> {
    accepted_rules_are_shaped::<Small>();
    replays_join::<Small>();
    verdicts_stay::<Small>();
    no_byte_lost::<Small>();
    leads_by_itself::<Small>();
    counts_fit::<Small>();
    worlds_have_a_shape::<Small>();
    turns_are_legal::<Small>();
    messages_make_the_follower::<Small>();
    bases_follow::<Small>();
    judgements_may_come::<Small>();
    steps_are_shown::<Small>();
    readings_stay::<Small>();
    Ok(())
}

#[test]
fn the_laws_of_parts_speak_of_a_version(_rt: HostRuntime) -> Result<(), Fail> {
    logs_join::<Small>();
    logs_end_once::<Small>();
    followers_hear::<Small>();
    later_updates_are_unread::<Small>();
    orders_keep_the_rest();
    turns_send_little::<Small>();
    spots_are_tied::<Small>();
    messages_are_settled::<Small>();
    Ok(())
}

/// An order that is accepted.
pub(crate) fn order(
    alloc: Global,
    line: &[u8],
    word: Word,
    update: u32,
) -> Result<Entry, OutOfMemory> {
    Ok(Entry::Order {
        text: Bytes::from_slice(alloc, line)?,
        reply: OrderReply::Accepted { word, update },
    })
}

/// Adds the entries of the guest by itself, behind those that are there: from its point to its end.
fn add_run(alloc: Global, entries: &mut Vec<Entry>) -> Result<(), OutOfMemory> {
    entries.push(Entry::Point)?;
    entries.push(Entry::Call {
        item: Item {
            call: Call::Read { fd: 0, cap: 4 },
            reply: Reply::Errno(6),
        },
    })?;
    entries.push(Entry::Call {
        item: Item {
            call: Call::Write {
                fd: 1,
                bytes: Bytes::from_slice(alloc, b"a")?,
            },
            reply: Reply::Errno(6),
        },
    })?;
    entries.push(Entry::Mark(Mark::End { how: How::Ended(0) }))?;
    Ok(())
}

/// A log in which an update is promoted at the first point, 11 entries.
fn promotion(alloc: Global) -> Result<Vec<Entry>, OutOfMemory> {
    let mut entries = Vec::new(alloc);
    entries.push(order(alloc, b"update new none none", Word::Update, 1)?)?;
    entries.push(Entry::Mark(Mark::Fork { update: 1 }))?;
    entries.push(order(alloc, b"promote", Word::Promote, 0)?)?;
    entries.push(Entry::Mark(Mark::Hand { why: Why::Promote }))?;
    entries.push(Entry::Mark(Mark::Promote))?;
    entries.push(order(alloc, b"finish", Word::Finish, 0)?)?;
    entries.push(Entry::Mark(Mark::Finish))?;
    add_run(alloc, &mut entries)?;
    Ok(entries)
}

/// A log in which the follower of an update is discarded by an order, 8 entries.
fn discard(alloc: Global) -> Result<Vec<Entry>, OutOfMemory> {
    let mut entries = Vec::new(alloc);
    entries.push(order(alloc, b"update new none none", Word::Update, 1)?)?;
    entries.push(Entry::Mark(Mark::Fork { update: 1 }))?;
    entries.push(order(alloc, b"discard", Word::Discard, 0)?)?;
    entries.push(Entry::Mark(Mark::Discard {
        cause: Cause::Order { n: 2 },
    }))?;
    add_run(alloc, &mut entries)?;
    Ok(entries)
}

/// Puts another entry in the place of one.
fn change(entries: &mut [Entry], at: usize, entry: Entry) {
    if at < entries.len() {
        entries[at] = entry;
    }
}

/// The first illegal entry of a log of the small guest with one update.
fn first_of(alloc: Global, entries: &[Entry]) -> Result<Option<u64>, OutOfMemory> {
    let mut updates = Updates::new(alloc);
    updates.reserve(1)?;
    updates.push(Update {
        module: Bytes::from_slice(alloc, b"new")?,
        forward: Bytes::from_slice(alloc, b"mvrules 1\n")?,
        reverse: Bytes::from_slice(alloc, b"mvrules 1\n")?,
    });
    first_illegal(alloc, Small::Begins, &updates, entries)
}

#[test]
fn a_promotion_and_a_discard_are_legal(rt: HostRuntime) -> Result<(), Fail> {
    let alloc = rt.alloc();
    let mut entries = promotion(alloc)?;
    assert!(rt; first_of(alloc, entries.as_slice())?.is_none());
    entries.push(Entry::Point)?;
    assert!(rt; first_of(alloc, entries.as_slice())? == Some(11));
    assert!(rt; first_of(alloc, discard(alloc)?.as_slice())?.is_none());
    Ok(())
}

#[test]
fn a_changed_entry_is_refused(rt: HostRuntime) -> Result<(), Fail> {
    let alloc = rt.alloc();
    let mut entries = promotion(alloc)?;
    change(entries.as_mut_slice(), 8, Entry::Point);
    assert!(rt; first_of(alloc, entries.as_slice())? == Some(8));
    change(entries.as_mut_slice(), 4, Entry::Mark(Mark::Over));
    assert!(rt; first_of(alloc, entries.as_slice())? == Some(4));
    change(
        entries.as_mut_slice(),
        0,
        Entry::Mark(Mark::Fork { update: 1 }),
    );
    assert!(rt; first_of(alloc, entries.as_slice())? == Some(0));
    Ok(())
}
