//! A follower where memory is scarce.
ghost use Rattle.std.specs.Prelude.{◌≡◌, Err, Ok, false, refl};
ghost use Rattle.std.proofs.Common.{lit<};
ghost use Rattle.mv_calls.specs.declared.calls.Call.TheVariants as call;
ghost use Rattle.mv_follower.specs.Follows.{has_verdict};
ghost use Rattle.mv_follower.specs.declared.tests.scarce.Poor.TheVariants as poor;
ghost use Rattle.mv_syntax.specs.declared.fault.BornFault.TheVariants as fault;
ghost use Rattle.mv_version.specs.declared.event.Event.TheVariants as event;

use super::{FORWARD, REVERSE, gives_verdict, read, tell};
use crate::{Followed, Follower};
use mv_calls::{Bytes, Call, Or, OutOfMemory, Reply, Texts};
use mv_feed::{Msg, PlainFeed};
use mv_history::Cause;
use mv_syntax::BornFault;
use mv_version::{Event, Version};
use std::alloc::Global;
use std::cell::Cell;
use std::test::*;

/// Which tries find no memory, the next in the lowest bit: to be born, for the event behind the point, and for a reply.
#[derive(Drop)]
struct Scarce {
    births: Cell<u8>,
    events: Cell<u8>,
    replies: Cell<u8>,
}

/// Whether this try finds memory.
fn try_once(refused: &Cell<u8>) -> Result<(), OutOfMemory> {
    let tries = refused.get();
    refused.set(tries / 2);
    if tries % 2 == 0 {
        Ok(())
    } else {
        Err(OutOfMemory)
    }
}

/// A guest that passes a point and then reads on and on.
#[derive(Drop)]
enum Poor<'a> {
    Begins(&'a Scarce),
    Reads(&'a Scarce),
}

impl<'a> Version for Poor<'a> {
    ghost behaviour = { record {
      state = λ s. s;
      go = λ s. elim s [ poor.Begins x ↦ event.Point | poor.Reads x ↦ event.Calls (call.Read 0 4) ];
      after = λ s r. elim s [ poor.Begins x ↦ poor.Reads x | poor.Reads x ↦ poor.Reads x ];
      passed = λ s. elim s [ poor.Begins x ↦ poor.Reads x | poor.Reads x ↦ poor.Reads x ];
      started = λ m a. Err fault.NoResume;
      born = λ s m. Ok s;
      left = λ s. elim s [ poor.Begins x ↦ 1 | poor.Reads x ↦ 0 ];
    } };

    ghost prepared = { λ s. Unit {0} };

    fn start(_alloc: Global, _module: &[u8], _args: &Texts) -> Result<Self, Or<BornFault>> {
        Err(Or::OutOfMemory)
    }

    fn born(_alloc: Global, old: Self, _module: &[u8]) -> Result<Self, Or<BornFault>> {
        match try_once(&old.scarce().births) {
            Ok(()) => Ok(old),
            Err(OutOfMemory) => Err(Or::OutOfMemory),
        }
    }

    fn go(&mut self, _alloc: Global) -> Result<Event, OutOfMemory> {
        match self {
            Poor::Begins(_) => Ok(Event::Point),
            Poor::Reads(scarce) => {
                try_once(&scarce.events)?;
                Ok(Event::Calls(Call::Read { fd: 0, cap: 4 }))
            }
        }
    }

    fn prepare(&mut self, _alloc: Global) -> Result<(), OutOfMemory> {
        try_once(&self.scarce().replies)
    }

    fn answer(&mut self, _reply: &Reply) {
        self.pass();
    }

    fn pass_point(&mut self) {
        self.pass();
    }

    fn copy(&self, _alloc: Global) -> Result<Self, OutOfMemory> {
        match self {
            Poor::Begins(scarce) => Ok(Poor::Begins(scarce)),
            Poor::Reads(scarce) => Ok(Poor::Reads(scarce)),
        }
    }

    ghost points_end = { elim [ poor.Begins x ↦ (λ here again. lit< tt) | poor.Reads x ↦ (λ here again. absurd (let bad : event.Calls (call.Read 0 4) ≡ event.Point = here in cc)) ] };

    ghost settled = { record { state_once = λ s. refl; after_is = λ s r. refl; passed_is = λ s. refl; started_is = λ m a s h. refl; born_is = λ s m. refl; newborn_is = λ s m v h. refl } };
}

impl<'a> Poor<'a> {
    fn scarce(&self) -> &'a Scarce {
        match self {
            Poor::Begins(scarce) => scarce,
            Poor::Reads(scarce) => scarce,
        }
    }

    /// Goes one on.
    fn pass(&mut self)
        ensures { self.new ≡ elim self.old [ poor.Begins x ↦ poor.Reads x | poor.Reads x ↦ poor.Reads x ] }
    {
        *self = match self {
            Poor::Begins(scarce) => Poor::Reads(scarce),
            Poor::Reads(scarce) => Poor::Reads(scarce),
        };
    }
}

/// What a step is called.
fn step_name(followed: &Followed) -> char {
    match followed {
        Followed::Idle => 'i',
        Followed::Moved => 'm',
        Followed::Waits => 'w',
        Followed::Memory => '-',
        Followed::Ready { n: 7 } => 'r',
        Followed::Failed(Cause::Memory) => 'f',
        _ => '?',
    }
}

/// The steps of a follower up to its verdict, a letter each. It takes messages between them.
fn steps<V: Version>(
    alloc: Global,
    follower: &mut Follower<V>,
    feed: &mut PlainFeed<V>,
) -> Result<String, OutOfMemory>
    requires { has_verdict follower.old ≡ false }
{
    let mut steps = String::with_capacity(alloc, 20)?;
    for _ in 0..20 {
        let _ = follower.carry(feed);
        let followed = follower.step(alloc);
        steps.push(step_name(&followed))?;
        if gives_verdict(&followed) {
            return Ok(steps);
        }
    }
    Ok(steps)
}

/// Tells of two reads, and of a hand-over behind them.
fn tell_reads(feed: &mut PlainFeed<Poor<'_>>) {
    tell(feed, Msg::Heard { item: read() });
    tell(feed, Msg::Heard { item: read() });
    tell(feed, Msg::Hand { n: 7 });
}

/// The steps of a follower of an update, and those behind its verdict, where the old guest is to follow.
fn tries(alloc: Global, scarce: &Scarce) -> Result<(String, String), OutOfMemory> {
    let mut feed = PlainFeed::<Poor<'_>>::make(alloc, 8)?;
    let mut follower = Follower::<Poor<'_>>::new(alloc)?;
    tell(
        &mut feed,
        Msg::Fork {
            update: 1,
            old: Poor::Begins(scarce),
            module: Bytes::from_slice(alloc, b"a")?,
            forward: Bytes::from_slice(alloc, FORWARD)?,
            reverse: Bytes::from_slice(alloc, REVERSE)?,
        },
    );
    tell_reads(&mut feed);
    let first = steps(alloc, &mut follower, &mut feed)?;
    follower.clear();
    tell(
        &mut feed,
        Msg::Stand {
            guest: Poor::Reads(scarce),
        },
    );
    tell_reads(&mut feed);
    Ok((first, steps(alloc, &mut follower, &mut feed)?))
}

/// A step that wants memory is tried again, and stands where it stood. A birth that wants memory uses its base up: what was put
/// for it is skipped, and the reverse rules stay.
#[test]
fn steps_are_tried_again_and_births_are_not(rt: HostRuntime) -> Result<(), Fail> {
    let alloc = rt.alloc();
    let rows: [(u8, u8, u8, &str, &str); 4] = [
        (0b0, 0b0, 0b0, "mmmwmmwmmwr", "wmmwmmwr"),
        (0b1, 0b0, 0b0, "mm-f", "iiiwmmwmmwr"),
        (0b0, 0b1, 0b0, "mmmwm-mwmmwr", "wmmwmmwr"),
        (0b0, 0b0, 0b110, "mmmwmmwm--mwr", "wmmwmmwr"),
    ];
    for (births, events, replies, first, behind) in rows {
        let scarce = Scarce {
            births: Cell::new(births),
            events: Cell::new(events),
            replies: Cell::new(replies),
        };
        let (came, later) = tries(alloc, &scarce)?;
        assert_eq!(rt; came.as_str(), first);
        assert_eq!(rt; later.as_str(), behind);
    }
    Ok(())
}
