//! What `poll_oneoff` waits for.
ghost use Rattle.std.specs.Prelude.{◌≡◌, ◌<◌, ◌≤◌, ◌+◌, [], length, true, IfOk, IsTrue, vec_len, vec_capacity};
ghost use Rattle.mv_calls.specs.Suits.{suits_of, are_rising, are_below};
ghost use Rattle.mv_calls.specs.declared.calls.Call.TheVariants.{Poll as poll_call};

use crate::clocks::Moment;
use crate::connections::stream_of;
use crate::door::Arrival;
use crate::errno::{BADF, INVAL, IO};
use crate::sockets::{LISTENER, Sockets};
use mv_calls::{Happened, Happenings, Reply, Sub};
use std::net::{Net, OpenStream};
use std::rt::Clock;
use std::time::Duration;
use std::{io, thread};

/// How often a poll looks before it answers that nothing has come about.
const LOOKS: u32 = 100;

/// The pause after a look that found nothing, in milliseconds.
const PAUSE: u64 = 1;

/// What a look at one subscription found.
#[derive(Clone, Copy)]
enum Readiness {
    /// It has come about, with so many bytes at least.
    Ready { nbytes: u64 },
    /// It hasn't come about, or this can't be told without waiting.
    NotYet,
    /// It never will, by this error number.
    Broken(u16),
}

/// Looks at the subscriptions until one has come about, about a tenth of a second long. An error is
/// that of a clock, or that the listener's address can't be bound.
pub(crate) fn poll_reply<R: Net + Clock>(
    system: &R,
    sockets: &mut Sockets<'_, R>,
    subs: &[Sub],
    place: Vec<Happened>,
) -> io::Result<Reply>
    requires empty { place.items ≡ [] }
    requires room { length subs.now ≤ vec_capacity place }
    ensures suits { IfOk result (λ reply. IsTrue (suits_of (poll_call subs.now) reply)) }
    ensures next { sockets.new.connections.next ≡ sockets.old.connections.next }
{
    let mut events = place;
    let began = Moment::now(system)?;
    for _ in 0..LOOKS {
        look(system, sockets, subs, &began, &mut events)?;
        if !events.is_empty() {
            break;
        }
        thread::sleep(system, Duration::from_millis(PAUSE));
    }
    Ok(Reply::Ready(Happenings::from_vec(events)))
}

/// Adds an event for each subscription that has come about.
#[tactic(auto, using(crate::proofs::Events::below_more))]
fn look<R: Net + Clock>(
    system: &R,
    sockets: &mut Sockets<'_, R>,
    subs: &[Sub],
    began: &Moment,
    events: &mut Vec<Happened>,
) -> io::Result<()>
    requires empty { events.old.items ≡ [] }
    requires room { length subs.now ≤ vec_capacity events.old }
    ensures rising { are_rising events.new.items ≡ true }
    ensures below { are_below (length subs.now) events.new.items ≡ true }
    ensures room { vec_capacity events.new ≡ vec_capacity events.old }
    ensures next { sockets.new.connections.next ≡ sockets.old.connections.next }
{
    let now = Moment::now(system)?;
    for (index, sub) in subs.iter().enumerate() {
        let Ok(number) = u32::try_from(index) else {
            return Ok(());
        };
        let readiness = look_at(sockets, sub, began, &now)?;
        add(events, number, readiness);
    }
    Ok(())
}

/// Adds the event of the subscription of this number, where it has come about or never will.
#[tactic(auto, using(crate::proofs::Events::below_push, crate::proofs::Events::below_more, crate::proofs::Events::rising_push))]
fn add(events: &mut Vec<Happened>, number: u32, readiness: Readiness)
    requires rising { are_rising events.old.items ≡ true }
    requires below { are_below number events.old.items ≡ true }
    requires place { vec_len events.old < vec_capacity events.old }
    ensures rising { are_rising events.new.items ≡ true }
    ensures below { are_below (number + 1) events.new.items ≡ true }
    ensures longer { vec_len events.new ≤ vec_len events.old + 1 }
    ensures room { vec_capacity events.new ≡ vec_capacity events.old }
{
    let (error, nbytes) = match readiness {
        Readiness::Ready { nbytes } => (0, nbytes),
        Readiness::Broken(error) => (error, 0),
        Readiness::NotYet => return,
    };
    events.push_reserved(Happened {
        sub: number,
        error,
        nbytes,
        flags: 0,
    });
}

/// Whether the subscription has come about.
fn look_at<R: Net>(
    sockets: &mut Sockets<'_, R>,
    sub: &Sub,
    began: &Moment,
    now: &Moment,
) -> io::Result<Readiness>
    ensures next { sockets.new.connections.next ≡ sockets.old.connections.next }
{
    match sub {
        Sub::Clock { id, timeout, flags } => Ok(clock_readiness(began, now, *id, *timeout, *flags)),
        Sub::Read { fd: LISTENER } => Ok(match sockets.door.look()? {
            Arrival::Came(()) => Readiness::Ready { nbytes: 1 },
            Arrival::Nobody => Readiness::NotYet,
            Arrival::Broken => Readiness::Broken(IO),
        }),
        Sub::Read { fd } => Ok(read_readiness(sockets, *fd)),
        Sub::Write { fd } => Ok(write_readiness(sockets, *fd)),
    }
}

/// Whether the time of a clock has come.
fn clock_readiness(began: &Moment, now: &Moment, id: u32, timeout: u64, flags: u16) -> Readiness {
    match now.has_come(began, id, timeout, flags) {
        Some(true) => Readiness::Ready { nbytes: 0 },
        Some(false) => Readiness::NotYet,
        None => Readiness::Broken(INVAL),
    }
}

/// Whether bytes of a connection, or its end, can be read. Of the standard streams this can't be told
/// without waiting.
fn read_readiness<R: Net>(sockets: &mut Sockets<'_, R>, fd: u32) -> Readiness
    ensures next { sockets.new.connections.next ≡ sockets.old.connections.next }
{
    if fd < LISTENER {
        return Readiness::NotYet;
    }
    let Some(stream) = stream_of(&mut sockets.connections.open, fd) else {
        return Readiness::Broken(BADF);
    };
    match stream.peek(&mut [0]) {
        Ok(_) => Readiness::Ready { nbytes: 1 },
        Err(error) => match error.kind() {
            io::ErrorKind::WouldBlock => Readiness::NotYet,
            _ => Readiness::Broken(IO),
        },
    }
}

/// Whether the descriptor takes bytes: standard output and error, and each connection, which says by
/// errno 6 of the write where it takes none.
fn write_readiness<R: Net>(sockets: &mut Sockets<'_, R>, fd: u32) -> Readiness
    ensures next { sockets.new.connections.next ≡ sockets.old.connections.next }
{
    match fd {
        1 | 2 => Readiness::Ready { nbytes: 0 },
        0 | LISTENER => Readiness::NotYet,
        _ => match stream_of(&mut sockets.connections.open, fd) {
            Some(_) => Readiness::Ready { nbytes: 0 },
            None => Readiness::Broken(BADF),
        },
    }
}
