//! Calls of a guest to the outside, and their replies.
ghost use Rattle.std.specs.Prelude.{◌≡◌, IsTrue};
ghost use Rattle.mv_calls.specs.Places.{Holds, places_of, places_in};
ghost use Rattle.mv_calls.specs.Suits.{suits_of, room_of, are_rising, are_below};

use crate::bytes::Bytes;
use crate::happenings::{Happened, Happenings};
use crate::subs::Subs;
use std::marker::Model;

/// A call of a guest to the outside, after WASI preview 1.
#[derive(Debug, Drop)]
pub enum Call {
    /// `clock_time_get`: the time of a clock, 0 for the real time and 1 for the monotonic clock.
    Clock { id: u32 },
    /// `random_get`: exactly `len` random bytes, at most 65,536.
    Random { len: u32 },
    /// `fd_read`: at most `cap` bytes from a descriptor, and `cap` is at most 65,536.
    Read { fd: u32, cap: u32 },
    /// `fd_write`: the bytes that are offered to a descriptor, at most 65,536.
    Write { fd: u32, bytes: Bytes },
    /// `fd_close`: the descriptor is no longer used.
    Close { fd: u32 },
    /// `fd_fdstat_get`: what the descriptor is.
    FdStat { fd: u32 },
    /// `sched_yield`: others may go first.
    Yield,
    /// `poll_oneoff`: which of the subscriptions, at most 1,024, have come about.
    Poll { subs: Subs },
    /// `sock_accept`: the next connection of a listener, with the descriptor flags (`fdflags`) for it.
    Accept { fd: u32, flags: u16 },
    /// `sock_shutdown`: 1 ends the reading side of a connection, 2 the writing side, 3 both.
    Shutdown { fd: u32, how: u8 },
}

/// What the outside answers to a call.
#[derive(Debug, Drop)]
pub enum Reply {
    /// An error number of WASI preview 1, from 1 to 65,535.
    Errno(u16),
    /// It was done.
    Done,
    /// The bytes that were read or drawn.
    Bytes(Bytes),
    /// How many bytes of a write were taken.
    Count(u32),
    /// The new connection's descriptor.
    Fd(u32),
    /// The time, in nanoseconds.
    Time(u64),
    /// What a descriptor is (WASI preview 1, `fdstat`).
    Stat {
        filetype: u8,
        flags: u16,
        rights: u64,
        heirs: u64,
    },
    /// What has come about, in the order of the subscriptions.
    Ready(Happenings),
}

/// A call with its reply, which suits it.
#[derive(Debug, Drop)]
pub struct Item {
    pub call: Call,
    pub reply: Reply,
}

impl Model for Item {
    ghost use Rattle.std.specs.Prelude.{IsTrue};
    ghost use Rattle.mv_calls.specs.Suits.{suits_of};
    ghost use Rattle.mv_calls.specs.declared.calls.Call.{Call};
    ghost use Rattle.mv_calls.specs.declared.calls.Reply.{Reply};

    ghost Value = { Call × Reply };

    ghost view = { λ i. (i.call, i.reply) };

    ghost invariant = { λ i. IsTrue (suits_of i.call i.reply) };
}

/// Whether the reply is one of those that the call may have: an error number above 0 for each call,
/// and besides what WASI preview 1 lets the call answer. A reply that suits has place in what
/// [`Room::make`](crate::Room) makes for the call.
#[tactic(auto, using(crate::proofs::RoomLaws::suits_room))]
pub fn suits(call: &Call, reply: &Reply) -> bool
    ensures suits { result ≡ suits_of call.now reply.now }
    ensures room { IsTrue result → Holds (places_of call.now) (places_in reply.now) }
{
    match (call, reply) {
        (_, Reply::Errno(errno)) => *errno > 0,
        (Call::Clock { .. }, Reply::Time(_)) => true,
        (Call::Random { len }, Reply::Bytes(bytes)) => bytes.slice().len() == *len as usize,
        (Call::Read { cap, .. }, Reply::Bytes(bytes)) => bytes.slice().len() <= *cap as usize,
        (Call::Write { bytes, .. }, Reply::Count(count)) => {
            *count as usize <= bytes.slice().len()
        }
        (Call::Close { .. }, Reply::Done) => true,
        (Call::FdStat { .. }, Reply::Stat { .. }) => true,
        (Call::Yield, Reply::Done) => true,
        (Call::Poll { subs }, Reply::Ready(happenings)) => {
            rising(happenings.slice()) && below(subs.slice().len(), happenings.slice())
        }
        (Call::Accept { .. }, Reply::Fd(_)) => true,
        (Call::Shutdown { .. }, Reply::Done) => true,
        _ => false,
    }
}

/// Whether each event names a later subscription than the one before it.
fn rising(happenings: &[Happened]) -> bool
    ensures { result ≡ are_rising happenings.now }
{
    let mut next = 1;
    while next < happenings.len() {
        if happenings[next].sub <= happenings[next - 1].sub {
            return false;
        }
        next += 1;
    }
    true
}

/// Whether each event names one of the first `count` subscriptions.
fn below(count: usize, happenings: &[Happened]) -> bool
    ensures { result ≡ are_below count happenings.now }
{
    let mut next = 0;
    while next < happenings.len() {
        if happenings[next].sub as usize >= count {
            return false;
        }
        next += 1;
    }
    true
}

/// How many bytes a reply to a read or random call has at most, or how many events one to a poll
/// has; 0 for every other call, whose replies take no memory.
pub fn reply_room(call: &Call) -> usize
    ensures { result ≡ room_of call.now }
{
    match call {
        Call::Random { len } => *len as usize,
        Call::Read { cap, .. } => *cap as usize,
        Call::Poll { subs } => subs.slice().len(),
        _ => 0,
    }
}
