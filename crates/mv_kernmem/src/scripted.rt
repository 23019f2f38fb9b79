//! What a guest's calls meet: the connections of a script, its clock and its random bytes.
ghost use Rattle.std.specs.Prelude.{◌≡◌, ◌≤◌, ◌<◌, ◌+◌, ◌-◌, ◌%◌, ◌^◌, [], length, map, IfOk, vec_len, vec_capacity, option_to_list, ◌++◌};
ghost use Rattle.std.specs.Option.{option_copied};
ghost use Rattle.mv_calls.specs.Places.{Holds, places_of};
ghost use Rattle.mv_kernmem.specs.States.{fresh, connection_at, is_connection, is_known, is_output, waits};
ghost use Rattle.mv_kernmem.specs.Replies.{reply_of, accept_of, close_of, read_of, time_of, period_of, random_at};
ghost use Rattle.mv_kernmem.specs.Polls.{happened, can_read, can_write, event_at, told_event};
ghost use Rattle.mv_kernmem.specs.Changes.{state_after, with_connection, after_accept, after_read, after_close};
ghost use Rattle.mv_calls.specs.declared.calls.Call.TheVariants as asked;

use crate::script::{Conns, Numbers};
use crate::socket::Socket;
use mv_calls::{Bytes, Call, Happened, Happenings, OutOfMemory, Reply, Room, Sub};
use std::alloc::Global;
use std::marker::Model;

/// Errno of WASI preview 1: try again.
const ERRNO_AGAIN: u16 = 6;

/// Errno of WASI preview 1: no such descriptor.
const ERRNO_BADF: u16 = 8;

/// Filetype of WASI preview 1: a character device.
const CHARACTER_DEVICE: u8 = 2;

/// Filetype of WASI preview 1: a stream socket.
const SOCKET_STREAM: u8 = 6;

/// Rights of WASI preview 1: `fd_read`, bit 1, and `fd_write`, bit 6.
const RIGHTS: u64 = 66;

/// The descriptor from which a guest reads its input.
const INPUT: u32 = 0;

/// The last of the three standard descriptors.
const LAST_STANDARD: u32 = 2;

/// The descriptor of the listener.
const LISTENER: u32 = 3;

/// The descriptor of the connection that is accepted first.
const FIRST: u32 = 4;

/// A script as far as it was played. Contracts see all that it holds.
#[derive(Debug, Drop)]
pub struct Scripted {
    sockets: Vec<Socket>,
    accepted: u32,
    clock: Numbers,
    clocks: u64,
    random: Bytes,
    place: usize,
}

impl Model for Scripted {
    ghost use Rattle.std.specs.Prelude.{◌≤◌, ◌-◌, ◌^◌, length};
    ghost use Rattle.mv_kernmem.specs.States.{ScriptState};

    ghost Value = { ScriptState };

    ghost view = { λ s. record {
      conns = s.sockets.items;
      accepted = s.accepted;
      clock = s.clock;
      clocks = s.clocks;
      random = s.random;
      place = s.place;
    } };

    ghost invariant = { λ s. (s.accepted ≤ length s.sockets.items) × (length s.sockets.items ≤ 2 ^ 32 - 4) };
}

/// The connections, nothing of them read. The one error is want of memory.
fn sockets_of(alloc: Global, conns: Conns) -> Result<Vec<Socket>, OutOfMemory>
    ensures { IfOk result (λ sockets. sockets.items ≡ map fresh conns) }
{
    let mut sockets = Vec::new(alloc);
    for conn in conns.into_vec() {
        sockets.push(Socket::new(conn))?;
    }
    Ok(sockets)
}

/// The place so many behind this one, in a round of this length.
fn turned(place: usize, steps: usize, period: usize) -> usize
    requires { 0 < period }
    ensures { result ≡ (place + steps) % period }
{
    ((place as u128 + steps as u128) % period as u128) as usize
}

/// How many bytes come before the random bytes start again.
fn period(random: &[u8]) -> usize
    ensures positive { 0 < result }
    ensures period { result ≡ period_of random.now }
{
    random.len().max(1)
}

/// The random byte so many behind this place.
fn random_byte(random: &[u8], place: usize, steps: usize) -> u8
    ensures { result ≡ random_at random.now (place + steps) }
{
    let at = turned(place, steps, period(random));
    random.get(at).copied().unwrap_or(0)
}

/// What a read of so many bytes finds at a connection, in the place `into`.
fn read_at(socket: &Socket, cap: u32, into: Vec<u8>) -> Reply
    requires empty { into.items ≡ [] }
    requires room { cap ≤ vec_capacity into }
    ensures { result ≡ read_of cap socket.now }
{
    if cap == 0 {
        return Reply::Bytes(Bytes::from_vec(into));
    }
    match socket.next_piece() {
        Some(piece) => {
            let mut bytes = into;
            let _ = bytes.extend_from_slice(&piece[..piece.len().min(cap as usize)]);
            Reply::Bytes(Bytes::from_vec(bytes))
        }
        None => {
            if socket.ends() {
                Reply::Bytes(Bytes::from_vec(into))
            } else {
                Reply::Errno(ERRNO_AGAIN)
            }
        }
    }
}

/// An event of a subscription, without flags.
fn event(sub: u32, error: u16, nbytes: u64) -> Happened
    ensures { result ≡ happened sub error nbytes }
{
    Happened {
        sub,
        error,
        nbytes,
        flags: 0,
    }
}

/// Adds the event, if there is one. This takes no memory.
fn add(events: &mut Vec<Happened>, event: Option<Happened>)
    requires { vec_len events.old < vec_capacity events.old }
    ensures items { events.new.items ≡ events.old.items ++ option_to_list event }
    ensures len { vec_len events.new ≤ vec_len events.old + 1 }
    ensures capacity { vec_capacity events.new ≡ vec_capacity events.old }
{
    if let Some(event) = event {
        events.push_reserved(event);
    }
}

/// Whether the descriptor is one of the two that take output.
fn takes_output(fd: u32) -> bool
    ensures { result ≡ is_output fd }
{
    matches!(fd, 1 | 2)
}

impl Scripted {
    /// A script of which nothing was played. The one error is want of memory.
    pub fn new(
        alloc: Global,
        conns: Conns,
        clock: Numbers,
        random: Bytes,
    ) -> Result<Scripted, OutOfMemory>
        requires { length conns ≤ 2 ^ 32 - 4 }
        ensures { IfOk result (λ scripted. scripted ≡ record { conns = map fresh conns; accepted = 0; clock = clock; clocks = 0; random = random; place = 0 }) }
    {
        Ok(Scripted {
            sockets: sockets_of(alloc, conns)?,
            accepted: 0,
            clock,
            clocks: 0,
            random,
            place: 0,
        })
    }

    /// The connection of this descriptor, if it is one of a connection that isn't closed.
    fn connection(&self, fd: u32) -> Option<&Socket>
        ensures { option_copied result ≡ connection_at self.now fd }
    {
        if fd < FIRST || fd - FIRST >= self.accepted {
            return None;
        }
        let socket = &self.sockets[(fd - FIRST) as usize];
        if socket.is_closed() {
            None
        } else {
            Some(socket)
        }
    }

    /// Whether the descriptor is one of a connection.
    fn is_connection(&self, fd: u32) -> bool
        ensures { result ≡ is_connection self.now fd }
    {
        self.connection(fd).is_some()
    }

    /// Whether there is a descriptor of this number.
    fn is_known(&self, fd: u32) -> bool
        ensures { result ≡ is_known self.now fd }
    {
        fd <= LISTENER || self.is_connection(fd)
    }

    /// Whether a connection waits to be accepted.
    fn waits(&self) -> bool
        ensures { result ≡ waits self.now }
    {
        (self.accepted as usize) < self.sockets.len()
    }

    /// What the call is answered, in the place `room`.
    pub fn reply_to(&self, call: &Call, room: Room) -> Reply
        requires { Holds room (places_of call.now) }
        ensures { result ≡ reply_of self.now call.now }
    {
        match call {
            Call::Accept { fd, flags: _ } => self.reply_to_accept(*fd),
            Call::Read { fd, cap } => self.reply_to_read(*fd, *cap, room.bytes()),
            Call::Write { fd, bytes } => self.reply_to_write(*fd, bytes.slice()),
            Call::Close { fd } => self.reply_to_close(*fd),
            Call::Shutdown { fd, how: _ } => self.reply_to_close(*fd),
            Call::FdStat { fd } => self.reply_to_stat(*fd),
            Call::Clock { id: _ } => Reply::Time(self.time()),
            Call::Random { len } => self.reply_to_random(*len, room.bytes()),
            Call::Yield => Reply::Done,
            Call::Poll { subs } => self.reply_to_poll(subs.slice(), room.events()),
        }
    }

    /// The next connection's descriptor.
    fn reply_to_accept(&self, fd: u32) -> Reply
        ensures { result ≡ accept_of self.now fd }
    {
        if fd != LISTENER {
            return Reply::Errno(ERRNO_BADF);
        }
        if self.waits() {
            Reply::Fd(FIRST + self.accepted)
        } else {
            Reply::Errno(ERRNO_AGAIN)
        }
    }

    /// The next bytes of a descriptor, in the place `into`.
    fn reply_to_read(&self, fd: u32, cap: u32, into: Vec<u8>) -> Reply
        requires empty { into.items ≡ [] }
        requires room { cap ≤ vec_capacity into }
        ensures { result ≡ reply_of self.now (asked.Read fd cap) }
    {
        if fd == INPUT {
            return Reply::Bytes(Bytes::from_vec(into));
        }
        match self.connection(fd) {
            Some(socket) => read_at(socket, cap, into),
            None => Reply::Errno(ERRNO_BADF),
        }
    }

    /// How many bytes a descriptor takes: all.
    fn reply_to_write(&self, fd: u32, bytes: &[u8]) -> Reply
        ensures { result ≡ reply_of self.now (asked.Write fd bytes.now) }
    {
        if takes_output(fd) || self.is_connection(fd) {
            Reply::Count(bytes.len().min(u32::MAX as usize) as u32)
        } else {
            Reply::Errno(ERRNO_BADF)
        }
    }

    /// Whether a close, or a shutdown, is done.
    fn reply_to_close(&self, fd: u32) -> Reply
        ensures { result ≡ close_of self.now fd }
    {
        if self.is_connection(fd) {
            Reply::Done
        } else {
            Reply::Errno(ERRNO_BADF)
        }
    }

    /// What a descriptor is.
    fn reply_to_stat(&self, fd: u32) -> Reply
        ensures { result ≡ reply_of self.now (asked.FdStat fd) }
    {
        if !self.is_known(fd) {
            return Reply::Errno(ERRNO_BADF);
        }
        Reply::Stat {
            filetype: if fd <= LAST_STANDARD {
                CHARACTER_DEVICE
            } else {
                SOCKET_STREAM
            },
            flags: 0,
            rights: RIGHTS,
            heirs: 0,
        }
    }

    /// The time that the clock gives next.
    fn time(&self) -> u64
        ensures { result ≡ time_of self.now.clock self.now.clocks }
    {
        let values = self.clock.slice();
        let last = values.len().saturating_sub(1);
        let place = self.clocks.min(last as u64) as usize;
        values.get(place).copied().unwrap_or(0)
    }

    /// The next random bytes, in the place `into`.
    fn reply_to_random(&self, len: u32, into: Vec<u8>) -> Reply
        requires empty { into.items ≡ [] }
        requires room { len ≤ vec_capacity into }
        ensures { result ≡ reply_of self.now (asked.Random len) }
    {
        let random = self.random.slice();
        let mut bytes = into;
        while bytes.len() < len as usize {
            bytes.push_reserved(random_byte(random, self.place, bytes.len()));
        }
        Reply::Bytes(Bytes::from_vec(bytes))
    }

    /// The subscriptions that are ready, in the place `into`.
    fn reply_to_poll(&self, subs: &[Sub], into: Vec<Happened>) -> Reply
        requires empty { into.items ≡ [] }
        requires room { length subs.now ≤ vec_capacity into }
        ensures { result ≡ reply_of self.now (asked.Poll subs.now) }
    {
        let mut events = into;
        for (number, sub) in subs.iter().enumerate() {
            add(&mut events, self.event_of(number, *sub));
        }
        Reply::Ready(Happenings::from_vec(events))
    }

    /// The event of the subscription of this number, if it is ready.
    fn event_of(&self, number: usize, sub: Sub) -> Option<Happened>
        ensures { result ≡ told_event self.now (number, sub) }
    {
        let number = u32::try_from(number).ok()?;
        match sub {
            Sub::Clock { .. } => Some(event(number, 0, 0)),
            Sub::Read { fd } => self.event_at(number, fd, self.can_read(fd), 1),
            Sub::Write { fd } => self.event_at(number, fd, self.can_write(fd), 0),
        }
    }

    /// What a descriptor that is ready, or isn't, makes of a subscription.
    fn event_at(&self, number: u32, fd: u32, ready: bool, nbytes: u64) -> Option<Happened>
        ensures { result ≡ event_at self.now number fd ready nbytes }
    {
        if !self.is_known(fd) {
            Some(event(number, ERRNO_BADF, 0))
        } else if ready {
            Some(event(number, 0, nbytes))
        } else {
            None
        }
    }

    /// Whether a read of the descriptor, or an accept, finds something.
    fn can_read(&self, fd: u32) -> bool
        ensures { result ≡ can_read self.now fd }
    {
        if fd == LISTENER {
            return self.waits();
        }
        match self.connection(fd) {
            Some(socket) => socket.next_piece().is_some() || socket.ends(),
            None => false,
        }
    }

    /// Whether the descriptor takes bytes.
    fn can_write(&self, fd: u32) -> bool
        ensures { result ≡ can_write self.now fd }
    {
        takes_output(fd) || self.is_connection(fd)
    }

    /// The call is done, and the script goes on.
    pub fn pass(&mut self, call: &Call)
        ensures { self.new ≡ state_after self.old call.now }
    {
        match call {
            Call::Accept { fd, flags: _ } => self.accept(*fd),
            Call::Read { fd, cap } => self.read(*fd, *cap),
            Call::Close { fd } => self.close(*fd),
            Call::Clock { id: _ } => self.clocks = self.clocks.saturating_add(1),
            Call::Random { len } => self.draw(*len),
            Call::Write { .. } | Call::FdStat { .. } | Call::Yield => {}
            Call::Poll { .. } | Call::Shutdown { .. } => {}
        }
    }

    /// The next connection is accepted, if one waits.
    fn accept(&mut self, fd: u32)
        ensures { self.new ≡ after_accept self.old fd }
    {
        if fd == LISTENER && self.waits() {
            self.accepted += 1;
        }
    }

    /// Bytes of the connection of this descriptor, if it is one, were read.
    fn read(&mut self, fd: u32, cap: u32)
        ensures { self.new ≡ with_connection self.old fd (after_read cap) }
    {
        if self.is_connection(fd) {
            let socket = &mut self.sockets[(fd - FIRST) as usize];
            socket.take(cap as usize);
        }
    }

    /// The connection of this descriptor, if it is one, was closed.
    fn close(&mut self, fd: u32)
        ensures { self.new ≡ with_connection self.old fd after_close }
    {
        if self.is_connection(fd) {
            let socket = &mut self.sockets[(fd - FIRST) as usize];
            socket.close();
        }
    }

    /// So many random bytes were drawn.
    fn draw(&mut self, len: u32)
        ensures { self.new ≡ state_after self.old (asked.Random len) }
    {
        self.place = turned(self.place, len as usize, period(self.random.slice()));
    }
}
