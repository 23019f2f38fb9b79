//! A kernel over the network, the standard streams, the clocks and the random source.
ghost use Rattle.std.specs.Prelude.{◌≡◌, ◌≤◌, ◌∷◌, [], IfOk, IsTrue, None, OnOk, OnErr};
ghost use Rattle.mv_calls.specs.declared.calls.Item.{Item};
ghost use Rattle.mv_calls.specs.Places.{Holds, places_of};
ghost use Rattle.mv_calls.specs.Suits.{suits_of};
ghost use Rattle.mv_calls.specs.declared.calls.Call.TheVariants.{Read as read_call, Write as write_call, Random as random_call, FdStat as stat_call};
ghost use Rattle.mv_kernnet.specs.NetKernel.{KernelSeen, IfFd, IsNext, may_fail, listener};
ghost use Rattle.mv_outside.specs.Causes.{Rose};
ghost use Rattle.mv_outside.specs.Told.{told_more};

use crate::clocks::clock_reply;
use crate::connections::stream_of;
use crate::errno::{BADF, IO};
use crate::poll::poll_reply;
use crate::sockets::{LISTENER, Sockets};
use crate::streams::{read_reply, write_reply};
use mv_calls::{Bytes, Call, OutOfMemory, Reply, Room};
use mv_outside::{Failed, Kernel};
use std::alloc::Global;
use std::io::{self, Read, Write};
use std::marker::Model;
use std::net::Net;
use std::random::RandomSource;
use std::rt::Clock;

/// A character device (WASI preview 1, `filetype`).
const CHARACTER_DEVICE: u8 = 2;

/// A stream socket (WASI preview 1, `filetype`).
const STREAM_SOCKET: u8 = 6;

/// The rights to read and to write (WASI preview 1, `rights`, bits 1 and 6).
const READ_AND_WRITE: u64 = 66;

/// Does a guest's calls by the system. Descriptor 0 reads the first stream, 1 and 2 write to the two
/// others, 3 is a listener, and from 4 on come its connections, each number given once. Neither the
/// listener nor a connection waits: what would wait is errno 6, another error of a stream is errno 29,
/// and a descriptor that isn't open, or has no such call, is errno 8.
///
/// It fails where the listener's address can't be bound, which is tried at each call that needs the
/// listener until it succeeds, and where a clock or the random source fails. It tells nothing;
/// contracts see its count of faults, and for how many new connections there is memory.
#[derive(Drop)]
pub struct NetKernel<'a, R: Net, I: Read + Drop, O: Write + Drop, E: Write + Drop> {
    system: &'a R,
    input: I,
    out: O,
    err: E,
    sockets: Sockets<'a, R>,
    faults: u64,
}

impl<'a, R: Net, I: Read + Drop, O: Write + Drop, E: Write + Drop> Model
    for NetKernel<'a, R, I, O, E> {
    ghost use Rattle.std.specs.Prelude.{◌-◌, vec_len, vec_capacity};
    ghost use Rattle.mv_kernnet.specs.NetKernel.{KernelSeen};

    ghost Value = { KernelSeen };

    ghost view = { λ k. record {
      faults = k.faults;
      places = vec_capacity k.sockets.connections.open - vec_len k.sockets.connections.open;
      next = k.sockets.connections.next;
    } };
}

impl<'a, R: Net, I: Read + Drop, O: Write + Drop, E: Write + Drop> NetKernel<'a, R, I, O, E> {
    /// A kernel over this system and these streams, whose listener is to be at the address, `HOST:PORT`.
    pub fn new(
        alloc: Global,
        system: &'a R,
        address: Bytes,
        input: I,
        out: O,
        err: E,
    ) -> NetKernel<'a, R, I, O, E>
        ensures faults { result.faults ≡ 0 }
        ensures next { result.next ≡ 4 }
    {
        NetKernel {
            system,
            input,
            out,
            err,
            sockets: Sockets::new(alloc, system, address),
            faults: 0,
        }
    }
}

impl<R: Net + Clock + RandomSource, I: Read + Drop, O: Write + Drop, E: Write + Drop> Kernel
    for NetKernel<'_, R, I, O, E> {
    ghost done = { λ _. None };

    ghost faults = { λ k. k.faults };

    ghost ready_for = { λ k _. 1 ≤ k.places };

    fn ready(&mut self, _alloc: Global, _call: &Call) -> Result<(), OutOfMemory>
        ensures ready { OnOk result (1 ≤ self.new.places) }
        ensures faults { self.new.faults ≡ self.old.faults }
        ensures next { self.new.next ≡ self.old.next }
    {
        self.sockets.connections.reserve()
    }

    fn perform(&mut self, call: &Call, room: Room) -> Result<Reply, Failed>
        requires ready { 1 ≤ self.old.places }
        requires room { Holds room (places_of call.now) }
        ensures suits { IfOk result (λ reply. IsTrue (suits_of call.now reply)) }
        ensures did { IfOk result (λ reply. None ≡ told_more {A = Item} None ((call.now, reply) ∷ [])) }
        ensures did_not { OnErr result (None ≡ told_more {A = Item} None []) }
        ensures later { self.old.faults ≤ self.new.faults }
        ensures cause { OnErr result (Rose self.old.faults self.new.faults) }
        // It fails only at these calls, and its count rises at no other time.
        ensures named { OnErr result (IsTrue (may_fail call.now)) }
        ensures well { OnOk result (self.new.faults ≡ self.old.faults) }
        // No descriptor is given twice.
        ensures fresh { IfOk result (λ reply. IfFd reply (λ fd. IsNext self.old.next fd self.new.next)) }
        ensures given { self.old.next ≤ self.new.next }
    {
        match self.answer(call, room) {
            Ok(reply) => Ok(reply),
            Err(_) => {
                self.faults = self.faults.saturating_add(1);
                Err(Failed)
            }
        }
    }
}

impl<R: Net + Clock + RandomSource, I: Read + Drop, O: Write + Drop, E: Write + Drop> NetKernel<
    '_,
    R,
    I,
    O,
    E,
> {
    /// What the call is answered. It fails as the kernel does, and counts no fault.
    fn answer(&mut self, call: &Call, room: Room) -> io::Result<Reply>
        requires ready { 1 ≤ self.old.places }
        requires room { Holds room (places_of call.now) }
        ensures suits { IfOk result (λ reply. IsTrue (suits_of call.now reply)) }
        ensures named { OnErr result (IsTrue (may_fail call.now)) }
        ensures fresh { IfOk result (λ reply. IfFd reply (λ fd. IsNext self.old.next fd self.new.next)) }
        ensures given { self.old.next ≤ self.new.next }
        ensures faults { self.new.faults ≡ self.old.faults }
    {
        match call {
            Call::Clock { id } => clock_reply(self.system, *id),
            Call::Random { len } => random_reply(self.system, *len, room.bytes()),
            Call::Read { fd, cap } => Ok(self.read(*fd, *cap, room.bytes())),
            Call::Write { fd, bytes } => Ok(self.write(*fd, bytes)),
            Call::Close { fd } => Ok(self.sockets.close(*fd)),
            Call::FdStat { fd } => self.stat(*fd),
            Call::Yield => Ok(Reply::Done),
            Call::Poll { subs } => {
                poll_reply(self.system, &mut self.sockets, subs.slice(), room.events())
            }
            Call::Accept { fd: LISTENER, .. } => self.sockets.accept(),
            Call::Accept { .. } => Ok(Reply::Errno(BADF)),
            Call::Shutdown { fd, how } => Ok(self.sockets.shutdown(*fd, *how)),
        }
    }

    /// Reads from a descriptor.
    fn read(&mut self, fd: u32, cap: u32, place: Vec<u8>) -> Reply
        ensures suits { IsTrue (suits_of (read_call fd cap) result) }
        ensures next { self.new.next ≡ self.old.next }
        ensures faults { self.new.faults ≡ self.old.faults }
    {
        if fd == 0 {
            return read_reply(&mut self.input, cap, place);
        }
        match stream_of(&mut self.sockets.connections.open, fd) {
            Some(stream) => read_reply(stream, cap, place),
            None => Reply::Errno(BADF),
        }
    }

    /// Writes to a descriptor.
    fn write(&mut self, fd: u32, bytes: &Bytes) -> Reply
        ensures suits { IsTrue (suits_of (write_call fd bytes.now) result) }
        ensures next { self.new.next ≡ self.old.next }
        ensures faults { self.new.faults ≡ self.old.faults }
    {
        match fd {
            1 => write_reply(&mut self.out, bytes),
            2 => write_reply(&mut self.err, bytes),
            _ => match stream_of(&mut self.sockets.connections.open, fd) {
                Some(stream) => write_reply(stream, bytes),
                None => Reply::Errno(BADF),
            },
        }
    }

    /// What a descriptor is. It fails where the listener is asked for and can't be bound.
    fn stat(&mut self, fd: u32) -> io::Result<Reply>
        ensures suits { IfOk result (λ reply. IsTrue (suits_of (stat_call fd) reply)) }
        ensures named { OnErr result (fd ≡ listener) }
        ensures next { self.new.next ≡ self.old.next }
        ensures faults { self.new.faults ≡ self.old.faults }
    {
        match fd {
            0..=2 => Ok(stat_reply(CHARACTER_DEVICE)),
            LISTENER => {
                self.sockets.door.open()?;
                Ok(stat_reply(STREAM_SOCKET))
            }
            _ => match stream_of(&mut self.sockets.connections.open, fd) {
                Some(_) => Ok(stat_reply(STREAM_SOCKET)),
                None => Ok(Reply::Errno(BADF)),
            },
        }
    }
}

/// A descriptor of this type, with the rights to read and to write.
fn stat_reply(filetype: u8) -> Reply
    ensures { (fd : _) → IsTrue (suits_of (stat_call fd) result) }
{
    Reply::Stat {
        filetype,
        flags: 0,
        rights: READ_AND_WRITE,
        heirs: 0,
    }
}

/// So many random bytes, in the place, which has room for as many. An error is that of the source.
fn random_reply<R: RandomSource>(system: &R, len: u32, place: Vec<u8>) -> io::Result<Reply>
    ensures { IfOk result (λ reply. IsTrue (suits_of (random_call len) reply)) }
{
    let mut bytes = place;
    bytes.clear();
    if bytes.resize(len as usize, 0).is_err() {
        return Ok(Reply::Errno(IO));
    }
    system.fill_bytes(bytes.as_mut_slice())?;
    Ok(Reply::Bytes(Bytes::from_vec(bytes)))
}
