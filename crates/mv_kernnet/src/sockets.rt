//! The listener and its connections, by their descriptors.
ghost use Rattle.std.specs.Prelude.{◌≡◌, ◌<◌, ◌≤◌, IfOk, IsTrue, vec_len, vec_capacity};
ghost use Rattle.mv_calls.specs.Suits.{suits_of};
ghost use Rattle.mv_calls.specs.declared.calls.Call.TheVariants.{Accept as accept_call, Close as close_call, Shutdown as shutdown_call};
ghost use Rattle.mv_kernnet.specs.NetKernel.{IfFd, IsNext};

use crate::connections::{Connections, stream_of};
use crate::door::{Arrival, Door};
use crate::errno::{AGAIN, BADF, INVAL, IO, errno_of};
use mv_calls::{Bytes, Reply};
use std::alloc::Global;
use std::io;
use std::net::{Net, OpenStream, Shutdown};

/// The descriptor of the listener.
pub(crate) const LISTENER: u32 = 3;

/// The sockets of a kernel. None of their calls waits.
#[derive(Drop)]
pub(crate) struct Sockets<'a, R: Net> {
    pub(crate) door: Door<'a, R>,
    pub(crate) connections: Connections<R::Stream>,
}

impl<'a, R: Net> Sockets<'a, R> {
    /// A listener at this address that isn't bound yet, and no connections.
    pub(crate) fn new(alloc: Global, net: &'a R, address: Bytes) -> Sockets<'a, R>
        ensures next { result.connections.next ≡ 4 }
    {
        Sockets {
            door: Door::new(net, address),
            connections: Connections::new(alloc),
        }
    }

    /// The descriptor of the next connection, by errno 6 none that is waiting. It takes no memory, and
    /// fails where the address can't be bound.
    pub(crate) fn accept(&mut self) -> io::Result<Reply>
        requires place { vec_len self.old.connections.open < vec_capacity self.old.connections.open }
        ensures suits { (fd flags : _) → IfOk result (λ reply. IsTrue (suits_of (accept_call fd flags) reply)) }
        ensures fresh { IfOk result (λ reply. IfFd reply (λ fd. IsNext self.old.connections.next fd self.new.connections.next)) }
        ensures later { self.old.connections.next ≤ self.new.connections.next }
    {
        match self.door.take()? {
            Arrival::Came(stream) => match self.connections.add(stream) {
                Some(fd) => Ok(Reply::Fd(fd)),
                None => Ok(Reply::Errno(IO)),
            },
            Arrival::Nobody => Ok(Reply::Errno(AGAIN)),
            Arrival::Broken => Ok(Reply::Errno(IO)),
        }
    }

    /// Closes a connection.
    pub(crate) fn close(&mut self, fd: u32) -> Reply
        ensures suits { IsTrue (suits_of (close_call fd) result) }
        ensures next { self.new.connections.next ≡ self.old.connections.next }
    {
        if self.connections.close(fd) {
            Reply::Done
        } else {
            Reply::Errno(BADF)
        }
    }

    /// Ends one side of a connection, or both (WASI preview 1, `sdflags`). It stays open.
    pub(crate) fn shutdown(&mut self, fd: u32, how: u8) -> Reply
        ensures suits { IsTrue (suits_of (shutdown_call fd how) result) }
        ensures next { self.new.connections.next ≡ self.old.connections.next }
    {
        let Some(stream) = stream_of(&mut self.connections.open, fd) else {
            return Reply::Errno(BADF);
        };
        let how = match how {
            1 => Shutdown::Read,
            2 => Shutdown::Write,
            3 => Shutdown::Both,
            _ => return Reply::Errno(INVAL),
        };
        match stream.shutdown(how) {
            Ok(()) => Reply::Done,
            Err(error) => Reply::Errno(errno_of(&error)),
        }
    }
}
