//! The connections that are open, by their descriptors.
ghost use Rattle.std.specs.Prelude.{◌≡◌, ◌<◌, ◌+◌, ◌≤◌, OnOk, IfSome, vec_len, vec_capacity};

use mv_calls::OutOfMemory;
use std::alloc::Global;

/// The first descriptor of a connection. Those below are the standard streams and the listener.
const FIRST: u32 = 4;

/// A connection with its descriptor.
#[derive(Drop)]
pub(crate) struct Connection<S: Drop> {
    pub(crate) fd: u32,
    pub(crate) stream: S,
}

/// The open connections, in the order in which they came. A descriptor is given once.
#[derive(Drop)]
pub(crate) struct Connections<S: Drop> {
    pub(crate) open: Vec<Connection<S>>,
    pub(crate) next: u32,
}

impl<S: Drop> Connections<S> {
    /// No connections.
    pub(crate) fn new(alloc: Global) -> Connections<S>
        ensures next { result.next ≡ 4 }
    {
        Connections {
            open: Vec::new(alloc),
            next: FIRST,
        }
    }

    /// Makes the memory for one connection more.
    pub(crate) fn reserve(&mut self) -> Result<(), OutOfMemory>
        ensures next { self.new.next ≡ self.old.next }
        ensures place { OnOk result (vec_len self.new.open + 1 ≤ vec_capacity self.new.open) }
    {
        self.open.reserve(1)?;
        Ok(())
    }

    /// Adds the connection under the next descriptor, and takes no memory. None, and the connection
    /// is lost, where no descriptor is left.
    pub(crate) fn add(&mut self, stream: S) -> Option<u32>
        requires place { vec_len self.old.open < vec_capacity self.old.open }
        ensures fd { IfSome result (λ fd. fd ≡ self.old.next) }
        ensures next { IfSome result (λ fd. self.new.next ≡ fd + 1) }
        ensures later { self.old.next ≤ self.new.next }
    {
        let fd = self.next;
        self.next = fd.checked_add(1)?;
        self.open.push_reserved(Connection { fd, stream });
        Some(fd)
    }

    /// Closes the connection of this descriptor, and says whether it was open.
    pub(crate) fn close(&mut self, fd: u32) -> bool
        ensures next { self.new.next ≡ self.old.next }
    {
        let before = self.open.len();
        self.open.retain(|connection| connection.fd != fd);
        self.open.len() < before
    }
}

/// The stream of the open connection of this descriptor, if there is one.
pub(crate) fn stream_of<S: Drop>(connections: &mut Vec<Connection<S>>, fd: u32) -> Option<&mut S> {
    let place = connections
        .iter()
        .position(|connection| connection.fd == fd)?;
    match connections.get_mut(place) {
        Some(connection) => Some(&mut connection.stream),
        None => None,
    }
}
