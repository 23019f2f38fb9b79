//! What an operator is to be told.
ghost use Rattle.std.specs.Prelude.{◌≡◌, ◌≤◌, ◌-◌, OnOk, length, vec_len, vec_capacity};

use mv_calls::OutOfMemory;
use std::alloc::Global;
use std::io::{self, Write};

/// Replies that aren't all sent yet.
#[derive(Drop)]
pub(crate) struct Replies {
    pub(crate) bytes: Vec<u8>,
    pub(crate) sent: usize,
}

impl Replies {
    /// Nothing is to be said.
    pub(crate) fn new(alloc: Global) -> Replies {
        Replies {
            bytes: Vec::new(alloc),
            sent: 0,
        }
    }

    /// Drops what isn't sent.
    pub(crate) fn clear(&mut self)
        ensures room { vec_capacity self.old.bytes - vec_len self.old.bytes ≤ vec_capacity self.new.bytes - vec_len self.new.bytes }
    {
        self.bytes.clear();
        self.sent = 0;
    }

    /// Makes the memory for a line of `len` bytes more.
    pub(crate) fn reserve(&mut self, len: usize) -> Result<(), OutOfMemory>
        ensures room { OnOk result (len ≤ vec_capacity self.new.bytes - vec_len self.new.bytes) }
    {
        self.bytes.reserve(len)?;
        Ok(())
    }

    /// Adds a line, and takes no memory.
    pub(crate) fn add(&mut self, line: &[u8])
        requires room { length line.now ≤ vec_capacity self.old.bytes - vec_len self.old.bytes }
    {
        let _ = self.bytes.extend_from_slice(line);
    }

    /// Sends as much as the stream takes now, and says whether that was all.
    pub(crate) fn send<S: Write>(&mut self, to: &mut S) -> io::Result<bool>
        ensures room { vec_capacity self.old.bytes - vec_len self.old.bytes ≤ vec_capacity self.new.bytes - vec_len self.new.bytes }
    {
        if self.sent < self.bytes.len() {
            match to.write(&self.bytes[self.sent..]) {
                Ok(count) => self.sent += count,
                Err(error) => match error.kind() {
                    io::ErrorKind::WouldBlock => return Ok(false),
                    _ => return Err(error),
                },
            }
        }
        if self.sent < self.bytes.len() {
            return Ok(false);
        }
        self.clear();
        Ok(true)
    }
}
