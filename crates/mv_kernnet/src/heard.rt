//! The line that an operator is sending.
ghost use Rattle.std.specs.Prelude.{◌≤◌, IfOk, length};
ghost use Rattle.mv_outside.specs.Console.{line_limit};

use mv_calls::Bytes;
use std::alloc::{AllocError, Global};
use std::io::{self, Read};
use std::net::OpenStream;

/// How many bytes of a line are handed on.
const LINE_LIMIT: usize = 8_192;

/// How many bytes are read at a time.
const CHUNK: usize = 1_024;

/// The first bytes of a line, and whether its end has come.
#[derive(Drop)]
pub(crate) struct Heard {
    bytes: Vec<u8>,
    is_whole: bool,
}

impl Heard {
    /// Nothing has come.
    pub(crate) fn new(alloc: Global) -> Heard {
        Heard {
            bytes: Vec::new(alloc),
            is_whole: false,
        }
    }

    /// Drops what has come.
    pub(crate) fn clear(&mut self) {
        self.bytes.clear();
        self.is_whole = false;
    }

    /// Makes the memory for the longest line that is kept.
    pub(crate) fn reserve(&mut self) -> Result<(), AllocError> {
        let place = LINE_LIMIT.saturating_sub(self.bytes.len());
        self.bytes.reserve(place)
    }

    /// Reads on, unless the line is whole, and no further than its end. Whether the line is whole then. An
    /// error is that of the stream, or that nothing comes any more.
    pub(crate) fn read_on<S: Read + OpenStream>(&mut self, from: &mut S) -> io::Result<bool> {
        if self.is_whole {
            return Ok(true);
        }
        let mut chunk = [0; CHUNK];
        let seen = match from.peek(&mut chunk) {
            Ok(0) => return Err(io::Error::from(io::ErrorKind::UnexpectedEof)),
            Ok(seen) => seen,
            Err(error) => match error.kind() {
                io::ErrorKind::WouldBlock => return Ok(false),
                _ => return Err(error),
            },
        };
        let end = chunk[..seen].iter().position(|byte| *byte == b'\n');
        let until = match end {
            Some(place) => place + 1,
            None => seen,
        };
        let count = from.read(&mut chunk[..until])?;
        self.is_whole = end.is_some() && count == until;
        self.keep(&chunk[..count]);
        Ok(self.is_whole)
    }

    /// Adds the bytes but for the line's end, as far as the line is handed on.
    fn keep(&mut self, bytes: &[u8]) {
        let text = match bytes {
            [text @ .., b'\n'] => text,
            _ => bytes,
        };
        let place = LINE_LIMIT.saturating_sub(self.bytes.len());
        let _ = self.bytes.extend_from_slice(&text[..text.len().min(place)]);
    }

    /// The line, which is whole; the next one begins. Where there is no memory it stays.
    pub(crate) fn take(&mut self, alloc: Global) -> Result<Bytes, AllocError>
        ensures { IfOk result (λ line. length line ≤ line_limit) }
    {
        let kept = self.bytes.len().min(LINE_LIMIT);
        let line = Vec::from_slice(alloc, &self.bytes[..kept])?;
        self.clear();
        Ok(Bytes::from_vec(line))
    }
}
