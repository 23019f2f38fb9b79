//! One connection of a script, and how far it was read.
ghost use Rattle.std.specs.Prelude.{◌≡◌, true, slice_get};
ghost use Rattle.std.specs.Option.{option_copied};
ghost use Rattle.mv_kernmem.specs.States.{fresh};
ghost use Rattle.mv_kernmem.specs.Changes.{after_read, after_close};

use crate::script::Conn;
use mv_calls::Texts;
use std::marker::Model;

/// A connection, to come or accepted. Contracts see what is left of it to be read.
#[derive(Debug, Drop)]
pub struct Socket {
    pieces: Texts,
    // which piece is the next, and how many of its bytes were read
    next: usize,
    from: usize,
    ends: bool,
    closed: bool,
}

impl Model for Socket {
    ghost use Rattle.std.specs.Prelude.{◌≤◌, length};
    ghost use Rattle.mv_kernmem.specs.Sockets.{left_from, piece_at};
    ghost use Rattle.mv_kernmem.specs.States.{Connection};

    ghost Value = { Connection };

    ghost view = { λ s. record { pieces = left_from s.next s.from s.pieces; ends = s.ends; closed = s.closed } };

    ghost invariant = { λ s. s.from ≤ length (piece_at s.pieces s.next) };
}

impl Socket {
    /// A connection of which nothing was read.
    pub fn new(conn: Conn) -> Socket
        ensures { result ≡ fresh conn }
    {
        let Conn { pieces, ends } = conn;
        Socket {
            pieces,
            next: 0,
            from: 0,
            ends,
            closed: false,
        }
    }

    /// What is left of the next piece.
    pub fn next_piece(&self) -> Option<&[u8]>
        ensures { option_copied result ≡ slice_get self.now.pieces 0 }
    {
        let pieces = self.pieces.slice();
        if self.next < pieces.len() {
            Some(&pieces[self.next].slice()[self.from..])
        } else {
            None
        }
    }

    /// Whether the other side ends its sending behind the pieces.
    pub fn ends(&self) -> bool
        ensures { result ≡ self.now.ends }
    {
        self.ends
    }

    /// Whether the guest closed it.
    pub fn is_closed(&self) -> bool
        ensures { result ≡ self.now.closed }
    {
        self.closed
    }

    /// So many bytes were asked for, and the next piece gave what it has of them.
    pub fn take(&mut self, cap: usize)
        ensures { self.new ≡ after_read cap self.old }
    {
        let pieces = self.pieces.slice();
        if self.next >= pieces.len() {
            return;
        }
        if pieces[self.next].slice().len() - self.from <= cap {
            self.next += 1;
            self.from = 0;
        } else {
            self.from += cap;
        }
    }

    /// The guest closed it.
    pub fn close(&mut self)
        ensures { self.new ≡ after_close self.old }
    {
        self.closed = true;
    }
}
