//! Where the reader stands.
ghost use Rattle.std.specs.Prelude.{◌≡◌, ◌==◌, ◌+◌, Err, length, take, drop, nat_lt};
ghost use Rattle.mv_syntax.specs.Form.{At, past};
ghost use Rattle.mv_syntax.specs.Forms.{byte, bytes, split_from, window};
ghost use Rattle.mv_syntax.specs.Reading.{Reads, Judges, Ends};

use mv_calls::Or;
use mv_syntax::{ReadFault, ReadKind};
use std::cmp::min;
use std::marker::Model;

/// A place in the file, and the bytes from there up to the end of what is read: the file, a section or a body.
#[derive(Drop)]
pub struct Cursor<'a> {
    place: u64,
    rest: &'a [u8],
    short: ReadKind,
}

impl<'a> Model for Cursor<'a> {
    ghost use Rattle.std.specs.Prelude.{◌+◌, ◌<◌, ◌^◌, length};
    ghost use Rattle.mv_syntax.specs.Form.{At};

    ghost Value = { At };

    ghost view = { λ c. record { place = c.place; rest = c.rest.now; short = c.short } };

    ghost invariant = { λ c. c.place + length c.rest.now < 2 ^ 64 };
}

impl<'a> Cursor<'a> {
    /// A cursor at the start of the file.
    pub fn new(file: &'a [u8]) -> Cursor<'a>
        ensures { result ≡ record { place = 0; rest = file.now; short = ReadKind.Cut } }
    {
        Cursor {
            place: 0,
            rest: file,
            short: ReadKind::Cut,
        }
    }

    /// The bytes that were read so far, of the whole file.
    pub fn place(&self) -> u64
        ensures { result ≡ self.now.place }
    {
        self.place
    }

    /// Whether nothing is left.
    pub fn is_empty(&self) -> bool
        ensures { result ≡ (length self.now.rest == 0) }
    {
        self.rest.is_empty()
    }

    /// The next byte.
    #[tactic(auto, unfolding(mv_syntax::specs::Forms::byte))]
    pub fn byte(&mut self) -> Result<u8, Or<ReadFault>>
        ensures { Reads (λ b. b) result self.new (byte.reads self.old) }
    {
        match self.rest {
            [] => Err(Or::Fault(ReadFault {
                place: self.place,
                kind: self.short,
            })),
            [byte, rest @ ..] => {
                self.place += 1;
                self.rest = rest;
                Ok(*byte)
            }
        }
    }

    /// So many bytes.
    #[tactic(auto, unfolding(mv_syntax::specs::Forms::bytes))]
    pub fn bytes(&mut self, count: u32) -> Result<&'a [u8], Or<ReadFault>>
        ensures { Reads (λ b. b.now) result self.new ((bytes count).reads self.old) }
    {
        let count = count as usize;
        if self.rest.len() < count {
            return self.run_out();
        }
        let (front, rest) = self.rest.split_at(count);
        self.place += count as u64;
        self.rest = rest;
        Ok(front)
    }

    /// A cursor over so many bytes, past which this one stands then.
    pub fn window(&mut self, size: u32) -> Result<Cursor<'a>, Or<ReadFault>>
        ensures { Reads (λ w. w) result self.new (split_from size self.old) }
    {
        let size = size as usize;
        if self.rest.len() < size {
            return self.run_out();
        }
        let (front, rest) = self.rest.split_at(size);
        let inside = Cursor {
            place: self.place,
            rest: front,
            short: ReadKind::Size,
        };
        self.place += size as u64;
        self.rest = rest;
        Ok(inside)
    }

    /// Whether fewer than so many bytes are left.
    pub fn lacks(&self, size: u32) -> bool
        ensures { result ≡ nat_lt (length self.now.rest) size }
    {
        self.rest.len() < size as usize
    }

    /// A cursor over so many bytes, or over those that are left, past which this one stands then.
    pub fn clip(&mut self, size: u32) -> Cursor<'a>
        ensures inside { result ≡ window size self.old }
        ensures behind { self.new ≡ past self.old (take size self.old.rest) (drop size self.old.rest) }
    {
        let count = min(size as usize, self.rest.len());
        let (front, rest) = self.rest.split_at(count);
        let inside = Cursor {
            place: self.place,
            rest: front,
            short: ReadKind::Size,
        };
        self.place += count as u64;
        self.rest = rest;
        inside
    }

    /// The fault of bytes that end too early.
    pub fn run_out<T>(&self) -> Result<T, Or<ReadFault>>
        ensures { result ≡ Err (Or.Fault (record { place = self.now.place + length self.now.rest; kind = self.now.short })) }
    {
        fault(self.place + self.rest.len() as u64, self.short)
    }

    /// The fault of bytes that are left.
    pub fn finish(&self) -> Result<(), Or<ReadFault>>
        ensures { Ends self.now result }
    {
        if self.rest.is_empty() {
            Ok(())
        } else {
            fault(self.place, self.short)
        }
    }
}

/// The fault at a place.
pub fn fault<T>(place: u64, kind: ReadKind) -> Result<T, Or<ReadFault>>
    ensures { result ≡ Err (Or.Fault (record { place = place; kind = kind })) }
{
    Err(Or::Fault(ReadFault { place, kind }))
}

/// A meaning, or the fault of having none at the place where its form began.
pub fn judged<T>(start: u64, meaning: Result<T, ReadKind>) -> Result<T, Or<ReadFault>>
    ensures { Judges start meaning result }
{
    match meaning {
        Ok(value) => Ok(value),
        Err(kind) => fault(start, kind),
    }
}
