//! Rules, and what they are made of (docs/FORMATS.md, "Rewrite rules").

use crate::lists::{Guards, Parts, Patterns};
use mv_calls::Bytes;

/// A descriptor: a number, or a name that stands for one.
#[derive(Debug, Drop)]
pub enum FdTerm {
    /// This descriptor.
    Number(u32),
    /// `$name`: the descriptor that the name is bound to.
    Name(Bytes),
}

/// A moment, in nanoseconds: a number, or a name that stands for one.
#[derive(Debug, Drop)]
pub enum TimeTerm {
    /// This moment.
    Number(u64),
    /// `%name`: the moment that the name is bound to.
    Name(Bytes),
}

/// A part of a byte list.
#[derive(Debug, Drop)]
pub enum Part {
    /// These bytes.
    Text(Bytes),
    /// `@name:N`: exactly `length` bytes, from 1 to 65,536, which the name is bound to. It stands on the left alone.
    Sized { name: Bytes, length: u32 },
    /// `@name`: on the left all the rest, on the right the bytes that the name is bound to.
    Named(Bytes),
    /// `#name`: the decimal digits of the length of what the byte name is bound to. It stands on the right alone.
    Length(Bytes),
}

/// One item line. On the left it matches a call with its reply, on the right it makes one.
#[derive(Debug, Drop)]
pub enum Pattern {
    /// A read that is answered with bytes.
    Read {
        fd: FdTerm,
        bytes: Parts,
    },
    /// A read that is answered with an error number.
    ReadErrno {
        fd: FdTerm,
        errno: u16,
    },
    /// A write of which all bytes are taken.
    Write {
        fd: FdTerm,
        bytes: Parts,
    },
    /// A write that is answered with an error number.
    WriteErrno {
        fd: FdTerm,
        bytes: Parts,
        errno: u16,
    },
    /// A connection of the listener is accepted, with these flags, under the descriptor `made`.
    Accept {
        listener: FdTerm,
        flags: u16,
        made: FdTerm,
    },
    /// An accept that is answered with an error number.
    AcceptErrno {
        listener: FdTerm,
        flags: u16,
        errno: u16,
    },
    /// A descriptor is closed.
    Close {
        fd: FdTerm,
    },
    /// A close that is answered with an error number.
    CloseErrno {
        fd: FdTerm,
        errno: u16,
    },
    /// A connection is shut down: `how` is 1 for the reading side, 2 for the writing side, 3 for both.
    Shutdown {
        fd: FdTerm,
        how: u8,
    },
    /// A shutdown that is answered with an error number.
    ShutdownErrno {
        fd: FdTerm,
        how: u8,
        errno: u16,
    },
    /// The processor is given up.
    Yield,
    /// The time of a clock: 0 for the real time, 1 for the monotonic clock.
    Clock {
        id: u32,
        time: TimeTerm,
    },
    /// Random bytes, exactly as many as were asked for.
    Random {
        bytes: Parts,
    },
}

/// How the length of what a name is bound to has to stand to a number.
#[derive(Clone, Copy, PartialEq, Eq, Debug)]
pub enum Comparison {
    /// `=`: it is the number.
    Equal,
    /// `<`: it is less than the number.
    Less,
    /// `>`: it is greater than the number.
    Greater,
}

/// A guard, `when @name OP N`: the rule matches only where the length of the bytes that the name is bound to stands so
/// to `length`, which is from 0 to 65,536.
#[derive(Debug, Drop)]
pub struct Guard {
    pub name: Bytes,
    pub comparison: Comparison,
    pub length: u32,
}

/// A rule: what it matches, under which guards, and what it makes. `line` is that of its word `rule`, counted from 1.
#[derive(Debug, Drop)]
pub struct Rule {
    pub line: u32,
    pub left: Patterns,
    pub guards: Guards,
    pub right: Patterns,
}
