//! Scripts: what a kernel in memory plays.
ghost use Rattle.std.specs.Prelude.{◌≡◌};

use mv_calls::{Bytes, Texts};
use std::marker::Model;

/// A connection that is to come.
#[derive(Debug, Drop)]
pub struct Conn {
    /// What the other side sends, in the pieces in which it comes. Pieces aren't meant to be empty: an empty one is read as no
    /// bytes, as an end is, and is gone then.
    pub pieces: Texts,
    /// Whether the other side ends its sending behind them: then each further read finds no bytes, else errno 6.
    pub ends: bool,
}

/// A list of connections.
#[derive(Debug, Drop)]
pub struct Conns {
    items: Vec<Conn>,
}

impl Model for Conns {
    ghost use Rattle.std.specs.Prelude.{List};
    ghost use Rattle.mv_kernmem.specs.declared.script.Conn.{Conn};

    ghost Value = { List Conn };

    ghost view = { λ c. c.items.items };
}

impl Conns {
    /// The connections of the vector, in its place in memory.
    pub fn from_vec(items: Vec<Conn>) -> Conns
        ensures { result ≡ items.items }
    {
        Conns { items }
    }

    /// The connections as a vector, in their place in memory.
    pub fn into_vec(self) -> Vec<Conn>
        ensures { result.items ≡ self }
    {
        let Conns { items } = self;
        items
    }

    /// The connections, to be looked at.
    pub fn slice(&self) -> &[Conn]
        ensures { result.now ≡ self.now }
    {
        self.items.as_slice()
    }
}

/// A list of numbers: the times that a clock gives, in nanoseconds, or the numbers of calls, from 0.
#[derive(Debug, Drop)]
pub struct Numbers {
    items: Vec<u64>,
}

impl Model for Numbers {
    ghost use Rattle.std.specs.Prelude.{List, ℕ};

    ghost Value = { List ℕ };

    ghost view = { λ n. n.items.items };
}

impl Numbers {
    /// The numbers of the vector, in its place in memory.
    pub fn from_vec(items: Vec<u64>) -> Numbers
        ensures { result ≡ items.items }
    {
        Numbers { items }
    }

    /// The numbers as a vector, in their place in memory.
    pub fn into_vec(self) -> Vec<u64>
        ensures { result.items ≡ self }
    {
        let Numbers { items } = self;
        items
    }

    /// The numbers, to be looked at.
    pub fn slice(&self) -> &[u64]
        ensures { result.now ≡ self.now }
    {
        self.items.as_slice()
    }
}

/// What a kernel in memory plays.
#[derive(Debug, Drop)]
pub struct Script {
    /// The connections, in the order in which they come to the listener, descriptor 3.
    pub conns: Conns,
    /// What the clock gives, one value a call, in nanoseconds; its last one from then on, and 0 where there is none.
    pub clock: Numbers,
    /// The random bytes, which start again at their end; zeros where there are none.
    pub random: Bytes,
    /// The numbers, from 0, of the calls of `perform` that fail.
    pub fail: Numbers,
}
