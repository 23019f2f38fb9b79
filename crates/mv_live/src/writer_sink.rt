//! A sink over a writer.
ghost use Rattle.std.specs.Prelude.{◌≡◌, None};

use mv_calls::Or;
use mv_outside::{Failed, Sink};
use std::alloc::Global;
use std::io::Write;
use std::marker::Model;

/// Hands what is printed on to a writer. It tells nothing, and contracts see its count of faults.
#[derive(Drop)]
pub struct WriterSink<W: Write + Drop> {
    to: W,
    faults: u64,
}

impl<W: Write + Drop> Model for WriterSink<W> {
    ghost use Rattle.std.specs.Prelude.{ℕ};

    ghost Value = { ℕ };

    ghost view = { λ s. s.faults };
}

impl<W: Write + Drop> WriterSink<W> {
    /// A sink over this writer.
    pub fn new(to: W) -> WriterSink<W>
        ensures { result ≡ 0 }
    {
        WriterSink { to, faults: 0 }
    }
}

impl<W: Write + Drop> Sink for WriterSink<W> {
    ghost written = { λ _. None };

    ghost faults = { λ s. s };

    fn write_all_of(&mut self, _alloc: Global, bytes: &[u8]) -> Result<(), Or<Failed>> {
        match self.to.write_all(bytes) {
            Ok(()) => Ok(()),
            Err(_) => {
                self.faults = self.faults.saturating_add(1);
                Err(Or::Fault(Failed))
            }
        }
    }
}
