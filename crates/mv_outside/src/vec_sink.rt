//! A sink in memory.
ghost use Rattle.std.specs.Prelude.{◌≡◌, ◌≤◌, ◌↔◌, ◌⊎◌, ◌++◌, ◌/◌, [], IsTrue, Some, OnOk, length, take};
ghost use Rattle.mv_calls.specs.Or.{IsFault, WantsMemory};
ghost use Rattle.mv_outside.specs.Told.{told_more, AddsPart};
ghost use Rattle.mv_outside.specs.Causes.{Rose};
ghost use Rattle.mv_outside.specs.VecSink.{SinkState, write_fails, Leaves};

use crate::fault::Failed;
use crate::sink::Sink;
use mv_calls::Or;
use std::alloc::Global;
use std::marker::Model;

/// Keeps what is printed. Contracts see all that it holds but its memory.
#[derive(Debug, Drop)]
pub struct VecSink {
    written: Vec<u8>,
    calls: u64,
    fail: Vec<u64>,
    faults: u64,
}

impl Model for VecSink {
    ghost use Rattle.mv_outside.specs.VecSink.{SinkState};

    ghost Value = { SinkState };

    ghost view = { λ s. record { written = s.written.items; calls = s.calls; fail = s.fail.items; faults = s.faults } };
}

impl VecSink {
    /// An empty sink. The p-th call of `write_all_of`, from 0, fails where p is in `fail`.
    pub fn new(alloc: Global, fail: Vec<u64>) -> VecSink
        ensures { result ≡ record { written = []; calls = 0; fail = fail.items; faults = 0 } }
    {
        VecSink {
            written: Vec::new(alloc),
            calls: 0,
            fail,
            faults: 0,
        }
    }

    /// What was written, oldest first.
    pub fn bytes(&self) -> &[u8]
        ensures { result.now ≡ self.now.written }
    {
        self.written.as_slice()
    }
}

/// Adds the first half of the piece, or nothing where there is no memory for it.
fn add_half(written: &mut Vec<u8>, piece: &[u8])
    ensures { (written.new.items ≡ written.old.items ++ take (length piece.now / 2) piece.now) ⊎ (written.new.items ≡ written.old.items) }
{
    let _ = written.extend_from_slice(&piece[..piece.len() / 2]);
}

impl Sink for VecSink {
    ghost use Rattle.std.specs.Prelude.{Some};

    ghost written = { λ s. Some s.written };

    ghost faults = { λ s. s.faults };

    /// A call that is named fails, whether or not there is memory: the first half of the piece was added then, or
    /// nothing where there was no memory for it. Want of memory in another call adds nothing.
    fn write_all_of(&mut self, _alloc: Global, bytes: &[u8]) -> Result<(), Or<Failed>>
        ensures ok { OnOk result (Some self.new.written ≡ told_more (Some self.old.written) bytes.now) }
        ensures part { IsFault result → AddsPart (Some self.old.written) bytes.now (Some self.new.written) }
        ensures memory { WantsMemory result → Some self.new.written ≡ Some self.old.written }
        ensures later { self.old.faults ≤ self.new.faults }
        ensures cause { IsFault result → Rose self.old.faults self.new.faults }
        // It fails exactly at the calls that are named.
        ensures named { IsFault result ↔ IsTrue (write_fails self.old) }
        ensures after { Leaves self.old bytes.now result self.new }
    {
        let number = self.calls;
        self.calls = number.saturating_add(1);
        if self.fail.contains(&number) {
            self.faults = self.faults.saturating_add(1);
            add_half(&mut self.written, bytes);
            return Err(Or::Fault(Failed));
        }
        if self.written.extend_from_slice(bytes).is_err() {
            return Err(Or::OutOfMemory);
        }
        Ok(())
    }
}
