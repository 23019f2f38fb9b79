//! A console in memory.
ghost use Rattle.std.specs.Prelude.{◌≡◌, ◌≤◌, ◌↔◌, [], map, length, IsTrue, Some, true, false, OnOk, OnErr, is_err};
ghost use Rattle.mv_outside.specs.Told.{told_more, AddsPart};
ghost use Rattle.mv_outside.specs.Causes.{Rose};
ghost use Rattle.mv_outside.specs.Console.{IfLine, Takes, EndsLines, line_limit};
ghost use Rattle.mv_outside.specs.MemConsole.{ConsoleState, ConsoleSeen, handed, has_ended, next_fails, next_line, after_next, say_fails, after_say};

use crate::console::{Console, Line};
use crate::fault::Failed;
use mv_calls::{Bytes, OutOfMemory};
use std::alloc::Global;
use std::collections::VecDeque;
use std::marker::Model;

/// How many bytes of a line are handed on.
const LINE_LIMIT: usize = 8_192;

/// Hands on the lines that it was made with, and keeps what is said. Contracts see all that it holds,
/// and its memory as the room for what is to be said.
#[derive(Debug, Drop)]
pub struct MemConsole {
    waiting: VecDeque<Option<Bytes>>,
    spoken: Vec<u8>,
    nexts: u64,
    says: u64,
    fail_next: Vec<u64>,
    fail_say: Vec<u64>,
    failed: bool,
    closed: bool,
    faults: u64,
}

impl Model for MemConsole {
    ghost use Rattle.std.specs.Prelude.{◌≡◌, ◌-◌, [], map, true, vec_len, vec_capacity};
    ghost use Rattle.mv_outside.specs.MemConsole.{ConsoleSeen, handed};

    ghost Value = { ConsoleSeen };

    ghost view = { λ c. record {
      state = record {
        coming = map handed c.waiting.items;
        said = c.spoken.items;
        nexts = c.nexts;
        says = c.says;
        fail_next = c.fail_next.items;
        fail_say = c.fail_say.items;
        failed = c.failed;
        closed = c.closed;
        faults = c.faults;
      };
      room = vec_capacity c.spoken - vec_len c.spoken;
    } };

    ghost invariant = { λ c. c.closed ≡ true → c.waiting.items ≡ [] };
}

impl MemConsole {
    /// A console that hands on these lines, oldest first, each without its end and as its first 8,192
    /// bytes, and where `None` stands, that nothing has come yet. The p-th `next` and the p-th `say`,
    /// from 0, fail where p is in their list.
    pub fn new(
        alloc: Global,
        lines: Vec<Option<Bytes>>,
        fail_next: Vec<u64>,
        fail_say: Vec<u64>,
    ) -> MemConsole
        ensures { result.state ≡ record {
          coming = map handed lines.items;
          said = [];
          nexts = 0;
          says = 0;
          fail_next = fail_next.items;
          fail_say = fail_say.items;
          failed = false;
          closed = false;
          faults = 0;
        } }
    {
        MemConsole {
            waiting: VecDeque::from_vec(lines),
            spoken: Vec::new(alloc),
            nexts: 0,
            says: 0,
            fail_next,
            fail_say,
            failed: false,
            closed: false,
            faults: 0,
        }
    }

    /// What was said, oldest first.
    pub fn said(&self) -> &[u8]
        ensures { result.now ≡ self.now.state.said }
    {
        self.spoken.as_slice()
    }
}

/// The line as far as it is handed on.
fn first_part(line: Bytes) -> Bytes
    ensures { Some result ≡ handed (Some line) }
{
    let mut bytes = line.into_vec();
    bytes.truncate(LINE_LIMIT);
    Bytes::from_vec(bytes)
}

impl Console for MemConsole {
    ghost use Rattle.std.specs.Prelude.{Some};
    ghost use Rattle.mv_outside.specs.MemConsole.{has_ended};

    ghost coming = { λ c. Some c.state.coming };

    ghost said = { λ c. Some c.state.said };

    ghost faults = { λ c. c.state.faults };

    ghost room = { λ c. c.room };

    ghost ended = { λ c. has_ended c.state };

    /// It takes no memory, so it never answers Memory. It fails at the calls that are named, and at
    /// each one after the first that failed.
    fn next(&mut self, _alloc: Global) -> Line
        ensures taken { Takes (Some self.old.state.coming) result (Some self.new.state.coming) }
        ensures short { IfLine result (λ line. length line ≤ line_limit) }
        ensures ended { EndsLines (has_ended self.old.state) result (has_ended self.new.state) }
        ensures room { self.old.room ≤ self.new.room }
        ensures said { Some self.new.state.said ≡ Some self.old.state.said }
        ensures later { self.old.state.faults ≤ self.new.state.faults }
        ensures cause { result ≡ Line.Failed → Rose self.old.state.faults self.new.state.faults }
        // It fails exactly at the calls that are named, and after one that failed.
        ensures named { (result ≡ Line.Failed) ↔ IsTrue (next_fails self.old.state) }
        ensures line { result ≡ next_line self.old.state }
        ensures after { self.new.state ≡ after_next self.old.state }
    {
        let number = self.nexts;
        self.nexts = number.saturating_add(1);
        if self.failed || self.fail_next.contains(&number) {
            self.failed = true;
            self.faults = self.faults.saturating_add(1);
            return Line::Failed;
        }
        match self.waiting.pop_front() {
            Some(Some(line)) => Line::Line(first_part(line)),
            Some(None) => Line::Idle,
            None => {
                self.closed = true;
                Line::Closed
            }
        }
    }

    fn prepare(&mut self, _alloc: Global, len: usize) -> Result<(), OutOfMemory>
        ensures room { OnOk result (len ≤ self.new.room) }
        ensures coming { Some self.new.state.coming ≡ Some self.old.state.coming }
        ensures ended { has_ended self.new.state ≡ has_ended self.old.state }
        ensures said { Some self.new.state.said ≡ Some self.old.state.said }
        ensures later { self.old.state.faults ≤ self.new.state.faults }
        ensures same { self.new.state ≡ self.old.state }
    {
        self.spoken.reserve(len)?;
        Ok(())
    }

    /// Where it fails, the first half of the line was said.
    fn say(&mut self, line: &[u8]) -> Result<(), Failed>
        requires { length line.now ≤ self.old.room }
        ensures ok { OnOk result (Some self.new.state.said ≡ told_more (Some self.old.state.said) line.now) }
        ensures part { OnErr result (AddsPart (Some self.old.state.said) line.now (Some self.new.state.said)) }
        ensures coming { Some self.new.state.coming ≡ Some self.old.state.coming }
        ensures ended { has_ended self.new.state ≡ has_ended self.old.state }
        ensures later { self.old.state.faults ≤ self.new.state.faults }
        ensures cause { OnErr result (Rose self.old.state.faults self.new.state.faults) }
        // It fails exactly at the calls that are named.
        ensures named { IsTrue (is_err result) ↔ IsTrue (say_fails self.old.state) }
        ensures after { self.new.state ≡ after_say self.old.state line.now }
    {
        let number = self.says;
        self.says = number.saturating_add(1);
        if self.fail_say.contains(&number) {
            self.faults = self.faults.saturating_add(1);
            let _ = self.spoken.extend_from_slice(&line[..line.len() / 2]);
            return Err(Failed);
        }
        let _ = self.spoken.extend_from_slice(line);
        Ok(())
    }
}
