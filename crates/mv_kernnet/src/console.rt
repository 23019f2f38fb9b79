//! A console that an operator reaches by a connection.
ghost use Rattle.std.specs.Prelude.{◌≡◌, ◌≤◌, ◌-◌, ◌↔◌, IfOk, IfSome, IsOk, OnOk, OnErr, None, true, false, length, vec_len, vec_capacity};
ghost use Rattle.mv_outside.specs.Console.{line_limit, IfLine, Takes, EndsLines};
ghost use Rattle.mv_outside.specs.Causes.{Rose};
ghost use Rattle.mv_outside.specs.Told.{told_more, AddsPart};
ghost use Rattle.mv_kernnet.specs.NetConsole.{ConsoleSeen};

use crate::door::{Arrival, Door};
use crate::heard::Heard;
use crate::replies::Replies;
use mv_calls::{Bytes, OutOfMemory};
use mv_outside::{Console, Failed, Line};
use std::alloc::Global;
use std::io;
use std::marker::Model;
use std::net::Net;

/// Serves one operator at a time, whose lines end with a line feed. Whoever connects meanwhile waits
/// until that operator has gone. No call waits: a look at the console reads what has come, at most
/// 1,024 bytes, and reads on only after the operator has taken the replies to earlier lines.
///
/// An operator whose connection has an error or an end is dropped, with what he sent of a line and what
/// he wasn't told yet, and the look is idle. What is said while nobody is there is said to nobody. It
/// fails where its address can't be bound, once, and is closed from then on. It tells nothing;
/// contracts see its count of faults, its memory, and whether it has failed.
#[derive(Drop)]
pub struct NetConsole<'a, R: Net> {
    door: Door<'a, R>,
    operator: Option<R::Stream>,
    heard: Heard,
    replies: Replies,
    has_failed: bool,
    faults: u64,
}

impl<'a, R: Net> Model for NetConsole<'a, R> {
    ghost use Rattle.std.specs.Prelude.{◌-◌, vec_len, vec_capacity};
    ghost use Rattle.mv_kernnet.specs.NetConsole.{ConsoleSeen};

    ghost Value = { ConsoleSeen };

    ghost view = { λ c. record {
      faults = c.faults;
      room = vec_capacity c.replies.bytes - vec_len c.replies.bytes;
      ended = c.has_failed;
    } };
}

impl<'a, R: Net> NetConsole<'a, R> {
    /// A console that operators are to reach at the address, `HOST:PORT`. It is bound at the first look.
    pub fn new(alloc: Global, net: &'a R, address: Bytes) -> NetConsole<'a, R>
        ensures faults { result.faults ≡ 0 }
        ensures ended { result.ended ≡ false }
    {
        NetConsole {
            door: Door::new(net, address),
            operator: None,
            heard: Heard::new(alloc),
            replies: Replies::new(alloc),
            has_failed: false,
            faults: 0,
        }
    }

    /// Lets the next operator in, where there is none. The one error is that the address can't be bound.
    fn let_in(&mut self) -> io::Result<()>
        ensures same { self.new ≡ self.old }
    {
        if self.operator.is_none() {
            if let Arrival::Came(stream) = self.door.take()? {
                self.operator = Some(stream);
            }
        }
        Ok(())
    }

    /// Drops the operator, with what he sent of a line and what he wasn't told yet.
    fn drop_operator(&mut self)
        ensures room { self.old.room ≤ self.new.room }
        ensures faults { self.new.faults ≡ self.old.faults }
        ensures ended { self.new.ended ≡ self.old.ended }
    {
        self.operator = None;
        self.heard.clear();
        self.replies.clear();
    }

    /// The operator's next line, after he was told all that is to be said; none where it hasn't come
    /// whole. An error is that of his connection, or want of memory, which leaves the line waiting.
    fn hear(&mut self, alloc: Global) -> io::Result<Option<Bytes>>
        ensures short { IfOk result (λ found. IfSome found (λ line. length line ≤ line_limit)) }
        ensures room { self.old.room ≤ self.new.room }
        ensures faults { self.new.faults ≡ self.old.faults }
        ensures ended { self.new.ended ≡ self.old.ended }
    {
        let Some(operator) = &mut self.operator else {
            return Ok(None);
        };
        if !self.replies.send(operator)? {
            return Ok(None);
        }
        self.heard.reserve()?;
        if !self.heard.read_on(operator)? {
            return Ok(None);
        }
        Ok(Some(self.heard.take(alloc)?))
    }
}

impl<R: Net> Console for NetConsole<'_, R> {
    ghost coming = { λ _. None };

    ghost said = { λ _. None };

    ghost faults = { λ c. c.faults };

    ghost room = { λ c. c.room };

    ghost ended = { λ c. c.ended };

    fn next(&mut self, alloc: Global) -> Line
        ensures taken { Takes None result None }
        ensures short { IfLine result (λ line. length line ≤ line_limit) }
        ensures ended { EndsLines self.old.ended result self.new.ended }
        ensures room { IfLine result (λ _. self.old.room ≤ self.new.room) }
        ensures later { self.old.faults ≤ self.new.faults }
        ensures cause { result ≡ Line.Failed → Rose self.old.faults self.new.faults }
        // It fails once, and is closed exactly from then on. Its count rises at no other time.
        ensures closed { (result ≡ Line.Closed) ↔ (self.old.ended ≡ true) }
        ensures failed { result ≡ Line.Failed ↔ (self.old.ended ≡ false × self.new.ended ≡ true) }
        ensures well { (result ≡ Line.Failed → ⊥) → self.new.faults ≡ self.old.faults }
    {
        if self.has_failed {
            return Line::Closed;
        }
        if self.let_in().is_err() {
            self.has_failed = true;
            self.faults = self.faults.saturating_add(1);
            return Line::Failed;
        }
        match self.hear(alloc) {
            Ok(Some(line)) => Line::Line(line),
            Ok(None) => Line::Idle,
            Err(error) => match error.kind() {
                io::ErrorKind::OutOfMemory => Line::Memory,
                _ => {
                    self.drop_operator();
                    Line::Idle
                }
            },
        }
    }

    fn prepare(&mut self, _alloc: Global, len: usize) -> Result<(), OutOfMemory>
        ensures room { OnOk result (len ≤ self.new.room) }
        ensures ended { self.new.ended ≡ self.old.ended }
        ensures later { self.old.faults ≤ self.new.faults }
        ensures well { self.new.faults ≡ self.old.faults }
    {
        self.replies.reserve(len)
    }

    /// It never fails: an error of the operator's connection drops him.
    fn say(&mut self, line: &[u8]) -> Result<(), Failed>
        requires { length line.now ≤ self.old.room }
        ensures ok { OnOk result (None ≡ told_more None line.now) }
        ensures part { OnErr result (AddsPart None line.now None) }
        ensures ended { self.new.ended ≡ self.old.ended }
        ensures later { self.old.faults ≤ self.new.faults }
        ensures cause { OnErr result (Rose self.old.faults self.new.faults) }
        ensures sure { IsOk result }
        ensures well { self.new.faults ≡ self.old.faults }
    {
        let Some(operator) = &mut self.operator else {
            return Ok(());
        };
        self.replies.add(line);
        if self.replies.send(operator).is_err() {
            self.drop_operator();
        }
        Ok(())
    }
}
