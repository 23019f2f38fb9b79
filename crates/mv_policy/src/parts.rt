//! The parts of a console that keeps to a policy, and what a look and a line do to them.
ghost use Rattle.std.specs.Prelude.{◌≡◌, ◌+◌, ◌<◌, ◌≤◌, ◌||◌, Bool, IfOk, OnErr, OnOk, Option, List, ℕ, [], drop, length, take, true, false, vec_capacity};
ghost use Rattle.mv_outside.specs.Causes.{Rose};
ghost use Rattle.mv_outside.specs.Console.{IfLine, EndsLines, line_limit};
ghost use Rattle.mv_outside.specs.Counts.{one_more};
ghost use Rattle.mv_policy.specs.Looks.{HasReplied, Looks, first_failure};
ghost use Rattle.mv_policy.specs.Parted.{HasAnswered, HasDenied, IsReady, faults_of, seen_in};

use crate::decision::{Decision, decide};
use crate::denial::{LONGEST_DENIAL, denial_line};
use crate::policy::Policy;
use crate::spoken::Shelf;
use mv_calls::{Bytes, OutOfMemory};
use mv_outside::{Console, Failed, Line};
use std::alloc::Global;

/// A console with its policy, and what was said over it.
#[derive(Drop)]
pub(crate) struct Parts<C> {
    pub inner: C,
    pub policy: Policy,
    pub shelf: Shelf,
    /// How long a line may be that is said now.
    pub room: usize,
    /// How many were stored when a `say` of the inner console failed first.
    pub failed_at: Option<usize>,
    /// The `say` of a denial has failed.
    pub deaf: bool,
    /// How often Failed was answered without asking.
    pub misses: u64,
}

/// The bytes behind the first ones.
fn behind(line: Bytes, from: usize) -> Bytes
    ensures { result ≡ drop from line }
{
    let mut bytes = line.into_vec();
    let len = bytes.len();
    if from < len {
        bytes.rotate_left(from);
        bytes.truncate(len - from);
    } else {
        bytes.clear();
    }
    Bytes::from_vec(bytes)
}

fn first_failure(failed_at: Option<usize>, stored: usize) -> Option<usize>
    ensures { result ≡ first_failure failed_at stored }
{
    match failed_at {
        None => Some(stored),
        Some(at) => Some(at),
    }
}

impl<C: Console> Parts<C> {
    /// Takes the memory that a denial wants, and makes the inner console ready for it.
    fn make_ready(&mut self, alloc: Global) -> Result<Vec<u8>, OutOfMemory>
        requires ready { IsReady C.room self.old }
        ensures buffer { IfOk result (λ buffer. (buffer.items ≡ []) × (34 ≤ vec_capacity buffer)) }
        ensures room { OnOk result ((34 ≤ C.room self.new.inner) × (0 < self.new.shelf.free) × (self.new.room ≡ self.old.room)) }
        ensures ready { IsReady C.room self.new }
        ensures same { seen_in C.coming C.said self.new ≡ seen_in C.coming C.said self.old }
        ensures ended { C.ended self.new.inner ≡ C.ended self.old.inner }
        ensures misses { self.new.misses ≡ self.old.misses }
        ensures later { C.faults self.old.inner ≤ C.faults self.new.inner }
    {
        let room = self.room;
        self.room = 0;
        self.shelf.make_free()?;
        let buffer = Vec::with_capacity(alloc, LONGEST_DENIAL)?;
        self.inner.prepare(alloc, room.max(LONGEST_DENIAL))?;
        self.room = room;
        Ok(buffer)
    }

    /// Denies a line that was taken.
    fn deny(&mut self, rule: u32, buffer: Vec<u8>) -> Line
        requires empty { buffer.items ≡ [] }
        requires capacity { 34 ≤ vec_capacity buffer }
        requires room { 34 ≤ C.room self.old.inner }
        requires free { 0 < self.old.shelf.free }
        requires silent { self.old.room ≡ 0 }
        ensures denied { HasDenied rule (seen_in C.coming C.said self.old) result (seen_in C.coming C.said self.new) }
        ensures silent { self.new.room ≡ 0 }
        ensures ended { C.ended self.new.inner ≡ C.ended self.old.inner }
        ensures misses { self.new.misses ≡ self.old.misses }
        ensures later { C.faults self.old.inner ≤ C.faults self.new.inner }
        ensures cause { result ≡ Line.Failed → Rose (C.faults self.old.inner) (C.faults self.new.inner) }
    {
        let line = denial_line(buffer, rule);
        match self.inner.say(line.as_slice()) {
            Ok(()) => {
                self.shelf.keep_denial(rule);
                Line::Idle
            }
            Err(Failed) => {
                self.failed_at = first_failure(self.failed_at, self.shelf.len());
                self.deaf = true;
                Line::Failed
            }
        }
    }

    /// Hands on the order of a line that was taken, or denies it. `room` is what may be said if nothing is.
    fn answer(&mut self, line: Bytes, room: usize, buffer: Vec<u8>) -> Line
        requires empty { buffer.items ≡ [] }
        requires capacity { 34 ≤ vec_capacity buffer }
        requires denial { 34 ≤ C.room self.old.inner }
        requires free { 0 < self.old.shelf.free }
        requires room { (room ≤ C.room self.old.inner) × (room ≤ self.old.shelf.room) }
        requires silent { self.old.room ≡ 0 }
        requires short { length line ≤ line_limit }
        ensures answered { HasAnswered line (seen_in C.coming C.said self.old) result (seen_in C.coming C.said self.new) }
        ensures ready { IsReady C.room self.new }
        ensures room { IfLine result (λ _. self.new.room ≡ room) }
        ensures short { IfLine result (λ order. length order ≤ line_limit) }
        ensures ended { C.ended self.new.inner ≡ C.ended self.old.inner }
        ensures misses { self.new.misses ≡ self.old.misses }
        ensures later { C.faults self.old.inner ≤ C.faults self.new.inner }
        ensures cause { result ≡ Line.Failed → Rose (C.faults self.old.inner) (C.faults self.new.inner) }
    {
        match decide(&self.policy, line.slice()) {
            Decision::Allowed { from, rule: _ } => {
                self.room = room;
                Line::Line(behind(line, from))
            }
            Decision::Denied { rule } => self.deny(rule, buffer),
        }
    }

    /// Asks the inner console once, unless a denial couldn't be said, and keeps to the policy.
    pub(crate) fn look(&mut self, alloc: Global) -> Line
        requires ready { IsReady C.room self.old }
        ensures looks { Looks (seen_in C.coming C.said self.old) result (seen_in C.coming C.said self.new) }
        ensures ready { IsReady C.room self.new }
        ensures short { IfLine result (λ line. length line ≤ line_limit) }
        ensures ended { EndsLines (C.ended self.old.inner || self.old.deaf) result (C.ended self.new.inner || self.new.deaf) }
        ensures room { IfLine result (λ _. self.old.room ≤ self.new.room) }
        ensures later { faults_of C.faults self.old ≤ faults_of C.faults self.new }
        ensures cause { result ≡ Line.Failed → Rose (faults_of C.faults self.old) (faults_of C.faults self.new) }
        ensures deaf { self.old.deaf ≡ true → (result ≡ Line.Failed) × (self.new ≡ record self.old { misses = one_more self.old.misses }) }
        ensures misses { self.old.deaf ≡ false → self.new.misses ≡ self.old.misses }
    {
        if self.deaf {
            self.misses = self.misses.saturating_add(1);
            return Line::Failed;
        }
        let Ok(buffer) = self.make_ready(alloc) else {
            return Line::Memory;
        };
        let room = self.room;
        self.room = 0;
        match self.inner.next(alloc) {
            Line::Line(line) => self.answer(line, room, buffer),
            Line::Idle => Line::Idle,
            Line::Closed => Line::Closed,
            Line::Failed => Line::Failed,
            Line::Memory => Line::Memory,
        }
    }

    /// Makes the memory for a line of `len` bytes that is to be said, and the place for keeping it.
    pub(crate) fn prepare(&mut self, alloc: Global, len: usize) -> Result<(), OutOfMemory>
        ensures room { OnOk result (len ≤ self.new.room) }
        ensures ready { IsReady C.room self.new }
        ensures same { seen_in C.coming C.said self.new ≡ seen_in C.coming C.said self.old }
        ensures ended { C.ended self.new.inner ≡ C.ended self.old.inner }
        ensures misses { self.new.misses ≡ self.old.misses }
        ensures later { C.faults self.old.inner ≤ C.faults self.new.inner }
    {
        self.room = 0;
        self.shelf.make_room(len)?;
        self.inner.prepare(alloc, len)?;
        self.room = len;
        Ok(())
    }

    /// Says a line, and keeps it where it was said.
    pub(crate) fn say(&mut self, line: &[u8]) -> Result<(), Failed>
        requires ready { IsReady C.room self.old }
        requires room { length line.now ≤ self.old.room }
        ensures said { HasReplied (seen_in C.coming C.said self.old) line.now result (seen_in C.coming C.said self.new) }
        ensures ready { IsReady C.room self.new }
        ensures ended { C.ended self.new.inner ≡ C.ended self.old.inner }
        ensures misses { self.new.misses ≡ self.old.misses }
        ensures later { C.faults self.old.inner ≤ C.faults self.new.inner }
        ensures cause { OnErr result (Rose (C.faults self.old.inner) (C.faults self.new.inner)) }
    {
        self.room = 0;
        match self.inner.say(line) {
            Ok(()) => {
                self.shelf.keep_reply(line);
                Ok(())
            }
            Err(failed) => {
                self.failed_at = first_failure(self.failed_at, self.shelf.len());
                Err(failed)
            }
        }
    }
}
