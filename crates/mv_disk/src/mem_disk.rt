//! A disk in memory.
ghost use Rattle.std.specs.Prelude.{◌≡◌, ◌+◌, ◌/◌, ◌≤◌, ◌↔◌, [], ◌∷◌, ◌++◌, List, ℕ, take, length, vec_len, vec_capacity, if◌then◌else◌, IsTrue, Some, IfOk, OnOk, OnErr, is_err};
ghost use Rattle.mv_calls.specs.Or.{IsFault};
ghost use Rattle.mv_outside.specs.Causes.{Rose};
ghost use Rattle.mv_disk.specs.Disk.{IsInside, HasLength, StandsAt, IsWritten, IsWrittenInPart, IsSameDisk, Torn, Follows, IsOnDisk, Elapses, with_bytes};
ghost use Rattle.mv_disk.specs.MemDisk.{content_of, reads_of, LeavesNow, moment_of, LeftSince, len_fails, read_fails, write_fails, sync_fails, after_len, after_read, after_write, after_sync};
ghost use Rattle.mv_disk.specs.First.{first_of};

use crate::disk::Disk;
use mv_calls::{Bytes, Or, OutOfMemory};
use mv_outside::Failed;
use std::alloc::Global;
use std::marker::Model;

/// A call that changed a disk in memory, or made it last.
#[derive(Debug, Drop)]
pub enum Step {
    /// Of these bytes so many were written, from this place on.
    Write { at: u64, bytes: Bytes, done: usize },
    /// What was read was made to last.
    Sync,
}

/// A disk that tells all, and fails at the calls that are named. It keeps each write for what a crash may have left, so its
/// memory grows with what is written.
#[derive(Debug, Drop)]
pub struct MemDisk {
    // what it was made with, once something was written
    first: Option<Bytes>,
    content: Vec<u8>,
    steps: Vec<Step>,
    lens: u64,
    reads: u64,
    writes: u64,
    syncs: u64,
    fail_len: Vec<u64>,
    fail_read: Vec<u64>,
    fail_write: Vec<u64>,
    fail_sync: Vec<u64>,
    faults: u64,
}

impl Model for MemDisk {
    ghost use Rattle.std.specs.Prelude.{◌≡◌};
    ghost use Rattle.mv_disk.specs.First.{first_of};
    ghost use Rattle.mv_disk.specs.MemDisk.{DiskState, content_after};

    ghost Value = { DiskState };

    ghost view = { λ d. record {
      first = first_of d.first d.content.items;
      steps = d.steps.items;
      lens = d.lens;
      reads = d.reads;
      writes = d.writes;
      syncs = d.syncs;
      fail_len = d.fail_len.items;
      fail_read = d.fail_read.items;
      fail_write = d.fail_write.items;
      fail_sync = d.fail_sync.items;
      faults = d.faults;
    } };

    ghost invariant = { λ d. content_after (first_of d.first d.content.items) d.steps.items ≡ d.content.items };
}

impl MemDisk {
    /// A disk that reads these bytes, all of them on it. The p-th `len`, `read_at`, `write_at` and `sync`, from 0, fail where p
    /// is in their list.
    pub fn new(
        alloc: Global,
        bytes: Bytes,
        fail_len: Vec<u64>,
        fail_read: Vec<u64>,
        fail_write: Vec<u64>,
        fail_sync: Vec<u64>,
    ) -> MemDisk
        ensures { result ≡ record {
          first = bytes;
          steps = [];
          lens = 0;
          reads = 0;
          writes = 0;
          syncs = 0;
          fail_len = fail_len.items;
          fail_read = fail_read.items;
          fail_write = fail_write.items;
          fail_sync = fail_sync.items;
          faults = 0;
        } }
    {
        MemDisk {
            first: None,
            content: bytes.into_vec(),
            steps: Vec::new(alloc),
            lens: 0,
            reads: 0,
            writes: 0,
            syncs: 0,
            fail_len,
            fail_read,
            fail_write,
            fail_sync,
            faults: 0,
        }
    }

    /// What the disk reads.
    pub fn bytes(&self) -> &[u8]
        ensures { result.now ≡ content_of self.now }
    {
        self.content.as_slice()
    }
}

/// Keeps what there was at first.
fn keep_first(alloc: Global, first: &mut Option<Bytes>, content: &[u8]) -> Result<(), OutOfMemory>
    ensures same { first_of first.new content.now ≡ first_of first.old content.now }
    ensures kept { OnOk result (first.new ≡ Some (first_of first.old content.now)) }
{
    if first.is_none() {
        *first = Some(Bytes::from_slice(alloc, content)?);
    }
    Ok(())
}

/// How many bytes of a write are done: half of them where it fails.
fn done_of(len: usize, fails: bool) -> usize
    ensures { result ≡ (if fails then len / 2 else len) }
{
    if fails { len / 2 } else { len }
}

/// Puts a piece at its place, over what stands there and past the end.
fn put(content: &mut Vec<u8>, at: usize, piece: &[u8])
    requires within { at ≤ vec_len content.old }
    requires room { vec_len content.old + length piece.now ≤ vec_capacity content.old }
    ensures { content.new.items ≡ with_bytes content.old.items at piece.now }
{
    let over = piece.len().min(content.len() - at);
    let (front, back) = piece.split_at(over);
    let _ = content.extend_from_slice(back);
    content[at..at + over].copy_from_slice(front);
}

/// Does a write, in part, and keeps it. Want of memory changes nothing.
fn do_write(
    alloc: Global,
    content: &mut Vec<u8>,
    steps: &mut Vec<Step>,
    at: u64,
    bytes: &[u8],
    done: usize,
) -> Result<(), OutOfMemory>
    requires within { at ≤ vec_len content.old }
    requires part { done ≤ length bytes.now }
    ensures written { OnOk result (content.new.items ≡ with_bytes content.old.items at (take done bytes.now)) }
    ensures step { OnOk result (steps.new.items ≡ steps.old.items ++ Step.Write at bytes.now done ∷ []) }
    ensures err { OnErr result ((content.new.items ≡ content.old.items) × (steps.new.items ≡ steps.old.items)) }
{
    let kept = Bytes::from_slice(alloc, bytes)?;
    content.reserve(done)?;
    steps.push(Step::Write {
        at,
        bytes: kept,
        done,
    })?;
    put(content, at as usize, &bytes[..done]);
    Ok(())
}

impl Disk for MemDisk {
    ghost use Rattle.mv_disk.specs.MemDisk.{reads_of, LeavesNow, moment_of, LeftSince};
    ghost use Rattle.mv_disk.specs.MemDiskLaws.{leaves_read as read_is_left, counts_now as now_counts, only_now as now_only};

    ghost reads = { reads_of };

    ghost may_leave = { LeavesNow };

    ghost moment = { moment_of };

    ghost left_since = { LeftSince };

    ghost faults = { λ d. d.faults };

    ghost leaves_read = { read_is_left };

    ghost counts_now = { now_counts };

    ghost only_now = { now_only };

    fn len(&mut self) -> Result<u64, Failed>
        ensures length { IfOk result (HasLength (reads_of self.old)) }
        ensures same { IsSameDisk reads_of LeavesNow moment_of LeftSince self.old self.new }
        ensures later { self.old.faults ≤ self.new.faults }
        ensures cause { OnErr result (Rose self.old.faults self.new.faults) }
        // It fails exactly at the calls that are named.
        ensures named { IsTrue (is_err result) ↔ IsTrue (len_fails self.old) }
        ensures after { self.new ≡ after_len self.old }
    {
        let number = self.lens;
        self.lens = number.saturating_add(1);
        if self.fail_len.contains(&number) {
            self.faults = self.faults.saturating_add(1);
            return Err(Failed);
        }
        Ok(self.content.len() as u64)
    }

    /// Where it fails, `into` stays as it is.
    fn read_at(&mut self, at: u64, into: &mut [u8]) -> Result<(), Failed>
        requires { IsInside (reads_of self.old) at (length into.old) }
        ensures bytes { OnOk result (StandsAt (reads_of self.old) at into.new) }
        ensures same { IsSameDisk reads_of LeavesNow moment_of LeftSince self.old self.new }
        ensures later { self.old.faults ≤ self.new.faults }
        ensures cause { OnErr result (Rose self.old.faults self.new.faults) }
        ensures named { IsTrue (is_err result) ↔ IsTrue (read_fails self.old) }
        ensures after { self.new ≡ after_read self.old }
        ensures unread { OnErr result (into.new ≡ into.old) }
    {
        let number = self.reads;
        self.reads = number.saturating_add(1);
        if self.fail_read.contains(&number) {
            self.faults = self.faults.saturating_add(1);
            return Err(Failed);
        }
        let from = at as usize;
        into.copy_from_slice(&self.content[from..from + into.len()]);
        Ok(())
    }

    /// Where it fails, the first half of the bytes was written. Want of memory writes nothing, and comes in the place of a
    /// failure too.
    fn write_at(&mut self, alloc: Global, at: u64, bytes: &[u8]) -> Result<(), Or<Failed>>
        requires { IsInside (reads_of self.old) at 0 }
        ensures written { OnOk result (IsWritten (reads_of self.old) at bytes.now (reads_of self.new)) }
        ensures part { OnErr result (IsWrittenInPart (reads_of self.old) at (length bytes.now) (reads_of self.new)) }
        ensures crash { Follows (Torn at (length bytes.now)) (LeavesNow self.old) (LeavesNow self.new) }
        ensures time { Elapses (moment_of self.old) (moment_of self.new) (LeftSince self.old) (LeftSince self.new) (LeavesNow self.new) }
        ensures later { self.old.faults ≤ self.new.faults }
        ensures cause { IsFault result → Rose self.old.faults self.new.faults }
        ensures named { IsFault result → IsTrue (write_fails self.old) }
        ensures others { OnOk result (¬ (IsTrue (write_fails self.old))) }
        ensures after { self.new ≡ after_write self.old at bytes.now result }
    {
        let number = self.writes;
        self.writes = number.saturating_add(1);
        let fails = self.fail_write.contains(&number);
        let done = done_of(bytes.len(), fails);
        keep_first(alloc, &mut self.first, self.content.as_slice())?;
        do_write(alloc, &mut self.content, &mut self.steps, at, bytes, done)?;
        if fails {
            self.faults = self.faults.saturating_add(1);
            return Err(Or::Fault(Failed));
        }
        Ok(())
    }

    fn sync(&mut self, _alloc: Global) -> Result<(), Or<Failed>>
        ensures lasts { OnOk result (IsOnDisk (reads_of self.new) (LeavesNow self.new)) }
        ensures reads { reads_of self.new ≡ reads_of self.old }
        ensures crash { (c : List ℕ) → LeavesNow self.new c → LeavesNow self.old c }
        ensures time { Elapses (moment_of self.old) (moment_of self.new) (LeftSince self.old) (LeftSince self.new) (LeavesNow self.new) }
        ensures later { self.old.faults ≤ self.new.faults }
        ensures cause { IsFault result → Rose self.old.faults self.new.faults }
        ensures named { IsFault result ↔ IsTrue (sync_fails self.old) }
        ensures after { self.new ≡ after_sync self.old result }
    {
        let number = self.syncs;
        self.syncs = number.saturating_add(1);
        if self.fail_sync.contains(&number) {
            self.faults = self.faults.saturating_add(1);
            return Err(Or::Fault(Failed));
        }
        self.steps.push(Step::Sync)?;
        Ok(())
    }
}
