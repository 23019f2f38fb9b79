//! Files in memory.
ghost use Rattle.std.specs.Prelude.{◌≡◌, ◌≢◌, ◌≤◌, ◌+◌, ◌↔◌, ℕ, List, IsTrue, Some, OnOk, OnErr, length, take};
ghost use Rattle.std.specs.Option.{option_copied};
ghost use Rattle.std.specs.List.{position_or_len};
ghost use Rattle.mv_calls.specs.Or.{IsFault, WantsMemory};
ghost use Rattle.mv_outside.specs.Causes.{Rose};
ghost use Rattle.mv_outside.specs.Files.{Finds, IfBytes, HasFile, ChangesOnly};
ghost use Rattle.mv_outside.specs.MemFiles.{FilesState, file_at, is_at, do_paths_differ, HoldsGiven, ChangesFile, emptied, read_fails, write_fails, after_read, after_write};

use crate::fault::Failed;
use crate::files::{Files, Found};
use mv_calls::{Bytes, Or, OutOfMemory};
use std::alloc::Global;
use std::marker::Model;

/// One file: its path and its whole content.
#[derive(Debug, Drop)]
pub struct FileAt {
    pub path: Bytes,
    pub bytes: Bytes,
}

/// Keeps files in memory. Contracts see all that it holds.
#[derive(Debug, Drop)]
pub struct MemFiles {
    files: Vec<FileAt>,
    reads: u64,
    writes: u64,
    fail_read: Vec<u64>,
    fail_write: Vec<u64>,
    faults: u64,
}

impl Model for MemFiles {
    ghost use Rattle.mv_outside.specs.MemFiles.{FilesState};

    ghost Value = { FilesState };

    ghost view = { λ f. record { files = f.files.items; reads = f.reads; writes = f.writes; fail_read = f.fail_read.items; fail_write = f.fail_write.items; faults = f.faults } };
}

/// Where the file of this path stands in the list, or the list's length where there is none.
fn place_of(files: &[FileAt], path: &[u8]) -> usize
    ensures { result ≡ position_or_len (is_at path.now) files.now }
{
    let mut next = 0;
    while next < files.len() {
        if files[next].path.slice() == path {
            return next;
        }
        next += 1;
    }
    next
}

/// Whether no two of the files have one path.
pub fn paths_differ(files: &[FileAt]) -> bool
    ensures { result ≡ do_paths_differ files.now }
{
    let mut next = 0;
    while next < files.len() {
        let (_, rest) = files.split_at(next + 1);
        if place_of(rest, files[next].path.slice()) < rest.len() {
            return false;
        }
        next += 1;
    }
    true
}

impl MemFiles {
    /// These files, no two of one path ([`paths_differ`] tells). The p-th `read` and the p-th `write`, from 0, fail where p is
    /// in their list.
    pub fn new(files: Vec<FileAt>, fail_read: Vec<u64>, fail_write: Vec<u64>) -> MemFiles
        requires { IsTrue (do_paths_differ files.items) }
        ensures state { result ≡ record { files = files.items; reads = 0; writes = 0; fail_read = fail_read.items; fail_write = fail_write.items; faults = 0 } }
        ensures given { HoldsGiven files.items (file_at result.files) }
    {
        MemFiles {
            files,
            reads: 0,
            writes: 0,
            fail_read,
            fail_write,
            faults: 0,
        }
    }

    /// What stands at the path, or `None` where no file does.
    pub fn content(&self, path: &[u8]) -> Option<&[u8]>
        ensures { option_copied result ≡ file_at self.now.files path.now }
    {
        let place = place_of(self.files.as_slice(), path);
        if place < self.files.len() {
            Some(self.files[place].bytes.slice())
        } else {
            None
        }
    }
}

/// The first `cap + 1` bytes, or all where there are fewer.
fn first_part(bytes: &[u8], cap: usize) -> &[u8]
    ensures { result.now ≡ take (cap + 1) bytes.now }
{
    if cap < bytes.len() {
        &bytes[..cap + 1]
    } else {
        bytes
    }
}

/// What a read of the path finds in the list.
fn found_at(alloc: Global, files: &[FileAt], path: &[u8], cap: usize) -> Found
    ensures found { Finds (Some (file_at files.now)) path.now cap result }
    ensures short { IfBytes result (λ bytes. length bytes ≤ cap + 1) }
    ensures fine { result ≢ Found.Failed }
{
    let place = place_of(files, path);
    if place >= files.len() {
        return Found::Missing;
    }
    match Bytes::from_slice(alloc, first_part(files[place].bytes.slice(), cap)) {
        Ok(bytes) => Found::Bytes(bytes),
        Err(OutOfMemory) => Found::Memory,
    }
}

/// Empties the file of this path, if there is one.
fn clear(alloc: Global, files: &mut Vec<FileAt>, path: &[u8])
    ensures here { file_at files.new.items path.now ≡ emptied (file_at files.old.items path.now) }
    ensures others { ChangesFile files.old.items path.now files.new.items }
{
    let place = place_of(files.as_slice(), path);
    if place < files.len() {
        files[place].bytes = Bytes::from_vec(Vec::new(alloc));
    }
}

/// Makes these bytes the content of the file of this path. The one error is want of memory, which
/// leaves all files as they were.
fn put(alloc: Global, files: &mut Vec<FileAt>, path: &[u8], bytes: &[u8]) -> Result<(), OutOfMemory>
    ensures here { OnOk result (file_at files.new.items path.now ≡ Some bytes.now) }
    ensures others { ChangesFile files.old.items path.now files.new.items }
    ensures memory { OnErr result (files.new.items ≡ files.old.items) }
{
    let bytes = Bytes::from_slice(alloc, bytes)?;
    let place = place_of(files.as_slice(), path);
    if place < files.len() {
        files[place].bytes = bytes;
        return Ok(());
    }
    let path = Bytes::from_slice(alloc, path)?;
    files.push(FileAt { path, bytes })?;
    Ok(())
}

impl Files for MemFiles {
    ghost use Rattle.std.specs.Prelude.{Some};
    ghost use Rattle.mv_outside.specs.MemFiles.{file_at};

    ghost content = { λ f. Some (file_at f.files) };

    ghost faults = { λ f. f.faults };

    fn read(&mut self, alloc: Global, path: &[u8], cap: usize) -> Found
        ensures found { Finds (Some (file_at self.old.files)) path.now cap result }
        ensures short { IfBytes result (λ bytes. length bytes ≤ cap + 1) }
        ensures same { Some (file_at self.new.files) ≡ Some (file_at self.old.files) }
        ensures later { self.old.faults ≤ self.new.faults }
        ensures cause { result ≡ Found.Failed → Rose self.old.faults self.new.faults }
        // It fails exactly at the calls that are named.
        ensures named { (result ≡ Found.Failed) ↔ IsTrue (read_fails self.old) }
        ensures after { self.new ≡ after_read self.old }
    {
        let number = self.reads;
        self.reads = number.saturating_add(1);
        if self.fail_read.contains(&number) {
            self.faults = self.faults.saturating_add(1);
            return Found::Failed;
        }
        found_at(alloc, self.files.as_slice(), path, cap)
    }

    /// Where it fails, a file of this path that was there is empty.
    fn write(&mut self, alloc: Global, path: &[u8], bytes: &[u8]) -> Result<(), Or<Failed>>
        ensures written { OnOk result (HasFile (Some (file_at self.new.files)) path.now bytes.now) }
        ensures others { ChangesOnly (Some (file_at self.old.files)) path.now (Some (file_at self.new.files)) }
        ensures memory { WantsMemory result → Some (file_at self.new.files) ≡ Some (file_at self.old.files) }
        ensures later { self.old.faults ≤ self.new.faults }
        ensures cause { IsFault result → Rose self.old.faults self.new.faults }
        // It fails exactly at the calls that are named.
        ensures named { IsFault result ↔ IsTrue (write_fails self.old) }
        ensures failed { IsFault result → file_at self.new.files path.now ≡ emptied (file_at self.old.files path.now) }
        ensures after { self.new ≡ after_write self.old self.new.files }
    {
        let number = self.writes;
        self.writes = number.saturating_add(1);
        if self.fail_write.contains(&number) {
            self.faults = self.faults.saturating_add(1);
            clear(alloc, &mut self.files, path);
            return Err(Or::Fault(Failed));
        }
        put(alloc, &mut self.files, path, bytes)?;
        Ok(())
    }
}
