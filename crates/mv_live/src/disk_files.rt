//! The files of the system.
ghost use Rattle.std.specs.Prelude.{◌≡◌, ◌≤◌, ◌+◌, IfOk, None, length};

use mv_calls::{Bytes, Or};
use mv_outside::{Failed, Files, Found};
use std::alloc::Global;
use std::io::{self, Read};
use std::marker::Model;
use std::{fs, rt};

/// Reads and writes the files of the system. It tells nothing, and contracts see its count of faults.
#[derive(Drop)]
pub struct DiskFiles<'a, R: rt::Files> {
    system: &'a R,
    faults: u64,
}

impl<'a, R: rt::Files> Model for DiskFiles<'a, R> {
    ghost use Rattle.std.specs.Prelude.{ℕ};

    ghost Value = { ℕ };

    ghost view = { λ f. f.faults };
}

impl<'a, R: rt::Files> DiskFiles<'a, R> {
    /// The files that this runtime reaches.
    pub fn new(system: &'a R) -> DiskFiles<'a, R>
        ensures { result ≡ 0 }
    {
        DiskFiles { system, faults: 0 }
    }
}

impl<R: rt::Files> Files for DiskFiles<'_, R> {
    ghost content = { λ _. None };

    ghost faults = { λ f. f };

    fn read(&mut self, alloc: Global, path: &[u8], cap: usize) -> Found {
        match read_at(alloc, self.system, path, cap) {
            Ok(bytes) => Found::Bytes(bytes),
            Err(error) => match error.kind() {
                io::ErrorKind::NotFound => Found::Missing,
                io::ErrorKind::OutOfMemory => Found::Memory,
                _ => {
                    self.faults = self.faults.saturating_add(1);
                    Found::Failed
                }
            },
        }
    }

    fn write(&mut self, _alloc: Global, path: &[u8], bytes: &[u8]) -> Result<(), Or<Failed>> {
        match write_at(self.system, path, bytes) {
            Ok(()) => Ok(()),
            Err(_) => {
                self.faults = self.faults.saturating_add(1);
                Err(Or::Fault(Failed))
            }
        }
    }
}

/// The first `cap + 1` bytes of the file, or all where there are fewer.
fn read_at<R: rt::Files>(alloc: Global, system: &R, path: &[u8], cap: usize) -> io::Result<Bytes>
    ensures { IfOk result (λ bytes. length bytes ≤ cap + 1) }
{
    let most = cap.saturating_add(1);
    let file = fs::open(system, path_of(path)?)?;
    let mut bytes = Vec::new(alloc);
    file.take(most as u64).read_to_end(&mut bytes)?;
    bytes.truncate(most);
    Ok(Bytes::from_vec(bytes))
}

fn write_at<R: rt::Files>(system: &R, path: &[u8], bytes: &[u8]) -> io::Result<()> {
    fs::write(system, path_of(path)?, bytes)
}

/// A path is text. What isn't UTF-8 names no file that can be reached.
fn path_of(path: &[u8]) -> io::Result<&str> {
    match std::str::from_utf8(path) {
        Ok(text) => Ok(text),
        Err(_) => Err(io::Error::from(io::ErrorKind::InvalidInput)),
    }
}
