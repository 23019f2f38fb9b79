//! The program's own objects: the files of the system, and a sink over a writer.

use crate::disk_files::DiskFiles;
use crate::writer_sink::WriterSink;
use mv_calls::Bytes;
use mv_outside::{Files, Found, Sink};
use std::test::Fail;
use std::{env, fs, io, process};

/// The bytes that a read found, if it found any.
fn bytes_of(found: Found) -> Option<Bytes> {
    match found {
        Found::Bytes(bytes) => Some(bytes),
        _ => None,
    }
}

#[test]
fn a_file_is_written_and_read_up_to_a_byte_past_the_cap(rt: HostRuntime) -> Result<(), Fail> {
    let alloc = rt.alloc();
    let directory = env::temp_dir(&rt)?;
    let number = process::id(rt.process());
    let path = format!(in alloc; "{}/mv_files_{number}", directory.display())?;
    let mut files = DiskFiles::new(&rt);
    assert!(rt;
        files
            .write(alloc, path.as_bytes(), b"some longer text")
            .is_ok()
    );
    assert!(rt; files.write(alloc, path.as_bytes(), b"0123456789").is_ok());
    for (cap, want) in [
        (0, b"0".as_slice()),
        (4, b"01234".as_slice()),
        (9, b"0123456789".as_slice()),
        (16, b"0123456789".as_slice()),
    ] {
        let read = bytes_of(files.read(alloc, path.as_bytes(), cap)).ok_or("bytes")?;
        assert!(rt; read.slice() == want);
    }
    fs::remove_file(&rt, path.as_str())?;
    assert!(rt; matches!(files.read(alloc, path.as_bytes(), 16), Found::Missing));
    Ok(())
}

#[test]
fn what_is_no_file_fails(rt: HostRuntime) -> Result<(), Fail> {
    let alloc = rt.alloc();
    let mut files = DiskFiles::new(&rt);
    // A directory, and a path that isn't UTF-8.
    for path in [b".".as_slice(), b"\xff".as_slice()] {
        assert!(rt; matches!(files.read(alloc, path, 16), Found::Failed));
        assert!(rt; files.write(alloc, path, b"text").is_err());
    }
    assert!(rt; files.write(alloc, b"no/such/file", b"text").is_err());
    Ok(())
}

/// A writer that takes one byte at a time, and so many in all.
#[derive(Drop)]
struct Narrow {
    left: usize,
}

impl io::Write for Narrow {
    fn write(&mut self, bytes: &[u8]) -> io::Result<usize> {
        if bytes.is_empty() {
            return Ok(0);
        }
        if self.left == 0 {
            return Err(io::Error::from(io::ErrorKind::BrokenPipe));
        }
        self.left = self.left.saturating_sub(1);
        Ok(1)
    }

    fn flush(&mut self) -> io::Result<()> {
        Ok(())
    }
}

#[test]
fn a_sink_fails_where_its_writer_does(rt: HostRuntime) -> Result<(), Fail> {
    let mut sink = WriterSink::new(Narrow { left: 10 });
    assert!(rt; sink.write_all_of(rt.alloc(), b"ended 0\n").is_ok());
    // Its third byte isn't taken.
    assert!(rt; sink.write_all_of(rt.alloc(), b"cut\n").is_err());
    assert!(rt; sink.write_all_of(rt.alloc(), b"").is_ok());
    Ok(())
}
