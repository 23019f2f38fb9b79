//! Objects in memory for the tests of the program, each of which fails where a test says so.

use mv_calls::{Bytes, Texts};
use mv_kernmem::{Conn, Conns, MemKernel, Numbers, Script};
use mv_outside::{FileAt, MemConsole, MemFiles, paths_differ};
use mv_text::assemble;
use mv_writer::write_module;
use std::alloc::{AllocError, Global};
use std::process::Abort;
use std::test::Fail;

/// The numbers, from 0, of a kernel's call, a look and a reply of the console, a read of a file and a call of the sink that fail.
#[derive(Clone, Copy)]
pub(crate) struct Failing {
    pub(crate) call: Option<u64>,
    pub(crate) look: Option<u64>,
    pub(crate) reply: Option<u64>,
    pub(crate) read: Option<u64>,
    pub(crate) print: Option<u64>,
}

/// Nothing fails.
pub(crate) const NOTHING: Failing = Failing {
    call: None,
    look: None,
    reply: None,
    read: None,
    print: None,
};

/// The number as a list.
pub(crate) fn list(alloc: Global, number: Option<u64>) -> Result<Vec<u64>, AllocError> {
    let mut numbers = Vec::new(alloc);
    if let Some(number) = number {
        numbers.push(number)?;
    }
    Ok(numbers)
}

/// These words, owned.
pub(crate) fn texts(alloc: Global, words: &[&str]) -> Result<Vec<String>, AllocError> {
    let mut all = Vec::new(alloc);
    for word in words {
        all.push(String::from_str(alloc, word)?)?;
    }
    Ok(all)
}

/// These files; the read of this number fails.
pub(crate) fn files(
    rt: &impl Abort,
    alloc: Global,
    named: &[(&str, &[u8])],
    read: Option<u64>,
) -> Result<MemFiles, Fail> {
    let mut all = Vec::new(alloc);
    for (path, bytes) in named {
        all.push(FileAt {
            path: Bytes::from_slice(alloc, path.as_bytes())?,
            bytes: Bytes::from_slice(alloc, bytes)?,
        })?;
    }
    assert!(rt; paths_differ(all.as_slice()));
    Ok(MemFiles::new(all, list(alloc, read)?, Vec::new(alloc)))
}

/// The operator says these lines at the looks of these numbers, from 0. The look and the reply of these numbers fail.
pub(crate) fn console(
    alloc: Global,
    orders: &[(usize, &str)],
    look: Option<u64>,
    reply: Option<u64>,
) -> Result<MemConsole, Fail> {
    let mut lines = Vec::new(alloc);
    for (look, line) in orders {
        for _ in lines.len()..*look {
            lines.push(None)?;
        }
        lines.push(Some(Bytes::from_slice(alloc, line.as_bytes())?))?;
    }
    Ok(MemConsole::new(alloc, lines, list(alloc, look)?, list(alloc, reply)?))
}

/// A kernel with one connection, over which these pieces come, and then its end; none where there is no piece. The call of this
/// number fails.
pub(crate) fn kernel(
    alloc: Global,
    pieces: &[&[u8]],
    perform: Option<u64>,
) -> Result<MemKernel, Fail> {
    let mut conns = Vec::new(alloc);
    if !pieces.is_empty() {
        let mut texts = Vec::new(alloc);
        for piece in pieces {
            texts.push(Bytes::from_slice(alloc, piece)?)?;
        }
        conns.push(Conn {
            pieces: Texts::from_vec(texts),
            ends: true,
        })?;
    }
    let script = Script {
        conns: Conns::from_vec(conns),
        clock: Numbers::from_vec(Vec::new(alloc)),
        random: Bytes::from_vec(Vec::new(alloc)),
        fail: Numbers::from_vec(list(alloc, perform)?),
    };
    Ok(MemKernel::new(alloc, script)?)
}

/// The file of the module of a text.
pub(crate) fn module_of(alloc: Global, text: &[u8]) -> Result<Vec<u8>, Fail> {
    let module = assemble(alloc, text)?;
    Ok(write_module(alloc, &module)?)
}
