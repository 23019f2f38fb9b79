//! Error numbers of WASI preview 1 (`errno`).
ghost use Rattle.std.specs.Prelude.{◌<◌};

use std::io;

/// What was asked for would have to be waited for.
pub(crate) const AGAIN: u16 = 6;

/// No such descriptor, or no call for it.
pub(crate) const BADF: u16 = 8;

/// A value that the call doesn't know.
pub(crate) const INVAL: u16 = 28;

/// An error of input or output.
pub(crate) const IO: u16 = 29;

/// The number for an error of a stream: whether it would have to be waited for, or something else.
pub(crate) fn errno_of(error: &io::Error) -> u16
    ensures { 0 < result }
{
    match error.kind() {
        io::ErrorKind::WouldBlock => AGAIN,
        _ => IO,
    }
}
