//! Reads and writes of one stream, as replies.
ghost use Rattle.std.specs.Prelude.{IsTrue};
ghost use Rattle.mv_calls.specs.Suits.{suits_of};
ghost use Rattle.mv_calls.specs.declared.calls.Call.TheVariants.{Read as read_call, Write as write_call};

use crate::errno::{IO, errno_of};
use mv_calls::{Bytes, Reply};
use std::io::{Read, Write};

/// Reads at most `cap` bytes, in one read, into the place, which has room for as many. No bytes come
/// at the end of the stream.
pub(crate) fn read_reply<S: Read>(from: &mut S, cap: u32, place: Vec<u8>) -> Reply
    ensures { (fd : _) → IsTrue (suits_of (read_call fd cap) result) }
{
    let mut bytes = place;
    if bytes.resize(cap as usize, 0).is_err() {
        return Reply::Errno(IO);
    }
    match from.read(bytes.as_mut_slice()) {
        Ok(count) => {
            bytes.truncate(count);
            Reply::Bytes(Bytes::from_vec(bytes))
        }
        Err(error) => Reply::Errno(errno_of(&error)),
    }
}

/// Offers the bytes in one write, and says how many were taken.
pub(crate) fn write_reply<S: Write>(to: &mut S, bytes: &Bytes) -> Reply
    ensures { (fd : _) → IsTrue (suits_of (write_call fd bytes.now) result) }
{
    match to.write(bytes.slice()) {
        Ok(count) => match u32::try_from(count) {
            Ok(count) => Reply::Count(count),
            Err(_) => Reply::Errno(IO),
        },
        Err(error) => Reply::Errno(errno_of(&error)),
    }
}
