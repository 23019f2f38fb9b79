//! Writing calls and replies.
ghost use Rattle.std.specs.Prelude.{◌≡◌, ◌++◌, OnOk};
ghost use Rattle.mv_record.specs.Spelling.{call_text, happened_text, reply_text, sub_text};
ghost use Rattle.mv_record.specs.Fitting.{FitsCall, FitsHappened, FitsReply, FitsSub};

use crate::putting::{put_byte_list, put_happenings, put_subs, put_u8, put_u16, put_u32, put_u64};
use mv_calls::{Call, Happened, OutOfMemory, Reply, Sub};

/// Writes a subscription.
pub(crate) fn put_sub(out: &mut Vec<u8>, value: Sub) -> Result<(), OutOfMemory>
    ensures fits { OnOk result (FitsSub value) }
    ensures text { OnOk result (out.new.items ≡ out.old.items ++ sub_text value) }
{
    match value {
        Sub::Clock { id, timeout, flags } => {
            put_u8(out, 0)?;
            put_u32(out, id)?;
            put_u64(out, timeout)?;
            put_u16(out, flags)
        }
        Sub::Read { fd } => {
            put_u8(out, 1)?;
            put_u32(out, fd)
        }
        Sub::Write { fd } => {
            put_u8(out, 2)?;
            put_u32(out, fd)
        }
    }
}

/// Writes an event.
pub(crate) fn put_happened(out: &mut Vec<u8>, value: Happened) -> Result<(), OutOfMemory>
    ensures fits { OnOk result (FitsHappened value) }
    ensures text { OnOk result (out.new.items ≡ out.old.items ++ happened_text value) }
{
    put_u32(out, value.sub)?;
    put_u16(out, value.error)?;
    put_u64(out, value.nbytes)?;
    put_u16(out, value.flags)
}

/// Writes a call.
pub(crate) fn put_call(out: &mut Vec<u8>, value: &Call) -> Result<(), OutOfMemory>
    ensures fits { OnOk result (FitsCall value.now) }
    ensures text { OnOk result (out.new.items ≡ out.old.items ++ call_text value.now) }
{
    match value {
        Call::Clock { id } => {
            put_u8(out, 0)?;
            put_u32(out, *id)
        }
        Call::Random { len } => {
            put_u8(out, 1)?;
            put_u32(out, *len)
        }
        Call::Read { fd, cap } => {
            put_u8(out, 2)?;
            put_u32(out, *fd)?;
            put_u32(out, *cap)
        }
        Call::Write { fd, bytes } => {
            put_u8(out, 3)?;
            put_u32(out, *fd)?;
            put_byte_list(out, bytes.slice())
        }
        Call::Close { fd } => {
            put_u8(out, 4)?;
            put_u32(out, *fd)
        }
        Call::FdStat { fd } => {
            put_u8(out, 5)?;
            put_u32(out, *fd)
        }
        Call::Yield => put_u8(out, 6),
        Call::Poll { subs } => {
            put_u8(out, 7)?;
            put_subs(out, subs.slice())
        }
        Call::Accept { fd, flags } => {
            put_u8(out, 8)?;
            put_u32(out, *fd)?;
            put_u16(out, *flags)
        }
        Call::Shutdown { fd, how } => {
            put_u8(out, 9)?;
            put_u32(out, *fd)?;
            put_u8(out, *how)
        }
    }
}

/// Writes a reply.
pub(crate) fn put_reply(out: &mut Vec<u8>, value: &Reply) -> Result<(), OutOfMemory>
    ensures fits { OnOk result (FitsReply value.now) }
    ensures text { OnOk result (out.new.items ≡ out.old.items ++ reply_text value.now) }
{
    match value {
        Reply::Errno(errno) => {
            put_u8(out, 0)?;
            put_u16(out, *errno)
        }
        Reply::Done => put_u8(out, 1),
        Reply::Bytes(bytes) => {
            put_u8(out, 2)?;
            put_byte_list(out, bytes.slice())
        }
        Reply::Count(count) => {
            put_u8(out, 3)?;
            put_u32(out, *count)
        }
        Reply::Fd(fd) => {
            put_u8(out, 4)?;
            put_u32(out, *fd)
        }
        Reply::Time(time) => {
            put_u8(out, 5)?;
            put_u64(out, *time)
        }
        Reply::Stat {
            filetype,
            flags,
            rights,
            heirs,
        } => {
            put_u8(out, 6)?;
            put_u8(out, *filetype)?;
            put_u16(out, *flags)?;
            put_u64(out, *rights)?;
            put_u64(out, *heirs)
        }
        Reply::Ready(happenings) => {
            put_u8(out, 7)?;
            put_happenings(out, happenings.slice())
        }
    }
}
