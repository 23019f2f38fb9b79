//! Equal calls and replies in places of their own.
ghost use Rattle.std.specs.Prelude.{◌≡◌, IfOk};
ghost use Rattle.mv_calls.specs.Places.{Holds, places_in};

use crate::bytes::Bytes;
use crate::calls::{Call, Item, Reply, suits};
use crate::fault::OutOfMemory;
use crate::happenings::Happenings;
use crate::room::Room;
use std::alloc::Global;

/// An equal call in a place of its own. The one error is want of memory.
pub fn copy_call(alloc: Global, call: &Call) -> Result<Call, OutOfMemory>
    ensures { IfOk result (λ copy. copy ≡ call.now) }
{
    match call {
        Call::Clock { id } => Ok(Call::Clock { id: *id }),
        Call::Random { len } => Ok(Call::Random { len: *len }),
        Call::Read { fd, cap } => Ok(Call::Read { fd: *fd, cap: *cap }),
        Call::Write { fd, bytes } => Ok(Call::Write {
            fd: *fd,
            bytes: bytes.copy(alloc)?,
        }),
        Call::Close { fd } => Ok(Call::Close { fd: *fd }),
        Call::FdStat { fd } => Ok(Call::FdStat { fd: *fd }),
        Call::Yield => Ok(Call::Yield),
        Call::Poll { subs } => Ok(Call::Poll {
            subs: subs.copy(alloc)?,
        }),
        Call::Accept { fd, flags } => Ok(Call::Accept {
            fd: *fd,
            flags: *flags,
        }),
        Call::Shutdown { fd, how } => Ok(Call::Shutdown { fd: *fd, how: *how }),
    }
}

/// An equal reply in the place `into`, which is large enough: it is, if it was made for a call that
/// the reply suits ([`suits`](crate::suits) says so). This takes no memory.
pub fn copy_reply(reply: &Reply, into: Room) -> Reply
    requires { Holds into (places_in reply.now) }
    ensures { result ≡ reply.now }
{
    match reply {
        Reply::Errno(errno) => Reply::Errno(*errno),
        Reply::Done => Reply::Done,
        Reply::Bytes(bytes) => {
            let mut copy = into.bytes();
            let _ = copy.extend_from_slice(bytes.slice());
            Reply::Bytes(Bytes::from_vec(copy))
        }
        Reply::Count(count) => Reply::Count(*count),
        Reply::Fd(fd) => Reply::Fd(*fd),
        Reply::Time(time) => Reply::Time(*time),
        Reply::Stat {
            filetype,
            flags,
            rights,
            heirs,
        } => Reply::Stat {
            filetype: *filetype,
            flags: *flags,
            rights: *rights,
            heirs: *heirs,
        },
        Reply::Ready(happenings) => {
            let mut copy = into.events();
            let _ = copy.extend_from_slice(happenings.slice());
            Reply::Ready(Happenings::from_vec(copy))
        }
    }
}

/// An equal item in a place of its own. The one error is want of memory.
pub fn copy_item(alloc: Global, item: &Item) -> Result<Item, OutOfMemory>
    ensures { IfOk result (λ copy. copy ≡ item.now) }
{
    let _ = suits(&item.call, &item.reply);
    let room = Room::make(alloc, &item.call)?;
    let call = copy_call(alloc, &item.call)?;
    Ok(Item {
        call,
        reply: copy_reply(&item.reply, room),
    })
}
