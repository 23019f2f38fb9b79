//! Reading calls and replies.
ghost use Rattle.std.specs.Prelude.{◌≡◌};
ghost use Rattle.mv_record.specs.Reading.{GivesField, accept_call_at, bytes_reply_at, call_at, clock_call_at, clock_sub_at, close_call_at, count_reply_at, errno_reply_at, fd_reply_at, fd_stat_call_at, happened_at, poll_call_at, random_call_at, read_call_at, read_sub_at, ready_reply_at, reply_at, shutdown_call_at, stat_reply_at, sub_at, time_reply_at, write_call_at, write_sub_at};

use crate::fault::BodyFault;
use crate::fields::{Field, byte_list_of, u8_at, u16_at, u32_at, u64_at};
use crate::lists::{happenings_of, subs_of};
use mv_calls::{Call, Happened, Or, Reply, Sub};
use std::alloc::Global;

#[tactic(auto, unfolding(crate::specs::Reading::clock_sub_at))]
fn clock_sub_of(bytes: &[u8]) -> Field<'_, Sub>
    ensures { GivesField result (clock_sub_at bytes.now) }
{
    let (id, rest) = u32_at(bytes)?;
    let (timeout, rest) = u64_at(rest)?;
    let (flags, rest) = u16_at(rest)?;
    Ok((Sub::Clock { id, timeout, flags }, rest))
}

#[tactic(auto, unfolding(crate::specs::Reading::read_sub_at))]
fn read_sub_of(bytes: &[u8]) -> Field<'_, Sub>
    ensures { GivesField result (read_sub_at bytes.now) }
{
    let (fd, rest) = u32_at(bytes)?;
    Ok((Sub::Read { fd }, rest))
}

#[tactic(auto, unfolding(crate::specs::Reading::write_sub_at))]
fn write_sub_of(bytes: &[u8]) -> Field<'_, Sub>
    ensures { GivesField result (write_sub_at bytes.now) }
{
    let (fd, rest) = u32_at(bytes)?;
    Ok((Sub::Write { fd }, rest))
}

/// Reads a subscription.
#[tactic(auto, unfolding(crate::specs::Reading::sub_at))]
pub(crate) fn sub_of(bytes: &[u8]) -> Field<'_, Sub>
    ensures { GivesField result (sub_at bytes.now) }
{
    let (code, rest) = u8_at(bytes)?;
    match code {
        0 => clock_sub_of(rest),
        1 => read_sub_of(rest),
        2 => write_sub_of(rest),
        _ => Err(Or::Fault(BodyFault::Code(bytes.len()))),
    }
}

/// Reads an event.
#[tactic(auto, unfolding(crate::specs::Reading::happened_at))]
pub(crate) fn happened_of(bytes: &[u8]) -> Field<'_, Happened>
    ensures { GivesField result (happened_at bytes.now) }
{
    let (sub, rest) = u32_at(bytes)?;
    let (error, rest) = u16_at(rest)?;
    let (nbytes, rest) = u64_at(rest)?;
    let (flags, rest) = u16_at(rest)?;
    Ok((
        Happened {
            sub,
            error,
            nbytes,
            flags,
        },
        rest,
    ))
}

#[tactic(auto, unfolding(crate::specs::Reading::clock_call_at))]
fn clock_call_of(bytes: &[u8]) -> Field<'_, Call>
    ensures { GivesField result (clock_call_at bytes.now) }
{
    let (id, rest) = u32_at(bytes)?;
    Ok((Call::Clock { id }, rest))
}

#[tactic(auto, unfolding(crate::specs::Reading::random_call_at))]
fn random_call_of(bytes: &[u8]) -> Field<'_, Call>
    ensures { GivesField result (random_call_at bytes.now) }
{
    let (len, rest) = u32_at(bytes)?;
    Ok((Call::Random { len }, rest))
}

#[tactic(auto, unfolding(crate::specs::Reading::read_call_at))]
fn read_call_of(bytes: &[u8]) -> Field<'_, Call>
    ensures { GivesField result (read_call_at bytes.now) }
{
    let (fd, rest) = u32_at(bytes)?;
    let (cap, rest) = u32_at(rest)?;
    Ok((Call::Read { fd, cap }, rest))
}

#[tactic(auto, unfolding(crate::specs::Reading::write_call_at))]
fn write_call_of(alloc: Global, bytes: &[u8]) -> Field<'_, Call>
    ensures { GivesField result (write_call_at bytes.now) }
{
    let (fd, rest) = u32_at(bytes)?;
    let (bytes, rest) = byte_list_of(alloc, rest)?;
    Ok((Call::Write { fd, bytes }, rest))
}

#[tactic(auto, unfolding(crate::specs::Reading::close_call_at))]
fn close_call_of(bytes: &[u8]) -> Field<'_, Call>
    ensures { GivesField result (close_call_at bytes.now) }
{
    let (fd, rest) = u32_at(bytes)?;
    Ok((Call::Close { fd }, rest))
}

#[tactic(auto, unfolding(crate::specs::Reading::fd_stat_call_at))]
fn fd_stat_call_of(bytes: &[u8]) -> Field<'_, Call>
    ensures { GivesField result (fd_stat_call_at bytes.now) }
{
    let (fd, rest) = u32_at(bytes)?;
    Ok((Call::FdStat { fd }, rest))
}

#[tactic(auto, unfolding(crate::specs::Reading::poll_call_at))]
fn poll_call_of(alloc: Global, bytes: &[u8]) -> Field<'_, Call>
    ensures { GivesField result (poll_call_at bytes.now) }
{
    let (subs, rest) = subs_of(alloc, bytes)?;
    Ok((Call::Poll { subs }, rest))
}

#[tactic(auto, unfolding(crate::specs::Reading::accept_call_at))]
fn accept_call_of(bytes: &[u8]) -> Field<'_, Call>
    ensures { GivesField result (accept_call_at bytes.now) }
{
    let (fd, rest) = u32_at(bytes)?;
    let (flags, rest) = u16_at(rest)?;
    Ok((Call::Accept { fd, flags }, rest))
}

#[tactic(auto, unfolding(crate::specs::Reading::shutdown_call_at))]
fn shutdown_call_of(bytes: &[u8]) -> Field<'_, Call>
    ensures { GivesField result (shutdown_call_at bytes.now) }
{
    let (fd, rest) = u32_at(bytes)?;
    let (how, rest) = u8_at(rest)?;
    Ok((Call::Shutdown { fd, how }, rest))
}

/// Reads a call.
#[tactic(auto, unfolding(crate::specs::Reading::call_at))]
pub(crate) fn call_of(alloc: Global, bytes: &[u8]) -> Field<'_, Call>
    ensures { GivesField result (call_at bytes.now) }
{
    let (code, rest) = u8_at(bytes)?;
    match code {
        0 => clock_call_of(rest),
        1 => random_call_of(rest),
        2 => read_call_of(rest),
        3 => write_call_of(alloc, rest),
        4 => close_call_of(rest),
        5 => fd_stat_call_of(rest),
        6 => Ok((Call::Yield, rest)),
        7 => poll_call_of(alloc, rest),
        8 => accept_call_of(rest),
        9 => shutdown_call_of(rest),
        _ => Err(Or::Fault(BodyFault::Code(bytes.len()))),
    }
}

#[tactic(auto, unfolding(crate::specs::Reading::errno_reply_at))]
fn errno_reply_of(bytes: &[u8]) -> Field<'_, Reply>
    ensures { GivesField result (errno_reply_at bytes.now) }
{
    let (errno, rest) = u16_at(bytes)?;
    Ok((Reply::Errno(errno), rest))
}

#[tactic(auto, unfolding(crate::specs::Reading::bytes_reply_at))]
fn bytes_reply_of(alloc: Global, bytes: &[u8]) -> Field<'_, Reply>
    ensures { GivesField result (bytes_reply_at bytes.now) }
{
    let (bytes, rest) = byte_list_of(alloc, bytes)?;
    Ok((Reply::Bytes(bytes), rest))
}

#[tactic(auto, unfolding(crate::specs::Reading::count_reply_at))]
fn count_reply_of(bytes: &[u8]) -> Field<'_, Reply>
    ensures { GivesField result (count_reply_at bytes.now) }
{
    let (count, rest) = u32_at(bytes)?;
    Ok((Reply::Count(count), rest))
}

#[tactic(auto, unfolding(crate::specs::Reading::fd_reply_at))]
fn fd_reply_of(bytes: &[u8]) -> Field<'_, Reply>
    ensures { GivesField result (fd_reply_at bytes.now) }
{
    let (fd, rest) = u32_at(bytes)?;
    Ok((Reply::Fd(fd), rest))
}

#[tactic(auto, unfolding(crate::specs::Reading::time_reply_at))]
fn time_reply_of(bytes: &[u8]) -> Field<'_, Reply>
    ensures { GivesField result (time_reply_at bytes.now) }
{
    let (time, rest) = u64_at(bytes)?;
    Ok((Reply::Time(time), rest))
}

#[tactic(auto, unfolding(crate::specs::Reading::stat_reply_at))]
fn stat_reply_of(bytes: &[u8]) -> Field<'_, Reply>
    ensures { GivesField result (stat_reply_at bytes.now) }
{
    let (filetype, rest) = u8_at(bytes)?;
    let (flags, rest) = u16_at(rest)?;
    let (rights, rest) = u64_at(rest)?;
    let (heirs, rest) = u64_at(rest)?;
    Ok((
        Reply::Stat {
            filetype,
            flags,
            rights,
            heirs,
        },
        rest,
    ))
}

#[tactic(auto, unfolding(crate::specs::Reading::ready_reply_at))]
fn ready_reply_of(alloc: Global, bytes: &[u8]) -> Field<'_, Reply>
    ensures { GivesField result (ready_reply_at bytes.now) }
{
    let (happenings, rest) = happenings_of(alloc, bytes)?;
    Ok((Reply::Ready(happenings), rest))
}

/// Reads a reply.
#[tactic(auto, unfolding(crate::specs::Reading::reply_at))]
pub(crate) fn reply_of(alloc: Global, bytes: &[u8]) -> Field<'_, Reply>
    ensures { GivesField result (reply_at bytes.now) }
{
    let (code, rest) = u8_at(bytes)?;
    match code {
        0 => errno_reply_of(rest),
        1 => Ok((Reply::Done, rest)),
        2 => bytes_reply_of(alloc, rest),
        3 => count_reply_of(rest),
        4 => fd_reply_of(rest),
        5 => time_reply_of(rest),
        6 => stat_reply_of(rest),
        7 => ready_reply_of(alloc, rest),
        _ => Err(Or::Fault(BodyFault::Code(bytes.len()))),
    }
}
