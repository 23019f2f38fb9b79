//! Both objects where something fails: an address that is taken, a stream that would wait or is broken, an operator who goes away.

use super::{LOOKS, answer, errno, errno_of, free_address, hears, polls, writes};
use crate::{NetConsole, NetKernel};
use mv_calls::{Bytes, Call, OutOfMemory, Reply, Room, Sub};
use mv_outside::{Console, Kernel, Line};
use std::alloc::Global;
use std::io::{self, Read, Write};
use std::net::{Net, OpenStream, TcpListener, TcpStream};
use std::test::Fail;
use std::thread;
use std::time::{Clock, Duration, Instant};

/// A stream whose calls all fail so.
#[derive(Drop)]
struct Fails(io::ErrorKind);

impl Read for Fails {
    fn read(&mut self, _into: &mut [u8]) -> io::Result<usize> {
        Err(io::Error::from(self.0))
    }
}

impl Write for Fails {
    fn write(&mut self, _bytes: &[u8]) -> io::Result<usize> {
        Err(io::Error::from(self.0))
    }

    fn flush(&mut self) -> io::Result<()> {
        Err(io::Error::from(self.0))
    }
}

/// A kernel whose input and error output are broken, and whose output would wait.
fn kernel_at<'a, R: Net>(
    rt: &'a R,
    alloc: Global,
    address: &str,
) -> Result<NetKernel<'a, R, Fails, Fails, Fails>, OutOfMemory> {
    let place = Bytes::from_slice(alloc, address.as_bytes())?;
    Ok(NetKernel::new(
        alloc,
        rt,
        place,
        Fails(io::ErrorKind::BrokenPipe),
        Fails(io::ErrorKind::WouldBlock),
        Fails(io::ErrorKind::BrokenPipe),
    ))
}

fn console_at<'a, R: Net>(
    rt: &'a R,
    alloc: Global,
    address: &str,
) -> Result<NetConsole<'a, R>, OutOfMemory> {
    let place = Bytes::from_slice(alloc, address.as_bytes())?;
    Ok(NetConsole::new(alloc, rt, place))
}

fn accept() -> Call {
    Call::Accept { fd: 3, flags: 0 }
}

fn read(fd: u32) -> Call {
    Call::Read { fd, cap: 8 }
}

fn write(alloc: Global, fd: u32, len: usize) -> Result<Call, OutOfMemory> {
    let mut bytes = Vec::new(alloc);
    bytes.resize(len, 0)?;
    Ok(Call::Write {
        fd,
        bytes: Bytes::from_vec(bytes),
    })
}

/// The first errno that differs from the one of the same call's first answers, within a second or so.
fn errno_after<R: Clock, K: Kernel>(
    rt: &R,
    alloc: Global,
    kernel: &mut K,
    call: &Call,
    first: Option<u16>,
) -> Result<Option<u16>, OutOfMemory> {
    for _ in 0..LOOKS {
        kernel.ready(alloc, call)?;
        let room = Room::make(alloc, call)?;
        let found = errno_of(kernel.perform(call, room).ok());
        if found != first {
            return Ok(found);
        }
        thread::sleep(rt, Duration::from_millis(1));
    }
    Ok(first)
}

/// The errno of a write of so many bytes, after writes that are taken.
fn errno_of_write<R: Clock, K: Kernel>(
    rt: &R,
    alloc: Global,
    kernel: &mut K,
    fd: u32,
    len: usize,
) -> Result<Option<u16>, OutOfMemory> {
    let call = write(alloc, fd, len)?;
    errno_after(rt, alloc, kernel, &call, None)
}

/// A client of the kernel, whose end of the connection has the next descriptor.
fn client<R: Net, K: Kernel>(
    rt: &R,
    alloc: Global,
    kernel: &mut K,
    address: &str,
) -> Result<R::Stream, Fail> {
    answer(alloc, kernel, accept())?;
    let client = TcpStream::connect(rt, address)?;
    polls(alloc, kernel, Sub::Read { fd: 3 }, Some((0, 1)))?;
    answer(alloc, kernel, accept())?;
    Ok(client)
}

/// Whether the kernel fails at each kind of call that needs the listener.
fn has_no_listener<K: Kernel>(alloc: Global, kernel: &mut K) -> Result<bool, OutOfMemory> {
    let accepts = answer(alloc, kernel, accept())?.is_some();
    let tells = answer(alloc, kernel, Call::FdStat { fd: 3 })?.is_some();
    Ok(!accepts && !tells && !polls(alloc, kernel, Sub::Read { fd: 3 }, None)?)
}

/// Whether another can bind the address, and the kernel fails then.
fn fails_beside_another<R: Net, K: Kernel>(
    rt: &R,
    alloc: Global,
    kernel: &mut K,
    address: &str,
) -> Result<bool, Fail> {
    let _other = TcpListener::bind(rt, address)?;
    Ok(has_no_listener(alloc, kernel)?)
}

#[test]
fn a_listener_is_bound_at_the_first_call_that_needs_it(rt: HostRuntime) -> Result<(), Fail> {
    let alloc = rt.alloc();
    let address = free_address(&rt, alloc)?;
    let mut kernel = kernel_at(&rt, alloc, address.as_str())?;
    assert!(rt; fails_beside_another(&rt, alloc, &mut kernel, address.as_str())?);
    assert_eq!(rt; errno(alloc, &mut kernel, accept())?, Some(6));
    Ok(())
}

/// A client that closes while bytes wait there unread, which resets the connection.
fn reset<R: Net, K: Kernel>(
    rt: &R,
    alloc: Global,
    kernel: &mut K,
    address: &str,
    fd: u32,
) -> Result<bool, Fail> {
    let client = client(rt, alloc, kernel, address)?;
    let wrote = writes(alloc, kernel, fd, b"unread")?;
    Ok(wrote && client.peek(&mut [0])? == 1)
}

/// The errno of the read of a connection that is reset.
fn errno_of_reset<R: Net + Clock, K: Kernel>(
    rt: &R,
    alloc: Global,
    kernel: &mut K,
    address: &str,
) -> Result<Option<u16>, Fail> {
    if !reset(rt, alloc, kernel, address, 4)? {
        return Ok(None);
    }
    Ok(errno_after(rt, alloc, kernel, &read(4), Some(6))?)
}

/// Whether a poll tells that a connection is reset.
fn polls_a_reset<R: Net, K: Kernel>(
    rt: &R,
    alloc: Global,
    kernel: &mut K,
    address: &str,
) -> Result<bool, Fail> {
    let is_reset = reset(rt, alloc, kernel, address, 5)?;
    let is_told = polls(alloc, kernel, Sub::Read { fd: 5 }, Some((29, 0)))?;
    Ok(is_reset && is_told)
}

#[test]
fn a_connection_that_is_reset_is_errno_29(rt: HostRuntime) -> Result<(), Fail> {
    let alloc = rt.alloc();
    let address = free_address(&rt, alloc)?;
    let mut kernel = kernel_at(&rt, alloc, address.as_str())?;
    assert_eq!(rt;
        errno_of_reset(&rt, alloc, &mut kernel, address.as_str())?,
        Some(29)
    );
    assert!(rt; polls_a_reset(&rt, alloc, &mut kernel, address.as_str())?);
    Ok(())
}

/// The errno of a write to a client that reads nothing, so that in the end no more is taken.
fn errno_of_full<R: Net + Clock, K: Kernel>(
    rt: &R,
    alloc: Global,
    kernel: &mut K,
    address: &str,
) -> Result<Option<u16>, Fail> {
    let _client = client(rt, alloc, kernel, address)?;
    Ok(errno_of_write(rt, alloc, kernel, 4, 65_536)?)
}

/// The errno of a write to a client that has closed.
fn errno_of_closed<R: Net + Clock, K: Kernel>(
    rt: &R,
    alloc: Global,
    kernel: &mut K,
    address: &str,
) -> Result<Option<u16>, Fail> {
    drop(client(rt, alloc, kernel, address)?);
    Ok(errno_of_write(rt, alloc, kernel, 5, 2)?)
}

#[test]
fn a_write_is_errno_6_where_it_would_wait_and_29_to_nobody(rt: HostRuntime) -> Result<(), Fail> {
    let alloc = rt.alloc();
    let address = free_address(&rt, alloc)?;
    let mut kernel = kernel_at(&rt, alloc, address.as_str())?;
    assert_eq!(rt;
        errno_of_full(&rt, alloc, &mut kernel, address.as_str())?,
        Some(6)
    );
    assert_eq!(rt;
        errno_of_closed(&rt, alloc, &mut kernel, address.as_str())?,
        Some(29)
    );
    Ok(())
}

/// How many milliseconds a poll takes that finds nothing; none where it finds something.
fn time_of_poll<R: Clock, K: Kernel>(
    rt: &R,
    alloc: Global,
    kernel: &mut K,
) -> Result<Option<u128>, Fail> {
    let began = Instant::now(rt)?;
    if !polls(alloc, kernel, Sub::Read { fd: 3 }, None)? {
        return Ok(None);
    }
    Ok(Some(began.elapsed(rt)?.as_millis()))
}

#[test]
fn a_poll_ends_after_a_hundred_looks(rt: HostRuntime) -> Result<(), Fail> {
    let alloc = rt.alloc();
    let address = free_address(&rt, alloc)?;
    let mut kernel = kernel_at(&rt, alloc, address.as_str())?;
    // A hundred pauses of about a millisecond, on a machine that may be busy.
    assert!(rt; matches!(time_of_poll(&rt, alloc, &mut kernel)?, Some(90..=29_999)));
    Ok(())
}

/// Whether the other calls of a descriptor that isn't open are errno 8.
fn is_unknown<K: Kernel>(alloc: Global, kernel: &mut K, fd: u32) -> Result<bool, OutOfMemory> {
    let close = errno(alloc, kernel, Call::Close { fd })?;
    let shutdown = errno(alloc, kernel, Call::Shutdown { fd, how: 3 })?;
    let stat = errno(alloc, kernel, Call::FdStat { fd })?;
    let accept = errno(alloc, kernel, Call::Accept { fd, flags: 0 })?;
    Ok([close, shutdown, stat, accept] == [Some(8); 4])
}

#[test]
fn errors_of_streams_and_descriptors_are_told(rt: HostRuntime) -> Result<(), Fail> {
    let alloc = rt.alloc();
    let mut kernel = kernel_at(&rt, alloc, "no address")?;
    for (fd, want) in [(0, 29), (1, 8), (4, 8)] {
        assert_eq!(rt; errno(alloc, &mut kernel, read(fd))?, Some(want));
    }
    for (fd, want) in [(1, 6), (2, 29), (3, 8)] {
        assert_eq!(rt; errno_of_write(&rt, alloc, &mut kernel, fd, 2)?, Some(want));
    }
    assert!(rt; is_unknown(alloc, &mut kernel, 4)?);
    Ok(())
}

#[test]
fn a_console_at_a_taken_address_is_closed_for_good(rt: HostRuntime) -> Result<(), Fail> {
    let alloc = rt.alloc();
    let address = free_address(&rt, alloc)?;
    let mut console = console_at(&rt, alloc, address.as_str())?;
    let other = TcpListener::bind(&rt, address.as_str())?;
    assert!(rt; matches!(console.next(alloc), Line::Failed));
    drop(other);
    assert!(rt; matches!(console.next(alloc), Line::Closed));
    Ok(())
}

/// Whether nothing comes in a few looks.
fn is_idle<C: Console>(alloc: Global, console: &mut C) -> bool {
    for _ in 0..9 {
        if !matches!(console.next(alloc), Line::Idle) {
            return false;
        }
    }
    true
}

/// An operator who sends this.
fn operator<R: Net>(rt: &R, address: &str, text: &[u8]) -> io::Result<R::Stream> {
    let mut operator = TcpStream::connect(rt, address)?;
    operator.write_all(text)?;
    Ok(operator)
}

/// The operator goes with a reply unread, which resets the connection. Whether the reply was said, and came to him.
fn goes<S: OpenStream + Drop, C: Console>(
    alloc: Global,
    console: &mut C,
    operator: S,
) -> Result<bool, Fail> {
    console.prepare(alloc, 3)?;
    let said = console.say(b"ok\n").is_ok();
    Ok(said && operator.peek(&mut [0])? == 1)
}

/// Whether one operator is heard and the other one waits; and then, once the first is lost in the middle of a line, that one is heard.
fn hears_the_next<R: Net + Clock, C: Console>(
    rt: &R,
    alloc: Global,
    console: &mut C,
    address: &str,
) -> Result<bool, Fail> {
    let lost = operator(rt, address, b"status\nno end")?;
    let served = hears(rt, alloc, console, b"status");
    let _next = operator(rt, address, b"halt\n")?;
    let waits = is_idle(alloc, console);
    let went = goes(alloc, console, lost)?;
    Ok(served && waits && went && hears(rt, alloc, console, b"halt"))
}

#[test]
fn an_operator_who_is_lost_makes_way(rt: HostRuntime) -> Result<(), Fail> {
    let alloc = rt.alloc();
    let address = free_address(&rt, alloc)?;
    let mut console = console_at(&rt, alloc, address.as_str())?;
    assert!(rt; is_idle(alloc, &mut console));
    assert!(rt; hears_the_next(&rt, alloc, &mut console, address.as_str())?);
    Ok(())
}
