//! Both objects over loopback, with both ends in one process.

use crate::{NetConsole, NetKernel};
use mv_calls::{Bytes, Call, Happenings, OutOfMemory, Reply, Room, Sub, Subs};
use mv_outside::{Console, Kernel, Line};
use std::alloc::Global;
use std::io::{self, Read, Write};
use std::net::{Net, OpenListener, TcpListener, TcpStream};
use std::rt::Clock;
use std::test::Fail;
use std::thread;
use std::time::Duration;

mod failing;

/// How often a look is made at what takes a moment to arrive.
const LOOKS: u32 = 1_000;

/// An address of this machine at which nobody listens: the system chose its port for a listener that is gone.
fn free_address<R: Net>(rt: &R, alloc: Global) -> io::Result<String> {
    let listener = TcpListener::bind(rt, "127.0.0.1:0")?;
    let address = listener.local_addr()?;
    Ok(format!(in alloc; "{address}")?)
}

/// What the kernel answers; none where it fails.
fn answer<K: Kernel>(
    alloc: Global,
    kernel: &mut K,
    call: Call,
) -> Result<Option<Reply>, OutOfMemory> {
    kernel.ready(alloc, &call)?;
    let room = Room::make(alloc, &call)?;
    Ok(kernel.perform(&call, room).ok())
}

fn errno_of(reply: Option<Reply>) -> Option<u16> {
    match reply {
        Some(Reply::Errno(errno)) => Some(errno),
        _ => None,
    }
}

fn bytes_of(reply: Option<Reply>) -> Option<Bytes> {
    match reply {
        Some(Reply::Bytes(bytes)) => Some(bytes),
        _ => None,
    }
}

fn events_of(reply: Option<Reply>) -> Option<Happenings> {
    match reply {
        Some(Reply::Ready(events)) => Some(events),
        _ => None,
    }
}

/// Whether one read gives exactly these bytes.
fn reads<K: Kernel>(
    alloc: Global,
    kernel: &mut K,
    fd: u32,
    cap: u32,
    bytes: &[u8],
) -> Result<bool, OutOfMemory> {
    match bytes_of(answer(alloc, kernel, Call::Read { fd, cap })?) {
        Some(read) => Ok(read.slice() == bytes),
        None => Ok(false),
    }
}

/// Whether all the bytes are taken by one write.
fn writes<K: Kernel>(
    alloc: Global,
    kernel: &mut K,
    fd: u32,
    bytes: &[u8],
) -> Result<bool, OutOfMemory> {
    let call = Call::Write {
        fd,
        bytes: Bytes::from_slice(alloc, bytes)?,
    };
    Ok(match answer(alloc, kernel, call)? {
        Some(Reply::Count(count)) => count as usize == bytes.len(),
        _ => false,
    })
}

/// Whether a poll for the one subscription finds this event's error and bytes, or finds nothing.
fn polls<K: Kernel>(
    alloc: Global,
    kernel: &mut K,
    sub: Sub,
    event: Option<(u16, u64)>,
) -> Result<bool, OutOfMemory> {
    let subs = Subs::from_slice(alloc, &[sub])?;
    let Some(events) = events_of(answer(alloc, kernel, Call::Poll { subs })?) else {
        return Ok(false);
    };
    Ok(match events.slice() {
        [] => event.is_none(),
        [found] => event == Some((found.error, found.nbytes)) && found.sub == 0,
        _ => false,
    })
}

/// The errno of the kernel's answer; none where it has none, or fails.
fn errno<K: Kernel>(alloc: Global, kernel: &mut K, call: Call) -> Result<Option<u16>, OutOfMemory> {
    Ok(errno_of(answer(alloc, kernel, call)?))
}

/// Whether the kernel finds the first client, which gets descriptor 4 and has sent nothing yet.
fn lets_in<K: Kernel>(alloc: Global, kernel: &mut K) -> Result<bool, OutOfMemory> {
    let is_seen = polls(alloc, kernel, Sub::Read { fd: 3 }, Some((0, 1)))?;
    let new = answer(alloc, kernel, Call::Accept { fd: 3, flags: 0 })?;
    let is_first = matches!(new, Some(Reply::Fd(4)));
    let none = errno(alloc, kernel, Call::Read { fd: 4, cap: 8 })?;
    Ok(is_seen && is_first && none == Some(6))
}

/// Whether the kernel reads what its client sent, and answers.
fn hears_a_client<K: Kernel>(alloc: Global, kernel: &mut K) -> Result<bool, OutOfMemory> {
    let is_seen = polls(alloc, kernel, Sub::Read { fd: 4 }, Some((0, 1)))?;
    let is_read = reads(alloc, kernel, 4, 8, b"a")?;
    Ok(is_seen && is_read && writes(alloc, kernel, 4, b"OK")?)
}

/// Whether a client is let in, heard and answered.
fn serves<R: Net, K: Kernel>(
    rt: &R,
    alloc: Global,
    kernel: &mut K,
    address: &str,
) -> Result<bool, Fail> {
    let mut client = TcpStream::connect(rt, address)?;
    let is_in = lets_in(alloc, kernel)?;
    client.write_all(b"a")?;
    let is_heard = hears_a_client(alloc, kernel)?;
    let mut told = [0; 2];
    client.read_exact(&mut told)?;
    Ok(is_in && is_heard && told == *b"OK")
}

/// Whether the connection closes, and isn't known then.
fn closes<K: Kernel>(alloc: Global, kernel: &mut K) -> Result<bool, OutOfMemory> {
    let closed = answer(alloc, kernel, Call::Close { fd: 4 })?;
    let is_done = matches!(closed, Some(Reply::Done));
    Ok(is_done && polls(alloc, kernel, Sub::Write { fd: 4 }, Some((8, 0)))?)
}

#[test]
fn a_client_is_answered_by_the_kernel(rt: HostRuntime) -> Result<(), Fail> {
    let alloc = rt.alloc();
    let address = free_address(&rt, alloc)?;
    let place = Bytes::from_slice(alloc, address.as_bytes())?;
    let mut kernel = NetKernel::new(alloc, &rt, place, rt.stdin(), rt.stdout(), rt.stderr());
    let none = errno(alloc, &mut kernel, Call::Accept { fd: 3, flags: 0 })?;
    assert_eq!(rt; none, Some(6));
    assert!(rt; serves(&rt, alloc, &mut kernel, address.as_str())?);
    assert!(rt; closes(alloc, &mut kernel)?);
    Ok(())
}

/// Whether the kernel reads a clock and the random source.
fn reads_the_system<K: Kernel>(alloc: Global, kernel: &mut K) -> Result<bool, OutOfMemory> {
    let time = answer(alloc, kernel, Call::Clock { id: 1 })?;
    let drawn = answer(alloc, kernel, Call::Random { len: 300 })?;
    Ok(matches!(time, Some(Reply::Time(_))) && matches!(drawn, Some(Reply::Bytes(_))))
}

#[test]
fn the_kernel_reads_time_randomness_and_input(rt: HostRuntime) -> Result<(), Fail> {
    let alloc = rt.alloc();
    let place = Bytes::from_slice(alloc, b"no address")?;
    let input = b"in".as_slice();
    let mut kernel = NetKernel::new(alloc, &rt, place, input, rt.stdout(), rt.stderr());
    assert!(rt; reads_the_system(alloc, &mut kernel)?);
    assert!(rt; reads(alloc, &mut kernel, 0, 1, b"i")?);
    let soon = Sub::Clock {
        id: 1,
        timeout: 2_000_000,
        flags: 0,
    };
    assert!(rt; polls(alloc, &mut kernel, soon, Some((0, 0)))?);
    assert!(rt; answer(alloc, &mut kernel, Call::Accept { fd: 3, flags: 0 })?.is_none());
    Ok(())
}

/// What the console has within a second or so; Idle where nothing comes.
fn heard<C: Console, R: Clock>(rt: &R, alloc: Global, console: &mut C) -> Line {
    for _ in 0..LOOKS {
        match console.next(alloc) {
            Line::Idle => thread::sleep(rt, Duration::from_millis(1)),
            found => return found,
        }
    }
    Line::Idle
}

/// Whether this is the next line.
fn hears<R: Clock, C: Console>(rt: &R, alloc: Global, console: &mut C, line: &[u8]) -> bool {
    match heard(rt, alloc, console) {
        Line::Line(bytes) => bytes.slice() == line,
        _ => false,
    }
}

/// Whether the operator's line is heard, which came in two parts, and he is answered.
fn serves_the_first<R: Net + Clock, C: Console>(
    rt: &R,
    alloc: Global,
    console: &mut C,
    mut first: R::Stream,
) -> Result<bool, Fail> {
    first.write_all(b"sta")?;
    first.write_all(b"tus\nno end")?;
    let is_heard = hears(rt, alloc, console, b"status");
    console.prepare(alloc, 3)?;
    let is_said = console.say(b"ok\n").is_ok();
    let mut told = [0; 3];
    first.read_exact(&mut told)?;
    Ok(is_heard && is_said && told == *b"ok\n")
}

/// Whether two operators are heard, one after the other.
fn serves_both<R: Net + Clock, C: Console>(
    rt: &R,
    alloc: Global,
    console: &mut C,
    address: &str,
) -> Result<bool, Fail> {
    let first = TcpStream::connect(rt, address)?;
    let mut second = TcpStream::connect(rt, address)?;
    second.write_all(b"halt\n")?;
    let is_served = serves_the_first(rt, alloc, console, first)?;
    Ok(is_served && hears(rt, alloc, console, b"halt"))
}

#[test]
fn one_operator_after_another_is_heard_and_answered(rt: HostRuntime) -> Result<(), Fail> {
    let alloc = rt.alloc();
    let address = free_address(&rt, alloc)?;
    let place = Bytes::from_slice(alloc, address.as_bytes())?;
    let mut console = NetConsole::new(alloc, &rt, place);
    assert!(rt; matches!(console.next(alloc), Line::Idle));
    assert!(rt; serves_both(&rt, alloc, &mut console, address.as_str())?);
    Ok(())
}

/// Whether of a line of 8,193 bytes the first 8,192 are handed on, and then the next line.
fn hears_long<R: Net + Clock, C: Console>(
    rt: &R,
    alloc: Global,
    console: &mut C,
    address: &str,
) -> Result<bool, Fail> {
    let mut operator = TcpStream::connect(rt, address)?;
    operator.write_all(&[b'x'; 8_193])?;
    operator.write_all(b"\nhalt\n")?;
    let is_cut = hears(rt, alloc, console, &[b'x'; 8_192]);
    Ok(is_cut && hears(rt, alloc, console, b"halt"))
}

#[test]
fn of_a_long_line_the_first_bytes_are_handed_on(rt: HostRuntime) -> Result<(), Fail> {
    let alloc = rt.alloc();
    let address = free_address(&rt, alloc)?;
    let place = Bytes::from_slice(alloc, address.as_bytes())?;
    let mut console = NetConsole::new(alloc, &rt, place);
    assert!(rt; matches!(console.next(alloc), Line::Idle));
    assert!(rt; hears_long(&rt, alloc, &mut console, address.as_str())?);
    Ok(())
}

#[test]
fn a_console_without_an_address_fails_once(rt: HostRuntime) -> Result<(), Fail> {
    let alloc = rt.alloc();
    let mut console = NetConsole::new(alloc, &rt, Bytes::from_slice(alloc, b"nowhere")?);
    assert!(rt; matches!(console.next(alloc), Line::Failed));
    assert!(rt; matches!(console.next(alloc), Line::Closed));
    Ok(())
}
