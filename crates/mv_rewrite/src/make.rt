//! What right sides make.
ghost use Rattle.std.specs.Prelude.{◌≡◌, ◌<◌, ◌^◌, IfOk, map, length, true};
ghost use Rattle.std.specs.List.{All, AllPass};
ghost use Rattle.mv_rules.specs.Shape.{errno_counts};
ghost use Rattle.mv_rewrite.specs.Matching.{IsCounted, bytes_value, made_of};

use crate::items::Items;
use crate::names::Names;
use mv_calls::{Bytes, Call, Item, OutOfMemory, Reply};
use mv_rules::{Parts, Pattern};
use std::alloc::Global;

/// The bytes that the parts make, one after another.
fn make_bytes(alloc: Global, names: &Names, parts: &Parts) -> Result<Vec<u8>, OutOfMemory>
    ensures { IfOk result (λ bytes. bytes.items ≡ bytes_value parts.now names.now) }
{
    let mut bytes = Vec::new(alloc);
    for part in parts.slice() {
        names.push_part(&mut bytes, part)?;
    }
    Ok(bytes)
}

/// The bytes that the parts make, with their number where it fits.
fn make_counted(alloc: Global, names: &Names, parts: &Parts) -> Result<(Bytes, u32), OutOfMemory>
    ensures made { IfOk result (λ made. (made.0 ≡ bytes_value parts.now names.now) × (made.1 ≡ length (bytes_value parts.now names.now))) }
    ensures counted { IfOk result (λ made. length made.0 < 2 ^ 32) }
{
    let bytes = make_bytes(alloc, names, parts)?;
    match u32::try_from(bytes.len()) {
        Ok(count) => Ok((Bytes::from_vec(bytes), count)),
        Err(_) => Err(OutOfMemory),
    }
}

/// The call and the reply that a pattern makes. A length that doesn't fit is want of memory.
fn make_item(alloc: Global, names: &Names, pattern: &Pattern) -> Result<Item, OutOfMemory>
    requires { errno_counts pattern.now ≡ true }
    ensures made { IfOk result (λ item. item ≡ made_of names.now pattern.now) }
    ensures counted { IfOk result (λ item. IsCounted item) }
{
    let (call, reply) = match pattern {
        Pattern::Read { fd, bytes } => {
            let (bytes, cap) = make_counted(alloc, names, bytes)?;
            return Ok(Item {
                call: Call::Read {
                    fd: names.fd_value(fd),
                    cap,
                },
                reply: Reply::Bytes(bytes),
            });
        }
        Pattern::ReadErrno { fd, errno } => (
            Call::Read {
                fd: names.fd_value(fd),
                cap: 0,
            },
            Reply::Errno(*errno),
        ),
        Pattern::Write { fd, bytes } => {
            let (bytes, count) = make_counted(alloc, names, bytes)?;
            return Ok(Item {
                call: Call::Write {
                    fd: names.fd_value(fd),
                    bytes,
                },
                reply: Reply::Count(count),
            });
        }
        Pattern::WriteErrno { fd, bytes, errno } => {
            let (bytes, _) = make_counted(alloc, names, bytes)?;
            return Ok(Item {
                call: Call::Write {
                    fd: names.fd_value(fd),
                    bytes,
                },
                reply: Reply::Errno(*errno),
            });
        }
        Pattern::Accept {
            listener,
            flags,
            made,
        } => (
            Call::Accept {
                fd: names.fd_value(listener),
                flags: *flags,
            },
            Reply::Fd(names.fd_value(made)),
        ),
        Pattern::AcceptErrno {
            listener,
            flags,
            errno,
        } => (
            Call::Accept {
                fd: names.fd_value(listener),
                flags: *flags,
            },
            Reply::Errno(*errno),
        ),
        Pattern::Close { fd } => (
            Call::Close {
                fd: names.fd_value(fd),
            },
            Reply::Done,
        ),
        Pattern::CloseErrno { fd, errno } => (
            Call::Close {
                fd: names.fd_value(fd),
            },
            Reply::Errno(*errno),
        ),
        Pattern::Shutdown { fd, how } => (
            Call::Shutdown {
                fd: names.fd_value(fd),
                how: *how,
            },
            Reply::Done,
        ),
        Pattern::ShutdownErrno { fd, how, errno } => (
            Call::Shutdown {
                fd: names.fd_value(fd),
                how: *how,
            },
            Reply::Errno(*errno),
        ),
        Pattern::Yield => (Call::Yield, Reply::Done),
        Pattern::Clock { id, time } => (
            Call::Clock { id: *id },
            Reply::Time(names.time_value(time)),
        ),
        Pattern::Random { bytes } => {
            let (bytes, len) = make_counted(alloc, names, bytes)?;
            (Call::Random { len }, Reply::Bytes(bytes))
        }
    };
    Ok(Item { call, reply })
}

/// What a right side makes.
pub fn make_right(alloc: Global, names: &Names, right: &[Pattern]) -> Result<Items, OutOfMemory>
    requires { AllPass errno_counts right.now }
    ensures made { IfOk result (λ made. made ≡ map (made_of names.now) right.now) }
    ensures counted { IfOk result (λ made. All IsCounted made) }
{
    let mut made = Vec::new(alloc);
    for pattern in right {
        made.push(make_item(alloc, names, pattern)?)?;
    }
    Ok(Items::from_vec(made))
}
