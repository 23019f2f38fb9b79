//! Left sides against items.
ghost use Rattle.std.specs.Prelude.{◌≡◌, IfOk, option_and_then};
ghost use Rattle.mv_rewrite.specs.Matching.{bind_fd, bind_parts, bind_item, rule_fit};

use crate::fit::Fit;
use crate::held::Held;
use crate::names::Names;
use crate::parts::match_parts;
use mv_calls::{Call, OutOfMemory, Reply};
use mv_rules::{FdTerm, Parts, Pattern, Rule};
use std::alloc::Global;

/// Matches a descriptor and then all of the bytes.
fn match_write(
    alloc: Global,
    names: Names,
    term: &FdTerm,
    fd: u32,
    parts: &Parts,
    bytes: &[u8],
) -> Result<Option<Names>, OutOfMemory>
    ensures { IfOk result (λ found. found ≡ option_and_then (bind_parts parts.now bytes.now) (bind_fd term.now fd names)) }
{
    match names.bind_fd(alloc, term, fd)? {
        Some(names) => match_parts(alloc, names, parts.slice(), bytes),
        None => Ok(None),
    }
}

/// Matches one call with its reply.
fn match_item(
    alloc: Global,
    names: Names,
    pattern: &Pattern,
    call: &Call,
    reply: &Reply,
) -> Result<Option<Names>, OutOfMemory>
    ensures { IfOk result (λ found. found ≡ bind_item pattern.now call.now reply.now names) }
{
    match (pattern, call, reply) {
        (Pattern::Read { fd, bytes: parts }, Call::Read { fd: f, .. }, Reply::Bytes(bytes)) => {
            match_write(alloc, names, fd, *f, parts, bytes.slice())
        }
        (Pattern::ReadErrno { fd, errno }, Call::Read { fd: f, .. }, Reply::Errno(e)) => {
            if *errno == *e {
                names.bind_fd(alloc, fd, *f)
            } else {
                Ok(None)
            }
        }
        (Pattern::Write { fd, bytes: parts }, Call::Write { fd: f, bytes }, Reply::Count(count)) =>
            {
                if *count as usize == bytes.slice().len() {
                    match_write(alloc, names, fd, *f, parts, bytes.slice())
                } else {
                    Ok(None)
                }
            }
        (
            Pattern::WriteErrno {
                fd,
                bytes: parts,
                errno,
            },
            Call::Write { fd: f, bytes },
            Reply::Errno(e),
        ) => {
            if *errno == *e {
                match_write(alloc, names, fd, *f, parts, bytes.slice())
            } else {
                Ok(None)
            }
        }
        (
            Pattern::Accept {
                listener,
                flags,
                made,
            },
            Call::Accept { fd: f, flags: k },
            Reply::Fd(n),
        ) => {
            if *flags != *k {
                return Ok(None);
            }
            match names.bind_fd(alloc, listener, *f)? {
                Some(names) => names.bind_fd(alloc, made, *n),
                None => Ok(None),
            }
        }
        (
            Pattern::AcceptErrno {
                listener,
                flags,
                errno,
            },
            Call::Accept { fd: f, flags: k },
            Reply::Errno(e),
        ) => {
            if *flags == *k && *errno == *e {
                names.bind_fd(alloc, listener, *f)
            } else {
                Ok(None)
            }
        }
        (Pattern::Close { fd }, Call::Close { fd: f }, Reply::Done) => names.bind_fd(alloc, fd, *f),
        (Pattern::CloseErrno { fd, errno }, Call::Close { fd: f }, Reply::Errno(e)) => {
            if *errno == *e {
                names.bind_fd(alloc, fd, *f)
            } else {
                Ok(None)
            }
        }
        (Pattern::Shutdown { fd, how }, Call::Shutdown { fd: f, how: h }, Reply::Done) => {
            if *how == *h {
                names.bind_fd(alloc, fd, *f)
            } else {
                Ok(None)
            }
        }
        (
            Pattern::ShutdownErrno { fd, how, errno },
            Call::Shutdown { fd: f, how: h },
            Reply::Errno(e),
        ) => {
            if *how == *h && *errno == *e {
                names.bind_fd(alloc, fd, *f)
            } else {
                Ok(None)
            }
        }
        (Pattern::Yield, Call::Yield, Reply::Done) => Ok(Some(names)),
        (Pattern::Clock { id, time }, Call::Clock { id: i }, Reply::Time(t)) => {
            if *id == *i {
                names.bind_time(alloc, time, *t)
            } else {
                Ok(None)
            }
        }
        (Pattern::Random { bytes: parts }, Call::Random { .. }, Reply::Bytes(bytes)) => {
            match_parts(alloc, names, parts.slice(), bytes.slice())
        }
        _ => Ok(None),
    }
}

/// Matches a rule's left side against the items at the front. The guards on the names that are bound are asked behind each
/// item.
pub fn match_rule(alloc: Global, rule: &Rule, items: &[Held]) -> Result<Fit, OutOfMemory>
    ensures { IfOk result (λ fit. fit ≡ rule_fit rule.now items.now) }
{
    let guards = rule.guards.slice();
    let mut names = Names::new(alloc);
    let mut index = 0;
    for pattern in rule.left.slice() {
        if index == items.len() {
            return Ok(Fit::Short);
        }
        let item = items[index].item();
        match match_item(alloc, names, pattern, &item.call, &item.reply)? {
            Some(bound) => names = bound,
            None => return Ok(Fit::Not),
        }
        if !names.pass(guards) {
            return Ok(Fit::Not);
        }
        index += 1;
    }
    Ok(Fit::Whole(names))
}
