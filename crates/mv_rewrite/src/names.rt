//! What the names of a rule are bound to.
ghost use Rattle.std.specs.Prelude.{◌≡◌, [], ◌++◌, IfOk, OnOk, nat_eq, unwrap_or};
ghost use Rattle.std.specs.Option.{option_copied};
ghost use Rattle.mv_rewrite.specs.Bound.{unbound};
ghost use Rattle.mv_rewrite.specs.Matching.{value_of, bind_fd, bind_time, bind_bytes, fd_value, time_value, part_value, bytes_named, guard_passes, guards_pass, stands_to};

use itoa::Buffer;
use mv_calls::{Bytes, OutOfMemory};
use mv_rules::{Comparison, FdTerm, Guard, Part, TimeTerm};
use std::alloc::Global;
use std::marker::Model;

/// The values of descriptor, time and byte names, each in the order in which they were bound.
#[derive(Drop)]
pub struct Names {
    fds: Vec<(Bytes, u32)>,
    times: Vec<(Bytes, u64)>,
    bytes: Vec<(Bytes, Bytes)>,
}

impl Model for Names {
    ghost use Rattle.mv_rewrite.specs.Bound.{Bound};

    ghost Value = { Bound };

    ghost view = { λ n. record { fds = n.fds.items; times = n.times.items; bytes = n.bytes.items } };
}

/// The first value under a name.
fn find<'a, V>(entries: &'a [(Bytes, V)], name: &[u8]) -> Option<&'a V>
    ensures { option_copied result ≡ value_of name.now entries.now }
{
    for entry in entries {
        if entry.0.slice() == name {
            return Some(&entry.1);
        }
    }
    None
}

impl Names {
    /// No name is bound.
    pub fn new(alloc: Global) -> Names
        ensures { result ≡ unbound }
    {
        Names {
            fds: Vec::new(alloc),
            times: Vec::new(alloc),
            bytes: Vec::new(alloc),
        }
    }

    /// Binds a descriptor term, or answers none where it has another value.
    pub fn bind_fd(
        self,
        alloc: Global,
        term: &FdTerm,
        fd: u32,
    ) -> Result<Option<Names>, OutOfMemory>
        ensures { IfOk result (λ bound. bound ≡ bind_fd term.now fd self) }
    {
        match term {
            FdTerm::Number(number) => Ok(if *number == fd { Some(self) } else { None }),
            FdTerm::Name(name) => match find(self.fds.as_slice(), name.slice()) {
                Some(bound) => {
                    let same = *bound == fd;
                    Ok(if same { Some(self) } else { None })
                }
                None => {
                    let Names {
                        mut fds,
                        times,
                        bytes,
                    } = self;
                    fds.push((name.copy(alloc)?, fd))?;
                    Ok(Some(Names { fds, times, bytes }))
                }
            },
        }
    }

    /// Binds a time term, or answers none where it has another value.
    pub fn bind_time(
        self,
        alloc: Global,
        term: &TimeTerm,
        time: u64,
    ) -> Result<Option<Names>, OutOfMemory>
        ensures { IfOk result (λ bound. bound ≡ bind_time term.now time self) }
    {
        match term {
            TimeTerm::Number(number) => Ok(if *number == time { Some(self) } else { None }),
            TimeTerm::Name(name) => match find(self.times.as_slice(), name.slice()) {
                Some(bound) => {
                    let same = *bound == time;
                    Ok(if same { Some(self) } else { None })
                }
                None => {
                    let Names {
                        fds,
                        mut times,
                        bytes,
                    } = self;
                    times.push((name.copy(alloc)?, time))?;
                    Ok(Some(Names { fds, times, bytes }))
                }
            },
        }
    }

    /// Binds a byte name, or answers none where it has another value.
    pub fn bind_bytes(
        self,
        alloc: Global,
        name: &Bytes,
        value: &[u8],
    ) -> Result<Option<Names>, OutOfMemory>
        ensures { IfOk result (λ bound. bound ≡ bind_bytes name.now value.now self) }
    {
        match find(self.bytes.as_slice(), name.slice()) {
            Some(bound) => {
                let same = bound.slice() == value;
                Ok(if same { Some(self) } else { None })
            }
            None => {
                let Names {
                    fds,
                    times,
                    mut bytes,
                } = self;
                bytes.push((name.copy(alloc)?, Bytes::from_slice(alloc, value)?))?;
                Ok(Some(Names { fds, times, bytes }))
            }
        }
    }

    /// The value of a descriptor term. A name without one gives 0.
    pub fn fd_value(&self, term: &FdTerm) -> u32
        ensures { result ≡ fd_value term.now self.now }
    {
        match term {
            FdTerm::Number(number) => *number,
            FdTerm::Name(name) => find(self.fds.as_slice(), name.slice())
                .copied()
                .unwrap_or(0),
        }
    }

    /// The value of a time term. A name without one gives 0.
    pub fn time_value(&self, term: &TimeTerm) -> u64
        ensures { result ≡ time_value term.now self.now }
    {
        match term {
            TimeTerm::Number(number) => *number,
            TimeTerm::Name(name) => find(self.times.as_slice(), name.slice())
                .copied()
                .unwrap_or(0),
        }
    }

    /// Puts what a part makes at the end of the bytes. A name without a value makes nothing.
    pub fn push_part(&self, bytes: &mut Vec<u8>, part: &Part) -> Result<(), OutOfMemory>
        ensures { OnOk result (bytes.new.items ≡ bytes.old.items ++ part_value self.now part.now) }
    {
        match part {
            Part::Text(text) => bytes.extend_from_slice(text.slice())?,
            Part::Sized { name, .. } => bytes.extend_from_slice(self.bytes_named(name))?,
            Part::Named(name) => bytes.extend_from_slice(self.bytes_named(name))?,
            Part::Length(name) => {
                let mut digits = Buffer::new();
                let length = digits.format(self.bytes_named(name).len());
                bytes.extend_from_slice(length.as_bytes())?
            }
        }
        Ok(())
    }

    /// The bytes that a name is bound to. A name without a value has none.
    fn bytes_named(&self, name: &Bytes) -> &[u8]
        ensures { result.now ≡ bytes_named self.now name.now }
    {
        match find(self.bytes.as_slice(), name.slice()) {
            Some(bytes) => bytes.slice(),
            None => &[],
        }
    }

    /// Whether each guard on a name that has a value passes.
    pub fn pass(&self, guards: &[Guard]) -> bool
        ensures { result ≡ guards_pass self.now guards.now }
    {
        for guard in guards {
            if !self.passes(guard) {
                return false;
            }
        }
        true
    }

    fn passes(&self, guard: &Guard) -> bool
        ensures { result ≡ guard_passes guard.now (value_of guard.now.name self.now.bytes) }
    {
        match find(self.bytes.as_slice(), guard.name.slice()) {
            Some(bytes) => stands_to(guard.comparison, bytes.slice().len(), guard.length as usize),
            None => true,
        }
    }
}

/// Whether a length stands so to a number.
fn stands_to(comparison: Comparison, size: usize, number: usize) -> bool
    ensures { result ≡ stands_to comparison size number }
{
    match comparison {
        Comparison::Equal => size == number,
        Comparison::Less => size < number,
        Comparison::Greater => size > number,
    }
}
