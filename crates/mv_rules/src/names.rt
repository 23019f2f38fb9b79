//! Names in items: which are well formed, which an item binds, which stand again.
ghost use Rattle.std.specs.Prelude.{◌≡◌, []};
ghost use Rattle.std.specs.List.{list_all, list_any};
ghost use Rattle.std.specs.Option.{option_map};
ghost use Rattle.mv_rules.specs.Names.{binds_bytes, binds_fd, binds_time, bytes_are_bound, fd_in, fd_is_bound, fd_name_passes, has_again, has_good_names, is_all_bound, is_fd_name, is_new, is_part_name, is_sized, is_time_name, made_in, part_name_passes, parts_in, rest_is_last, time_in, time_is_bound, time_name_passes};
ghost use Rattle.mv_scan.specs.Names.{is_name, is_name_byte};

use crate::rule::{FdTerm, Part, Pattern, TimeTerm};
use mv_scan::is_name;

/// The descriptor that the call names.
fn fd_in(pattern: &Pattern) -> Option<&FdTerm>
    ensures { option_map (λ fd. fd.now) result ≡ fd_in pattern.now }
{
    match pattern {
        Pattern::Read { fd, .. } => Some(fd),
        Pattern::ReadErrno { fd, .. } => Some(fd),
        Pattern::Write { fd, .. } => Some(fd),
        Pattern::WriteErrno { fd, .. } => Some(fd),
        Pattern::Accept { listener, .. } => Some(listener),
        Pattern::AcceptErrno { listener, .. } => Some(listener),
        Pattern::Close { fd } => Some(fd),
        Pattern::CloseErrno { fd, .. } => Some(fd),
        Pattern::Shutdown { fd, .. } => Some(fd),
        Pattern::ShutdownErrno { fd, .. } => Some(fd),
        Pattern::Yield => None,
        Pattern::Clock { .. } => None,
        Pattern::Random { .. } => None,
    }
}

/// The descriptor that an accept gives.
fn made_in(pattern: &Pattern) -> Option<&FdTerm>
    ensures { option_map (λ fd. fd.now) result ≡ made_in pattern.now }
{
    match pattern {
        Pattern::Accept { made, .. } => Some(made),
        _ => None,
    }
}

fn time_in(pattern: &Pattern) -> Option<&TimeTerm>
    ensures { option_map (λ time. time.now) result ≡ time_in pattern.now }
{
    match pattern {
        Pattern::Clock { time, .. } => Some(time),
        _ => None,
    }
}

/// The parts of the item's byte list.
pub fn parts_in(pattern: &Pattern) -> &[Part]
    ensures { result.now ≡ parts_in pattern.now }
{
    match pattern {
        Pattern::Read { bytes, .. } => bytes.slice(),
        Pattern::Write { bytes, .. } => bytes.slice(),
        Pattern::WriteErrno { bytes, .. } => bytes.slice(),
        Pattern::Random { bytes } => bytes.slice(),
        _ => &[],
    }
}

fn has_good_fd(fd: Option<&FdTerm>) -> bool
    ensures { result ≡ fd_name_passes is_name (option_map (λ fd. fd.now) fd.entry) }
{
    match fd {
        Some(FdTerm::Name(name)) => is_name(name.slice()),
        _ => true,
    }
}

fn has_good_time(time: Option<&TimeTerm>) -> bool
    ensures { result ≡ time_name_passes is_name (option_map (λ time. time.now) time.entry) }
{
    match time {
        Some(TimeTerm::Name(name)) => is_name(name.slice()),
        _ => true,
    }
}

fn has_good_name(part: &Part) -> bool
    ensures { result ≡ part_name_passes is_name part.now }
{
    match part {
        Part::Text(_) => true,
        Part::Sized { name, .. } => is_name(name.slice()),
        Part::Named(name) => is_name(name.slice()),
        Part::Length(name) => is_name(name.slice()),
    }
}

fn have_good_names(parts: &[Part]) -> bool
    ensures { result ≡ list_all (part_name_passes is_name) parts.now }
{
    for part in parts {
        if !has_good_name(part) {
            return false;
        }
    }
    true
}

/// Whether each name of the item is well formed.
pub fn has_good_names(pattern: &Pattern) -> bool
    ensures { result ≡ has_good_names pattern.now }
{
    has_good_fd(fd_in(pattern))
        && has_good_fd(made_in(pattern))
        && has_good_time(time_in(pattern))
        && have_good_names(parts_in(pattern))
}

/// Whether all the rest stands last, if it stands there.
pub fn rest_is_last(parts: &[Part]) -> bool
    ensures { result ≡ rest_is_last parts.now }
{
    match parts {
        [] => true,
        [Part::Named(_), rest @ ..] => rest.is_empty(),
        [_, rest @ ..] => rest_is_last(rest),
    }
}

/// Whether a part has a length.
pub fn has_sized(parts: &[Part]) -> bool
    ensures { result ≡ list_any is_sized parts.now }
{
    for part in parts {
        if let Part::Sized { .. } = part {
            return true;
        }
    }
    false
}

fn is_fd_name(name: &[u8], fd: Option<&FdTerm>) -> bool
    ensures { result ≡ is_fd_name name.now (option_map (λ fd. fd.now) fd.entry) }
{
    match fd {
        Some(FdTerm::Name(other)) => other.slice() == name,
        _ => false,
    }
}

fn is_time_name(name: &[u8], time: Option<&TimeTerm>) -> bool
    ensures { result ≡ is_time_name name.now (option_map (λ time. time.now) time.entry) }
{
    match time {
        Some(TimeTerm::Name(other)) => other.slice() == name,
        _ => false,
    }
}

fn is_part_name(name: &[u8], part: &Part) -> bool
    ensures { result ≡ is_part_name name.now part.now }
{
    match part {
        Part::Sized { name: other, .. } => other.slice() == name,
        Part::Named(other) => other.slice() == name,
        _ => false,
    }
}

fn is_among(name: &[u8], parts: &[Part]) -> bool
    ensures { result ≡ list_any (is_part_name name.now) parts.now }
{
    for part in parts {
        if is_part_name(name, part) {
            return true;
        }
    }
    false
}

fn binds_fd(name: &[u8], pattern: &Pattern) -> bool
    ensures { result ≡ binds_fd name.now pattern.now }
{
    is_fd_name(name, fd_in(pattern)) || is_fd_name(name, made_in(pattern))
}

fn binds_time(name: &[u8], pattern: &Pattern) -> bool
    ensures { result ≡ binds_time name.now pattern.now }
{
    is_time_name(name, time_in(pattern))
}

fn binds_bytes(name: &[u8], pattern: &Pattern) -> bool
    ensures { result ≡ binds_bytes name.now pattern.now }
{
    is_among(name, parts_in(pattern))
}

fn fd_is_bound(left: &[Pattern], name: &[u8]) -> bool
    ensures { result ≡ fd_is_bound left.now name.now }
{
    for pattern in left {
        if binds_fd(name, pattern) {
            return true;
        }
    }
    false
}

fn time_is_bound(left: &[Pattern], name: &[u8]) -> bool
    ensures { result ≡ time_is_bound left.now name.now }
{
    for pattern in left {
        if binds_time(name, pattern) {
            return true;
        }
    }
    false
}

/// Whether an item of the left side binds the byte name.
pub fn bytes_are_bound(left: &[Pattern], name: &[u8]) -> bool
    ensures { result ≡ bytes_are_bound left.now name.now }
{
    for pattern in left {
        if binds_bytes(name, pattern) {
            return true;
        }
    }
    false
}

fn has_bound_fd(left: &[Pattern], fd: Option<&FdTerm>) -> bool
    ensures { result ≡ fd_name_passes (fd_is_bound left.now) (option_map (λ fd. fd.now) fd.entry) }
{
    match fd {
        Some(FdTerm::Name(name)) => fd_is_bound(left, name.slice()),
        _ => true,
    }
}

fn has_bound_time(left: &[Pattern], time: Option<&TimeTerm>) -> bool
    ensures { result ≡ time_name_passes (time_is_bound left.now) (option_map (λ time. time.now) time.entry) }
{
    match time {
        Some(TimeTerm::Name(name)) => time_is_bound(left, name.slice()),
        _ => true,
    }
}

fn has_bound_name(left: &[Pattern], part: &Part) -> bool
    ensures { result ≡ part_name_passes (bytes_are_bound left.now) part.now }
{
    match part {
        Part::Text(_) => true,
        Part::Sized { name, .. } => bytes_are_bound(left, name.slice()),
        Part::Named(name) => bytes_are_bound(left, name.slice()),
        Part::Length(name) => bytes_are_bound(left, name.slice()),
    }
}

fn have_bound_names(left: &[Pattern], parts: &[Part]) -> bool
    ensures { result ≡ list_all (part_name_passes (bytes_are_bound left.now)) parts.now }
{
    for part in parts {
        if !has_bound_name(left, part) {
            return false;
        }
    }
    true
}

/// Whether the left side binds each name of the item, with the same sign.
pub fn is_all_bound(left: &[Pattern], pattern: &Pattern) -> bool
    ensures { result ≡ is_all_bound left.now pattern.now }
{
    has_bound_fd(left, fd_in(pattern))
        && has_bound_fd(left, made_in(pattern))
        && has_bound_time(left, time_in(pattern))
        && have_bound_names(left, parts_in(pattern))
}

fn is_new(left: &[Pattern], before: &[Part], name: &[u8]) -> bool
    ensures { result ≡ is_new left.now before.now name.now }
{
    !(bytes_are_bound(left, name) || is_among(name, before))
}

fn has_new_name(left: &[Pattern], before: &[Part], part: &Part) -> bool
    ensures { result ≡ part_name_passes (is_new left.now before.now) part.now }
{
    match part {
        Part::Text(_) => true,
        Part::Sized { name, .. } => is_new(left, before, name.slice()),
        Part::Named(name) => is_new(left, before, name.slice()),
        Part::Length(name) => is_new(left, before, name.slice()),
    }
}

/// Whether a byte name of the parts stands in an earlier item or part.
pub fn has_again(left: &[Pattern], parts: &[Part]) -> bool
    ensures { result ≡ has_again left.now [] parts.now }
{
    for (index, part) in parts.iter().enumerate() {
        if !has_new_name(left, &parts[..index], part) {
            return true;
        }
    }
    false
}
