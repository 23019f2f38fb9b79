//! What a disk holds, read back.
ghost use Rattle.std.specs.Prelude.{◌≡◌, ◌+◌, ◌<◌, ◌≤◌, ◌↔◌, length, take, drop, IfOk, IfSome, IsTrue, OnErr};
ghost use Rattle.std.specs.Option.{option_map};
ghost use Rattle.mv_calls.specs.Or.{IsFault};
ghost use Rattle.mv_outside.specs.Causes.{Rose};
ghost use Rattle.mv_disk.specs.Disk.{HasLength, IfTold, IsInside, IsSameDisk};
ghost use Rattle.mv_disk.specs.Records.{mark, front_body, records_from, records};

use crate::disk::Disk;
use crate::writing::MARK;
use mv_calls::{Bytes, Or, Texts};
use mv_outside::Failed;
use std::alloc::Global;

/// How many bytes stand before a record's body: its gate and its length.
const HEAD: u64 = 5;

/// Whether the disk begins with the mark.
fn is_marked<D: Disk>(disk: &mut D, len: u64) -> Result<bool, Failed>
    requires { HasLength (D.reads disk.old) len }
    ensures marked { IfOk result (λ marked. IfTold (D.reads disk.old) (λ content. IsTrue marked ↔ (take 8 content ≡ mark))) }
    ensures long { IfOk result (λ marked. IsTrue marked → 8 ≤ len) }
    ensures same { IsSameDisk D.reads D.may_leave D.moment D.left_since disk.old disk.new }
    ensures later { D.faults disk.old ≤ D.faults disk.new }
    ensures cause { OnErr result (Rose (D.faults disk.old) (D.faults disk.new)) }
{
    if len < 8 {
        return Ok(false);
    }
    let mut head = [0u8; 8];
    disk.read_at(0, &mut head)?;
    Ok(head.as_slice() == MARK.as_slice())
}

/// How long the body is of the record that begins at `at`, where it counts.
fn next_size<D: Disk>(disk: &mut D, at: u64, len: u64) -> Result<Option<u64>, Failed>
    requires length { HasLength (D.reads disk.old) len }
    requires within { at ≤ len }
    ensures size { IfOk result (λ size. IfTold (D.reads disk.old) (λ content. size ≡ option_map length (front_body (drop at content)))) }
    ensures inside { IfOk result (λ size. IfSome size (λ n. at + 5 + n < len)) }
    ensures same { IsSameDisk D.reads D.may_leave D.moment D.left_since disk.old disk.new }
    ensures later { D.faults disk.old ≤ D.faults disk.new }
    ensures cause { OnErr result (Rose (D.faults disk.old) (D.faults disk.new)) }
{
    let left = len - at;
    if left <= HEAD {
        return Ok(None);
    }
    let mut head = [0u8; 5];
    disk.read_at(at, &mut head)?;
    let gate = head[0];
    let size = u32::from_le_bytes([head[1], head[2], head[3], head[4]]) as u64;
    if gate == 1 && size < left - HEAD {
        Ok(Some(size))
    } else {
        Ok(None)
    }
}

/// So many bytes from this place on.
fn read_body<D: Disk>(alloc: Global, disk: &mut D, at: u64, size: u64) -> Result<Bytes, Or<Failed>>
    requires { IsInside (D.reads disk.old) at size }
    ensures bytes { IfOk result (λ bytes. IfTold (D.reads disk.old) (λ content. bytes ≡ take size (drop at content))) }
    ensures length { IfOk result (λ bytes. length bytes ≡ size) }
    ensures same { IsSameDisk D.reads D.may_leave D.moment D.left_since disk.old disk.new }
    ensures later { D.faults disk.old ≤ D.faults disk.new }
    ensures cause { IsFault result → Rose (D.faults disk.old) (D.faults disk.new) }
{
    let mut body = vec![in alloc; 0; size as usize]?;
    match disk.read_at(at, body.as_mut_slice()) {
        Ok(()) => Ok(Bytes::from_vec(body)),
        Err(Failed) => Err(Or::Fault(Failed)),
    }
}

/// The body of the record that begins at `at`, where it counts.
fn next_record<D: Disk>(
    alloc: Global,
    disk: &mut D,
    at: u64,
    len: u64,
) -> Result<Option<Bytes>, Or<Failed>>
    requires length { HasLength (D.reads disk.old) len }
    requires within { at ≤ len }
    ensures record { IfOk result (λ found. IfTold (D.reads disk.old) (λ content. found ≡ front_body (drop at content))) }
    ensures inside { IfOk result (λ found. IfSome found (λ body. at + 5 + length body < len)) }
    ensures same { IsSameDisk D.reads D.may_leave D.moment D.left_since disk.old disk.new }
    ensures later { D.faults disk.old ≤ D.faults disk.new }
    ensures cause { IsFault result → Rose (D.faults disk.old) (D.faults disk.new) }
{
    match next_size(disk, at, len) {
        Ok(Some(size)) => Ok(Some(read_body(alloc, disk, at + HEAD, size)?)),
        Ok(None) => Ok(None),
        Err(Failed) => Err(Or::Fault(Failed)),
    }
}

/// The records behind the mark, each read once.
fn records_behind<D: Disk>(alloc: Global, disk: &mut D, len: u64) -> Result<Vec<Bytes>, Or<Failed>>
    requires length { HasLength (D.reads disk.old) len }
    requires marked { 8 ≤ len }
    ensures records { IfOk result (λ found. IfTold (D.reads disk.old) (λ content. found.items ≡ records_from (drop 8 content))) }
    ensures same { IsSameDisk D.reads D.may_leave D.moment D.left_since disk.old disk.new }
    ensures later { D.faults disk.old ≤ D.faults disk.new }
    ensures cause { IsFault result → Rose (D.faults disk.old) (D.faults disk.new) }
{
    let mut found = Vec::new(alloc);
    let mut at = 8;
    'records: while let Some(body) = next_record(alloc, disk, at, len)? {
        at += HEAD + body.slice().len() as u64;
        found.push(body)?;
    }
    Ok(found)
}

/// The records that the disk holds, oldest first. The disk is only read, each record once, so it takes place in memory for
/// the records alone.
pub fn recover<D: Disk>(alloc: Global, disk: &mut D) -> Result<Texts, Or<Failed>>
    ensures records { IfOk result (λ texts. IfTold (D.reads disk.old) (λ content. texts ≡ records content)) }
    ensures same { IsSameDisk D.reads D.may_leave D.moment D.left_since disk.old disk.new }
    ensures later { D.faults disk.old ≤ D.faults disk.new }
    ensures cause { IsFault result → Rose (D.faults disk.old) (D.faults disk.new) }
{
    let len = match disk.len() {
        Ok(len) => len,
        Err(Failed) => return Err(Or::Fault(Failed)),
    };
    match is_marked(disk, len) {
        Ok(true) => Ok(Texts::from_vec(records_behind(alloc, disk, len)?)),
        Ok(false) => Ok(Texts::from_vec(Vec::new(alloc))),
        Err(Failed) => Err(Or::Fault(Failed)),
    }
}
