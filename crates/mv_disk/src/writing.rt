//! What a journal writes to its disk.
ghost use Rattle.std.specs.Prelude.{◌≡◌, ◌≢◌, ◌⊎◌, ◌+◌, ◌<◌, ◌≤◌, ◌^◌, ◌++◌, [], ◌∷◌, length, unwrap_or, IfOk, IfSome, IfNone, OnOk};
ghost use Rattle.mv_calls.specs.Or.{IsFault, WantsMemory};
ghost use Rattle.mv_outside.specs.Causes.{Rose};
ghost use Rattle.mv_disk.specs.Disk.{IfTold, IsInside, HasLength, IsWritten, IsOnDisk, IsSameDisk, LeavesOnly, Only, Torn};
ghost use Rattle.mv_disk.specs.Records.{records};
ghost use Rattle.mv_disk.specs.Journal.{IsAtRest, sized};
ghost use Rattle.mv_disk.specs.Kept.{IsBlank, HasRecords};

use crate::disk::Disk;
use mv_calls::{Or, OutOfMemory};
use mv_outside::Failed;
use std::alloc::Global;

/// What a content with records begins with.
pub const MARK: [u8; 8] = *b"MVDISK01";

/// Writes the bytes, and makes what the disk then reads last.
fn write_to_last<D: Disk>(
    alloc: Global,
    disk: &mut D,
    at: u64,
    bytes: &[u8],
) -> Result<(), Or<Failed>>
    requires { IsInside (D.reads disk.old) at 0 }
    ensures written { OnOk result (IsWritten (D.reads disk.old) at bytes.now (D.reads disk.new)) }
    ensures lasts { OnOk result (IsOnDisk (D.reads disk.new) (D.may_leave disk.new)) }
    ensures any_moment { IfTold (D.reads disk.old) (λ content. Only content (D.may_leave disk.old) → LeavesOnly D.moment D.left_since disk.old disk.new (Torn at (length bytes.now) content)) }
    ensures later { D.faults disk.old ≤ D.faults disk.new }
    ensures cause { IsFault result → Rose (D.faults disk.old) (D.faults disk.new) }
{
    disk.write_at(alloc, at, bytes)?;
    disk.sync(alloc)
}

/// A record's length, its body, and a closed gate. The one error is want of memory, which comes too where the length
/// passes what four bytes hold.
fn shut_record(alloc: Global, body: &[u8]) -> Result<Vec<u8>, OutOfMemory>
    ensures bytes { IfOk result (λ bytes. bytes.items ≡ sized body.now ++ 0 ∷ []) }
    ensures short { OnOk result (length body.now < 2 ^ 32) }
{
    if body.len() > u32::MAX as usize {
        return Err(OutOfMemory);
    }
    let mut bytes = Vec::from_slice(alloc, &(body.len() as u32).to_le_bytes())?;
    bytes.extend_from_slice(body)?;
    bytes.push(0)?;
    Ok(bytes)
}

/// Appends a record to the content that ends at `end`, and answers the new end. Each of the two writes lasts before the
/// next begins: the record behind its closed gate, then the gate.
pub fn append_at<D: Disk>(
    alloc: Global,
    disk: &mut D,
    end: u64,
    body: &[u8],
) -> Result<u64, Or<Failed>>
    requires some { 0 < end }
    requires at_rest { IfTold (D.reads disk.old) (IsAtRest end (D.may_leave disk.old)) }
    ensures at_rest { IfOk result (λ next. (0 < next) × IfTold (D.reads disk.new) (IsAtRest next (D.may_leave disk.new))) }
    ensures appended { OnOk result (IfTold (D.reads disk.old) (λ content. HasRecords (D.reads disk.new) (D.may_leave disk.new) (records content ++ body.now ∷ []))) }
    ensures any_moment { IfTold (D.reads disk.old) (λ content. LeavesOnly D.moment D.left_since disk.old disk.new (λ c. (records c ≡ records content) ⊎ (records c ≡ records content ++ body.now ∷ []))) }
    ensures long { 2 ^ 32 ≤ length body.now → WantsMemory result × (disk.new ≡ disk.old) }
    ensures far { IfTold (D.reads disk.old) (λ content. 2 ^ 64 ≤ length content + (5 + length body.now) → WantsMemory result × (disk.new ≡ disk.old)) }
    ensures later { D.faults disk.old ≤ D.faults disk.new }
    ensures cause { IsFault result → Rose (D.faults disk.old) (D.faults disk.new) }
{
    let shut = shut_record(alloc, body)?;
    let next = match end.checked_add(shut.len() as u64) {
        Some(next) => next,
        None => return Err(Or::OutOfMemory),
    };
    let bytes = shut.as_slice();
    write_to_last(alloc, disk, end, bytes)?;
    write_to_last(alloc, disk, end - 1, &[1])?;
    Ok(next)
}

/// Makes an empty disk ready for records. Of another disk it answers the length, and writes nothing.
pub fn prepare<D: Disk>(alloc: Global, disk: &mut D) -> Result<Option<u64>, Or<Failed>>
    ensures length { IfOk result (λ used. HasLength (D.reads disk.old) (unwrap_or used 0)) }
    ensures used { IfOk result (λ used. IfSome used (λ len. (len ≢ 0) × IsSameDisk D.reads D.may_leave D.moment D.left_since disk.old disk.new)) }
    ensures at_rest { IfOk result (λ used. IfNone used (IfTold (D.reads disk.new) (IsAtRest 9 (D.may_leave disk.new)))) }
    ensures ready { IfOk result (λ used. IfNone used (IfTold (D.reads disk.old) (λ _. HasRecords (D.reads disk.new) (D.may_leave disk.new) []))) }
    ensures memory { WantsMemory result → HasLength (D.reads disk.old) 0 }
    ensures any_moment { IsBlank (D.reads disk.old) (D.may_leave disk.old) → LeavesOnly D.moment D.left_since disk.old disk.new (λ c. records c ≡ []) }
    ensures later { D.faults disk.old ≤ D.faults disk.new }
    ensures cause { IsFault result → Rose (D.faults disk.old) (D.faults disk.new) }
{
    let len = match disk.len() {
        Ok(len) => len,
        Err(Failed) => return Err(Or::Fault(Failed)),
    };
    if len != 0 {
        return Ok(Some(len));
    }
    // The first gate is closed on the disk before the mark lets it count.
    write_to_last(alloc, disk, 0, &[0; 9])?;
    write_to_last(alloc, disk, 0, &MARK)?;
    Ok(None)
}
