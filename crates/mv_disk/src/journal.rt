//! The journal.
ghost use Rattle.std.specs.Prelude.{◌≡◌, ◌≢◌, ◌⊎◌, ◌+◌, ◌^◌, ◌≤◌, ◌++◌, [], ◌∷◌, length, OnOk, false, is_err};
ghost use Rattle.mv_calls.specs.Or.{IsFault, WantsMemory};
ghost use Rattle.mv_outside.specs.Causes.{Rose};
ghost use Rattle.mv_disk.specs.Disk.{HasLength, IfTold, IsSameDisk, LeavesOnly};
ghost use Rattle.mv_disk.specs.Records.{records};
ghost use Rattle.mv_disk.specs.Kept.{HasRecords, IsBlank, IsKept, IsWhole, Story, new_story, told_on};
ghost use Rattle.mv_disk.specs.Made.{IfJournal, IfUsed, IsFailed, IsUsed, disk_of};

use crate::disk::Disk;
use crate::writing::{append_at, prepare};
use mv_calls::Or;
use mv_outside::Failed;
use std::alloc::Global;
use std::marker::Model;

/// Records on a disk, each there whole from the moment on at which `append` answered Ok.
#[derive(Drop)]
pub struct Journal<D: Disk> {
    disk: D,
    end: u64,
    failed: bool,
}

impl<D: Disk> Model for Journal<D> {
    ghost use Rattle.mv_disk.specs.Journal.{JournalSeen, IsReady};

    ghost Value = { JournalSeen D };

    ghost view = { λ j. record { disk = j.disk; failed = j.failed } };

    ghost invariant = { λ j. IsReady j.end j.failed (D.reads j.disk) (D.may_leave j.disk) };
}

/// What came of making a journal. The disk is handed back with every answer.
#[derive(Drop)]
pub enum Made<D: Disk> {
    /// A journal without a record.
    Journal(Journal<D>),
    /// The disk isn't empty: it has this length.
    Used { disk: D, len: u64 },
    /// A call of the disk failed.
    Failed { disk: D },
    /// There was no memory for a call of the disk.
    Memory { disk: D },
}

/// Where the first record begins behind its gate: the mark and the gate end here.
const FIRST_END: u64 = 9;

impl<D: Disk> Journal<D> {
    /// A journal without a record on an empty disk. Another disk is left as it is.
    pub fn create(alloc: Global, disk: D) -> Made<D>
        ensures journal { IfJournal result (λ j. (j.failed ≡ false) × HasLength (D.reads disk) 0 × IfTold (D.reads disk) (λ _. HasRecords (D.reads j.disk) (D.may_leave j.disk) [])) }
        ensures used { IfUsed result (λ len. (len ≢ 0) × HasLength (D.reads disk) len × IsSameDisk D.reads D.may_leave D.moment D.left_since disk (disk_of result)) }
        // A disk that isn't empty is answered as such, unless it failed in this call.
        ensures used_where { IfTold (D.reads disk) (λ content. length content ≢ 0 → IsUsed result ⊎ Rose (D.faults disk) (D.faults (disk_of result))) }
        ensures any_moment { IsBlank (D.reads disk) (D.may_leave disk) → LeavesOnly D.moment D.left_since disk (disk_of result) (λ c. records c ≡ []) }
        ensures kept { IsBlank (D.reads disk) (D.may_leave disk) → IsKept D.moment D.left_since (disk_of result) (new_story (D.moment disk)) }
        ensures later { D.faults disk ≤ D.faults (disk_of result) }
        ensures cause { IsFailed result → Rose (D.faults disk) (D.faults (disk_of result)) }
    {
        let mut disk = disk;
        match prepare(alloc, &mut disk) {
            Ok(None) => Made::Journal(Journal {
                disk,
                end: FIRST_END,
                failed: false,
            }),
            Ok(Some(len)) => Made::Used { disk, len },
            Err(Or::Fault(Failed)) => Made::Failed { disk },
            Err(Or::OutOfMemory) => Made::Memory { disk },
        }
    }

    /// Adds a record. Any crash during the call leaves the records from before it, with this one or without; from an Ok on,
    /// every crash leaves it. After a failure or want of memory the journal takes no more.
    ///
    /// Want of memory comes too where the record's length passes what a u32 holds, and where the disk's end would pass what
    /// a u64 holds; these, and want of memory for the record itself, leave the disk as it was.
    pub fn append(&mut self, alloc: Global, bytes: &[u8]) -> Result<(), Or<Failed>>
        requires { self.old.failed ≡ false }
        ensures failed { self.new.failed ≡ is_err result }
        ensures appended { OnOk result (IfTold (D.reads self.old.disk) (λ content. HasRecords (D.reads self.new.disk) (D.may_leave self.new.disk) (records content ++ bytes.now ∷ []))) }
        ensures any_moment { IfTold (D.reads self.old.disk) (λ content. LeavesOnly D.moment D.left_since self.old.disk self.new.disk (λ c. (records c ≡ records content) ⊎ (records c ≡ records content ++ bytes.now ∷ []))) }
        ensures kept { IfTold (D.reads self.old.disk) (λ _. (s : Story) → IsWhole s → IsKept D.moment D.left_since self.old.disk s → IsKept D.moment D.left_since self.new.disk (told_on s bytes.now result (D.moment self.new.disk))) }
        ensures long { 2 ^ 32 ≤ length bytes.now → WantsMemory result × (self.new.disk ≡ self.old.disk) }
        ensures far { IfTold (D.reads self.old.disk) (λ content. 2 ^ 64 ≤ length content + (5 + length bytes.now) → WantsMemory result × (self.new.disk ≡ self.old.disk)) }
        ensures later { D.faults self.old.disk ≤ D.faults self.new.disk }
        ensures cause { IsFault result → Rose (D.faults self.old.disk) (D.faults self.new.disk) }
    {
        self.failed = true;
        self.end = append_at(alloc, &mut self.disk, self.end, bytes)?;
        self.failed = false;
        Ok(())
    }

    /// The disk, as it is.
    pub fn close(self) -> D
        ensures { result ≡ self.disk }
    {
        let Journal { disk, .. } = self;
        disk
    }
}
