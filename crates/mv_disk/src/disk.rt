//! What keeps bytes over a crash.
ghost use Rattle.std.specs.Prelude.{◌≡◌, ℕ, ◌≤◌, List, Option, Some, length, IfOk, OnOk, OnErr};
ghost use Rattle.mv_calls.specs.Or.{IsFault};
ghost use Rattle.mv_outside.specs.Causes.{Rose};
ghost use Rattle.mv_disk.specs.Disk.{IsInside, HasLength, StandsAt, IsWritten, IsWrittenInPart, IsSameDisk, Torn, Follows, IsOnDisk, Elapses};

use mv_calls::Or;
use mv_outside::Failed;
use std::alloc::Global;

/// One row of bytes that is read, written in place or past its end, and made to last by `sync`.
///
/// Between two syncs a crash may leave any bytes in each range written and past the old end, up to the new end; bytes
/// outside stay. A disk that tells nothing tells `None` for what it reads, and then promises nothing by the rest.
pub trait Disk: Drop {
    /// What it reads, where it is told.
    ghost reads: { Self → Option (List ℕ) };

    /// What a crash now may leave.
    ghost may_leave: { Self → List ℕ → Type 0 };

    /// The time, as a number that never falls.
    ghost moment: { Self → ℕ };

    /// What a crash at any moment since that one may have left, during a call or between two.
    ghost left_since: { Self → ℕ → List ℕ → Type 0 };

    /// How often it has failed.
    ghost faults: { Self → ℕ };

    /// How many bytes it reads.
    fn len(&mut self) -> Result<u64, Failed>
        ensures length { IfOk result (HasLength (reads self.old)) }
        ensures same { IsSameDisk reads may_leave moment left_since self.old self.new }
        ensures later { faults self.old ≤ faults self.new }
        ensures cause { OnErr result (Rose (faults self.old) (faults self.new)) };

    /// Reads the bytes from `at` on, as many as `into` has place for. Where it fails, `into` holds any bytes.
    fn read_at(&mut self, at: u64, into: &mut [u8]) -> Result<(), Failed>
        requires { IsInside (reads self.old) at (length into.old) }
        ensures bytes { OnOk result (StandsAt (reads self.old) at into.new) }
        ensures same { IsSameDisk reads may_leave moment left_since self.old self.new }
        ensures later { faults self.old ≤ faults self.new }
        ensures cause { OnErr result (Rose (faults self.old) (faults self.new)) };

    /// Writes the bytes from `at` on, over what stands there and past the end. Where it fails, or wants memory, a part
    /// may have been written.
    fn write_at(&mut self, alloc: Global, at: u64, bytes: &[u8]) -> Result<(), Or<Failed>>
        requires { IsInside (reads self.old) at 0 }
        ensures written { OnOk result (IsWritten (reads self.old) at bytes.now (reads self.new)) }
        ensures part { OnErr result (IsWrittenInPart (reads self.old) at (length bytes.now) (reads self.new)) }
        ensures crash { Follows (Torn at (length bytes.now)) (may_leave self.old) (may_leave self.new) }
        ensures time { Elapses (moment self.old) (moment self.new) (left_since self.old) (left_since self.new) (may_leave self.new) }
        ensures later { faults self.old ≤ faults self.new }
        ensures cause { IsFault result → Rose (faults self.old) (faults self.new) };

    /// Makes what it reads last: after it a crash leaves just that. Where it fails, or wants memory, a crash may leave
    /// what it could before.
    fn sync(&mut self, alloc: Global) -> Result<(), Or<Failed>>
        ensures lasts { OnOk result (IsOnDisk (reads self.new) (may_leave self.new)) }
        ensures reads { reads self.new ≡ reads self.old }
        ensures crash { (c : List ℕ) → may_leave self.new c → may_leave self.old c }
        ensures time { Elapses (moment self.old) (moment self.new) (left_since self.old) (left_since self.new) (may_leave self.new) }
        ensures later { faults self.old ≤ faults self.new }
        ensures cause { IsFault result → Rose (faults self.old) (faults self.new) };

    /// What it reads, a crash now may leave.
    ghost leaves_read: { (disk : Self) (content : List ℕ) → reads disk ≡ Some content → may_leave disk content };

    /// What a crash now may leave, it may have left since each moment so far.
    ghost counts_now: { (disk : Self) (t : ℕ) (c : List ℕ) → t ≤ moment disk → may_leave disk c → left_since disk t c };

    /// Since this moment there is no other.
    ghost only_now: { (disk : Self) (c : List ℕ) → left_since disk (moment disk) c → may_leave disk c };
}
