//! What a descriptor is, in bytes.
ghost use Rattle.std.specs.Prelude.{◌≡◌};
ghost use Rattle.mv_wasi.specs.Answers.{stat_bytes};

use crate::filling::push_all;
use arrayvec::ArrayVec;

/// The bytes of an fdstat.
const STAT_BYTES: usize = 24;

/// An fdstat of 24 bytes.
pub fn bytes_of_stat(filetype: u8, flags: u16, rights: u64, heirs: u64) -> ArrayVec<u8, STAT_BYTES>
    ensures { result.items ≡ stat_bytes filetype flags rights heirs }
{
    let mut bytes = ArrayVec::new();
    push_all(&mut bytes, &[filetype, 0]);
    push_all(&mut bytes, &flags.to_le_bytes());
    push_all(&mut bytes, &[0; 4]);
    push_all(&mut bytes, &rights.to_le_bytes());
    push_all(&mut bytes, &heirs.to_le_bytes());
    bytes
}
