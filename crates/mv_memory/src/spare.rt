//! Room for the bytes of a page, so that a write wants no memory for them.
ghost use Rattle.std.specs.Prelude.{◌≡◌, ◌≤◌, [], length, vec_capacity, IsOk};

use crate::page::PAGE_BYTES;
use mv_calls::OutOfMemory;
use std::alloc::Global;

#[derive(Drop)]
pub(crate) struct Spare {
    room: Vec<u8>,
    ghost empty: { room.items ≡ [] },
    ghost enough: { 65536 ≤ vec_capacity room },
}

impl Spare {
    pub(crate) fn new(alloc: Global) -> Result<Spare, OutOfMemory> {
        let room = Vec::with_capacity(alloc, PAGE_BYTES)?;
        Ok(Spare { room })
    }

    /// The bytes, at most as many as a page has, in the room.
    pub(crate) fn filled(self, bytes: &[u8]) -> Vec<u8>
        requires { length bytes.now ≤ 65536 }
        ensures { result.items ≡ bytes.now }
    {
        let Spare { mut room } = self;
        if room.extend_from_slice(bytes).is_err() {
            unreachable!();
        }
        room
    }
}
