//! A journal of records on a disk that survives a crash at any moment.
//!
//! What a disk promises is the trait [`Disk`]. What a content holds as records is docs/FORMATS.md, "The disk of a
//! recorder".
#![tactic(auto)]

mod disk;
mod journal;
mod mem_disk;
mod recovery;
#[cfg(test)]
mod tests;
mod writing;

pub use disk::Disk;
pub use journal::{Journal, Made};
pub use mem_disk::{MemDisk, Step};
pub use recovery::recover;
