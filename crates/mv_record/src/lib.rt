//! The log of a run as a file (docs/FORMATS.md, "Log file").
#![tactic(auto)]

mod fault;
mod fields;
mod file;
mod laws;
mod lists;
mod putting;
mod reading_births;
mod reading_bodies;
mod reading_calls;
mod reading_marks;
mod reading_orders;
#[cfg(test)]
mod tests;
mod writing;
mod writing_births;
mod writing_bodies;
mod writing_calls;
mod writing_marks;
mod writing_orders;

pub use fault::{RecordFault, RecordKind};
pub use file::read_log;
pub use laws::{a_file_can_be_written_again, a_file_has_one_log, a_log_has_one_file};
pub use writing::write_log;
