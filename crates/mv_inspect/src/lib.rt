//! Log files that are named by their paths: read, and audited over the module and the files of the updates that are named
//! beside them.
#![tactic(auto)]

mod auditing;
mod listing;
mod naming;
#[cfg(test)]
mod tests;

pub use auditing::{Inspected, audit_at};
pub use listing::{Listed, log_at};
