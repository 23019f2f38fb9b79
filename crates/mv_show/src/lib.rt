//! The entries of a log as lines of JSON, which an operator and `jq` read (docs/FORMATS.md, "Shown log").
#![tactic(auto)]

mod calls;
mod causes;
mod entries;
mod lines;
mod names;
mod orders;
#[cfg(test)]
mod tests;
mod texts;

pub use lines::log_lines;
pub use names::{read_kind_name, rule_kind_name, trap_name, valid_kind_name};
pub use orders::stage_name;
