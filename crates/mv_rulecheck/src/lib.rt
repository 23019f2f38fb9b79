//! The check that rules keep what is read and accepted.
#![tactic(auto)]

mod cursor;
mod kept;
#[cfg(test)]
mod tests;

pub use kept::{KeptRules, keep_reads};
