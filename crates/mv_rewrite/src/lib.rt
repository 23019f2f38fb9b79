//! Rewriting of calls and replies by rules.
#![tactic(auto)]

mod decide;
mod fit;
mod held;
mod items;
mod laws;
mod make;
mod matching;
mod names;
mod parts;
mod rewriter;
#[cfg(test)]
mod tests;
mod whole;

pub use items::Items;
pub use laws::{given_comes_first, kept_reads_stay, matching_is_exact, sure_stays};
pub use rewriter::Rewriter;
pub use whole::rewrite_whole;
