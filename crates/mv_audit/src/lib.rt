//! The plain reading of a log: it runs the leader, replays each follower anew, and finds the first entry that may not come.
//! What a log means stands below, in `mv_history`.
#![tactic(auto)]

mod answering;
mod auditing;
mod entering;
mod fold;
mod following;
mod replaying;
#[cfg(test)]
mod rows;
mod same;
#[cfg(test)]
mod tests;

pub use fold::first_illegal;
