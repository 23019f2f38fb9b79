//! A run on two threads: the leader and the operator in one, the follower in the other, and a lock for each.
//!
//! What lies under a lock is kept by its type, and nothing but the name of the ring is said of both. What a run comes to is
//! said in the words of `mv_rehearse`, whatever the threads do.
#![tactic(auto)]

mod activities;
mod ending;
mod leading;
mod names;
#[cfg(test)]
mod tests;
mod threads;
mod trailing;

pub use threads::serve;
