//! The feed: messages from the leader to the follower, first in first out, as each end sees it, and the
//! feed of one thread.
#![tactic(auto)]

mod feed;
mod msg;
mod plain;
#[cfg(test)]
mod tests;

pub use feed::{FeedIn, FeedOut};
pub use msg::Msg;
pub use plain::PlainFeed;
