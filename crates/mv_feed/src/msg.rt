//! What is sent.
use mv_calls::{Bytes, Item};

/// A message from the leader's side of a run to the follower's. `V` is a version of the guest, as it
/// stands at a call.
#[derive(Drop)]
pub enum Msg<V> {
    /// An update was staged: the follower is to build its state from `old`, a copy of the leader, by the
    /// bytes of the new module and of the two lists of rules.
    Fork {
        /// Which update it is.
        update: u32,
        /// The copy of the leader's version.
        old: V,
        /// The bytes of the new module.
        module: Bytes,
        /// The bytes of the rules from the old version's calls to the new one's.
        forward: Bytes,
        /// The bytes of the rules from the new version's calls to the old one's.
        reverse: Bytes,
    },
    /// The leader did a call and got its reply.
    Heard {
        item: Item,
    },
    /// The follower is to give its version to the leader; `n` is the number of the log entry that says so.
    Hand {
        n: u64,
    },
    /// The version that led, which is to follow from now on.
    Stand {
        guest: V,
    },
}
