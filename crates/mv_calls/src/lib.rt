//! The vocabulary that every crate speaks: the calls of a guest to the outside, their replies, byte
//! lists, traps, and want of memory.
#![tactic(auto)]

mod bytes;
mod calls;
mod copies;
mod fault;
mod fitting;
mod happenings;
mod room;
mod subs;
#[cfg(test)]
mod tests;
mod texts;
mod trap;

pub use bytes::Bytes;
pub use calls::{Call, Item, Reply, reply_room, suits};
pub use copies::{copy_call, copy_item, copy_reply};
pub use fault::{Or, OutOfMemory};
pub use fitting::{fits, same_call};
pub use happenings::{Happened, Happenings};
pub use room::Room;
pub use subs::{Sub, Subs};
pub use texts::Texts;
pub use trap::Trap;
