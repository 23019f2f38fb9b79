//! What an operator may order, and the lines that answer him (docs/FORMATS.md, "Orders").
#![tactic(auto)]

mod length;
mod order;
mod reply;
mod stage;
#[cfg(test)]
mod tests;

pub use length::reply_length;
pub use order::{Order, OrderFault, one_reading, read_order};
pub use reply::{OrderReply, reply_line};
pub use stage::{Last, Stage, Word};
