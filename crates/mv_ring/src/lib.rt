//! The lock-free ring: a feed that two threads use at once, and neither waits for the other.
#![tactic(auto)]

mod board;
mod law;
mod make;
mod plays;
mod ring_in;
mod ring_out;
#[cfg(test)]
mod tests;

pub use law::between_steps;
pub use make::ring;
pub use ring_in::RingIn;
pub use ring_out::{RingNote, RingOut};
