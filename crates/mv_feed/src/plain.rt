//! A feed on one thread, which keeps the messages that were put and not taken.
ghost use Rattle.std.specs.Prelude.{◌≡◌, ◌≤◌, length};

use crate::msg::Msg;
use circular_buffer::HeapCircularBuffer;

mod steps;

/// Both ends of a feed in one, on one thread. It drops what is left in it.
#[derive(Drop)]
pub struct PlainFeed<V> {
    pub(crate) kept: HeapCircularBuffer<Msg<V>>,
    ghost fits: { length kept.items ≤ kept.capacity },
    ghost sized: { (4 ≤ kept.capacity) × (kept.capacity ≤ 4096) },
}
