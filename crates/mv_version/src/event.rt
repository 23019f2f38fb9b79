//! What a guest does next.

use mv_calls::{Call, Trap};

/// The next thing that a guest does which others see.
#[derive(Debug, Drop)]
pub enum Event {
    /// It makes this call to the outside, and waits for the reply.
    Calls(Call),
    /// It has come to an update point.
    Point,
    /// It ends with this code.
    Ends(u32),
    /// It is stopped by a trap.
    Traps(Trap),
}
