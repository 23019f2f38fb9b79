//! What a run changes.

use mv_frames::{Frame, Store};

/// The most calls that may be open.
pub const FRAME_LIMIT: usize = 1024;

/// The most operands that all calls may have together.
pub const OPERAND_LIMIT: usize = 65_536;

/// The most instructions in one gap.
pub const GAP_LIMIT: u32 = 50_000_000;

/// A configuration of the machine.
#[derive(Drop)]
pub struct State {
    /// The memory, the globals and the table.
    pub store: Store,
    /// The calls that have not returned, the newest last. A call's number is that of its function among the module's own.
    pub frames: Vec<Frame>,
    /// How many operands all calls have together.
    pub operands: usize,
    /// The imported function that was called and not yet answered. Its arguments lie on the newest call's operands.
    pub waiting: Option<u32>,
    /// Where no call is left, what the last one gave.
    pub given: Option<u64>,
    /// How many instructions have counted since the gap was last set to 0.
    pub gap: u32,
}
