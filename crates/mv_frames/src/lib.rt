//! Calls that have not returned, over the flat code of a module, and how they move: to the end of a block, to its start, into
//! a block and out of it. Each is a move of a frame over trees (the crate mv_execution).
#![tactic(auto)]

mod access;
mod frame;
mod instruction;
mod step;
mod store;
mod walk;

pub use access::run_access;
pub use frame::{
    Frame, Label, begin_block, branch, close, enter, enter_if, leave_blocks, new_call, pop, push,
    replace_top, top,
};
pub use instruction::act;
pub use step::advance;
pub use store::Store;
pub use walk::{is_list_end, other_list, past_ends};
