//! Modules that are valid by WebAssembly Core 1.0, section 3.
#![tactic(auto)]

mod body;
mod control_frame;
mod declarations;
mod instr_type;
mod kind;
mod valid;

pub use valid::{ValidModule, validate};
