//! The assembler: a text to the module that it spells, or to its first fault (docs/FORMATS.md, "Assembler text").
#![tactic(auto)]

mod comments;
mod draft;
mod laws;
mod state;
#[cfg(test)]
mod tests;
mod text;
mod unended;

pub use laws::a_text_is_one_module_or_faulty;
pub use mv_statements::{TextFault, TextKind};
pub use text::assemble;
