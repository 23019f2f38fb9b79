//! The lines of an assembler text: the words of one line to what it says (docs/FORMATS.md, "Assembler text").
#![tactic(auto)]

mod fault;
mod head;
mod instructions;
mod lists;
mod mnemonics;
mod numerals;
mod statement;
#[cfg(test)]
mod tests;
mod words;

pub use fault::{TextFault, TextKind, sooner};
pub use statement::{Reading, Statement, read_statement};
