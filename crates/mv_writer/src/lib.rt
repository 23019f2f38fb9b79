//! The binary writer: the shortest spelling of a module of WebAssembly Core 1.0, section 5.
#![tactic(auto)]

mod instructions;
mod laws;
mod module;
mod numbers;
mod opcodes;
mod parts;
mod runs;
mod sections;
#[cfg(test)]
mod tests;
mod types;
mod vectors;

pub use laws::writable_parts_are_spelled;
pub use module::write_module;
