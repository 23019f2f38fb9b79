//! The outside of a guest and of its host, as traits with a written meaning.
//!
//! What an object tells is an `Option` in a ghost member, `None` where it tells nothing, as a real
//! socket does. Its faults are a count that never falls, and that rises with each failure.
#![tactic(auto)]

mod console;
mod fault;
mod files;
mod free_gate;
mod gate;
mod kernel;
mod mem_console;
mod mem_files;
mod run;
mod sink;
#[cfg(test)]
mod tests;
mod vec_sink;

pub use console::{Console, Line};
pub use fault::Failed;
pub use files::{Files, Found};
pub use free_gate::FreeGate;
pub use gate::Gate;
pub use kernel::Kernel;
pub use mem_console::MemConsole;
pub use mem_files::{FileAt, MemFiles, paths_differ};
pub use run::Run;
pub use sink::Sink;
pub use vec_sink::VecSink;
