//! The machine: it runs the functions of a valid module over its flat code (WebAssembly Core 1.0, section 4), as the runs over
//! trees of the crate mv_execution go.
#![tactic(auto)]

mod calls;
mod copy;
mod instance;
mod machine;
mod outside;
mod run;
mod state;
#[cfg(test)]
mod tests;
mod turns;

pub use machine::Machine;
pub use run::Stop;
