//! A kernel in memory that plays a script: it tells what it did, and fails exactly at the calls named.
#![tactic(auto)]

mod mem_kernel;
mod script;
mod scripted;
mod socket;
#[cfg(test)]
mod tests;

pub use mem_kernel::MemKernel;
pub use script::{Conn, Conns, Numbers, Script};
