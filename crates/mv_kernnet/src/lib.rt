//! The outside of a guest and of its host over the network: a kernel whose connections are those of a
//! listener, and a console that an operator reaches by a connection.
//!
//! Nothing that comes from the system is known beforehand, so both tell nothing. What contracts see of
//! them is their count of faults and their memory.
#![tactic(auto)]

mod clocks;
mod connections;
mod console;
mod door;
mod errno;
mod heard;
mod kernel;
mod poll;
mod replies;
mod sockets;
mod streams;
#[cfg(test)]
mod tests;

pub use console::NetConsole;
pub use kernel::NetKernel;
