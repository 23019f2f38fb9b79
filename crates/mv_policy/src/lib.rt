//! Who may give which orders: a policy as a text, what it says of a line, and a console that keeps to it.
#![tactic(auto)]

mod console;
mod decision;
mod denial;
mod fault;
mod laws;
mod line;
mod parts;
mod policy;
mod reading;
mod ruled;
mod spoken;
#[cfg(test)]
mod tests;
mod text;

pub use console::PolicyConsole;
pub use decision::{Decision, decide};
pub use fault::{PolicyFault, PolicyKind};
pub use laws::words_are_orders;
pub use line::{PolicyLine, Which, Who};
pub use policy::Policy;
pub use ruled::Ruled;
pub use spoken::Spoken;
pub use text::{one_reading, parse_policy};
