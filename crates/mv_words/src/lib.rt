//! The words of the command line: one grammar, one reader.
#![tactic(auto)]

mod addresses;
mod command;
mod given;
mod laws;
mod reading;
mod shapes;
#[cfg(test)]
mod tests;

pub use addresses::{Addresses, places};
pub use command::{BadWords, Command};
pub use laws::words_ask_for_one_thing;
pub use reading::read_words;
