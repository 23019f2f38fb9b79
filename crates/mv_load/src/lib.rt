//! Demonstration guests, and loads: large valid inputs, each made of a number, and their rehearsal.
#![tactic(auto)]

mod auditing;
mod figures;
mod files;
mod guests;
mod player;
mod rehearsal;
mod script;
#[cfg(test)]
mod tests;

pub use auditing::audit_load;
pub use figures::{Figures, figures_of};
pub use files::{guest_file, load_files};
pub use guests::{Demo, guest_text};
pub use player::{Plan, Player};
pub use rehearsal::load;
pub use script::{MOST_CONNECTIONS, load_beats, load_lines, load_script};
