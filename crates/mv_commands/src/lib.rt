//! The commands of the program: from the words of a command line to a status and its line.
#![tactic(auto)]

mod assembling;
mod carrying;
mod ending;
mod fault_lines;
mod judging;
mod keeping;
mod loading;
mod loads;
mod running;
mod showing;

pub use carrying::{carry_out, program};
pub use ending::{Ending, Finding, LoadEnding};
pub use mv_rehearse::{ExitStatus, Outcome};
pub use mv_schedule::ScheduleFault;
