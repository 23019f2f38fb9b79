//! Schedules: the letters of a rehearsal's beats.
#![tactic(auto)]

mod fault;
mod reading;
#[cfg(test)]
mod tests;

pub use fault::ScheduleFault;
pub use reading::read_schedule;
