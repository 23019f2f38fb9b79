//! A guest as a function of the replies that it gets: what every layer above a machine knows of it.
#![tactic(auto)]

mod event;
mod version;

pub use event::Event;
pub use version::Version;
