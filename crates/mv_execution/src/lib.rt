//! Execution (WebAssembly Core 1.0, section 4): configurations, their step, and runs. They are definitions over bodies as
//! trees, in `specs/`, with their laws; the machine that runs code meets them.
#![tactic(auto)]

mod laws;

pub use laws::{
    one_more_or_none, runs_go_on, runs_stay_within_limits, stops_are_seen,
    typed_code_is_never_stuck,
};
