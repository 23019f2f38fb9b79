//! What the log of a run means: its entries, their payload, the status that they lead to, and the laws of legal logs. The
//! definitions stand in `specs` (docs/DEFINITIONS.md tells them in plain words); `mv_audit` reads a log by them.
#![tactic(auto)]

mod base_laws;
mod entering;
mod entries;
mod judgement_laws;
mod laws;
mod log;
mod log_laws;
mod payload;
mod spot_laws;
mod status;
mod step_laws;
#[cfg(test)]
mod tests;
mod updates;

pub use base_laws::{bases_follow, messages_make_the_follower};
pub use entering::{end_log, enter, enter_mark};
pub use entries::Entries;
pub use judgement_laws::judgements_may_come;
pub use laws::{
    accepted_rules_are_shaped, counts_fit, leads_by_itself, no_byte_lost, replays_join,
    turns_are_legal, verdicts_stay, worlds_have_a_shape,
};
pub use log::{Cause, Entry, How, Log, Mark, Side, Start, Why};
pub use log_laws::{
    followers_hear, later_updates_are_unread, logs_end_once, logs_join, orders_keep_the_rest,
    turns_send_little,
};
pub use spot_laws::{messages_are_settled, spots_are_tied};
pub use status::{
    Asked, AtPoint, ENTRY_LIMIT, PAYLOAD_LIMIT, Status, UPDATE_LIMIT, Urgent, Wanted,
};
pub use step_laws::{readings_stay, steps_are_shown};
pub use updates::{Update, Updates};
