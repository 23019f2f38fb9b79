//! Rewrite rules, and the text that they are written in.
#![tactic(auto)]

mod fault;
mod faults;
mod forms;
mod laws;
mod line;
mod lists;
mod names;
mod reading;
mod rule;
mod terms;
#[cfg(test)]
mod tests;
mod text;
mod verb;

pub use fault::{RuleFault, RuleKind};
pub use laws::{
    a_fault_is_of_the_lines_up_to_it, a_text_is_one_list_of_rules_or_faulty,
    spelled_rules_are_shaped,
};
pub use lists::{Guards, Parts, Patterns, Rules};
pub use rule::{Comparison, FdTerm, Guard, Part, Pattern, Rule, TimeTerm};
pub use text::parse_rules;
