//! The decision at the front of a list.
ghost use Rattle.std.specs.Prelude.{◌≡◌, ◌≤◌, ◌<◌, IfOk, length};
ghost use Rattle.mv_rules.specs.Shape.{AreShaped};
ghost use Rattle.mv_rewrite.specs.Decisions.{IsWithin, MakesCounted, decision_seen};
ghost use Rattle.mv_rewrite.specs.Rewriting.{decide};

use crate::fit::Fit;
use crate::held::Held;
use crate::items::Items;
use crate::make::make_right;
use crate::matching::match_rule;
use mv_calls::OutOfMemory;
use mv_rules::Rule;
use std::alloc::Global;

/// What is decided: the head passes; or the first `count` items are replaced; or more items are wanted first.
#[derive(Drop)]
pub enum Decision {
    Pass,
    Replace { made: Items, count: usize },
    Wait,
}

/// Decides the front. `more` says that more items may come.
pub fn decide_front(
    alloc: Global,
    rules: &[Rule],
    items: &[Held],
    more: bool,
) -> Result<Decision, OutOfMemory>
    requires some { 0 < length items.now }
    requires shaped { AreShaped rules.now }
    ensures decided { IfOk result (λ decision. decision_seen decision items.now ≡ decide more rules.now items.now) }
    ensures within { IfOk result (λ decision. IsWithin decision (length items.now)) }
    ensures counted { IfOk result (λ decision. MakesCounted decision) }
{
    first_decision(alloc, rules, items, more)
}

/// What the first rule that says anything decides.
fn first_decision(
    alloc: Global,
    rules: &[Rule],
    items: &[Held],
    more: bool,
) -> Result<Decision, OutOfMemory>
    requires some { 0 < length items.now }
    requires shaped { AreShaped rules.now }
    ensures decided { IfOk result (λ decision. decision_seen decision items.now ≡ decide more rules.now items.now) }
    ensures counted { IfOk result (λ decision. MakesCounted decision) }
{
    for rule in rules {
        match match_rule(alloc, rule, items)? {
            Fit::Whole(names) => {
                return Ok(Decision::Replace {
                    made: make_right(alloc, &names, rule.right.slice())?,
                    count: rule.left.slice().len(),
                });
            }
            Fit::Short => {
                if more {
                    return Ok(Decision::Wait);
                }
            }
            Fit::Not => {}
        }
    }
    Ok(Decision::Pass)
}
