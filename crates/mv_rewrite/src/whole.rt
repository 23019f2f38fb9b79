//! Rewriting of a whole list, plainly.
ghost use Rattle.std.specs.Prelude.{◌≡◌, ◌++◌, IfOk};
ghost use Rattle.mv_rules.specs.Shape.{AreShaped};
ghost use Rattle.mv_rewrite.specs.Deciding.{groups};
ghost use Rattle.mv_rewrite.specs.Rewriting.{decide};

use crate::decide::{Decision, decide_front};
use crate::held::hold_all;
use crate::items::Items;
use mv_calls::{Item, OutOfMemory, copy_item};
use mv_rules::Rule;
use std::alloc::Global;

/// What each decision gives, from the first item on (docs/DEFINITIONS.md, "Rewriting"). `more` says that more items may come
/// behind these: then the groups, joined, are the sure rewriting of the items, and else the whole one. It copies what passes.
/// The one error is want of memory, which stands for a made item too whose length doesn't fit.
pub fn rewrite_whole(
    alloc: Global,
    rules: &[Rule],
    items: &[Item],
    more: bool,
) -> Result<Vec<Items>, OutOfMemory>
    requires { AreShaped rules.now }
    ensures { IfOk result (λ given. given.items ≡ groups (decide more rules.now) items.now) }
{
    let held = hold_all(alloc, items)?;
    let mut given = Vec::new(alloc);
    let mut rest = held.as_slice();
    while let [first, others @ ..] = rest {
        match decide_front(alloc, rules, rest, more)? {
            Decision::Pass => {
                let group = vec![in alloc; copy_item(alloc, first.item())?]?;
                given.push(Items::from_vec(group))?;
                rest = others;
            }
            Decision::Replace { made, count } => {
                given.push(made)?;
                let (_, after) = rest.split_at(count);
                rest = after;
            }
            Decision::Wait => return Ok(given),
        }
    }
    Ok(given)
}
