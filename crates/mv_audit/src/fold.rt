//! The plain, slow reading of a log: the first entry that may not come.
ghost use Rattle.std.specs.Prelude.{◌≡◌, IfOk, IfNone, IfSome};
ghost use Rattle.mv_audit.specs.Audit.{IsCounted, world_of};
ghost use Rattle.mv_history.specs.World.{AreLegal, IsFirstIllegal, MayEnter, after_entry, begun};

use crate::auditing::{Audit, may_enter};
use crate::entering::enter;
use mv_calls::OutOfMemory;
use mv_history::{Entry, Status, Update, Updates};
use mv_version::{Event, Version};
use std::alloc::Global;

/// The same world, with what the leader does next.
fn next_of<V: Version>(alloc: Global, audit: Audit<V>) -> Result<(Audit<V>, Event), OutOfMemory>
    ensures same { IfOk result (λ next. world_of V.behaviour next.0 ≡ world_of V.behaviour audit) }
    ensures event { IfOk result (λ next. V.behaviour.go (V.behaviour.state next.0.lead) ≡ next.1) }
{
    let mut lead = audit.lead;
    let event = lead.go(alloc)?;
    let audit = Audit {
        lead,
        follower: audit.follower,
        status: audit.status,
    };
    Ok((audit, event))
}

/// The world after the entry, if it may come where the leader does this.
#[tactic(auto, using(crate::proofs::FoldLaws::counts_fit))]
fn turn_by<V: Version>(
    alloc: Global,
    audit: Audit<V>,
    event: &Event,
    updates: &[Update],
    entry: &Entry,
) -> Result<Option<Audit<V>>, OutOfMemory>
    requires event { V.behaviour.go (V.behaviour.state audit.lead) ≡ event.now }
    requires counted { IsCounted audit.status }
    ensures may { IfOk result (λ o. IfSome o (λ next. MayEnter V.behaviour updates.now (world_of V.behaviour audit) entry.now)) }
    ensures entered { IfOk result (λ o. IfSome o (λ next. world_of V.behaviour next ≡ after_entry V.behaviour updates.now (world_of V.behaviour audit) entry.now)) }
    ensures refused { IfOk result (λ o. IfNone o (MayEnter V.behaviour updates.now (world_of V.behaviour audit) entry.now → ⊥)) }
{
    if !may_enter(alloc, &audit, event, updates, entry)? {
        return Ok(None);
    }
    let next = enter(alloc, audit, updates, entry)?;
    Ok(Some(next))
}

/// The world after the entry, if it may come.
fn turn<V: Version>(
    alloc: Global,
    audit: Audit<V>,
    updates: &[Update],
    entry: &Entry,
) -> Result<Option<Audit<V>>, OutOfMemory>
    requires { IsCounted audit.status }
    ensures may { IfOk result (λ o. IfSome o (λ next. MayEnter V.behaviour updates.now (world_of V.behaviour audit) entry.now)) }
    ensures entered { IfOk result (λ o. IfSome o (λ next. world_of V.behaviour next ≡ after_entry V.behaviour updates.now (world_of V.behaviour audit) entry.now)) }
    ensures refused { IfOk result (λ o. IfNone o (MayEnter V.behaviour updates.now (world_of V.behaviour audit) entry.now → ⊥)) }
{
    let (audit, event) = next_of(alloc, audit)?;
    turn_by(alloc, audit, &event, updates, entry)
}

/// The number of the first entry that may not come, counted from 0, in a log that begins with this world and has these updates;
/// none where the log is legal.
fn first_illegal_from<V: Version>(
    alloc: Global,
    audit: Audit<V>,
    updates: &Updates,
    entries: &[Entry],
) -> Result<Option<u64>, OutOfMemory>
    requires { IsCounted audit.status }
    ensures legal { IfOk result (λ first. IfNone first (AreLegal V.behaviour updates.now.list (world_of V.behaviour audit) entries.now)) }
    ensures illegal { IfOk result (λ first. IfSome first (λ i. IsFirstIllegal V.behaviour updates.now.list (world_of V.behaviour audit) entries.now i)) }
{
    let mut audit = audit;
    for (i, entry) in entries.iter().enumerate() {
        match turn(alloc, audit, updates.slice(), entry)? {
            Some(next) => audit = next,
            None => return Ok(Some(i as u64)),
        }
    }
    Ok(None)
}

/// The number of the first entry that may not come, counted from 0, in a log that begins with this leader and has these
/// updates; none where the log is legal (docs/DEFINITIONS.md). It runs the leader, and replays a follower anew where that alone
/// tells whether a mark may come. The one error is want of memory.
pub fn first_illegal<V: Version>(
    alloc: Global,
    lead: V,
    updates: &Updates,
    entries: &[Entry],
) -> Result<Option<u64>, OutOfMemory>
    ensures legal { IfOk result (λ first. IfNone first (AreLegal V.behaviour updates.now.list (begun (V.behaviour.state lead)) entries.now)) }
    ensures illegal { IfOk result (λ first. IfSome first (λ i. IsFirstIllegal V.behaviour updates.now.list (begun (V.behaviour.state lead)) entries.now i)) }
{
    let audit = Audit {
        lead,
        follower: None,
        status: Status::new(),
    };
    first_illegal_from(alloc, audit, updates, entries)
}
