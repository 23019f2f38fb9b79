//! The world after an entry, plainly.
ghost use Rattle.std.specs.Prelude.{◌≡◌, ◌<◌, ◌^◌, true, IfOk, Some, None};
ghost use Rattle.mv_version.specs.declared.event.Event.TheVariants as events;
ghost use Rattle.mv_audit.specs.Audit.{StandsIn, follower_of, following_of, guests_after, guests_marked, handed_over, world_of};
ghost use Rattle.mv_history.specs.Followers.{Reaches, replayed};
ghost use Rattle.mv_history.specs.Replay.{Stands};
ghost use Rattle.mv_history.specs.World.{IsReady, MayEnter, MayMark, after_entry, also_hears, files_of, fork};

use crate::auditing::Audit;
use crate::following::{Basis, Follower, Judgement, judge};
use crate::replaying::Outcome;
use mv_calls::{Bytes, Item, OutOfMemory, copy_item};
use mv_history::{Entry, Mark, Status, Update};
use mv_version::Version;
use std::alloc::Global;

/// Equal files in places of their own.
fn copy_update(alloc: Global, update: &Update) -> Result<Update, OutOfMemory>
    ensures { IfOk result (λ copy. copy ≡ update.now) }
{
    Ok(Update {
        module: update.module.copy(alloc)?,
        forward: update.forward.copy(alloc)?,
        reverse: update.reverse.copy(alloc)?,
    })
}

/// The files of an update, by its number.
fn files_of(
    alloc: Global,
    updates: &[Update],
    status: &Status,
    update: u32,
) -> Result<Update, OutOfMemory>
    ensures { IfOk result (λ files. files ≡ files_of updates.now status.now update) }
{
    let before = status.updates.saturating_sub(status.fresh);
    let index = update.saturating_sub(1).saturating_sub(before) as usize;
    match updates.get(index) {
        Some(files) => copy_update(alloc, files),
        None => Ok(Update {
            module: Bytes::from_vec(Vec::new(alloc)),
            forward: Bytes::from_vec(Vec::new(alloc)),
            reverse: Bytes::from_vec(Vec::new(alloc)),
        }),
    }
}

/// The follower hears one item more.
fn hear<V: Version>(
    alloc: Global,
    follower: Option<Follower<V>>,
    item: &Item,
) -> Result<Option<Follower<V>>, OutOfMemory>
    ensures { IfOk result (λ next. follower_of V.behaviour next ≡ also_hears (follower_of V.behaviour follower) item.now) }
{
    match follower {
        Some(follower) => {
            let mut heard = follower.heard;
            heard.push(copy_item(alloc, item)?)?;
            Ok(Some(Follower {
                files: follower.files,
                basis: follower.basis,
                state: follower.state,
                heard,
            }))
        }
        None => Ok(None),
    }
}

/// The guest after this reply to its call.
fn replied<V: Version>(alloc: Global, lead: V, item: &Item) -> Result<V, OutOfMemory>
    requires { V.behaviour.go (V.behaviour.state lead) ≡ events.Calls item.now.0 }
    ensures { IfOk result (λ guest. V.behaviour.state guest ≡ V.behaviour.after (V.behaviour.state lead) item.now.1) }
{
    let mut lead = lead;
    lead.prepare(alloc)?;
    lead.answer(&item.reply);
    Ok(lead)
}

/// The guest past its point.
fn passed<V: Version>(lead: V) -> V
    requires { V.behaviour.go (V.behaviour.state lead) ≡ events.Point }
    ensures { V.behaviour.state result ≡ V.behaviour.passed (V.behaviour.state lead) }
{
    let mut lead = lead;
    lead.pass_point();
    lead
}

/// The guest of a replay that stands.
fn standing<V: Version>(judgement: Judgement<V>) -> V
    requires { StandsIn judgement }
    ensures { judgement ≡ Judgement.Ran (Outcome.Stands result) }
{
    match judgement {
        Judgement::Ran(Outcome::Stands(guest)) => guest,
        _ => unreachable!(),
    }
}

/// What the follower reached.
#[tactic(auto, using(crate::proofs::JudgementLaws::ready_stands, crate::proofs::JudgementLaws::stands_there))]
fn reached<V: Version>(alloc: Global, follower: &Follower<V>) -> Result<V, OutOfMemory>
    requires { (s : V) × Reaches V.behaviour (following_of V.behaviour follower.now) s }
    ensures { IfOk result (λ guest. replayed V.behaviour true (following_of V.behaviour follower.now) ≡ Stands (V.behaviour.state guest)) }
{
    let judgement = judge(alloc, follower, true)?;
    Ok(standing(judgement))
}

/// The follower leads, and the leader follows as it stands, if it does.
fn handed_over<V: Version>(
    alloc: Global,
    audit: Audit<V>,
    follows: bool,
) -> Result<Audit<V>, OutOfMemory>
    requires { IsReady V.behaviour (world_of V.behaviour audit) }
    ensures { IfOk result (λ next. world_of V.behaviour next ≡ handed_over V.behaviour follows (world_of V.behaviour audit)) }
{
    let Audit {
        lead,
        follower,
        status,
    } = audit;
    match follower {
        Some(follower) => {
            let guest = reached(alloc, &follower)?;
            let next = if follows {
                Some(Follower {
                    files: follower.files,
                    basis: Basis::Standing,
                    state: lead,
                    heard: Vec::new(alloc),
                })
            } else {
                None
            };
            Ok(Audit {
                lead: guest,
                follower: next,
                status,
            })
        }
        None => unreachable!(),
    }
}

/// A follower that is born of a copy of the leader.
fn forked<V: Version>(
    alloc: Global,
    audit: Audit<V>,
    updates: &[Update],
    update: u32,
) -> Result<Audit<V>, OutOfMemory>
    ensures { IfOk result (λ next. world_of V.behaviour next ≡ record (world_of V.behaviour audit) { following = Some (fork updates.now (world_of V.behaviour audit) update) }) }
{
    let files = files_of(alloc, updates, &audit.status, update)?;
    let state = audit.lead.copy(alloc)?;
    Ok(Audit {
        lead: audit.lead,
        follower: Some(Follower {
            files,
            basis: Basis::Forked,
            state,
            heard: Vec::new(alloc),
        }),
        status: audit.status,
    })
}

/// The leader is alone.
fn alone<V: Version>(audit: Audit<V>) -> Audit<V>
    ensures { world_of V.behaviour result ≡ record (world_of V.behaviour audit) { following = None } }
{
    Audit {
        lead: audit.lead,
        follower: None,
        status: audit.status,
    }
}

/// The guests after a mark.
fn marked<V: Version>(
    alloc: Global,
    audit: Audit<V>,
    updates: &[Update],
    mark: &Mark,
) -> Result<Audit<V>, OutOfMemory>
    requires { MayMark V.behaviour (world_of V.behaviour audit) mark.now }
    ensures { IfOk result (λ next. world_of V.behaviour next ≡ guests_marked V.behaviour updates.now (world_of V.behaviour audit) mark.now) }
{
    match mark {
        Mark::Fork { update } => forked(alloc, audit, updates, *update),
        Mark::NoCopy { .. } => Ok(audit),
        Mark::Hand { .. } => Ok(audit),
        Mark::Promote => handed_over(alloc, audit, true),
        Mark::Over => handed_over(alloc, audit, false),
        Mark::Back => handed_over(alloc, audit, false),
        Mark::Finish => Ok(alone(audit)),
        Mark::Discard { .. } => Ok(alone(audit)),
        Mark::Dropped { .. } => Ok(alone(audit)),
        Mark::End { .. } => Ok(alone(audit)),
    }
}

/// The leader's call is made.
fn called<V: Version>(alloc: Global, audit: Audit<V>, item: &Item) -> Result<Audit<V>, OutOfMemory>
    requires { V.behaviour.go (V.behaviour.state audit.lead) ≡ events.Calls item.now.0 }
    ensures { IfOk result (λ next. world_of V.behaviour next ≡ record { lead = V.behaviour.after (V.behaviour.state audit.lead) item.now.1; following = also_hears (follower_of V.behaviour audit.follower) item.now; status = audit.status }) }
{
    let Audit {
        lead,
        follower,
        status,
    } = audit;
    Ok(Audit {
        lead: replied(alloc, lead, item)?,
        follower: hear(alloc, follower, item)?,
        status,
    })
}

/// The guests after an entry that may come.
fn moved<V: Version>(
    alloc: Global,
    audit: Audit<V>,
    updates: &[Update],
    entry: &Entry,
) -> Result<Audit<V>, OutOfMemory>
    requires { MayEnter V.behaviour updates.now (world_of V.behaviour audit) entry.now }
    ensures { IfOk result (λ next. world_of V.behaviour next ≡ guests_after V.behaviour updates.now (world_of V.behaviour audit) entry.now) }
{
    match entry {
        Entry::Call { item } => called(alloc, audit, item),
        Entry::Point => Ok(Audit {
            lead: passed(audit.lead),
            follower: audit.follower,
            status: audit.status,
        }),
        Entry::Order { .. } => Ok(audit),
        Entry::Mark(mark) => marked(alloc, audit, updates, mark),
    }
}

/// The world after an entry that may come.
pub(crate) fn enter<V: Version>(
    alloc: Global,
    audit: Audit<V>,
    updates: &[Update],
    entry: &Entry,
) -> Result<Audit<V>, OutOfMemory>
    requires may { MayEnter V.behaviour updates.now (world_of V.behaviour audit) entry.now }
    requires counts { (audit.status.number < 2 ^ 63) × (audit.status.since < 2 ^ 63) × (audit.status.updates < 2 ^ 31) × (audit.status.fresh < 2 ^ 31) }
    ensures { IfOk result (λ next. world_of V.behaviour next ≡ after_entry V.behaviour updates.now (world_of V.behaviour audit) entry.now) }
{
    let status = audit.status.after(entry);
    let next = moved(alloc, audit, updates, entry)?;
    Ok(Audit {
        lead: next.lead,
        follower: next.follower,
        status,
    })
}
