//! Whether an entry may come, plainly.
ghost use Rattle.std.specs.Prelude.{◌≡◌, ◌↔◌, IfOk, IsTrue, OnErr};
ghost use Rattle.mv_calls.specs.declared.calls.Call.{Call as call};
ghost use Rattle.mv_version.specs.declared.event.Event.TheVariants as events;
ghost use Rattle.mv_calls.specs.declared.trap.Trap.{Trap as trap};
ghost use Rattle.mv_history.specs.declared.log.Why.TheVariants as whys;
ghost use Rattle.mv_audit.specs.Audit.{AsksFollower, AsksOf, FailsIn, FoundBy, IsForked, IsForwardFault, IsReverseFault, IsTold, IsUnborn, MayShow, StandsIn, world_of};
ghost use Rattle.mv_history.specs.Followers.{IsOtherwise};
ghost use Rattle.mv_history.specs.World.{AsksFor, AsksForTrap, IsFree, IsOpen, IsReady, MayEnd, MayEnter, MayFork, MayHand, MayMark, Shows};

use crate::answering::answers;
use crate::following::{Basis, Follower, Judgement, judge};
use crate::replaying::Outcome;
use crate::same::{same_born_fault, same_event, same_rule_fault, same_trap, same_why};
use mv_calls::{Call, OutOfMemory, Trap, same_call};
use mv_history::{AtPoint, Cause, Entry, How, Mark, Side, Status, Update, Urgent, Why};
use mv_orders::Stage;
use mv_rules::RuleFault;
use mv_syntax::BornFault;
use mv_version::{Event, Version};
use std::alloc::Global;

/// The world of a log, as far as it was read.
#[derive(Drop)]
pub(crate) struct Audit<V: Drop> {
    pub lead: V,
    pub follower: Option<Follower<V>>,
    pub status: Status,
}

/// Whether the run goes on, nothing is asked, and the log is within its limits.
fn is_open(status: &Status) -> bool
    ensures { IsTrue result ↔ IsOpen status.now }
{
    status.ended.is_none() && status.asked.is_none() && status.is_within_limits()
}

/// Whether it is open, and nothing is wanted at once.
fn is_free(status: &Status) -> bool
    ensures { IsTrue result ↔ IsFree status.now }
{
    is_open(status) && status.urgent() == Urgent::Nothing
}

/// Whether the reason is a trap.
fn is_trap(why: Why) -> bool
    ensures { IsTrue result ↔ ((t : trap) × (why ≡ whys.Trap t)) }
{
    match why {
        Why::Promote => false,
        Why::Back => false,
        Why::Trap(_) => true,
    }
}

/// Whether the hand-over is asked for this reason.
#[tactic(auto, using(crate::proofs::AuditLaws::asks_nothing))]
fn asks_for(status: &Status, why: Why) -> bool
    ensures { IsTrue result ↔ AsksFor status.now why }
{
    match status.asked {
        Some(asked) => same_why(asked.why, why),
        None => false,
    }
}

/// Whether the hand-over is asked because the leader trapped.
#[tactic(auto, using(crate::proofs::AuditLaws::asks_no_trap))]
fn asks_for_trap(status: &Status) -> bool
    ensures { IsTrue result ↔ AsksForTrap status.now }
{
    match status.asked {
        Some(asked) => is_trap(asked.why),
        None => false,
    }
}

/// Whether the guest stands at a point.
fn is_point(event: &Event) -> bool
    ensures { IsTrue result ↔ (event.now ≡ events.Point) }
{
    matches!(event, Event::Point)
}

/// Whether the guest ends with this code.
fn ends_with(event: &Event, code: u32) -> bool
    ensures { IsTrue result ↔ (event.now ≡ events.Ends code) }
{
    match event {
        Event::Ends(found) => *found == code,
        _ => false,
    }
}

/// Whether the guest is stopped by this trap.
fn traps_with(event: &Event, trap: Trap) -> bool
    ensures { IsTrue result ↔ (event.now ≡ events.Traps trap) }
{
    match event {
        Event::Traps(found) => same_trap(*found, trap),
        _ => false,
    }
}

/// Whether the guest makes this call.
fn makes(event: &Event, call: &Call) -> bool
    ensures { IsTrue result ↔ (event.now ≡ events.Calls call.now) }
{
    match event {
        Event::Calls(found) => same_call(found, call),
        _ => false,
    }
}

/// Whether the guest makes a call.
fn makes_some(event: &Event) -> bool
    ensures { IsTrue result ↔ ((c : call) × (event.now ≡ events.Calls c)) }
{
    matches!(event, Event::Calls(_))
}

/// Whether a call or an end is met.
fn is_otherwise(event: &Event) -> bool
    ensures { IsTrue result ↔ IsOtherwise event.now }
{
    match event {
        Event::Calls(_) => true,
        Event::Point => false,
        Event::Ends(_) => true,
        Event::Traps(_) => false,
    }
}

fn is_forked(basis: Basis) -> bool
    ensures { IsTrue result ↔ IsForked basis }
{
    match basis {
        Basis::Forked => true,
        Basis::Standing => false,
    }
}

fn has_forward_fault<V: Version>(judgement: &Judgement<V>, fault: RuleFault) -> bool
    ensures { IsTrue result ↔ IsForwardFault judgement.now fault }
{
    match judgement {
        Judgement::Forward(found) => same_rule_fault(*found, fault),
        Judgement::Reverse(_) => false,
        Judgement::Ran(_) => false,
    }
}

fn has_reverse_fault<V: Version>(judgement: &Judgement<V>, fault: RuleFault) -> bool
    ensures { IsTrue result ↔ IsReverseFault judgement.now fault }
{
    match judgement {
        Judgement::Forward(_) => false,
        Judgement::Reverse(found) => same_rule_fault(*found, fault),
        Judgement::Ran(_) => false,
    }
}

fn is_unborn<V: Version>(judgement: &Judgement<V>, fault: BornFault) -> bool
    ensures { IsTrue result ↔ IsUnborn judgement.now fault }
{
    match judgement {
        Judgement::Ran(Outcome::Unborn(found)) => same_born_fault(*found, fault),
        _ => false,
    }
}

fn traps_at<V: Version>(judgement: &Judgement<V>, k: u64, trap: Trap) -> bool
    ensures { IsTrue result ↔ ((want : call) × FailsIn judgement.now k want (events.Traps trap)) }
{
    match judgement {
        Judgement::Ran(Outcome::Fails { k: found, met, .. }) => {
            *found == k && traps_with(met, trap)
        }
        _ => false,
    }
}

fn fails_at<V: Version>(judgement: &Judgement<V>, k: u64, want: &Call, got: &Event) -> bool
    ensures { IsTrue result ↔ FailsIn judgement.now k want.now got.now }
{
    match judgement {
        Judgement::Ran(
            Outcome::Fails {
                k: found,
                want: other,
                met,
            },
        ) => *found == k && same_call(other, want) && same_event(met, got),
        _ => false,
    }
}

fn is_standing<V: Version>(judgement: &Judgement<V>) -> bool
    ensures { IsTrue result ↔ StandsIn judgement.now }
{
    matches!(judgement, Judgement::Ran(Outcome::Stands(_)))
}

/// Whether the cause may be shown, by what the follower began with and by the status. Nothing is replayed for that.
fn may_show(basis: Basis, status: &Status, cause: &Cause) -> bool
    ensures { IsTrue result ↔ MayShow basis status.now cause.now }
{
    match cause {
        Cause::Rules { .. } => is_forked(basis),
        Cause::Refused(_) => is_forked(basis),
        Cause::Trap { .. } => true,
        Cause::Mismatch { got, .. } => is_otherwise(got),
        Cause::Order { n } => is_forked(basis) && status.urgent() == Urgent::Discard(*n),
        Cause::Memory => true,
    }
}

/// Whether the cause says nothing of what comes of the follower.
fn is_told(cause: &Cause) -> bool
    ensures { IsTrue result ↔ IsTold cause.now }
{
    match cause {
        Cause::Rules { .. } => false,
        Cause::Refused(_) => false,
        Cause::Trap { .. } => false,
        Cause::Mismatch { .. } => false,
        Cause::Order { .. } => true,
        Cause::Memory => true,
    }
}

/// Whether what was found out about a follower is what the cause says.
fn is_found<V: Version>(judgement: &Judgement<V>, cause: &Cause) -> bool
    ensures { IsTrue result ↔ FoundBy judgement.now cause.now }
{
    match cause {
        Cause::Rules {
            side: Side::Forward,
            fault,
        } => has_forward_fault(judgement, *fault),
        Cause::Rules {
            side: Side::Reverse,
            fault,
        } => has_reverse_fault(judgement, *fault),
        Cause::Refused(fault) => is_unborn(judgement, *fault),
        Cause::Trap { k, trap } => traps_at(judgement, *k, *trap),
        Cause::Mismatch { k, want, got } => fails_at(judgement, *k, want, got),
        Cause::Order { .. } => true,
        Cause::Memory => true,
    }
}

/// Whether the cause is shown. The follower is born and replayed only where that decides.
#[tactic(auto, using(crate::proofs::JudgementLaws::nothing_shown))]
fn shows<V: Version>(alloc: Global, audit: &Audit<V>, cause: &Cause) -> Result<bool, OutOfMemory>
    ensures shown { IfOk result (λ answer. IsTrue answer ↔ Shows V.behaviour (world_of V.behaviour audit.now) cause.now) }
    ensures memory { OnErr result (AsksOf audit.now.follower audit.now.status cause.now) }
{
    match &audit.follower {
        Some(follower) => {
            if !may_show(follower.basis, &audit.status, cause) {
                return Ok(false);
            }
            if is_told(cause) {
                return Ok(true);
            }
            let judgement = judge(alloc, follower, audit.status.asked.is_some())?;
            Ok(is_found(&judgement, cause))
        }
        None => Ok(false),
    }
}

/// Whether this is so and the cause is shown.
fn shows_where<V: Version>(
    alloc: Global,
    audit: &Audit<V>,
    here: bool,
    cause: &Cause,
) -> Result<bool, OutOfMemory>
    ensures shown { IfOk result (λ answer. IsTrue answer ↔ (IsTrue here × Shows V.behaviour (world_of V.behaviour audit.now) cause.now)) }
    ensures memory { OnErr result (IsTrue here × AsksOf audit.now.follower audit.now.status cause.now) }
{
    if here {
        shows(alloc, audit, cause)
    } else {
        Ok(false)
    }
}

/// Whether the follower reached a state in which it may lead.
#[tactic(auto, using(crate::proofs::JudgementLaws::ready_exactly))]
fn is_ready<V: Version>(alloc: Global, audit: &Audit<V>) -> Result<bool, OutOfMemory>
    ensures { IfOk result (λ answer. IsTrue answer ↔ IsReady V.behaviour (world_of V.behaviour audit.now)) }
{
    match &audit.follower {
        Some(follower) => {
            let judgement = judge(alloc, follower, true)?;
            Ok(is_standing(&judgement))
        }
        None => Ok(false),
    }
}

/// Whether this is so and the follower reached a state in which it may lead.
fn is_ready_where<V: Version>(
    alloc: Global,
    audit: &Audit<V>,
    here: bool,
) -> Result<bool, OutOfMemory>
    ensures ready { IfOk result (λ answer. IsTrue answer ↔ (IsTrue here × IsReady V.behaviour (world_of V.behaviour audit.now))) }
    ensures memory { OnErr result (IsTrue here) }
{
    if !here {
        return Ok(false);
    }
    let ready = is_ready(alloc, audit)?;
    Ok(ready)
}

/// Whether the log may end so, where the leader does this.
fn may_end<V: Version>(audit: &Audit<V>, event: &Event, how: How) -> bool
    requires { V.behaviour.go (V.behaviour.state audit.now.lead) ≡ event.now }
    ensures { IsTrue result ↔ MayEnd V.behaviour (world_of V.behaviour audit.now) how }
{
    match how {
        How::Ended(code) => is_free(&audit.status) && ends_with(event, code),
        How::Trapped(trap) => {
            is_free(&audit.status) && audit.status.is_alone() && traps_with(event, trap)
        }
        How::Halted => is_open(&audit.status) && audit.status.urgent() == Urgent::Halt,
        How::KernelFault => is_free(&audit.status) && makes_some(event),
        How::LogLimit => {
            audit.status.ended.is_none()
                && audit.status.asked.is_none()
                && !audit.status.is_within_limits()
        }
        How::Memory => audit.status.ended.is_none(),
        How::Cut => audit.status.ended.is_none(),
    }
}

/// Whether the leader may ask for a hand-over for this reason, where it does this.
fn may_hand<V: Version>(audit: &Audit<V>, event: &Event, why: Why) -> bool
    requires { V.behaviour.go (V.behaviour.state audit.now.lead) ≡ event.now }
    ensures { IsTrue result ↔ MayHand V.behaviour (world_of V.behaviour audit.now) why }
{
    match why {
        Why::Trap(trap) => traps_with(event, trap),
        Why::Promote => audit.status.at_point() == AtPoint::Hands(Why::Promote) && is_point(event),
        Why::Back => audit.status.at_point() == AtPoint::Hands(Why::Back) && is_point(event),
    }
}

/// Whether a copy for this update is wanted, where the leader does this.
fn may_fork<V: Version>(audit: &Audit<V>, event: &Event, update: u32) -> bool
    requires { V.behaviour.go (V.behaviour.state audit.now.lead) ≡ event.now }
    ensures { IsTrue result ↔ MayFork V.behaviour (world_of V.behaviour audit.now) update }
{
    is_free(&audit.status) && audit.status.at_point() == AtPoint::Forks(update) && is_point(event)
}

/// Whether the mark may come, where the leader does this. The status is looked at first, so that the follower is born and
/// replayed, and memory wanted, only where that decides.
fn may_mark<V: Version>(
    alloc: Global,
    audit: &Audit<V>,
    event: &Event,
    mark: &Mark,
) -> Result<bool, OutOfMemory>
    requires { V.behaviour.go (V.behaviour.state audit.now.lead) ≡ event.now }
    ensures may { IfOk result (λ answer. IsTrue answer ↔ MayMark V.behaviour (world_of V.behaviour audit.now) mark.now) }
    ensures memory { OnErr result (AsksFollower audit.now mark.now) }
{
    let status = &audit.status;
    let old_leads = status.ended.is_none() && status.stage == Stage::OldLeads;
    let new_leads = status.ended.is_none() && status.stage == Stage::NewLeads;
    match mark {
        Mark::Fork { update } => Ok(may_fork(audit, event, *update)),
        Mark::NoCopy { update } => Ok(may_fork(audit, event, *update)),
        Mark::Hand { why } => {
            Ok(is_free(status) && status.follower > 0 && may_hand(audit, event, *why))
        }
        Mark::Promote => {
            let asked = old_leads && asks_for(status, Why::Promote);
            let ready = is_ready_where(alloc, audit, asked)?;
            Ok(ready)
        }
        Mark::Over => {
            let ready = is_ready_where(alloc, audit, old_leads && asks_for_trap(status))?;
            Ok(ready)
        }
        Mark::Back => {
            let asked = asks_for(status, Why::Back) || asks_for_trap(status);
            let ready = is_ready_where(alloc, audit, new_leads && asked)?;
            Ok(ready)
        }
        Mark::Finish => Ok(
            is_open(status) && status.stage == Stage::NewLeads && status.urgent() == Urgent::Finish,
        ),
        Mark::Discard { cause } => shows_where(alloc, audit, old_leads, cause),
        Mark::Dropped { cause } => shows_where(alloc, audit, new_leads, cause),
        Mark::End { how } => Ok(may_end(audit, event, *how)),
    }
}

/// Whether the entry may come, where the leader does this.
pub(crate) fn may_enter<V: Version>(
    alloc: Global,
    audit: &Audit<V>,
    event: &Event,
    updates: &[Update],
    entry: &Entry,
) -> Result<bool, OutOfMemory>
    requires { V.behaviour.go (V.behaviour.state audit.now.lead) ≡ event.now }
    ensures { IfOk result (λ answer. IsTrue answer ↔ MayEnter V.behaviour updates.now (world_of V.behaviour audit.now) entry.now) }
{
    let status = &audit.status;
    match entry {
        Entry::Call { item } => Ok(is_free(status) && makes(event, &item.call)),
        Entry::Point => {
            Ok(is_free(status) && is_point(event) && status.at_point() == AtPoint::Passes)
        }
        Entry::Order { text, reply } => {
            let answered = answers(alloc, status, updates, text.slice(), reply)?;
            Ok(is_free(status) && answered)
        }
        Entry::Mark(mark) => may_mark(alloc, audit, event, mark),
    }
}
