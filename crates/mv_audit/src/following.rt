//! A follower, and what is found out about it, plainly.
ghost use Rattle.std.specs.Prelude.{◌≡◌, ◌++◌, IfOk};
ghost use Rattle.mv_calls.specs.Or.{IfFault};
ghost use Rattle.mv_rules.specs.Shape.{AreShaped};
ghost use Rattle.mv_rewrite.specs.Deciding.{joined};
ghost use Rattle.mv_audit.specs.Audit.{IsJudged, IsVerdict, came, following_of};
ghost use Rattle.mv_history.specs.Followers.{begin, replayed_from, rewritten_by};

use crate::replaying::{Outcome, replay};
use mv_calls::{Item, Or, OutOfMemory, copy_item};
use mv_history::Update;
use mv_rewrite::{Items, rewrite_whole};
use mv_rulecheck::{KeptRules, keep_reads};
use mv_rules::{Rule, RuleFault, parse_rules};
use mv_syntax::BornFault;
use mv_version::Version;
use std::alloc::Global;

/// What a follower began with.
#[derive(Clone, Copy, PartialEq, Eq, Debug)]
pub(crate) enum Basis {
    /// An old state that the new module transforms.
    Forked,
    /// A state as it stands.
    Standing,
}

/// A follower: the files of its update, its base, and the calls since then.
#[derive(Drop)]
pub(crate) struct Follower<V: Drop> {
    pub files: Update,
    pub basis: Basis,
    pub state: V,
    pub heard: Vec<Item>,
}

/// What comes of a rules file.
#[derive(Drop)]
pub(crate) enum Verdict {
    Kept(KeptRules),
    Refused(RuleFault),
}

/// What is found out about a follower.
#[derive(Drop)]
pub(crate) enum Judgement<V: Drop> {
    /// Its forward rules are refused.
    Forward(RuleFault),
    /// Its reverse rules are refused.
    Reverse(RuleFault),
    /// It was replayed.
    Ran(Outcome<V>),
}

/// The items with copies of more behind them.
fn with_all(alloc: Global, all: Vec<Item>, items: &[Item]) -> Result<Vec<Item>, OutOfMemory>
    ensures { IfOk result (λ longer. longer.items ≡ all.items ++ items.now) }
{
    let mut all = all;
    for item in items {
        all.push(copy_item(alloc, item)?)?;
    }
    Ok(all)
}

/// The groups, one after another.
fn joined(alloc: Global, groups: &[Items]) -> Result<Vec<Item>, OutOfMemory>
    ensures { IfOk result (λ all. all.items ≡ joined groups.now) }
{
    let mut all = Vec::new(alloc);
    for group in groups {
        all = with_all(alloc, all, group.slice())?;
    }
    Ok(all)
}

/// The items as the rules rewrite them: the whole once a hand-over is asked, and before that what is sure.
fn rewritten(
    alloc: Global,
    rules: &[Rule],
    items: &[Item],
    handed: bool,
) -> Result<Vec<Item>, OutOfMemory>
    requires { AreShaped rules.now }
    ensures { IfOk result (λ all. all.items ≡ rewritten_by handed rules.now items.now) }
{
    let groups = rewrite_whole(alloc, rules, items, !handed)?;
    joined(alloc, groups.as_slice())
}

/// What comes of a rules file.
fn read_rules(alloc: Global, text: &[u8]) -> Result<Verdict, OutOfMemory>
    ensures { IfOk result (IsVerdict text.now) }
{
    let rules = match parse_rules(alloc, text) {
        Ok(rules) => rules,
        Err(Or::Fault(fault)) => return Ok(Verdict::Refused(fault)),
        Err(Or::OutOfMemory) => return Err(OutOfMemory),
    };
    match keep_reads(rules) {
        Ok(kept) => Ok(Verdict::Kept(kept)),
        Err(fault) => Ok(Verdict::Refused(fault)),
    }
}

/// The follower before it heard anything, or the fault of its birth.
fn begin<V: Version>(alloc: Global, follower: &Follower<V>) -> Result<V, Or<BornFault>>
    ensures stands { IfOk result (λ guest. begin V.behaviour (following_of V.behaviour follower.now) ≡ Ok (V.behaviour.state guest)) }
    ensures refused { IfFault result (λ fault. begin V.behaviour (following_of V.behaviour follower.now) ≡ Err fault) }
{
    let guest = follower.state.copy(alloc)?;
    match follower.basis {
        Basis::Forked => V::born(alloc, guest, follower.files.module.slice()),
        Basis::Standing => Ok(guest),
    }
}

/// The follower's replay of what it heard, as these rules rewrite it.
fn run<V: Version>(
    alloc: Global,
    follower: &Follower<V>,
    rules: &[Rule],
    handed: bool,
) -> Result<Outcome<V>, OutOfMemory>
    requires { AreShaped rules.now }
    ensures { IfOk result (λ outcome. replayed_from V.behaviour (begin V.behaviour (following_of V.behaviour follower.now)) (rewritten_by handed rules.now follower.now.heard.items) ≡ came V.behaviour outcome) }
{
    let items = rewritten(alloc, rules, follower.heard.as_slice(), handed)?;
    match begin(alloc, follower) {
        Ok(guest) => replay(alloc, guest, items.as_slice()),
        Err(Or::Fault(fault)) => Ok(Outcome::Unborn(fault)),
        Err(Or::OutOfMemory) => Err(OutOfMemory),
    }
}

/// What is found out about the follower. `handed` says that a hand-over is asked.
pub(crate) fn judge<V: Version>(
    alloc: Global,
    follower: &Follower<V>,
    handed: bool,
) -> Result<Judgement<V>, OutOfMemory>
    ensures { IfOk result (IsJudged V.behaviour handed (following_of V.behaviour follower.now)) }
{
    let forward = match read_rules(alloc, follower.files.forward.slice())? {
        Verdict::Kept(rules) => rules,
        Verdict::Refused(fault) => return Ok(Judgement::Forward(fault)),
    };
    let reverse = match read_rules(alloc, follower.files.reverse.slice())? {
        Verdict::Kept(rules) => rules,
        Verdict::Refused(fault) => return Ok(Judgement::Reverse(fault)),
    };
    let outcome = match follower.basis {
        Basis::Forked => run(alloc, follower, forward.slice(), handed)?,
        Basis::Standing => run(alloc, follower, reverse.slice(), handed)?,
    };
    Ok(Judgement::Ran(outcome))
}
