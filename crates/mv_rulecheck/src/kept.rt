//! Rules that were checked.
ghost use Rattle.std.specs.Prelude.{◌≡◌, IfOk, IfErr, OnOk};
ghost use Rattle.mv_rulecheck.specs.Atoms.{AreKept, IsKept, IsUnkept, IsFirstUnkept};

use crate::cursor::{same_accepts, same_reads};
use mv_rules::{Rule, RuleFault, RuleKind, Rules};
use std::marker::Model;

/// Rules of which each reads and accepts the same on both sides, as it is written.
#[derive(Debug, Drop)]
pub struct KeptRules {
    rules: Rules,
}

impl Model for KeptRules {
    ghost use Rattle.std.specs.Prelude.{List};
    ghost use Rattle.mv_rules.specs.declared.rule.Rule.{Rule};

    ghost Value = { List Rule };

    ghost use Rattle.mv_rulecheck.specs.Atoms.{AreKept};

    ghost view = { λ r. r.rules };

    ghost invariant = { λ r. AreKept r.rules };
}

impl KeptRules {
    ghost use Rattle.mv_rules.specs.Shape.{AreShaped};

    /// The rules, to be looked at.
    pub fn slice(&self) -> &[Rule]
        ensures rules { result.now ≡ self.now }
        ensures shaped { AreShaped result.now }
        ensures kept { AreKept result.now }
    {
        self.rules.slice()
    }
}

/// Checks one rule, reads before accepts.
fn check_rule(rule: &Rule) -> Result<(), RuleFault>
    ensures kept { OnOk result (IsKept rule.now) }
    ensures fault { IfErr result (IsUnkept rule.now) }
{
    if !same_reads(rule.left.slice(), rule.right.slice()) {
        return Err(RuleFault {
            line: rule.line,
            kind: RuleKind::Reads,
        });
    }
    if !same_accepts(rule.left.slice(), rule.right.slice()) {
        return Err(RuleFault {
            line: rule.line,
            kind: RuleKind::Accepts,
        });
    }
    Ok(())
}

/// Keeps rules of which each reads and accepts the same on both sides (docs/FORMATS.md, "Kept reads"): so no byte that was
/// read is dropped or doubled where one of them is applied, and no connection. This takes no memory. The fault is that of the
/// first rule that differs, at the line of its word `rule`: `Reads` where the bytes that are read differ, else `Accepts`.
pub fn keep_reads(rules: Rules) -> Result<KeptRules, RuleFault>
    ensures same { IfOk result (λ kept. kept ≡ rules) }
    ensures kept { OnOk result (AreKept rules) }
    ensures fault { IfErr result (IsFirstUnkept rules) }
{
    for rule in rules.slice() {
        check_rule(rule)?;
    }
    Ok(KeptRules { rules })
}
