//! A policy.

use crate::line::PolicyLine;
use std::marker::Model;

/// Who may give which orders: the lines of a policy behind its first, of which the first has the number 2. Contracts see the
/// list of the lines. It is made by `parse_policy` alone.
#[derive(Debug, Drop)]
pub struct Policy {
    pub(crate) lines: Vec<PolicyLine>,
}

impl Model for Policy {
    ghost use Rattle.std.specs.Prelude.{List, ◌≤◌, length};
    ghost use Rattle.mv_policy.specs.declared.line.PolicyLine.{PolicyLine};

    ghost Value = { List PolicyLine };

    ghost view = { λ p. p.lines.items };

    ghost invariant = { λ p. length p.lines.items ≤ 999 };
}
