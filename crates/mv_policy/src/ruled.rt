//! What one run under a policy began with, for contracts alone.
ghost use Rattle.std.specs.Prelude.{List, []};
ghost use Rattle.mv_policy.specs.declared.line.PolicyLine.{PolicyLine};

use mv_outside::Run;
use std::marker::Brand;

/// A type that is `Ruled` stands, for contracts alone, for what one run began with and for the policy that its operators are
/// held to. It has no calls.
pub trait Ruled: Run {
    /// The lines of the policy.
    ghost policy: { List PolicyLine };
}

impl Ruled for Brand {
    ghost policy = { [] };
}
