//! What the two locks of a run agree on, for contracts alone, and what the leading activity carries.
ghost use Rattle.std.specs.Prelude.{◌≡◌, ℕ, []};
ghost use Rattle.atomic_table.specs.Seated.{TableId};

use std::marker::Brand;
use std::sync::ledger::{Ledger, Share};

/// A type that is `Names` names, for contracts alone, the ring of a run, and the ledger that says whether its log has ended.
pub(crate) trait Names: Ledger {
    /// The ring that both halves are of.
    ghost ring: { TableId };

    /// The number of the ledger's parts.
    ghost all: { ℕ };
}

impl Names for Brand {
    ghost ring = { record { words = 0; slots = 0; views_name = 0; atom = 0; block = 0; offset = 0; slot_names = [] } };

    ghost all = { 0 };
}

/// What the leading activity has while the log goes on. It has no bytes.
#[derive(Drop)]
pub(crate) struct Pass<J: Names> {
    pub share: Share<J>,
    ghost whole: { share.parts ≡ J.all },
}

/// What it has once it saw that the log has ended. It has no bytes.
#[derive(Drop)]
pub(crate) struct Over<J: Names> {
    pub share: Share<J>,
    ghost whole: { share.parts ≡ J.all },
    ghost one: { share.amount ≡ 1 },
}

impl<J: Names> Pass<J> {
    /// A pass with all parts of the ledger.
    pub(crate) fn new(share: Share<J>) -> Pass<J>
        requires all { share.parts ≡ J.all }
        ensures share { result.share ≡ share }
    {
        Pass { share }
    }

    /// The same, where the log has ended.
    pub(crate) fn over(self) -> Over<J>
        requires one { self.share.amount ≡ 1 }
    {
        let Pass { share } = self;
        Over { share }
    }
}
