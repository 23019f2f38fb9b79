//! What lies under the core's lock.

use crate::names::Names;
use mv_core::Core;
use mv_outside::{Console, Files, Kernel, Run};
use mv_ring::RingIn;
use mv_version::Version;
use std::marker::Model;
use std::sync::ledger::Book;

mod steps;

/// A core with the leader's half of the ring, in which lies what its log sent. The book counts 1 once the log has ended.
#[derive(Drop)]
pub(crate) struct Leading<V: Version, K: Kernel, C: Console, F: Files, N: Run, J: Names> {
    core: Core<V, K, C, F, N>,
    feed: RingIn<V>,
    book: Book<J>,
}

impl<V: Version, K: Kernel, C: Console, F: Files, N: Run, J: Names> Model
    for Leading<V, K, C, F, N, J> {
    ghost use Rattle.mv_core.specs.Whole.{Whole};
    ghost use Rattle.mv_ring.specs.declared.ring_in.RingIn.{RingIn};
    ghost use Rattle.mv_host.specs.Keeps.{IsLeading};

    ghost Value = { Whole K C F × RingIn V };

    ghost view = { λ l. (l.core, l.feed) };

    ghost invariant = { λ l. IsLeading V.behaviour J.ring l.core l.feed l.book.total };
}
