//! What lies under the follower's lock.

use crate::names::Names;
use mv_follower::Follower;
use mv_rehearse::Waiting;
use mv_ring::RingOut;
use mv_version::Version;
use std::marker::{Model, PhantomData};

mod steps;

/// A follower with its half of the ring, which stands where what it took leads, and a verdict that waits.
#[derive(Drop)]
pub(crate) struct Trailing<V: Version, J: Names> {
    follower: Follower<V>,
    feed: RingOut<V>,
    waiting: Option<Waiting<V>>,
    name: PhantomData<J>,
}

impl<V: Version, J: Names> Model for Trailing<V, J> {
    ghost use Rattle.mv_follower.specs.Follows.{FollowerState};
    ghost use Rattle.mv_ring.specs.declared.ring_out.RingOut.{RingOut};
    ghost use Rattle.mv_host.specs.Stands.{IsTrailing};

    ghost Value = { FollowerState V × RingOut V };

    ghost view = { λ t. (t.follower, t.feed) };

    ghost invariant = { λ t. IsTrailing V.behaviour J.ring t.feed t.follower t.waiting };
}
