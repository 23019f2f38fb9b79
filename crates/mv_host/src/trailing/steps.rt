//! What is done under the follower's lock.
ghost use Rattle.std.specs.Prelude.{◌≡◌, [], List, None, false};
ghost use Rattle.mv_feed.specs.declared.msg.Msg.{Msg};
ghost use Rattle.mv_follower.specs.Follows.{IsAt, has_verdict};
ghost use Rattle.mv_history.specs.Spots.{no_spot};
ghost use Rattle.mv_host.specs.Stands.{StandsAt};
ghost use Rattle.mv_ring.specs.Halves.{ring_of_out, taken_list};

use super::Trailing;
use crate::leading::Leading;
use crate::names::Names;
use mv_core::Verdict;
use mv_follower::{Carried, Followed, Follower};
use mv_history::Cause;
use mv_outside::{Console, Files, Kernel, Run};
use mv_rehearse::Waiting;
use mv_ring::RingOut;
use mv_version::Version;
use std::alloc::Global;
use std::marker::PhantomData;
use std::sync::{Mutex, Wait};

/// The follower does one thing, where no verdict waits. What it comes to waits.
fn step<V: Version>(alloc: Global, follower: &mut Follower<V>, waiting: &mut Option<Waiting<V>>)
    requires begins { waiting.old ≡ None → has_verdict follower.old ≡ false }
    ensures stands { (taken : List (Msg V)) → StandsAt V.behaviour taken follower.old waiting.old → StandsAt V.behaviour taken follower.new waiting.new }
{
    if waiting.is_some() {
        return;
    }
    let update = follower.update();
    match follower.step(alloc) {
        Followed::Ready { n } => {
            let guest = follower.hand_over();
            *waiting = Some(Waiting {
                update,
                verdict: Verdict::Ready { guest, n },
            });
        }
        Followed::Failed(cause) => {
            *waiting = Some(Waiting {
                update,
                verdict: Verdict::Failed(cause),
            });
        }
        Followed::Memory => {
            *waiting = Some(Waiting {
                update,
                verdict: Verdict::Failed(Cause::Memory),
            });
        }
        Followed::Moved => {}
        Followed::Waits => {}
        Followed::Idle => {}
    }
}

impl<V: Version, J: Names> Trailing<V, J> {
    /// A new follower, with its half of a new ring.
    pub(crate) fn new(follower: Follower<V>, feed: RingOut<V>) -> Trailing<V, J>
        requires ring { ring_of_out feed ≡ J.ring }
        requires new { taken_list feed ≡ [] }
        requires at { IsAt V.behaviour follower no_spot }
        requires begins { has_verdict follower ≡ false }
    {
        Trailing {
            follower,
            feed,
            waiting: None,
            name: PhantomData,
        }
    }

    /// The follower takes the next message, where it may.
    pub(crate) fn carry(&mut self) -> Carried {
        self.follower.carry(&mut self.feed)
    }

    /// The follower does one thing, where no verdict waits.
    pub(crate) fn step(&mut self, alloc: Global) {
        step(alloc, &mut self.follower, &mut self.waiting);
    }

    /// Whether a verdict waits.
    pub(crate) fn waits(&self) -> bool {
        self.waiting.is_some()
    }

    /// Delivers a verdict that waits, and clears the follower: notes what was taken, and then asks for the core's lock.
    pub(crate) fn judge<K: Kernel, C: Console, F: Files, N: Run, R: Wait>(
        &mut self,
        rt: &R,
        leading: &Mutex<Leading<V, K, C, F, N, J>>,
    ) {
        let Some(Waiting { update, verdict }) = self.waiting.take() else {
            return;
        };
        let note = self.feed.note();
        let _ = leading.lock(rt).judge(note, update, verdict);
        self.follower.clear();
    }
}
