//! What is done under the core's lock.
ghost use Rattle.std.specs.Prelude.{◌≡◌, ◌<◌, [], Some, None, map, true, false, is_some};
ghost use Rattle.mv_core.specs.Cuts.{is_cut};
ghost use Rattle.mv_history.specs.Settled.{settled};
ghost use Rattle.mv_history.specs.declared.log.How.{How as hows};
ghost use Rattle.mv_host.specs.Keeps.{Puts, count_of};
ghost use Rattle.mv_host.specs.Served.{IsServed};
ghost use Rattle.mv_rehearse.specs.Linked.{IsShownTo, LineWaits};
ghost use Rattle.mv_ring.specs.Halves.{note_list, put_list, ring_of_in, ring_of_note};

use super::Leading;
use crate::ending::end_run;
use crate::names::{Names, Over, Pass};
use mv_core::{Core, Judged, Turn, Verdict};
use mv_outside::{Console, Files, Kernel, Run};
use mv_rehearse::Outcome;
use mv_ring::{RingIn, RingNote};
use mv_version::Version;
use std::alloc::Global;
use std::sync::ledger::{Book, Share};

/// Whether the log has ended.
fn has_ended<V: Version, K: Kernel, C: Console, F: Files, N: Run>(
    core: &Core<V, K, C, F, N>,
) -> bool
    ensures ended { result ≡ is_some core.now.status.ended }
{
    !core.live(0)
}

/// One turn. Where it wants memory the log ends.
fn turn_or_give_up<V: Version, K: Kernel, C: Console, F: Files, N: Run>(
    alloc: Global,
    core: &mut Core<V, K, C, F, N>,
    feed: &mut RingIn<V>,
) -> Turn
    requires puts { Puts V.behaviour core.old.log feed.old }
    requires uncut { is_cut core.old.status.ended ≡ false }
    requires line { LineWaits core.old.status core.old.line }
    requires asks { core.old.orders ≡ true }
    ensures puts { Puts V.behaviour core.new.log feed.new }
    ensures uncut { is_cut core.new.status.ended ≡ false }
    ensures line { LineWaits core.new.status core.new.line }
    ensures asks { core.new.orders ≡ true }
    ensures ring { ring_of_in feed.new ≡ ring_of_in feed.old }
    ensures ended { (h : hows) → result ≡ Turn.Ended h → core.new.status.ended ≡ Some h }
    ensures stays { is_some core.old.status.ended ≡ true → is_some core.new.status.ended ≡ true }
{
    let turn = core.turn(alloc, feed);
    if let Turn::Memory = turn {
        core.give_up();
    }
    turn
}

/// Counts the end of the log, once.
fn count_end<J: Names>(book: &mut Book<J>, share: &mut Share<J>, before: bool, now: bool)
    requires parts { 0 < share.old.parts }
    requires total { book.old.total ≡ count_of before }
    requires stays { before ≡ true → now ≡ true }
    ensures total { book.new.total ≡ count_of now }
    ensures parts { share.new.parts ≡ share.old.parts }
    ensures amount { share.old.parts ≡ J.parts → share.new.amount ≡ count_of now }
{
    if now && !before {
        book.add(share, 1);
    }
    book.audit(share);
}

impl<V: Version, K: Kernel, C: Console, F: Files, N: Run, J: Names> Leading<V, K, C, F, N, J> {
    /// The core of a run that begins, with its half of a new ring.
    pub(crate) fn new(
        core: Core<V, K, C, F, N>,
        feed: RingIn<V>,
        book: Book<J>,
    ) -> Leading<V, K, C, F, N, J>
        requires ring { ring_of_in feed ≡ J.ring }
        requires put { put_list feed ≡ [] }
        requires none { core.log.entries.list ≡ [] }
        requires runs { core.status.ended ≡ None }
        requires line { core.line ≡ None }
        requires asks { core.orders ≡ true }
        requires total { book.total ≡ 0 }
    {
        Leading { core, feed, book }
    }

    /// Whether the log goes on.
    pub(crate) fn is_live(&self) -> bool {
        self.core.live(0)
    }

    /// One turn of the leader. Where it wants memory the log ends.
    pub(crate) fn turn(&mut self, alloc: Global, pass: &mut Pass<J>) -> Turn
        requires parts { (J.all ≡ J.parts) × (0 < J.all) }
        ensures ended { (h : hows) → result ≡ Turn.Ended h → pass.new.share.amount ≡ 1 }
    {
        let before = has_ended(&self.core);
        let turn = turn_or_give_up(alloc, &mut self.core, &mut self.feed);
        let now = has_ended(&self.core);
        count_end(&mut self.book, &mut pass.share, before, now);
        turn
    }

    /// Meets what the follower took, and judges the verdict on it.
    pub(crate) fn judge(&mut self, note: RingNote<V>, update: u32, verdict: Verdict<V>) -> Judged
        requires ring { ring_of_note note ≡ J.ring }
        requires shown { IsShownTo V.behaviour (map (settled V.behaviour) (note_list note)) update verdict }
    {
        self.feed.meet(note);
        self.core.judge(&mut self.feed, update, verdict)
    }

    /// What the run comes to, whose log has ended. One more turn says how, and does nothing else.
    pub(crate) fn finish(self, alloc: Global, over: Over<J>) -> Outcome<K, C, F>
        requires parts { J.all ≡ J.parts }
        ensures served { IsServed V.behaviour N.began K.done K.faults C.coming C.said C.faults F.content F.faults result }
    {
        let Leading {
            mut core,
            mut feed,
            mut book,
        } = self;
        let Over { mut share } = over;
        book.audit(&mut share);
        let Turn::Ended(how) = core.turn(alloc, &mut feed) else {
            unreachable!()
        };
        drop(feed);
        end_run(core, how)
    }
}
