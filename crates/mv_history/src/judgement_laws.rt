//! Laws of judgements.
ghost use Rattle.std.specs.Prelude.{◌≡◌, Some, List};
ghost use Rattle.mv_history.specs.declared.log.Cause.{Cause as cause};
ghost use Rattle.mv_history.specs.declared.log.Entry.TheVariants as entries;
ghost use Rattle.mv_history.specs.declared.log.Mark.{Mark as mark};
ghost use Rattle.mv_history.specs.declared.updates.Update.{Update as update};
ghost use Rattle.mv_history.specs.Followers.{Following};
ghost use Rattle.mv_history.specs.Judged.{IsReadyAs};
ghost use Rattle.mv_history.specs.Leads.{failed_mark, ready_mark};
ghost use Rattle.mv_history.specs.Shapes.{Shaped};
ghost use Rattle.mv_history.specs.World.{IsReady, MayMark, Shows, World, after_entry};

use mv_version::Version;

/// A judgement's mark may come: that of a cause that is shown, and that of a follower that is ready for the hand-over that is
/// asked. With the latter the state that the follower reached leads.
pub fn judgements_may_come<V: Version>()
    ensures failed { (w : World V) (why : cause) → Shaped w → Shows V.behaviour w why → MayMark V.behaviour w (failed_mark w.status.stage why) }
    ensures ready { (w : World V) (m : mark) → Shaped w → IsReady V.behaviour w → ready_mark w.status.stage w.status.asked ≡ Some m → MayMark V.behaviour w m }
    ensures known { (w : World V) (f : Following V) (s : V) → IsReadyAs V.behaviour w f s → IsReady V.behaviour w }
    ensures leads { (updates : List update) (w : World V) (f : Following V) (s : V) (m : mark) → IsReadyAs V.behaviour w f s → ready_mark w.status.stage w.status.asked ≡ Some m →
        (after_entry V.behaviour updates w (entries.Mark m)).lead ≡ s }
{}
