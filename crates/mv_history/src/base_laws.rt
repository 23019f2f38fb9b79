//! Laws of the messages: what they say of the follower, from a base and along a legal log.
ghost use Rattle.std.specs.Prelude.{◌≡◌, ◌<◌, List, [], ◌++◌, None};
ghost use Rattle.mv_feed.specs.declared.msg.Msg.{Msg as msg};
ghost use Rattle.mv_history.specs.declared.log.Entry.{Entry as entry};
ghost use Rattle.mv_history.specs.declared.updates.Update.{Update as update};
ghost use Rattle.mv_history.specs.Bases.{IsBase};
ghost use Rattle.mv_history.specs.Places.{place_of};
ghost use Rattle.mv_history.specs.Ties.{IsAt, Ties, update_wanted};
ghost use Rattle.mv_history.specs.World.{AreLegal, World, after_entries, begun, sent};

use mv_version::Version;

/// Beside a legal log with a follower, the world's follower is the one that the messages make: those before the log and those that
/// it sent.
pub fn messages_make_the_follower<V: Version>()
    ensures follower { (updates : List update) (base : World V) (before : List (msg V)) (es : List entry) → IsBase base before → AreLegal V.behaviour updates base es →
        0 < (after_entries V.behaviour updates base es).status.follower → IsAt (after_entries V.behaviour updates base es) (place_of (before ++ sent V.behaviour updates base es)) }
    ensures ties { (updates : List update) (w : World V) (before : List (msg V)) (es : List entry) → AreLegal V.behaviour updates w es → Ties w (place_of before) →
        Ties (after_entries V.behaviour updates w es) (place_of (before ++ sent V.behaviour updates w es)) }
    ensures base { (base : World V) (before : List (msg V)) → IsBase base before → Ties base (place_of before) }
{}

/// The first world of a run is a base, and so is each later one of a legal log in which nobody follows and no update is wanted.
pub fn bases_follow<V: Version>()
    ensures first { (first : V) → IsBase (begun first) [] }
    ensures later { (updates : List update) (base : World V) (before : List (msg V)) (es : List entry) → IsBase base before → AreLegal V.behaviour updates base es →
        (after_entries V.behaviour updates base es).status.follower ≡ 0 → update_wanted (after_entries V.behaviour updates base es).status.wanted ≡ None →
        IsBase (after_entries V.behaviour updates base es) (before ++ sent V.behaviour updates base es) }
{}
