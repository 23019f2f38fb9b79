//! Laws of legal logs, over every version. No call is needed to use them.
ghost use Rattle.std.specs.Prelude.{◌≡◌, ℕ, ◌+◌, ◌^◌, ◌<◌, ◌≤◌, List, [], ◌∷◌, ◌++◌, length, Some, None};
ghost use Rattle.mv_calls.specs.declared.calls.Call.{Call as call};
ghost use Rattle.mv_calls.specs.declared.calls.Reply.{Reply as reply};
ghost use Rattle.mv_calls.specs.Items.{accepted, eaten};
ghost use Rattle.mv_feed.specs.declared.msg.Msg.{Msg as msg};
ghost use Rattle.mv_rulecheck.specs.Atoms.{AreKept};
ghost use Rattle.mv_rules.specs.Shape.{AreShaped};
ghost use Rattle.mv_version.specs.declared.event.Event.{Event as event};
ghost use Rattle.mv_history.specs.declared.log.Cause.{Cause as cause};
ghost use Rattle.mv_history.specs.declared.log.Entry.{Entry as entry};
ghost use Rattle.mv_history.specs.declared.updates.Update.{Update as update};
ghost use Rattle.mv_history.specs.Bases.{IsBase};
ghost use Rattle.mv_history.specs.Followers.{Following, FollowerShows, Reaches, given_to, hears_by};
ghost use Rattle.mv_history.specs.Judged.{IsReadyAs};
ghost use Rattle.mv_history.specs.Leads.{Chosen, OkLine, lead_entry};
ghost use Rattle.mv_history.specs.Places.{Place, is_handed, place_of};
ghost use Rattle.mv_history.specs.Replay.{Fails, Stands, replay};
ghost use Rattle.mv_history.specs.Rules.{AreAccepted, IsAccepted, rules_of};
ghost use Rattle.mv_history.specs.Shapes.{Shaped};
ghost use Rattle.mv_history.specs.Small.{IsSmall};
ghost use Rattle.mv_history.specs.Stretches.{KeepsFollower, KeepsLeader, MarksAre, run_of};
ghost use Rattle.mv_history.specs.Ties.{hand_of, with_more};
ghost use Rattle.mv_history.specs.World.{AreLegal, MayEnter, Shows, World, after_entries, begun, outside, sent};

use mv_version::Version;

/// The replay of two lists, joined, is the replay of the second from where the first leads; and it fails where the
/// first does.
pub fn replays_join<V: Version>()
    ensures stands { (k : ℕ) (s t : V) (xs ys : List (call × reply)) → replay V.behaviour k s xs ≡ Stands t → replay V.behaviour k s (xs ++ ys) ≡ replay V.behaviour (k + length xs) t ys }
    ensures fails { (k j : ℕ) (s : V) (xs ys : List (call × reply)) (want : call) (met : event) → replay V.behaviour k s xs ≡ Fails j want met → replay V.behaviour k s (xs ++ ys) ≡ Fails j want met }
{}

/// From a base: what is shown of a follower over a prefix of the messages, of those before the base and of those that a legal log
/// sent, is shown over all of them while that follower stands. A hand-over that is ready over a prefix that ends with it is
/// ready over all while it is asked, and nothing was sent since: the world's follower is that of the prefix, and reaches the
/// same state.
pub fn verdicts_stay<V: Version>()
    ensures cause { (updates : List update) (base : World V) (before : List (msg V)) (es : List entry) (prefix rest : List (msg V)) (place : Place V) (why : cause) → IsBase base before → AreLegal V.behaviour updates base es →
        before ++ sent V.behaviour updates base es ≡ prefix ++ rest → place_of prefix ≡ Some place → 0 < place.update → place.update ≡ (after_entries V.behaviour updates base es).status.follower →
        FollowerShows V.behaviour (is_handed place) place.follows why → Shows V.behaviour (after_entries V.behaviour updates base es) why }
    ensures ready { (updates : List update) (base : World V) (before : List (msg V)) (es : List entry) (prefix rest : List (msg V)) (place : Place V) (n : ℕ) (s : V) → IsBase base before → AreLegal V.behaviour updates base es →
        before ++ sent V.behaviour updates base es ≡ prefix ++ rest → place_of prefix ≡ Some place → place.hand ≡ Some n → 0 < (after_entries V.behaviour updates base es).status.follower →
        hand_of (after_entries V.behaviour updates base es).status.asked ≡ Some n → Reaches V.behaviour place.follows s →
        IsReadyAs V.behaviour (after_entries V.behaviour updates base es) place.follows s × (rest ≡ []) }
{}

/// At a promotion, an over or a back the bytes that the new leader was given of each descriptor in its replay are those
/// that it heard of, in order and each once, and the accepted descriptors are the same list. What it heard are the calls
/// since its base.
pub fn no_byte_lost<V: Version>()
    ensures bytes { (f : Following V) (s : V) (fd : ℕ) → Reaches V.behaviour f s → eaten (given_to V.behaviour f) fd ≡ eaten f.heard fd }
    ensures connections { (f : Following V) (s : V) → Reaches V.behaviour f s → accepted (given_to V.behaviour f) ≡ accepted f.heard }
    ensures heard { (updates : List update) (w : World V) (es : List entry) (f : Following V) → MarksAre KeepsFollower es → w.following ≡ Some f → (after_entries V.behaviour updates w es).following ≡ Some (with_more f (outside es)) }
{}

/// The rules of an accepted file are within the limits of the format and keep what is read and accepted, and a follower of an
/// accepted update hears by such rules.
pub fn accepted_rules_are_shaped<V: Version>()
    ensures shaped { (text : List ℕ) → IsAccepted text → AreShaped (rules_of text) }
    ensures kept { (text : List ℕ) → IsAccepted text → AreKept (rules_of text) }
    ensures heard { (f : Following V) → AreAccepted f.files → AreShaped (hears_by f) }
{}

/// Over a stretch without a change of leader the leader is what its calls and points make of it.
pub fn leads_by_itself<V: Version>()
    ensures lead { (updates : List update) (w : World V) (es : List entry) → MarksAre KeepsLeader es → (after_entries V.behaviour updates w es).lead ≡ run_of V.behaviour w.lead es }
{}

/// The counts of a legal log fit their types, with place for the marks of a judgement while it goes on. From a base on it has at
/// most 999,993 entries, and accepts at most 64 updates.
pub fn counts_fit<V: Version>()
    ensures small { (updates : List update) (w : World V) (es : List entry) → AreLegal V.behaviour updates w es → IsSmall w.status → IsSmall (after_entries V.behaviour updates w es).status }
    ensures first { (first : V) → IsSmall (begun first).status }
    ensures number { (updates : List update) (w : World V) (es : List entry) → (after_entries V.behaviour updates w es).status.number ≡ w.status.number + length es }
    ensures since { (updates : List update) (w : World V) (es : List entry) → (after_entries V.behaviour updates w es).status.since ≡ w.status.since + length es }
    ensures updates { (updates : List update) (w : World V) (es : List entry) → (after_entries V.behaviour updates w es).status.updates + w.status.fresh ≡ w.status.updates + (after_entries V.behaviour updates w es).status.fresh }
    ensures entries { (updates : List update) (w : World V) (es : List entry) → AreLegal V.behaviour updates w es → IsSmall w.status → w.status.since + length es ≤ 999993 }
    ensures accepted { (updates : List update) (w : World V) (es : List entry) → AreLegal V.behaviour updates w es → IsSmall w.status → (after_entries V.behaviour updates w es).status.updates + w.status.fresh ≤ w.status.updates + 64 }
{}

/// From any world of this shape: while a legal log goes on, a follower is there exactly beside a leader: a new version beside
/// the old one that leads, or the old one as it stood beside the new one that leads. What is wanted or asked is what this stage
/// allows. Once the log has ended nobody follows and nothing is asked.
pub fn worlds_have_a_shape<V: Version>()
    ensures shaped { (updates : List update) (w : World V) (es : List entry) → AreLegal V.behaviour updates w es → Shaped w → Shaped (after_entries V.behaviour updates w es) }
    ensures first { (first : V) → Shaped (begun first) }
    ensures runs { (w : World V) → Shaped w → 0 < w.status.follower → w.status.ended ≡ None }
{}

/// The entry that a turn of the leader makes may come in any world of a legal shape, whatever others choose in it, where the log
/// goes on and no hand-over is asked.
pub fn turns_are_legal<V: Version>()
    ensures legal { (updates : List update) (w : World V) (chosen : Chosen) → Shaped w → w.status.ended ≡ None → w.status.asked ≡ None → OkLine w.status updates chosen.line →
        MayEnter V.behaviour updates w (lead_entry V.behaviour w.lead w.status chosen) }
{}
