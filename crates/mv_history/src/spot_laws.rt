//! Laws of a follower's spot and of what it takes, over every version. No call is needed to use them.
ghost use Rattle.std.specs.Prelude.{◌≡◌, ℕ, List, [], ◌∷◌, ◌++◌, map, Some, Ok};
ghost use Rattle.mv_feed.specs.declared.msg.Msg.{Msg as msg};
ghost use Rattle.mv_history.specs.Linked.{Linked};
ghost use Rattle.mv_history.specs.Settled.{AreSettled, IsSettledWorld, settled};
ghost use Rattle.mv_history.specs.Spots.{Spot, StepsTo, Moves, no_spot, spot_after, cleared_spot};
ghost use Rattle.mv_history.specs.World.{World, after_entries, begun, sent};
ghost use Rattle.mv_history.specs.declared.log.Entry.{Entry as entry};
ghost use Rattle.mv_history.specs.declared.updates.Update.{Update as update};

use mv_version::Version;

/// A spot that is tied to what was taken stays so: nothing was taken yet; one message more; a step; the base is given up.
pub fn spots_are_tied<V: Version>()
    ensures none { Linked {V = V} [] no_spot }
    ensures message { (taken : List (msg V)) (spot : Spot V) (m : msg V) → Linked taken spot → Linked (taken ++ m ∷ []) (spot_after spot m) }
    ensures step { (taken : List (msg V)) (spot next : Spot V) → StepsTo V.behaviour spot (Moves next) → Linked taken spot → Linked taken next }
    ensures clear { (taken : List (msg V)) (spot : Spot V) → Linked taken spot → Linked taken (cleared_spot spot) }
{}

/// What a log sends has nothing prepared where its first guest has nothing prepared, as one that was started: a follower takes
/// its messages as they are.
pub fn messages_are_settled<V: Version>()
    ensures started { (bytes : List ℕ) (args : List (List ℕ)) (first : V) → V.behaviour.started bytes args ≡ Ok first → IsSettledWorld V.behaviour (begun first) }
    ensures first { (first : V) → V.behaviour.state first ≡ first → IsSettledWorld V.behaviour (begun first) }
    ensures world { (updates : List update) (w : World V) (es : List entry) → IsSettledWorld V.behaviour w → IsSettledWorld V.behaviour (after_entries V.behaviour updates w es) }
    ensures sent { (updates : List update) (w : World V) (es : List entry) → IsSettledWorld V.behaviour w → AreSettled V.behaviour (sent V.behaviour updates w es) }
    ensures front { (xs ys : List (msg V)) → AreSettled V.behaviour (xs ++ ys) → AreSettled V.behaviour xs }
    ensures each { (xs : List (msg V)) (m : msg V) (ys : List (msg V)) → AreSettled V.behaviour (xs ++ m ∷ ys) → settled V.behaviour m ≡ m }
    ensures same { (xs : List (msg V)) → AreSettled V.behaviour xs → map (settled V.behaviour) xs ≡ xs }
{}
