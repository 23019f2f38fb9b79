//! Laws of a follower's steps.
ghost use Rattle.std.specs.Prelude.{◌≡◌, ℕ, true, Some};
ghost use Rattle.mv_feed.specs.declared.msg.Msg.{Msg as msg};
ghost use Rattle.mv_history.specs.declared.log.Cause.{Cause as cause};
ghost use Rattle.mv_history.specs.Followers.{FollowerShows, Reaches};
ghost use Rattle.mv_history.specs.Places.{Place, is_handed};
ghost use Rattle.mv_history.specs.Readings.{HasRead};
ghost use Rattle.mv_history.specs.Spots.{GivesUp, IsReadyFor, Moves, Next, Spot, StepsTo, cleared_spot, may_carry, no_spot, spot_after};

use mv_version::Version;

/// What a step of a follower gives up is shown over what was taken. A guest that is ready was reached by all that was heard, and
/// for the hand-over that was taken. Where a message may be taken a step gives up nothing and readies nothing. But for want of
/// memory there is one step from each spot.
pub fn steps_are_shown<V: Version>()
    ensures gives_up { (spot : Spot V) (p : Place V) (why : cause) → HasRead spot → spot.place ≡ Some p → StepsTo V.behaviour spot (GivesUp why) → FollowerShows V.behaviour (is_handed p) p.follows why }
    ensures ready { (spot : Spot V) (p : Place V) (s : V) (n : ℕ) → HasRead spot → spot.place ≡ Some p → StepsTo V.behaviour spot (IsReadyFor s n) → (p.hand ≡ Some n) × Reaches V.behaviour p.follows s }
    ensures waits { (spot : Spot V) (next : Next V) → may_carry spot ≡ true → StepsTo V.behaviour spot next → (later : Spot V) × (next ≡ Moves later) }
    ensures one { (spot : Spot V) (x y : Next V) → StepsTo V.behaviour spot x → StepsTo V.behaviour spot y → x ≡ y }
{}

/// What a follower has read of its rules files stays read: from the spot without a base on, by each step, by each message and where
/// the base is given up.
pub fn readings_stay<V: Version>()
    ensures first { HasRead (no_spot {V = V}) }
    ensures step { (spot next : Spot V) → HasRead spot → StepsTo V.behaviour spot (Moves next) → HasRead next }
    ensures message { (spot : Spot V) (m : msg V) → HasRead spot → HasRead (spot_after spot m) }
    ensures cleared { (spot : Spot V) → HasRead spot → HasRead (cleared_spot spot) }
{}
