//! Laws of rewriting, over every list of rules and items. No call is needed to use them.
ghost use Rattle.std.specs.Prelude.{◌≡◌, ◌↔◌, ◌⊎◌, ℕ, [], ◌∷◌, ◌++◌, true, not, List, None, Some, drop, length, take};
ghost use Rattle.mv_calls.specs.declared.calls.Call.{Call as call};
ghost use Rattle.mv_calls.specs.declared.calls.Reply.{Reply as reply};
ghost use Rattle.mv_calls.specs.Items.{accepted, eaten};
ghost use Rattle.mv_rules.specs.declared.rule.Rule.{Rule as rule};
ghost use Rattle.mv_rules.specs.Shape.{AreShaped};
ghost use Rattle.mv_rulecheck.specs.Atoms.{AreKept};
ghost use Rattle.mv_rewrite.specs.Bound.{Bound};
ghost use Rattle.mv_rewrite.specs.Deciding.{BeginsWith, groups};
ghost use Rattle.mv_rewrite.specs.declared.fit.Fit.TheVariants.{Whole as whole, Short as short};
ghost use Rattle.mv_rewrite.specs.Matches.{Agrees, MatchesUnder, CouldMatch, WaitsOn};
ghost use Rattle.mv_rewrite.specs.Matching.{rule_fit};
ghost use Rattle.mv_rewrite.specs.RewriterState.{RewriterState, Stands, next_decision};
ghost use Rattle.mv_rewrite.specs.Rewriting.{StopsShort, decide, sure, turned};

/// What is sure of a list stays, whatever items come, and where none do; at most seven items are left where it stops.
pub fn sure_stays()
    ensures front { (rules : List rule) (l m : List (call × reply)) → AreShaped rules → BeginsWith (sure rules (l ++ m)) (sure rules l) }
    ensures whole { (rules : List rule) (l m : List (call × reply)) → AreShaped rules → BeginsWith (turned rules (l ++ m)) (sure rules l) }
    ensures few { (rules : List rule) (l : List (call × reply)) → AreShaped rules → (rest : List (call × reply)) × StopsShort rules l rest }
{}

/// Kept rules change neither the bytes that are read of a descriptor nor the descriptors that are accepted.
pub fn kept_reads_stay()
    ensures reads { (rules : List rule) (l : List (call × reply)) (fd : ℕ) → AreShaped rules → AreKept rules → eaten (turned rules l) fd ≡ eaten l fd }
    ensures accepts { (rules : List rule) (l : List (call × reply)) → AreShaped rules → AreKept rules → accepted (turned rules l) ≡ accepted l }
{}

/// A rule is found to match exactly where it matches, and to be short exactly where it could match with more items. While
/// items may come there is no decision exactly where nothing is there, or where a rule that could match stands before each
/// that matches.
pub fn matching_is_exact()
    ensures sound { (rule : rule) (items : List (call × reply)) (b : Bound) →
        rule_fit rule items ≡ whole b → MatchesUnder b rule (take (length rule.left) items) }
    ensures found { (rule : rule) (items : List (call × reply)) (d : Bound) →
        MatchesUnder d rule (take (length rule.left) items) → (c : Bound) × (rule_fit rule items ≡ whole c) × Agrees c d }
    ensures could { (rule : rule) (items : List (call × reply)) → (rule_fit rule items ≡ short) ↔ CouldMatch rule items }
    ensures waits { (rules : List rule) (items : List (call × reply)) →
        (decide true rules items ≡ None) ↔ ((items ≡ []) ⊎ WaitsOn rules items) }
{}

/// What a rewriter gave is the beginning of what all that it was fed gives, decision by decision, and the rest is what the
/// held items give. The next decision gives the first of that rest; where there is none, nothing is left to give.
pub fn given_comes_first()
    ensures given { (w : RewriterState) (fed : List (call × reply)) (given : List (List (call × reply))) → AreShaped w.rules → Stands w fed given →
        groups (decide (not w.finished) w.rules) fed ≡ given ++ groups (decide (not w.finished) w.rules) w.held }
    ensures next { (w : RewriterState) (group : List (call × reply)) (count : ℕ) → AreShaped w.rules → next_decision w ≡ Some (group, count) →
        groups (decide (not w.finished) w.rules) w.held ≡ group ∷ groups (decide (not w.finished) w.rules) (drop count w.held) }
    ensures none { (w : RewriterState) → next_decision w ≡ None → groups (decide (not w.finished) w.rules) w.held ≡ [] }
{}
