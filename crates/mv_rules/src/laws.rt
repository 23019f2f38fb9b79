//! Laws of the rules text, for its readers. The functions do nothing; each carries a law.
ghost use Rattle.std.specs.Prelude.{List, ℕ, Err, Ok, ◌≡◌, ◌↔◌, ◌⊎◌, ◌≤◌, ◌+◌, length};
ghost use Rattle.mv_rules.specs.declared.fault.RuleFault.{RuleFault as rule_fault};
ghost use Rattle.mv_rules.specs.declared.rule.Rule.{Rule as rule};
ghost use Rattle.mv_rules.specs.Grammar.{AgreeUpTo, IsFirstFaultyLine, Spells};
ghost use Rattle.mv_rules.specs.RulesText.{rules_in};
ghost use Rattle.mv_rules.specs.Shape.{AreShaped};
ghost use Rattle.mv_scan.specs.Lines.{lines_of};

/// The rules that a text spells are within the limits: one to eight items on the left, at most eight guards and sixteen items
/// on the right, and no error number of 0.
pub fn spelled_rules_are_shaped()
    ensures { (text : List ℕ) (rules : List rule) → rules_in text ≡ Ok rules → AreShaped rules }
{}

/// A text spells one list of rules and has no faulty line, or it spells none and has one first faulty line. What is read of it
/// is that list, or a fault at that line.
pub fn a_text_is_one_list_of_rules_or_faulty()
    ensures either { (text : List ℕ) → ((rules : List rule) × Spells text rules) ⊎ ((at : ℕ) × IsFirstFaultyLine text at) }
    ensures not_both { (text : List ℕ) (rules : List rule) (at : ℕ) → Spells text rules → IsFirstFaultyLine text at → ⊥ }
    ensures one_list { (text : List ℕ) (rules : List rule) (others : List rule) → Spells text rules → Spells text others → rules ≡ others }
    ensures one_line { (text : List ℕ) (at : ℕ) (other : ℕ) → IsFirstFaultyLine text at → IsFirstFaultyLine text other → at ≡ other }
    ensures read { (text : List ℕ) (rules : List rule) → Spells text rules ↔ (rules_in text ≡ Ok rules) }
    ensures fault { (text : List ℕ) (fault : rule_fault) → rules_in text ≡ Err fault → IsFirstFaultyLine text fault.line }
{}

/// A first faulty line is one of the text's, or the one behind its last. Nothing behind it counts: each text with the same lines
/// up to it has the same fault there.
pub fn a_fault_is_of_the_lines_up_to_it()
    ensures within { (text : List ℕ) (at : ℕ) → IsFirstFaultyLine text at → (1 ≤ at) × (at ≤ length (lines_of text) + 1) }
    ensures place { (text : List ℕ) (other : List ℕ) (at : ℕ) → AgreeUpTo at text other → IsFirstFaultyLine text at → IsFirstFaultyLine other at }
    ensures fault { (text : List ℕ) (other : List ℕ) (fault : rule_fault) → AgreeUpTo fault.line text other → rules_in text ≡ Err fault → rules_in other ≡ Err fault }
{}
