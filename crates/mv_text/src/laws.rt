//! A law of assembler texts that those who read them can rely on. The function does nothing; it carries the law.
ghost use Rattle.std.specs.Prelude.{◌≡◌, List, ℕ, ◌↔◌, Ok};
ghost use Rattle.mv_syntax.specs.Sections.{Parts};
ghost use Rattle.mv_text.specs.Assembly.{assembled};
ghost use Rattle.mv_text.specs.Grammar.{Spells};

/// A text spells the one module that is read from it, or none, and then it has one first fault.
pub fn a_text_is_one_module_or_faulty()
    ensures { (text : List ℕ) (p : Parts) → Spells text p ↔ (assembled text ≡ Ok p) }
{}
