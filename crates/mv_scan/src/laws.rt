//! Laws of texts, for their readers. The functions do nothing; they carry the laws.
ghost use Rattle.std.specs.Prelude.{List, ℕ, true, ◌≡◌, ◌↔◌};
ghost use Rattle.mv_scan.specs.declared.found.Found.TheVariants.{Is};
ghost use Rattle.mv_scan.specs.declared.token.Token.{Token};
ghost use Rattle.mv_scan.specs.declared.token.Token.TheVariants.{Plain};
ghost use Rattle.mv_scan.specs.Numbers.{number_of};
ghost use Rattle.mv_scan.specs.Words.{is_word, words_of};
ghost use Rattle.mv_scan.specs.WordGrammar.{SpellsLine, SpellsNumber};

/// The words of a line are exactly those that spell it (docs/FORMATS.md, "Words of a text"), with spaces in front, behind and
/// between; each is a plain word, a text in quotes with its escapes, a broken text, or a text that bytes follow without a
/// space. A line of spaces alone has none, and a comment has none.
pub fn words_are_spelled()
    ensures { (line : List ℕ) (words : List Token) → SpellsLine words line ↔ (words_of line ≡ words) }
{}

/// The number of a word is the one that it spells in decimal digits, leading zeros or not, if that is within the range.
pub fn numbers_are_spelled()
    ensures { (low : ℕ) (high : ℕ) (n : ℕ) (token : Token) → SpellsNumber low high n token ↔ (number_of low high token ≡ Is n) }
{}

/// A word that is looked for is the plain word of these bytes, and no text in quotes.
pub fn a_word_is_its_bytes()
    ensures { (word : List ℕ) (token : Token) → (is_word word token ≡ true) ↔ (token ≡ Plain word) }
{}
