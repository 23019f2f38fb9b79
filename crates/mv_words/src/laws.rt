//! What holds of the grammar of words.
ghost use Rattle.std.specs.Prelude.{◌≡◌, List, ℕ};
ghost use Rattle.mv_words.specs.Commands.{Says};
ghost use Rattle.mv_words.specs.declared.command.Command.{Command as Asked};

/// Words ask for one thing. The function does nothing; it carries the law.
pub fn words_ask_for_one_thing()
    ensures { (words : List (List ℕ)) (first second : Asked) → Says words first → Says words second → first ≡ second }
{}
