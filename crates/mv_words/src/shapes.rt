//! What `clap` doesn't refuse by itself.

ghost use Rattle.std.specs.Prelude.{◌≡◌, map};
ghost use Rattle.mv_words.specs.Hyphens.{has_short, is_short};

/// One hyphen alone stands at the front.
fn has_one_hyphen(word: &str) -> bool
    ensures { result ≡ is_short word.now }
{
    let bytes = word.as_bytes();
    match bytes {
        [] => false,
        [first] => *first == b'-',
        [first, second, ..] => *first == b'-' && *second != b'-',
    }
}

/// A word before `--` has one hyphen alone at its front.
pub fn has_short_word(words: &[&str]) -> bool
    ensures { result ≡ has_short (map (λ w. w.now) words.now) }
{
    for word in words {
        if *word == "--" {
            return false;
        }
        if has_one_hyphen(word) {
            return true;
        }
    }
    false
}
