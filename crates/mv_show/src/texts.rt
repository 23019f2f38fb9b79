//! Bytes as text, or as hexadecimal digits.
ghost use Rattle.std.specs.Prelude.{◌≡◌, true, false, MatchOption};
ghost use Rattle.std.specs.Str.{is_utf8};

use mv_calls::Bytes;

/// The bytes as text, where they are UTF-8.
pub(crate) fn text_of(bytes: &Bytes) -> Option<&str>
    ensures { MatchOption result (is_utf8 bytes.now ≡ false) (λ text. (text.now ≡ bytes.now) × (is_utf8 bytes.now ≡ true)) }
{
    match std::str::from_utf8(bytes.slice()) {
        Ok(text) => Some(text),
        Err(_) => None,
    }
}
