//! What texts are made of: lines, words, texts in quotes with their escapes, names, and numbers in decimal
//! digits (docs/FORMATS.md, "Words of a text").
#![tactic(auto)]

mod found;
mod laws;
mod lines;
mod names;
mod number;
mod scan;
#[cfg(test)]
mod tests;
mod token;
mod tokens;
mod words;

pub use found::{Found, both};
pub use laws::{a_word_is_its_bytes, numbers_are_spelled, words_are_spelled};
pub use lines::first_line;
pub use names::is_name;
pub use number::{number_word, read_number, short_word};
pub use token::Token;
pub use tokens::{has_bad_text, is_lone_word, is_word};
pub use words::{split_line, split_words};
