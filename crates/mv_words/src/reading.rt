//! From the words of a command line to what they ask for.
ghost use Rattle.std.specs.Prelude.{◌≡◌, ◌≢◌, ◌∷◌, ℕ, [], IfOk, IfSome, IsErrOf, IsTrue, None, codes, false, List, map, string_bytes};
ghost use Rattle.mv_words.specs.Words.{Text};
ghost use Rattle.mv_words.specs.Commands.{AreSingle, Asks, HasNone, IsCommandWord, IsLog, IsRing, IsSize, IsWithin, Says};
ghost use Rattle.mv_words.specs.Given.{listed, values_of_options};
ghost use Rattle.mv_words.specs.declared.command.Command.{Command as Asked};
ghost use Rattle.mv_words.specs.declared.command.Command.TheVariants as asked;
ghost use Rattle.mv_calls.specs.declared.fault.Or.TheVariants as or;

use crate::command::{BadWords, Command};
use crate::given::{Given, Options, words_given};
use mv_calls::{Bytes, Or, OutOfMemory, Texts};
use mv_scan::{Found, read_number};
use std::alloc::Global;

/// The capacity of the feed where the words don't give it.
const DEFAULT_RING: u32 = 256;

/// The least capacity of the feed.
const LEAST_RING: u32 = 4;

/// The greatest capacity of the feed.
const MOST_RING: u32 = 4_096;

/// The most connections of a load.
const MOST_CONNECTIONS: u32 = 10_000;

/// Reads the words of a command line, the command word first. They are refused where no command has such words.
pub fn read_words(alloc: Global, words: &[String]) -> Result<Command, Or<BadWords>>
    ensures ok { IfOk result (λ command. Says (map string_bytes words.now) command) }
    ensures bad { IsErrOf result (or.Fault (record {})) → (command : Asked) → Says (map string_bytes words.now) command → ⊥ }
{
    let texts = texts_of(alloc, words)?;
    read_texts(alloc, texts.as_slice())
}

/// Reads the words of a command line.
fn read_texts(alloc: Global, words: &[&str]) -> Result<Command, Or<BadWords>>
    ensures ok { IfOk result (λ command. Says (map (λ w. w.now) words.now) command) }
    ensures bad { IsErrOf result (or.Fault (record {})) → (command : Asked) → Says (map (λ w. w.now) words.now) command → ⊥ }
{
    if words.is_empty() {
        return Err(Or::Fault(BadWords));
    }
    if let Some(told) = told_by(words) {
        return Ok(told);
    }
    match words_given(alloc, words) {
        Ok(given) => command_of(alloc, words[0], &given),
        Err(fault) => Err(fault),
    }
}

/// The words as texts.
pub fn texts_of<'a>(alloc: Global, words: &'a [String]) -> Result<Vec<&'a str>, OutOfMemory>
    ensures { IfOk result (λ texts. map (λ w. w.now) texts.items ≡ map string_bytes words.entry.now) }
{
    let mut texts = Vec::with_capacity(alloc, words.len())?;
    for word in words {
        texts.push(word.as_str())?;
    }
    Ok(texts)
}

/// Whether a command has this word.
fn is_command_word(word: &str) -> bool
    ensures yes { IsTrue result → IsCommandWord word.now }
    ensures no { IsCommandWord word.now → IsTrue result }
{
    word == "run"
        || word == "rehearse"
        || word == "serve"
        || word == "check"
        || word == "rules"
        || word == "audit"
        || word == "show"
        || word == "assemble"
        || word == "load"
}

/// The forms of words that ask what the program is.
fn told_by(words: &[&str]) -> Option<Command>
    ensures some { IfSome result (λ command. Says (map (λ w. w.now) words.now) command) }
    ensures no_help { result ≡ None → Says (map (λ w. w.now) words.now) asked.Help → ⊥ }
    ensures no_version { result ≡ None → Says (map (λ w. w.now) words.now) asked.Version → ⊥ }
{
    if words.len() == 1 {
        let word = words[0];
        if word == "--help" {
            return Some(Command::Help);
        }
        if word == "--version" {
            return Some(Command::Version);
        }
    }
    if words.len() == 2 && words[1] == "--help" && is_command_word(words[0]) {
        return Some(Command::Help);
    }
    None
}

/// What a command word asks for, with what stands behind it.
fn command_of(alloc: Global, word: &str, given: &Given<'_>) -> Result<Command, Or<BadWords>>
    requires { AreSingle (values_of_options given.now.options) }
    ensures ok { IfOk result (λ command. Asks word.now (values_of_options given.now.options) (map (λ a. a.now) given.now.places.items) command) }
    ensures bad { IsErrOf result (or.Fault (record {})) → (command : Asked) → Asks word.now (values_of_options given.now.options) (map (λ a. a.now) given.now.places.items) command → ⊥ }
{
    if word == "run" {
        run_of(alloc, given)
    } else if word == "rehearse" {
        rehearsal_of(alloc, given)
    } else if word == "serve" {
        service_of(alloc, given)
    } else {
        plain_command_of(alloc, word, given)
    }
}

/// What a word asks for that runs no guest.
fn plain_command_of(alloc: Global, word: &str, given: &Given<'_>) -> Result<Command, Or<BadWords>>
    requires single { AreSingle (values_of_options given.now.options) }
    requires not_run { word.now ≢ codes "run" }
    requires not_rehearse { word.now ≢ codes "rehearse" }
    requires not_serve { word.now ≢ codes "serve" }
    ensures ok { IfOk result (λ command. Asks word.now (values_of_options given.now.options) (map (λ a. a.now) given.now.places.items) command) }
    ensures bad { IsErrOf result (or.Fault (record {})) → (command : Asked) → Asks word.now (values_of_options given.now.options) (map (λ a. a.now) given.now.places.items) command → ⊥ }
{
    if has_options(&given.options) {
        return Err(Or::Fault(BadWords));
    }
    if word == "audit" {
        return audit_of(alloc, given);
    }
    if word == "assemble" {
        return assembly_of(alloc, given);
    }
    if word == "load" {
        return load_of(given);
    }
    let Some(path) = only_place(given.places.as_slice()) else {
        return Err(Or::Fault(BadWords));
    };
    let path = Bytes::from_slice(alloc, path.as_bytes())?;
    if word == "check" {
        Ok(Command::Check { path })
    } else if word == "rules" {
        Ok(Command::Rules { forward: path })
    } else if word == "show" {
        Ok(Command::Show { log: path })
    } else {
        Err(Or::Fault(BadWords))
    }
}

/// Whether any option is given.
fn has_options(options: &Options<'_>) -> bool
    ensures yes { IsTrue result → HasNone (values_of_options options.now) → ⊥ }
    ensures no { result ≡ false → HasNone (values_of_options options.now) }
{
    options.ring.is_some()
        || options.log.is_some()
        || options.listen.is_some()
        || options.console.is_some()
}

/// The only word, where it is one.
fn only_place<'a>(places: &[&'a str]) -> Option<&'a str>
    ensures some { IfSome result (λ place. map (λ a. a.now) places.now ≡ place.now ∷ []) }
    ensures none { result ≡ None → (place : Text) → map (λ a. a.now) places.now ≡ place ∷ [] → ⊥ }
{
    if places.len() == 1 {
        Some(places[0])
    } else {
        None
    }
}

/// The two words, where there are two.
fn two_places<'a>(places: &[&'a str]) -> Option<(&'a str, &'a str)>
    ensures some { IfSome result (λ two. map (λ a. a.now) places.now ≡ two.0.now ∷ two.1.now ∷ []) }
    ensures none { result ≡ None → (first second : Text) → map (λ a. a.now) places.now ≡ first ∷ second ∷ [] → ⊥ }
{
    if places.len() == 2 {
        Some((places[0], places[1]))
    } else {
        None
    }
}

/// Copies of the words.
fn copies_of(alloc: Global, words: &[&str]) -> Result<Texts, OutOfMemory>
    ensures { IfOk result (λ copies. copies ≡ map (λ w. w.now) words.now) }
{
    let mut copies = Vec::with_capacity(alloc, words.len())?;
    for word in words {
        copies.push(Bytes::from_slice(alloc, word.as_bytes())?)?;
    }
    Ok(Texts::from_vec(copies))
}

/// What `run` asks for.
fn run_of(alloc: Global, given: &Given<'_>) -> Result<Command, Or<BadWords>>
    requires { AreSingle (values_of_options given.now.options) }
    ensures ok { IfOk result (λ command. Asks (codes "run") (values_of_options given.now.options) (map (λ a. a.now) given.now.places.items) command) }
    ensures bad { IsErrOf result (or.Fault (record {})) → (command : Asked) → Asks (codes "run") (values_of_options given.now.options) (map (λ a. a.now) given.now.places.items) command → ⊥ }
{
    let places = given.places.as_slice();
    if given.options.ring.is_some() || given.options.log.is_some() || places.is_empty() {
        return Err(Or::Fault(BadWords));
    }
    let old = Bytes::from_slice(alloc, places[0].as_bytes())?;
    let args = copies_of(alloc, &places[1..])?;
    Ok(Command::Run { old, args })
}

/// What `rehearse` asks for.
fn rehearsal_of(alloc: Global, given: &Given<'_>) -> Result<Command, Or<BadWords>>
    requires { AreSingle (values_of_options given.now.options) }
    ensures ok { IfOk result (λ command. Asks (codes "rehearse") (values_of_options given.now.options) (map (λ a. a.now) given.now.places.items) command) }
    ensures bad { IsErrOf result (or.Fault (record {})) → (command : Asked) → Asks (codes "rehearse") (values_of_options given.now.options) (map (λ a. a.now) given.now.places.items) command → ⊥ }
{
    let places = given.places.as_slice();
    if places.len() < 2 {
        return Err(Or::Fault(BadWords));
    }
    let Some(ring) = ring_of(given.options.ring) else {
        return Err(Or::Fault(BadWords));
    };
    let log = log_of(alloc, given.options.log)?;
    let old = Bytes::from_slice(alloc, places[0].as_bytes())?;
    let schedule = Bytes::from_slice(alloc, places[1].as_bytes())?;
    let args = copies_of(alloc, &places[2..])?;
    Ok(Command::Rehearse {
        old,
        schedule,
        args,
        ring,
        log,
    })
}

/// What `serve` asks for.
fn service_of(alloc: Global, given: &Given<'_>) -> Result<Command, Or<BadWords>>
    requires { AreSingle (values_of_options given.now.options) }
    ensures ok { IfOk result (λ command. Asks (codes "serve") (values_of_options given.now.options) (map (λ a. a.now) given.now.places.items) command) }
    ensures bad { IsErrOf result (or.Fault (record {})) → (command : Asked) → Asks (codes "serve") (values_of_options given.now.options) (map (λ a. a.now) given.now.places.items) command → ⊥ }
{
    let places = given.places.as_slice();
    if places.is_empty() {
        return Err(Or::Fault(BadWords));
    }
    let Some(ring) = ring_of(given.options.ring) else {
        return Err(Or::Fault(BadWords));
    };
    let log = log_of(alloc, given.options.log)?;
    let old = Bytes::from_slice(alloc, places[0].as_bytes())?;
    let args = copies_of(alloc, &places[1..])?;
    Ok(Command::Serve {
        old,
        args,
        ring,
        log,
    })
}

/// What `audit` asks for: behind the log and the first module, files in threes.
fn audit_of(alloc: Global, given: &Given<'_>) -> Result<Command, Or<BadWords>>
    requires { HasNone (values_of_options given.now.options) }
    ensures ok { IfOk result (λ command. Asks (codes "audit") (values_of_options given.now.options) (map (λ a. a.now) given.now.places.items) command) }
    ensures bad { IsErrOf result (or.Fault (record {})) → (command : Asked) → Asks (codes "audit") (values_of_options given.now.options) (map (λ a. a.now) given.now.places.items) command → ⊥ }
{
    let places = given.places.as_slice();
    if places.len() < 2 || (places.len() - 2) % 3 != 0 {
        return Err(Or::Fault(BadWords));
    }
    let log = Bytes::from_slice(alloc, places[0].as_bytes())?;
    let old = Bytes::from_slice(alloc, places[1].as_bytes())?;
    let updates = copies_of(alloc, &places[2..])?;
    Ok(Command::Audit { log, old, updates })
}

/// What `assemble` asks for.
fn assembly_of(alloc: Global, given: &Given<'_>) -> Result<Command, Or<BadWords>>
    requires { HasNone (values_of_options given.now.options) }
    ensures ok { IfOk result (λ command. Asks (codes "assemble") (values_of_options given.now.options) (map (λ a. a.now) given.now.places.items) command) }
    ensures bad { IsErrOf result (or.Fault (record {})) → (command : Asked) → Asks (codes "assemble") (values_of_options given.now.options) (map (λ a. a.now) given.now.places.items) command → ⊥ }
{
    let Some((text, to)) = two_places(given.places.as_slice()) else {
        return Err(Or::Fault(BadWords));
    };
    let text = Bytes::from_slice(alloc, text.as_bytes())?;
    let to = Bytes::from_slice(alloc, to.as_bytes())?;
    Ok(Command::Assemble { text, to })
}

/// What `load` asks for.
fn load_of(given: &Given<'_>) -> Result<Command, Or<BadWords>>
    requires { HasNone (values_of_options given.now.options) }
    ensures ok { IfOk result (λ command. Asks (codes "load") (values_of_options given.now.options) (map (λ a. a.now) given.now.places.items) command) }
    ensures bad { IsErrOf result (or.Fault (record {})) → (command : Asked) → Asks (codes "load") (values_of_options given.now.options) (map (λ a. a.now) given.now.places.items) command → ⊥ }
{
    match size_of(given.places.as_slice()) {
        Some(connections) => Ok(Command::Load { connections }),
        None => Err(Or::Fault(BadWords)),
    }
}

/// The number of connections, where the words are one that is such a number.
fn size_of(places: &[&str]) -> Option<u32>
    ensures some { IfSome result (IsSize (map (λ a. a.now) places.now)) }
    ensures none { result ≡ None → (n : ℕ) → IsSize (map (λ a. a.now) places.now) n → ⊥ }
{
    match only_place(places) {
        Some(text) => number_within(text, 1, MOST_CONNECTIONS),
        None => None,
    }
}

/// The file for the log, where one is given.
fn log_of(alloc: Global, log: Option<&str>) -> Result<Option<Bytes>, OutOfMemory>
    ensures { IfOk result (λ path. IsLog (listed log.entry) path) }
{
    match log {
        None => Ok(None),
        Some(path) => Ok(Some(Bytes::from_slice(alloc, path.as_bytes())?)),
    }
}

/// The capacity of the feed, where the value of the option is one.
fn ring_of(ring: Option<&str>) -> Option<u32>
    ensures some { IfSome result (IsRing (listed ring.entry)) }
    ensures none { result ≡ None → (n : ℕ) → IsRing (listed ring.entry) n → ⊥ }
{
    match ring {
        None => Some(DEFAULT_RING),
        Some(text) => number_within(text, LEAST_RING, MOST_RING),
    }
}

/// A number of 1 to 5 decimal digits, from the least to the most.
fn number_within(text: &str, least: u32, most: u32) -> Option<u32>
    ensures some { IfSome result (IsWithin least most text.now) }
    ensures none { result ≡ None → (n : ℕ) → IsWithin least most text.now n → ⊥ }
{
    if text.len() > 5 {
        return None;
    }
    match read_number(text.as_bytes(), u64::from(least), u64::from(most)) {
        Found::Is(n) => Some(n as u32),
        Found::Other | Found::OutOfRange => None,
    }
}
