//! What the words behind a command word give, as `clap` reads them.
ghost use Rattle.std.specs.Prelude.{◌≡◌, ◌<◌, IfOk, false, List, map, length, drop, codes, option_map, IsErrOf};
ghost use Rattle.clap.specs.Words.{app_of, rule_of, first_value, found_of, matched_of, raw_values};
ghost use Rattle.mv_words.specs.App.{words_app, plain_app, option_rule, rest_rule};
ghost use Rattle.mv_words.specs.Commands.{AreSingle, Gives, Values};
ghost use Rattle.mv_words.specs.Given.{values_of_options};
ghost use Rattle.mv_words.specs.Hyphens.{list_or_none};
ghost use Rattle.mv_words.specs.Words.{Text};
ghost use Rattle.mv_calls.specs.declared.fault.Or.TheVariants as or;

use crate::command::BadWords;
use crate::shapes::has_short_word;
use clap::builder::ValueParser;
use clap::error::ErrorKind;
use clap::{Arg, ArgAction, ArgMatches, Command};
use mv_calls::{Or, OutOfMemory};
use std::alloc::{AllocError, Global};

/// The values of the options that are given.
#[derive(Clone, Copy, Debug)]
pub struct Options<'a> {
    pub ring: Option<&'a str>,
    pub log: Option<&'a str>,
    pub listen: Option<&'a str>,
    pub console: Option<&'a str>,
}

/// What the words behind a command word give.
#[derive(Drop, Debug)]
pub struct Given<'a> {
    pub options: Options<'a>,
    pub places: Vec<&'a str>,
}

/// An option that takes one value, which isn't empty.
fn option_arg<'a>(alloc: Global, name: &'a str) -> Arg<'a>
    ensures rule { rule_of result ≡ option_rule name.entry.now }
    ensures local { result.global ≡ false }
{
    Arg::new(alloc, name)
        .long(name)
        .action(ArgAction::Set)
        .value_parser(ValueParser::NonEmptyString)
}

/// All other words.
fn rest_arg<'a>(alloc: Global, name: &'a str) -> Arg<'a>
    ensures rule { rule_of result ≡ rest_rule name.entry.now }
    ensures local { result.global ≡ false }
{
    Arg::new(alloc, name)
        .action(ArgAction::Append)
        .value_parser(ValueParser::NonEmptyString)
}

/// A command that has no flag for help.
fn plain_command<'a>(alloc: Global, name: &'a str) -> Command<'a>
    ensures { app_of result ≡ plain_app name.entry.now }
{
    Command::new(alloc, name).disable_help_flag(true)
}

/// All options, and places for any number of words.
fn words_command<'a>(alloc: Global) -> Result<Command<'a>, AllocError>
    ensures { IfOk result (λ c. app_of c ≡ words_app) }
{
    let command = plain_command(alloc, "mv");
    let ring = command.arg(option_arg(alloc, "ring"))?;
    let log = ring.arg(option_arg(alloc, "log"))?;
    let listen = log.arg(option_arg(alloc, "listen"))?;
    let console = listen.arg(option_arg(alloc, "console"))?;
    let places = console.arg(rest_arg(alloc, "places"))?;
    Ok(places)
}

/// The values of options that a parse found.
fn options_in<'a>(matches: &ArgMatches<'a>) -> Options<'a>
    ensures ring { option_map (λ s. s.now) result.ring ≡ first_value (found_of matches.now) (codes "ring") }
    ensures log { option_map (λ s. s.now) result.log ≡ first_value (found_of matches.now) (codes "log") }
    ensures listen { option_map (λ s. s.now) result.listen ≡ first_value (found_of matches.now) (codes "listen") }
    ensures console { option_map (λ s. s.now) result.console ≡ first_value (found_of matches.now) (codes "console") }
{
    Options {
        ring: matches.get_str("ring"),
        log: matches.get_str("log"),
        listen: matches.get_str("listen"),
        console: matches.get_str("console"),
    }
}

/// The words by their place that a parse found.
fn places_in<'a>(alloc: Global, matches: &ArgMatches<'a>) -> Result<Vec<&'a str>, OutOfMemory>
    ensures { IfOk result (λ places. map (λ a. a.now) places.items
        ≡ list_or_none (option_map raw_values (matched_of (found_of matches.now) (codes "places")))) }
{
    match matches.get_strs("places") {
        None => Ok(Vec::new(alloc)),
        Some(found) => Ok(Vec::from_slice(alloc, found)?),
    }
}

/// What the words give, the command word first. `clap` reads them; what it takes beyond the grammar is refused before.
pub fn words_given<'a>(alloc: Global, words: &'a [&'a str]) -> Result<Given<'a>, Or<BadWords>>
    requires { 0 < length words.now }
    ensures ok { IfOk result (λ g. Gives (drop 1 (map (λ w. w.now) words.entry.now)) (values_of_options g.options) (map (λ a. a.now) g.places.items)) }
    ensures single { IfOk result (λ g. AreSingle (values_of_options g.options)) }
    ensures bad { IsErrOf result (or.Fault (record {})) → (values : Values) (placed : List Text) → AreSingle values → Gives (drop 1 (map (λ w. w.now) words.entry.now)) values placed → ⊥ }
{
    if has_short_word(&words[1..]) {
        return Err(Or::Fault(BadWords));
    }
    let command = words_command(alloc)?;
    match command.try_get_matches_from(words) {
        Ok(matches) => {
            let options = options_in(&matches);
            let places = places_in(alloc, &matches)?;
            Ok(Given { options, places })
        }
        Err(error) => match error.kind() {
            ErrorKind::OutOfMemory => Err(Or::OutOfMemory),
            _ => Err(Or::Fault(BadWords)),
        },
    }
}
