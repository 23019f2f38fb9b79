//! Where a guest's listener and the operator's console are.
ghost use Rattle.std.specs.Prelude.{◌≡◌, IfOk, map, string_bytes};
ghost use Rattle.mv_words.specs.Commands.{ArePlaces, default_console, default_listen, first_or};
ghost use Rattle.mv_words.specs.Given.{listed};

use crate::given::words_given;
use crate::reading::texts_of;
use mv_calls::{Bytes, Or, OutOfMemory};
use std::alloc::Global;

/// Where a guest's listener is unless the words name a place.
const DEFAULT_LISTEN: &str = "127.0.0.1:7070";

/// Where the operator's console is unless the words name a place.
const DEFAULT_CONSOLE: &str = "127.0.0.1:7071";

/// Two addresses, as `127.0.0.1:7070`.
#[derive(Debug, Drop)]
pub struct Addresses {
    /// Where a guest's listener is.
    pub listen: Bytes,
    /// Where the operator's console is.
    pub console: Bytes,
}

/// The two addresses that the words of a command line give, the command word first: what `--listen` and `--console` name, and
/// the defaults `127.0.0.1:7070` and `127.0.0.1:7071` where they don't, or where no command has such words. The one error is
/// want of memory.
pub fn places(alloc: Global, words: &[String]) -> Result<Addresses, OutOfMemory>
    ensures { IfOk result (λ addresses. ArePlaces (map string_bytes words.now) addresses) }
{
    let texts = texts_of(alloc, words)?;
    places_in(alloc, texts.as_slice())
}

/// The two addresses that the words give.
fn places_in(alloc: Global, words: &[&str]) -> Result<Addresses, OutOfMemory>
    ensures { IfOk result (λ addresses. ArePlaces (map (λ w. w.now) words.now) addresses) }
{
    if words.is_empty() {
        return named_or_default(alloc, None, None);
    }
    match words_given(alloc, words) {
        Ok(given) => named_or_default(alloc, given.options.listen, given.options.console),
        Err(Or::Fault(_)) => named_or_default(alloc, None, None),
        Err(Or::OutOfMemory) => Err(OutOfMemory),
    }
}

/// These two addresses, or the default of each.
fn named_or_default(
    alloc: Global,
    listen: Option<&str>,
    console: Option<&str>,
) -> Result<Addresses, OutOfMemory>
    ensures listen { IfOk result (λ a. a.listen ≡ first_or default_listen (listed listen.entry)) }
    ensures console { IfOk result (λ a. a.console ≡ first_or default_console (listed console.entry)) }
{
    Ok(Addresses {
        listen: Bytes::from_slice(alloc, listen.unwrap_or(DEFAULT_LISTEN).as_bytes())?,
        console: Bytes::from_slice(alloc, console.unwrap_or(DEFAULT_CONSOLE).as_bytes())?,
    })
}
