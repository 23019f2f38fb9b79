//! Loads: rehearsals that a number makes.
ghost use Rattle.std.specs.Prelude.{◌≡◌, ◌≤◌};
ghost use Rattle.mv_words.specs.declared.command.Command.TheVariants as ask;
ghost use Rattle.mv_commands.specs.Causes.{CauseOf, seen_of};

use crate::ending::{Ending, LoadEnding};
use crate::keeping::how_of;
use crate::running::{Came, not_run};
use mv_calls::Or;
use mv_load::{audit_load, figures_of, load};
use mv_outside::{Console, Files, Kernel};
use std::alloc::Global;

/// `load N`: rehearses a load of so many connections over objects of its own, audits its log, and takes the figures of it.
pub fn load_asked<K: Kernel, C: Console, F: Files>(
    alloc: Global,
    connections: u32,
    kernel: K,
    console: C,
    files: F,
) -> Came<K, C, F>
    requires { (1 ≤ connections) × (connections ≤ 10000) }
    ensures { CauseOf (ask.Load connections) (seen_of K.done K.faults C.coming C.said C.faults F.content F.faults kernel console files) (seen_of K.done K.faults C.coming C.said C.faults F.content F.faults result.kernel result.console result.files) result.log result.ending }
{
    let log = match load(alloc, connections) {
        Ok(log) => log,
        Err(Or::Fault(fault)) => {
            let ending = Ending::Loaded(LoadEnding::Refused(fault));
            return not_run(alloc, ending, kernel, console, files);
        }
        Err(Or::OutOfMemory) => {
            return not_run(alloc, Ending::NoMemory, kernel, console, files);
        }
    };
    match audit_load(alloc, &log) {
        Ok(true) => {}
        Ok(false) => unreachable!(),
        Err(_) => return not_run(alloc, Ending::NoMemory, kernel, console, files),
    }
    let how = how_of(&log);
    let figures = figures_of(log.entries.slice());
    Came {
        ending: Ending::Loaded(LoadEnding::Ended { how, figures }),
        kernel,
        console,
        files,
        log,
    }
}
