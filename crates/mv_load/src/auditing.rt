//! The audit of a load's log.
ghost use Rattle.std.specs.Prelude.{◌≡◌, ◌↔◌, IfOk, IsTrue};
ghost use Rattle.mv_history.specs.World.{AreLegal, begun};
ghost use Rattle.mv_load.specs.Loads.{IsLegal, IsLegalFrom};

use mv_audit::first_illegal;
use mv_calls::{Or, OutOfMemory};
use mv_history::{Log, logs_join};
use mv_transform::Guest;
use mv_version::Version;
use std::alloc::Global;

/// Whether a log is legal over the guests of this host: a guest starts of its start, and each entry may come where it comes. The
/// one error is want of memory.
pub fn audit_load(alloc: Global, log: &Log) -> Result<bool, OutOfMemory>
    ensures { IfOk result (λ legal. IsTrue legal ↔ IsLegal log.now) }
{
    audited::<Guest>(alloc, log)
}

/// The same, with any version as the guest.
fn audited<V: Version>(alloc: Global, log: &Log) -> Result<bool, OutOfMemory>
    ensures { IfOk result (λ legal. IsTrue legal ↔ IsLegalFrom V.behaviour log.now) }
{
    match V::start(alloc, log.start.module.slice(), &log.start.args) {
        Ok(guest) => is_legal(alloc, guest, log),
        Err(Or::Fault(_)) => Ok(false),
        Err(Or::OutOfMemory) => Err(OutOfMemory),
    }
}

/// Whether each entry of a log may come where it comes, in a run that began with this guest.
fn is_legal<V: Version>(alloc: Global, guest: V, log: &Log) -> Result<bool, OutOfMemory>
    ensures { IfOk result (λ legal. IsTrue legal ↔ AreLegal V.behaviour log.now.updates.list (begun (V.behaviour.state guest)) log.now.entries.list) }
{
    logs_join::<V>();
    match first_illegal(alloc, guest, &log.updates, log.entries.slice())? {
        None => Ok(true),
        Some(_) => Ok(false),
    }
}
