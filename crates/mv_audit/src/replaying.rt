//! The replay of a version over what it heard, plainly.
ghost use Rattle.std.specs.Prelude.{◌≡◌, ◌↔◌, IfOk, IsTrue};
ghost use Rattle.mv_audit.specs.Audit.{IsSuited, came};
ghost use Rattle.mv_history.specs.Replay.{event_fits, past, replay};

use mv_calls::{Call, Item, OutOfMemory, copy_call, fits};
use mv_syntax::BornFault;
use mv_version::{Event, Version};
use std::alloc::Global;

/// What came of a replay.
#[derive(Drop)]
pub(crate) enum Outcome<V: Drop> {
    /// The guest at its end.
    Stands(V),
    /// The item that fails, counted from 0, with its call and what was met there.
    Fails { k: u64, want: Call, met: Event },
    /// The fault of a birth, where there was no guest to begin with.
    Unborn(BornFault),
}

/// The next event that is no point, where the guest then stands.
fn next_event<V: Version>(alloc: Global, guest: &mut V) -> Result<Event, OutOfMemory>
    ensures event { IfOk result (λ event. event ≡ V.behaviour.go (past V.behaviour (V.behaviour.state guest.old))) }
    ensures stands { IfOk result (λ event. V.behaviour.state guest.new ≡ past V.behaviour (V.behaviour.state guest.old)) }
{
    loop {
        let event = guest.go(alloc)?;
        if !matches!(event, Event::Point) {
            return Ok(event);
        }
        guest.pass_point();
    }
}

/// Whether the item may answer what the guest does.
fn answers(event: &Event, item: &Item) -> bool
    ensures fits { result ≡ event_fits event.now item.now }
    ensures suits { IsTrue result → IsSuited event.now item.now.1 }
{
    match event {
        Event::Calls(call) => fits(call, &item.call, &item.reply),
        _ => false,
    }
}

/// The replay of these items from the guest on.
pub(crate) fn replay<V: Version>(
    alloc: Global,
    guest: V,
    items: &[Item],
) -> Result<Outcome<V>, OutOfMemory>
    ensures { IfOk result (λ outcome. replay V.behaviour 0 (V.behaviour.state guest) items.now ≡ came V.behaviour outcome) }
{
    let mut guest = guest;
    for (k, item) in items.iter().enumerate() {
        let event = next_event(alloc, &mut guest)?;
        if !answers(&event, item) {
            return Ok(Outcome::Fails {
                k: k as u64,
                want: copy_call(alloc, &item.call)?,
                met: event,
            });
        }
        guest.prepare(alloc)?;
        guest.answer(&item.reply);
    }
    Ok(Outcome::Stands(guest))
}
