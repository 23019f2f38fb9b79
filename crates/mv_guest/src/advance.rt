//! The next event of a machine.
ghost use Rattle.std.specs.Prelude.{◌≡◌, IfOk, OnOk, OnErr, Some};
ghost use Rattle.mv_wasi.specs.Machines.{clean};
ghost use Rattle.mv_wasi.specs.Known.{AreKnown};
ghost use Rattle.mv_guest.specs.Events.{next_event as event_from};
ghost use Rattle.mv_guest.specs.Advances.{Advanced, Meets, SameNext, IsMetAgain};
ghost use Rattle.mv_guest.specs.Standing.{stands_from, passed};
ghost use Rattle.mv_guest.specs.Running.{passed_times, ArePoints};
ghost use Rattle.mv_version.specs.declared.event.Event.TheVariants.{Point as point_event};

use mv_calls::{OutOfMemory, Texts, Trap};
use mv_machine::{Machine, Stop};
use mv_version::Event;
use mv_wasi::{Made, decode, push_number};
use std::alloc::Global;

/// Fuel for one instruction more than a gap may have.
const AMPLE: u32 = 50_000_001;

/// What the call at which the machine stands leads to. An errno that is answered at once is no event. For want of memory nothing
/// changes, but for which pages are owned.
fn meet(
    alloc: Global,
    machine: &mut Machine,
    index: u32,
    args: &Texts,
) -> Result<Option<Event>, OutOfMemory>
    requires waits { machine.old.config.waiting ≡ Some index }
    requires known { AreKnown machine.old.parts }
    ensures met { IfOk result (λ event. Meets machine.old.parts args.now machine.old.config index event machine.new.config) }
    ensures err { OnErr result (clean machine.new.config ≡ clean machine.old.config) }
    ensures parts { machine.new.parts ≡ machine.old.parts }
{
    match decode(alloc, machine, index, args)? {
        Made::Local(errno) => {
            push_number(machine, errno);
            Ok(None)
        }
        Made::Outside(call) => Ok(Some(Event::Calls(call))),
        Made::Point => Ok(Some(Event::Point)),
        Made::Exit(code) => Ok(Some(Event::Ends(code))),
        Made::Live(_) => Ok(Some(Event::Traps(Trap::NotNow))),
    }
}

/// Runs up to the next stop. An errno that is answered at once is no event. For want of memory the next event is the same.
fn advance(alloc: Global, machine: &mut Machine, args: &Texts) -> Result<Option<Event>, OutOfMemory>
    requires known { AreKnown machine.old.parts }
    ensures advanced { IfOk result (λ event. Advanced machine.old.parts args.now machine.old.config event machine.new.config) }
    ensures err { OnErr result (SameNext machine.old.parts args.now machine.new.config machine.old.config) }
    ensures parts { machine.new.parts ≡ machine.old.parts }
{
    machine.keeps();
    match machine.run(alloc, AMPLE) {
        Stop::Memory => {
            machine.keeps();
            Err(OutOfMemory)
        }
        Stop::Fuel => unreachable!(),
        Stop::Trap(trap) => Ok(Some(Event::Traps(trap))),
        Stop::Ended { .. } => Ok(Some(Event::Ends(0))),
        Stop::Import { index } => meet(alloc, machine, index, args),
    }
}

/// The next event. For want of memory it is still to come.
pub fn next_event(alloc: Global, machine: &mut Machine, args: &Texts) -> Result<Event, OutOfMemory>
    requires known { AreKnown machine.old.parts }
    ensures event { IfOk result (λ event. (event_from machine.old.parts args.now machine.old.config).1 ≡ event) }
    ensures there { IfOk result (λ event. clean machine.new.config ≡ clean (event_from machine.old.parts args.now machine.old.config).0) }
    ensures again { IfOk result (λ event. IsMetAgain machine.old.parts args.now machine.new.config machine.old.config event) }
    ensures err { OnErr result (SameNext machine.old.parts args.now machine.new.config machine.old.config) }
    ensures parts { machine.new.parts ≡ machine.old.parts }
{
    loop {
        let event = advance(alloc, machine, args)?;
        match event {
            Some(event) => return Ok(event),
            None => {}
        }
    }
}

/// Passes the update point at which the guest stands. For want of memory it is still to be passed.
fn pass_one(alloc: Global, machine: &mut Machine, args: &Texts) -> Result<(), OutOfMemory>
    requires known { AreKnown machine.old.parts }
    requires point { (stands_from machine.old.parts args.now machine.old.config).event ≡ point_event }
    ensures ok { OnOk result (stands_from machine.old.parts args.now machine.new.config ≡ passed (stands_from machine.old.parts args.now machine.old.config)) }
    ensures err { OnErr result (stands_from machine.old.parts args.now machine.new.config ≡ stands_from machine.old.parts args.now machine.old.config) }
    ensures parts { machine.new.parts ≡ machine.old.parts }
{
    match next_event(alloc, machine, args)? {
        Event::Point => {}
        _ => unreachable!(),
    }
    push_number(machine, 0);
    Ok(())
}

/// Passes the update points that are to be passed. For want of memory some are left.
pub fn pass_pending(
    alloc: Global,
    machine: &mut Machine,
    args: &Texts,
    pending: &mut u32,
) -> Result<(), OutOfMemory>
    requires known { AreKnown machine.old.parts }
    requires points { ArePoints pending.old (stands_from machine.old.parts args.now machine.old.config) }
    ensures same { passed_times pending.new (stands_from machine.old.parts args.now machine.new.config) ≡ passed_times pending.old (stands_from machine.old.parts args.now machine.old.config) }
    ensures points { ArePoints pending.new (stands_from machine.old.parts args.now machine.new.config) }
    ensures done { OnOk result (pending.new ≡ 0) }
    ensures parts { machine.new.parts ≡ machine.old.parts }
{
    while *pending > 0 {
        pass_one(alloc, machine, args)?;
        *pending -= 1;
    }
    Ok(())
}
