//! Turns over a small guest: memory is wanted, the console fails, and the log comes to its limits.
ghost use Rattle.std.specs.Prelude.{◌≡◌, ◌≤◌, ◌∷◌, [], None, true, false, IfOk, Ok, refl, replicate};
ghost use Rattle.std.proofs.Common.{lit<};
ghost use Rattle.mv_calls.specs.declared.calls.Call.TheVariants as call;
ghost use Rattle.mv_calls.specs.declared.subs.Sub.TheVariants as sub;
ghost use Rattle.mv_core.specs.Sound.{BeginsWith, IsNewRun};
ghost use Rattle.mv_core.specs.Whole.{seen};
ghost use Rattle.mv_core.specs.declared.tests.Small.TheVariants as small;
ghost use Rattle.mv_history.specs.Statuses.{first_status};
ghost use Rattle.mv_version.specs.declared.event.Event.TheVariants as event;

use super::*;
use mv_calls::{Bytes, Call, Or, OutOfMemory, Reply, Room, Sub, Subs, Texts};
use mv_feed::PlainFeed;
use mv_history::{Entry, How, Log, Mark, Start};
use mv_orders::OrderReply;
use mv_outside::{Console, Failed, FileAt, Files, Kernel, Line, MemConsole, MemFiles, Run};
use mv_syntax::BornFault;
use mv_version::{Event, Version};
use std::alloc::Global;
use std::marker::Brand;
use std::test::*;

/// A guest that comes to a point, writes and ends. One whose module has bytes polls 1,024 subscriptions, time and again.
#[derive(Drop)]
enum Small {
    Begins,
    Writes,
    Ends,
    Polls,
}

impl Version for Small {
    ghost behaviour = { record {
      state = λ s. s;
      go = λ s. elim s [ small.Begins ↦ event.Point | small.Writes ↦ event.Calls (call.Write 1 (97 ∷ [])) | small.Ends ↦ event.Ends 0 | small.Polls ↦ event.Calls (call.Poll (replicate 1024 (sub.Read 3))) ];
      after = λ s r. elim s [ small.Begins ↦ small.Writes | small.Writes ↦ small.Ends | small.Ends ↦ small.Ends | small.Polls ↦ small.Polls ];
      passed = λ s. elim s [ small.Begins ↦ small.Writes | small.Writes ↦ small.Ends | small.Ends ↦ small.Ends | small.Polls ↦ small.Polls ];
      started = λ m a. elim m [ [] ↦ Ok small.Begins | x ∷ rest ↦ Ok small.Polls ];
      born = λ s m. Ok s;
      left = λ s. elim s [ small.Begins ↦ 1 | small.Writes ↦ 0 | small.Ends ↦ 0 | small.Polls ↦ 0 ];
    } };

    ghost prepared = { λ s. Unit {0} };

    fn start(_alloc: Global, module: &[u8], _args: &Texts) -> Result<Self, Or<BornFault>> {
        match module {
            [] => Ok(Small::Begins),
            [_, ..] => Ok(Small::Polls),
        }
    }

    fn born(_alloc: Global, old: Self, _module: &[u8]) -> Result<Self, Or<BornFault>> {
        Ok(old)
    }

    fn go(&mut self, alloc: Global) -> Result<Event, OutOfMemory> {
        match self {
            Small::Begins => Ok(Event::Point),
            Small::Writes => Ok(Event::Calls(Call::Write {
                fd: 1,
                bytes: Bytes::from_slice(alloc, b"a")?,
            })),
            Small::Ends => Ok(Event::Ends(0)),
            Small::Polls => Ok(Event::Calls(Call::Poll { subs: many(alloc)? })),
        }
    }

    fn prepare(&mut self, _alloc: Global) -> Result<(), OutOfMemory> {
        Ok(())
    }

    fn answer(&mut self, _reply: &Reply) {
        self.pass();
    }

    fn pass_point(&mut self) {
        self.pass();
    }

    fn copy(&self, _alloc: Global) -> Result<Self, OutOfMemory> {
        Err(OutOfMemory)
    }

    ghost points_end = { elim [ small.Begins ↦ (λ here again. lit< tt) | small.Writes ↦ (λ here again. absurd (let bad : event.Calls (call.Write 1 (97 ∷ [])) ≡ event.Point = here in cc)) | small.Ends ↦ (λ here again. absurd (let bad : event.Ends 0 ≡ event.Point = here in cc)) | small.Polls ↦ (λ here again. absurd (let bad : event.Calls (call.Poll (replicate 1024 (sub.Read 3))) ≡ event.Point = here in cc)) ] };

    ghost settled = { record { state_once = λ s. refl; after_is = λ s r. refl; passed_is = λ s. refl; started_is = λ m a s h. refl; born_is = λ s m. refl; newborn_is = λ s m v h. refl } };
}

impl Small {
    /// Goes one on.
    fn pass(&mut self)
        ensures { self.new ≡ elim self.old [ small.Begins ↦ small.Writes | small.Writes ↦ small.Ends | small.Ends ↦ small.Ends | small.Polls ↦ small.Polls ] }
    {
        *self = match self {
            Small::Begins => Small::Writes,
            Small::Writes => Small::Ends,
            Small::Ends => Small::Ends,
            Small::Polls => Small::Polls,
        };
    }
}

/// Subscriptions that weigh 32 KiB.
fn many(alloc: Global) -> Result<Subs, OutOfMemory>
    ensures { IfOk result (λ subs. subs ≡ replicate 1024 (sub.Read 3)) }
{
    match Vec::from_array(alloc, [Sub::Read { fd: 3 }; 1_024]) {
        Ok(subs) => Ok(Subs::from_vec(subs)),
        Err(_) => Err(OutOfMemory),
    }
}

/// A kernel that tells nothing, and answers by error 6.
#[derive(Drop)]
struct Plain;

impl Kernel for Plain {
    ghost done = { λ _. None };

    ghost faults = { λ _. 0 };

    ghost ready_for = { λ _ call. Unit {0} };

    fn ready(&mut self, _alloc: Global, _call: &Call) -> Result<(), OutOfMemory> {
        Ok(())
    }

    fn perform(&mut self, _call: &Call, _room: Room) -> Result<Reply, Failed> {
        Ok(Reply::Errno(6))
    }
}

/// A console that tells nothing. It hands on an update's order, then nothing, and has no memory for the first `refusals` answers.
#[derive(Drop)]
struct Shy {
    handed: bool,
    refusals: u64,
    place: usize,
}

impl Console for Shy {
    ghost coming = { λ _. None };

    ghost said = { λ _. None };

    ghost faults = { λ _. 0 };

    ghost room = { λ c. c.place };

    ghost ended = { λ _. false };

    fn next(&mut self, alloc: Global) -> Line {
        if self.handed {
            return Line::Idle;
        }
        match Bytes::from_slice(alloc, b"update a none none") {
            Ok(line) => {
                self.handed = true;
                Line::Line(line)
            }
            Err(_) => Line::Memory,
        }
    }

    fn prepare(&mut self, _alloc: Global, len: usize) -> Result<(), OutOfMemory> {
        if self.refusals > 0 {
            self.refusals = self.refusals.saturating_sub(1);
            return Err(OutOfMemory);
        }
        self.place = len;
        Ok(())
    }

    fn say(&mut self, _line: &[u8]) -> Result<(), Failed> {
        Ok(())
    }
}

/// So many turns of a run that begins, over a feed of four places: how many of them wanted memory, the console, and the log.
fn turned<V: Version, K: Kernel, C: Console, F: Files, N: Run>(
    alloc: Global,
    guest: V,
    log: Log,
    kernel: K,
    console: C,
    files: F,
    turns: usize,
) -> (u8, C, Log)
    requires new_run { IsNewRun V.behaviour guest log }
    requires stands { BeginsWith N.began (seen K.done K.faults C.coming C.said C.faults F.content F.faults (record { log = log; status = first_status; kernel = kernel; console = console; files = files; orders = true; mute = false; line = None })) }
{
    let mut core: Core<V, K, C, F, N> = Core::new(guest, log, kernel, console, files, true);
    let mut wanted: u8 = 0;
    if let Ok(mut feed) = PlainFeed::make(alloc, 4) {
        for _ in 0..turns {
            if core.turn(alloc, &mut feed) == Turn::Memory {
                wanted = wanted.saturating_add(1);
            }
        }
    }
    let (_kernel, console, _files, log) = core.close();
    (wanted, console, log)
}

/// The same of some run.
fn turns<V: Version, K: Kernel, C: Console, F: Files>(
    alloc: Global,
    guest: V,
    log: Log,
    kernel: K,
    console: C,
    files: F,
    turns: usize,
) -> (u8, C, Log)
    requires new_run { IsNewRun V.behaviour guest log }
{
    turned::<V, K, C, F, Brand>(alloc, guest, log, kernel, console, files, turns)
}

/// The log of a run of this module that begins.
fn new_log(alloc: Global, module: &[u8]) -> Result<Log, OutOfMemory>
    ensures module { IfOk result (λ log. log.start.«module» ≡ «module».now) }
    ensures new { IfOk result (λ log. (log.entries.list ≡ []) × (log.updates.list ≡ []) × (3 ≤ log.entries.room)) }
{
    let start = Start {
        module: Bytes::from_slice(alloc, module)?,
        args: Texts::from_vec(Vec::new(alloc)),
    };
    Log::make(alloc, start)
}

/// The file that the order names.
fn one_file(alloc: Global) -> Result<MemFiles, OutOfMemory> {
    let mut named = Vec::new(alloc);
    named.push(FileAt {
        path: Bytes::from_slice(alloc, b"a")?,
        bytes: Bytes::from_slice(alloc, b"module")?,
    })?;
    Ok(MemFiles::new(named, Vec::new(alloc), Vec::new(alloc)))
}

/// What an entry is called.
fn name(entry: &Entry) -> char {
    match entry {
        Entry::Order {
            reply: OrderReply::Accepted { update: 1, .. },
            ..
        } => 'o',
        Entry::Order {
            reply: OrderReply::Told { .. },
            ..
        } => 's',
        Entry::Mark(Mark::NoCopy { update: 1 }) => 'n',
        Entry::Point => 'p',
        Entry::Call { .. } => 'c',
        Entry::Mark(Mark::End { how: How::Ended(0) }) => 'e',
        Entry::Mark(Mark::End { how: How::LogLimit }) => 'l',
        _ => '?',
    }
}

/// The entries of a log, a letter each.
fn letters(alloc: Global, log: &Log) -> Result<String, OutOfMemory> {
    let mut letters = String::new(alloc);
    for entry in log.entries.slice() {
        letters.push(name(entry))?;
    }
    Ok(letters)
}

#[test]
fn a_line_waits_for_memory_and_a_copy_does_not(rt: HostRuntime) -> Result<(), Fail> {
    let alloc = rt.alloc();
    let console = Shy {
        handed: false,
        refusals: 1,
        place: 0,
    };
    let log = new_log(alloc, &[])?;
    let files = one_file(alloc)?;
    let (wanted, _, log) = turns(alloc, Small::Begins, log, Plain, console, files, 9);
    assert_eq!(rt; letters(alloc, &log)?.as_str(), "onpce");
    assert_eq!(rt; wanted, 1);
    Ok(())
}

/// A console that hands on two lines that ask for the status and one that would end the run. The answer to the second is said
/// to its half, and then it fails.
fn failing_console(alloc: Global) -> Result<MemConsole, OutOfMemory> {
    let mut lines = Vec::new(alloc);
    for line in ["status", "status", "halt"] {
        lines.push(Some(Bytes::from_slice(alloc, line.as_bytes())?))?;
    }
    let mut fail_say = Vec::new(alloc);
    fail_say.push(1)?;
    Ok(MemConsole::new(alloc, lines, Vec::new(alloc), fail_say))
}

/// Whether the line came.
fn is_line(line: &Line, text: &[u8]) -> bool {
    match line {
        Line::Line(bytes) => bytes.slice() == text,
        _ => false,
    }
}

#[test]
fn a_console_that_fails_is_asked_no_more(rt: HostRuntime) -> Result<(), Fail> {
    let alloc = rt.alloc();
    let console = failing_console(alloc)?;
    let log = new_log(alloc, &[])?;
    let files = one_file(alloc)?;
    let (wanted, mut console, log) = turns(alloc, Small::Begins, log, Plain, console, files, 9);
    // both orders are in the log, and the guest goes on to its end
    assert_eq!(rt; letters(alloc, &log)?.as_str(), "sspce");
    assert_eq!(rt; wanted, 0);
    let said: &[u8] =
        b"{\"last\":\"never\",\"ok\":\"status\",\"stage\":\"OldAlone\",\"update\":0}\n{\"last\":\"never\",\"ok\":\"status\",";
    assert!(rt; console.said() == said);
    assert!(rt; is_line(&console.next(alloc), b"halt"));
    Ok(())
}

/// Whether the entry is a poll.
fn is_poll(entry: Option<&Entry>) -> bool {
    match entry {
        Some(Entry::Call { item }) => match &item.call {
            Call::Poll { subs } => subs.slice().len() == 1_024,
            _ => false,
        },
        _ => false,
    }
}

/// A log has at most 268,173,312 bytes of payload, and one entry that passes them. A subscription weighs 32, so that 8,184 polls
/// come just to that limit.
#[test]
fn a_log_ends_at_its_limit(rt: HostRuntime) -> Result<(), Fail> {
    let alloc = rt.alloc();
    let console = MemConsole::new(alloc, Vec::new(alloc), Vec::new(alloc), Vec::new(alloc));
    let log = new_log(alloc, b"a".as_slice())?;
    let files = one_file(alloc)?;
    let (wanted, _, log) = turns(alloc, Small::Polls, log, Plain, console, files, 8_190);
    let entries = log.entries.slice();
    assert_eq!(rt; entries.len(), 8_186);
    assert!(rt; is_poll(entries.get(8_184)));
    assert!(rt; entries.get(8_185).map(name) == Some('l'));
    assert_eq!(rt; wanted, 0);
    Ok(())
}
