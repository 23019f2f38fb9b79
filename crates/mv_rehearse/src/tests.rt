//! Whole runs of a small guest, over the objects in memory.
ghost use Rattle.std.specs.Prelude.{◌≡◌, ◌==◌, ◌≤◌, ◌∷◌, [], IfOk, Ok, Err, cond, refl};
ghost use Rattle.std.proofs.Common.{lit<};
ghost use Rattle.mv_calls.specs.declared.calls.Call.TheVariants as call;
ghost use Rattle.mv_calls.specs.declared.trap.Trap.TheVariants as trap;
ghost use Rattle.mv_rehearse.specs.declared.tests.Talker.TheVariants as talker;
ghost use Rattle.mv_syntax.specs.declared.fault.BornFault.TheVariants as fault;
ghost use Rattle.mv_version.specs.declared.event.Event.TheVariants as event;

use super::*;
use mv_calls::{Bytes, Call, Or, OutOfMemory, Reply, Room, Texts, Trap};
use mv_history::{Cause, Entry, How, Log, Mark, Start, Why};
use mv_outside::{Failed, FileAt, Kernel, MemConsole, MemFiles, paths_differ};
use mv_syntax::BornFault;
use mv_version::{Event, Version};
use std::alloc::Global;
use std::test::*;

/// A guest that passes a point, reads, writes its letter and ends. Where its letter is `!` it traps once it has read, and where
/// it is `?` there is never memory for its first event.
#[derive(Drop)]
enum Talker {
    Begins(u8),
    Reads(u8),
    Writes(u8),
    Ends(u8),
    Fails,
}

impl Version for Talker {
    ghost behaviour = { record {
      state = λ s. s;
      go = λ s. elim s [ talker.Begins x ↦ event.Point | talker.Reads x ↦ event.Calls (call.Read 0 4) | talker.Writes x ↦ event.Calls (call.Write 1 (x ∷ [])) | talker.Ends x ↦ event.Ends 0 | talker.Fails ↦ event.Traps trap.Unreachable ];
      after = λ s r. elim s [ talker.Begins x ↦ talker.Reads x | talker.Reads x ↦ cond (x == 33) talker.Fails (talker.Writes x) | talker.Writes x ↦ talker.Ends x | talker.Ends x ↦ talker.Ends x | talker.Fails ↦ talker.Fails ];
      passed = λ s. elim s [ talker.Begins x ↦ talker.Reads x | talker.Reads x ↦ cond (x == 33) talker.Fails (talker.Writes x) | talker.Writes x ↦ talker.Ends x | talker.Ends x ↦ talker.Ends x | talker.Fails ↦ talker.Fails ];
      started = λ m a. elim m [ [] ↦ Ok (talker.Begins 97) | y ∷ rest ↦ Ok (talker.Begins y) ];
      born = λ s m. elim m [ [] ↦ Err fault.NoResume | y ∷ rest ↦ elim s [ talker.Begins x ↦ Ok (talker.Begins y) | talker.Reads x ↦ Ok (talker.Reads y) | talker.Writes x ↦ Ok (talker.Writes y) | talker.Ends x ↦ Ok (talker.Ends y) | talker.Fails ↦ Ok talker.Fails ] ];
      left = λ s. elim s [ talker.Begins x ↦ 1 | talker.Reads x ↦ 0 | talker.Writes x ↦ 0 | talker.Ends x ↦ 0 | talker.Fails ↦ 0 ];
    } };

    ghost prepared = { λ s. Unit {0} };

    fn start(_alloc: Global, module: &[u8], _args: &Texts) -> Result<Self, Or<BornFault>> {
        match module {
            [] => Ok(Talker::Begins(b'a')),
            [letter, ..] => Ok(Talker::Begins(*letter)),
        }
    }

    fn born(_alloc: Global, old: Self, module: &[u8]) -> Result<Self, Or<BornFault>> {
        match module {
            [] => Err(Or::Fault(BornFault::NoResume)),
            [letter, ..] => Ok(match old {
                Talker::Begins(_) => Talker::Begins(*letter),
                Talker::Reads(_) => Talker::Reads(*letter),
                Talker::Writes(_) => Talker::Writes(*letter),
                Talker::Ends(_) => Talker::Ends(*letter),
                Talker::Fails => Talker::Fails,
            }),
        }
    }

    fn go(&mut self, alloc: Global) -> Result<Event, OutOfMemory> {
        match self {
            Talker::Begins(b'?') => Err(OutOfMemory),
            Talker::Begins(_) => Ok(Event::Point),
            Talker::Reads(_) => Ok(Event::Calls(Call::Read { fd: 0, cap: 4 })),
            Talker::Writes(letter) => Ok(Event::Calls(Call::Write {
                fd: 1,
                bytes: Bytes::from_slice(alloc, &[*letter])?,
            })),
            Talker::Ends(_) => Ok(Event::Ends(0)),
            Talker::Fails => Ok(Event::Traps(Trap::Unreachable)),
        }
    }

    fn prepare(&mut self, _alloc: Global) -> Result<(), OutOfMemory> {
        Ok(())
    }

    fn answer(&mut self, _reply: &Reply) {
        self.pass();
    }

    fn pass_point(&mut self) {
        self.pass();
    }

    fn copy(&self, _alloc: Global) -> Result<Self, OutOfMemory> {
        match self {
            Talker::Begins(x) => Ok(Talker::Begins(*x)),
            Talker::Reads(x) => Ok(Talker::Reads(*x)),
            Talker::Writes(x) => Ok(Talker::Writes(*x)),
            Talker::Ends(x) => Ok(Talker::Ends(*x)),
            Talker::Fails => Ok(Talker::Fails),
        }
    }

    ghost points_end = { elim [ talker.Begins x ↦ (λ here again. lit< tt) | talker.Reads x ↦ (λ here again. absurd (let bad : event.Calls (call.Read 0 4) ≡ event.Point = here in cc)) | talker.Writes x ↦ (λ here again. absurd (let bad : event.Calls (call.Write 1 (x ∷ [])) ≡ event.Point = here in cc)) | talker.Ends x ↦ (λ here again. absurd (let bad : event.Ends 0 ≡ event.Point = here in cc)) | talker.Fails ↦ (λ here again. absurd (let bad : event.Traps trap.Unreachable ≡ event.Point = here in cc)) ] };

    ghost settled = { record { state_once = λ s. refl; after_is = λ s r. refl; passed_is = λ s. refl; started_is = λ m a s h. refl; born_is = λ s m. refl; newborn_is = λ s m v h. refl } };
}

/// What comes of a guest with this letter that has read.
fn has_read(letter: u8) -> Talker
    ensures { result ≡ cond (letter == 33) talker.Fails (talker.Writes letter) }
{
    if letter == b'!' {
        Talker::Fails
    } else {
        Talker::Writes(letter)
    }
}

impl Talker {
    /// Goes one on.
    fn pass(&mut self)
        ensures { self.new ≡ elim self.old [ talker.Begins x ↦ talker.Reads x | talker.Reads x ↦ cond (x == 33) talker.Fails (talker.Writes x) | talker.Writes x ↦ talker.Ends x | talker.Ends x ↦ talker.Ends x | talker.Fails ↦ talker.Fails ] }
    {
        *self = match self {
            Talker::Begins(x) => Talker::Reads(*x),
            Talker::Reads(x) => has_read(*x),
            Talker::Writes(x) => Talker::Ends(*x),
            Talker::Ends(x) => Talker::Ends(*x),
            Talker::Fails => Talker::Fails,
        };
    }
}

/// A kernel that tells nothing, and answers by error 6; its call number `fail` fails.
#[derive(Drop)]
struct Plain {
    calls: u64,
    fail: u64,
    faults: u64,
}

impl Kernel for Plain {
    ghost use Rattle.std.specs.Prelude.{None};

    ghost done = { λ _. None };

    ghost faults = { λ k. k.faults };

    ghost ready_for = { λ _ call. Unit {0} };

    fn ready(&mut self, _alloc: Global, _call: &Call) -> Result<(), OutOfMemory> {
        Ok(())
    }

    fn perform(&mut self, _call: &Call, _room: Room) -> Result<Reply, Failed> {
        let number = self.calls;
        self.calls = self.calls.saturating_add(1);
        if number == self.fail {
            self.faults = self.faults.saturating_add(1);
            return Err(Failed);
        }
        Ok(Reply::Errno(6))
    }
}

const FORWARD: &[u8] =
    b"mvrules 1\nrule\nwrite $f \"a\" -> errno 6\nto\nwrite $f \"b\" -> errno 6\nend\n";

const REVERSE: &[u8] =
    b"mvrules 1\nrule\nwrite $f \"b\" -> errno 6\nto\nwrite $f \"a\" -> errno 6\nend\n";

const READS: &[u8] = b"mvrules 1\nrule\nread $f -> @x\nto\nend\n";

/// A file.
fn file(alloc: Global, path: &[u8], bytes: &[u8]) -> Result<FileAt, OutOfMemory> {
    Ok(FileAt {
        path: Bytes::from_slice(alloc, path)?,
        bytes: Bytes::from_slice(alloc, bytes)?,
    })
}

/// The files that the orders name; the read number `fail_read` fails.
fn files(alloc: Global, fail_read: u64) -> Result<MemFiles, OutOfMemory> {
    let mut list = Vec::new(alloc);
    list.push(file(alloc, b"a", b"a")?)?;
    list.push(file(alloc, b"b", b"b")?)?;
    list.push(file(alloc, b"bang", b"!")?)?;
    list.push(file(alloc, b"empty", b"")?)?;
    list.push(file(alloc, b"fwd", FORWARD)?)?;
    list.push(file(alloc, b"rev", REVERSE)?)?;
    list.push(file(alloc, b"drops", READS)?)?;
    let mut failing = Vec::new(alloc);
    failing.push(fail_read)?;
    if !paths_differ(&list) {
        return Err(OutOfMemory);
    }
    Ok(MemFiles::new(list, failing, Vec::new(alloc)))
}

/// A console that hands on the lines between bars, one a look; an empty one stands for a look at which nothing has come.
fn console(alloc: Global, lines: &[u8]) -> Result<MemConsole, OutOfMemory> {
    let mut list = Vec::new(alloc);
    for line in lines.split(|b| *b == b'|') {
        if line.is_empty() {
            list.push(None)?;
        } else {
            list.push(Some(Bytes::from_slice(alloc, line)?))?;
        }
    }
    Ok(MemConsole::new(alloc, list, Vec::new(alloc), Vec::new(alloc)))
}

/// What an end is called.
fn end_name(how: How) -> &'static str {
    match how {
        How::Ended(_) => "Ended",
        How::Trapped(_) => "Trapped",
        How::Halted => "Halted",
        How::Cut => "Cut",
        How::KernelFault => "KernelFault",
        How::LogLimit => "LogLimit",
        How::Memory => "Memory",
    }
}

/// What a cause is called.
fn cause_name(cause: &Cause) -> &'static str {
    match cause {
        Cause::Trap { .. } => "Gave:Trap",
        Cause::Mismatch { .. } => "Gave:Mismatch",
        Cause::Refused(_) => "Gave:Refused",
        Cause::Rules { .. } => "Gave:Rules",
        Cause::Order { .. } => "Gave:Order",
        Cause::Memory => "Gave:Memory",
    }
}

/// What a mark is called.
fn mark_name(mark: &Mark) -> &'static str {
    match mark {
        Mark::Fork { .. } => "Fork",
        Mark::NoCopy { .. } => "NoCopy",
        Mark::Hand { why } => match why {
            Why::Promote => "Hand",
            Why::Back => "HandBack",
            Why::Trap(_) => "HandTrap",
        },
        Mark::Promote => "Promote",
        Mark::Over => "Over",
        Mark::Back => "Back",
        Mark::Finish => "Finish",
        Mark::Discard { cause } => cause_name(cause),
        Mark::Dropped {
            cause: Cause::Mismatch { .. },
        } => "Lost:Mismatch",
        Mark::Dropped { cause } => cause_name(cause),
        Mark::End { how } => end_name(*how),
    }
}

/// What an entry is called.
fn name(entry: &Entry) -> &'static str {
    match entry {
        Entry::Call { .. } => "Call",
        Entry::Point => "Point",
        Entry::Order { .. } => "Order",
        Entry::Mark(mark) => mark_name(mark),
    }
}

/// The beats of some letters.
fn beats(alloc: Global, letters: &[u8]) -> Result<Vec<Beat>, OutOfMemory> {
    let mut list = Vec::new(alloc);
    for letter in letters {
        list.push(match *letter {
            b'L' => Beat::Lead,
            b'C' => Beat::Carry,
            b'F' => Beat::Follow,
            _ => Beat::Judge,
        })?;
    }
    Ok(list)
}

/// The log of a run of the letter's guest that begins.
fn new_log(alloc: Global, letter: u8) -> Result<Log, OutOfMemory>
    ensures module { IfOk result (λ log. log.start.«module» ≡ letter ∷ []) }
    ensures new { IfOk result (λ log. (log.entries.list ≡ []) × (log.updates.list ≡ []) × (3 ≤ log.entries.room)) }
{
    let start = Start {
        module: Bytes::from_slice(alloc, &[letter])?,
        args: Texts::from_vec(Vec::new(alloc)),
    };
    Log::make(alloc, start)
}

/// A rehearsal of the letter's guest over a feed of four places. The kernel's call number `fail_call` fails, and the read
/// number `fail_read` of a file.
fn rehearsed(
    alloc: Global,
    letter: u8,
    lines: &[u8],
    letters: &[u8],
    fail_call: u64,
    fail_read: u64,
) -> Result<Outcome<Plain, MemConsole, MemFiles>, OutOfMemory> {
    let log = new_log(alloc, letter)?;
    let kernel = Plain {
        calls: 0,
        fail: fail_call,
        faults: 0,
    };
    let console = console(alloc, lines)?;
    let files = files(alloc, fail_read)?;
    let schedule = beats(alloc, letters)?;
    Ok(rehearse(
        alloc,
        Talker::Begins(letter),
        log,
        kernel,
        console,
        files,
        4,
        schedule.as_slice(),
    ))
}

/// The entries of a log, a word each.
fn words(alloc: Global, log: &Log) -> Result<String, OutOfMemory> {
    let mut words = String::new(alloc);
    for entry in log.entries.slice() {
        words.push_str(name(entry))?;
        words.push_str(" ")?;
    }
    Ok(words)
}

/// Whether the rehearsal has these entries and this status.
fn comes_to(
    alloc: Global,
    letter: u8,
    lines: &[u8],
    letters: &[u8],
    fail_call: u64,
    want: &str,
    status: u8,
) -> Result<bool, OutOfMemory> {
    let outcome = rehearsed(alloc, letter, lines, letters, fail_call, 99)?;
    Ok(words(alloc, &outcome.log)?.as_str() == want && outcome.status.code() == status)
}

/// Whether the operator is told this, where the read of a file with this number fails.
fn is_told(
    alloc: Global,
    lines: &[u8],
    letters: &[u8],
    fail_read: u64,
    want: &[u8],
) -> Result<bool, OutOfMemory> {
    let outcome = rehearsed(alloc, b'a', lines, letters, 99, fail_read)?;
    Ok(outcome.console.said() == want)
}

/// A turn, all that may come of it, and a judgement; often enough for each row.
const BLOCKS: &[u8] = b"LCFFFJLCFFFJLCFFFJLCFFFJLCFFFJLCFFFJLCFFFJLCFFFJLCFFFJLCFFFJLCFFFJLCFFFJ";

#[test]
fn updates_end_as_they_are_to(rt: HostRuntime) -> Result<(), Fail> {
    let alloc = rt.alloc();
    let rows: [(u8, &str, &str, u8); 13] = [
        // no update
        (b'a', "", "Point Call Call Ended ", 0),
        (b'!', "", "Point Call Trapped ", 5),
        (b'?', "", "Memory ", 9),
        // promoted and finished; rolled back
        (
            b'a',
            "update a none none||promote||finish",
            "Order Fork Order Hand Promote Order Finish Point Call Call Ended ",
            0,
        ),
        (
            b'a',
            "update a none none||promote||back",
            "Order Fork Order Hand Promote Order HandBack Back Point Call Call Ended ",
            0,
        ),
        // a difference that no rule expects, and one that a rule does
        (
            b'a',
            "update b none none",
            "Order Fork Point Call Call Gave:Mismatch Ended ",
            0,
        ),
        (
            b'a',
            "update b fwd rev",
            "Order Fork Point Call Call Ended ",
            0,
        ),
        // the same where the new version leads, and the old one follows without reverse rules
        (
            b'a',
            "update b fwd none||promote",
            "Order Fork Order Hand Promote Point Call Call Lost:Mismatch Ended ",
            0,
        ),
        // refused: its birth, and its rules
        (
            b'a',
            "update empty none none",
            "Order Fork Gave:Refused Point Call Call Ended ",
            0,
        ),
        (
            b'a',
            "update b fwd drops",
            "Order Fork Gave:Rules Point Call Call Ended ",
            0,
        ),
        // a trap of the follower, of the old leader, and of the new one
        (
            b'a',
            "update bang none none",
            "Order Fork Point Call Call Gave:Trap Ended ",
            0,
        ),
        (
            b'!',
            "update b none none",
            "Order Fork Point Call HandTrap Over Call Ended ",
            0,
        ),
        (
            b'a',
            "update bang none none||promote",
            "Order Fork Order Hand Promote Point Call HandTrap Back Call Ended ",
            0,
        ),
    ];
    for (letter, lines, want, status) in rows {
        assert!(rt;
            comes_to(alloc, letter, lines.as_bytes(), BLOCKS, 99, want, status)?,
            "{want}"
        );
    }
    Ok(())
}

#[test]
fn the_schedule_decides(rt: HostRuntime) -> Result<(), Fail> {
    let alloc = rt.alloc();
    let rows: [(&str, &str, u64, &str, u8); 7] = [
        ("", "", 99, "Cut ", 0),
        ("LL", "", 99, "Point Call Cut ", 0),
        ("LLL", "halt", 99, "Order Halted ", 0),
        // the kernel's call number 1 fails
        ("LLLL", "", 1, "Point Call KernelFault ", 6),
        // a hand-over that is asked holds the leader until the follower is there
        (
            "LLLLLLL",
            "update a none none||promote",
            99,
            "Order Fork Order Hand Cut ",
            0,
        ),
        // a mismatch that is found before a discard and judged behind it comes too late
        (
            "LLLLLCFFFFCFFFCFFLLJL",
            "update b none none|||||discard",
            99,
            "Order Fork Point Call Call Order Gave:Order Ended ",
            0,
        ),
        // four copies wait in the feed, and the fifth has no place
        (
            "LLLLLLLLLLLLLLLLLLL",
            "update a none none||discard|update a none none||discard|update a none none||discard|update a none none||discard|update a none none|||",
            99,
            "Order Fork Order Gave:Order Order Fork Order Gave:Order Order Fork Order Gave:Order Order Fork Order Gave:Order Order Cut ",
            0,
        ),
    ];
    for (letters, lines, fail, want, status) in rows {
        assert!(rt;
            comes_to(
                alloc,
                b'a',
                lines.as_bytes(),
                letters.as_bytes(),
                fail,
                want,
                status
            )?,
            "{want}"
        );
    }
    Ok(())
}

#[test]
fn orders_are_answered_in_their_order(rt: HostRuntime) -> Result<(), Fail> {
    let alloc = rt.alloc();
    let mut lines = Vec::new(alloc);
    for _ in 0..4_097 {
        lines.push(b'x')?;
    }
    lines.extend_from_slice(
        b"|\xff|jump|promote|status|update nofile none none|update a nofile none|update a fwd nofile|update a none none|update a none none|halt|status",
    )?;
    let said =
        b"{\"no\":\"long\"}\n{\"no\":\"utf8\"}\n{\"no\":\"unknown\",\"text\":\"jump\"}\n{\"no\":\"stage\",\"now\":\"OldAlone\"}\n{\"last\":\"never\",\"ok\":\"status\",\"stage\":\"OldAlone\",\"update\":0}\n{\"no\":\"missing\",\"path\":\"nofile\"}\n{\"no\":\"missing\",\"path\":\"nofile\"}\n{\"no\":\"missing\",\"path\":\"nofile\"}\n{\"ok\":\"update\",\"update\":1}\n{\"no\":\"busy\",\"update\":1}\n{\"ok\":\"halt\"}\n";
    assert!(rt; is_told(alloc, &lines, b"LLLLLLLLLLLLLL", 99, said)?);
    let update = b"update a fwd rev";
    assert!(rt;
        is_told(
            alloc,
            update,
            b"L",
            0,
            b"{\"no\":\"failed\",\"path\":\"a\"}\n"
        )?
    );
    assert!(rt;
        is_told(
            alloc,
            update,
            b"L",
            1,
            b"{\"no\":\"failed\",\"path\":\"fwd\"}\n"
        )?
    );
    assert!(rt;
        is_told(
            alloc,
            update,
            b"L",
            2,
            b"{\"no\":\"failed\",\"path\":\"rev\"}\n"
        )?
    );
    Ok(())
}

#[test]
fn the_update_behind_the_sixty_fourth_is_one_too_many(rt: HostRuntime) -> Result<(), Fail> {
    let alloc = rt.alloc();
    let mut lines = Vec::new(alloc);
    let mut letters = Vec::new(alloc);
    for _ in 0..64 {
        lines.extend_from_slice(b"update a none none||discard|")?;
        letters.extend_from_slice(b"LLCFFFFLL")?;
    }
    lines.extend_from_slice(b"update a none none")?;
    letters.push(b'L')?;
    let outcome = rehearsed(alloc, b'a', &lines, &letters, 99, 99)?;
    assert!(rt; outcome.console.said().ends_with(b"{\"no\":\"many\"}\n"));
    assert_eq!(rt; outcome.log.updates.slice().len(), 64);
    Ok(())
}

#[test]
fn a_run_alone_asks_nobody(rt: HostRuntime) -> Result<(), Fail> {
    let alloc = rt.alloc();
    let log = new_log(alloc, b'a')?;
    let kernel = Plain {
        calls: 0,
        fail: 99,
        faults: 0,
    };
    let console = console(alloc, b"halt")?;
    let files = files(alloc, 99)?;
    let outcome = alone(alloc, Talker::Begins(b'a'), log, kernel, console, files);
    assert_eq!(rt;
        words(alloc, &outcome.log)?.as_str(),
        "Point Call Call Ended "
    );
    assert_eq!(rt; outcome.kernel.calls, 2);
    assert!(rt; outcome.console.said().is_empty());
    Ok(())
}
