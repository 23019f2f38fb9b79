//! Whole runs on real threads.
ghost use Rattle.std.specs.Prelude.{◌≡◌, ◌==◌, ◌-◌, ◌≤◌, ◌∷◌, [], IfOk, Ok, Some, cond, refl};
ghost use Rattle.std.proofs.Common.{lit<};
ghost use Rattle.mv_calls.specs.declared.calls.Call.TheVariants as call;
ghost use Rattle.mv_host.specs.declared.tests.Ticker.TheVariants as ticker;
ghost use Rattle.mv_version.specs.declared.event.Event.TheVariants as event;

use super::*;
use mv_calls::{Bytes, Call, Or, OutOfMemory, Reply, Room, Texts};
use mv_history::{Entry, Log, Mark, Start};
use mv_outside::{Failed, FileAt, FreeGate, Gate, Kernel, MemConsole, MemFiles, paths_differ};
use mv_rehearse::ExitStatus;
use mv_syntax::BornFault;
use mv_version::{Event, Version};
use std::alloc::Global;
use std::sync::atomic::{AtomicU64, Ordering};
use std::test::*;
use std::time::{Clock, Duration};

/// A guest that passes a point and writes a letter, twenty times over, and then ends.
#[derive(Drop)]
enum Ticker {
    Points(u8),
    Writes(u8),
    Ends,
}

impl Version for Ticker {
    ghost behaviour = { record {
      state = λ s. s;
      go = λ s. elim s [ ticker.Points n ↦ event.Point | ticker.Writes n ↦ event.Calls (call.Write 1 (97 ∷ [])) | ticker.Ends ↦ event.Ends 0 ];
      after = λ s r. elim s [ ticker.Points n ↦ ticker.Writes n | ticker.Writes n ↦ cond (n == 1) ticker.Ends (ticker.Points (n - 1)) | ticker.Ends ↦ ticker.Ends ];
      passed = λ s. elim s [ ticker.Points n ↦ ticker.Writes n | ticker.Writes n ↦ cond (n == 1) ticker.Ends (ticker.Points (n - 1)) | ticker.Ends ↦ ticker.Ends ];
      started = λ m a. Ok (ticker.Points 20);
      born = λ s m. Ok s;
      left = λ s. elim s [ ticker.Points n ↦ 1 | ticker.Writes n ↦ 0 | ticker.Ends ↦ 0 ];
    } };

    ghost prepared = { λ s. Unit {0} };

    fn start(_alloc: Global, _module: &[u8], _args: &Texts) -> Result<Self, Or<BornFault>> {
        Ok(Ticker::Points(20))
    }

    fn born(_alloc: Global, old: Self, _module: &[u8]) -> Result<Self, Or<BornFault>> {
        Ok(old)
    }

    fn go(&mut self, alloc: Global) -> Result<Event, OutOfMemory> {
        match self {
            Ticker::Points(_) => Ok(Event::Point),
            Ticker::Writes(_) => Ok(Event::Calls(Call::Write {
                fd: 1,
                bytes: Bytes::from_slice(alloc, &[b'a'])?,
            })),
            Ticker::Ends => Ok(Event::Ends(0)),
        }
    }

    fn prepare(&mut self, _alloc: Global) -> Result<(), OutOfMemory> {
        Ok(())
    }

    fn answer(&mut self, _reply: &Reply) {
        self.pass();
    }

    fn pass_point(&mut self) {
        self.pass();
    }

    fn copy(&self, _alloc: Global) -> Result<Self, OutOfMemory> {
        match self {
            Ticker::Points(n) => Ok(Ticker::Points(*n)),
            Ticker::Writes(n) => Ok(Ticker::Writes(*n)),
            Ticker::Ends => Ok(Ticker::Ends),
        }
    }

    ghost points_end = { elim [ ticker.Points n ↦ (λ here again. lit< tt) | ticker.Writes n ↦ (λ here again. absurd (let bad : event.Calls (call.Write 1 (97 ∷ [])) ≡ event.Point = here in cc)) | ticker.Ends ↦ (λ here again. absurd (let bad : event.Ends 0 ≡ event.Point = here in cc)) ] };

    ghost settled = { record { state_once = λ s. refl; after_is = λ s r. refl; passed_is = λ s. refl; started_is = λ m a s h. refl; born_is = λ s m. refl; newborn_is = λ s m v h. refl } };
}

/// What comes of a guest that has this many letters to write, once one is written.
fn has_written(n: u8) -> Ticker
    ensures { result ≡ cond (n == 1) ticker.Ends (ticker.Points (n - 1)) }
{
    if n == 1 {
        Ticker::Ends
    } else {
        Ticker::Points(n.saturating_sub(1))
    }
}

impl Ticker {
    /// Goes one on.
    fn pass(&mut self)
        ensures { self.new ≡ elim self.old [ ticker.Points n ↦ ticker.Writes n | ticker.Writes n ↦ cond (n == 1) ticker.Ends (ticker.Points (n - 1)) | ticker.Ends ↦ ticker.Ends ] }
    {
        *self = match self {
            Ticker::Points(n) => Ticker::Writes(*n),
            Ticker::Writes(n) => has_written(*n),
            Ticker::Ends => Ticker::Ends,
        };
    }
}

/// How far each activity and the kernel have come, and how often a limit of tries was reached.
#[derive(Drop)]
struct Counters {
    turns: AtomicU64,
    steps: AtomicU64,
    calls: AtomicU64,
    limits: AtomicU64,
}

impl Counters {
    fn new() -> Counters {
        Counters {
            turns: AtomicU64::new(0),
            steps: AtomicU64::new(0),
            calls: AtomicU64::new(0),
            limits: AtomicU64::new(0),
        }
    }

    /// Whether no limit was reached, and the kernel did so many calls.
    fn come_to(&self, calls: u64) -> bool {
        self.limits.load(Ordering::SeqCst) == 0 && self.calls.load(Ordering::SeqCst) == calls
    }
}

/// Waits until the count is so high, for at most 10,000 tries with a pause of one millisecond.
fn hold<R: Clock>(rt: &R, count: &AtomicU64, least: u64, limits: &AtomicU64) {
    for _ in 0..10_000 {
        if count.load(Ordering::SeqCst) >= least {
            return;
        }
        rt.sleep(Duration::from_millis(1));
    }
    limits.fetch_add(1, Ordering::SeqCst);
}

/// Holds one turn until so many steps were called, one step until so many turns were, and one until the kernel was.
#[derive(Drop)]
struct Scene<'a, R> {
    rt: &'a R,
    counters: &'a Counters,
    turn: (u64, u64),
    step: (u64, u64),
    step_of_call: u64,
}

impl<'a, R: Clock> Gate for Scene<'a, R> {
    fn lead(&self, n: u64) {
        let counters = self.counters;
        counters.turns.store(n.saturating_add(1), Ordering::SeqCst);
        if n == self.turn.0 {
            hold(self.rt, &counters.steps, self.turn.1, &counters.limits);
        }
    }

    fn follow(&self, n: u64) {
        let counters = self.counters;
        counters.steps.store(n.saturating_add(1), Ordering::SeqCst);
        if n == self.step.0 {
            hold(self.rt, &counters.turns, self.step.1, &counters.limits);
        }
        if n == self.step_of_call {
            hold(self.rt, &counters.calls, 1, &counters.limits);
        }
    }
}

/// A kernel that tells nothing, and answers by error 6. Its first call waits until so many steps were called.
#[derive(Drop)]
struct Held<'a, R> {
    rt: &'a R,
    counters: &'a Counters,
    steps: u64,
}

impl<'a, R: Clock> Kernel for Held<'a, R> {
    ghost use Rattle.std.specs.Prelude.{None};

    ghost done = { λ _. None };

    ghost faults = { λ _. 0 };

    ghost ready_for = { λ _ call. Unit {0} };

    fn ready(&mut self, _alloc: Global, _call: &Call) -> Result<(), OutOfMemory> {
        Ok(())
    }

    fn perform(&mut self, _call: &Call, _room: Room) -> Result<Reply, Failed> {
        let counters = self.counters;
        let done = counters.calls.fetch_add(1, Ordering::SeqCst);
        if done == 0 {
            hold(self.rt, &counters.steps, self.steps, &counters.limits);
        }
        Ok(Reply::Errno(6))
    }
}

/// A console that hands on the lines between bars, one a look; an empty one stands for a look at which nothing has come.
fn console(alloc: Global, lines: &[u8]) -> Result<MemConsole, OutOfMemory> {
    let mut list = Vec::new(alloc);
    for line in lines.split(|b| *b == b'|') {
        if line.is_empty() {
            list.push(None)?;
        } else {
            list.push(Some(Bytes::from_slice(alloc, line)?))?;
        }
    }
    Ok(MemConsole::new(alloc, list, Vec::new(alloc), Vec::new(alloc)))
}

/// The one file, `a`.
fn files(alloc: Global) -> Result<MemFiles, OutOfMemory> {
    let mut list = Vec::new(alloc);
    list.push(FileAt {
        path: Bytes::from_slice(alloc, b"a")?,
        bytes: Bytes::from_slice(alloc, b"a")?,
    })?;
    if !paths_differ(&list) {
        return Err(OutOfMemory);
    }
    Ok(MemFiles::new(list, Vec::new(alloc), Vec::new(alloc)))
}

/// The log of a run that begins.
fn new_log(alloc: Global) -> Result<Log, OutOfMemory>
    ensures new { IfOk result (λ log. (log.entries.list ≡ []) × (log.updates.list ≡ []) × (3 ≤ log.entries.room)) }
{
    let start = Start {
        module: Bytes::from_slice(alloc, b"a")?,
        args: Texts::from_vec(Vec::new(alloc)),
    };
    Log::make(alloc, start)
}

/// How many followers were made, and how many of them were promoted.
fn followers(log: &Log) -> (u64, u64) {
    let mut made: u64 = 0;
    let mut promoted: u64 = 0;
    for entry in log.entries.slice() {
        match entry {
            Entry::Mark(Mark::Fork { .. }) => made = made.saturating_add(1),
            Entry::Mark(Mark::Promote) => promoted = promoted.saturating_add(1),
            _ => {}
        }
    }
    (made, promoted)
}

#[test]
fn a_version_is_promoted_on_two_threads(rt: HostRuntime) -> Result<(), Fail> {
    let alloc = rt.alloc();
    for _ in 0..200 {
        let counters = Counters::new();
        let kernel = Held {
            rt: &rt,
            counters: &counters,
            steps: 0,
        };
        let outcome = serve(
            &rt,
            alloc,
            Ticker::Points(20),
            new_log(alloc)?,
            kernel,
            console(alloc, b"update a none none|||||promote")?,
            files(alloc)?,
            4,
            &FreeGate::new(),
        );
        assert_eq!(rt; outcome.status, ExitStatus::Success);
        assert!(rt; counters.come_to(20));
        assert!(rt; followers(&outcome.log) == (1, 1));
    }
    Ok(())
}

/// Each activity goes on while the other is held, so both run at once.
#[test]
fn each_activity_waits_for_the_other(rt: HostRuntime) -> Result<(), Fail> {
    let alloc = rt.alloc();
    let counters = Counters::new();
    let kernel = Held {
        rt: &rt,
        counters: &counters,
        steps: 0,
    };
    // turn 8 waits for step 3, and step 5 for turn 12
    let gate = Scene {
        rt: &rt,
        counters: &counters,
        turn: (8, 4),
        step: (5, 13),
        step_of_call: u64::MAX,
    };
    let outcome = serve(
        &rt,
        alloc,
        Ticker::Points(20),
        new_log(alloc)?,
        kernel,
        console(alloc, b"update a none none|||||promote")?,
        files(alloc)?,
        256,
        &gate,
    );
    assert_eq!(rt; outcome.status, ExitStatus::Success);
    assert!(rt; counters.come_to(20));
    Ok(())
}

/// The follower goes on while a call is done under the core's lock.
#[test]
fn the_follower_steps_while_a_call_is_done(rt: HostRuntime) -> Result<(), Fail> {
    let alloc = rt.alloc();
    let counters = Counters::new();
    // turn 2 waits for step 0, which waits for a call; that waits for step 2
    let kernel = Held {
        rt: &rt,
        counters: &counters,
        steps: 3,
    };
    let gate = Scene {
        rt: &rt,
        counters: &counters,
        turn: (2, 1),
        step: (u64::MAX, 0),
        step_of_call: 0,
    };
    let outcome = serve(
        &rt,
        alloc,
        Ticker::Points(20),
        new_log(alloc)?,
        kernel,
        console(alloc, b"update a none none")?,
        files(alloc)?,
        256,
        &gate,
    );
    assert_eq!(rt; outcome.status, ExitStatus::Success);
    assert!(rt; counters.come_to(20));
    Ok(())
}
