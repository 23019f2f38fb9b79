//! The first demonstration guest, served over objects in memory: by two threads, each of which is held until the other has come so
//! far, and where one of the objects fails.

use crate::fixtures::{Failing, NOTHING, console, files, kernel, module_of, texts};
use mv_calls::{Call, Item, OutOfMemory, Reply, Room};
use mv_commands::program;
use mv_history::{Entry, Mark};
use mv_kernmem::MemKernel;
use mv_load::{Demo, guest_text};
use mv_outside::{Failed, FreeGate, Gate, Kernel, MemFiles, VecSink};
use std::alloc::Global;
use std::process::Abort;
use std::sync::atomic::{AtomicU64, Ordering};
use std::test::Fail;
use std::time::{Clock, Duration};

/// How often it is looked whether a count is high enough.
const TRIES: u32 = 10_000;

/// How far each activity and the kernel have come, and how often all tries were used up.
#[derive(Drop)]
struct Counters {
    turns: AtomicU64,
    steps: AtomicU64,
    calls: AtomicU64,
    limits: AtomicU64,
}

impl Counters {
    fn new() -> Counters {
        Counters {
            turns: AtomicU64::new(0),
            steps: AtomicU64::new(0),
            calls: AtomicU64::new(0),
            limits: AtomicU64::new(0),
        }
    }
}

/// Waits until the count is so high, for at most so many tries with a pause of one millisecond.
fn hold<R: Clock>(rt: &R, count: &AtomicU64, least: u64, limits: &AtomicU64) {
    for _ in 0..TRIES {
        if count.load(Ordering::SeqCst) >= least {
            return;
        }
        rt.sleep(Duration::from_millis(1));
    }
    limits.fetch_add(1, Ordering::SeqCst);
}

/// Holds one turn until so many steps were begun, one step until so many turns were, and one until a call was.
#[derive(Drop)]
struct Scene<'a, R> {
    rt: &'a R,
    counters: &'a Counters,
    turn: (u64, u64),
    step: (u64, u64),
    step_of_call: u64,
}

impl<'a, R: Clock> Gate for Scene<'a, R> {
    fn lead(&self, n: u64) {
        let counters = self.counters;
        counters.turns.store(n.saturating_add(1), Ordering::SeqCst);
        if n == self.turn.0 {
            hold(self.rt, &counters.steps, self.turn.1, &counters.limits);
        }
    }

    fn follow(&self, n: u64) {
        let counters = self.counters;
        counters.steps.store(n.saturating_add(1), Ordering::SeqCst);
        if n == self.step.0 {
            hold(self.rt, &counters.turns, self.step.1, &counters.limits);
        }
        if n == self.step_of_call {
            hold(self.rt, &counters.calls, 1, &counters.limits);
        }
    }
}

/// Hands its calls on to another kernel. Its first call waits until so many steps were begun.
#[derive(Drop)]
struct Held<'a, R, K: Kernel> {
    rt: &'a R,
    counters: &'a Counters,
    steps: u64,
    inner: K,
}

impl<'a, R: Clock, K: Kernel> Kernel for Held<'a, R, K> {
    ghost done = { λ k. K.done k.inner };

    ghost faults = { λ k. K.faults k.inner };

    ghost ready_for = { λ k call. K.ready_for k.inner call };

    fn ready(&mut self, alloc: Global, call: &Call) -> Result<(), OutOfMemory> {
        self.inner.ready(alloc, call)
    }

    fn perform(&mut self, call: &Call, room: Room) -> Result<Reply, Failed> {
        let counters = self.counters;
        if counters.calls.fetch_add(1, Ordering::SeqCst) == 0 {
            hold(self.rt, &counters.steps, self.steps, &counters.limits);
        }
        self.inner.perform(call, room)
    }
}

/// The one file, `old`: the guest. The read of this number fails.
fn old_file(rt: &impl Abort, alloc: Global, read: Option<u64>) -> Result<MemFiles, Fail> {
    let old = module_of(alloc, guest_text(Demo::Old))?;
    files(rt, alloc, &[("old", old.as_slice())], read)
}

/// Whether this is the call of this number, from 0, that the guest makes over the one connection, with its reply.
fn is_call(number: usize, item: &Item) -> bool {
    match (number, &item.call, &item.reply) {
        (0, Call::Accept { fd: 3, flags: 0 }, Reply::Fd(4)) => true,
        (1, Call::Read { fd: 4, cap: 64 }, Reply::Bytes(bytes)) => {
            bytes.slice() == b"a".as_slice()
        }
        (2, Call::Write { fd: 4, bytes }, Reply::Count(3)) => {
            bytes.slice() == b"OK\n".as_slice()
        }
        (3, Call::Read { fd: 4, cap: 64 }, Reply::Bytes(bytes)) => bytes.slice().is_empty(),
        (4, Call::Close { fd: 4 }, Reply::Done) => true,
        (5, Call::Accept { fd: 3, flags: 0 }, Reply::Errno(6)) => true,
        _ => false,
    }
}

/// Whether these are its first calls, so many; six are all.
fn are_calls(done: &[Item], count: usize) -> bool {
    for (number, item) in done.iter().enumerate() {
        if !is_call(number, item) {
            return false;
        }
    }
    done.len() == count
}

/// How many followers were made, and how many of them were promoted.
fn followers(entries: &[Entry]) -> (u64, u64) {
    let mut made: u64 = 0;
    let mut promoted: u64 = 0;
    for entry in entries {
        match entry {
            Entry::Mark(Mark::Fork { .. }) => made = made.saturating_add(1),
            Entry::Mark(Mark::Promote) => promoted = promoted.saturating_add(1),
            _ => {}
        }
    }
    (made, promoted)
}

/// Each activity goes on while the other is held, so both run at once.
#[test]
fn each_activity_of_the_program_waits_for_the_other(rt: HostRuntime) -> Result<(), Fail> {
    let alloc = rt.alloc();
    let counters = Counters::new();
    // Turn 8 waits for step 3, and step 5 for turn 12.
    let gate = Scene {
        rt: &rt,
        counters: &counters,
        turn: (8, 4),
        step: (5, 13),
        step_of_call: u64::MAX,
    };
    let orders = [(0, "update old none none"), (2, "promote"), (4, "finish")];
    let said = texts(alloc, &["serve", "old"])?;
    let mut sink = VecSink::new(alloc, Vec::new(alloc));
    let came = program(
        &rt,
        alloc,
        said.as_slice(),
        kernel(alloc, &[b"a"], None)?,
        console(alloc, &orders, None, None)?,
        old_file(&rt, alloc, None)?,
        &gate,
        &mut sink,
    );
    assert_eq!(rt; came.status.code(), 0);
    assert_eq!(rt; counters.limits.load(Ordering::SeqCst), 0);
    assert!(rt; are_calls(came.kernel.done(), 6));
    assert!(rt; followers(came.log.entries.slice()) == (1, 1));
    Ok(())
}

/// The follower goes on while a call is done under the core's lock.
#[test]
fn the_follower_steps_while_the_program_does_a_call(rt: HostRuntime) -> Result<(), Fail> {
    let alloc = rt.alloc();
    let counters = Counters::new();
    // Turn 2 waits for step 0, which waits for a call; that waits for step 2.
    let gate = Scene {
        rt: &rt,
        counters: &counters,
        turn: (2, 1),
        step: (u64::MAX, 0),
        step_of_call: 0,
    };
    let inner = kernel(alloc, &[b"a"], None)?;
    let held = Held {
        rt: &rt,
        counters: &counters,
        steps: 3,
        inner,
    };
    let said = texts(alloc, &["serve", "old"])?;
    let mut sink = VecSink::new(alloc, Vec::new(alloc));
    let came = program(
        &rt,
        alloc,
        said.as_slice(),
        held,
        console(alloc, &[(0, "update old none none")], None, None)?,
        old_file(&rt, alloc, None)?,
        &gate,
        &mut sink,
    );
    assert_eq!(rt; came.status.code(), 0);
    assert_eq!(rt; counters.limits.load(Ordering::SeqCst), 0);
    assert!(rt; are_calls(came.kernel.inner.done(), 6));
    assert!(rt; followers(came.log.entries.slice()) == (1, 0));
    Ok(())
}

/// What the operator is told where nothing fails.
const TOLD: &[u8] =
    b"{\"ok\":\"update\",\"update\":1}\n{\"ok\":\"promote\"}\n{\"ok\":\"finish\"}\n";

/// What he is told of the update.
const UPDATED: &[u8] = b"{\"ok\":\"update\",\"update\":1}\n";

/// What he is told where a file of the update can't be read.
const UNREAD: &[u8] = b"{\"no\":\"failed\",\"path\":\"old\"}\n";

#[test]
fn failures_outside_show_where_the_program_serves(rt: HostRuntime) -> Result<(), Fail> {
    let alloc = rt.alloc();
    let call = Failing {
        call: Some(2),
        ..NOTHING
    };
    let look = Failing {
        look: Some(2),
        ..NOTHING
    };
    let reply = Failing {
        reply: Some(0),
        ..NOTHING
    };
    let read = Failing {
        read: Some(1),
        ..NOTHING
    };
    let all: &[(usize, &str)] = &[(0, "update old none none"), (2, "promote"), (4, "finish")];
    let one: &[(usize, &str)] = &[(0, "update old none none")];
    let rows: [(Failing, &[(usize, &str)], u8, usize, (u64, u64), &[u8]); 4] = [
        // The write isn't done, and the run ends.
        (call, all, 6, 2, (1, 1), TOLD),
        // The look that would have had `promote`: no order comes any more.
        (look, all, 0, 6, (1, 0), UPDATED),
        // The first reply, of which a part is told: no order comes any more.
        (reply, all, 0, 6, (1, 0), UPDATED),
        // The read of the update's module.
        (read, one, 0, 6, (0, 0), UNREAD),
    ];
    for (fails, orders, status, calls, made, told) in rows {
        let said = texts(alloc, &["serve", "old"])?;
        let mut sink = VecSink::new(alloc, Vec::new(alloc));
        let came = program(
            &rt,
            alloc,
            said.as_slice(),
            kernel(alloc, &[b"a"], fails.call)?,
            console(alloc, orders, fails.look, fails.reply)?,
            old_file(&rt, alloc, fails.read)?,
            &FreeGate::new(),
            &mut sink,
        );
        assert_eq!(rt; came.status.code(), status);
        assert!(rt; are_calls(came.kernel.done(), calls));
        assert!(rt; followers(came.log.entries.slice()) == made);
        let heard = came.console.said();
        assert!(rt;
            told.starts_with(heard) && (heard.len() == told.len() || fails.reply.is_some())
        );
    }
    Ok(())
}
