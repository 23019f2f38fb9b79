//! A run on two threads.
ghost use Rattle.std.specs.Prelude.{◌≡◌, ◌≤◌, ◌<◌, [], None, true, false};
ghost use Rattle.mv_core.specs.Found.{AreFilesKept};
ghost use Rattle.mv_core.specs.Sound.{BeginsWith, IsNewRun};
ghost use Rattle.mv_core.specs.Whole.{seen};
ghost use Rattle.mv_follower.specs.Follows.{IsAt, has_verdict};
ghost use Rattle.mv_history.specs.Ends.{EndsBy};
ghost use Rattle.mv_history.specs.Spots.{no_spot};
ghost use Rattle.mv_history.specs.Statuses.{first_status};
ghost use Rattle.mv_history.specs.declared.log.How.TheVariants as how;
ghost use Rattle.mv_host.specs.Served.{IsServed};
ghost use Rattle.mv_rehearse.specs.Runs.{DidCalls, HasEnded, IsLegalRun, OrdersAnswered, began_with};
ghost use Rattle.mv_ring.specs.Halves.{put_list, ring_of_in, ring_of_out, taken_list};

use crate::activities::{follow, lead};
use crate::ending::end_run;
use crate::leading::Leading;
use crate::names::{Names, Over, Pass};
use crate::trailing::Trailing;
use mv_core::Core;
use mv_follower::Follower;
use mv_history::{How, Log};
use mv_outside::{Console, Files, Gate, Kernel, Run};
use mv_rehearse::Outcome;
use mv_ring::{RingIn, RingOut, ring};
use mv_version::Version;
use std::alloc::Global;
use std::marker::Brand;
use std::sync::ledger::Blank;
use std::sync::{Mutex, Wait};
use std::thread::{Threads, join};

/// Runs a guest on two threads and asks the operator for orders, until its log has ended. The guest is what the log's start
/// gives, and the log has no entry. `capacity` is that of the ring, 4 to 4,096.
///
/// The leading activity makes the turns of the leader, under the core's lock. The following activity takes messages, makes steps
/// and delivers verdicts, under the follower's lock; it asks for the core's lock to deliver a verdict, and to see whether the
/// log goes on where there is no message. Where the leader can't go on, because the ring is full or a hand-over is asked, the
/// leading activity gives the core's lock back and helps the follower by one thing. The gate is called outside the locks, before
/// each turn and before each step of the following activity; not before a help.
///
/// Where there is no memory for the ring or the follower, the log's one entry says so. Where no second thread can be made,
/// the leading activity does all of it.
pub fn serve<
    R: Threads + Wait + Sync,
    V: Version + Send,
    K: Kernel + Send,
    C: Console + Send,
    F: Files + Send,
    G: Gate + Sync,
>(
    rt: &R,
    alloc: Global,
    guest: V,
    log: Log,
    kernel: K,
    console: C,
    files: F,
    capacity: usize,
    gate: &G,
) -> Outcome<K, C, F>
    requires new_run { IsNewRun V.behaviour guest log }
    requires capacity { (4 ≤ capacity) × (capacity ≤ 4096) }
    ensures legal { IsLegalRun V.behaviour (began_with K.done K.faults C.coming C.said C.faults F.content F.faults log kernel console files) result.log }
    ensures done { DidCalls (began_with K.done K.faults C.coming C.said C.faults F.content F.faults log kernel console files) result.log.entries.list (K.done result.kernel) (K.faults result.kernel) }
    ensures orders { OrdersAnswered (began_with K.done K.faults C.coming C.said C.faults F.content F.faults log kernel console files) result.log.entries.list (C.coming result.console) (C.said result.console) (C.faults result.console) }
    ensures files { AreFilesKept (F.content files) (F.faults files) result.log.entries.list result.log.updates.list (F.content result.files) (F.faults result.files) }
    ensures ended { HasEnded result.log.entries.list result.status }
    ensures whole { EndsBy result.log.entries.list how.Cut → ⊥ }
{
    serve_within::<R, V, K, C, F, G, Brand>(
        rt, alloc, guest, log, kernel, console, files, capacity, gate,
    )
}

/// The same, of the run `N`.
fn serve_within<
    R: Threads + Wait + Sync,
    V: Version + Send,
    K: Kernel + Send,
    C: Console + Send,
    F: Files + Send,
    G: Gate + Sync,
    N: Run + Send + Sync,
>(
    rt: &R,
    alloc: Global,
    guest: V,
    log: Log,
    kernel: K,
    console: C,
    files: F,
    capacity: usize,
    gate: &G,
) -> Outcome<K, C, F>
    requires new_run { IsNewRun V.behaviour guest log }
    requires stands { BeginsWith N.began (seen K.done K.faults C.coming C.said C.faults F.content F.faults (record { log = log; status = first_status; kernel = kernel; console = console; files = files; orders = true; mute = false; line = None })) }
    requires capacity { (4 ≤ capacity) × (capacity ≤ 4096) }
    ensures served { IsServed V.behaviour N.began K.done K.faults C.coming C.said C.faults F.content F.faults result }
{
    let mut core: Core<V, K, C, F, N> = Core::new(guest, log, kernel, console, files, true);
    let (leader, other) = match ring::<V>(alloc, capacity) {
        Ok(halves) => halves,
        Err(_) => {
            core.give_up();
            return end_run(core, How::Memory);
        }
    };
    let follower: Follower<V> = match Follower::new(alloc) {
        Ok(follower) => follower,
        Err(_) => {
            core.give_up();
            return end_run(core, How::Memory);
        }
    };
    serve_on::<R, V, K, C, F, G, N, Brand>(
        rt,
        alloc,
        core,
        leader,
        follower,
        other,
        Blank::new(1),
        gate,
    )
}

/// The two activities over the two halves of one ring, which `J` names.
fn serve_on<
    R: Threads + Wait + Sync,
    V: Version + Send,
    K: Kernel + Send,
    C: Console + Send,
    F: Files + Send,
    G: Gate + Sync,
    N: Run + Send + Sync,
    J: Names + Send + Sync,
>(
    rt: &R,
    alloc: Global,
    core: Core<V, K, C, F, N>,
    leader: RingIn<V>,
    follower: Follower<V>,
    other: RingOut<V>,
    blank: Blank,
    gate: &G,
) -> Outcome<K, C, F>
    requires ring { (ring_of_in leader ≡ J.ring) × (ring_of_out other ≡ J.ring) }
    requires new_ring { (put_list leader ≡ []) × (taken_list other ≡ []) }
    requires ledger { (blank.name ≡ J.name) × (blank.parts ≡ J.parts) × (J.all ≡ J.parts) × (0 < J.all) }
    requires none { (core.log.entries.list ≡ []) × (core.status.ended ≡ None) }
    requires operator { (core.line ≡ None) × (core.orders ≡ true) }
    requires follower { IsAt V.behaviour follower no_spot × (has_verdict follower ≡ false) }
    ensures served { IsServed V.behaviour N.began K.done K.faults C.coming C.said C.faults F.content F.faults result }
{
    let (book, share) = blank.open::<J>();
    let pass: Pass<J> = Pass::new(share);
    let leading: Mutex<Leading<V, K, C, F, N, J>> = Mutex::new(Leading::new(core, leader, book));
    let trailing: Mutex<Trailing<V, J>> = Mutex::new(Trailing::new(follower, other));
    // Where no thread can be made, `join` runs its second closure first: the leading activity, which helps itself to the end.
    let (_, over) = join(
        rt,
        || follow(rt, alloc, &leading, &trailing, gate),
        || -> Over<J>
            requires { (J.all ≡ J.parts) × (0 < J.all) }
        { lead(rt, alloc, &leading, &trailing, gate, pass) },
    );
    leading.into_inner().finish(alloc, over)
}
