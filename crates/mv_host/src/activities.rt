//! The leading and the following activity. Nobody asks for the follower's lock while it holds the core's.
ghost use Rattle.std.specs.Prelude.{◌≡◌, ◌<◌};

use crate::leading::Leading;
use crate::names::{Names, Over, Pass};
use crate::trailing::Trailing;
use mv_core::Turn;
use mv_follower::Carried;
use mv_outside::{Console, Files, Gate, Kernel, Run};
use mv_version::Version;
use std::alloc::Global;
use std::sync::{Mutex, Wait};

/// What the leading activity does for the follower while the leader can't go on: it delivers a verdict that waits, or takes a
/// message, or makes a step where none may be taken.
fn help<V: Version, K: Kernel, C: Console, F: Files, N: Run, J: Names, R: Wait>(
    rt: &R,
    alloc: Global,
    leading: &Mutex<Leading<V, K, C, F, N, J>>,
    trailing: &Mutex<Trailing<V, J>>,
) {
    let mut follower = trailing.lock(rt);
    if follower.waits() {
        follower.judge(rt, leading);
        return;
    }
    if let Carried::Waits = follower.carry() {
        follower.step(alloc);
    }
}

/// The leading activity: turns until the log has ended, and helps where the leader can't go on.
pub(crate) fn lead<V: Version, K: Kernel, C: Console, F: Files, N: Run, J: Names, G: Gate, R: Wait>(
    rt: &R,
    alloc: Global,
    leading: &Mutex<Leading<V, K, C, F, N, J>>,
    trailing: &Mutex<Trailing<V, J>>,
    gate: &G,
    mut pass: Pass<J>,
) -> Over<J>
    requires parts { (J.all ≡ J.parts) × (0 < J.all) }
{
    let mut n: u64 = 0;
    for _ in rt.forever() {
        gate.lead(n);
        n = n.wrapping_add(1);
        // The answer is bound first, so that the core's lock is free when help asks for the follower's.
        let turn = leading.lock(rt).turn(alloc, &mut pass);
        match turn {
            Turn::Ended(_) => return pass.over(),
            Turn::Full { .. } | Turn::Handing => help(rt, alloc, leading, trailing),
            Turn::Did | Turn::Memory => {}
        }
    }
    unreachable!()
}

/// The following activity: takes messages, makes steps and delivers verdicts, until there is no message and the log has ended.
pub(crate) fn follow<
    V: Version,
    K: Kernel,
    C: Console,
    F: Files,
    N: Run,
    J: Names,
    G: Gate,
    R: Wait,
>(
    rt: &R,
    alloc: Global,
    leading: &Mutex<Leading<V, K, C, F, N, J>>,
    trailing: &Mutex<Trailing<V, J>>,
    gate: &G,
) {
    let mut n: u64 = 0;
    for _ in rt.forever() {
        let carried = trailing.lock(rt).carry();
        if let Carried::Starved = carried {
            let live = leading.lock(rt).is_live();
            if !live {
                return;
            }
        }
        gate.follow(n);
        n = n.wrapping_add(1);
        trailing.lock(rt).step(alloc);
        trailing.lock(rt).judge(rt, leading);
    }
    unreachable!()
}
