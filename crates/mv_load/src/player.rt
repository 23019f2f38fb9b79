//! A kernel in memory of which contracts know the script that it plays.
ghost use Rattle.std.specs.Prelude.{◌≡◌, ◌≤◌, [], ◌∷◌, Some, IsTrue, IfOk, OnOk, OnErr};
ghost use Rattle.mv_calls.specs.Places.{Holds, places_of};
ghost use Rattle.mv_calls.specs.Suits.{suits_of};
ghost use Rattle.mv_outside.specs.Causes.{Rose};
ghost use Rattle.mv_outside.specs.Told.{told_more};
ghost use Rattle.mv_kernmem.specs.Kernels.{Begins, IsReady};
ghost use Rattle.mv_load.specs.Played.{IsPlayed};

use mv_calls::{Call, OutOfMemory, Reply, Room};
use mv_kernmem::MemKernel;
use mv_outside::{Failed, Kernel};
use std::alloc::Global;
use std::marker::{Brand, Model, PhantomData};

/// A type that is a `Plan` stands, for contracts alone, for the script that a kernel plays. It has no calls.
pub trait Plan {
    ghost use Rattle.mv_kernmem.specs.declared.script.Script.{Script};

    /// The script.
    ghost script: { Script };
}

impl Plan for Brand {
    ghost use Rattle.std.specs.Prelude.{[]};

    ghost script = { record { conns = []; clock = []; random = []; fail = [] } };
}

/// Plays the script of `N`: each reply that it has given is the script's.
#[derive(Drop)]
pub struct Player<N: Plan> {
    kernel: MemKernel,
    plan: PhantomData<N>,
}

impl<N: Plan> Model for Player<N> {
    ghost use Rattle.mv_kernmem.specs.Kernels.{KernelState};
    ghost use Rattle.mv_load.specs.Played.{IsPlayed};

    ghost Value = { KernelState };

    ghost view = { λ p. p.kernel };

    ghost invariant = { λ p. IsPlayed N.script p.kernel };
}

impl<N: Plan> Player<N> {
    /// A player that has done nothing yet.
    pub fn new(kernel: MemKernel) -> Player<N>
        requires { Begins N.script kernel }
        ensures { result ≡ kernel }
    {
        Player {
            kernel,
            plan: PhantomData,
        }
    }

    /// What it has done is what its script says. The function does nothing; it carries the law.
    pub fn has_played(&self)
        ensures { IsPlayed N.script self.now }
    {
        let _ = &self.kernel;
    }
}

impl<N: Plan> Kernel for Player<N> {
    ghost use Rattle.std.specs.Prelude.{Some};
    ghost use Rattle.mv_kernmem.specs.Kernels.{IsReady};

    ghost done = { λ p. Some p.done };

    ghost faults = { λ p. p.faults };

    ghost ready_for = { λ p call. IsReady p call };

    fn ready(&mut self, alloc: Global, call: &Call) -> Result<(), OutOfMemory> {
        self.kernel.ready(alloc, call)
    }

    fn perform(&mut self, call: &Call, room: Room) -> Result<Reply, Failed> {
        self.kernel.perform(call, room)
    }
}
