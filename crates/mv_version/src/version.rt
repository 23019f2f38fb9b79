//! The guest trait.
ghost use Rattle.std.specs.Prelude.{◌≡◌, IfOk, OnOk, IsTrue, Result, Ok, Err, List, ℕ};
ghost use Rattle.mv_calls.specs.Or.{IfFault};
ghost use Rattle.mv_calls.specs.Suits.{suits_of};
ghost use Rattle.mv_version.specs.Behaviour.{Behaviour, CallsIn, IsSettled, IsStartFault, PointsEnd};
ghost use Rattle.mv_version.specs.declared.event.Event.TheVariants.{Point};

use crate::event::Event;
use mv_calls::{Or, OutOfMemory, Reply, Texts};
use mv_syntax::BornFault;
use std::alloc::Global;

/// A version of the guest. It is its state: what it does next is a function of that, and what it becomes is
/// a function of that and of the replies that it gets.
pub trait Version: Sized + Drop {
    /// What this version does, as functions of its state at its next event.
    ghost behaviour: { Behaviour Self };

    /// The memory for the outputs of the call at which it stands was made.
    ghost prepared: { Self → Type 0 };

    /// A guest at the beginning of its run. The faults are those of the module's bytes (Read), of its
    /// validation (Valid) and of its start (Start), the first that there is in this order.
    fn start(alloc: Global, module: &[u8], args: &Texts) -> Result<Self, Or<BornFault>>
        ensures started { IfOk result (λ guest. behaviour.started «module».now args.now ≡ Ok (behaviour.state guest)) }
        ensures refused { IfFault result (λ fault. behaviour.started «module».now args.now ≡ Err fault) }
        ensures kind { IfFault result IsStartFault };

    /// A guest of a new module, made from the state of an old one by the new module's transformer, which
    /// stands where the new version goes on. The old one is used up, also where the answer is a fault.
    fn born(alloc: Global, old: Self, module: &[u8]) -> Result<Self, Or<BornFault>>
        ensures born { IfOk result (λ guest. behaviour.born (behaviour.state old) «module».now ≡ Ok (behaviour.state guest)) }
        ensures refused { IfFault result (λ fault. behaviour.born (behaviour.state old) «module».now ≡ Err fault) };

    /// The next event. Where memory is wanted, the guest is as it was and has the same event later.
    fn go(&mut self, alloc: Global) -> Result<Event, OutOfMemory>
        ensures event { IfOk result (λ event. behaviour.go (behaviour.state self.old) ≡ event) }
        ensures same { self.new ≡ behaviour.state self.old };

    /// Makes the memory for the outputs of the call at which the guest stands.
    fn prepare(&mut self, alloc: Global) -> Result<(), OutOfMemory>
        requires call { CallsIn behaviour (behaviour.state self.old) (λ _. Unit {0}) }
        ensures prepared { OnOk result (prepared self.new) }
        ensures same { behaviour.state self.new ≡ behaviour.state self.old };

    /// Gives the reply to the call at which the guest stands, which was prepared. It takes no memory.
    fn answer(&mut self, reply: &Reply)
        requires ready { prepared self.old }
        requires suits { CallsIn behaviour (behaviour.state self.old) (λ call. IsTrue (suits_of call reply.now)) }
        ensures after { self.new ≡ behaviour.after (behaviour.state self.old) reply.now };

    /// Lets the guest go on from the update point at which it stands. It takes no memory.
    fn pass_point(&mut self)
        requires point { behaviour.go (behaviour.state self.old) ≡ Point }
        ensures passed { self.new ≡ behaviour.passed (behaviour.state self.old) };

    /// A guest in the same state.
    fn copy(&self, alloc: Global) -> Result<Self, OutOfMemory>
        ensures copy { IfOk result (λ copy. copy ≡ behaviour.state self.now) };

    /// Update points in a row come to an end.
    ghost points_end: { PointsEnd behaviour };

    /// Each function above gives a state that has nothing prepared.
    ghost settled: { IsSettled behaviour };
}
