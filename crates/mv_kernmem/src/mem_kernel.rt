//! A kernel in memory, which plays a script and tells what it did.
ghost use Rattle.std.specs.Prelude.{◌≡◌, ◌≤◌, ◌-◌, ◌^◌, ◌↔◌, [], ◌∷◌, length, Some, IsTrue, IsErr, IfOk, OnOk, OnErr};
ghost use Rattle.mv_calls.specs.Places.{Holds, places_of};
ghost use Rattle.mv_calls.specs.Suits.{suits_of};
ghost use Rattle.mv_outside.specs.Causes.{Rose};
ghost use Rattle.mv_outside.specs.Counts.{one_more};
ghost use Rattle.mv_outside.specs.Told.{told_more};
ghost use Rattle.mv_kernmem.specs.Kernels.{IsReady, Begins, perform_fails, after_failure};
ghost use Rattle.mv_kernmem.specs.Replies.{reply_of};
ghost use Rattle.mv_kernmem.specs.Changes.{state_after};

use crate::script::{Numbers, Script};
use crate::scripted::Scripted;
use mv_calls::{Call, Item, OutOfMemory, Reply, Room, copy_call, copy_reply};
use mv_outside::{Failed, Kernel};
use std::alloc::Global;
use std::marker::Model;

/// The copy of a call that is to be done, and the place for the copy of its reply.
#[derive(Debug, Drop)]
pub struct Saved {
    pub call: Call,
    pub room: Room,
}

/// Plays a script: what it answers and leaves is one row a call in docs/FORMATS.md, "The scripted kernel". Contracts see all that
/// it holds.
#[derive(Debug, Drop)]
pub struct MemKernel {
    scripted: Scripted,
    done: Vec<Item>,
    saved: Option<Saved>,
    performs: u64,
    fail: Numbers,
    faults: u64,
}

impl Model for MemKernel {
    ghost use Rattle.std.specs.Prelude.{◌-◌, vec_capacity, vec_len};
    ghost use Rattle.mv_kernmem.specs.Kernels.{KernelState};

    ghost Value = { KernelState };

    ghost view = { λ k. record {
      state = k.scripted;
      done = k.done.items;
      room = vec_capacity k.done - vec_len k.done;
      saved = k.saved;
      performs = k.performs;
      fail = k.fail;
      faults = k.faults;
    } };
}

impl MemKernel {
    /// A kernel that has done nothing of this script, which has at most 2^32 - 4 connections, since descriptors are u32 and those
    /// of connections begin with 4. The one error is want of memory.
    pub fn new(alloc: Global, script: Script) -> Result<MemKernel, OutOfMemory>
        requires { length script.conns ≤ 2 ^ 32 - 4 }
        ensures { IfOk result (λ kernel. Begins script kernel) }
    {
        let Script {
            conns,
            clock,
            random,
            fail,
        } = script;
        Ok(MemKernel {
            scripted: Scripted::new(alloc, conns, clock, random)?,
            done: Vec::new(alloc),
            saved: None,
            performs: 0,
            fail,
            faults: 0,
        })
    }

    /// The calls done with their replies, oldest first.
    pub fn done(&self) -> &[Item]
        ensures { result.now ≡ self.now.done }
    {
        self.done.as_slice()
    }
}

impl Kernel for MemKernel {
    ghost use Rattle.std.specs.Prelude.{Some};
    ghost use Rattle.mv_kernmem.specs.Kernels.{IsReady};

    ghost done = { λ k. Some k.done };

    ghost faults = { λ k. k.faults };

    ghost ready_for = { λ k call. IsReady k call };

    /// Makes a copy of the call, a place for a copy of its reply, and a place in the list of what was done.
    fn ready(&mut self, alloc: Global, call: &Call) -> Result<(), OutOfMemory>
        ensures ready { OnOk result (IsReady self.new call.now) }
        ensures done { Some self.new.done ≡ Some self.old.done }
        ensures faults { self.new.faults ≡ self.old.faults }
        // All but the places is as it was.
        ensures same { self.new ≡ record self.old { room = self.new.room; saved = self.new.saved } }
    {
        let copy = copy_call(alloc, call)?;
        let room = Room::make(alloc, call)?;
        self.done.reserve(1)?;
        self.saved = Some(Saved { call: copy, room });
        Ok(())
    }

    /// Fails where the number of this call of `perform`, from 0, is in the script's list; then it does nothing but count.
    fn perform(&mut self, call: &Call, room: Room) -> Result<Reply, Failed>
        requires ready { IsReady self.old call.now }
        requires room { Holds room (places_of call.now) }
        ensures suits { IfOk result (λ reply. IsTrue (suits_of call.now reply)) }
        ensures did { IfOk result (λ reply. Some self.new.done ≡ told_more (Some self.old.done) ((call.now, reply) ∷ [])) }
        ensures did_not { OnErr result (Some self.new.done ≡ Some self.old.done) }
        ensures later { self.old.faults ≤ self.new.faults }
        ensures cause { OnErr result (Rose self.old.faults self.new.faults) }

        // It fails exactly at the calls that are named, and only counts them then.
        ensures named { IsErr result ↔ IsTrue (perform_fails self.old) }
        ensures counted { OnErr result (self.new ≡ after_failure self.old) }

        // Else it answers and leaves what the script says.
        ensures replied { IfOk result (λ reply. reply ≡ reply_of self.old.state call.now) }
        ensures state { OnOk result (self.new.state ≡ state_after self.old.state call.now) }
        ensures performs { self.new.performs ≡ one_more self.old.performs }
        ensures fail { self.new.fail ≡ self.old.fail }
        ensures faults { OnOk result (self.new.faults ≡ self.old.faults) }
    {
        let number = self.performs;
        self.performs = number.saturating_add(1);
        if self.fail.slice().contains(&number) {
            self.faults = self.faults.saturating_add(1);
            return Err(Failed);
        }
        match self.saved.take() {
            Some(saved) => {
                let reply = self.scripted.reply_to(call, room);
                self.scripted.pass(call);
                let copy = copy_reply(&reply, saved.room);
                self.done.push_reserved(Item {
                    call: saved.call,
                    reply: copy,
                });
                Ok(reply)
            }
            None => unreachable!(),
        }
    }
}
