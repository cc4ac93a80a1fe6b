//! A call in memory, before it is noted.
ghost use Rattle.std.specs.Prelude.{◌≡◌, ◌<◌, ◌≤◌, ◌+◌, [], ℕ, true, None, Some, length, vec_len, vec_capacity};
ghost use Rattle.vx_base.specs.declared.call.Call.{Call};
ghost use Rattle.vx_base.specs.declared.reply.Reply.TheVariants.{Refused};
ghost use Rattle.vx_model.specs.Legal.{World};
ghost use Rattle.vx_model.specs.Step.{is_of_names};
ghost use Rattle.vx_stage.specs.Growths.{IsBusy, IsInUse};
ghost use Rattle.vx_txn.specs.Calls.{HasMode};

use crate::calls::{is_for_mount, is_no_space};
use crate::mount::Mount;
use std::alloc::Global;
use vx_base::{Call, Refusal, Reply};
use vx_dev::BlockDev;
use vx_model::laws::refused_leaves;
use vx_model::waiting::waiting_laws;

/// What is known of a call before it is noted.
pub enum Asked {
    /// A stage of the device came first, that makes room for the call.
    Again,
    /// The call's reply, twice. Where it is no refusal, the call was done in memory.
    Replied(Reply, Reply),
}

impl Asked {
    ghost use Rattle.vx_calls.specs.declared.asked.Asked.TheVariants.{Replied};

    /// The call is refused for this.
    fn refused(why: &Refusal) -> Asked
        ensures { result ≡ Replied (Refused why.now) (Refused why.now) }
    {
        Asked::Replied(Reply::Refused(*why), Reply::Refused(*why))
    }
}

impl Mount {
    ghost use Rattle.vx_calls.specs.Calls.{HasAsked, HasFailed, IsAsked};
    ghost use Rattle.vx_calls.specs.Mounts.{IsAt, IsUsed};
    ghost use Rattle.vx_calls.specs.Potentials.{waits, AsksOf};

    /// Does a call in memory. Where the open batch may have no room for it, that one is committed first; where it is short of blocks,
    /// those that wait are released first.
    pub fn ask<D: BlockDev>(&mut self, alloc: Global, dev: &mut D, call: &Call) -> Asked
        requires used { IsUsed (D.state dev.old) self.old }
        requires free { IsBusy self.old.kernel.job → ⊥ }
        requires built { is_of_names call.now ≡ true }
        requires mode { HasMode call.now }
        requires room { vec_len self.old.kernel.history < vec_capacity self.old.kernel.history }
        ensures asked { HasAsked (D.state dev.new) self.old self.new result }
        ensures at { (o : World) → IsAt o (D.state dev.old) self.old → IsInUse o self.old.kernel → IsAsked o (D.state dev.new) self.new call.now result }
        ensures free { IsBusy self.new.kernel.job → ⊥ }
        ensures capacity { vec_capacity self.old.kernel.history ≤ vec_capacity self.new.kernel.history }
        ensures few { (D.state dev.new).count ≤ (D.state dev.old).count + 8 }
        ensures later { (D.state dev.old).count ≤ (D.state dev.new).count }
        ensures logging { self.new.kernel.logging ≡ self.old.kernel.logging }
        ensures first { self.new.kernel.first ≡ self.old.kernel.first }
        ensures failed { HasFailed self.old.disabled self.new.disabled (D.state dev.old) (D.state dev.new) }
        ensures asks { AsksOf (D.state dev.old) (D.state dev.new) self.old self.new result }
    {
        if let Some(write_faults) = self.disabled {
            return Asked::refused(&Refusal::Disabled { write_faults });
        }
        if is_for_mount(call) {
            return Asked::Replied(Reply::Fine, Reply::Fine);
        }
        if !self.kernel.has_place() {
            return self.make_place(dev);
        }
        self.replies(alloc, dev, call)
    }

    /// Does a call of names in memory, for which the open batch has room.
    fn replies<D: BlockDev>(&mut self, alloc: Global, dev: &mut D, call: &Call) -> Asked
        requires used { IsUsed (D.state dev.old) self.old }
        requires free { IsBusy self.old.kernel.job → ⊥ }
        requires enabled { self.old.disabled ≡ None }
        requires built { is_of_names call.now ≡ true }
        requires mode { HasMode call.now }
        requires place { length self.old.kernel.gathered ≤ 144 }
        requires room { vec_len self.old.kernel.history < vec_capacity self.old.kernel.history }
        ensures asked { HasAsked (D.state dev.new) self.old self.new result }
        ensures at { (o : World) → IsAt o (D.state dev.old) self.old → IsInUse o self.old.kernel → IsAsked o (D.state dev.new) self.new call.now result }
        ensures free { IsBusy self.new.kernel.job → ⊥ }
        ensures capacity { vec_capacity self.old.kernel.history ≤ vec_capacity self.new.kernel.history }
        ensures few { (D.state dev.new).count ≤ (D.state dev.old).count + 8 }
        ensures later { (D.state dev.old).count ≤ (D.state dev.new).count }
        ensures logging { self.new.kernel.logging ≡ self.old.kernel.logging }
        ensures first { self.new.kernel.first ≡ self.old.kernel.first }
        ensures failed { HasFailed self.old.disabled self.new.disabled (D.state dev.old) (D.state dev.new) }
        ensures asks { AsksOf (D.state dev.old) (D.state dev.new) self.old self.new result }
    {
        // The proof rests on these laws; nothing runs here.
        refused_leaves();
        waiting_laws();
        let place = self.kernel.history.len() as u64;
        match self.meta.apply(alloc, call, place, &mut self.touched) {
            Ok((reply, copy)) => {
                if is_no_space(&reply) && self.meta.has_pending() {
                    return self.make_space(dev);
                }
                Asked::Replied(reply, copy)
            }
            Err(_) => Asked::refused(&Refusal::NoMemory),
        }
    }

    /// Goes on with the commit that makes room for another transaction.
    fn make_place<D: BlockDev>(&mut self, dev: &mut D) -> Asked
        requires used { IsUsed (D.state dev.old) self.old }
        requires free { IsBusy self.old.kernel.job → ⊥ }
        requires enabled { self.old.disabled ≡ None }
        requires some { 0 < length self.old.kernel.gathered }
        requires room { vec_len self.old.kernel.history < vec_capacity self.old.kernel.history }
        ensures asked { HasAsked (D.state dev.new) self.old self.new result }
        ensures at { (o : World) → IsAt o (D.state dev.old) self.old → IsInUse o self.old.kernel → (c : Call) → is_of_names c ≡ true → IsAsked o (D.state dev.new) self.new c result }
        ensures free { IsBusy self.new.kernel.job → ⊥ }
        ensures capacity { vec_capacity self.old.kernel.history ≤ vec_capacity self.new.kernel.history }
        ensures few { (D.state dev.new).count ≤ (D.state dev.old).count + 8 }
        ensures later { (D.state dev.old).count ≤ (D.state dev.new).count }
        ensures logging { self.new.kernel.logging ≡ self.old.kernel.logging }
        ensures first { self.new.kernel.first ≡ self.old.kernel.first }
        ensures failed { HasFailed self.old.disabled self.new.disabled (D.state dev.old) (D.state dev.new) }
        ensures asks { AsksOf (D.state dev.old) (D.state dev.new) self.old self.new result }
    {
        self.begin_commit(dev);
        match self.advance(dev) {
            Ok(()) => Asked::Again,
            Err(_) => Asked::refused(&Refusal::WriteFault),
        }
    }

    /// Goes on with what releases the blocks that wait.
    fn make_space<D: BlockDev>(&mut self, dev: &mut D) -> Asked
        requires used { IsUsed (D.state dev.old) self.old }
        requires free { IsBusy self.old.kernel.job → ⊥ }
        requires enabled { self.old.disabled ≡ None }
        requires waits { waits self.old.meta ≡ 1 }
        requires room { vec_len self.old.kernel.history < vec_capacity self.old.kernel.history }
        ensures asked { HasAsked (D.state dev.new) self.old self.new result }
        ensures at { (o : World) → IsAt o (D.state dev.old) self.old → IsInUse o self.old.kernel → (c : Call) → is_of_names c ≡ true → IsAsked o (D.state dev.new) self.new c result }
        ensures free { IsBusy self.new.kernel.job → ⊥ }
        ensures capacity { vec_capacity self.old.kernel.history ≤ vec_capacity self.new.kernel.history }
        ensures few { (D.state dev.new).count ≤ (D.state dev.old).count + 8 }
        ensures later { (D.state dev.old).count ≤ (D.state dev.new).count }
        ensures logging { self.new.kernel.logging ≡ self.old.kernel.logging }
        ensures first { self.new.kernel.first ≡ self.old.kernel.first }
        ensures failed { HasFailed self.old.disabled self.new.disabled (D.state dev.old) (D.state dev.new) }
        ensures asks { AsksOf (D.state dev.old) (D.state dev.new) self.old self.new result }
    {
        if self.begin_release(dev) {
            self.release(dev);
            return Asked::Again;
        }
        match self.advance(dev) {
            Ok(()) => Asked::Again,
            Err(_) => Asked::refused(&Refusal::WriteFault),
        }
    }
}
