//! A mount in memory.
ghost use Rattle.std.specs.Prelude.{◌≡◌, ◌≢◌, ◌<◌, ◌≤◌, ◌+◌, ◌*◌, ◌++◌, ◌∷◌, [], ℕ, true, false, nat_lt, length, All, None, Some, IsNone, IfOk, OnOk, OnErr, vec_len, vec_capacity};
ghost use Rattle.std.specs.List.{AllByRecursion};
ghost use Rattle.vx_base.specs.declared.event.Event.TheVariants as event;
ghost use Rattle.vx_base.specs.Faults.{HasCause};
ghost use Rattle.vx_base.specs.Lines.{line_after};
ghost use Rattle.vx_model.specs.Contents.{parsed_of};
ghost use Rattle.vx_model.specs.Images.{content_at};
ghost use Rattle.vx_model.specs.LaidOut.{IsPlain};
ghost use Rattle.vx_model.specs.Layout.{volume};
ghost use Rattle.vx_model.specs.Legal.{World};
ghost use Rattle.vx_model.specs.State.{State};
ghost use Rattle.vx_model.specs.Touching.{HasTouched, untouched};
ghost use Rattle.vx_stage.specs.Growths.{IsBusy, IsInUse, IsOver, MayAnswer, MayStop};
ghost use Rattle.vx_dev.specs.Moments.{Told};
ghost use Rattle.vx_dev.specs.Tape.{State as Device};
ghost use Rattle.vx_stage.specs.Kernels.{HasRun, IsFit, IsLive, present};
ghost use Rattle.vx_txn.specs.Metas.{IsSound, IsStateOf, Stands};
ghost use Rattle.vx_stage.specs.Staged.{has_stage, staged};
ghost use Rattle.vx_stage.specs.declared.kernel.Job.TheVariants.{Idle, Tail, TailOut, LeaveOut, Broken};

use crate::asked::Asked;
use crate::calls::has_front;
use std::alloc::Global;
use std::mem;
use vx_base::{Call, LineLists, Reply};
use vx_dev::{BlockDev, DevFault};
use vx_log::{Batch, note_laws};
use vx_model::edits::edit_laws;
use vx_stage::{Job, Kernel, fit_laws};
use vx_txn::{Meta, Touched, stage};

/// What a mount keeps beside its device and the lines of its sessions.
#[derive(Drop)]
pub struct Mount {
    pub kernel: Kernel,
    pub meta: Meta,
    /// What the present call touches, empty between two turns.
    pub touched: Touched,
    /// The sectors of the present call, empty between two turns.
    pub transaction: Batch,
    /// The device's count of failed writes, from the first one in this mount on.
    pub disabled: Option<u64>,
    /// Sectors have been written home, so that blocks may be released once the tail has passed them.
    pub due: bool,
}

/// What a turn that begins a call comes to.
pub enum Performed {
    /// A stage of the device came first, that makes room for the call.
    Again,
    /// The call stands at this place of the history. Its answer is this, where nothing fails, and it has to be committed first or not.
    Done {
        place: u64,
        answer: Reply,
        commits: bool,
    },
}

impl Mount {
    ghost use Rattle.vx_calls.specs.Mounts.{IsAt, IsUsed, MayBegin, Released, LeavesOn};
    ghost use Rattle.vx_calls.specs.Calls.{IsBuilt, IsFew, HasFailed, HasPerformed, HasReplied};
    ghost use Rattle.vx_calls.specs.Potentials.{waits, owed, per_transaction, debt, promised, last_events, TurnsBy};

    /// A mount that begins now, on the kernel's device.
    pub fn new(kernel: Kernel, meta: Meta, touched: Touched, transaction: Batch) -> Mount
        requires job { kernel.job ≡ Idle }
        requires touched { touched ≡ untouched }
        requires transaction { transaction ≡ [] }
        ensures at { (o : World) (d : Device) → HasRun o d kernel → Told d (IsLive o kernel) → IsFit d kernel → IsStateOf meta (present o kernel) → IsPlain (present o kernel) → IsAt o d result }
        ensures debt { (s : State) → IsStateOf meta s → ((b : ℕ) → s.layout.pending b ≡ None) → kernel.gathered ≡ [] → kernel.homes ≡ [] → IsNone kernel.log.closing → debt result ≡ 0 }
        ensures same { result ≡ record { kernel = kernel; meta = meta; touched = touched; transaction = transaction; disabled = None; due = false } }
    {
        Mount {
            kernel,
            meta,
            touched,
            transaction,
            disabled: None,
            due: false,
        }
    }

    /// Does the next stage of the kernel's job. Where the tail has passed sectors that were written home, the blocks that waited for it
    /// are released.
    ///
    /// # Errors
    ///
    /// A write or a barrier failed, which disables the mount.
    pub fn advance<D: BlockDev>(&mut self, dev: &mut D) -> Result<(), DevFault>
        requires used { IsUsed (D.state dev.old) self.old }
        requires enabled { self.old.disabled ≡ None }
        requires room { vec_len self.old.kernel.history < vec_capacity self.old.kernel.history }
        ensures at { (o : World) → IsAt o (D.state dev.old) self.old → IsInUse o self.old.kernel → IsAt o (D.state dev.new) self.new }
        ensures history { Released self.old.kernel.history.items self.new.kernel.history.items (D.state dev.new).count }
        ensures staged { OnOk result (self.new.kernel ≡ record (staged self.old.kernel self.old.kernel.job) { history = self.new.kernel.history }) }
        ensures enabled { OnOk result (self.new.disabled ≡ None) }
        ensures disabled { OnErr result (self.new.disabled ≡ Some (D.state dev.new).write_faults) }
        ensures broken { OnErr result (self.new.kernel.job ≡ Broken) }
        ensures works { OnOk result (has_stage self.old.kernel.job ≡ true → (D.state dev.old).count < (D.state dev.new).count) }
        ensures still { OnErr result (self.new.kernel.history ≡ self.old.kernel.history) }
        ensures capacity { vec_capacity self.old.kernel.history ≤ vec_capacity self.new.kernel.history }
        ensures few { (D.state dev.new).count ≤ (D.state dev.old).count + 8 }
        ensures later { (D.state dev.old).count ≤ (D.state dev.new).count }
        ensures cause { HasCause (D.state dev.old).write_faults (D.state dev.new).write_faults result }
        ensures logging { self.new.kernel.logging ≡ self.old.kernel.logging }
        ensures first { self.new.kernel.first ≡ self.old.kernel.first }
        ensures owed { owed self.new ≤ owed self.old }
        ensures less { has_stage self.old.kernel.job ≡ true → owed self.new < owed self.old }
        ensures promised { promised self.new ≤ promised self.old }
        ensures failed { HasFailed self.old.disabled self.new.disabled (D.state dev.old) (D.state dev.new) }
    {
        // The proof rests on these laws; nothing runs here.
        note_laws();
        let job = self.kernel.job;
        let noted = self.kernel.homes.len();
        match self.kernel.stage(dev) {
            Ok(()) => {
                self.pass(dev, job, noted);
                Ok(())
            }
            Err(fault) => {
                self.disabled = Some(dev.write_faults());
                Err(fault)
            }
        }
    }

    /// What comes behind a stage of this job, before which so many sectors were noted.
    fn pass<D: BlockDev>(&mut self, dev: &D, job: Job, noted: u32)
        requires used { IsUsed (D.state dev.now) self.old }
        requires passed { job ≡ TailOut → (self.old.kernel.job ≡ Idle) × (self.old.kernel.homes ≡ []) }
        requires room { vec_len self.old.kernel.history < vec_capacity self.old.kernel.history }
        ensures at { (o : World) → IsAt o (D.state dev.now) self.old → IsInUse o self.old.kernel → IsAt o (D.state dev.now) self.new }
        ensures history { Released self.old.kernel.history.items self.new.kernel.history.items (D.state dev.now).count }
        ensures kernel { self.new.kernel ≡ record self.old.kernel { history = self.new.kernel.history } }
        ensures capacity { vec_capacity self.old.kernel.history ≤ vec_capacity self.new.kernel.history }
        ensures disabled { self.new.disabled ≡ self.old.disabled }
        ensures waits { waits self.new.meta ≤ waits self.old.meta }
        ensures promised { job ≢ Tail → promised self.new ≤ promised self.old }
        ensures tail { job ≡ Tail → self.new ≡ record self.old { due = nat_lt 0 noted } }
    {
        match job {
            Job::Tail => self.due = noted > 0,
            Job::TailOut => self.release_passed(dev),
            _ => {}
        }
    }

    /// Releases blocks behind an emptied log, where sectors had been written home and blocks wait.
    fn release_passed<D: BlockDev>(&mut self, dev: &D)
        requires used { IsUsed (D.state dev.now) self.old }
        requires job { self.old.kernel.job ≡ Idle }
        requires empty { self.old.kernel.homes ≡ [] }
        requires room { vec_len self.old.kernel.history < vec_capacity self.old.kernel.history }
        ensures at { (o : World) → IsAt o (D.state dev.now) self.old → IsInUse o self.old.kernel → IsAt o (D.state dev.now) self.new }
        ensures history { Released self.old.kernel.history.items self.new.kernel.history.items (D.state dev.now).count }
        ensures kernel { self.new.kernel ≡ record self.old.kernel { history = self.new.kernel.history } }
        ensures capacity { vec_capacity self.old.kernel.history ≤ vec_capacity self.new.kernel.history }
        ensures disabled { self.new.disabled ≡ self.old.disabled }
        ensures waits { waits self.new.meta ≤ waits self.old.meta }
        ensures promised { promised self.new ≤ promised self.old }
    {
        let due = mem::replace(&mut self.due, false);
        if due && self.meta.has_pending() {
            self.release(dev);
        }
    }

    /// Frees the blocks that were given up before the committed state, and notes it.
    pub fn release<D: BlockDev>(&mut self, dev: &D)
        requires used { IsUsed (D.state dev.now) self.old }
        requires job { self.old.kernel.job ≡ Idle }
        requires empty { self.old.kernel.homes ≡ [] }
        requires room { vec_len self.old.kernel.history < vec_capacity self.old.kernel.history }
        ensures at { (o : World) → IsAt o (D.state dev.now) self.old → IsInUse o self.old.kernel → IsAt o (D.state dev.now) self.new }
        ensures history { Released self.old.kernel.history.items self.new.kernel.history.items (D.state dev.now).count }
        ensures kernel { self.new.kernel ≡ record self.old.kernel { history = self.new.kernel.history } }
        ensures capacity { vec_capacity self.old.kernel.history ≤ vec_capacity self.new.kernel.history }
        ensures disabled { self.new.disabled ≡ self.old.disabled }
        ensures noted { length self.new.kernel.history.items ≡ length self.old.kernel.history.items + 1 }
        ensures waits { waits self.new.meta ≤ waits self.old.meta }
        ensures freed { self.old.kernel.committed ≡ length self.old.kernel.history.items → waits self.new.meta ≡ 0 }
        ensures due { self.new.due ≡ self.old.due }
    {
        let upto = self.kernel.committed;
        self.kernel.release(dev);
        self.meta.release(upto);
    }

    /// Begins what commits all that has come; answers whether it is committed, where nothing is open.
    pub fn want_commit<D: BlockDev>(&mut self, _dev: &D) -> bool
        requires used { IsUsed (D.state _dev.now) self.old }
        requires job { self.old.kernel.job ≡ Idle }
        ensures at { (o : World) → IsAt o (D.state _dev.now) self.old → IsAt o (D.state _dev.now) self.new }
        ensures committed { result ≡ true → (self.new.kernel.job ≡ Idle) × (self.new.kernel.committed ≡ length self.old.kernel.history.items) }
        ensures none { result ≡ true → self.old.kernel.gathered ≡ [] }
        ensures begun { result ≡ false → self.new.kernel.job ≢ Idle }
        ensures free { IsBusy self.new.kernel.job → ⊥ }
        ensures history { self.new.kernel.history ≡ self.old.kernel.history }
        ensures same { self.new ≡ record self.old { kernel = self.new.kernel } }
        ensures logging { self.new.kernel.logging ≡ self.old.kernel.logging }
        ensures first { self.new.kernel.first ≡ self.old.kernel.first }
        ensures owed { owed self.new ≤ owed self.old }
        ensures promised { promised self.new ≤ promised self.old }
    {
        // The proof rests on these laws; nothing runs here.
        fit_laws();
        self.kernel.want_commit()
    }

    /// Begins what commits all that has come, where nothing is being done; answers whether it is committed.
    pub fn begin_commit<D: BlockDev>(&mut self, dev: &D) -> bool
        requires used { IsUsed (D.state dev.now) self.old }
        ensures at { (o : World) → IsAt o (D.state dev.now) self.old → IsAt o (D.state dev.now) self.new }
        ensures committed { result ≡ true → self.new.kernel.committed ≡ length self.old.kernel.history.items }
        ensures none { result ≡ true → self.old.kernel.gathered ≡ [] }
        ensures begun { result ≡ false → self.new.kernel.job ≢ Idle }
        ensures free { (IsBusy self.old.kernel.job → ⊥) → IsBusy self.new.kernel.job → ⊥ }
        ensures history { self.new.kernel.history ≡ self.old.kernel.history }
        ensures same { self.new ≡ record self.old { kernel = self.new.kernel } }
        ensures logging { self.new.kernel.logging ≡ self.old.kernel.logging }
        ensures first { self.new.kernel.first ≡ self.old.kernel.first }
        ensures owed { owed self.new ≤ owed self.old }
        ensures promised { promised self.new ≤ promised self.old }
    {
        self.kernel.job == Job::Idle && self.want_commit(dev)
    }

    /// Goes on with the commit that makes the call at this place durable; answers whether it is.
    ///
    /// # Errors
    ///
    /// A write or a barrier failed, which disables the mount.
    pub fn reach<D: BlockDev>(&mut self, dev: &mut D, place: u64) -> Result<bool, DevFault>
        requires used { IsUsed (D.state dev.old) self.old }
        requires enabled { self.old.disabled ≡ None }
        requires there { place < length self.old.kernel.history.items }
        requires room { vec_len self.old.kernel.history < vec_capacity self.old.kernel.history }
        ensures at { (o : World) → IsAt o (D.state dev.old) self.old → IsInUse o self.old.kernel → IsAt o (D.state dev.new) self.new }
        ensures durable { IfOk result (λ reached. reached ≡ true → place < self.new.kernel.committed) }
        ensures history { Released self.old.kernel.history.items self.new.kernel.history.items (D.state dev.new).count }
        ensures enabled { OnOk result (self.new.disabled ≡ None) }
        ensures disabled { OnErr result (self.new.disabled ≡ Some (D.state dev.new).write_faults) }
        ensures still { OnErr result (self.new.kernel.history ≡ self.old.kernel.history) }
        ensures capacity { vec_capacity self.old.kernel.history ≤ vec_capacity self.new.kernel.history }
        ensures few { (D.state dev.new).count ≤ (D.state dev.old).count + 8 }
        ensures later { (D.state dev.old).count ≤ (D.state dev.new).count }
        ensures cause { HasCause (D.state dev.old).write_faults (D.state dev.new).write_faults result }
        ensures logging { self.new.kernel.logging ≡ self.old.kernel.logging }
        ensures first { self.new.kernel.first ≡ self.old.kernel.first }
        ensures free { (IsBusy self.old.kernel.job → ⊥) → IsBusy self.new.kernel.job → ⊥ }
        ensures works { IfOk result (λ reached. reached ≡ false → (D.state dev.old).count < (D.state dev.new).count) }
        ensures owed { owed self.new ≤ owed self.old }
        ensures less { IfOk result (λ reached. reached ≡ false → owed self.new < owed self.old) }
        ensures promised { promised self.new ≤ promised self.old }
    {
        if place < self.kernel.committed || self.begin_commit(dev) {
            return Ok(true);
        }
        self.advance(dev)?;
        Ok(place < self.kernel.committed)
    }

    /// The same for what has to come before the blocks that wait are released; answers whether nothing has to.
    pub fn want_release<D: BlockDev>(&mut self, _dev: &D) -> bool
        requires used { IsUsed (D.state _dev.now) self.old }
        requires job { self.old.kernel.job ≡ Idle }
        ensures at { (o : World) → IsAt o (D.state _dev.now) self.old → IsAt o (D.state _dev.now) self.new }
        ensures ready { result ≡ true → (self.new.kernel.job ≡ Idle) × (self.new.kernel.homes ≡ []) × (self.new.kernel.committed ≡ length self.old.kernel.history.items) }
        ensures begun { result ≡ false → self.new.kernel.job ≢ Idle }
        ensures free { IsBusy self.new.kernel.job → ⊥ }
        ensures history { self.new.kernel.history ≡ self.old.kernel.history }
        ensures same { self.new ≡ record self.old { kernel = self.new.kernel } }
        ensures logging { self.new.kernel.logging ≡ self.old.kernel.logging }
        ensures first { self.new.kernel.first ≡ self.old.kernel.first }
        ensures owed { owed self.new ≤ owed self.old }
        ensures promised { promised self.new ≤ promised self.old }
    {
        // The proof rests on these laws; nothing runs here.
        fit_laws();
        self.kernel.want_release()
    }

    /// Begins what has to come before the blocks that wait are released, where nothing is being done; answers whether nothing has to.
    pub fn begin_release<D: BlockDev>(&mut self, dev: &D) -> bool
        requires used { IsUsed (D.state dev.now) self.old }
        ensures at { (o : World) → IsAt o (D.state dev.now) self.old → IsAt o (D.state dev.now) self.new }
        ensures ready { result ≡ true → (self.new.kernel.job ≡ Idle) × (self.new.kernel.homes ≡ []) × (self.new.kernel.committed ≡ length self.old.kernel.history.items) }
        ensures begun { result ≡ false → self.new.kernel.job ≢ Idle }
        ensures free { (IsBusy self.old.kernel.job → ⊥) → IsBusy self.new.kernel.job → ⊥ }
        ensures history { self.new.kernel.history ≡ self.old.kernel.history }
        ensures same { self.new ≡ record self.old { kernel = self.new.kernel } }
        ensures logging { self.new.kernel.logging ≡ self.old.kernel.logging }
        ensures first { self.new.kernel.first ≡ self.old.kernel.first }
        ensures owed { owed self.new ≤ owed self.old }
        ensures promised { promised self.new ≤ promised self.old }
    {
        self.kernel.job == Job::Idle && self.want_release(dev)
    }

    /// Begins a session's line that comes after so many: the call is moved out of the list, done, and noted with its reply. Where the
    /// open batch may have no room for it, or blocks are short that wait, a stage of the device comes in its place.
    pub fn perform<D: BlockDev>(
        &mut self,
        alloc: Global,
        dev: &mut D,
        lines: &mut LineLists,
        session: u8,
        answered: u32,
    ) -> Performed
        requires used { IsUsed (D.state dev.old) self.old }
        requires free { IsBusy self.old.kernel.job → ⊥ }
        requires line { IsBuilt (line_after lines.old session answered) }
        requires limit { answered < 65536 }
        requires room { vec_len self.old.kernel.history < vec_capacity self.old.kernel.history }
        ensures performed { HasPerformed (D.state dev.new) self.old self.new lines.old lines.new session answered result }
        ensures at { (o : World) → IsAt o (D.state dev.old) self.old → MayBegin o self.old.kernel session (answered + 1) → IsAt o (D.state dev.new) self.new }
        ensures free { IsBusy self.new.kernel.job → ⊥ }
        ensures capacity { vec_capacity self.old.kernel.history ≤ vec_capacity self.new.kernel.history }
        ensures few { (D.state dev.new).count ≤ (D.state dev.old).count + 8 }
        ensures later { (D.state dev.old).count ≤ (D.state dev.new).count }
        ensures logging { self.new.kernel.logging ≡ self.old.kernel.logging }
        ensures first { self.new.kernel.first ≡ self.old.kernel.first }
        ensures failed { HasFailed self.old.disabled self.new.disabled (D.state dev.old) (D.state dev.new) }
        ensures turn { TurnsBy (D.state dev.old) (D.state dev.new) self.old self.new result }
    {
        let line = answered as usize;
        let Some(call) = lines.get(usize::from(session), line) else {
            unreachable!()
        };
        let commits = has_front(self.kernel.logging, call);
        match self.ask(alloc, dev, call) {
            Asked::Again => Performed::Again,
            Asked::Replied(reply, answer) => {
                let call = lines.take(usize::from(session), line);
                let place = self.note(dev, session, answered + 1, call, reply);
                Performed::Done {
                    place,
                    answer,
                    commits,
                }
            }
        }
    }

    /// Notes a call whose reply is known, with the sectors that it changes. Answers its place in the history.
    fn note<D: BlockDev>(
        &mut self,
        dev: &D,
        session: u8,
        line: u32,
        call: Call,
        reply: Reply,
    ) -> u64
        requires replied { (o : World) × HasReplied o (D.state dev.now) self.old call reply }
        requires free { IsBusy self.old.kernel.job → ⊥ }
        requires room { vec_len self.old.kernel.history < vec_capacity self.old.kernel.history }
        ensures at { (o : World) → HasReplied o (D.state dev.now) self.old call reply → MayBegin o self.old.kernel session line → IsAt o (D.state dev.now) self.new }
        ensures place { result ≡ length self.old.kernel.history.items }
        ensures history { self.new.kernel.history.items ≡ self.old.kernel.history.items ++ event.Do (D.state dev.now).count session line call reply ∷ [] }
        ensures kernel { self.new.kernel ≡ record self.old.kernel { gathered = self.new.kernel.gathered; history = self.new.kernel.history } }
        ensures capacity { vec_capacity self.old.kernel.history ≤ vec_capacity self.new.kernel.history }
        ensures disabled { self.new.disabled ≡ self.old.disabled }
        ensures owed { owed self.new ≤ owed self.old + per_transaction }
        ensures promised { promised self.new ≤ promised self.old + 2 }
    {
        // The proof rests on these laws; nothing runs here.
        edit_laws();
        note_laws();
        // The proof wants to know what every batch is.
        let _open = self.kernel.gathered.len();
        self.gather();
        let place = self.kernel.history.len() as u64;
        self.kernel
            .act(dev, session, line, call, reply, &self.transaction);
        self.transaction.clear();
        self.touched.clear();
        place
    }

    /// Gathers the sectors of all that is touched.
    fn gather(&mut self)
        requires sound { IsSound self.old.meta }
        requires few { IsFew self.old.touched }
        requires empty { self.old.transaction ≡ [] }
        ensures right { (s : State) → Stands self.old.meta s → AllByRecursion (λ e. content_at (volume s.layout) (parsed_of s) e.0 ≡ Some e.1) self.new.transaction }
        ensures whole { (s : State) → Stands self.old.meta s → HasTouched s self.old.touched self.new.transaction }
        ensures inside { (s : State) → Stands self.old.meta s → All (λ e. (2 * (2 + s.layout.log_blocks) ≤ e.0) × (e.0 < 2 * (2 + s.layout.log_blocks + 4096 * s.layout.units))) self.new.transaction }
        ensures few { length self.new.transaction ≤ 256 }
        ensures none { self.old.touched ≡ untouched → self.new.transaction ≡ [] }
        ensures same { self.new ≡ record self.old { transaction = self.new.transaction } }
    {
        if !self.touched.is_empty() {
            stage(&mut self.transaction, &self.meta, &self.touched);
        }
    }

    /// Answers the call that stands at this place of the history (docs/CRASHES.md, "One stage a turn").
    pub fn answer<D: BlockDev>(&mut self, dev: &D, place: u64, answer: Reply)
        requires used { IsUsed (D.state dev.now) self.old }
        requires free { IsBusy self.old.kernel.job → ⊥ }
        requires room { vec_len self.old.kernel.history < vec_capacity self.old.kernel.history }
        ensures at { (o : World) → IsAt o (D.state dev.now) self.old → MayAnswer o self.old.kernel place answer → IsAt o (D.state dev.now) self.new }
        ensures history { self.new.kernel.history.items ≡ self.old.kernel.history.items ++ event.Ret (D.state dev.now).count place answer ∷ [] }
        ensures same { self.new ≡ record self.old { kernel = record self.old.kernel { history = self.new.kernel.history } } }
        ensures capacity { vec_capacity self.old.kernel.history ≤ vec_capacity self.new.kernel.history }
        ensures owed { owed self.new ≡ owed self.old }
        ensures debt { debt self.new ≡ debt self.old }
    {
        self.kernel.ret(dev, place, answer);
    }

    /// Notes that the run was stopped.
    pub fn stop<D: BlockDev>(&mut self, dev: &D)
        requires fit { IsFit (D.state dev.now) self.old.kernel }
        requires free { IsBusy self.old.kernel.job → ⊥ }
        requires room { vec_len self.old.kernel.history < vec_capacity self.old.kernel.history }
        ensures at { (o : World) → IsAt o (D.state dev.now) self.old → MayStop o self.old.kernel → IsAt o (D.state dev.now) self.new }
        ensures history { self.new.kernel.history.items ≡ self.old.kernel.history.items ++ event.Stopped (D.state dev.now).count ∷ [] }
        ensures same { self.new ≡ record self.old { kernel = record self.old.kernel { history = self.new.kernel.history } } }
        ensures capacity { vec_capacity self.old.kernel.history ≤ vec_capacity self.new.kernel.history }
        ensures owed { owed self.new ≡ owed self.old }
        ensures debt { debt self.new ≡ debt self.old }
    {
        self.kernel.stopped(dev);
    }

    /// Goes on with the unmount by one stage: all that has come is committed, the log is emptied, and the superblock is written. Answers
    /// whether the file system is left, which the history says then.
    ///
    /// # Errors
    ///
    /// A write or a barrier failed, which disables the mount.
    pub fn leave<D: BlockDev>(&mut self, dev: &mut D) -> Result<bool, DevFault>
        requires used { IsUsed (D.state dev.old) self.old }
        requires enabled { self.old.disabled ≡ None }
        requires room { vec_len self.old.kernel.history < vec_capacity self.old.kernel.history }
        ensures at { (o : World) → IsAt o (D.state dev.old) self.old → IsOver o self.old.kernel → IsAt o (D.state dev.new) self.new }
        ensures history { IfOk result (λ left. LeavesOn left self.old.kernel self.new.kernel (D.state dev.new).count) }
        ensures enabled { OnOk result (self.new.disabled ≡ None) }
        ensures disabled { OnErr result (self.new.disabled ≡ Some (D.state dev.new).write_faults) }
        ensures still { OnErr result (self.new.kernel.history ≡ self.old.kernel.history) }
        ensures capacity { vec_capacity self.old.kernel.history ≤ vec_capacity self.new.kernel.history }
        ensures few { (D.state dev.new).count ≤ (D.state dev.old).count + 8 }
        ensures later { (D.state dev.old).count ≤ (D.state dev.new).count }
        ensures cause { HasCause (D.state dev.old).write_faults (D.state dev.new).write_faults result }
        ensures logging { self.new.kernel.logging ≡ self.old.kernel.logging }
        ensures first { self.new.kernel.first ≡ self.old.kernel.first }
        ensures owed { owed self.new < owed self.old }
        ensures promised { promised self.new ≤ promised self.old + last_events result }
    {
        if self.kernel.job == Job::LeaveOut {
            self.finish(dev)?;
            return Ok(true);
        }
        self.begin_clean(dev);
        self.advance(dev)?;
        Ok(false)
    }

    /// Begins what leaves the file system clean, where nothing is being done.
    fn begin_clean<D: BlockDev>(&mut self, dev: &D)
        requires used { IsUsed (D.state dev.now) self.old }
        ensures at { (o : World) → IsAt o (D.state dev.now) self.old → IsAt o (D.state dev.now) self.new }
        ensures begun { self.new.kernel.job ≢ Idle }
        ensures out { self.old.kernel.job ≢ LeaveOut → self.new.kernel.job ≢ LeaveOut }
        ensures history { self.new.kernel.history ≡ self.old.kernel.history }
        ensures same { self.new ≡ record self.old { kernel = self.new.kernel } }
        ensures logging { self.new.kernel.logging ≡ self.old.kernel.logging }
        ensures first { self.new.kernel.first ≡ self.old.kernel.first }
        ensures owed { owed self.new ≤ owed self.old }
        ensures promised { promised self.new ≤ promised self.old }
    {
        if self.kernel.job == Job::Idle {
            self.want_clean(dev);
        }
    }

    /// Begins what leaves the file system clean.
    fn want_clean<D: BlockDev>(&mut self, _dev: &D)
        requires used { IsUsed (D.state _dev.now) self.old }
        requires job { self.old.kernel.job ≡ Idle }
        ensures at { (o : World) → IsAt o (D.state _dev.now) self.old → IsAt o (D.state _dev.now) self.new }
        ensures history { self.new.kernel.history ≡ self.old.kernel.history }
        ensures same { self.new ≡ record self.old { kernel = self.new.kernel } }
        ensures begun { self.new.kernel.job ≢ Idle }
        ensures out { self.new.kernel.job ≢ LeaveOut }
        ensures logging { self.new.kernel.logging ≡ self.old.kernel.logging }
        ensures first { self.new.kernel.first ≡ self.old.kernel.first }
        ensures owed { owed self.new ≤ owed self.old }
        ensures promised { promised self.new ≤ promised self.old }
    {
        // The proof rests on these laws; nothing runs here.
        fit_laws();
        self.kernel.want_clean();
    }

    /// Passes the last barrier of the unmount, and notes it.
    fn finish<D: BlockDev>(&mut self, dev: &mut D) -> Result<(), DevFault>
        requires used { IsUsed (D.state dev.old) self.old }
        requires enabled { self.old.disabled ≡ None }
        requires job { self.old.kernel.job ≡ LeaveOut }
        requires room { vec_len self.old.kernel.history < vec_capacity self.old.kernel.history }
        ensures at { (o : World) → IsAt o (D.state dev.old) self.old → IsOver o self.old.kernel → IsAt o (D.state dev.new) self.new }
        ensures history { OnOk result (LeavesOn true self.old.kernel self.new.kernel (D.state dev.new).count) }
        ensures enabled { OnOk result (self.new.disabled ≡ None) }
        ensures disabled { OnErr result (self.new.disabled ≡ Some (D.state dev.new).write_faults) }
        ensures still { OnErr result (self.new.kernel.history ≡ self.old.kernel.history) }
        ensures capacity { vec_capacity self.old.kernel.history ≤ vec_capacity self.new.kernel.history }
        ensures few { (D.state dev.new).count ≤ (D.state dev.old).count + 8 }
        ensures later { (D.state dev.old).count ≤ (D.state dev.new).count }
        ensures cause { HasCause (D.state dev.old).write_faults (D.state dev.new).write_faults result }
        ensures logging { self.new.kernel.logging ≡ self.old.kernel.logging }
        ensures first { self.new.kernel.first ≡ self.old.kernel.first }
        ensures owed { owed self.new ≡ 0 }
        ensures debt { debt self.new ≡ 0 }
    {
        match self.kernel.finish(dev) {
            Ok(()) => Ok(()),
            Err(fault) => {
                self.disabled = Some(dev.write_faults());
                Err(fault)
            }
        }
    }
}
