//! The log and the homes of a mount, one device stage a turn.
ghost use Rattle.std.specs.Prelude.{◌≡◌, ◌^◌, ◌<◌, ◌≤◌, ◌++◌, ◌∷◌, [], ◌+◌, length, true, All, OnOk, OnErr, vec_len, vec_capacity};
ghost use Rattle.vx_base.specs.Faults.{HasCause};
ghost use Rattle.vx_dev.specs.Tape.{IsInStep, State as Device};
ghost use Rattle.vx_stage.specs.Growths.{IsBusy, IsInUse, IsOver, MayDo, MayRefuse, MayAnswer, MayStop, called_state};
ghost use Rattle.vx_base.specs.declared.event.Event.TheVariants as event;
ghost use Rattle.vx_base.specs.declared.reply.Reply.TheVariants as say;
ghost use Rattle.vx_model.specs.Images.{IsBatch};
ghost use Rattle.vx_layout.specs.LogForms.{log_length};
ghost use Rattle.vx_log.specs.Logs.{closed, advanced, restarted};
ghost use Rattle.vx_stage.specs.Staged.{has_stage, homes_from, staged};
ghost use Rattle.vx_layout.specs.Supers.{IsSuper};
ghost use Rattle.vx_stage.specs.Leads.{Leads, AreYoung};
ghost use Rattle.vx_log.specs.Batches.{with_notes};
ghost use Rattle.vx_layout.specs.Supers.{volume_of};
ghost use Rattle.vx_model.specs.AllowedLaws.{IsQuiet};
ghost use Rattle.vx_model.specs.Contents.{parsed_of};
ghost use Rattle.vx_model.specs.Settled.{IsLeftSettled};
ghost use Rattle.vx_dev.specs.Moments.{Told, Always};
ghost use Rattle.vx_model.specs.Allowed.{IsAllowed};
ghost use Rattle.vx_model.specs.Legal.{World};
ghost use Rattle.vx_stage.specs.Kernels.{IsInside, IsFit, IsFitAlone, HasRun, IsLive, present};
ghost use Rattle.vx_stage.specs.declared.kernel.Job.TheVariants.{Idle, Body, BodyOut, Head, HeadOut, Homes as HomesJob, HomesOut, Tail, TailOut, Leave, LeaveOut, Left, Broken};

use crate::laws::kernel_laws;
use std::mem;
use vx_base::{Call, Event, Logging, Refusal, Reply};
use vx_dev::{BlockDev, DevFault};
use vx_home::Homes;
use vx_layout::Super;
use vx_log::{AfterImage, Batch, Log, note_laws};
use vx_model::waiting::waiting_laws;
use vx_wellformed::laws::well_formed_laws;

/// From this position on, the positions begin at 0 again when the log is emptied.
const RESTART: u64 = 1 << 61;

/// The sector of the superblock.
const SUPER_SECTOR: u64 = 0;

/// What the mount does on its device, one stage after another. `docs/LOG.md` ("In stages") has the order.
#[derive(Clone, Copy, Debug, PartialEq, Eq)]
pub enum Job {
    Idle,
    /// The log sectors of the closing batch are written.
    Body,
    /// They are, and a barrier is owed.
    BodyOut,
    /// The head sector with the new head is to be written.
    Head,
    /// It is, and a barrier is owed.
    HeadOut,
    /// The noted sectors are written home; so many are.
    Homes { put: u32 },
    /// All are, and a barrier is owed.
    HomesOut,
    /// The head sector with the tail at the head is to be written.
    Tail,
    /// It is, and a barrier is owed.
    TailOut,
    /// The superblock of a clean file system is to be written.
    Leave,
    /// It is, and a barrier is owed.
    LeaveOut,
    /// The file system is left.
    Left,
    /// A write or a barrier has failed.
    Broken,
}

/// What a mount keeps of its log, and the history of its calls. `docs/CRASHES.md` ("One stage a turn") says what is known of the device.
#[derive(Drop)]
pub struct Kernel {
    /// The superblock of the mounted file system.
    pub sizes: Super,
    pub logging: Logging,
    /// The operations done on the device when the history began.
    pub first: u64,
    pub log: Log,
    pub homes: Homes,
    /// What the calls since the last commit was asked for have changed.
    pub gathered: Batch,
    /// The room of the next open batch, where no batch is being written.
    pub ready: Option<Batch>,
    pub job: Job,
    /// How many events of the history a crash now leaves at least.
    pub committed: u64,
    /// How many the open batch stands on: those of the closing batch, where there is one.
    pub closing: u64,
    pub history: Vec<Event>,
}

impl Kernel {
    /// What a crash leaves, now or at any moment since the history began, is what the history allows.
    pub fn facts<D: BlockDev>(&self, _dev: &D)
        requires fit { IsFit (D.state _dev.now) self.now }
        ensures crash { (o : World) → HasRun o (D.state _dev.now) self.now → Told (D.state _dev.now) (IsLive o self.now)
            → Told (D.state _dev.now) (Always self.now.first (IsAllowed self.now.logging o self.now.history.items)) }
    {
        // The proof rests on these laws; nothing runs here.
        kernel_laws();
    }

    /// Begins to write home all that is noted, so that the log can be emptied. Where nothing is noted, the log's tail can move at once.
    pub fn empty(&mut self)
        requires job { self.old.job ≡ Idle }
        requires fit { IsFitAlone self.old }
        ensures fit { IsFitAlone self.new }
        ensures job { self.new.job ≡ homes_from self.old.homes }
        ensures run { (o : World) (d : Device) → HasRun o d self.old → HasRun o d self.new }
        ensures live { (o : World) (d : Device) → HasRun o d self.old → Told d (IsLive o self.old) → Told d (IsLive o self.new) }
        ensures same { self.new ≡ record self.old { job = homes_from self.old.homes } }
    {
        // The proof rests on these laws; nothing runs here.
        kernel_laws();
        self.job = if self.homes.len() == 0 {
            Job::Tail
        } else {
            Job::Homes { put: 0 }
        };
    }

    /// Does the next stage of the job: up to eight sectors, or a barrier. Nothing where there is none. `docs/LOG.md` ("In stages") says
    /// which job comes next.
    ///
    /// # Errors
    ///
    /// A write or a barrier failed. The job is `Broken` then, and no further stage does anything.
    pub fn stage<D: BlockDev>(&mut self, dev: &mut D) -> Result<(), DevFault>
        requires fit { IsFit (D.state dev.old) self.old }
        ensures fit { IsFit (D.state dev.new) self.new }
        ensures live { (o : World) → HasRun o (D.state dev.old) self.old → Told (D.state dev.old) (IsLive o self.old) → Told (D.state dev.new) (IsLive o self.new) }
        ensures run { (o : World) → HasRun o (D.state dev.old) self.old → HasRun o (D.state dev.new) self.new }
        ensures history { self.new.history ≡ self.old.history }
        ensures logging { self.new.logging ≡ self.old.logging }
        ensures first { self.new.first ≡ self.old.first }
        ensures done { OnOk result (self.new ≡ staged self.old self.old.job) }
        ensures broken { OnErr result (self.new.job ≡ Broken) }
        ensures few { (D.state dev.new).count ≤ (D.state dev.old).count + 8 }
        ensures later { (D.state dev.old).count ≤ (D.state dev.new).count }
        ensures size { (D.state dev.new).size ≡ (D.state dev.old).size }
        ensures works { OnOk result (has_stage self.old.job ≡ true → (D.state dev.old).count < (D.state dev.new).count) }
        ensures cause { HasCause (D.state dev.old).write_faults (D.state dev.new).write_faults result }
    {
        match self.job {
            Job::Body => self.put_body(dev),
            Job::BodyOut => self.pass_body(dev),
            Job::Head => self.open_gate(dev),
            Job::HeadOut => self.pass_head(dev),
            Job::Homes { put } => self.put_homes(dev, put),
            Job::HomesOut => self.pass_homes(dev),
            Job::Tail => {
                if self.log.head() < RESTART {
                    self.put_tail(dev)
                } else {
                    self.put_restart(dev)
                }
            }
            Job::TailOut => self.pass_tail(dev),
            Job::Leave => self.put_leave(dev),
            Job::Idle | Job::LeaveOut | Job::Left | Job::Broken => Ok(()),
        }
    }

    /// Writes up to eight log sectors of the closing batch.
    pub fn put_body<D: BlockDev>(&mut self, dev: &mut D) -> Result<(), DevFault>
        requires job { self.old.job ≡ Body }
        requires fit { IsFit (D.state dev.old) self.old }
        ensures fit { IsFit (D.state dev.new) self.new }
        ensures live { (o : World) → HasRun o (D.state dev.old) self.old → Told (D.state dev.old) (IsLive o self.old) → Told (D.state dev.new) (IsLive o self.new) }
        ensures run { (o : World) → HasRun o (D.state dev.old) self.old → HasRun o (D.state dev.new) self.new }
        ensures same { self.new ≡ record self.old { log = self.new.log; job = self.new.job } }
        ensures done { OnOk result (self.new ≡ staged self.old Body) }
        ensures broken { OnErr result (self.new.job ≡ Broken) }
        ensures few { (D.state dev.new).count ≤ (D.state dev.old).count + 8 }
        ensures later { (D.state dev.old).count ≤ (D.state dev.new).count }
        ensures size { (D.state dev.new).size ≡ (D.state dev.old).size }
        ensures works { OnOk result ((D.state dev.old).count < (D.state dev.new).count) }
        ensures cause { HasCause (D.state dev.old).write_faults (D.state dev.new).write_faults result }
    {
        // The proof rests on these laws; nothing runs here.
        kernel_laws();
        // The proof wants to know what every log is.
        let _head = self.log.head();
        self.job = Job::Broken;
        let out = self.log.put_next(dev)?;
        self.job = if out { Job::BodyOut } else { Job::Body };
        Ok(())
    }

    /// Passes the barrier behind the closing batch's log sectors.
    pub fn pass_body<D: BlockDev>(&mut self, dev: &mut D) -> Result<(), DevFault>
        requires job { self.old.job ≡ BodyOut }
        requires fit { IsFit (D.state dev.old) self.old }
        ensures fit { IsFit (D.state dev.new) self.new }
        ensures live { (o : World) → HasRun o (D.state dev.old) self.old → Told (D.state dev.old) (IsLive o self.old) → Told (D.state dev.new) (IsLive o self.new) }
        ensures run { (o : World) → HasRun o (D.state dev.old) self.old → HasRun o (D.state dev.new) self.new }
        ensures same { self.new ≡ record self.old { job = self.new.job } }
        ensures done { OnOk result (self.new ≡ staged self.old BodyOut) }
        ensures broken { OnErr result (self.new.job ≡ Broken) }
        ensures few { (D.state dev.new).count ≤ (D.state dev.old).count + 8 }
        ensures later { (D.state dev.old).count ≤ (D.state dev.new).count }
        ensures size { (D.state dev.new).size ≡ (D.state dev.old).size }
        ensures works { OnOk result ((D.state dev.old).count < (D.state dev.new).count) }
        ensures cause { HasCause (D.state dev.old).write_faults (D.state dev.new).write_faults result }
    {
        // The proof rests on these laws; nothing runs here.
        kernel_laws();
        // The proof wants to know what every log is.
        let _head = self.log.head();
        self.job = Job::Broken;
        dev.barrier()?;
        self.job = Job::Head;
        Ok(())
    }

    /// Writes the head sector with the closing batch, whose sectors are noted.
    pub fn open_gate<D: BlockDev>(&mut self, dev: &mut D) -> Result<(), DevFault>
        requires job { self.old.job ≡ Head }
        requires fit { IsFit (D.state dev.old) self.old }
        ensures fit { IsFit (D.state dev.new) self.new }
        ensures live { (o : World) → HasRun o (D.state dev.old) self.old → Told (D.state dev.old) (IsLive o self.old) → Told (D.state dev.new) (IsLive o self.new) }
        ensures run { (o : World) → HasRun o (D.state dev.old) self.old → HasRun o (D.state dev.new) self.new }
        ensures same { self.new ≡ record self.old { log = self.new.log; homes = self.new.homes; ready = self.new.ready; job = self.new.job } }
        ensures done { OnOk result (self.new ≡ staged self.old Head) }
        ensures broken { OnErr result (self.new.job ≡ Broken) }
        ensures few { (D.state dev.new).count ≤ (D.state dev.old).count + 8 }
        ensures later { (D.state dev.old).count ≤ (D.state dev.new).count }
        ensures size { (D.state dev.new).size ≡ (D.state dev.old).size }
        ensures works { OnOk result ((D.state dev.old).count < (D.state dev.new).count) }
        ensures cause { HasCause (D.state dev.old).write_faults (D.state dev.new).write_faults result }
    {
        // The proof rests on these laws; nothing runs here.
        kernel_laws();
        note_laws();
        let _head = self.log.head();
        self.job = Job::Broken;
        let Some(batch) = self.log.closing() else {
            unreachable!()
        };
        self.homes.note_all(batch.entries());
        self.log.open_gate(dev)?;
        self.ready = self.log.take_back();
        self.job = Job::HeadOut;
        Ok(())
    }

    /// Passes the barrier behind the head sector: the closing state is the committed one.
    pub fn pass_head<D: BlockDev>(&mut self, dev: &mut D) -> Result<(), DevFault>
        requires job { self.old.job ≡ HeadOut }
        requires fit { IsFit (D.state dev.old) self.old }
        ensures fit { IsFit (D.state dev.new) self.new }
        ensures live { (o : World) → HasRun o (D.state dev.old) self.old → Told (D.state dev.old) (IsLive o self.old) → Told (D.state dev.new) (IsLive o self.new) }
        ensures run { (o : World) → HasRun o (D.state dev.old) self.old → HasRun o (D.state dev.new) self.new }
        ensures same { OnOk result (self.new ≡ record self.old { job = Idle; committed = self.old.closing }) }
        ensures done { OnOk result (self.new ≡ staged self.old HeadOut) }
        ensures broken { OnErr result (self.new ≡ record self.old { job = Broken }) }
        ensures few { (D.state dev.new).count ≤ (D.state dev.old).count + 8 }
        ensures later { (D.state dev.old).count ≤ (D.state dev.new).count }
        ensures size { (D.state dev.new).size ≡ (D.state dev.old).size }
        ensures works { OnOk result ((D.state dev.old).count < (D.state dev.new).count) }
        ensures cause { HasCause (D.state dev.old).write_faults (D.state dev.new).write_faults result }
    {
        // The proof rests on these laws; nothing runs here.
        kernel_laws();
        self.job = Job::Broken;
        dev.barrier()?;
        self.job = Job::Idle;
        self.committed = self.closing;
        Ok(())
    }

    /// Writes up to eight noted sectors home.
    pub fn put_homes<D: BlockDev>(&mut self, dev: &mut D, put: u32) -> Result<(), DevFault>
        requires job { self.old.job ≡ HomesJob put }
        requires fit { IsFit (D.state dev.old) self.old }
        ensures fit { IsFit (D.state dev.new) self.new }
        ensures live { (o : World) → HasRun o (D.state dev.old) self.old → Told (D.state dev.old) (IsLive o self.old) → Told (D.state dev.new) (IsLive o self.new) }
        ensures run { (o : World) → HasRun o (D.state dev.old) self.old → HasRun o (D.state dev.new) self.new }
        ensures same { self.new ≡ record self.old { job = self.new.job } }
        ensures done { OnOk result (self.new ≡ staged self.old (HomesJob put)) }
        ensures broken { OnErr result (self.new.job ≡ Broken) }
        ensures few { (D.state dev.new).count ≤ (D.state dev.old).count + 8 }
        ensures later { (D.state dev.old).count ≤ (D.state dev.new).count }
        ensures size { (D.state dev.new).size ≡ (D.state dev.old).size }
        ensures works { OnOk result ((D.state dev.old).count < (D.state dev.new).count) }
        ensures cause { HasCause (D.state dev.old).write_faults (D.state dev.new).write_faults result }
    {
        // The proof rests on these laws; nothing runs here.
        kernel_laws();
        self.job = Job::Broken;
        let end = self.homes.put_some(dev, put)?;
        self.job = if end == self.homes.len() {
            Job::HomesOut
        } else {
            Job::Homes { put: end }
        };
        Ok(())
    }

    /// Passes the barrier behind the homes.
    pub fn pass_homes<D: BlockDev>(&mut self, dev: &mut D) -> Result<(), DevFault>
        requires job { self.old.job ≡ HomesOut }
        requires fit { IsFit (D.state dev.old) self.old }
        ensures fit { IsFit (D.state dev.new) self.new }
        ensures live { (o : World) → HasRun o (D.state dev.old) self.old → Told (D.state dev.old) (IsLive o self.old) → Told (D.state dev.new) (IsLive o self.new) }
        ensures run { (o : World) → HasRun o (D.state dev.old) self.old → HasRun o (D.state dev.new) self.new }
        ensures same { self.new ≡ record self.old { job = self.new.job } }
        ensures done { OnOk result (self.new ≡ staged self.old HomesOut) }
        ensures broken { OnErr result (self.new.job ≡ Broken) }
        ensures few { (D.state dev.new).count ≤ (D.state dev.old).count + 8 }
        ensures later { (D.state dev.old).count ≤ (D.state dev.new).count }
        ensures size { (D.state dev.new).size ≡ (D.state dev.old).size }
        ensures works { OnOk result ((D.state dev.old).count < (D.state dev.new).count) }
        ensures cause { HasCause (D.state dev.old).write_faults (D.state dev.new).write_faults result }
    {
        // The proof rests on these laws; nothing runs here.
        kernel_laws();
        self.job = Job::Broken;
        dev.barrier()?;
        self.job = Job::Tail;
        Ok(())
    }

    /// Writes the head sector with the tail at the head; all that is noted is home.
    pub fn put_tail<D: BlockDev>(&mut self, dev: &mut D) -> Result<(), DevFault>
        requires job { self.old.job ≡ Tail }
        requires fit { IsFit (D.state dev.old) self.old }
        ensures fit { IsFit (D.state dev.new) self.new }
        ensures live { (o : World) → HasRun o (D.state dev.old) self.old → Told (D.state dev.old) (IsLive o self.old) → Told (D.state dev.new) (IsLive o self.new) }
        ensures run { (o : World) → HasRun o (D.state dev.old) self.old → HasRun o (D.state dev.new) self.new }
        ensures same { self.new ≡ record self.old { log = self.new.log; homes = self.new.homes; job = self.new.job } }
        ensures done { OnOk result (self.new ≡ record self.old { log = advanced self.old.log self.old.log.head; homes = []; job = TailOut }) }
        ensures broken { OnErr result (self.new.job ≡ Broken) }
        ensures few { (D.state dev.new).count ≤ (D.state dev.old).count + 8 }
        ensures later { (D.state dev.old).count ≤ (D.state dev.new).count }
        ensures size { (D.state dev.new).size ≡ (D.state dev.old).size }
        ensures works { OnOk result ((D.state dev.old).count < (D.state dev.new).count) }
        ensures cause { HasCause (D.state dev.old).write_faults (D.state dev.new).write_faults result }
    {
        // The proof rests on these laws; nothing runs here.
        kernel_laws();
        self.job = Job::Broken;
        let head = self.log.head();
        self.log.advance_tail(dev, head)?;
        self.homes.clear();
        self.job = Job::TailOut;
        Ok(())
    }

    /// Writes the head sector with both positions at 0, as `docs/LOG.md` ("In stages") asks from position 2^61 on; all that is noted is
    /// home.
    pub fn put_restart<D: BlockDev>(&mut self, dev: &mut D) -> Result<(), DevFault>
        requires job { self.old.job ≡ Tail }
        requires fit { IsFit (D.state dev.old) self.old }
        ensures fit { IsFit (D.state dev.new) self.new }
        ensures live { (o : World) → HasRun o (D.state dev.old) self.old → Told (D.state dev.old) (IsLive o self.old) → Told (D.state dev.new) (IsLive o self.new) }
        ensures run { (o : World) → HasRun o (D.state dev.old) self.old → HasRun o (D.state dev.new) self.new }
        ensures same { self.new ≡ record self.old { log = self.new.log; homes = self.new.homes; job = self.new.job } }
        ensures done { OnOk result (self.new ≡ record self.old { log = restarted self.old.log; homes = []; job = TailOut }) }
        ensures broken { OnErr result (self.new.job ≡ Broken) }
        ensures few { (D.state dev.new).count ≤ (D.state dev.old).count + 8 }
        ensures later { (D.state dev.old).count ≤ (D.state dev.new).count }
        ensures size { (D.state dev.new).size ≡ (D.state dev.old).size }
        ensures works { OnOk result ((D.state dev.old).count < (D.state dev.new).count) }
        ensures cause { HasCause (D.state dev.old).write_faults (D.state dev.new).write_faults result }
    {
        // The proof rests on these laws; nothing runs here.
        kernel_laws();
        self.job = Job::Broken;
        self.log.restart(dev)?;
        self.homes.clear();
        self.job = Job::TailOut;
        Ok(())
    }

    /// Passes the barrier behind the tail: the log is empty.
    pub fn pass_tail<D: BlockDev>(&mut self, dev: &mut D) -> Result<(), DevFault>
        requires job { self.old.job ≡ TailOut }
        requires fit { IsFit (D.state dev.old) self.old }
        ensures fit { IsFit (D.state dev.new) self.new }
        ensures live { (o : World) → HasRun o (D.state dev.old) self.old → Told (D.state dev.old) (IsLive o self.old) → Told (D.state dev.new) (IsLive o self.new) }
        ensures run { (o : World) → HasRun o (D.state dev.old) self.old → HasRun o (D.state dev.new) self.new }
        ensures same { self.new ≡ record self.old { job = self.new.job } }
        ensures done { OnOk result (self.new ≡ staged self.old TailOut) }
        ensures broken { OnErr result (self.new.job ≡ Broken) }
        ensures few { (D.state dev.new).count ≤ (D.state dev.old).count + 8 }
        ensures later { (D.state dev.old).count ≤ (D.state dev.new).count }
        ensures size { (D.state dev.new).size ≡ (D.state dev.old).size }
        ensures works { OnOk result ((D.state dev.old).count < (D.state dev.new).count) }
        ensures cause { HasCause (D.state dev.old).write_faults (D.state dev.new).write_faults result }
    {
        // The proof rests on these laws; nothing runs here.
        kernel_laws();
        self.job = Job::Broken;
        dev.barrier()?;
        self.job = Job::Idle;
        Ok(())
    }

    /// Begins to leave the file system: the log is empty, and all that has come is committed.
    pub fn leave(&mut self)
        requires job { self.old.job ≡ Idle }
        requires fit { IsFitAlone self.old }
        requires all { self.old.committed ≡ length self.old.history.items }
        requires none { self.old.gathered ≡ [] }
        requires home { self.old.homes ≡ [] }
        requires empty { self.old.log.tail ≡ self.old.log.head }
        ensures fit { IsFitAlone self.new }
        ensures run { (o : World) (d : Device) → HasRun o d self.old → HasRun o d self.new }
        ensures live { (o : World) (d : Device) → HasRun o d self.old → Told d (IsLive o self.old) → Told d (IsLive o self.new) }
        ensures same { self.new ≡ record self.old { job = Leave } }
    {
        // The proof rests on these laws; nothing runs here.
        kernel_laws();
        self.job = Job::Leave;
    }

    /// Writes the superblock of a clean file system.
    pub fn put_leave<D: BlockDev>(&mut self, dev: &mut D) -> Result<(), DevFault>
        requires job { self.old.job ≡ Leave }
        requires fit { IsFit (D.state dev.old) self.old }
        ensures fit { IsFit (D.state dev.new) self.new }
        ensures live { (o : World) → HasRun o (D.state dev.old) self.old → Told (D.state dev.old) (IsLive o self.old) → Told (D.state dev.new) (IsLive o self.new) }
        ensures run { (o : World) → HasRun o (D.state dev.old) self.old → HasRun o (D.state dev.new) self.new }
        ensures same { self.new ≡ record self.old { job = self.new.job } }
        ensures done { OnOk result (self.new ≡ staged self.old Leave) }
        ensures broken { OnErr result (self.new.job ≡ Broken) }
        ensures few { (D.state dev.new).count ≤ (D.state dev.old).count + 8 }
        ensures later { (D.state dev.old).count ≤ (D.state dev.new).count }
        ensures size { (D.state dev.new).size ≡ (D.state dev.old).size }
        ensures works { OnOk result ((D.state dev.old).count < (D.state dev.new).count) }
        ensures cause { HasCause (D.state dev.old).write_faults (D.state dev.new).write_faults result }
    {
        // The proof rests on these laws; nothing runs here.
        kernel_laws();
        self.job = Job::Broken;
        let superblock = Super {
            log_blocks: self.sizes.log_blocks,
            units: self.sizes.units,
            clean: true,
        };
        dev.write(SUPER_SECTOR, &superblock.write())?;
        self.job = Job::LeaveOut;
        Ok(())
    }

    /// Passes the barrier behind that superblock, and notes that the file system is unmounted. A crash then leaves one image, which is
    /// clean and reads as the final tree with what is settled of its files.
    pub fn finish<D: BlockDev>(&mut self, dev: &mut D) -> Result<(), DevFault>
        requires job { self.old.job ≡ LeaveOut }
        requires fit { IsFit (D.state dev.old) self.old }
        requires room { vec_len self.old.history < vec_capacity self.old.history }
        ensures fit { IsFit (D.state dev.new) self.new }
        ensures run { (o : World) → HasRun o (D.state dev.old) self.old → IsOver o self.old → HasRun o (D.state dev.new) self.new }
        ensures live { (o : World) → HasRun o (D.state dev.old) self.old → IsOver o self.old → Told (D.state dev.old) (IsLive o self.old) → Told (D.state dev.new) (IsLive o self.new) }
        ensures left { OnOk result ((o : World) → HasRun o (D.state dev.old) self.old → IsOver o self.old → Told (D.state dev.old) (IsLive o self.old) → Told (D.state dev.new) (IsLeftSettled (present o self.old))) }
        ensures items { OnOk result (self.new.history.items ≡ self.old.history.items ++ event.Unmounted (D.state dev.new).count ∷ []) }
        ensures job { OnOk result (self.new.job ≡ Left) }
        ensures logging { self.new.logging ≡ self.old.logging }
        ensures first { self.new.first ≡ self.old.first }
        ensures broken { OnErr result (self.new ≡ record self.old { job = Broken }) }
        ensures few { (D.state dev.new).count ≤ (D.state dev.old).count + 8 }
        ensures later { (D.state dev.old).count ≤ (D.state dev.new).count }
        ensures size { (D.state dev.new).size ≡ (D.state dev.old).size }
        ensures works { OnOk result ((D.state dev.old).count < (D.state dev.new).count) }
        ensures cause { HasCause (D.state dev.old).write_faults (D.state dev.new).write_faults result }
        ensures capacity { vec_capacity self.old.history ≤ vec_capacity self.new.history }
    {
        // The proof rests on these laws; nothing runs here.
        kernel_laws();
        self.job = Job::Broken;
        dev.barrier()?;
        let at = dev.ops();
        self.history.push_reserved(Event::Unmounted { at });
        self.committed = self.history.len() as u64;
        self.closing = self.committed;
        self.job = Job::Left;
        Ok(())
    }

    /// Begins to write the batch that calls have joined. Calls join the next one from now on.
    pub fn close(&mut self)
        requires job { self.old.job ≡ Idle }
        requires fit { IsFitAlone self.old }
        requires some { 0 < length self.old.gathered }
        requires room { self.old.log.head + log_length (length self.old.gathered) ≤ self.old.log.tail + self.old.log.sectors }
        requires limit { self.old.log.head + log_length (length self.old.gathered) ≤ 2 ^ 62 }
        ensures fit { IsFitAlone self.new }
        ensures log { self.new.log ≡ closed self.old.log self.old.gathered }
        ensures gathered { self.new.gathered ≡ [] }
        ensures job { self.new.job ≡ Body }
        ensures closing { self.new.closing ≡ length self.old.history.items }
        ensures run { (o : World) (d : Device) → HasRun o d self.old → HasRun o d self.new }
        ensures live { (o : World) (d : Device) → HasRun o d self.old → Told d (IsLive o self.old) → Told d (IsLive o self.new) }
        ensures same { self.new ≡ record self.old { log = self.new.log; gathered = []; ready = self.new.ready; job = Body; closing = self.new.closing } }
    {
        let empty = match self.ready.take() {
            Some(batch) => batch,
            None => unreachable!(),
        };
        let batch = mem::replace(&mut self.gathered, empty);
        self.log.close_batch(batch);
        self.closing = self.history.len() as u64;
        self.job = Job::Body;
    }

    /// Nothing is open, so all that has come is committed.
    pub fn raise(&mut self)
        requires job { self.old.job ≡ Idle }
        requires fit { IsFitAlone self.old }
        requires none { self.old.gathered ≡ [] }
        ensures fit { IsFitAlone self.new }
        ensures committed { self.new.committed ≡ length self.old.history.items }
        ensures run { (o : World) (d : Device) → HasRun o d self.old → HasRun o d self.new }
        ensures live { (o : World) (d : Device) → HasRun o d self.old → Told d (IsLive o self.old) → Told d (IsLive o self.new) }
        ensures same { self.new ≡ record self.old { committed = self.new.committed; closing = self.new.committed } }
    {
        // The proof rests on these laws; nothing runs here.
        kernel_laws();
        self.committed = self.history.len() as u64;
        self.closing = self.committed;
    }

    /// Answers the call that stands at this place of the history: with success only once all that it makes durable is committed
    /// (`docs/CRASHES.md`, "One stage a turn").
    pub fn ret<D: BlockDev>(&mut self, dev: &D, place: u64, answer: Reply)
        requires fit { IsFit (D.state dev.now) self.old }
        requires free { IsBusy self.old.job → ⊥ }
        requires room { vec_len self.old.history < vec_capacity self.old.history }
        ensures fit { IsFit (D.state dev.now) self.new }
        ensures items { self.new.history.items ≡ self.old.history.items ++ event.Ret (D.state dev.now).count place answer ∷ [] }
        ensures run { (o : World) → HasRun o (D.state dev.now) self.old → MayAnswer o self.old place answer → HasRun o (D.state dev.now) self.new }
        ensures live { (o : World) → HasRun o (D.state dev.now) self.old → MayAnswer o self.old place answer → Told (D.state dev.now) (IsLive o self.old) → Told (D.state dev.now) (IsLive o self.new) }
        ensures same { self.new ≡ record self.old { history = self.new.history } }
        ensures capacity { vec_capacity self.old.history ≤ vec_capacity self.new.history }
    {
        let at = dev.ops();
        self.history.push_reserved(Event::Ret { at, place, answer });
    }

    /// Notes that the run was stopped, behind the answer of a Stop.
    pub fn stopped<D: BlockDev>(&mut self, dev: &D)
        requires fit { IsFit (D.state dev.now) self.old }
        requires free { IsBusy self.old.job → ⊥ }
        requires room { vec_len self.old.history < vec_capacity self.old.history }
        ensures fit { IsFit (D.state dev.now) self.new }
        ensures items { self.new.history.items ≡ self.old.history.items ++ event.Stopped (D.state dev.now).count ∷ [] }
        ensures run { (o : World) → HasRun o (D.state dev.now) self.old → MayStop o self.old → HasRun o (D.state dev.now) self.new }
        ensures live { (o : World) → HasRun o (D.state dev.now) self.old → MayStop o self.old → Told (D.state dev.now) (IsLive o self.old) → Told (D.state dev.now) (IsLive o self.new) }
        ensures same { self.new ≡ record self.old { history = self.new.history } }
        ensures capacity { vec_capacity self.old.history ≤ vec_capacity self.new.history }
    {
        let at = dev.ops();
        self.history.push_reserved(Event::Stopped { at });
    }

    /// Notes a call that is refused for a fault of the device or for want of memory.
    pub fn refuse<D: BlockDev>(&mut self, dev: &D, session: u8, line: u32, call: Call, why: Refusal)
        requires fit { IsFit (D.state dev.now) self.old }
        requires free { IsBusy self.old.job → ⊥ }
        requires room { vec_len self.old.history < vec_capacity self.old.history }
        ensures fit { IsFit (D.state dev.now) self.new }
        ensures items { self.new.history.items ≡ self.old.history.items ++ event.Do (D.state dev.now).count session line call (say.Refused why) ∷ [] }
        ensures run { (o : World) → HasRun o (D.state dev.now) self.old → MayRefuse o self.old session line call why → HasRun o (D.state dev.now) self.new }
        ensures live { (o : World) → HasRun o (D.state dev.now) self.old → MayRefuse o self.old session line call why → Told (D.state dev.now) (IsLive o self.old) → Told (D.state dev.now) (IsLive o self.new) }
        ensures same { self.new ≡ record self.old { history = self.new.history } }
        ensures capacity { vec_capacity self.old.history ≤ vec_capacity self.new.history }
    {
        // The proof rests on these laws; nothing runs here.
        waiting_laws();
        well_formed_laws();
        let at = dev.ops();
        self.history.push_reserved(Event::Do {
            at,
            session,
            line,
            call,
            reply: Reply::Refused(why),
        });
    }

    /// Frees the blocks that were given up before the committed state, once the log is empty, and notes it (`docs/CRASHES.md`, "Blocks
    /// that wait").
    pub fn release<D: BlockDev>(&mut self, dev: &D)
        requires fit { IsFit (D.state dev.now) self.old }
        requires job { self.old.job ≡ Idle }
        requires empty { self.old.homes ≡ [] }
        requires room { vec_len self.old.history < vec_capacity self.old.history }
        ensures fit { IsFit (D.state dev.now) self.new }
        ensures items { self.new.history.items ≡ self.old.history.items ++ event.Release (D.state dev.now).count self.old.committed ∷ [] }
        ensures run { (o : World) → HasRun o (D.state dev.now) self.old → IsInUse o self.old → HasRun o (D.state dev.now) self.new }
        ensures live { (o : World) → HasRun o (D.state dev.now) self.old → IsInUse o self.old → Told (D.state dev.now) (IsLive o self.old) → Told (D.state dev.now) (IsLive o self.new) }
        ensures same { self.new ≡ record self.old { history = self.new.history } }
        ensures capacity { vec_capacity self.old.history ≤ vec_capacity self.new.history }
    {
        // The proof rests on these laws; nothing runs here.
        kernel_laws();
        well_formed_laws();
        let at = dev.ops();
        let upto = self.committed;
        self.history.push_reserved(Event::Release { at, upto });
    }

    /// Notes a call that was done in memory, and puts the sectors that it changes into the batch that calls join. Nothing is done on
    /// the device.
    pub fn act<D: BlockDev>(
        &mut self,
        dev: &D,
        session: u8,
        line: u32,
        call: Call,
        reply: Reply,
        transaction: &Batch,
    )
        requires fit { IsFit (D.state dev.now) self.old }
        requires free { IsBusy self.old.job → ⊥ }
        requires room { vec_len self.old.history < vec_capacity self.old.history }
        requires fits { length self.old.gathered + length transaction.now ≤ 400 }
        requires inside { All (IsInside self.old.sizes) transaction.now }
        ensures fit { IsFit (D.state dev.now) self.new }
        ensures items { self.new.history.items ≡ self.old.history.items ++ event.Do (D.state dev.now).count session line call reply ∷ [] }
        ensures gathered { self.new.gathered ≡ with_notes self.old.gathered transaction.now }
        ensures run { (o : World) → HasRun o (D.state dev.now) self.old → MayDo o self.old session line call reply → HasRun o (D.state dev.now) self.new }
        ensures live { (o : World) → HasRun o (D.state dev.now) self.old → MayDo o self.old session line call reply
            → IsBatch (volume_of self.old.sizes) (parsed_of (present o self.old)) (parsed_of (called_state o self.old session call reply)) transaction.now
            → Told (D.state dev.now) (IsLive o self.old) → Told (D.state dev.now) (IsLive o self.new) }
        ensures same { self.new ≡ record self.old { gathered = self.new.gathered; history = self.new.history } }
        ensures capacity { vec_capacity self.old.history ≤ vec_capacity self.new.history }
    {
        // The proof rests on these laws, and on what every batch is.
        kernel_laws();
        waiting_laws();
        well_formed_laws();
        let _count = transaction.len();
        join(&mut self.gathered, transaction.entries());
        let at = dev.ops();
        self.history.push_reserved(Event::Do {
            at,
            session,
            line,
            call,
            reply,
        });
    }
}

/// Puts one after-image after another.
fn join(batch: &mut Batch, transaction: &[AfterImage])
    requires { length batch.old + length transaction.now ≤ 400 }
    ensures { batch.new ≡ with_notes batch.old transaction.now }
{
    // The proof rests on this law; nothing runs here.
    note_laws();
    for entry in transaction {
        batch.set(entry.0, &entry.1);
    }
}
