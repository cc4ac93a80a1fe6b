//! What a wish to commit, or for room in the log, begins.
ghost use Rattle.std.specs.Prelude.{◌≡◌, ◌⊎◌, ◌<◌, ◌≤◌, ◌+◌, ◌-◌, ◌^◌, [], length, IsTrue, true, false, nat_le};
ghost use Rattle.vx_dev.specs.Tape.{State as Device};
ghost use Rattle.vx_layout.specs.LogForms.{log_length};
ghost use Rattle.vx_dev.specs.Moments.{Told};
ghost use Rattle.vx_model.specs.Legal.{World};
ghost use Rattle.vx_stage.specs.Kernels.{IsFitAlone, HasRun, IsLive};
ghost use Rattle.vx_stage.specs.Staged.{homes_from, raised, BeginsCommit, BeginsRelease, BeginsClean};
ghost use Rattle.vx_stage.specs.declared.kernel.Job.TheVariants.{Idle, Body, Leave};

use crate::kernel::Kernel;
use vx_log::log_length;

/// No position passes this one.
const LAST: u64 = 1 << 62;

/// With more sectors than these the open batch may have no room for another transaction.
const MOST_OPEN: u32 = 144;

impl Kernel {
    /// The open batch has room for any transaction: else the call that is to join it commits first (`docs/LOG.md`, "In stages").
    pub fn has_place(&self) -> bool
        ensures { result ≡ nat_le (length self.now.gathered) 144 }
    {
        self.gathered.len() <= MOST_OPEN
    }

    /// Begins what commits all that has come: answers whether it is committed, where nothing is open. Else the open batch is closed, or
    /// the log is emptied first, where it has no room for the batch or its positions run out.
    pub fn want_commit(&mut self) -> bool
        requires job { self.old.job ≡ Idle }
        requires fit { IsFitAlone self.old }
        ensures fit { IsFitAlone self.new }
        ensures committed { result ≡ true → (self.new.job ≡ Idle) × (self.new.committed ≡ length self.old.history.items) }
        ensures all { self.old.gathered ≡ [] → result ≡ true }
        ensures none { result ≡ true → self.old.gathered ≡ [] }
        ensures same { result ≡ true → self.new ≡ record self.old { committed = self.new.committed; closing = self.new.committed } }
        ensures begun { result ≡ false → (self.new.job ≡ Body) ⊎ (self.new.job ≡ homes_from self.old.homes) }
        ensures begins { result ≡ false → BeginsCommit self.old self.new }
        ensures closes { 0 < length self.old.gathered → self.old.log.tail ≡ self.old.log.head → self.old.log.head ≤ 2 ^ 61 → self.new.job ≡ Body }
        ensures history { self.new.history ≡ self.old.history }
        ensures sizes { self.new.sizes ≡ self.old.sizes }
        ensures run { (o : World) (d : Device) → HasRun o d self.old → HasRun o d self.new }
        ensures live { (o : World) (d : Device) → HasRun o d self.old → Told d (IsLive o self.old) → Told d (IsLive o self.new) }
    {
        let count = self.gathered.len();
        if count == 0 {
            self.raise();
            return true;
        }
        let length = log_length(count);
        if self.log.room() < length || self.log.head() > LAST - u64::from(length) {
            self.empty();
        } else {
            self.close();
        }
        false
    }

    /// Answers whether the log has room for so many sectors, and begins to empty it where it has not.
    pub fn want_room(&mut self, sectors: u32) -> bool
        requires job { self.old.job ≡ Idle }
        requires fit { IsFitAlone self.old }
        ensures fit { IsFitAlone self.new }
        ensures room { result ≡ nat_le sectors (self.old.log.sectors - (self.old.log.head - self.old.log.tail)) }
        ensures same { result ≡ true → self.new ≡ self.old }
        ensures begun { result ≡ false → self.new ≡ record self.old { job = homes_from self.old.homes } }
        ensures run { (o : World) (d : Device) → HasRun o d self.old → HasRun o d self.new }
        ensures live { (o : World) (d : Device) → HasRun o d self.old → Told d (IsLive o self.old) → Told d (IsLive o self.new) }
    {
        if sectors <= self.log.room() {
            return true;
        }
        self.empty();
        false
    }

    /// Begins what has to come before blocks that wait are released: all that has come is committed, and then the log is emptied. Answers
    /// whether nothing has to.
    pub fn want_release(&mut self) -> bool
        requires job { self.old.job ≡ Idle }
        requires fit { IsFitAlone self.old }
        ensures fit { IsFitAlone self.new }
        ensures ready { result ≡ true → (self.new.job ≡ Idle) × (self.new.homes ≡ []) × (self.new.committed ≡ length self.old.history.items) }
        ensures same { result ≡ true → self.new ≡ raised self.old }
        ensures begun { result ≡ false → (self.new.job ≡ Body) ⊎ (self.new.job ≡ homes_from self.old.homes) }
        ensures begins { result ≡ false → BeginsRelease self.old self.new }
        ensures closes { 0 < length self.old.gathered → self.old.log.tail ≡ self.old.log.head → self.old.log.head ≤ 2 ^ 61 → self.new.job ≡ Body }
        ensures history { self.new.history ≡ self.old.history }
        ensures sizes { self.new.sizes ≡ self.old.sizes }
        ensures run { (o : World) (d : Device) → HasRun o d self.old → HasRun o d self.new }
        ensures live { (o : World) (d : Device) → HasRun o d self.old → Told d (IsLive o self.old) → Told d (IsLive o self.new) }
    {
        if !self.want_commit() {
            return false;
        }
        if self.homes.len() == 0 {
            return true;
        }
        self.empty();
        false
    }

    /// Begins what leaves the file system clean: all that has come is committed, then the log is emptied, and at last the superblock is
    /// written.
    pub fn want_clean(&mut self)
        requires job { self.old.job ≡ Idle }
        requires fit { IsFitAlone self.old }
        ensures fit { IsFitAlone self.new }
        ensures begun { (self.new.job ≡ Body) ⊎ ((self.new.job ≡ homes_from self.old.homes) ⊎ (self.new.job ≡ Leave)) }
        ensures begins { BeginsClean self.old self.new }
        ensures closes { 0 < length self.old.gathered → self.old.log.tail ≡ self.old.log.head → self.old.log.head ≤ 2 ^ 61 → self.new.job ≡ Body }
        ensures leaves { self.old.gathered ≡ [] → self.old.log.tail ≡ self.old.log.head → self.new.job ≡ Leave }
        ensures history { self.new.history ≡ self.old.history }
        ensures sizes { self.new.sizes ≡ self.old.sizes }
        ensures run { (o : World) (d : Device) → HasRun o d self.old → HasRun o d self.new }
        ensures live { (o : World) (d : Device) → HasRun o d self.old → Told d (IsLive o self.old) → Told d (IsLive o self.new) }
    {
        if !self.want_commit() {
            return;
        }
        if self.log.tail() != self.log.head() {
            self.empty();
            return;
        }
        self.leave();
    }
}
