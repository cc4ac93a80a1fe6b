//! What a core asks of its mount.
use std::alloc::Global;
use vx_base::{Event, LineLists, Reply};
use vx_dev::DevFault;

/// What a turn that begins a call comes to.
pub enum Performed {
    /// A stage of the device came first, that makes room for the call.
    Again,
    /// The call stands at this place of the history. Its answer is this, where nothing fails, and it has to be committed first or not.
    Done {
        place: u64,
        answer: Reply,
        commits: bool,
    },
}

/// A mount with its device, which does calls and keeps their history. Each method does at most one stage of the device.
pub trait Calls {
    ghost use Rattle.std.specs.Prelude.{◌≡◌, ◌<◌, ◌≤◌, ◌+◌, ◌++◌, ◌∷◌, [], true, false, None, Some, IfOk, OnOk, OnErr, length, Bool, ℕ};
    ghost use Rattle.vx_base.specs.declared.call.Call.{Call};
    ghost use Rattle.vx_base.specs.declared.event.Event.TheVariants as event;
    ghost use Rattle.vx_base.specs.Lines.{line_after};
    ghost use Rattle.vx_model.specs.Legal.{World};
    ghost use Rattle.vx_core.specs.Tracks.{last_event};
    ghost use Rattle.vx_mount.specs.Cores.{is_end};
    ghost use Rattle.vx_mount.specs.GrowthLaws.{one_if};
    ghost use Rattle.vx_core.specs.Mounts.{MountView, IsInUse, IsUsed, MayBegin, MayAnswer, MayStop, IsStoppable, IsOver, IsLeavable, IsStage, Released, HasPerformed, OwesBehind, IsBuilt, noted, leaves};

    /// What a core sees of it.
    ghost view: { Self → MountView };

    /// What every method keeps, for each World in which the history may have begun.
    ghost kept: { World → Self → Type 0 };

    /// Calls that it can do.
    ghost built: { Call → Type 0 };

    /// A bound on the stages that it still does where no call comes.
    ghost owed: { Self → ℕ };

    /// By so much a call raises that bound at most.
    ghost per_call: { ℕ };

    /// Begins a session's line that comes after so many: the call is moved out of the list, done, and noted with its reply. Where there
    /// may be no room for it, or blocks are short that wait, a stage of the device or their release comes in its place.
    fn perform(
        &mut self,
        alloc: Global,
        lines: &mut LineLists,
        session: u8,
        answered: u32,
    ) -> Performed
        requires used { IsUsed (λ o. kept o self.old) (view self.old) }
        requires free { (view self.old).leaving ≡ false }
        requires line { IsBuilt built (line_after lines.old session answered) }
        requires limit { answered < 65536 }
        requires room { 2 < (view self.old).spare }
        ensures performed { HasPerformed (view self.old) (view self.new) lines.old lines.new session answered result }
        ensures kept { (o : World) → kept o self.old → MayBegin o (view self.old) session (answered + 1) → kept o self.new }
        ensures stage { IsStage (view self.old) (view self.new) }
        ensures free { (view self.new).leaving ≡ false }
        ensures owed { OwesBehind per_call (owed self.old) (owed self.new) result };

    /// Goes on with the commit that makes the call at this place durable; answers whether it is.
    ///
    /// # Errors
    ///
    /// A write or a barrier failed, which disables the mount.
    fn reach(&mut self, place: u64) -> Result<bool, DevFault>
        requires used { IsUsed (λ o. kept o self.old) (view self.old) }
        requires free { (view self.old).leaving ≡ false }
        requires enabled { (view self.old).disabled ≡ None }
        requires there { place < length (view self.old).history }
        requires room { 0 < (view self.old).spare }
        ensures kept { (o : World) → kept o self.old → IsInUse o (view self.old) → kept o self.new }
        ensures durable { IfOk result (λ reached. reached ≡ true → place < (view self.new).committed) }
        ensures works { IfOk result (λ reached. reached ≡ false → (view self.old).count < (view self.new).count) }
        ensures history { Released (view self.old).history (view self.new).history (view self.new).count }
        ensures enabled { OnOk result ((view self.new).disabled ≡ None) }
        ensures disabled { OnErr result ((view self.new).disabled ≡ Some (view self.new).write_faults) }
        ensures still { OnErr result ((view self.new).history ≡ (view self.old).history) }
        ensures stage { IsStage (view self.old) (view self.new) }
        ensures room { (view self.old).spare ≤ (view self.new).spare }
        ensures free { (view self.new).leaving ≡ false }
        ensures owed { owed self.new ≤ owed self.old }
        ensures less { IfOk result (λ reached. reached ≡ false → owed self.new < owed self.old) };

    /// Answers the call that stands at this place of the history.
    fn answer(&mut self, place: u64, answer: Reply)
        requires used { IsUsed (λ o. kept o self.old) (view self.old) }
        requires free { (view self.old).leaving ≡ false }
        requires room { 0 < (view self.old).spare }
        ensures kept { (o : World) → kept o self.old → MayAnswer o (view self.old) place answer → kept o self.new }
        ensures view { view self.new ≡ noted (view self.old) (event.Ret (view self.old).count place answer) }
        ensures owed { owed self.new ≤ owed self.old };

    /// Notes that the run was stopped.
    fn stop(&mut self)
        requires stoppable { IsStoppable (λ o. kept o self.old) (view self.old) }
        requires free { (view self.old).leaving ≡ false }
        requires room { 0 < (view self.old).spare }
        ensures kept { (o : World) → kept o self.old → MayStop o (view self.old) → kept o self.new }
        ensures view { view self.new ≡ noted (view self.old) (event.Stopped (view self.old).count) }
        ensures owed { owed self.new ≤ owed self.old };

    /// One stage of the unmount; answers whether the file system is left, which the history says then.
    ///
    /// # Errors
    ///
    /// A write or a barrier failed, which disables the mount.
    fn leave(&mut self) -> Result<bool, DevFault>
        requires leavable { IsLeavable (λ o. kept o self.old) (view self.old) }
        requires enabled { (view self.old).disabled ≡ None }
        requires room { 0 < (view self.old).spare }
        ensures kept { (o : World) → kept o self.old → IsOver o (view self.old) → kept o self.new }
        ensures history { IfOk result (λ left. (released : Bool) × ((upto : ℕ) × ((view self.new).history ≡ (view self.old).history ++ leaves left released (view self.new).count upto))) }
        ensures enabled { OnOk result ((view self.new).disabled ≡ None) }
        ensures disabled { OnErr result ((view self.new).disabled ≡ Some (view self.new).write_faults) }
        ensures still { OnErr result ((view self.new).history ≡ (view self.old).history) }
        ensures stage { IsStage (view self.old) (view self.new) }
        ensures room { IfOk result (λ left. (view self.old).spare ≤ (view self.new).spare + one_if left) }
        ensures held { OnErr result ((view self.old).spare ≤ (view self.new).spare) }
        ensures owed { owed self.new < owed self.old };

    /// The history so far.
    fn history(&self) -> &[Event]
        ensures { result.now ≡ (view self.now).history };

    /// The count of the first failed write, where the mount is disabled.
    fn disabled(&self) -> Option<u64>
        ensures { result ≡ (view self.now).disabled };

    /// Whether the history ends with Stopped or Unmounted.
    fn has_ended(&self) -> bool
        ensures { result ≡ is_end (last_event (view self.now).history) };
}
