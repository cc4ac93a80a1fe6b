//! What a log holds is carried home.
ghost use Rattle.std.specs.Prelude.{◌≡◌, ◌≢◌, ◌⊎◌, ◌+◌, ◌<◌, ◌≤◌, ℕ, List, IsNone, OnOk, Contains, length};
ghost use Rattle.vx_base.specs.Faults.{HasCause};
ghost use Rattle.vx_dev.specs.Tape.{Tape};
ghost use Rattle.vx_layout.specs.Places.{sectors_of};
ghost use Rattle.vx_layout.specs.Supers.{IsSuper, volume_of};
ghost use Rattle.vx_dev.specs.Moments.{Told, Always, Passed, HoldsOneOf};
ghost use Rattle.vx_layout.specs.LogForms.{LogState, ReadsAs};
ghost use Rattle.vx_log.specs.Crashes.{Stands, emptied};
ghost use Rattle.vx_log.specs.Stages.{AreHomesPut};
ghost use Rattle.vx_model.specs.Replays.{ReplaysAs, IsLeft};
ghost use Rattle.vx_model.specs.Tree.{Tree};
ghost use Rattle.vx_replay.specs.ReplayLaws.{ReplayLaws};
ghost use Rattle.vx_replay.specs.TailMoves.{IsReading};
ghost use Rattle.vx_replay.specs.Stopped.{CanCarry, IsReplayOf, IsEmptied};

use crate::load::Stopped;
use vx_dev::{BlockDev, DevFault, tape_laws, value_laws};
use vx_layout::{Super, log_spelling, super_places, super_spelling};
use vx_log::{Log, head_laws, home_laws, image_laws, note_laws};
use vx_model::reads::reads_alike;
use vx_wellformed::laws::sound_alike;

/// Writes home what the log holds, moves its tail to its head, and marks the image clean: a barrier, the homes, a barrier, the
/// head sector, a barrier, the superblock, a barrier. The log's part is left out where it holds nothing.
pub fn carry<D: BlockDev>(dev: &mut D, stopped: &mut Stopped) -> Result<(), DevFault>
    requires { CanCarry (D.state dev.old).size stopped.old }
    // From the first barrier on every image that a crash leaves replays as the tree.
    ensures kept { (t : Tape) (tree : Tree) → IsReplayOf (D.state dev.old) t tree stopped.old → Told (D.state dev.new) (Always (length t.ops + 1) (λ _ image. ReplaysAs (D.state dev.old).size image tree)) }
    // At the end there is one image, it is clean, and it reads as the tree.
    ensures left { (t : Tape) (tree : Tree) → IsReplayOf (D.state dev.old) t tree stopped.old → OnOk result (Told (D.state dev.new) (IsLeft (D.state dev.old).size tree)) }
    ensures size { (D.state dev.new).size ≡ (D.state dev.old).size }
    ensures later { (D.state dev.old).count ≤ (D.state dev.new).count }
    ensures reads { (D.state dev.new).read_faults ≡ (D.state dev.old).read_faults }
    ensures cause { HasCause (D.state dev.old).write_faults (D.state dev.new).write_faults result }
{
    empty_log(dev, stopped)?;
    mark_clean(dev, &stopped.superblock)
}

/// Writes home what the log holds, and moves its tail to its head.
fn empty_log<D: BlockDev>(dev: &mut D, stopped: &mut Stopped) -> Result<(), DevFault>
    requires { CanCarry (D.state dev.old).size stopped.old }
    ensures kept { (t : Tape) (tree : Tree) → IsReplayOf (D.state dev.old) t tree stopped.old → Told (D.state dev.new) (Always (length t.ops + 1) (λ _ image. ReplaysAs (D.state dev.old).size image tree)) }
    ensures emptied { (t : Tape) (tree : Tree) → IsReplayOf (D.state dev.old) t tree stopped.old → OnOk result (Told (D.state dev.new) (IsEmptied stopped.old.superblock tree)) }
    ensures superblock { stopped.new.superblock ≡ stopped.old.superblock }
    ensures size { (D.state dev.new).size ≡ (D.state dev.old).size }
    ensures later { (D.state dev.old).count ≤ (D.state dev.new).count }
    ensures reads { (D.state dev.new).read_faults ≡ (D.state dev.old).read_faults }
    ensures cause { HasCause (D.state dev.old).write_faults (D.state dev.new).write_faults result }
{
    // What the proof rests on; nothing is done here.
    replay_laws();
    let _noted = stopped.homes.len();
    dev.barrier()?;
    if stopped.log.tail() == stopped.log.head() {
        return Ok(());
    }
    stopped.homes.put_all(dev)?;
    move_tail(dev, &mut stopped.log)
}

/// Moves the log's tail to its head, where all homes are written: a barrier, the head sector with the new tail, a barrier. After a
/// fault the tail has moved or not, and the log is good for nothing more.
fn move_tail<D: BlockDev>(dev: &mut D, log: &mut Log) -> Result<(), DevFault>
    requires free { IsNone log.old.closing }
    requires area { 4 + log.old.sectors ≤ (D.state dev.old).size }
    ensures stands { (r : LogState) → IsReading log.old r → Told (D.state dev.old) (AreHomesPut log.old.sectors r)
        → OnOk result (Told (D.state dev.new) (Stands log.old.sectors (emptied r))) }
    ensures passed { (r : LogState) → IsReading log.old r → Told (D.state dev.old) (AreHomesPut log.old.sectors r)
        → Passed (λ image. ReadsAs log.old.sectors r image ⊎ ReadsAs log.old.sectors (emptied r) image) (D.state dev.old) (D.state dev.new) }
    // What a crash may leave in any other sector stays.
    ensures elsewhere { (s : ℕ) (values : List (List ℕ)) → s ≢ 2 → Told (D.state dev.old) (HoldsOneOf s values)
        → Passed (λ image. Contains values (image s)) (D.state dev.old) (D.state dev.new) }
    ensures size { (D.state dev.new).size ≡ (D.state dev.old).size }
    ensures later { (D.state dev.old).count ≤ (D.state dev.new).count }
    ensures reads { (D.state dev.new).read_faults ≡ (D.state dev.old).read_faults }
    ensures cause { HasCause (D.state dev.old).write_faults (D.state dev.new).write_faults result }
{
    replay_laws();
    let head = log.head();
    dev.barrier()?;
    log.advance_tail(dev, head)?;
    dev.barrier()
}

/// Writes the superblock of an image that was left clean.
fn mark_clean<D: BlockDev>(dev: &mut D, superblock: &Super) -> Result<(), DevFault>
    requires is { IsSuper superblock.now }
    requires room { sectors_of (volume_of superblock.now) ≤ (D.state dev.old).size }
    ensures passed { (tree : Tree) → Told (D.state dev.old) (IsEmptied superblock.now tree) → Passed (λ image. ReplaysAs (D.state dev.old).size image tree) (D.state dev.old) (D.state dev.new) }
    ensures left { (tree : Tree) → Told (D.state dev.old) (IsEmptied superblock.now tree) → OnOk result (Told (D.state dev.new) (IsLeft (D.state dev.old).size tree)) }
    ensures size { (D.state dev.new).size ≡ (D.state dev.old).size }
    ensures later { (D.state dev.old).count ≤ (D.state dev.new).count }
    ensures reads { (D.state dev.new).read_faults ≡ (D.state dev.old).read_faults }
    ensures cause { HasCause (D.state dev.old).write_faults (D.state dev.new).write_faults result }
{
    replay_laws();
    let clean = Super {
        clean: true,
        ..*superblock
    };
    dev.write(0, &clean.write())?;
    dev.barrier()
}

/// The laws that a replay rests on.
fn replay_laws()
    ensures { ReplayLaws }
{
    tape_laws();
    image_laws();
    head_laws();
    home_laws();
    value_laws();
    note_laws();
    log_spelling();
    super_spelling();
    super_places();
    reads_alike();
    sound_alike();
}
