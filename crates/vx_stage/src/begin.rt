//! Where a mount begins.
ghost use Rattle.std.specs.Prelude.{◌≡◌, ◌<◌, ◌≤◌, ◌+◌, ℕ, [], length, Some, None, IsNone, IfOk, OnOk, OnErr};
ghost use Rattle.vx_log.specs.Logs.{fresh_log};
ghost use Rattle.vx_mkfs.specs.Formats.{format_operations};
ghost use Rattle.vx_base.specs.Faults.{HasCause};
ghost use Rattle.vx_dev.specs.Runs.{Onward};
ghost use Rattle.vx_dev.specs.Tape.{IsInStep, State as Device, Tape, now};
ghost use Rattle.vx_layout.specs.Supers.{IsSuper};
ghost use Rattle.vx_dev.specs.Moments.{Told, Always};
ghost use Rattle.vx_model.specs.Legal.{opening};
ghost use Rattle.vx_model.specs.Settled.{ReplaysSettled};
ghost use Rattle.vx_model.specs.State.{State, directory_blocks, fresh_of};
ghost use Rattle.vx_stage.specs.Kernels.{log_size, device_size, IsFit, IsFitAlone, IsMounted, IsLeftAs, IsBegun, HasRun, IsLive};
ghost use Rattle.vx_stage.specs.declared.kernel.Job.TheVariants.{Idle};

use crate::kernel::{Job, Kernel};
use crate::laws::kernel_laws;
use vx_base::{Event, Logging};
use vx_dev::{BlockDev, DevFault};
use vx_home::Homes;
use vx_layout::Super;
use vx_log::{Batch, Log};
use vx_mkfs::make;
use vx_model::images::metadata;
use vx_model::states::fresh_reads;
use vx_wellformed::laws::{state_sound, well_formed_laws};

/// The sector of the superblock.
const SUPER_SECTOR: u64 = 0;

/// What a kernel needs of memory, all of it empty.
#[derive(Drop)]
pub struct Room {
    pub log: Log,
    pub homes: Homes,
    pub gathered: Batch,
    pub ready: Batch,
    pub history: Vec<Event>,
}

impl Kernel {
    /// The kernel of a mount that begins now, on a device whose log is empty. Its history is empty.
    pub fn begin(sizes: Super, logging: Logging, first: u64, room: Room) -> Kernel
        requires is { IsSuper sizes }
        requires sectors { room.log.sectors ≡ log_size sizes }
        requires free { IsNone room.log.closing }
        requires level { room.log.tail ≡ room.log.head }
        requires homes { room.homes ≡ [] }
        requires gathered { room.gathered ≡ [] }
        requires ready { room.ready ≡ [] }
        requires history { room.history.items ≡ [] }
        ensures fit { IsFitAlone result }
        ensures run { (s : State) (d : Device) → IsMounted sizes s → ((b : ℕ) → s.layout.pending b ≡ None) → first ≤ d.count → HasRun (opening first s) d result }
        ensures live { (s : State) (d : Device) → IsMounted sizes s → first ≡ d.count → IsInStep d → Told d (IsBegun sizes s room.log.serial room.log.head) → Told d (IsLive (opening first s) result) }
        ensures same { result ≡ record { sizes = sizes; logging = logging; first = first; log = room.log; homes = room.homes; gathered = room.gathered; ready = Some room.ready; job = Idle; committed = 0; closing = 0; history = room.history } }
    {
        // The proof rests on these laws; nothing runs here.
        kernel_laws();
        Kernel {
            sizes,
            logging,
            first,
            log: room.log,
            homes: room.homes,
            gathered: room.gathered,
            ready: Some(room.ready),
            job: Job::Idle,
            committed: 0,
            closing: 0,
            history: room.history,
        }
    }
}

/// Makes the superblock that of a mounted file system, where the device holds an image that was left clean: a barrier, the superblock, a
/// barrier. From the first barrier on whatever a crash leaves replays as the same tree, with the files as they stand on the device.
///
/// # Errors
///
/// A write or a barrier failed.
pub fn mark<D: BlockDev>(dev: &mut D, sizes: &Super) -> Result<(), DevFault>
    requires is { IsSuper sizes.now }
    requires size { device_size sizes.now ≤ (D.state dev.old).size }
    ensures begun { (s : State) (serial position : ℕ) (t : Tape) → IsMounted sizes.now s → (D.state dev.old).told ≡ Some t → IsLeftAs sizes.now s serial position (now t)
        → OnOk result (Told (D.state dev.new) (IsBegun sizes.now s serial position)) }
    ensures kept { (s : State) (serial position : ℕ) (t : Tape) → IsMounted sizes.now s → (D.state dev.old).told ≡ Some t → IsLeftAs sizes.now s serial position (now t)
        → Told (D.state dev.new) (Always (length t.ops + 1) (λ _ image. ReplaysSettled s image)) }
    ensures untold { (D.state dev.old).told ≡ None → (D.state dev.new).told ≡ None }
    ensures onward { Onward (D.state dev.old) (D.state dev.new) }
    ensures count { OnOk result ((D.state dev.new).count ≡ (D.state dev.old).count + 3) }
    ensures fewer { OnErr result ((D.state dev.new).count < (D.state dev.old).count + 3) }
    ensures cause { HasCause (D.state dev.old).write_faults (D.state dev.new).write_faults result }
{
    // The proof rests on these laws; nothing runs here.
    kernel_laws();
    let superblock = Super {
        log_blocks: sizes.log_blocks,
        units: sizes.units,
        clean: false,
    };
    let bytes = superblock.write();
    dev.barrier()?;
    dev.write(SUPER_SECTOR, &bytes)?;
    dev.barrier()?;
    Ok(())
}

/// Writes a new file system of these sizes and mounts it, with an empty history. Its directories have one block at most.
///
/// # Errors
///
/// A write or a barrier failed, and then the device may hold a part of it.
pub fn new_mount<D: BlockDev>(
    dev: &mut D,
    sizes: Super,
    logging: Logging,
    room: Room,
) -> Result<Kernel, DevFault>
    requires is { IsSuper sizes }
    requires size { device_size sizes ≤ (D.state dev.old).size }
    requires log { room.log ≡ fresh_log (log_size sizes) }
    requires homes { room.homes ≡ [] }
    requires gathered { room.gathered ≡ [] }
    requires ready { room.ready ≡ [] }
    requires history { room.history.items ≡ [] }
    ensures fit { IfOk result (IsFit (D.state dev.new)) }
    ensures run { IfOk result (HasRun (opening (D.state dev.new).count (fresh_of sizes directory_blocks (D.state dev.old).size)) (D.state dev.new)) }
    ensures live { IfOk result (λ k. Told (D.state dev.new) (IsLive (opening (D.state dev.new).count (fresh_of sizes directory_blocks (D.state dev.old).size)) k)) }
    ensures empty { IfOk result (λ k. k.history.items ≡ []) }
    ensures same { IfOk result (λ k. k ≡ record { sizes = sizes; logging = logging; first = (D.state dev.new).count; log = room.log; homes = room.homes; gathered = room.gathered; ready = Some room.ready; job = Idle; committed = 0; closing = 0; history = room.history }) }
    ensures onward { Onward (D.state dev.old) (D.state dev.new) }
    ensures count { OnOk result ((D.state dev.new).count ≡ (D.state dev.old).count + format_operations sizes) }
    ensures fewer { OnErr result ((D.state dev.new).count < (D.state dev.old).count + format_operations sizes) }
    ensures cause { HasCause (D.state dev.old).write_faults (D.state dev.new).write_faults result }
{
    // The proof rests on these laws; nothing runs here.
    kernel_laws();
    fresh_reads();
    well_formed_laws();
    state_sound();
    metadata();
    let superblock = Super {
        log_blocks: sizes.log_blocks,
        units: sizes.units,
        clean: false,
    };
    make(dev, &superblock)?;
    let first = dev.ops();
    Ok(Kernel::begin(sizes, logging, first, room))
}

/// Mounts the file system of these sizes that was left clean on the device, with an empty history. The log stands where its head sector
/// says.
///
/// # Errors
///
/// A write or a barrier failed; the device then holds the file system as before, and it may no longer be marked clean.
pub fn mount_image<D: BlockDev>(
    dev: &mut D,
    sizes: Super,
    logging: Logging,
    room: Room,
) -> Result<Kernel, DevFault>
    requires is { IsSuper sizes }
    requires size { device_size sizes ≤ (D.state dev.old).size }
    requires sectors { room.log.sectors ≡ log_size sizes }
    requires free { IsNone room.log.closing }
    requires level { room.log.tail ≡ room.log.head }
    requires homes { room.homes ≡ [] }
    requires gathered { room.gathered ≡ [] }
    requires ready { room.ready ≡ [] }
    requires history { room.history.items ≡ [] }
    ensures fit { IfOk result (IsFit (D.state dev.new)) }
    ensures run { (s : State) → IsMounted sizes s → ((b : ℕ) → s.layout.pending b ≡ None) → IfOk result (HasRun (opening (D.state dev.new).count s) (D.state dev.new)) }
    ensures live { (s : State) (t : Tape) → IsMounted sizes s → (D.state dev.old).told ≡ Some t → IsLeftAs sizes s room.log.serial room.log.head (now t)
        → IfOk result (λ k. Told (D.state dev.new) (IsLive (opening (D.state dev.new).count s) k)) }
    // From the first barrier on whatever a crash leaves replays as the tree that was left, with the files as they stand on the device.
    ensures kept { (s : State) (t : Tape) → IsMounted sizes s → (D.state dev.old).told ≡ Some t → IsLeftAs sizes s room.log.serial room.log.head (now t)
        → Told (D.state dev.new) (Always (length t.ops + 1) (λ _ image. ReplaysSettled s image)) }
    ensures empty { IfOk result (λ k. k.history.items ≡ []) }
    ensures same { IfOk result (λ k. k ≡ record { sizes = sizes; logging = logging; first = (D.state dev.new).count; log = room.log; homes = room.homes; gathered = room.gathered; ready = Some room.ready; job = Idle; committed = 0; closing = 0; history = room.history }) }
    ensures untold { (D.state dev.old).told ≡ None → (D.state dev.new).told ≡ None }
    ensures onward { Onward (D.state dev.old) (D.state dev.new) }
    ensures count { OnOk result ((D.state dev.new).count ≡ (D.state dev.old).count + 3) }
    ensures fewer { OnErr result ((D.state dev.new).count < (D.state dev.old).count + 3) }
    ensures cause { HasCause (D.state dev.old).write_faults (D.state dev.new).write_faults result }
{
    mark(dev, &sizes)?;
    let first = dev.ops();
    Ok(Kernel::begin(sizes, logging, first, room))
}
