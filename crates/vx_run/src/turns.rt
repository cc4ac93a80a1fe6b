//! The turns of a run.
ghost use Rattle.std.specs.Prelude.{◌≡◌, ◌≤◌, ◌<◌, ◌+◌, ◌*◌, ◌^◌, ℕ, [], length, vec_capacity, None};
ghost use Rattle.vx_core.specs.Works.{line_count};
ghost use Rattle.vx_grammar.specs.Scripts.{IsScript};
ghost use Rattle.vx_model.specs.Legal.{World};
ghost use Rattle.vx_run.specs.Ends.{IsPlayed, schedule_of};
ghost use Rattle.vx_run.specs.Memories.{IsTurnMemory};
ghost use Rattle.vx_run.specs.Mounted.{BeginsIn, CanBegin, IsNewKernel};

use crate::memory::TurnMemory;
use crate::mounted::Mounted;
use std::alloc::Global;
use vx_base::{Bytes, Event};
use vx_calls::Mount;
use vx_core::Core;
use vx_dev::BlockDev;
use vx_grammar::Script;
use vx_model::allowed::allowed_laws;
use vx_model::states::state_reads;
use vx_mount::laws::lines_of_turns;
use vx_mount::{drive, unmount};
use vx_stage::Kernel;
use vx_txn::Meta;

/// What the turns came to.
pub struct Played<D> {
    pub dev: D,
    /// A write or barrier of the device failed.
    pub disabled: bool,
    pub history: Vec<Event>,
}

/// Takes the turns of the script's sessions until all are finished, and unmounts. The history has room for `room` events.
pub fn play<D: BlockDev>(
    alloc: Global,
    dev: D,
    kernel: Kernel,
    meta: Meta,
    memory: TurnMemory,
    script: Script,
    room: usize,
) -> Played<D>
    requires form { IsScript script }
    requires memory { (units : ℕ) × IsTurnMemory units (length script.lines) memory }
    requires room { room ≡ 4 * line_count script.lines + 1 }
    requires capacity { room ≤ vec_capacity kernel.history }
    requires new { IsNewKernel kernel }
    requires begins { CanBegin kernel meta (D.state dev) }
    ensures played { (o : World) → BeginsIn o kernel meta (D.state dev) → IsPlayed o
        (record { lines = script.lines; history = []; logging = kernel.logging; count = (D.state dev).count; write_faults = (D.state dev).write_faults; disabled = None; locks = memory.locks })
        script o.state.layout.device_sectors (D.state result.dev) result.disabled result.history.items }
    ensures short { length result.history.items < 2 ^ 32 }
{
    // The proof rests on these laws; nothing runs here.
    allowed_laws();
    state_reads();
    lines_of_turns();
    let mount = Mount::new(kernel, meta, memory.touched, memory.transaction);
    let mounted = Mounted { dev, mount, room };
    let mut core = Core::new(alloc, mounted, script.lines, memory.sessions, memory.locks);
    drive(&mut core, actors(&script.schedule));
    unmount(&mut core);
    let Core {
        mount,
        alloc: _,
        lines: _,
        sessions: _,
        locks: _,
        stopped: _,
    } = core;
    let Mounted {
        dev,
        mount,
        room: _,
    } = mount;
    let disabled = mount.disabled.is_some();
    let kernel = mount.kernel;
    // The proof rests on what the kernel knows; nothing runs here.
    kernel.facts(&dev);
    Played {
        dev,
        disabled,
        history: kernel.history,
    }
}

/// The sessions whose turns come first.
fn actors(schedule: &Option<Bytes>) -> &[u8]
    ensures { result.now ≡ schedule_of schedule.now }
{
    match schedule {
        Some(actors) => actors.as_slice(),
        None => &[],
    }
}
