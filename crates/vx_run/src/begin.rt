//! What a run does with its image before the first turn.
ghost use Rattle.std.specs.Prelude.{◌≡◌, ◌+◌, ◌*◌, ℕ, [], IfOk};
ghost use Rattle.vx_core.specs.Works.{line_count};
ghost use Rattle.vx_grammar.specs.Scripts.{IsScript};
ghost use Rattle.vx_layout.specs.Supers.{IsSuper};
ghost use Rattle.vx_log.specs.Ends.{IsEnds, standing_log};
ghost use Rattle.vx_log.specs.Logs.{fresh_log};
ghost use Rattle.vx_model.specs.State.{directory_blocks, fresh_of};
ghost use Rattle.vx_txn.specs.Metas.{IsStateOf};
ghost use Rattle.vx_run.specs.Ends.{Setting, Asks, HasEnded, new_super, start_of_load};
ghost use Rattle.vx_run.specs.Memories.{IsMemory};
ghost use Rattle.vx_run.specs.Outcomes.{end_of, HasShortHistory};
ghost use Rattle.vx_run.specs.declared.words.Verb.TheVariants as verb;

use crate::memory::Memory;
use crate::outcome::Outcome;
use crate::turns::{Played, play};
use std::alloc::{AllocError, Global};
use vx_base::Logging;
use vx_core::line_count;
use vx_dev::BlockDev;
use vx_grammar::Script;
use vx_layout::Super;
use vx_load::{LoadRefusal, load};
use vx_log::Log;
use vx_model::states::{fresh_reads, state_reads};
use vx_replay::{CheckRefusal, CleanFront};
use vx_script::StartRefusal;
use vx_stage::{mount_image, new_mount};
use vx_txn::Meta;

/// The blocks of the log of every new file system.
const LOG_BLOCKS: u32 = 512;

/// The superblock of every new file system, while it is mounted.
const NEW_SUPER: Super = Super {
    log_blocks: LOG_BLOCKS,
    units: 1,
    clean: false,
};

/// The sectors that a file system of one unit and a log of 512 blocks needs.
const SECTORS: u64 = 9_220;

/// Makes a new file system, and runs the script on it.
pub fn run_on_new<D: BlockDev>(
    alloc: Global,
    mut dev: D,
    logging: Logging,
    script: Script,
) -> (Outcome, D)
    requires form { IsScript script }
    ensures ended { (s : Setting) (faults : ℕ) → s.device ≡ D.state dev → Asks s (record { verb = verb.Fresh; logging = logging }) script → HasEnded s (D.state result.1) faults (end_of result.0) }
    ensures short { HasShortHistory result.0 }
{
    // The proof rests on this law; nothing runs here.
    fresh_reads();
    let have = dev.sectors();
    if have < SECTORS {
        let why = StartRefusal::DeviceTooSmall {
            have,
            want: SECTORS,
        };
        return (Outcome::Refused(why), dev);
    }
    let room = most_events(&script);
    let (meta, memory) = match new_memory(alloc, script.lines.len(), room) {
        Ok(memory) => memory,
        Err(_) => return (Outcome::Refused(StartRefusal::NoMemory), dev),
    };
    let kernel = match new_mount(&mut dev, NEW_SUPER, logging, memory.kernel) {
        Ok(kernel) => kernel,
        Err(_) => return (Outcome::Refused(StartRefusal::WriteFault), dev),
    };
    let Played {
        dev,
        disabled,
        history,
    } = play(alloc, dev, kernel, meta, memory.turns, script, room);
    (Outcome::Finished { disabled, history }, dev)
}

/// Mounts the file system of the image, and runs the script on it.
pub fn run_on_image<D: BlockDev>(
    alloc: Global,
    mut dev: D,
    logging: Logging,
    script: Script,
) -> (Outcome, D)
    requires form { IsScript script }
    requires certain { (D.state dev).doubt ≡ [] }
    ensures ended { (s : Setting) (faults : ℕ) → s.device ≡ D.state dev → Asks s (record { verb = verb.Mount; logging = logging }) script → HasEnded s (D.state result.1) faults (end_of result.0) }
    ensures short { HasShortHistory result.0 }
{
    // The proof rests on this law; nothing runs here.
    state_reads();
    let loaded = match load(alloc, &mut dev) {
        Ok(loaded) => loaded,
        Err(why) => return (Outcome::Refused(refusal_of(why)), dev),
    };
    let room = most_events(&script);
    let memory = match memory_of(alloc, &loaded.front, script.lines.len(), room) {
        Ok(memory) => memory,
        Err(_) => return (Outcome::Refused(StartRefusal::NoMemory), dev),
    };
    let kernel = match mount_image(&mut dev, loaded.front.superblock, logging, memory.kernel) {
        Ok(kernel) => kernel,
        Err(_) => return (Outcome::Refused(StartRefusal::WriteFault), dev),
    };
    let Played {
        dev,
        disabled,
        history,
    } = play(alloc, dev, kernel, loaded.meta, memory.turns, script, room);
    (Outcome::Finished { disabled, history }, dev)
}

/// The metadata of a new file system, and the memory of a run on it.
fn new_memory(alloc: Global, sessions: usize, events: usize) -> Result<(Meta, Memory), AllocError>
    ensures meta { IfOk result (λ m. (sectors : ℕ) → IsStateOf m.0 (fresh_of new_super directory_blocks sectors)) }
    ensures memory { IfOk result (λ m. IsMemory (fresh_log 1024) 1 sessions events m.1) }
{
    let meta = Meta::fresh(alloc, LOG_BLOCKS)?;
    let log = Log::fresh(alloc, LOG_BLOCKS)?;
    let memory = Memory::new(alloc, log, NEW_SUPER.units, sessions, events)?;
    Ok((meta, memory))
}

/// The memory of a run on the file system of an image that begins so.
fn memory_of(
    alloc: Global,
    front: &CleanFront,
    sessions: usize,
    events: usize,
) -> Result<Memory, AllocError>
    requires is { IsSuper front.now.superblock }
    requires ends { IsEnds (2 * front.now.superblock.log_blocks) front.now.ends }
    requires level { front.now.ends.tail ≡ front.now.ends.head }
    ensures { IfOk result (IsMemory (standing_log (2 * front.now.superblock.log_blocks) front.now.ends []) front.now.superblock.units sessions events) }
{
    let sizes = &front.superblock;
    let starts = Vec::with_capacity(alloc, sizes.log_blocks as usize)?;
    let log = Log::standing(sizes.log_blocks, front.ends, starts);
    Memory::new(alloc, log, sizes.units, sessions, events)
}

/// The most events that a history of the script has.
fn most_events(script: &Script) -> usize
    requires { IsScript script.now }
    ensures { result ≡ 4 * line_count script.now.lines + 1 }
{
    4 * line_count(&script.lines) + 1
}

/// Why the run is refused, where its image is not mounted.
fn refusal_of(why: LoadRefusal) -> StartRefusal
    ensures { result ≡ start_of_load why }
{
    match why {
        LoadRefusal::Check(CheckRefusal::BadSuper { field }) => StartRefusal::BadSuper { field },
        LoadRefusal::Check(CheckRefusal::BadLog { sector }) => StartRefusal::BadLog { sector },
        LoadRefusal::Check(CheckRefusal::BadMeta { sector }) => StartRefusal::BadMeta { sector },
        LoadRefusal::Check(CheckRefusal::NotClean { tail, head }) => {
            StartRefusal::NotClean { tail, head }
        }
        LoadRefusal::Check(CheckRefusal::ReadFault) => StartRefusal::ReadFault,
        LoadRefusal::Check(CheckRefusal::NoMemory) => StartRefusal::NoMemory,
        LoadRefusal::HasBytes { ino } => StartRefusal::HasBytes { ino },
    }
}
