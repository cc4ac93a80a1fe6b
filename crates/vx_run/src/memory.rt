//! The memory of a run.
ghost use Rattle.std.specs.Prelude.{◌≤◌, IfOk};
ghost use Rattle.vx_run.specs.Memories.{IsMemory};

use std::alloc::{AllocError, Global};
use vx_core::{Session, new_sessions};
use vx_home::Homes;
use vx_locks::LockTable;
use vx_log::{Batch, Log};
use vx_stage::Room;
use vx_txn::Touched;

/// The inode numbers of a unit.
const INODES: u32 = 128;

/// The memory that a run takes before its first write, beside the metadata. Calls take more for what they add.
#[derive(Drop)]
pub struct Memory {
    pub kernel: Room,
    pub turns: TurnMemory,
}

/// What the turns need of it.
#[derive(Drop)]
pub struct TurnMemory {
    pub touched: Touched,
    pub transaction: Batch,
    pub sessions: Vec<Session>,
    pub locks: LockTable,
}

impl Memory {
    /// With this log, for so many units, so many sessions, and a history of so many events.
    pub fn new(
        alloc: Global,
        log: Log,
        units: u32,
        sessions: usize,
        events: usize,
    ) -> Result<Memory, AllocError>
        requires { units ≤ 64 }
        ensures { IfOk result (IsMemory log units sessions events) }
    {
        Ok(Memory {
            kernel: Room {
                log,
                homes: Homes::new(alloc)?,
                gathered: Batch::new(alloc)?,
                ready: Batch::new(alloc)?,
                history: Vec::with_capacity(alloc, events)?,
            },
            turns: TurnMemory {
                touched: Touched::new(alloc)?,
                transaction: Batch::new(alloc)?,
                sessions: new_sessions(alloc, sessions)?,
                locks: LockTable::new(alloc, INODES * units)?,
            },
        })
    }
}
