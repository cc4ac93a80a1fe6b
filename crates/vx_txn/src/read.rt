//! list and stat.
ghost use Rattle.std.specs.Prelude.{◌≡◌, IfOk};
ghost use Rattle.vx_model.specs.Naming.{list, list_at, stat, stat_at};
ghost use Rattle.vx_model.specs.State.{State};
ghost use Rattle.vx_model.specs.Touching.{untouched};
ghost use Rattle.vx_txn.specs.Calls.{IsSettled};
ghost use Rattle.vx_txn.specs.Metas.{Stands};
ghost use Rattle.vx_txn.specs.Replies.{IsShort, IsSound};

use crate::meta::Meta;
use crate::walk::{directory_of, walk};
use std::alloc::{AllocError, Global};
use vx_base::{Ino, Refusal, Reply};
use vx_path::{SplitRefusal, split};

/// The names of a directory.
pub fn list(meta: &Meta, alloc: Global, path: &[u8]) -> Result<Reply, AllocError>
    ensures done { (s : State) → Stands meta.now s → IfOk result (IsSettled s (list s path.now) meta.now untouched) }
    ensures sound { IfOk result IsSound }
{
    match split(alloc, path) {
        Ok(names) => match walk(meta, names.as_slice()) {
            Ok(ino) => list_at(meta, ino),
            Err(why) => Ok(Reply::Refused(why)),
        },
        Err(SplitRefusal::BadName) => Ok(Reply::Refused(Refusal::BadName)),
        Err(SplitRefusal::NoMemory) => Err(AllocError),
    }
}

fn list_at(meta: &Meta, ino: Ino) -> Result<Reply, AllocError>
    ensures done { (s : State) → Stands meta.now s → IfOk result (IsSettled s (list_at s ino) meta.now untouched) }
    ensures sound { IfOk result IsSound }
{
    match directory_of(meta, ino) {
        Ok(directory) => {
            directory.names().kept();
            Ok(Reply::Listing {
                names: directory.names().names()?,
            })
        }
        Err(why) => Ok(Reply::Refused(why)),
    }
}

/// What is known of what a path names.
pub fn stat(meta: &Meta, alloc: Global, path: &[u8]) -> Result<Reply, AllocError>
    ensures done { (s : State) → Stands meta.now s → IfOk result (IsSettled s (stat s path.now) meta.now untouched) }
    ensures short { IfOk result IsShort }
{
    match split(alloc, path) {
        Ok(names) => match walk(meta, names.as_slice()) {
            Ok(ino) => Ok(stat_at(meta, ino)),
            Err(why) => Ok(Reply::Refused(why)),
        },
        Err(SplitRefusal::BadName) => Ok(Reply::Refused(Refusal::BadName)),
        Err(SplitRefusal::NoMemory) => Err(AllocError),
    }
}

fn stat_at(meta: &Meta, ino: Ino) -> Reply
    ensures done { (s : State) → Stands meta.now s → IsSettled s (stat_at s ino) meta.now untouched result }
    ensures short { IsShort result }
{
    match meta.inodes.get(ino) {
        None => Reply::Refused(Refusal::NoEnt),
        Some(inode) => match meta.directory(ino) {
            Some(directory) => {
                directory.names().kept();
                Reply::DirStat {
                    ino,
                    mode: inode.mode,
                    entries: directory.names().entries(),
                }
            }
            None => Reply::FileStat {
                ino,
                mode: inode.mode,
                nlink: inode.nlink,
                size: inode.size,
            },
        },
    }
}
