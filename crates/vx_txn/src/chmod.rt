//! chmod
ghost use Rattle.std.specs.Prelude.{◌≡◌, ◌≤◌, IfOk, OnErr, length};
ghost use Rattle.vx_model.specs.Naming.{chmod, chmod_at};
ghost use Rattle.vx_model.specs.State.{State};
ghost use Rattle.vx_model.specs.Touching.{untouched};
ghost use Rattle.vx_txn.specs.Calls.{IsSettled, most};
ghost use Rattle.vx_txn.specs.Metas.{Stands, IsSound, IsUnchanged};
ghost use Rattle.vx_txn.specs.Replies.{FitsReply, IsShort};

use crate::edits::set_mode;
use crate::meta::Meta;
use crate::touched::Touched;
use crate::walk::walk;
use std::alloc::{AllocError, Global};
use vx_base::{Ino, Refusal, Reply};
use vx_path::{SplitRefusal, split};

/// Sets the mode of what a path names.
pub fn chmod(
    meta: &mut Meta,
    alloc: Global,
    path: &[u8],
    mode: u16,
    touched: &mut Touched,
) -> Result<Reply, AllocError>
    requires sound { IsSound meta.old }
    requires mode { mode ≤ 4095 }
    requires empty { touched.old ≡ untouched }
    ensures done { (s : State) → Stands meta.old s → IfOk result (IsSettled s (chmod s path.now mode) meta.new touched.new) }
    ensures short { IfOk result IsShort }
    ensures fits { IfOk result (FitsReply touched.new) }
    ensures few { most touched.new ≤ 4 }
    ensures units { length touched.new.units ≤ 70 }
    ensures unchanged { OnErr result (IsUnchanged meta.old meta.new) }
    ensures untouched { OnErr result (touched.new ≡ untouched) }
{
    match split(alloc, path) {
        Ok(names) => match walk(meta, names.as_slice()) {
            Ok(ino) => Ok(chmod_at(meta, ino, mode, touched)),
            Err(why) => Ok(Reply::Refused(why)),
        },
        Err(SplitRefusal::BadName) => Ok(Reply::Refused(Refusal::BadName)),
        Err(SplitRefusal::NoMemory) => Err(AllocError),
    }
}

fn chmod_at(meta: &mut Meta, ino: Ino, mode: u16, touched: &mut Touched) -> Reply
    requires mode { mode ≤ 4095 }
    requires empty { touched.old ≡ untouched }
    ensures done { (s : State) → Stands meta.old s → IsSettled s (chmod_at s mode ino) meta.new touched.new result }
    ensures short { IsShort result }
    ensures fits { FitsReply touched.new result }
    ensures few { most touched.new ≤ 4 }
    ensures units { length touched.new.units ≤ 70 }
{
    if meta.inodes.get(ino).is_none() {
        return Reply::Refused(Refusal::NoEnt);
    }
    set_mode(meta, ino, mode, touched);
    Reply::Fine
}
