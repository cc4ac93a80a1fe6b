//! create and mkdir.
ghost use Rattle.std.specs.Prelude.{◌≡◌, ◌≤◌, ◌<◌, ◌*◌, ℕ, true, None, IfOk, OnErr, length};
ghost use Rattle.std.specs.List.{list_all};
ghost use Rattle.vx_base.specs.Paths.{is_name};
ghost use Rattle.vx_model.specs.Making.{make_in, make_at, make_along};
ghost use Rattle.vx_model.specs.State.{State};
ghost use Rattle.vx_model.specs.Touching.{untouched};
ghost use Rattle.vx_txn.specs.Calls.{IsSettled, most};
ghost use Rattle.vx_txn.specs.Directories.{IsNewIn};
ghost use Rattle.vx_txn.specs.Edits.{make_path, new_node, refusal_reply};
ghost use Rattle.vx_txn.specs.Makings.{full_reply};
ghost use Rattle.vx_txn.specs.Metas.{Stands, IsSound, IsUnchanged, directory_of};
ghost use Rattle.vx_txn.specs.Replies.{FitsReply, IsShort};

use crate::edits::{EditRefusal, add_name, make_node, take_back};
use crate::meta::Meta;
use crate::touched::Touched;
use crate::walk::{directory_of, walk};
use std::alloc::{AllocError, Global};
use vx_base::{FileKind, Ino, Name, Refusal, Reply};
use vx_inode::MakeRefusal;
use vx_path::{SplitRefusal, split};

/// What a create or a mkdir makes.
#[derive(Clone, Copy, Debug, PartialEq, Eq)]
pub struct Making {
    pub kind: FileKind,
    pub mode: u16,
}

/// Makes an inode at the end of a path. Nothing changes where it is refused or memory is short.
pub fn make(
    meta: &mut Meta,
    alloc: Global,
    path: &[u8],
    making: Making,
    touched: &mut Touched,
) -> Result<Reply, AllocError>
    requires sound { IsSound meta.old }
    requires mode { making.mode ≤ 4095 }
    requires empty { touched.old ≡ untouched }
    ensures done { (s : State) → Stands meta.old s → IfOk result (IsSettled s (make_path s path.now (new_node making.kind making.mode)) meta.new touched.new) }
    ensures short { IfOk result IsShort }
    ensures fits { IfOk result (FitsReply touched.new) }
    ensures few { most touched.new ≤ 4 }
    ensures units { length touched.new.units ≤ 70 }
    ensures unchanged { OnErr result (IsUnchanged meta.old meta.new) }
    ensures untouched { OnErr result (touched.new ≡ untouched) }
{
    match split(alloc, path) {
        Ok(names) => make_along(meta, alloc, names.as_slice(), making, touched),
        Err(SplitRefusal::BadName) => Ok(Reply::Refused(Refusal::BadName)),
        Err(SplitRefusal::NoMemory) => Err(AllocError),
    }
}

/// Makes an inode at the end of these names.
fn make_along(
    meta: &mut Meta,
    alloc: Global,
    names: &[Name],
    making: Making,
    touched: &mut Touched,
) -> Result<Reply, AllocError>
    requires sound { IsSound meta.old }
    requires legal { list_all is_name names.now ≡ true }
    requires mode { making.mode ≤ 4095 }
    requires empty { touched.old ≡ untouched }
    ensures done { (s : State) → Stands meta.old s → IfOk result (IsSettled s (make_along s (new_node making.kind making.mode) names.now) meta.new touched.new) }
    ensures short { IfOk result IsShort }
    ensures fits { IfOk result (FitsReply touched.new) }
    ensures few { most touched.new ≤ 4 }
    ensures units { length touched.new.units ≤ 70 }
    ensures unchanged { OnErr result (IsUnchanged meta.old meta.new) }
    ensures untouched { OnErr result (touched.new ≡ untouched) }
{
    match names.split_last() {
        None => Ok(Reply::Refused(Refusal::Exist)),
        Some((name, above)) => match walk(meta, above) {
            Ok(at) => make_at(meta, alloc, at, name, making, touched),
            Err(why) => Ok(Reply::Refused(why)),
        },
    }
}

/// Makes an inode under a name of the inode `at`.
fn make_at(
    meta: &mut Meta,
    alloc: Global,
    at: Ino,
    name: &Name,
    making: Making,
    touched: &mut Touched,
) -> Result<Reply, AllocError>
    requires sound { IsSound meta.old }
    requires name { is_name name.now ≡ true }
    requires mode { making.mode ≤ 4095 }
    requires empty { touched.old ≡ untouched }
    ensures done { (s : State) → Stands meta.old s → IfOk result (IsSettled s (make_at s name.now (new_node making.kind making.mode) at) meta.new touched.new) }
    ensures short { IfOk result IsShort }
    ensures fits { IfOk result (FitsReply touched.new) }
    ensures few { most touched.new ≤ 4 }
    ensures units { length touched.new.units ≤ 70 }
    ensures unchanged { OnErr result (IsUnchanged meta.old meta.new) }
    ensures untouched { OnErr result (touched.new ≡ untouched) }
{
    match directory_of(meta, at) {
        Ok(directory) => {
            if directory.names().find(name).is_some() {
                return Ok(Reply::Refused(Refusal::Exist));
            }
        }
        Err(why) => return Ok(Reply::Refused(why)),
    }
    make_in(meta, alloc, at, name, making, touched)
}

/// Makes an inode under a name that the directory `at` does not have.
fn make_in(
    meta: &mut Meta,
    alloc: Global,
    at: Ino,
    name: &Name,
    making: Making,
    touched: &mut Touched,
) -> Result<Reply, AllocError>
    requires sound { IsSound meta.old }
    requires name { is_name name.now ≡ true }
    requires new { IsNewIn name.now (directory_of meta.old at) }
    requires mode { making.mode ≤ 4095 }
    requires empty { touched.old ≡ untouched }
    ensures done { (s : State) → Stands meta.old s → IfOk result (IsSettled s (make_at s name.now (new_node making.kind making.mode) at) meta.new touched.new) }
    ensures short { IfOk result IsShort }
    ensures fits { IfOk result (FitsReply touched.new) }
    ensures few { most touched.new ≤ 4 }
    ensures units { length touched.new.units ≤ 70 }
    ensures unchanged { OnErr result (IsUnchanged meta.old meta.new) }
    ensures untouched { OnErr result (touched.new ≡ untouched) }
{
    match make_node(meta, alloc, making.kind, making.mode, touched) {
        Ok(ino) => match add_name(meta, at, name, ino, touched) {
            Ok(()) => Ok(Reply::Made { ino }),
            Err(refusal) => {
                take_back(meta, ino);
                touched.clear();
                refused(refusal)
            }
        },
        Err(why) => full(why),
    }
}

/// What is answered where no inode is made.
fn full(why: MakeRefusal) -> Result<Reply, AllocError>
    ensures { result ≡ full_reply why }
{
    match why {
        MakeRefusal::NoInodes { in_use } => Ok(Reply::Refused(Refusal::NoInodes { in_use })),
        MakeRefusal::NoMemory => Err(AllocError),
    }
}

/// What a call answers whose edit is refused.
pub fn refused(refusal: EditRefusal) -> Result<Reply, AllocError>
    ensures { result ≡ refusal_reply refusal }
{
    match refusal {
        EditRefusal::Refused(why) => Ok(Reply::Refused(why)),
        EditRefusal::NoMemory => Err(AllocError),
    }
}
