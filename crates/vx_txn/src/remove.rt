//! unlink and rmdir.
ghost use Rattle.std.specs.Prelude.{◌≡◌, ◌≢◌, ◌≤◌, ◌+◌, ◌<◌, ℕ, Ok, Some, false, IfOk, IfErr, OnErr, IsTrue, ◌↔◌, length};
ghost use Rattle.std.specs.FinMap as map;
ghost use Rattle.vx_inode.specs.Tables.{is_used, links_at};
ghost use Rattle.vx_model.specs.Legal.{is_any_time};
ghost use Rattle.vx_model.specs.Removing.{unlink, unlink_along, unlink_entry, rmdir, rmdir_along, remove_directory};
ghost use Rattle.vx_model.specs.State.{State};
ghost use Rattle.vx_model.specs.Touching.{untouched};
ghost use Rattle.vx_model.specs.Tree.{Node};
ghost use Rattle.vx_model.specs.Walks.{step_to};
ghost use Rattle.vx_txn.specs.Calls.{HasGone, IsSettled, most};
ghost use Rattle.vx_txn.specs.Metas.{Stands, IsSound, IsUnchanged};
ghost use Rattle.vx_txn.specs.Removals.{links_of, unnamed, entry_of, unlink_at, rmdir_at, IsRootUsed};
ghost use Rattle.vx_txn.specs.Replies.{FitsReply, IsShort};

use crate::edits::{drop_node, remove_link, remove_name};
use crate::meta::Meta;
use crate::touched::Touched;
use crate::walk::{directory_of, step_to, walk};
use std::alloc::{AllocError, Global};
use vx_base::{FileKind, Ino, Name, Refusal, Reply};
use vx_model::states::plain_states;
use vx_path::{SplitRefusal, split};

// ---- unlink

/// Removes a name of a file.
pub fn unlink(
    meta: &mut Meta,
    alloc: Global,
    path: &[u8],
    place: u64,
    touched: &mut Touched,
) -> Result<Reply, AllocError>
    requires sound { IsSound meta.old }
    requires empty { touched.old ≡ untouched }
    ensures done { (s : State) → Stands meta.old s → IfOk result (IsSettled s (unlink s place path.now) meta.new touched.new) }
    ensures short { IfOk result IsShort }
    ensures fits { IfOk result (FitsReply touched.new) }
    ensures few { most touched.new ≤ 4 }
    ensures units { length touched.new.units ≤ 70 }
    ensures unchanged { OnErr result (IsUnchanged meta.old meta.new) }
    ensures untouched { OnErr result (touched.new ≡ untouched) }
{
    match split(alloc, path) {
        Ok(names) => Ok(unlink_along(meta, names.as_slice(), place, touched)),
        Err(SplitRefusal::BadName) => Ok(Reply::Refused(Refusal::BadName)),
        Err(SplitRefusal::NoMemory) => Err(AllocError),
    }
}

/// Removes the name at the end of these names.
fn unlink_along(meta: &mut Meta, names: &[Name], place: u64, touched: &mut Touched) -> Reply
    requires sound { IsSound meta.old }
    requires empty { touched.old ≡ untouched }
    ensures done { (s : State) → Stands meta.old s → IsSettled s (unlink_along s place names.now) meta.new touched.new result }
    ensures short { IsShort result }
    ensures fits { FitsReply touched.new result }
    ensures few { most touched.new ≤ 4 }
    ensures units { length touched.new.units ≤ 70 }
{
    match names.split_last() {
        None => Reply::Refused(Refusal::IsDir),
        Some((name, above)) => match walk(meta, above) {
            Ok(at) => unlink_at(meta, at, name, place, touched),
            Err(why) => Reply::Refused(why),
        },
    }
}

/// Removes a name of the directory `at`.
fn unlink_at(meta: &mut Meta, at: Ino, name: &Name, place: u64, touched: &mut Touched) -> Reply
    requires sound { IsSound meta.old }
    requires empty { touched.old ≡ untouched }
    ensures done { (s : State) → Stands meta.old s → IsSettled s (unlink_at s place at name.now) meta.new touched.new result }
    ensures short { IsShort result }
    ensures fits { FitsReply touched.new result }
    ensures few { most touched.new ≤ 4 }
    ensures units { length touched.new.units ≤ 70 }
{
    match step_to(meta, at, name) {
        Ok(ino) => unlink_entry(meta, at, name, ino, place, touched),
        Err(why) => Reply::Refused(why),
    }
}

/// Removes a name of the directory `at` that means this inode.
fn unlink_entry(
    meta: &mut Meta,
    at: Ino,
    name: &Name,
    ino: Ino,
    place: u64,
    touched: &mut Touched,
) -> Reply
    requires sound { IsSound meta.old }
    requires entry { (s : State) → Stands meta.old s → step_to s.tree.nodes at name.now ≡ Ok ino }
    requires empty { touched.old ≡ untouched }
    ensures done { (s : State) → Stands meta.old s → IsSettled s (unlink_entry s place (entry_of at name.now ino)) meta.new touched.new result }
    ensures short { IsShort result }
    ensures fits { FitsReply touched.new result }
    ensures few { most touched.new ≤ 4 }
    ensures units { length touched.new.units ≤ 70 }
{
    plain_states();
    match links_of(meta, ino) {
        Ok(_) => {
            remove_name(meta, at, name, touched);
            drop_name(meta, ino, place, touched);
            Reply::Fine
        }
        Err(why) => Reply::Refused(why),
    }
}

/// The number of a file's names.
pub fn links_of(meta: &Meta, ino: Ino) -> Result<u16, Refusal>
    ensures links { (s : State) → Stands meta.now s → result ≡ links_of s.tree.nodes ino }
    ensures refusal { IfErr result (λ why. is_any_time why ≡ false) }
{
    match meta.inodes.get(ino) {
        None => Err(Refusal::NoEnt),
        Some(inode) => match inode.kind {
            FileKind::File => Ok(inode.nlink),
            FileKind::Directory => Err(Refusal::IsDir),
        },
    }
}

/// Counts one name less of an inode, which goes with its last name.
pub fn drop_name(meta: &mut Meta, ino: Ino, place: u64, touched: &mut Touched)
    requires sound { IsSound meta.old }
    requires used { IsTrue (is_used meta.old.inodes ino) }
    requires other { ino ≢ 2 }
    requires few { most touched.old < 4 }
    requires room { length touched.old.units ≤ 5 }
    ensures unnamed { (base s : State) (node : Node) → HasGone base s meta.old touched.old → map.get s.tree.nodes ino ≡ Some node
        → HasGone base (unnamed s place ino node) meta.new touched.new }
    ensures few { most touched.new ≤ most touched.old + 1 }
    ensures units { length touched.new.units ≤ length touched.old.units + 65 }
{
    if has_more_names(meta, ino) {
        remove_link(meta, ino, touched);
    } else {
        drop_node(meta, ino, place, touched);
    }
}

fn has_more_names(meta: &Meta, ino: Ino) -> bool
    ensures { IsTrue result ↔ (1 < links_at meta.now.inodes ino) }
{
    match meta.inodes.get(ino) {
        Some(inode) => inode.nlink > 1,
        None => false,
    }
}

// ---- rmdir

/// Removes an empty directory.
pub fn rmdir(
    meta: &mut Meta,
    alloc: Global,
    path: &[u8],
    place: u64,
    touched: &mut Touched,
) -> Result<Reply, AllocError>
    requires sound { IsSound meta.old }
    requires empty { touched.old ≡ untouched }
    ensures done { (s : State) → Stands meta.old s → IfOk result (IsSettled s (rmdir s place path.now) meta.new touched.new) }
    ensures short { IfOk result IsShort }
    ensures fits { IfOk result (FitsReply touched.new) }
    ensures few { most touched.new ≤ 4 }
    ensures units { length touched.new.units ≤ 70 }
    ensures unchanged { OnErr result (IsUnchanged meta.old meta.new) }
    ensures untouched { OnErr result (touched.new ≡ untouched) }
{
    match split(alloc, path) {
        Ok(names) => Ok(rmdir_along(meta, names.as_slice(), place, touched)),
        Err(SplitRefusal::BadName) => Ok(Reply::Refused(Refusal::BadName)),
        Err(SplitRefusal::NoMemory) => Err(AllocError),
    }
}

/// Removes the directory at the end of these names.
fn rmdir_along(meta: &mut Meta, names: &[Name], place: u64, touched: &mut Touched) -> Reply
    requires sound { IsSound meta.old }
    requires empty { touched.old ≡ untouched }
    ensures done { (s : State) → Stands meta.old s → IsSettled s (rmdir_along s place names.now) meta.new touched.new result }
    ensures short { IsShort result }
    ensures fits { FitsReply touched.new result }
    ensures few { most touched.new ≤ 4 }
    ensures units { length touched.new.units ≤ 70 }
{
    match names.split_last() {
        None => Reply::Refused(Refusal::RootFixed),
        Some((name, above)) => match walk(meta, above) {
            Ok(at) => match step_to(meta, at, name) {
                Ok(ino) => remove_directory(meta, at, name, ino, place, touched),
                Err(why) => Reply::Refused(why),
            },
            Err(why) => Reply::Refused(why),
        },
    }
}

/// Removes an empty directory that a name of the directory `at` means.
fn remove_directory(
    meta: &mut Meta,
    at: Ino,
    name: &Name,
    ino: Ino,
    place: u64,
    touched: &mut Touched,
) -> Reply
    requires sound { IsSound meta.old }
    requires entry { (s : State) → Stands meta.old s → step_to s.tree.nodes at name.now ≡ Ok ino }
    requires root { (s : State) → Stands meta.old s → IsRootUsed s.tree.nodes }
    requires empty { touched.old ≡ untouched }
    ensures done { (s : State) → Stands meta.old s → IsSettled s (remove_directory s place (entry_of at name.now ino)) meta.new touched.new result }
    ensures short { IsShort result }
    ensures fits { FitsReply touched.new result }
    ensures few { most touched.new ≤ 4 }
    ensures units { length touched.new.units ≤ 70 }
{
    match directory_of(meta, ino) {
        Ok(directory) => {
            directory.names().kept();
            if directory.names().entries() != 0 {
                return Reply::Refused(Refusal::NotEmpty);
            }
        }
        Err(why) => return Reply::Refused(why),
    }
    remove_name(meta, at, name, touched);
    drop_node(meta, ino, place, touched);
    Reply::Fine
}
