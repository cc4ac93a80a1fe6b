//! link
ghost use Rattle.std.specs.Prelude.{◌≡◌, ◌≤◌, Ok, true, IfOk, OnErr, length};
ghost use Rattle.std.specs.List.{list_all};
ghost use Rattle.vx_base.specs.Paths.{is_name};
ghost use Rattle.vx_model.specs.Linking.{link, link_along, link_inode};
ghost use Rattle.vx_model.specs.State.{State};
ghost use Rattle.vx_model.specs.Touching.{untouched};
ghost use Rattle.vx_txn.specs.Calls.{IsSettled, most};
ghost use Rattle.vx_txn.specs.Directories.{IsNewIn};
ghost use Rattle.vx_txn.specs.Metas.{Stands, IsSound, IsUnchanged, directory_of};
ghost use Rattle.vx_txn.specs.Removals.{links_of};
ghost use Rattle.vx_txn.specs.Links.{link_new, link_to};
ghost use Rattle.vx_txn.specs.Replies.{FitsReply, IsShort};

use crate::edits::{add_link, add_name};
use crate::make::refused;
use crate::meta::Meta;
use crate::remove::links_of;
use crate::touched::Touched;
use crate::walk::{directory_of, walk};
use std::alloc::{AllocError, Global};
use vx_base::{Ino, Name, Names, Refusal, Reply};
use vx_path::{SplitRefusal, split};

/// The most names that an inode may have.
const MAX_LINKS: u16 = 32_767;

/// Gives a file a further name.
pub fn link(
    meta: &mut Meta,
    alloc: Global,
    old: &[u8],
    new: &[u8],
    touched: &mut Touched,
) -> Result<Reply, AllocError>
    requires sound { IsSound meta.old }
    requires empty { touched.old ≡ untouched }
    ensures done { (s : State) → Stands meta.old s → IfOk result (IsSettled s (link s old.now new.now) meta.new touched.new) }
    ensures short { IfOk result IsShort }
    ensures fits { IfOk result (FitsReply touched.new) }
    ensures few { most touched.new ≤ 4 }
    ensures units { length touched.new.units ≤ 70 }
    ensures unchanged { OnErr result (IsUnchanged meta.old meta.new) }
    ensures untouched { OnErr result (touched.new ≡ untouched) }
{
    match split(alloc, old) {
        Ok(names) => link_names(meta, alloc, &names, new, touched),
        Err(SplitRefusal::BadName) => Ok(Reply::Refused(Refusal::BadName)),
        Err(SplitRefusal::NoMemory) => Err(AllocError),
    }
}

/// Gives the file at the end of these names a further name.
fn link_names(
    meta: &mut Meta,
    alloc: Global,
    old: &Names,
    new: &[u8],
    touched: &mut Touched,
) -> Result<Reply, AllocError>
    requires sound { IsSound meta.old }
    requires empty { touched.old ≡ untouched }
    ensures done { (s : State) → Stands meta.old s → IfOk result (IsSettled s (link_new s old.now new.now) meta.new touched.new) }
    ensures short { IfOk result IsShort }
    ensures fits { IfOk result (FitsReply touched.new) }
    ensures few { most touched.new ≤ 4 }
    ensures units { length touched.new.units ≤ 70 }
    ensures unchanged { OnErr result (IsUnchanged meta.old meta.new) }
    ensures untouched { OnErr result (touched.new ≡ untouched) }
{
    match split(alloc, new) {
        Ok(names) => link_along(meta, old.as_slice(), names.as_slice(), touched),
        Err(SplitRefusal::BadName) => Ok(Reply::Refused(Refusal::BadName)),
        Err(SplitRefusal::NoMemory) => Err(AllocError),
    }
}

fn link_along(
    meta: &mut Meta,
    old: &[Name],
    new: &[Name],
    touched: &mut Touched,
) -> Result<Reply, AllocError>
    requires sound { IsSound meta.old }
    requires legal { list_all is_name new.now ≡ true }
    requires empty { touched.old ≡ untouched }
    ensures done { (s : State) → Stands meta.old s → IfOk result (IsSettled s (link_along s old.now new.now) meta.new touched.new) }
    ensures short { IfOk result IsShort }
    ensures fits { IfOk result (FitsReply touched.new) }
    ensures few { most touched.new ≤ 4 }
    ensures units { length touched.new.units ≤ 70 }
    ensures unchanged { OnErr result (IsUnchanged meta.old meta.new) }
    ensures untouched { OnErr result (touched.new ≡ untouched) }
{
    match walk(meta, old) {
        Ok(ino) => match links_of(meta, ino) {
            Ok(nlink) => link_file(meta, ino, nlink, new, touched),
            Err(why) => Ok(Reply::Refused(why)),
        },
        Err(why) => Ok(Reply::Refused(why)),
    }
}

/// Gives a file of so many names one more, at the end of these names.
fn link_file(
    meta: &mut Meta,
    ino: Ino,
    nlink: u16,
    new: &[Name],
    touched: &mut Touched,
) -> Result<Reply, AllocError>
    requires sound { IsSound meta.old }
    requires file { (s : State) → Stands meta.old s → links_of s.tree.nodes ino ≡ Ok nlink }
    requires legal { list_all is_name new.now ≡ true }
    requires empty { touched.old ≡ untouched }
    ensures done { (s : State) → Stands meta.old s → IfOk result (IsSettled s (link_inode s new.now ino) meta.new touched.new) }
    ensures short { IfOk result IsShort }
    ensures fits { IfOk result (FitsReply touched.new) }
    ensures few { most touched.new ≤ 4 }
    ensures units { length touched.new.units ≤ 70 }
    ensures unchanged { OnErr result (IsUnchanged meta.old meta.new) }
    ensures untouched { OnErr result (touched.new ≡ untouched) }
{
    match new.split_last() {
        None => Ok(Reply::Refused(Refusal::Exist)),
        Some((name, above)) => match walk(meta, above) {
            Ok(at) => link_at(meta, ino, nlink, at, name, touched),
            Err(why) => Ok(Reply::Refused(why)),
        },
    }
}

/// Gives a file a name of the inode `at`.
fn link_at(
    meta: &mut Meta,
    ino: Ino,
    nlink: u16,
    at: Ino,
    name: &Name,
    touched: &mut Touched,
) -> Result<Reply, AllocError>
    requires sound { IsSound meta.old }
    requires file { (s : State) → Stands meta.old s → links_of s.tree.nodes ino ≡ Ok nlink }
    requires name { is_name name.now ≡ true }
    requires empty { touched.old ≡ untouched }
    ensures done { (s : State) → Stands meta.old s → IfOk result (IsSettled s (link_to s ino at name.now) meta.new touched.new) }
    ensures short { IfOk result IsShort }
    ensures fits { IfOk result (FitsReply touched.new) }
    ensures few { most touched.new ≤ 4 }
    ensures units { length touched.new.units ≤ 70 }
    ensures unchanged { OnErr result (IsUnchanged meta.old meta.new) }
    ensures untouched { OnErr result (touched.new ≡ untouched) }
{
    match directory_of(meta, at) {
        Ok(directory) => {
            if directory.names().find(name).is_some() {
                return Ok(Reply::Refused(Refusal::Exist));
            }
        }
        Err(why) => return Ok(Reply::Refused(why)),
    }
    link_in(meta, ino, nlink, at, name, touched)
}

/// Gives a file a name that the directory `at` does not have.
fn link_in(
    meta: &mut Meta,
    ino: Ino,
    nlink: u16,
    at: Ino,
    name: &Name,
    touched: &mut Touched,
) -> Result<Reply, AllocError>
    requires sound { IsSound meta.old }
    requires file { (s : State) → Stands meta.old s → links_of s.tree.nodes ino ≡ Ok nlink }
    requires name { is_name name.now ≡ true }
    requires new { IsNewIn name.now (directory_of meta.old at) }
    requires empty { touched.old ≡ untouched }
    ensures done { (s : State) → Stands meta.old s → IfOk result (IsSettled s (link_to s ino at name.now) meta.new touched.new) }
    ensures short { IfOk result IsShort }
    ensures fits { IfOk result (FitsReply touched.new) }
    ensures few { most touched.new ≤ 4 }
    ensures units { length touched.new.units ≤ 70 }
    ensures unchanged { OnErr result (IsUnchanged meta.old meta.new) }
    ensures untouched { OnErr result (touched.new ≡ untouched) }
{
    if nlink >= MAX_LINKS {
        return Ok(Reply::Refused(Refusal::TooManyLinks { nlink }));
    }
    match add_name(meta, at, name, ino, touched) {
        Ok(()) => {
            add_link(meta, ino, touched);
            Ok(Reply::Fine)
        }
        Err(refusal) => refused(refusal),
    }
}
