//! rename
ghost use Rattle.std.specs.Prelude.{◌≡◌, ◌≢◌, ◌≤◌, ℕ, Ok, Err, Some, true, false, IfOk, IfErr, OnErr, IsTrue, length};
ghost use Rattle.std.specs.List.{list_all};
ghost use Rattle.std.specs.Option.{option_map};
ghost use Rattle.std.specs.FinMap as map;
ghost use Rattle.vx_base.specs.Paths.{is_name};
ghost use Rattle.vx_base.specs.declared.refusal.Refusal.TheVariants as no;
ghost use Rattle.vx_model.specs.Legal.{is_any_time};
ghost use Rattle.vx_model.specs.Moving.{begins_with, is_below, rename, rename_along, move_to, move_node, move_onto, replace_by, enter};
ghost use Rattle.vx_model.specs.Edits.{remove_name};
ghost use Rattle.vx_model.specs.State.{State};
ghost use Rattle.vx_model.specs.Touching.{untouched};
ghost use Rattle.vx_model.specs.Tree as tree;
ghost use Rattle.vx_model.specs.Tree.{Node};
ghost use Rattle.vx_model.specs.Walks.{step_to, directory_at};
ghost use Rattle.vx_txn.specs.Calls.{IsSettled, most};
ghost use Rattle.vx_inode.specs.Tables.{is_used};
ghost use Rattle.vx_txn.specs.Directories.{DirectoryValue, IsNewIn};
ghost use Rattle.vx_txn.specs.Metas.{Stands, IsSound, IsUnchanged, directory_of};
ghost use Rattle.vx_txn.specs.Removals.{IsRootUsed};
ghost use Rattle.vx_txn.specs.Renames.{IsNamesOf, rename_new, entry, move_of, move_along, kind_of, replaceable, put_over};
ghost use Rattle.vx_txn.specs.Replies.{FitsReply, IsShort};

use crate::edits::{add_name, remove_name};
use crate::make::refused;
use crate::meta::Meta;
use crate::remove::{drop_name, links_of};
use crate::slots;
use crate::touched::Touched;
use crate::walk::{directory_of, step_to, walk};
use std::alloc::{AllocError, Global};
use vx_base::{FileKind, Ino, Name, Names, Refusal, Reply};
use vx_dir::DirBlocks;
use vx_model::states::plain_states;
use vx_path::{SplitRefusal, split};

/// A name of the directory `at`, and the inode that it means.
#[derive(Clone, Copy)]
pub struct Source<'a> {
    pub at: Ino,
    pub name: &'a Name,
    pub ino: Ino,
}

/// What moves, and the name of the directory `to` that it gets.
#[derive(Clone, Copy)]
pub struct Move<'a> {
    pub from: Source<'a>,
    pub to: Ino,
    pub name: &'a Name,
}

/// Moves what a path names to another path.
pub fn rename(
    meta: &mut Meta,
    alloc: Global,
    old: &[u8],
    new: &[u8],
    place: u64,
    touched: &mut Touched,
) -> Result<Reply, AllocError>
    requires sound { IsSound meta.old }
    requires empty { touched.old ≡ untouched }
    ensures done { (s : State) → Stands meta.old s → IfOk result (IsSettled s (rename s place old.now new.now) meta.new touched.new) }
    ensures short { IfOk result IsShort }
    ensures fits { IfOk result (FitsReply touched.new) }
    ensures few { most touched.new ≤ 4 }
    ensures units { length touched.new.units ≤ 70 }
    ensures unchanged { OnErr result (IsUnchanged meta.old meta.new) }
    ensures untouched { OnErr result (touched.new ≡ untouched) }
{
    match split(alloc, old) {
        Ok(names) => rename_names(meta, alloc, &names, new, place, touched),
        Err(SplitRefusal::BadName) => Ok(Reply::Refused(Refusal::BadName)),
        Err(SplitRefusal::NoMemory) => Err(AllocError),
    }
}

/// Moves what stands at the end of these names.
fn rename_names(
    meta: &mut Meta,
    alloc: Global,
    old: &Names,
    new: &[u8],
    place: u64,
    touched: &mut Touched,
) -> Result<Reply, AllocError>
    requires sound { IsSound meta.old }
    requires empty { touched.old ≡ untouched }
    ensures done { (s : State) → Stands meta.old s → IfOk result (IsSettled s (rename_new s place old.now new.now) meta.new touched.new) }
    ensures short { IfOk result IsShort }
    ensures fits { IfOk result (FitsReply touched.new) }
    ensures few { most touched.new ≤ 4 }
    ensures units { length touched.new.units ≤ 70 }
    ensures unchanged { OnErr result (IsUnchanged meta.old meta.new) }
    ensures untouched { OnErr result (touched.new ≡ untouched) }
{
    match split(alloc, new) {
        Ok(names) => rename_along(meta, old.as_slice(), names.as_slice(), place, touched),
        Err(SplitRefusal::BadName) => Ok(Reply::Refused(Refusal::BadName)),
        Err(SplitRefusal::NoMemory) => Err(AllocError),
    }
}

fn rename_along(
    meta: &mut Meta,
    old: &[Name],
    new: &[Name],
    place: u64,
    touched: &mut Touched,
) -> Result<Reply, AllocError>
    requires sound { IsSound meta.old }
    requires legal { list_all is_name new.now ≡ true }
    requires empty { touched.old ≡ untouched }
    ensures done { (s : State) → Stands meta.old s → IfOk result (IsSettled s (rename_along s place old.now new.now) meta.new touched.new) }
    ensures short { IfOk result IsShort }
    ensures fits { IfOk result (FitsReply touched.new) }
    ensures few { most touched.new ≤ 4 }
    ensures units { length touched.new.units ≤ 70 }
    ensures unchanged { OnErr result (IsUnchanged meta.old meta.new) }
    ensures untouched { OnErr result (touched.new ≡ untouched) }
{
    if new.is_empty() {
        return Ok(Reply::Refused(Refusal::RootFixed));
    }
    let below = is_below(old, new);
    match old.split_last() {
        None => Ok(Reply::Refused(Refusal::RootFixed)),
        Some((name, above)) => match walk(meta, above) {
            Ok(at) => match step_to(meta, at, name) {
                Ok(ino) => {
                    move_along(meta, &Source { at, name, ino }, new, below, place, touched)
                }
                Err(why) => Ok(Reply::Refused(why)),
            },
            Err(why) => Ok(Reply::Refused(why)),
        },
    }
}

/// Moves an entry to the end of these names.
fn move_along<'a>(
    meta: &mut Meta,
    from: &Source<'a>,
    new: &'a [Name],
    below: bool,
    place: u64,
    touched: &mut Touched,
) -> Result<Reply, AllocError>
    requires sound { IsSound meta.old }
    requires entry { (s : State) → Stands meta.old s → step_to s.tree.nodes from.now.at from.now.name.now ≡ Ok from.now.ino }
    requires root { (s : State) → Stands meta.old s → IsRootUsed s.tree.nodes }
    requires legal { list_all is_name new.now ≡ true }
    requires empty { touched.old ≡ untouched }
    ensures done { (s : State) → Stands meta.old s → IfOk result (IsSettled s (move_along s place below new.now (entry from.now)) meta.new touched.new) }
    ensures short { IfOk result IsShort }
    ensures fits { IfOk result (FitsReply touched.new) }
    ensures few { most touched.new ≤ 4 }
    ensures units { length touched.new.units ≤ 70 }
    ensures unchanged { OnErr result (IsUnchanged meta.old meta.new) }
    ensures untouched { OnErr result (touched.new ≡ untouched) }
{
    match new.split_last() {
        None => Ok(Reply::Refused(Refusal::RootFixed)),
        Some((name, above)) => match walk(meta, above) {
            Ok(to) => {
                let from = Source {
                    at: from.at,
                    name: from.name,
                    ino: from.ino,
                };
                move_to(meta, &Move { from, to, name }, below, place, touched)
            }
            Err(why) => Ok(Reply::Refused(why)),
        },
    }
}

/// Moves an entry to a name of the inode `to`; `below` says whether that is below the entry.
fn move_to(
    meta: &mut Meta,
    m: &Move<'_>,
    below: bool,
    place: u64,
    touched: &mut Touched,
) -> Result<Reply, AllocError>
    requires sound { IsSound meta.old }
    requires entry { (s : State) → Stands meta.old s → step_to s.tree.nodes m.now.from.at m.now.from.name.now ≡ Ok m.now.from.ino }
    requires root { (s : State) → Stands meta.old s → IsRootUsed s.tree.nodes }
    requires name { is_name m.now.name.now ≡ true }
    requires empty { touched.old ≡ untouched }
    ensures done { (s : State) → Stands meta.old s → IfOk result (IsSettled s (move_to s place below (entry m.now.from) m.now.name.now m.now.to) meta.new touched.new) }
    ensures short { IfOk result IsShort }
    ensures fits { IfOk result (FitsReply touched.new) }
    ensures few { most touched.new ≤ 4 }
    ensures units { length touched.new.units ≤ 70 }
    ensures unchanged { OnErr result (IsUnchanged meta.old meta.new) }
    ensures untouched { OnErr result (touched.new ≡ untouched) }
{
    match directory_of(meta, m.to) {
        Ok(_) => {}
        Err(why) => return Ok(Reply::Refused(why)),
    }
    match kind_of(meta, m.from.ino) {
        None => Ok(Reply::Refused(Refusal::NoEnt)),
        Some(FileKind::Directory) if below => Ok(Reply::Refused(Refusal::IntoItself)),
        Some(kind) => move_onto(meta, m, kind, place, touched),
    }
}

/// What an inode is, if there is one.
fn kind_of(meta: &Meta, ino: Ino) -> Option<FileKind>
    ensures { (s : State) → Stands meta.now s → result ≡ option_map kind_of (map.get s.tree.nodes ino) }
{
    match meta.inodes.get(ino) {
        Some(inode) => Some(inode.kind),
        None => None,
    }
}

/// Moves an entry to a name of the directory `to`; what stands there decides.
fn move_onto(
    meta: &mut Meta,
    m: &Move<'_>,
    kind: FileKind,
    place: u64,
    touched: &mut Touched,
) -> Result<Reply, AllocError>
    requires sound { IsSound meta.old }
    requires entry { (s : State) → Stands meta.old s → step_to s.tree.nodes m.now.from.at m.now.from.name.now ≡ Ok m.now.from.ino }
    requires directory { (d : DirectoryValue) × (directory_of meta.old m.now.to ≡ Some d) }
    requires kind { (s : State) → Stands meta.old s → option_map kind_of (map.get s.tree.nodes m.now.from.ino) ≡ Some kind }
    requires root { (s : State) → Stands meta.old s → IsRootUsed s.tree.nodes }
    requires name { is_name m.now.name.now ≡ true }
    requires empty { touched.old ≡ untouched }
    ensures done { (s : State) (d : tree.Directory) (node : Node) → Stands meta.old s → directory_at s.tree.nodes m.now.to ≡ Ok d → map.get s.tree.nodes m.now.from.ino ≡ Some node
        → IfOk result (IsSettled s (move_onto s place (move_of m.now node) (map.get d.entries m.now.name.now)) meta.new touched.new) }
    ensures short { IfOk result IsShort }
    ensures fits { IfOk result (FitsReply touched.new) }
    ensures few { most touched.new ≤ 4 }
    ensures units { length touched.new.units ≤ 70 }
    ensures unchanged { OnErr result (IsUnchanged meta.old meta.new) }
    ensures untouched { OnErr result (touched.new ≡ untouched) }
{
    plain_states();
    match step_to(meta, m.to, m.name) {
        Ok(target) => {
            if target == m.from.ino {
                return Ok(Reply::Fine);
            }
            match replaceable(meta, kind, target) {
                Ok(()) => put_over(meta, m, target, place, touched),
                Err(why) => Ok(Reply::Refused(why)),
            }
        }
        Err(_) => put_in(meta, m, touched),
    }
}

/// Whether an inode of this kind may stand in the place of another, or why not.
fn replaceable(meta: &Meta, kind: FileKind, target: Ino) -> Result<(), Refusal>
    ensures answer { (s : State) → Stands meta.now s → result ≡ replaceable s.tree.nodes kind target }
    ensures refusal { IfErr result (λ why. is_any_time why ≡ false) }
{
    match kind {
        FileKind::File => match links_of(meta, target) {
            Ok(_) => Ok(()),
            Err(why) => Err(why),
        },
        FileKind::Directory => match directory_of(meta, target) {
            Ok(directory) => {
                directory.names().kept();
                if directory.names().entries() == 0 {
                    Ok(())
                } else {
                    Err(Refusal::NotEmpty)
                }
            }
            Err(why) => Err(why),
        },
    }
}

/// Moves an entry to a name that the directory `to` does not have. Nothing changes where there is no place for it or memory
/// is short.
fn put_in(meta: &mut Meta, m: &Move<'_>, touched: &mut Touched) -> Result<Reply, AllocError>
    requires sound { IsSound meta.old }
    requires entry { (s : State) → Stands meta.old s → step_to s.tree.nodes m.now.from.at m.now.from.name.now ≡ Ok m.now.from.ino }
    requires used { IsTrue (is_used meta.old.inodes m.now.from.ino) }
    requires free { IsNewIn m.now.name.now (directory_of meta.old m.now.to) }
    requires name { is_name m.now.name.now ≡ true }
    requires empty { touched.old ≡ untouched }
    ensures done { (s : State) (node : Node) → Stands meta.old s → map.get s.tree.nodes m.now.from.ino ≡ Some node
        → IfOk result (IsSettled s (enter (remove_name s m.now.from.at m.now.from.name.now) (move_of m.now node)) meta.new touched.new) }
    ensures short { IfOk result IsShort }
    ensures fits { IfOk result (FitsReply touched.new) }
    ensures few { most touched.new ≤ 4 }
    ensures units { length touched.new.units ≤ 70 }
    ensures unchanged { OnErr result (IsUnchanged meta.old meta.new) }
    ensures untouched { OnErr result (touched.new ≡ untouched) }
{
    let before = copy_at(meta, m.from.at)?;
    remove_name(meta, m.from.at, m.from.name, touched);
    match add_name(meta, m.to, m.name, m.from.ino, touched) {
        Ok(()) => Ok(Reply::Fine),
        Err(refusal) => {
            put_back(meta, m.from.at, before);
            touched.clear();
            refused(refusal)
        }
    }
}

/// Moves an entry to the place of another. Nothing changes where memory is short.
fn put_over(
    meta: &mut Meta,
    m: &Move<'_>,
    target: Ino,
    place: u64,
    touched: &mut Touched,
) -> Result<Reply, AllocError>
    requires sound { IsSound meta.old }
    requires entry { (s : State) → Stands meta.old s → step_to s.tree.nodes m.now.from.at m.now.from.name.now ≡ Ok m.now.from.ino }
    requires target { (s : State) → Stands meta.old s → step_to s.tree.nodes m.now.to m.now.name.now ≡ Ok target }
    requires used { IsTrue (is_used meta.old.inodes m.now.from.ino) }
    requires target_used { IsTrue (is_used meta.old.inodes target) }
    requires not_root { target ≢ 2 }
    requires not_from { target ≢ m.now.from.at }
    requires not_to { target ≢ m.now.to }
    requires name { is_name m.now.name.now ≡ true }
    requires empty { touched.old ≡ untouched }
    ensures done { (s : State) (node old : Node) → Stands meta.old s → map.get s.tree.nodes m.now.from.ino ≡ Some node → map.get s.tree.nodes target ≡ Some old
        → IfOk result (IsSettled s (put_over s place (move_of m.now node) target old) meta.new touched.new) }
    ensures short { IfOk result IsShort }
    ensures fits { IfOk result (FitsReply touched.new) }
    ensures few { most touched.new ≤ 4 }
    ensures units { length touched.new.units ≤ 70 }
    ensures unchanged { OnErr result (IsUnchanged meta.old meta.new) }
    ensures untouched { OnErr result (touched.new ≡ untouched) }
{
    let before_from = copy_at(meta, m.from.at)?;
    let before_to = copy_at(meta, m.to)?;
    remove_name(meta, m.from.at, m.from.name, touched);
    remove_name(meta, m.to, m.name, touched);
    match add_name(meta, m.to, m.name, m.from.ino, touched) {
        Ok(()) => {
            drop_name(meta, target, place, touched);
            Ok(Reply::Fine)
        }
        Err(refusal) => {
            put_back(meta, m.to, before_to);
            put_back(meta, m.from.at, before_from);
            touched.clear();
            refused(refusal)
        }
    }
}

// ---- what is put back

/// The names of the directory of an inode number, in memory of their own.
fn copy_at(meta: &Meta, at: Ino) -> Result<DirBlocks, AllocError>
    requires { (d : DirectoryValue) × (directory_of meta.now at ≡ Some d) }
    ensures { IfOk result (IsNamesOf (directory_of meta.now at)) }
{
    match meta.directory(at) {
        Some(directory) => directory.names().copy(),
        None => unreachable!(),
    }
}

/// Gives a directory the names that it had.
fn put_back(meta: &mut Meta, at: Ino, before: DirBlocks)
    ensures here { (d : DirectoryValue) → directory_of meta.old at ≡ Some d → directory_of meta.new at ≡ Some (record d { names = before }) }
    ensures others { (n : ℕ) → n ≢ at → directory_of meta.new n ≡ directory_of meta.old n }
    ensures inodes { meta.new.inodes ≡ meta.old.inodes }
    ensures free { meta.new.free ≡ meta.old.free }
    ensures first { meta.new.first ≡ meta.old.first }
{
    slots::put_names(meta.directories.as_mut_slice(), at, before);
}

// ---- paths

/// Whether the names begin with these, and go on.
fn is_below(above: &[Name], names: &[Name]) -> bool
    ensures { result ≡ is_below above.now names.now }
{
    begins_with(above, names) && !begins_with(names, above)
}

/// Whether the names begin with these.
fn begins_with(above: &[Name], names: &[Name]) -> bool
    ensures { result ≡ begins_with above.now names.now }
{
    for i in 0..above.len() {
        if i >= names.len() {
            return false;
        }
        if above[i] != names[i] {
            return false;
        }
    }
    true
}
