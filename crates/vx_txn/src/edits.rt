//! The edits that calls are made of.
ghost use Rattle.std.specs.Prelude.{◌≡◌, ◌≢◌, ◌+◌, ◌-◌, ◌*◌, ◌/◌, ◌++◌, ◌<◌, ◌≤◌, ℕ, List, Ok, Err, Some, None, true, false, IfOk, IfErr, IfSome, OnOk, OnErr, IsTrue, drop, length};
ghost use Rattle.std.specs.Option.{option_copied};
ghost use Rattle.vx_base.specs.Paths.{is_name};
ghost use Rattle.vx_filemaps.specs.Settles.{CanWait, pended};
ghost use Rattle.vx_inode.specs.Tables.{inode_at, is_used, links_at, without_inode};
ghost use Rattle.vx_model.specs.Edits.{add_name, remove_name, set_node, drop_node};
ghost use Rattle.std.specs.FinMap as map;
ghost use Rattle.vx_model.specs.Naming.{with_mode};
ghost use Rattle.vx_model.specs.State.{State};
ghost use Rattle.vx_model.specs.Tree.{Node, File, IsFile, lowest_unused};
ghost use Rattle.vx_space.specs.Space.{page_blocks};
ghost use Rattle.vx_txn.specs.Calls.{HasGone, most};
ghost use Rattle.vx_txn.specs.Directories.{DirectoryValue, IsNewIn, block_count, blocks_in, directory_at, without};
ghost use Rattle.vx_txn.specs.Edits.{IsEdited, IsRefused, IsMade, IsFullOf, AreBlocks, HasAnswer, HasPages, new_node, new_directory_at, place_answer, refusal_of, blocks_past, units_from, all_blocks};
ghost use Rattle.vx_txn.specs.Metas.{Stands, IsSound, IsUnchanged, directory_of};

use crate::directory::Directory;
use crate::meta::Meta;
use crate::slots;
use crate::touched::Touched;
use std::alloc::{AllocError, Global};
use vx_alloc::FreeMap;
use vx_base::{Block, FileKind, Ino, Name, Page, Refusal};
use vx_dir::DirRefusal;
use vx_filemaps::{PlaceRefusal, give_laws, place_laws};
use vx_inode::MakeRefusal;
use vx_model::edits::edit_laws;
use vx_model::states::plain_states;
use vx_space::place_laws as space_laws;

const BLOCK_SIZE: u64 = 1024;

/// Blocks in a unit.
const UNIT_BLOCKS: u32 = 4096;

/// Why a name is not added.
#[derive(Clone, Copy, Debug, PartialEq, Eq)]
pub enum EditRefusal {
    Refused(Refusal),
    NoMemory,
}

// ---- a name more

/// Adds a name that the directory does not have. Nothing changes where there is no place for it or memory is short.
pub fn add_name(
    meta: &mut Meta,
    at: Ino,
    name: &Name,
    ino: Ino,
    touched: &mut Touched,
) -> Result<(), EditRefusal>
    requires sound { IsSound meta.old }
    requires name { is_name name.now ≡ true }
    requires new { IsNewIn name.now (directory_of meta.old at) }
    requires inode { ino < 128 * meta.old.inodes.units }
    requires few { most touched.old < 4 }
    requires room { length touched.old.units ≤ 2 }
    ensures added { (base s : State) → HasGone base s meta.old touched.old → OnOk result (IsEdited base (add_name s at name.now ino) meta.new touched.new) }
    ensures refused { (s : State) → Stands meta.old s → IfErr result (IsRefused (add_name s at name.now ino)) }
    ensures unchanged { OnErr result (IsUnchanged meta.old meta.new) }
    ensures untouched { OnErr result (touched.new ≡ touched.old) }
    ensures few { most touched.new ≤ most touched.old + 1 }
    ensures units { length touched.new.units ≤ length touched.old.units + 2 }
{
    edit_laws();
    match place_for(meta.directories.as_slice(), at, name) {
        Ok(i) => {
            if i < slots::block_count(meta.directories.as_slice(), at) {
                add_to_block(meta, at, i, name, ino, touched)
            } else {
                add_with_block(meta, at, i, name, ino, touched)
            }
        }
        Err(why) => Err(EditRefusal::Refused(why)),
    }
}

/// The place of the first block with room for the name, or behind the last one; the refusal is for neither.
fn place_for(directories: &[Option<Directory>], at: Ino, name: &Name) -> Result<u32, Refusal>
    requires short { length name.now ≤ 255 }
    requires new { IsNewIn name.now (directory_at directories.now at) }
    ensures { (d : DirectoryValue) → directory_at directories.now at ≡ Some d → result ≡ place_answer d.names name.now }
{
    match slots::directory_at(directories, at) {
        Some(directory) => match directory.names().place_for(name) {
            Ok(i) => Ok(i),
            Err(DirRefusal::TooBig { end }) => Err(Refusal::TooBig { end }),
            Err(DirRefusal::Exist) => unreachable!(),
            Err(DirRefusal::NoMemory) => unreachable!(),
        },
        None => unreachable!(),
    }
}

/// Adds a name for which block `i` is the first with room.
fn add_to_block(
    meta: &mut Meta,
    at: Ino,
    i: u32,
    name: &Name,
    ino: Ino,
    touched: &mut Touched,
) -> Result<(), EditRefusal>
    requires name { is_name name.now ≡ true }
    requires new { IsNewIn name.now (directory_of meta.old at) }
    requires place { HasAnswer (Ok i) name.now (directory_of meta.old at) }
    requires inside { i < block_count (directory_of meta.old at) }
    requires inode { ino < 128 * meta.old.inodes.units }
    requires few { most touched.old < 4 }
    ensures added { (base s : State) → HasGone base s meta.old touched.old → OnOk result (IsEdited base (add_name s at name.now ino) meta.new touched.new) }
    ensures refused { (s : State) → Stands meta.old s → IfErr result (IsRefused (add_name s at name.now ino)) }
    ensures unchanged { OnErr result (IsUnchanged meta.old meta.new) }
    ensures untouched { OnErr result (touched.new ≡ touched.old) }
    ensures few { most touched.new ≤ most touched.old + 1 }
    ensures units { length touched.new.units ≤ length touched.old.units + 2 }
{
    edit_laws();
    match slots::add(meta.directories.as_mut_slice(), at, name, ino) {
        Ok(()) => {
            touched.add_block(at, i);
            Ok(())
        }
        Err(_) => Err(EditRefusal::NoMemory),
    }
}

/// Adds a name in a new block, which is block `i`.
fn add_with_block(
    meta: &mut Meta,
    at: Ino,
    i: u32,
    name: &Name,
    ino: Ino,
    touched: &mut Touched,
) -> Result<(), EditRefusal>
    requires sound { IsSound meta.old }
    requires name { is_name name.now ≡ true }
    requires new { IsNewIn name.now (directory_of meta.old at) }
    requires place { HasAnswer (Ok i) name.now (directory_of meta.old at) }
    requires past { block_count (directory_of meta.old at) ≤ i }
    requires inode { ino < 128 * meta.old.inodes.units }
    requires few { most touched.old < 4 }
    requires room { length touched.old.units ≤ 2 }
    ensures added { (base s : State) → HasGone base s meta.old touched.old → OnOk result (IsEdited base (add_name s at name.now ino) meta.new touched.new) }
    ensures refused { (s : State) → Stands meta.old s → IfErr result (IsRefused (add_name s at name.now ino)) }
    ensures unchanged { OnErr result (IsUnchanged meta.old meta.new) }
    ensures untouched { OnErr result (touched.new ≡ touched.old) }
    ensures few { most touched.new ≤ most touched.old + 1 }
    ensures units { length touched.new.units ≤ length touched.old.units + 2 }
{
    edit_laws();
    place_laws();
    space_laws();
    let maps = slots::map_count(meta.directories.as_slice(), at);
    match slots::add_block(
        meta.directories.as_mut_slice(),
        &mut meta.free,
        &mut meta.scratch,
        at,
        name,
        ino,
    ) {
        Ok(()) => {
            meta.inodes.set_size(at, BLOCK_SIZE * (u64::from(i) + 1));
            touched.add_inode(at);
            touched.add_block(at, i);
            touched.add_maps(at);
            let directory = slots::directory_at(meta.directories.as_slice(), at);
            touch_units(meta.first, directory, i, maps, touched);
            Ok(())
        }
        Err(why) => Err(refusal_of(why)),
    }
}

/// Why a name is not added whose block is not placed.
fn refusal_of(why: PlaceRefusal) -> EditRefusal
    ensures { result ≡ refusal_of why }
{
    match why {
        PlaceRefusal::Refused(why) => EditRefusal::Refused(why),
        PlaceRefusal::NoMemory => EditRefusal::NoMemory,
    }
}

/// Touches the units of a directory's blocks, from one page and one map block on.
fn touch_units(
    first: Block,
    directory: Option<&Directory>,
    pages: u32,
    maps: usize,
    touched: &mut Touched,
)
    requires few { length touched.old.units + length (blocks_past pages maps (option_copied directory)) ≤ 70 }
    requires paged { AreBlocks (option_copied directory) }
    ensures { touched.new ≡ record touched.old { units = touched.old.units ++ units_from first (blocks_past pages maps (option_copied directory.entry)) } }
{
    if let Some(directory) = directory {
        touch_pages(first, directory, pages, touched);
        touch_blocks(first, directory.maps().chain(), maps, touched);
    }
}

/// Touches the units of a directory's pages, from one on.
fn touch_pages(first: Block, directory: &Directory, from: u32, touched: &mut Touched)
    requires few { length touched.old.units + length (drop from (page_blocks directory.now.maps.space.present)) ≤ 70 }
    requires paged { HasPages directory.now }
    ensures { touched.new ≡ record touched.old { units = touched.old.units ++ units_from first (drop from (page_blocks directory.now.maps.space.present)) } }
{
    for i in from..directory.names().blocks() {
        match directory.maps().find(Page::new(i)) {
            Some(found) => touched.add_unit(unit_of(first, found.0)),
            None => unreachable!(),
        }
    }
}

/// Touches the units of these blocks, from one on.
fn touch_blocks(first: Block, blocks: &[Block], from: usize, touched: &mut Touched)
    requires few { length touched.old.units + length (drop from blocks.now) ≤ 70 }
    ensures { touched.new ≡ record touched.old { units = touched.old.units ++ units_from first (drop from blocks.now) } }
{
    for i in from..blocks.len() {
        touched.add_unit(unit_of(first, blocks[i]));
    }
}

/// The unit that a block stands in.
fn unit_of(first: Block, b: Block) -> u32
    ensures { result ≡ (b - first) / 4096 }
{
    b.get().saturating_sub(first.get()) / UNIT_BLOCKS
}

// ---- a name less

/// Removes a name of a directory.
pub fn remove_name(meta: &mut Meta, at: Ino, name: &Name, touched: &mut Touched)
    requires directory { (d : DirectoryValue) × (directory_of meta.old at ≡ Some d) }
    requires few { most touched.old < 4 }
    ensures removed { (base s : State) → HasGone base s meta.old touched.old → HasGone base (remove_name s at name.now) meta.new touched.new }
    ensures here { (d : DirectoryValue) → directory_of meta.old at ≡ Some d → directory_of meta.new at ≡ Some (without name.now d) }
    ensures others { (n : ℕ) → n ≢ at → directory_of meta.new n ≡ directory_of meta.old n }
    ensures inodes { meta.new.inodes ≡ meta.old.inodes }
    ensures free { meta.new.free ≡ meta.old.free }
    ensures first { meta.new.first ≡ meta.old.first }
    ensures few { most touched.new ≤ most touched.old + 1 }
    ensures units { touched.new.units ≡ touched.old.units }
{
    edit_laws();
    let i = slots::remove(meta.directories.as_mut_slice(), at, name);
    touched.add_block(at, i);
}

// ---- an inode

/// Makes an inode that no name means yet, under the lowest unused number. Nothing changes where there is none or memory
/// is short.
pub fn make_node(
    meta: &mut Meta,
    alloc: Global,
    kind: FileKind,
    mode: u16,
    touched: &mut Touched,
) -> Result<Ino, MakeRefusal>
    requires sound { IsSound meta.old }
    requires mode { mode ≤ 4095 }
    requires few { most touched.old < 4 }
    ensures made { (base s : State) → HasGone base s meta.old touched.old → IfOk result (λ ino. HasGone base (set_node s ino (new_node kind mode)) meta.new touched.new) }
    ensures lowest { (s : State) → Stands meta.old s → IfOk result (λ ino. ino ≡ lowest_unused s.layout.units s.tree.nodes) }
    ensures place { IfOk result (λ ino. (3 ≤ ino) × (ino < 128 * meta.old.inodes.units)) }
    ensures full { (s : State) → Stands meta.old s → IfErr result (IsFullOf s) }
    ensures change { IfOk result (IsMade meta.old meta.new) }
    ensures unchanged { OnErr result (IsUnchanged meta.old meta.new) }
    ensures untouched { OnErr result (touched.new ≡ touched.old) }
    ensures few { most touched.new ≤ most touched.old + 1 }
    ensures units { touched.new.units ≡ touched.old.units }
{
    edit_laws();
    let ino = match meta.inodes.make(kind, mode) {
        Ok(ino) => ino,
        Err(why) => return Err(why),
    };
    match put_directory(&mut meta.directories, alloc, kind, ino) {
        Ok(()) => {
            touched.add_inode(ino);
            Ok(ino)
        }
        Err(_) => {
            meta.inodes.drop_inode(ino);
            Err(MakeRefusal::NoMemory)
        }
    }
}

/// Puts an empty directory there, where the inode is to be one.
fn put_directory(
    directories: &mut Vec<Option<Directory>>,
    alloc: Global,
    kind: FileKind,
    ino: Ino,
) -> Result<(), AllocError>
    ensures here { OnOk result (directory_at directories.new.items ino ≡ new_directory_at kind (directory_at directories.old.items ino)) }
    ensures others { (n : ℕ) → n ≢ ino → directory_at directories.new.items n ≡ directory_at directories.old.items n }
    ensures err { (n : ℕ) → OnErr result (directory_at directories.new.items n ≡ directory_at directories.old.items n) }
{
    match kind {
        FileKind::File => Ok(()),
        FileKind::Directory => {
            slots::make_room(directories, ino.get() as usize + 1)?;
            slots::put(directories.as_mut_slice(), ino, Directory::new(alloc));
            Ok(())
        }
    }
}

/// Takes an inode back that was just made.
pub fn take_back(meta: &mut Meta, ino: Ino)
    requires { IsTrue (is_used meta.old.inodes ino) }
    ensures inodes { meta.new.inodes ≡ without_inode meta.old.inodes ino }
    ensures here { directory_of meta.new ino ≡ None }
    ensures others { (n : ℕ) → n ≢ ino → directory_of meta.new n ≡ directory_of meta.old n }
    ensures free { meta.new.free ≡ meta.old.free }
    ensures first { meta.new.first ≡ meta.old.first }
{
    meta.inodes.drop_inode(ino);
    slots::clear(meta.directories.as_mut_slice(), ino);
}

/// Sets an inode's mode.
pub fn set_mode(meta: &mut Meta, ino: Ino, mode: u16, touched: &mut Touched)
    requires used { IsTrue (is_used meta.old.inodes ino) }
    requires mode { mode ≤ 4095 }
    requires few { most touched.old < 4 }
    ensures set { (base s : State) (node : Node) → HasGone base s meta.old touched.old → map.get s.tree.nodes ino ≡ Some node
        → HasGone base (set_node s ino (with_mode mode node)) meta.new touched.new }
    ensures few { most touched.new ≤ most touched.old + 1 }
    ensures units { touched.new.units ≡ touched.old.units }
{
    edit_laws();
    meta.inodes.set_mode(ino, mode);
    touched.add_inode(ino);
}

/// Counts one name more of a file.
pub fn add_link(meta: &mut Meta, ino: Ino, touched: &mut Touched)
    requires used { IsTrue (is_used meta.old.inodes ino) }
    requires links { links_at meta.old.inodes ino < 32767 }
    requires few { most touched.old < 4 }
    ensures set { (base s : State) (f : File) → HasGone base s meta.old touched.old → map.get s.tree.nodes ino ≡ Some (IsFile f)
        → HasGone base (set_node s ino (IsFile (record f { nlink = f.nlink + 1 }))) meta.new touched.new }
    ensures few { most touched.new ≤ most touched.old + 1 }
    ensures units { touched.new.units ≡ touched.old.units }
{
    edit_laws();
    let _ = meta.inodes.link(ino);
    touched.add_inode(ino);
}

/// Counts one name less of a file that has more.
pub fn remove_link(meta: &mut Meta, ino: Ino, touched: &mut Touched)
    requires used { IsTrue (is_used meta.old.inodes ino) }
    requires links { 1 < links_at meta.old.inodes ino }
    requires few { most touched.old < 4 }
    ensures set { (base s : State) (f : File) → HasGone base s meta.old touched.old → map.get s.tree.nodes ino ≡ Some (IsFile f)
        → HasGone base (set_node s ino (IsFile (record f { nlink = f.nlink - 1 }))) meta.new touched.new }
    ensures few { most touched.new ≤ most touched.old + 1 }
    ensures units { touched.new.units ≡ touched.old.units }
{
    edit_laws();
    let _left = meta.inodes.unlink(ino);
    touched.add_inode(ino);
}

/// Drops an inode; its blocks wait for the event at this place.
pub fn drop_node(meta: &mut Meta, ino: Ino, place: u64, touched: &mut Touched)
    requires sound { IsSound meta.old }
    requires used { IsTrue (is_used meta.old.inodes ino) }
    requires other { ino ≢ 2 }
    requires few { most touched.old < 4 }
    requires room { length touched.old.units ≤ 5 }
    ensures dropped { (base s : State) → HasGone base s meta.old touched.old → HasGone base (drop_node s place ino) meta.new touched.new }
    ensures others { (n : ℕ) → n ≢ ino → directory_of meta.new n ≡ directory_of meta.old n }
    ensures few { most touched.new ≤ most touched.old + 1 }
    ensures units { length touched.new.units ≤ length touched.old.units + 65 }
{
    edit_laws();
    give_laws();
    plain_states();
    let directory = slots::directory_at(meta.directories.as_slice(), ino);
    pend_blocks(&mut meta.free, directory, place);
    touch_units(meta.first, directory, 0, 0, touched);
    slots::clear(meta.directories.as_mut_slice(), ino);
    meta.inodes.drop_inode(ino);
    touched.add_inode(ino);
}

/// All blocks of a directory wait for the event at this place.
fn pend_blocks(free: &mut FreeMap, directory: Option<&Directory>, place: u64)
    requires used { CanWait place (all_blocks (option_copied directory)) free.old }
    requires paged { AreBlocks (option_copied directory) }
    ensures { free.new ≡ pended place (all_blocks (option_copied directory.entry)) free.old }
{
    if let Some(directory) = directory {
        pend_pages(free, directory, place);
        pend_chain(free, directory.maps().chain(), place);
    }
}

/// The blocks of a directory's pages wait.
fn pend_pages(free: &mut FreeMap, directory: &Directory, place: u64)
    requires used { CanWait place (page_blocks directory.now.maps.space.present) free.old }
    requires paged { HasPages directory.now }
    ensures { free.new ≡ pended place (page_blocks directory.now.maps.space.present) free.old }
{
    for i in 0..directory.names().blocks() {
        match directory.maps().find(Page::new(i)) {
            Some(found) => free.pend(place, found.0),
            None => unreachable!(),
        }
    }
}

/// These blocks wait.
fn pend_chain(free: &mut FreeMap, blocks: &[Block], place: u64)
    requires used { CanWait place blocks.now free.old }
    ensures { free.new ≡ pended place blocks.now free.old }
{
    for b in blocks {
        free.pend(place, *b);
    }
}
