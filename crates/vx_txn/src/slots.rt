//! Directories by their inode numbers.
ghost use Rattle.std.specs.Prelude.{◌≡◌, ◌≢◌, ◌<◌, ◌≤◌, ℕ, Some, None, IfErr, OnOk, OnErr, length, slice_set};
ghost use Rattle.std.specs.Option.{option_copied};
ghost use Rattle.vx_filemaps.specs.FileMaps.{IsReady};
ghost use Rattle.vx_model.specs.Touching.{IsOnlyIn};
ghost use Rattle.vx_txn.specs.Directories.{DirectoryValue, block_count, blocks_in, directory_at, maps_in, without, with_name};
ghost use Rattle.vx_txn.specs.Edits.{IsFull, IsGrownTo};

use crate::directory::Directory;
use std::alloc::AllocError;
use vx_alloc::FreeMap;
use vx_base::{Ino, Name};
use vx_dir::DirBlocks;
use vx_filemaps::{PlaceRefusal, Scratch};

/// The directory of a number.
pub fn directory_at(slots: &[Option<Directory>], at: Ino) -> Option<&Directory>
    ensures { option_copied result ≡ directory_at slots.now at }
{
    slot_at(slots, at.get() as usize)
}

/// Makes so many slots.
pub fn make_room(slots: &mut Vec<Option<Directory>>, count: usize) -> Result<(), AllocError>
    ensures same { (n : ℕ) → directory_at slots.new.items n ≡ directory_at slots.old.items n }
    ensures ok { OnOk result (count ≤ length slots.new.items) }
{
    while slots.len() < count {
        slots.push(None)?;
    }
    Ok(())
}

/// Puts a directory without a block there.
pub fn put(slots: &mut [Option<Directory>], at: Ino, directory: Directory)
    requires { at < length slots.old }
    ensures here { directory_at slots.new at ≡ Some directory }
    ensures others { (n : ℕ) → n ≢ at → directory_at slots.new n ≡ directory_at slots.old n }
{
    put_at(slots, at.get() as usize, directory);
}

/// Leaves no directory there.
pub fn clear(slots: &mut [Option<Directory>], at: Ino)
    ensures here { directory_at slots.new at ≡ None }
    ensures others { (n : ℕ) → n ≢ at → directory_at slots.new n ≡ directory_at slots.old n }
{
    clear_at(slots, at.get() as usize);
}

/// Gives the directory there these names.
pub fn put_names(slots: &mut [Option<Directory>], at: Ino, names: DirBlocks)
    ensures here { (d : DirectoryValue) → directory_at slots.old at ≡ Some d → directory_at slots.new at ≡ Some (record d { names = names }) }
    ensures others { (n : ℕ) → n ≢ at → directory_at slots.new n ≡ directory_at slots.old n }
{
    put_names_at(slots, at.get() as usize, names);
}

/// Removes a name, if it is there, and answers which block had it: no other block has the name.
pub fn remove(slots: &mut [Option<Directory>], at: Ino, name: &Name) -> u32
    ensures here { (d : DirectoryValue) → directory_at slots.old at ≡ Some d → directory_at slots.new at ≡ Some (without name.now d) }
    ensures only { (d : DirectoryValue) → directory_at slots.old at ≡ Some d → IsOnlyIn name.now result (blocks_in (Some d)) }
    ensures others { (n : ℕ) → n ≢ at → directory_at slots.new n ≡ directory_at slots.old n }
{
    remove_at(slots, at.get() as usize, name)
}

/// Adds a name for which a block has room. Unchanged where memory is short.
pub fn add(
    slots: &mut [Option<Directory>],
    at: Ino,
    name: &Name,
    ino: Ino,
) -> Result<(), AllocError>
    requires short { length name.now ≤ 255 }
    ensures here { (d : DirectoryValue) → directory_at slots.old at ≡ Some d
        → OnOk result (directory_at slots.new at ≡ Some (with_name (record { ino = ino; name = name.now }) d)) }
    ensures others { (n : ℕ) → n ≢ at → directory_at slots.new n ≡ directory_at slots.old n }
    ensures err { OnErr result (slots.new ≡ slots.old) }
{
    add_at(slots, at.get() as usize, name, ino)
}

/// Adds a name in a new last block, and takes the blocks for it. Nothing changes where there are none or memory is short.
pub fn add_block(
    slots: &mut [Option<Directory>],
    free: &mut FreeMap,
    scratch: &mut Scratch,
    at: Ino,
    name: &Name,
    ino: Ino,
) -> Result<(), PlaceRefusal>
    requires ready { IsReady free.old }
    requires short { length name.now ≤ 255 }
    ensures here { (d : DirectoryValue) → directory_at slots.old at ≡ Some d
        → OnOk result (IsGrownTo (record { ino = ino; name = name.now }) d (directory_at slots.new at) free.old free.new) }
    ensures others { (n : ℕ) → n ≢ at → directory_at slots.new n ≡ directory_at slots.old n }
    ensures refused { (d : DirectoryValue) → directory_at slots.old at ≡ Some d → IfErr result (IsFull d free.old) }
    ensures err { OnErr result (slots.new ≡ slots.old) }
    ensures free { OnErr result (free.new ≡ free.old) }
{
    add_block_at(slots, free, scratch, at.get() as usize, name, ino)
}

/// The number of a directory's blocks.
pub fn block_count(slots: &[Option<Directory>], at: Ino) -> u32
    ensures { result ≡ block_count (directory_at slots.now at) }
{
    match directory_at(slots, at) {
        Some(directory) => directory.names().blocks(),
        None => 0,
    }
}

/// The number of a directory's map blocks.
pub fn map_count(slots: &[Option<Directory>], at: Ino) -> usize
    ensures { result ≡ length (maps_in (directory_at slots.now at)) }
{
    match directory_at(slots, at) {
        Some(directory) => directory.maps().chain().len(),
        None => 0,
    }
}

// The directory of a number.
fn slot_at(slots: &[Option<Directory>], at: usize) -> Option<&Directory>
    ensures { option_copied result ≡ directory_at slots.now at }
{
    if at < slots.len() {
        slots[at].as_ref()
    } else {
        None
    }
}

// Puts a directory without a block there.
fn put_at(slots: &mut [Option<Directory>], at: usize, directory: Directory)
    requires { at < length slots.old }
    ensures here { directory_at slots.new at ≡ Some directory }
    ensures others { (n : ℕ) → n ≢ at → directory_at slots.new n ≡ directory_at slots.old n }
{
    slots[at] = Some(directory);
}

// Leaves no directory there.
fn clear_at(slots: &mut [Option<Directory>], at: usize)
    ensures here { directory_at slots.new at ≡ None }
    ensures others { (n : ℕ) → n ≢ at → directory_at slots.new n ≡ directory_at slots.old n }
{
    if at < slots.len() {
        slots[at] = None;
    }
}

// Gives the directory there these names.
fn put_names_at(slots: &mut [Option<Directory>], at: usize, names: DirBlocks)
    ensures here { (d : DirectoryValue) → directory_at slots.old at ≡ Some d → directory_at slots.new at ≡ Some (record d { names = names }) }
    ensures others { (n : ℕ) → n ≢ at → directory_at slots.new n ≡ directory_at slots.old n }
{
    if at < slots.len() {
        if let Some(directory) = &mut slots[at] {
            directory.set_names(names);
        }
    }
}

// Removes a name, if it is there, and answers which block had it.
fn remove_at(slots: &mut [Option<Directory>], at: usize, name: &Name) -> u32
    ensures here { (d : DirectoryValue) → directory_at slots.old at ≡ Some d → directory_at slots.new at ≡ Some (without name.now d) }
    ensures only { (d : DirectoryValue) → directory_at slots.old at ≡ Some d → IsOnlyIn name.now result (blocks_in (Some d)) }
    ensures others { (n : ℕ) → n ≢ at → directory_at slots.new n ≡ directory_at slots.old n }
{
    if at < slots.len() {
        match &mut slots[at] {
            Some(directory) => directory.remove(name),
            None => 0,
        }
    } else {
        0
    }
}

// Adds a name for which a block has room. Unchanged where memory is short.
fn add_at(
    slots: &mut [Option<Directory>],
    at: usize,
    name: &Name,
    ino: Ino,
) -> Result<(), AllocError>
    requires short { length name.now ≤ 255 }
    ensures here { (d : DirectoryValue) → directory_at slots.old at ≡ Some d
        → OnOk result (directory_at slots.new at ≡ Some (with_name (record { ino = ino; name = name.now }) d)) }
    ensures others { (n : ℕ) → n ≢ at → directory_at slots.new n ≡ directory_at slots.old n }
    ensures err { OnErr result (slots.new ≡ slots.old) }
{
    if at < slots.len() {
        match &mut slots[at] {
            Some(directory) => directory.add(name, ino),
            None => Ok(()),
        }
    } else {
        Ok(())
    }
}

// Adds a name in a new last block, and takes the blocks for it.
fn add_block_at(
    slots: &mut [Option<Directory>],
    free: &mut FreeMap,
    scratch: &mut Scratch,
    at: usize,
    name: &Name,
    ino: Ino,
) -> Result<(), PlaceRefusal>
    requires ready { IsReady free.old }
    requires short { length name.now ≤ 255 }
    ensures here { (d : DirectoryValue) → directory_at slots.old at ≡ Some d
        → OnOk result (IsGrownTo (record { ino = ino; name = name.now }) d (directory_at slots.new at) free.old free.new) }
    ensures others { (n : ℕ) → n ≢ at → directory_at slots.new n ≡ directory_at slots.old n }
    ensures refused { (d : DirectoryValue) → directory_at slots.old at ≡ Some d → IfErr result (IsFull d free.old) }
    ensures err { OnErr result (slots.new ≡ slots.old) }
    ensures free { OnErr result (free.new ≡ free.old) }
{
    if at < slots.len() {
        match &mut slots[at] {
            Some(directory) => directory.add_block(free, scratch, name, ino),
            None => Err(PlaceRefusal::NoMemory),
        }
    } else {
        Err(PlaceRefusal::NoMemory)
    }
}
