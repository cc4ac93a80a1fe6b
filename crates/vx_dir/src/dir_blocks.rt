//! The blocks of a directory.
ghost use Rattle.std.specs.Prelude.{◌≡◌, ◌⊎◌, ◌+◌, ◌^◌, ◌≤◌, ◌<◌, ◌++◌, ◌∷◌, [], length, OnOk, OnErr, IfOk, IsTrue, Err, Some, None, map, slice_get, slice_set};
ghost use Rattle.std.specs.List.{All, flat_map, sum_by, position_or_len};
ghost use Rattle.std.specs.List.Sorted.{IsPermutation, IsSorted};
ghost use Rattle.std.specs.Option.{option_map};
ghost use Rattle.vx_dir.specs.Directories.{empty, entry_room, entry_count, has_room, block_of, block_at, inode_of, HasDistinctNames, HasShortNames, with_block, blocks_with, with_entry, add_answer, holds, without_entry, without_name, AreNames, by_name, last_place, put_last, packed, IsTightened, IsKept};
ghost use Rattle.vx_dir.specs.Index.{Indexes};
ghost use Rattle.vx_dir.specs.Sizes.{used_by, entry_size};

use crate::block::DirBlock;
use crate::name_index::{NameIndex, Spot};
use crate::refusal::{DirRefusal, NoEnt};
use std::alloc::{AllocError, Global};
use std::marker::Model;
use vx_base::{DirEntry, DirValue, Geom, Ino, Name, Names};

/// The blocks of a directory, each with its entries.
#[derive(Debug, Drop)]
pub struct DirBlocks {
    block_size: u32,
    limit: u32,
    blocks: Vec<DirBlock>,
    // Where each name stands.
    index: NameIndex,
}

impl Model for DirBlocks {
    ghost use Rattle.vx_dir.specs.Directories.{Directory, IsKept};
    ghost use Rattle.vx_dir.specs.Index.{Indexes};

    ghost Value = { Directory };

    ghost view = { λ a. record { block_size = a.block_size; limit = a.limit; blocks = a.blocks.items } };

    ghost invariant = { λ a. IsKept (record { block_size = a.block_size; limit = a.limit; blocks = a.blocks.items }) × Indexes a.blocks.items a.index };
}

impl DirBlocks {
    /// No block yet, for blocks of 1,024 bytes, of which there may be 64.
    pub fn new(alloc: Global) -> Self
        ensures { result ≡ empty 1024 64 }
    {
        DirBlocks::with(alloc, Geom::layout1())
    }

    /// No block yet, for the blocks of a layout.
    pub fn with(alloc: Global, geom: Geom) -> Self
        requires least { 1024 ≤ geom.block }
        requires greatest { geom.block ≤ 8192 }
        requires few { geom.dirs ≤ 64 }
        ensures { result ≡ empty geom.block geom.dirs }
    {
        DirBlocks {
            block_size: geom.block,
            limit: geom.dirs,
            blocks: Vec::new(alloc),
            index: NameIndex::new(alloc),
        }
    }

    /// The number of blocks.
    pub fn blocks(&self) -> u32
        ensures { result ≡ length self.now.blocks }
    {
        self.blocks.len() as u32
    }

    /// The number of entries in all blocks.
    pub fn entries(&self) -> u32
        ensures { result ≡ entry_count self.now }
    {
        count(self.blocks.as_slice())
    }

    /// The entries of a block, in the order in which they stand there. Blocks count from 0.
    pub fn block(&self, i: u32) -> &[DirEntry]
        requires { i < length self.now.blocks }
        ensures entries { slice_get self.now.blocks i ≡ Some result.now }
        ensures fits { used_by result.now ≤ entry_room self.now.block_size }
        ensures short { HasShortNames result.now }
    {
        self.blocks[i as usize].as_slice()
    }

    /// The inode that a name means, if the name is there.
    pub fn find(&self, name: &Name) -> Option<Ino>
        ensures { result ≡ inode_of self.now name.now }
    {
        self.index.find(name).map(|spot| spot.ino)
    }

    /// The block that holds a name, if the name is there.
    pub fn block_of(&self, name: &Name) -> Option<u32>
        ensures { result ≡ option_map (λ ino. block_of name.now self.now.blocks) (inode_of self.now name.now) }
    {
        self.index.find(name).map(|spot| spot.block)
    }

    /// The block that an entry of this name would go to, or why there is none.
    pub fn place_for(&self, name: &Name) -> Result<u32, DirRefusal>
        requires { length name.now ≤ 255 }
        ensures { result ≡ add_answer self.now name.now }
    {
        if self.index.holds(name) {
            return Err(DirRefusal::Exist);
        }
        let size = 5 + name.as_slice().len() as u32;
        let place = place_for(self.blocks.as_slice(), self.block_size - 4, size);
        if place == self.limit as usize {
            let end = u64::from(self.block_size) * (self.blocks.len() as u64 + 1);
            return Err(DirRefusal::TooBig { end });
        }
        Ok(place as u32)
    }

    /// Names are distinct, and each block's entries fit.
    pub fn kept(&self)
        ensures { IsKept self.now }
    {
        let _ = &self.blocks;
    }

    /// Adds a last block as it was read; unchanged where memory is short.
    pub fn push(&mut self, block: &DirValue) -> Result<(), AllocError>
        requires few { length self.old.blocks < self.old.limit }
        requires fits { used_by block.now ≤ entry_room self.old.block_size }
        requires short { HasShortNames block.now }
        requires distinct { HasDistinctNames (self.old.blocks ++ block.now ∷ []) }
        ensures ok { OnOk result (self.new ≡ with_block self.old block.now) }
        ensures err { OnErr result (self.new ≡ self.old) }
    {
        push_block(&mut self.blocks, &mut self.index, block.as_slice())
    }

    /// Adds an entry to the first block with room, or else to a new last block, and answers the block's number.
    /// Unchanged where the name is there, where there may be no further block, and where memory is short.
    pub fn add(&mut self, name: &Name, ino: Ino) -> Result<u32, DirRefusal>
        requires { length name.now ≤ 255 }
        ensures answer { (result ≡ add_answer self.old name.now) ⊎ (result ≡ Err DirRefusal.NoMemory) }
        ensures added { OnOk result (self.new ≡ with_entry self.old (record { ino = ino; name = name.now })) }
        ensures unchanged { OnErr result (self.new ≡ self.old) }
    {
        if self.index.holds(name) {
            return Err(DirRefusal::Exist);
        }
        let size = 5 + name.as_slice().len() as u32;
        let at = place_for(self.blocks.as_slice(), self.block_size - 4, size);
        if at == self.limit as usize {
            let end = u64::from(self.block_size) * (self.blocks.len() as u64 + 1);
            return Err(DirRefusal::TooBig { end });
        }
        match enter(&mut self.blocks, &mut self.index, at, name, ino) {
            Ok(()) => Ok(at as u32),
            Err(_) => Err(DirRefusal::NoMemory),
        }
    }

    /// Removes a name, and answers the inode that it meant. The blocks stay, also one that has no entry left.
    /// Unchanged where the name is not there.
    pub fn remove(&mut self, name: &Name) -> Result<Ino, NoEnt>
        ensures inode { IfOk result (λ ino. inode_of self.old name.now ≡ Some ino) }
        ensures missing { OnErr result (inode_of self.old name.now ≡ None) }
        ensures removed { OnOk result (self.new ≡ without_name self.old name.now) }
        ensures unchanged { OnErr result (self.new ≡ self.old) }
    {
        match self.index.remove(name) {
            Some(spot) => {
                remove_at(self.blocks.as_mut_slice(), spot.block as usize, name);
                Ok(spot.ino)
            }
            None => Err(NoEnt),
        }
    }

    /// The names of all entries, in the order of their bytes.
    pub fn names(&self) -> Result<Names, AllocError>
        ensures { IfOk result (λ names. AreNames self.now names) }
    {
        let alloc = *self.blocks.allocator();
        let mut names = names_of(alloc, self.blocks.as_slice())?;
        names.sort_unstable();
        list_of(alloc, names.as_slice())
    }

    /// The same blocks, in memory of their own.
    pub fn copy(&self) -> Result<DirBlocks, AllocError>
        ensures { IfOk result (λ copy. copy ≡ self.now) }
    {
        let blocks = copies_of(*self.blocks.allocator(), self.blocks.as_slice())?;
        let index = self.index.copy()?;
        Ok(DirBlocks {
            block_size: self.block_size,
            limit: self.limit,
            blocks,
            index,
        })
    }

    /// Packs the entries in the order of their names' bytes, each behind the last, where that takes fewer blocks, and
    /// answers the number of blocks. Unchanged where it does not, and where memory is short.
    pub fn tighten(&mut self) -> Result<u32, AllocError>
        ensures ok { OnOk result (IsTightened self.old self.new) }
        ensures count { IfOk result (λ count. count ≡ length self.new.blocks) }
        ensures err { OnErr result (self.new ≡ self.old) }
    {
        let alloc = *self.blocks.allocator();
        let entries = sorted_entries(alloc, self.blocks.as_slice())?;
        let packed = pack(alloc, self.block_size - 4, entries.as_slice())?;
        if packed.len() < self.blocks.len() {
            let index = index_of(alloc, packed.as_slice())?;
            self.blocks = packed;
            self.index = index;
        }
        Ok(self.blocks.len() as u32)
    }
}

// Copies of the blocks' entries, in the order of their names' bytes.
fn sorted_entries(alloc: Global, blocks: &[DirBlock]) -> Result<Vec<DirEntry>, AllocError>
    ensures same { IfOk result (λ entries. IsPermutation (flat_map (λ b. b) blocks.now) entries.items) }
    ensures sorted { IfOk result (λ entries. IsSorted by_name entries.items) }
{
    let mut entries = entries_of(alloc, blocks)?;
    entries.sort_unstable_by(|a, b| a.name.cmp(&b.name));
    Ok(entries)
}

fn entries_of(alloc: Global, blocks: &[DirBlock]) -> Result<Vec<DirEntry>, AllocError>
    ensures { IfOk result (λ entries. entries.items ≡ flat_map (λ b. b) blocks.now) }
{
    let mut entries = Vec::new(alloc);
    for block in blocks {
        push_entries(&mut entries, block.as_slice())?;
    }
    Ok(entries)
}

fn push_entries(entries: &mut Vec<DirEntry>, more: &[DirEntry]) -> Result<(), AllocError>
    ensures { OnOk result (entries.new.items ≡ entries.old.items ++ more.now) }
{
    for entry in more {
        let name = entry.name.clone()?;
        entries.push(DirEntry {
            ino: entry.ino,
            name,
        })?;
    }
    Ok(())
}

// The blocks of these entries, each put behind the last.
fn pack(alloc: Global, room: u32, entries: &[DirEntry]) -> Result<Vec<DirBlock>, AllocError>
    requires room { room ≤ 8192 }
    requires fits { All (λ e. entry_size e ≤ room) entries.now }
    ensures { IfOk result (λ blocks. blocks.items ≡ packed room entries.now) }
{
    let mut blocks = Vec::new(alloc);
    for entry in entries {
        put_last(&mut blocks, room, entry)?;
    }
    Ok(blocks)
}

fn put_last(blocks: &mut Vec<DirBlock>, room: u32, entry: &DirEntry) -> Result<(), AllocError>
    requires room { room ≤ 8192 }
    requires fits { All (λ b. used_by b ≤ room) blocks.old.items }
    requires size { entry_size entry.now ≤ room }
    ensures { OnOk result (blocks.new.items ≡ put_last room blocks.old.items entry.now) }
{
    let size = 5 + entry.name.as_slice().len() as u32;
    let at = last_place(blocks.as_slice(), room, size);
    add_at(blocks, at, &entry.name, entry.ino)
}

// The last block if it has room for so many bytes, or else the number of blocks.
fn last_place(blocks: &[DirBlock], room: u32, size: u32) -> usize
    requires { size ≤ room }
    ensures { result ≡ last_place room size blocks.now }
{
    if blocks.is_empty() {
        return 0;
    }
    let last = blocks.len() - 1;
    if blocks[last].used() <= room - size {
        last
    } else {
        blocks.len()
    }
}

// The names of the blocks' entries, in the order in which they stand there.
fn names_of(alloc: Global, blocks: &[DirBlock]) -> Result<Vec<Name>, AllocError>
    ensures { IfOk result (λ names. names.items ≡ map (λ e. e.name) (flat_map (λ b. b) blocks.now)) }
{
    let mut names = Vec::new(alloc);
    for block in blocks {
        push_names(&mut names, block.as_slice())?;
    }
    Ok(names)
}

fn push_names(names: &mut Vec<Name>, entries: &[DirEntry]) -> Result<(), AllocError>
    ensures { OnOk result (names.new.items ≡ names.old.items ++ map (λ e. e.name) entries.now) }
{
    for entry in entries {
        names.push(entry.name.clone()?)?;
    }
    Ok(())
}

fn list_of(alloc: Global, names: &[Name]) -> Result<Names, AllocError>
    ensures { IfOk result (λ list. list ≡ names.now) }
{
    let mut list = Names::new(alloc);
    for name in names {
        list.push(name.clone()?)?;
    }
    Ok(list)
}

fn remove_at(blocks: &mut [DirBlock], at: usize, name: &Name)
    requires within { at < length blocks.old }
    requires holds { IsTrue (holds name.now (block_at blocks.old at)) }
    ensures { blocks.new ≡ slice_set blocks.old at (without_entry name.now (block_at blocks.old at)) }
{
    blocks[at].remove(name);
}

fn count(blocks: &[DirBlock]) -> u32
    requires few { length blocks.now ≤ 64 }
    requires fits { All (λ b. used_by b ≤ 8192) blocks.now }
    ensures { result ≡ sum_by (λ b. length b) blocks.now }
{
    let mut count = 0;
    for block in blocks {
        count += block.len() as u32;
    }
    count
}

// The first block with room for so many bytes, or the number of blocks.
fn place_for(blocks: &[DirBlock], room: u32, size: u32) -> usize
    requires { size ≤ room }
    ensures { result ≡ position_or_len (has_room room size) blocks.now }
{
    for i in 0..blocks.len() {
        if blocks[i].used() <= room - size {
            return i;
        }
    }
    blocks.len()
}

// The index of the names of these blocks.
fn index_of(alloc: Global, blocks: &[DirBlock]) -> Result<NameIndex, AllocError>
    requires few { length blocks.now ≤ 64 }
    requires distinct { HasDistinctNames blocks.now }
    ensures { IfOk result (λ index. Indexes blocks.now index) }
{
    let mut index = NameIndex::new(alloc);
    for i in 0..blocks.len() {
        index.insert_entries(i as u32, blocks[i].as_slice())?;
    }
    Ok(index)
}

fn copies_of(alloc: Global, blocks: &[DirBlock]) -> Result<Vec<DirBlock>, AllocError>
    requires { All (λ b. used_by b ≤ 8192) blocks.now }
    ensures { IfOk result (λ copies. copies.items ≡ blocks.now) }
{
    let mut copies = Vec::new(alloc);
    for block in blocks {
        copies.push(copy_of(alloc, block.as_slice())?)?;
    }
    Ok(copies)
}

fn copy_of(alloc: Global, entries: &[DirEntry]) -> Result<DirBlock, AllocError>
    requires { used_by entries.now < 2 ^ 32 }
    ensures { IfOk result (λ block. block ≡ entries.now) }
{
    let mut block = DirBlock::new(alloc);
    for entry in entries {
        let name = entry.name.clone()?;
        block.push(DirEntry {
            ino: entry.ino,
            name,
        })?;
    }
    Ok(block)
}

// Adds a last block of these entries, and their names to the index.
fn push_block(
    blocks: &mut Vec<DirBlock>,
    index: &mut NameIndex,
    entries: &[DirEntry],
) -> Result<(), AllocError>
    requires few { length blocks.old.items < 64 }
    requires size { used_by entries.now < 2 ^ 32 }
    requires distinct { HasDistinctNames (blocks.old.items ++ entries.now ∷ []) }
    requires indexed { Indexes blocks.old.items index.old }
    ensures ok { OnOk result (blocks.new.items ≡ blocks.old.items ++ entries.now ∷ []) }
    ensures err { OnErr result (blocks.new.items ≡ blocks.old.items) }
    ensures indexed { Indexes blocks.new.items index.new }
{
    let at = blocks.len() as u32;
    let block = copy_of(*blocks.allocator(), entries)?;
    blocks.push(block)?;
    match index.insert_entries(at, entries) {
        Ok(()) => Ok(()),
        Err(error) => {
            blocks.pop();
            Err(error)
        }
    }
}

// Adds an entry to block `at`, or to a new last one, and its name to the index.
fn enter(
    blocks: &mut Vec<DirBlock>,
    index: &mut NameIndex,
    at: usize,
    name: &Name,
    ino: Ino,
) -> Result<(), AllocError>
    requires few { length blocks.old.items ≤ 64 }
    requires place { at ≤ length blocks.old.items }
    requires room { used_by (block_at blocks.old.items at) + (5 + length name.now) < 2 ^ 32 }
    requires new { length blocks.old.items ≤ block_of name.now blocks.old.items }
    requires indexed { Indexes blocks.old.items index.old }
    ensures ok { OnOk result (blocks.new.items ≡ blocks_with blocks.old.items at (record { ino = ino; name = name.now })) }
    ensures err { OnErr result (blocks.new.items ≡ blocks.old.items) }
    ensures indexed { Indexes blocks.new.items index.new }
{
    let block = at as u32;
    index.insert(name, Spot { block, ino })?;
    match add_at(blocks, at, name, ino) {
        Ok(()) => Ok(()),
        Err(error) => {
            index.remove(name);
            Err(error)
        }
    }
}

// Adds an entry to block `at`, or to a new last one.
fn add_at(blocks: &mut Vec<DirBlock>, at: usize, name: &Name, ino: Ino) -> Result<(), AllocError>
    requires { used_by (block_at blocks.old.items at) + (5 + length name.now) < 2 ^ 32 }
    ensures ok { OnOk result (blocks.new.items ≡ blocks_with blocks.old.items at (record { ino = ino; name = name.now })) }
    ensures err { OnErr result (blocks.new.items ≡ blocks.old.items) }
{
    let name = name.clone()?;
    let entry = DirEntry { ino, name };
    if at < blocks.len() {
        push_at(blocks.as_mut_slice(), at, entry)
    } else {
        let mut block = DirBlock::new(*blocks.allocator());
        block.push(entry)?;
        blocks.push(block)?;
        Ok(())
    }
}

fn push_at(blocks: &mut [DirBlock], at: usize, entry: DirEntry) -> Result<(), AllocError>
    requires within { at < length blocks.old }
    requires room { used_by (block_at blocks.old at) + entry_size entry < 2 ^ 32 }
    ensures ok { OnOk result (blocks.new ≡ slice_set blocks.old at (block_at blocks.old at ++ entry ∷ [])) }
    ensures err { OnErr result (blocks.new ≡ blocks.old) }
{
    blocks[at].push(entry)
}
