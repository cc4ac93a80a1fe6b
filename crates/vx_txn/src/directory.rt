//! A directory's names and where they stand.
ghost use Rattle.std.specs.Prelude.{◌≡◌, ◌≤◌, ◌++◌, length, IfErr, IfOk, OnOk, OnErr, Some, []};
ghost use Rattle.vx_dir.specs.Directories.{with_entry};
ghost use Rattle.vx_filemaps.specs.FileMaps.{IsReady};
ghost use Rattle.vx_model.specs.Touching.{IsOnlyIn};
ghost use Rattle.vx_txn.specs.Directories.{blocks_in, without, with_name};
ghost use Rattle.vx_txn.specs.Edits.{empty_directory, HasGrown, IsFull};
ghost use Rattle.vx_txn.specs.Loads.{AreBlocksOf, AreNext, loaded_directory, with_extents};

use std::alloc::{AllocError, Global};
use std::marker::Model;
use vx_alloc::FreeMap;
use vx_base::{Block, DirValue, Extent, Ino, Name, Page};
use vx_dir::DirBlocks;
use vx_filemaps::{FileMaps, PlaceRefusal, Scratch};

/// The length of a first extent, in blocks.
const FIRST_EXTENT: u32 = 8;

/// A directory: the entries of its blocks, and the blocks' places on the device, as pages, with its map blocks.
#[derive(Drop)]
pub struct Directory {
    names: DirBlocks,
    maps: FileMaps,
}

impl Model for Directory {
    ghost use Rattle.vx_txn.specs.Directories.{DirectoryValue};

    ghost Value = { DirectoryValue };

    ghost view = { λ d. record { names = d.names; maps = d.maps } };
}

impl Directory {
    /// A directory without a block.
    pub fn new(alloc: Global) -> Self
        ensures { result ≡ empty_directory }
    {
        Directory {
            names: DirBlocks::new(alloc),
            maps: FileMaps::new(alloc),
        }
    }

    /// The directory whose blocks, in page order, stand in these extents and have these entries, with these map blocks.
    pub fn load(
        alloc: Global,
        extents: &[Extent],
        maps: &[Block],
        blocks: &[DirValue],
    ) -> Result<Self, AllocError>
        requires next { AreNext extents.now [] }
        requires blocks { AreBlocksOf blocks.now }
        ensures { IfOk result (λ d. d ≡ loaded_directory extents.now maps.now blocks.now) }
    {
        let names = load_names(alloc, blocks)?;
        let mut pages = FileMaps::new(alloc);
        load_extents(&mut pages, extents)?;
        load_maps(&mut pages, maps)?;
        Ok(Directory { names, maps: pages })
    }

    /// The entries, by block.
    pub fn names(&self) -> &DirBlocks
        ensures { result.now ≡ self.now.names }
    {
        &self.names
    }

    /// The blocks, as pages, and the map blocks.
    pub fn maps(&self) -> &FileMaps
        ensures { result.now ≡ self.now.maps }
    {
        &self.maps
    }

    /// Has these names in place of its own.
    pub fn set_names(&mut self, names: DirBlocks)
        ensures { self.new ≡ record self.old { names = names } }
    {
        self.names = names;
    }

    /// Removes a name, if it is there, and answers which block had it: no other block has the name.
    pub fn remove(&mut self, name: &Name) -> u32
        ensures removed { self.new ≡ without name.now self.old }
        ensures only { IsOnlyIn name.now result (blocks_in (Some self.old)) }
    {
        self.names.kept();
        let at = self.names.block_of(name);
        let _ = self.names.remove(name);
        at.unwrap_or(0)
    }

    /// Adds a name for which a block has room. Unchanged where memory is short.
    pub fn add(&mut self, name: &Name, ino: Ino) -> Result<(), AllocError>
        requires short { length name.now ≤ 255 }
        ensures ok { OnOk result (self.new ≡ with_name (record { ino = ino; name = name.now }) self.old) }
        ensures err { OnErr result (self.new ≡ self.old) }
    {
        match self.names.add(name, ino) {
            Ok(_) => Ok(()),
            Err(_) => Err(AllocError),
        }
    }

    /// Adds a name in a new last block, and takes the blocks for it. Nothing changes where there are none or memory is short.
    pub fn add_block(
        &mut self,
        free: &mut FreeMap,
        scratch: &mut Scratch,
        name: &Name,
        ino: Ino,
    ) -> Result<(), PlaceRefusal>
        requires ready { IsReady free.old }
        requires short { length name.now ≤ 255 }
        ensures grown { OnOk result (HasGrown (record { ino = ino; name = name.now }) self.old self.new free.old free.new) }
        ensures refused { IfErr result (IsFull self.old free.old) }
        ensures unchanged { OnErr result (self.new ≡ self.old) }
        ensures free { OnErr result (free.new ≡ free.old) }
    {
        // A copy of the names has the memory first, since blocks are not given back.
        match copy_with(&self.names, name, ino) {
            Ok(names) => {
                self.names.kept();
                let from = Page::new(self.names.blocks());
                match self.maps.place_write(free, scratch, FIRST_EXTENT, from, 1) {
                    Ok(()) => {
                        self.names = names;
                        Ok(())
                    }
                    Err(why) => Err(why),
                }
            }
            Err(_) => Err(PlaceRefusal::NoMemory),
        }
    }
}

/// The same names and one more.
fn copy_with(names: &DirBlocks, name: &Name, ino: Ino) -> Result<DirBlocks, AllocError>
    requires short { length name.now ≤ 255 }
    ensures { IfOk result (λ copy. copy ≡ with_entry names.now (record { ino = ino; name = name.now })) }
{
    let mut copy = names.copy()?;
    match copy.add(name, ino) {
        Ok(_) => Ok(copy),
        Err(_) => Err(AllocError),
    }
}

/// Blocks with these entries.
fn load_names(alloc: Global, blocks: &[DirValue]) -> Result<DirBlocks, AllocError>
    requires { AreBlocksOf blocks.now }
    ensures { IfOk result (λ names. names ≡ record { block_size = 1024; limit = 64; blocks = blocks.now }) }
{
    let mut names = DirBlocks::new(alloc);
    for block in blocks {
        names.push(block)?;
    }
    Ok(names)
}

/// Takes these extents behind the pages that are there.
fn load_extents(pages: &mut FileMaps, extents: &[Extent]) -> Result<(), AllocError>
    requires { AreNext extents.now pages.old.space.present }
    ensures { OnOk result (pages.new ≡ with_extents extents.now pages.old) }
{
    for extent in extents {
        pages.load_extent(extent)?;
    }
    Ok(())
}

/// Takes these map blocks behind those that are there.
fn load_maps(pages: &mut FileMaps, maps: &[Block]) -> Result<(), AllocError>
    ensures { OnOk result (pages.new ≡ record pages.old { maps = pages.old.maps ++ maps.now }) }
{
    for block in maps {
        pages.load_map(*block)?;
    }
    Ok(())
}
