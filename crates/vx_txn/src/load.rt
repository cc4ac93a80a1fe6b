//! The metadata of an image, inode by inode.
ghost use Rattle.std.specs.Prelude.{◌≡◌, ◌≢◌, ◌<◌, ◌≤◌, ◌+◌, length, IfOk, OnErr, OnOk, Some, ℕ};
ghost use Rattle.vx_model.specs.LaidOut.{IsLaidOut};
ghost use Rattle.vx_model.specs.State.{State};
ghost use Rattle.vx_space.specs.Space.{page_blocks};
ghost use Rattle.vx_txn.specs.Directories.{directory_at};
ghost use Rattle.vx_txn.specs.Edits.{HasPages};
ghost use Rattle.vx_txn.specs.Loads.{CanTake, HasSizes, IsDirectoryNext, IsDirectoryThere, IsFileNext, IsFileThere, IsLoadedTo, LoadingLaws, without_blocks};
ghost use Rattle.vx_txn.specs.Metas.{IsUnchanged};

use crate::directory::Directory;
use crate::meta::Meta;
use crate::slots::{make_room, put};
use std::alloc::{AllocError, Global};
use vx_alloc::FreeMap;
use vx_base::{Block, DirValue, Extent, Ino, Inode, Page};
use vx_filemaps::Scratch;
use vx_inode::InodeTable;

impl Meta {
    /// Metadata without an inode, with all data blocks free.
    pub fn empty(alloc: Global, log_blocks: u32, units: u32) -> Result<Self, AllocError>
        requires log { log_blocks ≤ 2048 }
        requires some { 1 ≤ units }
        requires few { units ≤ 64 }
        ensures { IfOk result (λ m. (s : State) → HasSizes s log_blocks units → IsLoadedTo s 0 m) }
    {
        let inodes = InodeTable::new(alloc, units)?;
        let directories = Vec::new(alloc);
        let first = Block::new(2 + log_blocks);
        let free = FreeMap::new(alloc, first, units)?;
        Ok(Meta {
            inodes,
            directories,
            free,
            scratch: Scratch::new(alloc),
            first,
        })
    }

    /// Adds a file without bytes. Nothing changes where memory is short.
    pub fn put_file(&mut self, ino: Ino, inode: &Inode) -> Result<(), AllocError>
        requires { IsFileNext self.old ino inode.now }
        ensures loaded { (s : State) → IsLaidOut s → IsLoadedTo s ino self.old → IsFileThere s ino inode.now → OnOk result (IsLoadedTo s (ino + 1) self.new) }
        ensures err { OnErr result (IsUnchanged self.old self.new) }
    {
        self.inodes.put(ino, inode)?;
        Ok(())
    }

    /// Adds a directory with these extents, map blocks and blocks of entries, and takes all its blocks. Nothing changes where memory is
    /// short.
    pub fn put_directory(
        &mut self,
        alloc: Global,
        ino: Ino,
        inode: &Inode,
        extents: &[Extent],
        maps: &[Block],
        blocks: &[DirValue],
    ) -> Result<(), AllocError>
        requires { IsDirectoryNext self.old ino inode.now extents.now maps.now blocks.now }
        ensures loaded { (s : State) → IsLaidOut s → IsLoadedTo s ino self.old → IsDirectoryThere s ino inode.now extents.now maps.now blocks.now → OnOk result (IsLoadedTo s (ino + 1) self.new) }
        ensures err { OnErr result (IsUnchanged self.old self.new) }
    {
        let directory = Directory::load(alloc, extents, maps, blocks)?;
        make_room(&mut self.directories, ino.get() as usize + 1)?;
        self.inodes.put(ino, inode)?;
        take_pages(&mut self.free, &directory);
        take_chain(&mut self.free, maps);
        put_into(&mut self.directories, ino, directory);
        Ok(())
    }
}

/// Puts a directory into its slot.
fn put_into(directories: &mut Vec<Option<Directory>>, ino: Ino, directory: Directory)
    requires { ino < length directories.old.items }
    ensures here { directory_at directories.new.items ino ≡ Some directory }
    ensures others { (n : ℕ) → n ≢ ino → directory_at directories.new.items n ≡ directory_at directories.old.items n }
{
    put(directories.as_mut_slice(), ino, directory);
}

/// Takes the blocks of a directory's pages.
fn take_pages(free: &mut FreeMap, directory: &Directory)
    requires free { CanTake (page_blocks directory.now.maps.space.present) free.old }
    requires paged { HasPages directory.now }
    ensures { free.new ≡ without_blocks (page_blocks directory.now.maps.space.present) free.old }
{
    for i in 0..directory.names().blocks() {
        match directory.maps().find(Page::new(i)) {
            Some(found) => free.take_block(found.0),
            None => unreachable!(),
        }
    }
}

/// Takes these blocks.
fn take_chain(free: &mut FreeMap, blocks: &[Block])
    requires { CanTake blocks.now free.old }
    ensures { free.new ≡ without_blocks blocks.now free.old }
{
    for b in blocks {
        free.take_block(*b);
    }
}

/// What is loaded once all inodes are, and once a number without one is passed over.
pub fn loading_laws()
    ensures { LoadingLaws }
{}
