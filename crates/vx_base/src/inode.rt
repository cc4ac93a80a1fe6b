//! Inodes, and what their sectors and the blocks of directories say.
ghost use Rattle.std.specs.Prelude.{◌≡◌, ◌++◌, ◌∷◌, [], ◌<◌, length, OnOk, OnErr, Some, slice_get};

use crate::bytes::Name;
use crate::call::ExtAttrs;
use crate::kind::{FileKind, Kind};
use crate::numbers::{Block, Ino, Page};
use std::alloc::{AllocError, Global};
use std::marker::Model;

/// An inode, apart from its blocks.
#[derive(Clone, Copy, Debug, PartialEq, Eq)]
pub struct Inode {
    pub kind: FileKind,
    pub mode: u16,
    /// The number of names.
    pub nlink: u16,
    /// In bytes.
    pub size: u64,
    pub attrs: ExtAttrs,
}

/// A run of blocks: consecutive pages of a file in consecutive blocks of the device.
#[derive(Clone, Copy, Debug, PartialEq, Eq)]
pub struct Extent {
    pub page: Page,
    pub start: Block,
    /// In blocks, at least 1.
    pub len: u32,
    pub kind: Kind,
}

/// What the slot of an inode in use says (docs/LAYOUT.md, "Inode").
#[derive(Clone, Copy, Debug)]
pub struct InodeValue {
    pub inode: Inode,
    /// The number of map blocks.
    pub maps: u16,
    /// The number of extents, those in map blocks included.
    pub extents: u32,
    /// The first six extents; places past the last one say nothing.
    pub first: [Option<Extent>; 6],
    /// The first map block.
    pub map: Option<Block>,
}

/// A name in a directory block, and the inode that it means.
#[derive(Debug, Drop)]
pub struct DirEntry {
    pub ino: Ino,
    pub name: Name,
}

/// The entries of a directory block, in the order in which they stand there.
#[derive(Debug, Drop)]
pub struct DirValue {
    entries: Vec<DirEntry>,
}

impl Model for DirValue {
    ghost use Rattle.std.specs.Prelude.{List};
    ghost use Rattle.vx_base.specs.declared.inode.DirEntry.{DirEntry};

    ghost Value = { List DirEntry };

    ghost view = { λ a. a.entries.items };
}

impl DirValue {
    /// A block without entries.
    pub fn new(alloc: Global) -> Self
        ensures { result ≡ [] }
    {
        DirValue {
            entries: Vec::new(alloc),
        }
    }

    pub fn len(&self) -> usize
        ensures { result ≡ length self.now }
    {
        self.entries.len()
    }

    pub fn get(&self, at: usize) -> &DirEntry
        requires { at < length self.now }
        ensures { slice_get self.now at ≡ Some result.now }
    {
        &self.entries[at]
    }

    pub fn as_slice(&self) -> &[DirEntry]
        ensures { result.now ≡ self.now }
    {
        self.entries.as_slice()
    }

    /// Adds an entry behind the last; unchanged where memory is short.
    pub fn push(&mut self, entry: DirEntry) -> Result<(), AllocError>
        ensures ok { OnOk result (self.new ≡ self.old ++ entry ∷ []) }
        ensures err { OnErr result (self.new ≡ self.old) }
    {
        self.entries.push(entry)?;
        Ok(())
    }
}
