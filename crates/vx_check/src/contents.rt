//! What the blocks of an inode say.
ghost use Rattle.std.specs.Prelude.{◌≡◌, ◌++◌, ◌∷◌, [], true, OnOk};
ghost use Rattle.vx_check.specs.Contents.{InodeContents, no_contents};

use std::alloc::{AllocError, Global};
use std::marker::Model;
use vx_base::{Block, DirValue, Extent};

/// What the map blocks and the directory blocks of an inode say; nothing where it is free.
#[derive(Drop)]
pub struct Contents {
    maps: Vec<Block>,
    extents: Vec<Extent>,
    blocks: Vec<DirValue>,
}

impl Model for Contents {
    ghost use Rattle.vx_check.specs.Contents.{InodeContents};

    ghost Value = { InodeContents };

    ghost view = { λ c. record { maps = c.maps.items; extents = c.extents.items; blocks = c.blocks.items } };
}

impl Contents {
    /// Those of a free inode.
    pub(crate) fn none(alloc: Global) -> Self
        ensures { result ≡ no_contents }
    {
        Contents {
            maps: Vec::new(alloc),
            extents: Vec::new(alloc),
            blocks: Vec::new(alloc),
        }
    }

    pub(crate) fn new(maps: Vec<Block>, extents: Vec<Extent>, blocks: Vec<DirValue>) -> Self
        ensures { result ≡ record { maps = maps.items; extents = extents.items; blocks = blocks.items } }
    {
        Contents {
            maps,
            extents,
            blocks,
        }
    }

    /// The map blocks, in the order of their chain.
    pub fn maps(&self) -> &[Block]
        ensures { result.now ≡ self.now.maps }
    {
        self.maps.as_slice()
    }

    /// All extents, in the order of their pages.
    pub fn extents(&self) -> &[Extent]
        ensures { result.now ≡ self.now.extents }
    {
        self.extents.as_slice()
    }

    /// The entries of each directory block, in order; a file has none.
    pub fn blocks(&self) -> &[DirValue]
        ensures { result.now ≡ self.now.blocks }
    {
        self.blocks.as_slice()
    }

    /// The map blocks, the extents and the entries of the directory blocks.
    pub fn into_parts(self) -> (Vec<Block>, Vec<Extent>, Vec<DirValue>)
        ensures maps { result.0.items ≡ self.maps }
        ensures extents { result.1.items ≡ self.extents }
        ensures blocks { result.2.items ≡ self.blocks }
    {
        (self.maps, self.extents, self.blocks)
    }
}

/// Adds the contents of one inode more, where they are to be kept.
pub(crate) fn keep_contents(
    kept: &mut Vec<Contents>,
    contents: Contents,
    keep: bool,
) -> Result<(), AllocError>
    ensures { OnOk result (keep ≡ true → kept.new.items ≡ kept.old.items ++ contents ∷ []) }
{
    if keep {
        kept.push(contents)?;
    }
    Ok(())
}
