//! What a call touches.
use std::alloc::{AllocError, Global};
use std::marker::Model;
use vx_base::Ino;

/// The most of each kind but units that a call of names touches.
const MOST: usize = 4;

/// The most units: those of the blocks of a directory that goes, and of two blocks more.
const MOST_UNITS: usize = 70;

/// A directory's block, by its place among the directory's blocks.
#[derive(Drop)]
pub struct BlockPlace {
    ino: Ino,
    index: u32,
}

impl Model for BlockPlace {
    ghost use Rattle.vx_model.specs.Touching.{BlockPlace};

    ghost Value = { BlockPlace };

    ghost view = { λ p. record { ino = p.ino; index = p.index } };
}

impl BlockPlace {
    ghost use Rattle.std.specs.Prelude.{◌≡◌};

    pub fn new(ino: Ino, index: u32) -> Self
        ensures { result ≡ record { ino = ino; index = index } }
    {
        BlockPlace { ino, index }
    }

    /// The directory.
    pub fn ino(&self) -> Ino
        ensures { result ≡ self.now.ino }
    {
        self.ino
    }

    /// The block's place; blocks count from 0.
    pub fn index(&self) -> u32
        ensures { result ≡ self.now.index }
    {
        self.index
    }
}

/// The inodes, the directories' blocks, the inodes whose map blocks, and the units whose bitmaps a call may have changed. One may stand
/// there twice.
#[derive(Drop)]
pub struct Touched {
    inodes: Vec<Ino>,
    blocks: Vec<BlockPlace>,
    maps: Vec<Ino>,
    units: Vec<u32>,
}

impl Model for Touched {
    ghost use Rattle.std.specs.Prelude.{◌≤◌, vec_capacity};
    ghost use Rattle.vx_model.specs.Touching.{Touched};
    ghost use Rattle.vx_txn.specs.Rooms.{HasRoom};

    ghost Value = { Touched };

    ghost view = { λ t. record { inodes = t.inodes.items; blocks = t.blocks.items; maps = t.maps.items; units = t.units.items } };

    ghost invariant = { λ t. HasRoom (vec_capacity t.inodes) (vec_capacity t.blocks) (vec_capacity t.maps) (vec_capacity t.units) };
}

impl Touched {
    ghost use Rattle.std.specs.Prelude.{◌≡◌, ◌<◌, IfOk, IsTrue, ◌↔◌, ◌++◌, ◌∷◌, [], length};
    ghost use Rattle.vx_model.specs.Touching.{untouched};

    /// Nothing touched, and room for all that a call may touch.
    pub fn new(alloc: Global) -> Result<Self, AllocError>
        ensures { IfOk result (λ t. t ≡ untouched) }
    {
        let inodes = Vec::with_capacity(alloc, MOST)?;
        let blocks = Vec::with_capacity(alloc, MOST)?;
        let maps = Vec::with_capacity(alloc, MOST)?;
        let units = Vec::with_capacity(alloc, MOST_UNITS)?;
        Ok(Touched {
            inodes,
            blocks,
            maps,
            units,
        })
    }

    /// Whether nothing is touched.
    pub fn is_empty(&self) -> bool
        ensures { IsTrue result ↔ (self.now ≡ untouched) }
    {
        self.inodes.is_empty()
            && self.blocks.is_empty()
            && self.maps.is_empty()
            && self.units.is_empty()
    }

    pub fn inodes(&self) -> &[Ino]
        ensures { result.now ≡ self.now.inodes }
    {
        self.inodes.as_slice()
    }

    pub fn blocks(&self) -> &[BlockPlace]
        ensures { result.now ≡ self.now.blocks }
    {
        self.blocks.as_slice()
    }

    pub fn maps(&self) -> &[Ino]
        ensures { result.now ≡ self.now.maps }
    {
        self.maps.as_slice()
    }

    pub fn units(&self) -> &[u32]
        ensures { result.now ≡ self.now.units }
    {
        self.units.as_slice()
    }

    /// Forgets what was touched; the memory stays.
    pub fn clear(&mut self)
        ensures { self.new ≡ untouched }
    {
        self.inodes.clear();
        self.blocks.clear();
        self.maps.clear();
        self.units.clear();
    }

    /// Touches an inode.
    pub fn add_inode(&mut self, ino: Ino)
        requires { length self.old.inodes < 4 }
        ensures { self.new ≡ record self.old { inodes = self.old.inodes ++ ino ∷ [] } }
    {
        let _ = self.inodes.push(ino);
    }

    /// Touches a block of a directory.
    pub fn add_block(&mut self, ino: Ino, index: u32)
        requires { length self.old.blocks < 4 }
        ensures { self.new ≡ record self.old { blocks = self.old.blocks ++ record { ino = ino; index = index } ∷ [] } }
    {
        let _ = self.blocks.push(BlockPlace::new(ino, index));
    }

    /// Touches the map blocks of an inode.
    pub fn add_maps(&mut self, ino: Ino)
        requires { length self.old.maps < 4 }
        ensures { self.new ≡ record self.old { maps = self.old.maps ++ ino ∷ [] } }
    {
        let _ = self.maps.push(ino);
    }

    /// Touches the bitmap of a unit.
    pub fn add_unit(&mut self, unit: u32)
        requires { length self.old.units < 70 }
        ensures { self.new ≡ record self.old { units = self.old.units ++ unit ∷ [] } }
    {
        let _ = self.units.push(unit);
    }
}
