//! Where things stand in a volume.
ghost use Rattle.std.specs.Prelude.{◌≡◌, ◌≢◌, ℕ, ◌+◌, ◌-◌, ◌*◌, ◌/◌, ◌<◌, ◌≤◌, ◌^◌, IsTrue};
ghost use Rattle.vx_layout.specs.Geoms.{IsGeom};
ghost use Rattle.vx_layout.specs.Places.{Volume, Place, outside, bits, slots, part, per_block, unit_block, block_sector, bitmap_sector, pair_sector, inode_sector, inode_offset, sectors_of, first_data, is_data, place_of, IsVolume, IsInside, IsPlaceOf, is_named};
ghost use Rattle.vx_layout.specs.Inodes.{layout1};
ghost use Rattle.vx_layout.specs.Supers.{volume_of, IsSuper};
ghost use Rattle.vx_layout.specs.declared.superblock.Super.{Super};
ghost use Rattle.vx_base.specs.declared.geom.Geom.{Geom};

use vx_base::{Block, Ino, SectorNo};

/// Bytes in a sector.
const SECTOR: u32 = 512;

/// Blocks in an allocation unit.
const UNIT_BLOCKS: u32 = 4096;

/// Sectors of an allocation unit that hold its inodes, two each.
const UNIT_PAIRS: u32 = 64;

/// The allocation units of a device: how large a block is, and where the units are.
#[derive(Clone, Copy, Debug, PartialEq, Eq)]
pub struct Volume {
    /// Bytes in a block, 512 to 32,768.
    pub block: u32,
    /// The block where unit 0 starts.
    pub first: Block,
    /// The number of units.
    pub units: u32,
}

impl Volume {
    /// The first block of a unit, which holds the unit's bitmap.
    pub fn unit_start(&self, u: u32) -> Block
        requires is { IsVolume self.now }
        requires fits { sectors_of self.now ≤ 2 ^ 32 }
        requires there { u < self.now.units }
        ensures { result ≡ unit_block self.now u }
    {
        Block::new(self.first.get() + UNIT_BLOCKS * u)
    }

    /// The sector of a unit's bitmap.
    pub fn bitmap_place(&self, u: u32) -> SectorNo
        requires is { IsVolume self.now }
        requires fits { sectors_of self.now ≤ 2 ^ 32 }
        requires there { u < self.now.units }
        ensures { result ≡ bitmap_sector self.now u }
    {
        SectorNo::new(self.unit_start(u).get() * self.per_block())
    }

    /// The sector of an inode, and where in that sector it begins, 0 or 256.
    pub fn inode_place(&self, ino: Ino) -> (SectorNo, u32)
        requires is { IsVolume self.now }
        requires fits { sectors_of self.now ≤ 2 ^ 32 }
        requires there { ino < 128 * self.now.units }
        ensures sector { result.0 ≡ inode_sector self.now ino }
        ensures offset { result.1 ≡ inode_offset ino }
    {
        let number = ino.get();
        (self.pair_place(number / 2), 256 * (number % 2))
    }

    /// The first sector of a block.
    pub fn block_sector(&self, b: Block) -> SectorNo
        requires is { IsVolume self.now }
        requires fits { sectors_of self.now ≤ 2 ^ 32 }
        requires there { b < self.now.first + 4096 * self.now.units }
        ensures { result ≡ block_sector (per_block self.now) b }
    {
        SectorNo::new(b.get() * self.per_block())
    }

    /// Whether a block is one of those that hold files and directories.
    #[tactic(auto, unfolding(crate::specs::Places::is_data))]
    pub fn is_data(&self, b: Block) -> bool
        requires { IsVolume self.now }
        ensures { result ≡ is_data self.now b }
    {
        let number = b.get();
        let first = self.first.get();
        number >= first
            && (number - first) / UNIT_BLOCKS < self.units
            && (number - first) % UNIT_BLOCKS >= self.first_data()
    }

    /// The number of sectors up to the end of the last unit.
    pub fn sectors(&self) -> u64
        requires { sectors_of self.now ≤ 2 ^ 32 }
        ensures { result ≡ sectors_of self.now }
    {
        let blocks = self.first.get() as u64 + UNIT_BLOCKS as u64 * self.units as u64;
        blocks * self.per_block() as u64
    }

    /// The sector of the inodes 2 k and 2 k + 1.
    fn pair_place(&self, k: u32) -> SectorNo
        requires is { IsVolume self.now }
        requires fits { sectors_of self.now ≤ 2 ^ 32 }
        requires there { k < 64 * self.now.units }
        ensures { result ≡ pair_sector self.now k }
    {
        let unit = self.bitmap_place(k / UNIT_PAIRS).get();
        SectorNo::new(unit + (self.per_block() + k % UNIT_PAIRS))
    }

    /// The first data block of a unit, counted from the unit's start.
    fn first_data(&self) -> u32
        requires { IsVolume self.now }
        ensures { result ≡ first_data (per_block self.now) }
    {
        1 + UNIT_PAIRS / self.per_block()
    }

    /// Sectors in a block.
    fn per_block(&self) -> u32
        ensures { result ≡ per_block self.now }
    {
        self.block / SECTOR
    }
}

/// The first of the two sectors of a block.
pub fn block_sector(b: Block) -> SectorNo
    requires { b < 2 ^ 31 }
    ensures { result ≡ block_sector 2 b }
{
    SectorNo::new(2 * b.get())
}

/// The place of each thing's sectors, and what each sector's place says of it, for every block size.
pub fn places()
    ensures bits { (v : Volume) (u : ℕ) → IsVolume v → u < v.units → place_of v (bitmap_sector v u) ≡ bits u }
    ensures slots { (v : Volume) (k : ℕ) → IsVolume v → k < 64 * v.units → place_of v (pair_sector v k) ≡ slots k }
    ensures inodes { (v : Volume) (n : ℕ) → IsVolume v → n < 128 * v.units → place_of v (inode_sector v n) ≡ slots (n / 2) }
    ensures parts { (v : Volume) (b i : ℕ) → IsVolume v → IsTrue (is_data v b) → i < per_block v
        → place_of v (block_sector (per_block v) b + i) ≡ part b i }
    ensures data_blocks { (v : Volume) (u i : ℕ) → u < v.units → i < 4096 → first_data (per_block v) ≤ i
        → IsTrue (is_data v (unit_block v u + i)) }
    ensures named { (v : Volume) (s : ℕ) → IsVolume v → IsPlaceOf v s (place_of v s) }

    // Two sectors for one thing are one sector.
    ensures distinct { (v : Volume) (s t : ℕ) → IsVolume v → IsTrue (is_named (place_of v s)) → place_of v s ≡ place_of v t → s ≡ t }
    ensures inside { (v : Volume) (s : ℕ) → IsVolume v → place_of v s ≢ outside → IsInside v s }
{}

/// Each layout's sizes make a volume, with as many data blocks in a unit as the layout says.
pub fn geom_places()
    ensures volume { (g : Geom) (v : Volume) → IsGeom g → v.block ≡ g.block → IsVolume v }
    ensures data_blocks { (g : Geom) (v : Volume) → IsGeom g → v.block ≡ g.block → first_data (per_block v) ≡ 4096 - g.per_unit }
    ensures fits { (g : Geom) (v : Volume) → IsGeom g → v.block ≡ g.block → v.first ≤ 4096 → v.units ≤ 64 → sectors_of v ≤ 2 ^ 32 }
{}

/// The sizes of layout 1 are a layout's.
pub fn layout1_sizes()
    ensures { IsGeom layout1 }
{}

/// The volume of a superblock stands behind the log's 2 L sectors and within the sectors that a device needs.
pub fn super_places()
    ensures volume { (v : Super) → IsVolume (volume_of v) }
    ensures fits { (v : Super) → IsSuper v → sectors_of (volume_of v) ≤ 2 ^ 32 }
    ensures past_log { (v : Super) (s : ℕ) → place_of (volume_of v) s ≢ outside → 4 + 2 * v.log_blocks ≤ s }
    ensures on_device { (v : Super) (s : ℕ) → place_of (volume_of v) s ≢ outside → s < 2 * (2 + v.log_blocks + 4096 * v.units) }
{}

#[cfg(test)]
mod tests {
    use super::*;

    // Blocks of 8,192 bytes are 16 sectors, a unit's inodes take its blocks 1 to 4, and a unit has 65,536 sectors.
    #[test]
    fn places_of_large_blocks(rt: HostRuntime) {
        let volume = Volume {
            block: 8192,
            first: Block::new(66),
            units: 2,
        };
        assert_eq!(rt; volume.unit_start(1).get(), 4162);
        assert_eq!(rt; volume.bitmap_place(1).get(), 66592);
        let (sector, offset) = volume.inode_place(Ino::new(131));
        assert_eq!(rt; sector.get(), 66609);
        assert_eq!(rt; offset, 256);
        assert_eq!(rt; volume.block_sector(Block::new(4167)).get(), 66672);
        assert_eq!(rt; volume.sectors(), 132128);
        for (block, want) in [
            (65, false),
            (70, false),
            (71, true),
            (4161, true),
            (4166, false),
            (4167, true),
            (8257, true),
            (8258, false),
        ] {
            assert_eq!(rt; volume.is_data(Block::new(block)), want, "at {block}");
        }
    }
}
