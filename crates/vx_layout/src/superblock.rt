//! The superblock, and the places that it determines.
ghost use Rattle.std.specs.Prelude.{◌≡◌, ℕ, ◌+◌, ◌*◌, ◌<◌, IfOk, Ok, length};
ghost use Rattle.vx_layout.specs.Places.{unit_block, bitmap_sector, inode_sector, inode_offset, is_data};
ghost use Rattle.vx_layout.specs.Supers.{super_bytes, super_at, volume_of, IsSuper};

use crate::fields::{is_zero_from, u32_at};
use crate::sheet::Sheet;
use crate::volume::Volume;
use vx_base::{Block, Ino, SectorNo};

/// Where the log starts, in blocks.
const LOG_START: u32 = 2;

/// Bytes in a block.
const BLOCK: u32 = 1024;

/// What sector 0 says: the sizes of the log and of the volume, and whether it was left clean.
#[derive(Clone, Copy, Debug)]
pub struct Super {
    /// 256 to 2048.
    pub log_blocks: u32,
    /// Allocation units, 1 to 64.
    pub units: u32,
    pub clean: bool,
}

/// The number of the first bad field, 1 to 8: magic, layout, block size, log blocks, units, log start, clean, rest.
#[derive(Clone, Copy, Debug)]
pub struct BadSuper {
    pub field: u32,
}

impl Super {
    /// What sector 0 says.
    pub fn read(sector: &[u8; 512]) -> Result<Super, BadSuper>
        // What is read is spelled so.
        ensures found { IfOk result (λ v. IsSuper v × (sector.now ≡ super_bytes v)) }
        // What is spelled so is read.
        ensures only { (v : Super) → IsSuper v → sector.now ≡ super_bytes v → result ≡ Ok v }
        // Else the first bad field is named.
        ensures exact { result ≡ super_at sector.now }
    {
        Self::parsed(sector)
    }

    /// The one spelling of the superblock.
    pub fn write(&self) -> [u8; 512]
        requires { IsSuper self.now }
        ensures { result ≡ super_bytes self.now }
    {
        let mut sheet = Sheet::<512>::new();
        sheet.put(b"VXPROF01");
        sheet.put_u32(1);
        sheet.put_u32(BLOCK);
        sheet.put_u32(self.log_blocks);
        sheet.put_u32(self.units);
        sheet.put_u32(LOG_START);
        sheet.put_u8(self.clean as u8);
        sheet.finish()
    }

    /// Where the units are.
    pub fn volume(&self) -> Volume
        requires { IsSuper self.now }
        ensures { result ≡ volume_of self.now }
    {
        Volume {
            block: BLOCK,
            first: Block::new(LOG_START + self.log_blocks),
            units: self.units,
        }
    }

    /// The first block of a unit, which holds the unit's bitmap.
    #[tactic(auto, using(crate::proofs::Standing::super_volume, crate::proofs::Standing::super_fits))]
    pub fn unit_start(&self, u: u32) -> Block
        requires is { IsSuper self.now }
        requires there { u < self.now.units }
        ensures { result ≡ unit_block (volume_of self.now) u }
    {
        self.volume().unit_start(u)
    }

    /// The sector of a unit's bitmap.
    #[tactic(auto, using(crate::proofs::Standing::super_volume, crate::proofs::Standing::super_fits))]
    pub fn bitmap_place(&self, u: u32) -> SectorNo
        requires is { IsSuper self.now }
        requires there { u < self.now.units }
        ensures { result ≡ bitmap_sector (volume_of self.now) u }
    {
        self.volume().bitmap_place(u)
    }

    /// The sector of an inode, and where in that sector it begins, 0 or 256.
    #[tactic(auto, using(crate::proofs::Standing::super_volume, crate::proofs::Standing::super_fits))]
    pub fn inode_place(&self, ino: Ino) -> (SectorNo, u32)
        requires is { IsSuper self.now }
        requires there { ino < 128 * self.now.units }
        ensures sector { result.0 ≡ inode_sector (volume_of self.now) ino }
        ensures offset { result.1 ≡ inode_offset ino }
    {
        self.volume().inode_place(ino)
    }

    /// Whether a block is one of those that hold files and directories.
    #[tactic(auto, using(crate::proofs::Standing::super_volume))]
    pub fn is_data(&self, b: Block) -> bool
        requires { IsSuper self.now }
        ensures { result ≡ is_data (volume_of self.now) b }
    {
        self.volume().is_data(b)
    }

    fn parsed(bytes: &[u8]) -> Result<Super, BadSuper>
        requires { length bytes.now ≡ 512 }
        ensures { result ≡ super_at bytes.now }
    {
        if &bytes[..8] != b"VXPROF01".as_slice() {
            return Err(BadSuper { field: 1 });
        }
        if u32_at(bytes, 8) != 1 {
            return Err(BadSuper { field: 2 });
        }
        if u32_at(bytes, 12) != BLOCK {
            return Err(BadSuper { field: 3 });
        }
        let log_blocks = u32_at(bytes, 16);
        if log_blocks < 256 || log_blocks > 2048 {
            return Err(BadSuper { field: 4 });
        }
        let units = u32_at(bytes, 20);
        if units < 1 || units > 64 {
            return Err(BadSuper { field: 5 });
        }
        if u32_at(bytes, 24) != LOG_START {
            return Err(BadSuper { field: 6 });
        }
        if bytes[28] > 1 {
            return Err(BadSuper { field: 7 });
        }
        if !is_zero_from(bytes, 29) {
            return Err(BadSuper { field: 8 });
        }
        Ok(Super {
            log_blocks,
            units,
            clean: bytes[28] == 1,
        })
    }
}

/// The sectors that a device needs for a log and units of these sizes.
pub fn sectors_needed(log_blocks: u32, units: u32) -> u64
    ensures { result ≡ 2 * (2 + log_blocks + 4096 * units) }
{
    2 * (2 + log_blocks as u64 + 4096 * units as u64)
}

#[cfg(test)]
mod tests {
    use super::*;
    use crate::volume::block_sector;

    const SUPER: Super = Super {
        log_blocks: 512,
        units: 1,
        clean: false,
    };

    #[test]
    fn sizes(rt: HostRuntime) {
        assert_eq!(rt; sectors_needed(512, 1), 9220);
        assert_eq!(rt; sectors_needed(512, 2), 17412);
    }

    #[test]
    fn places_of_unit_0(rt: HostRuntime) {
        assert_eq!(rt; SUPER.unit_start(0).get(), 514);
        assert_eq!(rt; SUPER.bitmap_place(0).get(), 1028);
        assert_eq!(rt; block_sector(Block::new(547)).get(), 1094);
        let (sector, offset) = SUPER.inode_place(Ino::new(2));
        assert_eq!(rt; sector.get(), 1031);
        assert_eq!(rt; offset, 0);
        let (sector, offset) = SUPER.inode_place(Ino::new(3));
        assert_eq!(rt; sector.get(), 1031);
        assert_eq!(rt; offset, 256);
    }

    #[test]
    fn data_blocks(rt: HostRuntime) {
        for (block, want) in [
            (0, false),
            (546, false),
            (547, true),
            (4609, true),
            (4610, false),
        ] {
            assert_eq!(rt; SUPER.is_data(Block::new(block)), want, "at {block}");
        }
    }

    #[test]
    fn bytes(rt: HostRuntime) {
        let want = [
            0x56, 0x58, 0x50, 0x52, 0x4f, 0x46, 0x30, 0x31, 1, 0, 0, 0, 0, 4, 0, 0, 0, 2, 0, 0, 1,
            0, 0, 0, 2, 0, 0, 0,
        ];
        let sector = SUPER.write();
        assert_eq!(rt; &sector[..28], want.as_slice());
        assert_eq!(rt; sector[28], 0);
        let clean = Super {
            clean: true,
            ..SUPER
        };
        assert_eq!(rt; clean.write()[28], 1);
    }

    #[test]
    fn bytes_read(rt: HostRuntime) {
        let mut sector = SUPER.write();
        let read = Super::read(&sector).map(|v| (v.log_blocks, v.units, v.clean));
        assert!(rt; matches!(read, Ok((512, 1, false))));
        sector[28] = 2;
        sector[511] = 1;
        assert!(rt; matches!(Super::read(&sector), Err(BadSuper { field: 7 })));
        sector[28] = 1;
        assert!(rt; matches!(Super::read(&sector), Err(BadSuper { field: 8 })));
    }
}
