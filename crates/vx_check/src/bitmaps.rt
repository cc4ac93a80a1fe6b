//! The bitmaps.
ghost use Rattle.std.specs.Prelude.{◌≡◌, ◌+◌, ◌*◌, ◌<◌, ◌≤◌, ◌||◌, ℕ, Bool, false, nat_lt, get_or};
ghost use Rattle.std.specs.List.{flat_map};
ghost use Rattle.std.specs.Str.{bytes_eq};
ghost use Rattle.vx_layout.specs.Places.{unit_block, first_data, per_block};
ghost use Rattle.vx_layout.specs.Bits.{bits_bytes};
ghost use Rattle.vx_sound.specs.FirstFault.{numbers};
ghost use Rattle.vx_sound.specs.Said.{Image, inode_count, claims_below};
ghost use Rattle.vx_sound.specs.Checks.{bitmap_checks};
ghost use Rattle.vx_check.specs.Parts.{Known, HasRead, IsReadable, HasRoom, FindsIn, IsCause, AreMarksOf};

use crate::reader::{Fault, Sectors};
use crate::stop::Stop;
use vx_base::SectorNo;
use vx_codec::write_bits;
use vx_layout::Volume;

/// Blocks in an allocation unit.
const UNIT_BLOCKS: u32 = 4096;

/// The first data block of a unit.
const FIRST_DATA: u32 = 33;

/// Whether block j of a unit is in use.
fn is_used(volume: &Volume, marks: &[bool], u: u32, j: usize) -> bool
    requires room { HasRoom volume.now marks.now }
    requires unit { u < volume.now.units }
    requires inside { j < 4096 }
    ensures { result ≡ (nat_lt j 33 || get_or marks.now (unit_block volume.now u + j) false) }
{
    let at = volume.first.get() as usize + 4096 * u as usize + j;
    j < 33 || marks[at]
}

/// Which blocks of a unit are in use.
fn used_blocks(volume: &Volume, marks: &[bool], u: u32) -> [bool; 4096]
    requires room { HasRoom volume.now marks.now }
    requires unit { u < volume.now.units }
    ensures { (j : ℕ) → j < 4096 → get_or result j false ≡ (nat_lt j 33 || get_or marks.now (unit_block volume.now u + j) false) }
{
    let mut used = [false; 4096];
    for j in 0..4096usize {
        used[j] = is_used(volume, marks, u, j);
    }
    used
}

fn is_same(a: &[u8; 512], b: &[u8; 512]) -> bool
    ensures { result ≡ bytes_eq a.now b.now }
{
    a.as_slice() == b.as_slice()
}

/// A unit's bitmap says the blocks in use, and its second sector is zeros.
fn check_bitmap<D: Sectors>(
    dev: &mut D,
    volume: &Volume,
    marks: &[bool],
    u: u32,
) -> Result<(), Stop>
    requires readable { IsReadable volume.now (D.view dev.old) }
    requires room { HasRoom volume.now marks.now }
    requires unit { u < volume.now.units }
    requires marks { Known (D.view dev.old) (λ image. AreMarksOf marks.now (claims_below volume.now image (inode_count volume.now))) }
    ensures finds { FindsIn (D.view dev.new) volume.now (λ image. bitmap_checks u) result }
    ensures read { HasRead (D.view dev.old) (D.view dev.new) }
    ensures cause { IsCause (D.view dev.old) (D.view dev.new) result }
{
    let sector = volume.bitmap_place(u).get();
    let bits = match dev.sector(SectorNo::new(sector)) {
        Ok(bits) => bits,
        Err(Fault::Read) => return Err(Stop::ReadFault),
        Err(Fault::NoMemory) => return Err(Stop::NoMemory),
    };
    if !is_same(&write_bits(&used_blocks(volume, marks, u)), &bits) {
        return Err(Stop::BadMeta { sector });
    }
    let rest = match dev.sector(SectorNo::new(sector + 1)) {
        Ok(rest) => rest,
        Err(Fault::Read) => return Err(Stop::ReadFault),
        Err(Fault::NoMemory) => return Err(Stop::NoMemory),
    };
    if !is_same(&rest, &[0; 512]) {
        return Err(Stop::BadMeta { sector });
    }
    Ok(())
}

/// All bitmaps, in order.
pub(crate) fn check_bitmaps<D: Sectors>(
    dev: &mut D,
    volume: &Volume,
    marks: &[bool],
) -> Result<(), Stop>
    requires readable { IsReadable volume.now (D.view dev.old) }
    requires room { HasRoom volume.now marks.now }
    requires marks { Known (D.view dev.old) (λ image. AreMarksOf marks.now (claims_below volume.now image (inode_count volume.now))) }
    ensures finds { FindsIn (D.view dev.new) volume.now (λ image. flat_map bitmap_checks (numbers 0 volume.now.units)) result }
    ensures read { HasRead (D.view dev.old) (D.view dev.new) }
    ensures cause { IsCause (D.view dev.old) (D.view dev.new) result }
{
    for u in 0..volume.units {
        match check_bitmap(dev, volume, marks, u) {
            Ok(()) => {}
            Err(stop) => return Err(stop),
        }
    }
    Ok(())
}
