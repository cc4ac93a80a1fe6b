//! Blocks that are claimed once.
ghost use Rattle.std.specs.Prelude.{◌≡◌, ◌+◌, ◌*◌, ◌<◌, ◌≤◌, ◌^◌, ◌++◌, ◌∷◌, [], ℕ, List, true, false, length};
ghost use Rattle.std.specs.List.{flat_map};
ghost use Rattle.vx_layout.specs.Places.{IsVolume, sectors_of};
ghost use Rattle.vx_sound.specs.FirstFault.{numbers};
ghost use Rattle.vx_sound.specs.Said.{extent_blocks};
ghost use Rattle.vx_sound.specs.Facts.{IsClaimable, AreClaimable};
ghost use Rattle.vx_check.specs.Parts.{AreMarksOf, HasRoom};

use vx_base::{Block, Extent};
use vx_layout::Volume;

/// Claims a run of blocks, and answers whether each is a data block that was not claimed before.
pub(crate) fn claim_run(volume: &Volume, marks: &mut [bool], start: Block, len: u32) -> bool
    requires volume { IsVolume volume.now }
    requires room { HasRoom volume.now marks.old }
    requires small { length marks.old < 2 ^ 32 }
    ensures room { HasRoom volume.now marks.new }
    ensures right { (before : List ℕ) → AreMarksOf marks.old before → result ≡ true
        → AreClaimable volume.now before (numbers start len) × AreMarksOf marks.new (before ++ numbers start len) }
    ensures wrong { (before : List ℕ) → AreMarksOf marks.old before → result ≡ false → AreClaimable volume.now before (numbers start len) → ⊥ }
{
    for i in 0..len {
        let b = Block::new(start.get() + i);
        if !claim(volume, marks, b) {
            return false;
        }
    }
    true
}

/// Claims a block.
fn claim(volume: &Volume, marks: &mut [bool], b: Block) -> bool
    requires volume { IsVolume volume.now }
    requires room { HasRoom volume.now marks.old }
    ensures room { HasRoom volume.now marks.new }
    ensures within { result ≡ true → b < length marks.old }
    ensures right { (before : List ℕ) → AreMarksOf marks.old before → result ≡ true → IsClaimable volume.now before b × AreMarksOf marks.new (before ++ b ∷ []) }
    ensures wrong { (before : List ℕ) → AreMarksOf marks.old before → result ≡ false → IsClaimable volume.now before b → ⊥ }
{
    if !volume.is_data(b) {
        return false;
    }
    let at = b.get() as usize;
    if marks[at] {
        return false;
    }
    marks[at] = true;
    true
}

/// Claims the blocks of all extents.
pub(crate) fn claim_all(volume: &Volume, marks: &mut [bool], extents: &[Extent]) -> bool
    requires volume { IsVolume volume.now }
    requires room { HasRoom volume.now marks.old }
    requires small { length marks.old < 2 ^ 32 }
    ensures room { HasRoom volume.now marks.new }
    ensures right { (before : List ℕ) → AreMarksOf marks.old before → result ≡ true
        → AreClaimable volume.now before (flat_map extent_blocks extents.now) × AreMarksOf marks.new (before ++ flat_map extent_blocks extents.now) }
    ensures wrong { (before : List ℕ) → AreMarksOf marks.old before → result ≡ false → AreClaimable volume.now before (flat_map extent_blocks extents.now) → ⊥ }
{
    for extent in extents {
        if !claim_run(volume, marks, extent.start, extent.len) {
            return false;
        }
    }
    true
}
