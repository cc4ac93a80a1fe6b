//! Blocks as sectors.
ghost use Rattle.std.specs.Prelude.{◌≡◌, ◌+◌, ◌*◌, ◌≤◌, length};
ghost use Rattle.vx_layout.specs.Places.{sector_part};

use vx_layout::Sheet;

/// The index-th 512 bytes of a block.
#[tactic(auto, unfolding(vx_layout::specs::Places::sector_part))]
pub fn sector_part(block: &[u8], index: usize) -> [u8; 512]
    requires { 512 * (index + 1) ≤ length block.now }
    ensures { result ≡ sector_part index block.now }
{
    let mut sheet = Sheet::<512>::new();
    sheet.put(&block[512 * index..512 * index + 512]);
    sheet.finish()
}
