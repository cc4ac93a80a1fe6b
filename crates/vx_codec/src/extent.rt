//! Extents and block numbers, as they stand in inodes and map blocks.
ghost use Rattle.std.specs.Prelude.{◌≡◌, ◌+◌, ◌≤◌, length, unwrap_or};
ghost use Rattle.vx_layout.specs.Inodes.{kind_number, kind_from, extent_bytes, extent_at};

use vx_base::{Block, Extent, Kind, Page};
use vx_layout::Sheet;
use vx_layout::fields::u32_at;

/// The extent that stands at a place.
pub fn extent_of(bytes: &[u8], at: usize) -> Extent
    requires { at + 16 ≤ length bytes.now }
    ensures { result ≡ extent_at at bytes.now }
{
    Extent {
        page: Page::new(u32_at(bytes, at)),
        start: Block::new(u32_at(bytes, at + 4)),
        len: u32_at(bytes, at + 8),
        kind: kind_of(u32_at(bytes, at + 12)),
    }
}

#[tactic(auto, unfolding(vx_layout::specs::Inodes::extent_bytes))]
pub fn extent_text(extent: Extent) -> [u8; 16]
    ensures { result ≡ extent_bytes extent }
{
    let mut sheet = Sheet::<16>::new();
    sheet.put_u32(extent.page.get());
    sheet.put_u32(extent.start.get());
    sheet.put_u32(extent.len);
    sheet.put_u32(number_of_kind(extent.kind));
    sheet.finish()
}

fn kind_of(number: u32) -> Kind
    ensures { result ≡ kind_from number }
{
    if number == 0 {
        Kind::Data
    } else {
        Kind::Reserved
    }
}

fn number_of_kind(kind: Kind) -> u32
    ensures { result ≡ kind_number kind }
{
    match kind {
        Kind::Data => 0,
        Kind::Reserved => 1,
    }
}

/// The number of a block, 0 for none.
pub fn number_of_block(block: Option<Block>) -> u32
    ensures { result ≡ unwrap_or block 0 }
{
    match block {
        Some(block) => block.get(),
        None => 0,
    }
}
