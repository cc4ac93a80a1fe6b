//! Map blocks.
ghost use Rattle.std.specs.Prelude.{◌≡◌, ◌⊎◌, ◌≢◌, ℕ, true, ◌+◌, ◌*◌, ◌≤◌, ◌<◌, ◌^◌, ◌++◌, ◌∷◌, [], length, Some, Ok, Err, IfOk, OnOk, OnErr};
ghost use Rattle.std.specs.List.{list_all};
ghost use Rattle.std.specs.Str.{bytes_eq};
ghost use Rattle.vx_layout.specs.Inodes.{has_length};
ghost use Rattle.vx_layout.specs.Maps.{MapBlock, IsMap, map_places, map_head, map_bytes, next_from, map_with, map_block_at};
ghost use Rattle.vx_codec.specs.declared.map.MapRefusal.{MapRefusal};
ghost use Rattle.vx_codec.specs.declared.map.MapRefusal.TheVariants.{Bad, NoMemory};

use crate::extent::{extent_of, extent_text, number_of_block};
use std::alloc::{AllocError, Global};
use std::marker::Model;
use vx_base::{Block, Extent, Ino};
use vx_layout::Sheet;
use vx_layout::fields::u32_at;

/// Bytes before the first extent.
const HEAD: usize = 16;

/// Bytes that an extent takes.
const PLACE: usize = 16;

/// What a map block says: further extents of a file (docs/LAYOUT.md, "Map block").
#[derive(Debug, Drop)]
pub struct MapValue {
    next: Option<Block>,
    ino: Ino,
    extents: Vec<Extent>,
}

impl Model for MapValue {
    ghost use Rattle.vx_layout.specs.Maps.{MapBlock};

    ghost Value = { MapBlock };

    ghost view = { λ a. record { next = a.next; ino = a.ino; extents = a.extents.items } };
}

impl MapValue {
    /// A map block of a file, without extents, and the file's next map block.
    pub fn new(alloc: Global, next: Option<Block>, ino: Ino) -> Self
        ensures { result ≡ record { next = next; ino = ino; extents = [] } }
    {
        MapValue {
            next,
            ino,
            extents: Vec::new(alloc),
        }
    }

    /// Adds an extent behind the last; unchanged where memory is short.
    pub fn push(&mut self, extent: Extent) -> Result<(), AllocError>
        ensures ok { OnOk result (self.new ≡ record { next = self.old.next; ino = self.old.ino; extents = self.old.extents ++ extent ∷ [] }) }
        ensures err { OnErr result (self.new ≡ self.old) }
    {
        self.extents.push(extent)?;
        Ok(())
    }

    /// The file's next map block, if there is one.
    pub fn next(&self) -> Option<Block>
        ensures { result ≡ self.now.next }
    {
        self.next
    }

    /// The file.
    pub fn ino(&self) -> Ino
        ensures { result ≡ self.now.ino }
    {
        self.ino
    }

    pub fn extents(&self) -> &[Extent]
        ensures { result.now ≡ self.now.extents }
    {
        self.extents.as_slice()
    }
}

/// Why a map block is not read.
#[derive(Clone, Copy, Debug, PartialEq, Eq)]
pub enum MapRefusal {
    /// No value is spelled so.
    Bad,
    NoMemory,
}

impl From<AllocError> for MapRefusal {
    ghost use Rattle.std.specs.Prelude.{◌≡◌};
    ghost use Rattle.vx_codec.specs.declared.map.MapRefusal.TheVariants.{NoMemory};

    ghost from_gives = { λ _ why. why ≡ NoMemory };

    fn from(_: AllocError) -> MapRefusal {
        MapRefusal::NoMemory
    }
}

/// The one spelling of a map block of `N` bytes.
pub fn write_map<const N: usize>(value: &MapValue) -> [u8; N]
    requires size { N ≤ 65536 }
    requires is { IsMap N value.now }
    ensures { result ≡ map_bytes N value.now }
{
    write_extents::<N>(value.next(), value.ino(), value.extents())
}

/// The same, of a map block that has these extents.
#[tactic(auto, unfolding(vx_layout::specs::Maps::map_bytes))]
pub fn write_extents<const N: usize>(next: Option<Block>, ino: Ino, extents: &[Extent]) -> [u8; N]
    requires size { N ≤ 65536 }
    requires is { IsMap N (record { next = next; ino = ino; extents = extents.now }) }
    ensures { result ≡ map_bytes N (record { next = next; ino = ino; extents = extents.now }) }
{
    let mut sheet = Sheet::<N>::new();
    sheet.put(&head_text(next, ino, extents));
    for extent in extents {
        sheet.put(&extent_text(*extent));
    }
    sheet.finish()
}

/// What a map block of `N` bytes says.
///
/// That its extents are in order and that its blocks are there is not looked at.
pub fn read_map<const N: usize>(alloc: Global, block: &[u8; N]) -> Result<MapValue, MapRefusal>
    requires low { 32 ≤ N }
    requires high { N ≤ 65536 }
    // What is read is spelled so.
    ensures found { IfOk result (λ v. IsMap N v × (block.now ≡ map_bytes N v)) }
    // What is spelled so is read, unless memory is short.
    ensures only { (v : MapBlock) → IsMap N v → block.now ≡ map_bytes N v → (result ≡ Ok v) ⊎ (result ≡ Err NoMemory) }
{
    let count = u32_at(block, 8) as usize;
    if count == 0 || count > N / PLACE - 1 {
        return Err(MapRefusal::Bad);
    }
    let value = map_of(alloc, block, count)?;
    if !have_lengths(value.extents()) {
        return Err(MapRefusal::Bad);
    }
    if is_spelling::<N>(&value, block) {
        Ok(value)
    } else {
        Err(MapRefusal::Bad)
    }
}

/// What is spelled as a map block is read again, and so each map block has one spelling.
pub fn map_spelling()
    ensures again { (size : ℕ) (m : MapBlock) → size ≤ 65536 → IsMap size m → map_block_at (map_bytes size m) ≡ m }
    ensures unique { (size : ℕ) (m n : MapBlock) → size ≤ 65536 → IsMap size m → IsMap size n → map_bytes size m ≡ map_bytes size n → m ≡ n }
{}

fn is_spelling<const N: usize>(value: &MapValue, block: &[u8; N]) -> bool
    requires size { N ≤ 65536 }
    requires is { IsMap N value.now }
    ensures { result ≡ bytes_eq (map_bytes N value.now) block.now }
{
    write_map::<N>(value).as_slice() == block.as_slice()
}

/// Whether each extent has a block at least.
fn have_lengths(extents: &[Extent]) -> bool
    ensures { result ≡ list_all has_length extents.now }
{
    extents.iter().all(|extent| 0 < extent.len)
}

/// The fields at their places, with so many extents.
fn map_of(alloc: Global, bytes: &[u8], count: usize) -> Result<MapValue, AllocError>
    requires some { 1 ≤ count }
    requires room { 16 + 16 * count ≤ length bytes.now }
    ensures read { IfOk result (λ v. v ≡ map_with count bytes.now) }
    ensures is { IfOk result (λ v. list_all has_length v.extents ≡ true → IsMap (length bytes.now) v) }
{
    let mut value = MapValue::new(
        alloc,
        next_of(u32_at(bytes, 4)),
        Ino::new(u32_at(bytes, 12)),
    );
    for index in 0..count {
        value.push(extent_of(bytes, HEAD + PLACE * index))?;
    }
    Ok(value)
}

fn next_of(number: u32) -> Option<Block>
    ensures { result ≡ next_from number }
{
    if number == 0 {
        None
    } else {
        Some(Block::new(number))
    }
}

#[tactic(auto, unfolding(vx_layout::specs::Maps::map_head))]
fn head_text(next: Option<Block>, ino: Ino, extents: &[Extent]) -> [u8; 16]
    requires { length extents.now < 2 ^ 32 }
    ensures { result ≡ map_head (record { next = next; ino = ino; extents = extents.now }) }
{
    let mut sheet = Sheet::<16>::new();
    sheet.put(b"VXMB");
    sheet.put_u32(number_of_block(next));
    sheet.put_u32(extents.len() as u32);
    sheet.put_u32(ino.get());
    sheet.finish()
}

#[cfg(test)]
mod tests {
    use super::*;
    use std::test::Fail;
    use vx_base::{Kind, Page};

    // Inode 3 has its pages from 6 on in every second block, and block 689 goes on.
    fn block_of_63_extents() -> [u8; 1024] {
        let mut block = [0; 1024];
        block[..16].copy_from_slice(&[
            0x56, 0x58, 0x4d, 0x42, 0xb1, 2, 0, 0, 0x3f, 0, 0, 0, 3, 0, 0, 0,
        ]);
        for i in 0..63 {
            let at = 16 + 16 * i;
            let number = i as u32;
            block[at..at + 4].copy_from_slice(&(6 + number).to_le_bytes());
            block[at + 4..at + 8].copy_from_slice(&(560 + 2 * number).to_le_bytes());
            block[at + 8] = 1;
        }
        block
    }

    #[test]
    fn map_read_and_written(rt: HostRuntime) {
        let mut block = block_of_63_extents();
        assert!(rt; block[16..].starts_with(&[6, 0, 0, 0, 0x30, 2, 0, 0, 1, 0, 0, 0, 0, 0, 0, 0]));
        match read_map::<1024>(rt.alloc(), &block) {
            Ok(value) => {
                assert_eq!(rt; value.next(), Some(Block::new(689)));
                assert_eq!(rt; value.ino().get(), 3);
                let extents = value.extents();
                assert_eq!(rt; extents.len(), 63);
                assert_eq!(rt; extents[0].start.get(), 560);
                assert_eq!(rt; extents[62].page.get(), 68);
                assert_eq!(rt; extents[62].kind, Kind::Data);
                assert_eq!(rt; write_map::<1024>(&value).as_slice(), block.as_slice());
            }
            Err(refusal) => panic!(rt; "not read: {refusal:?}"),
        }
        block[0] = 0x57;
        assert!(rt; matches!(read_map::<1024>(rt.alloc(), &block), Err(MapRefusal::Bad)));
    }

    #[test]
    fn third_kind(rt: HostRuntime) {
        let mut block = block_of_63_extents();
        block[28] = 2;
        assert!(rt; matches!(read_map::<1024>(rt.alloc(), &block), Err(MapRefusal::Bad)));
    }

    #[test]
    fn pushed_extent(rt: HostRuntime) -> Result<(), Fail> {
        let mut value = MapValue::new(rt.alloc(), None, Ino::new(4));
        let extent = Extent {
            page: Page::new(6),
            start: Block::new(560),
            len: 1,
            kind: Kind::Reserved,
        };
        value.push(extent)?;
        let block = write_map::<1024>(&value);
        assert!(rt;
            block.starts_with(&[
                0x56, 0x58, 0x4d, 0x42, 0, 0, 0, 0, 1, 0, 0, 0, 4, 0, 0, 0, 6
            ])
        );
        assert_eq!(rt; block[28], 1);
        Ok(())
    }
}
