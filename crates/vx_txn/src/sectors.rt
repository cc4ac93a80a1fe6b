//! The sectors that hold the metadata.
ghost use Rattle.std.specs.Prelude.{◌≡◌, ◌<◌, ◌≤◌, ◌+◌, ◌*◌, ◌^◌, ◌++◌, [], drop, length, All, Some, None};
ghost use Rattle.std.specs.List.{AllByRecursion};
ghost use Rattle.vx_layout.specs.Bits.{bits_bytes};
ghost use Rattle.vx_extents.specs.Extents.{stretches};
ghost use Rattle.vx_layout.specs.Dirs.{IsDir, dir_bytes};
ghost use Rattle.vx_layout.specs.Maps.{IsMap, map_bytes};
ghost use Rattle.vx_layout.specs.Inodes.{slot_bytes};
ghost use Rattle.vx_layout.specs.Places.{pair_sector, bitmap_sector};
ghost use Rattle.vx_model.specs.Contents.{inode_value, parsed_of};
ghost use Rattle.vx_model.specs.Images.{content_at};
ghost use Rattle.vx_model.specs.Layout.{volume};
ghost use Rattle.vx_model.specs.State.{State};
ghost use Rattle.vx_model.specs.Touching.{HasTouched};
ghost use Rattle.vx_txn.specs.Calls.{most};
ghost use Rattle.vx_txn.specs.Metas.{IsSound, Stands, directory_of};
ghost use Rattle.vx_txn.specs.Staged.{Adds, HasInode, HasBlock, HasMaps, HasBitmap, Each, EachPlace, is_in_use, with_parts};

use crate::directory::Directory;
use crate::meta::Meta;
use crate::touched::{BlockPlace, Touched};
use vx_base::{Block, DirEntry, Extent, Ino, Kind, Page, SectorNo};
use vx_codec::{inode_sector, sector_part, write_bits, write_dir, write_extents};
use vx_extents::ExtentMap;
use vx_layout::{block_sector, places};
use vx_log::Batch;
use vx_model::images::{metadata, sector_contents};
use vx_model::states::{claims, plain_states, state_says};

/// Sectors in a unit.
const UNIT_SECTORS: u32 = 8192;

/// Inodes in a unit.
const UNIT_INODES: u32 = 128;

/// Sectors of a unit that have inodes.
const INODE_SECTORS: u32 = 64;

/// Extents in an inode.
const INODE_ROOM: usize = 6;

/// Extents in a map block.
const MAP_ROOM: usize = 63;

/// Puts the sectors of all that is touched into a batch: those of the inodes, of the directories' blocks, of the map blocks and of the
/// units' bitmaps.
pub fn stage(batch: &mut Batch, meta: &Meta, touched: &Touched)
    requires empty { batch.old ≡ [] }
    requires few { most touched.now ≤ 4 }
    requires units { length touched.now.units ≤ 70 }
    requires sound { IsSound meta.now }
    ensures few { length batch.new ≤ 90 }
    ensures right { (s : State) → Stands meta.now s → AllByRecursion (λ e. content_at (volume s.layout) (parsed_of s) e.0 ≡ Some e.1) batch.new }
    ensures whole { (s : State) → Stands meta.now s → HasTouched s touched.now batch.new }
    ensures inside { (s : State) → Stands meta.now s → All (λ e. (2 * (2 + s.layout.log_blocks) ≤ e.0) × (e.0 < 2 * (2 + s.layout.log_blocks + 4096 * s.layout.units))) batch.new }
{
    metadata();
    places();
    put_inodes(batch, meta, touched.inodes());
    put_blocks(batch, meta, touched.blocks());
    put_maps(batch, meta, touched.maps());
    put_bitmaps(batch, meta, touched.units());
}

/// Puts the sectors of inodes.
fn put_inodes(batch: &mut Batch, meta: &Meta, inodes: &[Ino])
    requires sound { IsSound meta.now }
    requires room { length batch.old + length inodes.now ≤ 400 }
    ensures adds { Adds meta.now (length inodes.now) batch.old batch.new }
    ensures has { Each (HasInode meta.now batch.new) inodes.now }
{
    for ino in inodes {
        put_inode(batch, meta, *ino);
    }
}

/// Puts the sector of an inode, if the units have the inode.
fn put_inode(batch: &mut Batch, meta: &Meta, ino: Ino)
    requires sound { IsSound meta.now }
    requires room { length batch.old < 400 }
    ensures adds { Adds meta.now 1 batch.old batch.new }
    ensures has { HasInode meta.now batch.new ino }
{
    sector_contents();
    if ino.get() / UNIT_INODES >= meta.inodes.units() {
        return;
    }
    let pair = ino.get() / 2;
    batch.set(sector_of_pair(meta, pair), &pair_bytes(meta, pair));
}

/// The sector of inodes 2 `pair` and 2 `pair` + 1.
fn sector_of_pair(meta: &Meta, pair: u32) -> SectorNo
    requires sound { IsSound meta.now }
    requires inside { pair < 64 * meta.now.inodes.units }
    ensures { (s : State) → Stands meta.now s → result ≡ pair_sector (volume s.layout) pair }
{
    let unit = sector_of_unit(meta, pair / INODE_SECTORS);
    SectorNo::new(unit.get() + 2 + pair % INODE_SECTORS)
}

/// The first sector of a unit, which has its bitmap.
fn sector_of_unit(meta: &Meta, unit: u32) -> SectorNo
    requires sound { IsSound meta.now }
    requires inside { unit < meta.now.inodes.units }
    ensures place { (s : State) → Stands meta.now s → result ≡ bitmap_sector (volume s.layout) unit }
    ensures low { result < 2 ^ 31 }
{
    SectorNo::new(2 * meta.first.get() + UNIT_SECTORS * unit)
}

/// What the sector of inodes 2 `pair` and 2 `pair` + 1 has.
fn pair_bytes(meta: &Meta, pair: u32) -> [u8; 512]
    requires { 2 * pair + 1 < 2 ^ 32 }
    ensures { (s : State) → Stands meta.now s → result ≡ slot_bytes (inode_value s (2 * pair)) ++ slot_bytes (inode_value s (2 * pair + 1)) }
{
    let even = meta.inode_value(Ino::new(2 * pair));
    let odd = meta.inode_value(Ino::new(2 * pair + 1));
    inode_sector(even.as_ref(), odd.as_ref())
}

/// Puts the sectors of directories' blocks.
fn put_blocks(batch: &mut Batch, meta: &Meta, blocks: &[BlockPlace])
    requires sound { IsSound meta.now }
    requires room { length batch.old + 2 * length blocks.now ≤ 400 }
    ensures adds { Adds meta.now (2 * length blocks.now) batch.old batch.new }
    ensures has { EachPlace (HasBlock meta.now batch.new) blocks.now }
{
    for place in blocks {
        put_place(batch, meta, place);
    }
}

/// Puts the sectors of a directory's block, if there is such a block.
fn put_place(batch: &mut Batch, meta: &Meta, place: &BlockPlace)
    requires sound { IsSound meta.now }
    requires room { length batch.old + 2 ≤ 400 }
    ensures adds { Adds meta.now 2 batch.old batch.new }
    ensures has { HasBlock meta.now batch.new place.now }
{
    if let Some(directory) = meta.directory(place.ino()) {
        if place.index() < directory.names().blocks() {
            put_page(batch, meta, place, directory);
        }
    }
}

/// Puts the sectors of this block of a directory.
fn put_page(batch: &mut Batch, meta: &Meta, place: &BlockPlace, directory: &Directory)
    requires sound { IsSound meta.now }
    requires there { directory_of meta.now place.now.ino ≡ Some directory.now }
    requires inside { place.now.index < length directory.now.names.blocks }
    requires room { length batch.old + 2 ≤ 400 }
    ensures adds { Adds meta.now 2 batch.old batch.new }
    ensures has { HasBlock meta.now batch.new place.now }
{
    sector_contents();
    claims();
    state_says();
    let i = place.index();
    match directory.maps().find(Page::new(i)) {
        Some(found) => {
            let bytes = names_block(directory.names().block(i));
            put_block(batch, found.0, &bytes);
        }
        None => unreachable!(),
    }
}

/// A directory's block of these entries.
fn names_block(entries: &[DirEntry]) -> [u8; 1024]
    requires { IsDir 1024 entries.now }
    ensures { result ≡ dir_bytes 1024 entries.now }
{
    write_dir::<1024>(entries)
}

/// Puts both sectors of a block.
fn put_block(batch: &mut Batch, b: Block, bytes: &[u8; 1024])
    requires low { b < 2 ^ 31 }
    requires room { length batch.old + 2 ≤ 400 }
    ensures { batch.new ≡ with_parts batch.old b bytes.now }
{
    let first = block_sector(b);
    batch.set(first, &sector_part(bytes, 0));
    batch.set(SectorNo::new(first.get() + 1), &sector_part(bytes, 1));
}

/// Puts the sectors of inodes' map blocks.
fn put_maps(batch: &mut Batch, meta: &Meta, inodes: &[Ino])
    requires sound { IsSound meta.now }
    requires room { length batch.old + 2 * length inodes.now ≤ 400 }
    ensures adds { Adds meta.now (2 * length inodes.now) batch.old batch.new }
    ensures has { Each (HasMaps meta.now batch.new) inodes.now }
{
    for ino in inodes {
        put_chain(batch, meta, *ino);
    }
}

/// Puts the sectors of a directory's map blocks, if there is a directory.
fn put_chain(batch: &mut Batch, meta: &Meta, ino: Ino)
    requires sound { IsSound meta.now }
    requires room { length batch.old + 2 ≤ 400 }
    ensures adds { Adds meta.now 2 batch.old batch.new }
    ensures has { HasMaps meta.now batch.new ino }
{
    if let Some(directory) = meta.directory(ino) {
        put_map(batch, meta, ino, directory);
    }
}

/// Puts the sectors of this directory's map block, if it has one.
fn put_map(batch: &mut Batch, meta: &Meta, ino: Ino, directory: &Directory)
    requires sound { IsSound meta.now }
    requires there { directory_of meta.now ino ≡ Some directory.now }
    requires room { length batch.old + 2 ≤ 400 }
    ensures adds { Adds meta.now 2 batch.old batch.new }
    ensures has { HasMaps meta.now batch.new ino }
{
    sector_contents();
    claims();
    state_says();
    if let Some(b) = directory.maps().chain().first() {
        let bytes = map_block(ino, directory.maps().present());
        put_block(batch, *b, &bytes);
    }
}

/// The one map block of a file: the extents behind those that stand in the inode.
fn map_block(ino: Ino, pages: &ExtentMap) -> [u8; 1024]
    requires is { IsMap 1024 (record { next = None; ino = ino; extents = drop 6 (stretches pages.now.pages) }) }
    ensures { result ≡ map_bytes 1024 (record { next = None; ino = ino; extents = drop 6 (stretches pages.now.pages) }) }
{
    let none = Extent {
        page: Page::new(0),
        start: Block::new(0),
        len: 0,
        kind: Kind::Data,
    };
    let mut extents = [none; MAP_ROOM];
    let count = pages.extents() as usize - INODE_ROOM;
    for i in 0..count {
        extents[i] = pages.stretch((INODE_ROOM + i) as u32);
    }
    write_extents::<1024>(None, ino, &extents[..count])
}

/// Puts the sectors of units' bitmaps.
fn put_bitmaps(batch: &mut Batch, meta: &Meta, units: &[u32])
    requires sound { IsSound meta.now }
    requires room { length batch.old + length units.now ≤ 400 }
    ensures adds { Adds meta.now (length units.now) batch.old batch.new }
    ensures has { Each (HasBitmap meta.now batch.new) units.now }
{
    for unit in units {
        put_bitmap(batch, meta, *unit);
    }
}

/// Puts the sector of a unit's bitmap, if there is the unit.
fn put_bitmap(batch: &mut Batch, meta: &Meta, unit: u32)
    requires sound { IsSound meta.now }
    requires room { length batch.old < 400 }
    ensures adds { Adds meta.now 1 batch.old batch.new }
    ensures has { HasBitmap meta.now batch.new unit }
{
    sector_contents();
    if unit >= meta.inodes.units() {
        return;
    }
    batch.set(sector_of_unit(meta, unit), &bitmap(meta, unit));
}

/// The bitmap of a unit: its own block, those of the inodes, and the data blocks that inodes have are in use.
fn bitmap(meta: &Meta, unit: u32) -> [u8; 512]
    requires sound { IsSound meta.now }
    requires inside { unit < meta.now.inodes.units }
    ensures { (s : State) → Stands meta.now s → result ≡ bits_bytes (is_in_use s.layout unit) }
{
    places();
    claims();
    plain_states();
    write_bits(&meta.free.used_in(unit))
}
