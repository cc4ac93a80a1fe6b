//! Inodes.
ghost use Rattle.std.specs.Prelude.{◌≡◌, ℕ, ◌+◌, ◌≤◌, ◌<◌, ◌++◌, ◌&&◌, length, option_copied, Option, Ok, IfOk};
ghost use Rattle.std.specs.Result.{result_ok};
ghost use Rattle.std.specs.Str.{bytes_eq};
ghost use Rattle.std.specs.List.{flat_map, list_all};
ghost use Rattle.vx_layout.specs.Inodes.{file_kind_number, place_bytes, inode_head, inode_bytes, slot_bytes, half_of, layout1, IsSlot, IsInode, inode_fits, attrs_fit, is_directory_size, extents_limit, places_each, maps_needed, is_map_number, place_has_length, file_kind_from, place_at, places_at, attrs_at, fields_at, map_at, inode_at, slot_at};
ghost use Rattle.vx_layout.specs.Geoms.{IsGeom};
ghost use Rattle.vx_base.specs.declared.inode.InodeValue.{InodeValue};
ghost use Rattle.vx_base.specs.declared.geom.Geom.{Geom};

use crate::extent::{extent_of, extent_text, number_of_block};
use vx_base::{Block, ExtAttrs, Extent, FileKind, Geom, Inode, InodeValue};
use vx_layout::Sheet;
use vx_layout::fields::{is_zero_from, u16_at, u32_at, u64_at};

/// The one spelling of an inode in use.
pub fn write_inode(value: &InodeValue) -> [u8; 256]
    ensures { result ≡ inode_bytes value.now }
{
    let mut sheet = Sheet::<256>::new();
    sheet.put(&head_text(value));
    sheet.put(&extents_text(&value.first));
    sheet.put_u32(number_of_block(value.map));
    sheet.finish()
}

/// A sector with an inode of even number and the one after it, None where it is free.
pub fn inode_sector(even: Option<&InodeValue>, odd: Option<&InodeValue>) -> [u8; 512]
    ensures { result ≡ slot_bytes (option_copied even.entry) ++ slot_bytes (option_copied odd.entry) }
{
    let mut sheet = Sheet::<512>::new();
    sheet.put(&slot_text(even));
    sheet.put(&slot_text(odd));
    sheet.finish()
}

/// Bytes that no value is spelled by.
#[derive(Clone, Copy, Debug)]
pub struct Bad;

/// The inode in one half of a sector of layout 1, None where it is free; as `read_inode_with`.
pub fn read_inode(sector: &[u8; 512], half: u32) -> Result<Option<InodeValue>, Bad>
    requires { half < 2 }
    // What is read is spelled so.
    ensures found { IfOk result (λ v. IsSlot layout1 v × (half_of sector.now half ≡ slot_bytes v)) }
    // What is spelled so is read.
    ensures only { (v : Option InodeValue) → IsSlot layout1 v → half_of sector.now half ≡ slot_bytes v → result ≡ Ok v }
    // And what the bytes say at each place decides whether there is such a value.
    ensures said { result_ok result ≡ slot_at layout1 (half_of sector.now half) }
{
    read_inode_with(sector, half, &Geom::layout1())
}

/// The inode in one half of a sector, None where it is free, in a layout of these sizes.
///
/// That its extents are in order, and that they and a directory's size fit its blocks, is not looked at.
pub fn read_inode_with(
    sector: &[u8; 512],
    half: u32,
    geom: &Geom,
) -> Result<Option<InodeValue>, Bad>
    requires half { half < 2 }
    requires geom { IsGeom geom.now }
    // What is read is spelled so.
    ensures found { IfOk result (λ v. IsSlot geom.now v × (half_of sector.now half ≡ slot_bytes v)) }
    // What is spelled so is read.
    ensures only { (v : Option InodeValue) → IsSlot geom.now v → half_of sector.now half ≡ slot_bytes v → result ≡ Ok v }
    // And what the bytes say at each place decides whether there is such a value.
    ensures said { result_ok result ≡ slot_at geom.now (half_of sector.now half) }
{
    let at = 256 * half as usize;
    match slot_of(&sector[at..at + 256], geom) {
        Some(value) => Ok(value),
        None => Err(Bad),
    }
}

/// What is spelled as an inode is read again, and so each inode has one spelling.
pub fn inode_spelling()
    ensures again { (g : Geom) (v : InodeValue) → IsInode g v → inode_at (inode_bytes v) ≡ v }
    ensures unique { (g : Geom) (v w : InodeValue) → IsInode g v → IsInode g w → inode_bytes v ≡ inode_bytes w → v ≡ w }
{}

fn slot_of(bytes: &[u8], geom: &Geom) -> Option<Option<InodeValue>>
    requires long { length bytes.now ≡ 256 }
    requires geom { IsGeom geom.now }
    ensures { result ≡ slot_at geom.now bytes.now }
{
    if bytes[0] == 0 {
        return if is_zero_from(bytes, 0) {
            Some(None)
        } else {
            None
        };
    }
    let value = inode_of(bytes);
    if spells(&value, bytes, geom) {
        Some(Some(value))
    } else {
        None
    }
}

fn spells(value: &InodeValue, bytes: &[u8], geom: &Geom) -> bool
    requires { IsGeom geom.now }
    ensures { result ≡ (inode_fits geom.now value.now && bytes_eq (inode_bytes value.now) bytes.now) }
{
    fits(value, geom) && write_inode(value).as_slice() == bytes
}

#[tactic(auto, unfolding(vx_layout::specs::Inodes::inode_fits))]
fn fits(value: &InodeValue, geom: &Geom) -> bool
    requires { IsGeom geom.now }
    ensures { result ≡ inode_fits geom.now value.now }
{
    value.inode.attrs.flags < 32
        && value.inode.mode <= 4095
        && value.inode.nlink <= 32767
        && value.extents <= extents_limit(geom)
        && value.maps as u32 == maps_needed(value.extents, geom)
        && is_map_number(value.map)
        && have_lengths(&value.first)
        && attrs_fit(&value.inode, geom)
}

/// Places for extents in a map block.
fn places_each(geom: &Geom) -> u32
    requires { IsGeom geom.now }
    ensures is { result ≡ places_each geom.now }
    ensures some { 63 ≤ result }
    ensures most { result ≤ 511 }
{
    geom.block / 16 - 1
}

/// Map blocks that so many extents need.
fn maps_needed(extents: u32, geom: &Geom) -> u32
    requires { IsGeom geom.now }
    ensures { result ≡ maps_needed geom.now extents }
{
    if extents <= 6 {
        return 0;
    }
    (extents - 6).div_ceil(places_each(geom))
}

fn is_map_number(map: Option<Block>) -> bool
    ensures { result ≡ is_map_number map }
{
    match map {
        Some(block) => 0 < block.get(),
        None => true,
    }
}

fn have_lengths(places: &[Option<Extent>; 6]) -> bool
    ensures { result ≡ list_all place_has_length places.now }
{
    places.iter().all(|place| has_length(*place))
}

fn has_length(place: Option<Extent>) -> bool
    ensures { result ≡ place_has_length place }
{
    match place {
        Some(extent) => 0 < extent.len,
        None => true,
    }
}

/// Six extents in the inode, and as many in each map block as it has places for.
fn extents_limit(geom: &Geom) -> u32
    requires { IsGeom geom.now }
    ensures { result ≡ extents_limit geom.now }
{
    6 + geom.maps * places_each(geom)
}

fn attrs_fit(inode: &Inode, geom: &Geom) -> bool
    requires { IsGeom geom.now }
    ensures { result ≡ attrs_fit geom.now inode.now }
{
    let attrs = &inode.attrs;
    match inode.kind {
        FileKind::File => {
            inode.size <= geom.limit
                && attrs.fixed <= geom.per_unit
                && attrs.reserve <= 65536
                && attrs.reserve as u64 * geom.block as u64 <= geom.limit
                && (attrs.flags & 8 == 0 || attrs.reserve == 0)
        }
        FileKind::Directory => {
            is_directory_size(inode.size, geom)
                && attrs.flags == 0
                && inode.nlink == 1
                && attrs.fixed == 0
                && attrs.reserve == 0
        }
    }
}

/// Whether so many bytes are whole blocks, as many as a directory may have at most.
fn is_directory_size(size: u64, geom: &Geom) -> bool
    requires { IsGeom geom.now }
    ensures { result ≡ is_directory_size geom.now size }
{
    size % geom.block as u64 == 0 && size <= geom.dirs as u64 * geom.block as u64
}

fn inode_of(bytes: &[u8]) -> InodeValue
    requires { 256 ≤ length bytes.now }
    ensures { result ≡ inode_at bytes.now }
{
    let maps = u16_at(bytes, 6);
    let extents = u32_at(bytes, 24);
    InodeValue {
        inode: fields_of(bytes),
        maps,
        extents,
        first: places_of(bytes, 32, extents),
        map: map_of(bytes, maps),
    }
}

fn fields_of(bytes: &[u8]) -> Inode
    requires { 256 ≤ length bytes.now }
    ensures { result ≡ fields_at bytes.now }
{
    Inode {
        kind: file_kind_of(bytes[0]),
        mode: u16_at(bytes, 2),
        nlink: u16_at(bytes, 4),
        size: u64_at(bytes, 8),
        attrs: attrs_of(bytes),
    }
}

fn attrs_of(bytes: &[u8]) -> ExtAttrs
    requires { 256 ≤ length bytes.now }
    ensures { result ≡ attrs_at bytes.now }
{
    ExtAttrs {
        fixed: u32_at(bytes, 16),
        reserve: u32_at(bytes, 20),
        flags: bytes[1],
    }
}

fn places_of(bytes: &[u8], at: usize, extents: u32) -> [Option<Extent>; 6]
    requires { at + 96 ≤ length bytes.now }
    ensures { result ≡ places_at extents at bytes.now }
{
    [
        place_of(bytes, at, 0, extents),
        place_of(bytes, at + 16, 1, extents),
        place_of(bytes, at + 32, 2, extents),
        place_of(bytes, at + 48, 3, extents),
        place_of(bytes, at + 64, 4, extents),
        place_of(bytes, at + 80, 5, extents),
    ]
}

fn place_of(bytes: &[u8], at: usize, index: u32, extents: u32) -> Option<Extent>
    requires { at + 16 ≤ length bytes.now }
    ensures { result ≡ place_at extents index at bytes.now }
{
    if index < extents {
        Some(extent_of(bytes, at))
    } else {
        None
    }
}

fn map_of(bytes: &[u8], maps: u16) -> Option<Block>
    requires { 256 ≤ length bytes.now }
    ensures { result ≡ map_at maps bytes.now }
{
    if 0 < maps {
        Some(Block::new(u32_at(bytes, 128)))
    } else {
        None
    }
}

fn file_kind_of(number: u8) -> FileKind
    ensures { result ≡ file_kind_from number }
{
    if number == 1 {
        FileKind::File
    } else {
        FileKind::Directory
    }
}

fn slot_text(value: Option<&InodeValue>) -> [u8; 256]
    ensures { result ≡ slot_bytes (option_copied value.entry) }
{
    match value {
        Some(value) => write_inode(value),
        None => [0; 256],
    }
}

#[tactic(auto, unfolding(vx_layout::specs::Inodes::inode_head))]
fn head_text(value: &InodeValue) -> [u8; 32]
    ensures { result ≡ inode_head value.now }
{
    let inode = &value.inode;
    let mut sheet = Sheet::<32>::new();
    sheet.put_u8(number_of_file_kind(inode.kind));
    sheet.put_u8(inode.attrs.flags);
    sheet.put_u16(inode.mode);
    sheet.put_u16(inode.nlink);
    sheet.put_u16(value.maps);
    sheet.put_u64(inode.size);
    sheet.put_u32(inode.attrs.fixed);
    sheet.put_u32(inode.attrs.reserve);
    sheet.put_u32(value.extents);
    sheet.put_u32(0);
    sheet.finish()
}

fn extents_text(first: &[Option<Extent>; 6]) -> [u8; 96]
    ensures { result ≡ flat_map place_bytes first.now }
{
    let mut sheet = Sheet::<96>::new();
    for place in first {
        sheet.put(&place_text(*place));
    }
    sheet.finish()
}

fn place_text(place: Option<Extent>) -> [u8; 16]
    ensures { result ≡ place_bytes place }
{
    match place {
        Some(extent) => extent_text(extent),
        None => [0; 16],
    }
}

fn number_of_file_kind(kind: FileKind) -> u8
    ensures { result ≡ file_kind_number kind }
{
    match kind {
        FileKind::File => 1,
        FileKind::Directory => 2,
    }
}

#[cfg(test)]
mod tests {
    use super::*;
    use vx_base::{Kind, Page};

    fn value(kind: FileKind, mode: u16, size: u64, block: Option<Extent>) -> InodeValue {
        let attrs = ExtAttrs {
            fixed: 0,
            reserve: 0,
            flags: 0,
        };
        InodeValue {
            inode: Inode {
                kind,
                mode,
                nlink: 1,
                size,
                attrs,
            },
            maps: 0,
            extents: if block.is_some() { 1 } else { 0 },
            first: [block, None, None, None, None, None],
            map: None,
        }
    }

    #[test]
    fn sector_of_a_directory_and_a_file(rt: HostRuntime) {
        let extent = Extent {
            page: Page::new(0),
            start: Block::new(547),
            len: 1,
            kind: Kind::Data,
        };
        let directory = value(FileKind::Directory, 0o755, 1024, Some(extent));
        let file = value(FileKind::File, 0o644, 0, None);
        let want = [
            2, 0, 0xed, 1, 1, 0, 0, 0, 0, 4, 0, 0, 0, 0, 0, 0, 0, 0, 0, 0, 0, 0, 0, 0, 1, 0, 0, 0,
            0, 0, 0, 0, 0, 0, 0, 0, 0x23, 2, 0, 0, 1, 0, 0, 0, 0, 0, 0, 0,
        ];
        let sector = inode_sector(Some(&directory), Some(&file));
        assert!(rt; sector.starts_with(&want));
        assert!(rt; sector.iter().take(256).skip(48).all(|byte| *byte == 0));
        assert_eq!(rt; &sector[256..], write_inode(&file).as_slice());
        assert!(rt; write_inode(&directory).starts_with(&want));
        assert!(rt; write_inode(&file).starts_with(&[1, 0, 0xa4, 1, 1, 0]));
    }

    #[test]
    fn inode_read(rt: HostRuntime) {
        let file = value(FileKind::File, 0o644, 3, None);
        let mut sector = inode_sector(None, Some(&file));
        assert!(rt; matches!(read_inode(&sector, 0), Ok(None)));
        match read_inode(&sector, 1) {
            Ok(Some(read)) => {
                assert_eq!(rt; read.inode, file.inode);
                assert_eq!(rt; read.map, None);
            }
            _ => panic!(rt; "no inode"),
        }
        sector[1] = 1;
        assert!(rt; read_inode(&sector, 0).is_err());
        sector[511] = 1;
        assert!(rt; read_inode(&sector, 1).is_err());
    }

    #[test]
    fn large_file(rt: HostRuntime) {
        let geom = Geom {
            block: 8192,
            per_unit: 4091,
            maps: 8,
            dirs: 8,
            limit: 1 << 40,
        };
        let mut file = value(FileKind::File, 0o644, 1 << 40, None);
        let sector = inode_sector(Some(&file), None);
        assert!(rt; read_inode(&sector, 0).is_err());
        assert!(rt; read_inode_with(&sector, 0, &geom).is_ok());
        file.inode.size = (1 << 40) + 1;
        let sector = inode_sector(Some(&file), None);
        assert!(rt; read_inode_with(&sector, 0, &geom).is_err());
    }

    #[test]
    fn reservation_past_a_small_limit(rt: HostRuntime) {
        let geom = Geom {
            block: 8192,
            per_unit: 4091,
            maps: 8,
            dirs: 8,
            limit: 1 << 26,
        };
        let mut file = value(FileKind::File, 0o644, 0, None);
        file.inode.attrs.reserve = 8192;
        let sector = inode_sector(Some(&file), None);
        assert!(rt; read_inode_with(&sector, 0, &geom).is_ok());
        file.inode.attrs.reserve = 8193;
        let sector = inode_sector(Some(&file), None);
        assert!(rt; read_inode_with(&sector, 0, &geom).is_err());
        assert!(rt; read_inode(&sector, 0).is_ok());
    }
}
