//! An image of one directory and one file.
ghost use Rattle.std.specs.Prelude.{◌≡◌};

use super::*;
use std::alloc::{AllocError, Global};
use std::test::Fail;
use vx_base::{
    Block, ExtAttrs, Extent, FileKind, Ino, Inode, InodeValue, Kind, NumList, Page, SectorNo,
};
use vx_codec::{inode_sector, write_bits};
use vx_dev::{BlockDev, Image, MemDisk};
use vx_home::Homes;
use vx_layout::Volume;

/// The sector of the bitmap.
const BITMAP: u32 = 1028;

/// The sector of inodes 2 and 3.
const INODES: u32 = 1031;

/// The first sector of block 547, the first data block.
const NAMES: u32 = 1094;

/// Sectors by number; the others are zeros.
#[derive(Drop)]
struct Memory {
    sectors: Vec<(u32, [u8; 512])>,
}

impl Sectors for Memory {
    ghost use Rattle.std.specs.Prelude.{◌^◌, [], None};

    ghost view = { λ _. record { shown = None; seen = None; size = 2 ^ 32; faults = 0; deeds = record { told = None; count = 0; doubt = []; write_faults = 0 }; reference = 0 } };

    fn sector(&mut self, s: SectorNo) -> Result<[u8; 512], Fault> {
        for (at, bytes) in &self.sectors {
            if *at == s.get() {
                return Ok(*bytes);
            }
        }
        Ok([0; 512])
    }
}

fn inode(kind: FileKind, nlink: u16, size: u64, block: Option<Extent>) -> InodeValue {
    let attrs = ExtAttrs {
        fixed: 0,
        reserve: 0,
        flags: 0,
    };
    InodeValue {
        inode: Inode {
            kind,
            mode: 0o644,
            nlink,
            size,
            attrs,
        },
        maps: 0,
        extents: if block.is_some() { 1 } else { 0 },
        first: [block, None, None, None, None, None],
        map: None,
    }
}

/// The sector of the root, which has one block, and of a file of so many links.
fn inodes(nlink: u16) -> [u8; 512] {
    let extent = Extent {
        page: Page::new(0),
        start: Block::new(547),
        len: 1,
        kind: Kind::Data,
    };
    let root = inode(FileKind::Directory, 1, 1024, Some(extent));
    let file = inode(FileKind::File, nlink, 0, None);
    inode_sector(Some(&root), Some(&file))
}

/// The root's block has one entry, `a` of inode 3.
fn names() -> [u8; 512] {
    let mut bytes = [0; 512];
    bytes[..10].copy_from_slice(&[1, 0, 6, 0, 3, 0, 0, 0, 1, b'a']);
    bytes
}

/// The first 34 blocks are in use.
fn bitmap() -> [u8; 512] {
    let mut used = [false; 4096];
    for j in 0..34 {
        used[j] = true;
    }
    write_bits(&used)
}

/// The root and a file of so many links and one name.
fn image(alloc: Global, nlink: u16) -> Result<Memory, AllocError> {
    let mut sectors = Vec::new(alloc);
    sectors.push((BITMAP, bitmap()))?;
    sectors.push((INODES, inodes(nlink)))?;
    sectors.push((NAMES, names()))?;
    Ok(Memory { sectors })
}

/// The image with another byte at a place of one of its sectors.
fn bent(mut image: Memory, sector: u32, place: usize, byte: u8) -> Memory {
    for (at, bytes) in &mut image.sectors {
        if *at == sector && place < 512 {
            bytes[place] = byte;
        }
    }
    image
}

/// One unit that starts at block 514.
fn volume() -> Volume
    ensures { result ≡ record { block = 1024; first = 514; units = 1 } }
{
    Volume {
        block: 1024,
        first: Block::new(514),
        units: 1,
    }
}

fn checked(alloc: Global, image: &mut Memory, strict: bool) -> Result<Found, Stop> {
    check_metadata(alloc, image, &volume(), strict, false)
}

/// A disk of zeros.
fn disk(alloc: Global) -> Result<MemDisk, AllocError> {
    let image = Image::zeroed(alloc, 9_220)?;
    MemDisk::new(alloc, image, 8, NumList::new(alloc), NumList::new(alloc))
}

fn sector_named(found: Result<Found, Stop>) -> Option<u32> {
    match found {
        Err(Stop::BadMeta { sector }) => Some(sector),
        _ => None,
    }
}

#[test]
fn sound_image(rt: HostRuntime) -> Result<(), Fail> {
    let mut image = image(rt.alloc(), 1)?;
    match checked(rt.alloc(), &mut image, true) {
        Ok(found) => {
            assert_eq!(rt; found.inodes.len(), 128);
            assert!(rt; matches!(found.inodes.get(3), Some(Some(_))));
            assert!(rt; matches!(found.inodes.get(4), Some(None)));
            match found.children.get(2) {
                Some(targets) => assert_eq!(rt; targets.as_slice(), [3].as_slice()),
                None => panic!(rt; "no root"),
            }
        }
        Err(stop) => panic!(rt; "stopped: {stop:?}"),
    }
    Ok(())
}

// In inode 3 the byte behind its kind has flag 32; block 35 of the unit is said to be in use; the entry names inode 4.
#[test]
fn bent_bytes(rt: HostRuntime) -> Result<(), Fail> {
    for (sector, place, byte, want) in [
        (INODES, 257, 32, INODES),
        (BITMAP, 4, 11, BITMAP),
        (NAMES, 4, 4, INODES),
        (NAMES, 2, 7, NAMES),
        (NAMES, 9, b'/', NAMES),
    ] {
        let mut image = bent(image(rt.alloc(), 1)?, sector, place, byte);
        let result = checked(rt.alloc(), &mut image, true);
        assert_eq!(rt; sector_named(result), Some(want), "at {place} of {sector}");
    }
    Ok(())
}

#[test]
fn wrong_link_number(rt: HostRuntime) -> Result<(), Fail> {
    let mut image = image(rt.alloc(), 2)?;
    let result = checked(rt.alloc(), &mut image, false);
    assert_eq!(rt; sector_named(result), Some(INODES));
    Ok(())
}

// The directory block has no entry, and inode 3 no name.
#[test]
fn file_without_a_name(rt: HostRuntime) -> Result<(), Fail> {
    for strict in [false, true] {
        let mut image = image(rt.alloc(), 0)?;
        for (at, bytes) in &mut image.sectors {
            if *at == NAMES {
                *bytes = [0; 512];
            }
        }
        let result = checked(rt.alloc(), &mut image, strict);
        assert_eq!(rt; result.is_ok(), !strict);
        assert_eq!(rt;
            sector_named(result),
            if strict { Some(INODES) } else { None }
        );
    }
    Ok(())
}

// The disk has zeros alone, so no root; the image is what is noted of three of its sectors.
#[test]
fn notes_over_a_disk(rt: HostRuntime) -> Result<(), Fail> {
    let mut disk = disk(rt.alloc())?;
    // The check needs all sectors of the unit.
    assert_eq!(rt; disk.sectors(), 9_220);
    let mut homes = Homes::new(rt.alloc())?;
    let bare = check_overlaid(rt.alloc(), &mut disk, &homes, &volume(), true);
    assert_eq!(rt; sector_named(bare), Some(INODES));
    homes.note(SectorNo::new(BITMAP), &bitmap());
    homes.note(SectorNo::new(INODES), &inodes(1));
    homes.note(SectorNo::new(NAMES), &names());
    let whole = check_overlaid(rt.alloc(), &mut disk, &homes, &volume(), true);
    assert!(rt; whole.is_ok());
    assert_eq!(rt; disk.ops(), 0);
    Ok(())
}

// What stands on the disk is the image: the root's block has the entry of inode 3.
#[test]
fn metadata_of_a_disk(rt: HostRuntime) -> Result<(), Fail> {
    let mut disk = disk(rt.alloc())?;
    // The check needs all sectors of the unit.
    assert_eq!(rt; disk.sectors(), 9_220);
    assert!(rt; disk.write(u64::from(BITMAP), &bitmap()).is_ok());
    assert!(rt; disk.write(u64::from(INODES), &inodes(1)).is_ok());
    assert!(rt; disk.write(u64::from(NAMES), &names()).is_ok());
    let found = match read_metadata(rt.alloc(), &mut disk, &volume()) {
        Ok(found) => found,
        Err(stop) => panic!(rt; "stopped: {stop:?}"),
    };
    assert_eq!(rt; found.inodes.len(), 128);
    assert_eq!(rt; found.contents.len(), 128);
    match found.contents.get(2) {
        Some(root) => {
            assert_eq!(rt; root.maps().len(), 0);
            assert_eq!(rt; root.extents().len(), 1);
            assert_eq!(rt; root.blocks().len(), 1);
            for block in root.blocks() {
                assert_eq!(rt; block.len(), 1);
                for entry in block.as_slice() {
                    assert_eq!(rt; entry.ino, Ino::new(3));
                    assert_eq!(rt; entry.name.as_slice(), b"a".as_slice());
                }
            }
        }
        None => panic!(rt; "no root"),
    }
    // No write came with it, and none is missed: an inode's sector that is bent is refused.
    assert_eq!(rt; disk.ops(), 3);
    assert!(rt; disk.write(u64::from(INODES), &inodes(2)).is_ok());
    let bent = read_metadata(rt.alloc(), &mut disk, &volume());
    assert_eq!(rt; sector_named(bent), Some(INODES));
    Ok(())
}
