use crate::{BlockDev, DevFault, FuseDev, Image, MemDisk, pick_image};
use std::alloc::{AllocError, Global};
use std::test::Fail;
use vx_base::NumList;

/// Four sectors of zeros that fail no read, and these calls of `write` and `barrier`.
fn zeroed_disk(alloc: Global, fail_writes: &[u64]) -> Result<MemDisk, AllocError> {
    let fail_writes = NumList::from_slice(alloc, fail_writes)?;
    MemDisk::new(
        alloc,
        Image::zeroed(alloc, 4)?,
        8,
        fail_writes,
        NumList::new(alloc),
    )
}

/// The first byte of a sector, where there is one.
fn first_byte(image: &Image, s: u64) -> Option<u8> {
    if s < image.len() {
        Some(image.sector(s)[0])
    } else {
        None
    }
}

#[test]
fn picks_before_and_after_a_barrier(rt: HostRuntime) -> Result<(), Fail> {
    let alloc = rt.alloc();
    let mut disk = zeroed_disk(alloc, &[])?;
    assert_eq!(rt; disk.ops(), 0);
    assert_eq!(rt; disk.sectors(), 4);
    assert_eq!(rt; disk.write(1, &[7; 512]), Ok(()));
    assert_eq!(rt; disk.ops(), 1);
    assert_eq!(rt; first_byte(&pick_image(alloc, &disk, 1, 0)?, 1), Some(7));
    assert_eq!(rt; first_byte(&pick_image(alloc, &disk, 1, 1)?, 1), Some(0));
    assert_eq!(rt; disk.barrier(), Ok(()));
    assert_eq!(rt; disk.ops(), 2);
    assert_eq!(rt; first_byte(&pick_image(alloc, &disk, 2, 0)?, 1), Some(7));
    assert_eq!(rt; first_byte(&pick_image(alloc, &disk, 2, 1)?, 1), Some(7));
    assert_eq!(rt; first_byte(&pick_image(alloc, &disk, 1, 1)?, 1), Some(0));
    Ok(())
}

#[test]
fn a_listed_write_fails_and_is_appended(rt: HostRuntime) -> Result<(), Fail> {
    let alloc = rt.alloc();
    let mut disk = zeroed_disk(alloc, &[2])?;
    assert_eq!(rt; disk.sectors(), 4);
    assert_eq!(rt; disk.write(0, &[1; 512]), Ok(()));
    assert_eq!(rt; disk.write(1, &[2; 512]), Err(DevFault));
    assert_eq!(rt; disk.write_faults(), 1);
    assert_eq!(rt; disk.ops(), 2);
    assert_eq!(rt; first_byte(disk.image(), 1), Some(2));
    let mut found = [0; 512];
    assert_eq!(rt; disk.read(1, &mut found), Ok(()));
    assert_eq!(rt; found[511], 2);
    Ok(())
}

#[test]
fn a_fuse_passes_one(rt: HostRuntime) -> Result<(), Fail> {
    let mut fuse = FuseDev::new(zeroed_disk(rt.alloc(), &[])?, 1);
    assert_eq!(rt; fuse.sectors(), 4);
    assert_eq!(rt; fuse.write(0, &[1; 512]), Ok(()));
    assert_eq!(rt; fuse.barrier(), Err(DevFault));
    assert_eq!(rt; fuse.write(0, &[2; 512]), Err(DevFault));
    assert_eq!(rt; fuse.write_faults(), 2);
    assert_eq!(rt; fuse.into_inner().ops(), 1);
    Ok(())
}
