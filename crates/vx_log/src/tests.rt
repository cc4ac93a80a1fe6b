//! The first commit of a new image, and the end of its batch.
ghost use Rattle.std.specs.Prelude.{◌≡◌, ◌<◌, ◌≤◌, IfOk, IsNone, All, length};

use crate::{Batch, Log};
use std::alloc::{AllocError, Global};
use std::test::Fail;
use vx_base::{NumList, SectorNo};
use vx_dev::{BlockDev, DevFault, Image, MemDisk};

/// A disk of 2,048 zero sectors.
fn disk(alloc: Global) -> Result<MemDisk, AllocError> {
    let image = Image::zeroed(alloc, 2048)?;
    MemDisk::new(alloc, image, 16, NumList::new(alloc), NumList::new(alloc))
}

/// The sectors of the first create in the root of a new image.
fn first_batch(alloc: Global) -> Result<Batch, AllocError>
    ensures long { IfOk result (λ batch. length batch ≡ 4) }
    ensures homes { IfOk result (λ batch. All (λ e. 1028 ≤ e.0) batch) }
{
    let mut batch = Batch::new(alloc)?;
    batch.set(SectorNo::new(1095), &[4; 512]);
    batch.set(SectorNo::new(1028), &[1; 512]);
    batch.set(SectorNo::new(1094), &[3; 512]);
    batch.set(SectorNo::new(1031), &[2; 512]);
    Ok(batch)
}

/// Whether the sector begins with these bytes.
fn begins_with(disk: &mut MemDisk, s: u64, bytes: &[u8]) -> Result<bool, DevFault>
    requires { s < length disk.old.start }
    ensures { length disk.new.start ≡ length disk.old.start }
{
    let mut sector = [0; 512];
    disk.read(s, &mut sector)?;
    Ok(sector.starts_with(bytes))
}

/// A new log with its first batch written.
fn committed(alloc: Global, disk: &mut MemDisk) -> Result<Log, Fail>
    requires { length disk.old.start ≡ 2048 }
    ensures size { length disk.new.start ≡ length disk.old.start }
    ensures log { IfOk result (λ log. (log.sectors ≡ 1024) × IsNone log.closing) }
{
    let mut log = Log::fresh(alloc, 512)?;
    log.close_batch(first_batch(alloc)?);
    let _out = log.put_next(disk)?;
    disk.barrier()?;
    log.open_gate(disk)?;
    Ok(log)
}

#[test]
fn new_log(rt: HostRuntime) -> Result<(), Fail> {
    let log = Log::fresh(rt.alloc(), 512)?;
    assert_eq!(rt; log.tail(), 0);
    assert_eq!(rt; log.head(), 0);
    assert_eq!(rt; log.room(), 1024);
    assert_eq!(rt; Batch::new(rt.alloc())?.len(), 0);
    Ok(())
}

#[test]
fn first_commit(rt: HostRuntime) -> Result<(), Fail> {
    let mut disk = disk(rt.alloc())?;
    assert_eq!(rt; disk.sectors(), 2048);
    let mut log = committed(rt.alloc(), &mut disk)?;
    assert_eq!(rt; disk.ops(), 7);
    assert_eq!(rt; log.serial(), 2);
    assert_eq!(rt; log.head(), 5);
    assert_eq!(rt; log.room(), 1019);

    let descriptor =
        b"VXRC\x04\0\0\0\0\0\0\0\0\0\0\0\x04\x04\0\0\x07\x04\0\0\x46\x04\0\0\x47\x04\0\0\0";
    assert!(rt; begins_with(&mut disk, 4, descriptor)?);
    let head = b"VXLOGHD1\x02\0\0\0\0\0\0\0\0\0\0\0\0\0\0\0\x05\0\0\0\0\0\0\0\0";
    assert!(rt; begins_with(&mut disk, 2, head)?);

    assert!(rt; log.take_back().is_some());
    assert!(rt; log.take_back().is_none());
    let head = log.head();
    log.advance_tail(&mut disk, head)?;
    assert_eq!(rt; log.room(), 1024);
    log.restart(&mut disk)?;
    assert_eq!(rt; log.head(), 0);
    assert_eq!(rt; log.serial(), 4);
    Ok(())
}
