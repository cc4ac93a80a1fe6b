//! A mount on a disk in memory, stage by stage.
ghost use Rattle.std.specs.Prelude.{◌≡◌, [], IfOk, length};
ghost use Rattle.vx_log.specs.Logs.{fresh_log};

use crate::{Job, Room, mount_image, new_mount};
use std::alloc::{AllocError, Global};
use std::test::Fail;
use vx_base::{Logging, NumList};
use vx_dev::{BlockDev, Image, MemDisk};
use vx_home::Homes;
use vx_layout::Super;
use vx_log::{Batch, Log};
use vx_mkfs::make;

const SIZES: Super = Super {
    log_blocks: 512,
    units: 1,
    clean: false,
};

/// A disk of zeros.
fn disk(alloc: Global, sectors: u64) -> Result<MemDisk, AllocError>
    ensures { IfOk result (λ disk. length disk.start ≡ sectors) }
{
    let image = Image::zeroed(alloc, sectors)?;
    MemDisk::new(alloc, image, 128, NumList::new(alloc), NumList::new(alloc))
}

/// The memory of a mount with a log of 512 blocks.
fn room(alloc: Global) -> Result<Room, AllocError>
    ensures log { IfOk result (λ room. room.log ≡ fresh_log 1024) }
    ensures homes { IfOk result (λ room. room.homes ≡ []) }
    ensures gathered { IfOk result (λ room. room.gathered ≡ []) }
    ensures ready { IfOk result (λ room. room.ready ≡ []) }
    ensures history { IfOk result (λ room. room.history.items ≡ []) }
{
    Ok(Room {
        log: Log::fresh(alloc, 512)?,
        homes: Homes::new(alloc)?,
        gathered: Batch::new(alloc)?,
        ready: Batch::new(alloc)?,
        history: Vec::with_capacity(alloc, 8)?,
    })
}

#[test]
fn a_new_mount_has_no_stage(rt: HostRuntime) -> Result<(), Fail> {
    let mut disk = disk(rt.alloc(), 9220)?;
    let room = room(rt.alloc())?;
    let mut kernel = new_mount(&mut disk, SIZES, Logging::Log, room)?;
    assert_eq!(rt; disk.ops(), 70);
    kernel.stage(&mut disk)?;
    assert_eq!(rt; disk.ops(), 70);
    kernel.facts(&disk);
    assert!(rt; kernel.has_place());
    assert!(rt; kernel.job == Job::Idle);
    Ok(())
}

#[test]
fn a_clean_image_is_mounted_by_three_operations(rt: HostRuntime) -> Result<(), Fail> {
    let mut disk = disk(rt.alloc(), 9220)?;
    let clean = Super {
        clean: true,
        ..SIZES
    };
    make(&mut disk, &clean)?;
    assert_eq!(rt; disk.ops(), 70);
    let room = room(rt.alloc())?;
    let kernel = mount_image(&mut disk, SIZES, Logging::Log, room)?;
    assert_eq!(rt; disk.ops(), 73);
    assert!(rt; kernel.job == Job::Idle);
    assert_eq!(rt; kernel.first, 73);
    let mut sector = [0; 512];
    disk.read(0, &mut sector)?;
    assert!(rt; sector == SIZES.write());
    Ok(())
}
