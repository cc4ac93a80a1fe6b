//! A new file system of two units on a disk in memory.
ghost use Rattle.std.specs.Prelude.{◌≡◌, IfOk, length};

use crate::make;
use std::alloc::{AllocError, Global};
use std::test::Fail;
use vx_base::NumList;
use vx_dev::{BlockDev, DevFault, Image, MemDisk};
use vx_layout::Super;

const TWO_UNITS: Super = Super {
    log_blocks: 512,
    units: 2,
    clean: true,
};

/// A disk of zeros for two units, with room for the operations, that fails these calls.
fn disk(alloc: Global, failing: &[u64]) -> Result<MemDisk, AllocError>
    ensures { IfOk result (λ disk. length disk.start ≡ 17412) }
{
    let image = Image::zeroed(alloc, 17412)?;
    let failing = NumList::from_slice(alloc, failing)?;
    MemDisk::new(alloc, image, 200, failing, NumList::new(alloc))
}

#[test]
fn two_units(rt: HostRuntime) -> Result<(), Fail> {
    let mut disk = disk(rt.alloc(), &[])?;
    make(&mut disk, &TWO_UNITS)?;
    assert_eq!(rt; disk.ops(), 136);
    let mut sector = [0; 512];
    disk.read(0, &mut sector)?;
    assert_eq!(rt; sector[28], 1);
    disk.read(9220, &mut sector)?;
    assert_eq!(rt; &sector[..6], [0xff, 0xff, 0xff, 0xff, 1, 0].as_slice());
    Ok(())
}

#[test]
fn a_write_fails(rt: HostRuntime) -> Result<(), Fail> {
    let mut disk = disk(rt.alloc(), &[100])?;
    assert_eq!(rt; make(&mut disk, &TWO_UNITS), Err(DevFault));
    assert_eq!(rt; disk.ops(), 100);
    assert_eq!(rt; disk.write_faults(), 1);
    Ok(())
}
