//! Devices that hold no file system, and one whose superblock and log are those of a clean image.
ghost use Rattle.std.specs.Prelude.{◌≡◌, IfOk, length};

use crate::{CheckRefusal, ReplayRefusal, check, check_clean_front, replay};
use std::alloc::{AllocError, Global};
use std::test::Fail;
use vx_base::NumList;
use vx_dev::{BlockDev, Image, MemDisk};
use vx_layout::Super;
use vx_log::{Ends, head_sector};

/// A disk of zeros.
fn disk(alloc: Global, sectors: u64) -> Result<MemDisk, AllocError>
    ensures { IfOk result (λ disk. length disk.start ≡ sectors) }
{
    let image = Image::zeroed(alloc, sectors)?;
    MemDisk::new(alloc, image, 8, NumList::new(alloc), NumList::new(alloc))
}

#[test]
fn zeros(rt: HostRuntime) -> Result<(), Fail> {
    for sectors in [0, 9_220] {
        let mut disk = disk(rt.alloc(), sectors)?;
        assert_eq!(rt;
            replay(rt.alloc(), &mut disk),
            Err(ReplayRefusal::BadSuper { field: 1 })
        );
        let checked = check(rt.alloc(), &mut disk, true);
        assert!(rt; matches!(checked, Err(CheckRefusal::BadSuper { field: 1 })));
        let front = check_clean_front(rt.alloc(), &mut disk);
        assert!(rt; matches!(front, Err(CheckRefusal::BadSuper { field: 1 })));
        assert_eq!(rt; disk.ops(), 0);
    }
    Ok(())
}

#[test]
fn only_the_front_of_a_clean_image_is_looked_at(rt: HostRuntime) -> Result<(), Fail> {
    let mut disk = disk(rt.alloc(), 9_220)?;
    let clean = Super {
        log_blocks: 512,
        units: 1,
        clean: true,
    };
    disk.write(0, &clean.write())?;
    disk.write(2, &head_sector(7, 40, 40))?;
    let front = check_clean_front(rt.alloc(), &mut disk)?;
    assert_eq!(rt; front.superblock.log_blocks, 512);
    assert_eq!(rt;
        front.ends,
        Ends {
            serial: 7,
            tail: 40,
            head: 40
        }
    );
    assert_eq!(rt; disk.ops(), 2);
    disk.write(2, &head_sector(7, 40, 41))?;
    assert!(rt;
        matches!(
            check_clean_front(rt.alloc(), &mut disk),
            Err(CheckRefusal::BadLog { sector: 44 })
        )
    );
    Ok(())
}
