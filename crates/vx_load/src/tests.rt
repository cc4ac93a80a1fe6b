//! A new file system, loaded.
ghost use Rattle.std.specs.Prelude.{◌≡◌, IfOk, length};

use crate::{LoadRefusal, load};
use std::alloc::{AllocError, Global};
use std::test::Fail;
use vx_base::{Ino, NumList};
use vx_dev::{BlockDev, Image, MemDisk};
use vx_layout::Super;
use vx_mkfs::make;
use vx_replay::CheckRefusal;

/// A disk of zeros.
fn disk(alloc: Global, sectors: u64) -> Result<MemDisk, AllocError>
    ensures { IfOk result (λ disk. length disk.start ≡ sectors) }
{
    let image = Image::zeroed(alloc, sectors)?;
    MemDisk::new(alloc, image, 80, NumList::new(alloc), NumList::new(alloc))
}

#[test]
fn a_new_file_system_is_loaded(rt: HostRuntime) -> Result<(), Fail> {
    let alloc = rt.alloc();
    let mut disk = disk(alloc, 9_220)?;
    assert!(rt;
        matches!(
            load(alloc, &mut disk),
            Err(LoadRefusal::Check(CheckRefusal::BadSuper { field: 1 }))
        )
    );
    let clean = Super {
        log_blocks: 512,
        units: 1,
        clean: true,
    };
    make(&mut disk, &clean)?;
    let loaded = load(alloc, &mut disk)?;
    assert_eq!(rt; disk.ops(), 70);
    assert_eq!(rt; (loaded.front.ends.tail, loaded.front.ends.head), (0, 0));
    assert!(rt;
        matches!(loaded.meta.inode_value(Ino::new(2)), Some(root) if root.inode.nlink == 1)
    );
    assert!(rt; loaded.meta.inode_value(Ino::new(3)).is_none());
    Ok(())
}
