//! Pages that are put on a disk in memory.
ghost use Rattle.std.specs.Prelude.{◌≡◌, IfOk, length};

use crate::Flush;
use std::alloc::{AllocError, Global};
use std::test::Fail;
use vx_base::{Block, Ino, NumList, Page};
use vx_dev::{BlockDev, Image, MemDisk};

/// A disk of 16 zero sectors, of whose writes and barriers these fail.
fn disk(alloc: Global, failing: &[u64]) -> Result<MemDisk, AllocError>
    ensures { IfOk result (λ disk. length disk.start ≡ 16) }
{
    let image = Image::zeroed(alloc, 16)?;
    let failing = NumList::from_slice(alloc, failing)?;
    MemDisk::new(alloc, image, 16, failing, NumList::new(alloc))
}

#[test]
fn a_page_is_stable_after_a_barrier(rt: HostRuntime) -> Result<(), Fail> {
    let mut disk = disk(rt.alloc(), &[])?;
    let mut flush = Flush::new(rt.alloc())?;
    let ino = Ino::new(3);
    let mut page = [1; 1024];
    page[512] = 2;
    flush.put_page(&mut disk, ino, Page::new(4), Block::new(5), &page)?;
    assert!(rt; flush.owes());
    assert!(rt; !flush.is_stable(ino, Page::new(4)));
    disk.barrier()?;
    flush.after_barrier();
    assert!(rt; !flush.owes());
    assert!(rt; flush.is_stable(ino, Page::new(4)));
    let mut sector = [0; 512];
    disk.read(10, &mut sector)?;
    assert_eq!(rt; sector[0], 1);
    disk.read(11, &mut sector)?;
    assert_eq!(rt; sector[0], 2);
    flush.drop_from(ino, Page::new(5));
    assert!(rt; flush.is_stable(ino, Page::new(4)));
    flush.drop_from(ino, Page::new(4));
    assert!(rt; !flush.is_stable(ino, Page::new(4)));
    assert_eq!(rt; flush.len(), 0);
    Ok(())
}

#[test]
fn a_failed_write_takes_the_mark(rt: HostRuntime) -> Result<(), Fail> {
    let mut disk = disk(rt.alloc(), &[5])?;
    let mut flush = Flush::new(rt.alloc())?;
    let ino = Ino::new(3);
    let page = Page::new(4);
    flush.put_page(&mut disk, ino, page, Block::new(5), &[1; 1024])?;
    disk.barrier()?;
    flush.after_barrier();
    assert!(rt; flush.is_stable(ino, page));
    assert!(rt; flush.has_room());
    let again = flush.put_page(&mut disk, ino, page, Block::new(5), &[2; 1024]);
    assert!(rt; again.is_err());
    assert_eq!(rt; disk.ops(), 5);
    assert_eq!(rt; flush.len(), 0);
    Ok(())
}
