//! Checks and formats of images in memory.
ghost use Rattle.std.specs.Prelude.{◌≡◌, IfOk, length};

use crate::{AdminDone, admin, image_of};
use std::alloc::{AllocError, Global};
use std::test::Fail;
use vx_base::{MemSink, NumList, SectorNo};
use vx_dev::{BlockDev, Image, MemDisk};
use vx_layout::Super;
use vx_log::{Batch, Log};
use vx_mkfs::make;
use vx_replay::{CheckRefusal, Checked, check as image_check};

/// The operations of a format, and of one transaction that changes one sector.
const STOPPED: u64 = 75;

/// The sector of inodes 4 and 5, which are free in a new file system, so that it holds zeros.
const FREE_INODES: u32 = 1032;

/// The superblock of a new file system while it is mounted.
const MOUNTED: Super = Super {
    log_blocks: 512,
    units: 1,
    clean: false,
};

/// A disk of zeros that fails these writes and barriers, and these reads.
fn disk(alloc: Global, fail_writes: &[u64], fail_reads: &[u64]) -> Result<MemDisk, AllocError>
    ensures { IfOk result (λ disk. length disk.start ≡ 9220) }
{
    let image = Image::zeroed(alloc, 9_220)?;
    MemDisk::new(
        alloc,
        image,
        128,
        NumList::from_slice(alloc, fail_writes)?,
        NumList::from_slice(alloc, fail_reads)?,
    )
}

/// A new file system with one transaction, which leaves it as it was, and which is not unmounted.
fn stopped(alloc: Global, fail_writes: &[u64], fail_reads: &[u64]) -> Result<MemDisk, Fail> {
    let mut disk = disk(alloc, fail_writes, fail_reads)?;
    make(&mut disk, &MOUNTED)?;
    put_transaction(alloc, &mut disk, &[0; 512])?;
    Ok(disk)
}

/// Puts a transaction into the log of a new file system, which gives the sector of free inodes this content.
fn put_transaction(alloc: Global, disk: &mut MemDisk, content: &[u8; 512]) -> Result<(), Fail>
    requires { length disk.old.start ≡ 9220 }
{
    let mut log = Log::fresh(alloc, MOUNTED.log_blocks)?;
    let mut batch = Batch::new(alloc)?;
    batch.set(SectorNo::new(FREE_INODES), content);
    log.close_batch(batch);
    let _out = log.put_next(disk)?;
    disk.barrier()?;
    log.open_gate(disk)?;
    disk.barrier()?;
    Ok(())
}

/// What a check printed, with its status and its device.
#[derive(Drop)]
struct Seen {
    status: u8,
    dev: MemDisk,
    out: MemSink,
}

/// A check whose sink has this room.
fn check(alloc: Global, words: &[&str], room: u32, dev: MemDisk) -> Result<Seen, AllocError> {
    let mut list = Vec::new(alloc);
    for word in words {
        list.push(String::from_str(alloc, word)?)?;
    }
    let mut out = MemSink::new(alloc, room, NumList::new(alloc))?;
    let AdminDone { status, dev } = admin(alloc, &list, dev, &mut out);
    Ok(Seen { status, dev, out })
}

/// Whether a check ended so, after so many operations of its device.
fn ended(seen: &Seen, status: u8, line: &[u8], ops: u64) -> bool {
    seen.status == status && seen.out.as_slice() == line && seen.dev.ops() == ops
}

#[test]
fn replay_and_again(rt: HostRuntime) -> Result<(), Fail> {
    let disk = stopped(rt.alloc(), &[], &[])?;
    let first = check(rt.alloc(), &["fsck", "disk.img"], 64, disk)?;
    // A barrier, the home, a barrier, the head sector, a barrier, the superblock, a barrier.
    assert!(rt; ended(&first, 0, b"replayed 1 1 0\n", STOPPED + 7));
    let again = check(rt.alloc(), &["fsck", "disk.img"], 64, first.dev)?;
    assert!(rt; ended(&again, 0, b"clean\n", STOPPED + 7));
    Ok(())
}

#[test]
fn no_head_sector(rt: HostRuntime) -> Result<(), Fail> {
    let mut disk = disk(rt.alloc(), &[], &[])?;
    make(&mut disk, &MOUNTED)?;
    disk.write(2, &[0; 512])?;
    let seen = check(rt.alloc(), &["fsck", "disk.img"], 64, disk)?;
    assert!(rt; ended(&seen, 2, b"refused 2 BadLog 2\n", 71));
    Ok(())
}

/// The image check by itself, which finds a stopped image not clean where it is strict.
#[test]
fn strict_and_not(rt: HostRuntime) -> Result<(), Fail> {
    let mut disk = stopped(rt.alloc(), &[], &[])?;
    let passed = image_check(rt.alloc(), &mut disk, false);
    assert!(rt;
        matches!(
            passed,
            Ok(Checked {
                tail: 0,
                head: 2,
                ..
            })
        )
    );
    let refused = image_check(rt.alloc(), &mut disk, true);
    assert!(rt; matches!(refused, Err(CheckRefusal::NotClean { tail: 0, head: 2 })));
    assert_eq!(rt; disk.ops(), STOPPED);
    Ok(())
}

#[test]
fn bad_metadata(rt: HostRuntime) -> Result<(), Fail> {
    let mut bent = [0; 512];
    bent[511] = 1;
    let mut disk = disk(rt.alloc(), &[], &[])?;
    make(&mut disk, &MOUNTED)?;
    disk.write(u64::from(FREE_INODES), &bent)?;
    let seen = check(rt.alloc(), &["fsck", "disk.img"], 64, disk)?;
    assert!(rt; ended(&seen, 2, b"refused 2 BadMeta 1032\n", 71));
    Ok(())
}

#[test]
fn bad_metadata_in_the_log(rt: HostRuntime) -> Result<(), Fail> {
    let mut disk = disk(rt.alloc(), &[], &[])?;
    make(&mut disk, &MOUNTED)?;
    put_transaction(rt.alloc(), &mut disk, &[7; 512])?;
    let seen = check(rt.alloc(), &["fsck", "disk.img"], 64, disk)?;
    assert!(rt; ended(&seen, 2, b"refused 2 BadMeta 1032\n", STOPPED));
    Ok(())
}

/// A write, a read or a sink that fails as a stopped image is replayed.
#[derive(Clone, Copy)]
struct Fault {
    /// The write that fails, or none that comes.
    write: u64,
    /// The read that fails, or none that comes.
    read: u64,
    /// The bytes that the sink takes.
    room: u32,
    status: u8,
    line: &'static [u8],
    ops: u64,
}

#[test]
fn faults(rt: HostRuntime) -> Result<(), Fail> {
    let rows = [
        // The home, which is the second operation of the replay.
        Fault {
            write: STOPPED + 2,
            read: 999,
            room: 64,
            status: 4,
            line: b"refused 4 WriteFault\n",
            ops: STOPPED + 2,
        },
        Fault {
            write: 999,
            read: 2,
            room: 64,
            status: 8,
            line: b"refused 8 ReadFault\n",
            ops: STOPPED,
        },
        Fault {
            write: 999,
            read: 999,
            room: 4,
            status: 5,
            line: b"repl",
            ops: STOPPED + 7,
        },
    ];
    for row in rows {
        let disk = stopped(rt.alloc(), &[row.write], &[row.read])?;
        let seen = check(rt.alloc(), &["fsck", "disk.img"], row.room, disk)?;
        assert!(rt; ended(&seen, row.status, row.line, row.ops));
    }
    Ok(())
}

/// What comes of words and a device of zeros.
#[derive(Clone, Copy)]
struct Asked {
    words: &'static [&'static str],
    sectors: u64,
    status: u8,
    line: &'static [u8],
    ops: u64,
}

#[test]
fn zeros(rt: HostRuntime) -> Result<(), Fail> {
    let rows = [
        Asked {
            words: &["fsck", "disk.img"],
            sectors: 8,
            status: 2,
            line: b"refused 2 BadSuper 1\n",
            ops: 0,
        },
        Asked {
            words: &["mkfs", "disk.img"],
            sectors: 9_219,
            status: 2,
            line: b"refused 2 DeviceTooSmall 9219 9220\n",
            ops: 0,
        },
        Asked {
            words: &["mkfs", "disk.img"],
            sectors: 9_220,
            status: 0,
            line: b"made 1 512\n",
            ops: 70,
        },
        Asked {
            words: &["mkfs", "disk.img", "--units", "2", "--log", "256"],
            sectors: 16_900,
            status: 0,
            line: b"made 2 256\n",
            ops: 136,
        },
        Asked {
            words: &["mkfs", "--units=2", "disk.img", "--log=256"],
            sectors: 16_900,
            status: 0,
            line: b"made 2 256\n",
            ops: 136,
        },
        Asked {
            words: &["mkfs", "--", "disk.img"],
            sectors: 9_219,
            status: 2,
            line: b"refused 2 DeviceTooSmall 9219 9220\n",
            ops: 0,
        },
        Asked {
            words: &["mkfs", "disk.img", "--units", "1", "--units", "1"],
            sectors: 8,
            status: 1,
            line: b"refused 1 BadWords\n",
            ops: 0,
        },
        Asked {
            words: &["fsck"],
            sectors: 8,
            status: 1,
            line: b"refused 1 BadWords\n",
            ops: 0,
        },
        Asked {
            words: &["fsck", "disk.img", "--log", "512"],
            sectors: 8,
            status: 1,
            line: b"refused 1 BadWords\n",
            ops: 0,
        },
        Asked {
            words: &["mkfs", "disk.img", "--units", "65"],
            sectors: 8,
            status: 1,
            line: b"refused 1 BadWords\n",
            ops: 0,
        },
        Asked {
            words: &["mkfs", "disk.img", "--log", "256", "--units", "02"],
            sectors: 8,
            status: 1,
            line: b"refused 1 BadWords\n",
            ops: 0,
        },
    ];
    for row in rows {
        let image = Image::zeroed(rt.alloc(), row.sectors)?;
        let none = NumList::new(rt.alloc());
        let disk = MemDisk::new(rt.alloc(), image, 200, none, NumList::new(rt.alloc()))?;
        let seen = check(rt.alloc(), row.words, 64, disk)?;
        assert!(rt; ended(&seen, row.status, row.line, row.ops));
    }
    Ok(())
}

#[test]
fn words_with_an_image(rt: HostRuntime) -> Result<(), Fail> {
    let mut words = Vec::new(rt.alloc());
    for word in ["mkfs", "--log", "256", "disk.img"] {
        words.push(String::from_str(rt.alloc(), word)?)?;
    }
    assert_eq!(rt; image_of(rt.alloc(), &words)?, Some("disk.img"));
    Ok(())
}
