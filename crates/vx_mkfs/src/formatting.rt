//! Writing a new file system.
ghost use Rattle.std.specs.Prelude.{◌≡◌, ◌<◌, ◌≤◌, ◌+◌, ◌*◌, true, OnOk, OnErr};
ghost use Rattle.vx_base.specs.Faults.{HasCause};
ghost use Rattle.vx_layout.specs.Places.{sectors_of};
ghost use Rattle.vx_layout.specs.Supers.{IsSuper, volume_of};
ghost use Rattle.vx_dev.specs.Moments.{Told};
ghost use Rattle.vx_model.specs.Contents.{fresh_root, new_bitmap, unit_bytes};
ghost use Rattle.vx_model.specs.Replays.{IsLeft};
ghost use Rattle.vx_model.specs.Tree.{empty_root};
ghost use Rattle.vx_dev.specs.Runs.{Onward};
ghost use Rattle.vx_mkfs.specs.Formats.{HasUnits, IsNewImage, format_operations};

use vx_base::{ExtAttrs, FileKind, Inode, InodeValue};
use vx_codec::{inode_sector, write_bits};
use vx_dev::{BlockDev, DevFault, pass, put, tape_laws};
use vx_layout::{Super, super_places};
use vx_log::head_sector;
use vx_model::states::fresh_reads;
use vx_sound::sound_laws;
use vx_wellformed::laws::history_sound;

/// The sectors of a block of 1,024 bytes.
const SECTORS_PER_BLOCK: u64 = 2;

/// The sectors of a unit that formatting writes: those of its bitmap's block and those of its inodes.
const UNIT_SECTORS: u64 = SECTORS_PER_BLOCK + 64;

/// The sector of the superblock.
const SUPER_SECTOR: u64 = 0;

/// The sector of the log's head.
const HEAD_SECTOR: u64 = 2;

/// The serial of a log's head that was written once.
const FIRST_SERIAL: u64 = 1;

/// The root's permission bits.
const ROOT_MODE: u16 = 0o755;

/// The bitmap of a new unit: its own block and those of the inodes are in use.
fn new_bitmap() -> [u8; 512]
    ensures { result ≡ new_bitmap SECTORS_PER_BLOCK }
{
    let mut used = [false; 4096];
    for j in 0..33 {
        used[j] = true;
    }
    write_bits(&used)
}

/// The inode of an empty root.
fn new_root() -> InodeValue
    ensures { result ≡ fresh_root }
{
    InodeValue {
        inode: Inode {
            kind: FileKind::Directory,
            mode: ROOT_MODE,
            nlink: 1,
            size: 0,
            attrs: ExtAttrs {
                fixed: 0,
                reserve: 0,
                flags: 0,
            },
        },
        maps: 0,
        extents: 0,
        first: [None; 6],
        map: None,
    }
}

/// Sector `i` of new unit `u`.
fn unit_sector(u: u32, i: u64) -> [u8; 512]
    ensures { result ≡ unit_bytes SECTORS_PER_BLOCK u i }
{
    if i == 0 {
        new_bitmap()
    } else if u == 0 && i == SECTORS_PER_BLOCK + 1 {
        inode_sector(Some(&new_root()), None)
    } else {
        [0; 512]
    }
}

/// Writes the bitmap and the inodes of one more unit.
fn put_unit<D: BlockDev>(dev: &mut D, superblock: &Super, u: u32) -> Result<(), DevFault>
    requires is { IsSuper superblock.now }
    requires there { u < superblock.now.units }
    requires size { sectors_of (volume_of superblock.now) ≤ (D.state dev.old).size }
    requires before { Told (D.state dev.old) (HasUnits (volume_of superblock.now) u) }
    ensures units { OnOk result (Told (D.state dev.new) (HasUnits (volume_of superblock.now) (u + 1))) }
    ensures onward { Onward (D.state dev.old) (D.state dev.new) }
    ensures count { OnOk result ((D.state dev.new).count ≡ (D.state dev.old).count + UNIT_SECTORS) }
    ensures most { OnErr result ((D.state dev.new).count ≤ (D.state dev.old).count + UNIT_SECTORS) }
    ensures cause { HasCause (D.state dev.old).write_faults (D.state dev.new).write_faults result }
{
    // The proof rests on this law; nothing runs here.
    tape_laws();
    let start = superblock.bitmap_place(u).get() as u64;
    for i in 0..UNIT_SECTORS {
        put(dev, start + i, &unit_sector(u, i))?;
    }
    Ok(())
}

/// Writes the bitmap and the inodes of every unit.
fn put_units<D: BlockDev>(dev: &mut D, superblock: &Super) -> Result<(), DevFault>
    requires is { IsSuper superblock.now }
    requires size { sectors_of (volume_of superblock.now) ≤ (D.state dev.old).size }
    ensures units { OnOk result (Told (D.state dev.new) (HasUnits (volume_of superblock.now) superblock.now.units)) }
    ensures onward { Onward (D.state dev.old) (D.state dev.new) }
    ensures count { OnOk result ((D.state dev.new).count ≡ (D.state dev.old).count + UNIT_SECTORS * superblock.now.units) }
    ensures most { OnErr result ((D.state dev.new).count ≤ (D.state dev.old).count + UNIT_SECTORS * superblock.now.units) }
    ensures cause { HasCause (D.state dev.old).write_faults (D.state dev.new).write_faults result }
{
    for u in 0..superblock.units {
        put_unit(dev, superblock, u)?;
    }
    Ok(())
}

/// Writes a new file system with this superblock, in 66 operations for each unit and 4 more: for each unit its bitmap and its
/// inodes, then the log's head, a barrier, the superblock and a barrier. `docs/LAYOUT.md` says what stands where.
///
/// # Errors
///
/// A write or a barrier failed, and then the device may hold a part of it.
pub fn make<D: BlockDev>(dev: &mut D, superblock: &Super) -> Result<(), DevFault>
    requires is { IsSuper superblock.now }
    requires size { sectors_of (volume_of superblock.now) ≤ (D.state dev.old).size }
    ensures new { OnOk result (Told (D.state dev.new) (IsNewImage superblock.now)) }
    ensures left { superblock.now.clean ≡ true → OnOk result (Told (D.state dev.new) (IsLeft (D.state dev.old).size empty_root)) }
    ensures onward { Onward (D.state dev.old) (D.state dev.new) }
    ensures count { OnOk result ((D.state dev.new).count ≡ (D.state dev.old).count + format_operations superblock.now) }
    ensures fewer { OnErr result ((D.state dev.new).count < (D.state dev.old).count + format_operations superblock.now) }
    ensures cause { HasCause (D.state dev.old).write_faults (D.state dev.new).write_faults result }
{
    // The proof rests on these laws; nothing runs here.
    tape_laws();
    fresh_reads();
    sound_laws();
    history_sound();
    put_units(dev, superblock)?;
    put(dev, HEAD_SECTOR, &head_sector(FIRST_SERIAL, 0, 0))?;
    pass(dev)?;
    put(dev, SUPER_SECTOR, &superblock.write())?;
    pass(dev)
}
