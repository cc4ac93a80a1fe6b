//! What the calls answer on small directories.
ghost use Rattle.std.specs.Prelude.{◌≤◌, length, IfOk};

use crate::dir_blocks::DirBlocks;
use crate::refusal::DirRefusal;
use std::alloc::Global;
use std::test::Fail;
use vx_base::{DirEntry, DirValue, Geom, Ino, Name};

/// A directory in which a and b are inodes 3 and 4.
fn two_names(alloc: Global) -> Result<DirBlocks, Fail> {
    let mut directory = DirBlocks::new(alloc);
    let _first = directory.add(&Name::from_slice(alloc, b"a")?, Ino::new(3));
    let _second = directory.add(&Name::from_slice(alloc, b"b")?, Ino::new(4));
    Ok(directory)
}

#[test]
fn found_and_listed(rt: HostRuntime) -> Result<(), Fail> {
    let directory = two_names(rt.alloc())?.copy()?;
    assert_eq!(rt; directory.blocks(), 1);
    assert_eq!(rt; directory.entries(), 2);
    let b = Name::from_slice(rt.alloc(), b"b")?;
    assert!(rt; directory.find(&b) == Some(Ino::new(4)));
    let names = directory.names()?;
    assert_eq!(rt; names.len(), 2);
    Ok(())
}

#[test]
fn refused_and_removed(rt: HostRuntime) -> Result<(), Fail> {
    let mut directory = two_names(rt.alloc())?;
    let a = Name::from_slice(rt.alloc(), b"a")?;
    assert!(rt; matches!(directory.add(&a, Ino::new(5)), Err(DirRefusal::Exist)));
    assert!(rt; matches!(directory.remove(&a), Ok(ino) if ino == Ino::new(3)));
    assert!(rt; directory.find(&a).is_none());
    Ok(())
}

#[test]
fn a_block_as_read(rt: HostRuntime) -> Result<(), Fail> {
    let mut read = DirValue::new(rt.alloc());
    let name = Name::from_slice(rt.alloc(), b"a")?;
    read.push(DirEntry {
        ino: Ino::new(3),
        name,
    })?;
    let mut directory = DirBlocks::with(rt.alloc(), Geom::layout1());
    directory.push(&read)?;
    assert_eq!(rt; directory.entries(), 1);
    Ok(())
}

/// Whether a name of so many letters is put into this block.
fn is_put_into(
    alloc: Global,
    directory: &mut DirBlocks,
    len: usize,
    block: u32,
) -> Result<bool, Fail>
    requires { len ≤ 255 }
{
    let letters = [b'x'; 255];
    let name = Name::from_slice(alloc, &letters[..len])?;
    Ok(matches!(directory.add(&name, Ino::new(4)), Ok(at) if at == block))
}

#[test]
fn packed_into_one(rt: HostRuntime) -> Result<(), Fail> {
    let mut directory = DirBlocks::new(rt.alloc());
    // 1,020 bytes of entries, and then one byte has no room.
    for len in [255, 254, 253, 238] {
        assert!(rt; is_put_into(rt.alloc(), &mut directory, len, 0)?);
    }
    assert!(rt; is_put_into(rt.alloc(), &mut directory, 1, 1)?);
    assert!(rt; matches!(directory.tighten(), Ok(2)));
    Ok(())
}

#[test]
fn no_further_block(rt: HostRuntime) -> Result<(), Fail> {
    let mut directory = DirBlocks::with(
        rt.alloc(),
        Geom {
            dirs: 1,
            ..Geom::layout1()
        },
    );
    for len in [255, 254, 253] {
        assert!(rt; is_put_into(rt.alloc(), &mut directory, len, 0)?);
    }
    let name = Name::from_slice(rt.alloc(), &[b'y'; 255])?;
    let refused = directory.add(&name, Ino::new(3));
    assert!(rt; matches!(refused, Err(DirRefusal::TooBig { end: 2048 })));
    Ok(())
}
