//! One inode: its bytes, its map blocks, its extents and its directory blocks.
ghost use Rattle.std.specs.Prelude.{◌≡◌, ◌+◌, ◌*◌, ◌<◌, ◌≤◌, ◌^◌, ◌++◌, ◌&&◌, ◌||◌, not, [], ℕ, Bool, List, true, false, Some, None, IfOk, OnOk, IfSome, IsTrue, is_some, nat_lt, length};
ghost use Rattle.std.specs.List.{flat_map, AllByRecursion};
ghost use Rattle.vx_layout.specs.Places.{Volume, is_data};
ghost use Rattle.vx_layout.specs.Inodes.{layout1, IsSlot, IsInode};
ghost use Rattle.vx_sound.specs.Said.{Image, inode_count, inode_said, in_place, extent_blocks, extents_said, chain_said, blocks_said, claims_below, entries_of};
ghost use Rattle.vx_sound.specs.Checks.{value_checks, inode_checks};
ghost use Rattle.vx_check.specs.Parts.{Known, HasRead, IsReadable, HasRoom, FindsIn, IsCause, AreMarksOf};
ghost use Rattle.vx_check.specs.Directories.{AreUsed, AreBelow, targets_of};
ghost use Rattle.vx_check.specs.Slots.{IsSlotRead, slot_fits};
ghost use Rattle.vx_check.specs.Contents.{contents_said};

use crate::chain::check_maps;
use crate::contents::Contents;
use crate::directory::check_directory;
use crate::extents::check_extents;
use crate::reader::Sectors;
use crate::stop::Stop;
use std::alloc::{AllocError, Global};
use vx_base::{Block, Extent, FileKind, Ino, InodeValue};
use vx_layout::Volume;

/// Whether an inode may be in use where it is; 0 and 1 are free.
fn slot_fits(ino: Ino, value: &Option<InodeValue>) -> bool
    ensures { result ≡ slot_fits ino value.now }
{
    match value {
        Some(_) => ino.get() >= 2,
        None => true,
    }
}

/// The extents in an inode's six places.
fn add_first(extents: &mut Vec<Extent>, places: &[Option<Extent>]) -> Result<(), AllocError>
    ensures { OnOk result (extents.new.items ≡ extents.old.items ++ flat_map in_place places.now) }
{
    for place in places {
        add_place(extents, *place)?;
    }
    Ok(())
}

fn add_place(extents: &mut Vec<Extent>, place: Option<Extent>) -> Result<(), AllocError>
    ensures { OnOk result (extents.new.items ≡ extents.old.items ++ in_place place) }
{
    if let Some(extent) = place {
        extents.push(extent)?;
    }
    Ok(())
}

/// The blocks of a run.
fn add_run(blocks: &mut Vec<Block>, extent: &Extent) -> Result<(), AllocError>
    requires { (i : ℕ) → i < extent.now.len → extent.now.start + i < 2 ^ 32 }
    ensures { OnOk result (blocks.new.items ≡ blocks.old.items ++ extent_blocks extent.now) }
{
    for i in 0..extent.len {
        blocks.push(Block::new(extent.start.get() + i))?;
    }
    Ok(())
}

/// The blocks of all extents.
fn blocks_of(alloc: Global, extents: &[Extent]) -> Result<Vec<Block>, AllocError>
    requires { AllByRecursion (λ b. b < 2 ^ 32) (flat_map extent_blocks extents.now) }
    ensures { IfOk result (λ b. b.items ≡ flat_map extent_blocks extents.now) }
{
    let mut blocks = Vec::new(alloc);
    for extent in extents {
        add_run(&mut blocks, extent)?;
    }
    Ok(blocks)
}

/// What a sound inode says.
#[derive(Drop)]
pub(crate) struct Inspected {
    /// The numbers that its names mean.
    pub targets: Vec<u32>,
    pub contents: Contents,
}

/// An inode in use; answers what it says.
fn check_value<D: Sectors>(
    alloc: Global,
    dev: &mut D,
    volume: &Volume,
    marks: &mut [bool],
    used: &[bool],
    ino: Ino,
    value: &InodeValue,
) -> Result<Inspected, Stop>
    requires readable { IsReadable volume.now (D.view dev.old) }
    requires room { HasRoom volume.now marks.old }
    requires inode { ino < inode_count volume.now }
    requires is { IsInode layout1 value.now }
    requires said { Known (D.view dev.old) (λ image. inode_said volume.now image ino ≡ Some value.now) }
    requires used { Known (D.view dev.old) (AreUsed used.now volume.now) }
    requires marks { Known (D.view dev.old) (λ image. AreMarksOf marks.old (claims_below volume.now image ino)) }
    ensures finds { FindsIn (D.view dev.new) volume.now (λ image. value_checks volume.now image ino (Some value.now)) result }
    ensures marks { OnOk result (Known (D.view dev.new) (λ image. AreMarksOf marks.new (claims_below volume.now image ino ++ (chain_said volume.now image value.now ++ blocks_said volume.now image value.now)))) }
    ensures targets { IfOk result (λ i. Known (D.view dev.new) (λ image. i.targets.items ≡ targets_of (entries_of volume.now image ino))) }
    ensures inside { IfOk result (λ i. AreBelow (length used.now) i.targets.items) }
    ensures contents { IfOk result (λ i. Known (D.view dev.new) (λ image. i.contents ≡ contents_said volume.now image (Some value.now))) }
    ensures room { HasRoom volume.now marks.new }
    ensures read { HasRead (D.view dev.old) (D.view dev.new) }
    ensures cause { IsCause (D.view dev.old) (D.view dev.new) result }
{
    let sector = volume.inode_place(ino).0.get();
    let mut extents = Vec::new(alloc);
    match add_first(&mut extents, &value.first) {
        Ok(()) => {}
        Err(_) => return Err(Stop::NoMemory),
    }
    let maps = match check_maps(alloc, dev, volume, marks, &mut extents, ino, value) {
        Ok(maps) => maps,
        Err(stop) => return Err(stop),
    };
    if !check_extents(volume, marks, ino, value, &extents) {
        return Err(Stop::BadMeta { sector });
    }
    match value.inode.kind {
        FileKind::File => Ok(Inspected {
            targets: Vec::new(alloc),
            contents: Contents::new(maps, extents, Vec::new(alloc)),
        }),
        FileKind::Directory => {
            let Ok(blocks) = blocks_of(alloc, &extents) else {
                return Err(Stop::NoMemory);
            };
            match check_directory(alloc, dev, volume, used, ino, &blocks) {
                Ok(listing) => Ok(Inspected {
                    targets: listing.targets,
                    contents: Contents::new(maps, extents, listing.blocks),
                }),
                Err(stop) => Err(stop),
            }
        }
    }
}

/// An inode, in use or not; answers what it says.
pub(crate) fn check_inode<D: Sectors>(
    alloc: Global,
    dev: &mut D,
    volume: &Volume,
    marks: &mut [bool],
    used: &[bool],
    ino: Ino,
    value: &Option<InodeValue>,
    bad: bool,
) -> Result<Inspected, Stop>
    requires readable { IsReadable volume.now (D.view dev.old) }
    requires room { HasRoom volume.now marks.old }
    requires inode { ino < inode_count volume.now }
    requires is { IsSlot layout1 value.now }
    requires slot { Known (D.view dev.old) (λ image. IsSlotRead volume.now image ino value.now bad) }
    requires used { Known (D.view dev.old) (AreUsed used.now volume.now) }
    requires marks { Known (D.view dev.old) (λ image. AreMarksOf marks.old (claims_below volume.now image ino)) }
    ensures finds { FindsIn (D.view dev.new) volume.now (λ image. inode_checks volume.now image ino) result }
    ensures marks { OnOk result (Known (D.view dev.new) (λ image. AreMarksOf marks.new (claims_below volume.now image (ino + 1)))) }
    ensures targets { IfOk result (λ i. Known (D.view dev.new) (λ image. i.targets.items ≡ targets_of (entries_of volume.now image ino))) }
    ensures inside { IfOk result (λ i. AreBelow (length used.now) i.targets.items) }
    ensures contents { IfOk result (λ i. Known (D.view dev.new) (λ image. i.contents ≡ contents_said volume.now image (inode_said volume.now image ino))) }
    ensures room { HasRoom volume.now marks.new }
    ensures read { HasRead (D.view dev.old) (D.view dev.new) }
    ensures cause { IsCause (D.view dev.old) (D.view dev.new) result }
{
    let sector = volume.inode_place(ino).0.get();
    if bad || !slot_fits(ino, value) {
        return Err(Stop::BadMeta { sector });
    }
    match value {
        None => Ok(Inspected {
            targets: Vec::new(alloc),
            contents: Contents::none(alloc),
        }),
        Some(value) => check_value(alloc, dev, volume, marks, used, ino, value),
    }
}
