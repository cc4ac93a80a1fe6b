//! The directory blocks of an inode.
ghost use Rattle.std.specs.Prelude.{◌≡◌, ◌+◌, ◌*◌, ◌<◌, ◌≤◌, ◌++◌, OnOk, [], ℕ, List, Bool, true, false, Some, None, Ok, Err, IfOk, IsTrue, length, get_or, map};
ghost use Rattle.std.specs.List.{flat_map, AllByRecursion};
ghost use Rattle.vx_base.specs.declared.inode.DirEntry.{DirEntry};
ghost use Rattle.vx_layout.specs.Places.{is_data};
ghost use Rattle.vx_sound.specs.FirstFault.{numbers};
ghost use Rattle.vx_sound.specs.Said.{Image, inode_count, inode_said, directory_blocks, entries_said, entries_below, entries_of};
ghost use Rattle.vx_sound.specs.Facts.{block_at};
ghost use Rattle.vx_sound.specs.Checks.{entry_checks};
ghost use Rattle.vx_check.specs.Parts.{View, Known, HasRead, IsReadable, FindsIn, IsCause};
ghost use Rattle.vx_check.specs.Directories.{AreNamesOf, AreUsed, AreBelow, IsMarked, targets_of};

use crate::names::{NameSet, check_names};
use crate::reader::{Fault, Sectors, read_block};
use crate::stop::Stop;
use std::alloc::{AllocError, Global};
use vx_base::{Block, DirEntry, DirValue, Ino};
use vx_codec::{DirReadRefusal, dir_spelling, read_dir};
use vx_layout::Volume;

/// Whether each entry names an inode in use.
fn are_used(used: &[bool], entries: &[DirEntry]) -> bool
    ensures right { result ≡ true → AllByRecursion (IsMarked used.now) entries.now }
    ensures wrong { result ≡ false → AllByRecursion (IsMarked used.now) entries.now → ⊥ }
{
    for entry in entries {
        let at = entry.ino.get() as usize;
        if at >= used.len() {
            return false;
        }
        if !used[at] {
            return false;
        }
    }
    true
}

/// Adds the numbers that the entries name.
fn add_targets(targets: &mut Vec<u32>, entries: &[DirEntry]) -> Result<(), AllocError>
    ensures { OnOk result (targets.new.items ≡ targets.old.items ++ targets_of entries.now) }
{
    for entry in entries {
        targets.push(entry.ino.get())?;
    }
    Ok(())
}

/// What a directory's blocks say.
#[derive(Drop)]
pub(crate) struct Listing {
    /// The numbers that the entries name.
    pub targets: Vec<u32>,
    /// The entries of each block.
    pub blocks: Vec<DirValue>,
}

/// The k-th block of a directory: its bytes, its names, and what these mean. Answers its entries.
fn check_block<D: Sectors>(
    alloc: Global,
    dev: &mut D,
    volume: &Volume,
    used: &[bool],
    names: &mut NameSet,
    targets: &mut Vec<u32>,
    ino: Ino,
    k: u32,
    b: Block,
) -> Result<DirValue, Stop>
    requires readable { IsReadable volume.now (D.view dev.old) }
    requires inode { ino < inode_count volume.now }
    requires data { IsTrue (is_data volume.now b) }
    requires used { Known (D.view dev.old) (AreUsed used.now volume.now) }
    requires at { Known (D.view dev.old) (λ image. b ≡ block_at volume.now image ino k) }
    requires names { Known (D.view dev.old) (λ image. AreNamesOf names.old (entries_below volume.now image ino k)) }
    ensures finds { FindsIn (D.view dev.new) volume.now (λ image. entry_checks ino k) result }
    ensures names { OnOk result (Known (D.view dev.new) (λ image. AreNamesOf names.new (entries_below volume.now image ino k ++ entries_said volume.now image b))) }
    ensures targets { OnOk result (Known (D.view dev.new) (λ image. targets.new.items ≡ targets.old.items ++ targets_of (entries_said volume.now image b))) }
    ensures inside { OnOk result (AreBelow (length used.now) targets.old.items → AreBelow (length used.now) targets.new.items) }
    ensures entries { IfOk result (λ es. Known (D.view dev.new) (λ image. entries_said volume.now image b ≡ es)) }
    ensures read { HasRead (D.view dev.old) (D.view dev.new) }
    ensures cause { IsCause (D.view dev.old) (D.view dev.new) result }
{
    // The proof rests on this law; nothing runs here.
    dir_spelling();
    let sector = volume.block_sector(b).get();
    let inode_sector = volume.inode_place(ino).0.get();
    let bytes = match read_block(dev, volume, b) {
        Ok(bytes) => bytes,
        Err(Fault::Read) => return Err(Stop::ReadFault),
        Err(Fault::NoMemory) => return Err(Stop::NoMemory),
    };
    match read_dir::<1024>(alloc, &bytes) {
        Ok(value) => match check_names(names, value.as_slice()) {
            Ok(true) => {
                if !are_used(used, value.as_slice()) {
                    return Err(Stop::BadMeta {
                        sector: inode_sector,
                    });
                }
                match add_targets(targets, value.as_slice()) {
                    Ok(()) => Ok(value),
                    Err(_) => Err(Stop::NoMemory),
                }
            }
            Ok(false) => Err(Stop::BadMeta { sector }),
            Err(_) => Err(Stop::NoMemory),
        },
        Err(DirReadRefusal::Bad) => Err(Stop::BadMeta { sector }),
        Err(DirReadRefusal::NoMemory) => Err(Stop::NoMemory),
    }
}

/// All blocks of a directory, in order; answers what they say.
pub(crate) fn check_directory<D: Sectors>(
    alloc: Global,
    dev: &mut D,
    volume: &Volume,
    used: &[bool],
    ino: Ino,
    blocks: &[Block],
) -> Result<Listing, Stop>
    requires readable { IsReadable volume.now (D.view dev.old) }
    requires inode { ino < inode_count volume.now }
    requires data { AllByRecursion (λ b. IsTrue (is_data volume.now b)) blocks.now }
    requires few { length blocks.now < 65536 }
    requires used { Known (D.view dev.old) (AreUsed used.now volume.now) }
    requires blocks { Known (D.view dev.old) (λ image. blocks.now ≡ directory_blocks volume.now image (inode_said volume.now image ino)) }
    ensures finds { FindsIn (D.view dev.new) volume.now (λ image. flat_map (entry_checks ino) (numbers 0 (length blocks.now))) result }
    ensures targets { IfOk result (λ l. Known (D.view dev.new) (λ image. l.targets.items ≡ targets_of (entries_of volume.now image ino))) }
    ensures inside { IfOk result (λ l. AreBelow (length used.now) l.targets.items) }
    ensures blocks { IfOk result (λ l. Known (D.view dev.new) (λ image. l.blocks.items ≡ map (entries_said volume.now image) blocks.now)) }
    ensures read { HasRead (D.view dev.old) (D.view dev.new) }
    ensures cause { IsCause (D.view dev.old) (D.view dev.new) result }
{
    let mut names = NameSet::new(alloc);
    let mut targets = Vec::new(alloc);
    let mut listed = Vec::new(alloc);
    for k in 0..blocks.len() as u32 {
        let b = blocks[k as usize];
        match check_block(
            alloc,
            dev,
            volume,
            used,
            &mut names,
            &mut targets,
            ino,
            k,
            b,
        ) {
            Ok(entries) => match listed.push(entries) {
                Ok(()) => {}
                Err(_) => return Err(Stop::NoMemory),
            },
            Err(stop) => return Err(stop),
        }
    }
    Ok(Listing {
        targets,
        blocks: listed,
    })
}
