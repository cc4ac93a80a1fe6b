//! The whole check.
ghost use Rattle.std.specs.Prelude.{◌≡◌, ◌+◌, ◌*◌, ◌<◌, ◌≤◌, [], ℕ, true, false, IfOk, length};
ghost use Rattle.vx_check.specs.Parts.{Known, HasRead, IsReadable, HasRoom, IsCause, AreMarksOf, IsChecked};
ghost use Rattle.vx_sound.specs.Said.{inode_count};
ghost use Rattle.vx_check.specs.Links.{AreChildren, AreInodes};
ghost use Rattle.vx_check.specs.Contents.{AreContents};

use crate::bitmaps::check_bitmaps;
use crate::contents::Contents;
use crate::inodes::check_inodes;
use crate::links::check_links;
use crate::reaching::Targets;
use crate::reader::Sectors;
use crate::slots::read_slots;
use crate::stop::Stop;
use std::alloc::Global;
use vx_base::InodeValue;
use vx_layout::Volume;

/// Blocks in an allocation unit.
const UNIT_BLOCKS: usize = 4096;

/// What an image says whose metadata are sound.
#[derive(Drop)]
pub struct Found {
    /// The inodes in use, by number.
    pub inodes: Vec<Option<InodeValue>>,
    /// The numbers that each directory's entries name, by the directory's number.
    pub children: Vec<Targets>,
    /// What the blocks of each inode say, by its number, where that was asked for.
    pub contents: Vec<Contents>,
}

/// Checks the metadata of an image in the order of docs/CHECK.md, and answers what they say, or the first fault.
///
/// Where `strict`, a file without a name is a fault. Where `keep`, what the blocks of inodes say is answered too. Each sector is asked
/// for once, one of inodes twice.
pub fn check_metadata<D: Sectors>(
    alloc: Global,
    dev: &mut D,
    volume: &Volume,
    strict: bool,
    keep: bool,
) -> Result<Found, Stop>
    requires readable { IsReadable volume.now (D.view dev.old) }
    requires some { 0 < volume.now.units }
    ensures finds { Known (D.view dev.new) (λ image. IsChecked strict volume.now image result) }
    ensures inodes { IfOk result (λ f. Known (D.view dev.new) (AreInodes f.inodes.items volume.now)) }
    ensures children { IfOk result (λ f. Known (D.view dev.new) (AreChildren f.children.items volume.now)) }
    ensures contents { keep ≡ true → IfOk result (λ f. Known (D.view dev.new) (AreContents f.contents.items volume.now)) }
    ensures inodes_count { IfOk result (λ f. length f.inodes.items ≡ inode_count volume.now) }
    ensures contents_count { keep ≡ true → IfOk result (λ f. length f.contents.items ≡ inode_count volume.now) }
    ensures read { HasRead (D.view dev.old) (D.view dev.new) }
    ensures cause { IsCause (D.view dev.old) (D.view dev.new) result }
{
    let blocks = volume.first.get() as usize + UNIT_BLOCKS * volume.units as usize;
    let Ok(mut marks) = vec![in alloc; false; blocks] else {
        return Err(Stop::NoMemory);
    };
    check_unmarked(alloc, dev, volume, &mut marks, strict, keep)
}

/// The check, where no block is marked as claimed.
fn check_unmarked<D: Sectors>(
    alloc: Global,
    dev: &mut D,
    volume: &Volume,
    marks: &mut [bool],
    strict: bool,
    keep: bool,
) -> Result<Found, Stop>
    requires readable { IsReadable volume.now (D.view dev.old) }
    requires some { 0 < volume.now.units }
    requires room { HasRoom volume.now marks.old }
    requires marks { AreMarksOf marks.old [] }
    ensures finds { Known (D.view dev.new) (λ image. IsChecked strict volume.now image result) }
    ensures inodes { IfOk result (λ f. Known (D.view dev.new) (AreInodes f.inodes.items volume.now)) }
    ensures children { IfOk result (λ f. Known (D.view dev.new) (AreChildren f.children.items volume.now)) }
    ensures contents { keep ≡ true → IfOk result (λ f. Known (D.view dev.new) (AreContents f.contents.items volume.now)) }
    ensures inodes_count { IfOk result (λ f. length f.inodes.items ≡ inode_count volume.now) }
    ensures contents_count { keep ≡ true → IfOk result (λ f. length f.contents.items ≡ inode_count volume.now) }
    ensures read { HasRead (D.view dev.old) (D.view dev.new) }
    ensures cause { IsCause (D.view dev.old) (D.view dev.new) result }
{
    let slots = match read_slots(alloc, dev, volume) {
        Ok(slots) => slots,
        Err(stop) => return Err(stop),
    };
    let inspection = match check_inodes(alloc, dev, volume, marks, &slots, keep) {
        Ok(inspection) => inspection,
        Err(stop) => return Err(stop),
    };
    match check_links(alloc, volume, &slots.values, &inspection.children, strict) {
        Ok(()) => {}
        Err(stop) => return Err(stop),
    }
    match check_bitmaps(dev, volume, marks) {
        Ok(()) => Ok(Found {
            inodes: slots.values,
            children: inspection.children,
            contents: inspection.contents,
        }),
        Err(stop) => Err(stop),
    }
}
