//! All inodes.
ghost use Rattle.std.specs.Prelude.{◌≡◌, ◌+◌, ◌*◌, ◌<◌, ◌≤◌, [], ℕ, true, IfOk, OnOk, length};
ghost use Rattle.std.specs.List.{flat_map};
ghost use Rattle.vx_sound.specs.FirstFault.{numbers};
ghost use Rattle.vx_sound.specs.Said.{inode_count, claims_below};
ghost use Rattle.vx_sound.specs.Checks.{inode_checks};
ghost use Rattle.vx_check.specs.Parts.{Known, HasRead, IsReadable, HasRoom, FindsIn, IsCause, AreMarksOf};
ghost use Rattle.vx_check.specs.Slots.{AreSlotsRead, HaveForms, AreLong};
ghost use Rattle.vx_check.specs.Reaching.{AreInside};
ghost use Rattle.vx_check.specs.Links.{AreChildren};
ghost use Rattle.vx_check.specs.Contents.{AreContents};

use crate::contents::{Contents, keep_contents};
use crate::inode::check_inode;
use crate::reaching::Targets;
use crate::reader::Sectors;
use crate::slots::Slots;
use crate::stop::Stop;
use std::alloc::Global;
use vx_base::Ino;
use vx_layout::Volume;

/// What sound inodes say, by number.
#[derive(Drop)]
pub(crate) struct Inspection {
    /// The numbers that each directory's names mean.
    pub children: Vec<Targets>,
    /// The inodes' contents, where they are kept.
    pub contents: Vec<Contents>,
}

/// All inodes, in order; answers what they say. Their contents are kept where `keep`.
pub(crate) fn check_inodes<D: Sectors>(
    alloc: Global,
    dev: &mut D,
    volume: &Volume,
    marks: &mut [bool],
    slots: &Slots,
    keep: bool,
) -> Result<Inspection, Stop>
    requires readable { IsReadable volume.now (D.view dev.old) }
    requires room { HasRoom volume.now marks.old }
    requires forms { HaveForms slots.now.values.items }
    requires long { AreLong (inode_count volume.now) slots.now.values.items slots.now.bad.items slots.now.used.items }
    requires slots { Known (D.view dev.old) (λ image. AreSlotsRead volume.now image (inode_count volume.now) slots.now.values.items slots.now.bad.items slots.now.used.items) }
    requires marks { AreMarksOf marks.old [] }
    ensures finds { FindsIn (D.view dev.new) volume.now (λ image. flat_map (inode_checks volume.now image) (numbers 0 (inode_count volume.now))) result }
    ensures marks { OnOk result (Known (D.view dev.new) (λ image. AreMarksOf marks.new (claims_below volume.now image (inode_count volume.now)))) }
    ensures children { IfOk result (λ i. Known (D.view dev.new) (AreChildren i.children.items volume.now)) }
    ensures count { IfOk result (λ i. length i.children.items ≡ inode_count volume.now) }
    ensures inside { IfOk result (λ i. AreInside (inode_count volume.now) i.children.items) }
    ensures contents { keep ≡ true → IfOk result (λ i. Known (D.view dev.new) (AreContents i.contents.items volume.now)) }
    ensures contents_count { keep ≡ true → IfOk result (λ i. length i.contents.items ≡ inode_count volume.now) }
    ensures room { HasRoom volume.now marks.new }
    ensures read { HasRead (D.view dev.old) (D.view dev.new) }
    ensures cause { IsCause (D.view dev.old) (D.view dev.new) result }
{
    let mut children = Vec::new(alloc);
    let mut contents = Vec::new(alloc);
    for n in 0..slots.values.len() as u32 {
        let at = n as usize;
        match check_inode(
            alloc,
            dev,
            volume,
            marks,
            &slots.used,
            Ino::new(n),
            &slots.values[at],
            slots.bad[at],
        ) {
            Ok(inspected) => {
                match children.push(Targets::new(inspected.targets)) {
                    Ok(()) => {}
                    Err(_) => return Err(Stop::NoMemory),
                }
                match keep_contents(&mut contents, inspected.contents, keep) {
                    Ok(()) => {}
                    Err(_) => return Err(Stop::NoMemory),
                }
            }
            Err(stop) => return Err(stop),
        }
    }
    Ok(Inspection { children, contents })
}
