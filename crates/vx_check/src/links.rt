//! Names and inodes.
ghost use Rattle.std.specs.Prelude.{◌≡◌, ◌≢◌, ◌+◌, ◌*◌, ◌<◌, ◌≤◌, ◌^◌, ℕ, None, Err, length, get_or, option_copied};
ghost use Rattle.std.specs.List.{flat_map};
ghost use Rattle.vx_layout.specs.Places.{IsVolume, sectors_of};
ghost use Rattle.vx_layout.specs.Inodes.{layout1, IsSlot};
ghost use Rattle.vx_sound.specs.FirstFault.{numbers};
ghost use Rattle.vx_sound.specs.Said.{Image, inode_count};
ghost use Rattle.vx_sound.specs.Checks.{link_checks};
ghost use Rattle.vx_check.specs.Parts.{Finds};
ghost use Rattle.vx_check.specs.Reaching.{children_of};
ghost use Rattle.vx_check.specs.declared.stop.Stop.TheVariants.{ReadFault};
ghost use Rattle.vx_check.specs.Links.{AreChildren, AreInodes, links_fit};

use crate::counts::count_names;
use crate::reaching::{Targets, mark_reached};
use crate::stop::Stop;
use std::alloc::Global;
use vx_base::{FileKind, Ino, InodeValue};
use vx_layout::Volume;

/// The root's inode.
const ROOT: u32 = 2;

/// Whether an inode has the names that it should have.
fn links_fit(strict: bool, n: u32, value: &Option<InodeValue>, names: u32, reached: bool) -> bool
    ensures { result ≡ links_fit strict n value.now names reached }
{
    match value {
        Some(value) => match value.inode.kind {
            FileKind::File => {
                n != ROOT
                    && names == value.inode.nlink as u32
                    && (!strict || 1 <= value.inode.nlink)
            }
            FileKind::Directory => {
                if n == ROOT {
                    names == 0
                } else {
                    names == 1 && reached
                }
            }
        },
        None => n != ROOT,
    }
}

/// Each inode's names, in order: as many as there should be, and each directory reached from the root.
pub(crate) fn check_links(
    alloc: Global,
    volume: &Volume,
    values: &[Option<InodeValue>],
    children: &[Targets],
    strict: bool,
) -> Result<(), Stop>
    requires volume { IsVolume volume.now }
    requires fits { sectors_of volume.now ≤ 2 ^ 32 }
    requires some { 0 < volume.now.units }
    requires values { length values.now ≡ inode_count volume.now }
    requires children { length children.now ≡ inode_count volume.now }
    requires forms { (n : ℕ) → IsSlot layout1 (get_or values.now n None) }
    requires inside { (d j : ℕ) → j < length (children_of children.now d) → get_or (children_of children.now d) j 0 < length children.now }
    ensures finds { (image : Image) → AreInodes values.now volume.now image → AreChildren children.now volume.now image
        → Finds strict volume.now image (flat_map link_checks (numbers 0 (inode_count volume.now))) result }
    ensures no_fault { result ≢ Err ReadFault }
{
    let Ok(counts) = count_names(alloc, children) else {
        return Err(Stop::NoMemory);
    };
    let Ok(marks) = mark_reached(alloc, children, ROOT) else {
        return Err(Stop::NoMemory);
    };
    for n in 0..values.len() as u32 {
        let at = n as usize;
        if !links_fit(strict, n, &values[at], counts[at], marks[at]) {
            return Err(Stop::BadMeta {
                sector: volume.inode_place(Ino::new(n)).0.get(),
            });
        }
    }
    Ok(())
}
