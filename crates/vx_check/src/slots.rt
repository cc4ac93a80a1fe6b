//! The slots of all inodes.
ghost use Rattle.std.specs.Prelude.{◌≡◌, ◌+◌, ◌*◌, ◌<◌, ◌≤◌, ◌^◌, ◌++◌, ◌∷◌, [], ℕ, None, false, IfOk, OnOk, is_some, length, get_or};
ghost use Rattle.vx_layout.specs.Places.{IsVolume, sectors_of};
ghost use Rattle.vx_layout.specs.Inodes.{layout1, IsSlot};
ghost use Rattle.vx_sound.specs.Said.{inode_count};
ghost use Rattle.vx_check.specs.Parts.{Known, HasRead, IsReadable, FindsIn, IsCause};
ghost use Rattle.vx_check.specs.Slots.{IsSlotRead, AreSlotsRead, HaveForms, AreLong};

use crate::reader::{Fault, Sectors};
use crate::stop::Stop;
use std::alloc::Global;
use vx_base::{Ino, InodeValue};
use vx_codec::read_inode;
use vx_layout::Volume;

/// A slot: the inode in use there, if there is one, and whether its bytes are of no form.
#[derive(Clone, Copy)]
pub(crate) struct Slot {
    pub value: Option<InodeValue>,
    pub bad: bool,
}

/// One slot.
fn read_slot<D: Sectors>(dev: &mut D, volume: &Volume, ino: Ino) -> Result<Slot, Stop>
    requires readable { IsReadable volume.now (D.view dev.old) }
    requires inode { ino < inode_count volume.now }
    ensures is { IfOk result (λ s. IsSlot layout1 s.value) }
    ensures slot { IfOk result (λ s. Known (D.view dev.new) (λ image. IsSlotRead volume.now image ino s.value s.bad)) }
    ensures finds { FindsIn (D.view dev.new) volume.now (λ _. []) result }
    ensures read { HasRead (D.view dev.old) (D.view dev.new) }
    ensures cause { IsCause (D.view dev.old) (D.view dev.new) result }
{
    let sector = match dev.sector(volume.inode_place(ino).0) {
        Ok(sector) => sector,
        Err(Fault::Read) => return Err(Stop::ReadFault),
        Err(Fault::NoMemory) => return Err(Stop::NoMemory),
    };
    match read_inode(&sector, ino.get() % 2) {
        Ok(value) => Ok(Slot { value, bad: false }),
        Err(_) => Ok(Slot {
            value: None,
            bad: true,
        }),
    }
}

/// The slots of all inodes, by number.
#[derive(Drop)]
pub(crate) struct Slots {
    /// The inodes in use.
    pub values: Vec<Option<InodeValue>>,
    /// Whether the bytes are of no form.
    pub bad: Vec<bool>,
    /// Whether an inode is in use.
    pub used: Vec<bool>,
}

/// All slots.
pub(crate) fn read_slots<D: Sectors>(
    alloc: Global,
    dev: &mut D,
    volume: &Volume,
) -> Result<Slots, Stop>
    requires readable { IsReadable volume.now (D.view dev.old) }
    ensures forms { IfOk result (λ s. HaveForms s.values.items) }
    ensures long { IfOk result (λ s. AreLong (inode_count volume.now) s.values.items s.bad.items s.used.items) }
    // No check is made yet.
    ensures finds { FindsIn (D.view dev.new) volume.now (λ _. []) result }
    ensures slots { IfOk result (λ s. Known (D.view dev.new) (λ image. AreSlotsRead volume.now image (inode_count volume.now) s.values.items s.bad.items s.used.items)) }
    ensures read { HasRead (D.view dev.old) (D.view dev.new) }
    ensures cause { IsCause (D.view dev.old) (D.view dev.new) result }
{
    let mut values = Vec::new(alloc);
    let mut bad = Vec::new(alloc);
    let mut used = Vec::new(alloc);
    for n in 0..inode_count(volume) {
        match read_slot(dev, volume, Ino::new(n)) {
            Ok(slot) => {
                let Ok(()) = values.push(slot.value) else {
                    return Err(Stop::NoMemory);
                };
                let Ok(()) = bad.push(slot.bad) else {
                    return Err(Stop::NoMemory);
                };
                let Ok(()) = used.push(slot.value.is_some()) else {
                    return Err(Stop::NoMemory);
                };
            }
            Err(stop) => return Err(stop),
        }
    }
    Ok(Slots { values, bad, used })
}

/// The number of inodes.
fn inode_count(volume: &Volume) -> u32
    requires volume { IsVolume volume.now }
    requires fits { sectors_of volume.now ≤ 2 ^ 32 }
    ensures { result ≡ inode_count volume.now }
{
    128 * volume.units
}
