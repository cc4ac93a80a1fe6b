//! A device whose sectors are remembered once they are read.
ghost use Rattle.std.specs.Prelude.{◌≡◌, ◌<◌, ◌≤◌, ◌^◌, ℕ, true, Err, IfOk};
ghost use Rattle.vx_base.specs.Faults.{Rose};
ghost use Rattle.vx_layout.specs.Places.{IsVolume, sectors_of};
ghost use Rattle.vx_check.specs.declared.reader.Fault.TheVariants.{Read};
ghost use Rattle.vx_check.specs.declared.stop.Stop.TheVariants.{ReadFault};
ghost use Rattle.vx_check.specs.Parts.{Known, HasRead, IsChecked};
ghost use Rattle.vx_check.specs.Remembering.{remembered};
ghost use Rattle.vx_check.specs.Loading.{HasOnlyRead, OnDevice, AreSaid, AreFound, IsOfOneImage};

use crate::check::{Found, check_metadata};
use crate::kept::Kept;
use crate::reader::{Fault, Sectors};
use crate::stop::Stop;
use std::alloc::Global;
use vx_base::SectorNo;
use vx_dev::BlockDev;
use vx_layout::Volume;

/// The sectors of a device, each read once. Whatever the device does, the answers are the sectors of one image.
#[derive(Drop)]
pub(crate) struct Remembered<'d, 'k, D: BlockDev> {
    dev: &'d mut D,
    /// What was read.
    kept: &'k mut Kept,
}

impl<'d, 'k, D: BlockDev> Sectors for Remembered<'d, 'k, D> {
    ghost use Rattle.vx_check.specs.Remembering.{remembered_by};

    ghost view = { λ r. remembered_by r.dev.ghost_name (D.state r.dev.now) r.kept.now };

    fn sector(&mut self, s: SectorNo) -> Result<[u8; 512], Fault> {
        sector_of(self.dev, self.kept, s)
    }
}

/// A sector that is kept, or what the device has there, which is kept from now on.
fn sector_of<D: BlockDev>(dev: &mut D, kept: &mut Kept, s: SectorNo) -> Result<[u8; 512], Fault>
    requires { s < (D.state dev.old).size }
    ensures bytes { IfOk result (λ x. Known (remembered (D.state dev.new) kept.new) (λ image. image s ≡ x)) }
    ensures read { HasRead (remembered (D.state dev.old) kept.old) (remembered (D.state dev.new) kept.new) }
    ensures cause { result ≡ Err Read → Rose (D.state dev.old).read_faults (D.state dev.new).read_faults }
{
    if let Some(bytes) = kept.find(s) {
        return Ok(*bytes);
    }
    let mut bytes = [0; 512];
    match dev.read(s.get() as u64, &mut bytes) {
        Ok(()) => {}
        Err(_) => return Err(Fault::Read),
    }
    match kept.keep(s, &bytes) {
        Ok(()) => Ok(bytes),
        Err(_) => Err(Fault::NoMemory),
    }
}

/// Reads the metadata of a device, and checks them strictly, as `check_metadata`. Does no operation, and reads no sector twice.
///
/// Whatever the device answers, the result is right of one image: what is found is said by one whose metadata are sound, and the fault that is
/// named is the first of one.
pub fn read_metadata<D: BlockDev>(
    alloc: Global,
    dev: &mut D,
    volume: &Volume,
) -> Result<Found, Stop>
    requires volume { IsVolume volume.now }
    requires block { volume.now.block ≡ 1024 }
    requires fits { sectors_of volume.now ≤ 2 ^ 32 }
    requires there { sectors_of volume.now ≤ (D.state dev.old).size }
    requires some { 0 < volume.now.units }
    ensures found { IfOk result (λ f. AreFound volume.now (D.state dev.old) f.inodes.items f.children.items f.contents.items) }
    // And so does the image of a device that shows one.
    ensures shown { IfOk result (λ f. OnDevice (D.state dev.old) (λ image. AreSaid volume.now image f.inodes.items f.children.items f.contents.items)) }
    // And each answer, also one that refuses, is right of one image.
    ensures answered { IsOfOneImage volume.now (D.state dev.old) result }
    ensures finds { OnDevice (D.state dev.old) (λ image. IsChecked true volume.now image result) }
    ensures read { HasOnlyRead (D.state dev.old) (D.state dev.new) }
    ensures cause { result ≡ Err ReadFault → Rose (D.state dev.old).read_faults (D.state dev.new).read_faults }
{
    let Ok(mut kept) = Kept::new(alloc, volume.sectors() as usize) else {
        return Err(Stop::NoMemory);
    };
    let mut sectors = Remembered {
        dev,
        kept: &mut kept,
    };
    check_metadata(alloc, &mut sectors, volume, true, true)
}
