//! A device with a log's after-images laid over it.
ghost use Rattle.std.specs.Prelude.{◌≡◌, ◌<◌, ◌≤◌, ℕ, IfOk, Err};
ghost use Rattle.vx_base.specs.Faults.{Rose};
ghost use Rattle.vx_check.specs.declared.reader.Fault.TheVariants.{Read};
ghost use Rattle.vx_check.specs.Parts.{Known, HasRead, IsReadable, IsCause, IsChecked};
ghost use Rattle.vx_check.specs.Links.{AreChildren, AreInodes};
ghost use Rattle.vx_check.specs.Overlays.{Shown, overlaid};

use crate::check::{Found, check_metadata};
use crate::reader::{Fault, Sectors};
use crate::stop::Stop;
use std::alloc::Global;
use vx_base::SectorNo;
use vx_dev::BlockDev;
use vx_home::Homes;
use vx_layout::Volume;
use vx_log::note_laws;

/// The sectors of a device, where each that is noted has its after-image. Nothing is known of them where the device shows no image.
#[derive(Drop)]
struct Overlaid<'d, 'h, D: BlockDev> {
    dev: &'d mut D,
    homes: &'h Homes,
}

impl<'d, 'h, D: BlockDev> Sectors for Overlaid<'d, 'h, D> {
    ghost use Rattle.vx_check.specs.Overlays.{overlaid_by};

    ghost view = { λ o. overlaid_by o.dev.ghost_name (D.state o.dev.now) o.homes.now };

    fn sector(&mut self, s: SectorNo) -> Result<[u8; 512], Fault> {
        sector_of(self.dev, self.homes, s)
    }
}

/// A sector's after-image, or else what the device has there.
fn sector_of<D: BlockDev>(dev: &mut D, homes: &Homes, s: SectorNo) -> Result<[u8; 512], Fault>
    requires { s < (D.state dev.old).size }
    ensures bytes { IfOk result (λ x. Known (overlaid (D.state dev.old) homes.now) (λ image. image s ≡ x)) }
    ensures read { HasRead (overlaid (D.state dev.old) homes.now) (overlaid (D.state dev.new) homes.now) }
    ensures cause { result ≡ Err Read → Rose (D.state dev.old).read_faults (D.state dev.new).read_faults }
{
    // The proof rests on this law and on what a length tells; nothing else runs here.
    note_laws();
    let _noted = homes.len();
    if let Some(image) = homes.get(s) {
        return Ok(*image);
    }
    let mut bytes = [0; 512];
    match dev.read(s.get() as u64, &mut bytes) {
        Ok(()) => Ok(bytes),
        Err(_) => Err(Fault::Read),
    }
}

/// Checks the metadata of a device with after-images laid over it, as `check_metadata`; does no operation.
pub fn check_overlaid<D: BlockDev>(
    alloc: Global,
    dev: &mut D,
    homes: &Homes,
    volume: &Volume,
    strict: bool,
) -> Result<Found, Stop>
    requires readable { IsReadable volume.now (overlaid (D.state dev.old) homes.now) }
    requires some { 0 < volume.now.units }
    ensures finds { Shown (D.state dev.old) homes.now (λ image. IsChecked strict volume.now image result) }
    ensures inodes { IfOk result (λ f. Shown (D.state dev.old) homes.now (AreInodes f.inodes.items volume.now)) }
    ensures children { IfOk result (λ f. Shown (D.state dev.old) homes.now (AreChildren f.children.items volume.now)) }
    ensures read { HasRead (overlaid (D.state dev.old) homes.now) (overlaid (D.state dev.new) homes.now) }
    ensures cause { IsCause (overlaid (D.state dev.old) homes.now) (overlaid (D.state dev.new) homes.now) result }
{
    let mut sectors = Overlaid { dev, homes };
    check_metadata(alloc, &mut sectors, volume, strict, false)
}
