//! The reader of an image.
ghost use Rattle.std.specs.Prelude.{◌≡◌, ◌<◌, ◌≤◌, ◌+◌, ◌*◌, ◌++◌, ℕ, IfOk, Err};
ghost use Rattle.vx_base.specs.Faults.{Rose};
ghost use Rattle.vx_sound.specs.Said.{block_bytes};
ghost use Rattle.vx_sound.specs.Facts.{IsWholeBlock};
ghost use Rattle.vx_check.specs.declared.reader.Fault.TheVariants.{Read};
ghost use Rattle.vx_check.specs.Parts.{View, Known, HasRead, IsReadable};

use vx_base::{Block, SectorNo};
use vx_layout::{Sheet, Volume};

/// Why a sector is not read.
#[derive(Clone, Copy, Debug, PartialEq, Eq)]
pub enum Fault {
    /// A read of the device failed.
    Read,
    /// Memory is short.
    NoMemory,
}

/// A reader of the sectors of an image.
pub trait Sectors {
    /// What is known of the image, the number of its sectors, and how many reads have failed.
    ghost view: { Self → View };

    /// The bytes of a sector.
    fn sector(&mut self, s: SectorNo) -> Result<[u8; 512], Fault>
        requires { s < (view self.old).size }
        ensures bytes { IfOk result (λ x. Known (view self.new) (λ image. image s ≡ x)) }
        ensures read { HasRead (view self.old) (view self.new) }
        ensures cause { result ≡ Err Read → Rose (view self.old).faults (view self.new).faults };
}

/// The bytes of a block.
pub(crate) fn read_block<D: Sectors>(
    dev: &mut D,
    volume: &Volume,
    b: Block,
) -> Result<[u8; 1024], Fault>
    requires readable { IsReadable volume.now (D.view dev.old) }
    requires there { b < volume.now.first + 4096 * volume.now.units }
    ensures bytes { IfOk result (λ x. Known (D.view dev.new) (λ image. x ≡ block_bytes volume.now image b)) }
    ensures whole { IfOk result (λ x. Known (D.view dev.new) (λ image. IsWholeBlock volume.now image b)) }
    ensures read { HasRead (D.view dev.old) (D.view dev.new) }
    ensures cause { result ≡ Err Read → Rose (D.view dev.old).faults (D.view dev.new).faults }
{
    let at = volume.block_sector(b).get();
    let first = dev.sector(SectorNo::new(at))?;
    let second = dev.sector(SectorNo::new(at + 1))?;
    Ok(joined(&first, &second))
}

fn joined(first: &[u8; 512], second: &[u8; 512]) -> [u8; 1024]
    ensures { result ≡ first.now ++ second.now }
{
    let mut sheet = Sheet::<1024>::new();
    sheet.put(first);
    sheet.put(second);
    sheet.finish()
}
