//! The sector before a record's after-images.
ghost use Rattle.std.specs.Prelude.{◌≡◌, ◌++◌, ◌≤◌, length, map};
ghost use Rattle.std.specs.Int.{w32, w64, to_le_bytes};
ghost use Rattle.vx_layout.specs.LogForms as forms;

use crate::batch::AfterImage;
use vx_base::SectorNo;
use vx_layout::Sheet;

/// The descriptor, at this position of the log, of the record of these after-images.
#[tactic(auto, unfolding(vx_layout::specs::LogForms::descriptor))]
pub fn descriptor(position: u64, images: &[AfterImage]) -> [u8; 512]
    requires { length images.now ≤ 124 }
    ensures { result ≡ forms.descriptor position (map (λ e. e.0) images.now) }
{
    let mut sheet = begun(position, images.len());
    for entry in images {
        sheet.put_u32(entry.0.get());
    }
    sheet.finish()
}

/// The descriptor, at this position of the log, of a record with these homes.
#[tactic(auto, unfolding(vx_layout::specs::LogForms::descriptor))]
pub fn descriptor_of(position: u64, homes: &[SectorNo]) -> [u8; 512]
    requires { length homes.now ≤ 124 }
    ensures { result ≡ forms.descriptor position homes.now }
{
    let mut sheet = begun(position, homes.len());
    for home in homes {
        sheet.put_u32(home.get());
    }
    sheet.finish()
}

/// A descriptor up to its homes, of which there are so many.
fn begun(position: u64, count: usize) -> Sheet<512>
    requires { count ≤ 124 }
    ensures { result ≡ forms.record_magic ++ to_le_bytes w32 count ++ to_le_bytes w64 position }
{
    let mut sheet = Sheet::<512>::new();
    sheet.put(b"VXRC");
    sheet.put_u32(count as u32);
    sheet.put_u64(position);
    sheet
}
