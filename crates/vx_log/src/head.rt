//! The head sector, which says where the live part of the log begins and ends.
ghost use Rattle.std.specs.Prelude.{◌≡◌};
ghost use Rattle.vx_layout.specs.LogForms as forms;

use vx_layout::Sheet;

/// The head sector of a log whose live part begins at `tail` and ends before `head`.
#[tactic(auto, unfolding(vx_layout::specs::LogForms::head_sector))]
pub fn head_sector(serial: u64, tail: u64, head: u64) -> [u8; 512]
    ensures { result ≡ forms.head_sector serial tail head }
{
    let mut sheet = Sheet::<512>::new();
    sheet.put(b"VXLOGHD1");
    sheet.put_u64(serial);
    sheet.put_u64(tail);
    sheet.put_u64(head);
    sheet.finish()
}
