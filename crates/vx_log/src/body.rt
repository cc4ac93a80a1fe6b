//! The log sectors of a batch: records of a descriptor and up to 124 after-images each.
ghost use Rattle.std.specs.Prelude.{◌≡◌, ◌+◌, ◌<◌, ◌≤◌, ◌^◌, [], length, get_or};
ghost use Rattle.vx_layout.specs.LogForms as forms;

use crate::batch::AfterImage;
use crate::descriptor::descriptor;

/// The most after-images that a record has.
const RECORD_IMAGES: u32 = 124;

/// The log sectors of a full record.
const RECORD_SECTORS: u32 = 1 + RECORD_IMAGES;

/// How many log sectors a batch of so many sectors takes.
pub fn log_length(len: u32) -> u32
    requires { forms.log_length len < 2 ^ 32 }
    ensures { result ≡ forms.log_length len }
{
    len + len.div_ceil(RECORD_IMAGES)
}

/// The log sector number `i` of a batch that begins at this position.
pub fn body_sector(position: u64, batch: &[AfterImage], i: u32) -> [u8; 512]
    requires short { length batch.now ≤ 400 }
    requires within { i < forms.log_length (length batch.now) }
    requires limit { position + i < 2 ^ 64 }
    ensures { result ≡ get_or (forms.body_of position batch.now) i [] }
{
    let record = i / RECORD_SECTORS;
    let first = (record * RECORD_IMAGES) as usize;
    match i % RECORD_SECTORS {
        0 => {
            let end = batch.len().min(first + RECORD_IMAGES as usize);
            descriptor(position + u64::from(i), &batch[first..end])
        }
        offset => batch[first + offset as usize - 1].1,
    }
}
