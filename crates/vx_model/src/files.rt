//! What calls on files do, and what they keep.
ghost use Rattle.vx_model.specs.BytesLaws.{BytesLaws};
ghost use Rattle.vx_model.specs.KeepLaws.{KeepLaws};

use crate::edits::edit_laws;
use vx_space::{close_laws, place_laws, settle_laws};

/// What calls on files do to bytes and handles, and what a settle leaves, in a user's words.
pub fn bytes_laws()
    ensures { BytesLaws }
{}

/// Each call on a file, and each settle, keeps a state laid out, and each file without a name open.
pub fn keep_laws()
    ensures { KeepLaws }
{
    edit_laws();
    place_laws();
    close_laws();
    settle_laws();
}
