//! How the edits that calls are made of keep a state laid out.
ghost use Rattle.vx_model.specs.EditLaws.{EditLaws};

use crate::states::claims;
use vx_space::place_laws;

/// Each edit keeps the state laid out, and touches its own places alone.
pub fn edit_laws()
    ensures { EditLaws }
{
    place_laws();
    claims();
}
