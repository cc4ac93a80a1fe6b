//! Laws of such states.
ghost use Rattle.std.specs.Prelude.{◌≡◌, ◌<◌, ◌≤◌, ℕ, Bool, true, List, length};
ghost use Rattle.vx_layout.specs.Places.{sectors_of};
ghost use Rattle.vx_layout.specs.Supers.{IsSuper, volume_of};
ghost use Rattle.vx_layout.specs.declared.superblock.Super.{Super};
ghost use Rattle.vx_sound.specs.Sound.{IsSound};
ghost use Rattle.vx_model.specs.Layout.{volume};
ghost use Rattle.vx_model.specs.State.{State};
ghost use Rattle.vx_model.specs.LaidOut.{IsPlain};
ghost use Rattle.vx_model.specs.Saying.{IsImageOf};
ghost use Rattle.vx_said.specs.Plain.{HasPlainFiles};
ghost use Rattle.vx_said.specs.SaidState.{SaidState};
ghost use Rattle.vx_said.specs.WholePages.{HasWholePages};
ghost use Rattle.vx_said.specs.SaidFiles.{SaidFiles};

use vx_model::states::state_says;
use vx_sound::{claim_laws, reading_laws, sound_laws};

/// An image that passes the strict check, and holds whole blocks of its files' pages, says a consistent state with its files.
pub fn said_files()
    ensures { (v : Super) (device_sectors : ℕ) (image : ℕ → List ℕ) → IsSuper v → sectors_of (volume_of v) ≤ device_sectors → IsSound true (volume_of v) image → HasWholePages (volume_of v) image
        → SaidFiles v device_sectors image }
{
    sound_laws();
    claim_laws();
    reading_laws();
}

/// A sound image holds whole blocks of its files' pages where its sectors are whole, and so does each that says a state.
pub fn whole_pages()
    ensures sound { (strict : Bool) (v : Super) (image : ℕ → List ℕ) → IsSound strict (volume_of v) image → ((s : ℕ) → s < sectors_of (volume_of v) → length (image s) ≡ 512)
        → HasWholePages (volume_of v) image }
    ensures said { (s : State) (image : ℕ → List ℕ) → IsImageOf s image → ((x : ℕ) → x < s.layout.device_sectors → length (image x) ≡ 512) → HasWholePages (volume s.layout) image }
{
    state_says();
}

/// An image that passes the check says a well-formed state, where its files have no bytes, extents and attributes: the states of
/// the model have no page of a file before files are read and written.
pub fn said_state()
    ensures { (v : Super) (device_sectors : ℕ) (image : ℕ → List ℕ) → IsSuper v → sectors_of (volume_of v) ≤ device_sectors → IsSound true (volume_of v) image → HasPlainFiles (volume_of v) image
        → SaidState v device_sectors image }
{
    sound_laws();
    claim_laws();
    reading_laws();
}

/// The files of each image that says a state without bytes have none.
pub fn plain_files()
    ensures { (s : State) (image : ℕ → List ℕ) → IsImageOf s image → IsPlain s → HasPlainFiles (volume s.layout) image }
{
    state_says();
}
