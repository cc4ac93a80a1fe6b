//! Laws of such states.
ghost use Rattle.std.specs.Prelude.{◌≡◌, ◌≢◌, ℕ, Bool, List};
ghost use Rattle.std.specs.FinMap as map;
ghost use Rattle.vx_layout.specs.Places.{Volume, outside, place_of, IsVolume};
ghost use Rattle.vx_sound.specs.Sound.{IsSound};
ghost use Rattle.vx_model.specs.Legal.{IfThere};
ghost use Rattle.vx_model.specs.State.{State};
ghost use Rattle.vx_model.specs.Walks.{root};
ghost use Rattle.vx_model.specs.LaidOut.{IsDirectoryNode};
ghost use Rattle.vx_model.specs.NameLaws.{HasLinks, HasNoLoops};
ghost use Rattle.vx_wellformed.specs.Names.{NamesFit};
ghost use Rattle.vx_wellformed.specs.WellFormed.{WellFormedLaws};
ghost use Rattle.vx_wellformed.specs.Images.{HistorySound, StateSound};

use vx_model::edits::edit_laws;
use vx_model::files::{bytes_laws, keep_laws};
use vx_model::images::{log_says, sector_contents};
use vx_model::laws::{link_numbers, loops};
use vx_model::states::{claims, fresh_reads, handles, plain_states, state_says, unused_inodes};
use vx_model::waiting::waiting_laws;
use vx_sound::{alike_laws, decoding_laws};

/// Where link numbers are the numbers of names and no inode is below itself, each directory is reached from the root.
pub fn names_fit()
    ensures { (s : State) → HasLinks s → HasNoLoops s.tree.nodes → IfThere (map.get s.tree.nodes root) IsDirectoryNode → NamesFit s }
{}

/// A new file system is well-formed, and each call keeps it so; it keeps a state consistent, too, whose files have bytes.
pub fn well_formed_laws()
    ensures { WellFormedLaws }
{
    edit_laws();
    handles();
    plain_states();
    unused_inodes();
    link_numbers();
    loops();
    fresh_reads();
    bytes_laws();
    keep_laws();
}

/// An image that holds a consistent state passes the image check, strictly where each of its files has a name.
pub fn state_sound()
    ensures { StateSound }
{
    decoding_laws();
    sector_contents();
    log_says();
    claims();
    state_says();
}

/// So does each image that holds what a history of a new file system leaves, or a first part of it.
pub fn history_sound()
    ensures { HistorySound }
{
    well_formed_laws();
    state_sound();
    fresh_reads();
    waiting_laws();
}

/// Whether an image is sound is for the sectors of its volume to say.
pub fn sound_alike()
    ensures { (strict : Bool) (v : Volume) (a b : ℕ → List ℕ) → IsVolume v → ((s : ℕ) → place_of v s ≢ outside → a s ≡ b s) → IsSound strict v a → IsSound strict v b }
{
    alike_laws();
}
