//! What an image reads as.
ghost use Rattle.std.specs.Prelude.{◌≡◌, ◌≢◌, ℕ, ◌*◌, Bool, List};
ghost use Rattle.vx_layout.specs.Places.{Volume, outside, per_block, place_of, IsVolume};
ghost use Rattle.vx_model.specs.Tree.{Tree};
ghost use Rattle.vx_model.specs.Reads.{ImageReadsAs};
ghost use Rattle.vx_model.specs.Replays.{IsClean, ReplaysAs};
ghost use Rattle.vx_sound.specs.Sound.{IsSound};

use vx_layout::{log_spelling, super_spelling};
use vx_sound::alike_laws;

/// An image reads as one tree at most.
pub fn reads_once()
    ensures { (v : Volume) (image : ℕ → List ℕ) (t u : Tree) → ImageReadsAs v image t → ImageReadsAs v image u → t ≡ u }
{}

/// What a sound image reads as is for the sectors of its volume to say.
pub fn reads_alike()
    ensures { (strict : Bool) (v : Volume) (a b : ℕ → List ℕ) (t : Tree) → IsVolume v → ((s : ℕ) → place_of v s ≢ outside → a s ≡ b s) → IsSound strict v a → ImageReadsAs v a t → ImageReadsAs v b t }
{
    alike_laws();
}

/// An image replays as one tree at most: its superblock, its log's head and its records have one spelling each.
pub fn replays_once()
    ensures { (m n : ℕ) (image : ℕ → List ℕ) (t u : Tree) → ReplaysAs m image t → ReplaysAs n image u → t ≡ u }
{
    super_spelling();
    log_spelling();
    reads_once();
}

/// An image that was left clean replays as its tree.
pub fn clean_replays()
    ensures { (device_sectors : ℕ) (image : ℕ → List ℕ) (t : Tree) → IsClean device_sectors image t → ReplaysAs device_sectors image t }
{}
