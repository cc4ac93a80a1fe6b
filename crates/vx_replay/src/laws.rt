//! Which images are never refused.
ghost use Rattle.std.specs.Prelude.{◌≡◌, true, false, ℕ, List};
ghost use Rattle.vx_model.specs.Replays.{ReplaysAs};
ghost use Rattle.vx_model.specs.Tree.{Tree};
ghost use Rattle.vx_replay.specs.BadImages.{IsBadSuper, IsBadLog};
ghost use Rattle.vx_layout.specs.Supers.{volume_of};
ghost use Rattle.vx_sound.specs.Sound.{IsSound, IsBadMeta};
ghost use Rattle.vx_replay.specs.ImageChecks.{CanMount, HasCleanFront, PassesCheck, IsFault, is_of_image};
ghost use Rattle.vx_replay.specs.declared.image_check.CheckRefusal.{CheckRefusal};
ghost use Rattle.vx_replay.specs.declared.image_check.CheckRefusal.TheVariants as no;
ghost use Rattle.vx_replay.specs.declared.image_check.CleanFront.{CleanFront};

use vx_layout::{log_fields, log_spelling, super_spelling};
use vx_sound::sound_laws;

/// An image that replays as a tree, on a device of so many sectors, has nothing that a replay refuses. So what a crash leaves of a mount is
/// replayed, and so is what was left clean (`clean_replays` of `vx_model`).
pub fn never_refused()
    ensures superblock { (size : ℕ) (image : ℕ → List ℕ) (tree : Tree) (field : ℕ) → ReplaysAs size image tree → IsBadSuper size image field → ⊥ }
    // So it passes the image check.
    ensures check { (size : ℕ) (image : ℕ → List ℕ) (tree : Tree) (why : CheckRefusal) → ReplaysAs size image tree → is_of_image why ≡ true → IsFault false size image why → ⊥ }
    ensures log { (size : ℕ) (image : ℕ → List ℕ) (tree : Tree) (sector : ℕ) → ReplaysAs size image tree → IsBadLog size image sector → ⊥ }
{
    super_spelling();
    log_spelling();
    log_fields();
    sound_laws();
}

/// What the metadata of an image decide whose superblock and log are those of a clean image: the answer of a strict check (docs/CHECK.md).
pub fn clean_front_laws()
    ensures passes { (size : ℕ) (image : ℕ → List ℕ) (c : CleanFront) → CanMount size c → HasCleanFront size image c → IsSound true (volume_of c.superblock) image
        → PassesCheck true size image }
    ensures bad_meta { (size : ℕ) (image : ℕ → List ℕ) (c : CleanFront) (sector : ℕ) → CanMount size c → HasCleanFront size image c → IsBadMeta true (volume_of c.superblock) image sector
        → IsFault true size image (no.BadMeta sector) }
{
    super_spelling();
}
