//! What follows from the definitions alone.
ghost use Rattle.std.specs.Prelude.{◌≡◌};
ghost use Rattle.vx_dir.specs.Directories.{Directory, HasDistinctNames, IsTightened};

/// Packing a directory has one result.
pub fn one_tightening()
    ensures { (d a b : Directory) → HasDistinctNames d.blocks → IsTightened d a → IsTightened d b → a ≡ b }
{}
