//! Blocks that a file gets.
ghost use Rattle.std.specs.Prelude.{◌≡◌, ◌≤◌, ◌+◌, ℕ, IfErr, OnErr, OnOk};
ghost use Rattle.vx_filemaps.specs.FileMaps.{IsRefusal};
ghost use Rattle.vx_model.specs.State.{State};
ghost use Rattle.vx_model.specs.Tree.{File};
ghost use Rattle.vx_model.specs.Bytes.{write_filling};
ghost use Rattle.vx_blockmaps.specs.BlockMaps.{HasFilling, HasState, StandFor};

use vx_alloc::FreeMap;
use vx_base::Page;
use vx_filemaps::{FileMaps, PlaceRefusal, Scratch};

/// Gives each of so many pages of a file without a fixed extent size a block that holds data, and the file the map blocks that it needs
/// then; they are held. `first` is the length of a file's first extent. Nothing changes where it is refused.
pub fn place_write(
    maps: &mut FileMaps,
    free: &mut FreeMap,
    scratch: &mut Scratch,
    first: u32,
    from: Page,
    n: u32,
) -> Result<(), PlaceRefusal>
    requires stands { HasState free.old maps.old }
    requires first { 1 ≤ first }
    requires within { from + n ≤ 65536 }
    requires few { n ≤ 65 }
    ensures done { (s : State) (ino : ℕ) (f : File) → StandFor free.old maps.old s ino f → f.attrs.fixed ≡ 0 → OnOk result (HasFilling s.layout first ino f from n free.new maps.new) }
    ensures refused { (s : State) (ino : ℕ) (f : File) → StandFor free.old maps.old s ino f → f.attrs.fixed ≡ 0 → IfErr result (IsRefusal (write_filling s.layout first ino f from n)) }
    ensures unchanged { OnErr result (maps.new ≡ maps.old) }
    ensures free { OnErr result (free.new ≡ free.old) }
{
    vx_filemaps::place_laws();
    vx_space::place_laws();
    maps.place_write(free, scratch, first, from, n)
}
