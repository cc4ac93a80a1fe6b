//! What a file has on the device: its pages, its map blocks, and which blocks a call gets for them (docs/FILES.md). Definitions
//! and laws, without code that runs.
#![tactic(auto)]

ghost use Rattle.std.specs.Prelude.{◌≡◌, Some};
ghost use Rattle.vx_space.specs.Laws.{CloseLaws, LeaveLaws, PlaceLaws, SettleLaws};
ghost use Rattle.vx_space.specs.Placement.{aligned_start, run_start};
ghost use Rattle.vx_space.specs.Rows.{alternate, free_from, one_unit};
ghost use Rattle.vx_space.specs.Space.{maps_for};

/// A write takes free blocks alone, each for one purpose, and has the map blocks that it needs.
pub fn place_laws()
    ensures { PlaceLaws }
{}

/// What the device is to say is part of what there is.
pub fn settle_laws()
    ensures { SettleLaws }
{}

/// Which pages go and which blocks wait then, page by page.
pub fn leave_laws()
    ensures { LeaveLaws }
{}

/// Which pages a close gives up, of a file without a reservation that lasts, and of one that is trimmed.
pub fn close_laws()
    ensures { CloseLaws }
{}

/// What the worked rows say of map blocks and of runs.
pub fn rows()
    ensures chains { (maps_for (alternate 6) ≡ 0) × (maps_for (alternate 7) ≡ 1) × (maps_for (alternate 69) ≡ 1) × (maps_for (alternate 70) ≡ 2) × (maps_for (alternate 100) ≡ 2) }
    ensures run { run_start one_unit (free_from 547) 8 ≡ Some 547 }
    ensures aligned { aligned_start one_unit (free_from 548) 8 8 ≡ Some 554 }
{}
