//! What the contracts here say of a file's space and its free blocks.
ghost use Rattle.std.specs.Prelude.{◌≡◌, ℕ, Bool, List};
ghost use Rattle.vx_alloc.specs.FreeMaps.{FreeMapView, free_blocks};
ghost use Rattle.vx_base.specs.declared.call.ExtAttrs.{ExtAttrs};
ghost use Rattle.vx_filemaps.specs.FileMaps.{IsFileIn, IsFor, filling_of};
ghost use Rattle.vx_filemaps.specs.Files.{FileView};
ghost use Rattle.vx_filemaps.specs.GiveLaws.{GiveLaws};
ghost use Rattle.vx_filemaps.specs.RunLaws.{RunLaws};
ghost use Rattle.vx_layout.specs.Places.{Volume};
ghost use Rattle.vx_space.specs.Placing.{pages_needed, place_fill, place_write, request_of};
ghost use Rattle.vx_space.specs.Space.{Space};

/// What a write gets by a file's space is what it gets by the maps in memory.
pub fn place_laws()
    ensures write { (v : Volume) (free : ℕ → Bool) (x : Space) (maps : List ℕ) (m : FileView) (view : FreeMapView) (attrs : ExtAttrs) (first from n : ℕ) → IsFileIn v free x maps m view
        → place_write v free attrs first x maps from n ≡ place_fill (request_of v free attrs first (pages_needed attrs x.present from n)) m.space from n (filling_of view m) }
    ensures request { (v : Volume) (free : ℕ → Bool) (x : Space) (maps : List ℕ) (m : FileView) (view : FreeMapView) (attrs : ExtAttrs) (first need : ℕ) → IsFileIn v free x maps m view → attrs.fixed ≡ 0
        → IsFor (request_of v free attrs first need) view first }
    ensures count { (v : Volume) (free : ℕ → Bool) (x : Space) (maps : List ℕ) (m : FileView) (view : FreeMapView) (attrs : ExtAttrs) (first need : ℕ) → IsFileIn v free x maps m view
        → (request_of v free attrs first need).free ≡ free_blocks view }
{}

/// What becomes of blocks that are given up, block by block, and when they can be.
pub fn give_laws()
    ensures { GiveLaws }
{}

/// The runs that the map of free blocks finds and takes are those by which groups of pages are placed.
pub fn run_laws()
    ensures { RunLaws }
{}
