//! Pages that go.
ghost use Rattle.std.specs.Prelude.{◌≡◌, ◌+◌, ◌^◌, ℕ, true};
ghost use Rattle.vx_model.specs.LaidOut.{is_unreserved};
ghost use Rattle.vx_model.specs.Layout.{space_at};
ghost use Rattle.vx_model.specs.State.{State};
ghost use Rattle.vx_model.specs.Tree.{File};
ghost use Rattle.vx_space.specs.Leaving.{reserved_from};
ghost use Rattle.vx_model.specs.Opened.{pages_gone};
ghost use Rattle.vx_blockmaps.specs.BlockMaps.{HasState, IsFreeMapOf, IsMapsOf, StandFor, layout_cut};

use vx_alloc::FreeMap;
use vx_base::Page;
use vx_filemaps::{FileMaps, give_laws};
use vx_space::{close_laws, leave_laws};

/// How many pages the largest file has.
pub const MOST_PAGES: u32 = 65536;

/// All pages from one on go, `n` being how many a file may have there, and the size on the device is no larger than this one.
pub fn cut_pages(maps: &mut FileMaps, free: &mut FreeMap, place: u64, from: Page, n: u32, size: u64)
    requires stands { HasState free.old maps.old }
    requires all { from + n ≡ 65536 }
    ensures free { (s : State) (ino : ℕ) (f : File) → StandFor free.old maps.old s ino f → IsFreeMapOf free.new (layout_cut s.layout place ino from size) }
    ensures maps { (s : State) (ino : ℕ) (f : File) → StandFor free.old maps.old s ino f → IsMapsOf maps.new (layout_cut s.layout place ino from size) ino }
{
    give_laws();
    leave_laws();
    maps.cut(free, place, from, n, size);
}

/// All reserved pages go, of a file that has none on the device. `n` is how many pages a file may have.
pub fn drop_pages(maps: &mut FileMaps, free: &mut FreeMap, n: u32)
    requires stands { HasState free.old maps.old }
    requires all { n ≡ 65536 }
    ensures free { (s : State) (place ino : ℕ) (f : File) → StandFor free.old maps.old s ino f → is_unreserved f ≡ true → IsFreeMapOf free.new (pages_gone s.layout place ino (reserved_from 0 (space_at s.layout ino).present)) }
    ensures maps { (s : State) (place ino : ℕ) (f : File) → StandFor free.old maps.old s ino f → is_unreserved f ≡ true → IsMapsOf maps.new (pages_gone s.layout place ino (reserved_from 0 (space_at s.layout ino).present)) ino }
{
    give_laws();
    leave_laws();
    close_laws();
    maps.drop_reserved(free, n);
}
