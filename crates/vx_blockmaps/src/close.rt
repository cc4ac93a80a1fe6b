//! Reservations that a file gives up.
ghost use Rattle.std.specs.Prelude.{◌≡◌, ◌≤◌, ℕ, length, true};
ghost use Rattle.vx_model.specs.LaidOut.{is_unreserved};
ghost use Rattle.vx_model.specs.Layout.{space_at};
ghost use Rattle.vx_model.specs.State.{State};
ghost use Rattle.vx_model.specs.Tree.{File};
ghost use Rattle.vx_space.specs.Leaving.{reserved_from};
ghost use Rattle.vx_model.specs.Opened.{pages_gone, pages_of};
ghost use Rattle.vx_blockmaps.specs.BlockMaps.{HasState, IsFreeMapOf, IsMapsOf, StandFor};

use crate::pages::{MOST_PAGES, cut_pages, drop_pages};
use vx_alloc::FreeMap;
use vx_base::Page;
use vx_filemaps::FileMaps;
use vx_space::{close_laws, leave_laws};

/// A file that keeps no reservation on the device gives up its reserved pages. All of them are held, so that their blocks are free.
pub fn drop_reservation(maps: &mut FileMaps, free: &mut FreeMap)
    requires { HasState free.old maps.old }
    ensures free { (s : State) (place ino : ℕ) (f : File) → StandFor free.old maps.old s ino f → is_unreserved f ≡ true → IsFreeMapOf free.new (pages_gone s.layout place ino (reserved_from 0 (space_at s.layout ino).present)) }
    ensures maps { (s : State) (place ino : ℕ) (f : File) → StandFor free.old maps.old s ino f → is_unreserved f ≡ true → IsMapsOf maps.new (pages_gone s.layout place ino (reserved_from 0 (space_at s.layout ino).present)) ino }
{
    drop_pages(maps, free, MOST_PAGES);
}

/// A file gives up the reserved pages from the end of its bytes on: all pages from there on. Blocks that the device says wait for the
/// event at this place, and held ones are free.
pub fn trim_reservation(maps: &mut FileMaps, free: &mut FreeMap, place: u64, from: Page)
    requires stands { HasState free.old maps.old }
    requires within { from ≤ 65536 }
    ensures free { (s : State) (ino : ℕ) (f : File) → StandFor free.old maps.old s ino f → from ≡ pages_of (length f.bytes) → IsFreeMapOf free.new (pages_gone s.layout place ino (reserved_from from (space_at s.layout ino).present)) }
    ensures maps { (s : State) (ino : ℕ) (f : File) → StandFor free.old maps.old s ino f → from ≡ pages_of (length f.bytes) → IsMapsOf maps.new (pages_gone s.layout place ino (reserved_from from (space_at s.layout ino).present)) ino }
{
    leave_laws();
    close_laws();
    let size = maps.size();
    cut_pages(maps, free, place, from, MOST_PAGES - from.get(), size);
}
