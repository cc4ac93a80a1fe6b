//! Blocks that a file gives up.
ghost use Rattle.std.specs.Prelude.{◌≡◌, ◌≤◌, ◌^◌, ℕ, length};
ghost use Rattle.vx_model.specs.LaidOut.{is_unreserved};
ghost use Rattle.vx_model.specs.Layout.{freed};
ghost use Rattle.vx_model.specs.State.{State};
ghost use Rattle.vx_model.specs.Tree.{File};
ghost use Rattle.vx_model.specs.Bytes.{cut_layout};
ghost use Rattle.vx_model.specs.Settling.{settled_layout};
ghost use Rattle.vx_blockmaps.specs.BlockMaps.{HasState, IsFreeMapOf, IsMapsOf, StandFor};

use crate::pages::{MOST_PAGES, cut_pages};
use vx_alloc::FreeMap;
use vx_base::Page;
use vx_filemaps::{FileMaps, give_laws};

/// All pages past a smaller size go. Blocks that the device says wait for the event at this place, and held ones are free.
pub fn cut(maps: &mut FileMaps, free: &mut FreeMap, place: u64, size: u64)
    requires stands { HasState free.old maps.old }
    requires fits { size ≤ 2 ^ 26 }
    ensures free { (s : State) (ino : ℕ) (f : File) → StandFor free.old maps.old s ino f → IsFreeMapOf free.new (cut_layout s.layout place ino size) }
    ensures maps { (s : State) (ino : ℕ) (f : File) → StandFor free.old maps.old s ino f → IsMapsOf maps.new (cut_layout s.layout place ino size) ino }
{
    let from = size.div_ceil(1024) as u32;
    cut_pages(maps, free, place, Page::new(from), MOST_PAGES - from, size);
}

/// What is held of the file becomes settled, and map blocks past what it needs wait for the event at this place. `noreserve` says that
/// the file keeps no reservation on the device.
pub fn settle(maps: &mut FileMaps, free: &mut FreeMap, place: u64, noreserve: bool, size: u64)
    requires stands { HasState free.old maps.old }
    ensures free { (s : State) (ino : ℕ) (f : File) → StandFor free.old maps.old s ino f → noreserve ≡ is_unreserved f → size ≡ length f.bytes → IsFreeMapOf free.new (settled_layout s.layout place ino f) }
    ensures maps { (s : State) (ino : ℕ) (f : File) → StandFor free.old maps.old s ino f → noreserve ≡ is_unreserved f → size ≡ length f.bytes → IsMapsOf maps.new (settled_layout s.layout place ino f) ino }
{
    give_laws();
    maps.settle(free, place, noreserve, size);
}

/// The file gives all its blocks up: those on the device and all map blocks wait for the event at this place, and held pages' are free.
pub fn give_up(maps: &mut FileMaps, free: &mut FreeMap, place: u64)
    requires { HasState free.old maps.old }
    ensures free { (s : State) (ino : ℕ) (f : File) → StandFor free.old maps.old s ino f → IsFreeMapOf free.new (freed s.layout place ino) }
    ensures maps { (s : State) (ino : ℕ) (f : File) → StandFor free.old maps.old s ino f → IsMapsOf maps.new (freed s.layout place ino) ino }
{
    give_laws();
    cut_pages(maps, free, place, Page::new(0), MOST_PAGES, 0);
    maps.settle(free, place, false, 0);
}
