//! What a settle and a smaller size leave.
ghost use Rattle.std.specs.Prelude.{◌≡◌, ◌≤◌, ◌<◌, ◌+◌, ◌^◌, take, drop};
ghost use Rattle.vx_extents.specs.Extents.{extent_count, mapped_at};
ghost use Rattle.vx_filemaps.specs.Settles.{none_at, reserved_at, if_reserved, pended, CanWait, without_page, IsUsedPage, without_pages, CanGo};
ghost use Rattle.vx_space.specs.Leaving.{lasting};

use crate::place::is_reserved;
use vx_alloc::FreeMap;
use vx_base::{Block, Kind, Page};
use vx_extents::ExtentMap;

/// The device is to say the pages as they are now, of a file with noreserve those that hold data.
pub fn settle_pages(settled: &mut ExtentMap, present: &ExtentMap, noreserve: bool)
    requires few { extent_count present.now.pages < 2 ^ 32 }
    requires memory { extent_count present.now.pages ≤ extent_count settled.old.pages + settled.old.reserved }
    requires limit { present.now.limit ≤ settled.old.limit }
    requires page_limit { present.now.page_limit ≤ settled.old.page_limit }
    ensures pages { settled.new ≡ record settled.old { pages = lasting noreserve present.now.pages; reserved = settled.new.reserved } }
    ensures memory { extent_count present.now.pages ≤ extent_count settled.new.pages + settled.new.reserved }
{
    settled.set_from(present, 0);
    if noreserve {
        settled.keep_data();
    }
}

/// Makes the blocks past so many of a chain wait for a place of the history.
pub fn pend_chain(chain: &mut Vec<Block>, free: &mut FreeMap, place: u64, kept: usize)
    requires used { CanWait place (drop kept chain.old.items) free.old }
    ensures left { chain.new.items ≡ take kept chain.old.items }
    ensures pending { free.new ≡ pended place (drop kept chain.old.items) free.old }
{
    for i in kept..chain.len() {
        free.pend(place, chain[i]);
    }
    chain.truncate(kept);
}

// A page goes: a block that the device says waits, and a held one is free.
fn give_up_page(
    settled: Option<(Block, Kind)>,
    present: Option<(Block, Kind)>,
    free: &mut FreeMap,
    place: u64,
)
    requires used { IsUsedPage settled present free.old }
    ensures { free.new ≡ without_page place settled present free.old }
{
    match settled {
        Some(found) => free.pend(place, found.0),
        None => match present {
            Some(found) => free.give(found.0),
            None => {}
        },
    }
}

/// So many pages from one on go.
pub fn give_up_pages(
    settled: &ExtentMap,
    present: &ExtentMap,
    free: &mut FreeMap,
    place: u64,
    from: Page,
    n: u32,
)
    requires fits { from + n < 2 ^ 32 }
    requires used { CanGo place (mapped_at settled.now.pages) (mapped_at present.now.pages) n from free.old }
    ensures { free.new ≡ without_pages place (mapped_at settled.now.pages) (mapped_at present.now.pages) n from free.old }
{
    for i in 0..n {
        let p = Page::new(from.get() + i);
        give_up_page(settled.find(p), present.find(p), free, place);
    }
}

/// Those of so many pages from one on that are reserved go. None of them is on the device.
pub fn give_reserved(present: &ExtentMap, free: &mut FreeMap, from: Page, n: u32)
    requires fits { from + n < 2 ^ 32 }
    requires used { CanGo 0 none_at (reserved_at present.now.pages) n from free.old }
    ensures { free.new ≡ without_pages 0 none_at (reserved_at present.now.pages) n from free.old }
{
    for i in 0..n {
        let p = Page::new(from.get() + i);
        give_up_page(None, only_reserved(present.find(p)), free, 0);
    }
}

// The page, if it is reserved.
fn only_reserved(page: Option<(Block, Kind)>) -> Option<(Block, Kind)>
    ensures { result ≡ if_reserved page }
{
    match page {
        Some(found) if is_reserved(found.1) => Some(found),
        _ => None,
    }
}
