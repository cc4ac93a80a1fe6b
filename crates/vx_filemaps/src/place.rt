//! The blocks that a call gets.
ghost use Rattle.std.specs.Prelude.{◌≡◌, ◌+◌, ◌*◌, ◌-◌, ◌≤◌, ◌<◌, ◌^◌, ℕ, List, [], length, take, Ok, Err, Some, None, Option, OnOk, OnErr, IfErr, true, IsTrue, vec_capacity, IfOk};
ghost use Rattle.vx_base.specs.declared.refusal.Refusal.TheVariants as no;
ghost use Rattle.vx_alloc.specs.FreeMaps.{FreeMapView, free_blocks};
ghost use Rattle.vx_extents.specs.Extents.{mapped_at, extent_count, chain_len, Mapped};
ghost use Rattle.vx_space.specs.Placing.{Request, write_page, each_page, place_maps, place_chain, block_before, first_for, missing_in, place_fill};
ghost use Rattle.vx_space.specs.Leaving.{is_reserved};
ghost use Rattle.vx_filemaps.specs.FileMaps.{volume_in, filling_in, IsFor, IsReady, IsTaken, IsPast, place_map, Begins, IsRequest, IsRefusal, HasRoom};
ghost use Rattle.vx_space.specs.Space.{Space};
ghost use Rattle.vx_layout.specs.Places.{Volume};
ghost use Rattle.vx_filemaps.specs.declared.place.Step.TheVariants as step;

use vx_alloc::FreeMap;
use vx_base::{Block, Kind, Page, Refusal};
use vx_extents::{ExtentMap, chain_len};

/// Why blocks are not placed (docs/FILES.md).
#[derive(Clone, Copy, Debug, PartialEq, Eq)]
pub enum PlaceRefusal {
    /// `NoSpace` or `MapFull`, with their numbers.
    Refused(Refusal),
    NoMemory,
}

/// What became of a page.
#[derive(Clone, Copy, Debug, PartialEq, Eq)]
pub enum Step {
    Placed,
    NothingFree,
    NoMemory,
}

// The block of the page before.
fn block_before(pages: &ExtentMap, p: Page) -> Option<Block>
    ensures { result ≡ block_before pages.now.pages p }
{
    if p.get() == 0 {
        return None;
    }
    match pages.find(Page::new(p.get() - 1)) {
        Some(found) => Some(found.0),
        None => None,
    }
}

// The length of the first extent, for a file without a block.
fn first_for(pages: &ExtentMap, first: u32) -> Option<u32>
    ensures { result ≡ first_for pages.now.pages first }
{
    if pages.extents() == 0 {
        Some(first)
    } else {
        None
    }
}

pub fn is_reserved(kind: Kind) -> bool
    ensures { result ≡ is_reserved kind }
{
    match kind {
        Kind::Data => false,
        Kind::Reserved => true,
    }
}

// Takes a block for a page that has none.
fn place_page(
    free: &mut FreeMap,
    pages: &mut ExtentMap,
    taken: &mut Vec<Block>,
    first: u32,
    p: Page,
) -> Step
    requires ready { IsReady free.old }
    requires first { 1 ≤ first }
    requires absent { mapped_at pages.old.pages p ≡ None }
    requires within { p < pages.old.page_limit }
    requires reserved { 2 ≤ pages.old.reserved }
    requires room { extent_count pages.old.pages + 2 ≤ pages.old.limit }
    ensures placed { (r : Request) (maps : List ℕ) → IsFor r free.old first → result ≡ step.Placed → write_page r p (filling_in free.old pages.old.pages maps) ≡ Ok (filling_in free.new pages.new.pages maps) }
    ensures full { (r : Request) (maps : List ℕ) → IsFor r free.old first → result ≡ step.NothingFree → write_page r p (filling_in free.old pages.old.pages maps) ≡ Err (no.NoSpace r.need r.free) }
    ensures taken { (base : FreeMapView) → IsTaken base taken.old.items free.old → IsTaken base taken.new.items free.new }
    ensures past { IsPast 2 pages.old pages.new }
    ensures ready { IsReady free.new }
    ensures volume { volume_in free.new ≡ volume_in free.old }
{
    match taken.reserve(1) {
        Ok(()) => {
            let before = block_before(pages, p);
            let start = first_for(pages, first);
            match free.take_next(before, start) {
                Some(b) => {
                    let _ = taken.push(b);
                    pages.put(p, b, Kind::Data);
                    Step::Placed
                }
                None => Step::NothingFree,
            }
        }
        Err(_) => Step::NoMemory,
    }
}

// A page that is written has a block, and holds data.
fn write_page(
    free: &mut FreeMap,
    pages: &mut ExtentMap,
    taken: &mut Vec<Block>,
    first: u32,
    p: Page,
) -> Step
    requires ready { IsReady free.old }
    requires first { 1 ≤ first }
    requires within { p < pages.old.page_limit }
    requires reserved { 2 ≤ pages.old.reserved }
    requires room { extent_count pages.old.pages + 2 ≤ pages.old.limit }
    ensures placed { (r : Request) (maps : List ℕ) → IsFor r free.old first → result ≡ step.Placed → write_page r p (filling_in free.old pages.old.pages maps) ≡ Ok (filling_in free.new pages.new.pages maps) }
    ensures full { (r : Request) (maps : List ℕ) → IsFor r free.old first → result ≡ step.NothingFree → write_page r p (filling_in free.old pages.old.pages maps) ≡ Err (no.NoSpace r.need r.free) }
    ensures taken { (base : FreeMapView) → IsTaken base taken.old.items free.old → IsTaken base taken.new.items free.new }
    ensures past { IsPast 2 pages.old pages.new }
    ensures ready { IsReady free.new }
    ensures volume { volume_in free.new ≡ volume_in free.old }
{
    match pages.find(p) {
        Some(found) => {
            if is_reserved(found.1) {
                pages.use_page(p);
            }
            Step::Placed
        }
        None => place_page(free, pages, taken, first, p),
    }
}

// Each of so many pages has a block and holds data, as far as blocks are free.
fn write_pages(
    free: &mut FreeMap,
    pages: &mut ExtentMap,
    taken: &mut Vec<Block>,
    first: u32,
    from: Page,
    n: u32,
) -> Step
    requires ready { IsReady free.old }
    requires first { 1 ≤ first }
    requires within { from + n ≤ pages.old.page_limit }
    requires fits { pages.old.page_limit < 2 ^ 32 }
    requires reserved { 2 * n ≤ pages.old.reserved }
    requires room { extent_count pages.old.pages + 2 * n ≤ pages.old.limit }
    ensures placed { (r : Request) (maps : List ℕ) → IsFor r free.old first → result ≡ step.Placed → each_page (write_page r) n from (filling_in free.old pages.old.pages maps) ≡ Ok (filling_in free.new pages.new.pages maps) }
    ensures full { (r : Request) (maps : List ℕ) → IsFor r free.old first → result ≡ step.NothingFree → each_page (write_page r) n from (filling_in free.old pages.old.pages maps) ≡ Err (no.NoSpace r.need r.free) }
    ensures taken { (base : FreeMapView) → IsTaken base taken.old.items free.old → IsTaken base taken.new.items free.new }
    ensures past { IsPast (2 * n) pages.old pages.new }
    ensures ready { IsReady free.new }
    ensures volume { volume_in free.new ≡ volume_in free.old }
{
    for i in 0..n {
        match write_page(free, pages, taken, first, Page::new(from.get() + i)) {
            Step::Placed => {}
            refused => return refused,
        }
    }
    Step::Placed
}

// Takes a map block at the start of the longest run.
fn place_map(free: &mut FreeMap, chain: &mut Vec<Block>, taken: &mut Vec<Block>) -> Step
    requires ready { IsReady free.old }
    ensures placed { (v : Volume) (pages : List Mapped) → v ≡ volume_in free.old → result ≡ step.Placed → place_map v (filling_in free.old pages chain.old.items) ≡ Some (filling_in free.new pages chain.new.items) }
    ensures full { (v : Volume) (pages : List Mapped) → v ≡ volume_in free.old → result ≡ step.NothingFree → place_map v (filling_in free.old pages chain.old.items) ≡ None }
    ensures taken { (base : FreeMapView) → IsTaken base taken.old.items free.old → IsTaken base taken.new.items free.new }
    ensures begins { Begins chain.old.items chain.new.items }
    ensures ready { IsReady free.new }
    ensures volume { volume_in free.new ≡ volume_in free.old }
{
    match chain.reserve(1) {
        Ok(()) => take_map(free, chain, taken),
        Err(_) => Step::NoMemory,
    }
}

// Takes a map block, for which the chain has memory.
fn take_map(free: &mut FreeMap, chain: &mut Vec<Block>, taken: &mut Vec<Block>) -> Step
    requires ready { IsReady free.old }
    requires room { length chain.old.items < vec_capacity chain.old }
    ensures placed { (v : Volume) (pages : List Mapped) → v ≡ volume_in free.old → result ≡ step.Placed → place_map v (filling_in free.old pages chain.old.items) ≡ Some (filling_in free.new pages chain.new.items) }
    ensures full { (v : Volume) (pages : List Mapped) → v ≡ volume_in free.old → result ≡ step.NothingFree → place_map v (filling_in free.old pages chain.old.items) ≡ None }
    ensures taken { (base : FreeMapView) → IsTaken base taken.old.items free.old → IsTaken base taken.new.items free.new }
    ensures begins { Begins chain.old.items chain.new.items }
    ensures ready { IsReady free.new }
    ensures volume { volume_in free.new ≡ volume_in free.old }
{
    match taken.reserve(1) {
        Ok(()) => match free.take_next(None, None) {
            Some(b) => {
                let _ = taken.push(b);
                let _ = chain.push(b);
                Step::Placed
            }
            None => Step::NothingFree,
        },
        Err(_) => Step::NoMemory,
    }
}

// Takes so many map blocks, as far as blocks are free.
fn place_maps(free: &mut FreeMap, chain: &mut Vec<Block>, taken: &mut Vec<Block>, more: u32) -> Step
    requires ready { IsReady free.old }
    ensures placed { (v : Volume) (pages : List Mapped) → v ≡ volume_in free.old → result ≡ step.Placed → place_maps v more (filling_in free.old pages chain.old.items) ≡ Some (filling_in free.new pages chain.new.items) }
    ensures full { (v : Volume) (pages : List Mapped) → v ≡ volume_in free.old → result ≡ step.NothingFree → place_maps v more (filling_in free.old pages chain.old.items) ≡ None }
    ensures taken { (base : FreeMapView) → IsTaken base taken.old.items free.old → IsTaken base taken.new.items free.new }
    ensures begins { Begins chain.old.items chain.new.items }
    ensures ready { IsReady free.new }
    ensures volume { volume_in free.new ≡ volume_in free.old }
{
    for i in 0..more {
        match place_map(free, chain, taken) {
            Step::Placed => {}
            refused => return refused,
        }
    }
    Step::Placed
}

/// Gives back all blocks that were taken.
pub fn give_back(free: &mut FreeMap, taken: &mut Vec<Block>)
    requires base { (base : FreeMapView) × (IsReady base × IsTaken base taken.old.items free.old) }
    ensures given { (base : FreeMapView) → IsReady base → IsTaken base taken.old.items free.old → free.new ≡ base }
    ensures empty { taken.new.items ≡ [] }
{
    for i in 0..taken.len() {
        match taken.pop() {
            Some(b) => free.give(b),
            None => {}
        }
    }
}

// How many of so many pages from one on have no block.
fn missing(pages: &ExtentMap, from: Page, n: u32) -> u32
    requires fits { from + n < 2 ^ 32 }
    ensures { result ≡ missing_in pages.now.pages from n }
{
    let mut count = 0;
    for i in 0..n {
        if pages.find(Page::new(from.get() + i)).is_none() {
            count += 1;
        }
    }
    count
}

// The most extents that a file has.
const MOST_EXTENTS: u32 = 4038;

// Takes the map blocks that the pages need, as far as blocks are free.
fn place_chain(
    settled: &ExtentMap,
    pages: &ExtentMap,
    chain: &mut Vec<Block>,
    free: &mut FreeMap,
    taken: &mut Vec<Block>,
    counts: (u32, u32),
) -> Result<(), PlaceRefusal>
    requires ready { IsReady free.old }
    requires need { counts.0 ≤ 65536 }
    ensures done { (r : Request) (x : Space) → r.volume ≡ volume_in free.old → x.settled ≡ settled.now.pages
        → OnOk result (place_chain r x (filling_in free.old pages.now.pages chain.old.items) ≡ Ok (filling_in free.new pages.now.pages chain.new.items)) }
    ensures refused { (r : Request) (x : Space) → r.volume ≡ volume_in free.old → x.settled ≡ settled.now.pages → r.need ≡ counts.0 → r.free ≡ counts.1
        → IfErr result (IsRefusal (place_chain r x (filling_in free.old pages.now.pages chain.old.items))) }
    ensures few { OnOk result (extent_count pages.now.pages ≤ 4038) }
    ensures ready { IsReady free.new }
    ensures volume { volume_in free.new ≡ volume_in free.old }
    ensures taken { (base : FreeMapView) → IsTaken base taken.old.items free.old → IsTaken base taken.new.items free.new }
    ensures begins { Begins chain.old.items chain.new.items }
{
    let extents = settled.extents().max(pages.extents());
    if extents > MOST_EXTENTS {
        return Err(PlaceRefusal::Refused(Refusal::MapFull { extents }));
    }
    let wanted = chain_len(settled.extents()).max(chain_len(pages.extents()));
    let more = (wanted as usize).saturating_sub(chain.len()) as u32;
    match place_maps(free, chain, taken, more) {
        Step::Placed => Ok(()),
        Step::NothingFree => Err(PlaceRefusal::Refused(Refusal::NoSpace {
            need: counts.0 + more,
            free: counts.1,
        })),
        Step::NoMemory => Err(PlaceRefusal::NoMemory),
    }
}

/// Places what a write of so many pages wants, and takes memory for the settle of it. Where it is refused, blocks stay taken.
pub fn place_all(
    settled: &mut ExtentMap,
    present: &ExtentMap,
    chain: &mut Vec<Block>,
    free: &mut FreeMap,
    pages: &mut ExtentMap,
    taken: &mut Vec<Block>,
    first: u32,
    from: Page,
    n: u32,
) -> Result<(), PlaceRefusal>
    requires ready { IsReady free.old }
    requires first { 1 ≤ first }
    requires room { HasRoom present.now pages.old taken.old.items }
    requires within { from + n ≤ 65536 }
    requires few { n ≤ 65 }
    ensures done { (r : Request) (x : Space) → IsRequest r present.now.pages free.old first from n → x.settled ≡ settled.old.pages
        → OnOk result (place_fill r x from n (filling_in free.old present.now.pages chain.old.items) ≡ Ok (filling_in free.new pages.new.pages chain.new.items)) }
    ensures refused { (r : Request) (x : Space) → IsRequest r present.now.pages free.old first from n → x.settled ≡ settled.old.pages
        → IfErr result (IsRefusal (place_fill r x from n (filling_in free.old present.now.pages chain.old.items))) }
    ensures few { OnOk result (extent_count pages.new.pages ≤ 4038) }
    ensures settled { settled.new ≡ record settled.old { reserved = settled.new.reserved } }
    ensures reserved { settled.old.reserved ≤ settled.new.reserved }
    ensures memory { OnOk result (extent_count pages.new.pages ≤ settled.new.reserved) }
    ensures taken { IsTaken free.old taken.new.items free.new }
    ensures ready { IsReady free.new }
    ensures volume { volume_in free.new ≡ volume_in free.old }
    ensures limit { pages.new.limit ≡ pages.old.limit }
    ensures page_limit { pages.new.page_limit ≡ pages.old.page_limit }
    ensures begins { Begins chain.old.items chain.new.items }
{
    match settled.reserve(present.extents() + 2 * n) {
        Ok(()) => place_reserved(settled, present, chain, free, pages, taken, first, from, n),
        Err(_) => Err(PlaceRefusal::NoMemory),
    }
}

fn place_reserved(
    settled: &ExtentMap,
    present: &ExtentMap,
    chain: &mut Vec<Block>,
    free: &mut FreeMap,
    pages: &mut ExtentMap,
    taken: &mut Vec<Block>,
    first: u32,
    from: Page,
    n: u32,
) -> Result<(), PlaceRefusal>
    requires ready { IsReady free.old }
    requires first { 1 ≤ first }
    requires room { HasRoom present.now pages.old taken.old.items }
    requires within { from + n ≤ 65536 }
    requires few { n ≤ 65 }
    ensures done { (r : Request) (x : Space) → IsRequest r present.now.pages free.old first from n → x.settled ≡ settled.now.pages
        → OnOk result (place_fill r x from n (filling_in free.old present.now.pages chain.old.items) ≡ Ok (filling_in free.new pages.new.pages chain.new.items)) }
    ensures refused { (r : Request) (x : Space) → IsRequest r present.now.pages free.old first from n → x.settled ≡ settled.now.pages
        → IfErr result (IsRefusal (place_fill r x from n (filling_in free.old present.now.pages chain.old.items))) }
    ensures few { OnOk result (extent_count pages.new.pages ≤ 4038) }
    ensures count { OnOk result (extent_count pages.new.pages ≤ extent_count present.now.pages + 2 * n) }
    ensures taken { IsTaken free.old taken.new.items free.new }
    ensures ready { IsReady free.new }
    ensures volume { volume_in free.new ≡ volume_in free.old }
    ensures limit { pages.new.limit ≡ pages.old.limit }
    ensures page_limit { pages.new.page_limit ≡ pages.old.page_limit }
    ensures begins { Begins chain.old.items chain.new.items }
{
    let need = missing(present, from, n);
    let before = free.free();
    match pages.reserve(present.extents() + 2 * n) {
        Ok(()) => {
            pages.set_from(present, 2 * n);
            match write_pages(free, pages, taken, first, from, n) {
                Step::Placed => place_chain(settled, pages, chain, free, taken, (need, before)),
                Step::NothingFree => Err(PlaceRefusal::Refused(Refusal::NoSpace {
                    need,
                    free: before,
                })),
                Step::NoMemory => Err(PlaceRefusal::NoMemory),
            }
        }
        Err(_) => Err(PlaceRefusal::NoMemory),
    }
}
