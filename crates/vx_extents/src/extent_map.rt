//! A file's pages, kept as maximal stretches.
ghost use Rattle.std.specs.Prelude.{◌≡◌, ◌+◌, ◌-◌, ◌*◌, ◌/◌, ◌<◌, ◌≤◌, ◌^◌, max, min, OnOk, OnErr, Some, None, [], suc, ◌==◌, length, slice_get, filter, nat_lt, vec_capacity, ◌++◌, is_some, true, get_or, insert, option_map, ℕ};
ghost use Rattle.vx_base.specs.declared.kind.Kind.{Kind};
ghost use Rattle.vx_base.specs.declared.geom.Geom.{Geom};
ghost use Rattle.vx_extents.specs.declared.stretch.Stretch.{Stretch};
ghost use Rattle.vx_extents.specs.Extents.{extents_limit, file_pages, stretches, chain_len, places, expand, AreMaximal, mapped_at, extent_count, cut_before, begun_before, add_answer, with_add, touches, touches_before, touches_after, same_kind, joined_at, added, IsStretch, AreStretches};
ghost use Rattle.vx_extents.specs.Uses.{AreAbsent, has_between, with_pages, used_pages, pages_without, data_pages, is_data_kind, removed_at, left_before, piece_after};
ghost use Rattle.vx_base.specs.declared.kind.Kind.TheVariants.{Data, Reserved};

use crate::stretch::Stretch;
use std::alloc::{AllocError, Global};
use std::marker::Model;
use std::mem;
use vx_base::{Block, Extent, Geom, Kind, Page};

/// The map would have more extents than it may have.
#[derive(Clone, Copy, Debug, PartialEq, Eq)]
pub struct MapFull {
    /// The number that would be reached.
    pub extents: u32,
}

/// The block and the kind of each page of a file that has one.
#[derive(Debug, Drop)]
pub struct ExtentMap {
    // The most extents that the file's map blocks have room for.
    limit: u32,
    // How many pages the largest file has. Every page is below.
    page_limit: u32,
    // How many pages can be added without further memory.
    reserved: u32,
    extents: Vec<Stretch>,
}

impl Model for ExtentMap {
    ghost use Rattle.std.specs.Prelude.{vec_capacity};
    ghost use Rattle.vx_extents.specs.Extents.{ExtentMapView, expand, IsKept};
    ghost use Rattle.vx_extents.specs.Codes.{coded_map};

    ghost Value = { ExtentMapView };

    ghost coded = { coded_map };

    ghost view = { λ a. record { pages = expand a.extents.items; reserved = a.reserved; limit = a.limit; page_limit = a.page_limit } };

    ghost invariant = { λ a. IsKept a.extents.items a.reserved a.limit a.page_limit (vec_capacity a.extents) };
}

impl ExtentMap {
    /// No page has a block, for layout 1.
    pub fn new(alloc: Global) -> Self
        ensures { result ≡ record { pages = []; reserved = 0; limit = 4038; page_limit = 65536 } }
    {
        ExtentMap::with(alloc, Geom::layout1())
    }

    /// No page has a block, for a layout.
    pub fn with(alloc: Global, geom: Geom) -> Self
        requires block { 16 ≤ geom.block }
        requires maps { geom.maps * geom.block ≤ 65536 }
        requires pages { file_pages geom < 2 ^ 32 }
        ensures { result ≡ record { pages = []; reserved = 0; limit = extents_limit geom; page_limit = file_pages geom } }
    {
        ExtentMap {
            limit: 6 + geom.maps * places(&geom),
            page_limit: (geom.limit / geom.block as u64) as u32,
            reserved: 0,
            extents: Vec::new(alloc),
        }
    }

    /// No page has a block, with these limits.
    pub fn with_limits(alloc: Global, limit: u32, page_limit: u32) -> Self
        requires { limit + 1 < 2 ^ 32 }
        ensures { result ≡ record { pages = []; reserved = 0; limit = limit; page_limit = page_limit } }
    {
        ExtentMap {
            limit,
            page_limit,
            reserved: 0,
            extents: Vec::new(alloc),
        }
    }

    /// The block of a page and its kind, if it has one.
    pub fn find(&self, p: Page) -> Option<(Block, Kind)>
        ensures { result ≡ mapped_at self.now.pages p }
    {
        if p.get() >= self.page_limit {
            return None;
        }
        find_in(self.extents.as_slice(), p.get())
    }

    /// Whether one of so many pages from one on has a block.
    pub fn has_page(&self, p: Page, n: u32) -> bool
        requires some { 1 ≤ n }
        requires fits { p + n < 2 ^ 32 }
        ensures { result ≡ has_between p (p + n) self.now.pages }
    {
        has_between(self.extents.as_slice(), p.get(), p.get() + n)
    }

    /// The number of extents, which are the maximal stretches of pages of one kind in consecutive blocks.
    pub fn extents(&self) -> u32
        ensures { result ≡ extent_count self.now.pages }
    {
        self.extents.as_slice().len() as u32
    }

    /// An extent by its place among them in page order, counted from 0.
    pub fn stretch(&self, i: u32) -> Extent
        requires { i < extent_count self.now.pages }
        ensures { slice_get (stretches self.now.pages) i ≡ Some result }
    {
        let stretch = self.extents[i as usize];
        Extent {
            page: stretch.page,
            start: stretch.start,
            len: stretch.more + 1,
            kind: stretch.kind,
        }
    }

    /// Takes the memory for so many pages to be added; unchanged where it is short.
    pub fn reserve(&mut self, n: u32) -> Result<(), AllocError>
        ensures ok { OnOk result (self.new ≡ record self.old { reserved = max self.old.reserved n }) }
        ensures err { OnErr result (self.new ≡ self.old) }
    {
        self.extents.reserve(n as usize)?;
        self.reserved = self.reserved.max(n);
        Ok(())
    }

    /// Gives the page a block, for which memory is there; unchanged where the map would have too many extents.
    pub fn add(&mut self, p: Page, b: Block, kind: Kind) -> Result<(), MapFull>
        requires within { p < self.old.page_limit }
        requires absent { mapped_at self.old.pages p ≡ None }
        requires reserved { 1 ≤ self.old.reserved }
        ensures answer { result ≡ add_answer self.old p b kind }
        ensures added { OnOk result (self.new ≡ with_add self.old p b kind) }
        ensures unchanged { OnErr result (self.new ≡ self.old) }
    {
        let new = Stretch {
            page: p,
            start: b,
            more: 0,
            kind,
        };
        let at = begun_before(self.extents.as_slice(), p.get());
        let extents = extents_with(self.extents.as_slice(), at, &new);
        if extents > self.limit as usize {
            let extents = extents as u32;
            return Err(MapFull { extents });
        }
        insert_joined(&mut self.extents, at, new);
        self.reserved -= 1;
        Ok(())
    }

    /// Gives the page a block, where the map has room for an extent more.
    pub fn put(&mut self, p: Page, b: Block, kind: Kind)
        requires within { p < self.old.page_limit }
        requires absent { mapped_at self.old.pages p ≡ None }
        requires reserved { 1 ≤ self.old.reserved }
        requires room { extent_count self.old.pages < self.old.limit }
        ensures added { self.new ≡ with_add self.old p b kind }
        ensures count { extent_count self.new.pages ≤ extent_count self.old.pages + 1 }
    {
        let new = Stretch {
            page: p,
            start: b,
            more: 0,
            kind,
        };
        let at = begun_before(self.extents.as_slice(), p.get());
        insert_joined(&mut self.extents, at, new);
        self.reserved -= 1;
    }

    /// Gives so many pages in a row blocks in a row, where the map has room for an extent more.
    pub fn put_run(&mut self, p: Page, b: Block, n: u32, kind: Kind)
        requires some { 1 ≤ n }
        requires within { p + n ≤ self.old.page_limit }
        requires blocks { b + n ≤ 2 ^ 32 }
        requires absent { AreAbsent p n self.old.pages }
        requires reserved { 1 ≤ self.old.reserved }
        requires room { extent_count self.old.pages < self.old.limit }
        ensures added { self.new ≡ record self.old { pages = with_pages n p b kind self.old.pages; reserved = self.old.reserved - 1 } }
        ensures count { extent_count self.new.pages ≤ extent_count self.old.pages + 1 }
    {
        let new = Stretch {
            page: p,
            start: b,
            more: n - 1,
            kind,
        };
        let at = begun_before(self.extents.as_slice(), p.get());
        insert_joined(&mut self.extents, at, new);
        self.reserved -= 1;
    }

    /// Drops a page.
    pub fn remove(&mut self, p: Page)
        requires there { is_some (mapped_at self.old.pages p) ≡ true }
        requires reserved { 1 ≤ self.old.reserved }
        requires room { extent_count self.old.pages < self.old.limit }
        ensures removed { self.new ≡ record self.old { pages = pages_without p self.old.pages; reserved = self.old.reserved - 1 } }
        ensures count { extent_count self.new.pages ≤ extent_count self.old.pages + 1 }
        ensures absent { mapped_at self.new.pages p ≡ None }
    {
        let at = begun_before(self.extents.as_slice(), p.get() + 1) - 1;
        let before = p.get() - self.extents[at].page.get();
        remove_page(&mut self.extents, at, before);
        self.reserved -= 1;
    }

    /// The page, which has a block, holds data.
    pub fn use_page(&mut self, p: Page)
        requires there { is_some (mapped_at self.old.pages p) ≡ true }
        requires reserved { 2 ≤ self.old.reserved }
        requires room { extent_count self.old.pages + 2 ≤ self.old.limit }
        ensures used { self.new ≡ record self.old { pages = used_pages p self.old.pages; reserved = self.old.reserved - 2 } }
        ensures count { extent_count self.new.pages ≤ extent_count self.old.pages + 2 }
    {
        let b = block_in(self.extents.as_slice(), p.get());
        self.remove(p);
        self.put(p, b, Kind::Data);
    }

    /// Has the pages of the other map, for which memory is there, and for so many to be added.
    pub fn set_from(&mut self, other: &ExtentMap, more: u32)
        requires memory { extent_count other.now.pages + more ≤ extent_count self.old.pages + self.old.reserved }
        requires limit { other.now.limit ≤ self.old.limit }
        requires page_limit { other.now.page_limit ≤ self.old.page_limit }
        ensures { self.new ≡ record self.old { pages = other.now.pages; reserved = more } }
    {
        self.extents.clear();
        push_all(&mut self.extents, other.extents.as_slice());
        self.reserved = more;
    }

    /// Drops every page that is reserved, and keeps the memory for pages to be added.
    pub fn keep_data(&mut self)
        ensures pages { self.new ≡ record self.old { pages = data_pages self.old.pages; reserved = self.new.reserved } }
        ensures count { extent_count self.new.pages ≤ extent_count self.old.pages }
        ensures memory { self.new.reserved ≡ min (2 ^ 32 - 1) (self.old.reserved + (extent_count self.old.pages - extent_count self.new.pages)) }
    {
        let before = self.extents.len();
        self.extents.retain(|extent| is_data_kind(extent.kind));
        self.reserved = with_freed(self.reserved, before, self.extents.len());
    }

    /// Drops every page from `p` on, and keeps the memory for pages to be added.
    pub fn cut(&mut self, p: Page)
        ensures cut { self.new ≡ record self.old { pages = filter (λ m. nat_lt m.page p) self.old.pages; reserved = self.new.reserved } }
        ensures count { extent_count self.new.pages ≤ extent_count self.old.pages }
        ensures memory { self.new.reserved ≡ min (2 ^ 32 - 1) (self.old.reserved + (extent_count self.old.pages - extent_count self.new.pages)) }
    {
        let before = self.extents.len();
        cut_extents(&mut self.extents, p.get());
        self.reserved = with_freed(self.reserved, before, self.extents.len());
    }

    /// Exchanges two maps, with the memory that each has.
    pub fn replace_all(&mut self, with: &mut ExtentMap)
        ensures taken { self.new ≡ with.old }
        ensures given { with.new ≡ self.old }
    {
        mem::swap(self, with);
    }
}

// How many pages can be added, once there are fewer extents.
fn with_freed(reserved: u32, before: usize, after: usize) -> u32
    requires fewer { after ≤ before }
    requires few { before < 2 ^ 32 }
    ensures { result ≡ min (2 ^ 32 - 1) (reserved + (before - after)) }
{
    let room = reserved as u64 + (before - after) as u64;
    room.min(u32::MAX as u64) as u32
}

/// How many map blocks so many extents need in layout 1.
pub fn chain_len(extents: u32) -> u32
    ensures { result ≡ chain_len 63 extents }
{
    chain_len_with(extents, &Geom::layout1())
}

/// How many map blocks so many extents need in a layout.
pub fn chain_len_with(extents: u32, geom: &Geom) -> u32
    requires { 32 ≤ geom.now.block }
    ensures { result ≡ chain_len (places geom.now) extents }
{
    if extents <= 6 {
        0
    } else {
        (extents - 6).div_ceil(places(geom))
    }
}

// How many extents a map block has room for.
fn places(geom: &Geom) -> u32
    requires { 16 ≤ geom.now.block }
    ensures { result ≡ places geom.now }
{
    geom.block / 16 - 1
}

fn find_in(extents: &[Stretch], p: u32) -> Option<(Block, Kind)>
    requires maximal { AreMaximal extents.now }
    requires few { length extents.now < 2 ^ 32 }
    requires fits { p + 1 < 2 ^ 32 }
    ensures { result ≡ mapped_at (expand extents.now) p }
{
    let begun = begun_before(extents, p + 1);
    if begun == 0 {
        return None;
    }
    let extent = extents[begun - 1];
    let after = p - extent.page.get();
    if after > extent.more {
        return None;
    }
    let block = extent.start.get() + after;
    Some((Block::new(block), extent.kind))
}

// Whether a page from one on and below another has a block.
fn has_between(extents: &[Stretch], from: u32, to: u32) -> bool
    requires maximal { AreMaximal extents.now }
    requires few { length extents.now < 2 ^ 32 }
    requires some { from < to }
    ensures { result ≡ has_between from to (expand extents.now) }
{
    let begun = begun_before(extents, to);
    if begun == 0 {
        return false;
    }
    let last = extents[begun - 1];
    from <= last.page.get() + last.more
}

// Adds all of these extents, for which there is room.
fn push_all(extents: &mut Vec<Stretch>, others: &[Stretch])
    requires room { length extents.old.items + length others.now ≤ vec_capacity extents.old }
    ensures items { extents.new.items ≡ extents.old.items ++ others.now }
    ensures capacity { vec_capacity extents.old ≤ vec_capacity extents.new }
{
    for other in others {
        let _ = extents.push(*other);
    }
}

fn is_data_kind(kind: Kind) -> bool
    ensures { result ≡ is_data_kind kind }
{
    match kind {
        Kind::Data => true,
        Kind::Reserved => false,
    }
}

// Drops the page that stands so many from the start of an extent, of which a part may be left on either side.
fn remove_page(extents: &mut Vec<Stretch>, at: usize, before: u32)
    requires each { AreStretches extents.old.items }
    requires bound { at < length extents.old.items }
    requires inside { (d : Stretch) → before ≤ (get_or extents.old.items at d).more }
    requires room { length extents.old.items < vec_capacity extents.old }
    ensures removed { extents.new.items ≡ removed_at at before extents.old.items }
    ensures capacity { vec_capacity extents.new ≡ vec_capacity extents.old }
{
    let extent = extents[at];
    if before < extent.more {
        insert_piece(extents, at + 1, piece_after(&extent, before));
    }
    leave_before(extents, at, before);
}

// What is left of an extent after a page.
fn piece_after(extent: &Stretch, before: u32) -> Stretch
    requires extent { IsStretch extent.now }
    requires inside { before < extent.now.more }
    ensures { result ≡ piece_after before extent.now }
{
    Stretch {
        page: Page::new(extent.page.get() + before + 1),
        start: Block::new(extent.start.get() + before + 1),
        more: extent.more - before - 1,
        kind: extent.kind,
    }
}

fn insert_piece(extents: &mut Vec<Stretch>, at: usize, piece: Stretch)
    requires bound { at ≤ length extents.old.items }
    requires room { length extents.old.items < vec_capacity extents.old }
    ensures inserted { extents.new.items ≡ insert extents.old.items at piece }
    ensures capacity { vec_capacity extents.new ≡ vec_capacity extents.old }
{
    match extents.insert(at, piece) {
        Ok(()) => {}
        Err(_) => unreachable!(),
    }
}

// Leaves only so many pages of an extent, which goes where that is none.
fn leave_before(extents: &mut Vec<Stretch>, at: usize, before: u32)
    requires bound { at < length extents.old.items }
    ensures left { extents.new.items ≡ left_before at before extents.old.items }
    ensures capacity { vec_capacity extents.new ≡ vec_capacity extents.old }
{
    if before == 0 {
        extents.remove(at);
    } else {
        let extent = extents[at];
        extents[at] = Stretch {
            more: before - 1,
            ..extent
        };
    }
}

// The block of a page that has one.
fn block_in(extents: &[Stretch], p: u32) -> Block
    requires maximal { AreMaximal extents.now }
    requires few { length extents.now < 2 ^ 32 }
    requires fits { p + 1 < 2 ^ 32 }
    requires there { is_some (mapped_at (expand extents.now) p) ≡ true }
    ensures { option_map (λ (m : ℕ × Kind). m.0) (mapped_at (expand extents.now) p) ≡ Some result }
{
    match find_in(extents, p) {
        Some(found) => found.0,
        None => unreachable!(),
    }
}

// Drops every page from `p` on. The last extent that begins before it may be left in part.
fn cut_extents(extents: &mut Vec<Stretch>, p: u32)
    requires { AreMaximal extents.old.items }
    ensures cut { extents.new.items ≡ cut_before p extents.old.items }
    ensures capacity { vec_capacity extents.new ≡ vec_capacity extents.old }
{
    let keep = begun_before(extents.as_slice(), p);
    extents.truncate(keep);
    if keep > 0 {
        let last = extents[keep - 1];
        let more = last.more.min(p - last.page.get() - 1);
        extents[keep - 1] = Stretch { more, ..last };
    }
}

// How many extents, from the first on, begin before `p`.
fn begun_before(extents: &[Stretch], p: u32) -> usize
    requires { AreMaximal extents.now }
    ensures { result ≡ begun_before p extents.now }
{
    extents.partition_point(|extent| extent.page.get() < p)
}

// The number of extents, once the new one stands at its place.
fn extents_with(stretches: &[Stretch], at: usize, new: &Stretch) -> usize
    requires maximal { AreMaximal stretches.now }
    requires place { at ≡ begun_before new.now.page stretches.now }
    ensures { result ≡ length (added new.now stretches.now) }
{
    match (
        touches_before(stretches, at, new),
        touches_after(stretches, at, new),
    ) {
        (true, true) => stretches.len() - 1,
        (true, false) => stretches.len(),
        (false, true) => stretches.len(),
        (false, false) => stretches.len() + 1,
    }
}

// Whether the last of the first `at` extents touches the new one.
fn touches_before(stretches: &[Stretch], at: usize, new: &Stretch) -> bool
    requires { at ≤ length stretches.now }
    ensures { result ≡ touches_before new.now at stretches.now }
{
    at > 0 && touches(&stretches[at - 1], new)
}

// Whether the new extent touches the first past the first `at`.
fn touches_after(stretches: &[Stretch], at: usize, new: &Stretch) -> bool
    ensures { result ≡ touches_after new.now at stretches.now }
{
    at < stretches.len() && touches(new, &stretches[at])
}

// Puts the new extent at its place, as one with those that it touches.
fn insert_joined(stretches: &mut Vec<Stretch>, at: usize, new: Stretch)
    requires maximal { AreMaximal stretches.old.items }
    requires extent { IsStretch new }
    requires place { at ≡ begun_before new.page stretches.old.items }
    requires room { length stretches.old.items < vec_capacity stretches.old }
    ensures added { stretches.new.items ≡ added new stretches.old.items }
    ensures capacity { vec_capacity stretches.new ≡ vec_capacity stretches.old }
{
    match stretches.insert(at, new) {
        Ok(()) => {}
        Err(_) => unreachable!(),
    }
    join_next(stretches, at);
    if at > 0 {
        join_next(stretches, at - 1);
    }
}

// Makes the extent one with the next, where they touch.
fn join_next(stretches: &mut Vec<Stretch>, i: usize)
    requires bound { i < length stretches.old.items }
    requires each { AreStretches stretches.old.items }
    ensures joined { stretches.new.items ≡ joined_at i stretches.old.items }
    ensures capacity { vec_capacity stretches.new ≡ vec_capacity stretches.old }
{
    if i + 1 < stretches.len() {
        let extent = stretches[i];
        let next = stretches[i + 1];
        if touches(&extent, &next) {
            let more = extent.more + next.more + 1;
            stretches[i] = Stretch { more, ..extent };
            stretches.remove(i + 1);
        }
    }
}

// Whether the second goes on where the first ends, in pages and in blocks, and is of its kind.
fn touches(extent: &Stretch, next: &Stretch) -> bool
    ensures { result ≡ touches extent.now next.now }
{
    let page = goes_on(extent.page.get(), extent.more, next.page.get());
    let block = goes_on(extent.start.get(), extent.more, next.start.get());
    page && block && same_kind(extent.kind, next.kind)
}

// Whether the number comes after the first one and so many more.
fn goes_on(first: u32, more: u32, number: u32) -> bool
    ensures { result ≡ (first + suc more == number) }
{
    first < number && number - first - 1 == more
}

fn same_kind(kind: Kind, other: Kind) -> bool
    ensures { result ≡ same_kind kind other }
{
    match (kind, other) {
        (Kind::Data, Kind::Data) => true,
        (Kind::Reserved, Kind::Reserved) => true,
        _ => false,
    }
}
