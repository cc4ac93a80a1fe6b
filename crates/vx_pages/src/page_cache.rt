//! The pages in memory, most recent first.
ghost use Rattle.std.specs.Prelude.{◌≡◌, ◌+◌, ◌<◌, ◌≤◌, ℕ, Bool, true, false, length, count_by, nat_eq, List, [], ◌∷◌, Option, Some, None, IfOk, IfSome, IsSome, is_some, option_map, option_copied};
ghost use Rattle.std.specs.List.{AllByRecursion, IsDistinct};
ghost use Rattle.std.specs.Borrow.{sem};
ghost use Rattle.std.specs.Map.{keys_of, lookup, remove_entry, set_value};
ghost use Rattle.lru.specs.LruCache.{lru_cache, promoted};
ghost use Rattle.vx_base.specs.declared.geom.Geom.{Geom};
ghost use Rattle.vx_pages.specs.Pages.{Entry, find, to_front, edit, without, written, cleaned, dropped_from, with_room, with_put, last_changed, IsCache};
ghost use Rattle.vx_pages.specs.Indexes.{slot_at};
ghost use Rattle.vx_pages.specs.Slots.{listed, IsSlot, AreTied, IsKept, but, slot_for_new, last_unchanged_slot, changed_slots, last_changed_slot};

use crate::slot::PageSlot;
use crate::slot_index::SlotIndex;
use lru::LruCache;
use std::alloc::{AllocError, Global};
use std::marker::Model;
use std::num::NonZeroUsize;
use vx_base::{Geom, Ino, Page};

/// How many pages there is room for.
const PAGES: u32 = 1024;

/// Pages of files with their bytes, most recent first, each changed in memory or not. There is room for 1,024.
#[derive(Drop)]
pub struct PageCache {
    // The bytes in a page.
    block: u32,
    // Every slot by its number, used or not, so that no later call wants memory.
    slots: LruCache<u32, PageSlot>,
    // The slot of each page.
    index: SlotIndex,
}

impl Model for PageCache {
    ghost use Rattle.vx_pages.specs.Pages.{Pages};
    ghost use Rattle.vx_pages.specs.Slots.{listed, IsKept};
    ghost use Rattle.vx_pages.specs.Codes.{coded_pages};

    ghost Value = { Pages };

    ghost coded = { coded_pages };

    ghost view = { λ a. record { block = a.block; entries = listed a.slots.entries } };

    ghost invariant = { λ a. IsKept a.block a.slots.entries a.index };
}

impl PageCache {
    ghost use Rattle.vx_pages.specs.Lending.{EndsAs};

    /// No page, with the memory for 1,024 of layout 1.
    pub fn new(alloc: Global) -> Result<Self, AllocError>
        ensures { IfOk result (λ cache. cache ≡ record { block = 1024; entries = [] }) }
    {
        PageCache::with(alloc, Geom::layout1())
    }

    /// No page, with the memory for 1,024 of a layout.
    pub fn with(alloc: Global, geom: Geom) -> Result<Self, AllocError>
        ensures { IfOk result (λ cache. cache ≡ record { block = geom.block; entries = [] }) }
    {
        let slots = unused_slots(alloc, geom.block)?;
        let index = SlotIndex::new(alloc)?;
        Ok(PageCache {
            block: geom.block,
            slots,
            index,
        })
    }

    /// The bytes in a page.
    pub fn block(&self) -> u32
        ensures { result ≡ self.now.block }
    {
        self.block
    }

    /// The bytes of a page, which is then the most recent, if it is there.
    pub fn get(&mut self, ino: Ino, p: Page) -> Option<&[u8]>
        ensures* front { sem 𝓛 (EndsAs self.entry (record self.old { entries = to_front ino p self.old.entries })) }
        ensures bytes { option_copied result ≡ option_map (λ e. e.bytes) (find ino p self.old.entries) }
        ensures size { IfSome result (λ b. length b.now ≡ self.old.block) }
    {
        if !self.promote(ino, p) {
            return None;
        }
        self.peek(ino, p)
    }

    /// Makes a page the most recent, and answers whether it is there.
    pub fn promote(&mut self, ino: Ino, p: Page) -> bool
        ensures answer { result ≡ is_some (find ino p self.old.entries) }
        ensures front { self.new ≡ record self.old { entries = to_front ino p self.old.entries } }
    {
        match self.index.find(ino, p) {
            Some(number) => self.slots.promote(&number),
            None => false,
        }
    }

    /// The bytes of a page, if it is there. The order stays as it is.
    pub fn peek(&self, ino: Ino, p: Page) -> Option<&[u8]>
        ensures bytes { option_copied result ≡ option_map (λ e. e.bytes) (find ino p self.now.entries) }
        ensures size { IfSome result (λ b. length b.now ≡ self.now.block) }
    {
        match self.index.find(ino, p) {
            Some(number) => match self.slots.peek(&number) {
                Some(slot) => Some(slot.bytes()),
                None => None,
            },
            None => None,
        }
    }

    /// Writes into a page, which is then changed and the most recent, and answers whether it is there.
    pub fn write(&mut self, ino: Ino, p: Page, from: u32, bytes: &[u8]) -> bool
        requires { from + length bytes.now ≤ self.old.block }
        ensures answer { result ≡ is_some (find ino p self.old.entries) }
        ensures written { self.new ≡ record self.old { entries = to_front ino p (edit ino p (written from bytes.now) self.old.entries) } }
    {
        match self.index.find(ino, p) {
            Some(number) => match self.slots.peek_mut(&number) {
                Some(slot) => {
                    slot.write(from, bytes);
                    self.slots.promote(&number)
                }
                None => false,
            },
            None => false,
        }
    }

    /// Adds a page, unchanged and the most recent. In a full cache it takes the place of the least recently used page that is unchanged; where all are changed, the answer is false and nothing changes.
    pub fn put(&mut self, ino: Ino, p: Page, page: &[u8]) -> bool
        requires absent { find ino p self.old.entries ≡ None }
        requires size { length page.now ≡ self.old.block }
        ensures answer { result ≡ is_some (with_room self.old.entries) }
        ensures added { self.new ≡ record self.old { entries = with_put (record { ino = ino; page = p; bytes = page.now; changed = false }) self.old.entries } }
    {
        match spare_slot(&self.slots, &self.index) {
            Some(number) => {
                forget(&self.slots, &mut self.index, number);
                fill(&mut self.slots, number, ino, p, page);
                self.index.insert(ino, p, number);
                true
            }
            None => false,
        }
    }

    /// Whether a page is changed, if it is there. The order stays as it is.
    pub fn is_changed(&self, ino: Ino, p: Page) -> Option<bool>
        ensures { result ≡ option_map (λ e. e.changed) (find ino p self.now.entries) }
    {
        match self.index.find(ino, p) {
            Some(number) => match self.slots.peek(&number) {
                Some(slot) => Some(slot.is_changed()),
                None => None,
            },
            None => None,
        }
    }

    /// How many pages are changed.
    pub fn changed(&self) -> u32
        ensures { result ≡ count_by (λ e. e.changed) self.now.entries }
    {
        count_changed(&self.slots)
    }

    /// The least recently used page that is changed.
    pub fn oldest_dirty(&self) -> Option<(Ino, Page)>
        ensures { result ≡ last_changed self.now.entries }
    {
        last_changed_page(&self.slots)
    }

    /// Marks a page unchanged. The order stays as it is.
    pub fn clean(&mut self, ino: Ino, p: Page)
        ensures { self.new ≡ record self.old { entries = edit ino p cleaned self.old.entries } }
    {
        if let Some(number) = self.index.find(ino, p) {
            if let Some(slot) = self.slots.peek_mut(&number) {
                slot.clean();
            }
        }
    }

    /// At most 1,024 pages are there, each once and with all its bytes.
    pub fn facts(&self)
        ensures { IsCache self.now }
    {
        // Its clause says that no number comes twice.
        let _count = self.slots.len();
    }

    /// Drops the file's pages from `p` on.
    pub fn drop_from(&mut self, ino: Ino, p: Page)
        ensures { self.new ≡ record self.old { entries = dropped_from ino p self.old.entries } }
    {
        free_from(&mut self.slots, &mut self.index, ino, p);
    }
}

// Every slot, with no page in any.
fn unused_slots(alloc: Global, block: u32) -> Result<LruCache<u32, PageSlot>, AllocError>
    ensures count { IfOk result (λ slots. length slots.entries ≡ 1024) }
    ensures each { IfOk result (λ slots. AllByRecursion (IsSlot block) slots.entries) }
    ensures unused { IfOk result (λ slots. AllByRecursion (λ s. s.1.used ≡ false) slots.entries) }
{
    let mut slots = LruCache::new(alloc, NonZeroUsize::new(1024).unwrap_or(NonZeroUsize::MIN))?;
    for number in 0..PAGES {
        let slot = PageSlot::with(alloc, block)?;
        match slots.put(number, slot) {
            Ok(_) => {}
            Err(_) => return Err(AllocError),
        }
    }
    Ok(slots)
}

// The slot that a new page gets: the first unused one, or else that of the last unchanged page, which a full cache finds from the end.
fn spare_slot(slots: &LruCache<u32, PageSlot>, index: &SlotIndex) -> Option<u32>
    requires count { length slots.now.entries ≡ 1024 }
    requires few { length index.now ≤ length (listed slots.now.entries) }
    ensures spare { result ≡ slot_for_new None slots.now.entries }
    ensures distinct { IsDistinct nat_eq (keys_of slots.now.entries) }
{
    // Its clause says that no number comes twice.
    let _count = slots.len();
    if index.len() < PAGES as usize {
        first_spare(slots)
    } else {
        last_unchanged(slots)
    }
}

// The first unused slot, or else that of the last unchanged page.
fn first_spare(slots: &LruCache<u32, PageSlot>) -> Option<u32>
    ensures { result ≡ slot_for_new None slots.now.entries }
{
    let mut last = None;
    for (number, slot) in slots.iter() {
        if !slot.is_used() {
            return Some(*number);
        }
        if !slot.is_changed() {
            last = Some(*number);
        }
    }
    last
}

// The last slot whose page is unchanged.
fn last_unchanged(slots: &LruCache<u32, PageSlot>) -> Option<u32>
    ensures { result ≡ last_unchanged_slot None slots.now.entries }
{
    for (number, slot) in slots.iter().rev() {
        let changed = slot.is_changed();
        if !changed {
            return Some(*number);
        }
    }
    None
}

// Puts a page into a slot, which comes first then.
fn fill(slots: &mut LruCache<u32, PageSlot>, number: u32, ino: Ino, page: Page, bytes: &[u8])
    requires there { IsSome (lookup (nat_eq number) slots.old.entries) }
    requires each { AllByRecursion (IsSlot (length bytes.now)) slots.old.entries }
    ensures { slots.new ≡ lru_cache ((number, record { used = true; entry = record { ino = ino; page = page; bytes = bytes.now; changed = false } }) ∷ remove_entry (nat_eq number) slots.old.entries) slots.old.cap }
{
    if let Some(slot) = slots.peek_mut(&number) {
        slot.fill(ino, page, bytes);
        slots.promote(&number);
    }
}

// How many pages are changed.
fn count_changed(slots: &LruCache<u32, PageSlot>) -> u32
    requires { length slots.now.entries ≤ 1024 }
    ensures { result ≡ changed_slots slots.now.entries }
{
    let mut count = 0;
    for (_number, slot) in slots.iter() {
        if slot.is_used() && slot.is_changed() {
            count += 1;
        }
    }
    count
}

// The last page that is changed.
fn last_changed_page(slots: &LruCache<u32, PageSlot>) -> Option<(Ino, Page)>
    ensures { result ≡ last_changed_slot None slots.now.entries }
{
    for (_number, slot) in slots.iter().rev() {
        if slot.is_used() && slot.is_changed() {
            return Some(slot.page());
        }
    }
    None
}

// Takes the page of a slot out of the index, if one stands there.
fn forget(slots: &LruCache<u32, PageSlot>, index: &mut SlotIndex, number: u32)
    requires there { IsSome (lookup (nat_eq number) slots.now.entries) }
    requires tied { AreTied index.old slots.now.entries }
    requires few { length index.old ≤ length (listed slots.now.entries) }
    ensures others { (ino page : ℕ) → slot_at ino page index.new ≡ but number (slot_at ino page index.old) }
    ensures few { length index.new ≤ length (listed (remove_entry (nat_eq number) slots.now.entries)) }
{
    if let Some(slot) = slots.peek(&number) {
        if slot.is_used() {
            let (ino, page) = slot.page();
            index.remove(ino, page);
        }
    }
}

// The file's pages from `page` on no longer stand in any slot.
fn free_from(slots: &mut LruCache<u32, PageSlot>, index: &mut SlotIndex, ino: Ino, page: Page)
    requires tied { AreTied index.old slots.old.entries }
    requires short { length index.old ≤ 1024 }
    ensures dropped { listed slots.new.entries ≡ dropped_from ino page (listed slots.old.entries) }
    ensures kept { (block : ℕ) → IsKept block slots.old.entries index.old → IsKept block slots.new.entries index.new }
{
    for _ in 0..PAGES {
        match index.first_from(ino, page) {
            Some(first) => free_page(slots, index, ino, first),
            None => return,
        }
    }
}

// A page that stands in a slot is dropped from it.
fn free_page(slots: &mut LruCache<u32, PageSlot>, index: &mut SlotIndex, ino: Ino, page: Page)
    requires tied { AreTied index.old slots.old.entries }
    requires there { IsSome (slot_at ino page index.old) }
    ensures dropped { listed slots.new.entries ≡ without ino page (listed slots.old.entries) }
    ensures tied { AreTied index.new slots.new.entries }
    ensures fewer { length index.new + 1 ≡ length index.old }
    ensures kept { (block : ℕ) → IsKept block slots.old.entries index.old → IsKept block slots.new.entries index.new }
{
    // Its clause says that no number comes twice.
    let _count = slots.len();
    if let Some(number) = index.remove(ino, page) {
        if let Some(slot) = slots.peek_mut(&number) {
            slot.free();
        }
    }
}
