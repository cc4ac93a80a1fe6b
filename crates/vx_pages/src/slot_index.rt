//! Where each page stands, by inode and page.
ghost use Rattle.std.specs.Prelude.{◌≡◌, ◌+◌, ◌<◌, ◌≤◌, [], None, length, IfOk, IfSome, IfNone, IsSome, is_some, if◌then◌else◌};
ghost use Rattle.vx_pages.specs.Indexes.{is_of, slot_at, precedes, IsRising, IsPlace, Enters, Leaves, LacksFrom};

use std::alloc::{AllocError, Global};
use std::marker::Model;
use vx_base::{Ino, Page};

/// An inode and a page of it, and the number of the slot in which the page stands.
type Tie = ((Ino, Page), u32);

/// The most pages that have a slot.
const MOST_PAGES: usize = 1024;

/// The number of each page's slot, found by binary search.
#[derive(Drop)]
pub struct SlotIndex {
    // Rising in inode and page.
    ties: Vec<Tie>,
}

impl Model for SlotIndex {
    ghost use Rattle.std.specs.Prelude.{◌≤◌, List, vec_capacity};
    ghost use Rattle.vx_pages.specs.Indexes.{Tie, IsRising};

    ghost Value = { List Tie };

    ghost view = { λ a. a.ties.items };

    ghost invariant = { λ a. IsRising a.ties.items × (1024 ≤ vec_capacity a.ties) };
}

impl SlotIndex {
    /// No page, with the memory for 1,024.
    pub fn new(alloc: Global) -> Result<Self, AllocError>
        ensures { IfOk result (λ index. index ≡ []) }
    {
        let ties = Vec::with_capacity(alloc, MOST_PAGES)?;
        Ok(SlotIndex { ties })
    }

    /// How many pages have a slot.
    pub fn len(&self) -> usize
        ensures { result ≡ length self.now }
    {
        self.ties.len()
    }

    /// The number of a page's slot, if it has one.
    pub fn find(&self, ino: Ino, page: Page) -> Option<u32>
        ensures { result ≡ slot_at ino page self.now }
    {
        slot_of(self.ties.as_slice(), ino, page)
    }

    /// The first of the inode's pages from `page` on that has a slot.
    pub fn first_from(&self, ino: Ino, page: Page) -> Option<Page>
        ensures found { IfSome result (λ q. (page ≤ q) × IsSome (slot_at ino q self.now)) }
        ensures none { IfNone result (LacksFrom ino page self.now) }
    {
        first_page_from(self.ties.as_slice(), ino, page)
    }

    /// Notes the slot of a page that has none.
    pub fn insert(&mut self, ino: Ino, page: Page, slot: u32)
        requires new { slot_at ino page self.old ≡ None }
        requires room { length self.old < 1024 }
        ensures entered { Enters ino page slot self.old self.new }
        ensures count { length self.new ≡ length self.old + 1 }
    {
        let at = place_of(self.ties.as_slice(), ino, page);
        match self.ties.insert(at, ((ino, page), slot)) {
            Ok(()) => {}
            Err(_) => unreachable!(),
        }
    }

    /// Forgets the slot of a page, and answers it.
    pub fn remove(&mut self, ino: Ino, page: Page) -> Option<u32>
        ensures slot { result ≡ slot_at ino page self.old }
        ensures left { Leaves ino page self.old self.new }
        ensures count { length self.new + (if is_some result then 1 else 0) ≡ length self.old }
    {
        let at = place_of(self.ties.as_slice(), ino, page);
        if at < self.ties.len() && is_of(&self.ties[at], ino, page) {
            let (_, slot) = self.ties.remove(at);
            Some(slot)
        } else {
            None
        }
    }
}

// The slot of a page.
fn slot_of(ties: &[Tie], ino: Ino, page: Page) -> Option<u32>
    requires { IsRising ties.now }
    ensures { result ≡ slot_at ino page ties.now }
{
    let at = place_of(ties, ino, page);
    if at < ties.len() && is_of(&ties[at], ino, page) {
        Some(ties[at].1)
    } else {
        None
    }
}

// The first of the inode's pages from `page` on.
fn first_page_from(ties: &[Tie], ino: Ino, page: Page) -> Option<Page>
    requires { IsRising ties.now }
    ensures found { IfSome result (λ q. (page ≤ q) × IsSome (slot_at ino q ties.now)) }
    ensures none { IfNone result (LacksFrom ino page ties.now) }
{
    let at = place_of(ties, ino, page);
    if at < ties.len() && ties[at].0.0 == ino {
        Some(ties[at].0.1)
    } else {
        None
    }
}

// The first place whose entry doesn't stand before the page's.
fn place_of(ties: &[Tie], ino: Ino, page: Page) -> usize
    requires { IsRising ties.now }
    ensures bound { result ≤ length ties.now }
    ensures place { IsPlace ino page ties.now result }
{
    ties.partition_point(|tie| precedes(tie, ino, page))
}

// Whether the entry is the page's.
fn is_of(tie: &Tie, ino: Ino, page: Page) -> bool
    ensures { result ≡ is_of ino page tie.now }
{
    tie.0.0 == ino && tie.0.1 == page
}

// Whether the entry stands before the page's.
fn precedes(tie: &Tie, ino: Ino, page: Page) -> bool
    ensures { result ≡ precedes ino page tie.now }
{
    let (at_ino, at_page) = tie.0;
    at_ino < ino || (at_ino == ino && at_page < page)
}
