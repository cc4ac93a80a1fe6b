//! A number for each of many pages, found by inode and page.
ghost use Rattle.std.specs.Prelude.{◌≡◌, ◌⊎◌, ◌+◌, ◌<◌, ◌≤◌, [], Some, None, true, length, IfOk, IfErr, is_some, nat_eq, if◌then◌else◌, vec_capacity};
ghost use Rattle.std.specs.List.{list_any, filter};
ghost use Rattle.vx_flush.specs.Entries.{is_of, kept_at, precedes, IsRising, IsPlace, Keeps, Drops, StandsAt, LacksAt, stays, zeroed};

use std::alloc::{AllocError, Global};
use std::marker::Model;
use vx_base::{Ino, Page};

/// An inode and a page of it, and the page's number.
type Entry = ((Ino, Page), u64);

/// The most pages that have a number.
pub const MOST_PAGES: usize = 262_144;

/// The numbers of pages, found by binary search.
#[derive(Drop)]
pub struct PageNumbers {
    // Rising in inode and page.
    entries: Vec<Entry>,
}

impl Model for PageNumbers {
    ghost use Rattle.std.specs.Prelude.{◌≤◌, List, length, vec_capacity};
    ghost use Rattle.vx_flush.specs.Entries.{Numbers, IsRising};

    ghost Value = { Numbers };

    ghost view = { λ a. a.entries.items };

    ghost invariant = { λ a. IsRising a.entries.items × (length a.entries.items ≤ 262144) × (262144 ≤ vec_capacity a.entries) };
}

impl PageNumbers {
    /// No page, with the memory for 262,144.
    pub fn new(alloc: Global) -> Result<Self, AllocError>
        ensures { IfOk result (λ numbers. numbers ≡ []) }
    {
        let entries = Vec::with_capacity(alloc, MOST_PAGES)?;
        Ok(PageNumbers { entries })
    }

    /// How many pages have a number.
    pub fn len(&self) -> usize
        ensures number { result ≡ length self.now }
        ensures limit { length self.now ≤ 262144 }
        ensures rising { IsRising self.now }
    {
        self.entries.len()
    }

    /// The number of a page, if it has one.
    pub fn get(&self, ino: Ino, page: Page) -> Option<u64>
        ensures { result ≡ kept_at ino page self.now }
    {
        number_of(self.entries.as_slice(), ino, page)
    }

    /// Whether a page has this number.
    pub fn any_is(&self, number: u64) -> bool
        ensures any { result ≡ list_any (λ e. nat_eq e.1 number) self.now }
        ensures rising { IsRising self.now }
    {
        any_is(self.entries.as_slice(), number)
    }

    /// Gives a page this number, in place of one that it has.
    pub fn set(&mut self, ino: Ino, page: Page, number: u64)
        requires room { (is_some (kept_at ino page self.old) ≡ true) ⊎ (length self.old < 262144) }
        ensures set { Keeps ino page (Some number) self.old self.new }
        ensures count { length self.new ≡ length self.old + (if is_some (kept_at ino page self.old) then 0 else 1) }
    {
        match find(self.entries.as_slice(), ino, page) {
            Ok(at) => self.entries[at] = ((ino, page), number),
            Err(at) => match self.entries.insert(at, ((ino, page), number)) {
                Ok(()) => {}
                Err(_) => unreachable!(),
            },
        }
    }

    /// Takes a page's number away, if it has one.
    pub fn remove(&mut self, ino: Ino, page: Page)
        ensures removed { Keeps ino page None self.old self.new }
        ensures count { length self.new + (if is_some (kept_at ino page self.old) then 1 else 0) ≡ length self.old }
    {
        if let Ok(at) = find(self.entries.as_slice(), ino, page) {
            self.entries.remove(at);
        }
    }

    /// Takes the numbers of the inode's pages from `page` on away.
    pub fn drop_from(&mut self, ino: Ino, page: Page)
        ensures dropped { Drops ino page self.old self.new }
        ensures count { length self.new ≤ length self.old }
    {
        let at = place_of(self.entries.as_slice(), ino, page);
        if at < self.entries.len() && self.entries[at].0.0 == ino {
            keep_others(&mut self.entries, ino, page);
        }
    }

    /// Makes every number 0.
    pub fn zero(&mut self)
        ensures { self.new ≡ zeroed self.old }
    {
        zero_each(&mut self.entries);
    }
}

// The number of a page.
fn number_of(entries: &[Entry], ino: Ino, page: Page) -> Option<u64>
    requires { IsRising entries.now }
    ensures { result ≡ kept_at ino page entries.now }
{
    match find(entries, ino, page) {
        Ok(at) => Some(entries[at].1),
        Err(_) => None,
    }
}

// Whether an entry has this number.
fn any_is(entries: &[Entry], number: u64) -> bool
    ensures { result ≡ list_any (λ e. nat_eq e.1 number) entries.now }
{
    entries.iter().any(|entry| entry.1 == number)
}

// Keeps the entries of other inodes and of earlier pages.
fn keep_others(entries: &mut Vec<Entry>, ino: Ino, page: Page)
    ensures items { entries.new.items ≡ filter (stays ino page) entries.old.items }
    ensures capacity { vec_capacity entries.new ≡ vec_capacity entries.old }
{
    entries.retain(|entry| stays(entry, ino, page));
}

// Makes every number 0.
fn zero_each(entries: &mut Vec<Entry>)
    ensures items { entries.new.items ≡ zeroed entries.old.items }
    ensures capacity { vec_capacity entries.new ≡ vec_capacity entries.old }
{
    for i in 0..entries.len() {
        entries[i] = (entries[i].0, 0);
    }
}

// The place of the page's entry, or where it would be put.
fn find(entries: &[Entry], ino: Ino, page: Page) -> Result<usize, usize>
    requires { IsRising entries.now }
    ensures found { IfOk result (StandsAt ino page entries.now) }
    ensures missing { IfErr result (LacksAt ino page entries.now) }
{
    let at = place_of(entries, ino, page);
    if at < entries.len() && is_of(&entries[at], ino, page) {
        Ok(at)
    } else {
        Err(at)
    }
}

// The first place whose entry doesn't stand before the page's.
fn place_of(entries: &[Entry], ino: Ino, page: Page) -> usize
    requires { IsRising entries.now }
    ensures bound { result ≤ length entries.now }
    ensures place { IsPlace ino page entries.now result }
{
    entries.partition_point(|entry| precedes(entry, ino, page))
}

// Whether the entry is the page's.
fn is_of(entry: &Entry, ino: Ino, page: Page) -> bool
    ensures { result ≡ is_of ino page entry.now }
{
    entry.0.0 == ino && entry.0.1 == page
}

// Whether the entry stands before the page's.
fn precedes(entry: &Entry, ino: Ino, page: Page) -> bool
    ensures { result ≡ precedes ino page entry.now }
{
    let (at_ino, at_page) = entry.0;
    at_ino < ino || (at_ino == ino && at_page < page)
}

// Whether the entry is of another inode, or of an earlier page.
fn stays(entry: &Entry, ino: Ino, page: Page) -> bool
    ensures { result ≡ stays ino page entry.now }
{
    if entry.0.0 == ino {
        entry.0.1 < page
    } else {
        true
    }
}
