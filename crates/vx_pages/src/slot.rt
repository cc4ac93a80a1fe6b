//! A place in memory for one page.
ghost use Rattle.std.specs.Prelude.{◌≡◌, ◌+◌, ◌≤◌, true, false, length, IfOk};
ghost use Rattle.vx_pages.specs.Pages.{written, cleaned};
ghost use Rattle.vx_pages.specs.Slots.{holds};

use std::alloc::{AllocError, Global};
use std::marker::Model;
use vx_base::{Ino, Page};

/// Memory for one page, and which page stands there if one does.
#[derive(Debug, Drop)]
pub struct PageSlot {
    used: bool,
    ino: Ino,
    page: Page,
    bytes: Vec<u8>,
    changed: bool,
}

impl Model for PageSlot {
    ghost use Rattle.vx_pages.specs.Slots.{Slot};
    ghost use Rattle.vx_pages.specs.Codes.{coded_slot};

    ghost Value = { Slot };

    ghost coded = { coded_slot };

    ghost view = { λ a. record { used = a.used; entry = record { ino = a.ino; page = a.page; bytes = a.bytes.items; changed = a.changed } } };
}

impl PageSlot {
    /// No page, with the memory for one of so many bytes.
    pub fn with(alloc: Global, block: u32) -> Result<Self, AllocError>
        ensures unused { IfOk result (λ slot. slot.used ≡ false) }
        ensures size { IfOk result (λ slot. length slot.entry.bytes ≡ block) }
    {
        let bytes = vec![in alloc; 0; block as usize]?;
        Ok(PageSlot {
            used: false,
            ino: Ino::new(0),
            page: Page::new(0),
            bytes,
            changed: false,
        })
    }

    /// Whether a page stands here.
    pub fn is_used(&self) -> bool
        ensures { result ≡ self.now.used }
    {
        self.used
    }

    /// Whether this page stands here.
    pub fn holds(&self, ino: Ino, page: Page) -> bool
        ensures { result ≡ holds ino page self.now }
    {
        self.used && self.ino == ino && self.page == page
    }

    /// Whether the bytes were changed.
    pub fn is_changed(&self) -> bool
        ensures { result ≡ self.now.entry.changed }
    {
        self.changed
    }

    /// The file and the page of it.
    pub fn page(&self) -> (Ino, Page)
        ensures { result ≡ (self.now.entry.ino, self.now.entry.page) }
    {
        (self.ino, self.page)
    }

    /// The bytes.
    pub fn bytes(&self) -> &[u8]
        ensures { result.now ≡ self.now.entry.bytes }
    {
        self.bytes.as_slice()
    }

    /// The page stands here from now on, unchanged.
    pub fn fill(&mut self, ino: Ino, page: Page, bytes: &[u8])
        requires { length bytes.now ≡ length self.old.entry.bytes }
        ensures { self.new ≡ record { used = true; entry = record { ino = ino; page = page; bytes = bytes.now; changed = false } } }
    {
        self.used = true;
        self.ino = ino;
        self.page = page;
        self.bytes.copy_from_slice(bytes);
        self.changed = false;
    }

    /// Changes the bytes from a place on.
    pub fn write(&mut self, from: u32, bytes: &[u8])
        requires { from + length bytes.now ≤ length self.old.entry.bytes }
        ensures { self.new ≡ record { used = self.old.used; entry = written from bytes.now self.old.entry } }
    {
        let from = from as usize;
        self.bytes[from..from + bytes.len()].copy_from_slice(bytes);
        self.changed = true;
    }

    /// The bytes stand on the device.
    pub fn clean(&mut self)
        ensures { self.new ≡ record { used = self.old.used; entry = cleaned self.old.entry } }
    {
        self.changed = false;
    }

    /// No page stands here any longer.
    pub fn free(&mut self)
        ensures { self.new ≡ record { used = false; entry = self.old.entry } }
    {
        self.used = false;
    }
}
