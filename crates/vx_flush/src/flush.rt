//! Pages of files on their way to a device.
ghost use Rattle.std.specs.Prelude.{◌≡◌, ◌≢◌, ◌<◌, ◌≤◌, ◌+◌, ◌*◌, [], ℕ, Some, None, true, false, IfOk, OnOk, OnErr, length, nat_lt, is_some, option_map, if◌then◌else◌};
ghost use Rattle.vx_base.specs.Faults.{HasCause};
ghost use Rattle.vx_dev.specs.Runs.{Ran, BrokeOff, puts};
ghost use Rattle.vx_flush.specs.Entries.{IsRising, Keeps, Drops};
ghost use Rattle.vx_flush.specs.Marks.{Owed, mark_at, is_stable, passed, HasRoom, page_writes};

use crate::page_numbers::{MOST_PAGES, PageNumbers};
use std::alloc::{AllocError, Global};
use std::marker::Model;
use vx_base::{Block, Ino, Page};
use vx_codec::sector_part;
use vx_dev::{BlockDev, DevFault, run_laws};

/// Which pages of files are on the device as they were last put.
///
/// A page that was put is owed a barrier. Once one has passed it is stable: no crash takes back what was put. A page
/// that was never put, was dropped, or whose last write failed has no mark.
#[derive(Drop)]
pub struct Flush {
    /// Each page that has a mark, with the number of barriers that had passed when it was put.
    numbers: PageNumbers,
    /// The number of barriers that have passed since the numbers began.
    barriers: u64,
}

impl Model for Flush {
    ghost use Rattle.vx_flush.specs.Entries.{IsUpTo};
    ghost use Rattle.vx_flush.specs.Marks.{Marks, marks_of};

    ghost Value = { Marks };

    ghost view = { λ f. marks_of f.barriers f.numbers };

    ghost invariant = { λ f. IsUpTo f.barriers f.numbers };
}

impl Flush {
    /// No page has a mark, and there is memory for all that ever will.
    pub fn new(alloc: Global) -> Result<Self, AllocError>
        ensures { IfOk result (λ flush. flush ≡ []) }
    {
        let numbers = PageNumbers::new(alloc)?;
        Ok(Flush {
            numbers,
            barriers: 0,
        })
    }

    /// How many pages have a mark, at most 262,144.
    pub fn len(&self) -> usize
        ensures number { result ≡ length self.now }
        ensures limit { length self.now ≤ 262144 }
        ensures rising { IsRising self.now }
    {
        self.numbers.len()
    }

    /// Whether there is room for one more page with a mark.
    pub fn has_room(&self) -> bool
        ensures { result ≡ nat_lt (length self.now) 262144 }
    {
        self.len() < MOST_PAGES
    }

    /// Whether the page is on the device as it was last put, whatever a crash does.
    pub fn is_stable(&self, ino: Ino, p: Page) -> bool
        ensures { result ≡ is_stable (mark_at ino p self.now) }
    {
        match self.numbers.get(ino, p) {
            Some(number) => number < self.barriers,
            None => false,
        }
    }

    /// Whether any page is owed a barrier.
    pub fn owes(&self) -> bool
        ensures some { result ≡ true → (i : ℕ) × (q : ℕ) × (mark_at i q self.now ≡ Some Owed) }
        ensures none { result ≡ false → (i q : ℕ) → mark_at i q self.now ≢ Some Owed }
    {
        self.numbers.any_is(self.barriers)
    }

    /// Writes a page to its block. It is owed a barrier then; after a fault it has no mark.
    pub fn put_page<D: BlockDev>(
        &mut self,
        dev: &mut D,
        ino: Ino,
        p: Page,
        at: Block,
        page: &[u8; 1024],
    ) -> Result<(), DevFault>
        requires inside { 2 * at + 1 < (D.state dev.old).size }
        requires room { HasRoom self.old ino p }
        ensures put { OnOk result (Ran (puts (page_writes at page.now)) (D.state dev.old) (D.state dev.new)) }
        ensures owed { OnOk result (Keeps ino p (Some Owed) self.old self.new) }
        ensures more { OnOk result (length self.new ≡ length self.old + (if is_some (mark_at ino p self.old) then 0 else 1)) }
        ensures certain { OnOk result ((D.state dev.new).doubt ≡ (D.state dev.old).doubt) }
        ensures broke { OnErr result (BrokeOff (page_writes at page.now) (D.state dev.old) (D.state dev.new)) }
        ensures unmarked { OnErr result (Keeps ino p None self.old self.new) }
        ensures fewer { OnErr result (length self.new + (if is_some (mark_at ino p self.old) then 1 else 0) ≡ length self.old) }
        ensures size { (D.state dev.new).size ≡ (D.state dev.old).size }
        ensures later { (D.state dev.old).count ≤ (D.state dev.new).count }
        ensures reads { (D.state dev.new).read_faults ≡ (D.state dev.old).read_faults }
        ensures cause { HasCause (D.state dev.old).write_faults (D.state dev.new).write_faults result }
    {
        match write_page(dev, at, page) {
            Ok(()) => {
                self.numbers.set(ino, p, self.barriers);
                Ok(())
            }
            Err(fault) => {
                self.numbers.remove(ino, p);
                Err(fault)
            }
        }
    }

    /// Notes that a barrier has passed: each page that was put is stable.
    pub fn after_barrier(&mut self)
        ensures passed { (i q : ℕ) → mark_at i q self.new ≡ option_map passed (mark_at i q self.old) }
        ensures count { length self.new ≡ length self.old }
    {
        if self.barriers == u64::MAX {
            // The numbers begin anew, once in 2^64 barriers.
            self.numbers.zero();
            self.barriers = 1;
        } else {
            self.barriers += 1;
        }
    }

    /// Forgets the marks of the file's pages from `p` on.
    pub fn drop_from(&mut self, ino: Ino, p: Page)
        ensures dropped { Drops ino p self.old self.new }
        ensures count { length self.new ≤ length self.old }
    {
        self.numbers.drop_from(ino, p);
    }
}

/// Writes the halves of a page to the two sectors of its block.
fn write_page<D: BlockDev>(dev: &mut D, at: Block, page: &[u8; 1024]) -> Result<(), DevFault>
    requires { 2 * at + 1 < (D.state dev.old).size }
    ensures ran { OnOk result (Ran (puts (page_writes at page.now)) (D.state dev.old) (D.state dev.new)) }
    ensures certain { OnOk result ((D.state dev.new).doubt ≡ (D.state dev.old).doubt) }
    ensures broke { OnErr result (BrokeOff (page_writes at page.now) (D.state dev.old) (D.state dev.new)) }
    ensures size { (D.state dev.new).size ≡ (D.state dev.old).size }
    ensures later { (D.state dev.old).count ≤ (D.state dev.new).count }
    ensures reads { (D.state dev.new).read_faults ≡ (D.state dev.old).read_faults }
    ensures cause { HasCause (D.state dev.old).write_faults (D.state dev.new).write_faults result }
{
    // The proof rests on this law; nothing runs here.
    run_laws();
    let first = 2 * u64::from(at.get());
    dev.write(first, &sector_part(page, 0))?;
    dev.write(first + 1, &sector_part(page, 1))
}
