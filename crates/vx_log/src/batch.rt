//! The after-images of the sectors that a commit changes.
ghost use Rattle.std.specs.Prelude.{◌≡◌, ◌⊎◌, ◌<◌, ◌≤◌, ◌↔◌, ℕ, [], IsTrue, IfOk, IfErr, length, map, get_or, Contains};
ghost use Rattle.vx_log.specs.Batches.{sectors_of, batch_set, IsBatch, HasRoom, IsPlaceOf, StandsAt, LacksAt};

use std::alloc::{AllocError, Global};
use std::marker::Model;
use vx_base::SectorNo;

/// A sector and the bytes that it is to hold.
pub type AfterImage = (SectorNo, [u8; 512]);

/// The most sectors that a batch has.
const MOST_SECTORS: usize = 400;

/// The after-images of up to 400 sectors, rising in sector.
#[derive(Drop)]
pub struct Batch {
    entries: Vec<AfterImage>,
}

impl Model for Batch {
    ghost use Rattle.std.specs.Prelude.{ℕ, ◌≤◌, List, vec_capacity};
    ghost use Rattle.vx_log.specs.Batches.{IsBatch};

    ghost Value = { List (ℕ × List ℕ) };

    ghost view = { λ b. b.entries.items };

    ghost invariant = { λ b. IsBatch b.entries.items × (400 ≤ vec_capacity b.entries) };
}

impl Batch {
    /// An empty batch, which has taken all the memory that it ever needs.
    pub fn new(alloc: Global) -> Result<Batch, AllocError>
        ensures { IfOk result (λ batch. batch ≡ []) }
    {
        let entries = Vec::with_capacity(alloc, MOST_SECTORS)?;
        Ok(Batch { entries })
    }

    /// Puts the sector's after-image, in place of the one that the batch may have.
    pub fn set(&mut self, s: SectorNo, image: &[u8; 512])
        requires { HasRoom self.old s }
        ensures { self.new ≡ batch_set self.old s image.now }
    {
        match find(self.entries.as_slice(), s) {
            Ok(at) => self.entries[at] = (s, *image),
            Err(at) => match self.entries.insert(at, (s, *image)) {
                Ok(()) => {}
                Err(_) => unreachable!(),
            },
        }
    }

    /// The number of sectors, at most 400.
    pub fn len(&self) -> u32
        ensures number { result ≡ length self.now }
        ensures batch { IsBatch self.now }
    {
        self.entries.len() as u32
    }

    pub fn is_empty(&self) -> bool
        ensures { IsTrue result ↔ (self.now ≡ []) }
    {
        self.entries.is_empty()
    }

    /// Whether the batch has the sector.
    pub fn has(&self, s: SectorNo) -> bool
        ensures { IsTrue result ↔ Contains (sectors_of self.now) s }
    {
        find(self.entries.as_slice(), s).is_ok()
    }

    /// The sector at a place of the batch.
    pub fn sector(&self, i: u32) -> SectorNo
        requires { i < length self.now }
        ensures { result ≡ get_or (sectors_of self.now) i 0 }
    {
        self.entries[i as usize].0
    }

    /// The after-image at a place of the batch.
    pub fn image(&self, i: u32) -> &[u8; 512]
        requires { i < length self.now }
        ensures { result.now ≡ get_or (map (λ e. e.1) self.now) i [] }
    {
        &self.entries[i as usize].1
    }

    /// The after-images, rising in sector.
    pub fn entries(&self) -> &[AfterImage]
        ensures { result.now ≡ self.now }
    {
        self.entries.as_slice()
    }

    /// Takes all sectors out; the memory stays.
    pub fn clear(&mut self)
        ensures { self.new ≡ [] }
    {
        self.entries.clear();
    }
}

/// The place of the sector, or where it would be put.
fn find(entries: &[AfterImage], s: SectorNo) -> Result<usize, usize>
    requires { IsBatch entries.now }
    ensures found { IfOk result (StandsAt entries.now s) }
    ensures missing { IfErr result (LacksAt entries.now s) }
{
    let at = place_of(entries, s);
    if at < entries.len() && entries[at].0 == s {
        Ok(at)
    } else {
        Err(at)
    }
}

/// The first place whose sector is not below `s`.
fn place_of(entries: &[AfterImage], s: SectorNo) -> usize
    requires { IsBatch entries.now }
    ensures { IsPlaceOf entries.now s result }
{
    entries.partition_point(|e| e.0.get() < s.get())
}
