//! What was read of a device.
ghost use Rattle.std.specs.Prelude.{◌≡◌, ◌<◌, Some, None, IfOk, OnOk, OnErr, length, get_or, set, replicate, option_copied};

use std::alloc::{AllocError, Global};
use std::marker::Model;
use vx_base::SectorNo;

/// What was read of each sector of a volume.
#[derive(Drop)]
pub(crate) struct Kept {
    /// For each sector one more than the index of its bytes, or 0 where it was not read.
    places: Vec<u32>,
    /// The bytes of what was read, in the order of the reads.
    sectors: Vec<[u8; 512]>,
}

impl Model for Kept {
    ghost use Rattle.std.specs.Prelude.{ℕ, ◌≤◌, List, All, Option, length, map};

    ghost Value = { List (Option (List ℕ)) };

    ghost use Rattle.vx_check.specs.Kept.{bytes_at};

    ghost view = { λ k. map (bytes_at k.sectors.items) k.places.items };

    ghost invariant = { λ k. All (λ p. p ≤ length k.sectors.items) k.places.items };
}

impl Kept {
    /// Nothing of so many sectors.
    pub fn new(alloc: Global, volume_sectors: usize) -> Result<Self, AllocError>
        ensures { IfOk result (λ k. k ≡ replicate volume_sectors None) }
    {
        let places = vec![in alloc; 0; volume_sectors]?;
        let sectors = Vec::new(alloc);
        Ok(Kept { places, sectors })
    }

    /// The bytes of a sector that was read.
    pub fn find(&self, s: SectorNo) -> Option<&[u8; 512]>
        ensures { option_copied result ≡ get_or self.now s None }
    {
        let at = s.get() as usize;
        if at >= self.places.len() {
            return None;
        }
        let place = self.places[at] as usize;
        if place == 0 {
            return None;
        }
        Some(&self.sectors[place - 1])
    }

    /// Keeps the bytes of a sector, unless memory is short or the volume has no such sector.
    pub fn keep(&mut self, s: SectorNo, bytes: &[u8; 512]) -> Result<(), AllocError>
        ensures inside { OnOk result (s < length self.old) }
        ensures ok { OnOk result (self.new ≡ set self.old s (Some bytes.now)) }
        ensures err { OnErr result (self.new ≡ self.old) }
    {
        let at = s.get() as usize;
        if at >= self.places.len() {
            return Err(AllocError);
        }
        let Ok(place) = u32::try_from(self.sectors.len() + 1) else {
            return Err(AllocError);
        };
        self.sectors.push(*bytes)?;
        self.places[at] = place;
        Ok(())
    }
}
