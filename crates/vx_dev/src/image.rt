//! Contents of a disk, sector by sector.
ghost use Rattle.std.specs.Prelude.{◌≡◌, ◌<◌, ℕ, [], All, IfOk, length, replicate, slice_get, slice_set};
ghost use Rattle.vx_dev.specs.Tape.{IsSector};

use std::alloc::{AllocError, Global};
use std::marker::Model;

/// The bytes of each sector of a disk.
#[derive(Debug, Drop)]
pub struct Image {
    sectors: Vec<[u8; 512]>,
}

impl Model for Image {
    ghost use Rattle.std.specs.Prelude.{List, ℕ, All};
    ghost use Rattle.vx_dev.specs.Tape.{IsSector};

    ghost Value = { List (List ℕ) };

    ghost view = { λ a. a.sectors.items };

    ghost invariant = { λ a. All IsSector a.sectors.items };
}

impl Image {
    /// So many sectors of zeros.
    pub fn zeroed(alloc: Global, sectors: u64) -> Result<Self, AllocError>
        ensures { IfOk result (λ image. image ≡ replicate sectors (replicate 512 0)) }
    {
        let mut zeros = Vec::with_capacity(alloc, sectors as usize)?;
        for _n in 0..sectors {
            zeros.push([0; 512])?;
        }
        Ok(Image { sectors: zeros })
    }

    /// The number of sectors.
    pub fn len(&self) -> u64
        ensures length { result ≡ length self.now }
        ensures sectors { All IsSector self.now }
    {
        self.sectors.len() as u64
    }

    pub fn sector(&self, s: u64) -> &[u8; 512]
        requires { s < length self.now }
        ensures { slice_get self.now s ≡ Some result.now }
    {
        &self.sectors[s as usize]
    }

    pub fn set(&mut self, s: u64, bytes: &[u8; 512])
        requires { s < length self.old }
        ensures { self.new ≡ slice_set self.old s bytes.now }
    {
        self.sectors[s as usize] = *bytes;
    }

    pub fn as_slice(&self) -> &[[u8; 512]]
        ensures { result.now ≡ self.now }
    {
        self.sectors.as_slice()
    }
}

impl Clone for Image {
    ghost is_clone = { λ x y. y ≡ x };

    fn clone(&self) -> Result<Image, AllocError> {
        let sectors = Vec::from_slice(*self.sectors.allocator(), self.sectors.as_slice())?;
        Ok(Image { sectors })
    }
}
