//! Committed sectors that are not home yet.
ghost use Rattle.std.specs.Prelude.{◌≡◌, ◌⊎◌, ◌<◌, ◌≤◌, ◌+◌, [], IfOk, IfErr, OnOk, OnErr, length, All, min, option_copied, slice_range};
ghost use Rattle.vx_base.specs.Faults.{HasCause};
ghost use Rattle.vx_log.specs.Batches.{noted_at, with_notes, batch_set, IsPlaceOf, StandsAt, LacksAt};
ghost use Rattle.vx_dev.specs.Runs.{Ran, BrokeOff, puts};
ghost use Rattle.vx_home.specs.Homes.{IsHomes, HasPlace};
ghost use Rattle.vx_home.specs.Indexes.{ArePlaces, named, bare};

use std::alloc::{AllocError, Global};
use std::marker::Model;
use vx_base::SectorNo;
use vx_dev::{BlockDev, DevFault, run_laws};
use vx_log::{AfterImage, note_laws, order_laws};

/// The most sectors that are noted.
const MOST_SECTORS: usize = 4096;

/// The most sectors that a stage writes.
const STAGE_SECTORS: u32 = 8;

/// The last committed after-image of each sector that is not home yet.
#[derive(Drop)]
pub struct Homes {
    /// The sectors, rising, each with the place of its image.
    index: Vec<(SectorNo, usize)>,
    /// The images, in the order in which their sectors came.
    images: Vec<[u8; 512]>,
}

impl Model for Homes {
    ghost use Rattle.std.specs.Prelude.{ℕ, ◌≤◌, List, vec_capacity};
    ghost use Rattle.vx_home.specs.Indexes.{IsIndex, named};

    ghost Value = { List (ℕ × List ℕ) };

    ghost view = { λ h. named h.index.items h.images.items };

    ghost invariant = { λ h. IsIndex h.index.items h.images.items × (4096 ≤ vec_capacity h.index) × (4096 ≤ vec_capacity h.images) };
}

impl Homes {
    /// Nothing noted, and memory for all that ever will be.
    pub fn new(alloc: Global) -> Result<Self, AllocError>
        ensures { IfOk result (λ homes. homes ≡ []) }
    {
        let index = Vec::with_capacity(alloc, MOST_SECTORS)?;
        let images = Vec::with_capacity(alloc, MOST_SECTORS)?;
        Ok(Homes { index, images })
    }

    /// The number of sectors that are noted, at most 4,096.
    pub fn len(&self) -> u32
        ensures number { result ≡ length self.now }
        ensures homes { IsHomes self.now }
    {
        self.index.len() as u32
    }

    /// What is noted of a sector.
    pub fn get(&self, s: SectorNo) -> Option<&[u8; 512]>
        ensures { option_copied result ≡ noted_at self.now s }
    {
        // The proof rests on this law; nothing runs here.
        note_laws();
        match find(self.index.as_slice(), s) {
            Ok(at) => Some(&self.images[self.index[at].1]),
            Err(_) => None,
        }
    }

    /// Notes what a sector is to hold, in place of what was noted of it.
    pub fn note(&mut self, s: SectorNo, image: &[u8; 512])
        requires { HasPlace self.old s }
        ensures { self.new ≡ batch_set self.old s image.now }
    {
        // The proof rests on this law; nothing runs here.
        order_laws();
        match find(self.index.as_slice(), s) {
            Ok(at) => self.images[self.index[at].1] = *image,
            Err(at) => {
                let place = self.images.len();
                match self.images.push(*image) {
                    Ok(()) => {}
                    Err(_) => unreachable!(),
                }
                match self.index.insert(at, (s, place)) {
                    Ok(()) => {}
                    Err(_) => unreachable!(),
                }
            }
        }
    }

    /// Notes all after-images of a batch.
    pub fn note_all(&mut self, batch: &[AfterImage])
        requires { length self.old + length batch.now ≤ 4096 }
        ensures { self.new ≡ with_notes self.old batch.now }
    {
        note_each(self, batch);
    }

    /// Writes up to eight noted sectors home, from number `from` on, and answers up to which number. They stay noted.
    pub fn put_some<D: BlockDev>(&self, dev: &mut D, from: u32) -> Result<u32, DevFault>
        requires from { from ≤ length self.now }
        requires inside { All (λ e. e.0 < (D.state dev.old).size) self.now }
        ensures homes { IsHomes self.now }
        ensures end { IfOk result (λ end. end ≡ min (from + 8) (length self.now)) }
        ensures ran { OnOk result (Ran (puts (slice_range self.now from (min (from + 8) (length self.now)))) (D.state dev.old) (D.state dev.new)) }
        ensures certain { OnOk result ((D.state dev.new).doubt ≡ (D.state dev.old).doubt) }
        ensures broke { OnErr result (BrokeOff (slice_range self.now from (min (from + 8) (length self.now))) (D.state dev.old) (D.state dev.new)) }
        ensures size { (D.state dev.new).size ≡ (D.state dev.old).size }
        ensures later { (D.state dev.old).count ≤ (D.state dev.new).count }
        ensures reads { (D.state dev.new).read_faults ≡ (D.state dev.old).read_faults }
        ensures cause { HasCause (D.state dev.old).write_faults (D.state dev.new).write_faults result }
    {
        let count = self.len();
        let end = (from + STAGE_SECTORS).min(count);
        put_each(
            dev,
            &self.index.as_slice()[from as usize..end as usize],
            self.images.as_slice(),
        )?;
        Ok(end)
    }

    /// Forgets all that is noted, once it is home; the memory stays.
    pub fn clear(&mut self)
        ensures { self.new ≡ [] }
    {
        self.index.clear();
        self.images.clear();
    }

    /// Writes all noted sectors home, in rising order, and forgets them. After a fault all stay noted.
    pub fn put_all<D: BlockDev>(&mut self, dev: &mut D) -> Result<(), DevFault>
        requires { All (λ e. e.0 < (D.state dev.old).size) self.old }
        ensures ran { OnOk result (Ran (puts self.old) (D.state dev.old) (D.state dev.new)) }
        ensures certain { OnOk result ((D.state dev.new).doubt ≡ (D.state dev.old).doubt) }
        ensures empty { OnOk result (self.new ≡ []) }
        ensures broke { OnErr result (BrokeOff self.old (D.state dev.old) (D.state dev.new)) }
        ensures kept { OnErr result (self.new ≡ self.old) }
        ensures size { (D.state dev.new).size ≡ (D.state dev.old).size }
        ensures later { (D.state dev.old).count ≤ (D.state dev.new).count }
        ensures reads { (D.state dev.new).read_faults ≡ (D.state dev.old).read_faults }
        ensures cause { HasCause (D.state dev.old).write_faults (D.state dev.new).write_faults result }
    {
        put_each(dev, self.index.as_slice(), self.images.as_slice())?;
        self.index.clear();
        self.images.clear();
        Ok(())
    }
}

/// Notes one after-image after another.
fn note_each(homes: &mut Homes, batch: &[AfterImage])
    requires { length homes.old + length batch.now ≤ 4096 }
    ensures { homes.new ≡ with_notes homes.old batch.now }
{
    // The proof rests on this law; nothing runs here.
    note_laws();
    for entry in batch {
        homes.note(entry.0, &entry.1);
    }
}

/// Writes one sector after another.
fn put_each<D: BlockDev>(
    dev: &mut D,
    index: &[(SectorNo, usize)],
    images: &[[u8; 512]],
) -> Result<(), DevFault>
    requires places { ArePlaces (length images.now) index.now }
    requires short { length images.now ≤ 4096 }
    requires inside { All (λ e. e.0 < (D.state dev.old).size) (named index.now images.now) }
    ensures ran { OnOk result (Ran (puts (named index.now images.now)) (D.state dev.old) (D.state dev.new)) }
    ensures certain { OnOk result ((D.state dev.new).doubt ≡ (D.state dev.old).doubt) }
    ensures broke { OnErr result (BrokeOff (named index.now images.now) (D.state dev.old) (D.state dev.new)) }
    ensures size { (D.state dev.new).size ≡ (D.state dev.old).size }
    ensures later { (D.state dev.old).count ≤ (D.state dev.new).count }
    ensures reads { (D.state dev.new).read_faults ≡ (D.state dev.old).read_faults }
    ensures cause { HasCause (D.state dev.old).write_faults (D.state dev.new).write_faults result }
{
    // The proof rests on this law; nothing runs here.
    run_laws();
    for entry in index {
        dev.write(u64::from(entry.0.get()), &images[entry.1])?;
    }
    Ok(())
}

/// The place of the sector in the index, or where it would be put.
fn find(index: &[(SectorNo, usize)], s: SectorNo) -> Result<usize, usize>
    requires { IsHomes (bare index.now) }
    ensures found { IfOk result (StandsAt (bare index.now) s) }
    ensures missing { IfErr result (LacksAt (bare index.now) s) }
{
    // The proof rests on this law; nothing runs here.
    order_laws();
    let at = place_of(index, s);
    if at < index.len() && index[at].0 == s {
        Ok(at)
    } else {
        Err(at)
    }
}

/// The first place of the index whose sector is not below `s`.
fn place_of(index: &[(SectorNo, usize)], s: SectorNo) -> usize
    requires { IsHomes (bare index.now) }
    ensures { IsPlaceOf (bare index.now) s result }
{
    // The proof rests on this law; nothing runs here.
    order_laws();
    index.partition_point(|e| e.0.get() < s.get())
}
