//! The records of a log, read from a device.
ghost use Rattle.std.specs.Prelude.{◌≡◌, ◌+◌, ◌<◌, ◌≤◌, ◌^◌, ◌++◌, ◌∷◌, ℕ, List, [], length, map, get_or, IfOk, OnOk, OnErr, Err};
ghost use Rattle.vx_base.specs.Faults.{Rose};
ghost use Rattle.vx_dev.specs.Tape.{Tape, now};
ghost use Rattle.vx_layout.specs.LogForms as forms;
ghost use Rattle.vx_layout.specs.LogForms.{AfterImage as Image, IsRecord, homes_of, log_at, log_sectors, record_sectors};
ghost use Rattle.vx_log.specs.Ends.{IsEnds};
ghost use Rattle.vx_replay.specs.LogReads.{Shows, IsRead, images_of, StandThere, AreRecords, HasNoRecord, EndsBadly};
ghost use Rattle.vx_replay.specs.Refusals.{IsLogRefusal};

use crate::refusal::ReplayRefusal;
use std::alloc::{AllocError, Global};
use std::marker::Model;
use vx_base::SectorNo;
use vx_dev::{BlockDev, DevFault};
use vx_log::{AfterImage, Ends, log_sector, read_descriptor};

/// The after-images of a record.
#[derive(Drop)]
pub struct Record {
    images: Vec<AfterImage>,
}

impl Model for Record {
    ghost use Rattle.std.specs.Prelude.{ℕ, List};

    ghost Value = { List (ℕ × List ℕ) };

    ghost view = { λ r. r.images.items };
}

impl Record {
    pub fn new(alloc: Global) -> Self
        ensures { result ≡ [] }
    {
        Record {
            images: Vec::new(alloc),
        }
    }

    pub fn len(&self) -> usize
        ensures { result ≡ length self.now }
    {
        self.images.len()
    }

    fn push(&mut self, image: AfterImage) -> Result<(), AllocError>
        ensures { OnOk result (self.new ≡ self.old ++ image ∷ []) }
    {
        self.images.push(image)?;
        Ok(())
    }

    pub fn as_slice(&self) -> &[AfterImage]
        ensures { result.now ≡ self.now }
    {
        self.images.as_slice()
    }
}

/// A sector of the device.
pub fn read_sector<D: BlockDev>(dev: &mut D, s: u64) -> Result<[u8; 512], DevFault>
    requires { s < (D.state dev.old).size }
    ensures value { (t : Tape) → Shows (D.state dev.old) t → IfOk result (λ bytes. bytes ≡ now t s) }
    ensures read { IsRead (D.state dev.old) (D.state dev.new) }
    ensures cause { OnErr result (Rose (D.state dev.old).read_faults (D.state dev.new).read_faults) }
{
    let mut sector = [0; 512];
    dev.read(s, &mut sector)?;
    Ok(sector)
}

/// The after-images that stand in the log from a position on, one for each of these homes.
fn read_images<D: BlockDev>(
    alloc: Global,
    dev: &mut D,
    sectors: u32,
    position: u64,
    homes: &[SectorNo],
) -> Result<Record, ReplayRefusal>
    requires some { 0 < sectors }
    requires area { 4 + sectors ≤ (D.state dev.old).size }
    requires limit { position + length homes.now < 2 ^ 64 }
    ensures homes { IfOk result (λ r. homes_of r ≡ homes.now) }
    ensures images { (t : Tape) → Shows (D.state dev.old) t → IfOk result (λ r. StandThere sectors (now t) position (images_of r)) }
    ensures read { IsRead (D.state dev.old) (D.state dev.new) }
    ensures cause { IsLogRefusal (D.state dev.old) (D.state dev.new) result }
    ensures never { (s : ℕ) → result ≡ Err (ReplayRefusal.BadLog s) → ⊥ }
{
    let mut record = Record::new(alloc);
    for i in 0..homes.len() {
        let place = log_sector(sectors, position + i as u64);
        match read_sector(dev, place) {
            Ok(image) => match record.push((homes[i], image)) {
                Ok(()) => {}
                Err(_) => return Err(ReplayRefusal::NoMemory),
            },
            Err(DevFault) => return Err(ReplayRefusal::ReadFault),
        }
    }
    Ok(record)
}

/// The record that begins at a position of the log and ends at `head` or before.
fn read_record<D: BlockDev>(
    alloc: Global,
    dev: &mut D,
    sectors: u32,
    position: u64,
    head: u64,
) -> Result<Record, ReplayRefusal>
    requires some { 0 < sectors }
    requires area { 4 + sectors ≤ (D.state dev.old).size }
    requires before { position < head }
    requires limit { head ≤ 2 ^ 62 }
    ensures form { IfOk result (λ r. IsRecord sectors (D.state dev.old).size r × (position + (1 + length r) ≤ head)) }
    ensures stand { (t : Tape) → Shows (D.state dev.old) t → IfOk result (λ r. StandThere sectors (now t) position (record_sectors position r)) }
    ensures bad { (t : Tape) (s : ℕ) → Shows (D.state dev.old) t → result ≡ Err (ReplayRefusal.BadLog s) → (s ≡ log_at sectors position) × HasNoRecord sectors (D.state dev.old).size (now t) position head }
    ensures read { IsRead (D.state dev.old) (D.state dev.new) }
    ensures cause { IsLogRefusal (D.state dev.old) (D.state dev.new) result }
{
    let place = log_sector(sectors, position);
    let size = dev.sectors();
    match read_sector(dev, place) {
        Ok(sector) => match read_descriptor(&sector, position, sectors, size) {
            Some(descriptor) => {
                let homes = descriptor.homes();
                if head - position <= homes.len() as u64 {
                    return Err(ReplayRefusal::BadLog { sector: place });
                }
                read_images(alloc, dev, sectors, position + 1, homes)
            }
            None => Err(ReplayRefusal::BadLog { sector: place }),
        },
        Err(DevFault) => Err(ReplayRefusal::ReadFault),
    }
}

/// The records of a log that stands so.
pub fn read_records<D: BlockDev>(
    alloc: Global,
    dev: &mut D,
    sectors: u32,
    ends: Ends,
) -> Result<Vec<Record>, ReplayRefusal>
    requires some { 0 < sectors }
    requires area { 4 + sectors ≤ (D.state dev.old).size }
    requires ends { IsEnds sectors ends }
    ensures records { IfOk result (λ v. AreRecords sectors (D.state dev.old).size ends.tail ends.head v.items) }
    ensures stand { (t : Tape) → Shows (D.state dev.old) t → IfOk result (λ v. StandThere sectors (now t) ends.tail (log_sectors ends.tail v.items)) }
    ensures bad { (t : Tape) (s : ℕ) → Shows (D.state dev.old) t → result ≡ Err (ReplayRefusal.BadLog s) → EndsBadly sectors (D.state dev.old).size (now t) ends.tail ends.head s }
    ensures read { IsRead (D.state dev.old) (D.state dev.new) }
    ensures cause { IsLogRefusal (D.state dev.old) (D.state dev.new) result }
{
    let mut records = Vec::new(alloc);
    let mut position = ends.tail;
    while position < ends.head {
        match read_record(alloc, dev, sectors, position, ends.head) {
            Ok(record) => {
                position += 1 + record.len() as u64;
                match records.push(record) {
                    Ok(()) => {}
                    Err(_) => return Err(ReplayRefusal::NoMemory),
                }
            }
            Err(why) => return Err(why),
        }
    }
    Ok(records)
}
