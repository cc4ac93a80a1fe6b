//! What a stopped image says, before anything is written.
ghost use Rattle.std.specs.Prelude.{◌≡◌, ◌+◌, ◌*◌, ◌<◌, ◌≤◌, ◌^◌, ℕ, List, [], length, take, IfOk, Ok, Err, unwrap_or, vec_capacity};
ghost use Rattle.vx_dev.specs.Tape.{Tape, now};
ghost use Rattle.vx_layout.specs.LogForms.{log_sectors, overlay_all};
ghost use Rattle.vx_layout.specs.Places.{sectors_of};
ghost use Rattle.vx_layout.specs.Supers.{IsSuper, super_bytes, volume_of};
ghost use Rattle.vx_log.specs.Ends.{IsEnds, ends_bytes};
ghost use Rattle.vx_log.specs.Batches.{noted_at};
ghost use Rattle.vx_replay.specs.BadImages.{bad, with_room, checked_super, checked_again, first_super, IsBadSuper, IsBadLog, WhyBadLog};
ghost use Rattle.vx_replay.specs.LogReads.{Shows, IsRead, StandThere, AreRecords, image_count, starts_at};
ghost use Rattle.vx_replay.specs.Refusals.{IsReadRefusal, IsLogRefusal, IsSuperRefusal};
ghost use Rattle.vx_replay.specs.Fronts.{CanLoad, IsFrontOf};
ghost use Rattle.vx_replay.specs.Stopped.{CanCarry, IsReadFrom, noted_all};

use crate::read::{Record, read_records, read_sector};
use crate::refusal::ReplayRefusal;
use std::alloc::{AllocError, Global};
use vx_base::SectorNo;
use vx_dev::{BlockDev, DevFault};
use vx_home::Homes;
use vx_layout::fields::u32_at;
use vx_layout::{BadSuper, Super, sectors_needed};
use vx_log::{Ends, Log, note_laws, read_head};

/// The field of the superblock that is the log's length.
const LOG_FIELD: u32 = 4;

/// The field that is the device's size.
const DEVICE_FIELD: u32 = 9;

/// The sector of the log's head.
const HEAD_SECTOR: u64 = 2;

/// A stopped image, with what its log holds.
#[derive(Drop)]
pub struct Stopped {
    /// The superblock, with the log's records laid over it.
    pub superblock: Super,
    pub log: Log,
    /// The last after-image of each sector that the log names.
    pub homes: Homes,
    /// The records between the log's tail and head.
    pub descriptors: u32,
    /// The after-images that they have.
    pub images: u32,
}

/// The superblock that a sector holds, on a device of so many sectors.
fn checked_super(sector: &[u8; 512], size: u64) -> Result<Super, BadSuper>
    ensures exact { result ≡ checked_super size sector.now }
    ensures found { IfOk result (λ v. IsSuper v × (sector.now ≡ super_bytes v) × (sectors_of (volume_of v) ≤ size)) }
{
    match Super::read(sector) {
        Ok(superblock) => with_room(superblock, size),
        Err(bad) => Err(bad),
    }
}

/// The superblock that the log leaves, which has the log's length in blocks.
fn checked_again(sector: &[u8; 512], log_blocks: u32, size: u64) -> Result<Super, BadSuper>
    ensures exact { result ≡ checked_again size log_blocks sector.now }
    ensures found { IfOk result (λ v. IsSuper v × (sector.now ≡ super_bytes v) × (sectors_of (volume_of v) ≤ size) × (v.log_blocks ≡ log_blocks)) }
{
    match Super::read(sector) {
        Ok(superblock) => {
            if superblock.log_blocks != log_blocks {
                return Err(BadSuper { field: LOG_FIELD });
            }
            with_room(superblock, size)
        }
        Err(bad) => {
            if bad.field > LOG_FIELD && u32_at(sector, 16) != log_blocks {
                return Err(BadSuper { field: LOG_FIELD });
            }
            Err(bad)
        }
    }
}

fn with_room(superblock: Super, size: u64) -> Result<Super, BadSuper>
    ensures exact { result ≡ with_room size (Ok superblock) }
    ensures found { IfOk result (λ v. (v ≡ superblock) × (sectors_of (volume_of v) ≤ size)) }
{
    if size < sectors_needed(superblock.log_blocks, superblock.units) {
        return Err(BadSuper {
            field: DEVICE_FIELD,
        });
    }
    Ok(superblock)
}

/// The last after-image of each sector that these records name.
fn homes_of(alloc: Global, records: &[Record]) -> Result<Homes, AllocError>
    requires { image_count records.now ≤ 4096 }
    ensures { IfOk result (λ homes. homes ≡ noted_all [] records.now) }
{
    // The proof rests on this law; nothing runs here.
    note_laws();
    let mut homes = Homes::new(alloc)?;
    for record in records {
        homes.note_all(record.as_slice());
    }
    Ok(homes)
}

/// The positions at which these records begin, with room for all that a log of so many blocks may have.
fn starts_of(
    alloc: Global,
    log_blocks: u32,
    tail: u64,
    records: &[Record],
) -> Result<Vec<u64>, AllocError>
    requires { tail + length (log_sectors tail records.now) < 2 ^ 64 }
    ensures starts { IfOk result (λ starts. starts.items ≡ starts_at tail records.now) }
    ensures room { IfOk result (λ starts. log_blocks ≤ vec_capacity starts) }
{
    let mut starts = Vec::with_capacity(alloc, log_blocks as usize)?;
    let mut position = tail;
    for record in records {
        starts.push(position)?;
        position += 1 + record.len() as u64;
    }
    Ok(starts)
}

/// Where a log's live part stands, and the records in it.
#[derive(Drop)]
pub struct LogRead {
    pub ends: Ends,
    pub records: Vec<Record>,
}

/// The log of this superblock.
fn read_log<D: BlockDev>(
    alloc: Global,
    dev: &mut D,
    first: &Super,
) -> Result<LogRead, ReplayRefusal>
    requires is { IsSuper first.now }
    requires room { sectors_of (volume_of first.now) ≤ (D.state dev.old).size }
    ensures ends { IfOk result (λ l. IsEnds (2 * first.now.log_blocks) l.ends) }
    ensures are { IfOk result (λ l. AreRecords (2 * first.now.log_blocks) (D.state dev.old).size l.ends.tail l.ends.head l.records.items) }
    ensures head { (t : Tape) → Shows (D.state dev.old) t → IfOk result (λ l. now t 2 ≡ ends_bytes l.ends) }
    ensures stand { (t : Tape) → Shows (D.state dev.old) t → IfOk result (λ l. StandThere (2 * first.now.log_blocks) (now t) l.ends.tail (log_sectors l.ends.tail l.records.items)) }
    ensures bad { (t : Tape) (sector : ℕ) → Shows (D.state dev.old) t → result ≡ Err (ReplayRefusal.BadLog sector) → WhyBadLog (D.state dev.old).size (now t) (2 * first.now.log_blocks) sector }
    ensures unwritten { IsRead (D.state dev.old) (D.state dev.new) }
    ensures cause { IsLogRefusal (D.state dev.old) (D.state dev.new) result }
{
    let sectors = 2 * first.log_blocks;
    match read_sector(dev, HEAD_SECTOR) {
        Ok(sector) => match read_head(&sector, sectors) {
            Some(ends) => match read_records(alloc, dev, sectors, ends) {
                Ok(records) => Ok(LogRead { ends, records }),
                Err(why) => Err(why),
            },
            None => Err(ReplayRefusal::BadLog {
                sector: HEAD_SECTOR,
            }),
        },
        Err(DevFault) => Err(ReplayRefusal::ReadFault),
    }
}

/// What sector 0 is to hold: what is noted of it, or what it holds.
fn last_super(homes: &Homes, first_sector: &[u8; 512]) -> [u8; 512]
    ensures { result ≡ unwrap_or (noted_at homes.now 0) first_sector.now }
{
    match homes.get(SectorNo::new(0)) {
        Some(image) => *image,
        None => *first_sector,
    }
}

/// The superblock of an image as it stands in sector 0, and its log.
#[derive(Drop)]
pub struct Front {
    pub first_sector: [u8; 512],
    pub first: Super,
    pub log: LogRead,
}

/// What an image says whose superblock and log were read.
pub fn loaded(alloc: Global, size: u64, front: Front) -> Result<Stopped, ReplayRefusal>
    requires { CanLoad size front }
    ensures read { (image : ℕ → List ℕ) → IsFrontOf size image front → IfOk result (IsReadFrom size image) }
    ensures sound { IfOk result (CanCarry size) }
    ensures ends { IfOk result (λ s. (s.log.tail ≡ front.log.ends.tail) × (s.log.head ≡ front.log.ends.head)) }
    ensures bad { (field : ℕ) → result ≡ Err (ReplayRefusal.BadSuper field) → checked_again size front.first.log_blocks (overlay_all front.log.records.items 0 front.first_sector) ≡ bad field }
    ensures cause { IsSuperRefusal result }
{
    // The proof rests on this law; nothing runs here.
    note_laws();
    let Front {
        first_sector,
        first,
        log,
    } = front;
    let tail = log.ends.tail;
    let records = log.records.as_slice();
    let Ok(homes) = homes_of(alloc, records) else {
        return Err(ReplayRefusal::NoMemory);
    };
    let Ok(starts) = starts_of(alloc, first.log_blocks, tail, records) else {
        return Err(ReplayRefusal::NoMemory);
    };
    match checked_again(&last_super(&homes, &first_sector), first.log_blocks, size) {
        Ok(superblock) => Ok(Stopped {
            superblock,
            log: Log::standing(first.log_blocks, log.ends, starts),
            homes,
            descriptors: records.len() as u32,
            images: (log.ends.head - tail) as u32 - records.len() as u32,
        }),
        Err(bad) => Err(ReplayRefusal::BadSuper { field: bad.field }),
    }
}

/// Reads the superblock, the log's ends and its records.
pub fn read_front<D: BlockDev>(alloc: Global, dev: &mut D) -> Result<Front, ReplayRefusal>
    ensures front { (t : Tape) → Shows (D.state dev.old) t → IfOk result (IsFrontOf (D.state dev.old).size (now t)) }
    ensures sound { IfOk result (CanLoad (D.state dev.old).size) }
    ensures bad_super { (t : Tape) (field : ℕ) → Shows (D.state dev.old) t → result ≡ Err (ReplayRefusal.BadSuper field) → first_super (D.state dev.old).size (now t) ≡ bad field }
    ensures bad_log { (t : Tape) (sector : ℕ) → Shows (D.state dev.old) t → result ≡ Err (ReplayRefusal.BadLog sector) → IsBadLog (D.state dev.old).size (now t) sector }
    ensures unwritten { IsRead (D.state dev.old) (D.state dev.new) }
    ensures cause { IsReadRefusal (D.state dev.old) (D.state dev.new) result }
{
    let size = dev.sectors();
    if size == 0 {
        return Err(ReplayRefusal::BadSuper { field: 1 });
    }
    let Ok(first_sector) = read_sector(dev, 0) else {
        return Err(ReplayRefusal::ReadFault);
    };
    let first = match checked_super(&first_sector, size) {
        Ok(first) => first,
        Err(bad) => return Err(ReplayRefusal::BadSuper { field: bad.field }),
    };
    match read_log(alloc, dev, &first) {
        Ok(log) => Ok(Front {
            first_sector,
            first,
            log,
        }),
        Err(why) => Err(why),
    }
}

/// Reads the superblock, the log's ends and its records, and checks the superblock that they leave. Nothing is written.
pub fn load<D: BlockDev>(alloc: Global, dev: &mut D) -> Result<Stopped, ReplayRefusal>
    ensures read { (t : Tape) → Shows (D.state dev.old) t → IfOk result (IsReadFrom (D.state dev.old).size (now t)) }
    ensures sound { IfOk result (CanCarry (D.state dev.old).size) }
    ensures bad_super { (t : Tape) (field : ℕ) → Shows (D.state dev.old) t → result ≡ Err (ReplayRefusal.BadSuper field) → IsBadSuper (D.state dev.old).size (now t) field }
    ensures bad_log { (t : Tape) (sector : ℕ) → Shows (D.state dev.old) t → result ≡ Err (ReplayRefusal.BadLog sector) → IsBadLog (D.state dev.old).size (now t) sector }
    ensures unwritten { IsRead (D.state dev.old) (D.state dev.new) }
    ensures cause { IsReadRefusal (D.state dev.old) (D.state dev.new) result }
{
    let size = dev.sectors();
    match read_front(alloc, dev) {
        Ok(front) => loaded(alloc, size, front),
        Err(why) => Err(why),
    }
}
