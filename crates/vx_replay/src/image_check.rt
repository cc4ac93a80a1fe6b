//! The image check.
ghost use Rattle.std.specs.Prelude.{◌≡◌, ◌==◌, ◌&&◌, ◌||◌, not, true, ℕ, IfOk, IfErr, Err, Bool};
ghost use Rattle.vx_base.specs.Faults.{Rose};
ghost use Rattle.vx_dev.specs.Tape.{Tape, now};
ghost use Rattle.vx_replay.specs.LogReads.{Shows, IsRead};
ghost use Rattle.vx_check.specs.Parts.{IsChecked};
ghost use Rattle.vx_layout.specs.Supers.{volume_of};
ghost use Rattle.vx_replay.specs.Stopped.{CanCarry, IsReadFrom};
ghost use Rattle.vx_replay.specs.Fronts.{CanLoad, IsFrontOf};
ghost use Rattle.vx_replay.specs.ImageChecks.{CanMount, HasCleanFront, IsPassed, IsFault, laid, refusal_of};

use crate::load::{Front, Stopped, loaded, read_front};
use crate::refusal::ReplayRefusal;
use std::alloc::Global;
use vx_check::{Stop, check_overlaid};
use vx_dev::BlockDev;
use vx_layout::{Super, super_places, super_spelling};
use vx_log::{Ends, note_laws};

/// What the check read of an image that passes it.
#[derive(Clone, Copy, Debug)]
pub struct Checked {
    /// The superblock, with the log's records laid over it.
    pub superblock: Super,
    /// Where the log's live part begins.
    pub tail: u64,
    /// Where it ends.
    pub head: u64,
}

/// What a mount begins with: the superblock and the head sector of an image that was left clean, with an empty log.
#[derive(Clone, Copy, Debug)]
pub struct CleanFront {
    pub superblock: Super,
    pub ends: Ends,
}

/// Why an image does not pass its check: its first fault, in the order of docs/CHECK.md.
#[derive(Clone, Copy, Debug, PartialEq, Eq)]
pub enum CheckRefusal {
    /// The first bad field of the superblock (docs/LAYOUT.md).
    BadSuper { field: u32 },
    /// The sector of the log that is wrong: the head sector, or that of a descriptor.
    BadLog { sector: u64 },
    /// The sector of the metadata that is wrong.
    BadMeta { sector: u64 },
    /// The log stands so, and holds records, or the image was not left clean.
    NotClean { tail: u64, head: u64 },
    ReadFault,
    NoMemory,
}

/// Checks an image with its log's records laid over it, and does no operation. Where `strict`, the log has to be empty, the image left
/// clean, and no file without a name.
///
/// # Errors
///
/// The image's first fault, in the order of docs/CHECK.md; or a sector could not be read, or memory is short.
pub fn check<D: BlockDev>(alloc: Global, dev: &mut D, strict: bool) -> Result<Checked, CheckRefusal>
    ensures passed { (t : Tape) → Shows (D.state dev.old) t → IfOk result (IsPassed strict (D.state dev.old).size (now t)) }
    ensures fault { (t : Tape) → Shows (D.state dev.old) t → IfErr result (IsFault strict (D.state dev.old).size (now t)) }
    ensures unwritten { IsRead (D.state dev.old) (D.state dev.new) }
    ensures cause { result ≡ Err CheckRefusal.ReadFault → Rose (D.state dev.old).read_faults (D.state dev.new).read_faults }
{
    // The proof rests on these laws; nothing runs here.
    super_spelling();
    note_laws();
    let size = dev.sectors();
    let front = match read_settled(alloc, dev, strict) {
        Ok(front) => front,
        Err(why) => return Err(why),
    };
    let tail = front.log.ends.tail;
    let head = front.log.ends.head;
    let stopped = match loaded(alloc, size, front) {
        Ok(stopped) => stopped,
        Err(why) => return Err(refusal_of(why)),
    };
    match check_stopped(alloc, dev, &stopped, strict) {
        Ok(()) => Ok(Checked {
            superblock: stopped.superblock,
            tail,
            head,
        }),
        Err(Stop::BadMeta { sector }) => Err(CheckRefusal::BadMeta {
            sector: u64::from(sector),
        }),
        Err(Stop::ReadFault) => Err(CheckRefusal::ReadFault),
        Err(Stop::NoMemory) => Err(CheckRefusal::NoMemory),
    }
}

/// Reads what a mount of an image that was left clean begins with, and does no operation. No metadata are looked at.
///
/// # Errors
///
/// The first fault of the superblock or the log, in the order of docs/CHECK.md; or the log holds records, or the image was not left clean;
/// or a sector could not be read, or memory is short.
pub fn check_clean_front<D: BlockDev>(
    alloc: Global,
    dev: &mut D,
) -> Result<CleanFront, CheckRefusal>
    ensures is { IfOk result (CanMount (D.state dev.old).size) }
    ensures shows { (t : Tape) → Shows (D.state dev.old) t → IfOk result (HasCleanFront (D.state dev.old).size (now t)) }
    ensures fault { (t : Tape) → Shows (D.state dev.old) t → IfErr result (IsFault true (D.state dev.old).size (now t)) }
    ensures never { (sector : ℕ) → result ≡ Err (CheckRefusal.BadMeta sector) → ⊥ }
    ensures unwritten { IsRead (D.state dev.old) (D.state dev.new) }
    ensures cause { result ≡ Err CheckRefusal.ReadFault → Rose (D.state dev.old).read_faults (D.state dev.new).read_faults }
{
    match read_settled(alloc, dev, true) {
        Ok(front) => Ok(CleanFront {
            superblock: front.first,
            ends: front.log.ends,
        }),
        Err(why) => Err(why),
    }
}

/// Reads the superblock and the log. Where `strict`, the log has to be empty and the image left clean.
fn read_settled<D: BlockDev>(
    alloc: Global,
    dev: &mut D,
    strict: bool,
) -> Result<Front, CheckRefusal>
    ensures sound { IfOk result (CanLoad (D.state dev.old).size) }
    ensures settled { IfOk result (λ f. strict ≡ true → (f.log.ends.tail ≡ f.log.ends.head) × (f.first.clean ≡ true)) }
    ensures front { (t : Tape) → Shows (D.state dev.old) t → IfOk result (IsFrontOf (D.state dev.old).size (now t)) }
    ensures fault { (t : Tape) → Shows (D.state dev.old) t → IfErr result (IsFault strict (D.state dev.old).size (now t)) }
    ensures never { (sector : ℕ) → result ≡ Err (CheckRefusal.BadMeta sector) → ⊥ }
    ensures unwritten { IsRead (D.state dev.old) (D.state dev.new) }
    ensures cause { result ≡ Err CheckRefusal.ReadFault → Rose (D.state dev.old).read_faults (D.state dev.new).read_faults }
{
    let front = match read_front(alloc, dev) {
        Ok(front) => front,
        Err(why) => return Err(refusal_of(why)),
    };
    if is_unsettled(&front, strict) {
        return Err(CheckRefusal::NotClean {
            tail: front.log.ends.tail,
            head: front.log.ends.head,
        });
    }
    Ok(front)
}

/// Whether the log has to be empty and the image left clean, and one of the two is not so.
fn is_unsettled(front: &Front, strict: bool) -> bool
    ensures { result ≡ (strict && (not (front.now.log.ends.tail == front.now.log.ends.head) || not front.now.first.clean)) }
{
    strict && (front.log.ends.tail != front.log.ends.head || !front.first.clean)
}

/// The refusal of the check for one of the reading.
fn refusal_of(why: ReplayRefusal) -> CheckRefusal
    requires { why ≡ ReplayRefusal.WriteFault → ⊥ }
    ensures { result ≡ refusal_of why }
{
    match why {
        ReplayRefusal::BadSuper { field } => CheckRefusal::BadSuper { field },
        ReplayRefusal::BadLog { sector } => CheckRefusal::BadLog { sector },
        ReplayRefusal::BadMeta { sector } => CheckRefusal::BadMeta { sector },
        ReplayRefusal::ReadFault => CheckRefusal::ReadFault,
        ReplayRefusal::NoMemory => CheckRefusal::NoMemory,
        ReplayRefusal::WriteFault => unreachable!(),
    }
}

/// Checks the metadata of an image that was read, with what its log holds laid over it.
pub fn check_stopped<D: BlockDev>(
    alloc: Global,
    dev: &mut D,
    stopped: &Stopped,
    strict: bool,
) -> Result<(), Stop>
    requires { CanCarry (D.state dev.old).size stopped.now }
    ensures finds { (t : Tape) → Shows (D.state dev.old) t → (h : IsReadFrom (D.state dev.old).size (now t) stopped.now) → IsChecked strict (volume_of stopped.now.superblock) (laid h.records (now t)) result }
    ensures unwritten { IsRead (D.state dev.old) (D.state dev.new) }
    ensures cause { result ≡ Err Stop.ReadFault → Rose (D.state dev.old).read_faults (D.state dev.new).read_faults }
{
    // The proof rests on these laws; nothing runs here.
    super_places();
    note_laws();
    let volume = stopped.superblock.volume();
    match check_overlaid(alloc, dev, &stopped.homes, &volume, strict) {
        Ok(_found) => Ok(()),
        Err(why) => Err(why),
    }
}
