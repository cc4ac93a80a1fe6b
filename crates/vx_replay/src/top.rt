//! The whole replay of an image.
ghost use Rattle.std.specs.Prelude.{◌≡◌, ◌+◌, ◌==◌, ◌&&◌, ℕ, false, IfOk, Ok, Err, length};
ghost use Rattle.vx_dev.specs.Tape.{Tape, now};
ghost use Rattle.vx_dev.specs.Moments.{Told, Always};
ghost use Rattle.vx_model.specs.Replays.{ReplaysAs, IsClean, IsLeft};
ghost use Rattle.vx_model.specs.Tree.{Tree};
ghost use Rattle.vx_replay.specs.BadImages.{IsBadSuper, IsBadLog};
ghost use Rattle.vx_replay.specs.ImageChecks.{PassesCheck, HasBadMeta, meta_refusal};
ghost use Rattle.vx_replay.specs.LogReads.{Shows, IsRead};
ghost use Rattle.vx_replay.specs.Replayed.{IsCounted, IsSettled, IsReplayRefusal};

use crate::image_check::check_stopped;
use crate::load::{Stopped, load};
use crate::refusal::ReplayRefusal;
use crate::writing::carry;
use std::alloc::Global;
use vx_check::Stop;
use vx_dev::{BlockDev, DevFault};
use vx_layout::{log_spelling, super_spelling};

/// What a check of an image came to.
#[derive(Clone, Copy, Debug, PartialEq, Eq)]
pub enum Recovered {
    /// The image was left clean, and its log holds nothing.
    Clean,
    /// So many records, with so many after-images, stood between the log's tail and head, and were carried home.
    Replayed { records: u32, sectors: u32 },
}

/// Checks an image, replays its log and leaves it clean; of an image that was left clean it only reads. A refusal but for a write fault
/// comes before anything is written (docs/CHECK.md, docs/LOG.md).
pub fn replay<D: BlockDev>(alloc: Global, dev: &mut D) -> Result<Recovered, ReplayRefusal>
    // From the first barrier on every image that a crash leaves replays as the tree as which the image replayed before.
    ensures kept { (t : Tape) (tree : Tree) → Shows (D.state dev.old) t → ReplaysAs (D.state dev.old).size (now t) tree → Told (D.state dev.new) (Always (length t.ops + 1) (λ _ image. ReplaysAs (D.state dev.old).size image tree)) }
    // After a replay there is one image, it is clean, and it reads as that tree.
    ensures left { (t : Tape) (tree : Tree) (records sectors : ℕ) → Shows (D.state dev.old) t → ReplaysAs (D.state dev.old).size (now t) tree → result ≡ Ok (Recovered.Replayed records sectors) → Told (D.state dev.new) (IsLeft (D.state dev.old).size tree) }
    ensures counted { (t : Tape) (records sectors : ℕ) → Shows (D.state dev.old) t → result ≡ Ok (Recovered.Replayed records sectors) → IsCounted (D.state dev.old).size (now t) records sectors }
    // The image passed its check, with what its log holds laid over it.
    ensures sound { (t : Tape) → Shows (D.state dev.old) t → IfOk result (λ _. PassesCheck false (D.state dev.old).size (now t)) }
    ensures clean { (t : Tape) (tree : Tree) → Shows (D.state dev.old) t → ReplaysAs (D.state dev.old).size (now t) tree → result ≡ Ok Recovered.Clean → IsClean (D.state dev.old).size (now t) tree }
    ensures settled { (t : Tape) → Shows (D.state dev.old) t → result ≡ Ok Recovered.Clean → IsSettled (D.state dev.old).size (now t) }
    ensures unwritten { result ≡ Ok Recovered.Clean → IsRead (D.state dev.old) (D.state dev.new) }
    ensures bad_super { (t : Tape) (field : ℕ) → Shows (D.state dev.old) t → result ≡ Err (ReplayRefusal.BadSuper field) → IsBadSuper (D.state dev.old).size (now t) field }
    ensures bad_log { (t : Tape) (sector : ℕ) → Shows (D.state dev.old) t → result ≡ Err (ReplayRefusal.BadLog sector) → IsBadLog (D.state dev.old).size (now t) sector }
    ensures bad_meta { (t : Tape) (sector : ℕ) → Shows (D.state dev.old) t → result ≡ Err (ReplayRefusal.BadMeta sector) → HasBadMeta false (D.state dev.old).size (now t) sector }
    ensures refused { IsReplayRefusal (D.state dev.old) (D.state dev.new) result }
{
    // The proof rests on these laws; nothing runs here.
    super_spelling();
    log_spelling();
    let mut stopped = match load(alloc, dev) {
        Ok(stopped) => stopped,
        Err(why) => return Err(why),
    };
    match check_stopped(alloc, dev, &stopped, false) {
        Ok(()) => {}
        Err(stop) => return Err(meta_refusal(stop)),
    }
    if is_clean(&stopped) {
        return Ok(Recovered::Clean);
    }
    let recovered = Recovered::Replayed {
        records: stopped.descriptors,
        sectors: stopped.images,
    };
    match carry(dev, &mut stopped) {
        Ok(()) => Ok(recovered),
        Err(DevFault) => Err(ReplayRefusal::WriteFault),
    }
}

/// Whether the image was left clean, and its log holds nothing.
fn is_clean(stopped: &Stopped) -> bool
    ensures { result ≡ (stopped.now.superblock.clean && (stopped.now.log.tail == stopped.now.log.head)) }
{
    stopped.superblock.clean && stopped.log.tail() == stopped.log.head()
}

/// The refusal of a replay for one of the check.
fn meta_refusal(stop: Stop) -> ReplayRefusal
    ensures { result ≡ meta_refusal stop }
{
    match stop {
        Stop::BadMeta { sector } => ReplayRefusal::BadMeta {
            sector: u64::from(sector),
        },
        Stop::ReadFault => ReplayRefusal::ReadFault,
        Stop::NoMemory => ReplayRefusal::NoMemory,
    }
}
