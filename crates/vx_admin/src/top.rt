//! The top call.
ghost use Rattle.std.specs.Prelude.{◌≡◌, map, true};
ghost use Rattle.std.specs.String.{string_bytes};
ghost use Rattle.vx_dev.specs.Tape.{State};
ghost use Rattle.vx_layout.specs.Supers.{IsSuper};
ghost use Rattle.vx_admin.specs.Ends.{EndsCheck, EndsFormat, Keeps, HasCause, HasEnded, IsAdministered};

use crate::end::End;
use crate::output::render;
use crate::words::{Ask, asked};
use std::alloc::{AllocError, Global};
use vx_base::Sink;
use vx_dev::{BlockDev, DevFault};
use vx_layout::{Super, sectors_needed};
use vx_mkfs::make;
use vx_replay::{ReplayRefusal, replay};

/// How it ended: the exit status, and the device.
pub struct AdminDone<D> {
    pub status: u8,
    pub dev: D,
}

/// Checks an image and replays its log, where the words are `fsck IMAGE`, or writes a new file system, where they are `mkfs IMAGE` and
/// the sizes, and writes a line that says how it ended.
///
/// The exit statuses and the lines are those of docs/OUTPUT.md. A status of 1, 2, 6 or 8 leaves the device's operations as they were.
pub fn admin<D: BlockDev, K: Sink>(
    alloc: Global,
    words: &[String],
    mut dev: D,
    out: &mut K,
) -> AdminDone<D>
    ensures administered { IsAdministered (map string_bytes words.now) (D.state dev) (D.state result.dev)
        (record { before = K.taken out.old; now = K.taken out.new; faults_before = K.fault_count out.old; faults = K.fault_count out.new })
        result.status }
{
    let end = ended(alloc, words, &mut dev);
    let written = render(&end, out).is_ok();
    AdminDone {
        status: end.status_at(written),
        dev,
    }
}

/// Does all but the output.
fn ended<D: BlockDev>(alloc: Global, words: &[String], dev: &mut D) -> End
    ensures { HasEnded (map string_bytes words.now) (D.state dev.old) (D.state dev.new) result }
{
    match asked(alloc, words) {
        Ok(None) => End::BadWords,
        Ok(Some(Ask::Fsck)) => checked(alloc, dev),
        Ok(Some(Ask::Mkfs(superblock))) => formatted(dev, superblock),
        Err(AllocError) => End::Refused(ReplayRefusal::NoMemory),
    }
}

/// Checks an image and replays its log.
fn checked<D: BlockDev>(alloc: Global, dev: &mut D) -> End
    ensures ends { EndsCheck result }
    ensures kept { Keeps (D.state dev.old) (D.state dev.new) }
    ensures cause { HasCause (D.state dev.old) (D.state dev.new) result }
{
    match replay(alloc, dev) {
        Ok(recovered) => End::Done(recovered),
        Err(why) => End::Refused(why),
    }
}

/// Writes a new file system, where the device has room for it.
fn formatted<D: BlockDev>(dev: &mut D, superblock: Super) -> End
    requires is { IsSuper superblock }
    requires clean { superblock.clean ≡ true }
    ensures ends { EndsFormat (D.state dev.old).size superblock result }
    ensures cause { HasCause (D.state dev.old) (D.state dev.new) result }
{
    let have = dev.sectors();
    let want = sectors_needed(superblock.log_blocks, superblock.units);
    if have < want {
        return End::DeviceTooSmall { have, want };
    }
    match make(dev, &superblock) {
        Ok(()) => End::Made(superblock),
        Err(DevFault) => End::Refused(ReplayRefusal::WriteFault),
    }
}
