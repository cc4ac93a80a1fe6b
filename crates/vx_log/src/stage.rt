//! A stage of a commit: sectors of a batch's body are written.
ghost use Rattle.std.specs.Prelude.{◌≡◌, ◌+◌, ◌<◌, ◌≤◌, ◌^◌, OnOk, OnErr, length, slice_range};
ghost use Rattle.vx_base.specs.Faults.{HasCause};
ghost use Rattle.vx_layout.specs.LogForms.{log_at, body_of, log_length};
ghost use Rattle.vx_dev.specs.Runs.{Ran, BrokeOff, puts};
ghost use Rattle.vx_log.specs.Writes.{log_writes};

use crate::batch::AfterImage;
use crate::body::body_sector;
use vx_dev::{BlockDev, DevFault, run_laws};

/// The first sector of the log.
const FIRST_SECTOR: u64 = 4;

/// The sector of the device where a position of a log of so many sectors stands.
pub fn log_sector(sectors: u32, position: u64) -> u64
    requires { 0 < sectors }
    ensures place { result ≡ log_at sectors position }
    ensures within { result < 4 + sectors }
{
    FIRST_SECTOR + position % u64::from(sectors)
}

/// Writes the log sectors from number `from` to before `end` of a batch that begins at `head`, into
/// a log of so many sectors.
pub fn put_body<D: BlockDev>(
    dev: &mut D,
    sectors: u32,
    head: u64,
    batch: &[AfterImage],
    from: u32,
    end: u32,
) -> Result<(), DevFault>
    requires some { 0 < sectors }
    requires area { 4 + sectors ≤ (D.state dev.old).size }
    requires short { length batch.now ≤ 400 }
    requires order { from ≤ end }
    requires within { end ≤ log_length (length batch.now) }
    requires limit { head + log_length (length batch.now) ≤ 2 ^ 62 }
    ensures ok { OnOk result (Ran (puts (log_writes sectors (head + from) (slice_range (body_of head batch.now) from end))) (D.state dev.old) (D.state dev.new)) }
    ensures certain { OnOk result ((D.state dev.new).doubt ≡ (D.state dev.old).doubt) }
    ensures err { OnErr result (BrokeOff (log_writes sectors (head + from) (slice_range (body_of head batch.now) from end)) (D.state dev.old) (D.state dev.new)) }
    ensures size { (D.state dev.new).size ≡ (D.state dev.old).size }
    ensures reads { (D.state dev.new).read_faults ≡ (D.state dev.old).read_faults }
    ensures cause { HasCause (D.state dev.old).write_faults (D.state dev.new).write_faults result }
{
    // The proof rests on this law; nothing runs here.
    run_laws();
    for i in from..end {
        let at = log_sector(sectors, head + u64::from(i));
        dev.write(at, &body_sector(head, batch, i))?;
    }
    Ok(())
}
