//! Single operations, with all that they leave as it was.
ghost use Rattle.std.specs.Prelude.{◌≡◌, ◌<◌, ◌≤◌, ◌+◌, [], OnOk, OnErr};
ghost use Rattle.vx_base.specs.Faults.{HasCause};
ghost use Rattle.vx_dev.specs.Runs.{Onward};
ghost use Rattle.vx_dev.specs.Tape.{Did, DidNothing, Failed};
ghost use Rattle.vx_dev.specs.declared.device.Operation.TheVariants.{Put, Barrier};

use crate::{BlockDev, DevFault};

/// Writes a sector.
pub fn put<D: BlockDev>(dev: &mut D, s: u64, from: &[u8; 512]) -> Result<(), DevFault>
    requires { s < (D.state dev.old).size }
    ensures did { OnOk result (Did (Put s from.now) (D.state dev.old) (D.state dev.new)) }
    ensures certain { OnOk result ((D.state dev.new).doubt ≡ (D.state dev.old).doubt) }
    ensures failed { OnErr result (Failed s from.now (D.state dev.old) (D.state dev.new)) }
    ensures onward { Onward (D.state dev.old) (D.state dev.new) }
    ensures count { OnOk result ((D.state dev.new).count ≡ (D.state dev.old).count + 1) }
    ensures most { (D.state dev.new).count ≤ (D.state dev.old).count + 1 }
    ensures cause { HasCause (D.state dev.old).write_faults (D.state dev.new).write_faults result }
{
    dev.write(s, from)
}

/// Passes a barrier.
pub fn pass<D: BlockDev>(dev: &mut D) -> Result<(), DevFault>
    ensures did { OnOk result (Did Barrier (D.state dev.old) (D.state dev.new)) }
    ensures certain { OnOk result ((D.state dev.new).doubt ≡ []) }
    ensures nothing { OnErr result (DidNothing (D.state dev.old) (D.state dev.new)) }
    ensures doubt { OnErr result ((D.state dev.new).doubt ≡ (D.state dev.old).doubt) }
    ensures onward { Onward (D.state dev.old) (D.state dev.new) }
    ensures count { OnOk result ((D.state dev.new).count ≡ (D.state dev.old).count + 1) }
    ensures none { OnErr result ((D.state dev.new).count ≡ (D.state dev.old).count) }
    ensures cause { HasCause (D.state dev.old).write_faults (D.state dev.new).write_faults result }
{
    dev.barrier()
}
