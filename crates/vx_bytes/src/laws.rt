//! Laws of what a crash may leave of sizes and bytes.
ghost use Rattle.vx_bytes.specs.BlockLaws.{BlockLaws};
ghost use Rattle.vx_bytes.specs.CandidateLaws.{CandidateLaws};
ghost use Rattle.vx_bytes.specs.DeviceLaws.{DeviceLaws};
ghost use Rattle.vx_bytes.specs.EventLaws.{EventLaws};
ghost use Rattle.vx_bytes.specs.FileLaws.{FileLaws};
ghost use Rattle.vx_bytes.specs.OpeningLaws.{OpeningLaws};
ghost use Rattle.vx_bytes.specs.OutcomeLaws.{OutcomeLaws};
ghost use Rattle.vx_bytes.specs.PrefixLaws.{PrefixLaws};
ghost use Rattle.vx_bytes.specs.WaitLaws.{WaitLaws};

use vx_dev::tape_laws;

/// What was made stable, and has not changed since, is exactly what a crash leaves.
pub fn candidate_laws()
    ensures { CandidateLaws }
{}

/// Where what a mount holds of every file is so, what a crash leaves is an outcome of the history, and stays one.
pub fn outcome_laws()
    ensures { OutcomeLaws }
{}

/// What writes and barriers leave of what a mount holds of every file.
pub fn device_laws()
    ensures { DeviceLaws }
{
    tape_laws();
}

/// What calls, settles, answers and the unmounting leave of it.
pub fn event_laws()
    ensures { EventLaws }
{}

/// Which of these events a write, either truncate, a close, a settle, and the coming and the end of a file are, and that they give up only
/// what waits.
pub fn file_laws()
    ensures { FileLaws }
{}

/// What commits leave of it, and a flush with nothing to do.
pub fn prefix_laws()
    ensures { PrefixLaws }
{}

/// A call waits from the end of its flush until the batch that holds what it needs is committed.
pub fn wait_laws()
    ensures { WaitLaws }
{}

/// What earlier states give to pages is theirs still, or waits.
pub fn block_laws()
    ensures { BlockLaws }
{}

/// A mount begins with what it holds of every file.
pub fn opening_laws()
    ensures { OpeningLaws }
{}
