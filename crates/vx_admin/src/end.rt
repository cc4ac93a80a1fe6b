//! How it ends.
ghost use Rattle.std.specs.Prelude.{◌≡◌};
ghost use Rattle.vx_admin.specs.Output.{status_of, status_at};

use vx_layout::Super;
use vx_replay::{Recovered, ReplayRefusal};

/// How a check or a format ends.
#[derive(Clone, Copy, Debug)]
pub enum End {
    Done(Recovered),
    /// A new file system with this superblock.
    Made(Super),
    /// The words of the command line.
    BadWords,
    /// The sectors that the device has, and those that a file system of these sizes wants.
    DeviceTooSmall { have: u64, want: u64 },
    Refused(ReplayRefusal),
}

impl End {
    /// The exit status, where the sink took the whole line.
    pub fn status(&self) -> u8
        ensures { result ≡ status_of self.now }
    {
        match self {
            End::Done(_) | End::Made(_) => 0,
            End::BadWords => 1,
            End::DeviceTooSmall { .. } => 2,
            End::Refused(
                ReplayRefusal::BadSuper { field: _ }
                | ReplayRefusal::BadLog { sector: _ }
                | ReplayRefusal::BadMeta { sector: _ },
            ) => { 2 }
            End::Refused(ReplayRefusal::WriteFault) => 4,
            End::Refused(ReplayRefusal::NoMemory) => 6,
            End::Refused(ReplayRefusal::ReadFault) => 8,
        }
    }

    /// The exit status, where the sink took the whole line or not.
    pub fn status_at(&self, written: bool) -> u8
        ensures { result ≡ status_at self.now written }
    {
        match self {
            End::Done(_) | End::Made(_) if !written => 5,
            _ => self.status(),
        }
    }
}
