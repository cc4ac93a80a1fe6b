//! Why an image is not replayed.
ghost use Rattle.std.specs.Prelude.{◌≡◌};

use std::alloc::AllocError;

/// Why an image is not replayed.
#[derive(Clone, Copy, Debug, PartialEq, Eq)]
pub enum ReplayRefusal {
    /// The first bad field of the superblock (docs/LAYOUT.md).
    BadSuper { field: u32 },
    /// The sector of the log that is wrong: the head sector, or that of a descriptor.
    BadLog { sector: u64 },
    /// The sector of the metadata that is wrong (docs/CHECK.md).
    BadMeta { sector: u64 },
    ReadFault,
    WriteFault,
    NoMemory,
}

impl From<AllocError> for ReplayRefusal {
    fn from(_error: AllocError) -> Self
        ensures { result ≡ ReplayRefusal.NoMemory }
    {
        ReplayRefusal::NoMemory
    }
}
