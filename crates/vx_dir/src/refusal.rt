//! Why a directory is not changed.

/// Why no entry is added.
#[derive(Clone, Copy, Debug, PartialEq, Eq)]
pub enum DirRefusal {
    /// The name is there.
    Exist,
    /// No block has room, and there are as many as there may be.
    TooBig {
        /// The bytes of the blocks with one more.
        end: u64,
    },
    NoMemory,
}

/// The name is not there.
#[derive(Clone, Copy, Debug, PartialEq, Eq)]
pub struct NoEnt;
