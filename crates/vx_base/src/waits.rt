//! What a session waits for.
use crate::numbers::Ino;

/// Why a session's turn did nothing.
#[derive(Clone, Copy, Debug, PartialEq, Eq)]
pub enum WaitsFor {
    /// Another session holds the file's lock.
    Lock { ino: Ino, holder: u8 },
    /// Another session has not answered so many lines yet.
    After { session: u8, lines: u32 },
}
