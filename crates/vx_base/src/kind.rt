//! Kinds of files and of blocks.

/// What an inode is.
#[derive(Clone, Copy, Debug, PartialEq, Eq)]
pub enum FileKind {
    File,
    Directory,
}

/// What a block of a file holds: bytes, or nothing yet (it reads as zeros).
#[derive(Clone, Copy, Debug, PartialEq, Eq)]
pub enum Kind {
    Data,
    Reserved,
}
