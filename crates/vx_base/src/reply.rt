//! What a call is answered.
use crate::bytes::{Bytes, Names};
use crate::call::ExtAttrs;
use crate::numbers::Ino;
use crate::refusal::Refusal;

#[derive(Clone, Debug, Drop, PartialEq)]
pub enum Reply {
    Fine,
    Begun,
    Made {
        ino: Ino,
    },
    FileStat {
        ino: Ino,
        mode: u16,
        nlink: u16,
        size: u64,
    },
    DirStat {
        ino: Ino,
        mode: u16,
        entries: u32,
    },
    Listing {
        names: Names,
    },
    Got {
        bytes: Bytes,
    },
    Wrote {
        len: u32,
    },
    Ext {
        attrs: ExtAttrs,
    },
    Moved {
        from: u32,
        to: u32,
    },
    Extents {
        extents: u32,
        pages: u32,
        maps: u32,
    },
    DirBlocks {
        blocks: u32,
        entries: u32,
    },
    Refused(Refusal),
}
