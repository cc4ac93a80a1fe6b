//! What sessions ask for.
ghost use Rattle.std.specs.Prelude.{◌≡◌};
ghost use Rattle.vx_base.specs.Fits.{fits, payload_len};

use crate::bytes::Bytes;

#[derive(Clone, Copy, Debug, PartialEq, Eq)]
pub enum Flag {
    Plain,
    Sync,
    DSync,
    Direct,
    Unbuffered,
}

#[derive(Debug, Drop, PartialEq)]
pub enum Payload {
    Given(Bytes),
    Fill { byte: u8, len: u32 },
}

#[derive(Clone, Copy, Debug, PartialEq, Eq)]
pub enum Tunable {
    InitialExtentSize,
    DelayTicks,
    TmpTicks,
}

#[derive(Clone, Copy, Debug, PartialEq, Eq)]
pub struct ExtAttrs {
    pub fixed: u32,
    pub reserve: u32,
    pub flags: u8,
}

#[derive(Debug, Drop, PartialEq)]
pub enum Call {
    Create {
        path: Bytes,
        mode: u16,
    },
    Mkdir {
        path: Bytes,
        mode: u16,
    },
    Unlink {
        path: Bytes,
    },
    Rmdir {
        path: Bytes,
    },
    Link {
        old: Bytes,
        new: Bytes,
    },
    Rename {
        old: Bytes,
        new: Bytes,
    },
    Chmod {
        path: Bytes,
        mode: u16,
    },
    Stat {
        path: Bytes,
    },
    List {
        path: Bytes,
    },
    OpenFile {
        handle: u8,
        path: Bytes,
        flag: Flag,
    },
    Close {
        handle: u8,
    },
    Read {
        handle: u8,
        offset: u64,
        len: u32,
    },
    Write {
        handle: u8,
        offset: u64,
        payload: Payload,
    },
    Truncate {
        handle: u8,
        size: u64,
    },
    Fsync {
        handle: u8,
    },
    Sync,
    Tick,
    Setext {
        path: Bytes,
        attrs: ExtAttrs,
    },
    Getext {
        path: Bytes,
    },
    Tune {
        name: Tunable,
        value: u32,
    },
    Reorg {
        path: Bytes,
    },
    DirReorg {
        path: Bytes,
    },
    ExtReport {
        path: Bytes,
    },
    DirReport {
        path: Bytes,
    },
    Resize {
        units: u32,
    },
    After {
        session: u8,
        lines: u32,
    },
    Stop,
}

impl Payload {
    pub fn len(&self) -> usize
        ensures { result ≡ payload_len self.now }
    {
        match self {
            Payload::Given(bytes) => bytes.len(),
            Payload::Fill { byte: _, len } => *len as usize,
        }
    }
}

impl Call {
    /// Whether each number is in its range, and the call is neither `After` nor `Stop`.
    pub fn fits(&self) -> bool
        ensures { result ≡ fits self.now }
    {
        match self {
            Call::Create { path: _, mode }
            | Call::Mkdir { path: _, mode }
            | Call::Chmod { path: _, mode } => *mode <= 0o7777,
            Call::Read {
                handle: _,
                offset,
                len,
            } => *offset <= FAR && *len <= 65536,
            Call::Write {
                handle: _,
                offset,
                payload,
            } => *offset <= FAR && payload.len() >= 1 && payload.len() <= 65536,
            Call::Truncate { handle: _, size } => *size <= FAR,
            Call::Setext { path: _, attrs } => attrs.flags < 64,
            Call::Resize { units } => *units >= 1 && *units <= 64,
            Call::After {
                session: _,
                lines: _,
            }
            | Call::Stop => false,
            _ => true,
        }
    }
}

const FAR: u64 = 1 << 40;
