//! What a mount's options choose.

/// The logging mode of a mount (docs/MODES.md).
#[derive(Clone, Copy, Debug, PartialEq, Eq)]
pub enum Logging {
    Log,
    DelayLog,
    TmpLog,
}

/// The value of the option `mincache=`.
#[derive(Clone, Copy, Debug, PartialEq, Eq)]
pub enum MinCache {
    CloseSync,
    Direct,
    DSync,
    Unbuffered,
    TmpCache,
}

/// The value of the option `convosync=`.
#[derive(Clone, Copy, Debug, PartialEq, Eq)]
pub enum ConvOSync {
    CloseSync,
    Delay,
    Direct,
    DSync,
    Unbuffered,
}

/// How a write treats the cache.
#[derive(Clone, Copy, Debug, PartialEq, Eq)]
pub enum WriteClass {
    Delayed,
    Sync,
    DSync,
    Direct,
    Unbuffered,
}
