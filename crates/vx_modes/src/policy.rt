//! What options decide of writes, closes and calls.
ghost use Rattle.std.specs.Prelude.{◌≡◌};
ghost use Rattle.vx_modes.specs.Policy.{class_of, plain_class, synchronous_class, flushes_at_close as closes_with_flush, flushes_every_close, flushes_synchronous_close, loose as is_loose, commits as is_committed};

use crate::options::Options;
use vx_base::{Call, ConvOSync, Flag, Logging, MinCache, WriteClass};

/// How a write by a handle with this flag treats the cache.
pub fn class(flag: Flag, o: &Options) -> WriteClass
    ensures { result ≡ class_of flag o.now }
{
    match flag {
        Flag::Plain => plain_class(o.mincache),
        Flag::Sync => synchronous_class(WriteClass::Sync, o.convosync),
        Flag::DSync => synchronous_class(WriteClass::DSync, o.convosync),
        Flag::Direct => WriteClass::Direct,
        Flag::Unbuffered => WriteClass::Unbuffered,
    }
}

fn plain_class(mincache: Option<MinCache>) -> WriteClass
    ensures { result ≡ plain_class mincache }
{
    match mincache {
        None | Some(MinCache::CloseSync) | Some(MinCache::TmpCache) => WriteClass::Delayed,
        Some(MinCache::Direct) => WriteClass::Direct,
        Some(MinCache::DSync) => WriteClass::DSync,
        Some(MinCache::Unbuffered) => WriteClass::Unbuffered,
    }
}

fn synchronous_class(own: WriteClass, convosync: Option<ConvOSync>) -> WriteClass
    ensures { result ≡ synchronous_class own convosync }
{
    match convosync {
        None => own,
        Some(ConvOSync::CloseSync) | Some(ConvOSync::Delay) => WriteClass::Delayed,
        Some(ConvOSync::Direct) => WriteClass::Direct,
        Some(ConvOSync::DSync) => WriteClass::DSync,
        Some(ConvOSync::Unbuffered) => WriteClass::Unbuffered,
    }
}

/// Whether closing a handle with this flag flushes its file.
pub fn flushes_at_close(flag: Flag, o: &Options) -> bool
    ensures { result ≡ closes_with_flush flag o.now }
{
    flushes_every_close(o.mincache)
        || matches!(flag, Flag::Sync | Flag::DSync) && flushes_synchronous_close(o.convosync)
}

fn flushes_every_close(mincache: Option<MinCache>) -> bool
    ensures { result ≡ flushes_every_close mincache }
{
    match mincache {
        None | Some(MinCache::TmpCache) => false,
        Some(_) => true,
    }
}

fn flushes_synchronous_close(convosync: Option<ConvOSync>) -> bool
    ensures { result ≡ flushes_synchronous_close convosync }
{
    match convosync {
        None | Some(ConvOSync::Delay) => false,
        Some(_) => true,
    }
}

/// Whether a crash may leave uninitialised storage in files.
pub fn loose(o: &Options) -> bool
    ensures { result ≡ is_loose o.now }
{
    (matches!(o.logging, Logging::TmpLog) || matches!(o.mincache, Some(MinCache::TmpCache)))
        && !o.blkclear
}

/// Whether the call is persistent when it returns by its kind and the options alone. Closes, writes and ticks depend
/// on the state too, and are not among these.
pub fn commits(call: &Call, o: &Options) -> bool
    ensures { result ≡ is_committed call.now o.now }
{
    match call {
        Call::Fsync { handle: _ } | Call::Sync => true,
        Call::Rename { old: _, new: _ } => matches!(o.logging, Logging::Log | Logging::DelayLog),
        Call::Create { path: _, mode: _ }
        | Call::Mkdir { path: _, mode: _ }
        | Call::Unlink { path: _ }
        | Call::Rmdir { path: _ }
        | Call::Link { old: _, new: _ }
        | Call::Chmod { path: _, mode: _ }
        | Call::Truncate { handle: _, size: _ }
        | Call::Setext { path: _, attrs: _ } => matches!(o.logging, Logging::Log),
        _ => false,
    }
}
