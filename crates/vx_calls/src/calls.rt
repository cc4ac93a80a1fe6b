//! What a call asks of a mount.
ghost use Rattle.std.specs.Prelude.{◌≡◌};
ghost use Rattle.vx_model.specs.Allowed.{has_front, is_refusal};
ghost use Rattle.vx_model.specs.Legal.{is_no_space};
ghost use Rattle.vx_model.specs.Step.{is_for_mount};

use vx_base::{Call, Logging, Refusal, Reply};

/// Whether a call is durable once it is answered, with all that came before it (docs/MODES.md).
pub fn has_front(logging: Logging, call: &Call) -> bool
    ensures { result ≡ has_front logging call.now }
{
    match call {
        Call::Sync | Call::Fsync { .. } => true,
        Call::Tick | Call::Rename { .. } => logging != Logging::TmpLog,
        Call::Create { .. }
        | Call::Mkdir { .. }
        | Call::Unlink { .. }
        | Call::Rmdir { .. }
        | Call::Link { .. }
        | Call::Chmod { .. }
        | Call::Truncate { .. }
        | Call::Setext { .. } => logging == Logging::Log,
        _ => false,
    }
}

/// Whether a call is one to the mount or to the run, which leaves names and attributes alone.
pub fn is_for_mount(call: &Call) -> bool
    ensures { result ≡ is_for_mount call.now }
{
    matches!(
        call,
        Call::Sync | Call::Tick | Call::After { .. } | Call::Stop
    )
}

/// Whether a reply refuses a call for want of blocks.
pub fn is_no_space(reply: &Reply) -> bool
    ensures { result ≡ is_no_space reply.now }
{
    matches!(reply, Reply::Refused(Refusal::NoSpace { .. }))
}

/// Whether a reply refuses a call.
pub fn is_refusal(reply: &Reply) -> bool
    ensures { result ≡ is_refusal reply.now }
{
    matches!(reply, Reply::Refused(_))
}
