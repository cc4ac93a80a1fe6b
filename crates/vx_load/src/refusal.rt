//! Why an image is not mounted.
ghost use Rattle.std.specs.Prelude.{◌≡◌};
ghost use Rattle.vx_load.specs.Loads.{refusal_of};

use vx_check::Stop;
use vx_replay::CheckRefusal;

/// Why an image is not mounted.
#[derive(Clone, Copy, Debug, PartialEq, Eq)]
pub enum LoadRefusal {
    /// It does not pass its check, which is strict; or a sector could not be read, or memory is short.
    Check(CheckRefusal),
    /// It passes, but this file of it, its first such, has an extent, a byte or an attribute, which no call can reach yet.
    HasBytes { ino: u32 },
}

impl From<Stop> for LoadRefusal {
    ghost from_gives = { λ why refusal. refusal ≡ refusal_of why };

    fn from(why: Stop) -> LoadRefusal {
        LoadRefusal::Check(match why {
            Stop::BadMeta { sector } => CheckRefusal::BadMeta {
                sector: u64::from(sector),
            },
            Stop::ReadFault => CheckRefusal::ReadFault,
            Stop::NoMemory => CheckRefusal::NoMemory,
        })
    }
}
