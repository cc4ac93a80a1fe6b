//! The script's bytes.
ghost use Rattle.std.specs.Prelude.{◌≡◌, ◌≤◌, ◌<◌, ◌+◌, ◌++◌, ℕ, List, take, length, IfOk, IfErr, IfSome, min};
ghost use Rattle.std.specs.Io.KnownBytes.{Consumes, IsAtEnd};
ghost use Rattle.vx_base.specs.Faults.{Rose, HasCause};
ghost use Rattle.vx_run.specs.Reads.{HasRead};

use std::alloc::{AllocError, Global};
use vx_base::{Source, SourceFault};

/// One byte more than a script may have.
const MOST: usize = 4_194_305;

const PIECE: usize = 65_536;

/// Why the script was not read.
#[derive(Clone, Copy, Debug, PartialEq, Eq)]
pub enum ReadRefusal {
    Fault,
    NoMemory,
}

/// Takes the next bytes, at most so many; 0 comes only at the end.
fn read_piece<S: Source>(
    source: &mut S,
    piece: &mut [u8],
    most: usize,
) -> Result<usize, SourceFault>
    requires some { 0 < most }
    requires room { most ≤ length piece.old }
    ensures bound { IfOk result (λ n. n ≤ most) }
    ensures bytes { IfOk result (λ n. Consumes (S.left source.old) (S.left source.new) (take n piece.new)) }
    ensures end { IfOk result (λ n. n ≡ 0 → IsAtEnd (S.left source.new)) }
    ensures cause { HasCause (S.fault_count source.old) (S.fault_count source.new) result }
{
    source.read(&mut piece[..most])
}

/// The bytes that are left, or the first 4,194,305 of them.
pub fn read_all<S: Source>(alloc: Global, source: &mut S) -> Result<Vec<u8>, ReadRefusal>
    ensures bytes { IfOk result (λ bytes. HasRead (S.left source.old) bytes.items) }
    ensures fault { IfErr result (λ why. why ≡ ReadRefusal.Fault → Rose (S.fault_count source.old) (S.fault_count source.new)) }
{
    let mut bytes = Vec::new(alloc);
    let mut piece = [0u8; PIECE];
    while bytes.len() < MOST {
        let most = PIECE.min(MOST - bytes.len());
        match read_piece(source, &mut piece, most) {
            Ok(0) => break,
            Ok(count) => match bytes.extend_from_slice(&piece[..count]) {
                Ok(()) => {}
                Err(_) => return Err(ReadRefusal::NoMemory),
            },
            Err(_) => return Err(ReadRefusal::Fault),
        }
    }
    Ok(bytes)
}
