//! A script, from its bytes.
ghost use Rattle.std.specs.Prelude.{◌≡◌, ◌≤◌, length, Ok, Err, IfOk, IfErr};
ghost use Rattle.vx_grammar.specs.Readings.{reading_of, refusal_of, IsWhole, IsNotRead};
ghost use Rattle.vx_grammar.specs.Scripts.{lines_read, numbers_read, IsScriptOf, IsOrderRefusal, IsScriptIn, IsRefusedFor};

use crate::groups::by_session;
use crate::lines::Lines;
use crate::lowest::lowest_stuck;
use crate::reader::Reader;
use crate::why::{LineFault, ScriptRefusal, Why};
use std::alloc::Global;
use vx_base::{Bytes, LineLists};

const MOST_BYTES: usize = 4_194_304;

/// A script: the calls of each session, and the sessions whose turns come first, if it has a schedule (docs/SCRIPT.md).
#[derive(Debug, Drop)]
pub struct Script {
    pub sessions: u8,
    pub schedule: Option<Bytes>,
    pub lines: LineLists,
}

/// Reads the bytes of a script (docs/SCRIPT.md).
///
/// A script of more than 4,194,304 bytes is refused as `TooLong`, else its first bad line with the first why of it, else, where no order takes all lines, the lowest line that can never begin.
pub fn parse(alloc: Global, bytes: &[u8]) -> Result<Script, ScriptRefusal>
    ensures ok { IfOk result (λ script. IsScriptIn bytes.now script) }
    ensures err { IfErr result (λ why. IsRefusedFor bytes.now why) }
{
    let reader = read_lines(alloc, bytes)?;
    ordered(alloc, reader)
}

/// What is read of a script has calls that lines can ask for, and keeps the limits; its sums are those of its calls.
pub fn reading_law(bytes: &[u8])
    ensures { IfOk (reading_of bytes.now) IsWhole }
{
    let _ = bytes;
}

/// What the lines say.
#[tactic(auto, unfolding(crate::specs::Readings::reading_of))]
fn read_lines(alloc: Global, bytes: &[u8]) -> Result<Reader, ScriptRefusal>
    ensures ok { IfOk result (λ r. reading_of bytes.now ≡ Ok r) }
    ensures whole { IfOk result IsWhole }
    ensures err { IfErr result (λ why. IsNotRead (reading_of bytes.now) why) }
{
    if bytes.len() > MOST_BYTES {
        return Err(ScriptRefusal::TooLong);
    }
    let mut reader = Reader::new(alloc);
    let mut number = 1;
    'lines: for line in Lines::new(bytes) {
        reader = match reader.after_line(alloc, number, line) {
            Ok(next) => next,
            Err(fault) => return Err(refusal(number, fault)),
        };
        number += 1;
    }
    if reader.sessions() == 0 {
        Err(ScriptRefusal::BadLine {
            line: number,
            why: Why::Sessions,
        })
    } else {
        Ok(reader)
    }
}

fn refusal(number: u32, fault: LineFault) -> ScriptRefusal
    ensures { result ≡ refusal_of number fault }
{
    match fault {
        LineFault::Bad(why) => ScriptRefusal::BadLine { line: number, why },
        LineFault::OutOfMemory => ScriptRefusal::NoMemory,
    }
}

/// The script, if its lines have an order.
fn ordered(alloc: Global, reader: Reader) -> Result<Script, ScriptRefusal>
    requires { IsWhole reader }
    ensures ok { IfOk result (λ script. IsScriptOf reader script) }
    ensures err { IfErr result (λ why. IsOrderRefusal reader why) }
{
    let sessions = reader.sessions();
    let (schedule, commands) = reader.into_parts();
    let grouped = by_session(alloc, sessions, commands)?;
    match lowest_stuck(&grouped) {
        Some(line) => Err(ScriptRefusal::BadOrder { line }),
        None => Ok(Script {
            sessions,
            schedule,
            lines: grouped.lines,
        }),
    }
}
