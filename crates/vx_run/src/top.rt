//! The top call.
ghost use Rattle.std.specs.Prelude.{◌≡◌, [], map, IfOk, IfErr, if◌then◌else◌};
ghost use Rattle.std.specs.String.{string_bytes};
ghost use Rattle.vx_dev.specs.Tape.{State};
ghost use Rattle.vx_run.specs.Ends.{Asks, IsUnasked, HasEnded, IsRan};
ghost use Rattle.vx_run.specs.Outcomes.{end_of, HasShortHistory};
ghost use Rattle.vx_run.specs.Words.{AsksMount};

use crate::begin::{run_on_image, run_on_new};
use crate::gate::Gate;
use crate::outcome::Outcome;
use crate::read::{ReadRefusal, read_all};
use crate::words::{Asked, Verb, read_words};
use std::alloc::Global;
use std::sync::Wait;
use std::thread::Threads;
use vx_base::{History, Sink, Source};
use vx_dev::BlockDev;
use vx_grammar::{Script, parse};
use vx_script::{StartRefusal, render, render_refusal};

/// How a run ended: the exit status, the device, and the history.
pub struct Ran<D> {
    pub status: u8,
    pub dev: D,
    pub history: History,
}

/// Makes a new file system on the device, or mounts the one that is there, as the words ask; takes the turns of the script's sessions
/// until all are finished, unmounts, and writes the answers. Where the words ask for a mount, no write of the device may have failed
/// before.
///
/// The exit statuses and what is written are those of docs/OUTPUT.md. A status of 1, 2, 3, 6, 7 or 8 leaves the device as it was.
pub fn run<R: Threads + Wait + Sync, D: BlockDev + Send, S: Source, K: Sink, G: Gate + Sync>(
    _rt: &R,
    alloc: Global,
    words: &[String],
    dev: D,
    script: &mut S,
    out: &mut K,
    _gate: &G,
) -> Ran<D>
    requires certain { AsksMount (map string_bytes words.now) → (D.state dev).doubt ≡ [] }
    ensures ran { IsRan
        (record { words = map string_bytes words.now; script = S.left script.old; device = D.state dev; script_faults = S.fault_count script.old })
        (D.state result.dev) (S.fault_count script.new)
        (record { before = K.taken out.old; now = K.taken out.new; faults_before = K.fault_count out.old; faults = K.fault_count out.new })
        result.status result.history }
{
    let (outcome, dev) = worked(alloc, words, dev, script);
    match outcome {
        Outcome::Refused(why) => {
            let _ = render_refusal(&why, out);
            Ran {
                status: why.status(),
                dev,
                history: History::new(alloc),
            }
        }
        Outcome::Finished { disabled, history } => {
            let written = render(&history, out).is_ok();
            Ran {
                status: status(disabled, written),
                dev,
                history: History::from_events(history),
            }
        }
    }
}

fn status(disabled: bool, written: bool) -> u8
    ensures { result ≡ (if disabled then 4 else (if written then 0 else 5)) }
{
    if disabled {
        4
    } else if written {
        0
    } else {
        5
    }
}

/// What the words ask for, and the script, where the words and its bytes are good.
fn asked<S: Source>(
    alloc: Global,
    words: &[String],
    script: &mut S,
) -> Result<(Asked, Script), StartRefusal>
    ensures asks { (device : State) → IfOk result (λ read. Asks
        (record { words = map string_bytes words.now; script = S.left script.old; device = device; script_faults = S.fault_count script.old }) read.0 read.1) }
    ensures refused { (device : State) → IfErr result (IsUnasked
        (record { words = map string_bytes words.now; script = S.left script.old; device = device; script_faults = S.fault_count script.old }) (S.fault_count script.new)) }
{
    let asked = match read_words(words) {
        Ok(asked) => asked,
        Err(why) => return Err(why),
    };
    let bytes = match read_all(alloc, script) {
        Ok(bytes) => bytes,
        Err(ReadRefusal::Fault) => return Err(StartRefusal::ScriptFault),
        Err(ReadRefusal::NoMemory) => return Err(StartRefusal::NoMemory),
    };
    match parse(alloc, &bytes) {
        Ok(read) => Ok((asked, read)),
        Err(why) => Err(StartRefusal::from(why)),
    }
}

/// Does all but the output, and hands the device back.
fn worked<D: BlockDev, S: Source>(
    alloc: Global,
    words: &[String],
    dev: D,
    script: &mut S,
) -> (Outcome, D)
    requires certain { AsksMount (map string_bytes words.now) → (D.state dev).doubt ≡ [] }
    ensures ended { HasEnded
        (record { words = map string_bytes words.now; script = S.left script.old; device = D.state dev; script_faults = S.fault_count script.old })
        (D.state result.1) (S.fault_count script.new) (end_of result.0) }
    ensures short { HasShortHistory result.0 }
{
    let (asked, read) = match asked(alloc, words, script) {
        Ok(read) => read,
        Err(why) => return (Outcome::Refused(why), dev),
    };
    match asked.verb {
        Verb::Fresh => run_on_new(alloc, dev, asked.logging, read),
        Verb::Mount => run_on_image(alloc, dev, asked.logging, read),
    }
}
