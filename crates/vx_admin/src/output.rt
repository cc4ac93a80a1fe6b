//! The line that is printed.
ghost use Rattle.std.specs.Prelude.{◌≡◌, [], OnOk, OnErr, map, decimal};
ghost use Rattle.std.specs.Io.KnownBytes.{Appends};
ghost use Rattle.vx_base.specs.Faults.{HasCause};
ghost use Rattle.vx_script.specs.Puts.{AppendsPrefix, Puts};
ghost use Rattle.vx_script.specs.Words.{spaced_list};
ghost use Rattle.vx_admin.specs.Output.{name_of, fields_of, replayed_line, made_line, refused_line, text_of};

use crate::end::End;
use vx_base::{Sink, SinkFault};
use vx_layout::Super;
use vx_replay::{Recovered, ReplayRefusal};
use vx_script::{TextBuffer, Word, flush, put, put_spaced, put_words};

/// The files without a name that a replay finds: there are none, since no file outlives its last name yet.
const ORPHANS: u64 = 0;

/// Writes the line of an end; where memory is short, nothing. At a fault the sink took a first part of it.
pub fn render<K: Sink>(end: &End, out: &mut K) -> Result<(), SinkFault>
    ensures ok { OnOk result (Appends (K.taken out.old) (K.taken out.new) (text_of end.now)) }
    ensures err { OnErr result (AppendsPrefix (K.taken out.old) (K.taken out.new) (text_of end.now)) }
    ensures cause { HasCause (K.fault_count out.old) (K.fault_count out.new) result }
{
    let mut buffer = TextBuffer::new();
    put_output(out, &mut buffer, end)
}

/// Puts the line of an end, and hands it to the sink.
fn put_output<K: Sink>(out: &mut K, buffer: &mut TextBuffer, end: &End) -> Result<(), SinkFault>
    ensures puts { Puts K.taken K.fault_count out.old out.new buffer.old buffer.new result (text_of end.now) }
    ensures empty { OnOk result (buffer.new ≡ []) }
{
    put_text(out, buffer, end)?;
    flush(out, buffer)
}

fn put_text<K: Sink>(out: &mut K, buffer: &mut TextBuffer, end: &End) -> Result<(), SinkFault>
    ensures { Puts K.taken K.fault_count out.old out.new buffer.old buffer.new result (text_of end.now) }
{
    match end {
        End::Done(Recovered::Clean) => put(out, buffer, b"clean\n"),
        End::Done(Recovered::Replayed { records, sectors }) => {
            put_replayed_line(out, buffer, *records, *sectors)
        }
        End::Made(superblock) => put_made_line(out, buffer, superblock),
        End::Refused(ReplayRefusal::NoMemory) => Ok(()),
        _ => put_refused_line(out, buffer, end),
    }
}

fn put_replayed_line<K: Sink>(
    out: &mut K,
    buffer: &mut TextBuffer,
    records: u32,
    sectors: u32,
) -> Result<(), SinkFault>
    ensures { Puts K.taken K.fault_count out.old out.new buffer.old buffer.new result (replayed_line records sectors) }
{
    put(out, buffer, b"replayed")?;
    put_words(
        out,
        buffer,
        &[
            Word::Number(records as u64),
            Word::Number(sectors as u64),
            Word::Number(ORPHANS),
        ],
    )?;
    put(out, buffer, b"\n")
}

fn put_made_line<K: Sink>(
    out: &mut K,
    buffer: &mut TextBuffer,
    superblock: &Super,
) -> Result<(), SinkFault>
    ensures { Puts K.taken K.fault_count out.old out.new buffer.old buffer.new result (made_line superblock.now) }
{
    put(out, buffer, b"made")?;
    put_words(
        out,
        buffer,
        &[
            Word::Number(superblock.units as u64),
            Word::Number(superblock.log_blocks as u64),
        ],
    )?;
    put(out, buffer, b"\n")
}

fn put_refused_line<K: Sink>(
    out: &mut K,
    buffer: &mut TextBuffer,
    end: &End,
) -> Result<(), SinkFault>
    ensures { Puts K.taken K.fault_count out.old out.new buffer.old buffer.new result (refused_line end.now) }
{
    put(out, buffer, b"refused")?;
    put_spaced(out, buffer, &Word::Number(end.status() as u64))?;
    put_spaced(out, buffer, &Word::Text(name(end)))?;
    put_fields(out, buffer, end)?;
    put(out, buffer, b"\n")
}

fn put_fields<K: Sink>(out: &mut K, buffer: &mut TextBuffer, end: &End) -> Result<(), SinkFault>
    ensures { Puts K.taken K.fault_count out.old out.new buffer.old buffer.new result (spaced_list (map decimal (fields_of end.now))) }
{
    match end {
        End::DeviceTooSmall { have, want } => {
            put_words(out, buffer, &[Word::Number(*have), Word::Number(*want)])
        }
        End::Refused(ReplayRefusal::BadSuper { field }) => {
            put_words(out, buffer, &[Word::Number(*field as u64)])
        }
        End::Refused(ReplayRefusal::BadLog { sector }) => {
            put_words(out, buffer, &[Word::Number(*sector)])
        }
        End::Refused(ReplayRefusal::BadMeta { sector }) => {
            put_words(out, buffer, &[Word::Number(*sector)])
        }
        _ => Ok(()),
    }
}

/// The name of a refusal.
fn name(end: &End) -> &'static [u8]
    ensures { result.now ≡ name_of end.now }
{
    match end {
        End::Done(_) | End::Made(_) => b"",
        End::BadWords => b"BadWords",
        End::DeviceTooSmall { .. } => b"DeviceTooSmall",
        End::Refused(ReplayRefusal::BadSuper { field: _ }) => b"BadSuper",
        End::Refused(ReplayRefusal::BadLog { sector: _ }) => b"BadLog",
        End::Refused(ReplayRefusal::BadMeta { sector: _ }) => b"BadMeta",
        End::Refused(ReplayRefusal::ReadFault) => b"ReadFault",
        End::Refused(ReplayRefusal::WriteFault) => b"WriteFault",
        End::Refused(ReplayRefusal::NoMemory) => b"NoMemory",
    }
}
