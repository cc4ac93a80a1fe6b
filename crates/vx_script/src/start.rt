//! Why a run is refused before its first turn.
ghost use Rattle.std.specs.Prelude.{◌≡◌, [], OnOk, OnErr};
ghost use Rattle.std.specs.Io.KnownBytes.{Appends};
ghost use Rattle.vx_base.specs.Faults.{HasCause};
ghost use Rattle.vx_script.specs.Puts.{AppendsPrefix, Puts};
ghost use Rattle.vx_script.specs.Words.{spaced_list};
ghost use Rattle.vx_script.specs.Start.{status_of, name_of_start, word_of_option, fields_of_start, refused_line, refused_text, start_of, start_of_options};

use crate::text_buffer::{TextBuffer, flush, put};
use crate::words::{Word, put_spaced, put_words};
use vx_base::{Sink, SinkFault};
use vx_grammar::ScriptRefusal;
use vx_modes::{OptionName, OptionRefusal};

/// Why a run is refused before its first turn.
#[derive(Clone, Copy, Debug, PartialEq, Eq)]
pub enum StartRefusal {
    /// The words of the command line.
    BadWords,
    /// The element of the list of options at this place, from 0, is none.
    BadOption { at: u32 },
    /// The list of options chooses it a second time.
    Twice(OptionName),
    /// In sectors.
    DeviceTooSmall { have: u64, want: u64 },
    /// The first bad field of the superblock of an image that is to be mounted (docs/LAYOUT.md).
    BadSuper { field: u32 },
    /// The sector of its log that is wrong: the head sector, or that of a descriptor.
    BadLog { sector: u64 },
    /// It was not left clean; its log begins and ends here.
    NotClean { tail: u64, head: u64 },
    /// The sector of its metadata that is wrong (docs/CHECK.md).
    BadMeta { sector: u64 },
    /// The file of this inode number has bytes, which no call can reach yet.
    HasBytes { ino: u32 },
    /// The script has too many bytes.
    TooLong,
    /// A bad line of the script, counted from 1.
    BadLine { line: u32 },
    /// The lowest line of the script that can never begin.
    BadOrder { line: u32 },
    /// A write of the device failed.
    WriteFault,
    /// The script could not be read.
    ScriptFault,
    /// A read of the device failed.
    ReadFault,
    NoMemory,
}

impl StartRefusal {
    /// The exit status of the run.
    pub fn status(&self) -> u8
        ensures { result ≡ status_of self.now }
    {
        match self {
            StartRefusal::BadWords | StartRefusal::BadOption { at: _ } | StartRefusal::Twice(_) =>
                1,
            StartRefusal::DeviceTooSmall { have: _, want: _ }
            | StartRefusal::BadSuper { field: _ }
            | StartRefusal::BadLog { sector: _ }
            | StartRefusal::NotClean { tail: _, head: _ }
            | StartRefusal::BadMeta { sector: _ }
            | StartRefusal::HasBytes { ino: _ } => 2,
            StartRefusal::TooLong
            | StartRefusal::BadLine { line: _ }
            | StartRefusal::BadOrder { line: _ } => 3,
            StartRefusal::WriteFault => 4,
            StartRefusal::ScriptFault => 7,
            StartRefusal::ReadFault => 8,
            StartRefusal::NoMemory => 6,
        }
    }
}

impl From<ScriptRefusal> for StartRefusal {
    ghost from_gives = { λ why start. start ≡ start_of why };

    fn from(why: ScriptRefusal) -> StartRefusal {
        match why {
            ScriptRefusal::TooLong => StartRefusal::TooLong,
            ScriptRefusal::BadLine { line, why: _ } => StartRefusal::BadLine { line },
            ScriptRefusal::BadOrder { line } => StartRefusal::BadOrder { line },
            ScriptRefusal::NoMemory => StartRefusal::NoMemory,
        }
    }
}

impl From<OptionRefusal> for StartRefusal {
    ghost from_gives = { λ why start. start ≡ start_of_options why };

    fn from(why: OptionRefusal) -> StartRefusal {
        match why {
            OptionRefusal::BadOption { at } => StartRefusal::BadOption { at },
            OptionRefusal::Twice(name) => StartRefusal::Twice(name),
        }
    }
}

/// Writes the line of a refusal; where memory is short, nothing. At a fault the sink took a first part of it.
pub fn render_refusal<K: Sink>(why: &StartRefusal, out: &mut K) -> Result<(), SinkFault>
    ensures ok { OnOk result (Appends (K.taken out.old) (K.taken out.new) (refused_text why.now)) }
    ensures err { OnErr result (AppendsPrefix (K.taken out.old) (K.taken out.new) (refused_text why.now)) }
    ensures cause { HasCause (K.fault_count out.old) (K.fault_count out.new) result }
{
    let mut buffer = TextBuffer::new();
    put_refusal_output(out, &mut buffer, why)
}

/// Puts the line of a refusal, and hands it to the sink.
fn put_refusal_output<K: Sink>(
    out: &mut K,
    buffer: &mut TextBuffer,
    why: &StartRefusal,
) -> Result<(), SinkFault>
    ensures puts { Puts K.taken K.fault_count out.old out.new buffer.old buffer.new result
        (refused_text why.now) }
    ensures empty { OnOk result (buffer.new ≡ []) }
{
    put_refused_text(out, buffer, why)?;
    flush(out, buffer)
}

fn put_refused_text<K: Sink>(
    out: &mut K,
    buffer: &mut TextBuffer,
    why: &StartRefusal,
) -> Result<(), SinkFault>
    ensures { Puts K.taken K.fault_count out.old out.new buffer.old buffer.new result
        (refused_text why.now) }
{
    match why {
        StartRefusal::NoMemory => Ok(()),
        _ => put_refused_line(out, buffer, why),
    }
}

fn put_refused_line<K: Sink>(
    out: &mut K,
    buffer: &mut TextBuffer,
    why: &StartRefusal,
) -> Result<(), SinkFault>
    ensures { Puts K.taken K.fault_count out.old out.new buffer.old buffer.new result
        (refused_line why.now) }
{
    put(out, buffer, b"refused")?;
    put_spaced(out, buffer, &Word::Number(why.status() as u64))?;
    put_spaced(out, buffer, &Word::Text(name_of_start_refusal(why)))?;
    put_start_fields(out, buffer, why)?;
    put(out, buffer, b"\n")
}

fn put_start_fields<K: Sink>(
    out: &mut K,
    buffer: &mut TextBuffer,
    why: &StartRefusal,
) -> Result<(), SinkFault>
    ensures { Puts K.taken K.fault_count out.old out.new buffer.old buffer.new result
        (spaced_list (fields_of_start why.now)) }
{
    match why {
        StartRefusal::DeviceTooSmall { have: a, want: b }
        | StartRefusal::NotClean { tail: a, head: b } => {
            put_words(out, buffer, &[Word::Number(*a), Word::Number(*b)])
        }
        StartRefusal::BadLog { sector: n } | StartRefusal::BadMeta { sector: n } => {
            put_words(out, buffer, &[Word::Number(*n)])
        }
        StartRefusal::BadLine { line: n }
        | StartRefusal::BadOrder { line: n }
        | StartRefusal::BadOption { at: n }
        | StartRefusal::BadSuper { field: n }
        | StartRefusal::HasBytes { ino: n } => {
            put_words(out, buffer, &[Word::Number(*n as u64)])
        }
        StartRefusal::Twice(name) => put_words(out, buffer, &[Word::Text(option_word(*name))]),
        _ => Ok(()),
    }
}

fn name_of_start_refusal(why: &StartRefusal) -> &'static [u8]
    ensures { result.now ≡ name_of_start why.now }
{
    match why {
        StartRefusal::BadWords => b"BadWords",
        StartRefusal::BadOption { at: _ } => b"BadOption",
        StartRefusal::Twice(_) => b"Twice",
        StartRefusal::DeviceTooSmall { have: _, want: _ } => b"DeviceTooSmall",
        StartRefusal::BadSuper { field: _ } => b"BadSuper",
        StartRefusal::BadLog { sector: _ } => b"BadLog",
        StartRefusal::NotClean { tail: _, head: _ } => b"NotClean",
        StartRefusal::BadMeta { sector: _ } => b"BadMeta",
        StartRefusal::HasBytes { ino: _ } => b"HasBytes",
        StartRefusal::TooLong => b"TooLong",
        StartRefusal::BadLine { line: _ } => b"BadLine",
        StartRefusal::BadOrder { line: _ } => b"BadOrder",
        StartRefusal::WriteFault => b"WriteFault",
        StartRefusal::ScriptFault => b"ScriptFault",
        StartRefusal::ReadFault => b"ReadFault",
        StartRefusal::NoMemory => b"NoMemory",
    }
}

/// The word of what a list of options chooses twice.
fn option_word(name: OptionName) -> &'static [u8]
    ensures { result.now ≡ word_of_option name }
{
    match name {
        OptionName::Logging => b"logging",
        OptionName::BlkClear => b"blkclear",
        OptionName::MinCache => b"mincache",
        OptionName::ConvOSync => b"convosync",
    }
}
