//! What is printed for a reply.
ghost use Rattle.std.specs.Prelude.{◌≡◌, map, flat_map, decimal};
ghost use Rattle.vx_script.specs.Puts.{Puts};
ghost use Rattle.vx_script.specs.Words.{spaced_name, spaced_list};
ghost use Rattle.vx_script.specs.Text.{number_of, name_of, fields_of, refusal_words, hex_words, words_of};

use crate::text_buffer::TextBuffer;
use crate::words::{Word, put_spaced, put_words};
use vx_base::{Name, Refusal, Reply, Sink, SinkFault};

/// Puts the words of a reply, each after a space.
pub fn put_reply<K: Sink>(
    out: &mut K,
    buffer: &mut TextBuffer,
    reply: &Reply,
) -> Result<(), SinkFault>
    ensures { Puts K.taken K.fault_count out.old out.new buffer.old buffer.new result
        (spaced_list (words_of reply.now)) }
{
    match reply {
        Reply::Fine | Reply::Begun => put_words(out, buffer, &[Word::Text(b"ok")]),
        Reply::Made { ino } => put_words(
            out,
            buffer,
            &[Word::Text(b"ok"), Word::Number(ino.get() as u64)],
        ),
        Reply::FileStat {
            ino,
            mode,
            nlink,
            size,
        } => put_words(
            out,
            buffer,
            &[
                Word::Text(b"ok"),
                Word::Text(b"file"),
                Word::Number(ino.get() as u64),
                Word::Mode(*mode),
                Word::Number(*nlink as u64),
                Word::Number(*size),
            ],
        ),
        Reply::DirStat { ino, mode, entries } => put_words(
            out,
            buffer,
            &[
                Word::Text(b"ok"),
                Word::Text(b"dir"),
                Word::Number(ino.get() as u64),
                Word::Mode(*mode),
                Word::Number(*entries as u64),
            ],
        ),
        Reply::Listing { names } => put_listing(out, buffer, names.as_slice()),
        Reply::Got { bytes } => put_bytes(out, buffer, bytes.as_slice()),
        Reply::Wrote { len } => put_words(
            out,
            buffer,
            &[Word::Text(b"ok"), Word::Number(*len as u64)],
        ),
        Reply::Ext { attrs } => put_words(
            out,
            buffer,
            &[
                Word::Text(b"ok"),
                Word::Number(attrs.fixed as u64),
                Word::Number(attrs.reserve as u64),
                Word::Flags(attrs.flags),
            ],
        ),
        Reply::Moved { from, to } => put_words(
            out,
            buffer,
            &[
                Word::Text(b"ok"),
                Word::Number(*from as u64),
                Word::Number(*to as u64),
            ],
        ),
        Reply::Extents {
            extents,
            pages,
            maps,
        } => put_words(
            out,
            buffer,
            &[
                Word::Text(b"ok"),
                Word::Number(*extents as u64),
                Word::Number(*pages as u64),
                Word::Number(*maps as u64),
            ],
        ),
        Reply::DirBlocks { blocks, entries } => put_words(
            out,
            buffer,
            &[
                Word::Text(b"ok"),
                Word::Number(*blocks as u64),
                Word::Number(*entries as u64),
            ],
        ),
        Reply::Refused(why) => put_refusal(out, buffer, why),
    }
}

fn put_listing<K: Sink>(
    out: &mut K,
    buffer: &mut TextBuffer,
    names: &[Name],
) -> Result<(), SinkFault>
    ensures { Puts K.taken K.fault_count out.old out.new buffer.old buffer.new result
        (spaced_list (words_of (Reply.Listing names.now))) }
{
    put_spaced(out, buffer, &Word::Text(b"ok"))?;
    put_spaced(out, buffer, &Word::Number(names.len() as u64))?;
    put_names(out, buffer, names)
}

fn put_names<K: Sink>(out: &mut K, buffer: &mut TextBuffer, names: &[Name]) -> Result<(), SinkFault>
    ensures { Puts K.taken K.fault_count out.old out.new buffer.old buffer.new result
        (flat_map spaced_name names.now) }
{
    for name in names {
        put_spaced(out, buffer, &Word::Name(name.as_slice()))?;
    }
    Ok(())
}

fn put_bytes<K: Sink>(out: &mut K, buffer: &mut TextBuffer, bytes: &[u8]) -> Result<(), SinkFault>
    ensures { Puts K.taken K.fault_count out.old out.new buffer.old buffer.new result
        (spaced_list (words_of (Reply.Got bytes.now))) }
{
    if bytes.is_empty() {
        put_words(
            out,
            buffer,
            &[Word::Text(b"ok"), Word::Number(bytes.len() as u64)],
        )
    } else {
        put_words(
            out,
            buffer,
            &[
                Word::Text(b"ok"),
                Word::Number(bytes.len() as u64),
                Word::Hex(bytes),
            ],
        )
    }
}

fn put_refusal<K: Sink>(
    out: &mut K,
    buffer: &mut TextBuffer,
    why: &Refusal,
) -> Result<(), SinkFault>
    ensures { Puts K.taken K.fault_count out.old out.new buffer.old buffer.new result
        (spaced_list (refusal_words why.now)) }
{
    put_spaced(out, buffer, &Word::Text(b"no"))?;
    put_spaced(out, buffer, &Word::Number(number_of_refusal(why) as u64))?;
    put_spaced(out, buffer, &Word::Text(name_of_refusal(why)))?;
    put_fields(out, buffer, why)
}

fn put_fields<K: Sink>(out: &mut K, buffer: &mut TextBuffer, why: &Refusal) -> Result<(), SinkFault>
    ensures { Puts K.taken K.fault_count out.old out.new buffer.old buffer.new result
        (spaced_list (map decimal (fields_of why.now))) }
{
    match why {
        Refusal::NoSpace { need, free } => put_words(
            out,
            buffer,
            &[Word::Number(*need as u64), Word::Number(*free as u64)],
        ),
        Refusal::NoInodes { in_use } => put_words(out, buffer, &[Word::Number(*in_use as u64)]),
        Refusal::TooBig { end } => put_words(out, buffer, &[Word::Number(*end)]),
        Refusal::TooManyLinks { nlink } => put_words(out, buffer, &[Word::Number(*nlink as u64)]),
        Refusal::TooManyOpen { open_now } => put_words(
            out,
            buffer,
            &[Word::Number(*open_now as u64)],
        ),
        Refusal::NoExtend { reserved_end } => put_words(
            out,
            buffer,
            &[Word::Number(*reserved_end)],
        ),
        Refusal::NoRun { need, longest } => put_words(
            out,
            buffer,
            &[Word::Number(*need as u64), Word::Number(*longest as u64)],
        ),
        Refusal::BadAttr { which } => put_words(out, buffer, &[Word::Number(*which as u64)]),
        Refusal::MapFull { extents } => put_words(out, buffer, &[Word::Number(*extents as u64)]),
        Refusal::Disabled { write_faults } => put_words(
            out,
            buffer,
            &[Word::Number(*write_faults)],
        ),
        Refusal::ShrinkInUse { inodes } => put_words(out, buffer, &[Word::Number(*inodes as u64)]),
        Refusal::DeviceTooSmall { have, want } => put_words(
            out,
            buffer,
            &[Word::Number(*have), Word::Number(*want)],
        ),
        Refusal::Cancelled { by } => put_words(out, buffer, &[Word::Number(*by as u64)]),
        Refusal::Gone { ino } => put_words(out, buffer, &[Word::Number(ino.get() as u64)]),
        _ => Ok(()),
    }
}

fn number_of_refusal(why: &Refusal) -> u8
    ensures { result ≡ number_of why.now }
{
    match why {
        Refusal::NoEnt => 1,
        Refusal::Exist => 2,
        Refusal::NotDir => 3,
        Refusal::IsDir => 4,
        Refusal::NotEmpty => 5,
        Refusal::BadName => 6,
        Refusal::BadHandle => 7,
        Refusal::NoSpace { need: _, free: _ } => 8,
        Refusal::NoInodes { in_use: _ } => 9,
        Refusal::TooBig { end: _ } => 10,
        Refusal::TooManyLinks { nlink: _ } => 11,
        Refusal::TooManyOpen { open_now: _ } => 12,
        Refusal::IntoItself => 13,
        Refusal::RootFixed => 14,
        Refusal::NoExtend { reserved_end: _ } => 15,
        Refusal::NoRun {
            need: _,
            longest: _,
        } => 16,
        Refusal::BadAttr { which: _ } => 17,
        Refusal::MapFull { extents: _ } => 18,
        Refusal::ReadFault => 19,
        Refusal::WriteFault => 20,
        Refusal::Disabled { write_faults: _ } => 21,
        Refusal::NoMemory => 22,
        Refusal::ShrinkInUse { inodes: _ } => 23,
        Refusal::DeviceTooSmall { have: _, want: _ } => 24,
        Refusal::Cancelled { by: _ } => 25,
        Refusal::Gone { ino: _ } => 26,
    }
}

fn name_of_refusal(why: &Refusal) -> &'static [u8]
    ensures { result.now ≡ name_of why.now }
{
    match why {
        Refusal::NoEnt => b"NoEnt",
        Refusal::Exist => b"Exist",
        Refusal::NotDir => b"NotDir",
        Refusal::IsDir => b"IsDir",
        Refusal::NotEmpty => b"NotEmpty",
        Refusal::BadName => b"BadName",
        Refusal::BadHandle => b"BadHandle",
        Refusal::NoSpace { need: _, free: _ } => b"NoSpace",
        Refusal::NoInodes { in_use: _ } => b"NoInodes",
        Refusal::TooBig { end: _ } => b"TooBig",
        Refusal::TooManyLinks { nlink: _ } => b"TooManyLinks",
        Refusal::TooManyOpen { open_now: _ } => b"TooManyOpen",
        Refusal::IntoItself => b"IntoItself",
        Refusal::RootFixed => b"RootFixed",
        Refusal::NoExtend { reserved_end: _ } => b"NoExtend",
        Refusal::NoRun {
            need: _,
            longest: _,
        } => b"NoRun",
        Refusal::BadAttr { which: _ } => b"BadAttr",
        Refusal::MapFull { extents: _ } => b"MapFull",
        Refusal::ReadFault => b"ReadFault",
        Refusal::WriteFault => b"WriteFault",
        Refusal::Disabled { write_faults: _ } => b"Disabled",
        Refusal::NoMemory => b"NoMemory",
        Refusal::ShrinkInUse { inodes: _ } => b"ShrinkInUse",
        Refusal::DeviceTooSmall { have: _, want: _ } => b"DeviceTooSmall",
        Refusal::Cancelled { by: _ } => b"Cancelled",
        Refusal::Gone { ino: _ } => b"Gone",
    }
}
