//! The words of the output.
ghost use Rattle.std.specs.Prelude.{◌≡◌, ◌<◌, ◌≤◌, ◌∷◌, decimal};
ghost use Rattle.vx_script.specs.Puts.{Puts};
ghost use Rattle.vx_script.specs.Words.{hex_digit, hex_pair, escaped, dash_text, flag_text, flags_text, name_text, hex_text, octal_digit as last_octal_digit, mode_text, text_of_word, spaced, spaced_words};

use crate::text_buffer::{TextBuffer, put};
use itoa::Buffer;
use vx_base::{Sink, SinkFault};

/// What is printed between two spaces.
#[derive(Clone, Copy)]
pub enum Word<'a> {
    Text(&'a [u8]),
    Number(u64),
    /// In four octal digits.
    Mode(u16),
    /// With other bytes than printed ones escaped.
    Name(&'a [u8]),
    Hex(&'a [u8]),
    /// The flags of a file's attributes, by their bits in the inode.
    Flags(u8),
}

/// Puts words, each after a space.
pub fn put_words<K: Sink>(
    out: &mut K,
    buffer: &mut TextBuffer,
    words: &[Word<'_>],
) -> Result<(), SinkFault>
    ensures { Puts K.taken K.fault_count out.old out.new buffer.old buffer.new result
        (spaced_words words.now) }
{
    for word in words {
        put_spaced(out, buffer, word)?;
    }
    Ok(())
}

/// Puts a space and a word.
pub fn put_spaced<K: Sink>(
    out: &mut K,
    buffer: &mut TextBuffer,
    word: &Word<'_>,
) -> Result<(), SinkFault>
    ensures { Puts K.taken K.fault_count out.old out.new buffer.old buffer.new result
        (spaced (text_of_word word.now)) }
{
    put(out, buffer, b" ")?;
    put_word(out, buffer, word)
}

pub fn put_word<K: Sink>(
    out: &mut K,
    buffer: &mut TextBuffer,
    word: &Word<'_>,
) -> Result<(), SinkFault>
    ensures { Puts K.taken K.fault_count out.old out.new buffer.old buffer.new result
        (text_of_word word.now) }
{
    match word {
        Word::Text(bytes) => put(out, buffer, bytes),
        Word::Number(n) => put_number(out, buffer, *n),
        Word::Mode(mode) => put(out, buffer, &octal_digits(*mode)),
        Word::Name(name) => put_name(out, buffer, name),
        Word::Hex(bytes) => put_hex(out, buffer, bytes),
        Word::Flags(flags) => put_flags(out, buffer, *flags),
    }
}

pub fn put_number<K: Sink>(out: &mut K, buffer: &mut TextBuffer, n: u64) -> Result<(), SinkFault>
    ensures { Puts K.taken K.fault_count out.old out.new buffer.old buffer.new result (decimal n) }
{
    let mut digits = Buffer::new();
    put(out, buffer, digits.format(n).as_bytes())
}

fn put_name<K: Sink>(out: &mut K, buffer: &mut TextBuffer, name: &[u8]) -> Result<(), SinkFault>
    ensures { Puts K.taken K.fault_count out.old out.new buffer.old buffer.new result
        (name_text name.now) }
{
    for b in name {
        put_escaped(out, buffer, *b)?;
    }
    Ok(())
}

fn put_escaped<K: Sink>(out: &mut K, buffer: &mut TextBuffer, b: u8) -> Result<(), SinkFault>
    ensures { Puts K.taken K.fault_count out.old out.new buffer.old buffer.new result (escaped b) }
{
    if b >= 33 && b <= 126 && b != b'\\' {
        put(out, buffer, &[b])
    } else {
        let [high, low] = hex_digits(b);
        put(out, buffer, &[b'\\', b'x', high, low])
    }
}

fn put_hex<K: Sink>(out: &mut K, buffer: &mut TextBuffer, bytes: &[u8]) -> Result<(), SinkFault>
    ensures { Puts K.taken K.fault_count out.old out.new buffer.old buffer.new result
        (hex_text bytes.now) }
{
    for b in bytes {
        put(out, buffer, &hex_digits(*b))?;
    }
    Ok(())
}

fn hex_digits(b: u8) -> [u8; 2]
    ensures { result ≡ hex_pair b }
{
    [digit(b / 16), digit(b % 16)]
}

fn digit(n: u8) -> u8
    requires { n < 16 }
    ensures { result ≡ hex_digit n }
{
    if n < 10 { b'0' + n } else { b'a' - 10 + n }
}

fn octal_digits(mode: u16) -> [u8; 4]
    ensures { result ≡ mode_text mode }
{
    [
        octal_digit(mode / 512),
        octal_digit(mode / 64),
        octal_digit(mode / 8),
        octal_digit(mode),
    ]
}

/// The last octal digit of a number.
fn octal_digit(n: u16) -> u8
    ensures { result ≡ last_octal_digit n }
{
    b'0' + (n % 8) as u8
}

fn put_flags<K: Sink>(out: &mut K, buffer: &mut TextBuffer, flags: u8) -> Result<(), SinkFault>
    ensures { Puts K.taken K.fault_count out.old out.new buffer.old buffer.new result
        (flags_text flags) }
{
    put_flag(out, buffer, flags, 1, b"align")?;
    put_flag(out, buffer, flags, 2, b"contig")?;
    put_flag(out, buffer, flags, 4, b"noextend")?;
    put_flag(out, buffer, flags, 8, b"noreserve")?;
    put_flag(out, buffer, flags, 16, b"trim")?;
    put_dash(out, buffer, flags)
}

fn put_flag<K: Sink>(
    out: &mut K,
    buffer: &mut TextBuffer,
    flags: u8,
    bit: u8,
    name: &[u8],
) -> Result<(), SinkFault>
    requires { 1 ≤ bit }
    ensures { Puts K.taken K.fault_count out.old out.new buffer.old buffer.new result
        (flag_text flags bit name.now) }
{
    if flags & bit == 0 {
        Ok(())
    } else if flags & (bit - 1) == 0 {
        put(out, buffer, name)
    } else {
        put_after_comma(out, buffer, name)
    }
}

fn put_after_comma<K: Sink>(
    out: &mut K,
    buffer: &mut TextBuffer,
    name: &[u8],
) -> Result<(), SinkFault>
    ensures { Puts K.taken K.fault_count out.old out.new buffer.old buffer.new result (44 ∷ name.now) }
{
    put(out, buffer, b",")?;
    put(out, buffer, name)
}

/// Puts a dash where no flag is set.
fn put_dash<K: Sink>(out: &mut K, buffer: &mut TextBuffer, flags: u8) -> Result<(), SinkFault>
    ensures { Puts K.taken K.fault_count out.old out.new buffer.old buffer.new result
        (dash_text flags) }
{
    if flags & 31 == 0 {
        put(out, buffer, b"-")
    } else {
        Ok(())
    }
}
