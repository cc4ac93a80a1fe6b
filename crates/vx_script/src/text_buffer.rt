//! Text on its way to a sink.
ghost use Rattle.std.specs.Prelude.{◌≡◌, ◌+◌, ◌≤◌, ◌++◌, [], length, OnOk};
ghost use Rattle.vx_script.specs.Puts.{Puts};

use std::marker::Model;
use vx_base::{Sink, SinkFault};

const SIZE: usize = 1024;

/// Bytes that wait until there are enough of them for a write.
#[derive(Drop)]
pub struct TextBuffer {
    bytes: [u8; SIZE],
    len: usize,
}

impl Model for TextBuffer {
    ghost use Rattle.std.specs.Prelude.{List, ℕ, take, ◌≤◌};

    ghost Value = { List ℕ };

    ghost view = { λ b. take b.len b.bytes };

    ghost invariant = { λ b. b.len ≤ 1024 };
}

impl TextBuffer {
    pub fn new() -> Self
        ensures { result ≡ [] }
    {
        TextBuffer {
            bytes: [0; SIZE],
            len: 0,
        }
    }

    /// The number of bytes that it takes yet.
    fn room(&self) -> usize
        ensures { result + length self.now ≡ 1024 }
    {
        SIZE - self.len
    }

    fn append(&mut self, piece: &[u8])
        requires { length self.old + length piece.now ≤ 1024 }
        ensures { self.new ≡ self.old ++ piece.now }
    {
        let end = self.len + piece.len();
        self.bytes[self.len..end].copy_from_slice(piece);
        self.len = end;
    }

    fn clear(&mut self)
        ensures { self.new ≡ [] }
    {
        self.len = 0;
    }

    fn as_slice(&self) -> &[u8]
        ensures { result.now ≡ self.now }
    {
        &self.bytes[..self.len]
    }
}

/// Hands a piece to the sink.
fn write_all<K: Sink>(out: &mut K, piece: &[u8]) -> Result<(), SinkFault>
    ensures { Puts K.taken K.fault_count out.old out.new [] [] result piece.now }
{
    let mut rest = piece;
    while !rest.is_empty() {
        let count = out.write(rest)?;
        rest = &rest[count..];
    }
    Ok(())
}

/// Hands the waiting bytes to the sink.
pub fn flush<K: Sink>(out: &mut K, buffer: &mut TextBuffer) -> Result<(), SinkFault>
    ensures puts { Puts K.taken K.fault_count out.old out.new buffer.old buffer.new result [] }
    ensures empty { OnOk result (buffer.new ≡ []) }
{
    write_all(out, buffer.as_slice())?;
    buffer.clear();
    Ok(())
}

/// Puts a piece behind the waiting bytes. A fault may lose waiting bytes.
pub fn put<K: Sink>(out: &mut K, buffer: &mut TextBuffer, piece: &[u8]) -> Result<(), SinkFault>
    ensures { Puts K.taken K.fault_count out.old out.new buffer.old buffer.new result piece.now }
{
    if piece.len() <= buffer.room() {
        buffer.append(piece);
        return Ok(());
    }
    flush(out, buffer)?;
    if piece.len() <= buffer.room() {
        buffer.append(piece);
        Ok(())
    } else {
        write_all(out, piece)
    }
}
