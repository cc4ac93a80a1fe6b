//! Where a script's bytes come from.
ghost use Rattle.std.specs.Prelude.{◌≡◌, ◌<◌, ℕ, List, length, take, min, Some, IfOk, OnErr, is_err};
ghost use Rattle.std.specs.declared.option.Option.{Option};
ghost use Rattle.std.specs.Io.{ReadsAtMost};
ghost use Rattle.std.specs.Io.KnownBytes.{ReadConsumes};
ghost use Rattle.vx_base.specs.Faults.{HasCause};
ghost use Rattle.vx_base.specs.Streams.{fails_next_read, after_failed_read, after_read};

use crate::bytes::Bytes;
use crate::num_list::NumList;
use std::io::{ErrorKind, Read};
use std::marker::Model;

/// The source could not be read.
#[derive(Clone, Copy, Debug, PartialEq, Eq)]
pub struct SourceFault;

/// A stream of bytes to be read to its end.
pub trait Source {
    /// The bytes that are left, where the source tells them.
    ghost left: { Self → Option (List ℕ) };

    /// The number of failed reads so far.
    ghost fault_count: { Self → ℕ };

    /// The number of failed reads so far; it stays at the greatest value of its type.
    fn faults(&self) -> u64
        ensures { result ≡ fault_count self.now };

    /// Takes the next bytes, as many as are answered; 0 comes only at the end. A fault takes none.
    fn read(&mut self, to: &mut [u8]) -> Result<usize, SourceFault>
        requires { 0 < length to.old }
        ensures bound { ReadsAtMost result to.new }
        ensures bytes { ReadConsumes (left self.old) (left self.new) result to.new }
        ensures cause { HasCause (fault_count self.old) (fault_count self.new) result };
}

/// A source in memory, which tells its bytes.
#[derive(Drop)]
pub struct MemSource {
    bytes: Bytes,
    taken: usize,
    reads: u64,
    fail: NumList,
    faults: u64,
}

impl Model for MemSource {
    ghost use Rattle.std.specs.Prelude.{◌≤◌, drop, length};
    ghost use Rattle.vx_base.specs.Streams.{SourceView};

    ghost Value = { SourceView };

    ghost view = { λ s. record { left = drop s.taken s.bytes; reads = s.reads; fail = s.fail; faults = s.faults } };

    ghost invariant = { λ s. s.taken ≤ length s.bytes };
}

impl MemSource {
    /// A source of these bytes. The reads whose numbers, from 1, are in `fail` answer a fault.
    pub fn new(bytes: Bytes, fail: NumList) -> Self
        ensures { result ≡ record { left = bytes; reads = 0; fail = fail; faults = 0 } }
    {
        MemSource {
            bytes,
            taken: 0,
            reads: 0,
            fail,
            faults: 0,
        }
    }
}

impl Source for MemSource {
    ghost left = { λ s. Some s.left };

    ghost fault_count = { λ s. s.faults };

    fn faults(&self) -> u64 {
        self.faults
    }

    /// It takes as many bytes as are left and as there is room for.
    fn read(&mut self, to: &mut [u8]) -> Result<usize, SourceFault>
        requires { 0 < length to.old }
        ensures bound { ReadsAtMost result to.new }
        ensures bytes { ReadConsumes (Some self.old.left) (Some self.new.left) result to.new }
        ensures cause { HasCause self.old.faults self.new.faults result }
        ensures fails { is_err result ≡ fails_next_read self.old }
        ensures failed { OnErr result (self.new ≡ after_failed_read self.old) }
        ensures count { IfOk result (λ n. n ≡ min (length self.old.left) (length to.old)) }
        ensures read { IfOk result (λ n. self.new ≡ after_read n self.old) }
    {
        self.reads = self.reads.saturating_add(1);
        if self.fail.contains(self.reads) {
            self.faults = self.faults.saturating_add(1);
            return Err(SourceFault);
        }
        let count = copied(&self.bytes.as_slice()[self.taken..], to);
        self.taken += count;
        Ok(count)
    }
}

/// Copies as many bytes as there are and as there is room for.
fn copied(from: &[u8], to: &mut [u8]) -> usize
    ensures count { result ≡ min (length from.now) (length to.old) }
    ensures bytes { take result to.new ≡ take result from.now }
{
    let count = from.len().min(to.len());
    to[..count].copy_from_slice(&from[..count]);
    count
}

/// A source over any reader of std, as standard input.
#[derive(Drop)]
pub struct StdSource<R: Read + Drop> {
    reader: R,
    faults: u64,
}

impl<R: Read + Drop> StdSource<R> {
    pub fn new(reader: R) -> Self {
        StdSource { reader, faults: 0 }
    }
}

impl<R: Read + Drop> Source for StdSource<R> {
    ghost left = { λ s. R.remaining s.reader };

    ghost fault_count = { λ s. s.faults };

    fn faults(&self) -> u64 {
        self.faults
    }

    fn read(&mut self, to: &mut [u8]) -> Result<usize, SourceFault> {
        match read_uninterrupted(&mut self.reader, to) {
            Ok(count) => Ok(count),
            Err(fault) => {
                self.faults = self.faults.saturating_add(1);
                Err(fault)
            }
        }
    }
}

/// Reads, and tries again where a signal interrupts the call.
fn read_uninterrupted<R: Read>(reader: &mut R, to: &mut [u8]) -> Result<usize, SourceFault>
    ensures bound { ReadsAtMost result to.new }
    ensures bytes { ReadConsumes (R.remaining reader.old) (R.remaining reader.new) result to.new }
{
    for _try in 0..u64::MAX {
        match reader.read(to) {
            Ok(count) => return Ok(count),
            Err(error) if error.kind() == ErrorKind::Interrupted => {}
            Err(_) => return Err(SourceFault),
        }
    }
    Err(SourceFault)
}
