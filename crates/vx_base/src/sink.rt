//! Where output goes.
ghost use Rattle.std.specs.Prelude.{◌≡◌, ◌<◌, ◌≤◌, ◌+◌, ◌-◌, ℕ, List, [], length, take, min, IfOk, OnErr, Some, is_err};
ghost use Rattle.std.specs.declared.option.Option.{Option};
ghost use Rattle.std.specs.Io.KnownBytes.{WriteAppends};
ghost use Rattle.vx_base.specs.Faults.{HasCause};
ghost use Rattle.vx_base.specs.Streams.{fails_next_write, after_failed_write, after_write};

use crate::bytes::Bytes;
use crate::num_list::NumList;
use std::alloc::{AllocError, Global};
use std::io::{ErrorKind, Write};
use std::marker::Model;

/// The sink took nothing.
#[derive(Clone, Copy, Debug, PartialEq, Eq)]
pub struct SinkFault;

/// A stream that takes bytes.
pub trait Sink {
    /// The bytes taken so far, where the sink tells them.
    ghost taken: { Self → Option (List ℕ) };

    /// The number of failed writes so far.
    ghost fault_count: { Self → ℕ };

    /// The number of failed writes so far; it stays at the greatest value of its type.
    fn faults(&self) -> u64
        ensures { result ≡ fault_count self.now };

    /// Takes the first bytes, as many as are answered, at least one. A fault takes none.
    fn write(&mut self, from: &[u8]) -> Result<usize, SinkFault>
        requires { 0 < length from.now }
        ensures some { IfOk result (λ n. (0 < n) × (n ≤ length from.now)) }
        ensures bytes { WriteAppends (taken self.old) (taken self.new) result from.now }
        ensures cause { HasCause (fault_count self.old) (fault_count self.new) result };
}

/// A sink in memory with a limited room, which tells what it took.
#[derive(Drop)]
pub struct MemSink {
    bytes: Vec<u8>,
    room: usize,
    writes: u64,
    fail: NumList,
    faults: u64,
}

impl Model for MemSink {
    ghost use Rattle.std.specs.Prelude.{◌≤◌, vec_len, vec_capacity};
    ghost use Rattle.vx_base.specs.Streams.{SinkView};

    ghost Value = { SinkView };

    ghost view = { λ s. record { taken = s.bytes.items; room = s.room; writes = s.writes; fail = s.fail; faults = s.faults } };

    ghost invariant = { λ s. (vec_len s.bytes ≤ s.room) × (s.room ≤ vec_capacity s.bytes) };
}

impl MemSink {
    /// An empty sink with room for so many bytes. The writes whose numbers, from 1, are in `fail` answer a fault.
    pub fn new(alloc: Global, room: u32, fail: NumList) -> Result<Self, AllocError>
        ensures { IfOk result (λ sink. sink ≡ record { taken = []; room = room; writes = 0; fail = fail; faults = 0 }) }
    {
        let room = room as usize;
        let bytes = Vec::with_capacity(alloc, room)?;
        Ok(MemSink {
            bytes,
            room,
            writes: 0,
            fail,
            faults: 0,
        })
    }

    /// What was taken.
    pub fn as_slice(&self) -> &[u8]
        ensures { result.now ≡ self.now.taken }
    {
        self.bytes.as_slice()
    }
}

impl Sink for MemSink {
    ghost taken = { λ s. Some s.taken };

    ghost fault_count = { λ s. s.faults };

    fn faults(&self) -> u64 {
        self.faults
    }

    /// It takes as much of a piece as its room holds.
    fn write(&mut self, from: &[u8]) -> Result<usize, SinkFault>
        requires { 0 < length from.now }
        ensures some { IfOk result (λ n. (0 < n) × (n ≤ length from.now)) }
        ensures bytes { WriteAppends (Some self.old.taken) (Some self.new.taken) result from.now }
        ensures cause { HasCause self.old.faults self.new.faults result }
        ensures fails { is_err result ≡ fails_next_write self.old }
        ensures failed { OnErr result (self.new ≡ after_failed_write self.old) }
        ensures count { IfOk result (λ n. n ≡ min (length from.now) (self.old.room - length self.old.taken)) }
        ensures written { IfOk result (λ n. self.new ≡ after_write (take n from.now) self.old) }
    {
        self.writes = self.writes.saturating_add(1);
        if self.bytes.len() >= self.room || self.fail.contains(self.writes) {
            self.faults = self.faults.saturating_add(1);
            return Err(SinkFault);
        }
        let count = from.len().min(self.room - self.bytes.len());
        match self.bytes.extend_from_slice(&from[..count]) {
            Ok(()) => Ok(count),
            Err(_) => unreachable!(),
        }
    }
}

/// A sink over any writer of std, as standard output.
#[derive(Drop)]
pub struct StdSink<W: Write + Drop> {
    writer: W,
    faults: u64,
}

impl<W: Write + Drop> StdSink<W> {
    pub fn new(writer: W) -> Self {
        StdSink { writer, faults: 0 }
    }

    /// Hands on what the writer keeps back. An error counts as a fault.
    pub fn flush(&mut self) -> Result<(), SinkFault> {
        match self.writer.flush() {
            Ok(()) => Ok(()),
            Err(_) => {
                self.faults = self.faults.saturating_add(1);
                Err(SinkFault)
            }
        }
    }
}

impl<W: Write + Drop> Sink for StdSink<W> {
    ghost taken = { λ s. W.contents s.writer };

    ghost fault_count = { λ s. s.faults };

    fn faults(&self) -> u64 {
        self.faults
    }

    fn write(&mut self, from: &[u8]) -> Result<usize, SinkFault> {
        match write_uninterrupted(&mut self.writer, from) {
            Ok(count) => Ok(count),
            Err(fault) => {
                self.faults = self.faults.saturating_add(1);
                Err(fault)
            }
        }
    }
}

/// Writes one byte at least, and tries again where a signal interrupts the call.
fn write_uninterrupted<W: Write>(writer: &mut W, from: &[u8]) -> Result<usize, SinkFault>
    ensures some { IfOk result (λ n. (0 < n) × (n ≤ length from.now)) }
    ensures bytes { WriteAppends (W.contents writer.old) (W.contents writer.new) result from.now }
{
    for _try in 0..u64::MAX {
        match writer.write(from) {
            Ok(0) => return Err(SinkFault),
            Ok(count) => return Ok(count),
            Err(error) if error.kind() == ErrorKind::Interrupted => {}
            Err(_) => return Err(SinkFault),
        }
    }
    Err(SinkFault)
}
