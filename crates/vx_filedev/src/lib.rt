//! A block device over a file.
#![tactic(auto)]

ghost use Rattle.std.specs.Prelude.{◌≡◌, ◌<◌, ◌≤◌, ◌+◌, ◌-◌, ◌*◌, ◌%◌, ◌^◌, true, [], None, IfOk, IfSome, vec_len, min};

use std::alloc::{AllocError, Global};
use std::fs::OpenFile;
use std::os::unix::fs::FileExt;
use vx_dev::{BlockDev, DevFault};

/// The greatest number of operations.
const MOST: u64 = 1 << 62;

/// Bytes in a sector.
const SECTOR: usize = 512;

/// The most sectors that are gathered.
const GATHERED: usize = 64;

/// A file as a device: sector `s` is its 512 bytes from `512 * s` on. It tells nothing of its content.
///
/// Writes to sectors that follow each other are gathered and handed to the file as one, at the latest by the next barrier; until then
/// a crash may leave them out, as it may leave out any write that no barrier has followed. A write that the file refuses is told by
/// the write or barrier that handed it over.
#[derive(Drop)]
pub struct FileDev<F: FileExt + OpenFile + Drop> {
    file: F,
    sectors: u64,
    ops: u64,
    read_faults: u64,
    write_faults: u64,
    // the bytes of the gathered sectors, and the first of these
    gathered: Vec<u8>,
    first: u64,
    ghost fits: { sectors < 2 ^ 55 },
    ghost limit: { ops ≤ 2 ^ 62 },
    ghost whole: { vec_len gathered % 512 ≡ 0 },
    ghost few: { vec_len gathered ≤ 64 * 512 },
    ghost inside: { first < 2 ^ 55 },
}

impl<F: FileExt + OpenFile + Drop> FileDev<F> {
    /// The first sectors of the file, which is open for reading and writing; with memory for the sectors that are gathered.
    pub fn new(alloc: Global, file: F, sectors: u64) -> Result<Self, AllocError>
        requires { sectors < 2 ^ 55 }
        ensures sectors { IfOk result (λ dev. dev.sectors ≡ sectors) }
        ensures ops { IfOk result (λ dev. dev.ops ≡ 0) }
        ensures read_faults { IfOk result (λ dev. dev.read_faults ≡ 0) }
        ensures write_faults { IfOk result (λ dev. dev.write_faults ≡ 0) }
    {
        let gathered = Vec::with_capacity(alloc, GATHERED * SECTOR)?;
        Ok(FileDev {
            file,
            sectors,
            ops: 0,
            read_faults: 0,
            write_faults: 0,
            gathered,
            first: 0,
        })
    }

    /// Counts a failed write or barrier.
    fn fault(&mut self) -> DevFault
        ensures count { self.new.write_faults ≡ min (self.old.write_faults + 1) (2 ^ 64 - 1) }
        ensures sectors { self.new.sectors ≡ self.old.sectors }
        ensures ops { self.new.ops ≡ self.old.ops }
        ensures read_faults { self.new.read_faults ≡ self.old.read_faults }
    {
        self.write_faults = self.write_faults.saturating_add(1);
        DevFault
    }

    /// Hands the gathered sectors to the file, and says whether it took them. They stay gathered where it did not.
    fn hand_over(&mut self) -> bool
        ensures sectors { self.new.sectors ≡ self.old.sectors }
        ensures ops { self.new.ops ≡ self.old.ops }
        ensures read_faults { self.new.read_faults ≡ self.old.read_faults }
        ensures write_faults { self.new.write_faults ≡ self.old.write_faults }
        ensures taken { result ≡ true → vec_len self.new.gathered ≡ 0 }
    {
        if self.gathered.is_empty() {
            return true;
        }
        let taken = self
            .file
            .write_all_at(self.gathered.as_slice(), SECTOR as u64 * self.first)
            .is_ok();
        if taken {
            self.gathered.clear();
        }
        taken
    }

    /// Whether a sector follows the gathered ones, and there is room for it.
    fn joins(&self, s: u64) -> bool
        ensures { result ≡ true → vec_len self.now.gathered + 512 ≤ 64 * 512 }
    {
        let len = self.gathered.len();
        len == 0 || (len < GATHERED * SECTOR && s == self.first + (len / SECTOR) as u64)
    }

    /// Where a gathered sector's bytes stand.
    fn place(&self, s: u64) -> Option<usize>
        ensures { IfSome result (λ at. at + 512 ≤ vec_len self.now.gathered) }
    {
        if s < self.first {
            return None;
        }
        let sectors = (self.gathered.len() / SECTOR) as u64;
        if s - self.first < sectors {
            Some((s - self.first) as usize * SECTOR)
        } else {
            None
        }
    }
}

impl<F: FileExt + OpenFile + Drop> BlockDev for FileDev<F> {
    ghost state = { λ f. record {
      size = f.sectors;
      count = f.ops;
      read_faults = f.read_faults;
      write_faults = f.write_faults;
      told = None;
      doubt = [];
    } };

    ghost in_step = { λ f. tt };

    ghost of_sectors = { λ f. tt };

    fn sectors(&self) -> u64 {
        self.sectors
    }

    fn ops(&self) -> u64 {
        self.ops
    }

    fn read_faults(&self) -> u64 {
        self.read_faults
    }

    fn write_faults(&self) -> u64 {
        self.write_faults
    }

    fn read(&mut self, s: u64, to: &mut [u8; 512]) -> Result<(), DevFault> {
        if let Some(at) = self.place(s) {
            to.copy_from_slice(&self.gathered[at..at + SECTOR]);
            return Ok(());
        }
        match self.file.read_exact_at(to, SECTOR as u64 * s) {
            Ok(()) => Ok(()),
            Err(_) => {
                self.read_faults = self.read_faults.saturating_add(1);
                Err(DevFault)
            }
        }
    }

    fn write(&mut self, s: u64, from: &[u8; 512]) -> Result<(), DevFault> {
        if self.ops >= MOST || !(self.joins(s) || self.hand_over()) {
            return Err(self.fault());
        }
        if self.gathered.is_empty() {
            self.first = s;
        }
        if self.gathered.extend_from_slice(from).is_err() {
            return Err(self.fault());
        }
        self.ops += 1;
        Ok(())
    }

    fn barrier(&mut self) -> Result<(), DevFault> {
        if self.ops >= MOST || !self.hand_over() || self.file.sync_data().is_err() {
            return Err(self.fault());
        }
        self.ops += 1;
        Ok(())
    }
}

#[cfg(test)]
mod tests;
