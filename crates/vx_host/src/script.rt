//! The script as it was read, to say what is bad in it.
ghost use Rattle.std.specs.Prelude.{◌≡◌, ◌<◌, length, ℕ, List};
ghost use Rattle.std.specs.declared.option.Option.{Option};
ghost use Rattle.std.specs.Io.{ReadsAtMost};
ghost use Rattle.std.specs.Io.KnownBytes.{ReadConsumes};
ghost use Rattle.vx_base.specs.Faults.{HasCause};

use std::alloc::Global;
use vx_base::{Source, SourceFault};

/// A source that keeps a copy of what is read of it.
#[derive(Drop)]
pub struct CopyingSource<S: Source + Drop> {
    source: S,
    copy: Vec<u8>,
    // whether the copy has all that was read, for which there was memory
    is_whole: bool,
}

impl<S: Source + Drop> CopyingSource<S> {
    /// A source of which nothing has been read.
    pub fn new(alloc: Global, source: S) -> Self {
        CopyingSource {
            source,
            copy: Vec::new(alloc),
            is_whole: true,
        }
    }

    /// What was read, as far as there was memory for it.
    pub fn copy(&self) -> &[u8] {
        self.copy.as_slice()
    }
}

impl<S: Source + Drop> Source for CopyingSource<S> {
    ghost left = { λ s. S.left s.source };

    ghost fault_count = { λ s. S.fault_count s.source };

    fn faults(&self) -> u64 {
        self.source.faults()
    }

    fn read(&mut self, to: &mut [u8]) -> Result<usize, SourceFault> {
        let count = self.source.read(to)?;
        if self.is_whole {
            self.is_whole = self.copy.extend_from_slice(&to[..count]).is_ok();
        }
        Ok(count)
    }
}

/// The line with this number, from 1, without its newline.
pub fn line_of(script: &[u8], number: u32) -> &[u8] {
    let mut at = 1;
    for line in script.split(|byte| *byte == b'\n') {
        if at == number {
            return line;
        }
        if at == u32::MAX {
            break;
        }
        at += 1;
    }
    &[]
}
