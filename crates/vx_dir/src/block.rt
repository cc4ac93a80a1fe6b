//! One block of a directory.
ghost use Rattle.std.specs.Prelude.{◌≡◌, ◌+◌, ◌^◌, ◌<◌, ◌≤◌, ◌++◌, ◌∷◌, [], length, OnOk, OnErr, IsTrue};
ghost use Rattle.vx_dir.specs.Directories.{place_of, holds, is_named, without_entry};
ghost use Rattle.vx_dir.specs.Sizes.{entry_size, used_by};

use std::alloc::{AllocError, Global};
use std::marker::Model;
use vx_base::{DirEntry, Name};

/// The entries of a block, in the order in which they stand there.
#[derive(Debug, Drop)]
pub struct DirBlock {
    // The bytes that the entries take.
    used: u32,
    entries: Vec<DirEntry>,
}

impl Model for DirBlock {
    ghost use Rattle.std.specs.Prelude.{◌≡◌, List};
    ghost use Rattle.vx_base.specs.declared.inode.DirEntry.{DirEntry};
    ghost use Rattle.vx_dir.specs.Sizes.{used_by};

    ghost Value = { List DirEntry };

    ghost view = { λ a. a.entries.items };

    ghost invariant = { λ a. a.used ≡ used_by a.entries.items };
}

impl DirBlock {
    pub fn new(alloc: Global) -> Self
        ensures { result ≡ [] }
    {
        DirBlock {
            used: 0,
            entries: Vec::new(alloc),
        }
    }

    pub fn len(&self) -> usize
        ensures { result ≡ length self.now }
    {
        self.entries.len()
    }

    /// The bytes that the entries take.
    pub fn used(&self) -> u32
        ensures { result ≡ used_by self.now }
    {
        self.used
    }

    pub fn as_slice(&self) -> &[DirEntry]
        ensures { result.now ≡ self.now }
    {
        self.entries.as_slice()
    }

    /// Adds an entry behind the last; unchanged where memory is short.
    pub fn push(&mut self, entry: DirEntry) -> Result<(), AllocError>
        requires { used_by self.old + entry_size entry < 2 ^ 32 }
        ensures ok { OnOk result (self.new ≡ self.old ++ entry ∷ []) }
        ensures err { OnErr result (self.new ≡ self.old) }
    {
        let size = 5 + entry.name.as_slice().len() as u32;
        self.entries.push(entry)?;
        self.used += size;
        Ok(())
    }

    /// Removes the entry of a name.
    pub fn remove(&mut self, name: &Name)
        requires { IsTrue (holds name.now self.old) }
        ensures { self.new ≡ without_entry name.now self.old }
    {
        let at = place_of(self.entries.as_slice(), name);
        let entry = self.entries.remove(at);
        self.used -= 5 + entry.name.as_slice().len() as u32;
    }
}

fn place_of(entries: &[DirEntry], name: &Name) -> usize
    ensures { result ≡ place_of name.now entries.now }
{
    for i in 0..entries.len() {
        if entries[i].name == *name {
            return i;
        }
    }
    entries.len()
}
