//! The names of a directory.
ghost use Rattle.std.specs.Prelude.{◌≡◌, ◌||◌, not, true, false, Ok, IfOk, OnOk, ◌++◌, [], List};
ghost use Rattle.std.specs.Str.{bytes_eq};
ghost use Rattle.vx_base.specs.Paths.{FileName, is_name};
ghost use Rattle.vx_base.specs.declared.inode.DirEntry.{DirEntry};
ghost use Rattle.vx_sound.specs.Facts.{is_legal, AreNamesRight};
ghost use Rattle.vx_check.specs.Directories.{has, AreNamesOf};

use std::alloc::{AllocError, Global};
use std::collections::BTreeSet;
use std::marker::Model;
use vx_base::{DirEntry, Name};

const LONGEST_NAME: usize = 255;

/// The names of a directory that were met.
#[derive(Drop)]
pub(crate) struct NameSet {
    names: BTreeSet<Name>,
}

impl Model for NameSet {
    ghost use Rattle.std.specs.Prelude.{List};
    ghost use Rattle.vx_base.specs.Paths.{FileName};

    ghost Value = { List FileName };

    ghost view = { λ a. a.names.keys };
}

impl NameSet {
    pub fn new(alloc: Global) -> Self
        ensures { result ≡ [] }
    {
        NameSet {
            names: BTreeSet::new(alloc),
        }
    }

    /// Adds a name, and answers whether it is new.
    fn add(&mut self, name: &Name) -> Result<bool, AllocError>
        ensures new { IfOk result (λ new. new ≡ not (has self.old name.now)) }
        ensures has { OnOk result ((q : FileName) → has self.new q ≡ (bytes_eq name.now q || has self.old q)) }
    {
        let new = self.names.insert(name.clone()?)?;
        Ok(new)
    }
}

fn is_name(name: &[u8]) -> bool
    ensures { result ≡ is_name name.now }
{
    !name.is_empty()
        && name.len() <= LONGEST_NAME
        && !name.contains(&0)
        && name != b".".as_slice()
        && name != b"..".as_slice()
}

/// Whether a name may stand in a directory.
fn is_legal(name: &[u8]) -> bool
    ensures { result ≡ is_legal name.now }
{
    is_name(name) && !name.contains(&b'/')
}

/// Whether the names of a block are legal, and neither stand twice nor among those that were met, to which they are added.
pub(crate) fn check_names(names: &mut NameSet, entries: &[DirEntry]) -> Result<bool, AllocError>
    ensures right { (before : List DirEntry) → AreNamesOf names.old before → result ≡ Ok true
        → AreNamesRight before entries.now × AreNamesOf names.new (before ++ entries.now) }
    ensures wrong { (before : List DirEntry) → AreNamesOf names.old before → result ≡ Ok false → AreNamesRight before entries.now → ⊥ }
{
    for entry in entries {
        if !is_legal(entry.name.as_slice()) {
            return Ok(false);
        }
        let new = names.add(&entry.name)?;
        if !new {
            return Ok(false);
        }
    }
    Ok(true)
}
