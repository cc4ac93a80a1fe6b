//! Where each name of a directory stands.
ghost use Rattle.std.specs.Prelude.{◌≡◌, ◌≤◌, false, IfOk, OnOk, OnErr};
ghost use Rattle.std.specs.FinMap as map;
ghost use Rattle.std.specs.List.{count_by};
ghost use Rattle.vx_base.specs.Paths.{FileName};
ghost use Rattle.vx_dir.specs.Directories.{is_named, holds};
ghost use Rattle.vx_dir.specs.Index.{AreNew, HasGained, HasLost};

use std::alloc::{AllocError, Global};
use std::collections::BTreeMap;
use std::marker::Model;
use vx_base::{DirEntry, Ino, Name};

/// The block that holds a name, and the inode that the name means.
#[derive(Clone, Copy, Debug, PartialEq, Eq)]
pub struct Spot {
    /// Blocks count from 0.
    pub block: u32,
    pub ino: Ino,
}

/// The spots of a directory's names, found by name.
#[derive(Debug, Drop)]
pub struct NameIndex {
    spots: BTreeMap<Name, Spot>,
}

impl Model for NameIndex {
    ghost use Rattle.std.specs.FinMap as map;
    ghost use Rattle.vx_dir.specs.Index.{Spots, coded_spots};

    ghost Value = { Spots };

    ghost coded = { coded_spots };

    ghost view = { λ a. map.from_entries a.spots.entries };
}

impl NameIndex {
    pub fn new(alloc: Global) -> Self
        ensures { result ≡ map.empty }
    {
        NameIndex {
            spots: BTreeMap::new(alloc),
        }
    }

    pub fn find(&self, name: &Name) -> Option<Spot>
        ensures { result ≡ map.get self.now name.now }
    {
        self.spots.get(name).copied()
    }

    pub fn holds(&self, name: &Name) -> bool
        ensures { result ≡ map.contains_key self.now name.now }
    {
        self.find(name).is_some()
    }

    /// Gives a name its spot; unchanged where memory is short.
    pub fn insert(&mut self, name: &Name, spot: Spot) -> Result<(), AllocError>
        ensures ok { OnOk result (self.new ≡ map.insert self.old name.now spot) }
        ensures err { OnErr result (self.new ≡ self.old) }
    {
        self.spots.insert(name.clone()?, spot)?;
        Ok(())
    }

    /// Takes a name out, and answers its spot, if it had one.
    pub fn remove(&mut self, name: &Name) -> Option<Spot>
        ensures spot { result ≡ map.get self.old name.now }
        ensures removed { self.new ≡ map.remove self.old name.now }
    {
        self.spots.remove(name)
    }

    /// The same index, in memory of its own.
    pub fn copy(&self) -> Result<NameIndex, AllocError>
        ensures { IfOk result (λ copy. copy ≡ self.now) }
    {
        let spots = self.spots.clone()?;
        Ok(NameIndex { spots })
    }

    /// Gives the names of a block's entries their spots; unchanged where memory is short.
    pub fn insert_entries(&mut self, block: u32, entries: &[DirEntry]) -> Result<(), AllocError>
        requires distinct { (name : FileName) → count_by (is_named name) entries.now ≤ 1 }
        requires new { AreNew entries.now self.old }
        ensures ok { OnOk result (HasGained block entries.now self.old self.new) }
        ensures err { OnErr result (self.new ≡ self.old) }
    {
        match insert_each(self, block, entries) {
            Ok(()) => Ok(()),
            Err(error) => {
                remove_each(self, entries);
                Err(error)
            }
        }
    }
}

// Where memory is short, some of the names have their spots.
fn insert_each(index: &mut NameIndex, block: u32, entries: &[DirEntry]) -> Result<(), AllocError>
    requires distinct { (name : FileName) → count_by (is_named name) entries.now ≤ 1 }
    requires new { AreNew entries.now index.old }
    ensures ok { OnOk result (HasGained block entries.now index.old index.new) }
    ensures others { (name : FileName) → holds name entries.now ≡ false → map.get index.new name ≡ map.get index.old name }
{
    for entry in entries {
        let ino = entry.ino;
        index.insert(&entry.name, Spot { block, ino })?;
    }
    Ok(())
}

fn remove_each(index: &mut NameIndex, entries: &[DirEntry])
    ensures { HasLost entries.now index.old index.new }
{
    for entry in entries {
        index.remove(&entry.name);
    }
}
