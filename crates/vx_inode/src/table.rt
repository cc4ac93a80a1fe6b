//! Inodes by their numbers.
ghost use Rattle.std.specs.Prelude.{◌≡◌, ◌⊎◌, ◌+◌, ◌-◌, ◌*◌, ◌<◌, ◌≤◌, ℕ, IsTrue, OnOk, OnErr, IfOk, IfSome, Err, Some, None, length, is_some};
ghost use Rattle.std.specs.Option.{option_copied};
ghost use Rattle.std.specs.FinMap as map;
ghost use Rattle.vx_inode.specs.Slots.{by_number};
ghost use Rattle.vx_inode.specs.Tables.{inode_at, is_used, with_inode, without_inode, with_change, links_at, link_answer, make_answer, new_inode};

use std::alloc::{AllocError, Global};
use std::marker::Model;
use vx_base::{ExtAttrs, FileKind, Ino, Inode};

/// The most names that an inode may have.
const MAX_LINKS: u16 = 32_767;

/// The inode has as many names as it may have.
#[derive(Clone, Copy, Debug, PartialEq, Eq)]
pub struct TooManyLinks {
    /// The number of its names.
    pub nlink: u16,
}

/// Why no inode is made.
#[derive(Clone, Copy, Debug, PartialEq, Eq)]
pub enum MakeRefusal {
    /// Every number has an inode.
    NoInodes {
        /// The number of inodes.
        in_use: u32,
    },
    NoMemory,
}

/// The inodes in use, by their numbers. A unit has 128 numbers; 0 and 1 are never used.
#[derive(Debug, Drop)]
pub struct InodeTable {
    units: u32,
    slots: Vec<Option<Inode>>,
    // No number from 3 on below this one is unused.
    lowest: u32,
}

impl Model for InodeTable {
    ghost use Rattle.vx_inode.specs.Tables.{Table, IsKept};
    ghost use Rattle.vx_inode.specs.Codes.{coded_table};
    ghost use Rattle.vx_inode.specs.Slots.{by_number};

    ghost Value = { Table };

    ghost coded = { coded_table };

    ghost view = { λ a. record { units = a.units; inodes = by_number a.slots.items } };

    ghost invariant = { λ a. IsKept (record { units = a.units; inodes = by_number a.slots.items }) a.lowest };
}

impl InodeTable {
    /// A table of so many units, without an inode.
    pub fn new(alloc: Global, units: u32) -> Result<Self, AllocError>
        requires some { 1 ≤ units }
        requires few { units ≤ 64 }
        ensures { IfOk result (λ table. table ≡ record { units = units; inodes = map.empty }) }
    {
        let slots = Vec::with_capacity(alloc, 128 * units as usize)?;
        Ok(InodeTable {
            units,
            slots,
            lowest: 3,
        })
    }

    /// The number of units.
    pub fn units(&self) -> u32
        ensures { result ≡ self.now.units }
    {
        self.units
    }

    /// The inode of a number, if it is used.
    pub fn get(&self, ino: Ino) -> Option<&Inode>
        ensures value { option_copied result ≡ inode_at self.now ino }
        ensures place { IfSome result (λ _. (2 ≤ ino) × (ino < 128 * self.now.units)) }
        ensures links { IfSome result (λ inode. inode.now.nlink ≤ 32767) }
    {
        inode_at(self.slots.as_slice(), ino.get() as usize)
    }

    /// Adds an inode under an unused number; unchanged where memory is short.
    pub fn put(&mut self, ino: Ino, value: &Inode) -> Result<(), AllocError>
        requires low { 2 ≤ ino }
        requires high { ino < 128 * self.old.units }
        requires unused { inode_at self.old ino ≡ None }
        requires links { value.now.nlink ≤ 32767 }
        ensures ok { OnOk result (self.new ≡ with_inode self.old ino value.now) }
        ensures err { OnErr result (self.new ≡ self.old) }
    {
        make_room(&mut self.slots, ino.get() as usize + 1)?;
        self.slots[ino.get() as usize] = Some(*value);
        Ok(())
    }

    /// Changes the number of units.
    pub fn set_units(&mut self, units: u32)
        requires some { 1 ≤ units }
        requires few { units ≤ 64 }
        requires unused { (ino : ℕ) → 128 * units ≤ ino → inode_at self.old ino ≡ None }
        ensures { self.new ≡ record self.old { units = units } }
    {
        self.units = units;
    }

    /// Makes an inode with one name and size 0, without attributes, and answers the lowest unused number from 3.
    /// Unchanged where there is none, or where memory is short.
    pub fn make(&mut self, kind: FileKind, mode: u16) -> Result<Ino, MakeRefusal>
        requires { IsTrue (is_used self.old 2) }
        ensures answer { (result ≡ make_answer self.old) ⊎ (result ≡ Err MakeRefusal.NoMemory) }
        ensures made { IfOk result (λ ino. self.new ≡ with_inode self.old ino (new_inode kind mode)) }
        ensures unused { IfOk result (λ ino. (3 ≤ ino) × (ino < 128 * self.old.units) × (inode_at self.old ino ≡ None)) }
        ensures unchanged { OnErr result (self.new ≡ self.old) }
    {
        let end = 128 * self.units;
        self.lowest = first_unused(self.slots.as_slice(), self.lowest, end);
        let ino = self.lowest;
        if ino >= end {
            return Err(MakeRefusal::NoInodes { in_use: end - 2 });
        }
        match make_room(&mut self.slots, ino as usize + 1) {
            Ok(()) => {
                self.slots[ino as usize] = Some(new_inode(kind, mode));
                Ok(Ino::new(ino))
            }
            Err(_) => Err(MakeRefusal::NoMemory),
        }
    }

    /// Sets an inode's mode.
    pub fn set_mode(&mut self, ino: Ino, mode: u16)
        requires { IsTrue (is_used self.old ino) }
        ensures { self.new ≡ with_change self.old ino (λ inode. record inode { mode = mode }) }
    {
        let inode = self.inode(ino);
        self.replace(ino, Inode { mode, ..inode });
    }

    /// Sets an inode's attributes.
    pub fn set_attrs(&mut self, ino: Ino, attrs: ExtAttrs)
        requires { IsTrue (is_used self.old ino) }
        ensures { self.new ≡ with_change self.old ino (λ inode. record inode { attrs = attrs }) }
    {
        let inode = self.inode(ino);
        self.replace(ino, Inode { attrs, ..inode });
    }

    /// Sets an inode's size, in bytes.
    pub fn set_size(&mut self, ino: Ino, size: u64)
        requires { IsTrue (is_used self.old ino) }
        ensures { self.new ≡ with_change self.old ino (λ inode. record inode { size = size }) }
    {
        let inode = self.inode(ino);
        self.replace(ino, Inode { size, ..inode });
    }

    /// Counts one name more; unchanged where the inode has 32,767.
    pub fn link(&mut self, ino: Ino) -> Result<(), TooManyLinks>
        requires { IsTrue (is_used self.old ino) }
        ensures answer { result ≡ link_answer (links_at self.old ino) }
        ensures linked { OnOk result (self.new ≡ with_change self.old ino (λ inode. record inode { nlink = inode.nlink + 1 })) }
        ensures unchanged { OnErr result (self.new ≡ self.old) }
    {
        let inode = self.inode(ino);
        if inode.nlink == MAX_LINKS {
            return Err(TooManyLinks { nlink: inode.nlink });
        }
        let nlink = inode.nlink + 1;
        self.replace(ino, Inode { nlink, ..inode });
        Ok(())
    }

    /// Counts one name less, and answers how many are left.
    pub fn unlink(&mut self, ino: Ino) -> u16
        requires used { IsTrue (is_used self.old ino) }
        requires links { 0 < links_at self.old ino }
        ensures answer { result ≡ links_at self.old ino - 1 }
        ensures unlinked { self.new ≡ with_change self.old ino (λ inode. record inode { nlink = inode.nlink - 1 }) }
    {
        let inode = self.inode(ino);
        let nlink = inode.nlink - 1;
        self.replace(ino, Inode { nlink, ..inode });
        nlink
    }

    /// Makes a number unused.
    pub fn drop_inode(&mut self, ino: Ino)
        requires { IsTrue (is_used self.old ino) }
        ensures { self.new ≡ without_inode self.old ino }
    {
        self.slots[ino.get() as usize] = None;
        self.lowest = self.lowest.min(ino.get().max(3));
    }

    fn inode(&self, ino: Ino) -> Inode
        requires { IsTrue (is_used self.now ino) }
        ensures value { inode_at self.now ino ≡ Some result }
        ensures links { result.nlink ≤ 32767 }
    {
        self.slots[ino.get() as usize].unwrap()
    }

    fn replace(&mut self, ino: Ino, inode: Inode)
        requires used { IsTrue (is_used self.old ino) }
        requires links { inode.nlink ≤ 32767 }
        ensures { self.new ≡ with_inode self.old ino inode }
    {
        self.slots[ino.get() as usize] = Some(inode);
    }
}

fn new_inode(kind: FileKind, mode: u16) -> Inode
    ensures { result ≡ new_inode kind mode }
{
    Inode {
        kind,
        mode,
        nlink: 1,
        size: 0,
        attrs: ExtAttrs {
            fixed: 0,
            reserve: 0,
            flags: 0,
        },
    }
}

fn inode_at(slots: &[Option<Inode>], at: usize) -> Option<&Inode>
    ensures { option_copied result ≡ map.get (by_number slots.now) at }
{
    if at < slots.len() {
        slots[at].as_ref()
    } else {
        None
    }
}

// Makes so many slots.
fn make_room(slots: &mut Vec<Option<Inode>>, count: usize) -> Result<(), AllocError>
    ensures same { by_number slots.new.items ≡ by_number slots.old.items }
    ensures ok { OnOk result (count ≤ length slots.new.items) }
{
    while slots.len() < count {
        slots.push(None)?;
    }
    Ok(())
}

// The first unused number from `from` on, or `end`.
fn first_unused(slots: &[Option<Inode>], from: u32, end: u32) -> u32
    ensures used { (q : ℕ) → from ≤ q → q < result → IsTrue (is_some (map.get (by_number slots.now) q)) }
    ensures unused { result < end → map.get (by_number slots.now) result ≡ None }
    ensures low { from ≤ end → from ≤ result }
    ensures high { result ≤ end }
{
    for ino in from..end {
        if inode_at(slots, ino as usize).is_none() {
            return ino;
        }
    }
    end
}
