//! What the sectors of a log say when they are read.
ghost use Rattle.std.specs.Prelude.{◌≡◌, ◌+◌, ◌*◌, ◌<◌, ◌≤◌, ◌^◌, ◌&&◌, ℕ, List, Some, IfSome, IsTrue, ◌↔◌, length};
ghost use Rattle.std.specs.List.{AllByRecursion};
ghost use Rattle.std.specs.List.Sorted.{IsStrictlyIncreasing};
ghost use Rattle.vx_layout.specs.LogForms as forms;
ghost use Rattle.vx_layout.specs.LogForms.{IsNameable, numbers_at};
ghost use Rattle.vx_log.specs.Ends.{IsEnds, ends_bytes, ends_at, ends_fit, AreNames};

use crate::descriptor::descriptor_of;
use crate::head::head_sector;
use std::marker::Model;
use vx_base::SectorNo;
use vx_layout::fields::{u32_at, u64_at};
use vx_layout::log_fields;

/// The most homes that a descriptor names.
const RECORD_IMAGES: u32 = 124;

/// The greatest position of a log's head.
const LAST_POSITION: u64 = 1 << 62;

/// What a head sector says: how many head sectors were written before it, modulo 2^64, and the positions at which the live part of
/// the log begins and before which it ends.
#[derive(Clone, Copy, Debug, PartialEq, Eq)]
pub struct Ends {
    pub serial: u64,
    pub tail: u64,
    pub head: u64,
}

/// What the head sector of a log of so many sectors says; None where it is none.
pub fn read_head(sector: &[u8; 512], sectors: u32) -> Option<Ends>
    // What is read is spelled so.
    ensures found { IfSome result (λ e. IsEnds sectors e × (sector.now ≡ ends_bytes e)) }
    // What is spelled so is read.
    ensures only { (e : Ends) → IsEnds sectors e → sector.now ≡ ends_bytes e → result ≡ Some e }
{
    // The proof rests on this law; nothing runs here.
    log_fields();
    let ends = ends_of(sector);
    if ends_fit(ends, sectors) && head_sector(ends.serial, ends.tail, ends.head) == *sector {
        Some(ends)
    } else {
        None
    }
}

fn ends_of(sector: &[u8; 512]) -> Ends
    ensures { result ≡ ends_at sector.now }
{
    Ends {
        serial: u64_at(sector, 8),
        tail: u64_at(sector, 16),
        head: u64_at(sector, 24),
    }
}

fn ends_fit(ends: Ends, sectors: u32) -> bool
    ensures { result ≡ ends_fit sectors ends }
{
    ends.head <= LAST_POSITION
        && ends.tail <= ends.head
        && ends.head - ends.tail <= u64::from(sectors)
}

/// The home sectors that a descriptor names, rising.
#[derive(Drop)]
pub struct Descriptor {
    count: usize,
    homes: [SectorNo; 124],
}

impl Model for Descriptor {
    ghost use Rattle.std.specs.Prelude.{ℕ, ◌≤◌, List, take};

    ghost Value = { List ℕ };

    ghost view = { λ d. take d.count d.homes };

    ghost invariant = { λ d. d.count ≤ 124 };
}

impl Descriptor {
    /// The sectors.
    pub fn homes(&self) -> &[SectorNo]
        ensures { result.now ≡ self.now }
    {
        &self.homes[..self.count]
    }
}

/// What the descriptor at a position of a log of so many sectors names, on a device of `size` sectors; None where it is none.
pub fn read_descriptor(
    sector: &[u8; 512],
    position: u64,
    sectors: u32,
    size: u64,
) -> Option<Descriptor>
    // What is read is spelled so.
    ensures found { IfSome result (λ homes. AreNames sectors size homes × (sector.now ≡ forms.descriptor position homes)) }
    // What is spelled so is read.
    ensures only { (homes : List ℕ) → AreNames sectors size homes → sector.now ≡ forms.descriptor position homes → result ≡ Some homes }
{
    // The proof rests on this law; nothing runs here.
    log_fields();
    let count = u32_at(sector, 4);
    if count < 1 || count > RECORD_IMAGES {
        return None;
    }
    let names = names_of(sector, count);
    if are_names(names.homes(), sectors, size)
        && descriptor_of(position, names.homes()) == *sector
    {
        Some(names)
    } else {
        None
    }
}

/// The first numbers behind a descriptor's own fields.
fn names_of(sector: &[u8; 512], count: u32) -> Descriptor
    requires { count ≤ 124 }
    ensures { result ≡ numbers_at count 16 sector.now }
{
    let mut homes = [SectorNo::new(0); 124];
    let count = count as usize;
    for i in 0..count {
        homes[i] = SectorNo::new(u32_at(sector, 16 + 4 * i));
    }
    Descriptor { count, homes }
}

/// Whether these sectors rise, and each is one that a descriptor may name.
fn are_names(homes: &[SectorNo], sectors: u32, size: u64) -> bool
    ensures yes { IsTrue result → IsStrictlyIncreasing homes.now × AllByRecursion (IsNameable sectors size) homes.now }
    ensures only { IsStrictlyIncreasing homes.now → AllByRecursion (IsNameable sectors size) homes.now → IsTrue result }
{
    for i in 0..homes.len() {
        if !is_nameable(homes[i], sectors, size) {
            return false;
        }
        if 0 < i && homes[i - 1].get() >= homes[i].get() {
            return false;
        }
    }
    true
}

fn is_nameable(home: SectorNo, sectors: u32, size: u64) -> bool
    ensures { IsTrue result ↔ IsNameable sectors size home }
{
    let s = u64::from(home.get());
    (s == 0 || 4 + u64::from(sectors) <= s) && s < size
}
