//! The extents of an inode.
ghost use Rattle.std.specs.Prelude.{◌≡◌, ◌+◌, ◌*◌, ◌<◌, ◌≤◌, ◌^◌, ◌++◌, ℕ, List, Some, None, true, false, length, IsTrue};
ghost use Rattle.std.specs.List.{flat_map, AllByRecursion};
ghost use Rattle.vx_layout.specs.Places.{Volume, IsVolume, is_data};
ghost use Rattle.vx_sound.specs.Said.{Image, extent_blocks, extents_said, chain_said, blocks_said, claims_below};
ghost use Rattle.vx_sound.specs.Facts.{IsExtentRight, Follows, AreInOrder, AreWithoutHoles, FitKind, AreExtentsRight};
ghost use Rattle.vx_check.specs.Parts.{AreMarksOf, HasRoom};
ghost use Rattle.vx_check.specs.Extents.{pages_of};
ghost use Rattle.vx_base.specs.declared.kind.FileKind.TheVariants.{Directory};

use crate::claims::claim_all;
use vx_base::{Extent, FileKind, Ino, InodeValue, Kind};
use vx_layout::Volume;

const LARGEST_FILE: u64 = 65536;

const DIRECTORY_BLOCKS: u64 = 64;

/// Bytes in a block.
const BLOCK: u64 = 1024;

const NO_RESERVE: u8 = 8;

/// Whether an extent is right by itself.
fn is_right(value: &InodeValue, e: &Extent) -> bool
    ensures right { (v : Volume) → v.block ≡ 1024 → result ≡ true → IsExtentRight v value.now e.now }
    ensures wrong { (v : Volume) → v.block ≡ 1024 → result ≡ false → IsExtentRight v value.now e.now → ⊥ }
{
    let end = e.page.get() as u64 + e.len as u64;
    if e.len < 1 || end > LARGEST_FILE {
        return false;
    }
    match e.kind {
        Kind::Data => BLOCK * (end - 1) < value.inode.size,
        Kind::Reserved => value.inode.attrs.flags & NO_RESERVE == 0,
    }
}

fn are_right(value: &InodeValue, extents: &[Extent]) -> bool
    ensures right { (v : Volume) → v.block ≡ 1024 → result ≡ true → AllByRecursion (IsExtentRight v value.now) extents.now }
    ensures wrong { (v : Volume) → v.block ≡ 1024 → result ≡ false → AllByRecursion (IsExtentRight v value.now) extents.now → ⊥ }
{
    for extent in extents {
        if !is_right(value, extent) {
            return false;
        }
    }
    true
}

fn is_same(a: Kind, b: Kind) -> bool
    ensures right { result ≡ true → a ≡ b }
    ensures wrong { result ≡ false → a ≡ b → ⊥ }
{
    match a {
        Kind::Data => match b {
            Kind::Data => true,
            Kind::Reserved => false,
        },
        Kind::Reserved => match b {
            Kind::Data => false,
            Kind::Reserved => true,
        },
    }
}

/// Whether an extent may follow one.
fn follows(e: &Extent, f: &Extent) -> bool
    ensures right { result ≡ true → Follows e.now f.now }
    ensures wrong { result ≡ false → Follows e.now f.now → ⊥ }
{
    let end = e.page.get() as u64 + e.len as u64;
    let page = f.page.get() as u64;
    if end > page {
        return false;
    }
    if end < page {
        return true;
    }
    if e.start.get() as u64 + e.len as u64 != f.start.get() as u64 {
        return true;
    }
    !is_same(e.kind, f.kind)
}

fn are_in_order(extents: &[Extent]) -> bool
    ensures right { result ≡ true → AreInOrder extents.now }
    ensures wrong { result ≡ false → AreInOrder extents.now → ⊥ }
{
    for t in 1..extents.len() {
        if !follows(&extents[t - 1], &extents[t]) {
            return false;
        }
    }
    true
}

/// How many pages the extents have, where these are data from page 0 on without a hole, and at most so many as a directory may have.
fn pages_without_holes(extents: &[Extent]) -> Option<u64>
    ensures some { (n : ℕ) → result ≡ Some n → AreWithoutHoles 0 extents.now × (n ≡ pages_of extents.now) × (n ≤ 64) }
    ensures none { result ≡ None → AreWithoutHoles 0 extents.now → pages_of extents.now ≤ 64 → ⊥ }
{
    let mut at = 0;
    for e in extents {
        if e.page.get() as u64 != at
            || !is_same(e.kind, Kind::Data)
            || e.len as u64 > DIRECTORY_BLOCKS - at
        {
            return None;
        }
        at += e.len as u64;
    }
    Some(at)
}

fn fit_kind(value: &InodeValue, extents: &[Extent]) -> bool
    ensures right { (v : Volume) → v.block ≡ 1024 → result ≡ true → FitKind value.now.inode.kind v value.now (flat_map extent_blocks extents.now) extents.now }
    ensures wrong { (v : Volume) → v.block ≡ 1024 → result ≡ false → FitKind value.now.inode.kind v value.now (flat_map extent_blocks extents.now) extents.now → ⊥ }
{
    match value.inode.kind {
        FileKind::File => true,
        FileKind::Directory => match pages_without_holes(extents) {
            Some(pages) => value.inode.size == BLOCK * pages,
            None => false,
        },
    }
}

/// All that is said of an inode's extents; their blocks are claimed.
pub(crate) fn check_extents(
    volume: &Volume,
    marks: &mut [bool],
    ino: Ino,
    value: &InodeValue,
    extents: &[Extent],
) -> bool
    requires volume { IsVolume volume.now }
    requires block { volume.now.block ≡ 1024 }
    requires room { HasRoom volume.now marks.old }
    requires small { length marks.old < 2 ^ 32 }
    ensures room { HasRoom volume.now marks.new }
    ensures right { (image : Image) → extents.now ≡ extents_said volume.now image value.now → AreMarksOf marks.old (claims_below volume.now image ino ++ chain_said volume.now image value.now)
        → result ≡ true → AreExtentsRight volume.now image ino value.now
        × AreMarksOf marks.new ((claims_below volume.now image ino ++ chain_said volume.now image value.now) ++ blocks_said volume.now image value.now) }
    ensures wrong { (image : Image) → extents.now ≡ extents_said volume.now image value.now → AreMarksOf marks.old (claims_below volume.now image ino ++ chain_said volume.now image value.now)
        → result ≡ false → AreExtentsRight volume.now image ino value.now → ⊥ }
    ensures few { result ≡ true → value.now.inode.kind ≡ Directory → length (flat_map extent_blocks extents.now) ≤ 64 }
    ensures data { result ≡ true → AllByRecursion (λ b. IsTrue (is_data volume.now b)) (flat_map extent_blocks extents.now) }
{
    if !are_right(value, extents) {
        return false;
    }
    if !are_in_order(extents) {
        return false;
    }
    if !fit_kind(value, extents) {
        return false;
    }
    claim_all(volume, marks, extents)
}
