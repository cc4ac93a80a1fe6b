//! The map blocks of an inode.
ghost use Rattle.std.specs.Prelude.{◌≡◌, ◌+◌, Bool, ◌<◌, ◌++◌, ◌∷◌, [], ℕ, List, Some, None, IfOk, OnOk, is_some, nat_lt, length, take, get_or, map};
ghost use Rattle.std.specs.List.{flat_map};
ghost use Rattle.vx_layout.specs.Places.{Volume};
ghost use Rattle.vx_sound.specs.FirstFault.{numbers};
ghost use Rattle.vx_sound.specs.Said.{inode_count, inode_said, map_said, chain_said, claims_below, share_of};
ghost use Rattle.vx_sound.specs.Checks.{map_checks};
ghost use Rattle.vx_check.specs.Parts.{Known, HasRead, IsReadable, HasRoom, FindsIn, IsCause, AreMarksOf};
ghost use Rattle.vx_check.specs.Chains.{next_fits, map_fits, map_extents};

use crate::reader::{Fault, Sectors, read_block};
use crate::stop::Stop;
use std::alloc::{AllocError, Global};
use vx_base::{Block, Extent, Ino, InodeValue};
use vx_codec::{MapRefusal, MapValue, map_spelling, read_map};
use vx_layout::Volume;

fn next_fits(next: Option<Block>, more: bool) -> bool
    ensures { result ≡ next_fits next more }
{
    match next {
        Some(_) => more,
        None => !more,
    }
}

/// How many extents the k-th map block of so many extents has.
fn share(extents: u32, k: u32) -> u32
    requires { k < 65536 }
    ensures { (v : Volume) → v.block ≡ 1024 → result ≡ share_of v extents k }
{
    let rest = extents.saturating_sub(6).saturating_sub(63 * k);
    if rest < 63 { rest } else { 63 }
}

fn map_fits(map: &MapValue, ino: Ino, k: u32, value: &InodeValue) -> bool
    requires { k < 65536 }
    ensures { (v : Volume) → v.block ≡ 1024 → result ≡ map_fits v ino k value.now map.now }
{
    map.ino() == ino
        && map.extents().len() == share(value.extents, k) as usize
        && next_fits(map.next(), k + 1 < value.maps as u32)
}

/// The k-th map block of an inode: a data block that nothing claims, which is claimed, and whose bytes are right.
fn check_map<D: Sectors>(
    alloc: Global,
    dev: &mut D,
    volume: &Volume,
    marks: &mut [bool],
    ino: Ino,
    value: &InodeValue,
    k: u32,
    b: Block,
) -> Result<MapValue, Stop>
    requires readable { IsReadable volume.now (D.view dev.old) }
    requires room { HasRoom volume.now marks.old }
    requires inode { ino < inode_count volume.now }
    requires few { k < 65536 }
    requires said { Known (D.view dev.old) (λ image. inode_said volume.now image ino ≡ Some value.now) }
    requires at { Known (D.view dev.old) (λ image. b ≡ get_or (chain_said volume.now image value.now) k 0) }
    requires marks { Known (D.view dev.old) (λ image. AreMarksOf marks.old (claims_below volume.now image ino ++ take k (chain_said volume.now image value.now))) }
    ensures finds { FindsIn (D.view dev.new) volume.now (λ image. map_checks ino k) result }
    ensures next { IfOk result (λ m. is_some m.next ≡ nat_lt (k + 1) value.now.maps) }
    ensures map { IfOk result (λ m. Known (D.view dev.new) (λ image. map_said volume.now image b ≡ m)) }
    ensures marks { OnOk result (Known (D.view dev.new) (λ image. AreMarksOf marks.new ((claims_below volume.now image ino ++ take k (chain_said volume.now image value.now)) ++ b ∷ []))) }
    ensures room { HasRoom volume.now marks.new }
    ensures read { HasRead (D.view dev.old) (D.view dev.new) }
    ensures cause { IsCause (D.view dev.old) (D.view dev.new) result }
{
    // The proof rests on this law; nothing runs here.
    map_spelling();
    let inode_sector = volume.inode_place(ino).0.get();
    if !volume.is_data(b) || marks[b.get() as usize] {
        return Err(Stop::BadMeta {
            sector: inode_sector,
        });
    }
    marks[b.get() as usize] = true;
    let sector = volume.block_sector(b).get();
    let bytes = match read_block(dev, volume, b) {
        Ok(bytes) => bytes,
        Err(Fault::Read) => return Err(Stop::ReadFault),
        Err(Fault::NoMemory) => return Err(Stop::NoMemory),
    };
    match read_map::<1024>(alloc, &bytes) {
        Ok(map) => {
            if map_fits(&map, ino, k, value) {
                Ok(map)
            } else {
                Err(Stop::BadMeta { sector })
            }
        }
        Err(MapRefusal::Bad) => Err(Stop::BadMeta { sector }),
        Err(MapRefusal::NoMemory) => Err(Stop::NoMemory),
    }
}

/// Adds the extents of a map block behind those that stand before.
fn add_extents(extents: &mut Vec<Extent>, more: &[Extent]) -> Result<(), AllocError>
    ensures { OnOk result (extents.new.items ≡ extents.old.items ++ more.now) }
{
    for extent in more {
        extents.push(*extent)?;
    }
    Ok(())
}

/// All map blocks of an inode, in order; adds their extents, and answers where they are.
pub(crate) fn check_maps<D: Sectors>(
    alloc: Global,
    dev: &mut D,
    volume: &Volume,
    marks: &mut [bool],
    extents: &mut Vec<Extent>,
    ino: Ino,
    value: &InodeValue,
) -> Result<Vec<Block>, Stop>
    requires readable { IsReadable volume.now (D.view dev.old) }
    requires room { HasRoom volume.now marks.old }
    requires inode { ino < inode_count volume.now }
    requires chained { is_some value.now.map ≡ nat_lt 0 value.now.maps }
    requires said { Known (D.view dev.old) (λ image. inode_said volume.now image ino ≡ Some value.now) }
    requires marks { Known (D.view dev.old) (λ image. AreMarksOf marks.old (claims_below volume.now image ino)) }
    ensures finds { FindsIn (D.view dev.new) volume.now (λ image. flat_map (map_checks ino) (numbers 0 value.now.maps)) result }
    ensures maps { IfOk result (λ maps. Known (D.view dev.new) (λ image. maps.items ≡ chain_said volume.now image value.now)) }
    ensures extents { OnOk result (Known (D.view dev.new) (λ image. extents.new.items ≡ extents.old.items ++ flat_map (map_extents volume.now image) (chain_said volume.now image value.now))) }
    ensures marks { OnOk result (Known (D.view dev.new) (λ image. AreMarksOf marks.new (claims_below volume.now image ino ++ chain_said volume.now image value.now))) }
    ensures room { HasRoom volume.now marks.new }
    ensures read { HasRead (D.view dev.old) (D.view dev.new) }
    ensures cause { IsCause (D.view dev.old) (D.view dev.new) result }
{
    let mut maps = Vec::new(alloc);
    let mut at = value.map;
    for k in 0..value.maps as u32 {
        let Some(b) = at else { unreachable!() };
        match check_map(alloc, dev, volume, marks, ino, value, k, b) {
            Ok(map) => {
                at = map.next();
                match add_extents(extents, map.extents()) {
                    Ok(()) => {}
                    Err(_) => return Err(Stop::NoMemory),
                }
                match maps.push(b) {
                    Ok(()) => {}
                    Err(_) => return Err(Stop::NoMemory),
                }
            }
            Err(stop) => return Err(stop),
        }
    }
    Ok(maps)
}
