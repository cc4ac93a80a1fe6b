//! What the calls answer on small maps.
use crate::free_map::FreeMap;
use std::alloc::{AllocError, Global};
use std::process::Abort;
use std::test::Fail;
use vx_base::{Block, Geom};

#[test]
fn a_fresh_unit(rt: HostRuntime) -> Result<(), Fail> {
    let mut map = FreeMap::new(rt.alloc(), Block::new(514), 1)?;
    assert_eq!(rt; map.free(), 4063);
    assert_eq!(rt; map.longest(), 4063);
    assert_eq!(rt; map.take_run(4064), None);
    assert_eq!(rt; map.take_next(None, Some(8)), Some(Block::new(547)));
    assert_eq!(rt; map.take_aligned(8, 8), Some(Block::new(554)));
    assert_eq!(rt;
        map.take_next(Some(Block::new(547)), None),
        Some(Block::new(548))
    );
    assert_eq!(rt; map.take_next(None, None), Some(Block::new(562)));
    assert_eq!(rt; map.take_run(5), Some(Block::new(549)));
    assert_eq!(rt; map.free(), 4063 - 16);
    Ok(())
}

#[test]
fn a_pending_block(rt: HostRuntime) -> Result<(), Fail> {
    let mut map = FreeMap::new(rt.alloc(), Block::new(514), 1)?;
    let block = Block::new(547);
    assert!(rt; map.is_free(block));
    map.take_block(block);
    assert!(rt; map.is_used(block));
    map.pend(5, block);
    assert_eq!(rt; map.pending(), 1);
    assert_eq!(rt; map.release(5), 0);
    assert!(rt; !map.is_free(block));
    assert_eq!(rt; map.release(6), 1);
    assert!(rt; map.is_free(block));
    map.take_block(block);
    assert!(rt; map.is_used(block));
    map.give(block);
    assert_eq!(rt; map.free(), 4063);
    Ok(())
}

#[test]
fn more_units(rt: HostRuntime) -> Result<(), Fail> {
    let mut map = FreeMap::with(rt.alloc(), Block::new(514), 1, Geom::layout1())?;
    map.reserve_units(2)?;
    assert_eq!(rt; map.free(), 4063);
    map.grow(2);
    assert_eq!(rt; map.free(), 2 * 4063);
    assert_eq!(rt; map.longest(), 4063);
    map.bar(1);
    assert_eq!(rt; map.free(), 4063);
    map.unbar();
    assert_eq!(rt; map.free(), 2 * 4063);
    Ok(())
}

#[test]
fn fewer_units(rt: HostRuntime) -> Result<(), Fail> {
    let mut map = FreeMap::new(rt.alloc(), Block::new(514), 2)?;
    map.bar(1);
    map.shrink(1);
    assert_eq!(rt; map.free(), 4063);
    assert!(rt; !map.is_free(Block::new(514 + 4096 + 33)));
    Ok(())
}

// ---- against a search block by block

const FIRST: u32 = 514;

const UNITS: u32 = 2;

// A data block of unit 0 or 1, of the 24 that each has here.
const LOW: u32 = FIRST + 4096 - 24;

const HIGH: u32 = LOW + 4096;

#[derive(Clone, Copy)]
enum Step {
    Run(u32),
    Aligned(u32, u32),
    Next(Option<u32>, Option<u32>),
    Take(u32),
    Give(u32),
    Pend(u64, u32),
    Release(u64),
    Bar(u32),
    Unbar,
}

/// Whether each block of the units is free, asked block by block.
fn free_bits(alloc: Global, map: &FreeMap) -> Result<Vec<bool>, AllocError> {
    let mut bits = Vec::new(alloc);
    for i in 0..4096 * UNITS {
        bits.push(map.is_free(Block::new(FIRST + i)))?;
    }
    Ok(bits)
}

fn count_by_walk(bits: &[bool]) -> u32 {
    let mut count: u32 = 0;
    for bit in bits {
        if *bit {
            count = count.saturating_add(1);
        }
    }
    count
}

fn longest_by_walk(bits: &[bool]) -> u32 {
    let mut longest: u32 = 0;
    let mut len: u32 = 0;
    for bit in bits {
        len = if *bit { len.saturating_add(1) } else { 0 };
        longest = longest.max(len);
    }
    longest
}

fn is_multiple(place: u32, align: u32) -> bool {
    if align == 0 {
        place == 0
    } else {
        place % align == 0
    }
}

/// The lowest aligned start of n free blocks.
fn lowest_by_walk(bits: &[bool], n: u32, align: u32) -> Option<Block> {
    let mut len: u32 = 0;
    let mut end: u32 = 0;
    for bit in bits {
        len = if *bit { len.saturating_add(1) } else { 0 };
        end = end.saturating_add(1);
        let start = end.saturating_sub(n);
        if len >= n && is_multiple(start % 4096, align) {
            return Some(Block::new(start.saturating_add(FIRST)));
        }
    }
    None
}

/// Where a page goes.
fn next_by_walk(bits: &[bool], after: Option<u32>, first: Option<u32>) -> Option<Block> {
    if let Some(block) = after {
        let next = block.saturating_add(1);
        let place = next.saturating_sub(FIRST);
        if place % 4096 != 0 && matches!(bits.get(place as usize), Some(true)) {
            return Some(Block::new(next));
        }
    }
    if let Some(n) = first {
        let start = lowest_by_walk(bits, n.max(1), 1);
        if start.is_some() {
            return start;
        }
    }
    match longest_by_walk(bits) {
        0 => None,
        longest => lowest_by_walk(bits, longest, 1),
    }
}

/// Does a step, and stops where its answer is not the one of the walk.
fn run_step(rt: &(impl Abort + AllocGlobal), map: &mut FreeMap, step: Step) -> Result<(), Fail> {
    let bits = free_bits(rt.alloc(), map)?;
    match step {
        Step::Run(n) => assert_eq!(rt; map.take_run(n.max(1)), lowest_by_walk(&bits, n.max(1), 1)),
        Step::Aligned(n, align) => {
            assert_eq!(rt;
                map.take_aligned(n.max(1), align),
                lowest_by_walk(&bits, n.max(1), align)
            );
        }
        Step::Next(after, first) => {
            let block = match after {
                Some(after) => Some(Block::new(after)),
                None => None,
            };
            assert_eq!(rt;
                map.take_next(block, first),
                next_by_walk(&bits, after, first)
            );
        }
        Step::Take(block) => {
            assert!(rt; map.is_free(Block::new(block)));
            map.take_block(Block::new(block));
        }
        Step::Give(block) => {
            assert!(rt; map.is_used(Block::new(block)));
            map.give(Block::new(block));
        }
        Step::Pend(place, block) => {
            assert!(rt; map.is_used(Block::new(block)));
            map.pend(place, Block::new(block));
        }
        Step::Release(upto) => {
            let pending = map.pending();
            let released = map.release(upto);
            assert_eq!(rt; map.pending().checked_add(released), Some(pending));
        }
        Step::Bar(unit) => map.bar(unit),
        Step::Unbar => map.unbar(),
    }
    let bits = free_bits(rt.alloc(), map)?;
    assert_eq!(rt; map.free(), count_by_walk(&bits));
    assert_eq!(rt; map.longest(), longest_by_walk(&bits));
    Ok(())
}

#[test]
fn as_a_walk_finds_it(rt: HostRuntime) -> Result<(), Fail> {
    let steps = [
        Step::Run(5),
        Step::Take(LOW + 7),
        Step::Take(LOW + 9),
        Step::Next(Some(LOW + 4), None),
        Step::Next(None, Some(1)),
        Step::Aligned(4, 4),
        Step::Run(20),
        Step::Next(Some(LOW + 23), None),
        Step::Give(LOW + 9),
        Step::Give(LOW + 7),
        Step::Give(LOW + 2),
        Step::Pend(3, LOW),
        Step::Pend(9, LOW + 1),
        Step::Release(3),
        Step::Release(4),
        Step::Take(HIGH + 22),
        Step::Take(HIGH + 23),
        Step::Bar(1),
        Step::Next(None, None),
        Step::Pend(4, HIGH + 23),
        Step::Run(9),
        Step::Release(10),
        Step::Give(HIGH + 22),
        Step::Unbar,
        Step::Next(None, None),
        Step::Aligned(2, 0),
        Step::Run(1),
        Step::Bar(0),
        Step::Next(None, Some(2)),
        Step::Unbar,
    ];
    let geom = Geom {
        per_unit: 24,
        ..Geom::layout1()
    };
    let mut map = FreeMap::with(rt.alloc(), Block::new(FIRST), UNITS, geom)?;
    for step in &steps {
        run_step(&rt, &mut map, *step)?;
    }
    Ok(())
}

#[test]
fn many_runs(rt: HostRuntime) -> Result<(), Fail> {
    let mut map = FreeMap::new(rt.alloc(), Block::new(FIRST), 64)?;
    assert_eq!(rt; map.free(), 64 * 4063);
    let mut taken = Vec::new(rt.alloc());
    for _ in 0..20_000 {
        match map.take_next(None, Some(8)) {
            Some(block) => taken.push(block)?,
            None => panic!(rt; "no block is free"),
        }
    }
    // Every second block is given back, so that there are 10,000 runs.
    let mut even = false;
    for block in &taken {
        even = !even;
        if even {
            assert!(rt; map.is_used(*block));
            map.give(*block);
        }
    }
    assert_eq!(rt; map.free(), 64 * 4063 - 10_000);
    assert_eq!(rt; map.longest(), 4063);
    assert_eq!(rt; map.take_run(1), Some(Block::new(547)));
    Ok(())
}
