//! The map of free blocks, unit by unit.
ghost use Rattle.std.specs.Prelude.{◌≡◌, ◌+◌, ◌-◌, ◌*◌, ◌/◌, ◌%◌, ◌<◌, ◌≤◌, ◌^◌, ℕ, true, false, IsTrue, IfOk, IfSome, IfNone, OnOk, OnErr, max, Some, None, is_some, nat_le, nat_lt, get_or, not, ◌&&◌, ◌++◌, replicate, vec_len, vec_capacity, length, ◌||◌, slice_index_or, slice_set};
ghost use Rattle.std.specs.List.{count_by};
ghost use Rattle.vx_alloc.specs.RunIndexes.{covers, is_unit_data, limit_of};
ghost use Rattle.vx_alloc.specs.FreeMaps.{IsFreeRun, IsLowestRun, HasNoRun, IsAtLongest, IsStart, IsPlaced, can_follow, unit_of, without_run, cleared, is_before, free_with, still_pending, released, IsLongest, IsLowestAligned, HasNoAligned, is_data, is_free, is_at_or_past, is_used, free_blocks, all_free, grown, shrunk, IsUnusedFrom, data_bits, with_bit, with_place};

use crate::run_index::RunIndex;
use std::alloc::{AllocError, Global};
use std::marker::Model;
use vx_base::{Block, Geom};

/// Blocks in a unit.
const UNIT_BLOCKS: u32 = 4096;

/// Which data blocks of the allocation units are free, and which wait to be.
///
/// A unit is 4096 blocks, of which the last ones hold data. A pending block is one that becomes free
/// once what stands before a place of the history is durable.
#[derive(Debug, Drop)]
pub struct FreeMap {
    first: u32,
    per_unit: u32,
    units: u32,
    room: u32,
    free: Vec<bool>,
    pending: Vec<Option<u64>>,
    bar: Option<u32>,
    // The maximal runs of the free blocks, barred or not.
    runs: RunIndex,
    // How many blocks are in the set of free blocks, and how many wait.
    free_count: u32,
    pending_count: u32,
}

impl Model for FreeMap {
    ghost use Rattle.std.specs.Prelude.{length, vec_capacity};
    ghost use Rattle.vx_alloc.specs.FreeMaps.{FreeMapView, IsSound};
    ghost use Rattle.vx_alloc.specs.RunIndexes.{IsIndexed};

    ghost Value = { FreeMapView };

    ghost view = { λ m. record { first = m.first; per_unit = m.per_unit; units = m.units; room = m.room; free = m.free.items; pending = m.pending.items; bar = m.bar } };

    ghost invariant = { λ m. IsSound m.first m.per_unit m.units m.room (length m.free.items) (length m.pending.items) (vec_capacity m.free) (vec_capacity m.pending) × IsIndexed m.per_unit m.room m.free.items m.pending.items m.runs m.free_count m.pending_count };
}

impl FreeMap {
    /// All data blocks free, for units of 4063 data blocks. `first` is the start of unit 0.
    pub fn new(alloc: Global, first: Block, units: u32) -> Result<Self, AllocError>
        requires some { 1 ≤ units }
        requires most { units ≤ 64 }
        requires addresses { first + 4096 * 64 ≤ 2 ^ 32 }
        ensures { IfOk result (λ map. map ≡ all_free first 4063 units) }
    {
        FreeMap::with(alloc, first, units, Geom::layout1())
    }

    /// All data blocks free, for units of a layout. `first` is the start of unit 0.
    pub fn with(alloc: Global, first: Block, units: u32, geom: Geom) -> Result<Self, AllocError>
        requires some { 1 ≤ units }
        requires most { units ≤ 64 }
        requires addresses { first + 4096 * 64 ≤ 2 ^ 32 }
        requires unit { geom.per_unit < 4096 }
        ensures { IfOk result (λ map. map ≡ all_free first geom.per_unit units) }
    {
        let mut map = FreeMap {
            first: first.get(),
            per_unit: geom.per_unit,
            units: 0,
            room: 0,
            free: Vec::new(alloc),
            pending: Vec::new(alloc),
            bar: None,
            runs: RunIndex::new(alloc),
            free_count: 0,
            pending_count: 0,
        };
        map.reserve_units(units)?;
        map.grow(units);
        Ok(map)
    }

    /// Takes memory for so many units; unchanged where there is none.
    pub fn reserve_units(&mut self, units: u32) -> Result<(), AllocError>
        requires some { 1 ≤ units }
        requires most { units ≤ 64 }
        ensures ok { OnOk result (self.new ≡ record self.old { room = max self.old.room units }) }
        ensures err { OnErr result (self.new ≡ self.old) }
    {
        if units <= self.room {
            return Ok(());
        }
        let more = (UNIT_BLOCKS * (units - self.units)) as usize;
        self.free.reserve(more)?;
        self.pending.reserve(more)?;
        self.runs.reserve(UNIT_BLOCKS * units)?;
        self.room = units;
        Ok(())
    }

    /// Adds units up to this number, with all their data blocks free.
    pub fn grow(&mut self, units: u32)
        requires more { self.old.units < units }
        requires room { units ≤ self.old.room }
        ensures { self.new ≡ grown self.old units }
    {
        let more = UNIT_BLOCKS * (units - self.units);
        push_data_blocks(&mut self.free, self.per_unit, more);
        push_none(&mut self.pending, more);
        add_units(&mut self.runs, self.per_unit, self.units, units);
        self.units = units;
        self.free_count = count_set(self.free.as_slice());
        self.pending_count = count_waiting(self.pending.as_slice());
    }

    /// Leaves only the units up to this number, forgets all blocks of the others, and ends the bar.
    pub fn shrink(&mut self, units: u32)
        requires some { 1 ≤ units }
        requires fewer { units < self.old.units }
        requires unused { IsUnusedFrom self.old units }
        ensures { self.new ≡ shrunk self.old units }
    {
        self.units = units;
        let blocks = UNIT_BLOCKS * self.units;
        self.free.truncate(blocks as usize);
        self.pending.truncate(blocks as usize);
        self.runs.truncate(blocks);
        self.free_count = count_set(self.free.as_slice());
        self.pending_count = count_waiting(self.pending.as_slice());
        self.bar = None;
    }

    /// Whether a block is a data block of one of the units.
    pub fn is_data(&self, b: Block) -> bool
        ensures { result ≡ is_data self.now b }
    {
        let block = b.get();
        if block < self.first {
            return false;
        }
        let offset = block - self.first;
        offset < UNIT_BLOCKS * self.units && is_data_place(self.per_unit, offset % UNIT_BLOCKS)
    }

    /// Whether a block is free and not barred.
    pub fn is_free(&self, b: Block) -> bool
        ensures { result ≡ is_free self.now b }
    {
        if !self.is_data(b) {
            return false;
        }
        let offset = b.get() - self.first;
        if is_barred(self.bar, offset / UNIT_BLOCKS) {
            return false;
        }
        self.free[offset as usize]
    }

    /// Whether a block is a data block that is neither free, barred or not, nor pending.
    pub fn is_used(&self, b: Block) -> bool
        ensures { result ≡ is_used self.now b }
    {
        if !self.is_data(b) {
            return false;
        }
        let offset = (b.get() - self.first) as usize;
        !self.free[offset] && self.pending[offset].is_none()
    }

    /// Of each block of a unit, whether it is used or holds no data, as the unit's bitmap says it.
    pub fn used_in(&self, unit: u32) -> [bool; 4096]
        requires { unit < self.now.units }
        ensures { (j : ℕ) → j < 4096 → get_or result j false ≡ (nat_lt j (4096 - self.now.per_unit) || is_used self.now (self.now.first + 4096 * unit + j)) }
    {
        let _blocks = self.blocks();
        let start = (UNIT_BLOCKS * unit) as usize;
        let end = start + UNIT_BLOCKS as usize;
        let lead = (UNIT_BLOCKS - self.per_unit) as usize;
        used_bits(&self.free[start..end], &self.pending[start..end], lead)
    }

    /// How many blocks are free and not barred.
    pub fn free(&self) -> u32
        ensures { result ≡ free_blocks self.now }
    {
        if self.bar.is_none() {
            return self.free_count;
        }
        self.runs.count_below(self.limit())
    }

    /// The length of the longest free run, in blocks; 0 where nothing is free.
    pub fn longest(&self) -> u32
        ensures longest { IsLongest self.now result }
    {
        match self.runs.longest(self.limit()) {
            Some(run) => run.len,
            None => 0,
        }
    }

    /// How many blocks are pending.
    pub fn pending(&self) -> u32
        ensures { result ≡ count_by is_some self.now.pending }
    {
        self.pending_count
    }

    /// Takes a block for a page that follows `after`, the block of the page before it. `first` is the
    /// length of the first extent, for a file without any block. None exactly where nothing is free.
    pub fn take_next(&mut self, after: Option<Block>, first: Option<u32>) -> Option<Block>
        ensures placed { IfSome result (λ b. IsPlaced self.old after first b) }
        ensures free { IfSome result (λ b. IsTrue (is_free self.old b)) }
        ensures taken { IfSome result (λ b. self.new ≡ with_bit self.old b false) }
        ensures full { IfNone result (free_blocks self.old ≡ 0) }
        ensures unchanged { IfNone result (self.new ≡ self.old) }
    {
        match self.next_block(after, first) {
            Some(b) => {
                self.take_block(b);
                Some(b)
            }
            None => None,
        }
    }

    /// Takes n blocks at the lowest start of a free run of n; None exactly where there is none.
    pub fn take_run(&mut self, n: u32) -> Option<Block>
        requires { 0 < n }
        ensures lowest { IfSome result (λ b. IsLowestRun self.old n b) }
        ensures taken { IfSome result (λ b. self.new ≡ without_run self.old b n) }
        ensures none { IfNone result (HasNoRun self.old n) }
        ensures unchanged { IfNone result (self.new ≡ self.old) }
    {
        match self.lowest_of(n) {
            Some(b) => {
                self.take_blocks(b, n);
                Some(b)
            }
            None => None,
        }
    }

    /// Takes n blocks at the lowest start of a free run of n that is a multiple of `align` from the start
    /// of its unit; None exactly where there is none.
    pub fn take_aligned(&mut self, n: u32, align: u32) -> Option<Block>
        requires { 0 < n }
        ensures lowest { IfSome result (λ b. IsLowestAligned self.old n align b) }
        ensures taken { IfSome result (λ b. self.new ≡ without_run self.old b n) }
        ensures none { IfNone result (HasNoAligned self.old n align) }
        ensures unchanged { IfNone result (self.new ≡ self.old) }
    {
        match self.lowest_run(n, align) {
            Some(b) => {
                self.take_blocks(b, n);
                Some(b)
            }
            None => None,
        }
    }

    /// Takes a free block.
    pub fn take_block(&mut self, b: Block)
        requires { IsTrue (is_free self.old b) }
        ensures { self.new ≡ with_bit self.old b false }
    {
        let offset = b.get() - self.first;
        self.free[offset as usize] = false;
        self.runs.take(offset, 1);
        self.free_count -= 1;
    }

    /// Makes a used block free. It counts as free once its unit is not barred.
    pub fn give(&mut self, b: Block)
        requires { IsTrue (is_used self.old b) }
        ensures { self.new ≡ with_bit self.old b true }
    {
        let offset = b.get() - self.first;
        self.free[offset as usize] = true;
        self.runs.add(offset, 1);
        self.free_count += 1;
    }

    /// Makes a used block wait for a place of the history.
    pub fn pend(&mut self, place: u64, b: Block)
        requires { IsTrue (is_used self.old b) }
        ensures { self.new ≡ with_place self.old b place }
    {
        let offset = b.get() - self.first;
        self.pending[offset as usize] = Some(place);
        self.pending_count += 1;
    }

    /// Makes every pending block free whose place is below `upto`, and answers how many.
    pub fn release(&mut self, upto: u64) -> u32
        ensures count { result ≡ count_by (is_before upto) self.old.pending }
        ensures released { self.new ≡ released self.old upto }
    {
        if self.pending_count == 0 {
            return 0;
        }
        let count = release_before(&mut self.free, &mut self.pending, &mut self.runs, upto);
        self.free_count = count_set(self.free.as_slice());
        self.pending_count = count_waiting(self.pending.as_slice());
        count
    }

    /// Bars the units from one on: their blocks count as not free.
    pub fn bar(&mut self, unit: u32)
        ensures { self.new ≡ record self.old { bar = Some unit } }
    {
        self.bar = Some(unit);
    }

    /// Ends the bar.
    pub fn unbar(&mut self)
        ensures { self.new ≡ record self.old { bar = None } }
    {
        self.bar = None;
    }

    /// How many blocks the units have, and what is known of the numbers of these blocks.
    fn blocks(&self) -> u32
        ensures count { result ≡ 4096 * self.now.units }
        ensures most { result ≤ 4096 * 64 }
        ensures addresses { self.now.first + result ≤ 2 ^ 32 }
    {
        let _first = self.first;
        UNIT_BLOCKS * self.units
    }

    /// The block that stands so far from the start of unit 0.
    fn block_at(&self, i: u32) -> Block
        requires { i < 4096 * self.now.units }
        ensures { result ≡ self.now.first + i }
    {
        Block::new(self.first + i)
    }

    /// The lowest aligned start of a free run of n blocks.
    fn lowest_run(&self, n: u32, align: u32) -> Option<Block>
        requires { 0 < n }
        ensures found { IfSome result (λ b. IsLowestAligned self.now n align b) }
        ensures none { IfNone result (HasNoAligned self.now n align) }
    {
        match self.runs.first_fit(self.limit(), n, align) {
            Some(start) => Some(self.block_at(start)),
            None => None,
        }
    }

    /// The blocks of the units that are not barred stand below this one, counted from the start of unit 0.
    fn limit(&self) -> u32
        ensures { result ≡ limit_of self.now }
    {
        match self.bar {
            Some(bar) => UNIT_BLOCKS * bar.min(self.units),
            None => UNIT_BLOCKS * self.units,
        }
    }

    /// The lowest start of a free run of n blocks.
    fn lowest_of(&self, n: u32) -> Option<Block>
        requires { 0 < n }
        ensures found { IfSome result (λ b. IsLowestRun self.now n b) }
        ensures none { IfNone result (HasNoRun self.now n) }
    {
        self.lowest_run(n, 1)
    }

    /// The first block of the longest free run.
    fn at_longest(&self) -> Option<Block>
        ensures found { IfSome result (λ b. IsAtLongest self.now b) }
        ensures full { IfNone result (IsLongest self.now 0) }
    {
        match self.runs.longest(self.limit()) {
            Some(run) => Some(self.block_at(run.start)),
            None => None,
        }
    }

    /// The block after `block`, if a page may go there.
    fn following(&self, block: Block) -> Option<Block>
        ensures found { IfSome result (λ b. (can_follow self.now (Some block) ≡ true) × (b ≡ block + 1)) }
        ensures none { IfNone result (can_follow self.now (Some block) ≡ false) }
    {
        let _blocks = self.blocks();
        if block.get() == u32::MAX {
            return None;
        }
        let next = Block::new(block.get() + 1);
        if self.is_free(next) && self.unit_of(block) == self.unit_of(next) {
            return Some(next);
        }
        None
    }

    /// Where a page goes that can't follow the page before it.
    fn start(&self, first: Option<u32>) -> Option<Block>
        ensures found { IfSome result (λ b. IsStart self.now first b) }
        ensures full { IfNone result (IsLongest self.now 0) }
    {
        match first {
            Some(n) => match self.lowest_of(max_of(n, 1)) {
                Some(b) => Some(b),
                None => self.at_longest(),
            },
            None => self.at_longest(),
        }
    }

    fn next_block(&self, after: Option<Block>, first: Option<u32>) -> Option<Block>
        ensures found { IfSome result (λ b. IsPlaced self.now after first b) }
        ensures full { IfNone result (IsLongest self.now 0) }
    {
        match after {
            Some(block) => match self.following(block) {
                Some(b) => Some(b),
                None => self.start(first),
            },
            None => self.start(first),
        }
    }

    fn unit_of(&self, b: Block) -> u32
        ensures { result ≡ unit_of self.now b }
    {
        if b.get() < self.first {
            return 0;
        }
        (b.get() - self.first) / UNIT_BLOCKS
    }

    fn take_blocks(&mut self, b: Block, n: u32)
        requires free { IsFreeRun self.old b n }
        requires some { 0 < n }
        ensures { self.new ≡ without_run self.old b n }
    {
        let from = b.get() - self.first;
        clear(&mut self.free, from as usize, n as usize);
        self.runs.take(from, n);
        self.free_count -= n;
    }
}

/// Whether the block at a place of its unit holds data.
fn is_data_place(per_unit: u32, place: u32) -> bool
    requires { per_unit < 4096 }
    ensures { result ≡ nat_le (4096 - per_unit) place }
{
    UNIT_BLOCKS - per_unit <= place
}

fn is_barred(bar: Option<u32>, unit: u32) -> bool
    ensures { result ≡ is_at_or_past bar unit }
{
    match bar {
        Some(bar) => bar <= unit,
        None => false,
    }
}

/// Adds the blocks of whole units, each as a data block or not, to a list that has room for them.
fn push_data_blocks(bits: &mut Vec<bool>, per_unit: u32, blocks: u32)
    requires unit { per_unit < 4096 }
    requires room { vec_len bits.old + blocks ≤ vec_capacity bits.old }
    ensures items { bits.new.items ≡ bits.old.items ++ data_bits per_unit blocks }
    ensures capacity { vec_capacity bits.old ≤ vec_capacity bits.new }
{
    for i in 0..blocks {
        let _ = bits.push(is_data_place(per_unit, i % UNIT_BLOCKS));
    }
}

/// Adds blocks that wait for nothing, to a list that has room for them.
fn push_none(places: &mut Vec<Option<u64>>, blocks: u32)
    requires room { vec_len places.old + blocks ≤ vec_capacity places.old }
    ensures items { places.new.items ≡ places.old.items ++ replicate blocks None }
    ensures capacity { vec_capacity places.old ≤ vec_capacity places.new }
{
    for _block in 0..blocks {
        let _ = places.push(None);
    }
}

fn max_of(a: u32, b: u32) -> u32
    ensures { result ≡ max a b }
{
    if a < b { b } else { a }
}

/// Takes n bits away from one on.
fn clear(bits: &mut Vec<bool>, from: usize, n: usize)
    requires { from + n ≤ length bits.old.items }
    ensures items { bits.new.items ≡ cleared bits.old.items from n }
    ensures capacity { vec_capacity bits.new ≡ vec_capacity bits.old }
{
    for k in 0..n {
        bits[from + k] = false;
    }
}

/// Adds the data blocks of the units from one to another to the runs, which have none of them.
fn add_units(runs: &mut RunIndex, per_unit: u32, from: u32, to: u32)
    requires unit { per_unit < 4096 }
    requires order { from ≤ to }
    requires most { to ≤ 64 }
    requires room { 4096 * to ≤ runs.old.room }
    requires none { (i : ℕ) → 4096 * from ≤ i → covers runs.old.runs i ≡ false }
    ensures covers { (i : ℕ) → covers runs.new.runs i ≡ (covers runs.old.runs i || is_unit_data per_unit from to i) }
    ensures room { runs.new.room ≡ runs.old.room }
{
    if per_unit == 0 {
        return;
    }
    for unit in from..to {
        runs.add(UNIT_BLOCKS * unit + (UNIT_BLOCKS - per_unit), per_unit);
    }
}

// Of each block of a unit, by its flags, whether it is in use; the first ones hold no data.
fn used_bits(free: &[bool], pending: &[Option<u64>], lead: usize) -> [bool; 4096]
    requires free { length free.now ≡ 4096 }
    requires pending { length pending.now ≡ 4096 }
    requires lead { lead ≤ 4096 }
    ensures { (j : ℕ) → j < 4096 → get_or result j false ≡ (nat_lt j lead || (not (get_or free.now j false) && not (is_some (get_or pending.now j None)))) }
{
    let mut used = [true; 4096];
    for j in lead..4096 {
        used[j] = !free[j] && pending[j].is_none();
    }
    used
}

/// How many bits are set.
fn count_set(bits: &[bool]) -> u32
    requires { length bits.now ≤ 4096 * 64 }
    ensures { result ≡ count_by (λ bit. bit) bits.now }
{
    let mut count = 0;
    for bit in bits {
        if *bit {
            count += 1;
        }
    }
    count
}

/// How many blocks wait for a place.
fn count_waiting(places: &[Option<u64>]) -> u32
    requires { length places.now ≤ 4096 * 64 }
    ensures { result ≡ count_by is_some places.now }
{
    let mut count = 0;
    for place in places {
        if place.is_some() {
            count += 1;
        }
    }
    count
}

/// Sets the bit of each block whose place is below `upto`, takes the place away, and counts these blocks.
fn release_before(
    free: &mut Vec<bool>,
    pending: &mut Vec<Option<u64>>,
    runs: &mut RunIndex,
    upto: u64,
) -> u32
    requires same { length free.old.items ≡ length pending.old.items }
    requires few { length free.old.items ≤ 4096 * 64 }
    requires room { length free.old.items ≤ runs.old.room }
    requires covered { (i : ℕ) → covers runs.old.runs i ≡ slice_index_or free.old.items i false }
    ensures count { result ≡ count_by (is_before upto) pending.old.items }
    ensures free { free.new.items ≡ free_with upto pending.old.items free.old.items }
    ensures pending { pending.new.items ≡ still_pending upto pending.old.items }
    ensures free_capacity { vec_capacity free.new ≡ vec_capacity free.old }
    ensures pending_capacity { vec_capacity pending.new ≡ vec_capacity pending.old }
    ensures covered { (i : ℕ) → covers runs.new.runs i ≡ slice_index_or free.new.items i false }
    ensures room { runs.new.room ≡ runs.old.room }
{
    let mut count = 0;
    for i in 0..free.len() {
        if is_before(pending[i], upto) {
            pending[i] = None;
            set_free(free, runs, i);
            count += 1;
        }
    }
    count
}

/// Sets the bit of a block and adds it to the runs, unless it is set.
fn set_free(free: &mut Vec<bool>, runs: &mut RunIndex, i: usize)
    requires bound { i < length free.old.items }
    requires few { length free.old.items ≤ 4096 * 64 }
    requires room { length free.old.items ≤ runs.old.room }
    requires covered { (k : ℕ) → covers runs.old.runs k ≡ slice_index_or free.old.items k false }
    ensures free { free.new.items ≡ slice_set free.old.items i true }
    ensures capacity { vec_capacity free.new ≡ vec_capacity free.old }
    ensures covered { (k : ℕ) → covers runs.new.runs k ≡ slice_index_or free.new.items k false }
    ensures room { runs.new.room ≡ runs.old.room }
{
    if free[i] {
        return;
    }
    free[i] = true;
    runs.add(i as u32, 1);
}

fn is_before(place: Option<u64>, upto: u64) -> bool
    ensures { result ≡ is_before upto place }
{
    match place {
        Some(place) => place < upto,
        None => false,
    }
}
