//! The maximal runs of a set of blocks, in the order of their starts and in the order of their lengths.
ghost use Rattle.std.specs.Prelude.{◌≡◌, ◌+◌, ◌*◌, ◌<◌, ◌≤◌, ℕ, true, false, ◌&&◌, ◌||◌, nat_lt, ◌%◌, ◌≢◌, IfSome, IfNone, OnOk, OnErr, max, Some, None, [], ◌∷◌, vec_capacity, length, slice_index_or};
ghost use Rattle.std.specs.List.{Contains, remove};
ghost use Rattle.std.specs.List.Sorted.{IsNonDecreasingBy, IsPermutation};
ghost use Rattle.vx_alloc.specs.FreeMaps.{count_below};
ghost use Rattle.vx_alloc.specs.declared.run_index.Run.{Run};
ghost use Rattle.vx_alloc.specs.RunIndexes.{RunIndexView, is_within, in_run, covers, rank, AreApart, AreInside, IsClear, IsPlace, IsEndPlace, AreLow, IsFree, IsJoinedBefore, IsJoinedAfter, IsLongestRun, HasNoneBelow, IsLastBelow, IsInUnit, AreInUnits, IsLowestIn, HasNoneIn, IsFirstFit, HasNoFit};

use std::alloc::{AllocError, Global};
use std::marker::Model;

/// Consecutive blocks, counted from the start of unit 0.
#[derive(Clone, Copy, Debug)]
pub struct Run {
    pub start: u32,
    pub len: u32,
}

/// The maximal runs of a set of blocks.
#[derive(Debug, Drop)]
pub struct RunIndex {
    // The blocks below are those that can be in the set.
    room: u32,
    // In the order of their starts.
    by_start: Vec<Run>,
    // The same runs in the order of their lengths, and those of one length from the last start to the first.
    by_length: Vec<Run>,
}

impl Model for RunIndex {
    ghost use Rattle.std.specs.Prelude.{vec_capacity};
    ghost use Rattle.vx_alloc.specs.RunIndexes.{RunIndexView, IsRunIndex};

    ghost Value = { RunIndexView };

    ghost view = { λ a. record { runs = a.by_start.items; room = a.room } };

    ghost invariant = { λ a. IsRunIndex a.room a.by_start.items a.by_length.items (vec_capacity a.by_start) (vec_capacity a.by_length) };
}

impl RunIndex {
    /// The empty set, with no memory.
    pub fn new(alloc: Global) -> Self
        ensures { result ≡ record { runs = []; room = 0 } }
    {
        RunIndex {
            room: 0,
            by_start: Vec::new(alloc),
            by_length: Vec::new(alloc),
        }
    }

    /// Takes memory for the runs of any set of the blocks below a number; unchanged where there is none.
    pub fn reserve(&mut self, blocks: u32) -> Result<(), AllocError>
        requires { blocks ≤ 4096 * 64 }
        ensures ok { OnOk result (self.new ≡ record self.old { room = max self.old.room blocks }) }
        ensures err { OnErr result (self.new ≡ self.old) }
    {
        if blocks <= self.room {
            return Ok(());
        }
        // Between two runs there is a block.
        let most = (blocks as usize + 1) / 2;
        self.by_start
            .reserve(most.saturating_sub(self.by_start.len()))?;
        self.by_length
            .reserve(most.saturating_sub(self.by_length.len()))?;
        self.room = blocks;
        Ok(())
    }

    /// Whether the set has a block.
    pub fn covers(&self, block: u32) -> bool
        ensures { result ≡ covers self.now.runs block }
    {
        is_covered(self.by_start.as_slice(), block)
    }

    /// Adds free blocks to the set.
    pub fn add(&mut self, start: u32, len: u32)
        requires some { 0 < len }
        requires end { start + len ≤ self.old.room }
        requires free { (i : ℕ) → is_within start len i ≡ true → covers self.old.runs i ≡ false }
        ensures covers { (i : ℕ) → covers self.new.runs i ≡ (is_within start len i || covers self.old.runs i) }
        ensures room { self.new.room ≡ self.old.room }
    {
        let run = self.joined_before(Run { start, len });
        let run = self.joined_after(run);
        self.insert(run);
    }

    /// Takes blocks out of the set.
    pub fn take(&mut self, start: u32, len: u32)
        requires some { 0 < len }
        requires covered { (i : ℕ) → is_within start len i ≡ true → covers self.old.runs i ≡ true }
        ensures covers { (i : ℕ) → covers self.old.runs i ≡ (is_within start len i || covers self.new.runs i) }
        ensures free { (i : ℕ) → is_within start len i ≡ true → covers self.new.runs i ≡ false }
        ensures room { self.new.room ≡ self.old.room }
    {
        let run = self.remove_holder(start);
        let end = start + len;
        self.put_back(run.start, start - run.start);
        self.put_back(end, run.start + run.len - end);
    }

    /// Leaves only the blocks below a block that is not in the set.
    pub fn truncate(&mut self, end: u32)
        requires { covers self.old.runs end ≡ false }
        ensures covers { (i : ℕ) → covers self.new.runs i ≡ (nat_lt i end && covers self.old.runs i) }
        ensures room { self.new.room ≡ self.old.room }
    {
        let keep = starts_before(self.by_start.as_slice(), end);
        let count = self.by_start.len();
        for gone in 0..count - keep {
            self.remove(count - 1 - gone);
        }
    }

    /// How many blocks of the set are below one that is not in it.
    pub fn count_below(&self, limit: u32) -> u32
        requires { covers self.now.runs limit ≡ false }
        ensures { result ≡ count_below (covers self.now.runs) limit }
    {
        let _room = self.room;
        count_below(self.by_start.as_slice(), limit)
    }

    /// The longest run that starts below a limit, of several the lowest.
    pub fn longest(&self, limit: u32) -> Option<Run>
        ensures found { IfSome result (λ run. IsLongestRun self.now.runs limit run) }
        ensures none { IfNone result (HasNoneBelow self.now.runs limit) }
        ensures apart { AreApart self.now.runs }
        ensures inside { AreInside (4096 * 64) self.now.runs }
    {
        last_below(self.by_length.as_slice(), limit)
    }

    /// The lowest place of n blocks in a run that starts below a limit, a multiple of `align` from the
    /// start of its unit.
    pub fn first_fit(&self, limit: u32, n: u32, align: u32) -> Option<u32>
        requires some { 0 < n }
        requires units { (unit : ℕ) → covers self.now.runs (4096 * unit) ≡ false }
        ensures found { IfSome result (λ start. IsFirstFit self.now.runs limit n align start) }
        ensures none { IfNone result (HasNoFit self.now.runs limit n align) }
        ensures apart { AreApart self.now.runs }
        ensures inside { AreInside (4096 * 64) self.now.runs }
    {
        let _room = self.room;
        first_fit(self.by_start.as_slice(), limit, n, align)
    }

    /// Takes out the run that ends where this one starts, and answers both as one.
    fn joined_before(&mut self, run: Run) -> Run
        requires some { 0 < run.len }
        requires end { run.start + run.len ≤ self.old.room }
        requires free { IsFree run self.old.runs }
        ensures joined { IsJoinedBefore self.old.runs self.new.runs run result }
        ensures room { self.new.room ≡ self.old.room }
    {
        if run.start == 0 || !self.covers(run.start - 1) {
            return run;
        }
        let before = self.remove_holder(run.start - 1);
        Run {
            start: before.start,
            len: before.len + run.len,
        }
    }

    /// Takes out the run that starts where this one ends, and answers both as one.
    fn joined_after(&mut self, run: Run) -> Run
        requires some { 0 < run.len }
        requires end { run.start + run.len ≤ self.old.room }
        requires free { IsFree run self.old.runs }
        requires before { (i : ℕ) → i + 1 ≡ run.start → covers self.old.runs i ≡ false }
        ensures joined { IsJoinedAfter self.old.room self.old.runs self.new.runs run result }
        ensures room { self.new.room ≡ self.old.room }
    {
        let _room = self.room;
        let end = run.start + run.len;
        if !self.covers(end) {
            return run;
        }
        let after = self.remove_holder(end);
        Run {
            start: run.start,
            len: run.len + after.len,
        }
    }

    /// Puts in a run that meets none, unless it has no block.
    fn put_back(&mut self, start: u32, len: u32)
        requires end { start + len ≤ self.old.room }
        requires clear { IsClear (record { start = start; len = len }) self.old.runs }
        ensures covers { (i : ℕ) → covers self.new.runs i ≡ (is_within start len i || covers self.old.runs i) }
        ensures room { self.new.room ≡ self.old.room }
    {
        if len > 0 {
            self.insert(Run { start, len });
        }
    }

    /// Takes out the run that has a block.
    fn remove_holder(&mut self, block: u32) -> Run
        requires { covers self.old.runs block ≡ true }
        ensures has { in_run block result ≡ true }
        ensures some { 0 < result.len }
        ensures end { result.start + result.len ≤ self.old.room }
        ensures most { self.old.room ≤ 4096 * 64 }
        ensures covers { (i : ℕ) → covers self.old.runs i ≡ (in_run i result || covers self.new.runs i) }
        ensures clear { IsClear result self.new.runs }
        ensures room { self.new.room ≡ self.old.room }
    {
        let at = holder(self.by_start.as_slice(), block);
        self.remove(at)
    }

    /// Puts in a run that meets none.
    fn insert(&mut self, run: Run)
        requires some { 0 < run.len }
        requires end { run.start + run.len ≤ self.old.room }
        requires clear { IsClear run self.old.runs }
        ensures covers { (i : ℕ) → covers self.new.runs i ≡ (in_run i run || covers self.old.runs i) }
        ensures room { self.new.room ≡ self.old.room }
    {
        insert_by_start(&mut self.by_start, run);
        insert_by_length(&mut self.by_length, run);
    }

    /// Takes out a run by its place.
    fn remove(&mut self, at: usize) -> Run
        requires { at < length self.old.runs }
        ensures run { result ≡ slice_index_or self.old.runs at result }
        ensures rest { self.new.runs ≡ remove self.old.runs at }
        ensures some { 0 < result.len }
        ensures end { result.start + result.len ≤ self.old.room }
        ensures most { self.old.room ≤ 4096 * 64 }
        ensures covers { (i : ℕ) → covers self.old.runs i ≡ (in_run i result || covers self.new.runs i) }
        ensures clear { IsClear result self.new.runs }
        ensures room { self.new.room ≡ self.old.room }
    {
        let run = remove_by_start(&mut self.by_start, at);
        remove_by_length(&mut self.by_length, run);
        run
    }
}

/// Whether one of the runs has a block.
fn is_covered(runs: &[Run], block: u32) -> bool
    requires { AreApart runs.now }
    ensures { result ≡ covers runs.now block }
{
    let at = starts_upto(runs, block);
    if at == 0 {
        return false;
    }
    let run = runs[at - 1];
    block - run.start < run.len
}

/// The place of the run that has a block.
fn holder(runs: &[Run], block: u32) -> usize
    requires apart { AreApart runs.now }
    requires covered { covers runs.now block ≡ true }
    ensures bound { result < length runs.now }
    ensures has { (d : Run) → in_run block (slice_index_or runs.now result d) ≡ true }
{
    starts_upto(runs, block) - 1
}

/// How many of the runs start before a block.
fn starts_before(runs: &[Run], start: u32) -> usize
    requires { AreApart runs.now }
    ensures { IsPlace runs.now start result }
{
    runs.partition_point(|run| run.start < start)
}

/// How many of the runs start before a block or at it.
fn starts_upto(runs: &[Run], block: u32) -> usize
    requires { AreApart runs.now }
    ensures { IsEndPlace runs.now block result }
{
    runs.partition_point(|run| run.start <= block)
}

/// Puts a run at its place in the order of the starts, in a list that has room for it.
fn insert_by_start(runs: &mut Vec<Run>, run: Run)
    requires apart { AreApart runs.old.items }
    requires inside { AreInside (2 * vec_capacity runs.old) runs.old.items }
    requires some { 0 < run.len }
    requires end { run.start + run.len ≤ 2 * vec_capacity runs.old }
    requires clear { IsClear run runs.old.items }
    ensures apart { AreApart runs.new.items }
    ensures runs { IsPermutation (run ∷ runs.old.items) runs.new.items }
    ensures capacity { vec_capacity runs.old ≤ vec_capacity runs.new }
{
    let at = starts_before(runs.as_slice(), run.start);
    match runs.insert(at, run) {
        Ok(()) => {}
        Err(_) => unreachable!(),
    }
}

/// Takes out the run at a place in the order of the starts.
fn remove_by_start(runs: &mut Vec<Run>, at: usize) -> Run
    requires apart { AreApart runs.old.items }
    requires bound { at < length runs.old.items }
    ensures run { result ≡ slice_index_or runs.old.items at result }
    ensures apart { AreApart runs.new.items }
    ensures rest { runs.new.items ≡ remove runs.old.items at }
    ensures capacity { vec_capacity runs.new ≡ vec_capacity runs.old }
{
    runs.remove(at)
}

fn rank(run: &Run) -> u64
    ensures { result ≡ rank run.now }
{
    u64::from(run.len) * 4_294_967_296 + u64::from(u32::MAX - run.start)
}

/// How many of the runs have a lower rank.
fn ranks_before(runs: &[Run], of: u64) -> usize
    requires { IsNonDecreasingBy rank runs.now }
    ensures bound { result ≤ length runs.now }
    ensures before { (k : ℕ) (d : Run) → k < result → rank (slice_index_or runs.now k d) < of }
    ensures after { (k : ℕ) (d : Run) → result ≤ k → k < length runs.now → of ≤ rank (slice_index_or runs.now k d) }
{
    runs.partition_point(|run| rank(run) < of)
}

/// Puts a run at its place in the order of the lengths, in a list that has room for it.
fn insert_by_length(runs: &mut Vec<Run>, run: Run)
    requires ranked { IsNonDecreasingBy rank runs.old.items }
    requires room { length runs.old.items < vec_capacity runs.old }
    ensures ranked { IsNonDecreasingBy rank runs.new.items }
    ensures runs { IsPermutation (run ∷ runs.old.items) runs.new.items }
    ensures capacity { vec_capacity runs.old ≤ vec_capacity runs.new }
{
    let at = ranks_before(runs.as_slice(), rank(&run));
    match runs.insert(at, run) {
        Ok(()) => {}
        Err(_) => unreachable!(),
    }
}

/// Takes a run out of the order of the lengths.
fn remove_by_length(runs: &mut Vec<Run>, run: Run)
    requires ranked { IsNonDecreasingBy rank runs.old.items }
    requires low { AreLow runs.old.items }
    requires has { Contains runs.old.items run }
    ensures ranked { IsNonDecreasingBy rank runs.new.items }
    ensures runs { IsPermutation runs.old.items (run ∷ runs.new.items) }
    ensures capacity { vec_capacity runs.new ≡ vec_capacity runs.old }
{
    let at = ranks_before(runs.as_slice(), rank(&run));
    runs.remove(at);
}

/// The last of the runs that starts below a limit.
fn last_below(runs: &[Run], limit: u32) -> Option<Run>
    ensures found { IfSome result (λ run. IsLastBelow runs.now limit run) }
    ensures none { IfNone result (HasNoneBelow runs.now limit) }
{
    for i in 0..runs.len() {
        let run = runs[runs.len() - 1 - i];
        if run.start < limit {
            return Some(run);
        }
    }
    None
}

/// How many blocks the runs have below one that is in none of them.
fn count_below(runs: &[Run], limit: u32) -> u32
    requires apart { AreApart runs.now }
    requires inside { AreInside (4096 * 64) runs.now }
    requires edge { covers runs.now limit ≡ false }
    ensures { result ≡ count_below (covers runs.now) limit }
{
    let mut count = 0;
    for k in 0..runs.len() {
        let run = runs[k];
        if run.start >= limit {
            return count;
        }
        count += run.len;
    }
    count
}

/// The lowest aligned place of n blocks in the runs that start below a limit.
fn first_fit(runs: &[Run], limit: u32, n: u32, align: u32) -> Option<u32>
    requires some { 0 < n }
    requires apart { AreApart runs.now }
    requires inside { AreInside (4096 * 64) runs.now }
    requires units { AreInUnits runs.now }
    ensures found { IfSome result (λ start. IsFirstFit runs.now limit n align start) }
    ensures none { IfNone result (HasNoFit runs.now limit n align) }
{
    for k in 0..runs.len() {
        let run = runs[k];
        if run.start < limit {
            match fit(&run, n, align) {
                Some(start) => return Some(start),
                None => {}
            }
        }
    }
    None
}

/// The lowest aligned place of n blocks in a run.
fn fit(run: &Run, n: u32, align: u32) -> Option<u32>
    requires some { 0 < n }
    requires unit { IsInUnit run.now }
    requires end { run.now.start + run.now.len ≤ 4096 * 64 }
    ensures found { IfSome result (λ start. IsLowestIn run.now n align start) }
    ensures none { IfNone result (HasNoneIn run.now n align) }
{
    if align == 0 {
        return None;
    }
    let skip = skip(run.start % 4096, align);
    if skip < run.len && n <= run.len - skip {
        Some(run.start + skip)
    } else {
        None
    }
}

/// How far the next multiple of `align` is.
fn skip(place: u32, align: u32) -> u32
    requires some { 0 < align }
    ensures multiple { (place + result) % align ≡ 0 }
    ensures next { (d : ℕ) → d < result → (place + d) % align ≢ 0 }
{
    let rest = place % align;
    if rest == 0 { 0 } else { align - rest }
}
