//! The pools of a run. They are found by their addresses, and one is added without moving all others.

ghost use Rattle.std.specs.Prelude.{◌≡◌, ◌≢◌, ℕ, ◌+◌, ◌<◌, ◌≤◌, ◌^◌, [], ◌∷◌, length, slice_index_or, IsPermutation, IsTrue, IfOk, IfSome, IfNone, ◌↔◌};
ghost use Rattle.std.specs.List.Sorted.{IsNonDecreasingBy, IsPartitionPoint};
ghost use Rattle.std.specs.Vec.{vec_capacity, vec_len};
ghost use Rattle.rlsf_base.specs.declared.memory.range.Range.{Range};
ghost use Rattle.rlsf_base.specs.Range.{end_of};
ghost use Rattle.rlsf_model_sizes.specs.Rounding.{round32};
ghost use Rattle.rlsf_model.specs.Lists.{IsIn};
ghost use Rattle.rlsf_model.specs.WellFormed.{coverage, itself};
ghost use Rattle.rlsf_trace_runs.specs.Steps.Pools.{ArePoolsApart, AreInRuns, BeginsRun, EndsAt, AreInAddressOrder, IsLastBegun};

use rlsf_base::memory::Range;
use rlsf_tlsf::GRANULARITY;
use std::alloc::{AllocError, Global};

/// More sorted runs than there can be: the length of each is less by one than a power of two, only the last two can be equally
/// long, and no system has memory for 2^60 pools.
const MAX_RUNS: usize = 64;

/// Pools in sorted runs: in each run they are in the order of their addresses.
///
/// A pool that is added begins a run of its own. But if the last two runs are equally long, it becomes one run with both of them.
/// So n pools are at most log2(n) + 2 runs, and each pool is sorted into a longer run at most as often.
#[derive(Drop)]
pub struct Pools {
    /// The pools of the first run, then those of the second, and so on.
    pub ranges: Vec<Range>,
    /// The place of the first pool of each run.
    pub firsts: Vec<usize>,
}

impl Pools {
    /// No pools, with room for so many, or an error if the system is out of memory.
    pub fn with_room(alloc: Global, count: usize) -> Result<Pools, AllocError>
        ensures empty { IfOk result (λ pools. (pools.ranges.items ≡ []) × (pools.firsts.items ≡ [])) }
        ensures room { IfOk result (λ pools. vec_len pools.ranges + count ≤ vec_capacity pools.ranges) }
    {
        let ranges = Vec::with_capacity(alloc, count)?;
        let firsts = Vec::with_capacity(alloc, MAX_RUNS)?;
        Ok(Pools { ranges, firsts })
    }

    /// Adds a pool. There is room for it.
    pub fn add(&mut self, pool: Range)
        requires room { vec_len self.old.ranges < vec_capacity self.old.ranges }
        requires in_runs { AreInRuns self.old.ranges.items self.old.firsts.items }
        ensures ranges { IsPermutation (pool ∷ self.old.ranges.items) self.new.ranges.items }
        ensures in_runs { AreInRuns self.new.ranges.items self.new.firsts.items }
        ensures len { vec_len self.new.ranges ≡ vec_len self.old.ranges + 1 }
        ensures capacity { vec_capacity self.old.ranges ≤ vec_capacity self.new.ranges }
    {
        let first = begin_run(&mut self.firsts, self.ranges.len());
        let _ = self.ranges.push(pool);
        sort_from(&mut self.ranges, first);
    }

    /// Makes one run of all pools.
    pub(crate) fn sort(&mut self)
        requires { ArePoolsApart self.old.ranges.items }
        ensures ranges { IsPermutation self.old.ranges.items self.new.ranges.items }
        ensures in_runs { AreInRuns self.new.ranges.items self.new.firsts.items }
        ensures in_order { AreInAddressOrder self.new.ranges.items }
    {
        self.firsts.clear();
        sort_from(&mut self.ranges, 0);
    }
}

/// Puts the pools from a place on in the order of their addresses.
fn sort_from(pools: &mut Vec<Range>, first: usize)
    requires { first ≤ length pools.old.items }
    ensures permutation { IsPermutation pools.old.items pools.new.items }
    ensures len { vec_len pools.new ≡ vec_len pools.old }
    ensures capacity { vec_capacity pools.new ≡ vec_capacity pools.old }
    ensures before { (k : ℕ) (d : Range) → k < first → slice_index_or pools.new.items k d ≡ slice_index_or pools.old.items k d }
    ensures in_order { (i j : ℕ) (d : Range) → first ≤ i → i < j → j < length pools.new.items
        → (slice_index_or pools.new.items i d).start ≤ (slice_index_or pools.new.items j d).start }
{
    pools[first..].sort_unstable_by_key(|pool| pool.start);
}

/// Begins a run for the next pool, or makes one run of the last two for it. Returns the place of the run's first pool.
fn begin_run(firsts: &mut Vec<usize>, len: usize) -> usize
    requires ascending { (k m d : ℕ) → k ≤ m → m < length firsts.old.items → slice_index_or firsts.old.items k d ≤ slice_index_or firsts.old.items m d }
    requires within { (k d : ℕ) → k < length firsts.old.items → slice_index_or firsts.old.items k d ≤ len }
    ensures { BeginsRun firsts.old.items firsts.new.items len result }
{
    if last_two_are_equal(firsts, len) {
        return join_last(firsts);
    }
    match firsts.push(len) {
        Ok(()) => len,
        Err(_) => join_last(firsts),
    }
}

/// Makes one run of the last two, or leaves the only one. Returns the place of its first pool.
fn join_last(firsts: &mut Vec<usize>) -> usize
    requires { (k m d : ℕ) → k ≤ m → m < length firsts.old.items → slice_index_or firsts.old.items k d ≤ slice_index_or firsts.old.items m d }
    ensures { (len : ℕ) → ((k d : ℕ) → k < length firsts.old.items → slice_index_or firsts.old.items k d ≤ len)
        → BeginsRun firsts.old.items firsts.new.items len result }
{
    let _ = firsts.pop();
    match firsts.last() {
        Some(first) => *first,
        None => 0,
    }
}

// Whether the last two runs are equally long. Only the time of a run depends on it.
fn last_two_are_equal(firsts: &[usize], len: usize) -> bool {
    match firsts {
        [.., before, last] => last.abs_diff(*before) == len.abs_diff(*last),
        _ => false,
    }
}

/// Whether two ranges have an address in common.
fn overlap(one: Range, other: Range) -> bool
    requires { (end_of one < 2 ^ 64) × (end_of other < 2 ^ 64) }
    ensures { IsTrue result ↔ ((a : ℕ) × ((one.start ≤ a) × (a < end_of one)) × ((other.start ≤ a) × (a < end_of other))) }
{
    one.start.max(other.start) < (one.start + one.len).min(other.start + other.len)
}

/// The number of pools of a run that begin before an address. They come first in it.
fn begun_before(run: &[Range], addr: usize) -> usize
    requires { IsNonDecreasingBy (λ p. p.start) run.now }
    ensures bound { result ≤ length run.now }
    ensures point { IsPartitionPoint (λ p. p.start < addr) (λ p. addr ≤ p.start) run.now result }
{
    run.partition_point(|pool| pool.start < addr)
}

/// The place of the last pool that begins before an address, among those before the end of a run: the one that was found among
/// those before the run, or one of the run.
fn later(
    pools: &[Range],
    found: Option<usize>,
    first: usize,
    end: usize,
    addr: usize,
) -> Option<usize>
    requires bounds { (first ≤ end) × (end ≤ length pools.now) }
    requires in_order { (i j : ℕ) (d : Range) → first ≤ i → i < j → j < end → (slice_index_or pools.now i d).start ≤ (slice_index_or pools.now j d).start }
    requires found { IsLastBegun pools.now first addr found }
    ensures { IsLastBegun pools.now end addr result }
{
    let begun = begun_before(&pools[first..end], addr);
    if begun == 0 {
        return found;
    }
    let last = first + begun - 1;
    match found {
        Some(place) if pools[last].start < pools[place].start => found,
        _ => Some(last),
    }
}

/// The place of the last pool that begins before an address, if one does.
fn last_begun(pools: &Pools, addr: usize) -> Option<usize>
    requires { AreInRuns pools.now.ranges.items pools.now.firsts.items }
    ensures { IsLastBegun pools.now.ranges.items (length pools.now.ranges.items) addr result }
{
    let mut first = 0;
    let mut found = None;
    for next in &pools.firsts {
        found = later(&pools.ranges, found, first, *next, addr);
        first = *next;
    }
    later(&pools.ranges, found, first, pools.ranges.len(), addr)
}

/// Whether a range overlaps one of the pools: if it does, it overlaps the last one that begins before its end.
pub(crate) fn overlaps_any(pools: &Pools, range: Range) -> bool
    requires in_runs { AreInRuns pools.now.ranges.items pools.now.firsts.items }
    requires apart { ArePoolsApart pools.now.ranges.items }
    requires addressable { (end_of range < 2 ^ 64) × ((p : Range) → IsIn p pools.now.ranges.items → end_of p < 2 ^ 64) }
    ensures { IsTrue result ↔ ((a : ℕ) × ((range.start ≤ a) × (a < end_of range)) × (0 < coverage itself pools.now.ranges.items a)) }
{
    match last_begun(pools, range.start + range.len) {
        Some(place) => overlap(range, pools.ranges[place]),
        None => false,
    }
}

/// The place of the pool that ends at an address, if one does: that is the last one that begins before the address.
pub(crate) fn ending_at(pools: &Pools, addr: usize) -> Option<usize>
    requires in_runs { AreInRuns pools.now.ranges.items pools.now.firsts.items }
    requires apart { ArePoolsApart pools.now.ranges.items }
    requires addressable { (p : Range) → IsIn p pools.now.ranges.items → end_of p < 2 ^ 64 }
    ensures found { IfSome result (λ place. EndsAt pools.now.ranges.items place addr) }
    ensures none { IfNone result ((p : Range) → IsIn p pools.now.ranges.items → end_of p ≢ addr) }
{
    let Some(place) = last_begun(pools, addr) else {
        return None;
    };
    let last = pools.ranges[place];
    if last.start + last.len == addr {
        Some(place)
    } else {
        None
    }
}

/// Whether a pool begins at the range's start rounded up to 32, and ends where the range does.
pub(crate) fn is_pool(pools: &Pools, range: Range) -> bool
    requires in_runs { AreInRuns pools.now.ranges.items pools.now.firsts.items }
    requires apart { ArePoolsApart pools.now.ranges.items }
    requires addressable { (end_of range < 2 ^ 64) × ((p : Range) → IsIn p pools.now.ranges.items → end_of p < 2 ^ 64) }
    ensures { IsTrue result ↔ ((p : Range) × IsIn p pools.now.ranges.items × (p.start ≡ round32 range.start) × (end_of p ≡ end_of range)) }
{
    let Some(place) = ending_at(pools, range.start + range.len) else {
        return false;
    };
    match range.start.checked_next_multiple_of(GRANULARITY) {
        Some(start) => pools.ranges[place].start == start,
        None => false,
    }
}
