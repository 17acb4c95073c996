//! The list of pools.

ghost use Rattle.std.specs.Prelude.{◌≡◌, ◌↔◌, ◌<◌, ◌+◌, ◌^◌, true};
ghost use Rattle.rlsf_model.specs.Lists.{IsIn};
ghost use Rattle.rlsf_checked.specs.Pools.{current_pools, no_pools, with_longer_last, with_pool, without_last, without_pool_at};
ghost use Rattle.rlsf_checked.specs.Steps.Lists.{HasRoomForLast, listed};

use rlsf_base::memory::Range;
use std::alloc::Global;

/// The pools, in the order of their addresses.
#[derive(Drop)]
pub(crate) struct Pools {
    // The pools before the last one.
    pub(crate) earlier: Vec<Range>,
    // The last pool, up to the end of its last chunk. It is empty until a range is inserted, and once it was removed.
    pub(crate) last: Range,
}

impl Pools {
    /// Returns the list without a pool. The last one is empty and begins at `start`.
    pub(crate) fn new(alloc: Global, start: usize) -> Pools
        ensures { listed result ≡ no_pools start }
    {
        Pools {
            earlier: Vec::new(alloc),
            last: Range { start, len: 0 },
        }
    }

    /// Requests room for one more pool, if there is one. Returns whether the system has it. The pools stay.
    pub(crate) fn reserve(&mut self) -> bool
        ensures same { listed self.new ≡ listed self.old }
        ensures room { result ≡ true → HasRoomForLast self.new }
        ensures first { (self.old.last.len ≡ 0) → result ≡ true }
    {
        self.last.len == 0 || self.earlier.reserve(1).is_ok()
    }

    /// Adds a last pool. There must be room for it.
    pub(crate) fn add(&mut self, pool: Range)
        requires { HasRoomForLast self.old }
        ensures { listed self.new ≡ with_pool (listed self.old) pool }
    {
        if self.last.len > 0 {
            let _ = self.earlier.push(self.last);
        }
        self.last = pool;
    }

    /// Makes the last pool longer.
    pub(crate) fn extend(&mut self, len: usize)
        requires { self.old.last.len + len < 2 ^ 64 }
        ensures { listed self.new ≡ with_longer_last (listed self.old) len }
    {
        self.last.len += len;
    }

    /// Returns whether a range is a pool.
    pub(crate) fn contains(&self, range: Range) -> bool
        ensures { (result ≡ true) ↔ IsIn range (current_pools (listed self.now)) }
    {
        for pool in &self.earlier {
            if is_same(*pool, range) {
                return true;
            }
        }
        is_last(self.last, range)
    }

    /// Makes the last pool empty, at the same start.
    pub(crate) fn remove_last(&mut self)
        ensures { listed self.new ≡ without_last (listed self.old) }
    {
        self.last.len = 0;
    }

    /// Removes the pool that begins at an address. If it is the last one, that becomes empty.
    pub(crate) fn remove(&mut self, start: usize)
        ensures { listed self.new ≡ without_pool_at (listed self.old) start }
    {
        if self.last.start == start {
            self.last.len = 0;
        } else {
            self.earlier.retain(|pool| pool.start != start);
        }
    }

    /// Removes all pools. The last one is empty and begins at `start`.
    pub(crate) fn clear(&mut self, start: usize)
        ensures { listed self.new ≡ no_pools start }
    {
        self.earlier.clear();
        self.last = Range { start, len: 0 };
    }
}

/// Returns whether two ranges are the same.
fn is_same(range: Range, other: Range) -> bool
    ensures { (result ≡ true) ↔ (range ≡ other) }
{
    range == other
}

/// Returns whether a range is the last pool, and not empty.
fn is_last(last: Range, range: Range) -> bool
    ensures { (result ≡ true) ↔ ((range ≡ last) × (0 < range.len)) }
{
    range.len > 0 && range == last
}
