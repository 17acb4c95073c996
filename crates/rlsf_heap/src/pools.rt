//! Pools of a heap: ranges of its memory that are inserted, appended and removed.
ghost use Rattle.std.specs.Prelude.{◌≡◌, ◌≤◌, ◌+◌, ◌*◌, ℕ, [], Option, true, false, length, is_some, IfNone, if◌then◌else◌};
ghost use Rattle.rlsf_base.specs.Addr.{reply};
ghost use Rattle.rlsf_base.specs.declared.memory.range.Range.{Range};
ghost use Rattle.rlsf_base.specs.Range.{AreApart, LiesIn};
ghost use Rattle.rlsf_model_sizes.specs.Sizes.{max_pool_size};
ghost use Rattle.rlsf_base.specs.Space.{range_of};
ghost use Rattle.rlsf_model.specs.ChunkRows.{IsRow};
ghost use Rattle.rlsf_model.specs.Insert.{Appends, Inserts, IsNext, IsUntouched, aligned_part, cut};
ghost use Rattle.rlsf_model.specs.Remove.{IsIdle, Removes};
ghost use Rattle.rlsf_blocks.specs.Blocks.{walked};
ghost use Rattle.rlsf_tlsf.specs.Steps.UsedBlocks.{has_used};
ghost use Rattle.rlsf_heap.specs.Frame.{AddsRoom, KeepsPayloads, KeepsRoom};
ghost use Rattle.rlsf_heap.specs.Lending.{InsertsPool, KeepsPools};

use crate::heap::Heap;
use rlsf_base::memory::Range;
use rlsf_blocks::Blocks;
use rlsf_int::BitPattern;
use rlsf_tlsf::core_calls::{append_in, insert_in, remove_in};
use std::num::NonZeroUsize;

impl<FLBitmap: BitPattern, SLBitmap: BitPattern, const FLLEN: usize, const SLLEN: usize> Heap<
    FLBitmap,
    SLBitmap,
    FLLEN,
    SLLEN,
> {
    ghost use Rattle.rlsf_heap.specs.Heap.{IsUsable, Steps};
    ghost use Rattle.rlsf_heap.specs.Pools.{RemovesIfIdle};

    /// Inserts a range of the memory as a pool, and makes free chunks of its aligned part. No chunk has fewer than 64
    /// bytes.
    ///
    /// Returns the number of bytes from the range's start to the end of its last chunk. Returns `None` if the range makes
    /// no chunk; then nothing changes. No byte of the memory becomes raw (`raw`).
    ///
    /// Suppose that no payload is live and that the range starts at a multiple of 32. If its length is at least what
    /// `pool_size_for_payloads` returns for some bounds, the heap is then sized for them (`IsSizedFor`). For a budget
    /// (`pool_size_for_budget`, `IsSizedForBudget`) payloads may be live.
    ///
    /// The range must lie in the memory and overlap no chunk.
    ///
    /// Takes at most 13 word accesses for each chunk that it makes, whatever the pools contain.
    pub fn insert_free_block_ptr(&mut self, range: Range) -> Option<NonZeroUsize>
        requires lies_in { LiesIn range self.old.memory.start (length self.old.memory.bytes) }
        requires untouched { IsUntouched self.old.state.chunks range }
        requires usable { IsUsable self.old range }
        ensures step { Steps FLLEN SLLEN self.new (Inserts FLLEN self.old.state range (reply result)) }
        ensures untouched { (r : Range) → IsUntouched self.old.state.chunks r → AreApart range r → IsUntouched self.new.state.chunks r }
        ensures pool { InsertsPool self.old.state.chunks self.new.state.chunks range result }
        ensures room { AddsRoom FLLEN SLLEN range self.old.state self.new.state }
        ensures refused { IfNone result (self.new.memory.bytes ≡ self.old.memory.bytes) }
        ensures frame { KeepsPayloads self.old self.new }
        ensures touches { self.new.memory.touches ≤ self.old.memory.touches + 13 * length (cut (max_pool_size FLLEN) (aligned_part range)) }
    {
        insert_in(&mut self.memory, &mut self.table, &mut self.state, range)
    }

    /// Inserts a range of the memory as a pool, as `insert_free_block_ptr` does, but does not return the number of bytes
    /// taken.
    ///
    /// The range must lie in the memory and overlap no chunk.
    ///
    /// Takes at most 13 word accesses for each chunk that it makes, whatever the pools contain.
    ///
    /// From `crates/rlsf_example_tenants/src/sized.rt`:
    ///
    /// ```
    /// let memory = OpenMemory::reserve(alloc, 4096, len).ok()?;
    /// let mut heap = Small::new(memory);
    /// heap.insert_free_block(Range { start: 4096, len });
    /// ```
    pub fn insert_free_block(&mut self, range: Range)
        requires lies_in { LiesIn range self.old.memory.start (length self.old.memory.bytes) }
        requires untouched { IsUntouched self.old.state.chunks range }
        requires usable { IsUsable self.old range }
        ensures step { Steps FLLEN SLLEN self.new (λ t. (taken : Option ℕ) × Inserts FLLEN self.old.state range taken t) }
        ensures untouched { (r : Range) → IsUntouched self.old.state.chunks r → AreApart range r → IsUntouched self.new.state.chunks r }
        ensures pool { KeepsPools self.old.state.chunks self.new.state.chunks range }
        ensures room { AddsRoom FLLEN SLLEN range self.old.state self.new.state }
        ensures refused { cut (max_pool_size FLLEN) (aligned_part range) ≡ [] → self.new.memory.bytes ≡ self.old.memory.bytes }
        ensures frame { KeepsPayloads self.old self.new }
        ensures touches { self.new.memory.touches ≤ self.old.memory.touches + 13 * length (cut (max_pool_size FLLEN) (aligned_part range)) }
    {
        let _ = self.insert_free_block_ptr(range);
    }

    /// Appends a range of the memory that begins at the end of a chunk, and returns the number of bytes taken. If it
    /// returns 0, nothing changes. No byte of the memory becomes raw (`raw`).
    ///
    /// - If there is a longest chunk (`FLLEN` is below 59), the range becomes chunks of its own, as
    ///   `insert_free_block_ptr` makes them.
    /// - Otherwise the chunk grows by the range's length, rounded down to a multiple of 32. Its old sentinel, any free
    ///   block directly before that, and the new bytes except a new sentinel become one free block. This is the newest of
    ///   all free blocks.
    ///
    /// The range must lie in the memory, overlap no chunk, and begin where a chunk ends.
    ///
    /// If there is a longest chunk, takes at most 13 word accesses for each chunk that it makes. Otherwise completes in constant time: at
    /// most 34 word accesses, whatever the pools contain.
    pub fn append_free_block_ptr(&mut self, range: Range) -> usize
        requires next { IsNext (range_of self.old.memory) self.old.state range }
        requires usable { IsUsable self.old range }
        ensures step { Steps FLLEN SLLEN self.new (Appends FLLEN self.old.state range result) }
        ensures untouched { (r : Range) → IsUntouched self.old.state.chunks r → AreApart range r → IsUntouched self.new.state.chunks r }
        ensures bounds { KeepsRoom SLLEN self.old.state self.new.state }
        ensures refused { result ≡ 0 → self.new.memory.bytes ≡ self.old.memory.bytes }
        ensures frame { KeepsPayloads self.old self.new }
        ensures touches { self.new.memory.touches
            ≤ self.old.memory.touches + (if is_some (max_pool_size FLLEN) then 13 * length (cut (max_pool_size FLLEN) (aligned_part range)) else 34) }
    {
        append_in(&mut self.memory, &mut self.table, &mut self.state, range)
    }

    /// Removes an inserted range: its chunks, and the free blocks in them. The removed part is the range from its start,
    /// rounded up to a multiple of 32, to its end. The other free blocks keep their order, and every used block is
    /// unchanged. Afterwards no chunk overlaps the removed part. No byte of the memory becomes raw (`raw`).
    ///
    /// The removed part must be complete contiguous chunks, or empty. No block in it may be used, so none of its payloads is
    /// live.
    ///
    /// Takes at most 9 word accesses for each chunk that it removes, whatever the pools contain.
    pub fn remove_pool(&mut self, range: Range)
        requires row { IsRow self.old.state (walked range) }
        requires idle { IsIdle self.old.state (walked range) }
        ensures step { Steps FLLEN SLLEN self.new (Removes self.old.state (walked range)) }
        ensures untouched { (r : Range) → IsUntouched self.old.state.chunks r → IsUntouched self.new.state.chunks r }
        ensures result { IsUntouched self.new.state.chunks (walked range) }
        ensures frame { KeepsPayloads self.old self.new }
        ensures touches { self.new.memory.touches + 9 * length self.new.state.chunks ≤ self.old.memory.touches + 9 * length self.old.state.chunks }
    {
        remove_in(&mut self.memory, &mut self.table, &mut self.state, range);
    }

    /// Removes an inserted range, as `remove_pool` does, if no block in it is used, and returns whether it did. Otherwise
    /// nothing changes. The iteration over the blocks is not counted as word accesses.
    ///
    /// The range from its start, rounded up to a multiple of 32, to its end must be complete contiguous chunks, or empty.
    ///
    /// Takes at most 9 word accesses for each chunk that it removes, and looks at each block of the range up to the first used one.
    ///
    /// From `crates/rlsf_test_heap/src/rows.rt`:
    ///
    /// ```
    /// if heap.try_remove_pool(pool) {
    ///     return None;
    /// }
    /// heap.deallocate(payload);
    /// ```
    pub fn try_remove_pool(&mut self, range: Range) -> bool
        requires { IsRow self.old.state (walked range) }
        ensures step { Steps FLLEN SLLEN self.new (RemovesIfIdle self.old.state (walked range) result) }
        ensures untouched { (r : Range) → IsUntouched self.old.state.chunks r → IsUntouched self.new.state.chunks r }
        ensures result { result ≡ true → IsUntouched self.new.state.chunks (walked range) }
        ensures refused { result ≡ false → self.new ≡ self.old }
        ensures frame { KeepsPayloads self.old self.new }
        ensures touches { self.new.memory.touches + 9 * length self.new.state.chunks ≤ self.old.memory.touches + 9 * length self.old.state.chunks }
    {
        // What `memory_ref` says of every heap: its state is well-formed.
        let _ = self.memory_ref();
        if any_used(self.iter_blocks(range)) {
            return false;
        }
        self.remove_pool(range);
        true
    }
}

/// Returns whether one of some blocks is used.
fn any_used(blocks: Blocks<'_>) -> bool
    ensures { result ≡ has_used blocks.entry }
{
    let mut blocks = blocks;
    while let Some(block) = blocks.next() {
        if block.is_occupied() {
            return true;
        }
    }
    false
}
