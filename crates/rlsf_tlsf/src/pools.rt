//! The pools of an allocator: they are inserted, appended to and removed, and their blocks are listed.

ghost use Rattle.std.specs.Prelude.{◌≡◌, ◌≤◌, ◌+◌, ◌*◌, ℕ, [], Option, length, is_some, IfNone, if◌then◌else◌};
ghost use Rattle.std.specs.Map.Iter.{GivesInOrder};
ghost use Rattle.rlsf_base.specs.Addr.{reply};
ghost use Rattle.rlsf_base.specs.declared.memory.range.Range.{Range};
ghost use Rattle.rlsf_base.specs.Range.{LiesIn, end_of};
ghost use Rattle.rlsf_model_sizes.specs.Sizes.{max_pool_size};
ghost use Rattle.rlsf_base.specs.Space.{range_of};
ghost use Rattle.rlsf_model.specs.ChunkRows.{IsRow};
ghost use Rattle.rlsf_model.specs.Insert.{Appends, Inserts, IsNext, IsUntouched, aligned_part, cut};
ghost use Rattle.rlsf_model.specs.Lists.{IsIn};
ghost use Rattle.rlsf_model.specs.Remove.{IsIdle, Removes};
ghost use Rattle.rlsf_blocks.specs.Blocks.{AreBlocks, walked};

use crate::core_calls::{append_in, insert_in, remove_in};
use crate::tlsf::Tlsf;
use rlsf_base::memory::Range;
use rlsf_blocks::{BlockInfo, Blocks, chunk_end, walk_blocks};
use rlsf_int::BitPattern;
use std::num::NonZeroUsize;

impl<FLBitmap: BitPattern, SLBitmap: BitPattern, const FLLEN: usize, const SLLEN: usize> Tlsf<
    FLBitmap,
    SLBitmap,
    FLLEN,
    SLLEN,
> {
    ghost use Rattle.rlsf_tlsf.specs.Allocator.{Steps};
    ghost use Rattle.rlsf_tlsf.specs.Bounds.{KeepsAllBounds};
    ghost use Rattle.rlsf_tlsf.specs.Results.{IsAppended, IsInserted, IsRemoved, KeepsFrameOfPools};

    /// Inserts a range of the memory as a pool, and makes free chunks of its aligned part. No chunk has fewer than 64
    /// bytes.
    ///
    /// Returns the number of bytes from the range's start to the end of its last chunk. Returns `None` if the range makes
    /// no chunk; then nothing changes.
    ///
    /// Suppose that no payload is live and that the range starts at a multiple of 32. If its length is at least what
    /// `pool_size_for_payloads` returns for some bounds, the allocator is then sized for them (`IsSizedFor`). For a budget
    /// (`pool_size_for_budget`, `IsSizedForBudget`) payloads may be live.
    ///
    /// The range must lie in the memory and overlap no chunk.
    ///
    /// At most 13 word accesses for each chunk that it makes. No byte is copied.
    ///
    /// From `crates/rlsf_example_libraries/src/store.rt`:
    ///
    /// ```
    /// let mut heap = Tlsf::new(memory);
    /// let taken = heap.insert_free_block_ptr(Range { start, len });
    /// let len = taken.map_or(0, NonZeroUsize::get);
    /// ```
    #[tactic(auto, using(crate::proofs::Whole::none_again, crate::proofs::Whole::allocator_again))]
    pub fn insert_free_block_ptr(&mut self, range: Range) -> Option<NonZeroUsize>
        requires lies_in { LiesIn range self.old.memory.start (length self.old.memory.bytes) }
        requires untouched { IsUntouched self.old.state.chunks range }
        ensures step { Steps FLLEN SLLEN self.old self.new (Inserts FLLEN self.old.state range (reply result)) }
        ensures result { IsInserted FLLEN SLLEN range self.old.state self.new.state }
        ensures bounds { KeepsAllBounds SLLEN self.old.state self.new.state }
        ensures refused { IfNone result (self.new.memory.bytes ≡ self.old.memory.bytes) }
        ensures frame { KeepsFrameOfPools self.old self.new }
        ensures touches { self.new.memory.touches ≤ self.old.memory.touches + 13 * length (cut (max_pool_size FLLEN) (aligned_part range)) }
    {
        insert_in(
            &mut self.memory.inner,
            &mut self.table,
            &mut self.state,
            range,
        )
    }

    /// Inserts a range of the memory as a pool, as `insert_free_block_ptr` does, but does not return the number of bytes
    /// taken.
    ///
    /// The range must lie in the memory and overlap no chunk.
    ///
    /// At most 13 word accesses for each chunk that it makes. No byte is copied.
    ///
    /// From `crates/rlsf_example_readme/src/main.rt`:
    ///
    /// ```
    /// let mut pool = Tlsf::new(Memory::new(alloc, 4096, len).ok()?);
    /// pool.insert_free_block(Range { start: 4096, len });
    /// ```
    pub fn insert_free_block(&mut self, range: Range)
        requires lies_in { LiesIn range self.old.memory.start (length self.old.memory.bytes) }
        requires untouched { IsUntouched self.old.state.chunks range }
        ensures step { Steps FLLEN SLLEN self.old self.new (λ t. (taken : Option ℕ) × Inserts FLLEN self.old.state range taken t) }
        ensures result { IsInserted FLLEN SLLEN range self.old.state self.new.state }
        ensures bounds { KeepsAllBounds SLLEN self.old.state self.new.state }
        ensures refused { cut (max_pool_size FLLEN) (aligned_part range) ≡ [] → self.new.memory.bytes ≡ self.old.memory.bytes }
        ensures frame { KeepsFrameOfPools self.old self.new }
        ensures touches { self.new.memory.touches ≤ self.old.memory.touches + 13 * length (cut (max_pool_size FLLEN) (aligned_part range)) }
    {
        let _ = self.insert_free_block_ptr(range);
    }

    /// Appends a range of the memory that begins at the end of a chunk, and returns the number of bytes taken. If it
    /// returns 0, nothing changes.
    ///
    /// - If there is a longest chunk (`FLLEN` is below 59), the range becomes chunks of its own, as
    ///   `insert_free_block_ptr` makes them.
    /// - Otherwise the chunk grows by the range's length, rounded down to a multiple of 32. Its old sentinel, any free
    ///   block directly before that, and the new bytes except a new sentinel become one free block. This is the newest of
    ///   all free blocks.
    ///
    /// The range must lie in the memory, overlap no chunk, and begin where a chunk ends.
    ///
    /// At most 13 word accesses for each chunk that it makes, and at most 34 if a chunk grows. No byte is copied.
    ///
    /// From `crates/rlsf_test_tlsf/src/appends.rt`:
    ///
    /// ```
    /// let start = 4096 + pool;
    /// let less = tlsf.append_free_block_ptr(Range { start, len: few });
    /// let more = tlsf.append_free_block_ptr(Range { start, len: many });
    /// ```
    #[tactic(auto, using(crate::proofs::Whole::none_again, crate::proofs::Whole::allocator_again))]
    pub fn append_free_block_ptr(&mut self, range: Range) -> usize
        requires { IsNext (range_of self.old.memory) self.old.state range }
        ensures step { Steps FLLEN SLLEN self.old self.new (Appends FLLEN self.old.state range result) }
        ensures result { IsAppended SLLEN range self.old.state self.new.state }
        ensures bounds { KeepsAllBounds SLLEN self.old.state self.new.state }
        ensures refused { result ≡ 0 → self.new.memory.bytes ≡ self.old.memory.bytes }
        ensures frame { KeepsFrameOfPools self.old self.new }
        ensures touches { self.new.memory.touches ≤ self.old.memory.touches + (if is_some (max_pool_size FLLEN) then 13 * length (cut (max_pool_size FLLEN) (aligned_part range)) else 34) }
    {
        append_in(
            &mut self.memory.inner,
            &mut self.table,
            &mut self.state,
            range,
        )
    }

    /// Removes an inserted range: its chunks, and the free blocks in them. The removed part is the range from its start,
    /// rounded up to a multiple of 32, to its end. The other free blocks keep their order, and every used block is
    /// unchanged. Afterwards no chunk overlaps the removed part.
    ///
    /// The removed part must be complete contiguous chunks, or empty. No block in it may be used.
    ///
    /// At most 9 word accesses for each chunk that it removes. No byte is copied.
    ///
    /// From `crates/rlsf_test_tlsf/src/removals.rt`:
    ///
    /// ```
    /// tlsf.remove_pool(Range {
    ///     start: 4096,
    ///     len: 256,
    /// });
    /// ```
    #[tactic(auto, using(crate::proofs::Whole::none_again, crate::proofs::Whole::allocator_again))]
    pub fn remove_pool(&mut self, range: Range)
        requires row { IsRow self.old.state (walked range) }
        requires idle { IsIdle self.old.state (walked range) }
        ensures step { Steps FLLEN SLLEN self.old self.new (Removes self.old.state (walked range)) }
        ensures result { IsRemoved (walked range) self.old.state self.new.state }
        ensures frame { KeepsFrameOfPools self.old self.new }
        ensures touches { self.new.memory.touches + 9 * length self.new.state.chunks ≤ self.old.memory.touches + 9 * length self.old.state.chunks }
    {
        remove_in(
            &mut self.memory.inner,
            &mut self.table,
            &mut self.state,
            range,
        );
    }

    /// Returns the address of the end of the chunk that begins at `addr`. This is the address just past its sentinel. The
    /// iteration over the chunk's blocks is not counted as word accesses.
    ///
    /// A chunk must begin at `addr`.
    pub fn chunk_end(&self, addr: usize) -> usize
        requires { (c : Range) × IsIn c self.now.state.chunks × (c.start ≡ addr) }
        ensures { (c : Range) → IsIn c self.now.state.chunks → c.start ≡ addr → result ≡ end_of c }
    {
        chunk_end(&self.memory.inner, addr)
    }

    /// Returns an iterator over the blocks of a range, used and free, in address order. It begins at the range's start,
    /// rounded up to a multiple of 32, and stops at the range's end. It skips the sentinels at the ends of chunks.
    ///
    /// This part of the range must be complete contiguous chunks, or empty.
    ///
    /// Completes in constant time. So does each step of the iteration, whose reads are not counted as word accesses.
    ///
    /// With `blocks` for what this call returned, from `crates/rlsf_test_tlsf/src/walks.rt`:
    ///
    /// ```
    /// for block in blocks {
    ///     if !block.is_occupied() {
    ///         total = total.saturating_add(block.max_payload_size());
    ///     }
    /// }
    /// ```
    pub fn iter_blocks(&self, range: Range) -> Blocks<'_>
        requires { IsRow self.now.state (walked range) }
        ensures blocks { AreBlocks self.now.state (walked range) result }
        ensures runs { GivesInOrder BlockInfo }
    {
        walk_blocks(&self.memory.inner, range)
    }
}
