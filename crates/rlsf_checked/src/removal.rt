//! Pools that are removed.

ghost use Rattle.std.specs.Prelude.{◌≡◌, ◌≤◌, ◌+◌, ◌*◌, ◌↔◌, true, false, length, OnErr, OnOk};
ghost use Rattle.rlsf_model.specs.Remove.{IsIdle, Removes};
ghost use Rattle.rlsf_model.specs.Sized.{live_count};
ghost use Rattle.rlsf_model.specs.State.{empty};
ghost use Rattle.rlsf_blocks.specs.Blocks.{walked};
ghost use Rattle.rlsf_tlsf.specs.Allocator.{Stands, Steps};
ghost use Rattle.rlsf_tlsf.specs.Results.{KeepsFrameOfPools};
ghost use Rattle.rlsf_tlsf.specs.Steps.UsedBlocks.{has_used};
ghost use Rattle.rlsf_checked.specs.Pools.{no_pools, without_last, without_pool_at};
ghost use Rattle.rlsf_checked.specs.Removal.{IsRemovalOf};
ghost use Rattle.rlsf_checked.specs.Results.{RefusesUntouched};

use crate::checked::CheckedTlsf;
use crate::error::CheckedError;
use rlsf_base::memory::Range;
use rlsf_blocks::Blocks;
use rlsf_int::BitPattern;
use rlsf_tlsf::Tlsf;

impl<
    FLBitmap: BitPattern,
    SLBitmap: BitPattern,
    const FLLEN: usize,
    const SLLEN: usize,
> CheckedTlsf<FLBitmap, SLBitmap, FLLEN, SLLEN> {
    /// Removes the last pool: its chunks, and the free blocks in them. Afterwards the last pool is empty, at the same start, so its range
    /// can be inserted again. All payloads keep their bytes.
    ///
    /// Returns `true` exactly if no block of the last pool is used. Otherwise nothing changes. The time grows with the number of blocks of
    /// the last pool.
    pub fn remove_last(&mut self) -> bool
        ensures step { result ≡ true → Steps FLLEN SLLEN self.old.heap self.new.heap (Removes self.old.heap.state (walked self.old.pools.last)) }
        ensures result { result ≡ true → self.new.pools ≡ without_last self.old.pools }
        ensures idle { (result ≡ true) ↔ IsIdle self.old.heap.state (walked self.old.pools.last) }
        ensures refused { result ≡ false → self.new ≡ self.old }
        ensures frame { KeepsFrameOfPools self.old.heap self.new.heap }
    {
        let pool = self.pools.last;
        if any_used(self.heap.iter_blocks(pool)) {
            return false;
        }
        self.heap.remove_pool(pool);
        self.pools.remove_last();
        true
    }

    /// Removes a pool: its chunks, and the free blocks in them. The range is that of the pool: from its start, as it was inserted, to the end
    /// of its last chunk, where `insert` and the calls of `append` since then have put it. All payloads keep their bytes.
    ///
    /// If it was the last pool, that is empty afterwards, at the same start, so its range can be inserted again. Otherwise the last pool is
    /// unchanged.
    ///
    /// Refuses, and changes nothing:
    ///
    /// - `NotChunks` exactly if the range isn't a pool. A part of a pool isn't one, and neither are several pools.
    /// - else `InUse` exactly if a block of the pool is used.
    ///
    /// The time grows with the numbers of pools and of blocks of this one. At most 9 word accesses for each chunk that it removes. No byte is
    /// copied.
    pub fn remove_pool(&mut self, range: Range) -> Result<(), CheckedError>
        ensures step { OnOk result (Steps FLLEN SLLEN self.old.heap self.new.heap (Removes self.old.heap.state (walked range))) }
        ensures result { OnOk result (self.new.pools ≡ without_pool_at self.old.pools range.start) }
        ensures refused { RefusesUntouched self.old self.new (IsRemovalOf self.old.pools self.old.heap.state range result) result }
        ensures frame { KeepsFrameOfPools self.old.heap self.new.heap }
        ensures touches { self.new.heap.memory.touches + 9 * length self.new.heap.state.chunks
            ≤ self.old.heap.memory.touches + 9 * length self.old.heap.state.chunks }
    {
        if !self.pools.contains(range) {
            return Err(CheckedError::NotChunks);
        }
        if any_used(self.heap.iter_blocks(range)) {
            return Err(CheckedError::InUse);
        }
        self.heap.remove_pool(range);
        self.pools.remove(range.start);
        Ok(())
    }

    /// Returns the allocator without payloads and without a pool, over the same memory, whose bytes are unchanged. Nothing is requested
    /// from the system.
    ///
    /// Takes time proportional to the length of the memory, for the marks, and to the number of classes. No word of the memory is
    /// accessed.
    pub fn reset(self) -> Self
        ensures state { result.heap.state ≡ empty }
        ensures count { live_count result.heap.state ≡ 0 }
        ensures memory { result.heap.memory ≡ self.heap.memory }
        ensures pools { result.pools ≡ no_pools self.heap.memory.start }
        ensures stands { Stands FLLEN SLLEN result.heap }
    {
        let CheckedTlsf {
            heap,
            mut marks,
            mut pools,
        } = self;
        // What `memory_ref` says of every allocator: its parameters are valid.
        let _ = heap.memory_ref();
        let memory = heap.into_memory();
        pools.clear(memory.start());
        marks.clear();
        CheckedTlsf {
            heap: Tlsf::new(memory),
            marks,
            pools,
        }
    }
}

/// Returns whether one of some blocks is used.
fn any_used(blocks: Blocks<'_>) -> bool
    ensures { result ≡ has_used blocks.entry }
{
    let mut blocks = blocks;
    while let Some(block) = blocks.next() {
        if block.is_occupied() {
            return true;
        }
    }
    false
}
