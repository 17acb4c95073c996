//! A pool of payloads of one size, in a memory of its own.

ghost use Rattle.std.specs.Prelude.{◌≡◌, ◌+◌, ◌≤◌, ◌↔◌, IfNone, IfOk, IfSome, IsErrOf, IsNone, IsOk};
ghost use Rattle.rlsf_model_sizes.specs.Sizes.{pool_size_for_objects};
ghost use Rattle.rlsf_partitions.specs.Partitions.{ArePossibleLengths, IsTakenFrom};

use rlsf_base::classes;
use rlsf_base::memory::{Layout, MemoryError, OpenMemory, Range};
use rlsf_heap::{Heap, Payload};
use std::alloc::Global;
use std::marker::Model;

/// The address of the first byte of a partition's memory.
const START: usize = 4096;

/// A pool of payloads up to one size. Each block has the same length, at which a size class begins, so the blocks fill the pool from its
/// start, and a free one always serves.
#[derive(Drop)]
pub(crate) struct Partition {
    heap: Heap<u64, u64, 59, 8>,
    // What is requested of the heap: it has at least the greatest size.
    layout: Layout,
    size: usize,
    count: usize,
}

impl Model for Partition {
    ghost use Rattle.rlsf_model.specs.Sized.{live_count};
    ghost use Rattle.rlsf_partitions.specs.Partitions.{PartitionView};
    ghost use Rattle.rlsf_partitions.specs.Tiled.{IsPartition};

    ghost Value = { PartitionView };

    ghost view = { λ p. record { identity = p.heap.identity; size = p.size; count = p.count; live = live_count p.heap.state; touches = p.heap.memory.touches } };

    ghost invariant = { λ p. IsPartition p.heap p.layout.size p.layout.align p.size p.count };
}

impl Partition {
    /// Creates a partition for `count` payloads of up to `size` bytes. Allocates a memory for it.
    pub(crate) fn new(alloc: Global, count: usize, size: usize) -> Result<Partition, MemoryError>
        ensures possible { IsOk result → ArePossibleLengths (pool_size_for_objects 59 8 count size) }
        ensures too_long { IsErrOf result MemoryError.TooLong → ArePossibleLengths (pool_size_for_objects 59 8 count size) → ⊥ }
        ensures ever { IsErrOf result MemoryError.ZeroStart → ⊥ }
        ensures made { IfOk result (λ p. (p.size ≡ size) × (p.count ≡ count) × (p.live ≡ 0)) }
    {
        let Some((len, asked)) = classes::pool_size_for_objects::<u64, u64, 59, 8>(count, size)
        else {
            return Err(MemoryError::TooLong);
        };
        let Ok(layout) = Layout::from_size_align(asked, 16) else {
            return Err(MemoryError::TooLong);
        };
        let memory = OpenMemory::reserve(alloc, START, len)?;
        let mut heap = Heap::new(memory);
        heap.insert_free_block_ptr(Range { start: START, len });
        Ok(Partition {
            heap,
            layout,
            size,
            count,
        })
    }

    /// Returns the greatest size of a payload.
    pub(crate) fn size(&self) -> usize
        ensures { result ≡ self.now.size }
    {
        self.size
    }

    /// Returns how many more payloads have room.
    pub(crate) fn vacant(&self) -> usize
        ensures { result + self.now.live ≡ self.now.count }
    {
        self.count - self.heap.live()
    }

    /// Allocates a payload. Its bytes may be raw. Returns `None` if and only if no more have room; then nothing changes.
    pub(crate) fn take(&mut self) -> Option<Payload>
        ensures taken { IfSome result (λ payload. IsTakenFrom self.old self.new payload) }
        ensures full { IsNone result ↔ (self.old.live ≡ self.old.count) }
        ensures refused { IfNone result (self.new ≡ self.old) }
        ensures touches { self.new.touches ≤ self.old.touches + 27 }
    {
        if self.heap.live() == self.count {
            return None;
        }
        self.heap.allocate(self.layout)
    }

    /// Deallocates a payload. It must be one of this partition.
    pub(crate) fn give_back(&mut self, payload: Payload)
        requires { payload.identity ≡ self.old.identity }
        ensures within { self.old.live ≤ self.old.count }
        ensures given_back { self.old ≡ record self.new { live = self.new.live + 1; touches = self.old.touches } }
        ensures touches { self.new.touches ≤ self.old.touches + 32 }
    {
        self.heap.deallocate(payload);
    }
}
