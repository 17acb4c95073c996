//! A pool of objects of one size and alignment, each of which owns its bytes.

ghost use Rattle.std.specs.Prelude.{◌≡◌, ◌+◌, ◌-◌, ◌^◌, ◌≤◌, ◌↔◌, ℕ, None, Some, IfNone, IfOk, IfSome, IsErrOf, IsNone};
ghost use Rattle.rlsf_model_sizes.specs.Sizes.{pool_size_for_payloads};
ghost use Rattle.rlsf_example_libraries.specs.Results.{IsObjectTaken};

use rlsf::{Layout, Range, classes};
use rlsf_base::memory::{MemoryError, OpenMemory};
use rlsf_heap::{Heap, Payload};
use std::alloc::Global;
use std::marker::Model;

/// The address of the first byte of a pool's memory.
const START: usize = 4096;

/// A pool of objects of one layout. An object that is out is a `Payload`: it owns its bytes, so several objects can be written at
/// once, and each can go to another thread.
///
/// Dropping the pool deallocates its memory if no object is out. Otherwise the memory leaks.
#[derive(Drop)]
pub struct OwnedObjects {
    heap: Heap<u64, u64, 59, 8>,
    layout: Layout,
    // The greatest number of objects that are out at once. While fewer are out, the heap never refuses one.
    capacity: usize,
}

impl Model for OwnedObjects {
    ghost use Rattle.rlsf_model.specs.Sized.{live_count};
    ghost use Rattle.rlsf_example_libraries.specs.Owned.{IsOwnedPool, OwnedPool};

    ghost Value = { OwnedPool };

    ghost view = { λ o. record { identity = o.heap.identity; size = o.layout.size; align = o.layout.align; live = live_count o.heap.state; capacity = o.capacity } };

    ghost invariant = { λ o. IsOwnedPool o.heap.state o.layout.size o.layout.align o.capacity };
}

impl OwnedObjects {
    /// Creates a pool of which at most `capacity` objects of `layout` are out at once. Allocates a memory that is long enough for
    /// them, in a time that doesn't depend on its length.
    ///
    /// Returns the first of these errors that applies:
    /// - `TooLong` if the computed pool doesn't fit behind the first 4096 addresses
    /// - `OutOfMemory` if the system has no such block
    pub fn new(alloc: Global, layout: Layout, capacity: usize) -> Result<OwnedObjects, MemoryError>
        ensures too_long { pool_size_for_payloads 59 8 (capacity - 1) layout.size layout.align ≡ None → IsErrOf result MemoryError.TooLong }
        ensures past_the_end { (len : ℕ) → pool_size_for_payloads 59 8 (capacity - 1) layout.size layout.align ≡ Some len → (IsErrOf result MemoryError.TooLong ↔ (2 ^ 64 ≤ 4096 + len)) }
        ensures ever { IsErrOf result MemoryError.ZeroStart → ⊥ }
        ensures layout { IfOk result (λ p. (p.size ≡ layout.size) × (p.align ≡ layout.align)) }
        ensures count { IfOk result (λ p. (p.live ≡ 0) × (p.capacity ≡ capacity)) }
    {
        let most = capacity.saturating_sub(1);
        let len = classes::pool_size_for_payloads::<u64, u64, 59, 8>(most, layout).ok_or(
            MemoryError::TooLong,
        )?;
        let memory = OpenMemory::reserve(alloc, START, len)?;
        let mut heap = Heap::new(memory);
        heap.insert_free_block_ptr(Range { start: START, len });
        Ok(OwnedObjects {
            heap,
            layout,
            capacity,
        })
    }

    /// Returns the greatest number of objects that are out at once.
    pub fn capacity(&self) -> usize
        ensures { result ≡ self.now.capacity }
    {
        self.capacity
    }

    /// Returns the number of objects that are out.
    pub fn len(&self) -> usize
        ensures value { result ≡ self.now.live }
        ensures most { result ≤ self.now.capacity }
    {
        self.heap.live()
    }

    /// Takes an object of zeros out of the pool. Its address is a multiple of the alignment, and it has at least as many bytes
    /// as the layout, and less than 32 more.
    ///
    /// Returns `None` if and only if the number of objects that are out is the capacity; then nothing changes.
    pub fn take(&mut self) -> Option<Payload>
        ensures result { IfSome result (λ object. IsObjectTaken self.old self.new object) }
        ensures room { IsNone result ↔ (self.old.live ≡ self.old.capacity) }
        ensures refused { IfNone result (self.new ≡ self.old) }
        ensures frame { self.new.identity ≡ self.old.identity }
    {
        if self.heap.live() == self.capacity {
            return None;
        }
        self.heap.allocate_zeroed(self.layout)
    }

    /// Takes an object back. Then the pool has room for one more.
    ///
    /// The object must be one of this pool.
    pub fn give_back(&mut self, object: Payload)
        requires { object.identity ≡ self.old.identity }
        ensures given_back { self.old ≡ record self.new { live = self.new.live + 1 } }
        ensures identity { self.new.identity ≡ self.old.identity }
    {
        self.heap.deallocate(object);
    }
}
