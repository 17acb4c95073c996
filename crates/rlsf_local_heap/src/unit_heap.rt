//! The heaps that an allocator of collections can be over.
ghost use Rattle.std.specs.Prelude.{◌≡◌, ◌-◌, ◌^◌, ◌<◌, ◌≤◌, ℕ, Option, min, IfSome, MatchResult};
ghost use Rattle.rlsf_base.specs.Changes.{IsAllOwn};
ghost use Rattle.rlsf_base.specs.OpenSpace.{home_of};
ghost use Rattle.rlsf_model_sizes.specs.SizeClass.{IsValid};
ghost use Rattle.rlsf_base.specs.Space.{range_of};
ghost use Rattle.rlsf_model.specs.Insert.{Inserts};
ghost use Rattle.rlsf_model.specs.State.{empty};
ghost use Rattle.rlsf_heap.specs.Heap.{Steps};
ghost use Rattle.rlsf_heap.specs.Units.{IsCompleteOf, identity_of, payload_len};
ghost use Rattle.rlsf_local_heap.specs.Constants.{chunks_of_range, constants_of};
ghost use Rattle.rlsf_local_heap.specs.Resized.{IsAtSamePlace};

use crate::slot::Identified;
use rlsf_base::memory::{OpenMemory, Range, UnitPayload};
use rlsf_heap::Heap;
use rlsf_int::BitPattern;

/// The greatest alignment of a block: no type of the language has a greater one.
pub(crate) const UNIT: usize = 16;

/// A heap that a `LocalHeap` can be over: each `Heap` is one, and each `Box` of one. A call moves it, so the `Box` is faster.
pub trait UnitHeap: Identified + Drop {
    /// Allocates a payload of units for `size` bytes. Returns `None` if the heap refuses it.
    fn take(&mut self, size: usize) -> Option<UnitPayload>
        ensures constants { Self.constants self.new ≡ Self.constants self.old }
        ensures payload { IfSome result (λ p. IsCompleteOf p (Self.constants self.old).heap × (p.len ≡ payload_len size) × (size < 2 ^ 63)) };

    /// Deallocates a complete payload of this heap.
    fn give(&mut self, payload: UnitPayload)
        requires { IsCompleteOf payload (Self.constants self.old).heap }
        ensures { Self.constants self.new ≡ Self.constants self.old };

    /// Gives a payload of this heap the length for `size` bytes without moving it, while its first bytes, as many as both lengths
    /// have, stay with their owner. Returns it as it was, as the error, if the heap refuses it. `len` is the payload's length.
    fn resize(
        &mut self,
        payload: UnitPayload,
        len: usize,
        size: usize,
    ) -> Result<UnitPayload, UnitPayload>
        requires heap { identity_of payload ≡ (Self.constants self.old).heap }
        requires len { len ≡ payload.len }
        requires size { size ≤ 2 ^ 63 - 16 }
        requires kept { payload.kept ≡ min payload.len (payload_len size) }
        ensures constants { Self.constants self.new ≡ Self.constants self.old }
        ensures payload { MatchResult result (λ p. IsAtSamePlace payload p (payload_len size)) (λ p. IsAtSamePlace payload p payload.len) };

    /// Returns the number of bytes of the heap's memory.
    fn size(&self) -> usize;

    /// Returns the number of payloads that are out.
    fn live(&self) -> usize;
}

impl<FLBitmap: BitPattern, SLBitmap: BitPattern, const FLLEN: usize, const SLLEN: usize> Identified
    for Heap<FLBitmap, SLBitmap, FLLEN, SLLEN> {
    ghost constants = { λ h. constants_of h };
}

impl<FLBitmap: BitPattern, SLBitmap: BitPattern, const FLLEN: usize, const SLLEN: usize> UnitHeap
    for Heap<FLBitmap, SLBitmap, FLLEN, SLLEN> {
    fn take(&mut self, size: usize) -> Option<UnitPayload> {
        if size > isize::MAX as usize - UNIT || !self.has_units() {
            return None;
        }
        self.allocate_units(size)
    }

    fn give(&mut self, payload: UnitPayload) {
        self.deallocate_units(payload);
    }

    fn resize(
        &mut self,
        payload: UnitPayload,
        len: usize,
        size: usize,
    ) -> Result<UnitPayload, UnitPayload> {
        self.resize_units(payload, len, size)
    }

    fn size(&self) -> usize {
        self.memory_ref().len()
    }

    fn live(&self) -> usize {
        Heap::live(self)
    }
}

impl<H: UnitHeap> Identified for Box<H> {
    ghost constants = { λ b. H.constants b.value };
}

impl<H: UnitHeap> UnitHeap for Box<H> {
    fn take(&mut self, size: usize) -> Option<UnitPayload> {
        (**self).take(size)
    }

    fn give(&mut self, payload: UnitPayload) {
        (**self).give(payload);
    }

    fn resize(
        &mut self,
        payload: UnitPayload,
        len: usize,
        size: usize,
    ) -> Result<UnitPayload, UnitPayload> {
        (**self).resize(payload, len, size)
    }

    fn size(&self) -> usize {
        (**self).size()
    }

    fn live(&self) -> usize {
        (**self).live()
    }
}

/// Creates a heap over a memory, all of which is one pool. A memory of less than 64 bytes becomes no pool.
pub(crate) fn over_all<
    FLBitmap: BitPattern,
    SLBitmap: BitPattern,
    const FLLEN: usize,
    const SLLEN: usize,
>(memory: OpenMemory) -> Heap<FLBitmap, SLBitmap, FLLEN, SLLEN>
    requires valid { IsValid FLBitmap.width SLBitmap.width FLLEN SLLEN }
    requires own { IsAllOwn memory.out }
    ensures home { result.identity.home ≡ home_of memory }
    ensures pool { Steps FLLEN SLLEN result (λ t. (taken : Option ℕ) × Inserts FLLEN empty (range_of memory) taken t) }
    ensures chunks { result.state.chunks ≡ chunks_of_range FLLEN (range_of memory) }
{
    let range = Range {
        start: memory.start(),
        len: memory.len(),
    };
    let mut heap = Heap::new(memory);
    heap.insert_free_block_ptr(range);
    heap
}
