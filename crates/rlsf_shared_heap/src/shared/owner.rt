//! A heap of one thread, which lends payloads to other threads and never waits for them.
ghost use Rattle.std.specs.Prelude.{◌≡◌, ◌≢◌, ◌+◌, ◌-◌, ◌<◌, ◌≤◌, ◌↔◌, length, replicate, IfErr, IfOk, IfSome, IsOk, IsSome};
ghost use Rattle.rlsf_base.specs.Layout.{IsLayout};
ghost use Rattle.rlsf_model.specs.Allocate.{Allocates};
ghost use Rattle.rlsf_model.specs.Reallocate.{Reallocates};
ghost use Rattle.rlsf_model.specs.Release.{Deallocates};
ghost use Rattle.rlsf_model.specs.State.{filled};
ghost use Rattle.rlsf_heap.specs.Heap.{addr_of, IsWritten, moved_to};
ghost use Rattle.rlsf_heap.specs.Replies.{IsAllocatedZeroed, IsDeallocated, IsRefused, IsResizedOrMoved, WithinBounds};
ghost use Rattle.rlsf_shared_heap.specs.Owners.{IsCollected, IsServed, KeepsOwner, LeavesLent, LendsNew, Serves, ServesLent};

use crate::shared::payload::SharedPayload;
use crate::shared::returns::Returns;
use rlsf_base::memory::Layout;
use rlsf_heap::{Heap, Payload};
use rlsf_int::BitPattern;
use std::marker::Model;

/// How many payloads that came back an allocation deallocates, at most.
const COLLECTED: usize = 2;

/// A `Heap` of one thread, which lends payloads to other threads. No call of it can wait, since none is passed an `rt`.
///
/// Other threads return lent payloads to its `Returns`. Each allocation first deallocates at most two of those that came back. While
/// another thread has the lock of the `Returns`, it goes on without them.
///
/// It counts the lent payloads that it didn't deallocate. Dropping a lent payload leaks it, so it counts for ever. Dropping an owner drops
/// its heap.
#[derive(Drop)]
pub struct OwnerHeap<
    'r,
    FLBitmap: BitPattern,
    SLBitmap: BitPattern,
    const FLLEN: usize,
    const SLLEN: usize,
> {
    heap: Heap<FLBitmap, SLBitmap, FLLEN, SLLEN>,
    returns: &'r Returns,
    lent: usize,
}

impl<'r, FLBitmap: BitPattern, SLBitmap: BitPattern, const FLLEN: usize, const SLLEN: usize> Model
    for OwnerHeap<'r, FLBitmap, SLBitmap, FLLEN, SLLEN> {
    ghost use Rattle.std.specs.Prelude.{◌≡◌, ◌≤◌};
    ghost use Rattle.rlsf_shared_heap.specs.Owners.{OwnerView};

    ghost Value = { OwnerView };

    ghost view = { λ o. record { heap = o.heap; room = o.returns.now.room; lent = o.lent } };

    ghost invariant = { λ o. (o.heap.identity ≡ o.returns.now.identity) × (o.lent ≤ o.returns.now.room) };
}

impl<
    'r,
    FLBitmap: BitPattern,
    SLBitmap: BitPattern,
    const FLLEN: usize,
    const SLLEN: usize,
> OwnerHeap<'r, FLBitmap, SLBitmap, FLLEN, SLLEN> {
    ghost use Rattle.rlsf_heap.specs.Heap.{Steps};
    ghost use Rattle.rlsf_heap.specs.Frame.{KeepsAllBounds, KeepsBounds, KeepsFrame, KeepsFrameMoving, KeepsSized};

    /// Creates an owner of `heap`, none of whose payloads is lent.
    ///
    /// `returns` must have been made for `heap`. It has no other owner while this one, or a payload that it lent, exists.
    ///
    /// Never waits. The fields of the heap are moved, and no word of its memory is accessed.
    ///
    /// From `crates/rlsf_example_real_time/src/main.rt`:
    ///
    /// ```
    /// let mut returns = Returns::new(alloc, &heap, LENT).ok()?;
    /// let mut owner = OwnerHeap::new(heap, &mut returns);
    /// ```
    pub fn new(heap: Heap<FLBitmap, SLBitmap, FLLEN, SLLEN>, returns: &'r mut Returns) -> Self
        requires { returns.old.identity ≡ heap.identity }
        ensures heap { result.heap ≡ heap }
        ensures room { result.room ≡ returns.old.room }
        ensures lent { result.lent ≡ 0 }
    {
        OwnerHeap {
            heap,
            returns: &*returns,
            lent: 0,
        }
    }

    /// Consumes the owner, and returns its heap.
    ///
    /// No payload may be lent.
    ///
    /// Never waits. The fields of the heap are moved, and no word of its memory is accessed.
    pub fn into_heap(self) -> Heap<FLBitmap, SLBitmap, FLLEN, SLLEN>
        requires { self.lent ≡ 0 }
        ensures { result ≡ self.entry.heap }
    {
        let OwnerHeap {
            heap,
            returns: _,
            lent: _,
        } = self;
        heap
    }

    /// Consumes the owner, and returns its heap, if no payload is lent. Otherwise returns the owner unchanged, as the error.
    ///
    /// Never waits. The fields of the heap are moved, and no word of its memory is accessed.
    pub fn try_into_heap(self) -> Result<Heap<FLBitmap, SLBitmap, FLLEN, SLLEN>, Self>
        ensures which { IsOk result ↔ (self.entry.lent ≡ 0) }
        ensures heap { IfOk result (λ h. h ≡ self.entry.heap) }
        ensures same { IfErr result (λ o. o ≡ self.entry) }
    {
        if self.lent == 0 {
            Ok(self.into_heap())
        } else {
            Err(self)
        }
    }

    /// Returns how many payloads are lent, with those that came back and weren't deallocated yet.
    ///
    /// Completes in constant time.
    pub fn lent(&self) -> usize
        ensures { result ≡ self.now.lent }
    {
        self.lent
    }

    // Deallocates one payload that came back, and returns 1. Returns 0 if none is lent, if none came back, or if another thread has the
    // lock.
    fn collect_one(&mut self) -> usize
        ensures collected { IsCollected FLLEN SLLEN self.old.heap self.new.heap result }
        ensures lent { self.old.lent ≡ self.new.lent + result }
        ensures few { result ≤ 1 }
        ensures room { self.new.room ≡ self.old.room }
    {
        if self.lent == 0 {
            return 0;
        }
        let Some(payload) = self.returns.take() else {
            return 0;
        };
        self.heap.deallocate_written(payload);
        self.lent -= 1;
        1
    }

    /// Deallocates at most `most` payloads that came back, the last one first. Returns how many: fewer if fewer came back, or if another
    /// thread has the lock of the `Returns`.
    ///
    /// Takes at most 32 word accesses for each.
    ///
    /// From `crates/rlsf_example_real_time/src/main.rt`:
    ///
    /// ```
    /// owner.collect(LENT);
    /// let all = first.wrapping_add(second) == played.sent && owner.lent() == 0;
    /// ```
    // In line, so that an owner that has lent none calls nothing.
    #[inline(always)]
    pub fn collect(&mut self, most: usize) -> usize
        ensures collected { IsCollected FLLEN SLLEN self.old.heap self.new.heap result }
        ensures lent { self.old.lent ≡ self.new.lent + result }
        ensures few { result ≤ most }
        ensures room { self.new.room ≡ self.old.room }
    {
        if self.lent == 0 {
            return 0;
        }
        self.collect_lent(most)
    }

    // Deallocates at most `most` payloads that came back, as `collect` does.
    #[inline(never)]
    fn collect_lent(&mut self, most: usize) -> usize
        ensures collected { IsCollected FLLEN SLLEN self.old.heap self.new.heap result }
        ensures lent { self.old.lent ≡ self.new.lent + result }
        ensures few { result ≤ most }
        ensures room { self.new.room ≡ self.old.room }
    {
        let mut count = 0;
        while count < most {
            let one = self.collect_one();
            count += one;
            if one == 0 {
                break;
            }
        }
        count
    }

    /// Deallocates at most two payloads that came back, and then allocates one for `layout`, as `Heap::allocate` does. If no byte of the
    /// memory is raw, none of the payload's is (`written`).
    ///
    /// Returns `None` if and only if the heap does after the deallocations (`step`). If none is lent, it makes just the step of
    /// `Heap::allocate` (`alone`). Within bounds that the heap is sized for, lent payloads included, it is never refused (`room`).
    ///
    /// Completes in constant time: at most 91 word accesses, whatever the pools contain.
    // In line, so that no payload is passed in memory.
    #[inline(always)]
    pub fn allocate(&mut self, layout: Layout) -> Option<Payload>
        ensures step { Serves FLLEN SLLEN self.old self.new layout.size layout.align (addr_of result) }
        ensures alone { self.old.lent ≡ 0 → Steps FLLEN SLLEN self.new.heap (Allocates SLLEN self.old.heap.state layout.size layout.align (addr_of result)) }
        ensures result { IfSome result (λ p. IsServed self.old.heap self.new.heap layout.size layout.align p) }
        ensures room { WithinBounds SLLEN self.old.heap.state layout.size layout.align (IsSome result) }
        ensures bounds { KeepsBounds SLLEN self.old.heap.state self.new.heap.state layout.size layout.align }
        ensures frame { KeepsOwner self.old self.new }
        ensures touches { self.new.heap.memory.touches ≤ self.old.heap.memory.touches + 91 }
    {
        self.collect(COLLECTED);
        self.heap.allocate(layout)
    }

    /// Deallocates a payload that isn't lent, as `Heap::deallocate_written` does.
    ///
    /// The payload must be one of this heap, and none of its bytes may be raw.
    ///
    /// Completes in constant time: at most 32 word accesses.
    #[inline(always)]
    pub fn deallocate(&mut self, payload: Payload)
        requires identity { payload.identity ≡ self.old.heap.identity }
        requires written { IsWritten payload }
        ensures step { Steps FLLEN SLLEN self.new.heap (Deallocates self.old.heap.state payload.start) }
        ensures result { IsDeallocated self.old.heap self.new.heap payload.start payload }
        ensures bounds { KeepsAllBounds SLLEN self.old.heap.state self.new.heap.state }
        ensures frame { KeepsFrame self.old.heap self.new.heap }
        ensures owner { LeavesLent self.old self.new 32 }
    {
        self.heap.deallocate_written(payload);
    }

    /// Changes the size of a payload that isn't lent to `size` bytes, as `Heap::reallocate` does, with the same clauses. Deallocates none
    /// that came back.
    ///
    /// The payload must be one of this heap, and none of its bytes may be raw.
    ///
    /// Takes at most 66 word accesses. If the payload moves, each of its bytes is copied at most once.
    pub fn reallocate(&mut self, payload: Payload, size: usize) -> Result<Payload, Payload>
        requires identity { payload.identity ≡ self.old.heap.identity }
        requires written { IsWritten payload }
        ensures step { Steps FLLEN SLLEN self.new.heap (λ t. IsLayout size payload.align
            → Reallocates SLLEN (filled self.old.heap.state payload.start payload.bytes) payload.start size (moved_to result) t) }
        ensures result { IfOk result (λ p. IsResizedOrMoved self.old.heap self.new.heap payload.start size payload.align payload p) }
        ensures room { WithinBounds SLLEN self.old.heap.state size payload.align (IsLayout size payload.align → IsOk result) }
        ensures bounds { KeepsSized SLLEN self.old.heap.state self.new.heap.state size payload.align }
        ensures refused { IfErr result (λ p. IsRefused self.old.heap self.new.heap payload.start payload.align payload p) }
        ensures frame { KeepsFrameMoving self.old.heap self.new.heap payload.start size payload }
        ensures owner { LeavesLent self.old self.new 66 }
    {
        self.heap.reallocate(payload, size)
    }

    /// Lends a payload: any thread may have it, and returns it by `free`. Returns it as the error if and only if as many are lent as can
    /// be at once.
    ///
    /// The payload must be one of this heap, and none of its bytes may be raw.
    ///
    /// Completes in constant time, without a word access.
    pub fn lend(&mut self, payload: Payload) -> Result<SharedPayload<'r, Returns>, Payload>
        requires identity { payload.identity ≡ self.old.heap.identity }
        requires written { IsWritten payload }
        ensures which { IsOk result ↔ (self.old.lent < self.old.room) }
        ensures lent { IfOk result (λ p. (p ≡ payload) × (self.new.lent ≡ self.old.lent + 1)) }
        ensures refused { IfErr result (λ p. (p ≡ payload) × (self.new.lent ≡ self.old.lent)) }
        ensures heap { self.new.heap ≡ self.old.heap }
        ensures room { self.new.room ≡ self.old.room }
    {
        if self.lent >= self.returns.room() {
            return Err(payload);
        }
        self.lent += 1;
        Ok(SharedPayload::new(self.returns, payload))
    }

    /// Deallocates at most two payloads that came back, and then allocates one of zeros, as `Heap::allocate_zeroed` does, and lends it.
    ///
    /// Returns `None` if and only if, after the deallocations, as many are lent as can be at once, or the heap returns `None` (`step`).
    /// Within bounds that the heap is sized for, lent payloads included, only the first can be (`room`).
    ///
    /// Takes at most 91 word accesses, and writes each byte of the payload once.
    ///
    /// From `crates/rlsf_example_real_time/src/main.rt`:
    ///
    /// ```
    /// let Some(mut block) = owner.allocate_lent(Layout::from_size_align_unchecked(512, 64)) else {
    ///     return false;
    /// };
    /// block.fill(sample);
    /// ```
    pub fn allocate_lent(&mut self, layout: Layout) -> Option<SharedPayload<'r, Returns>>
        ensures step { ServesLent FLLEN SLLEN self.old self.new layout.size layout.align (addr_of result) }
        ensures result { IfSome result (λ p. IsServed self.old.heap self.new.heap layout.size layout.align p) }
        ensures zeros { IfSome result (λ p. p.bytes ≡ replicate (length p.bytes) 0) }
        ensures room { WithinBounds SLLEN self.old.heap.state layout.size layout.align (self.old.lent < self.old.room → IsSome result) }
        ensures bounds { KeepsBounds SLLEN self.old.heap.state self.new.heap.state layout.size layout.align }
        ensures frame { KeepsOwner self.old self.new }
        ensures touches { self.new.heap.memory.touches ≤ self.old.heap.memory.touches + 91 }
    {
        self.collect(COLLECTED);
        self.lend_new(layout)
    }

    // Allocates a payload of zeros and lends it, if one more can be lent and the heap has room.
    fn lend_new(&mut self, layout: Layout) -> Option<SharedPayload<'r, Returns>>
        ensures new { LendsNew FLLEN SLLEN self.old self.new layout.size layout.align (addr_of result) }
        ensures result { IfSome result (λ p. IsAllocatedZeroed self.old.heap self.new.heap layout.size layout.align p) }
        ensures room { WithinBounds SLLEN self.old.heap.state layout.size layout.align (self.old.lent < self.old.room → IsSome result) }
        ensures bounds { KeepsBounds SLLEN self.old.heap.state self.new.heap.state layout.size layout.align }
        ensures frame { KeepsOwner self.old self.new }
        ensures touches { self.new.heap.memory.touches ≤ self.old.heap.memory.touches + 27 }
    {
        if self.returns.room() <= self.lent {
            return None;
        }
        let payload = self.heap.allocate_zeroed(layout)?;
        self.lent += 1;
        Some(SharedPayload::new(self.returns, payload))
    }

    /// Deallocates a payload that was lent and that this thread has, without its list, as `deallocate` does.
    ///
    /// The payload must be one of this heap.
    ///
    /// Completes in constant time: at most 32 word accesses.
    ///
    /// From `crates/rlsf_example_real_time/src/main.rt`:
    ///
    /// ```
    /// Err(Some(block)) => {
    ///     owner.take_back(block);
    ///     false
    /// }
    /// ```
    pub fn take_back(&mut self, payload: SharedPayload<'r, Returns>)
        requires { payload.identity ≡ self.old.heap.identity }
        ensures step { Steps FLLEN SLLEN self.new.heap (Deallocates self.old.heap.state payload.entry.start) }
        ensures result { IsDeallocated self.old.heap self.new.heap payload.entry.start payload.entry }
        ensures bounds { KeepsAllBounds SLLEN self.old.heap.state self.new.heap.state }
        ensures frame { KeepsFrame self.old.heap self.new.heap }
        ensures lent { self.new.lent ≡ self.old.lent - 1 }
        ensures room { self.new.room ≡ self.old.room }
        ensures touches { self.new.heap.memory.touches ≤ self.old.heap.memory.touches + 32 }
    {
        self.deallocate(payload.into_payload());
        self.lent = self.lent.saturating_sub(1);
    }
}
