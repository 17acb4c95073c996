//! Reallocations: a payload gets another size.
ghost use Rattle.std.specs.Prelude.{◌≡◌, ◌≤◌, ◌+◌, IfErr, IfOk, IsOk};
ghost use Rattle.rlsf_base.specs.Layout.{IsLayout};
ghost use Rattle.rlsf_model.specs.NoMove.{ReallocatesWithoutMove};
ghost use Rattle.rlsf_model.specs.Reallocate.{Reallocates};
ghost use Rattle.rlsf_model.specs.State.{filled};
ghost use Rattle.rlsf_heap.specs.Heap.{IsWritten, moved_to};
ghost use Rattle.rlsf_heap.specs.Replies.{IsRefused, IsResizedInPlace, IsResizedOrMoved, WithinBounds};
ghost use Rattle.rlsf_heap.specs.Frame.{KeepsFrame, KeepsFrameMoving, KeepsSized};

use crate::heap::Heap;
use crate::payload::Payload;
use rlsf_base::memory::{Layout, Range};
use rlsf_base::rounding::next_multiple_of_32;
use rlsf_int::BitPattern;
use rlsf_tlsf::core_calls::reallocate_in;

impl<FLBitmap: BitPattern, SLBitmap: BitPattern, const FLLEN: usize, const SLLEN: usize> Heap<
    FLBitmap,
    SLBitmap,
    FLLEN,
    SLLEN,
> {
    ghost use Rattle.rlsf_heap.specs.Heap.{Steps};

    /// Changes the size of a payload to `size` bytes, and returns it with its alignment. The first bytes are kept, as many
    /// as both sizes have, and none of these is raw. The payload takes the first of these places that is large enough:
    /// - It stays at its address, with the bytes of its block and of a free block behind it.
    /// - It moves into the free block before it, joined with those bytes.
    /// - It moves into a newly allocated block, and the old block is deallocated.
    ///
    /// The bytes behind the kept ones are as the memory has them, and may be raw. If no byte of the memory is raw, none of them is. No
    /// byte of the memory becomes raw (`raw`).
    ///
    /// Returns the payload as the error, with its address, alignment and bytes, if and only if no layout has this size and
    /// alignment, or this allocation is refused; then no byte of the memory beside the payload changes (`unchanged`). Within bounds
    /// that the heap is sized for (`IsSizedFor`), a reallocation is never refused.
    ///
    /// The payload must be one of this heap, and none of its bytes may be raw.
    ///
    /// Takes at most 66 word accesses, whatever the pools contain. If the payload moves, each of its bytes is copied at most once.
    ///
    /// From `crates/rlsf_example_tenants/src/pair.rt`:
    ///
    /// ```
    /// match heap.reallocate(payload, size) {
    ///     Ok(longer) => longer,
    ///     Err(same) => same,
    /// }
    /// ```
    #[tactic(auto, using(crate::proofs::OnCores::of_memory, crate::proofs::OnCores::of_ledger))]
    pub fn reallocate(&mut self, payload: Payload, size: usize) -> Result<Payload, Payload>
        requires identity { payload.identity ≡ self.old.identity }
        requires written { IsWritten payload }
        ensures step { Steps FLLEN SLLEN self.new (λ t. IsLayout size payload.align → Reallocates SLLEN (filled self.old.state payload.start payload.bytes) payload.start size (moved_to result) t) }
        ensures result { IfOk result (λ p. IsResizedOrMoved self.old self.new payload.start size payload.align payload p) }
        ensures room { WithinBounds SLLEN self.old.state size payload.align (IsLayout size payload.align → IsOk result) }
        ensures bounds { KeepsSized SLLEN self.old.state self.new.state size payload.align }
        ensures refused { IfErr result (λ p. IsRefused self.old self.new payload.start payload.align payload p) }
        ensures frame { KeepsFrameMoving self.old self.new payload.start size payload }
        ensures touches { self.new.memory.touches ≤ self.old.memory.touches + 66 }
    {
        // Opens the heap's invariant for the prover, also for the case that no layout has the size.
        let _ = self.memory.view();
        let align = payload.align();
        let Ok(layout) = Layout::from_size_align(size, align) else {
            return Err(payload);
        };
        let addr = payload.addr();
        let len = payload.len();
        payload.take_back(&mut self.memory, &mut self.ledger);
        let moved = reallocate_in::<FLLEN, SLLEN, 0>(
            &mut self.memory,
            &mut self.table,
            &mut self.state,
            addr,
            layout,
        );
        let Some(to) = moved else {
            let range = Range { start: addr, len };
            let payload = Payload::hand_over(&mut self.memory, &mut self.ledger, range, align);
            return Err(payload);
        };
        // Its block is no longer than it has to be: it ends at the first multiple of 32 behind the size. So no word is read.
        let end = next_multiple_of_32(to + size);
        let range = Range {
            start: to,
            len: end - to,
        };
        let payload = Payload::hand_over(&mut self.memory, &mut self.ledger, range, align);
        Ok(payload)
    }

    /// Changes the size of a payload to `size` bytes without moving it, and returns it with its alignment. It uses the bytes
    /// of the payload's block and of a free block behind it. The first bytes are kept, as many as both sizes have, and none
    /// of these is raw. No byte is copied.
    ///
    /// The bytes behind the kept ones are as the memory has them, and may be raw. If no byte of the memory is raw, none of them is. No
    /// byte of the memory becomes raw (`raw`).
    ///
    /// Returns the payload as the error, with its address, alignment and bytes, if and only if no layout has this size and
    /// alignment, or these bytes don't suffice; then no byte of the memory beside the payload changes (`unchanged`).
    ///
    /// The payload must be one of this heap, and none of its bytes may be raw.
    ///
    /// Completes in constant time: at most 25 word accesses, whatever the pools contain.
    ///
    /// From `crates/rlsf_test_heap/src/resized_rows.rt`:
    ///
    /// ```
    /// match heap.reallocate_no_move(payload, size) {
    ///     Ok(payload) => {
    ///         let addr = payload.addr();
    ///         (Some(payload), addr)
    ///     }
    ///     Err(payload) => (Some(payload), 0),
    /// }
    /// ```
    pub fn reallocate_no_move(&mut self, payload: Payload, size: usize) -> Result<Payload, Payload>
        requires identity { payload.identity ≡ self.old.identity }
        requires written { IsWritten payload }
        ensures step { Steps FLLEN SLLEN self.new (λ t. IsLayout size payload.align
            → ReallocatesWithoutMove (filled self.old.state payload.start payload.bytes) payload.start size (moved_to result) t) }
        ensures result { IfOk result (λ p. IsResizedInPlace self.old self.new payload.start size payload.align payload p) }
        ensures bounds { KeepsSized SLLEN self.old.state self.new.state size payload.align }
        ensures refused { IfErr result (λ p. IsRefused self.old self.new payload.start payload.align payload p) }
        ensures frame { KeepsFrame self.old self.new }
        ensures touches { self.new.memory.touches ≤ self.old.memory.touches + 25 }
    {
        let align = payload.align();
        let Ok(layout) = Layout::from_size_align(size, align) else {
            // Opens the heap's invariant for the prover.
            let _ = &self.memory;
            return Err(payload);
        };
        let (part, ticket) = payload.into_parts();
        let (done, part, ticket) = self.resize_part(part, ticket, Some(align), layout);
        let payload = Payload {
            part,
            align,
            ticket,
        };
        if !done {
            return Err(payload);
        }
        Ok(payload)
    }
}
