//! Payloads of complete units, which a pointer alone shows: what an allocator of collections needs of a heap.
ghost use Rattle.std.specs.Prelude.{◌≡◌, ◌≤◌, ◌<◌, ◌+◌, ◌-◌, ◌/◌, ◌%◌, ◌^◌, ◌↔◌, IsTrue, Some, None, length, min, IfErr, IfNone, IfSome, IsOk, IsSome, IfOk};
ghost use Rattle.rlsf_base.specs.Range.{range_at};
ghost use Rattle.rlsf_model.specs.Allocate.{Allocates};
ghost use Rattle.rlsf_model.specs.NoMove.{ReallocatesWithoutMove};
ghost use Rattle.rlsf_model.specs.Release.{Deallocates};
ghost use Rattle.rlsf_heap.specs.Units.{GivesUnits, IsCompleteOf, IsUnitAllocated, IsUnitRefused, IsUnitResized, identity_of, payload_len, stayed_at, unit_addr_of};
ghost use Rattle.rlsf_heap.specs.Frame.{KeepsAllBounds, KeepsBounds, KeepsFrame, KeepsFrameBeside, KeepsSized};
ghost use Rattle.rlsf_heap.specs.Replies.{IsGone, IsUnchanged, WithinBounds};

use crate::heap::Heap;
use crate::payload::Payload;
use rlsf_base::memory::{Layout, UnitPayload};
use rlsf_base::rounding::next_multiple_of_32;
use rlsf_int::BitPattern;
use rlsf_tlsf::core_calls::{deallocate_block_in, resize_block_in};

/// The length of a unit, and its alignment.
const UNIT: usize = 16;

/// Returns the length of the payload that `Heap::allocate_units` returns for `size` bytes: the least number that is at least `size`, and
/// 16 less than a multiple of 32.
///
/// `size` is less than `2^63`. Completes in constant time.
pub fn unit_payload_len(size: usize) -> usize
    requires { size < 2 ^ 63 }
    ensures { result ≡ payload_len size }
{
    next_multiple_of_32(size + 16) - 16
}

// Returns the lesser of two numbers.
fn lesser(x: usize, y: usize) -> usize
    ensures { result ≡ min x y }
{
    if x < y { x } else { y }
}

impl Payload {
    // Consumes the payload, and returns its units. Values that its bytes have are lost.
    #[inline(always)]
    fn into_unit_payload(self) -> UnitPayload
        requires units { (self.start % 16 ≡ 0) × (length self.bytes % 16 ≡ 0) × (self.identity.home.view.shift % 16 ≡ 0) × (self.align ≡ 16) }
        ensures { IsCompleteOf result self.identity × (result.start ≡ self.start) × (result.len ≡ length self.bytes) }
    {
        let (part, ticket) = self.into_parts();
        part.into_unit_payload(ticket)
    }
}

impl<FLBitmap: BitPattern, SLBitmap: BitPattern, const FLLEN: usize, const SLLEN: usize> Heap<
    FLBitmap,
    SLBitmap,
    FLLEN,
    SLLEN,
> {
    ghost use Rattle.rlsf_heap.specs.Heap.{Steps};

    /// Returns whether the memory has units of 16 bytes: whether its block is the system's, or begins at a multiple of 16.
    ///
    /// Completes in constant time.
    pub fn has_units(&self) -> bool
        ensures { IsTrue result ↔ GivesUnits self.now.identity }
    {
        self.memory.has_units()
    }

    /// Allocates a payload of complete units for `size` bytes, as `allocate` does for the alignment 16. A pointer and the length
    /// alone show it.
    ///
    /// Returns `None` if and only if `allocate` does; then nothing changes. No byte of the memory becomes raw (`raw`). The memory must
    /// have units.
    ///
    /// Completes in constant time: at most 27 word accesses, whatever the pools contain.
    #[inline(always)]
    pub fn allocate_units(&mut self, size: usize) -> Option<UnitPayload>
        requires size { size ≤ 2 ^ 63 - 16 }
        requires units { GivesUnits self.old.identity }
        ensures step { Steps FLLEN SLLEN self.new (Allocates SLLEN self.old.state size 16 (unit_addr_of result)) }
        ensures result { IfSome result (λ p. IsUnitAllocated self.old self.new size p) }
        ensures room { WithinBounds SLLEN self.old.state size 16 (IsSome result) }
        ensures bounds { KeepsBounds SLLEN self.old.state self.new.state size 16 }
        ensures refused { IfNone result (IsUnchanged self.old self.new) }
        ensures frame { KeepsFrame self.old self.new }
        ensures touches { self.new.memory.touches ≤ self.old.memory.touches + 27 }
    {
        let layout = Layout::from_size_align_unchecked(size, 16);
        let payload = self.allocate(layout)?;
        Some(payload.into_unit_payload())
    }

    /// Deallocates a payload of units, as `deallocate` does. No byte but the payload's becomes raw (`raw`).
    ///
    /// The payload must be one of this heap, and complete: none of its bytes stay with their owner.
    ///
    /// Completes in constant time: at most 32 word accesses, whatever the pools contain.
    #[inline(always)]
    #[tactic(auto, using(crate::proofs::OnCores::of_memory, crate::proofs::OnCores::of_ledger))]
    pub fn deallocate_units(&mut self, payload: UnitPayload)
        requires { IsCompleteOf payload self.old.identity }
        ensures step { Steps FLLEN SLLEN self.new (Deallocates self.old.state payload.start) }
        ensures result { IsGone self.old.state self.new.state payload.start }
        ensures bounds { KeepsAllBounds SLLEN self.old.state self.new.state }
        ensures frame { KeepsFrameBeside self.old self.new (range_at payload.start payload.len) }
        ensures touches { self.new.memory.touches ≤ self.old.memory.touches + 32 }
    {
        // The word at 8 bytes past the payload's end names its block.
        let block = self
            .memory
            .put_unit_payload(&mut self.ledger, payload, 0, 8) as usize;
        deallocate_block_in(
            &mut self.memory,
            &mut self.table,
            &mut self.state,
            block,
            block + 16,
        );
        self.live -= 1;
    }

    /// Gives a payload of units the size of `size` bytes without moving it. It uses the bytes of the payload's block and of a free
    /// block behind it. Its first bytes, as many as both lengths have, stay with their owner: no byte of them is read, written or copied.
    ///
    /// Returns the payload with the length for `size` bytes, and the units behind the kept ones. Returns it as it was, as the error,
    /// if and only if these bytes don't suffice; then no byte of the memory beside the payload changes (`unchanged`). A payload
    /// can always become shorter. No byte but the payload's becomes raw (`raw`).
    ///
    /// The payload must be one of this heap, `len` its length, and all of its bytes but those that stay must be in it.
    ///
    /// Completes in constant time: at most 25 word accesses, whatever the pools contain.
    #[tactic(auto, using(crate::proofs::OnCores::of_memory, crate::proofs::OnCores::of_ledger))]
    pub fn resize_units(
        &mut self,
        payload: UnitPayload,
        len: usize,
        size: usize,
    ) -> Result<UnitPayload, UnitPayload>
        requires heap { identity_of payload ≡ self.old.identity }
        requires len { len ≡ payload.len }
        requires size { size ≤ 2 ^ 63 - 16 }
        requires kept { payload.kept ≡ min payload.len (payload_len size) }
        ensures step { Steps FLLEN SLLEN self.new (ReallocatesWithoutMove self.old.state payload.start size (stayed_at result)) }
        ensures result { IfOk result (λ p. IsUnitResized self.old self.new payload size p) }
        ensures room { payload_len size ≤ payload.len → IsOk result }
        ensures bounds { KeepsSized SLLEN self.old.state self.new.state size 16 }
        ensures refused { IfErr result (λ p. IsUnitRefused self.old self.new payload p) }
        ensures frame { KeepsFrameBeside self.old self.new (range_at payload.start payload.len) }
        ensures touches { self.new.memory.touches ≤ self.old.memory.touches + 25 }
    {
        let wanted = unit_payload_len(size);
        let kept = lesser(len, wanted);
        // The word at 8 bytes past the payload's end names its block.
        let block = self
            .memory
            .put_unit_payload(&mut self.ledger, payload, kept, 8) as usize;
        let start = block + 16;
        let sought = Layout::from_size_align_unchecked(size, UNIT);
        if !resize_block_in(
            &mut self.memory,
            &mut self.table,
            &mut self.state,
            block,
            start,
            sought,
        ) {
            let ticket = self.ledger.issue(start, len, UNIT);
            return Err(self.memory.take_unit_payload(ticket, start, len, kept));
        }
        let ticket = self.ledger.issue(start, wanted, UNIT);
        Ok(self.memory.take_unit_payload(ticket, start, wanted, kept))
    }
}
