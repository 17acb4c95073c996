//! Reallocation of payloads that are known by their address alone, whatever their alignment is.
ghost use Rattle.std.specs.Prelude.{◌≡◌, ◌≢◌, ◌≤◌, ◌+◌, None, length, IfErr, IfOk, IsOk};
ghost use Rattle.rlsf_model.specs.NoMove.{ReallocatesWithoutMove};
ghost use Rattle.rlsf_model.specs.State.{filled};
ghost use Rattle.rlsf_heap.specs.Heap.{IsWritten};
ghost use Rattle.rlsf_heap.specs.Settled.{IsSettled};
ghost use Rattle.rlsf_heap.specs.ThinReplies.{IsThin, thin_moved_to};
ghost use Rattle.rlsf_heap.specs.ThinUnknownAlign.{IfBytesSuffice, HasRoomAny, IsRefusedAny, IsRefusedThere, IsResizedAny, IsResizedThere, KeepsSizedAny, StaysOrMoves};
ghost use Rattle.rlsf_heap.specs.Frame.{KeepsFrame, KeepsSized};

use crate::heap::Heap;
use crate::thin::ThinPayload;
use rlsf_base::memory::Layout;
use rlsf_int::BitPattern;

impl<FLBitmap: BitPattern, SLBitmap: BitPattern, const FLLEN: usize, const SLLEN: usize> Heap<
    FLBitmap,
    SLBitmap,
    FLLEN,
    SLLEN,
> {
    ghost use Rattle.rlsf_heap.specs.Heap.{Steps};

    /// Changes the size of a payload that is known by its address without moving it, as `reallocate_thin_no_move` does, whatever its
    /// alignment is. Returns it by its address, with its alignment. Of `layout` only the size counts. The first bytes are kept, as many
    /// as both sizes have, and none of these is raw.
    ///
    /// Returns the payload as it was, as the error, if and only if the bytes of its block and of a free block behind it don't suffice;
    /// then no byte of the memory beside the payload changes (`unchanged`). No byte of the memory becomes raw (`raw`).
    ///
    /// The payload must be the one at `addr`, which isn't 0, and one of this heap, and none of its bytes may be raw.
    ///
    /// Completes in constant time: at most 29 word accesses, whatever the pools contain.
    pub fn resize_thin_unknown_align(
        &mut self,
        addr: usize,
        payload: ThinPayload,
        layout: Layout,
    ) -> Result<ThinPayload, ThinPayload>
        requires some { (payload.of.start ≡ addr) × (addr ≢ 0) }
        requires heap { payload.of.identity ≡ self.old.identity }
        requires written { IsWritten payload.of }
        ensures step { Steps FLLEN SLLEN self.new (ReallocatesWithoutMove (filled self.old.state payload.of.start payload.of.bytes) addr layout.size (thin_moved_to result)) }
        ensures result { IfOk result (λ p. IsThin (λ of. IsResizedThere self.old self.new addr layout.size payload.of of) p) }
        ensures room { IfBytesSuffice self.old.state addr layout.size (length payload.of.bytes) (IsOk result) }
        ensures bounds { KeepsSized SLLEN self.old.state self.new.state layout.size payload.of.align }
        ensures refused { IfErr result (λ p. IsThin (λ of. IsRefusedThere self.old self.new SLLEN addr payload.of of) p) }
        ensures frame { KeepsFrame self.old self.new }
        ensures touches { self.new.memory.touches ≤ self.old.memory.touches + 29 }
    {
        let (part, ticket) = self.find_part(addr, payload);
        let (done, part, ticket) = self.resize_part(part, ticket, None, layout);
        let payload = ThinPayload::from_parts(addr, part, ticket);
        if !done {
            return Err(payload);
        }
        Ok(payload)
    }

    /// Changes the size of a payload that is known by its address to that of `layout`, whatever its alignment is, and returns it by its
    /// address. The first bytes are kept, as many as both sizes have. The payload takes the first of these places that is large enough:
    /// - It stays at its address, with the bytes of its block and of a free block behind it. It keeps its alignment.
    /// - It moves into a newly allocated payload for `layout`, as `move_thin` does, and the old one is deallocated. The copied bytes are
    ///   the owner's, and no byte of the memory is copied.
    ///
    /// It doesn't move into the free block before it, since its place there would depend on its alignment.
    ///
    /// Returns the payload as it was, as the error, if and only if this allocation is refused; then no byte of the memory beside the payload
    /// changes (`unchanged`). Within bounds that the heap is sized for (`IsSizedFor`), a reallocation is never refused.
    ///
    /// The payload must be the one at `addr`, which isn't 0, and one of this heap, and none of its bytes may be raw. No byte of the memory
    /// may be raw.
    ///
    /// Takes at most 70 word accesses, whatever the pools contain. If the payload moves, each kept byte is copied once.
    pub fn reallocate_thin_unknown_align(
        &mut self,
        addr: usize,
        payload: ThinPayload,
        layout: Layout,
    ) -> Result<ThinPayload, ThinPayload>
        requires some { (payload.of.start ≡ addr) × (addr ≢ 0) }
        requires heap { payload.of.identity ≡ self.old.identity }
        requires written { IsWritten payload.of }
        requires settled { IsSettled self.old.memory }
        ensures step { Steps FLLEN SLLEN self.new (StaysOrMoves SLLEN (filled self.old.state payload.of.start payload.of.bytes) addr layout.size layout.align (thin_moved_to result)) }
        ensures result { IfOk result (λ p. IsThin (λ of. IsResizedAny self.old self.new addr layout.size layout.align payload.of of) p) }
        ensures room { HasRoomAny SLLEN self.old.state addr layout.size layout.align (length payload.of.bytes) result }
        ensures bounds { KeepsSizedAny SLLEN self.old.state self.new.state layout.size payload.of.align layout.align }
        ensures refused { IfErr result (λ p. IsThin (λ of. IsRefusedAny self.old self.new addr payload.of of) p) }
        ensures frame { KeepsFrame self.old self.new }
        ensures touches { self.new.memory.touches ≤ self.old.memory.touches + 70 }
    {
        match self.resize_thin_unknown_align(addr, payload, layout) {
            Ok(payload) => Ok(payload),
            Err(payload) => self.move_thin(addr, payload, layout),
        }
    }
}
