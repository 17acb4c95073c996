//! Reallocation of payloads that are known by their address alone.
ghost use Rattle.std.specs.Prelude.{◌≡◌, ◌≢◌, ◌≤◌, ◌+◌, None, length, IfErr, IfOk, IsOk};
ghost use Rattle.rlsf_base.specs.Layout.{IsLayout};
ghost use Rattle.rlsf_model.specs.NoMove.{ReallocatesWithoutMove};
ghost use Rattle.rlsf_model.specs.Reallocate.{Keeps, Reallocates};
ghost use Rattle.rlsf_model.specs.State.{filled};
ghost use Rattle.rlsf_heap.specs.Heap.{IsWritten};
ghost use Rattle.rlsf_heap.specs.Replies.{IsRefused, IsResizedInPlace, IsResizedOrMoved, WithinBounds};
ghost use Rattle.rlsf_heap.specs.Settled.{IsSettled};
ghost use Rattle.rlsf_heap.specs.ThinReplies.{IsLeft, IsThinMoved, IsThin, MovesElsewhere, thin_moved_to};
ghost use Rattle.rlsf_heap.specs.Frame.{KeepsFrame, KeepsFrameMoving, KeepsSized};

use crate::heap::Heap;
use crate::payload::Payload;
use crate::thin::ThinPayload;
use rlsf_base::memory::Layout;
use rlsf_int::BitPattern;
use std::cmp::min;

impl<FLBitmap: BitPattern, SLBitmap: BitPattern, const FLLEN: usize, const SLLEN: usize> Heap<
    FLBitmap,
    SLBitmap,
    FLLEN,
    SLLEN,
> {
    ghost use Rattle.rlsf_heap.specs.Heap.{Steps};

    // Finds the length of a payload in the memory, and returns the payload with its length and its alignment.
    fn find_payload(&mut self, addr: usize, payload: ThinPayload, align: usize) -> Payload
        requires some { (payload.of.start ≡ addr) × (addr ≢ 0) }
        requires heap { payload.of.identity ≡ self.old.identity }
        requires align { payload.of.align ≡ align }
        ensures payload { result ≡ payload.of }
        ensures heap { self.new ≡ record self.old { memory = record self.old.memory { touches = self.old.memory.touches + 3 } } }
    {
        let (part, ticket) = self.find_part(addr, payload);
        Payload {
            part,
            align,
            ticket,
        }
    }

    /// Changes the size of a payload that is known by its address and its alignment, as `reallocate` does, and returns it by its
    /// address. Its length is found in the memory. The first bytes are kept, as many as both sizes have, and none is raw.
    ///
    /// Returns the payload as it was, as the error, if and only if `reallocate` does.
    ///
    /// The payload must be the one at `addr`, which isn't 0, with the alignment `align`, and one of this heap, and none of its bytes
    /// may be raw.
    ///
    /// Takes at most 69 word accesses, whatever the pools contain. If the payload moves, each of its bytes is copied at most once.
    pub fn reallocate_thin(
        &mut self,
        addr: usize,
        payload: ThinPayload,
        size: usize,
        align: usize,
    ) -> Result<ThinPayload, ThinPayload>
        requires some { (payload.of.start ≡ addr) × (addr ≢ 0) × (payload.of.align ≡ align) }
        requires heap { payload.of.identity ≡ self.old.identity }
        requires written { IsWritten payload.of }
        ensures step { Steps FLLEN SLLEN self.new (λ t. IsLayout size align → Reallocates SLLEN (filled self.old.state payload.of.start payload.of.bytes) addr size (thin_moved_to result) t) }
        ensures result { IfOk result (λ p. IsThin (λ of. IsResizedOrMoved self.old self.new addr size align payload.of of) p) }
        ensures room { WithinBounds SLLEN self.old.state size align (IsLayout size align → IsOk result) }
        ensures bounds { KeepsSized SLLEN self.old.state self.new.state size align }
        ensures refused { IfErr result (λ p. IsThin (λ of. IsRefused self.old self.new addr align payload.of of) p) }
        ensures frame { KeepsFrameMoving self.old self.new addr size payload.of }
        ensures touches { self.new.memory.touches ≤ self.old.memory.touches + 69 }
    {
        let payload = self.find_payload(addr, payload, align);
        match self.reallocate(payload, size) {
            Ok(payload) => Ok(payload.into_thin()),
            Err(payload) => Err(payload.into_thin()),
        }
    }

    /// Changes the size of a payload that is known by its address and its alignment without moving it, as `reallocate_no_move` does,
    /// and returns it by its address. Its length is found in the memory. The first bytes are kept, as many as both sizes have, and
    /// none of these is raw.
    ///
    /// Returns the payload as it was, as the error, if and only if `reallocate_no_move` does.
    ///
    /// The payload must be the one at `addr`, which isn't 0, with the alignment `align`, and one of this heap, and none of its bytes
    /// may be raw.
    ///
    /// Completes in constant time: at most 28 word accesses, whatever the pools contain.
    pub fn reallocate_thin_no_move(
        &mut self,
        addr: usize,
        payload: ThinPayload,
        size: usize,
        align: usize,
    ) -> Result<ThinPayload, ThinPayload>
        requires some { (payload.of.start ≡ addr) × (addr ≢ 0) × (payload.of.align ≡ align) }
        requires heap { payload.of.identity ≡ self.old.identity }
        requires written { IsWritten payload.of }
        ensures step { Steps FLLEN SLLEN self.new (λ t. IsLayout size align → ReallocatesWithoutMove (filled self.old.state payload.of.start payload.of.bytes) addr size (thin_moved_to result) t) }
        ensures result { IfOk result (λ p. IsThin (λ of. IsResizedInPlace self.old self.new addr size align payload.of of) p) }
        ensures bounds { KeepsSized SLLEN self.old.state self.new.state size align }
        ensures refused { IfErr result (λ p. IsThin (λ of. IsRefused self.old self.new addr align payload.of of) p) }
        ensures frame { KeepsFrame self.old self.new }
        ensures touches { self.new.memory.touches ≤ self.old.memory.touches + 28 }
    {
        let payload = self.find_payload(addr, payload, align);
        match self.reallocate_no_move(payload, size) {
            Ok(payload) => Ok(payload.into_thin()),
            Err(payload) => Err(payload.into_thin()),
        }
    }

    /// Moves a payload that is known by its address, whatever its alignment is, into a newly allocated one for `layout`, and returns
    /// that by its address. As many bytes are copied as both have. They are the owner's, and no byte of the memory is copied. Then the
    /// old payload is deallocated.
    ///
    /// Returns the payload as it was, as the error, if and only if `allocate` returns `None`; then nothing changes.
    ///
    /// The payload must be the one at `addr`, which isn't 0, and one of this heap, and none of its bytes may be raw. No byte of the memory
    /// may be raw.
    ///
    /// Takes at most 63 word accesses, whatever the pools contain, and copies each kept byte once.
    pub fn move_thin(
        &mut self,
        addr: usize,
        payload: ThinPayload,
        layout: Layout,
    ) -> Result<ThinPayload, ThinPayload>
        requires some { (payload.of.start ≡ addr) × (addr ≢ 0) }
        requires heap { payload.of.identity ≡ self.old.identity }
        requires written { IsWritten payload.of }
        requires settled { IsSettled self.old.memory }
        ensures step { Steps FLLEN SLLEN self.new (MovesElsewhere SLLEN self.old.state addr layout.size layout.align (thin_moved_to result)) }
        ensures result { IfOk result (λ p. IsThin (λ of. IsThinMoved self.old self.new addr layout.size layout.align payload.of of) p) }
        ensures room { WithinBounds SLLEN self.old.state layout.size layout.align (IsOk result) }
        ensures bounds { KeepsSized SLLEN self.old.state self.new.state layout.size layout.align }
        ensures refused { IfErr result (λ p. IsThin (λ of. IsLeft self.old self.new payload.of of) p) }
        ensures frame { KeepsFrame self.old self.new }
        ensures touches { self.new.memory.touches ≤ self.old.memory.touches + 63 }
    {
        let (part, ticket) = self.find_part(addr, payload);
        let Some(mut to) = self.allocate(layout) else {
            return Err(ThinPayload::from_parts(addr, part, ticket));
        };
        copy_front(part.as_slice(), to.as_mut_slice());
        self.put_written(addr, part.into_thin_bytes(), ticket, None);
        Ok(to.into_thin())
    }
}

// Copies the first bytes of a slice over those of another, as many as both have.
fn copy_front(from: &[u8], to: &mut [u8])
    ensures { Keeps from.now to.new × (length to.new ≡ length to.old) }
{
    let len = min(from.len(), to.len());
    to[..len].copy_from_slice(&from[..len]);
}
