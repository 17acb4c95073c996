//! Allocation and deallocation of payloads that are known by their address alone.
ghost use Rattle.std.specs.Prelude.{◌≡◌, ◌≢◌, ◌≤◌, ◌+◌, None, Some, length};
ghost use Rattle.rlsf_base.specs.Ledger.{extent};
ghost use Rattle.rlsf_model.specs.Allocate.{Allocates};
ghost use Rattle.rlsf_model.specs.Callers.{align_at, bytes_at};
ghost use Rattle.rlsf_model.specs.Release.{Deallocates};
ghost use Rattle.rlsf_heap.specs.Heap.{IsTicketOf, IsWritten, payload_range, payload_view};
ghost use Rattle.rlsf_heap.specs.Replies.{IsAllocated, IsAllocatedZeroed, IsDeallocated, IsUnchanged, WithinBounds};
ghost use Rattle.rlsf_heap.specs.Thin.{reply_of};
ghost use Rattle.rlsf_heap.specs.Frame.{KeepsAllBounds, KeepsBounds, KeepsFrame, KeepsFrameBeside};
ghost use Rattle.rlsf_heap.specs.ThinReplies.{IsThinReply};

use crate::heap::Heap;
use crate::thin::ThinPayload;
use rlsf_base::memory::ledger::Ticket;
use rlsf_base::memory::{Layout, Part};
use rlsf_blocks::{load_usable_bytes, usable_bytes};
use rlsf_int::BitPattern;

impl<FLBitmap: BitPattern, SLBitmap: BitPattern, const FLLEN: usize, const SLLEN: usize> Heap<
    FLBitmap,
    SLBitmap,
    FLLEN,
    SLLEN,
> {
    ghost use Rattle.rlsf_heap.specs.Heap.{Steps};

    /// Allocates a payload for `layout`, as `allocate` does, and returns it by its address.
    ///
    /// Returns none, the address 0, if and only if `allocate` returns `None`; then nothing changes.
    ///
    /// Completes in constant time: at most 27 word accesses, whatever the pools contain.
    #[inline(always)]
    pub fn allocate_thin(&mut self, layout: Layout) -> ThinPayload
        ensures step { Steps FLLEN SLLEN self.new (Allocates SLLEN self.old.state layout.size layout.align (reply_of result.of.start)) }
        ensures result { IsThinReply (λ p. IsAllocated self.old self.new layout.size layout.align p) result }
        ensures room { WithinBounds SLLEN self.old.state layout.size layout.align (result.of.start ≢ 0) }
        ensures bounds { KeepsBounds SLLEN self.old.state self.new.state layout.size layout.align }
        ensures refused { result.of.start ≡ 0 → IsUnchanged self.old self.new }
        ensures frame { KeepsFrame self.old self.new }
        ensures touches { self.new.memory.touches ≤ self.old.memory.touches + 27 }
    {
        match self.allocate(layout) {
            Some(payload) => payload.into_thin(),
            None => ThinPayload::none(),
        }
    }

    /// Allocates a payload for `layout`, as `allocate_zeroed` does, and returns it by its address. All its bytes are 0.
    ///
    /// Returns none, the address 0, if and only if `allocate` returns `None`; then nothing changes.
    ///
    /// Takes at most 27 word accesses, whatever the pools contain, and fills each byte of the payload.
    #[inline(always)]
    pub fn allocate_thin_zeroed(&mut self, layout: Layout) -> ThinPayload
        ensures step { Steps FLLEN SLLEN self.new (Allocates SLLEN self.old.state layout.size layout.align (reply_of result.of.start)) }
        ensures result { IsThinReply (λ p. IsAllocatedZeroed self.old self.new layout.size layout.align p) result }
        ensures room { WithinBounds SLLEN self.old.state layout.size layout.align (result.of.start ≢ 0) }
        ensures bounds { KeepsBounds SLLEN self.old.state self.new.state layout.size layout.align }
        ensures refused { result.of.start ≡ 0 → IsUnchanged self.old self.new }
        ensures frame { KeepsFrame self.old self.new }
        ensures touches { self.new.memory.touches ≤ self.old.memory.touches + 27 }
    {
        match self.allocate_zeroed(layout) {
            Some(payload) => payload.into_thin(),
            None => ThinPayload::none(),
        }
    }

    /// Returns the number of usable bytes of a payload that is known by its address, and the payload unchanged. The length is found
    /// in the memory. Nothing changes.
    ///
    /// The payload must be the one at `addr`, which isn't 0, and one of this heap.
    ///
    /// Completes in constant time. Its word accesses are not counted.
    pub fn usable_thin(&mut self, addr: usize, payload: ThinPayload) -> (usize, ThinPayload)
        requires some { (payload.of.start ≡ addr) × (addr ≢ 0) }
        requires heap { payload.of.identity ≡ self.old.identity }
        ensures len { result.0 ≡ length payload.of.bytes }
        ensures payload { (result.1.addr ≡ payload.addr) × (result.1.of ≡ payload.of) }
        ensures live { align_at self.old.state addr ≡ Some payload.of.align }
        ensures long { length payload.of.bytes ≡ length (bytes_at self.old.state addr) }
        ensures same { self.new ≡ self.old }
    {
        let payload = payload.checked(&mut self.ledger);
        let range = usable_bytes(&self.memory, addr);
        (range.len, payload)
    }

    // Finds the length of a payload in the memory, and returns the payload's bytes and its ticket.
    #[inline(always)]
    pub(crate) fn find_part(&mut self, addr: usize, payload: ThinPayload) -> (Part, Ticket)
        requires some { (payload.of.start ≡ addr) × (addr ≢ 0) }
        requires heap { payload.of.identity ≡ self.old.identity }
        ensures parts { payload_view result.0 payload.of.align result.1.name ≡ payload.of }
        ensures ticket { IsTicketOf result.0 payload.of.align (extent result.1.addr result.1.len result.1.align) }
        ensures live { align_at self.old.state addr ≡ Some payload.of.align }
        ensures heap { self.new ≡ record self.old { memory = record self.old.memory { touches = self.old.memory.touches + 3 } } }
    {
        let payload = payload.checked(&mut self.ledger);
        let range = load_usable_bytes(&mut self.memory, addr);
        let view = self.memory.view();
        let (bytes, ticket) = unsafe { payload.into_parts() };
        let part = unsafe { bytes.into_part(view, range) };
        (part, ticket)
    }

    /// Deallocates a payload that is known by its address, as `deallocate` does. No byte but the payload's becomes raw
    /// (`raw`).
    ///
    /// The payload must be the one at `addr`, which isn't 0, and one of this heap.
    ///
    /// Completes in constant time: at most 33 word accesses, whatever the pools contain.
    pub fn deallocate_thin(&mut self, addr: usize, payload: ThinPayload)
        requires some { (payload.of.start ≡ addr) × (addr ≢ 0) }
        requires heap { payload.of.identity ≡ self.old.identity }
        ensures step { Steps FLLEN SLLEN self.new (Deallocates self.old.state addr) }
        ensures result { IsDeallocated self.old self.new addr payload.of }
        ensures bounds { KeepsAllBounds SLLEN self.old.state self.new.state }
        ensures frame { KeepsFrameBeside self.old self.new (payload_range payload.of) }
        ensures touches { self.new.memory.touches ≤ self.old.memory.touches + 33 }
    {
        let (bytes, ticket) = unsafe { payload.into_parts() };
        self.put_raw(addr, bytes, ticket, None);
    }

    /// Deallocates a payload that is known by its address, as `deallocate_written` does.
    ///
    /// No byte becomes raw (`raw`): if no byte of the memory was raw, none is (`settled`).
    ///
    /// The payload must be the one at `addr`, which isn't 0, and one of this heap, and none of its bytes may be raw.
    ///
    /// Completes in constant time: at most 33 word accesses, whatever the pools contain.
    pub fn deallocate_thin_written(&mut self, addr: usize, payload: ThinPayload)
        requires some { (payload.of.start ≡ addr) × (addr ≢ 0) }
        requires heap { payload.of.identity ≡ self.old.identity }
        requires written { IsWritten payload.of }
        ensures step { Steps FLLEN SLLEN self.new (Deallocates self.old.state addr) }
        ensures result { IsDeallocated self.old self.new addr payload.of }
        ensures bounds { KeepsAllBounds SLLEN self.old.state self.new.state }
        ensures frame { KeepsFrame self.old self.new }
        ensures touches { self.new.memory.touches ≤ self.old.memory.touches + 33 }
    {
        let (bytes, ticket) = unsafe { payload.into_parts() };
        self.put_written(addr, bytes, ticket, None);
    }
}
