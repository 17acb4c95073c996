//! Deallocation of payloads without raw bytes.
ghost use Rattle.std.specs.Prelude.{◌≡◌, ◌≤◌, ◌+◌, IfSome, Some, length};
ghost use Rattle.rlsf_base.specs.Ledger.{extent};
ghost use Rattle.rlsf_base.specs.OpenSpace.{IsAway};
ghost use Rattle.rlsf_base.specs.Piece.{CanCome, IsFull, piece_range};
ghost use Rattle.rlsf_model_sizes.specs.Sizes.{request_size};
ghost use Rattle.rlsf_model.specs.Callers.{align_at};
ghost use Rattle.rlsf_model.specs.Release.{Deallocates};
ghost use Rattle.rlsf_model.specs.Sized.{live_bytes};
ghost use Rattle.rlsf_tlsf.specs.Cores.{found_cost};
ghost use Rattle.rlsf_heap.specs.Heap.{IsTicketOf, IsWritten};
ghost use Rattle.rlsf_heap.specs.Frame.{KeepsAllBounds, KeepsFrame};
ghost use Rattle.rlsf_heap.specs.Replies.{IsDeallocated, IsGone};

use crate::heap::Heap;
use crate::payload::Payload;
use rlsf_base::memory::ThinBytes;
use rlsf_base::memory::ledger::Ticket;
use rlsf_int::BitPattern;
use rlsf_tlsf::core_calls::deallocate_in;

impl<FLBitmap: BitPattern, SLBitmap: BitPattern, const FLLEN: usize, const SLLEN: usize> Heap<
    FLBitmap,
    SLBitmap,
    FLLEN,
    SLLEN,
> {
    ghost use Rattle.rlsf_heap.specs.Heap.{Steps};

    /// Deallocates a payload, as `deallocate` does. Its block becomes free, and is joined with the free block before it and the free block
    /// behind it, if they exist. The joined block is the newest free block.
    ///
    /// No byte becomes raw (`raw`): if no byte of the memory was raw, none is (`settled`). The allocator's words overwrite some
    /// of the payload's bytes. After `deallocate`, the others are raw.
    ///
    /// The payload must be one of this heap, and none of its bytes may be raw.
    ///
    /// Completes in constant time: at most 32 word accesses, whatever the pools contain.
    ///
    /// From `crates/rlsf_test_heap/src/growing.rt`:
    ///
    /// ```
    /// let byte = payload.as_slice()[0];
    /// heap.deallocate_written(payload);
    /// ```
    // In line, so that no payload is passed in memory.
    #[inline(always)]
    pub fn deallocate_written(&mut self, payload: Payload)
        requires identity { payload.identity ≡ self.old.identity }
        requires written { IsWritten payload }
        ensures step { Steps FLLEN SLLEN self.new (Deallocates self.old.state payload.start) }
        ensures result { IsDeallocated self.old self.new payload.start payload }
        ensures bounds { KeepsAllBounds SLLEN self.old.state self.new.state }
        ensures frame { KeepsFrame self.old self.new }
        ensures touches { self.new.memory.touches ≤ self.old.memory.touches + 32 }
    {
        let align = payload.align();
        let (part, ticket) = payload.into_parts();
        let addr = part.start();
        self.put_written(addr, part.into_thin_bytes(), ticket, Some(align));
    }

    // Deallocates the payload at an address by its bytes, which are here, and its ticket. If `align` is one, it is the payload's alignment.
    #[inline(always)]
    #[tactic(auto, using(crate::proofs::OnCores::of_memory, crate::proofs::OnCores::of_ledger))]
    pub(crate) fn put_written(
        &mut self,
        addr: usize,
        bytes: ThinBytes,
        ticket: Ticket,
        align: Option<usize>,
    )
        requires bytes { (bytes.piece.start ≡ addr) × CanCome bytes.piece bytes.piece.home.view (piece_range bytes.piece) }
        requires ticket { IsTicketOf bytes.piece ticket.align (extent ticket.addr ticket.len ticket.align) }
        requires identity { record { home = bytes.piece.home; ledger = ticket.name } ≡ self.old.identity }
        requires full { IsFull bytes.piece }
        requires align { IfSome align (λ a. ticket.align ≡ a) }
        ensures step { Steps FLLEN SLLEN self.new (Deallocates self.old.state bytes.piece.start) }
        ensures owner { IsAway self.old.memory (piece_range bytes.piece) }
        ensures live { align_at self.old.state bytes.piece.start ≡ Some ticket.align }
        ensures result { IsGone self.old.state self.new.state bytes.piece.start }
        ensures freed { live_bytes self.new.state + request_size (length bytes.piece.bytes) 16 ≤ live_bytes self.old.state }
        ensures bounds { KeepsAllBounds SLLEN self.old.state self.new.state }
        ensures frame { KeepsFrame self.old self.new }
        ensures touches { self.new.memory.touches ≤ self.old.memory.touches + (found_cost align + 31) }
    {
        self.ledger.redeem(ticket);
        self.memory.put_thin_back(bytes);
        deallocate_in(
            &mut self.memory,
            &mut self.table,
            &mut self.state,
            addr,
            align,
        );
        self.live -= 1;
    }
}
