//! A payload gets another size without moving, by its bytes and its ticket.
ghost use Rattle.std.specs.Prelude.{◌≡◌, ◌≤◌, ◌<◌, ◌+◌, ◌-◌, ◌^◌, Some, true, false, length, IfSome};
ghost use Rattle.rlsf_base.specs.Ledger.{extent, IsIssued};
ghost use Rattle.rlsf_base.specs.Piece.{IsFull};
ghost use Rattle.rlsf_model_sizes.specs.Rounding.{round32};
ghost use Rattle.rlsf_model.specs.Callers.{align_at};
ghost use Rattle.rlsf_model.specs.NoMove.{ReallocatesWithoutMove};
ghost use Rattle.rlsf_model.specs.State.{filled};
ghost use Rattle.rlsf_tlsf.specs.CoreResizes.{stayed_if};
ghost use Rattle.rlsf_tlsf.specs.Cores.{found_cost};
ghost use Rattle.rlsf_heap.specs.Frame.{KeepsAllBounds, KeepsFrame, KeepsSized};
ghost use Rattle.rlsf_heap.specs.Heap.{IsTicketOf, payload_view};
ghost use Rattle.rlsf_heap.specs.Replies.{IsRefused};
ghost use Rattle.rlsf_heap.specs.ThinUnknownAlign.{IfBytesSuffice, IsResizedThere, renewed_entries};

use crate::heap::Heap;
use rlsf_base::memory::ledger::{Ledger, Ticket};
use rlsf_base::memory::{Layout, Part, Range};
use rlsf_base::rounding::next_multiple_of_32;
use rlsf_int::BitPattern;
use rlsf_tlsf::core_calls::resize_in;

// Redeems a ticket, and returns one for another length, of the same address and alignment. It does nothing.
fn renewed(ticket: Ticket, ledger: &mut Ledger, len: usize) -> Ticket
    requires { ticket.name ≡ ledger.old.name }
    ensures issued { IsIssued ledger.old.entries ticket.key (extent ticket.addr ticket.len ticket.align) }
    ensures ticket { (result.name ≡ ticket.name) × (result.addr ≡ ticket.addr) × (result.len ≡ len) × (result.align ≡ ticket.align) }
    ensures ledger { (ledger.new.name ≡ ledger.old.name) × (ledger.new.entries ≡ renewed_entries ledger.old.entries ticket.key (extent ticket.addr ticket.len ticket.align) len) }
{
    ticket
}

// Returns the length of the payload at `addr`: the one for `size` bytes if it has this size now, or else the one that it had.
//
// Its block is no longer than it has to be: it ends at the first multiple of 32 behind the size. So no word is read.
#[inline(always)]
fn length_now(done: bool, addr: usize, size: usize, was: usize) -> usize
    requires { done ≡ true → round32 (addr + size) < 2 ^ 64 }
    ensures done { done ≡ true → result ≡ round32 (addr + size) - addr }
    ensures kept { done ≡ false → result ≡ was }
{
    if done {
        next_multiple_of_32(addr + size) - addr
    } else {
        was
    }
}

impl<FLBitmap: BitPattern, SLBitmap: BitPattern, const FLLEN: usize, const SLLEN: usize> Heap<
    FLBitmap,
    SLBitmap,
    FLLEN,
    SLLEN,
> {
    ghost use Rattle.rlsf_heap.specs.Heap.{Steps};

    // Puts the bytes of a payload back into the memory, gives the payload the size of `layout` without moving it, and takes its bytes out
    // again, with a ticket. Of `layout` only the size counts. If `align` is one, it is the payload's alignment.
    //
    // Returns whether the bytes of its block and of a free block behind it suffice. If not, the payload is as it was.
    #[inline(always)]
    pub(crate) fn resize_part(
        &mut self,
        part: Part,
        ticket: Ticket,
        align: Option<usize>,
        layout: Layout,
    ) -> (bool, Part, Ticket)
        requires ticket { IsTicketOf part ticket.align (extent ticket.addr ticket.len ticket.align) }
        requires identity { record { home = part.home; ledger = ticket.name } ≡ self.old.identity }
        requires written { IsFull part }
        requires align { IfSome align (λ a. ticket.align ≡ a) }
        ensures step { Steps FLLEN SLLEN self.new
            (ReallocatesWithoutMove (filled self.old.state part.start part.bytes) part.start layout.size (stayed_if result.0 part.start)) }
        ensures result { result.0 ≡ true → IsResizedThere self.old self.new part.start layout.size (payload_view part ticket.align ticket.name)
            (payload_view result.1 result.2.align result.2.name) }
        ensures refused { result.0 ≡ false → IsRefused self.old self.new part.start ticket.align (payload_view part ticket.align ticket.name)
            (payload_view result.1 result.2.align result.2.name) }
        ensures kept { result.0 ≡ false → KeepsAllBounds SLLEN self.old.state self.new.state × (self.new.memory.touches ≤ self.old.memory.touches + (found_cost align + 2)) }
        ensures live { align_at self.old.state part.start ≡ Some ticket.align }
        ensures room { IfBytesSuffice self.old.state part.start layout.size (length part.bytes) (result.0 ≡ true) }
        ensures place { (result.1.start ≡ part.start) × (result.2.align ≡ ticket.align) }
        ensures ticket { IsTicketOf result.1 result.2.align (extent result.2.addr result.2.len result.2.align) }
        ensures bounds { KeepsSized SLLEN self.old.state self.new.state layout.size ticket.align }
        ensures frame { KeepsFrame self.old self.new }
        ensures touches { self.new.memory.touches ≤ self.old.memory.touches + (found_cost align + 24) }
    {
        let addr = part.start();
        let was = part.len();
        let ticket = renewed(ticket, &mut self.ledger, was);
        self.memory.put_back(part);
        let done = resize_in(
            &mut self.memory,
            &mut self.table,
            &mut self.state,
            addr,
            align,
            layout,
        );
        let len = length_now(done, addr, layout.size(), was);
        let part = self.memory.take_out(Range { start: addr, len });
        let ticket = renewed(ticket, &mut self.ledger, len);
        (done, part, ticket)
    }
}
