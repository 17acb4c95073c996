//! The heap: an allocator whose payloads leave its memory.
ghost use Rattle.std.specs.Prelude.{[], false, Some, ◌≡◌, ◌≤◌, ◌+◌, ◌↔◌, None, length, IfErr, IfNone, IfOk, IfSome, IsOk, IsSome};
ghost use Rattle.rlsf_base.specs.Changes.{IsAllOwn};
ghost use Rattle.rlsf_base.specs.Ledger.{extent};
ghost use Rattle.rlsf_base.specs.OpenSpace.{home_of, IsAway, IsOwned};
ghost use Rattle.rlsf_base.specs.Piece.{CanCome, piece_range};
ghost use Rattle.rlsf_base.specs.declared.memory.range.Range.{Range};
ghost use Rattle.rlsf_model_sizes.specs.SizeClass.{IsValid};
ghost use Rattle.rlsf_model_sizes.specs.Sizes.{request_size};
ghost use Rattle.rlsf_base.specs.Space.{range_of};
ghost use Rattle.rlsf_model.specs.Allocate.{Allocates};
ghost use Rattle.rlsf_model.specs.Callers.{align_at};
ghost use Rattle.rlsf_model.specs.Insert.{IsUntouched};
ghost use Rattle.rlsf_model.specs.Release.{Deallocates};
ghost use Rattle.rlsf_model.specs.Sized.{live_bytes, live_count};
ghost use Rattle.rlsf_model.specs.State.{empty};
ghost use Rattle.rlsf_tlsf.specs.Bounds.{TakesRoom};
ghost use Rattle.rlsf_tlsf.specs.Cores.{found_cost};
ghost use Rattle.rlsf_heap.specs.Heap.{addr_of, IsTicketOf, payload_range};
ghost use Rattle.rlsf_heap.specs.Replies.{IsAllocated, IsAllocatedZeroed, IsDeallocated, IsGone, IsUnchanged};
ghost use Rattle.rlsf_heap.specs.Settled.{IsSettled};
ghost use Rattle.rlsf_heap.specs.Frame.{KeepsAllBounds, KeepsBounds, KeepsFrame, KeepsFrameBeside};

use crate::payload::Payload;
use rlsf_base::memory::ledger::{Ledger, Ticket};
use rlsf_base::memory::{Layout, OpenMemory, ThinBytes};
use rlsf_int::BitPattern;
use rlsf_table::ClassTable;
use rlsf_tlsf::GhostState;
use rlsf_tlsf::core_calls::{allocate_in, deallocate_in};
use std::marker::{Model, PhantomData};
use std::mem::ManuallyDrop;

/// An allocator over the pools of one memory, which it owns. Its payloads leave the memory: each owns its bytes.
///
/// No call changes a byte of the memory that belongs to no block, before and after it (`spare`): one outside of all chunks, or
/// among the last 16 of a sentinel.
///
/// A word access reads or writes one word (8 bytes) of the memory, of a list head or of a bitmap. A bitmap of more than 64
/// positions is two words, and counts as one. The documentation of each call says how many it takes at most (`touches`). Copied bytes
/// are counted apart (`copied`), and what a payload's owner reads and writes isn't counted.
///
/// Dropping a heap deallocates its memory if no payload is live. Otherwise the memory leaks, so that no byte that a payload
/// owns is deallocated.
pub struct Heap<
    FLBitmap: BitPattern,
    SLBitmap: BitPattern,
    const FLLEN: usize,
    const SLLEN: usize,
> {
    pub(crate) memory: OpenMemory,
    // Before the table, which is long: here it is beside the words that each call reads.
    pub(crate) live: usize,
    // Whether the memory's bytes are lent to the heap in ranges: then some outside of all chunks may be out.
    pub(crate) lent: bool,
    pub(crate) table: ClassTable<FLLEN, SLLEN>,
    pub(crate) state: GhostState,
    pub(crate) ledger: Ledger,
    // Of no element. A type that has an array beside a type parameter is known to be below 2^63 bytes, whatever else it holds.
    pub(crate) bitmaps: [PhantomData<(FLBitmap, SLBitmap)>; 0],
}

impl<FLBitmap: BitPattern, SLBitmap: BitPattern, const FLLEN: usize, const SLLEN: usize> Model
    for Heap<FLBitmap, SLBitmap, FLLEN, SLLEN> {
    ghost use Rattle.rlsf_heap.specs.Heap.{HeapView, heap_view, IsHeapOf};

    ghost Value = { HeapView };

    ghost view = { λ h. heap_view h.memory h.table h.state.state h.ledger.name h.lent };

    ghost invariant = { λ h. IsHeapOf FLBitmap.width SLBitmap.width FLLEN SLLEN h.memory h.table h.state.state h.ledger.entries h.live h.lent };
}

impl<FLBitmap: BitPattern, SLBitmap: BitPattern, const FLLEN: usize, const SLLEN: usize> Heap<
    FLBitmap,
    SLBitmap,
    FLLEN,
    SLLEN,
> {
    ghost use Rattle.rlsf_heap.specs.Heap.{IsLent, Stands, Steps};

    /// Creates a heap that owns `memory` and has no pool. No byte of the memory may be out; each may be raw.
    ///
    /// The parameters must be valid:
    /// - `FLLEN`, the number of rows, is at least 1 and at most the number of bits of `FLBitmap`.
    /// - `SLLEN`, the number of classes of a row, is a power of two and at most the number of bits of `SLBitmap`.
    ///
    /// Takes time proportional to the number of classes, and accesses no word of the memory.
    ///
    /// From `crates/rlsf_example_tenants/src/pair.rt`:
    ///
    /// ```
    /// let memory = OpenMemory::new(alloc, 4096, 4096).ok()?;
    /// let mut heap = Small::new(memory);
    /// heap.insert_free_block(Range {
    ///     start: 4096,
    ///     len: 4096,
    /// });
    /// ```
    pub fn new(memory: OpenMemory) -> Self
        requires valid { IsValid FLBitmap.width SLBitmap.width FLLEN SLLEN }
        requires own { IsAllOwn memory.out }
        ensures state { result.state ≡ empty }
        ensures untouched { (r : Range) → IsUntouched result.state.chunks r }
        ensures stands { Stands FLLEN SLLEN result }
        ensures count { live_count result.state ≡ 0 }
        ensures memory { result.memory ≡ memory }
        ensures home { result.identity.home ≡ home_of memory }
        ensures bytes { (memory.out ≡ [] → IsSettled result.memory) × (result.lent ≡ false) × (live_bytes result.state ≡ 0) }
    {
        // Opens the memory's invariant for the prover: no address is 0, and each fits in a word.
        let _ = memory.start();
        Heap {
            memory,
            table: ClassTable::new(),
            state: GhostState::new(),
            ledger: Ledger::new(),
            live: 0,
            lent: false,
            bitmaps: [],
        }
    }

    /// Consumes the heap and returns its memory, as the heap leaves it. No byte of it is out, but for those that aren't lent to the heap.
    ///
    /// No payload may be live.
    ///
    /// Completes in constant time, without a word access.
    ///
    /// From `crates/rlsf_test_heap/src/pair.rt`:
    ///
    /// ```
    /// let reads = with_pair(&mut heap, layout)?;
    /// heap.into_memory().free();
    /// Some(reads)
    /// ```
    pub fn into_memory(self) -> OpenMemory
        requires { live_count self.state ≡ 0 }
        ensures memory { result ≡ self.memory }
        ensures home { home_of result ≡ self.identity.home }
        ensures own { self.lent ≡ false → IsAllOwn result.out }
        ensures free { self.lent ≡ false → IsOwned result (range_of result) }
        ensures lent { (r : Range) → IsLent self r → IsOwned result r }
    {
        let Heap {
            memory,
            table: _,
            state: _,
            ledger: _,
            live: _,
            lent: _,
            bitmaps: _,
        } = self;
        memory
    }

    /// Consumes the heap and returns its memory, as `into_memory` does, if no payload is live and the memory is the heap's own: its
    /// bytes weren't lent to it. Otherwise returns the heap unchanged, as the error.
    ///
    /// The memory is the one that `new` was passed: it has the same start, length and block (`home`).
    ///
    /// Completes in constant time, without a word access.
    ///
    /// From `crates/rlsf_test_heap/src/rows.rt`:
    ///
    /// ```
    /// match heap.try_into_memory() {
    ///     Ok(memory) => {
    ///         memory.free();
    ///         true
    ///     }
    ///     Err(_) => false,
    /// }
    /// ```
    pub fn try_into_memory(self) -> Result<OpenMemory, Self>
        ensures which { IsOk result ↔ ((live_count self.state ≡ 0) × (self.lent ≡ false)) }
        ensures memory { IfOk result (λ m. m ≡ self.memory) }
        ensures home { IfOk result (λ m. home_of m ≡ self.identity.home) }
        ensures own { IfOk result (λ m. IsAllOwn m.out) }
        ensures free { IfOk result (λ m. IsOwned m (range_of m)) }
        ensures same { IfErr result (λ h. h ≡ self) }
    {
        if self.lent || self.live > 0 {
            return Err(self);
        }
        Ok(self.into_memory())
    }

    /// Allocates a payload for `layout`. It leaves the memory. Its bytes may be raw; if no byte of the memory is raw, none of
    /// them is. No byte of the memory becomes raw (`raw`). The payload's address is a multiple of the alignment. Its block is
    /// the front of the newest free block of the first class that has a free block and reaches the sought size.
    ///
    /// Returns `None` if and only if no free block has a class that reaches the sought size; then nothing changes. Within
    /// bounds that the heap is sized for (`IsSizedFor`), or within a budget (`IsSizedForBudget`), an allocation is never
    /// refused.
    ///
    /// Completes in constant time: at most 27 word accesses, whatever the pools contain.
    ///
    /// From `crates/rlsf_example_tenants/src/pair.rt`:
    ///
    /// ```
    /// let mut first = heap.allocate(layout)?;
    /// let Some(mut second) = heap.allocate(layout) else {
    ///     heap.deallocate(first);
    ///     return None;
    /// };
    /// ```
    // In line, so that the tests of an alignment that is constant at the call go away, and no payload is passed in memory.
    #[inline(always)]
    #[tactic(auto, using(crate::proofs::OnCores::core_of))]
    pub fn allocate(&mut self, layout: Layout) -> Option<Payload>
        ensures step { Steps FLLEN SLLEN self.new (Allocates SLLEN self.old.state layout.size layout.align (addr_of result)) }
        ensures result { IfSome result (λ p. IsAllocated self.old self.new layout.size layout.align p) }
        ensures room { TakesRoom SLLEN self.old.state self.new.state layout.size layout.align (IsSome result) }
        ensures bounds { KeepsBounds SLLEN self.old.state self.new.state layout.size layout.align }
        ensures refused { IfNone result (IsUnchanged self.old self.new) }
        ensures frame { KeepsFrame self.old self.new }
        ensures touches { self.new.memory.touches ≤ self.old.memory.touches + 27 }
    {
        match allocate_in(&mut self.memory, &mut self.table, &mut self.state, layout) {
            Some(range) => {
                let align = layout.align();
                self.live += 1;
                let payload = Payload::hand_over(&mut self.memory, &mut self.ledger, range, align);
                Some(payload)
            }
            None => None,
        }
    }

    /// Allocates a payload for `layout`, as `allocate` does, and fills it with zeros. It is filled after it
    /// left the memory. So filling it counts no word access, but takes time proportional to its length.
    ///
    /// Returns `None` if and only if `allocate` does.
    ///
    /// Takes at most 27 word accesses, whatever the pools contain, and fills each byte of the payload.
    ///
    /// From `crates/rlsf_example_libraries/src/owned.rt`:
    ///
    /// ```
    /// if self.heap.live() == self.capacity {
    ///     return None;
    /// }
    /// self.heap.allocate_zeroed(self.layout)
    /// ```
    pub fn allocate_zeroed(&mut self, layout: Layout) -> Option<Payload>
        ensures step { Steps FLLEN SLLEN self.new (Allocates SLLEN self.old.state layout.size layout.align (addr_of result)) }
        ensures result { IfSome result (λ p. IsAllocatedZeroed self.old self.new layout.size layout.align p) }
        ensures room { TakesRoom SLLEN self.old.state self.new.state layout.size layout.align (IsSome result) }
        ensures bounds { KeepsBounds SLLEN self.old.state self.new.state layout.size layout.align }
        ensures refused { IfNone result (IsUnchanged self.old self.new) }
        ensures frame { KeepsFrame self.old self.new }
        ensures touches { self.new.memory.touches ≤ self.old.memory.touches + 27 }
    {
        let mut payload = self.allocate(layout)?;
        payload.fill(0);
        Some(payload)
    }

    /// Deallocates a payload. Its block becomes free, and is joined with the free block before it and the free block
    /// behind it, if they exist. The joined block is the newest free block.
    ///
    /// Until the call, each byte of the payload was its owner's, and none was the memory's (`owner`). Then those that the
    /// allocator doesn't overwrite are raw. No other byte becomes raw (`raw`).
    ///
    /// The payload must be one of this heap.
    ///
    /// Completes in constant time: at most 32 word accesses, whatever the pools contain.
    ///
    /// From `crates/rlsf_example_tenants/src/pair.rt`:
    ///
    /// ```
    /// let bytes = [first.as_slice()[0], second.as_slice()[0]];
    /// heap.deallocate(first);
    /// heap.deallocate(second);
    /// ```
    // In line, so that no payload is passed in memory.
    #[inline(always)]
    pub fn deallocate(&mut self, payload: Payload)
        requires { payload.identity ≡ self.old.identity }
        ensures step { Steps FLLEN SLLEN self.new (Deallocates self.old.state payload.start) }
        ensures result { IsDeallocated self.old self.new payload.start payload }
        ensures bounds { KeepsAllBounds SLLEN self.old.state self.new.state }
        ensures frame { KeepsFrameBeside self.old self.new (payload_range payload) }
        ensures touches { self.new.memory.touches ≤ self.old.memory.touches + 32 }
    {
        let align = payload.align();
        let (part, ticket) = payload.into_parts();
        let addr = part.start();
        self.put_raw(addr, part.into_thin_bytes(), ticket, Some(align));
    }

    // Deallocates the payload at an address by its bytes, which become raw, and its ticket. If `align` is one, it is the payload's alignment.
    #[inline(always)]
    #[tactic(auto, using(crate::proofs::OnCores::of_memory, crate::proofs::OnCores::of_ledger))]
    pub(crate) fn put_raw(
        &mut self,
        addr: usize,
        bytes: ThinBytes,
        ticket: Ticket,
        align: Option<usize>,
    )
        requires bytes { (bytes.piece.start ≡ addr) × CanCome bytes.piece bytes.piece.home.view (piece_range bytes.piece) }
        requires ticket { IsTicketOf bytes.piece ticket.align (extent ticket.addr ticket.len ticket.align) }
        requires identity { record { home = bytes.piece.home; ledger = ticket.name } ≡ self.old.identity }
        requires align { IfSome align (λ a. ticket.align ≡ a) }
        ensures step { Steps FLLEN SLLEN self.new (Deallocates self.old.state bytes.piece.start) }
        ensures owner { IsAway self.old.memory (piece_range bytes.piece) }
        ensures live { align_at self.old.state bytes.piece.start ≡ Some ticket.align }
        ensures result { IsGone self.old.state self.new.state bytes.piece.start }
        ensures freed { live_bytes self.new.state + request_size (length bytes.piece.bytes) 16 ≤ live_bytes self.old.state }
        ensures bounds { KeepsAllBounds SLLEN self.old.state self.new.state }
        ensures frame { KeepsFrameBeside self.old self.new (piece_range bytes.piece) }
        ensures touches { self.new.memory.touches ≤ self.old.memory.touches + (found_cost align + 31) }
    {
        self.ledger.redeem(ticket);
        self.memory.put_thin_room(bytes);
        deallocate_in(
            &mut self.memory,
            &mut self.table,
            &mut self.state,
            addr,
            align,
        );
        self.live -= 1;
    }
}

impl<FLBitmap: BitPattern, SLBitmap: BitPattern, const FLLEN: usize, const SLLEN: usize> Drop
    for Heap<FLBitmap, SLBitmap, FLLEN, SLLEN> {
    fn drop(self) {
        let Heap {
            memory,
            table: _,
            state: _,
            ledger: _,
            live,
            lent,
            bitmaps: _,
        } = self;
        if !lent {
            if live == 0 {
                memory.free();
                return;
            }
        }
        let _leaked = unsafe { ManuallyDrop::new_unchecked(memory) };
    }
}
