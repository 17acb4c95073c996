//! The allocator over pools that its caller inserts.

ghost use Rattle.std.specs.Borrow.{sem};
ghost use Rattle.std.specs.Prelude.{◌≡◌, ◌≢◌, ◌≤◌, ◌<◌, ◌+◌, ℕ, List, [], Some, None, length, IfNone, IfSome, IsSome, true, false};
ghost use Rattle.rlsf_base.specs.Addr.{at, reply};
ghost use Rattle.rlsf_base.specs.declared.memory.range.Range.{Range};
ghost use Rattle.rlsf_model_sizes.specs.SizeClass.{IsValid};
ghost use Rattle.rlsf_base.specs.Space.{with_word, SamePlace};
ghost use Rattle.rlsf_model.specs.Allocate.{Allocates};
ghost use Rattle.rlsf_model.specs.Callers.{align_at, bytes_at, copied_over};
ghost use Rattle.rlsf_model.specs.Insert.{IsUntouched};
ghost use Rattle.rlsf_model.specs.NoMove.{ReallocatesWithoutMove};
ghost use Rattle.rlsf_model.specs.Reallocate.{Reallocates};
ghost use Rattle.rlsf_model.specs.Release.{Deallocates};
ghost use Rattle.rlsf_model.specs.Run.{Fills};
ghost use Rattle.rlsf_model.specs.Sized.{IsSizedFor, live_bytes, live_count};
ghost use Rattle.rlsf_model.specs.State.{empty};
ghost use Rattle.rlsf_table.specs.Table.{newest_of, of_class};
ghost use Rattle.rlsf_blocks.specs.Spare.{IsSpareWord};

use crate::core_calls::{allocate_in, deallocate_in, reallocate_in, resize_in};
use crate::state::GhostState;
use rlsf_base::memory::{Addr, Layout, Memory, Range};
use rlsf_blocks::{load_usable_bytes, usable_bytes};
use rlsf_int::BitPattern;
use rlsf_table::ClassTable;
use std::marker::{Model, PhantomData};
use std::num::NonZeroUsize;

/// An allocator over the pools of one memory, which it owns.
///
/// The documentation of a call bounds its cost in word accesses. A word access is one read or write of a word (8 bytes) of
/// the memory, of the head of a free list, or of a bitmap. A bitmap of more than 64 positions is two words, and counts as
/// one. Copied bytes are counted apart. The contracts prove both bounds (`touches` and `copied`).
#[derive(Drop)]
pub struct Tlsf<
    FLBitmap: BitPattern,
    SLBitmap: BitPattern,
    const FLLEN: usize,
    const SLLEN: usize,
> {
    pub(crate) memory: Memory,
    pub(crate) table: ClassTable<FLLEN, SLLEN>,
    pub(crate) state: GhostState,
    // Of no element. A type that has an array beside a type parameter is known to be below 2^63 bytes, whatever else it holds.
    bitmaps: [PhantomData<(FLBitmap, SLBitmap)>; 0],
}

impl<FLBitmap: BitPattern, SLBitmap: BitPattern, const FLLEN: usize, const SLLEN: usize> Model
    for Tlsf<FLBitmap, SLBitmap, FLLEN, SLLEN> {
    ghost use Rattle.rlsf_tlsf.specs.Allocator.{Allocator, allocator, IsAllocator};

    ghost Value = { Allocator };

    ghost view = { λ t. allocator t.memory t.table t.state.state };

    ghost invariant = { λ t. IsAllocator FLBitmap.width SLBitmap.width FLLEN SLLEN t.memory t.table t.state.state };
}

impl<FLBitmap: BitPattern, SLBitmap: BitPattern, const FLLEN: usize, const SLLEN: usize> Tlsf<
    FLBitmap,
    SLBitmap,
    FLLEN,
    SLLEN,
> {
    ghost use Rattle.rlsf_tlsf.specs.Allocator.{IsRepresented, Stands, Steps};
    ghost use Rattle.rlsf_tlsf.specs.Lending.{LeavesRest, lends_payload, written};
    ghost use Rattle.rlsf_tlsf.specs.Bounds.{KeepsAllBounds, KeepsBounds, TakesRoom, TakesRoomAgain};
    ghost use Rattle.rlsf_tlsf.specs.Results.{IsAllocated, IsDeallocated, IsFilled, IsReallocated, IsResized, IsUnchanged};
    ghost use Rattle.rlsf_tlsf.specs.Results.{KeepsFrame, KeepsFrameCopying, KeepsFrameInPlace, KeepsFrameMoving};

    /// Creates an allocator that owns `memory` and has no pool.
    ///
    /// The parameters must be valid:
    /// - `FLLEN`, the number of rows, is at least 1 and at most the number of bits of `FLBitmap`.
    /// - `SLLEN`, the number of classes of a row, is a power of two and at most the number of bits of `SLBitmap`.
    ///
    /// Takes time proportional to the number of classes, and accesses no word of the memory.
    ///
    /// From `crates/rlsf_example_functions/src/pools.rt`:
    ///
    /// ```
    /// let memory = Memory::new(alloc, 4096, len).ok()?;
    /// let mut pool = Pool::new(memory);
    /// pool.insert_free_block(Range { start: 4096, len });
    /// ```
    pub fn new(memory: Memory) -> Self
        requires { IsValid FLBitmap.width SLBitmap.width FLLEN SLLEN }
        ensures state { result.state ≡ empty }
        ensures untouched { (r : Range) → IsUntouched result.state.chunks r }
        ensures stands { Stands FLLEN SLLEN result }
        ensures count { live_count result.state ≡ 0 }
        ensures blocks { live_bytes result.state ≡ 0 }
        ensures memory { result.memory ≡ memory }
    {
        // Opens the memory's invariant for the prover: no address is 0, and each fits in a word.
        let _ = memory.inner.start();
        Tlsf {
            memory,
            table: ClassTable::new(),
            state: GhostState::new(),
            bitmaps: [],
        }
    }

    /// Consumes the allocator and returns its memory, as the allocator leaves it.
    ///
    /// Completes in constant time.
    pub fn into_memory(self) -> Memory
        ensures { result ≡ self.memory }
    {
        let Tlsf { memory, .. } = self;
        memory
    }

    /// Allocates a payload for `layout`, and returns its address, a multiple of the alignment. Its block is the front of
    /// the newest free block of the first class that has a free block and reaches the sought size.
    ///
    /// Returns `None` if and only if no free block has a class that reaches the sought size; then nothing changes. Within
    /// bounds that the allocator is sized for (`IsSizedFor`), or within a budget (`IsSizedForBudget`), an allocation is never
    /// refused.
    ///
    /// Completes in constant time: at most 27 word accesses, whatever the pools contain. No byte is copied.
    ///
    /// From `crates/rlsf_example_readme/src/main.rt`:
    ///
    /// ```
    /// let layout = Layout::from_size_align(100, 8).ok()?;
    /// let addr = pool.allocate(layout)?;
    /// pool.payload_mut(addr).fill(7);
    /// ```
    // In line, so that the tests of an alignment that is constant at the call go away.
    #[inline(always)]
    #[tactic(auto, using(crate::proofs::Whole::core_again, crate::proofs::Whole::none_again, crate::proofs::Whole::allocator_again))]
    pub fn allocate(&mut self, layout: Layout) -> Option<Addr>
        ensures step { Steps FLLEN SLLEN self.old self.new (Allocates SLLEN self.old.state layout.size layout.align (reply result)) }
        ensures result { IfSome result (λ addr. IsAllocated self.old.state self.new.state layout.size layout.align (at addr)) }
        ensures room { TakesRoom SLLEN self.old.state self.new.state layout.size layout.align (IsSome result) }
        ensures bounds { KeepsBounds SLLEN self.old.state self.new.state layout.size layout.align }
        ensures refused { IfNone result (IsUnchanged self.old self.new) }
        ensures frame { KeepsFrame self.old self.new }
        ensures touches { self.new.memory.touches ≤ self.old.memory.touches + 27 }
    {
        match allocate_in(
            &mut self.memory.inner,
            &mut self.table,
            &mut self.state,
            layout,
        ) {
            Some(range) => NonZeroUsize::new(range.start),
            None => None,
        }
    }

    /// Deallocates the payload at `addr`. Its block becomes free, and is joined with the free block before it and the
    /// free block behind it, if they exist. The joined block is the newest free block.
    ///
    /// The payload at `addr` must be live, with the alignment `align`.
    ///
    /// Completes in constant time: at most 32 word accesses, whatever the pools contain. No byte is copied.
    ///
    /// From `crates/rlsf_example_readme/src/main.rt`:
    ///
    /// ```
    /// let byte = pool.payload(addr)[99];
    /// pool.deallocate(addr, layout.align());
    /// Some(byte)
    /// ```
    #[tactic(auto, using(crate::proofs::Whole::none_again, crate::proofs::Whole::allocator_again))]
    pub fn deallocate(&mut self, addr: Addr, align: usize)
        requires { align_at self.old.state (at addr) ≡ Some align }
        ensures step { Steps FLLEN SLLEN self.old self.new (Deallocates self.old.state (at addr)) }
        ensures result { IsDeallocated self.old.state self.new.state (at addr) }
        ensures bounds { KeepsAllBounds SLLEN self.old.state self.new.state }
        ensures frame { KeepsFrame self.old self.new }
        ensures touches { self.new.memory.touches ≤ self.old.memory.touches + 32 }
    {
        deallocate_in(
            &mut self.memory.inner,
            &mut self.table,
            &mut self.state,
            addr.get(),
            Some(align),
        );
    }

    /// Deallocates the payload at `addr`, as `deallocate` does, if the caller does not know its alignment. The resulting
    /// state is the same.
    ///
    /// The payload at `addr` must be live, with any alignment.
    ///
    /// Completes in constant time: at most 33 word accesses, whatever the pools contain. No byte is copied.
    ///
    /// From `crates/rlsf_test_tlsf/src/reallocations.rt`:
    ///
    /// ```
    /// let outcome = outcome(payload, tlsf.payload(now));
    /// tlsf.deallocate_unknown_align(now);
    /// ```
    #[tactic(auto, using(crate::proofs::Whole::none_again, crate::proofs::Whole::allocator_again))]
    pub fn deallocate_unknown_align(&mut self, addr: Addr)
        requires { IsSome (align_at self.old.state (at addr)) }
        ensures step { Steps FLLEN SLLEN self.old self.new (Deallocates self.old.state (at addr)) }
        ensures result { IsDeallocated self.old.state self.new.state (at addr) }
        ensures bounds { KeepsAllBounds SLLEN self.old.state self.new.state }
        ensures frame { KeepsFrame self.old self.new }
        ensures touches { self.new.memory.touches ≤ self.old.memory.touches + 33 }
    {
        deallocate_in(
            &mut self.memory.inner,
            &mut self.table,
            &mut self.state,
            addr.get(),
            None,
        );
    }

    /// Changes the size of the payload at `addr` to that of `layout`, and returns its address, a multiple of the
    /// alignment. The first bytes are kept, as many as both sizes have. The payload takes the first of these places that
    /// is large enough:
    /// - It stays at its address, with the bytes of its block and of a free block behind it.
    /// - It moves into the free block before it, joined with those bytes.
    /// - It moves into a newly allocated block, and the old block is deallocated.
    ///
    /// Returns `None` if and only if this allocation is refused; then nothing changes. Within bounds that the allocator
    /// is sized for (`IsSizedFor`), or within a budget (`IsSizedForBudget`), a reallocation is never refused.
    ///
    /// The payload at `addr` must be live, with the alignment of `layout`.
    ///
    /// At most 66 word accesses, whatever the pools contain. If the payload stays, no byte is copied. If it moves, at most the
    /// bytes that it had are copied.
    ///
    /// From `crates/rlsf_example_functions/src/pools.rt`:
    ///
    /// ```
    /// let first = pool.allocate(small).unwrap();
    /// let second = pool.allocate(layout).unwrap();
    /// let moved = pool.reallocate(first, layout).unwrap();
    /// ```
    #[tactic(auto, using(crate::proofs::Whole::none_again, crate::proofs::Whole::allocator_again))]
    pub fn reallocate(&mut self, addr: Addr, layout: Layout) -> Option<Addr>
        requires { align_at self.old.state (at addr) ≡ Some layout.align }
        ensures step { Steps FLLEN SLLEN self.old self.new (Reallocates SLLEN self.old.state (at addr) layout.size (reply result)) }
        ensures result { IfSome result (λ to. IsReallocated self.old.state self.new.state (at addr) layout.size layout.align (at to)) }
        ensures room { TakesRoomAgain SLLEN self.old.state self.new.state (at addr) layout.size layout.align (IsSome result) }
        ensures bounds { KeepsBounds SLLEN self.old.state self.new.state layout.size layout.align }
        ensures refused { IfNone result (IsUnchanged self.old self.new) }
        ensures frame { KeepsFrameMoving (at addr) layout.size self.old self.new }
        ensures touches { self.new.memory.touches ≤ self.old.memory.touches + 66 }
    {
        match reallocate_in::<FLLEN, SLLEN, 1>(
            &mut self.memory.inner,
            &mut self.table,
            &mut self.state,
            addr.get(),
            layout,
        ) {
            Some(to) => NonZeroUsize::new(to),
            None => None,
        }
    }

    /// Changes the size of the payload at `addr` to that of `layout` without moving it, and returns its address. It uses
    /// the bytes of the payload's block and of a free block behind it. The first bytes are kept, as many as both sizes
    /// have, and no byte is copied.
    ///
    /// Returns `None` if and only if these bytes don't suffice; then nothing changes.
    ///
    /// The payload at `addr` must be live, with the alignment of `layout`.
    ///
    /// Completes in constant time: at most 25 word accesses, whatever the pools contain. No byte is copied.
    ///
    /// From `crates/rlsf_test_tlsf/src/reallocations.rt`:
    ///
    /// ```
    /// if tlsf.reallocate_no_move(addr, wanted).is_none() {
    ///     tlsf.deallocate(addr, layout.align());
    ///     return None;
    /// }
    /// ```
    #[tactic(auto, using(crate::proofs::Whole::none_again, crate::proofs::Whole::allocator_again))]
    pub fn reallocate_no_move(&mut self, addr: Addr, layout: Layout) -> Option<Addr>
        requires { align_at self.old.state (at addr) ≡ Some layout.align }
        ensures step { Steps FLLEN SLLEN self.old self.new (ReallocatesWithoutMove self.old.state (at addr) layout.size (reply result)) }
        ensures result { IfSome result (λ to. IsResized self.old.state self.new.state (at addr) layout.size (at to)) }
        ensures bounds { KeepsBounds SLLEN self.old.state self.new.state layout.size layout.align }
        ensures refused { IfNone result (IsUnchanged self.old self.new) }
        ensures frame { KeepsFrameInPlace (at addr) layout.align self.old self.new }
        ensures touches { self.new.memory.touches ≤ self.old.memory.touches + 25 }
    {
        if !resize_in(
            &mut self.memory.inner,
            &mut self.table,
            &mut self.state,
            addr.get(),
            Some(layout.align()),
            layout,
        ) {
            return None;
        }
        Some(addr)
    }

    /// Returns the number of usable bytes of the payload at `addr`: those from `addr` to the end of its block. They are
    /// the requested bytes and less than 32 more.
    ///
    /// The payload at `addr` must be live, with any alignment.
    ///
    /// Completes in constant time.
    pub fn allocation_usable_size(&self, addr: Addr) -> usize
        requires { IsSome (align_at self.now.state (at addr)) }
        ensures { result ≡ length (bytes_at self.now.state (at addr)) }
    {
        usable_bytes(&self.memory.inner, addr.get()).len
    }

    /// Returns all usable bytes of the payload at `addr`: those from `addr` to the end of its block.
    ///
    /// The payload at `addr` must be live, with any alignment.
    ///
    /// Completes in constant time.
    ///
    /// From `crates/rlsf_example_libraries_tour/src/first.rt`:
    ///
    /// ```
    /// pool.payload_mut(first).fill(7);
    /// pool.payload_mut(second).fill(9);
    /// let reads = [pool.payload(first)[0], pool.payload(second)[0]];
    /// ```
    pub fn payload(&self, addr: Addr) -> &[u8]
        requires { IsSome (align_at self.now.state (at addr)) }
        ensures { result.now ≡ bytes_at self.now.state (at addr) }
    {
        self.memory
            .inner
            .slice(usable_bytes(&self.memory.inner, addr.get()))
    }

    /// Returns all usable bytes of the payload at `addr`, for reading and writing: those from `addr` to the end of its
    /// block. When the borrow ends, the payload has the bytes that were written. Nothing else changes.
    ///
    /// The payload at `addr` must be live, with any alignment.
    ///
    /// Completes in constant time: 3 word accesses. No byte is copied.
    ///
    /// From `crates/rlsf_example_functions/src/buffer.rt`:
    ///
    /// ```
    /// self.pool.payload_mut(addr)[self.len] = byte;
    /// self.len += 1;
    /// ```
    pub fn payload_mut(&mut self, addr: Addr) -> &mut [u8]
        requires { IsSome (align_at self.old.state (at addr)) }
        ensures* writes_back { sem 𝓛 (lends_payload FLBitmap.row SLBitmap.row FLLEN.row SLLEN.row FLBitmap.BitPattern SLBitmap.BitPattern self.entry (at addr) result) }
        ensures value { result.now ≡ bytes_at self.old.state (at addr) }
        ensures meaning { (w : List ℕ) → length w ≡ length result.now
            → Steps FLLEN SLLEN self.old (written self.old (at addr) (length result.now) w) (Fills self.old.state (at addr) w) }
        ensures filled { (w : List ℕ) → length w ≡ length result.now → bytes_at (written self.old (at addr) (length result.now) w).state (at addr) ≡ w }
        ensures bytes { (w : List ℕ) (a : ℕ) → a ≢ at addr → bytes_at (written self.old (at addr) (length result.now) w).state a ≡ bytes_at self.old.state a }
        ensures aligns { (w : List ℕ) → align_at (written self.old (at addr) (length result.now) w).state ≡ align_at self.old.state }
        ensures count { (w : List ℕ) → live_count (written self.old (at addr) (length result.now) w).state ≡ live_count self.old.state }
        ensures blocks { (w : List ℕ) → live_bytes (written self.old (at addr) (length result.now) w).state ≡ live_bytes self.old.state }
        ensures bounds { (w : List ℕ) (count size align : ℕ) → IsSizedFor SLLEN count size align self.old.state
            → IsSizedFor SLLEN count size align (written self.old (at addr) (length result.now) w).state }
        ensures lengths { (w : List ℕ) → length (bytes_at (written self.old (at addr) (length result.now) w).state (at addr)) ≡ length result.now }
        ensures rest { (w : List ℕ) → LeavesRest FLLEN SLLEN self.old (written self.old (at addr) (length result.now) w) }
    {
        let range = load_usable_bytes(&mut self.memory.inner, addr.get());
        self.memory.slice_mut(range)
    }

    /// Copies the first `len` bytes of the payload at `from` over the first `len` bytes of the payload at `to`. The other
    /// bytes of the payload at `to` are unchanged, and nothing else changes. `from` and `to` may be the same payload;
    /// then no byte changes.
    ///
    /// Both payloads must be live, with any alignment, and have at least `len` usable bytes.
    ///
    /// Takes time proportional to `len`: `len` bytes are copied, without a word access.
    ///
    /// From `crates/rlsf_test_tlsf/src/copies.rt`:
    ///
    /// ```
    /// let one = left(tlsf, layout, bytes.0)?;
    /// let two = left(tlsf, layout, bytes.1)?;
    /// tlsf.copy_payload(one, two, len);
    /// ```
    pub fn copy_payload(&mut self, from: Addr, to: Addr, len: usize)
        requires live { IsSome (align_at self.old.state (at from)) × IsSome (align_at self.old.state (at to)) }
        requires long { (len ≤ length (bytes_at self.old.state (at from))) × (len ≤ length (bytes_at self.old.state (at to))) }
        ensures step { Steps FLLEN SLLEN self.old self.new (Fills self.old.state (at to) (copied_over self.old.state (at from) (at to) len)) }
        ensures result { IsFilled self.old.state self.new.state (at to) (copied_over self.old.state (at from) (at to) len) }
        ensures bounds { KeepsAllBounds SLLEN self.old.state self.new.state }
        ensures frame { KeepsFrameCopying len self.old self.new }
        ensures touches { self.new.memory.touches ≡ self.old.memory.touches }
    {
        self.memory.inner.copy_within(
            Range {
                start: from.get(),
                len,
            },
            to.get(),
        );
    }

    /// Writes a spare word: one that belongs to no block, and that the allocator leaves to its caller. Nothing else
    /// changes. No other call changes a byte that is spare both before and after it.
    ///
    /// `addr` must be a multiple of 8, and the 8 bytes there must lie in the memory. Each of them must be spare: it lies
    /// in no chunk, or in the last 16 bytes of a sentinel.
    ///
    /// Completes in constant time: 1 word access.
    pub fn set_spare_word(&mut self, addr: usize, word: u64)
        requires { IsSpareWord self.old.memory self.old.state addr }
        ensures state { self.new.state ≡ self.old.state }
        ensures stands { Stands FLLEN SLLEN self.new }
        ensures bytes { self.new.memory.bytes ≡ with_word self.old.memory addr word }
        ensures place { SamePlace self.old.memory self.new.memory }
        ensures touches { self.new.memory.touches ≡ self.old.memory.touches + 1 }
        ensures copied { self.new.memory.copied ≡ self.old.memory.copied }
    {
        self.memory.inner.set_word(addr, word);
    }

    /// Returns the address of the newest free block of a class, given by its row `fl` and its index `sl` in the row.
    /// Returns `None` if and only if no block of the class is free. An allocation that uses a block of the class uses
    /// this one.
    ///
    /// `fl` must be below `FLLEN`, and `sl` below `SLLEN`.
    ///
    /// Completes in constant time.
    pub fn first_free(&self, fl: usize, sl: usize) -> Option<Addr>
        requires { (fl < FLLEN) × (sl < SLLEN) }
        ensures { reply result ≡ newest_of (of_class SLLEN fl sl self.now.state.free) }
    {
        NonZeroUsize::new(self.table.newest(fl, sl))
    }

    /// Returns the memory, for reading. The state is well-formed in it (`stands`), its words and the class table encode the state
    /// (`represented`), and the parameters are valid as for `new`.
    ///
    /// Completes in constant time.
    pub fn memory_ref(&self) -> &Memory
        ensures memory { result.now ≡ self.now.memory }
        ensures stands { Stands FLLEN SLLEN self.now }
        ensures represented { IsRepresented FLLEN SLLEN self.now }
        ensures valid { IsValid FLBitmap.width SLBitmap.width FLLEN SLLEN }
    {
        &self.memory
    }
}
