//! The allocator over a source.

ghost use Rattle.std.specs.Borrow.{sem};
ghost use Rattle.std.specs.Prelude.{◌≡◌, ◌≢◌, ◌≤◌, ◌<◌, ◌+◌, ◌*◌, ℕ, List, [], Some, None, length, IfNone, IfSome, IsSome};
ghost use Rattle.rlsf_base.specs.Addr.{at, reply};
ghost use Rattle.rlsf_base.specs.Range.{LiesIn};
ghost use Rattle.rlsf_model_sizes.specs.SizeClass.{IsValid};
ghost use Rattle.rlsf_base.specs.Space.{SamePlace};
ghost use Rattle.rlsf_blocks.specs.Spare.{KeepsSpare};
ghost use Rattle.rlsf_model.specs.Allocate.{HasRoomFor};
ghost use Rattle.rlsf_model.specs.Callers.{align_at, bytes_at, copied_over};
ghost use Rattle.rlsf_model.specs.End.{notes_at_end, owed_at_end};
ghost use Rattle.rlsf_model.specs.FlexAllocate.{FlexAllocates};
ghost use Rattle.rlsf_model.specs.FlexReallocate.{FlexReallocates};
ghost use Rattle.rlsf_model.specs.FlexState.{flex_empty};
ghost use Rattle.rlsf_model.specs.Note.{LeadsBy};
ghost use Rattle.rlsf_model.specs.NoMove.{ReallocatesWithoutMove};
ghost use Rattle.rlsf_model.specs.Reallocate.{HasRoomToResize, HasRoomToStay, Keeps};
ghost use Rattle.rlsf_model.specs.Release.{Deallocates};
ghost use Rattle.rlsf_model.specs.Sized.{live_count};
ghost use Rattle.rlsf_model.specs.Trim.{Trims};

use crate::end::{give_back, newest_range};
use crate::growth::move_payload;
use crate::parts::Parts;
use crate::ranges::GhostRanges;
use crate::source::{FlexSource, SourceChange};
use rlsf_base::classes::pool_size_to_contain_allocation;
use rlsf_base::memory::{Addr, Layout, Memory};
use rlsf_int::BitPattern;
use rlsf_tlsf::Tlsf;
use std::marker::{Model, PhantomData};

/// An allocator over a source: it asks the source for memory when it has no room.
///
/// The documentation of a call bounds its cost in word accesses, as that of `Tlsf` defines them. A call that inserts memory from the source has
/// no such bound.
pub struct FlexTlsf<
    S: FlexSource,
    FLBitmap: BitPattern,
    SLBitmap: BitPattern,
    const FLLEN: usize,
    const SLLEN: usize,
> {
    parts: Parts<S, FLLEN, SLLEN>,
    // Of no element: the types bound the lengths, and nothing is kept of them.
    bitmaps: [PhantomData<(FLBitmap, SLBitmap)>; 0],
}

impl<
    S: FlexSource,
    FLBitmap: BitPattern,
    SLBitmap: BitPattern,
    const FLLEN: usize,
    const SLLEN: usize,
> Model for FlexTlsf<S, FLBitmap, SLBitmap, FLLEN, SLLEN> {
    ghost use Rattle.rlsf_flex.specs.StandsFor.{FlexContents, flex_contents, IsFlexTlsf};

    ghost Value = { FlexContents S };

    ghost view = { λ f. flex_contents f.parts.tlsf f.parts.kept f.parts.source f.parts.owed.ranges };

    ghost invariant = { λ f. IsFlexTlsf FLBitmap.width SLBitmap.width FLLEN SLLEN S.terms S.owes (flex_contents f.parts.tlsf f.parts.kept f.parts.source f.parts.owed.ranges) };
}

impl<
    S: FlexSource,
    FLBitmap: BitPattern,
    SLBitmap: BitPattern,
    const FLLEN: usize,
    const SLLEN: usize,
> FlexTlsf<S, FLBitmap, SLBitmap, FLLEN, SLLEN> {
    ghost use Rattle.rlsf_tlsf.specs.Allocator.{IsRepresented};
    ghost use Rattle.rlsf_tlsf.specs.Bounds.{IfWithinBounds, KeepsAllBounds, KeepsBounds};
    ghost use Rattle.rlsf_tlsf.specs.Results.{IsAllocated, IsAllocatedWithZeros, IsDeallocated, IsFilled, IsReallocated, IsResized};
    ghost use Rattle.rlsf_flex.specs.Lending.{FlexLeavesRest, flex_lends_payload, flex_written};
    ghost use Rattle.rlsf_flex.specs.Results.{IsUnchangedButSource, KeepsFlexFrame, KeepsFlexFrameAlone, KeepsFlexFrameCopying};
    ghost use Rattle.rlsf_flex.specs.Results.{KeepsFlexFrameInPlace, KeepsFlexFrameMoving, KeepsFlexFrameOfTrim, SizesFreedRoom, SucceedsUnasked};
    ghost use Rattle.rlsf_flex.specs.StandsFor.{FillsAlone, FlexStands, FlexSteps, StepsAlone, allocator_of};

    /// Creates an allocator over the memory and a source of ranges of it. It asks for nothing yet.
    ///
    /// The parameters are valid. `FLLEN` is between 1 and the number of bits of `FLBitmap`. `SLLEN` is a power of two and at most the
    /// number of bits of `SLBitmap`. Nothing is outstanding at the source, and the space of the source lies in the memory.
    ///
    /// Takes time proportional to the number of classes, and accesses no word of the memory.
    ///
    /// From `crates/rlsf_example_functions/src/paged.rt`:
    ///
    /// ```
    /// let memory = Memory::new(alloc, 65536, len).ok()?;
    /// let space = Range { start: 65536, len };
    /// Some(FlexTlsf::new(memory, Source::new(space)))
    /// ```
    pub fn new(memory: Memory, source: S) -> Self
        requires valid { IsValid FLBitmap.width SLBitmap.width FLLEN SLLEN }
        requires nothing_owed { S.owes source [] }
        requires space { LiesIn (S.terms source).space memory.start (length memory.bytes) }
        ensures state { result.state ≡ flex_empty }
        ensures count { live_count result.state.machine ≡ 0 }
        ensures stands { FlexStands FLLEN SLLEN S.terms S.owes result }
        ensures source { result.source ≡ source }
        ensures memory { result.memory ≡ memory }
    {
        FlexTlsf {
            parts: Parts {
                tlsf: Tlsf::new(memory),
                kept: None,
                source,
                owed: GhostRanges::new(),
            },
            bitmaps: [],
        }
    }

    /// Returns the source, for reading.
    ///
    /// Completes in constant time.
    pub fn source_ref(&self) -> &S
        ensures source { result.now ≡ self.now.source }
        ensures stands { FlexStands FLLEN SLLEN S.terms S.owes self.now }
    {
        &self.parts.source
    }

    /// Returns the memory, for reading. Its words and the class table encode the state (`represented`).
    ///
    /// Completes in constant time.
    pub fn memory_ref(&self) -> &Memory
        ensures memory { result.now ≡ self.now.memory }
        ensures stands { FlexStands FLLEN SLLEN S.terms S.owes self.now }
        ensures represented { IsRepresented FLLEN SLLEN (allocator_of self.now) }
    {
        self.parts.tlsf.memory_ref()
    }

    /// Makes a change of the source once, and returns its result. Nothing else changes.
    ///
    /// Takes as long as the change does, and accesses no word of the memory.
    pub fn source_mut_unchecked<C: SourceChange<S>>(&mut self, change: C) -> C::Out
        ensures changes { C.changes change self.old.source result self.new.source }
        ensures terms { S.terms self.new.source ≡ S.terms self.old.source }
        ensures state { self.new.state ≡ self.old.state }
        ensures memory { self.new.memory ≡ self.old.memory }
        ensures table { self.new.table ≡ self.old.table }
        ensures stands { FlexStands FLLEN SLLEN S.terms S.owes self.new }
    {
        change.change(&mut self.parts.source)
    }

    /// Allocates a payload for a layout, as `Tlsf::allocate` does. If there is no room, the source is asked for more memory:
    ///
    /// - for growth of its newest range, once, if that is outstanding and the source can grow ranges.
    /// - else, or if no growth came, for a new range, once. This is skipped if the source is contiguous and its range is outstanding.
    ///
    /// If memory came, the allocation succeeds in it, whatever its length. Nothing is asked if no pool would suffice.
    ///
    /// Returns `None` exactly if there is no room and no memory came. Then the pools and all bytes are unchanged, and only the source was
    /// asked.
    ///
    /// Bytes outside of the outstanding ranges are unchanged, and so are bytes that belong to no block. One exception is the footer of the
    /// newest range: it is written if memory came and the source takes ranges back.
    ///
    /// Never refuses a payload within bounds that the pools are sized for (`IsSizedFor`). Then the source is asked nothing.
    ///
    /// If there is room, completes in constant time: at most 27 word accesses, whatever the pools contain. No byte is copied.
    ///
    /// From `crates/rlsf_example_functions/src/paged.rt`:
    ///
    /// ```
    /// let addr = flex.allocate(layout)?;
    /// flex.payload_mut(addr).fill(byte);
    /// ```
    pub fn allocate(&mut self, layout: Layout) -> Option<Addr>
        ensures step { FlexSteps FLLEN SLLEN S.terms S.owes S.leads self.old self.new
            (FlexAllocates FLLEN SLLEN (S.terms self.old.source) self.old.state layout.size layout.align (reply result)) }
        ensures result { IfSome result (λ addr. IsAllocated self.old.state.machine self.new.state.machine layout.size layout.align (at addr)) }
        ensures room { SucceedsUnasked SLLEN self.old self.new layout.size layout.align (IsSome result) }
        ensures bounds { KeepsBounds SLLEN self.old.state.machine self.new.state.machine layout.size layout.align }
        ensures refused { IfNone result (IsUnchangedButSource self.old self.new) }
        ensures frame { KeepsFlexFrame self.old self.new }
        ensures touches { HasRoomFor SLLEN self.old.state.machine layout.size layout.align → self.new.memory.touches ≤ self.old.memory.touches + 27 }
    {
        if let Some(addr) = self.parts.tlsf.allocate(layout) {
            return Some(addr);
        }
        let wanted = pool_size_to_contain_allocation::<FLBitmap, SLBitmap, FLLEN, SLLEN>(layout)?;
        if self.parts.extend(wanted) {
            self.parts.tlsf.allocate(layout)
        } else {
            None
        }
    }

    /// Allocates a payload for a layout, as `allocate` does, and fills all its usable bytes with zeros. Returns its address.
    ///
    /// Returns `None` exactly if `allocate` does. Then the pools and all bytes are unchanged, and only the source was asked.
    ///
    /// If there is room, at most 30 word accesses, whatever the pools contain, and time proportional to the usable bytes. No byte is copied.
    pub fn allocate_zeroed(&mut self, layout: Layout) -> Option<Addr>
        ensures step { FlexSteps FLLEN SLLEN S.terms S.owes S.leads self.old self.new
            (FlexAllocates FLLEN SLLEN (S.terms self.old.source) self.old.state layout.size layout.align (reply result)) }
        ensures result { IfSome result (λ addr. IsAllocatedWithZeros self.old.state.machine self.new.state.machine layout.size layout.align (at addr)) }
        ensures room { SucceedsUnasked SLLEN self.old self.new layout.size layout.align (IsSome result) }
        ensures bounds { KeepsBounds SLLEN self.old.state.machine self.new.state.machine layout.size layout.align }
        ensures refused { IfNone result (IsUnchangedButSource self.old self.new) }
        ensures frame { KeepsFlexFrame self.old self.new }
        ensures touches { HasRoomFor SLLEN self.old.state.machine layout.size layout.align → self.new.memory.touches ≤ self.old.memory.touches + 30 }
    {
        // Opens the invariant for the prover: the parameters are valid, and the parts represent the state.
        let _ = &self.parts;
        let addr = self.allocate(layout)?;
        self.payload_mut(addr).fill(0);
        Some(addr)
    }

    /// Deallocates a payload, as `Tlsf::deallocate` does. The source is asked nothing.
    ///
    /// Afterwards the pools are sized for some bounds (`IsSizedFor`) if no other payload was live, and the payload was long enough. Long
    /// enough means that its usable bytes and 48 more are at least `pool_size_for_payloads` of these bounds. So a program can obtain memory
    /// before it needs it: it allocates one long payload and deallocates it.
    ///
    /// The address is live, and `align` is its alignment.
    ///
    /// Completes in constant time: at most 32 word accesses, whatever the pools contain. No byte is copied.
    ///
    /// From `crates/rlsf_example_functions/src/paged.rt`:
    ///
    /// ```
    /// let read = flex.payload(addr)[offset];
    /// flex.deallocate(addr, layout.align());
    /// Some(read)
    /// ```
    pub fn deallocate(&mut self, addr: Addr, align: usize)
        requires { align_at self.old.state.machine (at addr) ≡ Some align }
        ensures step { StepsAlone FLLEN SLLEN S.terms S.owes self.old self.new (Deallocates self.old.state.machine (at addr)) }
        ensures result { IsDeallocated self.old.state.machine self.new.state.machine (at addr) }
        ensures room { SizesFreedRoom FLLEN SLLEN self.old.state.machine self.new.state.machine (at addr) }
        ensures bounds { KeepsAllBounds SLLEN self.old.state.machine self.new.state.machine }
        ensures frame { KeepsFlexFrameAlone self.old self.new }
        ensures touches { self.new.memory.touches ≤ self.old.memory.touches + 32 }
    {
        self.parts.tlsf.deallocate(addr, align);
    }

    /// Deallocates a payload, as `deallocate` does, for a caller that doesn't know its alignment. The state afterwards is the same.
    ///
    /// The address is live, with any alignment.
    ///
    /// Completes in constant time: at most 33 word accesses, whatever the pools contain. No byte is copied.
    pub fn deallocate_unknown_align(&mut self, addr: Addr)
        requires { IsSome (align_at self.old.state.machine (at addr)) }
        ensures step { StepsAlone FLLEN SLLEN S.terms S.owes self.old self.new (Deallocates self.old.state.machine (at addr)) }
        ensures result { IsDeallocated self.old.state.machine self.new.state.machine (at addr) }
        ensures room { SizesFreedRoom FLLEN SLLEN self.old.state.machine self.new.state.machine (at addr) }
        ensures bounds { KeepsAllBounds SLLEN self.old.state.machine self.new.state.machine }
        ensures frame { KeepsFlexFrameAlone self.old self.new }
        ensures touches { self.new.memory.touches ≤ self.old.memory.touches + 33 }
    {
        self.parts.tlsf.deallocate_unknown_align(addr);
    }

    /// Changes the size of a payload, as `Tlsf::reallocate` does if there is room. Else the source is asked for more memory, as `allocate`
    /// does. If memory came, the payload moves there with all its bytes.
    ///
    /// Returns `None` exactly if there is no room and no memory came. Then the payload, the pools and all bytes are unchanged, and only the
    /// source was asked.
    ///
    /// Bytes outside of the outstanding ranges are unchanged, and so are bytes that belong to no block. One exception is the footer of the
    /// newest range: it is written if memory came and the source takes ranges back.
    ///
    /// Never refuses a payload within bounds that the pools are sized for (`IsSizedFor`). Then the source is asked nothing.
    ///
    /// The address is live, with the alignment of the layout.
    ///
    /// If there is room, at most 66 word accesses, whatever the pools contain, and at most the bytes that the payload had are copied. None is
    /// copied if there is room for it to stay.
    ///
    /// From `crates/rlsf_test_flex/src/loans.rt`:
    ///
    /// ```
    /// let to = flex.reallocate(addr, bytes(500))?;
    /// let after = reads(flex, to, 528, 7);
    /// ```
    pub fn reallocate(&mut self, addr: Addr, layout: Layout) -> Option<Addr>
        requires { align_at self.old.state.machine (at addr) ≡ Some layout.align }
        ensures step { FlexSteps FLLEN SLLEN S.terms S.owes S.leads self.old self.new
            (FlexReallocates FLLEN SLLEN (S.terms self.old.source) self.old.state (at addr) layout.size (reply result)) }
        ensures result { IfSome result (λ to. IsReallocated self.old.state.machine self.new.state.machine (at addr) layout.size layout.align (at to)) }
        ensures room { SucceedsUnasked SLLEN self.old self.new layout.size layout.align (IsSome result) }
        ensures bounds { KeepsBounds SLLEN self.old.state.machine self.new.state.machine layout.size layout.align }
        ensures refused { IfNone result (IsUnchangedButSource self.old self.new) }
        ensures frame { KeepsFlexFrameMoving SLLEN (at addr) layout.size self.old self.new }
        ensures touches { HasRoomToResize SLLEN self.old.state.machine (at addr) layout.size
            → self.new.memory.touches ≤ self.old.memory.touches + 66 }
    {
        if let Some(moved) = self.parts.tlsf.reallocate(addr, layout) {
            return Some(moved);
        }
        let wanted = pool_size_to_contain_allocation::<FLBitmap, SLBitmap, FLLEN, SLLEN>(layout)?;
        if self.parts.extend(wanted) {
            move_payload(&mut self.parts.tlsf, addr, layout)
        } else {
            None
        }
    }

    /// Changes the size of a payload without moving it, as `Tlsf::reallocate_no_move` does. The source is asked nothing.
    ///
    /// Returns `None` exactly if the bytes there don't suffice. Then nothing changes.
    ///
    /// The address is live, with the alignment of the layout.
    ///
    /// Completes in constant time: at most 25 word accesses, whatever the pools contain. No byte is copied.
    pub fn reallocate_no_move(&mut self, addr: Addr, layout: Layout) -> Option<Addr>
        requires { align_at self.old.state.machine (at addr) ≡ Some layout.align }
        ensures step { StepsAlone FLLEN SLLEN S.terms S.owes self.old self.new (ReallocatesWithoutMove self.old.state.machine (at addr) layout.size (reply result)) }
        ensures result { IfSome result (λ to. IsResized self.old.state.machine self.new.state.machine (at addr) layout.size (at to)) }
        ensures bounds { KeepsBounds SLLEN self.old.state.machine self.new.state.machine layout.size layout.align }
        ensures refused { IfNone result (IsUnchangedButSource self.old self.new) }
        ensures frame { KeepsFlexFrameInPlace (at addr) layout.align self.old self.new }
        ensures touches { self.new.memory.touches ≤ self.old.memory.touches + 25 }
    {
        self.parts.tlsf.reallocate_no_move(addr, layout)
    }

    /// Returns the number of usable bytes of the payload at `addr`: those from `addr` to the end of its block. They are at least those
    /// requested, and less than 32 more.
    ///
    /// The address is live, with any alignment.
    ///
    /// Completes in constant time.
    pub fn allocation_usable_size(&self, addr: Addr) -> usize
        requires { IsSome (align_at self.now.state.machine (at addr)) }
        ensures { result ≡ length (bytes_at self.now.state.machine (at addr)) }
    {
        self.parts.tlsf.allocation_usable_size(addr)
    }

    /// Returns all usable bytes of the payload at `addr`: those from `addr` to the end of its block.
    ///
    /// The address is live, with any alignment.
    ///
    /// Completes in constant time.
    pub fn payload(&self, addr: Addr) -> &[u8]
        requires { IsSome (align_at self.now.state.machine (at addr)) }
        ensures { result.now ≡ bytes_at self.now.state.machine (at addr) }
    {
        self.parts.tlsf.payload(addr)
    }

    /// Returns all usable bytes of the payload at `addr`, for writing: those from `addr` to the end of its block. The payload then holds
    /// what was written. Nothing else changes.
    ///
    /// The address is live, with any alignment.
    ///
    /// Completes in constant time: 3 word accesses. No byte is copied.
    pub fn payload_mut(&mut self, addr: Addr) -> &mut [u8]
        requires { IsSome (align_at self.old.state.machine (at addr)) }
        ensures* writes_back { sem 𝓛 (flex_lends_payload S.row FLBitmap.row SLBitmap.row FLLEN.row SLLEN.row S.FlexSource FLBitmap.BitPattern SLBitmap.BitPattern self.entry (at addr) result) }
        ensures value { result.now ≡ bytes_at self.old.state.machine (at addr) }
        ensures meaning { (w : List ℕ) → length w ≡ length result.now
            → FillsAlone FLLEN SLLEN S.terms S.owes self.old (flex_written self.old (at addr) (length result.now) w) (at addr) w }
        ensures filled { (w : List ℕ) → length w ≡ length result.now → bytes_at (flex_written self.old (at addr) (length result.now) w).state.machine (at addr) ≡ w }
        ensures bytes { (w : List ℕ) (a : ℕ) → a ≢ at addr → bytes_at (flex_written self.old (at addr) (length result.now) w).state.machine a ≡ bytes_at self.old.state.machine a }
        ensures aligns { (w : List ℕ) → align_at (flex_written self.old (at addr) (length result.now) w).state.machine ≡ align_at self.old.state.machine }
        ensures count { (w : List ℕ) → live_count (flex_written self.old (at addr) (length result.now) w).state.machine ≡ live_count self.old.state.machine }
        ensures bounds { (w : List ℕ) → KeepsAllBounds SLLEN self.old.state.machine (flex_written self.old (at addr) (length result.now) w).state.machine }
        ensures lengths { (w : List ℕ) → length (bytes_at (flex_written self.old (at addr) (length result.now) w).state.machine (at addr)) ≡ length result.now }
        ensures rest { (w : List ℕ) → FlexLeavesRest FLLEN SLLEN S.terms S.owes self.old (flex_written self.old (at addr) (length result.now) w) }
    {
        self.parts.tlsf.payload_mut(addr)
    }

    /// Copies the first `len` bytes of the payload at `from` over the first bytes of the payload at `to`. The other bytes of `to` are
    /// unchanged, and so is everything else. If both are one payload, no byte changes.
    ///
    /// Both addresses are live, with any alignment, and both payloads have at least `len` usable bytes.
    ///
    /// Takes time proportional to `len`: `len` bytes are copied, without a word access.
    pub fn copy_payload(&mut self, from: Addr, to: Addr, len: usize)
        requires live { IsSome (align_at self.old.state.machine (at from)) × IsSome (align_at self.old.state.machine (at to)) }
        requires long { (len ≤ length (bytes_at self.old.state.machine (at from))) × (len ≤ length (bytes_at self.old.state.machine (at to))) }
        ensures step { FillsAlone FLLEN SLLEN S.terms S.owes self.old self.new (at to) (copied_over self.old.state.machine (at from) (at to) len) }
        ensures result { IsFilled self.old.state.machine self.new.state.machine (at to) (copied_over self.old.state.machine (at from) (at to) len) }
        ensures bounds { KeepsAllBounds SLLEN self.old.state.machine self.new.state.machine }
        ensures frame { KeepsFlexFrameCopying len self.old self.new }
        ensures touches { self.new.memory.touches ≡ self.old.memory.touches }
    {
        self.parts.tlsf.copy_payload(from, to, len);
    }

    /// Returns the newest range to the source, as long as that holds no used block. Each range is returned once, with its chunks and free
    /// blocks, the newest first. The result is the number of these ranges. The newest range that is left is the one that may grow.
    ///
    /// Payloads are unchanged, and so is every byte that belongs to no block before and after.
    ///
    /// Returns 0 exactly if the source doesn't take ranges back, the newest range holds a used block, or none is outstanding. Then nothing
    /// changes.
    ///
    /// At most 9 word accesses for each chunk that it removes. The time of the iteration over blocks isn't counted, and has no bound. No byte is
    /// copied.
    ///
    /// From `crates/rlsf_test_flex/src/trims.rt`:
    ///
    /// ```
    /// flex.deallocate(newer, 1);
    /// let one_left = flex.trim();
    /// ```
    pub fn trim(&mut self) -> usize
        ensures step { FlexSteps FLLEN SLLEN S.terms S.owes S.leads self.old self.new (Trims (S.terms self.old.source) self.old.state result) }
        ensures refused { result ≡ 0 → self.new ≡ self.old }
        ensures frame { KeepsFlexFrameOfTrim self.old self.new }
        ensures touches { self.new.memory.touches + 9 * length self.new.state.machine.chunks ≤ self.old.memory.touches + 9 * length self.old.state.machine.chunks }
    {
        if self.parts.source.supports_dealloc() {
            self.parts.give_idle_back()
        } else {
            0
        }
    }

    /// Ends the allocator, and returns its memory and its source. If the source takes ranges back, each outstanding range is returned to it
    /// exactly once, as it has grown, the newest first. Payloads may be live.
    ///
    /// Counts no word access, and calls the source at most once for each outstanding range.
    pub fn into_parts(self) -> (Memory, S)
        ensures memory { result.0 ≡ self.memory }
        ensures leads { LeadsBy S.leads self.source (notes_at_end (S.terms self.source) self.state.pools) result.1 }
        ensures owes { S.owes result.1 (owed_at_end (S.terms self.source) self.state.pools) }
    {
        let FlexTlsf {
            parts,
            bitmaps: _bitmaps,
        } = self;
        let Parts {
            tlsf,
            kept,
            mut source,
            owed: _owed,
        } = parts;
        let memory = tlsf.into_memory();
        if source.supports_dealloc() {
            give_back(&memory, &mut source, newest_range(kept));
        }
        (memory, source)
    }
}

/// Does what `into_parts` does: the outstanding ranges are returned to the source.
impl<
    S: FlexSource + Drop,
    FLBitmap: BitPattern,
    SLBitmap: BitPattern,
    const FLLEN: usize,
    const SLLEN: usize,
> Drop for FlexTlsf<S, FLBitmap, SLBitmap, FLLEN, SLLEN> {
    fn drop(self) {
        let _ = self.into_parts();
    }
}
