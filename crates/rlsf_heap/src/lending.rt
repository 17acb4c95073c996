//! Heaps over addresses at which bytes are lent to them, a range at a time.
ghost use Rattle.std.specs.Prelude.{◌≡◌, ◌≤◌, [], true, length, IfNone, IfSome};
ghost use Rattle.rlsf_base.specs.OpenSpace.{home_of, IsOwned};
ghost use Rattle.rlsf_base.specs.Piece.{piece_range, IsFull};
ghost use Rattle.rlsf_base.specs.declared.memory.range.Range.{Range};
ghost use Rattle.rlsf_base.specs.Range.{AreApart, LiesIn, range_at};
ghost use Rattle.rlsf_model_sizes.specs.SizeClass.{IsValid};
ghost use Rattle.rlsf_model.specs.Insert.{IsUntouched};
ghost use Rattle.rlsf_model.specs.Remove.{IsIdle};
ghost use Rattle.rlsf_model.specs.Sized.{live_count};
ghost use Rattle.rlsf_model.specs.State.{empty};
ghost use Rattle.rlsf_blocks.specs.Blocks.{walked};
ghost use Rattle.rlsf_heap.specs.Lending.{HasPool, IsLentTo, IsReclaimed, KeepsPlace, KeepsPools, ReclaimsPool};
ghost use Rattle.rlsf_heap.specs.Settled.{IsSettled};

use crate::heap::Heap;
use rlsf_base::memory::ledger::Ledger;
use rlsf_base::memory::{OpenMemory, Part, Range};
use rlsf_int::BitPattern;
use rlsf_table::ClassTable;
use rlsf_tlsf::GhostState;

impl<FLBitmap: BitPattern, SLBitmap: BitPattern, const FLLEN: usize, const SLLEN: usize> Heap<
    FLBitmap,
    SLBitmap,
    FLLEN,
    SLLEN,
> {
    ghost use Rattle.rlsf_heap.specs.Heap.{IsLent, Stands};

    /// Creates a heap over the addresses of `memory`, of which bytes may be out. It has no pool. The bytes that `memory` owns are lent
    /// to it, and more can be by `lend`.
    ///
    /// The parameters must be valid, as for `new`.
    ///
    /// Takes time proportional to the number of classes, and accesses no word of the memory.
    ///
    /// From `crates/rlsf_example_tenants/src/lent.rt`:
    ///
    /// ```
    /// let memory = OpenMemory::new(alloc, 4096, 65536).ok()?;
    /// with_first(Small::over_lent(memory), layout)
    /// ```
    pub fn over_lent(memory: OpenMemory) -> Self
        requires { IsValid FLBitmap.width SLBitmap.width FLLEN SLLEN }
        ensures state { result.state ≡ empty }
        ensures untouched { (r : Range) → IsUntouched result.state.chunks r }
        ensures stands { Stands FLLEN SLLEN result }
        ensures count { live_count result.state ≡ 0 }
        ensures memory { (result.memory ≡ memory) × (result.identity.home ≡ home_of memory) }
        ensures bytes { ((r : Range) → IsOwned memory r → LiesIn r memory.start (length memory.bytes) → IsLent result r) × (memory.out ≡ [] → IsSettled result.memory) }
        ensures lent { result.lent ≡ true }
    {
        // Opens the memory's invariant for the prover: no address is 0, and each fits in a word.
        let _ = memory.start();
        Heap {
            memory,
            table: ClassTable::new(),
            state: GhostState::new(),
            ledger: Ledger::new(),
            live: 0,
            lent: true,
            bitmaps: [],
        }
    }

    /// Lends the bytes of `part` to the heap: its memory owns them from now on, so that a range of them can be inserted. They weren't
    /// its own. Nothing else changes.
    ///
    /// `part` must be of this heap's memory, without raw bytes, and none of its bytes in a chunk.
    ///
    /// Completes in constant time, without a word access.
    ///
    /// From `crates/rlsf_example_tenants/src/lent.rt`:
    ///
    /// ```
    /// heap.lend(first);
    /// let taken = heap.insert_free_block_ptr(FIRST)?;
    /// ```
    pub fn lend(&mut self, part: Part)
        requires home { part.home ≡ self.old.identity.home }
        requires full { IsFull part }
        requires lies_in { LiesIn (piece_range part) self.old.memory.start (length self.old.memory.bytes) }
        requires untouched { IsUntouched self.old.state.chunks (piece_range part) }
        ensures stands { Stands FLLEN SLLEN self.new }
        ensures lent { IsLentTo self.old self.new part }
        ensures range { (r : Range) → (r.start ≡ part.start) × (r.len ≡ length part.bytes) → IsLent self.new r }
        ensures others { (r : Range) → IsLent self.old r → IsLent self.new r }
    {
        self.memory.put_back(part);
    }

    /// Returns the bytes of a range in no chunk that are lent to the heap. No later call accesses them until they are lent again.
    /// Nothing else changes.
    ///
    /// The range must lie in the memory and overlap no chunk, and its bytes must be lent.
    ///
    /// Completes in constant time, without a word access.
    pub fn reclaim(&mut self, range: Range) -> Part
        requires lies_in { LiesIn range self.old.memory.start (length self.old.memory.bytes) }
        requires untouched { IsUntouched self.old.state.chunks range }
        requires range { IsLent self.old range }
        requires lent { self.old.lent ≡ true }
        ensures stands { Stands FLLEN SLLEN self.new }
        ensures reclaimed { IsReclaimed self.old self.new range result }
        ensures others { (r : Range) → IsLent self.old r → AreApart range r → IsLent self.new r }
    {
        self.memory.take_out(range)
    }

    /// Removes the pool of a range, and returns the bytes of the whole range, as `reclaim` does, if no block in the pool is used.
    /// Otherwise returns `None`; then nothing changes.
    ///
    /// `taken` is the number of bytes that the insertion of the range returned, or 0 if it made no chunk (`HasPool`). The range must
    /// lie in the memory, and its bytes must be lent.
    ///
    /// Takes at most 9 word accesses for each chunk that it removes, and looks at each block of the pool up to the first used one.
    ///
    /// From `crates/rlsf_example_tenants/src/lent.rt`:
    ///
    /// ```
    /// heap.deallocate(payload);
    /// let part = heap.reclaim_pool(FIRST, taken.get())?;
    /// ```
    pub fn reclaim_pool(&mut self, range: Range, taken: usize) -> Option<Part>
        requires lies_in { LiesIn range self.old.memory.start (length self.old.memory.bytes) }
        requires pool { HasPool self.old.state.chunks range taken }
        requires range { IsLent self.old range }
        requires lent { self.old.lent ≡ true }
        ensures stands { Stands FLLEN SLLEN self.new }
        ensures reclaimed { IfSome result (λ p. IsIdle self.old.state (walked (range_at range.start taken)) × ReclaimsPool self.old self.new range taken p) }
        ensures refused { IfNone result ((IsIdle self.old.state (walked (range_at range.start taken)) → ⊥) × (self.new ≡ self.old)) }
        ensures heap { KeepsPlace self.old self.new }
        ensures others { (r : Range) → IsLent self.old r → AreApart range r → IsLent self.new r }
        ensures pools { KeepsPools self.old.state.chunks self.new.state.chunks range }
        ensures untouched { (r : Range) → IsUntouched self.old.state.chunks r → IsUntouched self.new.state.chunks r }
    {
        let pool = Range {
            start: range.start,
            len: taken,
        };
        if self.try_remove_pool(pool) {
            Some(self.reclaim(range))
        } else {
            None
        }
    }
}
