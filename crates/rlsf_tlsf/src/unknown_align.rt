//! Reallocation of a payload whose alignment the caller does not know.

ghost use Rattle.std.specs.Prelude.{◌≤◌, ◌<◌, ◌+◌, None, Some, IfNone, IfSome, IsSome};
ghost use Rattle.rlsf_base.specs.Addr.{at, reply};
ghost use Rattle.rlsf_model.specs.Callers.{align_at};

use crate::core_calls::reallocate_unknown_align_in;
use crate::tlsf::Tlsf;
use rlsf_base::memory::{Addr, Layout};
use rlsf_int::BitPattern;
use std::num::NonZeroUsize;

impl<FLBitmap: BitPattern, SLBitmap: BitPattern, const FLLEN: usize, const SLLEN: usize> Tlsf<
    FLBitmap,
    SLBitmap,
    FLLEN,
    SLLEN,
> {
    ghost use Rattle.rlsf_tlsf.specs.Allocator.{Steps};
    ghost use Rattle.rlsf_tlsf.specs.Bounds.{HasRoom, KeepsBoundsAnyAlign};
    ghost use Rattle.rlsf_tlsf.specs.Results.{IsReallocatedAnyAlign, IsUnchanged, KeepsFrameMoving};
    ghost use Rattle.rlsf_tlsf.specs.UnknownAlign.{ReallocatesAnyAlign};

    /// Changes the size of the payload at `addr` to that of `layout`, as `reallocate` does, if the caller does not know the
    /// payload's alignment. Returns its address. The first bytes are kept, as many as both sizes have. The payload takes the
    /// first of these places that is large enough:
    /// - It stays at its address, with the bytes of its block and of a free block behind it. It keeps its alignment.
    /// - It moves into a newly allocated block, by the alignment of `layout`, and the old block is deallocated.
    ///
    /// It does not move into the free block before it, since its place there would depend on its alignment.
    ///
    /// Returns `None` if and only if this allocation is refused; then nothing changes. Within bounds that the allocator
    /// is sized for (`IsSizedFor`), or within a budget (`IsSizedForBudget`), a reallocation is never refused.
    ///
    /// The payload at `addr` must be live, with any alignment.
    ///
    /// At most 63 word accesses, whatever the pools contain. If the payload stays, no byte is copied. If it moves, at most the
    /// bytes that it had are copied.
    ///
    /// From `crates/rlsf_test_tlsf/src/reallocations.rt`:
    ///
    /// ```
    /// let moved = tlsf.reallocate_unknown_align(addr, wanted);
    /// let now = moved.unwrap_or(addr);
    /// ```
    #[tactic(auto, using(crate::proofs::Whole::none_again, crate::proofs::Whole::allocator_again))]
    pub fn reallocate_unknown_align(&mut self, addr: Addr, layout: Layout) -> Option<Addr>
        requires { IsSome (align_at self.old.state (at addr)) }
        ensures step { Steps FLLEN SLLEN self.old self.new (ReallocatesAnyAlign SLLEN self.old.state (at addr) layout.size layout.align (reply result)) }
        ensures result { IfSome result (λ to. IsReallocatedAnyAlign self.old.state self.new.state (at addr) layout.size layout.align (at to)) }
        ensures room { HasRoom SLLEN self.old.state layout.size layout.align (IsSome result) }
        ensures bounds { KeepsBoundsAnyAlign SLLEN self.old.state (at addr) layout.size layout.align self.new.state }
        ensures refused { IfNone result (IsUnchanged self.old self.new) }
        ensures frame { KeepsFrameMoving (at addr) layout.size self.old self.new }
        ensures touches { self.new.memory.touches ≤ self.old.memory.touches + 63 }
    {
        match reallocate_unknown_align_in(
            &mut self.memory.inner,
            &mut self.table,
            &mut self.state,
            addr.get(),
            layout,
        ) {
            Some(to) => NonZeroUsize::new(to),
            None => None,
        }
    }
}
