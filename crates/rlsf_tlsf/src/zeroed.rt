//! Allocation of a payload whose bytes are zeros.

ghost use Rattle.std.specs.Prelude.{◌≤◌, ◌+◌, IfNone, IfSome, IsSome};
ghost use Rattle.rlsf_base.specs.Addr.{at, reply};
ghost use Rattle.rlsf_model.specs.Allocate.{Allocates};

use crate::tlsf::Tlsf;
use rlsf_base::memory::{Addr, Layout};
use rlsf_int::BitPattern;

impl<FLBitmap: BitPattern, SLBitmap: BitPattern, const FLLEN: usize, const SLLEN: usize> Tlsf<
    FLBitmap,
    SLBitmap,
    FLLEN,
    SLLEN,
> {
    ghost use Rattle.rlsf_tlsf.specs.Allocator.{Steps};
    ghost use Rattle.rlsf_tlsf.specs.Bounds.{KeepsBounds, TakesRoom};
    ghost use Rattle.rlsf_tlsf.specs.Results.{IsAllocatedWithZeros, IsUnchanged, KeepsFrame};

    /// Allocates a payload for `layout`, as `allocate` does, and fills all its usable bytes with zeros. Returns its address.
    ///
    /// Returns `None` if and only if `allocate` does; then nothing changes.
    ///
    /// At most 30 word accesses, whatever the pools contain, and time proportional to the usable bytes. No byte is copied.
    ///
    /// From `crates/rlsf_test_tlsf/src/loans.rt`:
    ///
    /// ```
    /// let addr = tlsf.allocate_zeroed(layout)?;
    /// let bytes = tlsf.payload(addr);
    /// ```
    pub fn allocate_zeroed(&mut self, layout: Layout) -> Option<Addr>
        ensures step { Steps FLLEN SLLEN self.old self.new (Allocates SLLEN self.old.state layout.size layout.align (reply result)) }
        ensures result { IfSome result (λ addr. IsAllocatedWithZeros self.old.state self.new.state layout.size layout.align (at addr)) }
        ensures room { TakesRoom SLLEN self.old.state self.new.state layout.size layout.align (IsSome result) }
        ensures bounds { KeepsBounds SLLEN self.old.state self.new.state layout.size layout.align }
        ensures refused { IfNone result (IsUnchanged self.old self.new) }
        ensures frame { KeepsFrame self.old self.new }
        ensures touches { self.new.memory.touches ≤ self.old.memory.touches + 30 }
    {
        // Opens the invariant for the prover: memory and table represent the state.
        let _ = self.memory_ref();
        let addr = self.allocate(layout)?;
        self.payload_mut(addr).fill(0);
        Some(addr)
    }
}
