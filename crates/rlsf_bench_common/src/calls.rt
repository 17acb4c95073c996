//! How the steps call the allocator: each function makes the call of `Tlsf` with its name. The call is in place or, if `CALLED`, in
//! a function that is never inlined. The compiler decides this, so a program has only one of the two.

ghost use Rattle.std.specs.Prelude.{◌≡◌, Some};
ghost use Rattle.rlsf_base.specs.Addr.{at, reply};
ghost use Rattle.rlsf_model.specs.Allocate.{Allocates};
ghost use Rattle.rlsf_model.specs.Callers.{align_at};
ghost use Rattle.rlsf_model.specs.Reallocate.{Reallocates};
ghost use Rattle.rlsf_model.specs.Release.{Deallocates};
ghost use Rattle.rlsf_tlsf.specs.Allocator.{Steps};

use rlsf_base::memory::{Addr, Layout};
use rlsf_int::BitPattern;
use rlsf_tlsf::Tlsf;

/// Allocates a payload.
#[inline(always)]
pub(crate) fn allocate<
    FLBitmap: BitPattern,
    SLBitmap: BitPattern,
    const FLLEN: usize,
    const SLLEN: usize,
    const CALLED: bool,
>(tlsf: &mut Tlsf<FLBitmap, SLBitmap, FLLEN, SLLEN>, layout: Layout) -> Option<Addr>
    ensures { Steps FLLEN SLLEN tlsf.old tlsf.new (Allocates SLLEN tlsf.old.state layout.size layout.align (reply result)) }
{
    if CALLED {
        called_allocate(tlsf, layout)
    } else {
        tlsf.allocate(layout)
    }
}

#[inline(never)]
fn called_allocate<
    FLBitmap: BitPattern,
    SLBitmap: BitPattern,
    const FLLEN: usize,
    const SLLEN: usize,
>(tlsf: &mut Tlsf<FLBitmap, SLBitmap, FLLEN, SLLEN>, layout: Layout) -> Option<Addr>
    ensures { Steps FLLEN SLLEN tlsf.old tlsf.new (Allocates SLLEN tlsf.old.state layout.size layout.align (reply result)) }
{
    tlsf.allocate(layout)
}

/// Deallocates a payload, which is live with this alignment.
#[inline(always)]
pub(crate) fn deallocate<
    FLBitmap: BitPattern,
    SLBitmap: BitPattern,
    const FLLEN: usize,
    const SLLEN: usize,
    const CALLED: bool,
>(tlsf: &mut Tlsf<FLBitmap, SLBitmap, FLLEN, SLLEN>, addr: Addr, align: usize)
    requires { align_at tlsf.old.state (at addr) ≡ Some align }
    ensures { Steps FLLEN SLLEN tlsf.old tlsf.new (Deallocates tlsf.old.state (at addr)) }
{
    if CALLED {
        called_deallocate(tlsf, addr, align);
    } else {
        tlsf.deallocate(addr, align);
    }
}

#[inline(never)]
fn called_deallocate<
    FLBitmap: BitPattern,
    SLBitmap: BitPattern,
    const FLLEN: usize,
    const SLLEN: usize,
>(tlsf: &mut Tlsf<FLBitmap, SLBitmap, FLLEN, SLLEN>, addr: Addr, align: usize)
    requires { align_at tlsf.old.state (at addr) ≡ Some align }
    ensures { Steps FLLEN SLLEN tlsf.old tlsf.new (Deallocates tlsf.old.state (at addr)) }
{
    tlsf.deallocate(addr, align);
}

/// Gives a payload, which is live with the layout's alignment, another size.
#[inline(always)]
pub(crate) fn reallocate<
    FLBitmap: BitPattern,
    SLBitmap: BitPattern,
    const FLLEN: usize,
    const SLLEN: usize,
    const CALLED: bool,
>(tlsf: &mut Tlsf<FLBitmap, SLBitmap, FLLEN, SLLEN>, addr: Addr, layout: Layout) -> Option<Addr>
    requires { align_at tlsf.old.state (at addr) ≡ Some layout.align }
    ensures { Steps FLLEN SLLEN tlsf.old tlsf.new (Reallocates SLLEN tlsf.old.state (at addr) layout.size (reply result)) }
{
    if CALLED {
        called_reallocate(tlsf, addr, layout)
    } else {
        tlsf.reallocate(addr, layout)
    }
}

#[inline(never)]
fn called_reallocate<
    FLBitmap: BitPattern,
    SLBitmap: BitPattern,
    const FLLEN: usize,
    const SLLEN: usize,
>(tlsf: &mut Tlsf<FLBitmap, SLBitmap, FLLEN, SLLEN>, addr: Addr, layout: Layout) -> Option<Addr>
    requires { align_at tlsf.old.state (at addr) ≡ Some layout.align }
    ensures { Steps FLLEN SLLEN tlsf.old tlsf.new (Reallocates SLLEN tlsf.old.state (at addr) layout.size (reply result)) }
{
    tlsf.reallocate(addr, layout)
}
