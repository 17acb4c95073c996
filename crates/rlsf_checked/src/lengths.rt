//! Lengths of pools, for any parameters.

ghost use Rattle.std.specs.Prelude.{◌≡◌, None};
ghost use Rattle.rlsf_model_sizes.specs.SizeClass.{IsValid};
ghost use Rattle.rlsf_model_sizes.specs.Sizes.{pool_size_for_budget, pool_size_for_payloads, pool_size_to_contain_allocation};

use crate::checked::CheckedTlsf;
use crate::classes::are_valid;
use rlsf_base::classes;
use rlsf_base::memory::Layout;
use rlsf_int::Bitmap;

impl<FLBitmap: Bitmap, SLBitmap: Bitmap, const FLLEN: usize, const SLLEN: usize> CheckedTlsf<
    FLBitmap,
    SLBitmap,
    FLLEN,
    SLLEN,
> {
    /// Returns the length in bytes of a pool that refuses no payload of up to the size and alignment of the layout. This holds while at
    /// most `count` payloads are live before each allocation and each reallocation. The pool starts at a multiple of 32.
    ///
    /// Returns `None` exactly in these cases:
    ///
    /// - The parameters are invalid.
    /// - No class reaches the sought size.
    /// - The length is above the greatest `usize` or the longest chunk.
    ///
    /// Completes in constant time.
    pub fn pool_size_for_payloads(count: usize, layout: Layout) -> Option<usize>
        ensures length { IsValid FLBitmap.width SLBitmap.width FLLEN SLLEN → result ≡ pool_size_for_payloads FLLEN SLLEN count layout.size layout.align }
        ensures invalid { (IsValid FLBitmap.width SLBitmap.width FLLEN SLLEN → ⊥) → result ≡ None }
    {
        if !are_valid::<FLBitmap, SLBitmap, FLLEN, SLLEN>() {
            return None;
        }
        classes::pool_size_for_payloads::<FLBitmap, SLBitmap, FLLEN, SLLEN>(count, layout)
    }

    /// Returns the length in bytes of a pool that refuses no payload of up to the size and alignment of the layout. This holds while, before
    /// each allocation and each reallocation, at most `count` payloads are live, and their blocks have at most `bytes` bytes together. The
    /// pool starts at a multiple of 32.
    ///
    /// Returns `None` exactly in these cases:
    ///
    /// - The parameters are invalid.
    /// - No class reaches the sought size.
    /// - The length is above the greatest `usize` or the longest chunk.
    ///
    /// Completes in constant time.
    pub fn pool_size_for_budget(count: usize, bytes: usize, layout: Layout) -> Option<usize>
        ensures length { IsValid FLBitmap.width SLBitmap.width FLLEN SLLEN → result ≡ pool_size_for_budget FLLEN SLLEN count bytes layout.size layout.align }
        ensures invalid { (IsValid FLBitmap.width SLBitmap.width FLLEN SLLEN → ⊥) → result ≡ None }
    {
        if !are_valid::<FLBitmap, SLBitmap, FLLEN, SLLEN>() {
            return None;
        }
        classes::pool_size_for_budget::<FLBitmap, SLBitmap, FLLEN, SLLEN>(count, bytes, layout)
    }

    /// Returns the least length in bytes of a pool in which an allocation of the layout succeeds while nothing is live there. The pool
    /// starts at a multiple of 32.
    ///
    /// Returns `None` exactly if the parameters are invalid, or no pool is long enough.
    ///
    /// Completes in constant time.
    pub fn pool_size_to_contain_allocation(layout: Layout) -> Option<usize>
        ensures length { IsValid FLBitmap.width SLBitmap.width FLLEN SLLEN → result ≡ pool_size_to_contain_allocation FLLEN SLLEN layout.size layout.align }
        ensures invalid { (IsValid FLBitmap.width SLBitmap.width FLLEN SLLEN → ⊥) → result ≡ None }
    {
        if !are_valid::<FLBitmap, SLBitmap, FLLEN, SLLEN>() {
            return None;
        }
        classes::pool_size_to_contain_allocation::<FLBitmap, SLBitmap, FLLEN, SLLEN>(layout)
    }
}
