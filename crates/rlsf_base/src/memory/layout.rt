//! Layouts: the size and the alignment that a caller requests.

ghost use Rattle.std.specs.Prelude.{◌≡◌, ◌%◌, ◌^◌, ◌+◌, ◌<◌, ◌≤◌, ◌↔◌, IsOk, IfOk, IsTrue};
ghost use Rattle.std.specs.Int.{next_multiple_of};
ghost use Rattle.rlsf_base.specs.Layout.{IsLayout};

use crate::rounding::next_aligned;

/// What a caller requests of an allocator: a size in bytes, and the alignment of the address.
///
/// By the type, the alignment is a power of two and the size is at most `2^63 - align`. So the size, rounded up to a
/// multiple of the alignment, fits in an `isize`.
#[derive(Clone, Copy, Debug, PartialEq, Eq)]
pub struct Layout {
    /// The size in bytes.
    pub size: usize,
    /// The alignment in bytes, a power of two.
    pub align: usize,
    pub ghost valid: { IsLayout size align },
}

/// The error if no layout has the requested size and alignment.
#[derive(Clone, Copy, Debug, PartialEq, Eq)]
pub struct LayoutError;

impl Layout {
    /// Returns the layout of `size` bytes at an address that is a multiple of `align`.
    ///
    /// Returns an error if and only if `align` is not a power of two, or `size` is above `2^63 - align`.
    pub fn from_size_align(size: usize, align: usize) -> Result<Layout, LayoutError>
        ensures succeeds { IsOk result ↔ IsLayout size align }
        ensures layout { IfOk result (λ l. (l.size ≡ size) × (l.align ≡ align)) }
    {
        if is_layout(size, align) {
            Ok(Layout { size, align })
        } else {
            Err(LayoutError)
        }
    }

    /// Returns the layout of `size` bytes at an address that is a multiple of `align`, without checking them.
    ///
    /// `align` must be a power of two, and `size` must be at most `2^63 - align`.
    pub fn from_size_align_unchecked(size: usize, align: usize) -> Layout
        requires { IsLayout size align }
        ensures { (result.size ≡ size) × (result.align ≡ align) }
    {
        Layout { size, align }
    }

    /// Returns the size in bytes.
    pub fn size(&self) -> usize
        ensures value { result ≡ self.now.size }
        ensures valid { IsLayout self.now.size self.now.align }
    {
        self.size
    }

    /// Returns the alignment in bytes, a power of two.
    pub fn align(&self) -> usize
        ensures value { result ≡ self.now.align }
        ensures valid { IsLayout self.now.size self.now.align }
    {
        self.align
    }

    /// Returns the layout with the same alignment whose size is the least multiple of the alignment that is at least the
    /// size.
    pub fn pad_to_align(&self) -> Layout
        ensures size { result.size ≡ next_multiple_of self.now.size self.now.align }
        ensures align { result.align ≡ self.now.align }
    {
        Layout {
            size: self.align_up(self.size),
            align: self.align,
        }
    }

    /// Returns the least multiple of the alignment that is at least `n`. It must fit in a `usize`.
    pub fn align_up(&self, n: usize) -> usize
        requires fits { next_multiple_of n self.now.align < 2 ^ 64 }
        ensures value { result ≡ next_multiple_of n self.now.align }
    {
        next_aligned(n, self.align)
    }
}

fn is_layout(size: usize, align: usize) -> bool
    ensures { IsTrue result ↔ IsLayout size align }
{
    align.is_power_of_two() && size <= (1 << 63) - align
}
