//! Whether an allocator's parameters are valid.

ghost use Rattle.std.specs.Prelude.{◌↔◌, ◌≡◌, IsTrue};
ghost use Rattle.rlsf_model_sizes.specs.SizeClass.{IsValid, is_row_length};
ghost use Rattle.rlsf_checked.specs.Steps.Classes.{is_valid};

use rlsf_int::Bitmap;

/// Returns whether the parameters are valid. `FLLEN` is between 1 and the number of bits of `FLBitmap`. `SLLEN` is a power of two and at
/// most the number of bits of `SLBitmap`.
pub(crate) fn are_valid<
    FLBitmap: Bitmap,
    SLBitmap: Bitmap,
    const FLLEN: usize,
    const SLLEN: usize,
>() -> bool
    ensures { IsTrue result ↔ IsValid FLBitmap.width SLBitmap.width FLLEN SLLEN }
{
    is_valid(bits::<FLBitmap>(), bits::<SLBitmap>(), FLLEN, SLLEN)
}

/// Returns the number of bits of a bitmap. If no bit is set, the search for the first one ends past the last.
fn bits<B: Bitmap>() -> usize
    ensures { result ≡ B.width }
{
    B::empty().first_from(0) as usize
}

/// Returns whether the parameters are valid, given the numbers of bits.
fn is_valid(fl_bits: usize, sl_bits: usize, fllen: usize, sllen: usize) -> bool
    ensures { result ≡ is_valid fl_bits sl_bits fllen sllen }
{
    0 < fllen && fllen <= fl_bits && sllen <= sl_bits && is_row_length(sllen)
}

/// Returns whether a first-level row may have this number of classes.
fn is_row_length(classes: usize) -> bool
    ensures { result ≡ is_row_length classes }
{
    matches!(classes, 1 | 2 | 4 | 8 | 16 | 32 | 64 | 128)
}
