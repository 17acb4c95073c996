//! Rounding up to a multiple of a power of two. Neither function makes the processor divide, even if an alignment isn't a
//! constant.

ghost use Rattle.std.specs.Prelude.{◌≡◌, ◌^◌, ◌<◌};
ghost use Rattle.std.specs.Int.{next_multiple_of};
ghost use Rattle.rlsf_model_sizes.specs.PowerOfTwo.{IsPowerOfTwo};
ghost use Rattle.rlsf_model_sizes.specs.Rounding.{round32};

/// Returns the least multiple of 32, the granularity of blocks, that is at least `n`. It must fit in a `usize`.
pub fn next_multiple_of_32(n: usize) -> usize
    requires fits { round32 n < 2 ^ 64 }
    ensures value { result ≡ round32 n }
{
    (n + 31) / 32 * 32
}

/// Returns the least multiple of `align` that is at least `n`. It must fit in a `usize`, and `align` must be a power of
/// two.
pub fn next_aligned(n: usize, align: usize) -> usize
    requires power { IsPowerOfTwo align }
    requires fits { next_multiple_of n align < 2 ^ 64 }
    ensures value { result ≡ next_multiple_of n align }
{
    (n + (align - 1)) & !(align - 1)
}
