//! Lengths of pools.

ghost use Rattle.std.specs.Prelude.{◌≡◌};
ghost use Rattle.rlsf_model_sizes.specs.SizeClass.{IsValid};
ghost use Rattle.rlsf_malloc_calls.specs.Lengths.{IsPoolSizeForBudget, IsPoolSizeOf};

use rlsf_base::classes;
use rlsf_base::memory::Layout;
use rlsf_int::BitPattern;

/// Returns the least length of a range, from a multiple of 32 on, in which a first payload of a size and an alignment is never refused. Returns 0
/// if no range has it, or if the alignment is no power of two.
pub fn pool_size<F: BitPattern, S: BitPattern, const FLLEN: usize, const SLLEN: usize>(
    size: usize,
    align: usize,
) -> usize
    requires parameters { IsValid F.width S.width FLLEN SLLEN }
    ensures { IsPoolSizeOf FLLEN SLLEN size align result }
{
    match Layout::from_size_align(size, align) {
        Ok(layout) => {
            classes::pool_size_to_contain_allocation::<F, S, FLLEN, SLLEN>(layout).unwrap_or(0)
        }
        Err(_) => 0,
    }
}

/// Returns the length of a range, from a multiple of 32 on, that refuses no payload of up to a size and an alignment. This holds while, before
/// each allocation and each reallocation, at most `count` payloads are live, and their blocks have at most `bytes` bytes together. Returns 0
/// if no range has this length, or if the alignment is no power of two.
pub fn pool_size_for_budget<F: BitPattern, S: BitPattern, const FLLEN: usize, const SLLEN: usize>(
    count: usize,
    bytes: usize,
    size: usize,
    align: usize,
) -> usize
    requires parameters { IsValid F.width S.width FLLEN SLLEN }
    ensures { IsPoolSizeForBudget FLLEN SLLEN count bytes size align result }
{
    match Layout::from_size_align(size, align) {
        Ok(layout) => {
            classes::pool_size_for_budget::<F, S, FLLEN, SLLEN>(count, bytes, layout).unwrap_or(0)
        }
        Err(_) => 0,
    }
}
