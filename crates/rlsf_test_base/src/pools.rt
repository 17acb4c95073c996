//! Pools of the lengths that are computed for one allocation.

ghost use Rattle.rlsf_model_sizes.specs.SizeClass.{IsValid};

use rlsf_base::classes::pool_size_to_contain_allocation;
use rlsf_base::memory::{Layout, Memory, Range};
use rlsf_int::BitPattern;
use rlsf_tlsf::Tlsf;
use std::process::Abort;

/// Names the type of an allocator. A proof knows that it fits in memory where a caller names it.
pub(crate) type Shape<'a, FLBitmap, SLBitmap, const FLLEN: usize, const SLLEN: usize> = Option<
    &'a Tlsf<FLBitmap, SLBitmap, FLLEN, SLLEN>,
>;

/// Whether a new allocator over a pool of that length allocates the layout.
fn serves<FLBitmap: BitPattern, SLBitmap: BitPattern, const FLLEN: usize, const SLLEN: usize>(
    rt: &(impl Abort + AllocGlobal),
    len: usize,
    layout: Layout,
    _shape: Shape<'_, FLBitmap, SLBitmap, FLLEN, SLLEN>,
) -> bool
    requires { IsValid FLBitmap.width SLBitmap.width FLLEN SLLEN }
{
    let memory = Memory::new(rt.alloc(), 4096, len).expect(rt, "memory");
    let mut tlsf = Tlsf::<FLBitmap, SLBitmap, FLLEN, SLLEN>::new(memory);
    tlsf.insert_free_block(Range { start: 4096, len });
    tlsf.allocate(layout).is_some()
}

/// Whether a pool of the length that is computed for a layout has room for it. The length is a multiple of 32. Nothing is
/// tried where no length is computed.
fn is_long_enough<
    FLBitmap: BitPattern,
    SLBitmap: BitPattern,
    const FLLEN: usize,
    const SLLEN: usize,
>(
    rt: &(impl Abort + AllocGlobal),
    layout: Layout,
    shape: Shape<'_, FLBitmap, SLBitmap, FLLEN, SLLEN>,
) -> bool
    requires { IsValid FLBitmap.width SLBitmap.width FLLEN SLLEN }
{
    match pool_size_to_contain_allocation::<FLBitmap, SLBitmap, FLLEN, SLLEN>(layout) {
        Some(len) => len % 32 == 0 && serves(rt, len, layout, shape),
        None => true,
    }
}

/// Whether each computed length is enough for its layout. The sizes are those beside each power of two from 16 to `2^18`, at
/// alignments from 16 to 256. For one byte the length is 64 in every shape.
pub(crate) fn are_long_enough<
    FLBitmap: BitPattern,
    SLBitmap: BitPattern,
    const FLLEN: usize,
    const SLLEN: usize,
>(rt: &(impl Abort + AllocGlobal), shape: Shape<'_, FLBitmap, SLBitmap, FLLEN, SLLEN>) -> bool
    requires { IsValid FLBitmap.width SLBitmap.width FLLEN SLLEN }
{
    for k in 4..19usize {
        for i in 0..3 {
            let size = (1usize << k) - 1 + i;
            let layout = Layout::from_size_align(size, 16 << ((k + i) % 5)).expect(rt, "a layout");
            if !is_long_enough(rt, layout, shape) {
                return false;
            }
        }
    }
    let least = Layout::from_size_align_unchecked(1, 1);
    pool_size_to_contain_allocation::<FLBitmap, SLBitmap, FLLEN, SLLEN>(least) == Some(64)
        && is_long_enough(rt, least, shape)
}
