//! A debug call that reads the words of a pool again.

ghost use Rattle.std.specs.Prelude.{◌≡◌, true};
ghost use Rattle.rlsf_model.specs.ChunkRows.{IsRow};
ghost use Rattle.rlsf_blocks.specs.Blocks.{walked};
ghost use Rattle.rlsf_blocks.specs.Consistency.Consistent.{IsConsistent};

use crate::heap::Heap;
use rlsf_base::memory::Range;
use rlsf_blocks::consistency_check::is_consistent;
use rlsf_int::BitPattern;

impl<FLBitmap: BitPattern, SLBitmap: BitPattern, const FLLEN: usize, const SLLEN: usize> Heap<
    FLBitmap,
    SLBitmap,
    FLLEN,
    SLLEN,
> {
    /// Returns whether the words of a range and the class table are consistent, as `Tlsf::is_consistent` does. No byte of a payload is read.
    ///
    /// The result is true, unless other code than calls of this heap wrote to its memory. So it is for debugging programs that use payloads
    /// from C, for example, and may have written past one. The time grows with the number of blocks and of classes.
    ///
    /// The range, from its start rounded up to a multiple of 32 to its end, must be complete contiguous chunks, or empty.
    pub fn is_consistent(&self, range: Range) -> bool
        requires { IsRow self.now.state (walked range) }
        ensures consistent { IsConsistent FLLEN SLLEN self.now.memory self.now.table (walked range) }
        ensures result { result ≡ true }
    {
        is_consistent(&self.memory, &self.table, range)
    }
}
