//! A debug call that reads the words of a pool again.

ghost use Rattle.std.specs.Prelude.{◌≡◌, ◌↔◌, true};
ghost use Rattle.rlsf_model.specs.ChunkRows.{IsRow};
ghost use Rattle.rlsf_blocks.specs.Blocks.{walked};
ghost use Rattle.rlsf_blocks.specs.Consistency.Consistent.{IsConsistent};

use crate::tlsf::Tlsf;
use rlsf_base::memory::Range;
use rlsf_blocks::consistency_check::is_consistent;
use rlsf_int::BitPattern;

impl<FLBitmap: BitPattern, SLBitmap: BitPattern, const FLLEN: usize, const SLLEN: usize> Tlsf<
    FLBitmap,
    SLBitmap,
    FLLEN,
    SLLEN,
> {
    /// Returns whether the words of a range and the class table are consistent: whether the range, from its start rounded up to a multiple
    /// of 32 to its end, has the words of complete chunks, and its free blocks are linked into the lists of the table.
    /// `rlsf_blocks::consistency_check::is_consistent` says what is read.
    ///
    /// For complete contiguous chunks the result is true, unless other code than calls of this allocator wrote to its memory. So it is for
    /// debugging programs that use the memory from C, for example, and may have written past a payload. The time grows with the number of
    /// blocks and of classes.
    pub fn is_consistent(&self, range: Range) -> bool
        ensures consistent { (result ≡ true) ↔ IsConsistent FLLEN SLLEN self.now.memory self.now.table (walked range) }
        ensures row { IsRow self.now.state (walked range) → result ≡ true }
    {
        is_consistent(&self.memory_ref().inner, &self.table, range)
    }
}
