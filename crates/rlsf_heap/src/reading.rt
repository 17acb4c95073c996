//! What can be read of a heap: its blocks, its class table, and its memory.
ghost use Rattle.std.specs.Prelude.{◌≡◌, ◌<◌, ℕ};
ghost use Rattle.std.specs.List.{list_any};
ghost use Rattle.std.specs.Map.Iter.{GivesInOrder};
ghost use Rattle.rlsf_int.specs.Bits.{bit};
ghost use Rattle.rlsf_base.specs.Addr.{reply};
ghost use Rattle.rlsf_base.specs.declared.memory.range.Range.{Range};
ghost use Rattle.rlsf_base.specs.Range.{end_of};
ghost use Rattle.rlsf_model_sizes.specs.SizeClass.{class_at};
ghost use Rattle.rlsf_model.specs.Allocate.{has_class};
ghost use Rattle.rlsf_model.specs.ChunkRows.{IsRow};
ghost use Rattle.rlsf_model.specs.Lists.{IsIn};
ghost use Rattle.rlsf_model.specs.Sized.{live_count};
ghost use Rattle.rlsf_table.specs.Table.{is_in_row, newest_of, of_class};
ghost use Rattle.rlsf_blocks.specs.Blocks.{AreBlocks, walked};

use crate::heap::Heap;
use rlsf_base::memory::{Addr, OpenMemory, Range};
use rlsf_blocks::{BlockInfo, Blocks, chunk_end, walk_blocks};
use rlsf_int::{BitPattern, Bitmap};
use std::num::NonZeroUsize;

impl<FLBitmap: BitPattern, SLBitmap: BitPattern, const FLLEN: usize, const SLLEN: usize> Heap<
    FLBitmap,
    SLBitmap,
    FLLEN,
    SLLEN,
> {
    ghost use Rattle.rlsf_heap.specs.Heap.{IsRepresented, Stands};

    /// Returns the number of live payloads: those that were allocated and not yet deallocated.
    ///
    /// Completes in constant time.
    pub fn live(&self) -> usize
        ensures { result ≡ live_count self.now.state }
    {
        self.live
    }

    /// Returns whether the memory's bytes are lent to the heap in ranges.
    ///
    /// Completes in constant time.
    pub fn is_lent(&self) -> bool
        ensures { result ≡ self.now.lent }
    {
        self.lent
    }

    /// Returns the address of the end of the chunk that begins at `addr`. This is the address just past its sentinel. The
    /// iteration over the chunk's blocks is not counted as word accesses.
    ///
    /// A chunk must begin at `addr`.
    pub fn chunk_end(&self, addr: usize) -> usize
        requires { (c : Range) × IsIn c self.now.state.chunks × (c.start ≡ addr) }
        ensures { (c : Range) → IsIn c self.now.state.chunks → c.start ≡ addr → result ≡ end_of c }
    {
        chunk_end(&self.memory, addr)
    }

    /// Returns an iterator over the blocks of a range, used and free, in address order. It begins at the range's start,
    /// rounded up to a multiple of 32, and stops at the range's end. It skips the sentinels at the ends of chunks. It
    /// reads no byte of a payload.
    ///
    /// This part of the range must be complete contiguous chunks, or empty.
    ///
    /// Completes in constant time. So does each step of the iteration, whose reads are not counted as word accesses.
    pub fn iter_blocks(&self, range: Range) -> Blocks<'_>
        requires { IsRow self.now.state (walked range) }
        ensures blocks { AreBlocks self.now.state (walked range) result }
        ensures runs { GivesInOrder BlockInfo }
    {
        walk_blocks(&self.memory, range)
    }

    /// Returns the address of the newest free block of a class, given by its row `fl` and its index `sl` in the row.
    /// Returns `None` if and only if no block of the class is free. An allocation that uses a block of the class uses
    /// this one.
    ///
    /// `fl` must be below `FLLEN`, and `sl` below `SLLEN`.
    ///
    /// Completes in constant time.
    pub fn first_free(&self, fl: usize, sl: usize) -> Option<Addr>
        requires { (fl < FLLEN) × (sl < SLLEN) }
        ensures { reply result ≡ newest_of (of_class SLLEN fl sl self.now.state.free) }
    {
        NonZeroUsize::new(self.table.newest(fl, sl))
    }

    /// Returns the memory, for reading. Its words and the class table encode the state (`represented`). The bytes of live payloads
    /// are out of it.
    ///
    /// Completes in constant time.
    pub fn memory_ref(&self) -> &OpenMemory
        ensures memory { result.now ≡ self.now.memory }
        ensures stands { Stands FLLEN SLLEN self.now }
        ensures represented { IsRepresented FLLEN SLLEN self.now }
    {
        &self.memory
    }
}

impl<FLBitmap: Bitmap, SLBitmap: Bitmap, const FLLEN: usize, const SLLEN: usize> Heap<
    FLBitmap,
    SLBitmap,
    FLLEN,
    SLLEN,
> {
    /// Returns the second-level bitmap of the row `fl`, as `Tlsf::sl_bitmap` does. The bit of a class is set if and only if the
    /// class has a free block.
    ///
    /// `fl` must be below `FLLEN`.
    ///
    /// Takes time proportional to `SLLEN`, the number of classes of a row.
    pub fn sl_bitmap(&self, fl: usize) -> SLBitmap
        requires { fl < FLLEN }
        ensures { (sl : ℕ) → bit (SLBitmap.pattern result) sl ≡ list_any (has_class SLLEN (class_at fl sl)) self.now.state.free }
    {
        self.table.sl_bitmap(fl)
    }

    /// Returns the first-level bitmap, as `Tlsf::fl_bitmap` does. The bit of a row is set if and only if the row has a free block.
    ///
    /// Takes time proportional to `FLLEN`, the number of rows.
    pub fn fl_bitmap(&self) -> FLBitmap
        ensures { (fl : ℕ) → bit (FLBitmap.pattern result) fl ≡ list_any (is_in_row SLLEN fl) self.now.state.free }
    {
        self.table.fl_bitmap()
    }
}
