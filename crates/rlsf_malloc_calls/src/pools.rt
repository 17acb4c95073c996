//! The totals and the lists of the blocks of a pool, its check and its removal.

ghost use Rattle.std.specs.Prelude.{◌≡◌};
ghost use Rattle.rlsf_base.specs.Range.{range_at};
ghost use Rattle.rlsf_model_sizes.specs.SizeClass.{IsValid};
ghost use Rattle.rlsf_blocks.specs.Blocks.{walked};
ghost use Rattle.rlsf_blocks.specs.Consistency.Consistent.{ArePoolsLegible};
ghost use Rattle.rlsf_model.specs.ChunkRows.{IsRow};
ghost use Rattle.rlsf_malloc_calls.specs.Blocks.{AreTotals, IsCheckOf, IsListing};
ghost use Rattle.rlsf_malloc_calls.specs.Calls.{CanRemove, IsReady, RemovesLent};

use crate::replies::Lending;
use rlsf_base::memory::Range;
use rlsf_blocks::{Totals, list, totals_of};
use rlsf_heap::{Heap, HeapWords, Loan};
use rlsf_int::BitPattern;

/// Returns the totals of the blocks in a range, which is complete contiguous chunks.
pub fn totals_in<F: BitPattern, S: BitPattern, const FLLEN: usize, const SLLEN: usize>(
    heap: &mut Heap<F, S, FLLEN, SLLEN>,
    start: usize,
    len: usize,
) -> Totals
    requires { IsReady heap.old × IsRow heap.old.state (walked (range_at start len)) }
    ensures { AreTotals heap.old (range_at start len) result × (heap.new ≡ heap.old) }
{
    totals_of(heap.iter_blocks(Range { start, len }))
}

/// Lists the blocks in a range, which is complete contiguous chunks, from an address on. Returns how many are listed.
pub fn list_in<F: BitPattern, S: BitPattern, const FLLEN: usize, const SLLEN: usize>(
    heap: &mut Heap<F, S, FLLEN, SLLEN>,
    start: usize,
    len: usize,
    from: usize,
    into: &mut [usize],
) -> usize
    requires { IsReady heap.old × IsRow heap.old.state (walked (range_at start len)) }
    ensures { IsListing heap.old (range_at start len) from into.old result into.new × (heap.new ≡ heap.old) }
{
    list(heap.iter_blocks(Range { start, len }), from, into)
}

/// Returns 1 if the words are those of a heap over some pools, else 0.
pub fn check_in<F: BitPattern, S: BitPattern, const FLLEN: usize, const SLLEN: usize>(
    words: &mut HeapWords<F, S, FLLEN, SLLEN>,
    pools: &[usize],
) -> usize
    requires { IsValid F.width S.width FLLEN SLLEN × ArePoolsLegible FLLEN SLLEN pools.now words.old.memory words.old.table }
    ensures { IsCheckOf FLLEN SLLEN words.old pools.now result × (words.new ≡ words.old) }
{
    words.are_consistent(pools) as usize
}

/// Removes a range, which is complete contiguous chunks, and returns 1 and its bytes; or returns 0 if a block in it is used. `none` is no bytes.
pub fn remove_in<F: BitPattern, S: BitPattern, const FLLEN: usize, const SLLEN: usize>(
    heap: &mut Heap<F, S, FLLEN, SLLEN>,
    start: usize,
    none: Loan,
    len: usize,
) -> Lending
    requires { IsReady heap.old × CanRemove heap.old start len none.of }
    ensures { RemovesLent heap.old start len result.number result.loan.of heap.new }
{
    let range = Range { start, len };
    if heap.try_remove_pool(range) {
        Lending {
            number: 1,
            loan: heap.reclaim_loan(range),
        }
    } else {
        Lending {
            number: 0,
            loan: none,
        }
    }
}
