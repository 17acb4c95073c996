//! The blocks of all pools: their totals, lists of them, and one after an address.

ghost use Rattle.std.specs.Prelude.{◌≡◌, ◌+◌, ◌*◌, ◌^◌, ◌<◌, ◌≤◌, ◌++◌, ℕ, List, find, length, nat_le};
ghost use Rattle.rlsf_blocks.specs.Blocks.{Block};
ghost use Rattle.rlsf_blocks.specs.Listing.{IsListingOf, all_from};
ghost use Rattle.rlsf_blocks.specs.Totals.{AreTotalsOf};
ghost use Rattle.rlsf_checked.specs.AllBlocks.{AreAllTotals, IsFirstFrom, IsListingOfAll};

use crate::checked::CheckedTlsf;
use rlsf_blocks::{BlockInfo, Blocks, NO_TOTALS, Totals, list, totals_of};
use rlsf_int::BitPattern;

impl<
    FLBitmap: BitPattern,
    SLBitmap: BitPattern,
    const FLLEN: usize,
    const SLLEN: usize,
> CheckedTlsf<FLBitmap, SLBitmap, FLLEN, SLLEN> {
    /// Returns the totals of the used and free blocks of all pools. The time grows with the numbers of blocks and pools.
    pub fn totals(&self) -> Totals
        ensures { AreAllTotals self.now result }
    {
        let mut sum = NO_TOTALS;
        for pool in &self.pools.earlier {
            sum = joined(sum, totals_of(self.heap.iter_blocks(*pool)));
        }
        joined(sum, totals_of(self.blocks()))
    }

    /// Lists the blocks of all pools that begin at `from` or behind it, in address order, three numbers for each: where it begins, its
    /// length, and 1 if it is used, else 0.
    ///
    /// Returns how many are listed: all, or as many as there is room for. The numbers behind theirs are unchanged. The time grows as that
    /// of `totals`.
    pub fn list(&self, from: usize, into: &mut [usize]) -> usize
        ensures { IsListingOfAll self.now from into.old result into.new }
    {
        let mut count = 0;
        for pool in &self.pools.earlier {
            count = list_more(self.heap.iter_blocks(*pool), from, into, count);
        }
        list_more(self.blocks(), from, into, count)
    }

    /// Returns the first block, of any pool, that begins at `from` or behind it. Returns `None` exactly if none does. The time grows as
    /// that of `totals`.
    pub fn next_block(&self, from: usize) -> Option<BlockInfo>
        ensures { IsFirstFrom self.now.heap.state from result }
    {
        for pool in &self.pools.earlier {
            if let Some(block) = first_of(self.heap.iter_blocks(*pool), from) {
                return Some(block);
            }
        }
        first_of(self.blocks(), from)
    }
}

/// Returns the totals of some blocks and of others together.
fn joined(first: Totals, second: Totals) -> Totals
    requires fits { first.used + first.free + (second.used + second.free) < 2 ^ 64 }
    requires few { (first.payloads ≤ first.used) × (second.payloads ≤ second.used) }
    ensures totals { (bs cs : List Block) → AreTotalsOf bs first → AreTotalsOf cs second → AreTotalsOf (bs ++ cs) result }
    ensures few { result.payloads ≤ result.used }
{
    Totals {
        payloads: first.payloads + second.payloads,
        used: first.used + second.used,
        free: first.free + second.free,
        longest: first.longest.max(second.longest),
    }
}

/// Lists blocks as `list` does, behind `count` blocks that are listed. Returns how many are listed then.
fn list_more(blocks: Blocks<'_>, from: usize, into: &mut [usize], count: usize) -> usize
    requires { 3 * count ≤ length into.old }
    ensures listing { (bs : List Block) (was : List ℕ) → IsListingOf (all_from from bs) was count into.old → IsListingOf (all_from from (bs ++ blocks.entry)) was result into.new }
    ensures fits { 3 * result ≤ length into.new }
{
    count + list(blocks, from, &mut into[3 * count..])
}

/// Returns the first of some blocks that begins at an address or behind it.
fn first_of(blocks: Blocks<'_>, from: usize) -> Option<BlockInfo>
    ensures { result ≡ find (λ b. nat_le from b.range.start) blocks.entry }
{
    let mut blocks = blocks;
    while let Some(block) = blocks.next() {
        if block.as_ptr().start >= from {
            return Some(block);
        }
    }
    None
}
