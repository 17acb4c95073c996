//! The totals of blocks.

ghost use Rattle.std.specs.Prelude.{◌≡◌, ◌+◌, ◌≤◌};
ghost use Rattle.rlsf_blocks.specs.Blocks.{IsInOrder};
ghost use Rattle.rlsf_blocks.specs.Totals.{AreTotalsOf, counted};

use crate::walks::{BlockInfo, Blocks};

/// The totals of some blocks.
#[repr(C)]
#[derive(Clone, Copy)]
pub struct Totals {
    /// The number of live payloads, one in each used block.
    pub payloads: usize,
    /// The total length of all used blocks in bytes, with their headers.
    pub used: usize,
    /// The total length of all free blocks in bytes.
    pub free: usize,
    /// The length of the longest free block in bytes, or 0 if there is none.
    pub longest: usize,
}

/// The totals of no blocks.
pub const NO_TOTALS: Totals = Totals {
    payloads: 0,
    used: 0,
    free: 0,
    longest: 0,
};

/// Adds one block to some totals. As many bytes as they count lie before the block.
fn counted(sum: Totals, block: BlockInfo) -> Totals
    requires behind { sum.used + sum.free ≤ block.range.start }
    requires few { sum.payloads ≤ sum.used }
    ensures value { result ≡ counted sum block }
    ensures few { result.payloads ≤ result.used }
{
    let len = block.size();
    if block.is_occupied() {
        Totals {
            payloads: sum.payloads + 1,
            used: sum.used + len,
            ..sum
        }
    } else {
        Totals {
            free: sum.free + len,
            longest: sum.longest.max(len),
            ..sum
        }
    }
}

/// Returns the totals of some blocks, none of which begins before the end of an earlier one.
pub fn totals_of(blocks: Blocks<'_>) -> Totals
    requires { IsInOrder blocks }
    ensures totals { AreTotalsOf blocks.entry result }
    ensures few { result.payloads ≤ result.used }
{
    let mut blocks = blocks;
    let mut sum = NO_TOTALS;
    while let Some(block) = blocks.next() {
        sum = counted(sum, block);
    }
    sum
}
