//! Lists of blocks as numbers.

ghost use Rattle.std.specs.Prelude.{◌≡◌, ◌+◌, ◌*◌, ◌≤◌, length};
ghost use Rattle.std.specs.List.{splice};
ghost use Rattle.rlsf_blocks.specs.Listing.{IsListingOf, all_from, numbers_of};

use crate::walks::{BlockInfo, Blocks};

/// Writes three numbers of a block behind those of the `count` blocks before it.
fn put(into: &mut [usize], count: usize, block: BlockInfo)
    requires { 3 * count + 3 ≤ length into.old }
    ensures { into.new ≡ splice into.old (3 * count) (3 * count + 3) (numbers_of block) }
{
    let range = block.as_ptr();
    let numbers = [range.start, range.len, block.is_occupied() as usize];
    into[3 * count..3 * count + 3].copy_from_slice(&numbers);
}

/// Lists the blocks that begin at `from` or behind it, three numbers for each: where it begins, its length, and 1 if it is used, else 0.
///
/// Returns how many are listed: all, or as many as there is room for. The numbers behind theirs are unchanged.
pub fn list(blocks: Blocks<'_>, from: usize, into: &mut [usize]) -> usize
    ensures { IsListingOf (all_from from blocks.entry) into.old result into.new }
{
    let room = into.len() / 3;
    let mut blocks = blocks;
    let mut count = 0;
    while let Some(block) = blocks.next() {
        if block.as_ptr().start >= from {
            if count == room {
                return count;
            }
            put(into, count, block);
            count += 1;
        }
    }
    count
}
