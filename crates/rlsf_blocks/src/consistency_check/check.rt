//! The check of a memory and a class table.

ghost use Rattle.std.specs.Prelude.{◌≡◌, ◌↔◌, ℕ, ◌+◌, ◌%◌, ◌<◌, ◌≤◌, length, true};
ghost use Rattle.rlsf_base.specs.declared.memory.range.Range.{Range};
ghost use Rattle.rlsf_base.specs.Range.{LiesIn, end_of, range_at};
ghost use Rattle.rlsf_model_sizes.specs.SizeClass.{IsValid};
ghost use Rattle.rlsf_base.specs.Space.{word_range};
ghost use Rattle.rlsf_blocks.specs.Blocks.{walked};
ghost use Rattle.rlsf_blocks.specs.Consistency.Consistent.{AreConsistent, ArePoolsLegible, CanBeChecked, HasChunks, IsConsistent, RepresentedAreConsistent, RepresentedIsConsistent};
ghost use Rattle.rlsf_blocks.specs.Steps.BlockAt.{CanReadChunks, ReachesPools};
ghost use Rattle.rlsf_blocks.specs.Steps.Legible.{HasLegibleHeads};

use crate::GRANULARITY;
use crate::consistency_check::chunks::are_chunks;
use crate::consistency_check::heads::heads_agree;
use rlsf_base::memory::{OpenMemory, Range};
use rlsf_table::ClassTable;

/// Returns whether a memory and a class table are consistent over a range, from its start rounded up to 32 to its end:
///
/// - That part of the range is complete chunks, or empty. Used blocks, free blocks and sentinels tile them. The size word of each block,
///   and the word that names the block before it, are in the memory. No two free blocks adjoin.
/// - The list of each free block's class leads through it: the blocks that its links name are free, have its class and name it in turn. A
///   free block without one before it is the head of its class.
/// - The bit of each class is set exactly if it has a head, and that of each row exactly if it has a class with one. Each head is a
///   free block of its class without one before it.
///
/// Words and range may have any values. Nothing outside of the memory is read, and nothing is written. The time grows with the number of
/// blocks and of classes.
///
/// Each byte of the memory must be here, or memory and table must be consistent. In the latter case bytes of payloads may be out, since
/// no byte of a payload is read.
pub fn is_consistent<const FLLEN: usize, const SLLEN: usize>(
    memory: &OpenMemory,
    table: &ClassTable<FLLEN, SLLEN>,
    range: Range,
) -> bool
    requires parameters { IsValid 128 128 FLLEN SLLEN }
    requires legible { CanBeChecked FLLEN SLLEN memory.now table.now (walked range) }
    ensures { (result ≡ true) ↔ IsConsistent FLLEN SLLEN memory.now table.now (walked range) }
{
    let pools = [memory.start(), memory.len()];
    heads_agree(memory, table, &pools) && has_chunks(memory, table, &pools, range)
}

/// Returns whether the words of a memory and of a class table are those of a heap over some pools: whether `is_consistent` is true over each
/// of them, and each link and each head leads to a free block in one of them. The numbers are the start and the length of each pool.
///
/// Words and pools may have any values. Nothing outside of the pools is read, and nothing is written. The time grows with the number of
/// pools times that of blocks and classes.
///
/// Each word of the pools must be here, or memory and table must be consistent. In the latter case bytes of payloads may be out, since no
/// byte of a payload is read.
pub fn are_consistent<const FLLEN: usize, const SLLEN: usize>(
    memory: &OpenMemory,
    table: &ClassTable<FLLEN, SLLEN>,
    pools: &[usize],
) -> bool
    requires parameters { IsValid 128 128 FLLEN SLLEN }
    requires legible { ArePoolsLegible FLLEN SLLEN pools.now memory.now table.now }
    ensures { (result ≡ true) ↔ AreConsistent FLLEN SLLEN pools.now memory.now table.now }
{
    // Opens the memory's invariant for the prover: each address fits in a word.
    let _ = memory.start();
    if !heads_agree(memory, table, pools) {
        return false;
    }
    for k in 0..pools.len() / 2 {
        let pool = Range {
            start: pools[2 * k],
            len: pools[2 * k + 1],
        };
        if !has_chunks(memory, table, pools, pool) {
            return false;
        }
    }
    true
}

/// Returns whether the words of a range, from its start rounded up to 32 to its end, are those of complete chunks. Each word of the memory
/// in that part of the range must lie in one of the pools.
fn has_chunks<const FLLEN: usize, const SLLEN: usize>(
    memory: &OpenMemory,
    table: &ClassTable<FLLEN, SLLEN>,
    pools: &[usize],
    range: Range,
) -> bool
    requires parameters { IsValid 128 128 FLLEN SLLEN }
    requires legible { CanReadChunks FLLEN SLLEN pools.now memory.now table.now (walked range) }
    requires reaches { ReachesPools pools.now memory.now range }
    ensures { (result ≡ true) ↔ HasChunks FLLEN SLLEN pools.now memory.now table.now (walked range) }
{
    // Opens the memory's invariant for the prover: each address fits in a word.
    let _ = memory.start();
    // From the start to the next multiple of 32.
    let skipped = (GRANULARITY - range.start % GRANULARITY) % GRANULARITY;
    if range.len <= skipped {
        return true;
    }
    let rest = range.len - skipped;
    match range.start.checked_add(skipped) {
        Some(start) => {
            is_within(memory, start, rest) && are_chunks(memory, table, pools, start, start + rest)
        }
        None => false,
    }
}

/// Returns whether so many bytes from an address on lie in the memory.
fn is_within(memory: &OpenMemory, start: usize, len: usize) -> bool
    ensures { (result ≡ true) ↔ LiesIn (range_at start len) memory.now.start (length memory.now.bytes) }
{
    let (first, all) = (memory.start(), memory.len());
    start >= first && len <= all && start - first <= all - len
}

/// Does nothing. Its contract states laws, so that a check proves them: each memory and class table that represent a state are consistent
/// over each range of its complete chunks, and over pools of complete chunks. So `is_consistent` and `are_consistent` return true for each
/// allocator that keeps its invariant.
pub fn laws()
    ensures range { RepresentedIsConsistent }
    ensures pools { RepresentedAreConsistent }
{}
