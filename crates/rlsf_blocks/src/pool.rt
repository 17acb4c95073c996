//! Pools: ranges of the memory that are made into chunks.

ghost use Rattle.std.specs.Prelude.{◌≡◌, ◌+◌, ◌*◌, ◌≤◌, IfNone, length};
ghost use Rattle.rlsf_base.specs.Addr.{reply};
ghost use Rattle.rlsf_base.specs.OpenSpace.{IsOwned, SameOwn, StaysHere};
ghost use Rattle.rlsf_model_sizes.specs.SizeClass.{IsValid};
ghost use Rattle.rlsf_model_sizes.specs.Sizes.{max_pool_size};
ghost use Rattle.rlsf_base.specs.Space.{range_of};
ghost use Rattle.rlsf_model.specs.Insert.{Inserts, IsFresh, aligned_part, cut};
ghost use Rattle.rlsf_model.specs.Laws.{first_length};
ghost use Rattle.rlsf_model.specs.State.{State};
ghost use Rattle.rlsf_table.specs.Counts.{Costs};
ghost use Rattle.rlsf_blocks.specs.Steps.Pool.{IsAdded, IsNewChunk};
ghost use Rattle.rlsf_blocks.specs.Steps.Standing.{InEach, StepsTo};
ghost use Rattle.rlsf_blocks.specs.StandsFor.{contents, StandsFor};

use crate::GRANULARITY;
use rlsf_base::classes;
use rlsf_base::memory::{OpenMemory, Range};
use rlsf_table::{ClassTable, PREVIOUS_BLOCK, SIZE_SENTINEL, SIZE_USED, link_free_block};
use std::num::NonZeroUsize;

/// A sentinel's size word: its length, in use, the last block of its chunk.
pub(crate) const SENTINEL: u64 = GRANULARITY as u64 + SIZE_USED + SIZE_SENTINEL;

/// Makes a chunk of a range: one free block and a sentinel in the last 32 bytes.
pub fn add_chunk<const FLLEN: usize, const SLLEN: usize>(
    memory: &mut OpenMemory,
    table: &mut ClassTable<FLLEN, SLLEN>,
    chunk: Range,
)
    requires parameters { IsValid 128 128 FLLEN SLLEN }
    requires fresh { (s : State) × StandsFor FLLEN SLLEN (contents memory.old table.old) s × IsNewChunk FLLEN SLLEN memory.old s chunk }
    ensures step { (s : State) → StandsFor FLLEN SLLEN (contents memory.old table.old) s → IsNewChunk FLLEN SLLEN memory.old s chunk
        → IsAdded FLLEN SLLEN memory.old memory.new table.new s.free chunk }
    ensures costs { Costs memory.old memory.new 13 0 }
{
    let block = chunk.start;
    let len = chunk.len - GRANULARITY;
    let sentinel = block + len;
    memory.set_word(block, len as u64);
    memory.set_word(block + PREVIOUS_BLOCK, 0);
    memory.set_word(sentinel, SENTINEL);
    memory.set_word(sentinel + PREVIOUS_BLOCK, block as u64);
    let view = memory.view();
    link_free_block(memory, view, table, block, len);
}

// Returns the length of the next chunk of the rest of a range.
fn chunk_length<const FLLEN: usize, const SLLEN: usize>(left: usize) -> usize
    requires parameters { IsValid 128 128 FLLEN SLLEN }
    requires room { 64 ≤ left }
    ensures value { result ≡ first_length (max_pool_size FLLEN) left }
    ensures bounds { (64 ≤ result) × (result ≤ left) }
{
    match classes::max_pool_size::<u128, u128, FLLEN, SLLEN>() {
        Some(most) => left.min(most),
        None => left,
    }
}

/// Makes chunks of a range, from its first multiple of 32 on, as long as 64 bytes or more are left. Returns the number of bytes
/// from the range's start to the last chunk's end, or `None` if no chunk is made.
// Out of line, since pools are rare. So the compiler keeps the memory's base in a register in the frequent calls.
#[inline(never)]
pub fn insert_chunks<const FLLEN: usize, const SLLEN: usize>(
    memory: &mut OpenMemory,
    table: &mut ClassTable<FLLEN, SLLEN>,
    range: Range,
) -> Option<NonZeroUsize>
    requires parameters { IsValid 128 128 FLLEN SLLEN }
    requires fresh { (s : State) × StandsFor FLLEN SLLEN (contents memory.old table.old) s × IsFresh (range_of memory.old) s range }
    requires own { IsOwned memory.old range }
    ensures step { InEach FLLEN SLLEN memory.old table.old (λ s. IsFresh (range_of memory.old) s range → StepsTo FLLEN SLLEN memory.old memory.new table.new s (Inserts FLLEN s range (reply result))) }
    ensures refused { IfNone result (memory.new.bytes ≡ memory.old.bytes) }
    ensures own { SameOwn memory.old memory.new }
    ensures here { StaysHere memory.old memory.new }
    ensures costs { Costs memory.old memory.new (13 * length (cut (max_pool_size FLLEN) (aligned_part range))) 0 }
{
    let end = range.start + range.len;
    let first = match range.start.checked_next_multiple_of(GRANULARITY) {
        Some(first) if first <= end => first,
        _ => return None,
    };
    let mut start = first;
    let mut left = (end - first) / GRANULARITY * GRANULARITY;
    while left >= 2 * GRANULARITY {
        let len = chunk_length::<FLLEN, SLLEN>(left);
        add_chunk(memory, table, Range { start, len });
        start += len;
        left -= len;
    }
    let taken = if start == first {
        0
    } else {
        start - range.start
    };
    NonZeroUsize::new(taken)
}
