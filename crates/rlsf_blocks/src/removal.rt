//! Removals: chunks without a used block are removed.

ghost use Rattle.std.specs.Prelude.{◌≡◌, ◌+◌, ◌≤◌};
ghost use Rattle.rlsf_base.specs.declared.memory.range.Range.{Range};
ghost use Rattle.rlsf_base.specs.OpenSpace.{SameOwn, StaysHere};
ghost use Rattle.rlsf_model_sizes.specs.SizeClass.{IsValid};
ghost use Rattle.rlsf_base.specs.Space.{SamePlace};
ghost use Rattle.rlsf_model.specs.ChunkRows.{IsRow};
ghost use Rattle.rlsf_model.specs.Remove.{IsIdle};
ghost use Rattle.rlsf_model.specs.State.{State};
ghost use Rattle.rlsf_table.specs.Counts.{Costs};
ghost use Rattle.rlsf_blocks.specs.Blocks.{walked};
ghost use Rattle.rlsf_blocks.specs.StandsFor.{contents, StandsFor};
ghost use Rattle.rlsf_blocks.specs.Steps.Removal.{AreRemoved, CountsRemoved, IsIdleChunk, IsChunkRemoved};
ghost use Rattle.rlsf_blocks.specs.Steps.Standing.{InEach};

use crate::GRANULARITY;
use crate::free::take_if_free;
use crate::walks::span;
use rlsf_base::memory::{OpenMemory, Range};
use rlsf_table::ClassTable;

/// Removes the chunk at `start`, which has no used block: its one free block leaves its list. Returns the chunk's end.
fn remove_chunk<const FLLEN: usize, const SLLEN: usize>(
    memory: &mut OpenMemory,
    table: &mut ClassTable<FLLEN, SLLEN>,
    start: usize,
) -> usize
    requires parameters { IsValid 128 128 FLLEN SLLEN }
    requires idle { (s : State) × (c : Range) × StandsFor FLLEN SLLEN (contents memory.old table.old) s × IsIdleChunk s c start }
    ensures step { (s : State) (c : Range) → StandsFor FLLEN SLLEN (contents memory.old table.old) s → IsIdleChunk s c start → IsChunkRemoved FLLEN SLLEN memory.old memory.new table.new s c result }
    ensures costs { Costs memory.old memory.new 9 0 }
    ensures own { SameOwn memory.old memory.new }
    ensures here { StaysHere memory.old memory.new }
{
    let view = memory.view();
    let free = take_if_free(memory, view, table, start);
    start + free + GRANULARITY
}

/// Removes the chunks of a range, from its start rounded up to 32 to its end. None of them may have a used block. The free blocks
/// there leave their lists.
///
/// That part of the range must be complete contiguous chunks, or empty.
// Out of line, since pools are rare. So the compiler keeps the memory's base in a register in the frequent calls.
#[inline(never)]
pub fn remove_chunks<const FLLEN: usize, const SLLEN: usize>(
    memory: &mut OpenMemory,
    table: &mut ClassTable<FLLEN, SLLEN>,
    range: Range,
)
    requires parameters { IsValid 128 128 FLLEN SLLEN }
    requires idle { (s : State) × StandsFor FLLEN SLLEN (contents memory.old table.old) s × IsRow s (walked range) × IsIdle s (walked range) }
    ensures step { InEach FLLEN SLLEN memory.old table.old (λ s. IsRow s (walked range) → IsIdle s (walked range) → AreRemoved FLLEN SLLEN memory.old memory.new table.new s (walked range)) }
    ensures place { SamePlace memory.old memory.new }
    ensures touches { InEach FLLEN SLLEN memory.old table.old (λ s. IsRow s (walked range) → IsIdle s (walked range) → CountsRemoved memory.old memory.new s (walked range)) }
    ensures grow { memory.old.touches ≤ memory.new.touches }
    ensures copied { memory.new.copied ≡ memory.old.copied }
    ensures own { SameOwn memory.old memory.new }
    ensures here { StaysHere memory.old memory.new }
{
    let (mut start, end) = span(range);
    while start < end {
        start = remove_chunk(memory, table, start);
    }
}
