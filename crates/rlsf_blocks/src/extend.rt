//! Appends: a range is inserted behind a chunk.

ghost use Rattle.std.specs.Prelude.{◌≡◌, ◌+◌, ◌*◌, is_some, length, if◌then◌else◌};
ghost use Rattle.rlsf_base.specs.declared.memory.range.Range.{Range};
ghost use Rattle.rlsf_base.specs.OpenSpace.{IsOwned, SameOwn, StaysHere};
ghost use Rattle.rlsf_base.specs.Range.{end_of, range_at};
ghost use Rattle.rlsf_model_sizes.specs.SizeClass.{IsValid};
ghost use Rattle.rlsf_model_sizes.specs.Sizes.{max_pool_size};
ghost use Rattle.rlsf_base.specs.Space.{range_of};
ghost use Rattle.rlsf_model.specs.Insert.{Appends, IsNext, aligned_part, cut, grown};
ghost use Rattle.rlsf_model.specs.State.{State};
ghost use Rattle.rlsf_table.specs.Counts.{Costs};
ghost use Rattle.rlsf_blocks.specs.StandsFor.{contents, StandsFor};
ghost use Rattle.rlsf_blocks.specs.Steps.Standing.{InEach, StandsAfter, StepsTo};
ghost use Rattle.rlsf_blocks.specs.Steps.Extension.{AtEachExtensible, IsExtensible};

use crate::GRANULARITY;
use crate::free::deallocate_block;
use crate::pool::{SENTINEL, insert_chunks};
use rlsf_base::classes;
use rlsf_base::memory::{OpenMemory, Range};
use rlsf_table::{ClassTable, PREVIOUS_BLOCK, used_size_word};

/// Makes the chunk that ends at `end` longer by `len` bytes. Its old sentinel and the new bytes, except those of the new
/// sentinel, become free. Joined with a free block before them, they are the newest free block.
fn extend_chunk<const FLLEN: usize, const SLLEN: usize>(
    memory: &mut OpenMemory,
    table: &mut ClassTable<FLLEN, SLLEN>,
    end: usize,
    len: usize,
)
    requires parameters { IsValid 128 128 FLLEN SLLEN }
    requires extensible { (s : State) × (c : Range) × StandsFor FLLEN SLLEN (contents memory.old table.old) s
        × IsExtensible FLLEN (range_of memory.old) s c len × (end_of c ≡ end) }
    requires own { IsOwned memory.old (range_at end len) }
    ensures step { AtEachExtensible FLLEN SLLEN memory.old table.old end len (λ s c. StandsAfter FLLEN SLLEN memory.old memory.new table.new s (grown c len s)) }
    ensures costs { Costs memory.old memory.new 34 0 }
    ensures own { SameOwn memory.old memory.new }
    ensures here { StaysHere memory.old memory.new }
{
    // The word that names the block before the old sentinel stays: it names the one before the new block.
    let block = end - GRANULARITY;
    let sentinel = block + len;
    memory.set_word(block, used_size_word(len));
    memory.set_word(sentinel, SENTINEL);
    memory.set_word(sentinel + PREVIOUS_BLOCK, block as u64);
    let view = memory.view();
    deallocate_block(memory, view, table, block);
}

/// Inserts a range that begins where a chunk ends. If chunks have a greatest length, the range becomes chunks of its own.
/// Otherwise the chunk grows by the range's length rounded down to a multiple of 32. Returns the number of taken bytes.
pub fn append_chunks<const FLLEN: usize, const SLLEN: usize>(
    memory: &mut OpenMemory,
    table: &mut ClassTable<FLLEN, SLLEN>,
    range: Range,
) -> usize
    requires parameters { IsValid 128 128 FLLEN SLLEN }
    requires next { (s : State) × StandsFor FLLEN SLLEN (contents memory.old table.old) s × IsNext (range_of memory.old) s range }
    requires own { IsOwned memory.old range }
    ensures step { InEach FLLEN SLLEN memory.old table.old (λ s. IsNext (range_of memory.old) s range → StepsTo FLLEN SLLEN memory.old memory.new table.new s (Appends FLLEN s range result)) }
    ensures unchanged { result ≡ 0 → memory.new.bytes ≡ memory.old.bytes }
    ensures costs { Costs memory.old memory.new (if is_some (max_pool_size FLLEN) then 13 * length (cut (max_pool_size FLLEN) (aligned_part range)) else 34) 0 }
    ensures own { SameOwn memory.old memory.new }
    ensures here { StaysHere memory.old memory.new }
{
    if classes::max_pool_size::<u128, u128, FLLEN, SLLEN>().is_some() {
        return match insert_chunks(memory, table, range) {
            Some(taken) => taken.get(),
            None => 0,
        };
    }
    let len = range.len / GRANULARITY * GRANULARITY;
    if len == 0 {
        return 0;
    }
    extend_chunk(memory, table, range.start, len);
    len
}
