//! The iteration over the blocks of contiguous chunks.

ghost use Rattle.std.specs.Prelude.{◌≡◌, ◌+◌, ◌≤◌, ◌↔◌, ℕ, length};
ghost use Rattle.std.specs.Iterator.{at_most};
ghost use Rattle.std.specs.Map.Iter.{TakesFirst, GivesInOrder};
ghost use Rattle.rlsf_base.specs.declared.memory.range.Range.{Range};
ghost use Rattle.rlsf_base.specs.Range.{end_of};
ghost use Rattle.rlsf_model_sizes.specs.Rounding.{round32};
ghost use Rattle.rlsf_base.specs.Space.{Space};
ghost use Rattle.rlsf_blocks.specs.Blocks.{AreBlocks, walked};
ghost use Rattle.rlsf_blocks.specs.StandsFor.{contents, StandsFor};
ghost use Rattle.rlsf_blocks.specs.Steps.Walk.{IsSpan};
ghost use Rattle.rlsf_model.specs.ChunkRows.{IsRow};
ghost use Rattle.rlsf_model.specs.Lists.{IsIn};
ghost use Rattle.rlsf_model.specs.State.{State};
ghost use Rattle.rlsf_table.specs.Table.{Table};

use crate::pool::SENTINEL;
use crate::{GRANULARITY, HEADER};
use rlsf_base::memory::{OpenMemory, Range};
use std::fmt;
use std::iter::FusedIterator;
use std::marker::Model;

/// A block of a pool, used or free, as an iteration returns it.
#[derive(Clone, Copy)]
pub struct BlockInfo {
    range: Range,
    is_occupied: bool,
}

impl Model for BlockInfo {
    ghost use Rattle.rlsf_blocks.specs.Blocks.{Block, IsBlock};

    ghost Value = { Block };

    ghost view = { λ b. record { range = b.range; is_occupied = b.is_occupied } };

    ghost invariant = { λ b. IsBlock (record { range = b.range; is_occupied = b.is_occupied }) };

    ghost inverse = { λ b. record { range = b.range; is_occupied = b.is_occupied } };
}

impl BlockInfo {
    /// Returns the length of the block in bytes, with its header.
    pub fn size(&self) -> usize
        ensures { result ≡ self.now.range.len }
    {
        self.range.len
    }

    /// Returns the length of the block in bytes without a header of 16. This is the greatest size that fits, for an alignment below 32.
    pub fn max_payload_size(&self) -> usize
        ensures value { result + 16 ≡ self.now.range.len }
        ensures fits { (size : ℕ) → (round32 (16 + size) ≤ self.now.range.len) ↔ (size ≤ result) }
    {
        self.range.len - HEADER
    }

    /// Returns the range of the complete block, with its header.
    pub fn as_ptr(&self) -> Range
        ensures { result ≡ self.now.range }
    {
        self.range
    }

    /// Returns whether the block is used.
    pub fn is_occupied(&self) -> bool
        ensures { result ≡ self.now.is_occupied }
    {
        self.is_occupied
    }
}

impl fmt::Debug for BlockInfo {
    fn fmt<W: fmt::Write>(&self, f: &mut fmt::Formatter<W>) -> fmt::Result {
        let Range { start, len } = self.range;
        let end = start + len;
        let is_occupied = self.is_occupied;
        write!(
            f,
            "BlockInfo {{ ptr: {start}..{end}, size: {len}, is_occupied: {is_occupied} }}"
        )
    }
}

/// The blocks of contiguous chunks except the sentinels, in address order.
#[derive(Drop)]
pub struct Blocks<'a> {
    memory: &'a OpenMemory,
    // The start of the next block, or the end.
    start: usize,
    end: usize,
}

impl<'a> Model for Blocks<'a> {
    ghost use Rattle.std.specs.Prelude.{List};
    ghost use Rattle.rlsf_blocks.specs.Blocks.{Block};
    ghost use Rattle.rlsf_blocks.specs.Steps.Walk.{blocks_between, IsUnderway};

    ghost Value = { List Block };

    ghost view = { λ b. blocks_between b.memory.now b.start b.end };

    ghost invariant = { λ b. IsUnderway b.memory.now b.start b.end };
}

/// Returns the start and the end of an iteration over a range: its start rounded up to 32, and its end. If nothing lies between
/// these, both are one address.
pub(crate) fn span(range: Range) -> (usize, usize)
    ensures { (fllen sllen : ℕ) (m : Space) (t : Table) (s : State) → StandsFor fllen sllen (contents m t) s → IsRow s (walked range) → IsSpan (walked range) result.0 result.1 }
{
    // A range past the last address is empty once its start is rounded.
    let end = range.start.saturating_add(range.len);
    let start = match range.start.checked_next_multiple_of(GRANULARITY) {
        Some(start) if start < end => start,
        _ => end,
    };
    (start, end)
}

/// Returns the blocks of a range, from its start rounded up to 32 to its end, except the sentinels, in address order.
///
/// That part of the range must be complete contiguous chunks, or empty, in some state that the memory and a class table
/// represent.
pub fn walk_blocks(memory: &OpenMemory, range: Range) -> Blocks<'_>
    requires { (fllen : ℕ) × (sllen : ℕ) × (t : Table) × (s : State) × StandsFor fllen sllen (contents memory.now t) s × IsRow s (walked range) }
    ensures blocks { (fllen sllen : ℕ) (t : Table) (s : State) → StandsFor fllen sllen (contents memory.now t) s → IsRow s (walked range) → AreBlocks s (walked range) result }
    ensures runs { GivesInOrder BlockInfo }
{
    let (start, end) = span(range);
    Blocks { memory, start, end }
}

/// Returns the end of the chunk that begins at `start`. An iteration over its blocks arrives at its sentinel.
pub fn chunk_end(memory: &OpenMemory, start: usize) -> usize
    requires { (fllen : ℕ) × (sllen : ℕ) × (t : Table) × (s : State) × (c : Range) × StandsFor fllen sllen (contents memory.now t) s × IsIn c s.chunks × (c.start ≡ start) }
    ensures { (fllen sllen : ℕ) (t : Table) (s : State) (c : Range) → StandsFor fllen sllen (contents memory.now t) s → IsIn c s.chunks → c.start ≡ start → result ≡ end_of c }
{
    let mut block = start;
    let mut word = memory.word(block);
    while word != SENTINEL {
        block += (word / GRANULARITY as u64 * GRANULARITY as u64) as usize;
        word = memory.word(block);
    }
    block + GRANULARITY
}

impl<'a> Iterator for Blocks<'a> {
    type Item = BlockInfo;

    ghost next_gives = { TakesFirst (λ b. b) };

    ghost remaining = { λ bs. at_most (length bs) };

    fn next(&mut self) -> Option<BlockInfo> {
        if self.start == self.end {
            return None;
        }
        let start = self.start;
        let word = self.memory.word(start);
        let len = (word / GRANULARITY as u64 * GRANULARITY as u64) as usize;
        let behind = start + len;
        // A chunk's last block has its sentinel behind it.
        let is_last = self.memory.word(behind) == SENTINEL;
        self.start = if is_last {
            behind + GRANULARITY
        } else {
            behind
        };
        Some(BlockInfo {
            range: Range { start, len },
            is_occupied: word % 2 == 1,
        })
    }
}

impl<'a> FusedIterator for Blocks<'a> {}
