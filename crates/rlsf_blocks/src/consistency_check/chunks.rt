//! Chunks and their blocks, from one address up to another.

ghost use Rattle.std.specs.Prelude.{◌≡◌, ◌↔◌, ◌⊎◌, ℕ, ◌+◌, ◌%◌, ◌<◌, ◌≤◌, Some, IfSome, true};
ghost use Rattle.rlsf_base.specs.declared.memory.range.Range.{Range};
ghost use Rattle.rlsf_base.specs.Range.{end_of};
ghost use Rattle.rlsf_model_sizes.specs.SizeClass.{IsValid};
ghost use Rattle.rlsf_model_sizes.specs.Sizes.{IsSize};
ghost use Rattle.rlsf_base.specs.Space.{word_at};
ghost use Rattle.rlsf_model.specs.Lists.{IsIn};
ghost use Rattle.rlsf_model.specs.State.{State, between};
ghost use Rattle.rlsf_blocks.specs.Consistency.Layout.{HasInBandLayout};
ghost use Rattle.rlsf_blocks.specs.Steps.BlockAt.{CanReadChunk, CanReadChunks, IsBlockTo, IsExactly, IsSpanOf, IsUsedOrFree};
ghost use Rattle.rlsf_blocks.specs.Steps.Legible.{IsLegibleBlock};

use crate::GRANULARITY;
use crate::consistency_check::links::is_linked;
use crate::consistency_check::words::has_word;
use rlsf_base::classes::map_floor;
use rlsf_base::memory::OpenMemory;
use rlsf_table::{ClassTable, PREVIOUS_BLOCK, SIZE_SENTINEL, SIZE_USED, is_free};

// The size word of a sentinel.
const SENTINEL: u64 = GRANULARITY as u64 + SIZE_USED + SIZE_SENTINEL;

/// Returns whether the words of a block are those of a used one, or of a free one that is linked and has no free one behind it.
fn is_used_or_free<const FLLEN: usize, const SLLEN: usize>(
    memory: &OpenMemory,
    table: &ClassTable<FLLEN, SLLEN>,
    pools: &[usize],
    size: u64,
    block: usize,
    len: usize,
) -> bool
    requires parameters { IsValid 128 128 FLLEN SLLEN }
    requires span { IsSpanOf pools.now memory.now block (block + len + 32) }
    requires legible { IsLegibleBlock pools.now memory.now block }
    requires whole { block % 32 ≡ 0 }
    requires len { IsSize len }
    requires word { size ≡ word_at memory.now block }
    requires size { (size ≡ len) ⊎ (size ≡ len + 1) }
    ensures { (result ≡ true) ↔ IsUsedOrFree FLLEN SLLEN pools.now memory.now table.now block (block + len) }
{
    if !is_free(size) {
        return true;
    }
    // Opens the memory's invariant for the prover: each address fits in a word.
    let _ = memory.start();
    // No two free blocks adjoin.
    if is_free(memory.word(block + len)) {
        return false;
    }
    is_linked(memory, table, pools, block, len)
}

/// Returns the end of the block at `block`. Returns `None` if the words there aren't those of a block with 32 bytes behind it before
/// `end`.
fn block_end<const FLLEN: usize, const SLLEN: usize>(
    memory: &OpenMemory,
    table: &ClassTable<FLLEN, SLLEN>,
    pools: &[usize],
    block: usize,
    end: usize,
) -> Option<usize>
    requires parameters { IsValid 128 128 FLLEN SLLEN }
    requires span { IsSpanOf pools.now memory.now block end }
    requires legible { IsLegibleBlock pools.now memory.now block }
    requires whole { block % 32 ≡ 0 }
    requires room { block + 32 ≤ end }
    ensures some { IfSome result (IsBlockTo FLLEN SLLEN pools.now memory.now table.now block end) }
    ensures each { (stop : ℕ) → IsBlockTo FLLEN SLLEN pools.now memory.now table.now block end stop → result ≡ Some stop }
{
    let size = memory.word(block);
    let flags = size % GRANULARITY as u64;
    let len = (size - flags) as usize;
    if flags > SIZE_USED || len == 0 || len > end - GRANULARITY - block {
        return None;
    }
    let behind = block + len;
    if !has_word(memory, pools, behind + PREVIOUS_BLOCK, block as u64) {
        return None;
    }
    if is_used_or_free(memory, table, pools, size, block, len) {
        Some(behind)
    } else {
        None
    }
}

/// Returns the end of the chunk that begins at `chunk`. Returns `None` if the words from there on aren't those of a chunk that ends at
/// `end` or before.
fn checked_chunk_end<const FLLEN: usize, const SLLEN: usize>(
    memory: &OpenMemory,
    table: &ClassTable<FLLEN, SLLEN>,
    pools: &[usize],
    chunk: usize,
    end: usize,
) -> Option<usize>
    requires parameters { IsValid 128 128 FLLEN SLLEN }
    requires span { IsSpanOf pools.now memory.now chunk end }
    requires legible { CanReadChunk FLLEN SLLEN pools.now memory.now table.now chunk end }
    requires whole { chunk % 32 ≡ 0 }
    requires some { chunk < end }
    ensures some { IfSome result (λ stop. (chunk < stop) × (stop ≤ end) × (stop % 32 ≡ 0) × ((s : State) × IsExactly FLLEN SLLEN pools.now memory.now table.now chunk stop s)) }
    ensures each { (s : State) (c r : Range) → HasInBandLayout FLLEN SLLEN pools.now memory.now table.now r s → IsIn c s.chunks → c.start ≡ chunk → end_of c ≤ end → result ≡ Some (end_of c) }
{
    // A chunk has a block and a sentinel.
    if end - chunk < 2 * GRANULARITY {
        return None;
    }
    if !has_word(memory, pools, chunk + PREVIOUS_BLOCK, 0) {
        return None;
    }
    let mut block = chunk;
    while !has_word(memory, pools, block, SENTINEL) {
        match block_end(memory, table, pools, block, end) {
            Some(next) => block = next,
            None => return None,
        }
    }
    if block == chunk {
        return None;
    }
    // A chunk is no longer than the classes allow.
    match map_floor::<u128, u128, FLLEN, SLLEN>(block - chunk) {
        Some(_) => Some(block + GRANULARITY),
        None => None,
    }
}

/// Returns whether the words from one address up to another are those of complete chunks.
pub(crate) fn are_chunks<const FLLEN: usize, const SLLEN: usize>(
    memory: &OpenMemory,
    table: &ClassTable<FLLEN, SLLEN>,
    pools: &[usize],
    start: usize,
    end: usize,
) -> bool
    requires parameters { IsValid 128 128 FLLEN SLLEN }
    requires span { IsSpanOf pools.now memory.now start end }
    requires legible { CanReadChunks FLLEN SLLEN pools.now memory.now table.now (between start end) }
    requires whole { start % 32 ≡ 0 }
    requires order { start ≤ end }
    ensures { (result ≡ true) ↔ ((s : State) × HasInBandLayout FLLEN SLLEN pools.now memory.now table.now (between start end) s) }
{
    let mut chunk = start;
    while chunk < end {
        match checked_chunk_end(memory, table, pools, chunk, end) {
            Some(next) => chunk = next,
            None => return false,
        }
    }
    true
}
