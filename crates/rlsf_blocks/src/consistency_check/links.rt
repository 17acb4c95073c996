//! Free blocks and the list of their class.

ghost use Rattle.std.specs.Prelude.{◌≡◌, ◌≢◌, ◌↔◌, ◌+◌, true};
ghost use Rattle.rlsf_base.specs.Range.{range_at};
ghost use Rattle.rlsf_model_sizes.specs.SizeClass.{IsValid};
ghost use Rattle.rlsf_model_sizes.specs.Sizes.{IsSize};
ghost use Rattle.rlsf_blocks.specs.Consistency.Linked.{IsHead, IsLinked, IsNeighbour, SameClass};
ghost use Rattle.rlsf_blocks.specs.Consistency.Pools.{IsPoolWord};
ghost use Rattle.rlsf_blocks.specs.Steps.Legible.{HasLegibleLinks, IsLegibleAt};

use crate::consistency_check::words::{free_size, has_word_behind};
use rlsf_base::classes::{class_of, map_floor};
use rlsf_base::memory::OpenMemory;
use rlsf_table::{ClassTable, NEXT_FREE, PREVIOUS_FREE};

/// Returns whether two sizes have one class.
fn same_class<const FLLEN: usize, const SLLEN: usize>(size: usize, other: usize) -> bool
    requires parameters { IsValid 128 128 FLLEN SLLEN }
    requires sizes { IsSize size × IsSize other }
    ensures { (result ≡ true) ↔ SameClass SLLEN size other }
{
    let (fl, sl) = class_of::<SLLEN>(size);
    let (row, place) = class_of::<SLLEN>(other);
    fl == row && sl == place
}

/// Returns whether a free block of the class of `len` is at `addr`, and the word at an offset from there names `block`.
fn is_neighbour<const FLLEN: usize, const SLLEN: usize>(
    memory: &OpenMemory,
    pools: &[usize],
    addr: usize,
    offset: usize,
    block: usize,
    len: usize,
) -> bool
    requires parameters { IsValid 128 128 FLLEN SLLEN }
    requires size { IsSize len }
    requires legible { IsLegibleAt pools.now memory.now addr offset }
    ensures { (result ≡ true) ↔ IsNeighbour SLLEN pools.now memory.now (range_at block len) addr offset }
{
    match free_size(memory, pools, addr) {
        Some(size) => {
            same_class::<FLLEN, SLLEN>(size, len)
                && has_word_behind(memory, pools, addr, offset, block as u64)
        }
        None => false,
    }
}

/// Returns whether a link of a free block is 0, or leads to a free block of its class whose word at an offset names it.
fn leads_back<const FLLEN: usize, const SLLEN: usize>(
    memory: &OpenMemory,
    pools: &[usize],
    link: usize,
    offset: usize,
    block: usize,
    len: usize,
) -> bool
    requires parameters { IsValid 128 128 FLLEN SLLEN }
    requires size { IsSize len }
    requires legible { link ≢ 0 → IsLegibleAt pools.now memory.now link offset }
    ensures { (result ≡ true) ↔ (link ≢ 0 → IsNeighbour SLLEN pools.now memory.now (range_at block len) link offset) }
{
    link == 0 || is_neighbour::<FLLEN, SLLEN>(memory, pools, link, offset, block, len)
}

/// Returns whether a free block is the head of its class.
fn is_head<const FLLEN: usize, const SLLEN: usize>(
    table: &ClassTable<FLLEN, SLLEN>,
    block: usize,
    len: usize,
) -> bool
    requires parameters { IsValid 128 128 FLLEN SLLEN }
    requires size { IsSize len }
    ensures { (result ≡ true) ↔ IsHead FLLEN SLLEN table.now (range_at block len) }
{
    match map_floor::<u128, u128, FLLEN, SLLEN>(len) {
        Some((fl, sl)) => table.newest(fl, sl) == block,
        None => false,
    }
}

/// Returns whether the list of a free block's class leads through it in both directions. Its words must lie in the memory, and in one of the pools.
pub(crate) fn is_linked<const FLLEN: usize, const SLLEN: usize>(
    memory: &OpenMemory,
    table: &ClassTable<FLLEN, SLLEN>,
    pools: &[usize],
    block: usize,
    len: usize,
) -> bool
    requires parameters { IsValid 128 128 FLLEN SLLEN }
    requires size { IsSize len }
    requires next { IsPoolWord pools.now memory.now (block + 16) }
    requires previous { IsPoolWord pools.now memory.now (block + 24) }
    requires legible { HasLegibleLinks pools.now memory.now block }
    ensures { (result ≡ true) ↔ IsLinked FLLEN SLLEN pools.now memory.now table.now (range_at block len) }
{
    // Opens the memory's invariant for the prover: each address fits in a word.
    let _ = memory.start();
    let next = memory.word(block + NEXT_FREE) as usize;
    let previous = memory.word(block + PREVIOUS_FREE) as usize;
    if !leads_back::<FLLEN, SLLEN>(memory, pools, next, PREVIOUS_FREE, block, len) {
        return false;
    }
    if previous == 0 {
        is_head(table, block, len)
    } else {
        is_neighbour::<FLLEN, SLLEN>(memory, pools, previous, NEXT_FREE, block, len)
    }
}
