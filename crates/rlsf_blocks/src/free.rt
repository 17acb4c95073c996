//! A used block becomes free.

ghost use Rattle.std.specs.Prelude.{◌≡◌, ◌+◌, ◌<◌, ℕ, List, IfSome, unwrap_or};
ghost use Rattle.rlsf_base.specs.declared.memory.range.Range.{Range};
ghost use Rattle.rlsf_model_sizes.specs.SizeClass.{IsValid};
ghost use Rattle.rlsf_base.specs.OpenSpace.{IsOwned, SameOwn, StaysHere};
ghost use Rattle.rlsf_model.specs.Lists.{IsIn};
ghost use Rattle.rlsf_model.specs.Release.{released};
ghost use Rattle.rlsf_model.specs.State.{State, Used, IsLive, usable};
ghost use Rattle.rlsf_table.specs.Counts.{Costs, Counts};
ghost use Rattle.rlsf_table.specs.FreeTable.{IsFreeTable};
ghost use Rattle.rlsf_table.specs.Table.{Table};
ghost use Rattle.rlsf_blocks.specs.StandsFor.{contents, StandsFor};
ghost use Rattle.rlsf_blocks.specs.Steps.Join.{AtEachMarked, IsMarked, IsNextOut, IsPreviousOut, IsNewFreeBlock};
ghost use Rattle.rlsf_blocks.specs.Steps.LiveBlock.{IsBlockOf};
ghost use Rattle.rlsf_blocks.specs.Steps.Rest.{AtEachInnerRoom, IsInnerRoom};
ghost use Rattle.rlsf_blocks.specs.Steps.Standing.{AtEachUsed, StandsAfter};

use crate::{GRANULARITY, HEADER};
use rlsf_base::memory::{OpenMemory, View};
use rlsf_table::{
    ClassTable, PAD, PREVIOUS_BLOCK, is_free, link_joined_block, unlink_free_block, used_end,
};

/// Returns the used block whose payload at `payload` was allocated with that alignment.
#[inline(always)]
pub fn used_block(memory: &mut OpenMemory, view: View, payload: usize, align: usize) -> usize
    requires live { (fllen : ℕ) × (sllen : ℕ) × (t : Table) × (s : State) × StandsFor fllen sllen (contents memory.old t) s × IsLive s payload align }
    requires view { view ≡ memory.old.view }
    ensures block { (fllen sllen : ℕ) (t : Table) (s : State) → StandsFor fllen sllen (contents memory.old t) s → IsLive s payload align → IsBlockOf s payload align result }
    ensures counts { Counts memory.old memory.new 1 }
{
    if align < GRANULARITY {
        payload - HEADER
    } else {
        memory.load_at(view, payload - PAD) as usize
    }
}

/// Takes the block at `block` out of its list, if it is free. Returns the bytes of the block that was taken out.
#[inline(always)]
fn take_free<const FLLEN: usize, const SLLEN: usize>(
    memory: &mut OpenMemory,
    view: View,
    table: &mut ClassTable<FLLEN, SLLEN>,
    block: usize,
) -> Option<usize>
    requires parameters { IsValid 128 128 FLLEN SLLEN }
    requires marked { (free : List Range) × IsFreeTable FLLEN SLLEN memory.old table.old free × IsMarked memory.old free block }
    requires view { view ≡ memory.old.view }
    ensures step { AtEachMarked FLLEN SLLEN memory.old table.old block (λ free. IsNextOut FLLEN SLLEN memory.old memory.new table.new free block (unwrap_or result 0)) }
    ensures some { IfSome result (λ len. 0 < len) }
    ensures costs { Costs memory.old memory.new 9 0 }
{
    let size = memory.load_at(view, block);
    if is_free(size) {
        unlink_free_block(memory, view, table, block, size as usize);
        Some(size as usize)
    } else {
        None
    }
}

/// Takes the block at `block` out of its list, if it is free. Returns the bytes of the block that was taken out, or 0.
#[inline(always)]
pub fn take_if_free<const FLLEN: usize, const SLLEN: usize>(
    memory: &mut OpenMemory,
    view: View,
    table: &mut ClassTable<FLLEN, SLLEN>,
    block: usize,
) -> usize
    requires parameters { IsValid 128 128 FLLEN SLLEN }
    requires marked { (free : List Range) × IsFreeTable FLLEN SLLEN memory.old table.old free × IsMarked memory.old free block }
    requires view { view ≡ memory.old.view }
    ensures step { AtEachMarked FLLEN SLLEN memory.old table.old block (λ free. IsNextOut FLLEN SLLEN memory.old memory.new table.new free block result) }
    ensures costs { Costs memory.old memory.new 9 0 }
{
    match take_free(memory, view, table, block) {
        Some(len) => len,
        None => 0,
    }
}

/// Takes the block before the used one at `block` out of its list, if it is free. Returns the start of the removed block,
/// or `block` if none was removed.
#[inline(always)]
pub fn take_previous<const FLLEN: usize, const SLLEN: usize>(
    memory: &mut OpenMemory,
    view: View,
    table: &mut ClassTable<FLLEN, SLLEN>,
    block: usize,
) -> usize
    requires parameters { IsValid 128 128 FLLEN SLLEN }
    requires used { (s : State) × (u : Used) × StandsFor FLLEN SLLEN (contents memory.old table.old) s × IsIn u s.used × (u.block.start ≡ block) }
    requires view { view ≡ memory.old.view }
    ensures step { AtEachUsed FLLEN SLLEN memory.old table.old block (λ s u. IsPreviousOut FLLEN SLLEN memory.old memory.new table.new s.free block result) }
    ensures costs { Costs memory.old memory.new 10 0 }
{
    let previous = memory.load_at(view, block + PREVIOUS_BLOCK) as usize;
    if previous == 0 {
        return block;
    }
    match take_free(memory, view, table, previous) {
        Some(_) => previous,
        None => block,
    }
}

/// Makes a free block of the `len` bytes at `block`. The word that names the block before it stays.
#[inline(always)]
fn put<const FLLEN: usize, const SLLEN: usize>(
    memory: &mut OpenMemory,
    view: View,
    table: &mut ClassTable<FLLEN, SLLEN>,
    block: usize,
    len: usize,
)
    requires parameters { IsValid 128 128 FLLEN SLLEN }
    requires room { (free : List Range) × (r : Range) × (r.start ≡ block) × (r.len ≡ len) × IsInnerRoom FLLEN SLLEN memory.old table.old free r }
    requires view { view ≡ memory.old.view }
    ensures step { AtEachInnerRoom FLLEN SLLEN memory.old table.old block len (λ free r. IsNewFreeBlock FLLEN SLLEN memory.old memory.new table.new free r) }
    ensures costs { Costs memory.old memory.new 11 0 }
{
    memory.set_word_at(view, block, len as u64);
    memory.set_word_at(view, block + len + PREVIOUS_BLOCK, block as u64);
    link_joined_block(memory, view, table, block, len);
}

/// Makes the used block at `block` free. Joined with a free block before it and a free block behind it, it becomes the
/// newest.
#[inline(always)]
pub fn deallocate_block<const FLLEN: usize, const SLLEN: usize>(
    memory: &mut OpenMemory,
    view: View,
    table: &mut ClassTable<FLLEN, SLLEN>,
    block: usize,
)
    requires parameters { IsValid 128 128 FLLEN SLLEN }
    requires used { (s : State) × (u : Used) × StandsFor FLLEN SLLEN (contents memory.old table.old) s × IsIn u s.used × (u.block.start ≡ block) × IsOwned memory.old (usable u) }
    requires view { view ≡ memory.old.view }
    ensures step { AtEachUsed FLLEN SLLEN memory.old table.old block (λ s u. IsOwned memory.old (usable u) → StandsAfter FLLEN SLLEN memory.old memory.new table.new s (released s u)) }
    ensures costs { Costs memory.old memory.new 31 0 }
    ensures own { SameOwn memory.old memory.new }
    ensures here { StaysHere memory.old memory.new }
{
    let end = used_end(block, memory.load_at(view, block));
    let start = take_previous(memory, view, table, block);
    let next = take_if_free(memory, view, table, end);
    put(memory, view, table, start, end - start + next);
}
