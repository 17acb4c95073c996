//! The calls on a core that give a payload another size, and may move it.

ghost use Rattle.std.specs.Prelude.{◌≡◌, ◌<◌, ◌-◌, [], IfNone, IfSome, IsSome};
ghost use Rattle.rlsf_model.specs.Reallocate.{Reallocates};
ghost use Rattle.rlsf_model.specs.Run.{IsSomeLive};
ghost use Rattle.rlsf_blocks.specs.Laws.{read_from};
ghost use Rattle.rlsf_tlsf.specs.Allocator.{allocator};
ghost use Rattle.rlsf_tlsf.specs.Bounds.{IfWithinBounds, KeepsBounds, KeepsBoundsAnyAlign};
ghost use Rattle.rlsf_tlsf.specs.Cores.{IsCore, LeavesCoreCopying};
ghost use Rattle.rlsf_tlsf.specs.Moving.{IsHerePayload, IsRelocated};
ghost use Rattle.rlsf_tlsf.specs.Results.{IsReallocatedAnyAlign, IsUnchanged, KeepsFrameMoving};
ghost use Rattle.rlsf_tlsf.specs.UnknownAlign.{ReallocatesAnyAlign};

use crate::core_calls::resizing::resize_block_to;
use crate::core_calls::{find_block, resize_block_in};
use crate::state::GhostState;
use rlsf_base::memory::{Layout, OpenMemory};
use rlsf_blocks::reallocation::{move_block, move_elsewhere};
use rlsf_table::ClassTable;

/// Changes the size of the payload at `addr` to that of `layout`, as `Tlsf::reallocate` does. Returns its address.
///
/// Its bytes must be here. They are still the memory's after the call.
///
/// `WHOLE` is 1 for a memory of which no byte is raw or out: its bytes are copied faster.
///
/// At most 66 word accesses, and at most the bytes that the payload had are copied. None is copied if it stays.
#[inline(always)]
pub fn reallocate_in<const FLLEN: usize, const SLLEN: usize, const WHOLE: usize>(
    memory: &mut OpenMemory,
    table: &mut ClassTable<FLLEN, SLLEN>,
    state: &mut GhostState,
    addr: usize,
    layout: Layout,
) -> Option<usize>
    requires core { IsCore FLLEN SLLEN memory.old table.old state.old.state }
    requires here { IsHerePayload memory.old (read_from memory.old state.old.state) addr layout.align }
    requires whole { WHOLE ≡ 1 → memory.old.out ≡ [] }
    ensures left { LeavesCoreCopying FLLEN SLLEN memory.old memory.new table.new state.old.state state.new.state 66 (memory.new.copied - memory.old.copied) }
    ensures step { Reallocates SLLEN (read_from memory.old state.old.state) addr layout.size result (read_from memory.new state.new.state) }
    ensures result { IfSome result (IsRelocated memory.new (read_from memory.old state.old.state) (read_from memory.new state.new.state) addr layout.size layout.align) }
    ensures room { IfWithinBounds SLLEN (read_from memory.old state.old.state) layout.size layout.align (IsSome result) }
    ensures bounds { KeepsBounds SLLEN (read_from memory.old state.old.state) (read_from memory.new state.new.state) layout.size layout.align }
    ensures refused { IfNone result (IsUnchanged (allocator memory.old table.old state.old.state) (allocator memory.new table.new state.new.state)) }
    ensures frame { KeepsFrameMoving addr layout.size (allocator memory.old table.old state.old.state) (allocator memory.new table.new state.new.state) }
{
    let block = find_block(memory, addr, Some(layout.align()));
    // What lies before the payload in its block is shorter than the memory. So with any size the block's length fits in a word.
    memory.is_below_limit();
    if let Some(to) = resize_block_to(memory, table, state, block, addr, layout) {
        return Some(to);
    }
    let to = move_block::<FLLEN, SLLEN, WHOLE>(memory, table, block, addr, layout);
    if to == 0 {
        return None;
    }
    state.reallocate(SLLEN, addr, layout.size());
    Some(to)
}

/// Changes the size of the payload at `addr` to that of `layout`, as `Tlsf::reallocate_unknown_align` does. Returns its address.
///
/// No byte of the memory may be raw or out.
#[inline(always)]
pub(crate) fn reallocate_unknown_align_in<const FLLEN: usize, const SLLEN: usize>(
    memory: &mut OpenMemory,
    table: &mut ClassTable<FLLEN, SLLEN>,
    state: &mut GhostState,
    addr: usize,
    layout: Layout,
) -> Option<usize>
    requires core { IsCore FLLEN SLLEN memory.old table.old state.old.state }
    requires live { IsSomeLive (read_from memory.old state.old.state) addr }
    requires whole { memory.old.out ≡ [] }
    ensures left { LeavesCoreCopying FLLEN SLLEN memory.old memory.new table.new state.old.state state.new.state 63 (memory.new.copied - memory.old.copied) }
    ensures step { ReallocatesAnyAlign SLLEN (read_from memory.old state.old.state) addr layout.size layout.align result (read_from memory.new state.new.state) }
    ensures result { IfSome result (λ to. 0 < to × IsReallocatedAnyAlign (read_from memory.old state.old.state) (read_from memory.new state.new.state) addr layout.size layout.align to) }
    ensures room { IfWithinBounds SLLEN (read_from memory.old state.old.state) layout.size layout.align (IsSome result) }
    ensures bounds { KeepsBoundsAnyAlign SLLEN (read_from memory.old state.old.state) addr layout.size layout.align (read_from memory.new state.new.state) }
    ensures refused { IfNone result (IsUnchanged (allocator memory.old table.old state.old.state) (allocator memory.new table.new state.new.state)) }
    ensures frame { KeepsFrameMoving addr layout.size (allocator memory.old table.old state.old.state) (allocator memory.new table.new state.new.state) }
{
    let block = find_block(memory, addr, None);
    // What lies before the payload in its block is shorter than the memory. So with any size the block's length fits in a word.
    memory.is_below_limit();
    if resize_block_in(memory, table, state, block, addr, layout) {
        return Some(addr);
    }
    let view = memory.view();
    // `NARROW` is 2, so that it is none of the functions that `move_block` calls for the same allocator: LLVM takes each of them in line.
    match move_elsewhere::<FLLEN, SLLEN, 1, 2>(memory, view, table, block, addr, layout) {
        Some(moved) => {
            state.allocate(SLLEN, layout.size(), layout.align());
            state.deallocate(addr);
            Some(moved)
        }
        None => None,
    }
}
