//! A payload gets another size without moving.

ghost use Rattle.std.specs.Prelude.{◌≡◌, ◌<◌, ◌+◌, ◌-◌, ◌^◌, true, false, IfNone, IfSome};
ghost use Rattle.rlsf_model.specs.NoMove.{ReallocatesWithoutMove};
ghost use Rattle.rlsf_blocks.specs.Laws.{read_from};
ghost use Rattle.rlsf_tlsf.specs.CoreResizes.{IsOwnBehind, KeepsBoundsThere, KeepsCore, KeepsPayloadsResizing, stayed_if};
ghost use Rattle.rlsf_tlsf.specs.Cores.{IsCore, IsOwnFound, LeavesCore, found_cost};
ghost use Rattle.rlsf_tlsf.specs.Results.{IsResized};

use crate::core_calls::find_block;
use crate::state::GhostState;
use rlsf_base::memory::{Layout, OpenMemory};
use rlsf_blocks::reallocation::resize_kept_block;
use rlsf_table::ClassTable;

/// Gives the payload at `addr`, whose used block begins at `block`, the size of `layout` without moving it, as `resize_block_in` does. Returns
/// its address, or `None` if the bytes don't suffice. Then nothing changes.
#[inline(always)]
pub(crate) fn resize_block_to<const FLLEN: usize, const SLLEN: usize>(
    memory: &mut OpenMemory,
    table: &mut ClassTable<FLLEN, SLLEN>,
    state: &mut GhostState,
    block: usize,
    addr: usize,
    layout: Layout,
) -> Option<usize>
    requires core { IsCore FLLEN SLLEN memory.old table.old state.old.state }
    requires own { IsOwnBehind memory.old (read_from memory.old state.old.state) addr block layout.size }
    requires fits { addr - block + layout.size + 31 < 2 ^ 64 }
    ensures left { LeavesCore FLLEN SLLEN memory.old memory.new table.new state.old.state state.new.state 24 }
    ensures step { ReallocatesWithoutMove (read_from memory.old state.old.state) addr layout.size result (read_from memory.new state.new.state) }
    ensures result { IfSome result (λ to. (to ≡ addr) × IsResized (read_from memory.old state.old.state) (read_from memory.new state.new.state) addr layout.size addr) }
    ensures kept { KeepsPayloadsResizing (read_from memory.old state.old.state) (read_from memory.new state.new.state) addr }
    ensures bounds { KeepsBoundsThere SLLEN (read_from memory.old state.old.state) (read_from memory.new state.new.state) addr layout.size }
    ensures refused { IfNone result (KeepsCore memory.old memory.new table.old table.new state.old.state state.new.state 2) }
{
    let view = memory.view();
    let Some(to) = resize_kept_block(memory, view, table, block, addr, layout) else {
        return None;
    };
    state.reallocate(SLLEN, addr, layout.size());
    Some(to)
}

/// Gives the payload at `addr`, whose used block begins at `block`, the size of `layout` without moving it, as
/// `Tlsf::reallocate_no_move` does. Returns whether the bytes suffice. If not, nothing changes.
///
/// Of `layout` only the size counts: the payload has any alignment. The length of its block has to fit in a word. Usable bytes may
/// be out if they are in its block of the new size, too.
///
/// At most 24 word accesses, and at most 2 if the bytes do not suffice. No byte is copied.
#[inline(always)]
pub fn resize_block_in<const FLLEN: usize, const SLLEN: usize>(
    memory: &mut OpenMemory,
    table: &mut ClassTable<FLLEN, SLLEN>,
    state: &mut GhostState,
    block: usize,
    addr: usize,
    layout: Layout,
) -> bool
    requires core { IsCore FLLEN SLLEN memory.old table.old state.old.state }
    requires own { IsOwnBehind memory.old (read_from memory.old state.old.state) addr block layout.size }
    requires fits { addr - block + layout.size + 31 < 2 ^ 64 }
    ensures left { LeavesCore FLLEN SLLEN memory.old memory.new table.new state.old.state state.new.state 24 }
    ensures step { ReallocatesWithoutMove (read_from memory.old state.old.state) addr layout.size (stayed_if result addr) (read_from memory.new state.new.state) }
    ensures result { result ≡ true → IsResized (read_from memory.old state.old.state) (read_from memory.new state.new.state) addr layout.size addr }
    ensures kept { KeepsPayloadsResizing (read_from memory.old state.old.state) (read_from memory.new state.new.state) addr }
    ensures bounds { KeepsBoundsThere SLLEN (read_from memory.old state.old.state) (read_from memory.new state.new.state) addr layout.size }
    ensures refused { result ≡ false → KeepsCore memory.old memory.new table.old table.new state.old.state state.new.state 2 }
{
    match resize_block_to(memory, table, state, block, addr, layout) {
        Some(_) => true,
        None => false,
    }
}

/// Gives the payload at `addr` the size of `layout` without moving it, as `resize_block_in` does. Its block is found in the memory.
///
/// Of `layout` only the size counts. If `align` is one, it is the payload's alignment. No usable byte of the payload may be out.
///
/// At most 25 word accesses with the alignment, and 26 without it. If the bytes do not suffice, at most 3 and 4. No byte is copied.
#[inline(always)]
pub fn resize_in<const FLLEN: usize, const SLLEN: usize>(
    memory: &mut OpenMemory,
    table: &mut ClassTable<FLLEN, SLLEN>,
    state: &mut GhostState,
    addr: usize,
    align: Option<usize>,
    layout: Layout,
) -> bool
    requires core { IsCore FLLEN SLLEN memory.old table.old state.old.state }
    requires own { IsOwnFound memory.old (read_from memory.old state.old.state) addr align }
    ensures left { LeavesCore FLLEN SLLEN memory.old memory.new table.new state.old.state state.new.state (found_cost align + 24) }
    ensures step { ReallocatesWithoutMove (read_from memory.old state.old.state) addr layout.size (stayed_if result addr) (read_from memory.new state.new.state) }
    ensures result { result ≡ true → IsResized (read_from memory.old state.old.state) (read_from memory.new state.new.state) addr layout.size addr }
    ensures kept { KeepsPayloadsResizing (read_from memory.old state.old.state) (read_from memory.new state.new.state) addr }
    ensures bounds { KeepsBoundsThere SLLEN (read_from memory.old state.old.state) (read_from memory.new state.new.state) addr layout.size }
    ensures refused { result ≡ false → KeepsCore memory.old memory.new table.old table.new state.old.state state.new.state (found_cost align + 2) }
{
    let block = find_block(memory, addr, align);
    // What lies before the payload in its block is shorter than the memory. So with any size the block's length fits in a word.
    memory.is_below_limit();
    resize_block_in(memory, table, state, block, addr, layout)
}
