//! The calls on a core: a memory, a class table and the ghost state, which each allocator over pools has.

ghost use Rattle.std.specs.Prelude.{◌≡◌, ◌≤◌, ◌+◌, ◌*◌, length, IfNone, IfSome, IsSome};
ghost use Rattle.rlsf_base.specs.Addr.{reply};
ghost use Rattle.rlsf_base.specs.OpenSpace.{IsOwned};
ghost use Rattle.rlsf_base.specs.Space.{range_of};
ghost use Rattle.rlsf_model.specs.Allocate.{Allocates};
ghost use Rattle.rlsf_model.specs.ChunkRows.{IsRow};
ghost use Rattle.rlsf_model.specs.Insert.{Appends, Inserts, IsFresh, IsNext};
ghost use Rattle.rlsf_model.specs.Release.{Deallocates};
ghost use Rattle.rlsf_model.specs.Remove.{IsIdle, Removes};
ghost use Rattle.rlsf_table.specs.Counts.{Counts};
ghost use Rattle.rlsf_blocks.specs.Blocks.{walked};
ghost use Rattle.rlsf_blocks.specs.Laws.{read_from};
ghost use Rattle.rlsf_blocks.specs.Steps.Rest.{range_start};
ghost use Rattle.rlsf_tlsf.specs.Allocator.{allocator};
ghost use Rattle.rlsf_tlsf.specs.Bounds.{IfWithinBounds, KeepsAllBounds, KeepsBounds};
ghost use Rattle.rlsf_tlsf.specs.Cores.{AtEachFound, HasFound, IsCore, IsOwnBlock, IsOwnFound, IsPayloadRange, LeavesCore, append_cost, found_cost, insert_cost};
ghost use Rattle.rlsf_tlsf.specs.Results.{IsAppended, IsDeallocated, IsInserted, IsRemoved, IsUnchanged, KeepsFrameOfPools};

mod resizing;

use crate::state::GhostState;
pub use resizing::{resize_block_in, resize_in};
use rlsf_base::memory::{Layout, OpenMemory, Range};
use rlsf_blocks::{
    allocate_range, append_chunks, deallocate_block, insert_chunks, load_block_of, remove_chunks,
    used_block,
};
use rlsf_table::ClassTable;
use std::num::NonZeroUsize;

mod moving;

pub use moving::reallocate_in;
pub(crate) use moving::reallocate_unknown_align_in;

/// Allocates a payload for `layout`, as `Tlsf::allocate` does. Returns its bytes, which are still the memory's.
///
/// At most 27 word accesses. No byte is copied.
// In line, so that the tests of an alignment that is constant at the call go away.
#[inline(always)]
pub fn allocate_in<const FLLEN: usize, const SLLEN: usize>(
    memory: &mut OpenMemory,
    table: &mut ClassTable<FLLEN, SLLEN>,
    state: &mut GhostState,
    layout: Layout,
) -> Option<Range>
    requires { IsCore FLLEN SLLEN memory.old table.old state.old.state }
    ensures left { LeavesCore FLLEN SLLEN memory.old memory.new table.new state.old.state state.new.state 27 }
    ensures step { Allocates SLLEN (read_from memory.old state.old.state) layout.size layout.align (range_start result) (read_from memory.new state.new.state) }
    ensures result { IfSome result (λ r. IsPayloadRange memory.new (read_from memory.old state.old.state) (read_from memory.new state.new.state) layout.size layout.align r) }
    ensures room { IfWithinBounds SLLEN (read_from memory.old state.old.state) layout.size layout.align (IsSome result) }
    ensures bounds { KeepsBounds SLLEN (read_from memory.old state.old.state) (read_from memory.new state.new.state) layout.size layout.align }
    ensures refused { IfNone result (IsUnchanged (allocator memory.old table.old state.old.state) (allocator memory.new table.new state.new.state)) }
{
    let view = memory.view();
    match allocate_range(memory, view, table, layout) {
        Some(range) => {
            state.allocate(SLLEN, layout.size(), layout.align());
            Some(range)
        }
        None => None,
    }
}

/// Deallocates the payload at `addr`, whose used block begins at `block`, as `Tlsf::deallocate` does.
///
/// At most 31 word accesses. No byte is copied.
#[inline(always)]
pub fn deallocate_block_in<const FLLEN: usize, const SLLEN: usize>(
    memory: &mut OpenMemory,
    table: &mut ClassTable<FLLEN, SLLEN>,
    state: &mut GhostState,
    block: usize,
    addr: usize,
)
    requires core { IsCore FLLEN SLLEN memory.old table.old state.old.state }
    requires own { IsOwnBlock memory.old (read_from memory.old state.old.state) addr block }
    ensures left { LeavesCore FLLEN SLLEN memory.old memory.new table.new state.old.state state.new.state 31 }
    ensures step { Deallocates (read_from memory.old state.old.state) addr (read_from memory.new state.new.state) }
    ensures result { IsDeallocated (read_from memory.old state.old.state) (read_from memory.new state.new.state) addr }
    ensures bounds { KeepsAllBounds SLLEN (read_from memory.old state.old.state) (read_from memory.new state.new.state) }
{
    let view = memory.view();
    deallocate_block(memory, view, table, block);
    state.deallocate(addr);
}

// Returns the start of the used block of the payload at `addr`: by its alignment, if that is passed, or else by two words.
#[inline(always)]
pub(crate) fn find_block(memory: &mut OpenMemory, addr: usize, align: Option<usize>) -> usize
    requires { HasFound memory.old addr align }
    ensures block { AtEachFound memory.old addr align (λ u. result ≡ u.block.start) }
    ensures counts { Counts memory.old memory.new (found_cost align) }
{
    match align {
        Some(align) => {
            let view = memory.view();
            used_block(memory, view, addr, align)
        }
        None => load_block_of(memory, addr),
    }
}

/// Deallocates the payload at `addr`. If `align` is one, it is its alignment, and it is deallocated as `Tlsf::deallocate` does. Or else it is as
/// `Tlsf::deallocate_unknown_align` does.
///
/// At most 32 word accesses with the alignment, and 33 without it. No byte is copied.
#[inline(always)]
pub fn deallocate_in<const FLLEN: usize, const SLLEN: usize>(
    memory: &mut OpenMemory,
    table: &mut ClassTable<FLLEN, SLLEN>,
    state: &mut GhostState,
    addr: usize,
    align: Option<usize>,
)
    requires core { IsCore FLLEN SLLEN memory.old table.old state.old.state }
    requires own { IsOwnFound memory.old (read_from memory.old state.old.state) addr align }
    ensures left { LeavesCore FLLEN SLLEN memory.old memory.new table.new state.old.state state.new.state (found_cost align + 31) }
    ensures step { Deallocates (read_from memory.old state.old.state) addr (read_from memory.new state.new.state) }
    ensures result { IsDeallocated (read_from memory.old state.old.state) (read_from memory.new state.new.state) addr }
    ensures bounds { KeepsAllBounds SLLEN (read_from memory.old state.old.state) (read_from memory.new state.new.state) }
{
    let block = find_block(memory, addr, align);
    deallocate_block_in(memory, table, state, block, addr);
}

/// Inserts a range of the memory as a pool, as `Tlsf::insert_free_block_ptr` does.
///
/// At most 13 word accesses for each chunk that it makes. No byte is copied.
#[inline(always)]
pub fn insert_in<const FLLEN: usize, const SLLEN: usize>(
    memory: &mut OpenMemory,
    table: &mut ClassTable<FLLEN, SLLEN>,
    state: &mut GhostState,
    range: Range,
) -> Option<NonZeroUsize>
    requires core { IsCore FLLEN SLLEN memory.old table.old state.old.state }
    requires fresh { IsFresh (range_of memory.old) (read_from memory.old state.old.state) range }
    requires own { IsOwned memory.old range }
    ensures left { LeavesCore FLLEN SLLEN memory.old memory.new table.new state.old.state state.new.state (insert_cost FLLEN range) }
    ensures step { Inserts FLLEN (read_from memory.old state.old.state) range (reply result) (read_from memory.new state.new.state) }
    ensures result { IsInserted FLLEN SLLEN range (read_from memory.old state.old.state) (read_from memory.new state.new.state) }
    ensures bounds { KeepsAllBounds SLLEN (read_from memory.old state.old.state) (read_from memory.new state.new.state) }
    ensures refused { IfNone result (memory.new.bytes ≡ memory.old.bytes) }
    ensures frame { KeepsFrameOfPools (allocator memory.old table.old state.old.state) (allocator memory.new table.new state.new.state) }
{
    let taken = insert_chunks(memory, table, range);
    state.insert(FLLEN, range.start, range.len);
    taken
}

/// Appends a range of the memory that begins at the end of a chunk, as `Tlsf::append_free_block_ptr` does.
///
/// At most 13 word accesses for each chunk that it makes, and at most 34 if a chunk grows. No byte is copied.
#[inline(always)]
pub fn append_in<const FLLEN: usize, const SLLEN: usize>(
    memory: &mut OpenMemory,
    table: &mut ClassTable<FLLEN, SLLEN>,
    state: &mut GhostState,
    range: Range,
) -> usize
    requires core { IsCore FLLEN SLLEN memory.old table.old state.old.state }
    requires next { IsNext (range_of memory.old) (read_from memory.old state.old.state) range }
    requires own { IsOwned memory.old range }
    ensures left { LeavesCore FLLEN SLLEN memory.old memory.new table.new state.old.state state.new.state (append_cost FLLEN range) }
    ensures step { Appends FLLEN (read_from memory.old state.old.state) range result (read_from memory.new state.new.state) }
    ensures result { IsAppended SLLEN range (read_from memory.old state.old.state) (read_from memory.new state.new.state) }
    ensures bounds { KeepsAllBounds SLLEN (read_from memory.old state.old.state) (read_from memory.new state.new.state) }
    ensures refused { result ≡ 0 → memory.new.bytes ≡ memory.old.bytes }
    ensures frame { KeepsFrameOfPools (allocator memory.old table.old state.old.state) (allocator memory.new table.new state.new.state) }
{
    let taken = append_chunks(memory, table, range);
    state.append(FLLEN, range.start, range.len);
    taken
}

/// Removes an inserted range, as `Tlsf::remove_pool` does.
///
/// At most 9 word accesses for each chunk that it removes. No byte is copied.
#[inline(always)]
pub fn remove_in<const FLLEN: usize, const SLLEN: usize>(
    memory: &mut OpenMemory,
    table: &mut ClassTable<FLLEN, SLLEN>,
    state: &mut GhostState,
    range: Range,
)
    requires core { IsCore FLLEN SLLEN memory.old table.old state.old.state }
    requires row { IsRow (read_from memory.old state.old.state) (walked range) }
    requires idle { IsIdle (read_from memory.old state.old.state) (walked range) }
    ensures left { LeavesCore FLLEN SLLEN memory.old memory.new table.new state.old.state state.new.state (9 * length (read_from memory.old state.old.state).chunks) }
    ensures step { Removes (read_from memory.old state.old.state) (walked range) (read_from memory.new state.new.state) }
    ensures result { IsRemoved (walked range) (read_from memory.old state.old.state) (read_from memory.new state.new.state) }
    ensures frame { KeepsFrameOfPools (allocator memory.old table.old state.old.state) (allocator memory.new table.new state.new.state) }
    ensures touches { memory.new.touches + 9 * length (read_from memory.new state.new.state).chunks ≤ memory.old.touches + 9 * length (read_from memory.old state.old.state).chunks }
{
    remove_chunks(memory, table, range);
    state.remove(range.start, range.len);
}
