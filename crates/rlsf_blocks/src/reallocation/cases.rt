//! A used block that can't get another size in place moves.

ghost use Rattle.std.specs.Prelude.{◌≡◌, ◌+◌, ◌-◌, ◌≤◌, None, IfNone, []};
ghost use Rattle.rlsf_base.specs.Addr.{reply_of};
ghost use Rattle.rlsf_model_sizes.specs.SizeClass.{IsValid};
ghost use Rattle.rlsf_base.specs.OpenSpace.{SameOwn, StaysHere};
ghost use Rattle.rlsf_model.specs.State.{usable};
ghost use Rattle.rlsf_table.specs.Counts.{Costs};
ghost use Rattle.rlsf_blocks.specs.Steps.Resize.{AtEachMoving, AtEachMovingHere, AtEachPayload, HasMovingHere, IsHereStill, StepsToReallocated};

use crate::HEADER;
use crate::reallocation::elsewhere::move_elsewhere;
use crate::reallocation::previous::move_into_previous;
use rlsf_base::memory::{Layout, OpenMemory};
use rlsf_table::ClassTable;

/// Moves the payload as `move_block` does. Returns the new address, or `None` if the allocation is refused.
#[inline(always)]
fn moved<const FLLEN: usize, const SLLEN: usize, const WHOLE: usize, const NARROW: usize>(
    memory: &mut OpenMemory,
    table: &mut ClassTable<FLLEN, SLLEN>,
    block: usize,
    payload: usize,
    layout: Layout,
) -> Option<usize>
    requires parameters { IsValid 128 128 FLLEN SLLEN }
    requires used { HasMovingHere FLLEN SLLEN memory.old table.old block payload layout }
    requires whole { WHOLE ≡ 1 → memory.old.out ≡ [] }
    ensures step { AtEachMovingHere FLLEN SLLEN memory.old table.old block payload layout (λ s u. StepsToReallocated FLLEN SLLEN memory.old memory.new table.new s u layout.size result) }
    ensures refused { IfNone result (memory.new.bytes ≡ memory.old.bytes) }
    ensures costs { Costs memory.old memory.new 63 (memory.new.copied - memory.old.copied) }
    ensures copied { AtEachPayload FLLEN SLLEN memory.old table.old block payload layout (λ s u. memory.new.copied ≤ memory.old.copied + (usable u).len) }
    ensures own { SameOwn memory.old memory.new }
    ensures here { StaysHere memory.old memory.new }
    ensures kept_here { AtEachMoving FLLEN SLLEN memory.old table.old block payload layout (λ s u. IsHereStill memory.old memory.new u result) }
{
    let view = memory.view();
    if let Some(moved) = move_into_previous::<FLLEN, SLLEN, WHOLE, NARROW>(
        memory, view, table, block, payload, layout,
    ) {
        return Some(moved);
    }
    move_elsewhere::<FLLEN, SLLEN, WHOLE, NARROW>(memory, view, table, block, payload, layout)
}

/// Returns `payload`, the address of the payload in the used block at `block`. If `NARROW` is 1, it lies behind the header.
#[inline(always)]
fn payload_in<const NARROW: usize>(block: usize, payload: usize) -> usize
    requires narrow { NARROW ≡ 1 → block + 16 ≡ payload }
    ensures { result ≡ payload }
{
    if NARROW == 1 { block + HEADER } else { payload }
}

/// Returns `layout`. If `NARROW` is 1, it has the alignment 16.
#[inline(always)]
fn layout_in<const NARROW: usize>(layout: Layout) -> Layout
    requires narrow { NARROW ≡ 1 → layout.align ≡ 16 }
    ensures { result ≡ layout }
{
    if NARROW == 1 {
        Layout::from_size_align_unchecked(layout.size(), 16)
    } else {
        layout
    }
}

/// Moves the payload as `move_block` does. If `NARROW` is 1, `layout` must have the alignment 16.
// Out of line, since it is long, and without a view: so a call that doesn't get here saves no register for it, and all of its
// arguments are in registers. It returns a number: so a call for C returns that as it is. `NARROW` makes a function of its own of the most
// frequent alignment, in which the compiler computes nothing by it.
#[inline(never)]
fn move_aligned<const FLLEN: usize, const SLLEN: usize, const WHOLE: usize, const NARROW: usize>(
    memory: &mut OpenMemory,
    table: &mut ClassTable<FLLEN, SLLEN>,
    block: usize,
    payload: usize,
    layout: Layout,
) -> usize
    requires parameters { IsValid 128 128 FLLEN SLLEN }
    requires used { HasMovingHere FLLEN SLLEN memory.old table.old block payload layout }
    requires whole { WHOLE ≡ 1 → memory.old.out ≡ [] }
    requires narrow { NARROW ≡ 1 → layout.align ≡ 16 }
    ensures step { AtEachMovingHere FLLEN SLLEN memory.old table.old block payload layout (λ s u. StepsToReallocated FLLEN SLLEN memory.old memory.new table.new s u layout.size (reply_of result)) }
    ensures refused { IfNone (reply_of result) (memory.new.bytes ≡ memory.old.bytes) }
    ensures costs { Costs memory.old memory.new 63 (memory.new.copied - memory.old.copied) }
    ensures copied { AtEachPayload FLLEN SLLEN memory.old table.old block payload layout (λ s u. memory.new.copied ≤ memory.old.copied + (usable u).len) }
    ensures own { SameOwn memory.old memory.new }
    ensures here { StaysHere memory.old memory.new }
    ensures kept_here { AtEachMoving FLLEN SLLEN memory.old table.old block payload layout (λ s u. IsHereStill memory.old memory.new u (reply_of result)) }
{
    let payload = payload_in::<NARROW>(block, payload);
    let layout = layout_in::<NARROW>(layout);
    match moved::<FLLEN, SLLEN, WHOLE, NARROW>(memory, table, block, payload, layout) {
        Some(to) => to,
        None => 0,
    }
}

/// Moves the payload at `payload`, in the used block at `block`, to a place of the size of `layout` in bytes: the free block before its
/// own, else a newly allocated block. Returns the new address, or 0 if the allocation is refused; then no byte and no block changes.
///
/// The bytes of the block and of a free block behind it must not suffice, and `layout` must have the alignment of the payload. All
/// usable bytes of the payload must be here: none is raw or out. `WHOLE` is 1 for a memory of which no byte is raw or out: its bytes
/// are copied faster.
///
/// From the new address on, as many bytes are here as the old payload has. No byte leaves or comes back, and each byte that was here
/// is here.
#[inline(always)]
pub fn move_block<const FLLEN: usize, const SLLEN: usize, const WHOLE: usize>(
    memory: &mut OpenMemory,
    table: &mut ClassTable<FLLEN, SLLEN>,
    block: usize,
    payload: usize,
    layout: Layout,
) -> usize
    requires parameters { IsValid 128 128 FLLEN SLLEN }
    requires used { HasMovingHere FLLEN SLLEN memory.old table.old block payload layout }
    requires whole { WHOLE ≡ 1 → memory.old.out ≡ [] }
    ensures step { AtEachMovingHere FLLEN SLLEN memory.old table.old block payload layout (λ s u. StepsToReallocated FLLEN SLLEN memory.old memory.new table.new s u layout.size (reply_of result)) }
    ensures refused { IfNone (reply_of result) (memory.new.bytes ≡ memory.old.bytes) }
    ensures costs { Costs memory.old memory.new 63 (memory.new.copied - memory.old.copied) }
    ensures copied { AtEachPayload FLLEN SLLEN memory.old table.old block payload layout (λ s u. memory.new.copied ≤ memory.old.copied + (usable u).len) }
    ensures own { SameOwn memory.old memory.new }
    ensures here { StaysHere memory.old memory.new }
    ensures kept_here { AtEachMoving FLLEN SLLEN memory.old table.old block payload layout (λ s u. IsHereStill memory.old memory.new u (reply_of result)) }
{
    if layout.align() == 16 {
        return move_aligned::<FLLEN, SLLEN, WHOLE, 1>(memory, table, block, payload, layout);
    }
    move_aligned::<FLLEN, SLLEN, WHOLE, 0>(memory, table, block, payload, layout)
}
