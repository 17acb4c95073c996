//! A payload moves into a block that is allocated for it.

ghost use Rattle.std.specs.Prelude.{◌≡◌, ◌+◌, ◌-◌, ◌≤◌, IfNone, []};
ghost use Rattle.rlsf_model_sizes.specs.SizeClass.{IsValid};
ghost use Rattle.rlsf_base.specs.OpenSpace.{SameOwn, StaysHere};
ghost use Rattle.rlsf_model.specs.State.{usable};
ghost use Rattle.rlsf_table.specs.Counts.{Costs, Counts};
ghost use Rattle.rlsf_blocks.specs.Steps.Resize.{AtEachAligned, AtEachTooShort, AtEachTooShortHere, HasTooShortHere, IsElsewhere, IsHereStill};

use crate::reallocation::copying::copy_payload;
use crate::{allocate_block, deallocate_block};
use rlsf_base::memory::{Layout, OpenMemory, Range, View};
use rlsf_table::{ClassTable, used_end};

/// Allocates a payload for `layout`, copies the bytes of the payload at `payload` there, and deallocates its used block
/// at `block`.
///
/// The new payload has the alignment of `layout`, whatever the old one has. The old block must be too short for the size of
/// `layout`. All usable bytes of the payload must be here: none is raw or out.
///
/// Returns the new address. If the allocation is refused, returns `None`, and no byte and no block changes.
///
/// `WHOLE` is that of `move_block`. `NARROW` does nothing but make functions of their own, each with one caller.
#[inline(always)]
pub fn move_elsewhere<
    const FLLEN: usize,
    const SLLEN: usize,
    const WHOLE: usize,
    const NARROW: usize,
>(
    memory: &mut OpenMemory,
    view: View,
    table: &mut ClassTable<FLLEN, SLLEN>,
    block: usize,
    payload: usize,
    layout: Layout,
) -> Option<usize>
    requires parameters { IsValid 128 128 FLLEN SLLEN }
    requires view { view ≡ memory.old.view }
    requires used { HasTooShortHere FLLEN SLLEN memory.old table.old block payload layout.size }
    requires whole { WHOLE ≡ 1 → memory.old.out ≡ [] }
    ensures step { AtEachTooShortHere FLLEN SLLEN memory.old table.old block payload layout.size
        (λ s u. IsElsewhere FLLEN SLLEN memory.old memory.new table.new s u layout.size layout.align result) }
    ensures unchanged { IfNone result (Counts memory.old memory.new 5 × (table.new ≡ table.old)) }
    ensures costs { Costs memory.old memory.new 59 (memory.new.copied - memory.old.copied) }
    ensures copied { AtEachAligned FLLEN SLLEN memory.old table.old block payload (λ s u. memory.new.copied ≤ memory.old.copied + (usable u).len) }
    ensures own { SameOwn memory.old memory.new }
    ensures here { StaysHere memory.old memory.new }
    ensures kept_here { AtEachTooShort FLLEN SLLEN memory.old table.old block payload layout.size (λ s u. IsHereStill memory.old memory.new u result) }
{
    let end = used_end(block, memory.load_at(view, block));
    let moved = allocate_block(memory, view, table, layout)?;
    copy_payload::<WHOLE>(
        memory,
        view,
        Range {
            start: payload,
            len: end - payload,
        },
        moved,
    );
    deallocate_block(memory, view, table, block);
    Some(moved)
}
