//! A used block gets another size in place.

ghost use Rattle.std.specs.Prelude.{◌≡◌, ◌+◌, ◌-◌, ◌^◌, ◌%◌, ◌≤◌, ◌<◌, ℕ, List, None, IfNone};
ghost use Rattle.rlsf_base.specs.declared.memory.range.Range.{Range};
ghost use Rattle.rlsf_base.specs.Range.{range_at};
ghost use Rattle.rlsf_model_sizes.specs.SizeClass.{IsValid};
ghost use Rattle.rlsf_base.specs.OpenSpace.{SameOwn, StaysHere};
ghost use Rattle.rlsf_model.specs.NoMove.{unmoved_plan};
ghost use Rattle.rlsf_model.specs.State.{State, Used};
ghost use Rattle.rlsf_blocks.specs.StandsFor.{contents, StandsFor};
ghost use Rattle.rlsf_table.specs.Counts.{Costs, Counts};
ghost use Rattle.rlsf_table.specs.FreeTable.{IsFreeTable};
ghost use Rattle.rlsf_blocks.specs.Steps.Join.{IsMarked};
ghost use Rattle.rlsf_blocks.specs.Steps.Resize.{AtEachAligned, AtEachSpanRoom, AtEachStretched, HasStretched, IsFreeLength, IsOccupied, IsOwnedBehind, IsPlannedInPlace, IsSpanRoom, IsStretched, IsUsedAt, ResizesKept};
ghost use Rattle.rlsf_table.specs.Table.{Table};

use crate::{leave_rest, take_if_free};
use rlsf_base::memory::{Layout, OpenMemory, View};
use rlsf_base::rounding::next_multiple_of_32;
use rlsf_table::{ClassTable, PREVIOUS_BLOCK, is_free, len_of_used, used_size_word};

/// Returns the length of the free block at `block`, or 0 if no free block begins there.
pub(crate) fn free_length(memory: &mut OpenMemory, view: View, block: usize) -> usize
    requires marked { (fllen : ℕ) × (sllen : ℕ) × (t : Table) × (free : List Range) × IsFreeTable fllen sllen memory.old t free × IsMarked memory.old free block }
    requires view { view ≡ memory.old.view }
    ensures length { (fllen sllen : ℕ) (t : Table) (free : List Range) → IsFreeTable fllen sllen memory.old t free → IsMarked memory.old free block → IsFreeLength free block result }
    ensures counts { Counts memory.old memory.new 1 }
{
    let size = memory.load_at(view, block);
    if is_free(size) { size as usize } else { 0 }
}

/// Makes a used block of the first `taken` of the `total` bytes at `block`, which belong to no block. The rest becomes a free
/// block. The word that names the block before it stays, and so do the bytes of the used block behind its first 16, which may be out.
pub(crate) fn occupy<const FLLEN: usize, const SLLEN: usize>(
    memory: &mut OpenMemory,
    view: View,
    table: &mut ClassTable<FLLEN, SLLEN>,
    block: usize,
    total: usize,
    taken: usize,
)
    requires parameters { IsValid 128 128 FLLEN SLLEN }
    requires room { (free : List Range) × (span : Range) × (span.start ≡ block) × (span.len ≡ total) × IsSpanRoom FLLEN SLLEN memory.old table.old free span taken }
    requires part { (taken % 32 ≡ 0) × (0 < taken) × (taken ≤ total) }
    requires view { view ≡ memory.old.view }
    ensures step { AtEachSpanRoom FLLEN SLLEN memory.old table.old block total taken (λ free span. IsOccupied FLLEN SLLEN memory.old memory.new table.new free span (range_at block taken)) }
    ensures costs { Costs memory.old memory.new 13 0 }
{
    memory.set_word_at(view, block, used_size_word(taken));
    if taken != total {
        leave_rest(memory, view, table, block, total, taken);
    } else {
        memory.set_word_at(view, block + total + PREVIOUS_BLOCK, block as u64);
    }
}

/// Gives the used block at `block` of `len` bytes the length `taken`, which is another one: that of a block for the size of `layout`.
/// Its bytes and those of a free block behind it suffice. The rest of them becomes a free block. Returns the address of the payload,
/// which lies `front` bytes behind the start of the block.
// Out of line: so a call that leaves the block as it is saves no register. It returns the address, and reads the view again: so a call for C
// ends with a jump here, with all arguments in registers.
#[inline(never)]
fn stretch<const FLLEN: usize, const SLLEN: usize>(
    memory: &mut OpenMemory,
    table: &mut ClassTable<FLLEN, SLLEN>,
    block: usize,
    payload: usize,
    layout: Layout,
    front: usize,
    len: usize,
    taken: usize,
) -> usize
    requires parameters { IsValid 128 128 FLLEN SLLEN }
    requires used { HasStretched FLLEN SLLEN memory.old table.old block payload layout.size }
    requires numbers { IsStretched memory.old block payload layout.size len taken }
    requires front { block + front ≡ payload }
    ensures address { result ≡ payload }
    ensures done { AtEachStretched FLLEN SLLEN memory.old table.old block payload layout.size
        (λ s u. IsPlannedInPlace FLLEN SLLEN memory.old memory.new table.new s u layout.size payload) }
    ensures costs { Costs memory.old memory.new 22 0 }
    ensures own { SameOwn memory.old memory.new }
    ensures here { StaysHere memory.old memory.new }
{
    let _ = (payload, layout);
    let view = memory.view();
    let next = take_if_free(memory, view, table, block + len);
    occupy(memory, view, table, block, len + next, taken);
    block + front
}

/// Gives the payload at `payload`, in the used block at `block`, the size of `layout` in bytes without moving it. It does so if the
/// bytes of the block and of a free block behind it suffice. The rest of them becomes a free block.
///
/// Of `layout` only the size counts: the payload has any alignment. The length of its block has to fit in a word. Usable bytes
/// of the payload may be out if they are in its block of the new size, too. They stay out, and no byte is read or written there.
///
/// Returns the address of the payload if the bytes suffice. If not, returns `None`, and no byte and no block changes.
#[inline(always)]
pub fn resize_kept_block<const FLLEN: usize, const SLLEN: usize>(
    memory: &mut OpenMemory,
    view: View,
    table: &mut ClassTable<FLLEN, SLLEN>,
    block: usize,
    payload: usize,
    layout: Layout,
) -> Option<usize>
    requires parameters { IsValid 128 128 FLLEN SLLEN }
    requires used { (s : State) × (u : Used) × StandsFor FLLEN SLLEN (contents memory.old table.old) s × IsUsedAt s u block payload u.align × IsOwnedBehind memory.old u layout.size }
    requires view { view ≡ memory.old.view }
    requires fits { payload - block + layout.size + 31 < 2 ^ 64 }
    ensures done { AtEachAligned FLLEN SLLEN memory.old table.old block payload (λ s u. ResizesKept FLLEN SLLEN memory.old memory.new table.new s u layout.size payload result) }
    ensures refused { AtEachAligned FLLEN SLLEN memory.old table.old block payload (λ s u. IfNone result (unmoved_plan s u layout.size ≡ None)) }
    ensures unchanged { IfNone result (Counts memory.old memory.new 2 × (table.new ≡ table.old)) }
    ensures costs { Costs memory.old memory.new 24 0 }
    ensures own { SameOwn memory.old memory.new }
    ensures here { StaysHere memory.old memory.new }
{
    let len = len_of_used(memory.load_at(view, block));
    let front = payload - block;
    let taken = next_multiple_of_32(front + layout.size());
    if taken == len {
        return Some(payload);
    }
    let end = block + len;
    if taken > len + free_length(memory, view, end) {
        return None;
    }
    Some(stretch(memory, table, block, payload, layout, front, len, taken))
}
