//! A payload moves into the free block before its own.

ghost use Rattle.std.specs.Prelude.{◌≡◌, ◌≢◌, ◌+◌, ◌-◌, ◌≤◌, ℕ, None, IfNone, IfSome, []};
ghost use Rattle.rlsf_model_sizes.specs.SizeClass.{IsValid};
ghost use Rattle.rlsf_base.specs.OpenSpace.{SameOwn, StaysHere};
ghost use Rattle.rlsf_model.specs.Lists.{IsIn};
ghost use Rattle.rlsf_model.specs.Reallocate.{into_previous};
ghost use Rattle.rlsf_model.specs.State.{State, Used, usable};
ghost use Rattle.rlsf_blocks.specs.StandsFor.{contents, StandsFor};
ghost use Rattle.rlsf_blocks.specs.Steps.Join.{previous_start};
ghost use Rattle.rlsf_blocks.specs.Steps.Standing.{AtEachUsed};
ghost use Rattle.rlsf_table.specs.Counts.{Costs, Counts};
ghost use Rattle.rlsf_blocks.specs.Steps.Previous.{IsUsedBlock, IsPlaceBefore};
ghost use Rattle.rlsf_blocks.specs.Steps.Resize.{AtEachPayload, AtEachShort, AtEachShortHere, HasShortHere, IsHereStill, IsMovedBefore};
ghost use Rattle.rlsf_table.specs.Table.{Table};

use crate::reallocation::copying::copy_payload;
use crate::reallocation::resize::{free_length, occupy};
use crate::{GRANULARITY, HEADER, take_if_free, take_previous};
use rlsf_base::memory::{Layout, OpenMemory, Range, View};
use rlsf_base::rounding::next_multiple_of_32;
use rlsf_table::{ClassTable, PAD, PREVIOUS_BLOCK, is_free, used_end};

/// Returns the start of the free block before the used one at `block`, or `None` if none is before it.
// `None` is the code's own way through, and not `block` to be compared: so nothing is tested twice.
fn start_before(memory: &mut OpenMemory, view: View, block: usize) -> Option<usize>
    requires used { (fllen : ℕ) × (sllen : ℕ) × (t : Table) × (s : State) × (u : Used) × StandsFor fllen sllen (contents memory.old t) s × IsIn u s.used × (u.block.start ≡ block) }
    requires view { view ≡ memory.old.view }
    ensures start { (fllen sllen : ℕ) (t : Table) → AtEachUsed fllen sllen memory.old t block (λ s u. IfSome result (λ a. (a ≡ previous_start block s.free) × (a ≢ block))) }
    ensures none { (fllen sllen : ℕ) (t : Table) → AtEachUsed fllen sllen memory.old t block (λ s u. IfNone result (block ≡ previous_start block s.free)) }
    ensures counts { Counts memory.old memory.new 2 }
{
    let previous = memory.load_at(view, block + PREVIOUS_BLOCK) as usize;
    if previous == 0 {
        return None;
    }
    let size = memory.load_at(view, previous);
    if !is_free(size) {
        return None;
    }
    Some(block - size as usize)
}

/// Returns the address of the payload for the layout, and the length of its block, if the block began where the free block before
/// the used one does. Returns `None` if no free block is before it, or if the bytes don't suffice: those from there to `end`, and
/// those of a free block behind.
fn place_before(
    memory: &mut OpenMemory,
    view: View,
    block: usize,
    end: usize,
    layout: Layout,
) -> Option<(usize, usize)>
    requires used { (fllen : ℕ) × (sllen : ℕ) × (t : Table) × (s : State) × (u : Used) × StandsFor fllen sllen (contents memory.old t) s × IsUsedBlock s u block end layout.align }
    requires view { view ≡ memory.old.view }
    ensures place { (fllen sllen : ℕ) (t : Table) (s : State) (u : Used) → StandsFor fllen sllen (contents memory.old t) s
        → IsUsedBlock s u block end layout.align → IsPlaceBefore s u layout.size result }
    ensures counts { Counts memory.old memory.new 3 }
{
    let start = start_before(memory, view, block)?;
    let payload = layout.align_up(start + HEADER);
    let taken = next_multiple_of_32(payload - start + layout.size());
    let room = end - start + free_length(memory, view, end);
    if taken > room {
        return None;
    }
    Some((payload, taken))
}

/// Moves the payload at `payload`, in the used block at `block`, into the free block before its own. It moves if the bytes of both
/// and of a free block behind them suffice for `layout`. All bytes of the payload are kept. The rest becomes a free block.
///
/// The used block must be too short for the size of `layout`, and `layout` must have the alignment of the payload. All
/// usable bytes of the payload must be here: none is raw or out.
///
/// Returns the new address. If there is no free block before it, or the bytes don't suffice, returns `None`, and no byte
/// and no block changes. `WHOLE` and `NARROW` are those of `move_elsewhere`.
#[inline(always)]
pub(crate) fn move_into_previous<
    const FLLEN: usize,
    const SLLEN: usize,
    const WHOLE: usize,
    const NARROW: usize,
>(
    memory: &mut OpenMemory,
    view: View,
    table: &mut ClassTable<FLLEN, SLLEN>,
    block: usize,
    payload: usize,
    layout: Layout,
) -> Option<usize>
    requires parameters { IsValid 128 128 FLLEN SLLEN }
    requires used { HasShortHere FLLEN SLLEN memory.old table.old block payload layout }
    requires view { view ≡ memory.old.view }
    requires whole { WHOLE ≡ 1 → memory.old.out ≡ [] }
    ensures moved { AtEachShortHere FLLEN SLLEN memory.old table.old block payload layout (λ s u. IsMovedBefore FLLEN SLLEN memory.old memory.new table.new s u layout.size result) }
    ensures refused { AtEachShort FLLEN SLLEN memory.old table.old block payload layout (λ s u. IfNone result (into_previous s u layout.size ≡ None)) }
    ensures unchanged { IfNone result (Counts memory.old memory.new 4 × (table.new ≡ table.old)) }
    ensures costs { Costs memory.old memory.new 37 (memory.new.copied - memory.old.copied) }
    ensures copied { AtEachPayload FLLEN SLLEN memory.old table.old block payload layout (λ s u. memory.new.copied ≤ memory.old.copied + (usable u).len) }
    ensures own { SameOwn memory.old memory.new }
    ensures here { StaysHere memory.old memory.new }
    ensures kept_here { AtEachShort FLLEN SLLEN memory.old table.old block payload layout (λ s u. IsHereStill memory.old memory.new u result) }
{
    let end = used_end(block, memory.load_at(view, block));
    let (moved, taken) = place_before(memory, view, block, end, layout)?;
    let start = take_previous(memory, view, table, block);
    let next = take_if_free(memory, view, table, end);
    // Before any header is written: a header may overwrite these bytes.
    copy_payload::<WHOLE>(
        memory,
        view,
        Range {
            start: payload,
            len: end - payload,
        },
        moved,
    );
    occupy(memory, view, table, start, end - start + next, taken);
    let wide = layout.align() >= GRANULARITY;
    if wide {
        memory.set_word_at(view, moved - PAD, start as u64);
    }
    Some(moved)
}
