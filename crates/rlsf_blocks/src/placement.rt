//! A free block, or its front, becomes a used block.

ghost use Rattle.std.specs.Prelude.{◌≡◌, ◌+◌, ◌-◌, ◌%◌, ◌^◌, ◌<◌, List, IfNone, IfSome};
ghost use Rattle.rlsf_base.specs.declared.memory.range.Range.{Range};
ghost use Rattle.rlsf_base.specs.Range.{range_at};
ghost use Rattle.rlsf_model_sizes.specs.SizeClass.{IsValid};
ghost use Rattle.rlsf_base.specs.Space.{word_at};
ghost use Rattle.rlsf_base.specs.OpenSpace.{SameOwn, StaysHere};
ghost use Rattle.rlsf_model.specs.Allocate.{Allocates, Places};
ghost use Rattle.rlsf_model.specs.Payload.{payload_of};
ghost use Rattle.rlsf_model_sizes.specs.Rounding.{round32};
ghost use Rattle.rlsf_model.specs.State.{State};
ghost use Rattle.rlsf_table.specs.Counts.{Costs, Counts};
ghost use Rattle.rlsf_table.specs.Table.{IsClassAt};
ghost use Rattle.rlsf_blocks.specs.Steps.Rest.{AtChoice, AtEachChosen, AtEachRest, AtEachTaken, IsChosenIn, IsInnerRoom, IsFreeBlockBehind, IsOpened, IsTaken, room_of, range_start};
ghost use Rattle.rlsf_blocks.specs.Steps.Standing.{InEach, StepsTo};
ghost use Rattle.rlsf_blocks.specs.StandsFor.{contents, StandsFor};

use crate::{GRANULARITY, HEADER};
use rlsf_base::classes;
use rlsf_base::memory::{Layout, OpenMemory, Range, View};
use rlsf_base::rounding::next_multiple_of_32;
use rlsf_table::{
    ClassIndex, ClassTable, FoundBlock, PAD, PREVIOUS_BLOCK, first_fit, link_free_block,
    unlink_newest_block, used_size_word,
};

/// Makes a free block of what is left behind the first `taken` of the `len` bytes at `block`.
#[inline(always)]
pub fn leave_rest<const FLLEN: usize, const SLLEN: usize>(
    memory: &mut OpenMemory,
    view: View,
    table: &mut ClassTable<FLLEN, SLLEN>,
    block: usize,
    len: usize,
    taken: usize,
)
    requires parameters { IsValid 128 128 FLLEN SLLEN }
    requires room { (free : List Range) × (r : Range) × (r.start ≡ block + taken) × (r.len + taken ≡ len) × IsInnerRoom FLLEN SLLEN memory.old table.old free r }
    requires view { view ≡ memory.old.view }
    ensures step { AtEachRest FLLEN SLLEN memory.old table.old block len taken (λ free r. IsFreeBlockBehind FLLEN SLLEN memory.old memory.new table.new free block r) }
    ensures costs { Costs memory.old memory.new 12 0 }
{
    let rest = block + taken;
    memory.set_word_at(view, rest, (len - taken) as u64);
    memory.set_word_at(view, rest + PREVIOUS_BLOCK, block as u64);
    memory.set_word_at(view, block + len + PREVIOUS_BLOCK, rest as u64);
    link_free_block(memory, view, table, rest, len - taken);
}

/// Takes the free block of `len` bytes at `block` out of the list of its class `class`, for a block of its first `taken` bytes. The
/// rest becomes a free block.
#[inline(always)]
fn take_out<const FLLEN: usize, const SLLEN: usize>(
    memory: &mut OpenMemory,
    view: View,
    table: &mut ClassTable<FLLEN, SLLEN>,
    block: usize,
    len: usize,
    class: ClassIndex,
    taken: usize,
)
    requires parameters { IsValid 128 128 FLLEN SLLEN }
    requires class { IsClassAt FLLEN SLLEN len class.fl class.sl }
    requires taken { (s : State) × (f : Range) × StandsFor FLLEN SLLEN (contents memory.old table.old) s × IsTaken SLLEN s f block len taken }
    requires view { view ≡ memory.old.view }
    ensures step { AtEachTaken FLLEN SLLEN memory.old table.old block len taken (λ s f. IsOpened FLLEN SLLEN memory.old memory.new table.new s f (range_at block taken)) }
    ensures costs { Costs memory.old memory.new 20 0 }
{
    unlink_newest_block(memory, view, table, block, class);
    // Not `<`: from an inequality the compiler knows that the rest isn't 0, and leaves out a test before it looks for its class.
    let longer = taken != len;
    if longer {
        leave_rest(memory, view, table, block, len, taken);
    }
}

/// Returns the address of the payload of a layout in the block at `block`, and the length of that block.
///
/// An alignment of 16 or less needs no rounding: the payload lies 16 bytes into the block, and the block has the sought size.
#[inline(always)]
fn front(block: usize, layout: Layout) -> (usize, usize)
    requires whole { block % 32 ≡ 0 }
    requires address { payload_of block layout.align < 2 ^ 64 }
    requires length { round32 (payload_of block layout.align - block + layout.size) < 2 ^ 64 }
    ensures payload { result.0 ≡ payload_of block layout.align }
    ensures length { result.1 ≡ round32 (result.0 - block + layout.size) }
{
    if layout.align() >= GRANULARITY {
        let payload = layout.align_up(block + HEADER);
        (
            payload,
            next_multiple_of_32(payload - block + layout.size()),
        )
    } else {
        (block + HEADER, next_multiple_of_32(HEADER + layout.size()))
    }
}

/// Makes a used block for a layout from the front of the free block that was chosen for it. Returns the payload's bytes: those up to
/// the end of its block.
#[inline(always)]
fn place<const FLLEN: usize, const SLLEN: usize>(
    memory: &mut OpenMemory,
    view: View,
    table: &mut ClassTable<FLLEN, SLLEN>,
    found: FoundBlock,
    layout: Layout,
) -> Range
    requires parameters { IsValid 128 128 FLLEN SLLEN }
    requires class { IsClassAt FLLEN SLLEN (word_at memory.old found.start) found.class.fl found.class.sl }
    requires chosen { IsChosenIn FLLEN SLLEN memory.old table.old layout found.start }
    requires view { view ≡ memory.old.view }
    ensures step { AtEachChosen FLLEN SLLEN memory.old table.old layout found.start (λ s f. StepsTo FLLEN SLLEN memory.old memory.new table.new s (Places SLLEN s layout.size layout.align result.start)) }
    ensures len { AtEachChosen FLLEN SLLEN memory.old table.old layout found.start (λ s f. result.len ≡ room_of f layout.size layout.align) }
    ensures costs { Costs memory.old memory.new 23 0 }
    ensures own { SameOwn memory.old memory.new }
    ensures here { StaysHere memory.old memory.new }
{
    let block = found.start;
    let len = memory.load_at(view, block) as usize;
    let (payload, taken) = front(block, layout);
    let range = Range {
        start: payload,
        len: block + taken - payload,
    };
    take_out(memory, view, table, block, len, found.class, taken);
    memory.set_word_at(view, block, used_size_word(taken));
    let wide = layout.align() >= GRANULARITY;
    if wide {
        memory.set_word_at(view, payload - PAD, block as u64);
    }
    range
}

/// Makes a used block for a layout from the front of a free block: the newest one of the first class that reaches the sought size.
/// Returns the payload's bytes: those up to the end of its block. If no free block's class reaches that size, returns `None`, and
/// nothing changes.
#[inline(always)]
pub fn allocate_range<const FLLEN: usize, const SLLEN: usize>(
    memory: &mut OpenMemory,
    view: View,
    table: &mut ClassTable<FLLEN, SLLEN>,
    layout: Layout,
) -> Option<Range>
    requires parameters { IsValid 128 128 FLLEN SLLEN }
    requires stands { (s : State) × StandsFor FLLEN SLLEN (contents memory.old table.old) s }
    requires view { view ≡ memory.old.view }
    ensures step { InEach FLLEN SLLEN memory.old table.old (λ s. StepsTo FLLEN SLLEN memory.old memory.new table.new s (Allocates SLLEN s layout.size layout.align (range_start result))) }
    ensures len { InEach FLLEN SLLEN memory.old table.old (λ s. IfSome result (λ r. AtChoice SLLEN s layout.size layout.align (λ f. r.len ≡ room_of f layout.size layout.align))) }
    ensures unchanged { IfNone result (Counts memory.old memory.new 4 × (table.new ≡ table.old)) }
    ensures costs { Costs memory.old memory.new 27 0 }
    ensures own { SameOwn memory.old memory.new }
    ensures here { StaysHere memory.old memory.new }
{
    let found = first_fit(memory, table, classes::request_size(layout))?;
    Some(place(memory, view, table, found, layout))
}

/// Makes a used block as `allocate_range` does, and returns the payload's address.
#[inline(always)]
pub fn allocate_block<const FLLEN: usize, const SLLEN: usize>(
    memory: &mut OpenMemory,
    view: View,
    table: &mut ClassTable<FLLEN, SLLEN>,
    layout: Layout,
) -> Option<usize>
    requires parameters { IsValid 128 128 FLLEN SLLEN }
    requires stands { (s : State) × StandsFor FLLEN SLLEN (contents memory.old table.old) s }
    requires view { view ≡ memory.old.view }
    ensures step { InEach FLLEN SLLEN memory.old table.old (λ s. StepsTo FLLEN SLLEN memory.old memory.new table.new s (Allocates SLLEN s layout.size layout.align result)) }
    ensures unchanged { IfNone result (Counts memory.old memory.new 4 × (table.new ≡ table.old)) }
    ensures costs { Costs memory.old memory.new 27 0 }
    ensures own { SameOwn memory.old memory.new }
    ensures here { StaysHere memory.old memory.new }
{
    match allocate_range(memory, view, table, layout) {
        Some(range) => Some(range.start),
        None => None,
    }
}
