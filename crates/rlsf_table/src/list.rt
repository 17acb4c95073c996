//! The lists of free blocks of one class, newest first, through the words at +16 and +24 of each.

ghost use Rattle.std.specs.Prelude.{◌≡◌, ℕ, ◌+◌, ◌≤◌, List, ◌∷◌, ◌++◌};
ghost use Rattle.rlsf_base.specs.declared.memory.range.Range.{Range};
ghost use Rattle.rlsf_model_sizes.specs.SizeClass.{IsValid};
ghost use Rattle.rlsf_base.specs.Space.{word_at};
ghost use Rattle.rlsf_model.specs.Lists.{IsIn};
ghost use Rattle.rlsf_model.specs.WellFormed.{coverage, itself};
ghost use Rattle.rlsf_table.specs.Counts.{Costs};
ghost use Rattle.rlsf_table.specs.Rewrites.{CanBeBlock};
ghost use Rattle.rlsf_table.specs.Table.{IsClassAt};
ghost use Rattle.rlsf_table.specs.Steps.ClassList.{first_then, unlinking_touches, AtEachFront, AtEachPlace, IsFirstOrOwn, IsFreeList, IsRelinked};
ghost use Rattle.rlsf_table.specs.FreeTable.{AtEachListed, AtEachNewest, AtEachRoom, HasNewest, IsFreeTable, IsNewestFree, IsRoom, IsUnlinked};

use crate::block_words::{NEXT_FREE, PREVIOUS_FREE};
use crate::table::{ClassIndex, ClassTable};
use rlsf_base::classes::{class_of, class_of_block};
use rlsf_base::memory::{OpenMemory, View};

/// Returns the address of the link to the block before, which is written when the list from `first` on gets another front. It is in
/// the first block. If there is none, it is in the block at `block`, which isn't in the list. So a word is written in either case:
/// whether there is a first block can't be foretold, and a wrong guess costs the processor more than a word.
fn first_or_own(first: usize, block: usize) -> usize
    ensures { IsFirstOrOwn first block result }
{
    if first != 0 { first } else { block }
}

/// Links the block at `block` in front of the blocks from `newest` on.
#[inline(always)]
fn link_front(memory: &mut OpenMemory, view: View, newest: usize, block: usize)
    requires place { (r : Range) × (free : List Range) × (r.start ≡ block) × IsFreeList memory.old newest free × CanBeBlock memory.old r × ((a : ℕ) → coverage itself (r ∷ free) a ≤ 1) }
    requires view { view ≡ memory.old.view }
    ensures step { AtEachFront memory.old newest block (λ r free. IsRelinked memory.old memory.new (r ∷ free) (r ∷ free) block) }
    ensures costs { Costs memory.old memory.new 3 0 }
{
    memory.set_word_at(view, block + NEXT_FREE, newest as u64);
    memory.set_word_at(
        view,
        first_or_own(newest, block) + PREVIOUS_FREE,
        block as u64,
    );
    memory.set_word_at(view, block + PREVIOUS_FREE, 0);
}

/// Takes the block at `block` out from between the two that its links name, `next` and `previous`. Each is 0 where there is no block.
/// If none is before it, the one behind it is the newest then.
#[inline(always)]
fn unlink_between(memory: &mut OpenMemory, view: View, block: usize, next: usize, previous: usize)
    requires listed { (r : Range) × (free : List Range) × (newest : ℕ) × (r.start ≡ block) × IsIn r free × IsFreeList memory.old newest free }
    requires links { (next ≡ word_at memory.old (block + 16)) × (previous ≡ word_at memory.old (block + 24)) }
    requires view { view ≡ memory.old.view }
    ensures step { AtEachPlace memory.old block (λ newest r before after. IsRelinked memory.old memory.new (before ++ r ∷ after) (before ++ after) (first_then next previous newest)) }
    ensures costs { Costs memory.old memory.new (unlinking_touches next previous) 0 }
{
    if next != 0 {
        memory.set_word_at(view, next + PREVIOUS_FREE, previous as u64);
    }
    if previous != 0 {
        memory.set_word_at(view, previous + NEXT_FREE, next as u64);
    }
}

/// Puts the block of `len` bytes at the address `block` in front of the list of its class. Writes links of free blocks and the
/// table alone: the caller writes the size word of the block. At most 9 touches.
///
/// Table and memory must encode a list of free blocks of valid classes, with their size words. No two of them overlap, and the
/// block must be able to join them.
#[inline(always)]
pub fn link_free_block<const FLLEN: usize, const SLLEN: usize>(
    memory: &mut OpenMemory,
    view: View,
    table: &mut ClassTable<FLLEN, SLLEN>,
    block: usize,
    len: usize,
)
    requires parameters { IsValid 128 128 FLLEN SLLEN }
    requires room { (r : Range) × (free : List Range) × (r.start ≡ block) × (r.len ≡ len) × IsRoom FLLEN SLLEN memory.old table.old free r }
    requires view { view ≡ memory.old.view }
    ensures step { AtEachRoom FLLEN SLLEN memory.old table.old block len (IsNewestFree FLLEN SLLEN memory.old memory.new table.new) }
    ensures costs { Costs memory.old memory.new 9 0 }
{
    // Here `class_of_block` would take a register more, which an allocation would have to save.
    let (fl, sl) = class_of::<SLLEN>(len);
    link_in_class(memory, view, table, block, len, ClassIndex { fl, sl });
}

/// Puts a block in front of the list of its class, as `link_free_block` does, in fewer instructions and with a register more.
#[inline(always)]
pub fn link_joined_block<const FLLEN: usize, const SLLEN: usize>(
    memory: &mut OpenMemory,
    view: View,
    table: &mut ClassTable<FLLEN, SLLEN>,
    block: usize,
    len: usize,
)
    requires parameters { IsValid 128 128 FLLEN SLLEN }
    requires room { (r : Range) × (free : List Range) × (r.start ≡ block) × (r.len ≡ len) × IsRoom FLLEN SLLEN memory.old table.old free r }
    requires view { view ≡ memory.old.view }
    ensures step { AtEachRoom FLLEN SLLEN memory.old table.old block len (IsNewestFree FLLEN SLLEN memory.old memory.new table.new) }
    ensures costs { Costs memory.old memory.new 9 0 }
{
    memory.is_below_limit();
    let (fl, sl) = class_of_block::<SLLEN>(len);
    link_in_class(memory, view, table, block, len, ClassIndex { fl, sl });
}

/// Puts the block of `len` bytes at the address `block` in front of the list of `class`, which is its class.
#[inline(always)]
fn link_in_class<const FLLEN: usize, const SLLEN: usize>(
    memory: &mut OpenMemory,
    view: View,
    table: &mut ClassTable<FLLEN, SLLEN>,
    block: usize,
    len: usize,
    class: ClassIndex,
)
    requires parameters { IsValid 128 128 FLLEN SLLEN }
    requires class { IsClassAt FLLEN SLLEN len class.fl class.sl }
    requires room { (r : Range) × (free : List Range) × (r.start ≡ block) × (r.len ≡ len) × IsRoom FLLEN SLLEN memory.old table.old free r }
    requires view { view ≡ memory.old.view }
    ensures step { AtEachRoom FLLEN SLLEN memory.old table.old block len (IsNewestFree FLLEN SLLEN memory.old memory.new table.new) }
    ensures costs { Costs memory.old memory.new 9 0 }
{
    let _ = len;
    let ClassIndex { fl, sl } = class;
    let newest = table.head(memory, fl, sl);
    link_front(memory, view, newest, block);
    table.put(memory, fl, sl, block);
}

/// Takes the block of `len` bytes at the address `block` out of the list of its class, at any place of it. Writes links
/// of free blocks and the table alone. At most 8 touches.
///
/// Table and memory must encode a list of free blocks of valid classes, with their size words. No two of them overlap, and the
/// block must be one of them.
#[inline(always)]
pub fn unlink_free_block<const FLLEN: usize, const SLLEN: usize>(
    memory: &mut OpenMemory,
    view: View,
    table: &mut ClassTable<FLLEN, SLLEN>,
    block: usize,
    len: usize,
)
    requires parameters { IsValid 128 128 FLLEN SLLEN }
    requires listed { (r : Range) × (free : List Range) × (r.start ≡ block) × (r.len ≡ len) × IsIn r free × IsFreeTable FLLEN SLLEN memory.old table.old free }
    requires view { view ≡ memory.old.view }
    ensures step { AtEachListed FLLEN SLLEN memory.old table.old block len (IsUnlinked FLLEN SLLEN memory.old memory.new table.new) }
    ensures costs { Costs memory.old memory.new 8 0 }
{
    let next = memory.load_at(view, block + NEXT_FREE) as usize;
    let previous = memory.load_at(view, block + PREVIOUS_FREE) as usize;
    // The table first: so the compiler tests once whether there is a next block, and takes the branches of the table for the link, too.
    if previous == 0 {
        memory.is_below_limit();
        let (fl, sl) = class_of_block::<SLLEN>(len);
        table.take(memory, fl, sl, next);
        unlink_between(memory, view, block, next, 0);
    } else {
        unlink_between(memory, view, block, next, previous);
    }
}

/// Takes the newest block of a class, at the address `block`, out of its list. Writes links of free blocks and the table alone. At
/// most 8 touches.
///
/// Table and memory must encode a list of free blocks of valid classes, with their size words. No two of them overlap. The block
/// must be one of them and have that class, and no block before it may have that class.
#[inline(always)]
pub fn unlink_newest_block<const FLLEN: usize, const SLLEN: usize>(
    memory: &mut OpenMemory,
    view: View,
    table: &mut ClassTable<FLLEN, SLLEN>,
    block: usize,
    class: ClassIndex,
)
    requires parameters { IsValid 128 128 FLLEN SLLEN }
    requires newest { HasNewest FLLEN SLLEN memory.old table.old block class.fl class.sl }
    requires view { view ≡ memory.old.view }
    ensures step { AtEachNewest FLLEN SLLEN memory.old table.old block class.fl class.sl (IsUnlinked FLLEN SLLEN memory.old memory.new table.new) }
    ensures costs { Costs memory.old memory.new 8 0 }
{
    let next = memory.load_at(view, block + NEXT_FREE) as usize;
    table.take(memory, class.fl, class.sl, next);
    unlink_between(memory, view, block, next, 0);
}
