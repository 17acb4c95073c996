//! The class table: its bitmaps and its heads.

ghost use Rattle.std.specs.Prelude.{◌≡◌, ◌↔◌, ◌<◌, true, slice_index};
ghost use Rattle.rlsf_model_sizes.specs.SizeClass.{IsValid};
ghost use Rattle.rlsf_model_sizes.specs.Sizes.{IsSize};
ghost use Rattle.rlsf_int.specs.Bits.{bit};
ghost use Rattle.rlsf_table.specs.Table.{IsClassAt};
ghost use Rattle.rlsf_blocks.specs.Consistency.Heads.{AgreesAt, HasHeads, IsFirstOf, RowAgrees};
ghost use Rattle.rlsf_blocks.specs.Steps.Legible.{HasLegibleHeads, IsLegibleAt};

use crate::consistency_check::words::{free_size, has_word_behind};
use rlsf_base::classes::map_floor;
use rlsf_base::memory::OpenMemory;
use rlsf_int::BinInteger;
use rlsf_table::{ClassTable, PREVIOUS_FREE};

/// Returns whether a size has the class at two indices.
fn has_class<const FLLEN: usize, const SLLEN: usize>(size: usize, fl: usize, sl: usize) -> bool
    requires parameters { IsValid 128 128 FLLEN SLLEN }
    requires size { IsSize size }
    ensures { (result ≡ true) ↔ IsClassAt FLLEN SLLEN size fl sl }
{
    match map_floor::<u128, u128, FLLEN, SLLEN>(size) {
        Some((row, place)) => row == fl && place == sl,
        None => false,
    }
}

/// Returns whether the first free block of a class is at an address.
fn is_first<const FLLEN: usize, const SLLEN: usize>(
    memory: &OpenMemory,
    pools: &[usize],
    fl: usize,
    sl: usize,
    addr: usize,
) -> bool
    requires parameters { IsValid 128 128 FLLEN SLLEN }
    requires legible { IsLegibleAt pools.now memory.now addr 24 }
    ensures { (result ≡ true) ↔ IsFirstOf FLLEN SLLEN pools.now memory.now fl sl addr }
{
    match free_size(memory, pools, addr) {
        Some(size) => {
            has_class::<FLLEN, SLLEN>(size, fl, sl)
                && has_word_behind(memory, pools, addr, PREVIOUS_FREE, 0)
        }
        None => false,
    }
}

/// Returns whether the bit of a class and its head agree. `places` has the bits of its row.
fn agrees<const FLLEN: usize, const SLLEN: usize>(
    memory: &OpenMemory,
    table: &ClassTable<FLLEN, SLLEN>,
    pools: &[usize],
    places: u128,
    fl: usize,
    sl: usize,
) -> bool
    requires parameters { IsValid 128 128 FLLEN SLLEN }
    requires class { (fl < FLLEN) × (sl < SLLEN) }
    requires legible { HasLegibleHeads FLLEN SLLEN pools.now memory.now table.now }
    requires places { bit places sl ≡ bit (slice_index table.now.second_level fl) sl }
    ensures { (result ≡ true) ↔ AgreesAt FLLEN SLLEN pools.now memory.now table.now fl sl }
{
    let head = table.newest(fl, sl);
    if head == 0 {
        !places.get_bit(sl as u32)
    } else {
        places.get_bit(sl as u32) && is_first::<FLLEN, SLLEN>(memory, pools, fl, sl, head)
    }
}

/// Returns whether the bits of a row and the heads of its classes agree. `is_set` is the bit of the row.
fn row_agrees<const FLLEN: usize, const SLLEN: usize>(
    memory: &OpenMemory,
    table: &ClassTable<FLLEN, SLLEN>,
    pools: &[usize],
    fl: usize,
    is_set: bool,
) -> bool
    requires parameters { IsValid 128 128 FLLEN SLLEN }
    requires row { fl < FLLEN }
    requires legible { HasLegibleHeads FLLEN SLLEN pools.now memory.now table.now }
    ensures { (result ≡ true) ↔ RowAgrees FLLEN SLLEN pools.now memory.now table.now fl is_set }
{
    let places: u128 = table.sl_bitmap(fl);
    let mut has_head = false;
    for sl in 0..SLLEN {
        if !agrees(memory, table, pools, places, fl, sl) {
            return false;
        }
        if table.newest(fl, sl) != 0 {
            has_head = true;
        }
    }
    has_head == is_set
}

/// Returns whether the bitmaps and the heads of a class table agree.
pub(crate) fn heads_agree<const FLLEN: usize, const SLLEN: usize>(
    memory: &OpenMemory,
    table: &ClassTable<FLLEN, SLLEN>,
    pools: &[usize],
) -> bool
    requires parameters { IsValid 128 128 FLLEN SLLEN }
    requires legible { HasLegibleHeads FLLEN SLLEN pools.now memory.now table.now }
    ensures { (result ≡ true) ↔ HasHeads FLLEN SLLEN pools.now memory.now table.now }
{
    let rows: u128 = table.fl_bitmap();
    for fl in 0..FLLEN {
        if !row_agrees(memory, table, pools, fl, rows.get_bit(fl as u32)) {
            return false;
        }
    }
    true
}
