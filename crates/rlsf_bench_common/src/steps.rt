//! The run: payloads are allocated into slots, and freed or reallocated.

ghost use Rattle.std.specs.Prelude.{◌≡◌, ◌+◌, ◌<◌, ◌≤◌, ◌^◌, length, replicate, IfOk, IfErr};
ghost use Rattle.std.specs.Int.NonZero.{non_zero_u16_get, non_zero_usize_get};
ghost use Rattle.rlsf_base.specs.Addr.{reply};
ghost use Rattle.rlsf_base.specs.Range.{LiesIn};
ghost use Rattle.rlsf_model.specs.State.{empty};
ghost use Rattle.rlsf_bench_common.specs.Runs.{alignment_of, slot_of, size_of, BenchState, IsBench};
ghost use Rattle.rlsf_bench_common.specs.Slots.{AreSlotsAt, LeadsSlots, slot_address};

use crate::arguments::Mode;
use crate::calls::{allocate, deallocate, reallocate};
use crate::error::BenchError;
use crate::random::Xorshift;
use crate::tally::Tally;
use rlsf_base::memory::{Addr, Layout, Memory, Range};
use rlsf_int::BitPattern;
use rlsf_tlsf::Tlsf;
use std::alloc::Global;
use std::num::{NonZeroU16, NonZeroUsize};

/// The alignment of a slot's payloads: slot after slot has 1, 2, 4 and so on, `ALIGNS` of them, and then 1 again. Where it is one
/// alignment, the compiler knows that it is 1.
fn alignment_of<const ALIGNS: usize>(slot: usize) -> usize
    requires { (0 < ALIGNS) × (ALIGNS < 64) }
    ensures { result ≡ alignment_of ALIGNS slot }
{
    1 << (slot % ALIGNS)
}

/// The layout of so many bytes in a slot, with its alignment.
fn layout_of<const ALIGNS: usize>(size: usize, slot: usize) -> Layout
    requires alignments { (0 < ALIGNS) × (ALIGNS < 64) }
    requires size { size < 2 ^ 16 }
    ensures { (result.size ≡ size) × (result.align ≡ alignment_of ALIGNS slot) }
{
    Layout::from_size_align_unchecked(size, alignment_of::<ALIGNS>(slot))
}

/// The size that a drawn number asks for, of so many. The compiler knows none of them, since they are an argument of the program.
fn size_of(sizes: NonZeroU16, draw: u64) -> usize
    ensures value { result ≡ size_of (non_zero_u16_get sizes) draw }
    ensures bound { result < 2 ^ 16 }
{
    (draw % u64::from(sizes.get())) as usize
}

/// The slot that a drawn number names, of so many.
fn slot_of(slots: usize, draw: u64) -> usize
    requires { 0 < slots }
    ensures value { result ≡ slot_of slots draw }
    ensures bound { result < slots }
{
    (draw >> 32) as usize % slots
}

/// A memory of these addresses.
pub(crate) fn memory_of(alloc: Global, addresses: Range) -> Result<Memory, BenchError>
    ensures ok { IfOk result (λ memory. (memory.start ≡ addresses.start) × (length memory.bytes ≡ addresses.len)) }
    ensures err { IfErr result (λ error. error ≡ BenchError.OutOfMemory) }
{
    Memory::new(alloc, addresses.start, addresses.len).map_err(|_| BenchError::OutOfMemory)
}

/// So many slots, without a payload. A slot is the address of the payload that it holds, or 0.
fn empty_slots(alloc: Global, slots: usize) -> Result<Vec<usize>, BenchError>
    ensures ok { IfOk result (λ live. live.items ≡ replicate slots 0) }
    ensures err { IfErr result (λ error. error ≡ BenchError.OutOfMemory) }
{
    Ok(vec![in alloc; 0; slots]?)
}

/// A slot that holds what an allocation returned.
fn slot_with(placed: Option<Addr>) -> usize
    ensures { slot_address result ≡ reply placed }
{
    match placed {
        Some(addr) => addr.get(),
        None => 0,
    }
}

/// Frees the payload of the slot that a drawn number names, or gives it a size; a slot without a payload gets one of that size.
fn step<
    FLBitmap: BitPattern,
    SLBitmap: BitPattern,
    const FLLEN: usize,
    const SLLEN: usize,
    const CALLED: bool,
    const ALIGNS: usize,
>(
    tlsf: &mut Tlsf<FLBitmap, SLBitmap, FLLEN, SLLEN>,
    slots: &mut [usize],
    tally: &mut Tally,
    reallocates: bool,
    draw: u64,
    size: usize,
)
    requires alignments { (0 < ALIGNS) × (ALIGNS < 64) }
    requires some { 0 < length slots.old }
    requires size { size < 2 ^ 16 }
    requires state { (s : BenchState) × AreSlotsAt FLLEN SLLEN ALIGNS tlsf.old slots.old tally.old s }
    requires refused { tally.old.refused + 1 < 2 ^ 64 }
    ensures does { (s : BenchState) → AreSlotsAt FLLEN SLLEN ALIGNS tlsf.old slots.old tally.old s
        → LeadsSlots FLLEN SLLEN ALIGNS (length slots.old) reallocates draw size s tlsf.new slots.new tally.new }
    ensures refused { tally.new.refused ≤ tally.old.refused + 1 }
{
    let slot = slot_of(slots.len(), draw);
    if let Some(addr) = NonZeroUsize::new(slots[slot]) {
        if reallocates {
            let moved = reallocate::<FLBitmap, SLBitmap, FLLEN, SLLEN, CALLED>(
                tlsf,
                addr,
                layout_of::<ALIGNS>(size, slot),
            );
            slots[slot] = moved.unwrap_or(addr).get();
            tally.count(moved);
        } else {
            deallocate::<FLBitmap, SLBitmap, FLLEN, SLLEN, CALLED>(
                tlsf,
                addr,
                alignment_of::<ALIGNS>(slot),
            );
            slots[slot] = 0;
        }
    } else {
        let placed = allocate::<FLBitmap, SLBitmap, FLLEN, SLLEN, CALLED>(
            tlsf,
            layout_of::<ALIGNS>(size, slot),
        );
        slots[slot] = slot_with(placed);
        tally.count(placed);
    }
}

/// Does so many steps on so many slots with so many sizes, from 0 on, with an allocator without chunks. The pool, which lies in its memory, is inserted first.
/// Returns the tally of the allocations and reallocations.
pub(crate) fn run<
    FLBitmap: BitPattern,
    SLBitmap: BitPattern,
    const FLLEN: usize,
    const SLLEN: usize,
    const CALLED: bool,
    const ALIGNS: usize,
>(
    alloc: Global,
    mut tlsf: Tlsf<FLBitmap, SLBitmap, FLLEN, SLLEN>,
    pool: Range,
    slots: NonZeroUsize,
    sizes: NonZeroU16,
    steps: u64,
    mode: Mode,
) -> Result<Tally, BenchError>
    requires alignments { (0 < ALIGNS) × (ALIGNS < 64) }
    requires new { tlsf.state ≡ empty }
    requires pool { LiesIn pool tlsf.memory.start (length tlsf.memory.bytes) }
    ensures ok { IfOk result (λ tally. IsBench FLLEN SLLEN ALIGNS pool (non_zero_usize_get slots) (non_zero_u16_get sizes) steps mode tally) }
    ensures err { IfErr result (λ error. error ≡ BenchError.OutOfMemory) }
{
    let _ = tlsf.insert_free_block_ptr(pool);
    let mut live = empty_slots(alloc, slots.get())?;
    let mut draws = Xorshift::new();
    let mut tally = Tally::new();
    for number in 0..steps {
        let draw = draws.next();
        step::<FLBitmap, SLBitmap, FLLEN, SLLEN, CALLED, ALIGNS>(
            &mut tlsf,
            &mut live,
            &mut tally,
            mode.reallocates_at(number),
            draw,
            size_of(sizes, draw),
        );
    }
    Ok(tally)
}
