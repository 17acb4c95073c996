//! The calls of a heap, over numbers and payloads.

ghost use Rattle.std.specs.Prelude.{false, ◌%◌, ◌+◌, ◌-◌, ◌<◌, ◌≤◌, ◌^◌, ◌≡◌, ◌≢◌};
ghost use Rattle.rlsf_base.specs.Range.{range_at};
ghost use Rattle.rlsf_model_sizes.specs.SizeClass.{IsValid};
ghost use Rattle.rlsf_model.specs.Sized.{live_count};
ghost use Rattle.rlsf_base.specs.Addr.{reply, reply_of};
ghost use Rattle.rlsf_malloc_calls.specs.Calls.{AddsLent, AppendsLent, CanAppend, AllocatesPayload, AllocatesZeroed, CanLend, Frees, IsAllOut, IsPayloadAt, IsOver, IsReady, IsUsableSize, OwnsLent, aligned_for};
ghost use Rattle.rlsf_malloc_calls.specs.Parts.{ArePartsOf};

use crate::replies::{Lending, Reply};
use rlsf_base::memory::{Layout, OpenMemory, Range, RawParts};
use rlsf_heap::{Heap, Loan, ThinPayload};
use rlsf_int::BitPattern;
use std::num::NonZeroUsize;

/// Creates a heap over a memory, to which no range was added. The parameters must be valid, as for `Heap::new`.
pub fn over<F: BitPattern, S: BitPattern, const FLLEN: usize, const SLLEN: usize>(
    memory: OpenMemory,
) -> Heap<F, S, FLLEN, SLLEN>
    requires { IsValid F.width S.width FLLEN SLLEN × IsAllOut memory }
    ensures { IsOver memory result }
{
    Heap::over_lent(memory)
}

/// Consumes a heap of which no payload is live, and returns the parts of its memory. Bytes that aren't lent to it are out.
pub fn parts<F: BitPattern, S: BitPattern, const FLLEN: usize, const SLLEN: usize>(
    heap: Heap<F, S, FLLEN, SLLEN>,
) -> RawParts
    requires { IsReady heap × (live_count heap.state ≡ 0) × (heap.identity.home.start % 8 ≡ 0) }
    ensures { ArePartsOf heap.identity.home heap.memory.out (OwnsLent heap) result }
{
    heap.into_memory().into_raw_parts()
}

/// Returns the alignment of a payload for which `align` was requested: 16 at least.
pub(crate) fn at_least_16(align: usize) -> usize
    ensures { result ≡ aligned_for align }
{
    if align < 16 { 16 } else { align }
}

/// Returns a number of bytes, or 0 if there is none.
fn or_zero(bytes: Option<NonZeroUsize>) -> usize
    ensures { reply bytes ≡ reply_of result }
{
    match bytes {
        Some(number) => number.get(),
        None => 0,
    }
}

/// Returns what of a range is behind its first bytes.
fn behind(range: Range, taken: usize) -> Range
    requires few { taken ≤ range.len }
    requires end { range.start + range.len < 2 ^ 64 }
    ensures { result ≡ range_at (range.start + taken) (range.len - taken) }
{
    Range {
        start: range.start + taken,
        len: range.len - taken,
    }
}

/// Adds a range of the caller's bytes. Returns the number of bytes from its start to the end of its last chunk, or 0, and the bytes behind these.
pub fn add<F: BitPattern, S: BitPattern, const FLLEN: usize, const SLLEN: usize>(
    heap: &mut Heap<F, S, FLLEN, SLLEN>,
    start: usize,
    loan: Loan,
    len: usize,
) -> Lending
    requires { IsReady heap.old × CanLend heap.old start len loan.of }
    ensures { AddsLent FLLEN heap.old start len result.number result.loan.of heap.new }
{
    let range = Range { start, len };
    // What it says of every memory: each address fits in a word.
    let _ = heap.memory_ref().start();
    heap.lend_loan(loan, range);
    let number = or_zero(heap.insert_free_block_ptr(range));
    let rest = behind(range, number);
    Lending {
        number,
        loan: heap.reclaim_loan(rest),
    }
}

/// Appends a range of the caller's bytes, which begins where a chunk ends. Returns the number of bytes taken, and the bytes behind these.
pub fn append<F: BitPattern, S: BitPattern, const FLLEN: usize, const SLLEN: usize>(
    heap: &mut Heap<F, S, FLLEN, SLLEN>,
    start: usize,
    loan: Loan,
    len: usize,
) -> Lending
    requires { IsReady heap.old × CanAppend heap.old start len loan.of }
    ensures { AppendsLent FLLEN heap.old start len result.number result.loan.of heap.new }
{
    let range = Range { start, len };
    // What it says of every memory: each address fits in a word.
    let _ = heap.memory_ref().start();
    heap.lend_loan(loan, range);
    let number = heap.append_free_block_ptr(range);
    let rest = behind(range, number);
    Lending {
        number,
        loan: heap.reclaim_loan(rest),
    }
}

/// Returns whether a payload of `size` bytes may fit in the longest chunk of a heap.
#[inline(always)]
fn may_fit<const FLLEN: usize>(size: usize) -> bool
    ensures { result ≡ false → 2 ^ (5 + FLLEN) < size + 48 }
{
    // The last block of a chunk takes 32 bytes, and the header of the payload 16.
    FLLEN >= 59 || size <= (1usize << (FLLEN + 5)).saturating_sub(48)
}

/// Allocates a payload for a layout, if there is one, or returns none.
#[inline(always)]
fn allocate_for<F: BitPattern, S: BitPattern, const FLLEN: usize, const SLLEN: usize>(
    heap: &mut Heap<F, S, FLLEN, SLLEN>,
    size: usize,
    align: usize,
) -> ThinPayload
    requires { IsReady heap.old }
    ensures { (result.addr ≡ result.of.start) × AllocatesPayload SLLEN heap.old size align result.of heap.new }
{
    // After this test the compiler leaves out those of the layout's size and of its row.
    if !may_fit::<FLLEN>(size) {
        heap.memory_ref();
        return ThinPayload::none();
    }
    match Layout::from_size_align(size, align) {
        Ok(layout) => heap.allocate_thin(layout),
        Err(_) => ThinPayload::none(),
    }
}

/// Allocates a payload of the alignment 16, or returns none.
// Apart from `allocate`, and of one caller: so it is in line there, and the compiler drops the tests of a constant alignment.
pub fn malloc<F: BitPattern, S: BitPattern, const FLLEN: usize, const SLLEN: usize>(
    heap: &mut Heap<F, S, FLLEN, SLLEN>,
    size: usize,
) -> ThinPayload
    requires { IsReady heap.old }
    ensures { (result.addr ≡ result.of.start) × AllocatesPayload SLLEN heap.old size 16 result.of heap.new }
{
    allocate_for(heap, size, 16)
}

/// Allocates a payload of an alignment, which is 16 or a wide one, or returns none.
#[inline(never)]
pub(crate) fn allocate_aligned<
    F: BitPattern,
    S: BitPattern,
    const FLLEN: usize,
    const SLLEN: usize,
>(heap: &mut Heap<F, S, FLLEN, SLLEN>, size: usize, align: usize) -> ThinPayload
    requires { IsReady heap.old }
    ensures { (result.addr ≡ result.of.start) × AllocatesPayload SLLEN heap.old size align result.of heap.new }
{
    allocate_for(heap, size, align)
}

/// Allocates a payload, or returns none.
pub fn allocate<F: BitPattern, S: BitPattern, const FLLEN: usize, const SLLEN: usize>(
    heap: &mut Heap<F, S, FLLEN, SLLEN>,
    size: usize,
    align: usize,
) -> ThinPayload
    requires { IsReady heap.old }
    ensures { (result.addr ≡ result.of.start) × AllocatesPayload SLLEN heap.old size (aligned_for align) result.of heap.new }
{
    allocate_aligned(heap, size, at_least_16(align))
}

/// Allocates a payload of `count * size` zero bytes, or returns none.
pub fn allocate_zeroed<F: BitPattern, S: BitPattern, const FLLEN: usize, const SLLEN: usize>(
    heap: &mut Heap<F, S, FLLEN, SLLEN>,
    count: usize,
    size: usize,
) -> ThinPayload
    requires { IsReady heap.old }
    ensures { (result.addr ≡ result.of.start) × AllocatesZeroed SLLEN heap.old count size result.of heap.new }
{
    let Some(total) = count.checked_mul(size) else {
        return ThinPayload::none();
    };
    match Layout::from_size_align(total, 16) {
        Ok(layout) => heap.allocate_thin_zeroed(layout),
        Err(_) => ThinPayload::none(),
    }
}

/// Deallocates the payload at an address. Does nothing if that is 0.
#[tactic(auto, using(crate::proofs::AtAddresses::heap_of_payload, crate::proofs::AtAddresses::payload_is_written))]
pub fn free<F: BitPattern, S: BitPattern, const FLLEN: usize, const SLLEN: usize>(
    heap: &mut Heap<F, S, FLLEN, SLLEN>,
    addr: usize,
    payload: ThinPayload,
)
    requires { IsReady heap.old × IsPayloadAt heap.old addr payload.of }
    ensures { Frees heap.old addr payload.of heap.new }
{
    if addr != 0 {
        heap.deallocate_thin_written(addr, payload);
    }
}

/// Returns the number of usable bytes of the payload at an address, or 0 if that is 0, and the payload.
#[tactic(auto, using(crate::proofs::AtAddresses::heap_of_payload))]
pub fn usable<F: BitPattern, S: BitPattern, const FLLEN: usize, const SLLEN: usize>(
    heap: &mut Heap<F, S, FLLEN, SLLEN>,
    addr: usize,
    payload: ThinPayload,
) -> Reply
    requires { IsReady heap.old × IsPayloadAt heap.old addr payload.of }
    ensures { IsUsableSize heap.old addr payload.of result.number result.payload.of heap.new }
{
    if addr == 0 {
        return Reply { number: 0, payload };
    }
    let (number, payload) = heap.usable_thin(addr, payload);
    Reply { number, payload }
}
