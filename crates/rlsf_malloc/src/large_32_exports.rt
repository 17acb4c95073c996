//! The exports of 64 rows of 32 classes, as `large_exports.rt` has them for the large kind.

ghost use Rattle.std.specs.Borrow.{sem};
ghost use Rattle.std.specs.Ptr.{room_at};
ghost use Rattle.std.specs.Prelude.{◌≡◌, ◌≢◌, ◌%◌, ◌≤◌, ℕ, List, length};
ghost use Rattle.rlsf_base.specs.Range.{range_at};
ghost use Rattle.rlsf_base.specs.RawParts.{CanStart};
ghost use Rattle.rlsf_base.specs.Piece.{Piece};
ghost use Rattle.rlsf_base.specs.Steps.Ownership.{IsInBlock};
ghost use Rattle.rlsf_heap.specs.Loans.{owns_loan};
ghost use Rattle.rlsf_blocks.specs.Blocks.{walked};
ghost use Rattle.rlsf_model.specs.ChunkRows.{IsRow};
ghost use Rattle.rlsf_model.specs.Sized.{live_count};
ghost use Rattle.rlsf_heap.specs.Heap.{HeapView, PayloadView};
ghost use Rattle.rlsf_heap.specs.Words.{WordsView};
ghost use Rattle.rlsf_blocks.specs.Consistency.Consistent.{ArePoolsLegible};
ghost use Rattle.rlsf_heap.specs.Thin.{owns_reply};
ghost use Rattle.rlsf_malloc_calls.specs.Blocks.{AreTotals, IsAny, IsCheckOf, IsListing};
ghost use Rattle.rlsf_malloc_calls.specs.Calls.{AddsLent, AllocatesPayload, AllocatesZeroed, AppendsLent, CanAppend, CanLend, CanRemove, Frees, IsPayloadAt, IsFreshHeap, IsReady, IsUsableSize, OwnsLent, RemovesLent, aligned_for};
ghost use Rattle.rlsf_malloc.specs.Handle.{Gives, HoldsValue, HoldsSome, Returns, handle_size, rest_of, large_32, large_32_words};
ghost use Rattle.rlsf_malloc_calls.specs.Lengths.{IsPoolSizeForBudget, IsPoolSizeOf};
ghost use Rattle.rlsf_malloc_calls.specs.Resizing.{ResizesAligned, ResizesAny, ResizesInPlace};

use rlsf_base::memory::OpenMemory;
use rlsf_blocks::Totals;
use rlsf_heap::{Heap, HeapWords, Loan, ThinPayload};
use rlsf_malloc_calls::{calls, lengths, pools, resizing};
use std::alloc::Global;
use std::mem::size_of;

/// A heap of 64 rows of 32 classes.
pub type Large32 = Heap<u64, u64, 64, 32>;

/// Its words, whatever their values are.
pub type Large32Words = HeapWords<u64, u64, 64, 32>;

/// As `rlsf_large_size`, for 64 rows of 32 classes.
#[unsafe(no_mangle)]
pub extern "C" fn rlsf_large_32_size() -> usize
    ensures { result ≡ handle_size large_32 }
{
    size_of::<Large32>()
}

/// As `rlsf_large_pool_size`, for 64 rows of 32 classes.
#[unsafe(no_mangle)]
pub extern "C" fn rlsf_large_32_pool_size(size: usize, align: usize) -> usize
    ensures { IsPoolSizeOf 64 32 size align result }
{
    lengths::pool_size::<u64, u64, 64, 32>(size, align)
}

/// As `rlsf_large_pool_size_for_budget`, for 64 rows of 32 classes.
#[unsafe(no_mangle)]
pub extern "C" fn rlsf_large_32_pool_size_for_budget(
    count: usize,
    bytes: usize,
    size: usize,
    align: usize,
) -> usize
    ensures { IsPoolSizeForBudget 64 32 count bytes size align result }
{
    lengths::pool_size_for_budget::<u64, u64, 64, 32>(count, bytes, size, align)
}

/// As `rlsf_large_init`, for 64 rows of 32 classes.
#[unsafe(no_mangle)]
pub unsafe extern "C" fn rlsf_large_32_init(
    heap: *mut u8,
    alloc: Global,
    block: *mut u8,
    start: usize,
    len: usize,
)
    requires* { sem 𝓛 (room_at large_32 heap) ∗ ⌜ CanStart start len × IsInBlock block ⌝ }
    ensures* { sem 𝓛 (HoldsSome large_32 heap (λ after. IsFreshHeap block start len after)) }
{
    let memory = OpenMemory::over_addresses(alloc, block, start, len);
    std::ptr::write(heap as *mut Large32, calls::over(memory));
}

/// As `rlsf_large_end`, for 64 rows of 32 classes.
#[unsafe(no_mangle)]
pub unsafe extern "C" fn rlsf_large_32_end(heap: *mut u8)
    ghost before: { HeapView }
    requires* { sem 𝓛 (HoldsValue large_32 IsReady heap before) ∗ ⌜ (live_count before.state ≡ 0) × (before.identity.home.start % 8 ≡ 0) ⌝ }
    ensures* { sem 𝓛 (room_at large_32 heap) ∗ sem 𝓛 (rest_of before.identity.home before.memory.out (OwnsLent before)) }
{
    let parts = calls::parts(std::ptr::read(heap as *const Large32));
    let _ = parts.release_lent();
}

/// As `rlsf_large_add`, for 64 rows of 32 classes.
#[unsafe(no_mangle)]
pub unsafe extern "C" fn rlsf_large_32_add(heap: *mut u8, start: usize, len: usize) -> usize
    ghost before: { HeapView × Piece }
    requires* { sem 𝓛 (HoldsValue large_32 IsReady heap before.0) ∗ (sem 𝓛 (owns_loan before.1) ∗ ⌜ CanLend before.0 start len before.1 ⌝) }
    ensures* { sem 𝓛 (Returns large_32 heap (λ after back. AddsLent 64 before.0 start len result back after)) }
{
    let loan = Loan::from_raw(start);
    let lending = calls::add(&mut *(heap as *mut Large32), start, loan, len);
    lending.into_raw()
}

/// As `rlsf_large_append`, for 64 rows of 32 classes.
#[unsafe(no_mangle)]
pub unsafe extern "C" fn rlsf_large_32_append(heap: *mut u8, start: usize, len: usize) -> usize
    ghost before: { HeapView × Piece }
    requires* { sem 𝓛 (HoldsValue large_32 IsReady heap before.0) ∗ (sem 𝓛 (owns_loan before.1) ∗ ⌜ CanAppend before.0 start len before.1 ⌝) }
    ensures* { sem 𝓛 (Returns large_32 heap (λ after back. AppendsLent 64 before.0 start len result back after)) }
{
    let loan = Loan::from_raw(start);
    let lending = calls::append(&mut *(heap as *mut Large32), start, loan, len);
    lending.into_raw()
}

/// As `rlsf_large_malloc`, for 64 rows of 32 classes.
#[unsafe(no_mangle)]
pub unsafe extern "C" fn rlsf_large_32_malloc(heap: *mut u8, size: usize) -> usize
    ghost before: { HeapView }
    requires* { sem 𝓛 (HoldsValue large_32 IsReady heap before) }
    ensures* { sem 𝓛 (Gives large_32 heap (λ after payload. (payload.start ≡ result) × AllocatesPayload 32 before size 16 payload after)) }
{
    let payload = calls::malloc(&mut *(heap as *mut Large32), size);
    payload.into_raw()
}

/// As `rlsf_large_allocate`, for 64 rows of 32 classes.
#[unsafe(no_mangle)]
pub unsafe extern "C" fn rlsf_large_32_allocate(heap: *mut u8, size: usize, align: usize) -> usize
    ghost before: { HeapView }
    requires* { sem 𝓛 (HoldsValue large_32 IsReady heap before) }
    ensures* { sem 𝓛 (Gives large_32 heap (λ after payload. (payload.start ≡ result) × AllocatesPayload 32 before size (aligned_for align) payload after)) }
{
    let payload = calls::allocate(&mut *(heap as *mut Large32), size, align);
    payload.into_raw()
}

/// As `rlsf_large_allocate_zeroed`, for 64 rows of 32 classes.
#[unsafe(no_mangle)]
pub unsafe extern "C" fn rlsf_large_32_allocate_zeroed(
    heap: *mut u8,
    count: usize,
    size: usize,
) -> usize
    ghost before: { HeapView }
    requires* { sem 𝓛 (HoldsValue large_32 IsReady heap before) }
    ensures* { sem 𝓛 (Gives large_32 heap (λ after payload. (payload.start ≡ result) × AllocatesZeroed 32 before count size payload after)) }
{
    let payload = calls::allocate_zeroed(&mut *(heap as *mut Large32), count, size);
    payload.into_raw()
}

/// As `rlsf_large_free`, for 64 rows of 32 classes.
#[unsafe(no_mangle)]
pub unsafe extern "C" fn rlsf_large_32_free(heap: *mut u8, addr: usize)
    ghost before: { HeapView × PayloadView }
    requires* { sem 𝓛 (HoldsValue large_32 IsReady heap before.0) ∗ (sem 𝓛 (owns_reply before.1) ∗ ⌜ IsPayloadAt before.0 addr before.1 ⌝) }
    ensures* { sem 𝓛 (HoldsSome large_32 heap (λ after. Frees before.0 addr before.1 after)) }
{
    let payload = ThinPayload::from_raw(addr);
    calls::free(&mut *(heap as *mut Large32), addr, payload);
}

/// As `rlsf_large_reallocate`, for 64 rows of 32 classes.
#[unsafe(no_mangle)]
pub unsafe extern "C" fn rlsf_large_32_reallocate(heap: *mut u8, addr: usize, size: usize) -> usize
    ghost before: { HeapView × PayloadView }
    requires* { sem 𝓛 (HoldsValue large_32 IsReady heap before.0) ∗ (sem 𝓛 (owns_reply before.1) ∗ ⌜ IsPayloadAt before.0 addr before.1 × (addr ≢ 0 → 16 ≤ before.1.align) ⌝) }
    ensures* { sem 𝓛 (Gives large_32 heap (λ after payload. ResizesAny 32 before.0 addr before.1 size result payload after)) }
{
    let payload = ThinPayload::from_raw(addr);
    let resized = resizing::resize_any(&mut *(heap as *mut Large32), addr, payload, size);
    resized.into_raw()
}

/// As `rlsf_large_reallocate_aligned`, for 64 rows of 32 classes.
#[unsafe(no_mangle)]
pub unsafe extern "C" fn rlsf_large_32_reallocate_aligned(
    heap: *mut u8,
    addr: usize,
    size: usize,
    align: usize,
) -> usize
    ghost before: { HeapView × PayloadView }
    requires* { sem 𝓛 (HoldsValue large_32 IsReady heap before.0) ∗ (sem 𝓛 (owns_reply before.1) ∗ ⌜ IsPayloadAt before.0 addr before.1 × (addr ≢ 0 → before.1.align ≡ aligned_for align) ⌝) }
    ensures* { sem 𝓛 (Gives large_32 heap (λ after payload. ResizesAligned 32 before.0 addr before.1 size align result payload after)) }
{
    let payload = ThinPayload::from_raw(addr);
    let resized = resizing::resize_aligned(
        &mut *(heap as *mut Large32),
        addr,
        payload,
        size,
        align,
    );
    resized.into_raw()
}

/// As `rlsf_large_reallocate_in_place`, for 64 rows of 32 classes.
#[unsafe(no_mangle)]
pub unsafe extern "C" fn rlsf_large_32_reallocate_in_place(
    heap: *mut u8,
    addr: usize,
    size: usize,
) -> usize
    ghost before: { HeapView × PayloadView }
    requires* { sem 𝓛 (HoldsValue large_32 IsReady heap before.0) ∗ (sem 𝓛 (owns_reply before.1) ∗ ⌜ IsPayloadAt before.0 addr before.1 × (addr ≢ 0 → 16 ≤ before.1.align) ⌝) }
    ensures* { sem 𝓛 (Gives large_32 heap (λ after payload. ResizesInPlace before.0 addr before.1 size result payload after)) }
{
    let payload = ThinPayload::from_raw(addr);
    let resized = resizing::resize_in_place(&mut *(heap as *mut Large32), addr, payload, size);
    resized.into_raw()
}

/// As `rlsf_large_usable`, for 64 rows of 32 classes.
#[unsafe(no_mangle)]
pub unsafe extern "C" fn rlsf_large_32_usable(heap: *mut u8, addr: usize) -> usize
    ghost before: { HeapView × PayloadView }
    requires* { sem 𝓛 (HoldsValue large_32 IsReady heap before.0) ∗ (sem 𝓛 (owns_reply before.1) ∗ ⌜ IsPayloadAt before.0 addr before.1 ⌝) }
    ensures* { sem 𝓛 (Gives large_32 heap (λ after payload. IsUsableSize before.0 addr before.1 result payload after)) }
{
    let payload = ThinPayload::from_raw(addr);
    let measured = calls::usable(&mut *(heap as *mut Large32), addr, payload);
    measured.into_raw()
}

/// As `rlsf_large_stats`, for 64 rows of 32 classes.
#[unsafe(no_mangle)]
pub unsafe extern "C" fn rlsf_large_32_stats(heap: *mut u8, start: usize, len: usize) -> Totals
    ghost before: { HeapView }
    requires* { sem 𝓛 (HoldsValue large_32 IsReady heap before) ∗ ⌜ IsRow before.state (walked (range_at start len)) ⌝ }
    ensures* { sem 𝓛 (HoldsSome large_32 heap (λ after. AreTotals before (range_at start len) result × (after ≡ before))) }
{
    pools::totals_in(&mut *(heap as *mut Large32), start, len)
}

/// As `rlsf_large_list`, for 64 rows of 32 classes.
#[unsafe(no_mangle)]
pub unsafe extern "C" fn rlsf_large_32_list(
    heap: *mut u8,
    start: usize,
    len: usize,
    from: usize,
    into: &mut [usize],
) -> usize
    ghost before: { HeapView }
    requires* { sem 𝓛 (HoldsValue large_32 IsReady heap before) ∗ ⌜ IsRow before.state (walked (range_at start len)) ⌝ }
    ensures* { sem 𝓛 (HoldsSome large_32 heap (λ after. IsListing before (range_at start len) from into.old result into.new × (after ≡ before))) }
{
    pools::list_in(&mut *(heap as *mut Large32), start, len, from, into)
}

/// As `rlsf_large_check`, for 64 rows of 32 classes.
#[unsafe(no_mangle)]
pub unsafe extern "C" fn rlsf_large_32_check(heap: *mut u8, pools: &[usize]) -> usize
    ghost before: { WordsView }
    requires* { sem 𝓛 (HoldsValue large_32_words IsAny heap before) ∗ ⌜ ArePoolsLegible 64 32 pools.now before.memory before.table ⌝ }
    ensures* { sem 𝓛 (HoldsSome large_32_words heap (λ after. IsCheckOf 64 32 before pools.now result × (after ≡ before))) }
{
    pools::check_in(&mut *(heap as *mut Large32Words), pools)
}

/// As `rlsf_large_remove`, for 64 rows of 32 classes.
#[unsafe(no_mangle)]
pub unsafe extern "C" fn rlsf_large_32_remove(heap: *mut u8, start: usize, len: usize) -> usize
    ghost before: { HeapView × Piece }
    requires* { sem 𝓛 (HoldsValue large_32 IsReady heap before.0) ∗ (sem 𝓛 (owns_loan before.1) ∗ ⌜ CanRemove before.0 start len before.1 ⌝) }
    ensures* { sem 𝓛 (Returns large_32 heap (λ after back. RemovesLent before.0 start len result back after)) }
{
    let none = Loan::from_raw(start);
    let lending = pools::remove_in(&mut *(heap as *mut Large32), start, none, len);
    lending.into_raw()
}
