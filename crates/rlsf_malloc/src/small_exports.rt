//! The exports of the small kind, as `large_exports.rt` has them for the large kind.

ghost use Rattle.std.specs.Borrow.{sem};
ghost use Rattle.std.specs.Ptr.{room_at};
ghost use Rattle.std.specs.Prelude.{◌≡◌, ◌≢◌, ◌%◌, ◌≤◌, ℕ, List, length};
ghost use Rattle.rlsf_base.specs.Range.{range_at};
ghost use Rattle.rlsf_base.specs.RawParts.{CanStart};
ghost use Rattle.rlsf_base.specs.Piece.{Piece};
ghost use Rattle.rlsf_base.specs.Steps.Ownership.{IsInBlock};
ghost use Rattle.rlsf_heap.specs.Loans.{owns_loan};
ghost use Rattle.rlsf_blocks.specs.Blocks.{walked};
ghost use Rattle.rlsf_model.specs.ChunkRows.{IsRow};
ghost use Rattle.rlsf_model.specs.Sized.{live_count};
ghost use Rattle.rlsf_heap.specs.Heap.{HeapView, PayloadView};
ghost use Rattle.rlsf_heap.specs.Words.{WordsView};
ghost use Rattle.rlsf_blocks.specs.Consistency.Consistent.{ArePoolsLegible};
ghost use Rattle.rlsf_heap.specs.Thin.{owns_reply};
ghost use Rattle.rlsf_malloc_calls.specs.Blocks.{AreTotals, IsAny, IsCheckOf, IsListing};
ghost use Rattle.rlsf_malloc_calls.specs.Calls.{AddsLent, AllocatesPayload, AllocatesZeroed, AppendsLent, CanAppend, CanLend, CanRemove, Frees, IsPayloadAt, IsFreshHeap, IsReady, IsUsableSize, OwnsLent, RemovesLent, aligned_for};
ghost use Rattle.rlsf_malloc.specs.Handle.{Gives, HoldsValue, HoldsSome, Returns, handle_size, rest_of, small, small_words};
ghost use Rattle.rlsf_malloc_calls.specs.Lengths.{IsPoolSizeForBudget, IsPoolSizeOf};
ghost use Rattle.rlsf_malloc_calls.specs.Resizing.{ResizesAligned, ResizesAny, ResizesInPlace};

use rlsf_base::memory::OpenMemory;
use rlsf_blocks::Totals;
use rlsf_heap::{Heap, HeapWords, Loan, ThinPayload};
use rlsf_malloc_calls::{calls, lengths, pools, resizing};
use std::alloc::Global;
use std::mem::size_of;

/// A heap of the small kind.
pub type Small = Heap<u16, u16, 12, 16>;

/// Its words, whatever their values are.
pub type SmallWords = HeapWords<u16, u16, 12, 16>;

/// As `rlsf_large_size`, for the small kind.
#[unsafe(no_mangle)]
pub extern "C" fn rlsf_small_size() -> usize
    ensures { result ≡ handle_size small }
{
    size_of::<Small>()
}

/// As `rlsf_large_pool_size`, for the small kind.
#[unsafe(no_mangle)]
pub extern "C" fn rlsf_small_pool_size(size: usize, align: usize) -> usize
    ensures { IsPoolSizeOf 12 16 size align result }
{
    lengths::pool_size::<u16, u16, 12, 16>(size, align)
}

/// As `rlsf_large_pool_size_for_budget`, for the small kind.
#[unsafe(no_mangle)]
pub extern "C" fn rlsf_small_pool_size_for_budget(
    count: usize,
    bytes: usize,
    size: usize,
    align: usize,
) -> usize
    ensures { IsPoolSizeForBudget 12 16 count bytes size align result }
{
    lengths::pool_size_for_budget::<u16, u16, 12, 16>(count, bytes, size, align)
}

/// As `rlsf_large_init`, for the small kind.
#[unsafe(no_mangle)]
pub unsafe extern "C" fn rlsf_small_init(
    heap: *mut u8,
    alloc: Global,
    block: *mut u8,
    start: usize,
    len: usize,
)
    requires* { sem 𝓛 (room_at small heap) ∗ ⌜ CanStart start len × IsInBlock block ⌝ }
    ensures* { sem 𝓛 (HoldsSome small heap (λ after. IsFreshHeap block start len after)) }
{
    let memory = OpenMemory::over_addresses(alloc, block, start, len);
    std::ptr::write(heap as *mut Small, calls::over(memory));
}

/// As `rlsf_large_end`, for the small kind.
#[unsafe(no_mangle)]
pub unsafe extern "C" fn rlsf_small_end(heap: *mut u8)
    ghost before: { HeapView }
    requires* { sem 𝓛 (HoldsValue small IsReady heap before) ∗ ⌜ (live_count before.state ≡ 0) × (before.identity.home.start % 8 ≡ 0) ⌝ }
    ensures* { sem 𝓛 (room_at small heap) ∗ sem 𝓛 (rest_of before.identity.home before.memory.out (OwnsLent before)) }
{
    let parts = calls::parts(std::ptr::read(heap as *const Small));
    let _ = parts.release_lent();
}

/// As `rlsf_large_add`, for the small kind.
#[unsafe(no_mangle)]
pub unsafe extern "C" fn rlsf_small_add(heap: *mut u8, start: usize, len: usize) -> usize
    ghost before: { HeapView × Piece }
    requires* { sem 𝓛 (HoldsValue small IsReady heap before.0) ∗ (sem 𝓛 (owns_loan before.1) ∗ ⌜ CanLend before.0 start len before.1 ⌝) }
    ensures* { sem 𝓛 (Returns small heap (λ after back. AddsLent 12 before.0 start len result back after)) }
{
    let loan = Loan::from_raw(start);
    let lending = calls::add(&mut *(heap as *mut Small), start, loan, len);
    lending.into_raw()
}

/// As `rlsf_large_append`, for the small kind.
#[unsafe(no_mangle)]
pub unsafe extern "C" fn rlsf_small_append(heap: *mut u8, start: usize, len: usize) -> usize
    ghost before: { HeapView × Piece }
    requires* { sem 𝓛 (HoldsValue small IsReady heap before.0) ∗ (sem 𝓛 (owns_loan before.1) ∗ ⌜ CanAppend before.0 start len before.1 ⌝) }
    ensures* { sem 𝓛 (Returns small heap (λ after back. AppendsLent 12 before.0 start len result back after)) }
{
    let loan = Loan::from_raw(start);
    let lending = calls::append(&mut *(heap as *mut Small), start, loan, len);
    lending.into_raw()
}

/// As `rlsf_large_malloc`, for the small kind.
#[unsafe(no_mangle)]
pub unsafe extern "C" fn rlsf_small_malloc(heap: *mut u8, size: usize) -> usize
    ghost before: { HeapView }
    requires* { sem 𝓛 (HoldsValue small IsReady heap before) }
    ensures* { sem 𝓛 (Gives small heap (λ after payload. (payload.start ≡ result) × AllocatesPayload 16 before size 16 payload after)) }
{
    let payload = calls::malloc(&mut *(heap as *mut Small), size);
    payload.into_raw()
}

/// As `rlsf_large_allocate`, for the small kind.
#[unsafe(no_mangle)]
pub unsafe extern "C" fn rlsf_small_allocate(heap: *mut u8, size: usize, align: usize) -> usize
    ghost before: { HeapView }
    requires* { sem 𝓛 (HoldsValue small IsReady heap before) }
    ensures* { sem 𝓛 (Gives small heap (λ after payload. (payload.start ≡ result) × AllocatesPayload 16 before size (aligned_for align) payload after)) }
{
    let payload = calls::allocate(&mut *(heap as *mut Small), size, align);
    payload.into_raw()
}

/// As `rlsf_large_allocate_zeroed`, for the small kind.
#[unsafe(no_mangle)]
pub unsafe extern "C" fn rlsf_small_allocate_zeroed(
    heap: *mut u8,
    count: usize,
    size: usize,
) -> usize
    ghost before: { HeapView }
    requires* { sem 𝓛 (HoldsValue small IsReady heap before) }
    ensures* { sem 𝓛 (Gives small heap (λ after payload. (payload.start ≡ result) × AllocatesZeroed 16 before count size payload after)) }
{
    let payload = calls::allocate_zeroed(&mut *(heap as *mut Small), count, size);
    payload.into_raw()
}

/// As `rlsf_large_free`, for the small kind.
#[unsafe(no_mangle)]
pub unsafe extern "C" fn rlsf_small_free(heap: *mut u8, addr: usize)
    ghost before: { HeapView × PayloadView }
    requires* { sem 𝓛 (HoldsValue small IsReady heap before.0) ∗ (sem 𝓛 (owns_reply before.1) ∗ ⌜ IsPayloadAt before.0 addr before.1 ⌝) }
    ensures* { sem 𝓛 (HoldsSome small heap (λ after. Frees before.0 addr before.1 after)) }
{
    let payload = ThinPayload::from_raw(addr);
    calls::free(&mut *(heap as *mut Small), addr, payload);
}

/// As `rlsf_large_reallocate`, for the small kind.
#[unsafe(no_mangle)]
pub unsafe extern "C" fn rlsf_small_reallocate(heap: *mut u8, addr: usize, size: usize) -> usize
    ghost before: { HeapView × PayloadView }
    requires* { sem 𝓛 (HoldsValue small IsReady heap before.0) ∗ (sem 𝓛 (owns_reply before.1) ∗ ⌜ IsPayloadAt before.0 addr before.1 × (addr ≢ 0 → 16 ≤ before.1.align) ⌝) }
    ensures* { sem 𝓛 (Gives small heap (λ after payload. ResizesAny 16 before.0 addr before.1 size result payload after)) }
{
    let payload = ThinPayload::from_raw(addr);
    let resized = resizing::resize_any(&mut *(heap as *mut Small), addr, payload, size);
    resized.into_raw()
}

/// As `rlsf_large_reallocate_aligned`, for the small kind.
#[unsafe(no_mangle)]
pub unsafe extern "C" fn rlsf_small_reallocate_aligned(
    heap: *mut u8,
    addr: usize,
    size: usize,
    align: usize,
) -> usize
    ghost before: { HeapView × PayloadView }
    requires* { sem 𝓛 (HoldsValue small IsReady heap before.0) ∗ (sem 𝓛 (owns_reply before.1) ∗ ⌜ IsPayloadAt before.0 addr before.1 × (addr ≢ 0 → before.1.align ≡ aligned_for align) ⌝) }
    ensures* { sem 𝓛 (Gives small heap (λ after payload. ResizesAligned 16 before.0 addr before.1 size align result payload after)) }
{
    let payload = ThinPayload::from_raw(addr);
    let resized = resizing::resize_aligned(&mut *(heap as *mut Small), addr, payload, size, align);
    resized.into_raw()
}

/// As `rlsf_large_reallocate_in_place`, for the small kind.
#[unsafe(no_mangle)]
pub unsafe extern "C" fn rlsf_small_reallocate_in_place(
    heap: *mut u8,
    addr: usize,
    size: usize,
) -> usize
    ghost before: { HeapView × PayloadView }
    requires* { sem 𝓛 (HoldsValue small IsReady heap before.0) ∗ (sem 𝓛 (owns_reply before.1) ∗ ⌜ IsPayloadAt before.0 addr before.1 × (addr ≢ 0 → 16 ≤ before.1.align) ⌝) }
    ensures* { sem 𝓛 (Gives small heap (λ after payload. ResizesInPlace before.0 addr before.1 size result payload after)) }
{
    let payload = ThinPayload::from_raw(addr);
    let resized = resizing::resize_in_place(&mut *(heap as *mut Small), addr, payload, size);
    resized.into_raw()
}

/// As `rlsf_large_usable`, for the small kind.
#[unsafe(no_mangle)]
pub unsafe extern "C" fn rlsf_small_usable(heap: *mut u8, addr: usize) -> usize
    ghost before: { HeapView × PayloadView }
    requires* { sem 𝓛 (HoldsValue small IsReady heap before.0) ∗ (sem 𝓛 (owns_reply before.1) ∗ ⌜ IsPayloadAt before.0 addr before.1 ⌝) }
    ensures* { sem 𝓛 (Gives small heap (λ after payload. IsUsableSize before.0 addr before.1 result payload after)) }
{
    let payload = ThinPayload::from_raw(addr);
    let measured = calls::usable(&mut *(heap as *mut Small), addr, payload);
    measured.into_raw()
}

/// As `rlsf_large_stats`, for the small kind.
#[unsafe(no_mangle)]
pub unsafe extern "C" fn rlsf_small_stats(heap: *mut u8, start: usize, len: usize) -> Totals
    ghost before: { HeapView }
    requires* { sem 𝓛 (HoldsValue small IsReady heap before) ∗ ⌜ IsRow before.state (walked (range_at start len)) ⌝ }
    ensures* { sem 𝓛 (HoldsSome small heap (λ after. AreTotals before (range_at start len) result × (after ≡ before))) }
{
    pools::totals_in(&mut *(heap as *mut Small), start, len)
}

/// As `rlsf_large_list`, for the small kind.
#[unsafe(no_mangle)]
pub unsafe extern "C" fn rlsf_small_list(
    heap: *mut u8,
    start: usize,
    len: usize,
    from: usize,
    into: &mut [usize],
) -> usize
    ghost before: { HeapView }
    requires* { sem 𝓛 (HoldsValue small IsReady heap before) ∗ ⌜ IsRow before.state (walked (range_at start len)) ⌝ }
    ensures* { sem 𝓛 (HoldsSome small heap (λ after. IsListing before (range_at start len) from into.old result into.new × (after ≡ before))) }
{
    pools::list_in(&mut *(heap as *mut Small), start, len, from, into)
}

/// As `rlsf_large_check`, for the small kind.
#[unsafe(no_mangle)]
pub unsafe extern "C" fn rlsf_small_check(heap: *mut u8, pools: &[usize]) -> usize
    ghost before: { WordsView }
    requires* { sem 𝓛 (HoldsValue small_words IsAny heap before) ∗ ⌜ ArePoolsLegible 12 16 pools.now before.memory before.table ⌝ }
    ensures* { sem 𝓛 (HoldsSome small_words heap (λ after. IsCheckOf 12 16 before pools.now result × (after ≡ before))) }
{
    pools::check_in(&mut *(heap as *mut SmallWords), pools)
}

/// As `rlsf_large_remove`, for the small kind.
#[unsafe(no_mangle)]
pub unsafe extern "C" fn rlsf_small_remove(heap: *mut u8, start: usize, len: usize) -> usize
    ghost before: { HeapView × Piece }
    requires* { sem 𝓛 (HoldsValue small IsReady heap before.0) ∗ (sem 𝓛 (owns_loan before.1) ∗ ⌜ CanRemove before.0 start len before.1 ⌝) }
    ensures* { sem 𝓛 (Returns small heap (λ after back. RemovesLent before.0 start len result back after)) }
{
    let none = Loan::from_raw(start);
    let lending = pools::remove_in(&mut *(heap as *mut Small), start, none, len);
    lending.into_raw()
}
