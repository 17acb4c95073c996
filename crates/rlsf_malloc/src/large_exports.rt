//! The exports of the large kind of heaps: 64 first-level rows of 64 size classes.

ghost use Rattle.std.specs.Borrow.{sem};
ghost use Rattle.std.specs.Ptr.{room_at};
ghost use Rattle.std.specs.Prelude.{◌≡◌, ◌≢◌, ◌%◌, ◌≤◌, ℕ, List, length};
ghost use Rattle.rlsf_base.specs.Range.{range_at};
ghost use Rattle.rlsf_base.specs.RawParts.{CanStart};
ghost use Rattle.rlsf_base.specs.Piece.{Piece};
ghost use Rattle.rlsf_base.specs.Steps.Ownership.{IsInBlock};
ghost use Rattle.rlsf_heap.specs.Loans.{owns_loan};
ghost use Rattle.rlsf_blocks.specs.Blocks.{walked};
ghost use Rattle.rlsf_model.specs.ChunkRows.{IsRow};
ghost use Rattle.rlsf_model.specs.Sized.{live_count};
ghost use Rattle.rlsf_heap.specs.Heap.{HeapView, PayloadView};
ghost use Rattle.rlsf_heap.specs.Words.{WordsView};
ghost use Rattle.rlsf_blocks.specs.Consistency.Consistent.{ArePoolsLegible};
ghost use Rattle.rlsf_heap.specs.Thin.{owns_reply};
ghost use Rattle.rlsf_malloc_calls.specs.Blocks.{AreTotals, IsAny, IsCheckOf, IsListing};
ghost use Rattle.rlsf_malloc_calls.specs.Calls.{AddsLent, AllocatesPayload, AllocatesZeroed, AppendsLent, CanAppend, CanLend, CanRemove, Frees, IsPayloadAt, IsFreshHeap, IsReady, IsUsableSize, OwnsLent, RemovesLent, aligned_for};
ghost use Rattle.rlsf_malloc.specs.Handle.{Gives, HoldsValue, HoldsSome, Returns, handle_size, rest_of, large, large_words};
ghost use Rattle.rlsf_malloc_calls.specs.Lengths.{IsPoolSizeForBudget, IsPoolSizeOf};
ghost use Rattle.rlsf_malloc_calls.specs.Resizing.{ResizesAligned, ResizesAny, ResizesInPlace};

use rlsf_base::memory::OpenMemory;
use rlsf_blocks::Totals;
use rlsf_heap::{Heap, HeapWords, Loan, ThinPayload};
use rlsf_malloc_calls::{calls, lengths, pools, resizing};
use std::alloc::Global;
use std::mem::size_of;

/// A large heap.
pub type Large = Heap<u64, u64, 64, 64>;

/// Its words, whatever their values are.
pub type LargeWords = HeapWords<u64, u64, 64, 64>;

/// Returns the size of a handle of the large kind in bytes.
#[unsafe(no_mangle)]
pub extern "C" fn rlsf_large_size() -> usize
    ensures { result ≡ handle_size large }
{
    size_of::<Large>()
}

/// Returns the least length of a range, from a multiple of 32 on, in which a first payload of a size and an alignment is never refused. Returns 0
/// if no range has it, or if the alignment is no power of two.
#[unsafe(no_mangle)]
pub extern "C" fn rlsf_large_pool_size(size: usize, align: usize) -> usize
    ensures { IsPoolSizeOf 64 64 size align result }
{
    lengths::pool_size::<u64, u64, 64, 64>(size, align)
}

/// Returns the length of a range, from a multiple of 32 on, that refuses no payload of up to a size and an alignment. This holds while, before
/// each allocation and each reallocation, at most `count` payloads are live, and their blocks have at most `bytes` bytes together. Returns 0
/// if no range has this length, or if the alignment is no power of two.
#[unsafe(no_mangle)]
pub extern "C" fn rlsf_large_pool_size_for_budget(
    count: usize,
    bytes: usize,
    size: usize,
    align: usize,
) -> usize
    ensures { IsPoolSizeForBudget 64 64 count bytes size align result }
{
    lengths::pool_size_for_budget::<u64, u64, 64, 64>(count, bytes, size, align)
}

/// Creates a heap of the large kind at a handle, over the `len` addresses from `start` on, the first of which is that of `block`. The heap owns no byte
/// there until a range is added.
#[unsafe(no_mangle)]
pub unsafe extern "C" fn rlsf_large_init(
    heap: *mut u8,
    alloc: Global,
    block: *mut u8,
    start: usize,
    len: usize,
)
    requires* { sem 𝓛 (room_at large heap) ∗ ⌜ CanStart start len × IsInBlock block ⌝ }
    ensures* { sem 𝓛 (HoldsSome large heap (λ after. IsFreshHeap block start len after)) }
{
    let memory = OpenMemory::over_addresses(alloc, block, start, len);
    std::ptr::write(heap as *mut Large, calls::over(memory));
}

/// Ends a heap of which no payload is live. Its handle is room for one again, and the bytes that it has are the caller's.
#[unsafe(no_mangle)]
pub unsafe extern "C" fn rlsf_large_end(heap: *mut u8)
    ghost before: { HeapView }
    requires* { sem 𝓛 (HoldsValue large IsReady heap before) ∗ ⌜ (live_count before.state ≡ 0) × (before.identity.home.start % 8 ≡ 0) ⌝ }
    ensures* { sem 𝓛 (room_at large heap) ∗ sem 𝓛 (rest_of before.identity.home before.memory.out (OwnsLent before)) }
{
    let parts = calls::parts(std::ptr::read(heap as *const Large));
    let _ = parts.release_lent();
}

/// Adds a range of the caller's bytes. Returns the number of bytes from its start to the end of its last chunk, or 0 if it makes no chunk. These
/// bytes are lent to the heap from now on, and those behind them are the caller's.
#[unsafe(no_mangle)]
pub unsafe extern "C" fn rlsf_large_add(heap: *mut u8, start: usize, len: usize) -> usize
    ghost before: { HeapView × Piece }
    requires* { sem 𝓛 (HoldsValue large IsReady heap before.0) ∗ (sem 𝓛 (owns_loan before.1) ∗ ⌜ CanLend before.0 start len before.1 ⌝) }
    ensures* { sem 𝓛 (Returns large heap (λ after back. AddsLent 64 before.0 start len result back after)) }
{
    let loan = Loan::from_raw(start);
    let lending = calls::add(&mut *(heap as *mut Large), start, loan, len);
    lending.into_raw()
}

/// Appends a range of the caller's bytes, which begins where a pool ends. Returns the number of bytes by which the pool grows, or 0. These bytes are
/// lent to the heap from now on, and those behind them are the caller's.
#[unsafe(no_mangle)]
pub unsafe extern "C" fn rlsf_large_append(heap: *mut u8, start: usize, len: usize) -> usize
    ghost before: { HeapView × Piece }
    requires* { sem 𝓛 (HoldsValue large IsReady heap before.0) ∗ (sem 𝓛 (owns_loan before.1) ∗ ⌜ CanAppend before.0 start len before.1 ⌝) }
    ensures* { sem 𝓛 (Returns large heap (λ after back. AppendsLent 64 before.0 start len result back after)) }
{
    let loan = Loan::from_raw(start);
    let lending = calls::append(&mut *(heap as *mut Large), start, loan, len);
    lending.into_raw()
}

/// Allocates a payload of the alignment 16. Returns its address, or 0. The caller owns its bytes from now on, and the right to free
/// it.
#[unsafe(no_mangle)]
pub unsafe extern "C" fn rlsf_large_malloc(heap: *mut u8, size: usize) -> usize
    ghost before: { HeapView }
    requires* { sem 𝓛 (HoldsValue large IsReady heap before) }
    ensures* { sem 𝓛 (Gives large heap (λ after payload. (payload.start ≡ result) × AllocatesPayload 64 before size 16 payload after)) }
{
    let payload = calls::malloc(&mut *(heap as *mut Large), size);
    payload.into_raw()
}

/// Allocates a payload. Returns its address, or 0. The caller owns it from now on.
#[unsafe(no_mangle)]
pub unsafe extern "C" fn rlsf_large_allocate(heap: *mut u8, size: usize, align: usize) -> usize
    ghost before: { HeapView }
    requires* { sem 𝓛 (HoldsValue large IsReady heap before) }
    ensures* { sem 𝓛 (Gives large heap (λ after payload. (payload.start ≡ result) × AllocatesPayload 64 before size (aligned_for align) payload after)) }
{
    let payload = calls::allocate(&mut *(heap as *mut Large), size, align);
    payload.into_raw()
}

/// Allocates a payload of `count * size` zero bytes. Returns its address, or 0. The caller owns it from now on.
#[unsafe(no_mangle)]
pub unsafe extern "C" fn rlsf_large_allocate_zeroed(
    heap: *mut u8,
    count: usize,
    size: usize,
) -> usize
    ghost before: { HeapView }
    requires* { sem 𝓛 (HoldsValue large IsReady heap before) }
    ensures* { sem 𝓛 (Gives large heap (λ after payload. (payload.start ≡ result) × AllocatesZeroed 64 before count size payload after)) }
{
    let payload = calls::allocate_zeroed(&mut *(heap as *mut Large), count, size);
    payload.into_raw()
}

/// Frees a payload, which the caller owns and gives up. Does nothing if `addr` is 0.
#[unsafe(no_mangle)]
pub unsafe extern "C" fn rlsf_large_free(heap: *mut u8, addr: usize)
    ghost before: { HeapView × PayloadView }
    requires* { sem 𝓛 (HoldsValue large IsReady heap before.0) ∗ (sem 𝓛 (owns_reply before.1) ∗ ⌜ IsPayloadAt before.0 addr before.1 ⌝) }
    ensures* { sem 𝓛 (HoldsSome large heap (λ after. Frees before.0 addr before.1 after)) }
{
    let payload = ThinPayload::from_raw(addr);
    calls::free(&mut *(heap as *mut Large), addr, payload);
}

/// Changes the size of a payload, which the caller owns, and moves it if necessary; allocates one if `addr` is 0. Returns its address, or
/// 0. The caller owns it from now on; or the old one, if 0 is returned.
#[unsafe(no_mangle)]
pub unsafe extern "C" fn rlsf_large_reallocate(heap: *mut u8, addr: usize, size: usize) -> usize
    ghost before: { HeapView × PayloadView }
    requires* { sem 𝓛 (HoldsValue large IsReady heap before.0) ∗ (sem 𝓛 (owns_reply before.1) ∗ ⌜ IsPayloadAt before.0 addr before.1 × (addr ≢ 0 → 16 ≤ before.1.align) ⌝) }
    ensures* { sem 𝓛 (Gives large heap (λ after payload. ResizesAny 64 before.0 addr before.1 size result payload after)) }
{
    let payload = ThinPayload::from_raw(addr);
    let resized = resizing::resize_any(&mut *(heap as *mut Large), addr, payload, size);
    resized.into_raw()
}

/// Changes the size of a payload of a known alignment, which the caller owns, and moves it if necessary; allocates one if `addr` is 0.
/// Returns its address, or 0. The caller owns it from now on; or the old one, if 0 is returned.
#[unsafe(no_mangle)]
pub unsafe extern "C" fn rlsf_large_reallocate_aligned(
    heap: *mut u8,
    addr: usize,
    size: usize,
    align: usize,
) -> usize
    ghost before: { HeapView × PayloadView }
    requires* { sem 𝓛 (HoldsValue large IsReady heap before.0) ∗ (sem 𝓛 (owns_reply before.1) ∗ ⌜ IsPayloadAt before.0 addr before.1 × (addr ≢ 0 → before.1.align ≡ aligned_for align) ⌝) }
    ensures* { sem 𝓛 (Gives large heap (λ after payload. ResizesAligned 64 before.0 addr before.1 size align result payload after)) }
{
    let payload = ThinPayload::from_raw(addr);
    let resized = resizing::resize_aligned(&mut *(heap as *mut Large), addr, payload, size, align);
    resized.into_raw()
}

/// Changes the size of a payload, which the caller owns, without moving it. Returns its address, or 0. Does nothing if `addr` is 0. The
/// caller still owns it.
#[unsafe(no_mangle)]
pub unsafe extern "C" fn rlsf_large_reallocate_in_place(
    heap: *mut u8,
    addr: usize,
    size: usize,
) -> usize
    ghost before: { HeapView × PayloadView }
    requires* { sem 𝓛 (HoldsValue large IsReady heap before.0) ∗ (sem 𝓛 (owns_reply before.1) ∗ ⌜ IsPayloadAt before.0 addr before.1 × (addr ≢ 0 → 16 ≤ before.1.align) ⌝) }
    ensures* { sem 𝓛 (Gives large heap (λ after payload. ResizesInPlace before.0 addr before.1 size result payload after)) }
{
    let payload = ThinPayload::from_raw(addr);
    let resized = resizing::resize_in_place(&mut *(heap as *mut Large), addr, payload, size);
    resized.into_raw()
}

/// Returns the number of usable bytes of a payload, which the caller owns, or 0 if `addr` is 0. Nothing changes.
#[unsafe(no_mangle)]
pub unsafe extern "C" fn rlsf_large_usable(heap: *mut u8, addr: usize) -> usize
    ghost before: { HeapView × PayloadView }
    requires* { sem 𝓛 (HoldsValue large IsReady heap before.0) ∗ (sem 𝓛 (owns_reply before.1) ∗ ⌜ IsPayloadAt before.0 addr before.1 ⌝) }
    ensures* { sem 𝓛 (Gives large heap (λ after payload. IsUsableSize before.0 addr before.1 result payload after)) }
{
    let payload = ThinPayload::from_raw(addr);
    let measured = calls::usable(&mut *(heap as *mut Large), addr, payload);
    measured.into_raw()
}

/// Returns the totals of the blocks in a range, which is one added range or several that follow each other. Nothing changes.
#[unsafe(no_mangle)]
pub unsafe extern "C" fn rlsf_large_stats(heap: *mut u8, start: usize, len: usize) -> Totals
    ghost before: { HeapView }
    requires* { sem 𝓛 (HoldsValue large IsReady heap before) ∗ ⌜ IsRow before.state (walked (range_at start len)) ⌝ }
    ensures* { sem 𝓛 (HoldsSome large heap (λ after. AreTotals before (range_at start len) result × (after ≡ before))) }
{
    pools::totals_in(&mut *(heap as *mut Large), start, len)
}

/// Lists the blocks in a range that begin at an address or behind it, three numbers for each: where it begins, its length, and 1 if it is
/// used, else 0. The range is one added range or several that follow each other. Returns how many are listed: all, or as many as there is
/// room for. Nothing else changes.
#[unsafe(no_mangle)]
pub unsafe extern "C" fn rlsf_large_list(
    heap: *mut u8,
    start: usize,
    len: usize,
    from: usize,
    into: &mut [usize],
) -> usize
    ghost before: { HeapView }
    requires* { sem 𝓛 (HoldsValue large IsReady heap before) ∗ ⌜ IsRow before.state (walked (range_at start len)) ⌝ }
    ensures* { sem 𝓛 (HoldsSome large heap (λ after. IsListing before (range_at start len) from into.old result into.new × (after ≡ before))) }
{
    pools::list_in(&mut *(heap as *mut Large), start, len, from, into)
}

/// Returns 1 if the words of the handle and of some pools are those of a heap over these pools, else 0. The numbers are the start and the
/// length of each pool. The words may have any values: nothing outside of the handle and the pools is read. Nothing changes.
#[unsafe(no_mangle)]
pub unsafe extern "C" fn rlsf_large_check(heap: *mut u8, pools: &[usize]) -> usize
    ghost before: { WordsView }
    requires* { sem 𝓛 (HoldsValue large_words IsAny heap before) ∗ ⌜ ArePoolsLegible 64 64 pools.now before.memory before.table ⌝ }
    ensures* { sem 𝓛 (HoldsSome large_words heap (λ after. IsCheckOf 64 64 before pools.now result × (after ≡ before))) }
{
    pools::check_in(&mut *(heap as *mut LargeWords), pools)
}

/// Removes a range, which is one added range or several that follow each other, if no block in it is used. Returns 1 if it did: its bytes are
/// the caller's again. Else returns 0; then nothing changes.
#[unsafe(no_mangle)]
pub unsafe extern "C" fn rlsf_large_remove(heap: *mut u8, start: usize, len: usize) -> usize
    ghost before: { HeapView × Piece }
    requires* { sem 𝓛 (HoldsValue large IsReady heap before.0) ∗ (sem 𝓛 (owns_loan before.1) ∗ ⌜ CanRemove before.0 start len before.1 ⌝) }
    ensures* { sem 𝓛 (Returns large heap (λ after back. RemovesLent before.0 start len result back after)) }
{
    let none = Loan::from_raw(start);
    let lending = pools::remove_in(&mut *(heap as *mut Large), start, none, len);
    lending.into_raw()
}
