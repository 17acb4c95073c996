//! The allocator for C and Rust programs: calls over a handle that holds a pool. `include/rlsf_pool.h` declares them.
//!
//! Every call accepts any numbers, and returns an error for wrong ones. Read `specs/Seen` (a pool as contracts see it) and `specs/Calls` of
//! `rlsf_pool_calls` first, which has the calls that the exports make. Then read `specs/Handle`, and this file, which has the exports.
//! `offsets.rt` has the exports of `include/rlsf_offsets.h`. `rlsf_c_lemmas` has the template of the exports' proofs.
#![tactic(auto)]

ghost use Rattle.std.specs.Borrow.{sem};
ghost use Rattle.std.specs.Prelude.{◌≡◌};
ghost use Rattle.rlsf_base.specs.Range.{range_at};
ghost use Rattle.rlsf_pool.specs.Handle.{HasRoomForPool, HoldsPool, HoldsSomePool, room_size};
ghost use Rattle.rlsf_pool_calls.specs.Calls.{PoolAllocates, PoolAllocatesZeroed, PoolAppends, PoolCopies, PoolFrees, PoolInserts, Reads, RemovesLast, RemovesRange, PoolResizes, PoolResizesThere, Tells, PoolWrites};
ghost use Rattle.rlsf_pool_calls.specs.Lengths.{IsLengthForAllocation, IsLengthForBudget, IsLengthForPayloads};
ghost use Rattle.rlsf_pool_calls.specs.Seen.{IsMade, IsReset, PoolValue, append_result, ended, insert_result, seen, status_of};
ghost use Rattle.rlsf_pool_calls.specs.Walks.{IsPoolListing, IsNextBlock, IsSummary};

mod offsets;

use rlsf_blocks::Totals;
use rlsf_pool_calls::answers::{Answer, BlockAnswer};
use rlsf_pool_calls::lengths;
use rlsf_pool_calls::pool::{Pool, discard, finish, reset};
use std::alloc::Global;
use std::mem::size_of;

/// Returns the size of a handle in bytes.
#[unsafe(no_mangle)]
pub extern "C" fn rlsf_pool_size() -> usize
    ensures { result ≡ room_size }
{
    size_of::<Pool>()
}

/// Returns the length in bytes of a range that refuses no payload of up to `size` bytes and an alignment of up to `align`. This holds while
/// at most `count` payloads are live, if the range starts at a multiple of 32.
///
/// Returns 0 if there is no such kind, no such layout or no such length.
#[unsafe(no_mangle)]
pub extern "C" fn rlsf_pool_length_for_payloads(
    kind: usize,
    count: usize,
    size: usize,
    align: usize,
) -> usize
    ensures { IsLengthForPayloads kind count size align result }
{
    lengths::for_payloads(kind, count, size, align)
}

/// Returns the length in bytes of a range that refuses no payload of up to `size` bytes and an alignment of up to `align`. This holds while
/// at most `count` payloads are live, whose blocks have at most `bytes` bytes together, if the range starts at a multiple of 32.
///
/// Returns 0 if there is no such kind, no such layout or no such length.
#[unsafe(no_mangle)]
pub extern "C" fn rlsf_pool_length_for_budget(
    kind: usize,
    count: usize,
    bytes: usize,
    size: usize,
    align: usize,
) -> usize
    ensures { IsLengthForBudget kind count bytes size align result }
{
    lengths::for_budget(kind, count, bytes, size, align)
}

/// Returns the least length in bytes of a range in which a payload of `size` bytes, aligned to `align`, can be allocated. This holds while
/// nothing is live there, if the range starts at a multiple of 32.
///
/// Returns 0 if there is no such kind, no such layout or no such length.
#[unsafe(no_mangle)]
pub extern "C" fn rlsf_pool_length_for_allocation(kind: usize, size: usize, align: usize) -> usize
    ensures { IsLengthForAllocation kind size align result }
{
    lengths::for_allocation(kind, size, align)
}

/// Makes a pool in memory that has room for one. Returns 0, or the error because of which there is no pool. After an error, all calls find
/// a pool whose memory has no address.
#[unsafe(no_mangle)]
pub unsafe extern "C" fn rlsf_pool_init(
    pool: *mut u8,
    alloc: Global,
    kind: usize,
    start: usize,
    len: usize,
) -> usize
    requires* { sem 𝓛 (HasRoomForPool pool) }
    ensures* { sem 𝓛 (HoldsSomePool pool (λ after. IsMade kind start len after × (result ≡ status_of after))) }
{
    std::ptr::write(pool as *mut Pool, Pool::new(alloc, kind, start, len));
    Pool::status(&mut *(pool as *mut Pool))
}

/// Ends a pool: drops it. Afterwards all calls find a pool whose memory has no address, and another `rlsf_pool_destroy` changes nothing.
#[unsafe(no_mangle)]
pub unsafe extern "C" fn rlsf_pool_destroy(pool: *mut u8)
    ghost before: { PoolValue }
    requires* { sem 𝓛 (HoldsPool pool before) }
    ensures* { sem 𝓛 (HoldsSomePool pool (λ after. after ≡ ended)) }
{
    std::ptr::write(
        pool as *mut Pool,
        finish(std::ptr::read(pool as *const Pool)),
    );
}

/// Does nothing. It is the law that the handle of an ended pool is room for another, which `rlsf_pool_init` requires.
#[unsafe(no_mangle)]
pub unsafe extern "C" fn rlsf_pool_room(pool: *mut u8)
    ghost before: { PoolValue }
    requires* { sem 𝓛 (HoldsPool pool before) ∗ ⌜ before ≡ ended ⌝ }
    ensures* { sem 𝓛 (HasRoomForPool pool) }
{
    discard(std::ptr::read(pool as *const Pool));
}

/// Frees all payloads and removes all ranges. The memory and its bytes stay.
#[unsafe(no_mangle)]
pub unsafe extern "C" fn rlsf_pool_reset(pool: *mut u8)
    ghost before: { PoolValue }
    requires* { sem 𝓛 (HoldsPool pool before) }
    ensures* { sem 𝓛 (HoldsSomePool pool (λ after. IsReset before after)) }
{
    std::ptr::write(
        pool as *mut Pool,
        reset(std::ptr::read(pool as *const Pool)),
    );
}

/// Returns the number of addresses of the memory. Nothing changes.
#[unsafe(no_mangle)]
pub unsafe extern "C" fn rlsf_pool_len(pool: *mut u8) -> usize
    ghost before: { PoolValue }
    requires* { sem 𝓛 (HoldsPool pool before) }
    ensures* { sem 𝓛 (HoldsSomePool pool (λ after. (result ≡ (seen before).memory.len) × (after ≡ before))) }
{
    Pool::len(&mut *(pool as *mut Pool))
}

/// Inserts a range of the memory. Returns the number of bytes from its start to the end of its last chunk.
#[unsafe(no_mangle)]
pub unsafe extern "C" fn rlsf_pool_insert(pool: *mut u8, start: usize, len: usize) -> Answer
    ghost before: { PoolValue }
    requires* { sem 𝓛 (HoldsPool pool before) }
    ensures* { sem 𝓛 (HoldsSomePool pool (λ after. PoolInserts (insert_result before (range_at start len)) (seen before) (range_at start len) result (seen after))) }
{
    Pool::insert(&mut *(pool as *mut Pool), start, len)
}

/// Appends a range to the last inserted one. Returns the number of bytes taken.
#[unsafe(no_mangle)]
pub unsafe extern "C" fn rlsf_pool_append(pool: *mut u8, start: usize, len: usize) -> Answer
    ghost before: { PoolValue }
    requires* { sem 𝓛 (HoldsPool pool before) }
    ensures* { sem 𝓛 (HoldsSomePool pool (λ after. PoolAppends (append_result before (range_at start len)) (seen before) result (seen after))) }
{
    Pool::append(&mut *(pool as *mut Pool), start, len)
}

/// Allocates a payload. Returns its address.
#[unsafe(no_mangle)]
pub unsafe extern "C" fn rlsf_pool_allocate(pool: *mut u8, size: usize, align: usize) -> Answer
    ghost before: { PoolValue }
    requires* { sem 𝓛 (HoldsPool pool before) }
    ensures* { sem 𝓛 (HoldsSomePool pool (λ after. PoolAllocates (seen before) size align result (seen after))) }
{
    Pool::allocate(&mut *(pool as *mut Pool), size, align)
}

/// Deallocates a payload.
#[unsafe(no_mangle)]
pub unsafe extern "C" fn rlsf_pool_free(pool: *mut u8, addr: usize) -> usize
    ghost before: { PoolValue }
    requires* { sem 𝓛 (HoldsPool pool before) }
    ensures* { sem 𝓛 (HoldsSomePool pool (λ after. PoolFrees (seen before) addr result (seen after))) }
{
    Pool::free(&mut *(pool as *mut Pool), addr)
}

/// Changes the size of a payload, and moves it if necessary. Returns its address.
#[unsafe(no_mangle)]
pub unsafe extern "C" fn rlsf_pool_realloc(pool: *mut u8, addr: usize, size: usize) -> Answer
    ghost before: { PoolValue }
    requires* { sem 𝓛 (HoldsPool pool before) }
    ensures* { sem 𝓛 (HoldsSomePool pool (λ after. PoolResizes (seen before) addr size result (seen after))) }
{
    Pool::realloc(&mut *(pool as *mut Pool), addr, size)
}

/// Changes the size of a payload without moving it. Returns its address.
#[unsafe(no_mangle)]
pub unsafe extern "C" fn rlsf_pool_realloc_no_move(
    pool: *mut u8,
    addr: usize,
    size: usize,
) -> Answer
    ghost before: { PoolValue }
    requires* { sem 𝓛 (HoldsPool pool before) }
    ensures* { sem 𝓛 (HoldsSomePool pool (λ after. PoolResizesThere (seen before) addr size result (seen after))) }
{
    Pool::realloc_no_move(&mut *(pool as *mut Pool), addr, size)
}

/// Returns the number of usable bytes of a payload. Nothing changes.
#[unsafe(no_mangle)]
pub unsafe extern "C" fn rlsf_pool_usable(pool: *mut u8, addr: usize) -> Answer
    ghost before: { PoolValue }
    requires* { sem 𝓛 (HoldsPool pool before) }
    ensures* { sem 𝓛 (HoldsSomePool pool (λ after. Tells (seen before) addr result × (after ≡ before))) }
{
    Pool::usable(&mut *(pool as *mut Pool), addr)
}

/// Reads bytes of a payload, from an offset on. The pool is unchanged.
#[unsafe(no_mangle)]
pub unsafe extern "C" fn rlsf_pool_read(
    pool: *mut u8,
    addr: usize,
    offset: usize,
    into: &mut [u8],
) -> usize
    ghost before: { PoolValue }
    requires* { sem 𝓛 (HoldsPool pool before) }
    ensures* { sem 𝓛 (HoldsSomePool pool (λ after. Reads (seen before) addr offset into.old result into.new × (after ≡ before))) }
{
    Pool::read(&mut *(pool as *mut Pool), addr, offset, into)
}

/// Overwrites bytes of a payload, from an offset on.
#[unsafe(no_mangle)]
pub unsafe extern "C" fn rlsf_pool_write(
    pool: *mut u8,
    addr: usize,
    offset: usize,
    bytes: &[u8],
) -> usize
    ghost before: { PoolValue }
    requires* { sem 𝓛 (HoldsPool pool before) }
    ensures* { sem 𝓛 (HoldsSomePool pool (λ after. PoolWrites (seen before) addr offset bytes.now result (seen after))) }
{
    Pool::write(&mut *(pool as *mut Pool), addr, offset, bytes)
}

/// Returns the totals of the used and free blocks of all ranges. Nothing changes.
#[unsafe(no_mangle)]
pub unsafe extern "C" fn rlsf_pool_stats(pool: *mut u8) -> Totals
    ghost before: { PoolValue }
    requires* { sem 𝓛 (HoldsPool pool before) }
    ensures* { sem 𝓛 (HoldsSomePool pool (λ after. IsSummary (seen before) result × (after ≡ before))) }
{
    Pool::stats(&mut *(pool as *mut Pool))
}

/// Returns the first block, of any range, that begins at an address or behind it. Nothing changes.
#[unsafe(no_mangle)]
pub unsafe extern "C" fn rlsf_pool_walk(pool: *mut u8, from: usize) -> BlockAnswer
    ghost before: { PoolValue }
    requires* { sem 𝓛 (HoldsPool pool before) }
    ensures* { sem 𝓛 (HoldsSomePool pool (λ after. IsNextBlock (seen before) from result × (after ≡ before))) }
{
    Pool::walk(&mut *(pool as *mut Pool), from)
}

/// Lists the blocks of all ranges that begin at an address or behind it, three numbers for each: where it begins, its length, and 1 if it
/// is used, else 0. Returns how many are listed: all, or as many as there is room for. Nothing else changes.
#[unsafe(no_mangle)]
pub unsafe extern "C" fn rlsf_pool_list(pool: *mut u8, from: usize, into: &mut [usize]) -> usize
    ghost before: { PoolValue }
    requires* { sem 𝓛 (HoldsPool pool before) }
    ensures* { sem 𝓛 (HoldsSomePool pool (λ after. IsPoolListing (seen before) from into.old result into.new × (after ≡ before))) }
{
    Pool::list(&mut *(pool as *mut Pool), from, into)
}

/// Copies the first `len` bytes of a payload over those of another.
#[unsafe(no_mangle)]
pub unsafe extern "C" fn rlsf_pool_copy(pool: *mut u8, from: usize, to: usize, len: usize) -> usize
    ghost before: { PoolValue }
    requires* { sem 𝓛 (HoldsPool pool before) }
    ensures* { sem 𝓛 (HoldsSomePool pool (λ after. PoolCopies (seen before) from to len result (seen after))) }
{
    Pool::copy(&mut *(pool as *mut Pool), from, to, len)
}

/// Allocates a payload whose bytes are zeros. Returns its address.
#[unsafe(no_mangle)]
pub unsafe extern "C" fn rlsf_pool_allocate_zeroed(
    pool: *mut u8,
    size: usize,
    align: usize,
) -> Answer
    ghost before: { PoolValue }
    requires* { sem 𝓛 (HoldsPool pool before) }
    ensures* { sem 𝓛 (HoldsSomePool pool (λ after. PoolAllocatesZeroed (seen before) size align result (seen after))) }
{
    Pool::allocate_zeroed(&mut *(pool as *mut Pool), size, align)
}

/// Removes a range if it was inserted and no payload lives in it. Returns 0, or the error.
#[unsafe(no_mangle)]
pub unsafe extern "C" fn rlsf_pool_remove(pool: *mut u8, start: usize, len: usize) -> usize
    ghost before: { PoolValue }
    requires* { sem 𝓛 (HoldsPool pool before) }
    ensures* { sem 𝓛 (HoldsSomePool pool (λ after. RemovesRange (seen before) (range_at start len) result (seen after))) }
{
    Pool::remove(&mut *(pool as *mut Pool), start, len)
}

/// Removes the last inserted range, with everything appended to it, if no payload lives in it. Returns 0, or the error.
#[unsafe(no_mangle)]
pub unsafe extern "C" fn rlsf_pool_remove_last(pool: *mut u8) -> usize
    ghost before: { PoolValue }
    requires* { sem 𝓛 (HoldsPool pool before) }
    ensures* { sem 𝓛 (HoldsSomePool pool (λ after. RemovesLast (seen before) result (seen after))) }
{
    Pool::remove_last(&mut *(pool as *mut Pool))
}
