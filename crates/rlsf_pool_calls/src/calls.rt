//! The calls of a checked allocator, over numbers.

ghost use Rattle.std.specs.Prelude.{IsSome};
ghost use Rattle.rlsf_model.specs.Callers.{align_at};
ghost use Rattle.rlsf_checked.specs.Answers.{append_answer, insert_answer};
ghost use Rattle.rlsf_pool_calls.specs.Calls.{PoolAllocates, PoolAllocatesZeroed, PoolAppends, PoolCopies, PoolFrees, PoolInserts, Reads, RemovesLast, RemovesRange, PoolResizes, PoolResizesThere, Tells, PoolWrites, Zeroes};
ghost use Rattle.rlsf_pool_calls.specs.Seen.{nothing, seen_in};

use crate::answers::{Answer, IN_USE, OK, number, refused, to_answer, to_code, to_place};
use rlsf_base::memory::{Addr, Layout, Range};
use rlsf_checked::{CheckedError, CheckedTlsf};
use rlsf_int::BitPattern;

/// Inserts a range of the memory.
pub(crate) fn insert<F: BitPattern, S: BitPattern, const FLLEN: usize, const SLLEN: usize>(
    heap: &mut CheckedTlsf<F, S, FLLEN, SLLEN>,
    range: Range,
) -> Answer
    ensures { PoolInserts (insert_answer FLLEN heap.old range) (seen_in SLLEN heap.old) range result (seen_in SLLEN heap.new) }
{
    to_answer(heap.insert(range))
}

/// Appends a range to the last pool.
pub(crate) fn append<F: BitPattern, S: BitPattern, const FLLEN: usize, const SLLEN: usize>(
    heap: &mut CheckedTlsf<F, S, FLLEN, SLLEN>,
    range: Range,
) -> Answer
    ensures { PoolAppends (append_answer FLLEN heap.old range) (seen_in SLLEN heap.old) result (seen_in SLLEN heap.new) }
{
    to_answer(heap.append(range))
}

/// Allocates a payload.
pub(crate) fn allocate<F: BitPattern, S: BitPattern, const FLLEN: usize, const SLLEN: usize>(
    heap: &mut CheckedTlsf<F, S, FLLEN, SLLEN>,
    size: usize,
    align: usize,
) -> Answer
    ensures { PoolAllocates (seen_in SLLEN heap.old) size align result (seen_in SLLEN heap.new) }
{
    match Layout::from_size_align(size, align) {
        Ok(layout) => to_place(heap.allocate(layout)),
        Err(_) => refused(CheckedError::NoLayout),
    }
}

/// Returns the error of an allocation if there is no allocator: `NoLayout` if no layout has the size and alignment, else `NoRoom`.
pub(crate) fn allocate_nothing(size: usize, align: usize) -> Answer
    ensures { PoolAllocates nothing size align result nothing }
{
    match Layout::from_size_align(size, align) {
        Ok(_) => refused(CheckedError::NoRoom),
        Err(_) => refused(CheckedError::NoLayout),
    }
}

/// Deallocates a payload.
pub(crate) fn free<F: BitPattern, S: BitPattern, const FLLEN: usize, const SLLEN: usize>(
    heap: &mut CheckedTlsf<F, S, FLLEN, SLLEN>,
    addr: usize,
) -> usize
    ensures { PoolFrees (seen_in SLLEN heap.old) addr result (seen_in SLLEN heap.new) }
{
    heap.memory_ref();
    match Addr::new(addr) {
        Some(addr) => to_code(heap.deallocate(addr)),
        None => number(CheckedError::UnknownAddress),
    }
}

/// Changes the size of a payload.
pub(crate) fn realloc<F: BitPattern, S: BitPattern, const FLLEN: usize, const SLLEN: usize>(
    heap: &mut CheckedTlsf<F, S, FLLEN, SLLEN>,
    addr: usize,
    size: usize,
) -> Answer
    ensures { PoolResizes (seen_in SLLEN heap.old) addr size result (seen_in SLLEN heap.new) }
{
    heap.memory_ref();
    match Addr::new(addr) {
        Some(addr) => to_place(heap.reallocate(addr, size)),
        None => refused(CheckedError::UnknownAddress),
    }
}

/// Changes the size of a payload without moving it.
pub(crate) fn realloc_no_move<F: BitPattern, S: BitPattern, const FLLEN: usize, const SLLEN: usize>(
    heap: &mut CheckedTlsf<F, S, FLLEN, SLLEN>,
    addr: usize,
    size: usize,
) -> Answer
    ensures { PoolResizesThere (seen_in SLLEN heap.old) addr size result (seen_in SLLEN heap.new) }
{
    heap.memory_ref();
    match Addr::new(addr) {
        Some(addr) => to_place(heap.reallocate_no_move(addr, size)),
        None => refused(CheckedError::UnknownAddress),
    }
}

/// Returns the number of usable bytes of a payload.
pub(crate) fn usable<F: BitPattern, S: BitPattern, const FLLEN: usize, const SLLEN: usize>(
    heap: &CheckedTlsf<F, S, FLLEN, SLLEN>,
    addr: usize,
) -> Answer
    ensures { Tells (seen_in SLLEN heap.now) addr result }
{
    heap.memory_ref();
    match Addr::new(addr) {
        Some(addr) => to_answer(heap.usable_size(addr)),
        None => refused(CheckedError::UnknownAddress),
    }
}

/// Reads bytes of a payload.
pub(crate) fn read<F: BitPattern, S: BitPattern, const FLLEN: usize, const SLLEN: usize>(
    heap: &CheckedTlsf<F, S, FLLEN, SLLEN>,
    addr: usize,
    offset: usize,
    into: &mut [u8],
) -> usize
    ensures { Reads (seen_in SLLEN heap.now) addr offset into.old result into.new }
{
    heap.memory_ref();
    match Addr::new(addr) {
        Some(addr) => to_code(heap.read(addr, offset, into)),
        None => number(CheckedError::UnknownAddress),
    }
}

/// Writes bytes of a payload.
pub(crate) fn write<F: BitPattern, S: BitPattern, const FLLEN: usize, const SLLEN: usize>(
    heap: &mut CheckedTlsf<F, S, FLLEN, SLLEN>,
    addr: usize,
    offset: usize,
    bytes: &[u8],
) -> usize
    ensures { PoolWrites (seen_in SLLEN heap.old) addr offset bytes.now result (seen_in SLLEN heap.new) }
{
    heap.memory_ref();
    match Addr::new(addr) {
        Some(addr) => to_code(heap.write(addr, offset, bytes)),
        None => number(CheckedError::UnknownAddress),
    }
}

/// Copies the first bytes of a payload over those of another.
pub(crate) fn copy<F: BitPattern, S: BitPattern, const FLLEN: usize, const SLLEN: usize>(
    heap: &mut CheckedTlsf<F, S, FLLEN, SLLEN>,
    from: usize,
    to: usize,
    len: usize,
) -> usize
    ensures { PoolCopies (seen_in SLLEN heap.old) from to len result (seen_in SLLEN heap.new) }
{
    heap.memory_ref();
    let Some(source) = Addr::new(from) else {
        return number(CheckedError::UnknownAddress);
    };
    let Some(target) = Addr::new(to) else {
        return number(CheckedError::UnknownAddress);
    };
    to_code(heap.copy(source, target, len))
}

/// Overwrites all bytes of a payload with zeros.
fn zero<F: BitPattern, S: BitPattern, const FLLEN: usize, const SLLEN: usize>(
    heap: &mut CheckedTlsf<F, S, FLLEN, SLLEN>,
    addr: usize,
)
    requires { IsSome (align_at heap.old.heap.state addr) }
    ensures { Zeroes (seen_in SLLEN heap.old) addr (seen_in SLLEN heap.new) }
{
    heap.memory_ref();
    if let Some(addr) = Addr::new(addr) {
        let _ = heap.fill(addr, 0);
    }
}

/// Allocates a payload of zeros.
pub(crate) fn allocate_zeroed<F: BitPattern, S: BitPattern, const FLLEN: usize, const SLLEN: usize>(
    heap: &mut CheckedTlsf<F, S, FLLEN, SLLEN>,
    size: usize,
    align: usize,
) -> Answer
    ensures { PoolAllocatesZeroed (seen_in SLLEN heap.old) size align result (seen_in SLLEN heap.new) }
{
    let answer = allocate(heap, size, align);
    if answer.error == OK {
        zero(heap, answer.value);
    }
    answer
}

/// Removes a range if no payload lives in it.
pub(crate) fn remove<F: BitPattern, S: BitPattern, const FLLEN: usize, const SLLEN: usize>(
    heap: &mut CheckedTlsf<F, S, FLLEN, SLLEN>,
    range: Range,
) -> usize
    ensures { RemovesRange (seen_in SLLEN heap.old) range result (seen_in SLLEN heap.new) }
{
    to_code(heap.remove_pool(range))
}

/// Removes the last range if no payload lives in it.
pub(crate) fn remove_last<F: BitPattern, S: BitPattern, const FLLEN: usize, const SLLEN: usize>(
    heap: &mut CheckedTlsf<F, S, FLLEN, SLLEN>,
) -> usize
    ensures { RemovesLast (seen_in SLLEN heap.old) result (seen_in SLLEN heap.new) }
{
    if heap.remove_last() { OK } else { IN_USE }
}
