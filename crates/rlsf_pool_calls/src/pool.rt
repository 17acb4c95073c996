//! A pool of one of two kinds.

ghost use Rattle.std.specs.Prelude.{◌≡◌};
ghost use Rattle.rlsf_base.specs.Range.{range_at};
ghost use Rattle.rlsf_pool_calls.specs.Calls.{PoolAllocates, PoolAllocatesZeroed, PoolAppends, PoolCopies, PoolFrees, PoolInserts, Reads, RemovesLast, RemovesRange, PoolResizes, PoolResizesThere, Tells, PoolWrites};
ghost use Rattle.rlsf_pool_calls.specs.Seen.{IsMade, IsReset, append_result, ended, init_refusal, insert_result, seen, status_of};
ghost use Rattle.rlsf_pool_calls.specs.Walks.{IsPoolListing, IsNextBlock, IsSummary};

use crate::answers::{Answer, BlockAnswer, NO_KIND, OK, TOO_LONG, ZERO_START, number, refused};
use crate::{calls, walks};
use rlsf_base::memory::{Memory, Range};
use rlsf_blocks::{NO_TOTALS, Totals};
use rlsf_checked::{CheckedError, CheckedTlsf};
use std::alloc::Global;

/// A checked allocator of one of two kinds, or the number of the error because of which there is none.
#[derive(Drop)]
pub enum Pool {
    /// No allocator. All calls find a memory without an address.
    Refused(usize),
    /// 12 first-level rows of 16 size classes.
    Small(CheckedTlsf<u16, u16, 12, 16>),
    /// 64 first-level rows of 64 size classes.
    Large(CheckedTlsf<u64, u64, 64, 64>),
}

/// Returns the number of the error because of which no pool can be made, if there is one.
fn refusal(kind: usize, start: usize, len: usize) -> Option<usize>
    ensures { result ≡ init_refusal kind start len }
{
    if kind != 1 && kind != 2 {
        return Some(NO_KIND);
    }
    if start == 0 {
        return Some(ZERO_START);
    }
    if len > usize::MAX - start {
        return Some(TOO_LONG);
    }
    None
}

impl Pool {
    /// Returns a pool of a kind over a memory with these addresses. No range of it is inserted yet.
    pub fn new(alloc: Global, kind: usize, start: usize, len: usize) -> Pool
        ensures { IsMade kind start len result }
    {
        if let Some(error) = refusal(kind, start, len) {
            return Pool::Refused(error);
        }
        let Ok(memory) = Memory::new(alloc, start, len) else {
            return Pool::Refused(number(CheckedError::OutOfMemory));
        };
        if kind == 1 {
            match CheckedTlsf::new(alloc, memory) {
                Ok(heap) => Pool::Small(heap),
                Err(_) => Pool::Refused(number(CheckedError::OutOfMemory)),
            }
        } else {
            match CheckedTlsf::new(alloc, memory) {
                Ok(heap) => Pool::Large(heap),
                Err(_) => Pool::Refused(number(CheckedError::OutOfMemory)),
            }
        }
    }

    /// Returns 0, or the error because of which there is no allocator.
    pub fn status(&mut self) -> usize
        ensures { (result ≡ status_of self.old) × (self.new ≡ self.old) }
    {
        match self {
            Pool::Refused(error) => *error,
            Pool::Small(_) | Pool::Large(_) => OK,
        }
    }

    /// Returns the number of addresses of the memory.
    pub fn len(&mut self) -> usize
        ensures { (result ≡ (seen self.old).memory.len) × (self.new ≡ self.old) }
    {
        match self {
            Pool::Refused(_) => 0,
            Pool::Small(heap) => heap.memory_ref().len(),
            Pool::Large(heap) => heap.memory_ref().len(),
        }
    }

    /// Inserts a range of the memory.
    pub fn insert(&mut self, start: usize, len: usize) -> Answer
        ensures { PoolInserts (insert_result self.old (range_at start len)) (seen self.old) (range_at start len) result (seen self.new) }
    {
        match self {
            Pool::Refused(_) => refused(CheckedError::OutsideMemory),
            Pool::Small(heap) => calls::insert(heap, Range { start, len }),
            Pool::Large(heap) => calls::insert(heap, Range { start, len }),
        }
    }

    /// Appends a range to the last pool.
    pub fn append(&mut self, start: usize, len: usize) -> Answer
        ensures { PoolAppends (append_result self.old (range_at start len)) (seen self.old) result (seen self.new) }
    {
        match self {
            Pool::Refused(_) => refused(CheckedError::OutsideMemory),
            Pool::Small(heap) => calls::append(heap, Range { start, len }),
            Pool::Large(heap) => calls::append(heap, Range { start, len }),
        }
    }

    /// Allocates a payload.
    pub fn allocate(&mut self, size: usize, align: usize) -> Answer
        ensures { PoolAllocates (seen self.old) size align result (seen self.new) }
    {
        match self {
            Pool::Refused(_) => calls::allocate_nothing(size, align),
            Pool::Small(heap) => calls::allocate(heap, size, align),
            Pool::Large(heap) => calls::allocate(heap, size, align),
        }
    }

    /// Deallocates a payload.
    pub fn free(&mut self, addr: usize) -> usize
        ensures { PoolFrees (seen self.old) addr result (seen self.new) }
    {
        match self {
            Pool::Refused(_) => number(CheckedError::UnknownAddress),
            Pool::Small(heap) => calls::free(heap, addr),
            Pool::Large(heap) => calls::free(heap, addr),
        }
    }

    /// Changes the size of a payload.
    pub fn realloc(&mut self, addr: usize, size: usize) -> Answer
        ensures { PoolResizes (seen self.old) addr size result (seen self.new) }
    {
        match self {
            Pool::Refused(_) => refused(CheckedError::UnknownAddress),
            Pool::Small(heap) => calls::realloc(heap, addr, size),
            Pool::Large(heap) => calls::realloc(heap, addr, size),
        }
    }

    /// Changes the size of a payload without moving it.
    pub fn realloc_no_move(&mut self, addr: usize, size: usize) -> Answer
        ensures { PoolResizesThere (seen self.old) addr size result (seen self.new) }
    {
        match self {
            Pool::Refused(_) => refused(CheckedError::UnknownAddress),
            Pool::Small(heap) => calls::realloc_no_move(heap, addr, size),
            Pool::Large(heap) => calls::realloc_no_move(heap, addr, size),
        }
    }

    /// Returns the number of usable bytes of a payload.
    pub fn usable(&mut self, addr: usize) -> Answer
        ensures { Tells (seen self.old) addr result × (self.new ≡ self.old) }
    {
        match self {
            Pool::Refused(_) => refused(CheckedError::UnknownAddress),
            Pool::Small(heap) => calls::usable(heap, addr),
            Pool::Large(heap) => calls::usable(heap, addr),
        }
    }

    /// Reads bytes of a payload.
    pub fn read(&mut self, addr: usize, offset: usize, into: &mut [u8]) -> usize
        ensures { Reads (seen self.old) addr offset into.old result into.new × (self.new ≡ self.old) }
    {
        match self {
            Pool::Refused(_) => number(CheckedError::UnknownAddress),
            Pool::Small(heap) => calls::read(heap, addr, offset, into),
            Pool::Large(heap) => calls::read(heap, addr, offset, into),
        }
    }

    /// Writes bytes of a payload.
    pub fn write(&mut self, addr: usize, offset: usize, bytes: &[u8]) -> usize
        ensures { PoolWrites (seen self.old) addr offset bytes.now result (seen self.new) }
    {
        match self {
            Pool::Refused(_) => number(CheckedError::UnknownAddress),
            Pool::Small(heap) => calls::write(heap, addr, offset, bytes),
            Pool::Large(heap) => calls::write(heap, addr, offset, bytes),
        }
    }

    /// Copies the first bytes of a payload over those of another.
    pub fn copy(&mut self, from: usize, to: usize, len: usize) -> usize
        ensures { PoolCopies (seen self.old) from to len result (seen self.new) }
    {
        match self {
            Pool::Refused(_) => number(CheckedError::UnknownAddress),
            Pool::Small(heap) => calls::copy(heap, from, to, len),
            Pool::Large(heap) => calls::copy(heap, from, to, len),
        }
    }

    /// Allocates a payload of zeros.
    pub fn allocate_zeroed(&mut self, size: usize, align: usize) -> Answer
        ensures { PoolAllocatesZeroed (seen self.old) size align result (seen self.new) }
    {
        match self {
            Pool::Refused(_) => calls::allocate_nothing(size, align),
            Pool::Small(heap) => calls::allocate_zeroed(heap, size, align),
            Pool::Large(heap) => calls::allocate_zeroed(heap, size, align),
        }
    }

    /// Removes a range if no payload lives in it.
    pub fn remove(&mut self, start: usize, len: usize) -> usize
        ensures { RemovesRange (seen self.old) (range_at start len) result (seen self.new) }
    {
        match self {
            Pool::Refused(_) => number(CheckedError::NotChunks),
            Pool::Small(heap) => calls::remove(heap, Range { start, len }),
            Pool::Large(heap) => calls::remove(heap, Range { start, len }),
        }
    }

    /// Removes the last range if no payload lives in it.
    pub fn remove_last(&mut self) -> usize
        ensures { RemovesLast (seen self.old) result (seen self.new) }
    {
        match self {
            Pool::Refused(_) => OK,
            Pool::Small(heap) => calls::remove_last(heap),
            Pool::Large(heap) => calls::remove_last(heap),
        }
    }

    /// Returns the totals of the blocks of all pools.
    pub fn stats(&mut self) -> Totals
        ensures { IsSummary (seen self.old) result × (self.new ≡ self.old) }
    {
        match self {
            Pool::Refused(_) => NO_TOTALS,
            Pool::Small(heap) => heap.totals(),
            Pool::Large(heap) => heap.totals(),
        }
    }

    /// Returns the first block that begins at an address or behind it.
    pub fn walk(&mut self, from: usize) -> BlockAnswer
        ensures { IsNextBlock (seen self.old) from result × (self.new ≡ self.old) }
    {
        match self {
            Pool::Refused(_) => walks::NO_BLOCK,
            Pool::Small(heap) => walks::to_block(heap.next_block(from)),
            Pool::Large(heap) => walks::to_block(heap.next_block(from)),
        }
    }

    /// Lists the blocks of all pools that begin at an address or behind it. Returns how many are listed.
    pub fn list(&mut self, from: usize, into: &mut [usize]) -> usize
        ensures { IsPoolListing (seen self.old) from into.old result into.new × (self.new ≡ self.old) }
    {
        match self {
            Pool::Refused(_) => 0,
            Pool::Small(heap) => heap.list(from, into),
            Pool::Large(heap) => heap.list(from, into),
        }
    }
}

/// Returns the pool without payloads and without a range.
pub fn reset(pool: Pool) -> Pool
    ensures { IsReset pool result }
{
    match pool {
        Pool::Refused(error) => Pool::Refused(error),
        Pool::Small(heap) => Pool::Small(heap.reset()),
        Pool::Large(heap) => Pool::Large(heap.reset()),
    }
}

/// Returns the pool unchanged. Its bound shows that everything a pool owns may move to another thread between two calls.
pub fn handed_over(pool: Pool) -> Pool
    ensures { result ≡ pool }
{
    crosses(pool)
}

/// Returns a value unchanged, of a type that may move to another thread.
pub(crate) fn crosses<T: Send>(value: T) -> T
    ensures { result ≡ value }
{
    value
}

/// Drops a pool. Returns what is left of it, where all calls find a memory without an address.
pub fn finish(pool: Pool) -> Pool
    ensures { result ≡ ended }
{
    let _ = pool;
    Pool::Refused(OK)
}

/// Drops a pool.
pub fn discard(pool: Pool) {
    let _ = pool;
}
