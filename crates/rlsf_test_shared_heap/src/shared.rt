//! Threads over one shared heap.
ghost use Rattle.std.specs.Prelude.{◌≡◌, IfSome};
ghost use Rattle.rlsf_heap.specs.Heap.{IsWritten};

use crate::answers::all;
use rlsf_base::memory::{Layout, OpenMemory, Range};
use rlsf_heap::{Heap, Payload};
use rlsf_shared_heap::SharedHeap;
use std::alloc::{AllocError, Global};
use std::sync::Wait;
use std::test::Fail;
use std::thread;
use std::thread::Threads;

type Plain = Heap<u16, u16, 12, 16>;

pub(crate) type Shared = SharedHeap<u16, u16, 12, 16>;

/// How many pairs of payloads each thread fills, reads back and deallocates.
const ROUNDS: usize = 2000;

/// How many threads there are.
const THREADS: usize = 8;

/// The addresses of the pool.
const POOL: Range = Range {
    start: 65536,
    len: 65536,
};

/// A shared heap of one pool.
pub(crate) fn shared_heap(alloc: Global) -> Result<Shared, Fail> {
    let memory = OpenMemory::reserve(alloc, POOL.start, POOL.len)?;
    let mut heap = Plain::new(memory);
    heap.insert_free_block_ptr(POOL);
    Ok(Shared::new(heap))
}

/// A payload that is filled with a byte. It is raw before if that is even.
fn filled<R: Wait>(rt: &R, shared: &Shared, size: usize, mark: u8) -> Option<Payload>
    ensures identity { IfSome result (λ p. p.identity ≡ shared.now.identity) }
    ensures written { IfSome result (λ p. IsWritten p) }
{
    let layout = Layout::from_size_align(size, 16).ok()?;
    let payload = if mark % 2 == 0 {
        shared.allocate(rt, layout)
    } else {
        shared.allocate_zeroed(rt, layout)
    };
    let mut payload = payload?;
    payload.fill(mark);
    Some(payload)
}

/// Deallocates a payload. Returns whether each of its bytes is the one that it was filled with.
fn emptied<R: Wait>(rt: &R, shared: &Shared, payload: Payload, mark: u8) -> bool
    requires identity { payload.identity ≡ shared.now.identity }
    requires written { IsWritten payload }
{
    let same = payload.as_slice().iter().all(|byte| *byte == mark);
    shared.deallocate(rt, payload);
    same
}

/// Fills two payloads at once, reads both back, and deallocates both. Returns whether all goes as it should.
fn round<R: Wait>(rt: &R, shared: &Shared, number: usize, mark: u8) -> bool {
    let Some(first) = filled(rt, shared, 1 + number % 100, mark) else {
        return false;
    };
    let Some(second) = filled(rt, shared, 1 + number % 37, !mark) else {
        return false;
    };
    emptied(rt, shared, first, mark) && emptied(rt, shared, second, !mark)
}

/// How many rounds of a thread go as they should, one after another.
fn rounds<R: Wait>(rt: &R, shared: &Shared, mark: u8) -> usize {
    for number in 0..ROUNDS {
        if !round(rt, shared, number, mark) {
            return number;
        }
    }
    ROUNDS
}

/// How many rounds of each of eight threads go as they should.
fn of_eight<R: Threads + Wait + Sync>(
    rt: &R,
    alloc: Global,
    shared: &Shared,
) -> Result<Vec<usize>, AllocError> {
    thread::map_indices(rt, alloc, THREADS, &|index| rounds(rt, shared, index as u8))
}

/// Whether each of two threads reads what the other wrote, in a payload that the other allocated.
fn is_exchanged<R: Threads + Wait + Sync>(rt: &R, shared: &Shared) -> bool {
    let (first, second) = thread::join(
        rt,
        || filled(rt, shared, 1000, 3),
        || filled(rt, shared, 500, 5),
    );
    let (Some(first), Some(second)) = (first, second) else {
        return false;
    };
    let (one, other) = thread::join(
        rt,
        || emptied(rt, shared, second, 5),
        || emptied(rt, shared, first, 3),
    );
    one && other
}

#[test]
fn eight_threads_fill_and_read_without_the_lock(rt: HostRuntime) -> Result<(), Fail> {
    let shared = shared_heap(rt.alloc())?;
    let done = of_eight(&rt, rt.alloc(), &shared)?;
    // Nothing is live behind them, so one free block has nearly the whole pool.
    let whole = shared.allocate(&rt, Layout::from_size_align_unchecked(63000, 16));
    let answers = [
        whole.is_some_and(|payload| payload.addr() == 65552),
        done.iter().all(|rounds| *rounds == ROUNDS),
    ];
    all(&rt, &answers);
    Ok(())
}

#[test]
fn payloads_move_between_threads(rt: HostRuntime) -> Result<(), Fail> {
    let shared = shared_heap(rt.alloc())?;
    all(&rt, &[is_exchanged(&rt, &shared)]);
    Ok(())
}

/// Makes a payload longer, and returns whether it is as long as its block lets it be. Of 1000 bytes, with 16 more, it takes one of 1024.
fn grown<R: Wait>(rt: &R, shared: &Shared) -> bool {
    let Some(payload) = filled(rt, shared, 10, 7) else {
        return false;
    };
    match shared.reallocate(rt, payload, 1000) {
        Ok(longer) => {
            let long = longer.len() == 1008;
            shared.deallocate(rt, longer);
            long
        }
        Err(same) => {
            shared.deallocate(rt, same);
            false
        }
    }
}

/// Makes a payload shorter, and returns whether its first bytes stay. Of 10 bytes, with 16 more, it takes a block of 32.
fn shrunk<R: Wait>(rt: &R, shared: &Shared) -> bool {
    let Some(payload) = filled(rt, shared, 1000, 7) else {
        return false;
    };
    let before = payload.len();
    match shared.reallocate(rt, payload, 10) {
        Ok(shorter) => {
            let len = shorter.len();
            if len > before {
                return false;
            }
            emptied(rt, shared, shorter, 7) && len == 16
        }
        Err(same) => {
            shared.deallocate(rt, same);
            false
        }
    }
}

/// Asks for more bytes than the pool has, and returns whether the payload comes back with its bytes.
fn refused<R: Wait>(rt: &R, shared: &Shared) -> bool {
    let Some(payload) = filled(rt, shared, 1000, 7) else {
        return false;
    };
    match shared.reallocate(rt, payload, 65536) {
        Ok(longer) => {
            shared.deallocate(rt, longer);
            false
        }
        Err(same) => emptied(rt, shared, same, 7),
    }
}

#[test]
fn payloads_get_another_size(rt: HostRuntime) -> Result<(), Fail> {
    let shared = shared_heap(rt.alloc())?;
    let answers = [
        grown(&rt, &shared),
        shrunk(&rt, &shared),
        refused(&rt, &shared),
    ];
    all(&rt, &answers);
    Ok(())
}
