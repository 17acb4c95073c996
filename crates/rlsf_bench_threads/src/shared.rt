//! Threads over a `SharedHeap`.

use crate::load::Load;
use crate::shared_steps::run;
use rlsf_base::memory::{OpenMemory, Range};
use rlsf_bench_common::BenchError;
use rlsf_heap::Heap;
use rlsf_shared_heap::SharedHeap;
use std::alloc::{AllocError, Global};
use std::sync::Wait;
use std::thread;
use std::thread::Threads;

/// A shared heap of 64 first-level rows of 64 classes, as `GlobalTlsf` has.
pub(crate) type Shared = SharedHeap<usize, usize, 64, 64>;

/// The first address of the pool, as of the memory of the `GlobalTlsf`.
const START: usize = 65536;

/// Does the steps that are asked for, and prints how many allocations were refused.
pub(crate) fn time<R: Print + AllocGlobal + Threads + Wait + Sync>(
    rt: &R,
    load: Load,
) -> Result<(), BenchError> {
    let shared = new_shared(rt.alloc(), load.len)?;
    let refused = refused_of(rt, rt.alloc(), &shared, load)?;
    println!(rt; "SharedHeap: {refused} refused")?;
    Ok(())
}

/// Creates a heap of one pool, which has so many bytes.
pub(crate) fn new_heap(
    alloc: Global,
    len: usize,
) -> Result<Heap<usize, usize, 64, 64>, BenchError> {
    let memory = OpenMemory::reserve(alloc, START, len)?;
    let mut heap = Heap::<usize, usize, 64, 64>::new(memory);
    let _ = heap.insert_free_block_ptr(Range { start: START, len });
    Ok(heap)
}

/// Creates a shared heap of one pool, which has so many bytes.
pub(crate) fn new_shared(alloc: Global, len: usize) -> Result<Shared, BenchError> {
    Ok(Shared::new(new_heap(alloc, len)?))
}

/// Lets the threads make their steps. Returns how many allocations were refused.
fn refused_of<R: Threads + Wait + Sync>(
    rt: &R,
    alloc: Global,
    shared: &Shared,
    load: Load,
) -> Result<u64, AllocError> {
    let slots = load.slots.get() / load.threads.get();
    let refused = thread::map_indices(
        rt,
        alloc,
        load.threads.get(),
        &|_| { run(rt, alloc, shared, slots, load.steps) },
    )?;
    let mut sum: u64 = 0;
    for thread in &refused {
        sum = sum.wrapping_add(thread.ok_or(AllocError)?);
    }
    Ok(sum)
}
