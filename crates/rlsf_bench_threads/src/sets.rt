//! Threads over a `SharedHeaps`.

use crate::load::Load;
use crate::shared::{Shared, new_shared};
use crate::shared_steps::layout_of;
use rlsf_bench_common::{BenchError, Xorshift};
use rlsf_shared_heap::{SharedHeaps, SharedPayload};
use std::alloc::{AllocError, Global};
use std::num::NonZeroUsize;
use std::sync::Wait;
use std::thread;
use std::thread::Threads;

/// Heaps as the `SharedHeap` of this benchmark is one.
type Heaps = SharedHeaps<usize, usize, 64, 64>;

/// A slot, with or without a payload.
type Slot<'h> = Option<SharedPayload<'h, Shared>>;

/// Does the steps that are asked for, and prints how many allocations were refused.
pub(crate) fn time<R: Print + AllocGlobal + Threads + Wait + Sync>(
    rt: &R,
    load: Load,
    count: NonZeroUsize,
) -> Result<(), BenchError> {
    let heaps = new_heaps(rt.alloc(), load.len / count.get(), count.get())?;
    let refused = refused_of(rt, rt.alloc(), &heaps, load)?;
    println!(rt; "SharedHeaps of {count}: {refused} refused")?;
    Ok(())
}

/// Creates so many heaps of one pool, each of which has so many bytes.
fn new_heaps(alloc: Global, len: usize, count: usize) -> Result<Heaps, BenchError> {
    let mut heaps = Vec::with_capacity(alloc, count)?;
    for _ in 0..count {
        if heaps.push(new_shared(alloc, len)?).is_err() {
            return Err(BenchError::OutOfMemory);
        }
    }
    Ok(SharedHeaps::new(heaps))
}

/// Lets the threads make their steps. Returns how many allocations were refused.
fn refused_of<R: Threads + Wait + Sync>(
    rt: &R,
    alloc: Global,
    heaps: &Heaps,
    load: Load,
) -> Result<u64, AllocError> {
    let slots = load.slots.get() / load.threads.get();
    let refused = thread::map_indices(
        rt,
        alloc,
        load.threads.get(),
        &|thread| { run(rt, alloc, heaps, thread, slots, load.steps) },
    )?;
    let mut sum: u64 = 0;
    for thread in &refused {
        sum = sum.wrapping_add(thread.ok_or(AllocError)?);
    }
    Ok(sum)
}

/// Frees the payload of the slot that a drawn number names. If it has none, allocates one for a thread. Returns whether an allocation was
/// refused.
fn advance<'h, R: Wait>(
    rt: &R,
    heaps: &'h Heaps,
    thread: usize,
    slots: &mut [Slot<'h>],
    draw: u64,
) -> bool {
    if slots.is_empty() {
        return false;
    }
    let slot = (draw >> 32) as usize % slots.len();
    if let Some(payload) = slots[slot].take() {
        payload.free(rt);
        return false;
    }
    let payload = heaps.allocate_shared(rt, thread, layout_of(draw));
    let refused = payload.is_none();
    slots[slot] = payload;
    refused
}

/// Makes so many steps of a thread on so many slots. Returns how many allocations were refused, or `None` if the system is out of memory.
fn run<R: Wait>(
    rt: &R,
    alloc: Global,
    heaps: &Heaps,
    thread: usize,
    slots: usize,
    steps: u64,
) -> Option<u64> {
    let mut live = Vec::with_capacity(alloc, slots).ok()?;
    for _ in 0..slots {
        live.push(None).ok()?;
    }
    let mut draws = Xorshift::new();
    let mut refused: u64 = 0;
    for _ in 0..steps {
        if advance(rt, heaps, thread, &mut live, draws.next()) {
            refused = refused.wrapping_add(1);
        }
    }
    Some(refused)
}
