//! Payloads that one thread allocates and others free: of an `OwnerHeap`, of a `SharedHeap`, and of the system's allocator.

use crate::load::Load;
use crate::pairs::{Owner, Plain};
use crate::sent::{Queue, Read, are_all_once, end_all, receive_all, write_ends};
use crate::shared::{Shared, new_heap};
use rlsf_base::memory::Layout;
use rlsf_bench_common::BenchError;
use rlsf_example_libraries::MessageQueue;
use rlsf_shared_heap::{OwnerHeap, Returns, SharedPayload};
use std::alloc::{AllocError, Global};
use std::sync::Wait;
use std::thread;
use std::thread::Threads;

/// The layout of a payload: 16 to 115 bytes.
fn layout_of(number: u64) -> Layout {
    Layout::from_size_align_unchecked(16 + (number % 100) as usize, 16)
}

/// Allocates a payload of an owner and lends it.
#[inline(never)]
fn allocate_lent<'r>(owner: &mut Owner<'r>, layout: Layout) -> Option<SharedPayload<'r, Returns>> {
    owner.allocate_lent(layout)
}

/// Allocates a payload of a shared heap.
#[inline(never)]
fn allocate_shared<'h, R: Wait>(
    rt: &R,
    shared: &'h Shared,
    layout: Layout,
) -> Option<SharedPayload<'h, Shared>> {
    shared.allocate_shared(rt, layout)
}

/// Allocates zeros of the system's allocator.
#[inline(never)]
fn allocate_zeros(alloc: Global, layout: Layout) -> Result<Vec<u8>, AllocError> {
    vec![in alloc; 0; layout.size()]
}

/// Lends a payload, once there is room.
fn lend<'r, R: Wait>(rt: &R, owner: &mut Owner<'r>, layout: Layout) -> SharedPayload<'r, Returns> {
    for _ in rt.forever() {
        if let Some(payload) = allocate_lent(owner, layout) {
            return payload;
        }
        thread::yield_now();
    }
    unreachable!()
}

/// Lends the payloads that are asked for, and sends them.
fn send_lent<'r, R: Wait>(
    rt: &R,
    owner: &mut Owner<'r>,
    queue: &Queue<SharedPayload<'r, Returns>>,
    load: Load,
) {
    for number in 0..load.steps {
        let mut payload = lend(rt, owner, layout_of(number));
        write_ends(payload.as_mut_slice(), number);
        queue.wait_and_send(rt, Some(payload));
    }
    end_all(rt, queue, load.threads.get());
}

/// Allocates the payloads that are asked for of a shared heap, and sends them. Leaves out those that are refused.
fn send_shared<'h, R: Wait>(
    rt: &R,
    shared: &'h Shared,
    queue: &Queue<SharedPayload<'h, Shared>>,
    load: Load,
) {
    for number in 0..load.steps {
        if let Some(mut payload) = allocate_shared(rt, shared, layout_of(number)) {
            write_ends(payload.as_mut_slice(), number);
            queue.wait_and_send(rt, Some(payload));
        }
    }
    end_all(rt, queue, load.threads.get());
}

/// Allocates the payloads that are asked for of the system's allocator, and sends them. Leaves out those that are refused.
fn send_zeros<R: Wait>(rt: &R, alloc: Global, queue: &Queue<Vec<u8>>, load: Load) {
    for number in 0..load.steps {
        if let Ok(mut payload) = allocate_zeros(alloc, layout_of(number)) {
            write_ends(&mut payload, number);
            queue.wait_and_send(rt, Some(payload));
        }
    }
    end_all(rt, queue, load.threads.get());
}

/// Lends all payloads of an owner to the threads. Returns what these read.
fn read_lent<'r, R: Threads + Wait + Sync>(
    rt: &R,
    alloc: Global,
    owner: &mut Owner<'r>,
    load: Load,
) -> Result<Read, AllocError> {
    let queue = MessageQueue::new(alloc, load.slots.get())?;
    let (_, read) = thread::join(
        rt,
        || send_lent(rt, owner, &queue, load),
        || receive_all(rt, alloc, &queue, load.threads.get()),
    );
    read
}

/// Sends all payloads of a shared heap to the threads. Returns what these read.
fn read_shared<R: Threads + Wait + Sync>(
    rt: &R,
    alloc: Global,
    shared: &Shared,
    load: Load,
) -> Result<Read, AllocError> {
    let queue = MessageQueue::new(alloc, load.slots.get())?;
    let (_, read) = thread::join(
        rt,
        || send_shared(rt, shared, &queue, load),
        || receive_all(rt, alloc, &queue, load.threads.get()),
    );
    read
}

/// Sends all payloads of the system's allocator to the threads. Returns what these read.
fn read_zeros<R: Threads + Wait + Sync>(
    rt: &R,
    alloc: Global,
    load: Load,
) -> Result<Read, AllocError> {
    let queue = MessageQueue::new(alloc, load.slots.get())?;
    let (_, read) = thread::join(
        rt,
        || send_zeros(rt, alloc, &queue, load),
        || receive_all(rt, alloc, &queue, load.threads.get()),
    );
    read
}

/// Returns whether no payload of the heap is live.
fn is_empty(heap: Plain) -> bool {
    match heap.try_into_memory() {
        Ok(memory) => {
            memory.free();
            true
        }
        Err(_) => false,
    }
}

/// Lends payloads of an owner, and prints whether all came back.
pub(crate) fn time<R: Print + AllocGlobal + Threads + Wait + Sync>(
    rt: &R,
    load: Load,
) -> Result<(), BenchError> {
    let heap = new_heap(rt.alloc(), load.len)?;
    let mut returns = Returns::new(rt.alloc(), &heap, load.slots.get())?;
    let mut owner = OwnerHeap::new(heap, &mut returns);
    let read = read_lent(rt, rt.alloc(), &mut owner, load)?;
    let once = are_all_once(rt.alloc(), &read, load.steps as usize)?;
    let collected = owner.collect(load.slots.get());
    let all = collected <= load.slots.get() && owner.lent() == 0;
    let empty = match owner.try_into_heap() {
        Ok(heap) => is_empty(heap),
        Err(_) => false,
    };
    println!(rt;
        "OwnerHeap: each was read once {once}, all came back {all}, none is live {empty}"
    )?;
    Ok(())
}

/// Sends payloads of a shared heap, and prints whether none is left.
pub(crate) fn time_shared<R: Print + AllocGlobal + Threads + Wait + Sync>(
    rt: &R,
    load: Load,
) -> Result<(), BenchError> {
    let shared = Shared::new(new_heap(rt.alloc(), load.len)?);
    let read = read_shared(rt, rt.alloc(), &shared, load)?;
    let once = are_all_once(rt.alloc(), &read, load.steps as usize)?;
    let empty = is_empty(shared.into_inner());
    println!(rt; "SharedHeap: each was read once {once}, none is live {empty}")?;
    Ok(())
}

/// Sends payloads of the system's allocator.
pub(crate) fn time_malloc<R: Print + AllocGlobal + Threads + Wait + Sync>(
    rt: &R,
    load: Load,
) -> Result<(), BenchError> {
    let read = read_zeros(rt, rt.alloc(), load)?;
    let once = are_all_once(rt.alloc(), &read, load.steps as usize)?;
    println!(rt; "malloc: each was read once {once}")?;
    Ok(())
}
