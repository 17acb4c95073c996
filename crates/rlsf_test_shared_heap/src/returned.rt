//! A shared heap in one thread: when it refuses, and the heap that it returns.
use crate::answers::{all, are};
use rlsf_base::memory::{Layout, OpenMemory, Range};
use rlsf_heap::Heap;
use rlsf_shared_heap::SharedHeap;
use std::alloc::Global;
use std::process::Abort;
use std::sync::Wait;
use std::test::Fail;

type Plain = Heap<u16, u16, 12, 16>;

type Shared = SharedHeap<u16, u16, 12, 16>;

/// The addresses of the pool: one free block of 4064 bytes, and a sentinel.
const POOL: Range = Range {
    start: 65536,
    len: 4096,
};

/// A shared heap of one pool.
fn shared_heap(alloc: Global) -> Result<Shared, Fail> {
    let memory = OpenMemory::reserve(alloc, POOL.start, POOL.len)?;
    let mut heap = Plain::new(memory);
    heap.insert_free_block_ptr(POOL);
    Ok(Shared::new(heap))
}

/// Allocates a payload, of zeros or not. Returns its address, or 0, and deallocates it.
fn address<R: Wait>(rt: &R, shared: &Shared, size: usize, zeroed: bool) -> usize {
    let Ok(layout) = Layout::from_size_align(size, 16) else {
        return 0;
    };
    let payload = if zeroed {
        shared.allocate_zeroed(rt, layout)
    } else {
        shared.allocate(rt, layout)
    };
    match payload {
        Some(payload) => {
            let addr = payload.addr();
            shared.deallocate(rt, payload);
            addr
        }
        None => 0,
    }
}

/// Allocates a payload of `size` bytes, and others of 2000 bytes while it is live and when it is not. Returns their addresses, or 0.
fn addresses<R: Wait>(rt: &R, shared: &Shared, size: usize) -> Option<[usize; 4]> {
    let layout = Layout::from_size_align(size, 16).ok()?;
    let payload = shared.allocate(rt, layout)?;
    let live = [
        address(rt, shared, 2000, false),
        address(rt, shared, 2000, true),
    ];
    shared.deallocate(rt, payload);
    let idle = [
        address(rt, shared, 2000, false),
        address(rt, shared, 2000, true),
    ];
    Some([live[0], live[1], idle[0], idle[1]])
}

#[test]
fn a_shared_heap_refuses_only_without_room(rt: HostRuntime) -> Result<(), Fail> {
    let shared = shared_heap(rt.alloc())?;
    let answers = [
        addresses(&rt, &shared, 100) == Some([65680, 65680, 65552, 65552]),
        addresses(&rt, &shared, 3000) == Some([0, 0, 65552, 65552]),
        addresses(&rt, &shared, 4096) == None,
    ];
    all(&rt, &answers);
    Ok(())
}

/// Returns the number of live payloads of a heap, and the newest free block of the class of 4064 bytes, or 0. It is the last class
/// of its row: that of 3968 bytes or more.
fn seen(heap: &Plain) -> [usize; 2] {
    let first = heap.first_free(6, 15);
    [heap.live(), first.map_or(0, |addr| addr.get())]
}

/// Allocates a payload, takes the shared heap apart, and deallocates the payload by its heap. Returns what is seen of the heap
/// before that and afterwards.
fn taken_apart<R: Wait>(rt: &R, shared: Shared, layout: Layout) -> Option<[[usize; 2]; 2]> {
    let payload = shared.allocate(rt, layout)?;
    let mut heap = shared.into_inner();
    let live = seen(&heap);
    heap.deallocate(payload);
    let idle = seen(&heap);
    match heap.try_into_memory() {
        Ok(memory) => {
            memory.free();
            Some([live, idle])
        }
        Err(_) => None,
    }
}

#[test]
fn a_returned_heap_has_what_the_shared_heap_had(rt: HostRuntime) -> Result<(), Fail> {
    let heap = shared_heap(rt.alloc())?.into_inner();
    are(&rt, &seen(&heap), &[0, 65536]);
    let layout = Layout::from_size_align_unchecked(100, 16);
    let both = taken_apart(&rt, Shared::new(heap), layout);
    // A block of 128 bytes is cut from the front, so the rest is in the class before.
    all(&rt, &[both == Some([[1, 0], [0, 65536]])]);
    Ok(())
}
