//! What becomes of the memory of a shared heap when it is dropped, and of the bytes of a raw payload.
ghost use Rattle.std.specs.Prelude.{◌≡◌, IfSome};

use crate::answers::all;
use rlsf_base::memory::{Layout, MemoryError, OpenMemory, Range};
use rlsf_heap::{Heap, Payload};
use rlsf_shared_heap::SharedHeap;
use std::alloc::Global;
use std::fs;
use std::rt::Files;
use std::sync::Wait;
use std::test::Fail;

type Large = Heap<u64, u64, 59, 8>;

type Shared = SharedHeap<u64, u64, 59, 8>;

/// The addresses of a pool of 32 MiB.
const POOL: Range = Range {
    start: 4096,
    len: 1 << 25,
};

/// Makes a shared heap. Returns an error if the system has no memory.
fn shared_heap(alloc: Global) -> Result<Shared, MemoryError> {
    let memory = OpenMemory::reserve(alloc, POOL.start, POOL.len)?;
    let mut heap = Large::new(memory);
    heap.insert_free_block_ptr(POOL);
    Ok(Shared::new(heap))
}

/// Makes a shared heap, and drops it.
fn made_and_dropped(alloc: Global) -> Result<(), MemoryError> {
    let _shared = shared_heap(alloc)?;
    Ok(())
}

/// The number in front of the first space.
fn first_number(text: &str) -> Option<usize> {
    let (word, _) = text.split_once(' ')?;
    word.parse().ok()
}

/// How many bytes of addresses the process has, by the pages that the system reports.
fn mapped(rt: &(impl Files + AllocGlobal)) -> Option<usize> {
    let sizes = fs::read_to_string(rt, "/proc/self/statm").ok()?;
    let pages = first_number(&sizes)?;
    Some(pages.saturating_mul(4096))
}

/// How many bytes of memory the process has, by the pages that the system reports. A page that was never written isn't one.
fn resident(rt: &(impl Files + AllocGlobal)) -> Option<usize> {
    let sizes = fs::read_to_string(rt, "/proc/self/statm").ok()?;
    let (_, sizes) = sizes.split_once(' ')?;
    let pages = first_number(sizes)?;
    Some(pages.saturating_mul(4096))
}

// They are 6400 MiB together, so a process that stays below 2 GiB more than before has deallocated them.
#[test]
fn dropped_shared_heaps_deallocate_their_memory(rt: HostRuntime) {
    let before = mapped(&rt).expect(&rt, "a number");
    for _ in 0..200 {
        made_and_dropped(rt.alloc()).expect(&rt, "memory");
        let then = mapped(&rt).expect(&rt, "a number");
        assert!(rt; then.saturating_sub(before) < 1 << 31);
    }
}

/// The size of a long payload: 24 MiB.
const LONG: usize = 24 << 20;

/// Allocates a long payload, or makes a short one as long.
fn long_payload<R: Wait>(rt: &R, shared: &Shared, size: usize) -> Option<Payload>
    ensures { IfSome result (λ p. p.identity ≡ shared.now.identity) }
{
    let layout = Layout::from_size_align(size, 64).ok()?;
    let mut payload = shared.allocate(rt, layout)?;
    if size >= LONG {
        return Some(payload);
    }
    payload.fill(7);
    match shared.reallocate(rt, payload, LONG) {
        Ok(payload) => Some(payload),
        Err(_) => None,
    }
}

/// Makes such a payload, and deallocates it. Returns how many bytes of memory the process has more then.
fn written<R: Files + AllocGlobal + Wait>(rt: &R, shared: &Shared, size: usize) -> Option<usize> {
    let before = resident(rt)?;
    let payload = long_payload(rt, shared, size)?;
    let after = resident(rt);
    shared.deallocate(rt, payload);
    Some(after?.saturating_sub(before))
}

// A call that wrote zeros would write them under the lock.
#[test]
fn no_call_writes_a_raw_payload(rt: HostRuntime) -> Result<(), Fail> {
    let shared = shared_heap(rt.alloc())?;
    let resized = written(&rt, &shared, 100);
    let allocated = written(&rt, &shared, LONG);
    let answers = [
        resized.is_some_and(|bytes| bytes < LONG / 2),
        allocated.is_some_and(|bytes| bytes < LONG / 2),
    ];
    all(&rt, &answers);
    Ok(())
}
