//! What becomes of the memory of a heap, and of an allocator of collections, when it is dropped.
use rlsf_base::memory::{MemoryError, OpenMemory, Range};
use rlsf_heap::Heap;
use rlsf_local_heap::LocalHeap;
use std::alloc::Global;
use std::fs;
use std::process::Abort;
use std::rt::Files;

type Large = Heap<u64, u64, 59, 8>;

/// The addresses of a pool of 32 MiB.
const POOL: Range = Range {
    start: 4096,
    len: 1 << 25,
};

/// What is made and dropped.
#[derive(Clone, Copy)]
enum Kind {
    Plain,
    Local,
}

/// Makes a heap, and drops it with no payload. Returns an error if the system has no memory.
fn drop_plain(alloc: Global) -> Result<(), MemoryError> {
    let memory = OpenMemory::reserve(alloc, POOL.start, POOL.len)?;
    let mut heap = Large::new(memory);
    heap.insert_free_block_ptr(POOL);
    Ok(())
}

/// Makes an allocator of collections, and drops it.
fn drop_local(alloc: Global) -> Result<(), MemoryError> {
    let _local = LocalHeap::<Box<Large>>::new(alloc, POOL.len)?;
    Ok(())
}

/// The number in front of the first space.
fn first_number(text: &str) -> Option<usize> {
    let (word, _) = text.split_once(' ')?;
    word.parse().ok()
}

/// How many bytes of addresses the process has, by the pages that the system reports.
fn mapped(rt: &(impl Files + AllocGlobal)) -> Option<usize> {
    let sizes = fs::read_to_string(rt, "/proc/self/statm").ok()?;
    let pages = first_number(&sizes)?;
    Some(pages.saturating_mul(4096))
}

/// Passes if the process has less than 2 GiB more than before, whenever one of 200 heaps is dropped. They are 6400 MiB together.
fn stays_small(rt: &(impl Files + AllocGlobal + Abort), kind: Kind) {
    let before = mapped(rt).expect(rt, "a number");
    for _ in 0..200 {
        let made = match kind {
            Kind::Plain => drop_plain(rt.alloc()),
            Kind::Local => drop_local(rt.alloc()),
        };
        made.expect(rt, "memory");
        let then = mapped(rt).expect(rt, "a number");
        assert!(rt; then.saturating_sub(before) < 1 << 31);
    }
}

#[test]
fn dropped_heaps_deallocate_their_memory(rt: HostRuntime) {
    stays_small(&rt, Kind::Plain);
}

#[test]
fn dropped_allocators_of_collections_deallocate_their_memory(rt: HostRuntime) {
    stays_small(&rt, Kind::Local);
}
