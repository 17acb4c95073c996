//! A set of shared heaps: which of them a thread's payload comes from, and that it goes back there.
use crate::answers::{are, none_is_wrong};
use crate::shared_rows::{Shared, shared_heap_at, whole_from};
use rlsf_base::memory::Layout;
use rlsf_shared_heap::{SharedHeaps, SharedPayload};
use std::alloc::{AllocError, Global};
use std::sync::Wait;
use std::test::Fail;

/// A set of heaps.
type Heaps = SharedHeaps<u16, u16, 12, 16>;

/// A set of three heaps of 131,072 bytes each.
fn three(alloc: Global) -> Result<Heaps, Fail> {
    let mut heaps = Vec::with_capacity(alloc, 3)?;
    heaps.push(shared_heap_at(alloc, 65536)?)?;
    heaps.push(shared_heap_at(alloc, 262144)?)?;
    heaps.push(shared_heap_at(alloc, 524288)?)?;
    Ok(SharedHeaps::new(heaps))
}

// The number of a thread, a size, and the address of its payload, or 0 if it is refused. Each stays live. One of 100 bytes has a block of
// 128, and one of 126,000 leaves no room for another one.
static CALLS: [(usize, usize, usize); 11] = [
    (0, 100, 65552),
    (1, 100, 262160),
    (2, 100, 524304),
    (4, 100, 262288),
    (usize::MAX, 100, 65680),
    (1, 126_000, 262416),
    (1, 126_000, 524432),
    (1, 126_000, 65808),
    (1, 126_000, 0),
    (0, 126_000, 0),
    (2, 1001, 650448),
];

/// Allocates a payload for a thread.
fn allocate<'h, R: Wait>(
    rt: &R,
    heaps: &'h Heaps,
    thread: usize,
    size: usize,
) -> Option<SharedPayload<'h, Shared>> {
    let layout = Layout::from_size_align(size, 16).ok()?;
    heaps.allocate_shared(rt, thread, layout)
}

/// Makes the calls, and frees all payloads. Returns the index of the first one with another address.
fn first_wrong<R: Wait>(rt: &R, alloc: Global, heaps: &Heaps) -> Result<Option<usize>, AllocError> {
    let mut payloads = Vec::with_capacity(alloc, 11)?;
    let mut wrong = None;
    for (index, (thread, size, addr)) in CALLS.iter().enumerate() {
        let payload = allocate(rt, heaps, *thread, *size);
        let found = match &payload {
            Some(payload) => payload.addr(),
            None => 0,
        };
        if found != *addr && wrong.is_none() {
            wrong = Some(index);
        }
        payloads.push(payload)?;
    }
    for payload in payloads.into_iter().flatten() {
        payload.free(rt);
    }
    Ok(wrong)
}

/// Where each heap begins, if it has its one free block.
fn starts_of(heaps: Heaps) -> [usize; 4] {
    let mut heaps = heaps.into_inner();
    let last = heaps.pop().map_or(0, |heap| whole_from(heap));
    let second = heaps.pop().map_or(0, |heap| whole_from(heap));
    let first = heaps.pop().map_or(0, |heap| whole_from(heap));
    [first, second, last, heaps.len()]
}

#[test]
fn a_payload_is_of_the_next_heap_with_room(rt: HostRuntime) -> Result<(), Fail> {
    let heaps = three(rt.alloc())?;
    none_is_wrong(&rt, first_wrong(&rt, rt.alloc(), &heaps)?);
    are(&rt, &starts_of(heaps), &[65536, 262144, 524288, 0]);
    let none = Heaps::new(Vec::new(rt.alloc()));
    let is_refused = allocate(&rt, &none, 0, 1).is_none();
    are(&rt, &[is_refused as usize], &[1]);
    Ok(())
}
