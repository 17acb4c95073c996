//! Payloads of a shared heap that have to lie at given addresses: for each size and alignment, and once they have another size.
ghost use Rattle.std.specs.Prelude.{◌≡◌, IfSome};
ghost use Rattle.rlsf_heap.specs.Heap.{IsWritten};

use crate::answers::{all, none_is_wrong};
use rlsf_base::memory::{Layout, OpenMemory, Range};
use rlsf_heap::{Heap, Payload};
use rlsf_shared_heap::SharedHeap;
use std::alloc::Global;
use std::sync::Wait;
use std::test::Fail;

type Plain = Heap<u16, u16, 12, 16>;

pub(crate) type Shared = SharedHeap<u16, u16, 12, 16>;

/// The addresses of the pool: one free block of 131,040 bytes, and a sentinel.
const POOL: Range = Range {
    start: 65536,
    len: 131072,
};

/// What each byte of a payload is.
pub(crate) const MARK: u8 = 7;

/// A shared heap of one pool, which begins at an address.
pub(crate) fn shared_heap_at(alloc: Global, start: usize) -> Result<Shared, Fail> {
    let memory = OpenMemory::reserve(alloc, start, POOL.len)?;
    let mut heap = Plain::new(memory);
    heap.insert_free_block_ptr(Range {
        start,
        len: POOL.len,
    });
    Ok(Shared::new(heap))
}

/// A shared heap of one pool.
pub(crate) fn shared_heap(alloc: Global) -> Result<Shared, Fail> {
    shared_heap_at(alloc, POOL.start)
}

/// The address of the one free block of a shared heap, in the last class of the last row, or 0 if a payload is live.
pub(crate) fn whole_from(shared: Shared) -> usize {
    let heap = shared.into_inner();
    let first = heap.first_free(11, 15).map_or(0, |addr| addr.get());
    match heap.try_into_memory() {
        Ok(memory) => {
            memory.free();
            first
        }
        Err(_) => 0,
    }
}

/// Whether no payload of the shared heap is live, and its pool is one free block.
pub(crate) fn is_whole(shared: Shared) -> bool {
    whole_from(shared) == POOL.start
}

/// A size, an alignment, and the address and the length of its payload. They are 0 if it is refused.
pub(crate) type Served = (usize, usize, usize, usize);

// The block begins at 65536, and has 16 bytes before its payload. Its length is a multiple of 32.
pub(crate) static SERVED: [Served; 23] = [
    (0, 1, 65552, 16),
    (1, 1, 65552, 16),
    (33, 1, 65552, 48),
    (1001, 1, 65552, 1008),
    (65536, 1, 65552, 65552),
    (0, 16, 65552, 16),
    (1, 16, 65552, 16),
    (17, 16, 65552, 48),
    (1001, 16, 65552, 1008),
    (65536, 16, 65552, 65552),
    (0, 64, 65600, 0),
    (1, 64, 65600, 32),
    (17, 64, 65600, 32),
    (99, 64, 65600, 128),
    (1001, 64, 65600, 1024),
    (65536, 64, 65600, 65536),
    (0, 4096, 69632, 0),
    (1, 4096, 69632, 32),
    (99, 4096, 69632, 128),
    (1001, 4096, 69632, 1024),
    (65536, 4096, 69632, 65536),
    // The last class begins at 126,976 bytes.
    (126960, 16, 65552, 126960),
    (126961, 16, 0, 0),
];

/// Allocates a payload, of zeros or not, writes it, and deallocates it. Returns its address and its length, or zeros.
fn served<R: Wait>(rt: &R, shared: &Shared, layout: Layout, zeroed: bool) -> (usize, usize) {
    let payload = if zeroed {
        shared.allocate_zeroed(rt, layout)
    } else {
        shared.allocate(rt, layout)
    };
    let Some(mut payload) = payload else {
        return (0, 0);
    };
    payload.fill(MARK);
    let found = (payload.addr(), payload.len());
    shared.deallocate(rt, payload);
    found
}

/// The index of the first row with another result.
fn first_not_served<R: Wait>(rt: &R, shared: &Shared, zeroed: bool) -> Option<usize> {
    for (index, (size, align, addr, len)) in SERVED.iter().enumerate() {
        let Ok(layout) = Layout::from_size_align(*size, *align) else {
            return Some(index);
        };
        if served(rt, shared, layout, zeroed) != (*addr, *len) {
            return Some(index);
        }
    }
    None
}

#[test]
fn each_size_is_served_at_each_alignment(rt: HostRuntime) -> Result<(), Fail> {
    let shared = shared_heap(rt.alloc())?;
    none_is_wrong(&rt, first_not_served(&rt, &shared, false));
    none_is_wrong(&rt, first_not_served(&rt, &shared, true));
    all(&rt, &[is_whole(shared)]);
    Ok(())
}

/// Which blocks beside a payload are free when it gets another size.
#[derive(Clone, Copy)]
pub(crate) enum Free {
    Neither,
    Before,
    Behind,
    Both,
}

/// The size and the alignment of a payload, what is free beside it, and another size: the address and the length that it has then. They
/// are 0 if the other size is refused.
pub(crate) type Resized = (usize, usize, Free, usize, usize, usize);

// The block before it has 128 bytes from 65536 on. The one behind it has 128 bytes, too, and the rest of the pool is free.
pub(crate) static RESIZED: [Resized; 23] = [
    // From 65664 to 65792, with the block behind it to 65920.
    (100, 16, Free::Neither, 100, 65680, 112),
    (100, 16, Free::Neither, 112, 65680, 112),
    (100, 16, Free::Neither, 10, 65680, 16),
    (100, 16, Free::Neither, 0, 65680, 16),
    (100, 16, Free::Behind, 1000, 65680, 1008),
    (100, 16, Free::Before, 200, 65552, 208),
    (100, 16, Free::Both, 113, 65680, 144),
    (100, 16, Free::Both, 131000, 65552, 131024),
    (100, 16, Free::Before, 241, 65936, 272),
    (100, 16, Free::Neither, 113, 65936, 144),
    (100, 16, Free::Neither, 65536, 65936, 65552),
    (100, 16, Free::Neither, 131072, 0, 0),
    // From 65664 to 65728, with the block behind it to 65856.
    (33, 1, Free::Neither, 49, 65872, 80),
    (33, 1, Free::Behind, 65536, 65680, 65552),
    // From 65664 to 65856, with the block behind it to 65984.
    (100, 64, Free::Neither, 128, 65728, 128),
    (100, 64, Free::Neither, 0, 65728, 0),
    (100, 64, Free::Both, 131072, 0, 0),
    (100, 64, Free::Before, 200, 65600, 224),
    (100, 64, Free::Neither, 129, 66048, 160),
    // From 65664 to 69760, with the block behind it to 69888.
    (100, 4096, Free::Neither, 128, 69632, 128),
    (100, 4096, Free::Behind, 5000, 69632, 5024),
    (100, 4096, Free::Before, 200, 73728, 224),
    (100, 4096, Free::Neither, 129, 73728, 160),
];

/// A payload of which each byte is the mark.
fn filled<R: Wait>(rt: &R, shared: &Shared, size: usize, align: usize) -> Option<Payload>
    ensures identity { IfSome result (λ p. p.identity ≡ shared.now.identity) }
    ensures written { IfSome result (λ p. IsWritten p) }
{
    let layout = Layout::from_size_align(size, align).ok()?;
    let mut payload = shared.allocate(rt, layout)?;
    payload.fill(MARK);
    Some(payload)
}

/// Deallocates a payload if `goes` is true, and returns it otherwise.
fn kept_unless<R: Wait>(rt: &R, shared: &Shared, payload: Payload, goes: bool) -> Option<Payload>
    requires { payload.identity ≡ shared.now.identity }
    ensures { IfSome result (λ p. p.identity ≡ shared.now.identity) }
{
    if goes {
        shared.deallocate(rt, payload);
        return None;
    }
    Some(payload)
}

/// Deallocates a payload, if there is one.
fn give_back<R: Wait>(rt: &R, shared: &Shared, payload: Option<Payload>)
    requires { IfSome payload (λ p. p.identity ≡ shared.now.identity) }
{
    if let Some(payload) = payload {
        shared.deallocate(rt, payload);
    }
}

/// Whether each byte is the mark.
fn is_marked(bytes: &[u8]) -> bool {
    bytes.iter().all(|byte| *byte == MARK)
}

/// Gives a payload another size, and deallocates it. Returns its address and its length then, or zeros if the size is refused. They are 1
/// if a payload that didn't get longer has another byte than the mark; those that a longer one has behind its old bytes are raw.
fn resized<R: Wait>(rt: &R, shared: &Shared, payload: Payload, size: usize) -> (usize, usize)
    requires own { payload.identity ≡ shared.now.identity }
    requires written { IsWritten payload }
{
    let before = payload.len();
    match shared.reallocate(rt, payload, size) {
        Ok(payload) => {
            let found = (payload.addr(), payload.len());
            let is_kept = found.1 > before || is_marked(payload.as_slice());
            shared.deallocate(rt, payload);
            if is_kept { found } else { (1, 1) }
        }
        Err(payload) => {
            let is_kept = is_marked(payload.as_slice()) && payload.len() == before;
            shared.deallocate(rt, payload);
            if is_kept { (0, 0) } else { (1, 1) }
        }
    }
}

/// Allocates three payloads side by side, deallocates the first and the third as the row says, and gives the second another size.
/// Returns its address and its length then, and deallocates all.
fn found<R: Wait>(rt: &R, shared: &Shared, row: Resized) -> (usize, usize) {
    let (size, align, free, to, _, _) = row;
    let (Some(first), Some(second), Some(third)) = (
        filled(rt, shared, 100, 16),
        filled(rt, shared, size, align),
        filled(rt, shared, 100, 16),
    ) else {
        return (1, 1);
    };
    let first = kept_unless(rt, shared, first, matches!(free, Free::Before | Free::Both));
    let third = kept_unless(rt, shared, third, matches!(free, Free::Behind | Free::Both));
    let found = resized(rt, shared, second, to);
    give_back(rt, shared, first);
    give_back(rt, shared, third);
    found
}

/// The index of the first row with another result.
fn first_not_resized<R: Wait>(rt: &R, shared: &Shared) -> Option<usize> {
    for (index, row) in RESIZED.iter().enumerate() {
        if found(rt, shared, *row) != (row.4, row.5) {
            return Some(index);
        }
    }
    None
}

#[test]
fn payloads_stay_where_they_can_and_leak_nothing(rt: HostRuntime) -> Result<(), Fail> {
    let shared = shared_heap(rt.alloc())?;
    none_is_wrong(&rt, first_not_resized(&rt, &shared));
    all(&rt, &[is_whole(shared)]);
    Ok(())
}
