//! A user of a heap: two payloads in one struct, both of which are written at once.
ghost use Rattle.std.specs.Prelude.{◌≡◌, ◌<◌, [], ◌∷◌, length, replicate, IfSome};
ghost use denote.RawPtr.{◌+ₚ◌};
ghost use Rattle.rlsf_base.specs.Changes.{IsAllOwn, IsOwn};
ghost use Rattle.rlsf_base.specs.OpenSpace.{place_in};
ghost use Rattle.rlsf_base.specs.RawParts.{LiesAtBlock};
ghost use Rattle.rlsf_heap.specs.Heap.{IsWritten};
ghost use Rattle.rlsf_model.specs.Sized.{live_count};

use crate::answers::{all, are};
use rlsf_base::memory::{Layout, OpenMemory, Range, RawParts};
use rlsf_heap::{Heap, Payload};
use std::alloc::Global;

/// 12 rows of 16 classes, with chunks of up to 131,072 bytes.
type Small = Heap<u16, u16, 12, 16>;

struct Pair {
    first: Payload,
    second: Payload,
}

fn mark(first: &mut [u8], second: &mut [u8])
    requires { (0 < length first.old) × (0 < length second.old) }
    ensures first { first.new ≡ replicate (length first.old) 7 }
    ensures second { second.new ≡ replicate (length second.old) 9 }
{
    first.fill(7);
    second.fill(9);
}

/// Writes both payloads, and returns them with what is read of them.
fn marked(first: Payload, second: Payload) -> (Pair, [u8; 2])
    requires some { (0 < length first.bytes) × (0 < length second.bytes) }
    requires written { IsWritten first × IsWritten second }
    ensures first { result.0.first.identity ≡ first.identity }
    ensures second { result.0.second.identity ≡ second.identity }
    ensures read { result.1 ≡ 7 ∷ 9 ∷ [] }
{
    let mut pair = Pair { first, second };
    mark(pair.first.as_mut_slice(), pair.second.as_mut_slice());
    let reads = [pair.first.as_slice()[0], pair.second.as_slice()[0]];
    (pair, reads)
}

fn with_pair(heap: &mut Small, layout: Layout) -> Option<[u8; 2]>
    requires { 0 < layout.size }
    ensures count { live_count heap.new.state ≡ live_count heap.old.state }
    ensures lent { heap.new.lent ≡ heap.old.lent }
    ensures read { IfSome result (λ r. r ≡ 7 ∷ 9 ∷ []) }
{
    let first = heap.allocate_zeroed(layout)?;
    let Some(second) = heap.allocate_zeroed(layout) else {
        heap.deallocate(first);
        return None;
    };
    let (pair, reads) = marked(first, second);
    let Pair { first, second } = pair;
    heap.deallocate(second);
    heap.deallocate(first);
    Some(reads)
}

/// Allocates two payloads of a new heap, writes both, reads both, and deallocates both and the heap's memory. It leaves by `?`
/// if the heap refuses them: then the heap is dropped.
fn pair_of_new_heap(alloc: Global, layout: Layout) -> Option<[u8; 2]>
    requires { 0 < layout.size }
    ensures { IfSome result (λ r. r ≡ 7 ∷ 9 ∷ []) }
{
    let memory = OpenMemory::reserve(alloc, 4096, 4096).ok()?;
    let mut heap = Small::new(memory);
    heap.insert_free_block_ptr(Range {
        start: 4096,
        len: 4096,
    });
    let reads = with_pair(&mut heap, layout)?;
    heap.into_memory().free();
    Some(reads)
}

/// The number of bytes between two payloads of one heap.
fn between(heap: &mut Small, first: Payload, second: Payload) -> (usize, Payload, Payload)
    requires { (first.identity ≡ heap.old.identity) × (second.identity ≡ heap.old.identity) }
    ensures heap { heap.new ≡ heap.old }
    ensures payloads { (result.1 ≡ first) × (result.2 ≡ second) }
{
    let (first, second) = heap.apart(first, second);
    let bytes = if first.addr() < second.addr() {
        second.addr() - first.addr() - first.len()
    } else {
        first.addr() - second.addr() - second.len()
    };
    (bytes, first, second)
}

/// Makes a heap over a memory, which may be of a block that the caller owns. Allocates a payload, fills it and deallocates it.
/// Returns the parts of the memory, with the block: the caller gets its bytes back by `release_room`.
fn served_in_place(memory: OpenMemory, layout: Layout) -> RawParts
    requires own { IsAllOwn memory.out }
    requires place { (memory.start ≡ 4096) × (length memory.bytes ≡ 4096) }
    ensures block { result.base.ptr ≡ memory.view.base.ptr +ₚ place_in memory.view 4096 }
    ensures place { (result.start ≡ 4096) × (result.len ≡ 4096) }
    ensures lies { LiesAtBlock result }
    ensures own { IsOwn result.bytes.out 0 result.len }
{
    let mut heap = Small::new(memory);
    heap.insert_free_block(Range {
        start: 4096,
        len: 4096,
    });
    if let Some(mut payload) = heap.allocate(layout) {
        payload.fill(7);
        heap.deallocate(payload);
    }
    heap.into_memory().into_raw_parts()
}

#[test]
fn two_payloads_are_written_at_once(rt: HostRuntime) {
    let layout = Layout::from_size_align_unchecked(100, 64);
    let reads = pair_of_new_heap(rt.alloc(), layout).expect(&rt, "memory and room");
    all(&rt, &[reads == [7, 9]]);
}

#[test]
fn memory_comes_back_in_parts(rt: HostRuntime) {
    let layout = Layout::from_size_align_unchecked(100, 64);
    let memory = OpenMemory::reserve(rt.alloc(), 4096, 4096).expect(&rt, "memory");
    let parts = served_in_place(memory, layout);
    are(&rt, &[parts.start, parts.len], &[4096, 4096]);
    let _ = parts.release_room();
}

/// Allocates two payloads. Returns the number of bytes between them.
fn allocated_apart(heap: &mut Small, layout: Layout) -> Option<usize> {
    let first = heap.allocate(layout)?;
    let second = heap.allocate(layout)?;
    let (bytes, first, second) = between(heap, first, second);
    heap.deallocate(first);
    heap.deallocate(second);
    Some(bytes)
}

#[test]
fn header_is_between_payloads(rt: HostRuntime) {
    let layout = Layout::from_size_align_unchecked(16, 16);
    let memory = OpenMemory::reserve(rt.alloc(), 4096, 4096).expect(&rt, "memory");
    let mut heap = Small::new(memory);
    heap.insert_free_block(Range {
        start: 4096,
        len: 4096,
    });
    all(&rt, &[allocated_apart(&mut heap, layout) == Some(16)]);
}
