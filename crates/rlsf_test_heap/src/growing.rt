//! A user of a heap: a buffer that grows by reallocation until the heap refuses.
ghost use Rattle.std.specs.Prelude.{◌≡◌, ◌<◌, length, slice_index, IfSome};
ghost use Rattle.rlsf_heap.specs.Heap.{IsWritten};
ghost use Rattle.rlsf_heap.specs.Settled.{IsSettled};

use crate::answers::all;
use rlsf_base::memory::{Layout, OpenMemory, Range};
use rlsf_heap::{Heap, Payload};
use std::alloc::Global;

/// 12 rows of 16 classes, with chunks of up to 131,072 bytes.
type Small = Heap<u16, u16, 12, 16>;

/// Makes a payload at least `size` bytes long, or returns it as it is if the heap refuses. Its first byte stays.
fn longer(heap: &mut Small, payload: Payload, size: usize) -> (Payload, bool)
    requires identity { payload.identity ≡ heap.old.identity }
    requires written { IsWritten payload }
    requires some { (0 < length payload.bytes) × (0 < size) }
    requires settled { IsSettled heap.old.memory }
    ensures identity { (result.0.identity ≡ heap.new.identity) × (heap.new.identity ≡ heap.old.identity) }
    ensures written { IsWritten result.0 }
    ensures some { 0 < length result.0.bytes }
    ensures first { slice_index result.0.bytes 0 ≡ slice_index payload.bytes 0 }
    ensures settled { IsSettled heap.new.memory }
{
    match heap.reallocate(payload, size) {
        Ok(longer) => (longer, true),
        Err(same) => (same, false),
    }
}

/// Allocates a payload, fills it, and makes it longer three times, or until the heap refuses. Returns its first byte, and which
/// of the three were refused.
fn grown(heap: &mut Small, layout: Layout) -> Option<(u8, [bool; 3])>
    requires size { 0 < layout.size }
    requires settled { IsSettled heap.old.memory }
    ensures { IfSome result (λ r. r.0 ≡ 7) }
{
    let mut payload = heap.allocate(layout)?;
    payload.fill(7);
    let (payload, first) = longer(heap, payload, 200);
    let (payload, second) = longer(heap, payload, 3000);
    let (payload, third) = longer(heap, payload, 5000);
    let byte = payload.as_slice()[0];
    heap.deallocate_written(payload);
    Some((byte, [first, second, third]))
}

/// Grows a payload of a new heap.
fn grown_in_new_heap(alloc: Global, layout: Layout) -> Option<(u8, [bool; 3])>
    requires { 0 < layout.size }
    ensures { IfSome result (λ r. r.0 ≡ 7) }
{
    let memory = OpenMemory::new(alloc, 4096, 4096).ok()?;
    let mut heap = Small::new(memory);
    heap.insert_free_block_ptr(Range {
        start: 4096,
        len: 4096,
    });
    grown(&mut heap, layout)
}

#[test]
fn growing_keeps_bytes(rt: HostRuntime) {
    let layout = Layout::from_size_align(17, 1).expect(&rt, "a layout");
    if layout.size() > 0 {
        let answer = grown_in_new_heap(rt.alloc(), layout).expect(&rt, "memory and room");
        all(&rt, &[answer == (7, [true, true, false])]);
    }
}
