//! Two payloads of one heap. Both are written in one expression, and one of them is made longer.
#![tactic(auto)]

ghost use Rattle.std.specs.Prelude.{◌≡◌, ◌<◌, [], ◌∷◌, length, replicate, slice_index, IfSome};
ghost use Rattle.rlsf_heaps.specs.Words.{IsSettled, IsWritten};

use rlsf_heaps::{Heap, Layout, OpenMemory, Payload, Range};
use std::alloc::Global;
use std::io;

/// 12 rows of 16 classes, with chunks of up to 131,072 bytes.
type Small = Heap<u16, u16, 12, 16>;

/// Returns a heap with one pool: 4096 bytes from address 4096 on, to which `OpenMemory::new` wrote zeros.
fn with_pool(alloc: Global) -> Option<Small>
    ensures { IfSome result (λ heap. IsSettled heap.memory) }
{
    let memory = OpenMemory::new(alloc, 4096, 4096).ok()?;
    let mut heap = Small::new(memory);
    heap.insert_free_block(Range {
        start: 4096,
        len: 4096,
    });
    Some(heap)
}

/// Fills one slice with sevens, and the other with nines.
fn mark(first: &mut [u8], second: &mut [u8])
    ensures first { first.new ≡ replicate (length first.old) 7 }
    ensures second { second.new ≡ replicate (length second.old) 9 }
{
    first.fill(7);
    second.fill(9);
}

/// Makes a payload at least `size` bytes long, or returns it as it is if the heap refuses. Its first byte stays.
fn longer(heap: &mut Small, payload: Payload, size: usize) -> Payload
    requires identity { payload.identity ≡ heap.old.identity }
    requires written { IsWritten payload }
    requires some { (0 < length payload.bytes) × (0 < size) }
    requires settled { IsSettled heap.old.memory }
    ensures identity { (result.identity ≡ heap.new.identity) × (heap.new.identity ≡ heap.old.identity) }
    ensures written { IsWritten result }
    ensures some { 0 < length result.bytes }
    ensures first { slice_index result.bytes 0 ≡ slice_index payload.bytes 0 }
{
    match heap.reallocate(payload, size) {
        Ok(longer) => longer,
        Err(same) => same,
    }
}

/// Allocates two payloads, writes both, and makes the first longer. Returns the first byte of each, and deallocates both.
fn pair_of_bytes(heap: &mut Small, layout: Layout) -> Option<[u8; 2]>
    requires settled { IsSettled heap.old.memory }
    requires some { 0 < layout.size }
    ensures { IfSome result (λ bytes. bytes ≡ 7 ∷ 9 ∷ []) }
{
    let mut first = heap.allocate(layout)?;
    let Some(mut second) = heap.allocate(layout) else {
        heap.deallocate(first);
        return None;
    };
    mark(first.as_mut_slice(), second.as_mut_slice());
    let first = longer(heap, first, 1000);
    let bytes = [first.as_slice()[0], second.as_slice()[0]];
    heap.deallocate(first);
    heap.deallocate(second);
    Some(bytes)
}

pub(crate) fn main(rt: HostRuntime) -> io::Result<()> {
    let layout = Layout::from_size_align_unchecked(100, 16);
    let bytes = with_pool(rt.alloc()).and_then(|mut heap| pair_of_bytes(&mut heap, layout));
    println!(rt; "a pair: {bytes:?}")
}
