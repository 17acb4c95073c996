//! A heap to which two ranges are lent. One goes back to its owner, with all of its bytes, while the other one serves.
#![tactic(auto)]

ghost use Rattle.std.specs.Prelude.{◌≡◌, true, length, IfSome};
ghost use Rattle.rlsf_heaps.specs.Words.{IsFull, IsLent, IsSettled, IsUntouched, Range, range_at};

use rlsf_heaps::{Heap, Layout, OpenMemory, Part, Range};
use std::alloc::Global;
use std::io;

/// 12 rows of 16 classes, with chunks of up to 131,072 bytes.
type Small = Heap<u16, u16, 12, 16>;

/// The range that goes back. Neither its start nor its end is a multiple of 32.
const FIRST: Range = Range {
    start: 4101,
    len: 4000,
};

/// The range that stays.
const SECOND: Range = Range {
    start: 32768,
    len: 8192,
};

/// Lends both ranges to the heap, and allocates in it. Returns the number of bytes that come back with the first range.
fn serve(heap: Small, first: Part, second: Part, layout: Layout) -> Option<usize>
    requires empty { (r : Range) → IsUntouched heap.state.chunks r }
    requires place { (heap.memory.start ≡ 4096) × (length heap.memory.bytes ≡ 65536) × (heap.lent ≡ true) }
    requires first { (first.home ≡ heap.identity.home) × (first.start ≡ 4101) × (length first.bytes ≡ 4000) × IsFull first }
    requires second { (second.home ≡ heap.identity.home) × (second.start ≡ 32768) × (length second.bytes ≡ 8192) × IsFull second }
    ensures { IfSome result (λ n. n ≡ 4000) }
{
    let mut heap = heap;
    heap.lend(first);
    let taken = heap.insert_free_block_ptr(FIRST)?;
    heap.lend(second);
    heap.insert_free_block(SECOND);
    let payload = heap.allocate(layout)?;
    heap.deallocate(payload);
    let part = heap.reclaim_pool(FIRST, taken.get())?;
    let payload = heap.allocate(layout)?;
    heap.deallocate(payload);
    Some(part.len())
}

/// Takes the second range from the heap, and lends it again with the first.
fn with_second(heap: Small, first: Part, layout: Layout) -> Option<usize>
    requires empty { (r : Range) → IsUntouched heap.state.chunks r }
    requires place { (heap.memory.start ≡ 4096) × (length heap.memory.bytes ≡ 65536) × (heap.lent ≡ true) }
    requires first { (first.home ≡ heap.identity.home) × (first.start ≡ 4101) × (length first.bytes ≡ 4000) × IsFull first }
    requires second { IsLent heap (range_at 32768 8192) × IsSettled heap.memory }
{
    let mut heap = heap;
    let second = heap.reclaim(SECOND);
    serve(heap, first, second, layout)
}

/// Takes the first range from the heap.
fn with_first(heap: Small, layout: Layout) -> Option<usize>
    requires empty { (r : Range) → IsUntouched heap.state.chunks r }
    requires place { (heap.memory.start ≡ 4096) × (length heap.memory.bytes ≡ 65536) × (heap.lent ≡ true) }
    requires lent { IsLent heap (range_at 4101 4000) × IsLent heap (range_at 32768 8192) × IsSettled heap.memory }
{
    let mut heap = heap;
    let first = heap.reclaim(FIRST);
    with_second(heap, first, layout)
}

/// Lends the bytes of a memory to a heap, and takes both ranges from it.
fn lend_two(alloc: Global, layout: Layout) -> Option<usize> {
    let memory = OpenMemory::new(alloc, 4096, 65536).ok()?;
    with_first(Small::over_lent(memory), layout)
}

pub(crate) fn main(rt: HostRuntime) -> io::Result<()> {
    let layout = Layout::from_size_align_unchecked(100, 16);
    println!(rt;
        "bytes that came back with a lent range: {:?}",
        lend_two(rt.alloc(), layout)
    )
}
