//! A heap whose allocations are never refused.

ghost use Rattle.std.specs.Prelude.{◌≡◌, IfSome};
ghost use Rattle.rlsf_heaps.specs.Words.{IsSizedFor, live_count};

use crate::words::Small;
use rlsf_heaps::{Layout, OpenMemory, Payload, Range, classes};
use std::alloc::Global;
use std::io;

/// Returns a heap without payloads. While at most `count` are live in it, an allocation for `layout` succeeds.
fn sized_for(alloc: Global, count: usize, layout: Layout) -> Option<Small>
    ensures sized { IfSome result (λ heap. IsSizedFor 16 count layout.size layout.align heap.state) }
    ensures live { IfSome result (λ heap. live_count heap.state ≡ 0) }
{
    let len = classes::pool_size_for_payloads::<u16, u16, 12, 16>(count, layout)?;
    let memory = OpenMemory::reserve(alloc, 4096, len).ok()?;
    let mut heap = Small::new(memory);
    heap.insert_free_block(Range { start: 4096, len });
    Some(heap)
}

/// Allocates two payloads, neither of which is refused.
fn two(heap: &mut Small, layout: Layout) -> (Payload, Payload)
    requires sized { IsSizedFor 16 1 layout.size layout.align heap.old.state }
    requires empty { live_count heap.old.state ≡ 0 }
    ensures first { result.0.identity ≡ heap.new.identity }
    ensures second { result.1.identity ≡ heap.new.identity }
{
    let first = heap.allocate(layout).unwrap();
    let second = heap.allocate(layout).unwrap();
    (first, second)
}

/// Returns the lengths of two payloads, and deallocates both.
fn lengths(alloc: Global, layout: Layout) -> Option<(usize, usize)> {
    let mut heap = sized_for(alloc, 1, layout)?;
    let (first, second) = two(&mut heap, layout);
    let lengths = (first.len(), second.len());
    heap.deallocate(first);
    heap.deallocate(second);
    Some(lengths)
}

pub(crate) fn main(rt: HostRuntime) -> io::Result<()> {
    let layout = Layout::from_size_align_unchecked(100, 16);
    println!(rt;
        "two that aren't refused: {:?}",
        lengths(rt.alloc(), layout)
    )
}
