//! A payload that a foreign structure keeps as a number, its address.
ghost use Rattle.std.specs.Prelude.{◌≡◌, ◌≤◌, IfSome};
ghost use Rattle.rlsf_model.specs.Sized.{live_count};

use crate::answers::are;
use rlsf_base::memory::{Layout, OpenMemory, Range};
use rlsf_heap::Heap;
use std::alloc::Global;

/// 12 rows of 16 classes, with chunks of up to 131,072 bytes.
type Small = Heap<u16, u16, 12, 16>;

/// Allocates a payload, writes it, makes it one that is known by its address alone, and deallocates it by this number. Returns its length.
fn through_number(heap: &mut Small, layout: Layout) -> Option<usize>
    ensures count { live_count heap.new.state ≡ live_count heap.old.state }
    ensures lent { heap.new.lent ≡ heap.old.lent }
    ensures len { IfSome result (λ n. layout.size ≤ n) }
{
    let mut payload = heap.allocate(layout)?;
    payload.fill(7);
    let (addr, payload) = payload.into_thin().with_addr();
    let (len, payload) = heap.usable_thin(addr, payload);
    heap.deallocate_thin(addr, payload);
    Some(len)
}

/// Does that in a new heap.
fn number_of_new_heap(alloc: Global, layout: Layout) -> Option<usize>
    ensures { IfSome result (λ n. layout.size ≤ n) }
{
    let memory = OpenMemory::reserve(alloc, 4096, 4096).ok()?;
    let mut heap = Small::new(memory);
    heap.insert_free_block(Range {
        start: 4096,
        len: 4096,
    });
    let len = through_number(&mut heap, layout)?;
    heap.into_memory().free();
    Some(len)
}

#[test]
fn payload_passes_through_number(rt: HostRuntime) {
    // Its block has 128 bytes, 16 of them before the payload.
    let layout = Layout::from_size_align_unchecked(100, 16);
    let len = number_of_new_heap(rt.alloc(), layout).expect(&rt, "memory and room");
    are(&rt, &[len], &[112]);
}
