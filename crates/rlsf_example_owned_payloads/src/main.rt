//! Two threads over one heap. Each fills a payload of its own, without the lock.
#![tactic(auto)]

ghost use Rattle.std.specs.Prelude.{◌≡◌, ◌≤◌, [], ◌∷◌, length, replicate, IfSome};

use rlsf_heaps::{Heap, Layout, OpenMemory, Range, SharedHeap, SharedPayload};
use std::alloc::Global;
use std::io;
use std::sync::Wait;
use std::thread::{Threads, join};

/// 12 rows of 16 classes, with chunks of up to 131,072 bytes.
type Shared = SharedHeap<u16, u16, 12, 16>;

/// Returns a heap with one pool of 4096 bytes, for several threads.
fn with_pool(alloc: Global) -> Option<Shared> {
    let memory = OpenMemory::reserve(alloc, 4096, 4096).ok()?;
    let mut heap = Heap::<u16, u16, 12, 16>::new(memory);
    heap.insert_free_block_ptr(Range {
        start: 4096,
        len: 4096,
    });
    Some(SharedHeap::new(heap))
}

/// Allocates a payload of 100 bytes, and fills it.
fn filled<'h, R: Wait>(rt: &R, heap: &'h Shared, byte: u8) -> Option<SharedPayload<'h, Shared>>
    ensures len { IfSome result (λ payload. 100 ≤ length payload.bytes) }
    ensures bytes { IfSome result (λ payload. payload.bytes ≡ replicate (length payload.bytes) byte) }
{
    let layout = Layout::from_size_align(100, 8).ok()?;
    let mut payload = heap.allocate_shared(rt, layout)?;
    payload.fill(byte);
    Some(payload)
}

/// Lets two threads fill a payload each. Returns the first byte of each, and frees both.
fn from_two_threads<R: Threads + Wait + Sync>(rt: &R, heap: &Shared) -> Option<[u8; 2]>
    ensures { IfSome result (λ bytes. bytes ≡ 1 ∷ 2 ∷ []) }
{
    let (first, second) = join(rt, || filled(rt, heap, 1), || filled(rt, heap, 2));
    let (first, second) = (first?, second?);
    let bytes = [first.as_slice()[0], second.as_slice()[0]];
    first.free(rt);
    second.free(rt);
    Some(bytes)
}

fn main(rt: HostRuntime) -> io::Result<()> {
    let bytes = with_pool(rt.alloc()).and_then(|heap| from_two_threads(&rt, &heap));
    println!(rt; "from two threads: {bytes:?}")
}
