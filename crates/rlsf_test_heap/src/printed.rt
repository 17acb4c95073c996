//! What is printed of an allocator of collections.
use crate::answers::all;
use rlsf_heap::Heap;
use rlsf_local_heap::LocalHeap;
use std::alloc::{AllocError, Allocator, Global};
use std::process::Abort;
use std::test::Fail;

/// 12 rows of 16 classes, with chunks of up to 131,072 bytes.
type Small = Box<Heap<u16, u16, 12, 16>>;

/// What is printed of a heap.
fn text_of(alloc: Global, heap: &LocalHeap<Small>) -> Result<String, AllocError> {
    format!(in alloc; "{heap:?}")
}

/// What `text` returns while two boxes are out, if these keep their values.
fn beside_two_boxes<A: Allocator + Copy, F: FnOnce() -> Result<String, AllocError>>(
    rt: &impl Abort,
    alloc: A,
    text: F,
) -> Result<String, AllocError>
    requires { F.IsAlwaysCallable text }
{
    let first = Box::new(alloc, 1u64)?;
    let second = Box::new(alloc, 2u64)?;
    let text = text()?;
    all(rt, &[*first == 1, *second == 2]);
    Ok(text)
}

#[test]
fn debug_text_has_the_size_and_the_counts(rt: HostRuntime) -> Result<(), Fail> {
    let heap = LocalHeap::<Small>::new(rt.alloc(), 4096)?;
    let before = text_of(rt.alloc(), &heap)?;
    let after = beside_two_boxes(&rt, &heap, || text_of(rt.alloc(), &heap))?;
    // A payload of 8 bytes takes a block of 32.
    let printed = [
        before.as_str() == "LocalHeap { size: 4096, used: 0, live: 0 }",
        after.as_str() == "LocalHeap { size: 4096, used: 64, live: 2 }",
    ];
    all(&rt, &printed);
    Ok(())
}
