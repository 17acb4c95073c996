//! The steps of a thread: payloads of the shared heap are allocated into slots, and deallocated.
ghost use Rattle.std.specs.Prelude.{◌<◌, IfOk};
ghost use Rattle.rlsf_heap.specs.Heap.{AreOf, Identity};

use crate::shared::Shared;
use rlsf_base::memory::Layout;
use rlsf_bench_common::Xorshift;
use rlsf_heap::Payload;
use std::alloc::{AllocError, Global};
use std::sync::Wait;

/// The layout that a drawn number asks for: up to 511 bytes, anywhere.
pub(crate) fn layout_of(draw: u64) -> Layout {
    Layout::from_size_align_unchecked((draw % 512) as usize, 1)
}

/// Deallocates the payload of the slot that a drawn number names. If it has none, allocates one. Returns whether an allocation was refused.
fn advance<R: Wait>(rt: &R, shared: &Shared, slots: &mut [Option<Payload>], draw: u64) -> bool
    requires own { AreOf shared.now.identity slots.old }
    ensures own { AreOf shared.now.identity slots.new }
{
    if slots.is_empty() {
        return false;
    }
    let slot = (draw >> 32) as usize % slots.len();
    if let Some(payload) = slots[slot].take() {
        shared.deallocate(rt, payload);
        return false;
    }
    let payload = shared.allocate(rt, layout_of(draw));
    let refused = payload.is_none();
    slots[slot] = payload;
    refused
}

/// So many slots, without a payload.
fn empty_slots(alloc: Global, slots: usize) -> Result<Vec<Option<Payload>>, AllocError>
    ensures { IfOk result (λ v. (heap : Identity) → AreOf heap v.items) }
{
    let mut empty = Vec::new(alloc);
    for _ in 0..slots {
        empty.push(None)?;
    }
    Ok(empty)
}

/// Makes so many steps on so many slots. Returns how many allocations were refused, or `None` if the system is out of memory.
pub(crate) fn run<R: Wait>(
    rt: &R,
    alloc: Global,
    shared: &Shared,
    slots: usize,
    steps: u64,
) -> Option<u64> {
    let mut live = empty_slots(alloc, slots).ok()?;
    let mut draws = Xorshift::new();
    let mut refused: u64 = 0;
    for _ in 0..steps {
        if advance(rt, shared, &mut live, draws.next()) {
            refused = refused.wrapping_add(1);
        }
    }
    Some(refused)
}
