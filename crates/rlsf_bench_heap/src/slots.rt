//! The steps: payloads of a heap are allocated into slots, and deallocated.
ghost use Rattle.std.specs.Prelude.{◌≡◌, ◌%◌, ◌^◌, ◌<◌, length, IfOk};
ghost use Rattle.std.proofs.Props.{props};
ghost use Rattle.rlsf_heap.specs.Heap.{AreOf, Identity};

use crate::{MEMORY, POOL};
use rlsf_base::memory::{Layout, OpenMemory};
use rlsf_bench_common::{BenchError, Xorshift};
use rlsf_heap::{Heap, Payload};
use std::alloc::{AllocError, Global};
use std::num::NonZeroUsize;

/// The heap of the benchmark.
pub(crate) type Large = Heap<usize, usize, 64, 64>;

/// How many alignments there are. Slot after slot has 1, 2, 4 and so on, and then 1 again.
const ALIGNS: usize = 7;

/// What a step did.
#[derive(Clone, Copy)]
pub(crate) enum Step {
    /// It deallocated the payload of this slot.
    Freed(usize),
    /// It allocated a payload of this layout for this slot, and got this address, or none.
    Allocated(usize, Layout, Option<usize>),
}

/// Creates a heap with one pool.
pub(crate) fn new_heap(alloc: Global) -> Result<Large, BenchError> {
    let memory = OpenMemory::reserve(alloc, MEMORY.start, MEMORY.len)?;
    let mut heap = Large::new(memory);
    let _ = heap.insert_free_block_ptr(POOL);
    Ok(heap)
}

/// The alignment of a slot's payloads.
fn alignment_of(slot: usize) -> usize
    ensures { result ≡ 2 ^ (slot % 7) }
{
    1 << (slot % ALIGNS)
}

/// The layout that a drawn number asks for in a slot: up to 511 bytes, with the slot's alignment.
fn layout_of(draw: u64, slot: usize) -> Layout {
    Layout::from_size_align_unchecked((draw % 512) as usize, alignment_of(slot))
}

/// Deallocates the payload of the slot that a drawn number names. If it has none, allocates one.
// In line, as the steps of `rlsf_bench_aligned` are.
#[inline(always)]
pub(crate) fn advance(heap: &mut Large, slots: &mut [Option<Payload>], draw: u64) -> Step
    requires some { 0 < length slots.old }
    requires own { AreOf heap.old.identity slots.old }
    ensures identity { heap.new.identity ≡ heap.old.identity }
    ensures own { AreOf heap.old.identity slots.new }
    ensures len { length slots.new ≡ length slots.old }
{
    let slot = (draw >> 32) as usize % slots.len();
    if let Some(payload) = slots[slot].take() {
        heap.deallocate(payload);
        return Step::Freed(slot);
    }
    let layout = layout_of(draw, slot);
    let payload = heap.allocate(layout);
    let addr = payload.as_ref().map(|payload| payload.addr());
    slots[slot] = payload;
    Step::Allocated(slot, layout, addr)
}

/// So many slots, without a payload.
fn empty_slots(alloc: Global, slots: NonZeroUsize) -> Result<Vec<Option<Payload>>, AllocError>
    ensures { IfOk result (λ v. ((heap : Identity) → AreOf heap v.items) × (0 < length v.items)) }
{
    let mut empty = Vec::new(alloc);
    for _ in 0..slots.get() {
        empty.push(None)?;
    }
    Ok(empty)
}

/// A heap, and the slots of its payloads.
#[derive(Drop)]
pub(crate) struct Slots {
    heap: Large,
    payloads: Vec<Option<Payload>>,
    ghost some: { 0 < length payloads.items },
    ghost own: { AreOf heap.identity payloads.items } by { Prim.hlevel props },
}

impl Slots {
    /// Creates a heap with one pool, and so many slots without a payload.
    pub(crate) fn new(alloc: Global, slots: NonZeroUsize) -> Result<Slots, BenchError> {
        let payloads = empty_slots(alloc, slots)?;
        let heap = new_heap(alloc)?;
        Ok(Slots { heap, payloads })
    }

    /// Deallocates the payload of the slot that a drawn number names. If it has none, allocates one.
    #[inline(always)]
    pub(crate) fn step(&mut self, draw: u64) -> Step {
        advance(&mut self.heap, &mut self.payloads, draw)
    }
}
