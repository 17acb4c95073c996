//! Payloads that one thread allocates and frees at once: of a `Heap`, and of an `OwnerHeap` that has lent nothing.
ghost use Rattle.std.specs.Prelude.{◌≡◌};

use crate::load::Load;
use crate::shared::new_heap;
use crate::shared_steps::layout_of;
use rlsf_base::memory::Layout;
use rlsf_bench_common::{BenchError, Xorshift};
use rlsf_heap::Heap;
use rlsf_shared_heap::{OwnerHeap, Returns};

/// A heap as the `SharedHeap` of this benchmark has.
pub(crate) type Plain = Heap<usize, usize, 64, 64>;

/// A heap of one thread.
pub(crate) type Owner<'r> = OwnerHeap<'r, usize, usize, 64, 64>;

/// Allocates a payload of a heap, fills it, and frees it. Returns its address, or 0 if it is refused.
#[inline(never)]
fn pair_of_heap(heap: &mut Plain, layout: Layout) -> usize {
    let Some(mut payload) = heap.allocate(layout) else {
        return 0;
    };
    payload.fill(7);
    let addr = payload.addr();
    heap.deallocate(payload);
    addr
}

/// The same of an owner.
#[inline(never)]
fn pair_of_owner(owner: &mut Owner<'_>, layout: Layout) -> usize {
    let Some(mut payload) = owner.allocate(layout) else {
        return 0;
    };
    payload.fill(7);
    let addr = payload.addr();
    owner.deallocate(payload);
    addr
}

/// Makes the pairs that are asked for with a `Heap`, and prints a sum over the addresses.
pub(crate) fn time_heap<R: Print + AllocGlobal>(rt: &R, load: Load) -> Result<(), BenchError> {
    let mut heap = new_heap(rt.alloc(), load.len)?;
    let mut draws = Xorshift::new();
    let mut sum: usize = 0;
    for _ in 0..load.steps {
        sum = sum.wrapping_add(pair_of_heap(&mut heap, layout_of(draws.next())));
    }
    println!(rt; "Heap: sum {sum}")?;
    Ok(())
}

/// Makes the pairs that are asked for with an `OwnerHeap`, and prints a sum over the addresses.
pub(crate) fn time_owner<R: Print + AllocGlobal>(rt: &R, load: Load) -> Result<(), BenchError> {
    let heap = new_heap(rt.alloc(), load.len)?;
    let mut returns = Returns::new(rt.alloc(), &heap, 0)?;
    let mut owner = OwnerHeap::new(heap, &mut returns);
    let mut draws = Xorshift::new();
    let mut sum: usize = 0;
    for _ in 0..load.steps {
        sum = sum.wrapping_add(pair_of_owner(&mut owner, layout_of(draws.next())));
    }
    println!(rt; "OwnerHeap: sum {sum}")?;
    Ok(())
}
