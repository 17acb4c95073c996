//! Pools of a length that is computed for the payloads, so that no allocation within the bounds is refused.

ghost use Rattle.std.specs.Prelude.{◌≡◌, ◌≤◌, ◌+◌, IfSome, OnOk, length};
ghost use Rattle.rlsf.specs.Words.{IsSizedFor, live_count};

use rlsf::{Addr, Layout, Memory, Range, Tlsf, classes};
use std::alloc::{AllocError, Global};

/// Chunks of up to 131,072 bytes, in 12 first-level rows of 16 classes.
pub type Pool = Tlsf<u16, u16, 12, 16>;

/// A pool that never refuses a payload of up to the layout while `count` or fewer are live. `None` if no pool is so long, or the
/// system is out of memory.
pub fn with_pool(alloc: Global, count: usize, layout: Layout) -> Option<Pool>
    ensures sized { IfSome result (λ pool. IsSizedFor 16 count layout.size layout.align pool.state) }
    ensures live { IfSome result (λ pool. live_count pool.state ≡ 0) }
{
    let len = classes::pool_size_for_payloads::<u16, u16, 12, 16>(count, layout)?;
    let memory = Memory::new(alloc, 4096, len).ok()?;
    let mut pool = Pool::new(memory);
    pool.insert_free_block(Range { start: 4096, len });
    Some(pool)
}

/// Allocates three payloads from an empty pool that is sized for two live ones. None is refused.
pub fn allocate_three(pool: &mut Pool, layout: Layout) -> (Addr, Addr, Addr)
    requires sized { IsSizedFor 16 2 layout.size layout.align pool.old.state }
    requires empty { live_count pool.old.state ≡ 0 }
    ensures { live_count pool.new.state ≡ 3 }
{
    let first = pool.allocate(layout).unwrap();
    let second = pool.allocate(layout).unwrap();
    let third = pool.allocate(layout).unwrap();
    (first, second, third)
}

/// Allocates a smaller payload and another one, frees the first, and allocates once more. None is refused.
pub fn allocate_again(pool: &mut Pool, layout: Layout, small: Layout) -> (Addr, Addr)
    requires sized { IsSizedFor 16 1 layout.size layout.align pool.old.state }
    requires small { (small.size ≤ layout.size) × (small.align ≤ layout.align) }
    requires empty { live_count pool.old.state ≡ 0 }
    ensures { live_count pool.new.state ≡ 2 }
{
    let first = pool.allocate(small).unwrap();
    pool.payload_mut(first).fill(7);
    let second = pool.allocate(layout).unwrap();
    pool.deallocate(first, small.align());
    let third = pool.allocate(layout).unwrap();
    (second, third)
}

/// Allocates two payloads and resizes the first to a larger size, and the second is unchanged. None is refused.
pub fn allocate_larger(pool: &mut Pool, layout: Layout, small: Layout) -> (Addr, Addr)
    requires sized { IsSizedFor 16 2 layout.size layout.align pool.old.state }
    requires small { (small.size ≤ layout.size) × (small.align ≡ layout.align) }
    requires empty { live_count pool.old.state ≡ 0 }
    ensures { live_count pool.new.state ≡ 2 }
{
    let first = pool.allocate(small).unwrap();
    let second = pool.allocate(layout).unwrap();
    let moved = pool.reallocate(first, layout).unwrap();
    (moved, second)
}

/// Allocates `count` payloads from an empty pool that is sized for as many live ones, and puts their addresses behind the others. The
/// pool refuses none. `Err` if the system is out of memory for the addresses.
pub fn allocate_many(
    pool: &mut Pool,
    layout: Layout,
    count: usize,
    addrs: &mut Vec<Addr>,
) -> Result<(), AllocError>
    requires sized { IsSizedFor 16 count layout.size layout.align pool.old.state }
    requires empty { live_count pool.old.state ≡ 0 }
    ensures live { OnOk result (live_count pool.new.state ≡ count) }
    ensures len { OnOk result (length addrs.new.items ≡ length addrs.old.items + count) }
{
    for _ in 0..count {
        let addr = pool.allocate(layout).unwrap();
        addrs.push(addr)?;
    }
    Ok(())
}
