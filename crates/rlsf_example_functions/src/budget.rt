//! A pool of a length that is computed for a budget: for how many payloads are live, and for the bytes that their blocks have together.

ghost use Rattle.std.specs.Prelude.{◌≡◌, IfSome};
ghost use Rattle.rlsf.specs.Words.{IsSizedForBudget, live_bytes, live_count};

use crate::pools::Pool;
use rlsf::{Addr, Layout, Memory, Range, classes};
use std::alloc::Global;

/// A pool that never refuses a payload of up to the layout while `count` or fewer are live, whose blocks have `bytes` bytes or fewer
/// together. `None` if no pool is so long, or the system is out of memory.
pub fn with_budget(alloc: Global, count: usize, bytes: usize, layout: Layout) -> Option<Pool>
    ensures sized { IfSome result (λ pool. IsSizedForBudget 16 count bytes layout.size layout.align pool.state.chunks) }
    ensures live { IfSome result (λ pool. (live_count pool.state ≡ 0) × (live_bytes pool.state ≡ 0)) }
{
    let len = classes::pool_size_for_budget::<u16, u16, 12, 16>(count, bytes, layout)?;
    let memory = Memory::new(alloc, 4096, len).ok()?;
    let mut pool = Pool::new(memory);
    pool.insert_free_block(Range { start: 4096, len });
    Some(pool)
}

/// Allocates a message and a frame, and a second frame once the message is freed. None is refused: when a call begins, at most one payload is
/// live, whose block has at most the bytes of a frame's.
pub fn replace_message(pool: &mut Pool, message: Layout, frame: Layout) -> (Addr, Addr)
    requires sized { IsSizedForBudget 16 1 4128 4096 16 pool.old.state.chunks }
    requires empty { (live_count pool.old.state ≡ 0) × (live_bytes pool.old.state ≡ 0) }
    requires message { (message.size ≡ 64) × (message.align ≡ 16) }
    requires frame { (frame.size ≡ 4096) × (frame.align ≡ 16) }
    ensures { live_count pool.new.state ≡ 2 }
{
    let first = pool.allocate(message).unwrap();
    pool.payload_mut(first).fill(7);
    let second = pool.allocate(frame).unwrap();
    pool.deallocate(first, 16);
    let third = pool.allocate(frame).unwrap();
    (second, third)
}
