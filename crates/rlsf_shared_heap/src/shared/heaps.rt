//! A `SharedHeap` for each thread of a program.
ghost use Rattle.std.specs.Prelude.{◌≡◌, ◌+◌, ◌%◌, ◌<◌, ◌≤◌, length, replicate, IfSome};
ghost use Rattle.rlsf_shared_heap.specs.Shared.{IsOfOne};

use crate::shared::SharedHeap;
use crate::shared::payload::SharedPayload;
use rlsf_base::memory::Layout;
use rlsf_int::BitPattern;
use std::marker::Model;
use std::sync::Wait;

/// `SharedHeap`s for the threads of a program, one for each. A thread seldom waits for a lock, since it allocates from its own heap while
/// that has room.
///
/// Each payload goes back to the heap that it came from, whichever thread frees it. Dropping the value drops the heaps.
#[derive(Drop)]
pub struct SharedHeaps<
    FLBitmap: BitPattern,
    SLBitmap: BitPattern,
    const FLLEN: usize,
    const SLLEN: usize,
> {
    heaps: Vec<SharedHeap<FLBitmap, SLBitmap, FLLEN, SLLEN>>,
}

impl<FLBitmap: BitPattern, SLBitmap: BitPattern, const FLLEN: usize, const SLLEN: usize> Model
    for SharedHeaps<FLBitmap, SLBitmap, FLLEN, SLLEN> {
    ghost use Rattle.std.specs.Prelude.{List};
    ghost use Rattle.rlsf_shared_heap.specs.Shared.{SharedView};

    ghost Value = { List SharedView };

    ghost view = { λ s. s.heaps.items };
}

impl<
    FLBitmap: BitPattern,
    SLBitmap: BitPattern,
    const FLLEN: usize,
    const SLLEN: usize,
> SharedHeaps<FLBitmap, SLBitmap, FLLEN, SLLEN> {
    /// Creates a set of these heaps: thread number 0 has the first, and so on.
    ///
    /// Completes in constant time. It takes no lock.
    pub fn new(heaps: Vec<SharedHeap<FLBitmap, SLBitmap, FLLEN, SLLEN>>) -> Self
        ensures { result ≡ heaps.items }
    {
        SharedHeaps { heaps }
    }

    /// Consumes the set, and returns its heaps, in their order.
    ///
    /// Completes in constant time. It takes no lock.
    pub fn into_inner(self) -> Vec<SharedHeap<FLBitmap, SLBitmap, FLLEN, SLLEN>>
        ensures { result.items ≡ self }
    {
        let SharedHeaps { heaps } = self;
        heaps
    }

    /// Allocates a payload of zeros for `layout`, as `SharedHeap::allocate_shared` does, from the heap of a thread. If that has no room, asks
    /// the next one, and so on round. With more threads than heaps, some share one. The payload is of one of the heaps (`own`).
    ///
    /// Returns `None` if no heap has room.
    ///
    /// Waits for the lock of each heap that it asks, one after the other. For each it costs as much as
    /// `SharedHeap::allocate_shared`.
    pub fn allocate_shared<R: Wait>(
        &self,
        rt: &R,
        thread: usize,
        layout: Layout,
    ) -> Option<SharedPayload<'_, SharedHeap<FLBitmap, SLBitmap, FLLEN, SLLEN>>>
        ensures own { IfSome result (λ p. IsOfOne self.now p.identity) }
        ensures zeros { IfSome result (λ p. p.bytes ≡ replicate (length p.bytes) 0) }
        ensures align { IfSome result (λ p. p.align ≡ layout.align) }
        ensures aligned { IfSome result (λ p. p.start % layout.align ≡ 0) }
        ensures sized { IfSome result (λ p. layout.size ≤ length p.bytes) }
        ensures few { IfSome result (λ p. length p.bytes < layout.size + 32) }
    {
        let own = thread.checked_rem(self.heaps.len())?;
        let from_own = self.heaps.len() - own;
        for turn in 0..self.heaps.len() {
            let index = if turn < from_own {
                own + turn
            } else {
                turn - from_own
            };
            let payload = self.heaps[index].allocate_shared(rt, layout);
            if payload.is_some() {
                return payload;
            }
        }
        None
    }
}

// Takes only values that are `Send` and `Sync`.
fn crosses<T: Send + Sync>(value: T) -> T {
    value
}

// That this call is proved shows that the set is `Send` and `Sync`.
fn crossed<
    FLBitmap: BitPattern + Send,
    SLBitmap: BitPattern + Send,
    const FLLEN: usize,
    const SLLEN: usize,
>(
    heaps: SharedHeaps<FLBitmap, SLBitmap, FLLEN, SLLEN>,
) -> SharedHeaps<FLBitmap, SLBitmap, FLLEN, SLLEN> {
    crosses(heaps)
}
