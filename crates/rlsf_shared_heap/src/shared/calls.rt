//! The calls of `Heap` that a `SharedHeap` makes, first on the heap and then through the lock.
ghost use Rattle.std.specs.Prelude.{◌≡◌, ◌+◌, ◌%◌, ◌<◌, ◌≤◌, length, replicate, IfSome};
ghost use Rattle.rlsf_heap.specs.Heap.{IsWritten};
ghost use Rattle.rlsf_shared_heap.specs.SharedReallocation.{IsReallocation};

use crate::shared::held::{Held, Identified, Named};
use crate::shared::lock::{Lock, open};
use rlsf_base::memory::Layout;
use rlsf_heap::{Heap, Payload};
use rlsf_int::BitPattern;
use std::sync::Wait;

/// The calls of a heap, with only those clauses that don't name its memory or its state. Both are unknown behind a lock.
pub(crate) trait Calls: Identified {
    fn allocate(&mut self, layout: Layout) -> Option<Payload>
        ensures identity { Self.identity self.new ≡ Self.identity self.old }
        ensures payload { IfSome result (λ p. p.identity ≡ Self.identity self.old) }
        ensures align { IfSome result (λ p. p.align ≡ layout.align) }
        ensures aligned { IfSome result (λ p. p.start % layout.align ≡ 0) }
        ensures sized { IfSome result (λ p. layout.size ≤ length p.bytes) }
        ensures few { IfSome result (λ p. length p.bytes < layout.size + 32) };

    fn allocate_zeroed(&mut self, layout: Layout) -> Option<Payload>
        ensures identity { Self.identity self.new ≡ Self.identity self.old }
        ensures payload { IfSome result (λ p. p.identity ≡ Self.identity self.old) }
        ensures written { IfSome result (λ p. IsWritten p) }
        ensures zeros { IfSome result (λ p. p.bytes ≡ replicate (length p.bytes) 0) }
        ensures align { IfSome result (λ p. p.align ≡ layout.align) }
        ensures aligned { IfSome result (λ p. p.start % layout.align ≡ 0) }
        ensures sized { IfSome result (λ p. layout.size ≤ length p.bytes) }
        ensures few { IfSome result (λ p. length p.bytes < layout.size + 32) };

    fn deallocate(&mut self, payload: Payload)
        requires { payload.identity ≡ Self.identity self.old }
        ensures { Self.identity self.new ≡ Self.identity self.old };

    fn reallocate(&mut self, payload: Payload, size: usize) -> Result<Payload, Payload>
        requires own { payload.identity ≡ Self.identity self.old }
        requires written { IsWritten payload }
        ensures identity { Self.identity self.new ≡ Self.identity self.old }
        ensures reply { IsReallocation (Self.identity self.old) payload size result };
}

impl<FLBitmap: BitPattern, SLBitmap: BitPattern, const FLLEN: usize, const SLLEN: usize> Calls
    for Heap<FLBitmap, SLBitmap, FLLEN, SLLEN> {
    fn allocate(&mut self, layout: Layout) -> Option<Payload> {
        self.allocate(layout)
    }

    fn allocate_zeroed(&mut self, layout: Layout) -> Option<Payload> {
        self.allocate_zeroed(layout)
    }

    fn deallocate(&mut self, payload: Payload) {
        self.deallocate(payload)
    }

    fn reallocate(&mut self, payload: Payload, size: usize) -> Result<Payload, Payload> {
        self.reallocate(payload, size)
    }
}

impl<T: Calls, Name: Named> Held<T, Name> {
    fn allocate(&mut self, layout: Layout) -> Option<Payload>
        ensures payload { IfSome result (λ p. p.identity ≡ Name.name) }
        ensures align { IfSome result (λ p. p.align ≡ layout.align) }
        ensures aligned { IfSome result (λ p. p.start % layout.align ≡ 0) }
        ensures sized { IfSome result (λ p. layout.size ≤ length p.bytes) }
        ensures few { IfSome result (λ p. length p.bytes < layout.size + 32) }
    {
        self.value.allocate(layout)
    }

    fn allocate_zeroed(&mut self, layout: Layout) -> Option<Payload>
        ensures payload { IfSome result (λ p. p.identity ≡ Name.name) }
        ensures written { IfSome result (λ p. IsWritten p) }
        ensures zeros { IfSome result (λ p. p.bytes ≡ replicate (length p.bytes) 0) }
        ensures align { IfSome result (λ p. p.align ≡ layout.align) }
        ensures aligned { IfSome result (λ p. p.start % layout.align ≡ 0) }
        ensures sized { IfSome result (λ p. layout.size ≤ length p.bytes) }
        ensures few { IfSome result (λ p. length p.bytes < layout.size + 32) }
    {
        self.value.allocate_zeroed(layout)
    }

    fn deallocate(&mut self, payload: Payload)
        requires { payload.identity ≡ Name.name }
    {
        self.value.deallocate(payload);
    }

    fn reallocate(&mut self, payload: Payload, size: usize) -> Result<Payload, Payload>
        requires own { payload.identity ≡ Name.name }
        requires written { IsWritten payload }
        ensures reply { IsReallocation Name.name payload size result }
    {
        self.value.reallocate(payload, size)
    }
}

/// Allocates a payload of the heap behind the lock, whose identity is `Name`'s.
pub(crate) fn allocate<T: Calls, Name: Named, R: Wait>(
    lock: &Lock<T>,
    rt: &R,
    layout: Layout,
) -> Option<Payload>
    requires { lock.now ≡ Name.name }
    ensures payload { IfSome result (λ p. p.identity ≡ Name.name) }
    ensures align { IfSome result (λ p. p.align ≡ layout.align) }
    ensures aligned { IfSome result (λ p. p.start % layout.align ≡ 0) }
    ensures sized { IfSome result (λ p. layout.size ≤ length p.bytes) }
    ensures few { IfSome result (λ p. length p.bytes < layout.size + 32) }
{
    let mutex = open::<T, Name>(lock);
    mutex.lock(rt).allocate(layout)
}

/// Allocates a payload of zeros of the heap behind the lock, whose identity is `Name`'s.
pub(crate) fn allocate_zeroed<T: Calls, Name: Named, R: Wait>(
    lock: &Lock<T>,
    rt: &R,
    layout: Layout,
) -> Option<Payload>
    requires { lock.now ≡ Name.name }
    ensures payload { IfSome result (λ p. p.identity ≡ Name.name) }
    ensures written { IfSome result (λ p. IsWritten p) }
    ensures zeros { IfSome result (λ p. p.bytes ≡ replicate (length p.bytes) 0) }
    ensures align { IfSome result (λ p. p.align ≡ layout.align) }
    ensures aligned { IfSome result (λ p. p.start % layout.align ≡ 0) }
    ensures sized { IfSome result (λ p. layout.size ≤ length p.bytes) }
    ensures few { IfSome result (λ p. length p.bytes < layout.size + 32) }
{
    let mutex = open::<T, Name>(lock);
    mutex.lock(rt).allocate_zeroed(layout)
}

/// Deallocates a payload of the heap behind the lock, whose identity is `Name`'s.
pub(crate) fn deallocate<T: Calls, Name: Named, R: Wait>(lock: &Lock<T>, rt: &R, payload: Payload)
    requires lock { lock.now ≡ Name.name }
    requires payload { payload.identity ≡ Name.name }
{
    let mutex = open::<T, Name>(lock);
    mutex.lock(rt).deallocate(payload);
}

/// Changes the size of a payload of the heap behind the lock, whose identity is `Name`'s.
pub(crate) fn reallocate<T: Calls, Name: Named, R: Wait>(
    lock: &Lock<T>,
    rt: &R,
    payload: Payload,
    size: usize,
) -> Result<Payload, Payload>
    requires lock { lock.now ≡ Name.name }
    requires own { payload.identity ≡ Name.name }
    requires written { IsWritten payload }
    ensures reply { IsReallocation Name.name payload size result }
{
    let mutex = open::<T, Name>(lock);
    mutex.lock(rt).reallocate(payload, size)
}
