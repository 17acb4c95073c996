//! A heap behind one lock, for threads that allocate and deallocate themselves. Their payloads own their bytes.
ghost use Rattle.std.specs.Prelude.{◌≡◌, ◌+◌, ◌%◌, ◌<◌, ◌≤◌, length, replicate, IfSome};
ghost use Rattle.rlsf_heap.specs.Heap.{IsWritten};
ghost use Rattle.rlsf_shared_heap.specs.SharedReallocation.{IsReallocation};

mod calls;
mod heap_identity;
mod heaps;
mod held;
mod lock;
mod owner;
mod payload;
mod returns;

pub use heaps::SharedHeaps;
use lock::Lock;
pub use owner::OwnerHeap;
pub use payload::{FreedOnDrop, SharedPayload, ThreadHeap};
pub use returns::Returns;
use rlsf_base::memory::Layout;
use rlsf_heap::{Heap, Payload};
use rlsf_int::BitPattern;
use std::marker::{Brand, Model};
use std::sync::Wait;

/// A `Heap` that threads share. Each call takes one lock, and makes the call of `Heap` with the same name.
///
/// A payload owns its bytes, so its thread reads and writes them without the lock. Dropping a shared heap drops its heap.
#[derive(Drop)]
pub struct SharedHeap<
    FLBitmap: BitPattern,
    SLBitmap: BitPattern,
    const FLLEN: usize,
    const SLLEN: usize,
> {
    lock: Lock<Heap<FLBitmap, SLBitmap, FLLEN, SLLEN>>,
}

impl<FLBitmap: BitPattern, SLBitmap: BitPattern, const FLLEN: usize, const SLLEN: usize> Model
    for SharedHeap<FLBitmap, SLBitmap, FLLEN, SLLEN> {
    ghost use Rattle.rlsf_shared_heap.specs.Shared.{SharedView};

    ghost Value = { SharedView };

    ghost view = { λ s. record { identity = s.lock } };
}

impl<FLBitmap: BitPattern, SLBitmap: BitPattern, const FLLEN: usize, const SLLEN: usize> SharedHeap<
    FLBitmap,
    SLBitmap,
    FLLEN,
    SLLEN,
> {
    /// Creates a shared heap of `heap`. Payloads that `heap` allocated are payloads of the shared heap.
    ///
    /// Takes no lock. The fields of the heap are moved.
    ///
    /// From `crates/rlsf_example_owned_payloads/src/main.rt`:
    ///
    /// ```
    /// heap.insert_free_block_ptr(Range {
    ///     start: 4096,
    ///     len: 4096,
    /// });
    /// Some(SharedHeap::new(heap))
    /// ```
    pub fn new(heap: Heap<FLBitmap, SLBitmap, FLLEN, SLLEN>) -> Self
        ensures identity { result.identity ≡ heap.identity }
    {
        SharedHeap {
            lock: Lock::new(heap),
        }
    }

    /// Consumes the shared heap, and returns its heap. Payloads of the shared heap are payloads of that heap.
    ///
    /// Takes no lock. The fields of the heap are moved.
    pub fn into_inner(self) -> Heap<FLBitmap, SLBitmap, FLLEN, SLLEN>
        ensures identity { result.identity ≡ self.identity }
    {
        let SharedHeap { lock } = self;
        lock.into_inner()
    }

    /// Allocates a payload for `layout`, as `Heap::allocate` does. Its bytes may be raw. Returns `None` if the heap does.
    /// No clause says when: other threads may change the heap at any moment.
    ///
    /// Waits for the lock. Then completes in constant time: at most 27 word accesses, as `Heap::allocate`.
    ///
    /// From `crates/rlsf_test_shared_heap/src/sent.rt`:
    ///
    /// ```
    /// let mut payload = shared.allocate(rt, Layout::from_size_align_unchecked(100, 64))?;
    /// payload.fill(3);
    /// ```
    pub fn allocate<R: Wait>(&self, rt: &R, layout: Layout) -> Option<Payload>
        ensures payload { IfSome result (λ p. p.identity ≡ self.now.identity) }
        ensures align { IfSome result (λ p. p.align ≡ layout.align) }
        ensures aligned { IfSome result (λ p. p.start % layout.align ≡ 0) }
        ensures sized { IfSome result (λ p. layout.size ≤ length p.bytes) }
        ensures few { IfSome result (λ p. length p.bytes < layout.size + 32) }
    {
        calls::allocate::<Heap<FLBitmap, SLBitmap, FLLEN, SLLEN>, Brand, R>(&self.lock, rt, layout)
    }

    /// Allocates a payload for `layout`, as `Heap::allocate_zeroed` does. Its bytes are zeros. Returns `None` if the heap does.
    /// No clause says when.
    ///
    /// Waits for the lock, and has it while it fills the payload: at most 27 word accesses, and time proportional to the length of
    /// the payload.
    pub fn allocate_zeroed<R: Wait>(&self, rt: &R, layout: Layout) -> Option<Payload>
        ensures payload { IfSome result (λ p. p.identity ≡ self.now.identity) }
        ensures written { IfSome result (λ p. IsWritten p) }
        ensures zeros { IfSome result (λ p. p.bytes ≡ replicate (length p.bytes) 0) }
        ensures align { IfSome result (λ p. p.align ≡ layout.align) }
        ensures aligned { IfSome result (λ p. p.start % layout.align ≡ 0) }
        ensures sized { IfSome result (λ p. layout.size ≤ length p.bytes) }
        ensures few { IfSome result (λ p. length p.bytes < layout.size + 32) }
    {
        calls::allocate_zeroed::<Heap<FLBitmap, SLBitmap, FLLEN, SLLEN>, Brand, R>(
            &self.lock, rt, layout,
        )
    }

    /// Allocates a payload for `layout`, as `allocate_zeroed` does, and returns it with a reference to this heap. Returns `None` if the
    /// heap does. No clause says when.
    ///
    /// Costs as much as `allocate_zeroed`.
    ///
    /// From `crates/rlsf_example_owned_payloads/src/main.rt`:
    ///
    /// ```
    /// let layout = Layout::from_size_align(100, 8).ok()?;
    /// let mut payload = heap.allocate_shared(rt, layout)?;
    /// payload.fill(byte);
    /// ```
    pub fn allocate_shared<R: Wait>(
        &self,
        rt: &R,
        layout: Layout,
    ) -> Option<SharedPayload<'_, SharedHeap<FLBitmap, SLBitmap, FLLEN, SLLEN>>>
        ensures payload { IfSome result (λ p. p.identity ≡ self.now.identity) }
        ensures zeros { IfSome result (λ p. p.bytes ≡ replicate (length p.bytes) 0) }
        ensures align { IfSome result (λ p. p.align ≡ layout.align) }
        ensures aligned { IfSome result (λ p. p.start % layout.align ≡ 0) }
        ensures sized { IfSome result (λ p. layout.size ≤ length p.bytes) }
        ensures few { IfSome result (λ p. length p.bytes < layout.size + 32) }
    {
        let payload = self.allocate_zeroed(rt, layout)?;
        Some(SharedPayload::new(self, payload))
    }

    /// Returns a payload with a reference to this heap.
    ///
    /// The payload must be one of this heap, and none of its bytes may be raw.
    ///
    /// Completes in constant time, and takes no lock.
    ///
    /// From `crates/rlsf_test_shared_heap/src/sent.rt`:
    ///
    /// ```
    /// let mut payload = shared.allocate(rt, Layout::from_size_align_unchecked(100, 64))?;
    /// payload.fill(3);
    /// let mut tied = shared.adopt(payload);
    /// ```
    pub fn adopt(
        &self,
        payload: Payload,
    ) -> SharedPayload<'_, SharedHeap<FLBitmap, SLBitmap, FLLEN, SLLEN>>
        requires heap { payload.identity ≡ self.now.identity }
        requires written { IsWritten payload }
        ensures { result ≡ payload }
    {
        SharedPayload::new(self, payload)
    }

    /// Deallocates a payload, as `Heap::deallocate` does.
    ///
    /// The payload must be one of this heap.
    ///
    /// Waits for the lock. Then completes in constant time: at most 32 word accesses, as `Heap::deallocate`.
    ///
    /// From `crates/rlsf_test_shared_heap/src/sent.rt`:
    ///
    /// ```
    /// let fives = tied.as_slice().iter().filter(|byte| **byte == 5).count();
    /// shared.deallocate(rt, tied.into_payload());
    /// ```
    pub fn deallocate<R: Wait>(&self, rt: &R, payload: Payload)
        requires { payload.identity ≡ self.now.identity }
    {
        calls::deallocate::<Heap<FLBitmap, SLBitmap, FLLEN, SLLEN>, Brand, R>(
            &self.lock, rt, payload,
        );
    }

    /// Changes the size of a payload to `size` bytes, as `Heap::reallocate` does. Returns it with its alignment. The first bytes
    /// are kept, as many as both sizes have, and none of these is raw. The payload may move to another address.
    ///
    /// Returns the payload as the error, with its address, alignment and bytes, if the heap does. No clause says when.
    ///
    /// The payload must be one of this heap, and none of its bytes may be raw.
    ///
    /// Waits for the lock, and has it while bytes are copied: at most 66 word accesses, and each byte of the payload is copied at
    /// most once.
    pub fn reallocate<R: Wait>(
        &self,
        rt: &R,
        payload: Payload,
        size: usize,
    ) -> Result<Payload, Payload>
        requires own { payload.identity ≡ self.now.identity }
        requires written { IsWritten payload }
        ensures reply { IsReallocation self.now.identity payload size result }
    {
        calls::reallocate::<Heap<FLBitmap, SLBitmap, FLLEN, SLLEN>, Brand, R>(
            &self.lock, rt, payload, size,
        )
    }
}
