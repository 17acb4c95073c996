//! Payloads with a reference to their heap. They can go through any channel, lock, struct or thread.
ghost use Rattle.std.specs.Prelude.{◌≡◌, ◌-◌, ℕ, List, drop, length, replicate, IfOk};
ghost use Rattle.std.specs.Borrow.{sem};
ghost use Rattle.rlsf_heap.specs.Heap.{Identity, IsWritten};
ghost use Rattle.rlsf_heap.specs.Lends.{rewritten};
ghost use Rattle.rlsf_shared_heap.specs.SharedReallocation.{IsReallocation};

use crate::shared::SharedHeap;
use rlsf_heap::Payload;
use rlsf_int::BitPattern;
use std::marker::Model;
use std::sync::Wait;

/// A heap that threads share, as its payloads need it: `SharedHeap` with any class parameters.
pub trait ThreadHeap {
    ghost identity: { Self → Identity };

    /// Deallocates a payload of this heap, as `SharedHeap::deallocate` does.
    fn deallocate<R: Wait>(&self, rt: &R, payload: Payload)
        requires own { payload.identity ≡ Self.identity self.now }
        requires written { IsWritten payload };

    /// Changes the size of a payload of this heap, as `SharedHeap::reallocate` does.
    fn reallocate<R: Wait>(&self, rt: &R, payload: Payload, size: usize) -> Result<Payload, Payload>
        requires own { payload.identity ≡ Self.identity self.now }
        requires written { IsWritten payload }
        ensures reply { IsReallocation (Self.identity self.now) payload size result };
}

impl<FLBitmap: BitPattern, SLBitmap: BitPattern, const FLLEN: usize, const SLLEN: usize> ThreadHeap
    for SharedHeap<FLBitmap, SLBitmap, FLLEN, SLLEN> {
    ghost identity = { λ h. h.identity };

    fn deallocate<R: Wait>(&self, rt: &R, payload: Payload) {
        self.deallocate(rt, payload)
    }

    fn reallocate<R: Wait>(
        &self,
        rt: &R,
        payload: Payload,
        size: usize,
    ) -> Result<Payload, Payload> {
        self.reallocate(rt, payload, size)
    }
}

/// A payload of a shared heap, without raw bytes, with a reference to that heap. Contracts see it as the payload.
///
/// Its type keeps that the payload is of that heap. So it can be sent through a channel or stored under a lock, and whoever receives it
/// can read it and free it without a condition. It is `Send` and `Sync` if the heap is `Sync`.
///
/// Dropping it leaks the payload, as dropping a `Payload` does. `free` deallocates it, and so does the drop of a `FreedOnDrop`.
#[derive(Drop)]
pub struct SharedPayload<'h, H: ThreadHeap> {
    heap: &'h H,
    payload: Payload,
}

impl<'h, H: ThreadHeap> Model for SharedPayload<'h, H> {
    ghost use Rattle.std.specs.Prelude.{◌≡◌};
    ghost use Rattle.rlsf_heap.specs.Heap.{IsWritten, PayloadView};

    ghost Value = { PayloadView };

    ghost view = { λ s. s.payload };

    ghost invariant = { λ s. (s.payload.identity ≡ H.identity s.heap.now) × IsWritten s.payload };
}

impl<'h, H: ThreadHeap> SharedPayload<'h, H> {
    ghost use Rattle.rlsf_shared_heap.specs.SharedLends.{LendsShared};

    // The payload with a reference to its heap.
    pub(crate) fn new(heap: &'h H, payload: Payload) -> Self
        requires own { payload.identity ≡ H.identity heap.now }
        requires written { IsWritten payload }
        ensures { result ≡ payload }
    {
        SharedPayload { heap, payload }
    }

    // The heap of the payload.
    pub(crate) fn heap(&self) -> &'h H {
        self.heap
    }

    /// Deallocates the payload. One that an `OwnerHeap` lent goes back to that owner, which deallocates it.
    ///
    /// Waits for the lock of the heap, and then takes at most 32 word accesses. For an `OwnerHeap` it takes none: while another
    /// thread has the lock of its list, it yields the processor and tries again.
    ///
    /// From `crates/rlsf_example_owned_payloads/src/main.rt`:
    ///
    /// ```
    /// let bytes = [first.as_slice()[0], second.as_slice()[0]];
    /// first.free(rt);
    /// second.free(rt);
    /// ```
    pub fn free<R: Wait>(self, rt: &R) {
        let SharedPayload { heap, payload } = self;
        heap.deallocate(rt, payload);
    }

    /// Consumes the value, and returns its payload. `SharedHeap::adopt` of its heap makes the value of it again.
    ///
    /// Completes in constant time. It takes no lock.
    pub fn into_payload(self) -> Payload
        ensures same { result ≡ self.entry }
        ensures written { IsWritten result }
    {
        let SharedPayload { heap: _, payload } = self;
        payload
    }

    /// Changes the size of the payload to `size` bytes, as `SharedHeap::reallocate` does. Bytes behind the kept ones are zeros.
    ///
    /// Returns the payload as the error, with its address, alignment and bytes, if the heap does.
    ///
    /// Costs as much as `SharedHeap::reallocate`, and fills the bytes behind the kept ones after it left the lock. A payload that
    /// an `OwnerHeap` lent is returned at once, as the error.
    pub fn reallocate<R: Wait>(self, rt: &R, size: usize) -> Result<Self, Self>
        ensures reply { IsReallocation self.entry.identity self.entry size result }
        ensures zeros { IfOk result (λ p. drop (length self.entry.bytes) p.bytes ≡ replicate (length p.bytes - length self.entry.bytes) 0) }
    {
        let SharedPayload { heap, payload } = self;
        let len = payload.len();
        match heap.reallocate(rt, payload, size) {
            Ok(mut payload) => {
                let kept = len.min(payload.len());
                payload.fill_from(kept, 0);
                Ok(SharedPayload { heap, payload })
            }
            Err(payload) => Err(SharedPayload { heap, payload }),
        }
    }

    /// Returns the address of the first byte.
    ///
    /// Completes in constant time. It takes no lock.
    pub fn addr(&self) -> usize
        ensures { result ≡ self.now.start }
    {
        self.payload.addr()
    }

    /// Returns the number of bytes. All of them may be used.
    ///
    /// Completes in constant time. It takes no lock.
    pub fn len(&self) -> usize
        ensures { result ≡ length self.now.bytes }
    {
        self.payload.len()
    }

    /// Returns the alignment that was requested. The address is a multiple of it.
    ///
    /// Completes in constant time. It takes no lock.
    pub fn align(&self) -> usize
        ensures { result ≡ self.now.align }
    {
        self.payload.align()
    }

    /// Returns the bytes.
    ///
    /// Completes in constant time. It takes no lock.
    ///
    /// From `crates/rlsf_example_real_time/src/main.rt`:
    ///
    /// ```
    /// let first = block.as_slice().first();
    /// if block.as_slice().iter().all(|sample| Some(sample) == first) {
    ///     read = read.wrapping_add(1);
    /// }
    /// ```
    pub fn as_slice(&self) -> &[u8]
        ensures { result.now ≡ self.now.bytes }
    {
        self.payload.as_slice()
    }

    /// Returns the bytes, for reading and writing. When the borrow ends, the payload has the bytes that were written. Nothing else
    /// changes.
    ///
    /// Completes in constant time. It takes no lock.
    pub fn as_mut_slice(&mut self) -> &mut [u8]
        ensures* writes_back { sem 𝓛 (LendsShared H.row H.ThreadHeap self.entry result) }
        ensures value { result.now ≡ self.old.bytes }
        ensures filled { (w : List ℕ) → length w ≡ length result.now → (rewritten self.old w).bytes ≡ w }
        ensures lengths { (w : List ℕ) → length (rewritten self.old w).bytes ≡ length self.old.bytes }
        ensures identity { (w : List ℕ) → (rewritten self.old w).identity ≡ self.old.identity }
        ensures start { (w : List ℕ) → (rewritten self.old w).start ≡ self.old.start }
        ensures align { (w : List ℕ) → (rewritten self.old w).align ≡ self.old.align }
    {
        self.payload.as_mut_slice()
    }

    /// Writes `value` to each byte. Nothing else changes.
    ///
    /// Takes time proportional to the length, and no lock.
    ///
    /// From `crates/rlsf_example_owned_payloads/src/main.rt`:
    ///
    /// ```
    /// let mut payload = heap.allocate_shared(rt, layout)?;
    /// payload.fill(byte);
    /// Some(payload)
    /// ```
    pub fn fill(&mut self, value: u8)
        ensures bytes { self.new.bytes ≡ replicate (length self.old.bytes) value }
        ensures identity { self.new.identity ≡ self.old.identity }
        ensures start { self.new.start ≡ self.old.start }
        ensures align { self.new.align ≡ self.old.align }
    {
        self.payload.fill(value);
    }

    /// Returns the payload as a value whose drop deallocates it.
    ///
    /// Completes in constant time. It takes no lock.
    ///
    /// From `crates/rlsf_test_shared_heap/src/sent.rt`:
    ///
    /// ```
    /// let third = zeros(rt, shared, 100)?.freed_on_drop(rt);
    /// let kept = third.into_inner();
    /// ```
    pub fn freed_on_drop<'r, R: Wait>(self, rt: &'r R) -> FreedOnDrop<'h, 'r, H, R>
        ensures { result.payload ≡ self.entry }
    {
        FreedOnDrop { payload: self, rt }
    }
}

/// A payload of a shared heap that is deallocated when this value is dropped. Take it where a function may leave early. It is one word
/// longer than a `SharedPayload`.
pub struct FreedOnDrop<'h, 'r, H: ThreadHeap, R: Wait> {
    /// The payload, for reading and writing.
    pub payload: SharedPayload<'h, H>,
    rt: &'r R,
}

impl<'h, 'r, H: ThreadHeap, R: Wait> Drop for FreedOnDrop<'h, 'r, H, R> {
    fn drop(self) {
        let FreedOnDrop { payload, rt } = self;
        payload.free(rt);
    }
}

impl<'h, 'r, H: ThreadHeap, R: Wait> FreedOnDrop<'h, 'r, H, R> {
    /// Consumes the value, and returns its payload, which is live.
    ///
    /// Completes in constant time. It takes no lock.
    pub fn into_inner(self) -> SharedPayload<'h, H>
        ensures { result ≡ self.entry.payload }
    {
        let FreedOnDrop { payload, rt: _ } = self;
        payload
    }
}

// Takes only values that are `Send` and `Sync`.
fn crosses<T: Send + Sync>(value: T) -> T {
    value
}

// That this call is proved shows that the payload is `Send` and `Sync`.
fn crossed<H: ThreadHeap + Sync>(payload: SharedPayload<'_, H>) -> SharedPayload<'_, H> {
    crosses(payload)
}
