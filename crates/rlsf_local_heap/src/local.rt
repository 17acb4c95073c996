//! The allocator: a heap behind a `&`, whose blocks grow and shrink in place where they can.
ghost use Rattle.std.specs.Prelude.{◌≡◌, ◌↔◌, ◌+◌, ◌*◌, ◌^◌, ◌<◌, ◌≤◌, min, IfOk, IfSome, IsErrOf, MatchResult};
ghost use Rattle.std.specs.Mem.{type_size};
ghost use Rattle.rlsf_base.specs.Range.{range_at};
ghost use Rattle.rlsf_model_sizes.specs.SizeClass.{IsValid};
ghost use Rattle.rlsf_heap.specs.Units.{GivesUnits, IsCompleteOf, identity_of, payload_len};
ghost use Rattle.rlsf_local_heap.specs.Constants.{chunks_of_range, constants_of};
ghost use Rattle.rlsf_local_heap.specs.Ownership.{block_token};
ghost use Rattle.rlsf_local_heap.specs.Resized.{IsBufferResized, IsAtSamePlace, StaysWith};

use crate::buffer::Buffer;
use crate::slot::Slot;
use crate::unit_heap::{UNIT, UnitHeap, over_all};
use rlsf_base::memory::{MemoryError, OpenMemory, UnitPayload};
use rlsf_heap::{Heap, unit_payload_len};
use rlsf_int::BitPattern;
use std::alloc::{AllocError, Allocator, Global};
use std::cell::Cell;
use std::fmt;
use std::marker::PhantomData;
use std::mem::{ManuallyDrop, size_of};

/// The address at which the memory of a heap begins that `LocalHeap::new` makes. Any multiple of 32 but 0 would do.
const START: usize = 4096;

/// The bytes of a block that are not its payload's: two words before it.
const HEADER: usize = 16;

// Returns the length of the payload of an array of `cap` values.
fn array_len<T>(cap: usize) -> usize
    requires { cap * type_size T.row < 2 ^ 63 }
    ensures { result ≡ payload_len (cap * type_size T.row) }
{
    unit_payload_len(cap * size_of::<T>())
}

/// A heap as the allocator of one thread's collections, which hold a `&` to it.
///
/// `allocate` and `deallocate` take a bounded number of word accesses, however many blocks are out. So do `grow` and `shrink`, but
/// for the values that move. A block that grows stays at its address if the block behind it is free and long enough, as
/// `Heap::resize_units` says. Otherwise its values move to a new block. A block that shrinks always stays, and the heap has the
/// bytes behind it again.
///
/// Alignments up to 16 are served; a greater one is refused. The heap's memory must have units of 16 bytes (`Heap::has_units`),
/// as a memory has that the system allocated; otherwise each allocation is refused.
///
/// Dropping it drops the heap, which deallocates its memory if no block is out.
pub struct LocalHeap<H: UnitHeap> {
    slot: Slot<H>,
    // The bytes of the blocks that were allocated here and are out. They lie in one memory, so that the count never saturates.
    used: Cell<usize>,
}

impl<FLBitmap: BitPattern, SLBitmap: BitPattern, const FLLEN: usize, const SLLEN: usize> LocalHeap<
    Box<Heap<FLBitmap, SLBitmap, FLLEN, SLLEN>>,
> {
    /// Creates an allocator over a new memory of `len` bytes at the addresses from 4096 on, which are one pool (`pool`). No pool is
    /// made, and each allocation is refused, if `len` is less than 64.
    ///
    /// Returns `TooLong` if and only if the memory would end past `2^64 - 1`. Returns `OutOfMemory` if the system has no such memory, or
    /// none for the heap's own fields. The parameters of the heap must be valid (`Heap::new`).
    ///
    /// Asks the system twice: for the memory, and for the fields of the heap. Takes time proportional to the number of classes and
    /// of chunks. No byte of the memory is written beside the words of these chunks.
    ///
    /// From `crates/rlsf_example_tenants/src/words.rt`:
    ///
    /// ```
    /// let heap = LocalHeap::<Box<Small>>::new(alloc, 16384).ok()?;
    /// occurrences(&heap, text)
    /// ```
    pub fn new(alloc: Global, len: usize) -> Result<Self, MemoryError>
        requires { IsValid FLBitmap.width SLBitmap.width FLLEN SLLEN }
        ensures memory { IfOk result (λ l. (l.slot.heap.home.start ≡ 4096) × (l.slot.heap.home.len ≡ len) × GivesUnits l.slot.heap) }
        ensures pool { IfOk result (λ l. l.slot.chunks ≡ chunks_of_range FLLEN (range_at 4096 len)) }
        ensures too_long { IsErrOf result MemoryError.TooLong ↔ (2 ^ 64 ≤ 4096 + len) }
        ensures starts { IsErrOf result MemoryError.ZeroStart → ⊥ }
    {
        let memory = OpenMemory::reserve(alloc, START, len)?;
        match Box::new(alloc, over_all(memory)) {
            Ok(heap) => Ok(Self::in_a_box(heap)),
            Err(_) => Err(MemoryError::OutOfMemory),
        }
    }

    /// Creates an allocator over a heap in a box, as `from` does.
    pub(crate) fn in_a_box(heap: Box<Heap<FLBitmap, SLBitmap, FLLEN, SLLEN>>) -> Self
        ensures { result.slot ≡ constants_of heap.value }
    {
        LocalHeap::from(heap)
    }
}

impl<H: UnitHeap> LocalHeap<H> {
    /// Returns the number of bytes of the heap's memory. No clause states this number: nothing is known of a heap through a `&`.
    ///
    /// It takes constant time.
    pub fn size(&self) -> usize {
        self.counts().0
    }

    /// Returns the number of bytes of the blocks that were allocated here and are out. A block has 16 bytes more than its
    /// payload, which has as many bytes as were requested or up to 31 more. It takes constant time. No clause states this number.
    ///
    /// From `crates/rlsf_test_heap/src/local.rt`:
    ///
    /// ```
    /// [heap.live(), heap.used(), heap.free()]
    /// ```
    pub fn used(&self) -> usize {
        self.used.get()
    }

    /// Returns the number of the other bytes of the heap's memory, so that `used` and `free` together are `size`. A request
    /// for as many can be refused: a free block is needed that is long enough, and the heap keeps some bytes for itself. It
    /// takes constant time. No clause states this number.
    pub fn free(&self) -> usize {
        self.size().saturating_sub(self.used())
    }

    /// Returns the number of payloads of the heap that are out. No clause states this number.
    ///
    /// It takes constant time.
    pub fn live(&self) -> usize {
        self.counts().1
    }

    /// Consumes the allocator and returns its heap, in which the blocks that are out stay live.
    ///
    /// It takes constant time.
    pub fn into_heap(self) -> Option<H>
        ensures { IfSome result (λ h. H.constants h ≡ self.slot) }
    {
        let LocalHeap { slot, used: _ } = self;
        slot.into_inner()
    }

    // Counts a block with a payload of `len` bytes as out.
    fn count(&self, len: usize) {
        self.used
            .set(self.used.get().saturating_add(len).saturating_add(HEADER));
    }

    // Counts a block with a payload of `len` bytes as out no longer.
    fn discount(&self, len: usize) {
        self.used
            .set(self.used.get().saturating_sub(len).saturating_sub(HEADER));
    }

    // The slot is empty only while one of the functions below runs, and they call nothing that could come back here.
    fn counts(&self) -> (usize, usize) {
        let Some(heap) = self.slot.replace(None) else {
            return (0, 0);
        };
        let counts = (heap.size(), heap.live());
        self.slot.replace(Some(heap));
        counts
    }

    pub(crate) fn take(&self, size: usize, align: usize) -> Option<UnitPayload>
        ensures { IfSome result (λ p. IsCompleteOf p self.now.slot.heap × (p.len ≡ payload_len size) × (size < 2 ^ 63) × (align ≤ 16)) }
    {
        if align > UNIT {
            return None;
        }
        let mut heap = self.slot.replace(None)?;
        let payload = heap.take(size);
        self.slot.replace(Some(heap));
        if payload.is_some() {
            self.count(unit_payload_len(size));
        }
        payload
    }

    // `len` is the payload's.
    pub(crate) fn give(&self, payload: UnitPayload, len: usize)
        requires { IsCompleteOf payload self.now.slot.heap }
    {
        match self.slot.replace(None) {
            Some(mut heap) => {
                heap.give(payload);
                self.slot.replace(Some(heap));
                self.discount(len);
            }
            None => {
                let _lost = unsafe { ManuallyDrop::new_unchecked(payload) };
            }
        }
    }

    // Gives a payload the length for `size` bytes without moving it, as `UnitHeap::resize` does. Refuses sizes that no payload has.
    fn resize(
        &self,
        payload: UnitPayload,
        len: usize,
        size: usize,
    ) -> Result<UnitPayload, UnitPayload>
        requires heap { identity_of payload ≡ self.now.slot.heap }
        requires len { len ≡ payload.len }
        requires small { size < 2 ^ 63 }
        requires kept { payload.kept ≡ min payload.len (payload_len size) }
        ensures { MatchResult result (λ p. IsAtSamePlace payload p (payload_len size)) (λ p. IsAtSamePlace payload p payload.len) }
    {
        if size > isize::MAX as usize - UNIT {
            return Err(payload);
        }
        let Some(mut heap) = self.slot.replace(None) else {
            return Err(payload);
        };
        let resized = heap.resize(payload, len, size);
        self.slot.replace(Some(heap));
        if resized.is_ok() {
            self.discount(len);
            self.count(unit_payload_len(size));
        }
        resized
    }

    // Gives a block with `len` values another number of places. It stays where it is, or moves if it can't get more there. Returns it as
    // it was if the heap refuses both.
    pub(crate) fn resized<T>(
        &self,
        buffer: Buffer<T>,
        len: usize,
        old_cap: usize,
        new_cap: usize,
    ) -> Result<Buffer<T>, Buffer<T>>
        requires buffer { (buffer.heap ≡ self.now.slot.heap) × (buffer.len ≡ len) × (buffer.cap ≡ old_cap) }
        requires sizes { (len ≤ old_cap) × (len ≤ new_cap) × (old_cap * type_size T.row < 2 ^ 63) × (new_cap * type_size T.row < 2 ^ 63) }
        ensures { MatchResult result (λ b. IsBufferResized buffer len new_cap b) (λ b. StaysWith buffer len old_cap b) }
    {
        let whole = array_len::<T>(old_cap);
        let (seats, payload) = buffer.lend(whole, old_cap.min(new_cap));
        match self.resize(payload, whole, new_cap * size_of::<T>()) {
            Ok(payload) => Ok(seats.with(payload, new_cap)),
            Err(payload) => {
                let buffer = seats.with(payload, old_cap);
                if old_cap < new_cap {
                    self.moved(buffer, len, whole, new_cap)
                } else {
                    Err(buffer)
                }
            }
        }
    }

    // Moves the `len` values of a block to a new one, and deallocates the old one. `whole` is the length of the old one's payload.
    fn moved<T>(
        &self,
        buffer: Buffer<T>,
        len: usize,
        whole: usize,
        new_cap: usize,
    ) -> Result<Buffer<T>, Buffer<T>>
        requires buffer { (buffer.heap ≡ self.now.slot.heap) × (buffer.len ≡ len) × (whole ≡ payload_len (buffer.cap * type_size T.row)) }
        requires sizes { (len ≤ buffer.cap) × (len ≤ new_cap) × (new_cap * type_size T.row < 2 ^ 63) }
        ensures { MatchResult result (λ b. IsBufferResized buffer len new_cap b) (λ b. StaysWith buffer len buffer.cap b) }
    {
        // A payload has the greatest alignment of a type.
        let Some(payload) = self.take(new_cap * size_of::<T>(), UNIT) else {
            return Err(buffer);
        };
        let (buffer, old) = buffer.move_to(payload, len, whole, new_cap);
        self.give(old, whole);
        Ok(buffer)
    }
}

impl<H: UnitHeap> From<H> for LocalHeap<H> {
    fn from(heap: H) -> LocalHeap<H>
        ensures { result.slot ≡ H.constants heap }
    {
        LocalHeap {
            slot: Slot::new(heap),
            used: Cell::new(0),
        }
    }
}

unsafe impl<H: UnitHeap> Allocator for LocalHeap<H> {
    ghost dealloc_token = { λ heap. block_token heap.slot.heap };

    fn allocate(&self, size: usize, align: usize) -> Result<*mut u8, AllocError> {
        match self.take(size, align) {
            Some(UnitPayload { ptr, len: _ }) => Ok(ptr),
            None => Err(AllocError),
        }
    }

    unsafe fn deallocate(&self, ptr: *mut u8, size: usize, _align: usize) {
        let len = unit_payload_len(size);
        self.give(UnitPayload { ptr, len }, len);
    }

    unsafe fn grow<T>(
        &self,
        ptr: *mut T,
        len: usize,
        old_cap: usize,
        new_cap: usize,
    ) -> Result<*mut T, AllocError> {
        match self.resized(
            Buffer {
                ptr,
                marker: PhantomData,
            },
            len,
            old_cap,
            new_cap,
        ) {
            Ok(Buffer { ptr, marker: _ }) => Ok(ptr),
            Err(Buffer { ptr: _, marker: _ }) => Err(AllocError),
        }
    }

    unsafe fn shrink<T>(
        &self,
        ptr: *mut T,
        len: usize,
        cap: usize,
        fewer: usize,
    ) -> Result<*mut T, AllocError> {
        match self.resized(
            Buffer {
                ptr,
                marker: PhantomData,
            },
            len,
            cap,
            fewer,
        ) {
            Ok(Buffer { ptr, marker: _ }) => Ok(ptr),
            Err(Buffer { ptr: _, marker: _ }) => Err(AllocError),
        }
    }
}

impl<H: UnitHeap> fmt::Debug for LocalHeap<H> {
    fn fmt<W: fmt::Write>(&self, f: &mut fmt::Formatter<W>) -> fmt::Result {
        f.debug_struct("LocalHeap")
            .field("size", &self.size())
            .field("used", &self.used())
            .field("live", &self.live())
            .finish()
    }
}

impl<H: UnitHeap> Drop for LocalHeap<H> {
    fn drop(self) {
        let LocalHeap { slot, used: _ } = self;
        drop(slot.into_inner());
    }
}
