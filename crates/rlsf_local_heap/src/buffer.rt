//! A block for some values that gets more places or fewer: its values, and the units behind them.
ghost use Rattle.std.specs.Prelude.{◌≡◌, ℕ, ◌*◌, ◌^◌, ◌<◌, ◌≤◌, List};
ghost use Rattle.std.specs.Mem.{type_size};
ghost use Rattle.std.specs.Allocator.{block_with_items};
ghost use Rattle.rlsf_heap.specs.Heap.{Identity};
ghost use Rattle.rlsf_heap.specs.Units.{IsCompleteOf, identity_of, payload_len};
ghost use Rattle.rlsf_local_heap.specs.Ownership.{block_beside, block_token};

use rlsf_base::memory::UnitPayload;
use std::marker::{Model, PhantomData};
use std::ptr::copy_nonoverlapping;

/// A block for `cap` values, of which the first `len` are there, with the right to deallocate it.
pub(crate) struct Buffer<T> {
    pub(crate) ptr: *mut T,
    pub(crate) marker: PhantomData<T>,
    pub ghost heap: { Identity },
    pub ghost len: { ℕ },
    pub ghost cap: { ℕ },
    pub ghost items: { List T },
}

impl<T> Model for Buffer<T> {
    ghost also_owns = { λ b. block_with_items (block_token b.heap) T.row b.ptr b.len b.cap b.items };
}

/// The first `cap` places of a block, with `len` values, but for the ticket of its payload and the units behind them.
pub(crate) struct Seats<T> {
    ptr: *mut T,
    marker: PhantomData<T>,
    pub ghost len: { ℕ },
    pub ghost cap: { ℕ },
    pub ghost items: { List T },
}

impl<T> Model for Seats<T> {
    ghost also_owns = { λ b. block_with_items block_beside T.row b.ptr b.len b.cap b.items };
}

impl<T> Buffer<T> {
    ghost use Rattle.rlsf_local_heap.specs.Resized.{IsLentOf};

    /// Returns the first `cap` places, and the payload of `whole` bytes with the units behind them.
    pub(crate) fn lend(self, whole: usize, cap: usize) -> (Seats<T>, UnitPayload)
        requires { (whole ≡ payload_len (self.cap * type_size T.row)) × (self.len ≤ cap) × (cap ≤ self.cap) }
        ensures { IsLentOf self cap whole (payload_len (cap * type_size T.row)) result.0 result.1 }
    {
        let Buffer { ptr, marker } = self;
        let payload = UnitPayload {
            ptr: ptr as *mut u8,
            len: whole,
        };
        (Seats { ptr, marker }, payload)
    }

    /// Moves the `len` values to the payload, which becomes a block for `cap` values. Returns it, and the old payload of `whole` bytes.
    pub(crate) fn move_to(
        self,
        payload: UnitPayload,
        len: usize,
        whole: usize,
        cap: usize,
    ) -> (Buffer<T>, UnitPayload)
        requires payload { (payload.len ≡ payload_len (cap * type_size T.row)) × (payload.kept ≡ 0) }
        requires sizes { (len ≡ self.len) × (len ≤ cap) × (len ≤ self.cap) × (cap * type_size T.row < 2 ^ 63) × (whole ≡ payload_len (self.cap * type_size T.row)) }
        ensures { (result.0.heap ≡ identity_of payload) × (result.0.len ≡ len) × (result.0.cap ≡ cap) × (result.0.items ≡ self.items) × IsCompleteOf result.1 self.heap }
    {
        let Buffer { ptr: old, marker } = self;
        let UnitPayload { ptr, len: _ } = payload;
        let ptr = ptr as *mut T;
        unsafe { copy_nonoverlapping(old, ptr, len) };
        let back = UnitPayload {
            ptr: old as *mut u8,
            len: whole,
        };
        (Buffer { ptr, marker }, back)
    }
}

impl<T> Seats<T> {
    /// Returns the block for `cap` values, of these places and the units behind them.
    pub(crate) fn with(self, payload: UnitPayload, cap: usize) -> Buffer<T>
        requires place { (payload.ptr ≡ self.ptr) × (payload.len ≡ payload_len (cap * type_size T.row)) × (payload.kept ≡ payload_len (self.cap * type_size T.row)) }
        requires sizes { (self.len ≤ self.cap) × (self.cap ≤ cap) × (cap * type_size T.row < 2 ^ 63) }
        ensures { (result.ptr ≡ self.ptr) × (result.heap ≡ identity_of payload) × (result.len ≡ self.len) × (result.cap ≡ cap) × (result.items ≡ self.items) }
    {
        let Seats { ptr, marker } = self;
        let UnitPayload { ptr: _, len: _ } = payload;
        Buffer { ptr, marker }
    }
}
