//! Payloads whose units are a memory of their own.
ghost use Rattle.std.specs.Prelude.{◌≡◌, ◌^◌, ◌<◌, ℕ};
ghost use denote.RawPtr.{◌+ₚ◌};
ghost use Rattle.rlsf_base.specs.Changes.{IsAllOwn, IsOwn};
ghost use Rattle.rlsf_base.specs.OpenSpace.{Home, home_of, IsOwned, place_in};
ghost use Rattle.rlsf_base.specs.RawParts.{LiesAtBlock};
ghost use Rattle.rlsf_base.specs.Space.{range_of};
ghost use Rattle.rlsf_base.specs.UnitPayload.{IsUnitPointer};
ghost use Rattle.rlsf_local_heap.specs.Leases.{IsLeased};

use rlsf_base::memory::{OpenMemory, RawParts, UnitPayload};
use std::alloc::Global;
use std::marker::Model;

/// The address at which a memory of a payload begins. Any multiple of 32 but 0 would do.
pub(crate) const START: usize = 64;

/// The right to make a payload again from the memory that its units became.
///
/// Dropping it leaks the payload: it stays live in its heap.
pub struct Lease {
    ptr: *mut u8,
    len: usize,
    pub ghost home: { Home },
    pub ghost name: { ℕ },
    pub ghost key: { ℕ },
    pub ghost start: { ℕ },
    pub ghost placed: { IsUnitPointer home ptr start len },
    pub ghost memory: { Home },
    pub ghost leased: { IsLeased memory ptr len },
}

impl Model for Lease {
    ghost use Rattle.rlsf_base.specs.Ledger.{extent, ticket_owns};

    ghost also_owns = { λ l. ticket_owns l.name l.key (extent l.start l.len 16) };
}

impl Drop for Lease {
    fn drop(self) {
        let Lease { ptr: _, len: _ } = self;
    }
}

impl Lease {
    ghost use Rattle.rlsf_heap.specs.Units.{IsCompleteOf, identity_of};
    ghost use Rattle.rlsf_local_heap.specs.Tenants.{lessor};

    /// Makes a memory of the units of a complete payload, in constant time, and returns it with the right to end it. Its bytes are raw.
    pub(crate) fn begin(alloc: Global, payload: UnitPayload) -> (OpenMemory, Lease)
        requires { (payload.len < 2 ^ 59) × (payload.kept ≡ 0) }
        ensures memory { (home_of result.0 ≡ result.1.memory) × (result.0.start ≡ 64) × IsAllOwn result.0.out }
        ensures payload { (lessor result.1 ≡ identity_of payload) × (result.1.start ≡ payload.start) × (result.1.memory.len ≡ payload.len) }
    {
        let UnitPayload { ptr, len } = payload;
        let memory = unsafe { OpenMemory::from_raw_parts(alloc, ptr, START, len) };
        (memory, Lease { ptr, len })
    }

    /// Makes the payload again from the memory that its units became.
    ///
    /// No byte of the memory may be out.
    pub(crate) fn end(self, memory: OpenMemory) -> UnitPayload
        requires memory { home_of memory ≡ self.memory }
        requires own { IsOwned memory (range_of memory) }
        ensures { IsCompleteOf result (lessor self) × (result.start ≡ self.start) × (result.len ≡ self.memory.len) }
    {
        self.into_payload(memory.into_raw_parts())
    }

    // Makes the payload again, of the parts of the memory.
    fn into_payload(self, parts: RawParts) -> UnitPayload
        requires block { LiesAtBlock parts }
        requires base { parts.base.ptr ≡ self.memory.view.base.ptr +ₚ place_in self.memory.view self.memory.start }
        requires place { (parts.start ≡ self.memory.start) × (parts.len ≡ self.memory.len) }
        requires own { IsOwn parts.bytes.out 0 parts.len }
        ensures { IsCompleteOf result (lessor self) × (result.start ≡ self.start) × (result.len ≡ self.memory.len) }
    {
        let Lease { ptr: _, len } = self;
        let ptr = parts.release_room();
        UnitPayload { ptr, len }
    }
}
