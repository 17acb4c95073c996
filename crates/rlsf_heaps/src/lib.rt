//! Heaps, whose payloads own their bytes: for one thread, for several, and for std's collections.
//!
//! This crate has no code of its own. It re-exports what a user of a `Heap`, a `SharedHeap`, an `OwnerHeap`, a `LocalHeap`, a `Tenant` or
//! `Partitions` needs, so that a caller's crate depends on it alone. `specs/Words.antt` re-exports the definitions that callers cite.
//!
//! The allocators of numbers, `Tlsf` and `FlexTlsf`, are in `rlsf`.
#![tactic(auto)]

pub use rlsf_base::memory::{Layout, LayoutError, MemoryError, OpenMemory, Part, Range, RawParts};
pub use rlsf_heap::{Heap, Payload, ThinPayload};
pub use rlsf_local_heap::{Lease, LocalHeap, Tenant};
pub use rlsf_partitions::{Budget, PartitionPayload, Partitions};
pub use rlsf_shared_heap::{
    FreedOnDrop, OwnerHeap, Returns, SharedHeap, SharedHeaps, SharedPayload, ThreadHeap,
};
pub use rlsf_tlsf::{BlockInfo, GRANULARITY};

/// The size classes, and the pool lengths that are computed from them.
pub mod classes {
    pub use rlsf_base::classes::{
        laws, map_ceil, map_ceil_and_unmap, map_floor, max_pool_size, pool_size_for_budget,
        pool_size_for_objects, pool_size_for_payloads, pool_size_to_contain_allocation,
        request_size,
    };
}

/// The integers that serve as bitmaps.
pub mod int {
    pub use rlsf_int::BitPattern;
}
