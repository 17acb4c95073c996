//! Heaps for threads, whose payloads own their bytes: one behind a lock, and one of a thread that never waits.
//!
//! In reading order: `shared.rt` (`SharedHeap` and its contracts), and in its folder `payload.rt` (payloads that know their heap),
//! `calls.rt` (the calls of `Heap` that it makes, first on the heap and then through the lock), `held.rt` (a heap with a name for its
//! identity), `lock.rt` (the lock, which is known by that identity) and `heaps.rt` (a `SharedHeap` for each thread). Then `owner.rt`
//! (`OwnerHeap`, whose thread never waits), `returns.rt` (the payloads that other threads returned to it) and `heap_identity.rt` (of which
//! heap they are). Only `lock.rt` and `heap_identity.rt` have manual proofs.
//!
//! To read the contract of a call, open these files of `specs/`, of `rlsf_heap/specs/`, and of the model (`rlsf_model/specs/`). The other
//! calls say all themselves:
//!
//! - `reallocate` of a `SharedHeap` and of a `SharedPayload`: `SharedReallocation`
//! - `as_mut_slice` of a `SharedPayload`: `SharedLends`
//! - `allocate`, `allocate_lent` of an `OwnerHeap`: `Owners`; tlsf `Bounds`
//! - `deallocate`, `take_back` of an `OwnerHeap`: heap `Replies`, `Frame`; model `Release`
//! - `reallocate` of an `OwnerHeap`: `Owners`; heap `Replies`, `Frame`; model `Reallocate`
//! - `collect` of an `OwnerHeap`: `Owners`
#![tactic(auto)]

mod shared;

pub use shared::{
    FreedOnDrop, OwnerHeap, Returns, SharedHeap, SharedHeaps, SharedPayload, ThreadHeap,
};
