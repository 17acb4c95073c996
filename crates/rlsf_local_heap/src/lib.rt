//! Heaps as the allocators of one thread's collections.
//!
//! A `LocalHeap` (`local.rt`) keeps a heap (`unit_heap.rt`) in a cell (`slot.rt`), and collections hold a `&LocalHeap`. A block that
//! gets another size (`buffer.rt`) stays at its address where it can. A `Tenant` (`tenant.rt`) has a `LocalHeap` over a range of
//! another heap's memory: a payload whose units are a memory of their own (`lease.rt`). Blocks are found again by their pointers
//! alone, so that no table of them is kept.
#![tactic(auto)]

mod buffer;
mod lease;
mod local;
mod slot;
mod tenant;
mod unit_heap;

pub use lease::Lease;
pub use local::LocalHeap;
pub use tenant::Tenant;
