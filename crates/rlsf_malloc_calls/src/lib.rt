//! The calls of the allocator for C, in place, on a heap of any kind: over numbers and payloads, which `rlsf_malloc` exports for four kinds. A
//! payload is its caller's: a call owns no byte of the payloads that are out.
//!
//! Read `specs/Calls` first, then `calls.rt`, `resizing.rt` and `pools.rt`, whose results are in `replies.rt`. `lengths.rt` has lengths of pools.
#![tactic(auto)]

pub mod calls;
pub mod lengths;
pub mod pools;
pub mod replies;
pub mod resizing;
