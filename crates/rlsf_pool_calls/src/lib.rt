//! The calls of the allocator for C whose addresses are numbers, on a pool or on a space, which `rlsf_pool` exports. Every call accepts any
//! numbers, and returns an error for wrong ones.
//!
//! Read `specs/Seen` (a pool as contracts see it) and `specs/Calls` first, then `pool.rt`, which has the two kinds of pools, and `calls.rt`,
//! which has the calls of one kind. `lengths.rt` computes lengths of pools, `walks.rt` describes blocks by numbers, and `answers.rt` has the
//! returned values. `space.rt` has the calls of a space, with definitions in `specs/Spaces`.
#![tactic(auto)]

pub mod answers;
mod calls;
pub mod lengths;
pub mod pool;
pub mod space;
mod walks;
