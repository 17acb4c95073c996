//! Tests of `rlsf_int`, `rlsf_base`, `rlsf_codes` and the check of a pool. This crate has no other code, so that these are proved once.
//!
//! `integers.rt` tests bitmaps, `classes.rt` size classes, and `pools.rt` computed lengths of pools. `layouts.rt` tests layouts,
//! `ranges.rt` ranges, `memory.rt` and `open_memory.rt` memories, and `codes.rt` codes. `consistency.rt` tests the check of a pool.
//! `answers.rt` has results that several tests compare.
#![tactic(auto)]

#[cfg(test)]
mod answers;
#[cfg(test)]
mod classes;
#[cfg(test)]
mod codes;
#[cfg(test)]
mod consistency;
#[cfg(test)]
mod integers;
#[cfg(test)]
mod layouts;
#[cfg(test)]
mod memory;
#[cfg(test)]
mod open_memory;
#[cfg(test)]
mod pools;
#[cfg(test)]
mod ranges;
