//! Tests of `rlsf` by calls, and of `rlsf_checked`, `rlsf_example_libraries` and `rlsf_example_functions`. This crate has no other code, so
//! that these and the crates below them are proved once.
//!
//! `pools.rt` has steps as tables, which most files use. `allocations.rt`, `frees.rt`, `reallocations.rt`, `appends.rt`,
//! `removals.rt` and `tables.rt` test the calls. `walks.rt` tests the iteration over blocks, and `loans.rt` and `copies.rt` bytes.
//! `sizes.rt` tests computed lengths of pools. `checked.rt`, `collections.rt` and `callers.rt` test the other crates.
#![tactic(auto)]

#[cfg(test)]
mod allocations;
#[cfg(test)]
mod appends;
#[cfg(test)]
mod bytes;
#[cfg(test)]
mod callers;
#[cfg(test)]
mod checked;
#[cfg(test)]
mod collections;
#[cfg(test)]
mod copies;
#[cfg(test)]
mod frees;
#[cfg(test)]
mod loans;
#[cfg(test)]
mod pools;
#[cfg(test)]
mod reallocations;
#[cfg(test)]
mod removals;
#[cfg(test)]
mod sizes;
#[cfg(test)]
mod tables;
#[cfg(test)]
mod walks;
#[cfg(test)]
mod words;
