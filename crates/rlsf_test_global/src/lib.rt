//! Tests of `rlsf_global`. This crate has no other code.
//!
//! `answers.rt` has the assertions. `steps.rt` has calls as tables, and `runs.rt` runs them on a new allocator, which `locked.rt` and
//! `shared.rt` make. `growth.rt` and `alignments.rt` have more of them through the lock. `blocks.rt`, `pages.rt` and `payloads.rt` test
//! the layout, the source and the bytes, and `live_table.rt` the table. `originals.rt` has the original's random tests, with their
//! tables below. `threads.rt` and `at_once.rt` have threads, `drops.rt` the ends of allocators, and `journal.rt` the tests of journals.
#![tactic(auto)]

#[cfg(test)]
mod alignments;
#[cfg(test)]
mod answers;
#[cfg(test)]
mod at_once;
#[cfg(test)]
mod blocks;
#[cfg(test)]
mod drops;
#[cfg(test)]
mod growth;
#[cfg(test)]
mod journal;
#[cfg(test)]
mod live_table;
#[cfg(test)]
mod locked;
#[cfg(test)]
mod originals;
#[cfg(test)]
mod pages;
#[cfg(test)]
mod payloads;
#[cfg(test)]
mod runs;
#[cfg(test)]
mod shared;
#[cfg(test)]
mod steps;
#[cfg(test)]
mod threads;
