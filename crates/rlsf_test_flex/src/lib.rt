//! Tests of `rlsf_flex` and `rlsf_trace_flex_runs`. This crate has no other code.
//!
//! `originals.rt` has the original's tests, with their tables below. `growths.rt`, `trims.rt` and `ends.rt` test the life of
//! ranges, and `drops.rt` that of the memory. `refusals.rt`, `questions.rt` and `capabilities.rt` test what sources are asked.
//! `loans.rt`, `zeroed.rt`, `calls.rt` and `runs.rt` test calls. `cursor.rt`, `heap_source.rt`, `heaps.rt`
//! and `bumps.rt` have sources and tests over them, and `sources.rt` makes sources that answer from a list.
#![tactic(auto)]

#[cfg(test)]
mod bumps;
#[cfg(test)]
mod calls;
#[cfg(test)]
mod capabilities;
#[cfg(test)]
mod cursor;
#[cfg(test)]
mod drops;
#[cfg(test)]
mod ends;
#[cfg(test)]
mod growths;
#[cfg(test)]
mod heap_source;
#[cfg(test)]
mod heaps;
#[cfg(test)]
mod loans;
#[cfg(test)]
mod originals;
#[cfg(test)]
mod questions;
#[cfg(test)]
mod refusals;
#[cfg(test)]
mod runs;
#[cfg(test)]
mod sources;
#[cfg(test)]
mod trims;
#[cfg(test)]
mod zeroed;
