//! Tests of `rlsf_trace_text`, `rlsf_trace_runs` and `rlsf_trace_runs`. This crate has no other code, so that these three are proved
//! once.
//!
//! `answers.rt` has the assertions. `reading.rt` and `printing.rt` test the text of a trace, `runs.rt` runs of ops, and `replays.rt` replays.
#![tactic(auto)]

#[cfg(test)]
mod answers;
#[cfg(test)]
mod printing;
#[cfg(test)]
mod reading;
#[cfg(test)]
mod replays;
#[cfg(test)]
mod runs;
