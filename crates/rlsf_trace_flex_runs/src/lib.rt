//! Runs of a trace with a `FlexTlsf`, an allocator over a source; and a source for such runs, which takes its answers from a list.
//!
//! Read `runs.rt` first: `run_flex` and its step, whose contract is the headline of `docs/PROOF.md`. `payloads.rt` has the ops on
//! a named payload. The definitions are in `specs/FlexRuns.antt` and `specs/FlexEvents.antt`; `specs/Whole.antt` joins them.
//!
//! `listed.rt` has the source: a `ListedSource` also remembers its questions, so that tests can compare them. `ranges.rt` has the test
//! whether it may provide a range. The definitions are in `specs/Listed.antt`.
#![tactic(auto)]

mod listed;
mod payloads;
mod ranges;
mod runs;

pub use listed::{Capabilities, ListedSource, Question, SourceAnswer};
pub use runs::run_flex;
