//! A trace is read, run with a `Tlsf` and printed, or run and recorded.
//!
//! Read `runs.rt` first: `run` and its step, whose contract is the headline of the documents. `payloads.rt` and `walks.rt` have the
//! ops on a payload and on blocks. `names.rt` and `tables.rt` have the names and the pools of a run. `Tables` and `step` are public
//! for the crates above, which inspect the allocator between two ops.
//!
//! `replays.rt` has the programs' part: `replay` reads (`input.rt`), runs and prints (`prints.rt`), and writes (`output.rt`). The run has
//! only the part of the memory that the ops name (`parts.rt`). `bad_word.rt` finds the word of a fault. The definitions of its faults and its output are in `specs/Replays.antt`
//! and `specs/Output.antt`.
//!
//! `traces.rt` makes the allocator of a trace and calls `watch` in `watched.rt`, which records a moment after each op (`moments.rt`) and
//! all blocks at the end (`blocks.rt`). A moment is what the allocator holds: how many payloads, with how many usable bytes. The
//! definitions are in `specs/Moments.antt`.
#![tactic(auto)]

mod bad_word;
mod blocks;
mod input;
mod moments;
mod names;
mod output;
mod parts;
mod payloads;
mod pools;
mod prints;
mod replays;
mod runs;
mod tables;
mod traces;
mod walks;
mod watched;

pub use bad_word::bad_word_of;
pub use input::read_input;
pub use moments::Moment;
pub use names::Payload;
pub use output::write_text;
pub use pools::Pools;
pub use replays::replay;
pub use rlsf_blocks::BlockInfo;
pub use rlsf_trace_text::{
    Answer, Configuration, Fault, Op, ReplayFault, Trace, TraceError, status, text_of,
};
pub use runs::{RunError, run, step};
pub use tables::Tables;
pub use traces::{watch_ops, watch_trace};
pub use watched::{Watched, watch};
