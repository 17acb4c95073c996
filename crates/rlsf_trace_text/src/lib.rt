//! The text of allocator traces: a trace is read from text, and its answers are printed.
//!
//! Read `op.rt` first: the ops, their answers and the refusals. `configuration.rt` and `fault.rt` have the first line and the faults.
//! `parse.rt` reads a trace by `reading.rt`, `lines.rt`, `words.rt`, `cut.rt` and `number.rt`. `printing.rt` prints the answers.
#![tactic(auto)]

mod configuration;
mod cut;
mod fault;
mod lines;
mod number;
mod op;
mod parse;
mod printing;
mod reading;
mod words;

pub use configuration::Configuration;
pub use fault::{Fault, ReplayFault, status};
pub use op::{Answer, Op, TraceError};
pub use parse::Trace;
pub use printing::{print_line, text_of};
