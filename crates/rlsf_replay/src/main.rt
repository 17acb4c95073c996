//! Replays a trace of allocator calls: reads it from standard input, and writes the answers to standard output.
//!
//! The work is done by `replay` of `rlsf_trace_runs`, on the input as it was read.
#![tactic(auto)]

use rlsf_trace_runs::{ReplayFault, bad_word_of, read_input, replay, status};
use std::process::ExitCode;

fn main(rt: HostRuntime) -> ExitCode {
    let input = match read_input(rt.alloc(), &mut rt.stdin()) {
        Ok(input) => input,
        Err(fault) => return ended(&rt, &[], Err(fault.at_line(0))),
    };
    let outcome = replay(rt.alloc(), &mut input.as_slice(), &mut rt.stdout());
    ended(&rt, &input, outcome)
}

/// Prints a fault and, after `BadNumber`, the word that isn't such a number. Returns the status.
fn ended(
    rt: &(impl Eprint + AllocGlobal),
    input: &[u8],
    outcome: Result<(), ReplayFault>,
) -> ExitCode {
    if let Err(fault) = &outcome {
        // If standard error fails too, only the status shows the fault.
        let _ = eprintln!(rt; "{fault}");
        if let Some(word) = bad_word_of(rt.alloc(), input, *fault) {
            let _ = eprintln!(rt; "the word is {word:?}");
        }
    }
    ExitCode::from(status(&outcome))
}
