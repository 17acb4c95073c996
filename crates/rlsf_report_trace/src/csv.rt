//! A line for each call.

use crate::counts::Outcome;
use crate::kinds::Kind;
use rlsf_trace_runs::{Moment, Watched};
use rlsf_trace_text::{Answer, Op};
use std::alloc::{AllocError, Global};

/// A line for each call, after a line of names. It has the number of its line in the trace, its command, and how it ended. Then it
/// has the number of payloads that are live after it, and of their usable bytes.
pub(crate) fn csv_of(alloc: Global, ops: &[Op], watched: &Watched) -> Result<String, AllocError> {
    let mut text = String::new(alloc);
    text.push_str("line,call,outcome,live,usable\n")?;
    print_calls(&mut text, ops, watched)?;
    Ok(text)
}

fn print_calls(text: &mut String, ops: &[Op], watched: &Watched) -> Result<(), AllocError> {
    for index in 0..ops.len() {
        if let Some(call) = call_at(ops, watched, index) {
            print_call(text, call)?;
        }
    }
    Ok(())
}

// A call of the trace.
#[derive(Clone, Copy)]
struct Call {
    index: usize,
    op: Op,
    answer: Answer,
    // What the allocator held after it.
    moment: Moment,
}

// The call of an index, where the trace has one.
fn call_at(ops: &[Op], watched: &Watched, index: usize) -> Option<Call> {
    Some(Call {
        index,
        op: *ops.get(index)?,
        answer: *watched.answers.get(index)?,
        moment: *watched.moments.get(index)?,
    })
}

fn print_call(text: &mut String, call: Call) -> Result<(), AllocError> {
    // Line 1 names the configuration and the memory.
    let line = call.index as u128 + 2;
    let kind = Kind::of(call.op);
    let outcome = match Outcome::of(call.answer) {
        Outcome::Done => "done",
        Outcome::None => "none",
        Outcome::Refused => "refused",
    };
    let Moment { live, usable } = call.moment;
    writeln!(text, "{line},{kind},{outcome},{live},{usable}")
}
