//! The calls that were refused before any call of the allocator.

use crate::kinds::Kind;
use rlsf_trace_text::{Answer, Op, TraceError};
use std::alloc::{AllocError, Global};

/// How many of them are listed at most.
const MOST_LISTED: usize = 12;

/// A refused call.
#[derive(Clone, Copy)]
pub(crate) struct Refusal {
    /// The number of its line.
    pub(crate) line: u128,
    /// Its kind.
    pub(crate) kind: Kind,
    /// Why it was refused.
    pub(crate) error: TraceError,
}

/// The first refused calls, in their order.
pub(crate) fn refusals_of(
    alloc: Global,
    ops: &[Op],
    answers: &[Answer],
) -> Result<Vec<Refusal>, AllocError> {
    let mut refusals = Vec::new(alloc);
    for index in 0..ops.len() {
        if let Some(refusal) = refusal_of(ops, answers, index) {
            refusals.push(refusal)?;
            if refusals.len() >= MOST_LISTED {
                return Ok(refusals);
            }
        }
    }
    Ok(refusals)
}

// The refusal of the call of an index, if it was refused.
fn refusal_of(ops: &[Op], answers: &[Answer], index: usize) -> Option<Refusal> {
    match (*ops.get(index)?, *answers.get(index)?) {
        (op, Answer::Refused(error)) => Some(Refusal {
            // Line 1 names the configuration and the memory.
            line: index as u128 + 2,
            kind: Kind::of(op),
            error,
        }),
        _ => None,
    }
}

/// Prints a line for each refusal, with the number and the word that `rlsf_replay` prints for it.
pub(crate) fn print_refusals(text: &mut String, refusals: &[Refusal]) -> Result<(), AllocError> {
    if refusals.is_empty() {
        return Ok(());
    }
    text.push('\n')?;
    for refusal in refusals {
        let Refusal { line, kind, error } = *refusal;
        let number = error.number();
        writeln!(text, "line {line}: {kind} refused {number} {error}")?;
    }
    Ok(())
}
