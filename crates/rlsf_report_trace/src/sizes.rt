//! What was asked for.

use rlsf_trace_text::{Answer, Op};
use std::alloc::{AllocError, Global};
use std::collections::HashMap;

/// How many bytes were asked for by the payloads that are live at the end, together.
pub(crate) fn asked_bytes(
    alloc: Global,
    ops: &[Op],
    answers: &[Answer],
) -> Result<u128, AllocError> {
    let mut sizes = HashMap::new(alloc);
    for (op, answer) in ops.iter().zip(answers) {
        match (*op, *answer) {
            (Op::Alloc(name, layout), Answer::Placed(Some(_))) => {
                sizes.insert(name, layout.size())?;
            }
            (Op::Realloc(name, size) | Op::ReallocNoMove(name, size), Answer::Placed(Some(_))) => {
                sizes.insert(name, size)?;
            }
            (Op::Free(name) | Op::FreeUnknown(name), Answer::Done) => {
                sizes.remove(&name);
            }
            _ => (),
        }
    }
    Ok(
        sizes
            .values()
            .fold(0, |sum: u128, size| sum.saturating_add(*size as u128)),
    )
}
