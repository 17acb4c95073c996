//! How many calls there are of each kind, and how they ended.

use crate::kinds::{KINDS, Kind};
use rlsf_trace_text::{Answer, Op};
use std::alloc::{AllocError, Global};

/// The calls of a kind.
#[derive(Clone, Copy)]
pub(crate) struct Count {
    /// Their kind.
    pub(crate) kind: Kind,
    /// How many there are.
    pub(crate) calls: usize,
    /// How many of them found no room.
    pub(crate) none: usize,
    /// How many of them were refused before any call of the allocator.
    pub(crate) refused: usize,
}

/// The counts of the kinds that occur, in the order of `KINDS`.
pub(crate) fn counts_of(
    alloc: Global,
    ops: &[Op],
    answers: &[Answer],
) -> Result<Vec<Count>, AllocError> {
    let mut counts = Vec::new(alloc);
    for kind in KINDS {
        let count = count_of(kind, ops, answers);
        if count.calls > 0 {
            counts.push(count)?;
        }
    }
    Ok(counts)
}

// The count of a kind.
fn count_of(kind: Kind, ops: &[Op], answers: &[Answer]) -> Count {
    let mut count = Count {
        kind,
        calls: 0,
        none: 0,
        refused: 0,
    };
    for (op, answer) in ops.iter().zip(answers) {
        if Kind::of(*op) == kind {
            count = count.and(Outcome::of(*answer));
        }
    }
    count
}

impl Count {
    // The count with one call more, which ended so.
    fn and(self, outcome: Outcome) -> Count {
        let calls = self.calls.saturating_add(1);
        match outcome {
            Outcome::Done => Count { calls, ..self },
            Outcome::None => Count {
                calls,
                none: self.none.saturating_add(1),
                ..self
            },
            Outcome::Refused => Count {
                calls,
                refused: self.refused.saturating_add(1),
                ..self
            },
        }
    }
}

/// How a call ended.
#[derive(Clone, Copy)]
pub(crate) enum Outcome {
    /// It was done.
    Done,
    /// There was no room, or the range was too short for a pool.
    None,
    /// It was refused before any call of the allocator.
    Refused,
}

impl Outcome {
    /// How the call of an answer ended.
    pub(crate) fn of(answer: Answer) -> Outcome {
        match answer {
            Answer::Inserted(None) | Answer::Placed(None) => Outcome::None,
            Answer::Refused(_) => Outcome::Refused,
            _ => Outcome::Done,
        }
    }
}
