//! What the tests pass on.

use std::process::Abort;

/// Passes if the answer is true. A number of the case, as its index or its length, helps to find it.
pub(crate) fn passes(rt: &impl Abort, answer: bool, case: usize) {
    assert!(rt; answer, "the case of {case}");
}

/// Passes if all are true.
pub(crate) fn all(rt: &impl Abort, answers: &[bool]) {
    for (index, answer) in answers.iter().enumerate() {
        passes(rt, *answer, index);
    }
}
