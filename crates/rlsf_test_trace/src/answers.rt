//! The assertions of the tests. An assertion is proved in each function that has one, so these functions have nearly all of them.

use std::process::Abort;

/// Passes if a result is true. A number, as its index, helps to find it.
pub fn passes(rt: &impl Abort, answer: bool, number: usize) {
    assert!(rt; answer, "at {number}");
}

/// Passes if all results are true.
pub fn all(rt: &impl Abort, answers: &[bool]) {
    for (index, answer) in answers.iter().enumerate() {
        passes(rt, *answer, index);
    }
}
