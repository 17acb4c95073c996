//! The assertions of the tests. An assertion is proved in each function that has one, so these functions have nearly all of them.
use std::process::Abort;

/// Passes if the numbers are the expected ones.
pub(crate) fn are(rt: &impl Abort, answers: &[usize], expected: &[usize]) {
    assert_eq!(rt; answers, expected);
}

/// Passes if a result is true. A number, as the index of a step, helps to find it.
pub(crate) fn passes(rt: &impl Abort, answer: bool, number: usize) {
    assert!(rt; answer, "at {number}");
}

/// Passes if all results are true.
pub(crate) fn all(rt: &impl Abort, answers: &[bool]) {
    for (index, answer) in answers.iter().enumerate() {
        passes(rt, *answer, index);
    }
}

/// Passes if no step has another result than expected.
pub(crate) fn none_is_wrong(rt: &impl Abort, wrong: Option<usize>) {
    if let Some(step) = wrong {
        passes(rt, false, step);
    }
}
