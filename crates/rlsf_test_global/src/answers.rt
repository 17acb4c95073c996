//! The assertions of the tests, and the memory that they begin with. An assertion is proved in each function that has one, so these
//! functions have nearly all of them.

use rlsf_base::memory::Memory;
use std::alloc::Global;
use std::process::Abort;

/// A memory of so many bytes from 65536 on.
pub fn memory(rt: &impl Abort, alloc: Global, len: usize) -> Memory {
    Memory::new(alloc, 65536, len).expect(rt, "a memory")
}

/// Passes if a result is true. A number, as its index, helps to find it.
pub fn passes(rt: &impl Abort, answer: bool, number: usize) {
    assert!(rt; answer, "at {number}");
}

/// Passes if all results are true.
pub fn all(rt: &impl Abort, answers: &[bool]) {
    for (index, answer) in answers.iter().enumerate() {
        passes(rt, *answer, index);
    }
}
