//! The word of a text that isn't the number that it has to be.

use rlsf_trace_text::{Fault, ReplayFault};
use std::alloc::Global;

/// The word that a fault `BadNumber` of a text is about, for a message. `None` for any other fault, if the word isn't UTF-8, or if the system is
/// out of memory. No clause says that it is this word.
pub fn bad_word_of(alloc: Global, input: &[u8], fault: ReplayFault) -> Option<String> {
    if fault.fault != Fault::BadNumber {
        return None;
    }
    let line = input
        .split(|byte| *byte == b'\n')
        .nth(fault.line.checked_sub(1)?)?;
    let word = bad_word_in(line)?;
    String::from_utf8(word.to_vec(alloc).ok()?).ok()
}

// The first word behind that of the command that isn't a number, or the last word, which is a BYTE then.
fn bad_word_in(line: &[u8]) -> Option<&[u8]> {
    let mut last = None;
    for word in line.split(|byte| *byte == b' ').skip(1) {
        last = Some(word);
        if !is_number(word) {
            return last;
        }
    }
    last
}

// Whether a word is one to twenty digits with a value of at most 2^64 - 1.
fn is_number(word: &[u8]) -> bool {
    if !matches!(word.len(), 1..=20) {
        return false;
    }
    let mut value: u128 = 0;
    for byte in word {
        if !byte.is_ascii_digit() {
            return false;
        }
        value = value
            .wrapping_mul(10)
            .wrapping_add(u128::from(byte.wrapping_sub(b'0')));
    }
    value <= u128::from(u64::MAX)
}
