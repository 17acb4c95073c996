//! Strings that grow past one another, are joined and dropped, and each refusal.
//!
//! A memory from the address 4096 on loses 32 bytes to the word behind its last block. A string of up to 16 bytes takes 32 of the
//! others.

use crate::pools::{are, none_is_wrong, passes, zeros};
use crate::words::next;
use rlsf_example_libraries::{StringError, Strings, UnknownHandle};
use std::process::Abort;

/// What strings are asked, and what they must answer.
#[derive(Clone, Copy)]
enum Step {
    /// An empty string is made.
    Create(Result<usize, StringError>),
    /// These bytes are added behind those of the string with this handle.
    Append(usize, &'static [u8], Result<(), StringError>),
    /// A string is made of two.
    Concat(usize, usize, Result<usize, StringError>),
    /// One is dropped.
    Drop(usize, Result<(), UnknownHandle>),
    /// The bytes of one.
    Bytes(usize, Result<&'static [u8], UnknownHandle>),
    /// How many there are.
    Len(usize),
}

/// Whether the strings answer so.
fn is_right(strings: &mut Strings, step: Step) -> bool {
    match step {
        Step::Create(answer) => strings.create() == answer,
        Step::Append(handle, more, answer) => strings.append(handle, more) == answer,
        Step::Concat(left, right, answer) => strings.concat(left, right) == answer,
        Step::Drop(handle, answer) => strings.drop_string(handle) == answer,
        Step::Bytes(handle, answer) => strings.bytes(handle) == answer,
        Step::Len(len) => strings.len() == len,
    }
}

/// The index of the first step on strings with a wrong result.
fn first_wrong(strings: &mut Strings, steps: &[Step]) -> Option<usize> {
    for (index, step) in steps.iter().enumerate() {
        if !is_right(strings, *step) {
            return Some(index);
        }
    }
    None
}

const GROWN_PAST_THEIR_NEIGHBOURS: &[Step] = &[
    Step::Create(Ok(0)),
    Step::Create(Ok(1)),
    Step::Create(Ok(2)),
    Step::Append(2, b"+-", Ok(())),
    Step::Append(0, b"0123456789", Ok(())),
    Step::Append(1, b"abcdefghij", Ok(())),
    Step::Append(0, b"0123456789", Ok(())),
    Step::Append(1, b"abcdefghij", Ok(())),
    Step::Append(0, b"0123456789", Ok(())),
    Step::Append(1, b"abcdefghij", Ok(())),
    Step::Append(0, b"0123456789", Ok(())),
    Step::Append(1, b"abcdefghij", Ok(())),
    Step::Append(0, b"0123456789", Ok(())),
    Step::Append(1, b"abcdefghij", Ok(())),
    Step::Bytes(0, Ok(b"01234567890123456789012345678901234567890123456789")),
    Step::Bytes(1, Ok(b"abcdefghijabcdefghijabcdefghijabcdefghijabcdefghij")),
    Step::Bytes(2, Ok(b"+-")),
    Step::Len(3),
];

const JOINED_WITH_ITSELF: &[Step] = &[
    Step::Create(Ok(0)),
    Step::Append(0, b"ab", Ok(())),
    Step::Concat(0, 0, Ok(1)),
    Step::Concat(1, 0, Ok(2)),
    Step::Bytes(0, Ok(b"ab")),
    Step::Bytes(1, Ok(b"abab")),
    Step::Bytes(2, Ok(b"ababab")),
];

const LEFT_BEFORE_RIGHT: &[Step] = &[
    Step::Create(Ok(0)),
    Step::Create(Ok(1)),
    Step::Append(0, b"left", Ok(())),
    Step::Append(1, b"right", Ok(())),
    Step::Concat(0, 1, Ok(2)),
    Step::Drop(0, Ok(())),
    Step::Bytes(2, Ok(b"leftright")),
    Step::Bytes(1, Ok(b"right")),
];

const WITHOUT_ROOM: &[Step] = &[
    Step::Create(Ok(0)),
    Step::Create(Err(StringError::NoRoom)),
    Step::Append(0, b"0123456789", Ok(())),
    Step::Append(0, b"abcdefg", Err(StringError::NoRoom)),
    Step::Concat(0, 0, Err(StringError::NoRoom)),
    Step::Bytes(0, Ok(b"0123456789")),
    Step::Append(0, b"abcdef", Ok(())),
    Step::Bytes(0, Ok(b"0123456789abcdef")),
    Step::Len(1),
];

const WITH_UNKNOWN_HANDLES: &[Step] = &[
    Step::Create(Ok(0)),
    Step::Drop(0, Ok(())),
    Step::Create(Ok(1)),
    Step::Append(0, b"a", Err(StringError::UnknownHandle)),
    Step::Concat(1, 0, Err(StringError::UnknownHandle)),
    Step::Concat(0, 1, Err(StringError::UnknownHandle)),
    Step::Drop(0, Err(UnknownHandle)),
    Step::Bytes(0, Err(UnknownHandle)),
    Step::Bytes(1, Ok(b"")),
];

/// How many bytes the strings are in, and their steps.
static SCRIPTS: [(usize, &[Step]); 5] = [
    (1024, GROWN_PAST_THEIR_NEIGHBOURS),
    (1024, JOINED_WITH_ITSELF),
    (1024, LEFT_BEFORE_RIGHT),
    (64, WITHOUT_ROOM),
    (1024, WITH_UNKNOWN_HANDLES),
];

/// The index of the first step on strings in so many bytes with a wrong result.
fn wrong_in(rt: &(impl Abort + AllocGlobal), len: usize, steps: &[Step]) -> Option<usize> {
    let mut strings = Strings::new(rt.alloc(), zeros(rt, 4096, len));
    first_wrong(&mut strings, steps)
}

#[test]
fn strings(rt: HostRuntime) {
    for (len, steps) in &SCRIPTS {
        none_is_wrong(&rt, wrong_in(&rt, *len, steps));
    }
}

/// The most strings in the random run, and the most bytes that one of them has.
const MOST: usize = 8;

const LONGEST: usize = 200;

/// The handles of strings, and their lengths.
type Known = [Option<(usize, usize)>; MOST];

/// Makes a string, of two times the bytes of another one if that has few enough. Returns its handle and its length.
fn made(strings: &mut Strings, other: Option<(usize, usize)>) -> Option<(usize, usize)> {
    match other {
        Some((handle, len)) if len <= LONGEST / 2 => {
            let joined = strings.concat(handle, handle).ok()?;
            Some((joined, 2 * len))
        }
        _ => Some((strings.create().ok()?, 0)),
    }
}

/// What is added to strings, up to 63 bytes of it at once.
static ADDED: [u8; 64] = [7; 64];

/// Adds bytes to a string, or drops it where it would grow past the longest. Returns its handle and its length if it is still there,
/// and whether that was granted.
fn changed(
    strings: &mut Strings,
    handle: usize,
    len: usize,
    more: &[u8],
) -> (Option<(usize, usize)>, bool) {
    let len = len.saturating_add(more.len());
    if len <= LONGEST {
        (Some((handle, len)), strings.append(handle, more).is_ok())
    } else {
        (None, strings.drop_string(handle).is_ok())
    }
}

/// One step that a word chooses: a string is made if there is none in its place, and else grows or is dropped. Returns whether it
/// was granted.
fn random_step(strings: &mut Strings, known: &mut Known, word: u64) -> bool {
    let [place, other, len, ..] = word.to_be_bytes();
    let place = place as usize % MOST;
    let (string, is_granted) = match known[place] {
        None => {
            let string = made(strings, known[other as usize % MOST]);
            (string, string.is_some())
        }
        Some((handle, had)) => changed(strings, handle, had, &ADDED[..len as usize % 64]),
    };
    known[place] = string;
    is_granted
}

#[test]
fn many_steps_within_a_budget(rt: HostRuntime) {
    // A string of 200 bytes needs a block of 224. With eight of them live before each call, the pool needs 256 bytes, and eight
    // times 224 and 192 more.
    let mut strings = Strings::new(rt.alloc(), zeros(&rt, 4096, 3584));
    let mut known = [None; MOST];
    let mut most = 0;
    let mut word = 0x9e3779b97f4a7c15;
    for index in 0..10_000 {
        word = next(word);
        passes(&rt, random_step(&mut strings, &mut known, word), index);
        most = strings.len().max(most);
    }
    are(&rt, &[most], &[MOST]);
}
