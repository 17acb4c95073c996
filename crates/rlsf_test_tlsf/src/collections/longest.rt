//! Queues that were made with a longest message: how much memory they need, what they refuse, and that they have room for
//! everything else.
//!
//! A message of `len` bytes needs a block of S bytes: `len + 16`, rounded up to a multiple of 32. Let m be the least size whose
//! class reaches S. A queue for `n + 1` messages needs `(m + 32) + n * (S + m - 32)` bytes. Up to 512 bytes m is S. From 1024 to
//! 2048 bytes it is S rounded up to a multiple of 128.

use super::queues::{Pair, Step, first_wrong, wrong_random_step};
use crate::pools::{all, none_is_wrong, passes, zeros};
use rlsf_example_libraries::{LongestError, Messages, PushError};
use std::process::Abort;

/// The start and the length of a memory, how many messages a queue over it can hold, how long they may be, and whether it exists.
static MEMORIES: [(usize, usize, usize, usize, bool); 17] = [
    // Three messages in blocks of 128 bytes: 160, and two times 224.
    (4096, 607, 3, 100, false),
    (4096, 608, 3, 100, true),
    (4096, 608, 3, 112, true),
    // The pool begins at the next multiple of 32.
    (4097, 638, 3, 100, false),
    (4097, 639, 3, 100, true),
    // In blocks of 160 bytes: 192, and two times 288.
    (4096, 767, 3, 113, false),
    (4096, 768, 3, 113, true),
    // One message in a block of 128 bytes, and none.
    (4096, 159, 1, 100, false),
    (4096, 160, 1, 100, true),
    (4096, 159, 0, 100, false),
    (4096, 160, 0, 100, true),
    // One in a block of 32 bytes.
    (4096, 63, 1, 0, false),
    (4096, 64, 1, 0, true),
    // The longest message of all, one that no payload has, and more messages than a number of 64 bits has bytes for.
    (4096, 4096, 1, (1 << 63) - 1, false),
    (4096, 4096, 1, 1 << 63, false),
    (4096, 4096, 1, usize::MAX, false),
    (4096, 4096, usize::MAX, 0, false),
];

#[test]
fn memories(rt: HostRuntime) {
    for (start, len, capacity, longest, is_made) in &MEMORIES {
        let memory = zeros(&rt, *start, *len);
        let error = Messages::with_longest(rt.alloc(), memory, *capacity, *longest).err();
        let expected = if *is_made {
            None
        } else {
            Some(LongestError::MemoryTooShort)
        };
        passes(&rt, error == expected, *len);
    }
}

/// An empty queue over so many bytes from the address 4096 on, for so many messages, which may be so long.
fn with_longest(
    rt: &(impl Abort + AllocGlobal),
    len: usize,
    capacity: usize,
    longest: usize,
) -> Messages {
    let memory = zeros(rt, 4096, len);
    Messages::with_longest(rt.alloc(), memory, capacity, longest).expect(rt, "a queue")
}

const NO_CAPACITY: &[Step] = &[
    Step::Capacity(0),
    Step::Push(&[1; 100], Err(PushError::Full)),
    Step::Push(&[1; 101], Err(PushError::Full)),
];

// A queue that is full says so also of a message that is too long.
const LONGEST_MESSAGES: &[Step] = &[
    Step::Push(&[1; 81], Err(PushError::TooLong)),
    Step::Push(&[1; 80], Ok(())),
    Step::Push(&[2; 80], Ok(())),
    Step::Push(&[3; 81], Err(PushError::TooLong)),
    Step::Push(&[3; 80], Ok(())),
    Step::Push(&[4; 81], Err(PushError::Full)),
    Step::Push(&[4; 80], Err(PushError::Full)),
    Step::Push(&[], Err(PushError::Full)),
    Step::Len(3, Some(80)),
    Step::Pop(80, Ok(&[1; 80])),
    Step::Push(&[4], Ok(())),
    Step::Pop(80, Ok(&[2; 80])),
    Step::Push(&[5; 80], Ok(())),
    Step::Pop(80, Ok(&[3; 80])),
    Step::Push(&[6; 80], Ok(())),
    Step::Pop(80, Ok(&[4])),
    Step::Push(&[7; 80], Ok(())),
    Step::Push(&[], Err(PushError::Full)),
    Step::Pop(80, Ok(&[5; 80])),
    Step::Pop(80, Ok(&[6; 80])),
    Step::Pop(80, Ok(&[7; 80])),
    Step::Capacity(3),
];

/// How many bytes the queue is over, how many messages it can hold and how long they may be, and its steps.
static SCRIPTS: [(usize, usize, usize, &[Step]); 2] = [
    (160, 0, 100, NO_CAPACITY),
    // Three messages in blocks of 96 bytes: 128, and two times 160.
    (448, 3, 80, LONGEST_MESSAGES),
];

#[test]
fn queues(rt: HostRuntime) {
    for (len, capacity, longest, steps) in &SCRIPTS {
        let mut queue = with_longest(&rt, *len, *capacity, *longest);
        none_is_wrong(&rt, first_wrong(&mut queue, steps));
    }
}

#[test]
fn many_steps_that_find_room(rt: HostRuntime) {
    // 24 messages in blocks of 1056 bytes, each found in a class from 1152 bytes on: 1184, and 23 times 2176.
    let mut pair = Pair::new(rt.alloc(), with_longest(&rt, 51232, 24, 1023));
    none_is_wrong(&rt, wrong_random_step(&rt, &mut pair, 5_000));
    let fewest = pair.full.min(pair.too_short).min(pair.empty);
    all(&rt, &[fewest > 0, pair.no_room == 0]);
}
