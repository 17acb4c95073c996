//! Queues of messages: by values that are typed out, and in many steps beside a `VecDeque` of the standard library.

use crate::bytes::is_all;
use crate::pools::{all, none_is_wrong, zeros};
use crate::words::next;
use rlsf_example_libraries::{Messages, PopError, PushError};
use std::alloc::Global;
use std::collections::VecDeque;
use std::process::Abort;

/// An empty queue over so many bytes from the address 4096 on.
fn empty(rt: &(impl Abort + AllocGlobal), len: usize, capacity: usize) -> Messages {
    Messages::new(rt.alloc(), zeros(rt, 4096, len), capacity).expect(rt, "a queue")
}

/// What a queue is asked, and what it must answer.
#[derive(Clone, Copy)]
pub(crate) enum Step {
    /// A push of these bytes.
    Push(&'static [u8], Result<(), PushError>),
    /// A pop into so many bytes, and the message.
    Pop(usize, Result<&'static [u8], PopError>),
    /// How many messages there are, and the oldest one's length.
    Len(usize, Option<usize>),
    /// How many it can hold.
    Capacity(usize),
}

/// Whether the bytes begin with the message, and those behind it are all `rest`.
fn begins_with(bytes: &[u8], message: &[u8], rest: u8) -> bool {
    match bytes.split_at_checked(message.len()) {
        Some((front, behind)) => front == message && is_all(behind, rest),
        None => false,
    }
}

/// Whether a pop into bytes that are all 7 gives the message and leaves the bytes behind it, or is refused and leaves all.
fn pops(queue: &mut Messages, into: &mut [u8], expected: Result<&[u8], PopError>) -> bool {
    into.fill(7);
    let message = expected.unwrap_or(&[]);
    queue.pop(into) == expected.map(<[u8]>::len) && begins_with(into, message, 7)
}

/// Whether the queue answers so.
fn is_right(queue: &mut Messages, step: Step) -> bool {
    match step {
        Step::Push(message, answer) => queue.push(message) == answer,
        Step::Pop(len, answer) => pops(queue, &mut [0; 80][..len.min(80)], answer),
        Step::Len(len, front) => {
            queue.len() == len && queue.is_empty() == (len == 0) && queue.front_len() == front
        }
        Step::Capacity(capacity) => queue.capacity() == capacity,
    }
}

/// The index of the first step on a queue with a wrong result.
pub(crate) fn first_wrong(queue: &mut Messages, steps: &[Step]) -> Option<usize> {
    for (index, step) in steps.iter().enumerate() {
        if !is_right(queue, *step) {
            return Some(index);
        }
    }
    None
}

const FULL_QUEUE: &[Step] = &[
    Step::Push(b"one", Ok(())),
    Step::Push(b"three", Ok(())),
    Step::Push(b"x", Err(PushError::Full)),
    Step::Pop(5, Ok(b"one")),
    Step::Push(b"x", Ok(())),
    Step::Len(2, Some(5)),
    Step::Pop(5, Ok(b"three")),
    Step::Pop(5, Ok(b"x")),
    Step::Pop(5, Err(PopError::Empty)),
    Step::Capacity(2),
];

/// The pool is one chunk of 128 bytes. Its last 32 end it, and a message of up to 16 bytes takes 32 of the others.
const FULL_POOL: &[Step] = &[
    Step::Push(&[1; 16], Ok(())),
    Step::Push(&[2], Ok(())),
    Step::Push(&[3], Ok(())),
    Step::Push(&[4], Err(PushError::NoRoom)),
    Step::Pop(80, Ok(&[1; 16])),
    Step::Push(&[4], Ok(())),
    Step::Pop(80, Ok(&[2])),
    Step::Pop(80, Ok(&[3])),
    Step::Pop(80, Ok(&[4])),
    // The longest message that this pool has room for, and one that is longer.
    Step::Push(&[5; 81], Err(PushError::NoRoom)),
    Step::Push(&[5; 80], Ok(())),
    Step::Pop(80, Ok(&[5; 80])),
];

const SHORT_SLICES: &[Step] = &[
    Step::Len(0, None),
    Step::Push(&[1, 2, 3], Ok(())),
    Step::Push(&[], Ok(())),
    Step::Len(2, Some(3)),
    Step::Pop(2, Err(PopError::TooShort)),
    Step::Len(2, Some(3)),
    Step::Pop(3, Ok(&[1, 2, 3])),
    Step::Len(1, Some(0)),
    Step::Pop(0, Ok(&[])),
    Step::Len(0, None),
];

const NO_CAPACITY: &[Step] = &[Step::Push(&[], Err(PushError::Full))];

const NO_POOL: &[Step] = &[Step::Push(&[], Err(PushError::NoRoom))];

/// How many bytes the queue is over, how many messages it can hold, and its steps.
static SCRIPTS: [(usize, usize, &[Step]); 5] = [
    (1024, 2, FULL_QUEUE),
    (128, 8, FULL_POOL),
    (1024, 3, SHORT_SLICES),
    (1024, 0, NO_CAPACITY),
    (63, 1, NO_POOL),
];

#[test]
fn queues(rt: HostRuntime) {
    for (len, capacity, steps) in &SCRIPTS {
        none_is_wrong(&rt, first_wrong(&mut empty(&rt, *len, *capacity), steps));
    }
}

/// Writes a message, whose bytes the words from this one on give.
fn write_message(message: &mut [u8], word: u64) {
    let mut word = word;
    for place in 0..message.len() {
        word = next(word);
        let [byte, ..] = word.to_be_bytes();
        message[place] = byte;
    }
}

/// Whether the bytes are the message that these words give.
fn is_message(bytes: &[u8], word: u64) -> bool {
    let mut word = word;
    for byte in bytes {
        word = next(word);
        let [wanted, ..] = word.to_be_bytes();
        if *byte != wanted {
            return false;
        }
    }
    true
}

/// A queue, the messages that must be in it, each as the word that determines it and its length, and how often each refusal came.
#[derive(Drop)]
pub(crate) struct Pair {
    queue: Messages,
    expected: VecDeque<(u64, usize)>,
    pub(crate) full: u32,
    pub(crate) no_room: u32,
    pub(crate) too_short: u32,
    pub(crate) empty: u32,
}

impl Pair {
    /// A queue without a message.
    pub(crate) fn new(alloc: Global, queue: Messages) -> Pair {
        Pair {
            queue,
            expected: VecDeque::new(alloc),
            full: 0,
            no_room: 0,
            too_short: 0,
            empty: 0,
        }
    }

    /// Pushes a message that a word determines to both, and returns whether the result is right. It is `Full` exactly if there are
    /// as many as the queue can hold, and `NoRoom` only while it has a message.
    fn push(&mut self, rt: &impl Abort, message: &[u8], word: u64) -> bool {
        let is_full = self.expected.len() == self.queue.capacity();
        match self.queue.push(message) {
            Ok(()) => {
                let pushed = self.expected.push_back((word, message.len()));
                pushed.expect(rt, "memory");
                !is_full
            }
            Err(PushError::Full) => {
                self.full = self.full.wrapping_add(1);
                is_full
            }
            Err(PushError::NoRoom) => {
                self.no_room = self.no_room.wrapping_add(1);
                !is_full && !self.expected.is_empty()
            }
            // The queues here take messages of all lengths that are drawn.
            Err(PushError::TooLong) => false,
        }
    }

    /// The length of the oldest message that must be in the queue.
    fn front_len(&self) -> Option<usize> {
        match self.expected.front() {
            Some((_, len)) => Some(*len),
            None => None,
        }
    }

    /// Whether both have as many messages, and the oldest ones are as long.
    fn is_same_len(&self) -> bool {
        self.queue.len() == self.expected.len() && self.queue.front_len() == self.front_len()
    }

    /// Takes the oldest message that must be in the queue. Returns whether it has this length and is in front of bytes that are all
    /// `rest`.
    fn takes(&mut self, bytes: &[u8], len: usize, rest: u8) -> bool {
        let Some((word, expected_len)) = self.expected.pop_front() else {
            return false;
        };
        match bytes.split_at_checked(expected_len) {
            Some((front, behind)) => len == expected_len
                && is_message(front, word)
                && is_all(behind, rest),
            None => false,
        }
    }

    /// Pops from both, and returns whether the result is right, with the message in front of bytes that are all `rest`.
    fn pop(&mut self, into: &mut [u8], rest: u8) -> bool {
        into.fill(rest);
        let expected_len = self.front_len();
        match (self.queue.pop(into), expected_len) {
            (Err(PopError::Empty), None) => {
                self.empty = self.empty.wrapping_add(1);
                is_all(into, rest)
            }
            (Err(PopError::TooShort), Some(len)) => {
                self.too_short = self.too_short.wrapping_add(1);
                into.len() < len && is_all(into, rest)
            }
            (Ok(len), Some(_)) => self.takes(into, len, rest),
            _ => false,
        }
    }
}

/// One step that a word chooses: a push of up to 1023 bytes, or a pop into as many.
fn random_step(rt: &impl Abort, pair: &mut Pair, bytes: &mut [u8; 1024], word: u64) -> bool {
    let [kind, high, low, shift, slice, rest, ..] = word.to_be_bytes();
    let len = u16::from_be_bytes([high, low]) as usize % 1024 >> (shift % 4);
    if kind < 131 {
        let message = &mut bytes[..len];
        write_message(message, word);
        return pair.push(rt, message, word);
    }
    let len = if slice % 8 == 0 { len } else { 1024 };
    pair.pop(&mut bytes[..len], rest)
}

/// Does so many random steps, and returns the index of the first one with a wrong result.
pub(crate) fn wrong_random_step(rt: &impl Abort, pair: &mut Pair, steps: usize) -> Option<usize> {
    let mut bytes = [0; 1024];
    let mut word = 0x9e3779b97f4a7c15;
    for index in 0..steps {
        word = next(word);
        if !random_step(rt, pair, &mut bytes, word) || !pair.is_same_len() {
            return Some(index);
        }
    }
    None
}

#[test]
fn many_steps_beside_a_deque(rt: HostRuntime) {
    let mut pair = Pair::new(rt.alloc(), empty(&rt, 8192, 24));
    none_is_wrong(&rt, wrong_random_step(&rt, &mut pair, 10_000));
    let fewest = pair
        .full
        .min(pair.no_room)
        .min(pair.too_short)
        .min(pair.empty);
    all(&rt, &[fewest > 0]);
}
