//! Payloads with their number at both ends, which one thread sends to others, and which these free.

use rlsf_example_libraries::MessageQueue;
use rlsf_shared_heap::{SharedPayload, ThreadHeap};
use std::alloc::{AllocError, Global};
use std::sync::Wait;
use std::thread;
use std::thread::Threads;

/// A payload that any thread may have, and frees.
pub(crate) trait Message {
    /// Returns its bytes.
    fn bytes(&self) -> &[u8];

    /// Frees it.
    fn end<R: Wait>(self, rt: &R);
}

impl<'h, H: ThreadHeap> Message for SharedPayload<'h, H> {
    fn bytes(&self) -> &[u8] {
        self.as_slice()
    }

    fn end<R: Wait>(self, rt: &R) {
        self.free(rt);
    }
}

impl Message for Vec<u8> {
    fn bytes(&self) -> &[u8] {
        self
    }

    fn end<R: Wait>(self, rt: &R) {
        let _ = rt;
        drop(self);
    }
}

/// The payloads on their way to the threads that free them. After a `None` no more come.
pub(crate) type Queue<M> = MessageQueue<Option<M>>;

/// The numbers that each of these threads read.
pub(crate) type Read = Vec<Result<Vec<u64>, AllocError>>;

/// Writes a number to the first eight bytes and to the last eight.
pub(crate) fn write_ends(bytes: &mut [u8], number: u64) {
    let number = number.to_le_bytes();
    for (byte, value) in bytes.iter_mut().zip(number) {
        *byte = value;
    }
    for (byte, value) in bytes.iter_mut().rev().zip(number) {
        *byte = value;
    }
}

/// Returns the number at both ends, or `u64::MAX` if there are two.
fn number_of(bytes: &[u8]) -> u64 {
    let mut first = [0; 8];
    let mut last = [0; 8];
    for (byte, value) in first.iter_mut().zip(bytes) {
        *byte = *value;
    }
    for (byte, value) in last.iter_mut().zip(bytes.iter().rev()) {
        *byte = *value;
    }
    if first == last {
        u64::from_le_bytes(first)
    } else {
        u64::MAX
    }
}

/// Receives payloads and frees them, until no more come. Returns the numbers in them.
fn receive<M: Message, R: Wait>(
    rt: &R,
    alloc: Global,
    queue: &Queue<M>,
) -> Result<Vec<u64>, AllocError> {
    let mut numbers = Vec::new(alloc);
    let mut refused = false;
    for _ in rt.forever() {
        let Some(message) = queue.wait_and_receive(rt) else {
            break;
        };
        let number = number_of(message.bytes());
        message.end(rt);
        refused |= numbers.push(number).is_err();
    }
    if refused {
        return Err(AllocError);
    }
    Ok(numbers)
}

/// Lets so many threads receive payloads.
pub(crate) fn receive_all<M: Message + Send, R: Threads + Wait + Sync>(
    rt: &R,
    alloc: Global,
    queue: &Queue<M>,
    threads: usize,
) -> Result<Read, AllocError> {
    thread::map_indices(rt, alloc, threads, &|_| receive(rt, alloc, queue))
}

/// Tells so many threads that no more payloads come.
pub(crate) fn end_all<M, R: Wait>(rt: &R, queue: &Queue<M>, threads: usize) {
    for _ in 0..threads {
        queue.wait_and_send(rt, None);
    }
}

/// Returns whether each number below `count` was read once, and no other.
pub(crate) fn are_all_once(alloc: Global, read: &Read, count: usize) -> Result<bool, AllocError> {
    let mut seen = vec![in alloc; false; count]?;
    let mut left = count;
    for numbers in read {
        let Ok(numbers) = numbers else {
            return Err(AllocError);
        };
        for number in numbers {
            match seen.get_mut(*number as usize) {
                Some(seen) if !*seen => *seen = true,
                _ => return Ok(false),
            }
            left = left.wrapping_sub(1);
        }
    }
    Ok(left == 0)
}
