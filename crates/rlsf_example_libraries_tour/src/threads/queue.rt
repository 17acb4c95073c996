//! Four threads that fill messages, and one that reads and frees them. The messages go through a bounded queue, which copies no byte.

use crate::threads::messages::{Received, Shared, heap_for, layout, write_number};
use rlsf_example_libraries::MessageQueue;
use rlsf_heaps::SharedPayload;
use std::alloc::Global;
use std::sync::Wait;
use std::thread::{Threads, join};

/// How many threads send.
const PRODUCERS: u64 = 4;

/// How many messages each of them sends.
const MESSAGES: u64 = 250;

/// How many messages the queue has room for.
const ROOM: usize = 8;

/// How many messages are live at once, at most: those in the queue, one of each producer, and that of the consumer.
const LIVE: usize = ROOM + 5;

/// A queue of messages. `None` says that a producer sends no more.
pub(crate) type Queue<'h> = MessageQueue<Option<SharedPayload<'h, Shared>>>;

/// Sends the numbers from `first` on, each in a message. Returns how many messages the heap refused.
fn produce<'h, R: Wait>(rt: &R, heap: &'h Shared, queue: &Queue<'h>, first: u64) -> u64 {
    let mut refused: u64 = 0;
    for number in 0..MESSAGES {
        match heap.allocate_shared(rt, layout()) {
            Some(mut message) => {
                write_number(message.as_mut_slice(), first.wrapping_add(number));
                queue.wait_and_send(rt, Some(message));
            }
            None => refused = refused.wrapping_add(1),
        }
    }
    queue.wait_and_send(rt, None);
    refused
}

/// Receives messages until no producer sends more. Reads each, and frees it.
fn consume<'h, R: Wait>(rt: &R, queue: &Queue<'h>) -> Received {
    let mut received = Received::nothing();
    let mut ended: u64 = 0;
    for _ in rt.forever() {
        match queue.wait_and_receive(rt) {
            Some(message) => {
                received = received.and(message.as_slice());
                message.free(rt);
            }
            None => ended = ended.wrapping_add(1),
        }
        if ended == PRODUCERS {
            return received;
        }
    }
    unreachable!()
}

/// Lets two threads send. Returns how many messages the heap refused.
fn produce_in_two<'h, R: Threads + Wait + Sync>(
    rt: &R,
    heap: &'h Shared,
    queue: &Queue<'h>,
    first: u64,
) -> u64 {
    let (one, other) = join(
        rt,
        || produce(rt, heap, queue, first),
        || produce(rt, heap, queue, first.wrapping_add(MESSAGES)),
    );
    one.wrapping_add(other)
}

/// Lets four threads send. Returns how many messages the heap refused.
fn produce_in_four<'h, R: Threads + Wait + Sync>(
    rt: &R,
    heap: &'h Shared,
    queue: &Queue<'h>,
) -> u64 {
    let (one, other) = join(
        rt,
        || produce_in_two(rt, heap, queue, 0),
        || produce_in_two(rt, heap, queue, 2 * MESSAGES),
    );
    one.wrapping_add(other)
}

/// What the threads leave.
#[derive(Clone, Copy)]
pub(crate) struct Exchanged {
    /// How many messages the heap refused.
    pub(crate) refused: u64,
    /// What the consumer received.
    pub(crate) received: Received,
    /// How many messages are live at the end.
    pub(crate) live: usize,
}

/// Lets four threads send and one receive. Returns `None` if the system is out of memory.
pub(crate) fn four_to_one<R: Threads + Wait + Sync>(rt: &R, alloc: Global) -> Option<Exchanged> {
    let heap = heap_for(alloc, LIVE)?;
    let queue = MessageQueue::new(alloc, ROOM).ok()?;
    let (refused, received) = join(
        rt,
        || produce_in_four(rt, &heap, &queue),
        || consume(rt, &queue),
    );
    drop(queue);
    let live = heap.into_inner().live();
    Some(Exchanged {
        refused,
        received,
        live,
    })
}
