//! Two threads with a queue between them, of which the receiver leaves early.

use crate::threads::messages::{Received, Shared, heap_for, layout, write_number};
use crate::threads::queue::Queue;
use rlsf_example_libraries::MessageQueue;
use rlsf_heaps::SharedPayload;
use std::alloc::Global;
use std::sync::Wait;
use std::thread::{Threads, join};

/// How many messages the queue has room for.
const ROOM: usize = 4;

/// How many messages the receiver reads before it leaves.
const READ: u64 = 900;

/// How many messages are sent: those that are read, and as many as the queue has room for.
const MESSAGES: u64 = 904;

/// Allocates a message with a number. Returns `None` if the heap refuses it.
fn message_of<'h, R: Wait>(
    rt: &R,
    heap: &'h Shared,
    number: u64,
) -> Option<SharedPayload<'h, Shared>> {
    let mut message = heap.allocate_shared(rt, layout())?;
    write_number(message.as_mut_slice(), number);
    Some(message)
}

/// Sends messages until all are sent, or one is refused.
fn send_all<'h, R: Wait>(rt: &R, heap: &'h Shared, queue: &Queue<'h>) {
    for number in 0..MESSAGES {
        let message = message_of(rt, heap, number);
        let is_refused = message.is_none();
        queue.wait_and_send(rt, message);
        if is_refused {
            return;
        }
    }
}

/// Receives the first messages, and leaves. The drop at the end of each turn frees its message, however the turn ends.
fn receive_first<R: Wait>(rt: &R, queue: &Queue<'_>) -> Received {
    let mut received = Received::nothing();
    for _ in 0..READ {
        let Some(message) = queue.wait_and_receive(rt) else {
            return received;
        };
        let message = message.freed_on_drop(rt);
        received = received.and(message.payload.as_slice());
    }
    received
}

/// Frees the messages that nobody received.
fn free_rest<R: Wait>(rt: &R, queue: &Queue<'_>) {
    for _ in 0..ROOM {
        if let Some(Some(message)) = queue.receive(rt) {
            message.free(rt);
        }
    }
}

/// Lets one thread send, and another receive. Returns what was received, and how many messages are live at the end. Returns `None` if the
/// system is out of memory.
pub(crate) fn received_first<R: Threads + Wait + Sync>(
    rt: &R,
    alloc: Global,
) -> Option<(Received, usize)> {
    let heap = heap_for(alloc, ROOM + 2)?;
    let queue = MessageQueue::new(alloc, ROOM).ok()?;
    let (_, received) = join(
        rt,
        || send_all(rt, &heap, &queue),
        || receive_first(rt, &queue),
    );
    free_rest(rt, &queue);
    drop(queue);
    let live = heap.into_inner().live();
    Some((received, live))
}
