//! A queue of messages between threads: their order, how many it takes, and whom its calls wake.

use crate::answers::{all, none_is_wrong};
use rlsf_example_libraries::MessageQueue;
use std::alloc::{AllocError, Global};
use std::sync::Wait;
use std::sync::atomic::{AtomicU64, Ordering};
use std::test::Fail;
use std::thread;
use std::thread::{Threads, join};
use std::time::Duration;

type Queue = MessageQueue<usize>;

static CAPACITIES: [usize; 8] = [0, 1, 2, 3, 7, 64, 1001, 65536];

/// Sends the `n`th number, every third one by `try_send`. Returns whether it was sent.
fn is_sent<R: Wait>(rt: &R, queue: &Queue, number: usize, n: usize) -> bool {
    let result = if n % 3 == 2 {
        queue.try_send(number)
    } else {
        queue.send(rt, number)
    };
    result.is_ok()
}

/// Sends the numbers from `first` on, but at most `most`, until one is refused. Those before the `waited` number are sent by
/// `wait_and_send`, every other one. Returns how many were sent.
fn sent<R: Wait>(rt: &R, queue: &Queue, first: usize, most: usize, waited: usize) -> usize {
    for n in 0..most {
        let number = first.wrapping_add(n);
        if n % 2 == 1 && n < waited {
            queue.wait_and_send(rt, number);
        } else if !is_sent(rt, queue, number, n) {
            return n;
        }
    }
    most
}

/// Receives `most` messages, every other one by `wait_and_receive`, but none behind one that isn't the number from `first` on that is
/// next. Returns how many were right.
fn received<R: Wait>(rt: &R, queue: &Queue, first: usize, most: usize) -> usize {
    for n in 0..most {
        let message = if n % 2 == 1 {
            Some(queue.wait_and_receive(rt))
        } else {
            queue.receive(rt)
        };
        if message != Some(first.wrapping_add(n)) {
            return n;
        }
    }
    most
}

/// Whether a queue takes as many messages as its capacity and returns them in order, also where they go round its end.
fn takes_its_capacity<R: Wait>(rt: &R, alloc: Global, capacity: usize) -> Result<bool, AllocError> {
    let queue = MessageQueue::new(alloc, capacity)?;
    let half = capacity / 2;
    let more = capacity.saturating_add(2);
    let is_filled = sent(rt, &queue, 0, more, 0) == capacity;
    let is_half_empty = is_filled && received(rt, &queue, 0, half) == half;
    let is_full = is_half_empty && sent(rt, &queue, capacity, more, half) == half;
    let is_empty = is_full && received(rt, &queue, half, capacity) == capacity;
    Ok(is_empty && queue.receive(rt).is_none())
}

/// The index of the first capacity of which a queue takes more messages or fewer, or returns them in another order.
fn first_wrong<R: Wait>(rt: &R, alloc: Global) -> Result<Option<usize>, AllocError> {
    for (index, capacity) in CAPACITIES.iter().enumerate() {
        if !takes_its_capacity(rt, alloc, *capacity)? {
            return Ok(Some(index));
        }
    }
    Ok(None)
}

#[test]
fn as_many_as_its_capacity_first_in_first_out(rt: HostRuntime) -> Result<(), Fail> {
    none_is_wrong(&rt, first_wrong(&rt, rt.alloc())?);
    all(&rt, &[Queue::new(rt.alloc(), 1 << 60).is_err()]);
    Ok(())
}

/// How many threads there are, and how many messages each of them sends and receives.
const THREADS: usize = 8;

const MESSAGES: usize = 1000;

/// Sends a message and receives one, again and again, until a call is refused. Returns how often it went.
fn exchange<R: Wait>(rt: &R, queue: &Queue) -> usize {
    for n in 0..MESSAGES {
        if queue.send(rt, n).is_err() || queue.receive(rt).is_none() {
            return n;
        }
    }
    MESSAGES
}

/// How often it went in each of eight threads.
fn of_eight<R: Threads + Wait + Sync>(
    rt: &R,
    alloc: Global,
    queue: &Queue,
) -> Result<Vec<usize>, AllocError> {
    thread::map_indices(rt, alloc, THREADS, &|_| exchange(rt, queue))
}

// The queue has room for a message of each, and a thread receives only behind its own, so a call is refused only if it doesn't wait for the
// lock.
#[test]
fn no_call_is_refused_while_another_thread_is_in(rt: HostRuntime) -> Result<(), Fail> {
    let queue = MessageQueue::new(rt.alloc(), THREADS)?;
    let done = of_eight(&rt, rt.alloc(), &queue)?;
    all(&rt, &[done.iter().all(|count| *count == MESSAGES)]);
    Ok(())
}

/// The call that wakes. The other threads wait in the call that it wakes.
#[derive(Clone, Copy)]
enum Wakes {
    Send,
    TrySend,
    WaitAndSend,
    Receive,
    WaitAndReceive,
}

/// How many turns there are. In each of them each of two threads waits once.
const TURNS: u64 = 10;

/// Two messages fill the queue.
const ROOM: usize = 2;

/// What threads share: the queue, how often one of them stopped waiting, which turn it is, and how many left.
#[derive(Drop)]
struct Meeting {
    queue: Queue,
    woken: AtomicU64,
    turn: AtomicU64,
    left: AtomicU64,
}

/// Sleeps for a thousandth of a second.
pub(crate) fn nap<R: Wait>(rt: &R) {
    AtomicU64::new(0).park_timeout(rt, 0, Duration::from_millis(1));
}

/// Returns whether a count reaches a number within some seconds.
fn reaches<R: Wait>(rt: &R, count: &AtomicU64, wanted: u64) -> bool {
    for _ in 0..5000 {
        if count.load(Ordering::SeqCst) >= wanted {
            return true;
        }
        nap(rt);
    }
    false
}

/// Waits for a message, or for room.
fn wait_once<R: Wait>(rt: &R, meeting: &Meeting, wakes: Wakes) {
    match wakes {
        Wakes::Send | Wakes::TrySend | Wakes::WaitAndSend => {
            let _ = meeting.queue.wait_and_receive(rt);
        }
        Wakes::Receive | Wakes::WaitAndReceive => meeting.queue.wait_and_send(rt, 0),
    }
    meeting.woken.fetch_add(1, Ordering::SeqCst);
}

/// Waits once in each turn, and leaves behind the last one.
fn wait_often<R: Wait>(rt: &R, meeting: &Meeting, wakes: Wakes) {
    for turn in 0..TURNS {
        if reaches(rt, &meeting.turn, turn) && meeting.turn.load(Ordering::SeqCst) < TURNS {
            wait_once(rt, meeting, wakes);
        }
    }
    meeting.left.fetch_add(1, Ordering::SeqCst);
}

/// Sends a message by `try_send`, which is refused while another thread has the lock.
fn try_often<R: Wait>(rt: &R, queue: &Queue) {
    for _ in 0..5000 {
        if queue.try_send(0).is_ok() {
            return;
        }
        nap(rt);
    }
}

/// Makes the call that wakes one thread.
fn wake<R: Wait>(rt: &R, queue: &Queue, wakes: Wakes) {
    match wakes {
        Wakes::Send => {
            let _ = queue.send(rt, 0);
        }
        Wakes::TrySend => try_often(rt, queue),
        Wakes::WaitAndSend => queue.wait_and_send(rt, 0),
        Wakes::Receive => {
            let _ = queue.receive(rt);
        }
        Wakes::WaitAndReceive => {
            let _ = queue.wait_and_receive(rt);
        }
    }
}

/// Wakes both threads ten times, by two calls one behind the other, once both had time to fall asleep. Returns how often both woke.
fn wake_often<R: Wait>(rt: &R, meeting: &Meeting, wakes: Wakes) -> u64 {
    for turn in 0..TURNS {
        for _ in 0..5 {
            nap(rt);
        }
        wake(rt, &meeting.queue, wakes);
        wake(rt, &meeting.queue, wakes);
        if !reaches(rt, &meeting.woken, 2 * turn + 2) {
            return turn;
        }
        meeting.turn.store(turn + 1, Ordering::SeqCst);
    }
    TURNS
}

/// Wakes threads that wait, also if one of the calls doesn't.
fn release<R: Wait>(rt: &R, queue: &Queue, wakes: Wakes) {
    let (full, other) = match wakes {
        Wakes::Send | Wakes::TrySend | Wakes::WaitAndSend => (
            Wakes::Receive,
            [Wakes::Send, Wakes::WaitAndSend],
        ),
        Wakes::Receive | Wakes::WaitAndReceive => (
            Wakes::Send,
            [Wakes::Receive, Wakes::WaitAndReceive],
        ),
    };
    for call in other {
        for _ in 0..ROOM {
            wake(rt, queue, full);
        }
        wake(rt, queue, call);
    }
}

/// Wakes both threads ten times, and lets them leave. Returns how often both woke.
fn lead<R: Wait>(rt: &R, meeting: &Meeting, wakes: Wakes) -> u64 {
    let turns = wake_often(rt, meeting, wakes);
    meeting.turn.store(TURNS, Ordering::SeqCst);
    for _ in 0..5000 {
        if meeting.left.load(Ordering::SeqCst) == 2 {
            return turns;
        }
        release(rt, &meeting.queue, wakes);
        nap(rt);
    }
    turns
}

/// Lets two threads wait, and a third wake them. Returns how often both woke.
fn meet<R: Threads + Wait + Sync>(rt: &R, alloc: Global, wakes: Wakes) -> Result<u64, AllocError> {
    let meeting = Meeting {
        queue: MessageQueue::new(alloc, ROOM)?,
        woken: AtomicU64::new(0),
        turn: AtomicU64::new(0),
        left: AtomicU64::new(0),
    };
    if let Wakes::Receive | Wakes::WaitAndReceive = wakes {
        sent(rt, &meeting.queue, 0, ROOM, 0);
    }
    let (_, (_, turns)) = join(
        rt,
        || wait_often(rt, &meeting, wakes),
        || join(
            rt,
            || wait_often(rt, &meeting, wakes),
            || lead(rt, &meeting, wakes),
        ),
    );
    Ok(turns)
}

// Both wait when the two calls are made, so each of the two has to wake one.
#[test]
fn each_call_wakes_one_that_waits(rt: HostRuntime) -> Result<(), Fail> {
    let turns = [
        meet(&rt, rt.alloc(), Wakes::Send)?,
        meet(&rt, rt.alloc(), Wakes::TrySend)?,
        meet(&rt, rt.alloc(), Wakes::WaitAndSend)?,
        meet(&rt, rt.alloc(), Wakes::Receive)?,
        meet(&rt, rt.alloc(), Wakes::WaitAndReceive)?,
    ];
    all(&rt, &[turns == [TURNS; 5]]);
    Ok(())
}
