//! Payloads that threads send to one another through a queue, and what a `SharedPayload` does.

use crate::answers::all;
use crate::shared::{Shared, shared_heap};
use rlsf_base::memory::Layout;
use rlsf_example_libraries::MessageQueue;
use rlsf_shared_heap::{FreedOnDrop, SharedPayload};
use std::alloc::{AllocError, Global};
use std::sync::Wait;
use std::test::Fail;
use std::thread;
use std::thread::Threads;

/// A queue of payloads.
type Queue<'h> = MessageQueue<SharedPayload<'h, Shared>>;

/// How many threads there are.
const THREADS: usize = 8;

/// How many messages each of them sends.
const MESSAGES: u64 = 12500;

/// Returns a payload of so many zeros, or more.
fn zeros<'h, R: Wait>(
    rt: &R,
    shared: &'h Shared,
    size: usize,
) -> Option<SharedPayload<'h, Shared>> {
    let layout = Layout::from_size_align(size, 16).ok()?;
    shared.allocate_shared(rt, layout)
}

/// Writes a number to the first eight bytes and, backwards, to the last eight.
pub(crate) fn write_ends(message: &mut [u8], number: u64) {
    let bytes = number.to_le_bytes();
    for (byte, value) in message.iter_mut().zip(bytes) {
        *byte = value;
    }
    for (byte, value) in message.iter_mut().rev().zip(bytes) {
        *byte = value;
    }
}

/// Returns the number at both ends. Returns `u64::MAX` if there are two.
pub(crate) fn number_of(message: &[u8]) -> u64 {
    let mut first = [0; 8];
    let mut last = [0; 8];
    for (byte, value) in first.iter_mut().zip(message) {
        *byte = *value;
    }
    for (byte, value) in last.iter_mut().zip(message.iter().rev()) {
        *byte = *value;
    }
    if first == last {
        u64::from_le_bytes(first)
    } else {
        u64::MAX
    }
}

/// Sends a message. While the queue is full, receives others.
fn send<'h, R: Wait>(
    rt: &R,
    queue: &Queue<'h>,
    message: SharedPayload<'h, Shared>,
    numbers: &mut Vec<u64>,
) -> Result<(), AllocError> {
    let mut left = message;
    for _ in rt.forever() {
        match queue.send(rt, left) {
            Ok(()) => return Ok(()),
            Err(back) => left = back,
        }
        receive(rt, queue, numbers)?;
    }
    unreachable!()
}

/// Receives a message, if there is one, keeps its number, and frees it. Returns whether there was one.
fn receive<'h, R: Wait>(
    rt: &R,
    queue: &Queue<'h>,
    numbers: &mut Vec<u64>,
) -> Result<bool, AllocError> {
    let Some(message) = queue.receive(rt) else {
        return Ok(false);
    };
    let number = number_of(message.as_slice());
    message.free(rt);
    numbers.push(number)?;
    Ok(true)
}

/// What a thread does: it sends messages of several lengths, each with its number, and then receives until the queue is empty. Returns the
/// numbers that it received.
fn exchange<'h, R: Wait>(
    rt: &R,
    alloc: Global,
    shared: &'h Shared,
    queue: &Queue<'h>,
    thread: usize,
) -> Result<Vec<u64>, AllocError> {
    let mut numbers = Vec::with_capacity(alloc, THREADS * MESSAGES as usize)?;
    let first = (thread as u64).wrapping_mul(MESSAGES);
    for number in 0..MESSAGES {
        if let Some(mut message) = zeros(rt, shared, 16 + (number % 100) as usize) {
            write_ends(message.as_mut_slice(), first.wrapping_add(number));
            send(rt, queue, message, &mut numbers)?;
        }
    }
    for _ in rt.forever() {
        if !receive(rt, queue, &mut numbers)? {
            return Ok(numbers);
        }
    }
    unreachable!()
}

/// Returns the numbers that each of eight threads received.
fn of_eight<R: Threads + Wait + Sync>(
    rt: &R,
    alloc: Global,
    shared: &Shared,
) -> Result<Vec<Result<Vec<u64>, AllocError>>, AllocError> {
    let queue = MessageQueue::new(alloc, 16)?;
    thread::map_indices(
        rt,
        alloc,
        THREADS,
        &|index| exchange(rt, alloc, shared, &queue, index),
    )
}

/// Returns whether each number below `count` is there once, and no other.
pub(crate) fn are_all_once(
    alloc: Global,
    numbers: &[Result<Vec<u64>, AllocError>],
    count: usize,
) -> Result<bool, AllocError> {
    let mut seen = vec![in alloc; false; count]?;
    let mut left = count;
    for received in numbers {
        let Ok(received) = received else {
            return Err(AllocError);
        };
        for number in received {
            match seen.get_mut(*number as usize) {
                Some(seen) if !*seen => *seen = true,
                _ => return Ok(false),
            }
            left = left.wrapping_sub(1);
        }
    }
    Ok(left == 0)
}

/// Returns whether the numbers of each thread rise, in the order in which one thread received them.
fn rise(numbers: &[u64]) -> bool {
    let mut next = [0; THREADS];
    for number in numbers {
        match next.get_mut((*number / MESSAGES) as usize) {
            Some(next) if *next <= *number => *next = number.wrapping_add(1),
            _ => return false,
        }
    }
    true
}

/// Returns whether they rise in what each thread received.
fn all_rise(numbers: &[Result<Vec<u64>, AllocError>]) -> bool {
    for received in numbers {
        if let Ok(received) = received {
            if !rise(received) {
                return false;
            }
        }
    }
    true
}

// Messages of one thread are received in the order in which it sent them.
#[test]
fn each_message_is_received_once(rt: HostRuntime) -> Result<(), Fail> {
    let shared = shared_heap(rt.alloc())?;
    let numbers = of_eight(&rt, rt.alloc(), &shared)?;
    let once = are_all_once(rt.alloc(), &numbers, 100_000)?;
    let ordered = all_rise(&numbers);
    drop(numbers);
    all(&rt, &[once, ordered, shared.into_inner().live() == 0]);
    Ok(())
}

/// Sends a payload to a queue, and frees it where it is received. Returns its address, and whether another one was refused there.
fn sent_and_freed<'h, R: Wait>(
    rt: &R,
    queue: &Queue<'h>,
    shared: &'h Shared,
) -> Option<(usize, bool)> {
    let one = zeros(rt, shared, 100)?;
    let other = zeros(rt, shared, 100)?;
    let sent = queue.send(rt, one).is_ok();
    let refused = match queue.send(rt, other) {
        Ok(()) => false,
        Err(back) => {
            back.free(rt);
            true
        }
    };
    let received = queue.receive(rt)?;
    let addr = received.addr();
    received.free(rt);
    Some((addr, sent && refused && queue.receive(rt).is_none()))
}

// The queue is one of the second heap's payloads, of which one is in it first. Each payload returns to its own heap.
#[test]
fn a_payload_comes_back_to_its_own_heap(rt: HostRuntime) -> Result<(), Fail> {
    let first = shared_heap(rt.alloc())?;
    let second = shared_heap(rt.alloc())?;
    let queue = MessageQueue::new(rt.alloc(), 1)?;
    let kept = zeros(&rt, &second, 100);
    let of_second = sent_and_freed(&rt, &queue, &second);
    let of_first = sent_and_freed(&rt, &queue, &first);
    drop(queue);
    let was_kept = kept.is_some();
    drop(kept);
    // A block of 100 bytes and its header has 128.
    let answers = [
        was_kept,
        of_second == Some((65536 + 16 + 128, true)),
        of_first == Some((65536 + 16, true)),
        first.into_inner().live() == 0,
        second.into_inner().live() == 1,
    ];
    all(&rt, &answers);
    Ok(())
}

/// Fills a payload with sevens, and changes its size. Returns the length, how many sevens are in front, and whether zeros follow.
fn resized<R: Wait>(rt: &R, shared: &Shared, size: usize) -> Option<(usize, usize, bool)> {
    let mut payload = zeros(rt, shared, 100)?;
    payload.fill(7);
    let (payload, is_changed) = match payload.reallocate(rt, size) {
        Ok(changed) => (changed, true),
        Err(same) => (same, false),
    };
    let bytes = payload.as_slice();
    let sevens = bytes.iter().take_while(|byte| **byte == 7).count();
    let zeros = bytes.iter().skip(sevens).all(|byte| *byte == 0);
    let len = payload.len();
    payload.free(rt);
    Some((len, sevens, zeros && is_changed))
}

// A payload of 100 bytes has 112, one of 1000 has 1008, and one of 10 has 16.
#[test]
fn payloads_get_another_size(rt: HostRuntime) -> Result<(), Fail> {
    let shared = shared_heap(rt.alloc())?;
    let answers = [
        resized(&rt, &shared, 1000) == Some((1008, 112, true)),
        resized(&rt, &shared, 10) == Some((16, 16, true)),
        resized(&rt, &shared, 65536) == Some((112, 112, false)),
        shared.into_inner().live() == 0,
    ];
    all(&rt, &answers);
    Ok(())
}

/// Drops two values that free their payloads. Takes a third payload out of such a value. Returns its address.
fn dropped_but_the_third<R: Wait>(rt: &R, shared: &Shared) -> Option<usize> {
    let _first = zeros(rt, shared, 100)?.freed_on_drop(rt);
    let _second = zeros(rt, shared, 100)?.freed_on_drop(rt);
    let third = zeros(rt, shared, 100)?.freed_on_drop(rt);
    let kept = third.into_inner();
    Some(kept.addr())
}

// The third payload leaks. Before it in the pool are two blocks of 128 bytes, which are free again.
#[test]
fn dropped_payloads_are_freed(rt: HostRuntime) -> Result<(), Fail> {
    let shared = shared_heap(rt.alloc())?;
    let kept = dropped_but_the_third(&rt, &shared);
    let next = zeros(&rt, &shared, 200).map(|payload| payload.addr());
    let answers = [
        kept == Some(65536 + 16 + 256),
        next == Some(65536 + 16),
        shared.into_inner().live() == 2,
    ];
    all(&rt, &answers);
    Ok(())
}

/// Sends a payload that is freed where it is dropped. Returns whether the queue took it.
fn sends<'h, 'r, R: Wait>(
    rt: &'r R,
    queue: &MessageQueue<FreedOnDrop<'h, 'r, Shared, R>>,
    shared: &'h Shared,
) -> bool {
    match zeros(rt, shared, 100) {
        Some(payload) => queue.send(rt, payload.freed_on_drop(rt)).is_ok(),
        None => false,
    }
}

// Three blocks of 128 bytes are live when the queue is dropped: it is full, and its last message is before its first one.
#[test]
fn a_dropped_queue_drops_its_messages(rt: HostRuntime) -> Result<(), Fail> {
    let shared = shared_heap(rt.alloc())?;
    let queue = MessageQueue::new(rt.alloc(), 3)?;
    let sent = [0; 4].map(|_| sends(&rt, &queue, &shared));
    let received = queue.receive(&rt).is_some();
    let again = sends(&rt, &queue, &shared);
    let next = zeros(&rt, &shared, 100).map(|payload| payload.addr());
    drop(queue);
    let merged = zeros(&rt, &shared, 200).map(|payload| payload.addr());
    let answers = [
        sent == [true, true, true, false],
        received,
        again,
        next == Some(65536 + 16 + 384),
        merged == Some(65536 + 16),
        shared.into_inner().live() == 2,
    ];
    all(&rt, &answers);
    Ok(())
}

/// Makes a payload of the heap's own calls, ties it to its heap, reads and writes it, and unties it again. Returns what is seen of it.
fn adopted<R: Wait>(rt: &R, shared: &Shared) -> Option<[usize; 4]> {
    let mut payload = shared.allocate(rt, Layout::from_size_align_unchecked(100, 64))?;
    payload.fill(3);
    let mut tied = shared.adopt(payload);
    let len = tied.len();
    let align = tied.align();
    let aligned = tied.addr() % 64;
    tied.as_mut_slice().fill(5);
    let fives = tied.as_slice().iter().filter(|byte| **byte == 5).count();
    shared.deallocate(rt, tied.into_payload());
    Some([len, align, aligned, fives])
}

// Of 100 bytes, with 16 for the header and 48 for the alignment, it takes a block of 192 at 65536. The first multiple of 64 behind the header
// is 65600, with 128 bytes behind it.
#[test]
fn a_payload_is_tied_to_its_heap_and_untied(rt: HostRuntime) -> Result<(), Fail> {
    let shared = shared_heap(rt.alloc())?;
    let answers = [
        adopted(&rt, &shared) == Some([128, 64, 0, 128]),
        shared.into_inner().live() == 0,
    ];
    all(&rt, &answers);
    Ok(())
}
