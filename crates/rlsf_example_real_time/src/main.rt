//! A real-time thread that fills a block of samples in each millisecond, and two workers that read the blocks and return them. The thread
//! never waits for a worker. Prints the longest of its callbacks to the error output.
#![tactic(auto)]

use rlsf_example_libraries::MessageQueue;
use rlsf_heaps::{Heap, Layout, OpenMemory, OwnerHeap, Range, Returns, SharedPayload};
use std::alloc::Global;
use std::sync::Wait;
use std::thread::Threads;
use std::time::{Clock, Duration, Instant};
use std::{io, thread};

/// The heap of the real-time thread: chunks of up to 131,072 bytes, in 12 rows of 16 classes.
type Owner<'r> = OwnerHeap<'r, u16, u16, 12, 16>;

/// A block of samples. Any thread may have it, and returns it by `free`.
type Block<'r> = SharedPayload<'r, Returns>;

/// The blocks on their way to a worker. After a `None` no more come.
type Queue<'r> = MessageQueue<Option<Block<'r>>>;

/// How often the real-time thread is called.
const CALLBACKS: u8 = 200;

/// How many blocks may be lent at once.
const LENT: usize = 32;

/// Returns a heap of one pool.
fn with_pool(alloc: Global) -> Option<Heap<u16, u16, 12, 16>> {
    let memory = OpenMemory::reserve(alloc, 4096, 65536).ok()?;
    let mut heap = Heap::new(memory);
    heap.insert_free_block_ptr(Range {
        start: 4096,
        len: 65536,
    });
    Some(heap)
}

/// Fills a block with a sample, and sends it. Returns whether it did: a block is left out if the heap has no room, or if the queue is full
/// or in use. It is passed no `rt`, so it can't wait.
fn callback<'r>(owner: &mut Owner<'r>, queue: &Queue<'r>, sample: u8) -> bool {
    let Some(mut block) = owner.allocate_lent(Layout::from_size_align_unchecked(512, 64)) else {
        return false;
    };
    block.fill(sample);
    match queue.try_send(Some(block)) {
        Ok(()) => true,
        Err(Some(block)) => {
            owner.take_back(block);
            false
        }
        Err(None) => false,
    }
}

/// What the real-time thread did.
#[derive(Clone, Copy)]
struct Played {
    /// How many blocks it sent.
    sent: u64,
    /// The longest time that a callback took.
    longest: Duration,
}

/// Makes the callbacks, one in each millisecond.
fn play<'r, C: Clock>(clock: &C, owner: &mut Owner<'r>, queue: &Queue<'r>) -> io::Result<Played> {
    let mut sent: u64 = 0;
    let mut longest = Duration::ZERO;
    for sample in 0..CALLBACKS {
        thread::sleep(clock, Duration::from_millis(1));
        let begun = Instant::now(clock)?;
        let is_sent = callback(owner, queue, sample);
        longest = longest.max(begun.elapsed(clock)?);
        sent = sent.wrapping_add(u64::from(is_sent));
    }
    Ok(Played { sent, longest })
}

/// The real-time thread. Once it has played, it waits until both workers know that no more blocks come.
fn real_time<'r, R: Wait + Clock>(
    rt: &R,
    owner: &mut Owner<'r>,
    queue: &Queue<'r>,
) -> io::Result<Played> {
    let played = play(rt, owner, queue);
    queue.wait_and_send(rt, None);
    queue.wait_and_send(rt, None);
    played
}

/// A worker: reads each block and frees it. Returns how many blocks had one sample throughout.
fn work<'r, R: Wait>(rt: &R, queue: &Queue<'r>) -> u64 {
    let mut read: u64 = 0;
    for _ in rt.forever() {
        let Some(block) = queue.wait_and_receive(rt) else {
            return read;
        };
        let first = block.as_slice().first();
        if block.as_slice().iter().all(|sample| Some(sample) == first) {
            read = read.wrapping_add(1);
        }
        block.free(rt);
    }
    unreachable!()
}

/// Lets one thread play and two work. Returns what was played, and whether the workers read each block and all came back. `None` if the
/// system is out of memory or has no clock.
fn run<R: Threads + Wait + Clock + Sync>(rt: &R, alloc: Global) -> Option<(Played, bool)> {
    let heap = with_pool(alloc)?;
    let mut returns = Returns::new(alloc, &heap, LENT).ok()?;
    let mut owner = OwnerHeap::new(heap, &mut returns);
    let queue = MessageQueue::new(alloc, LENT).ok()?;
    let (played, (first, second)) = thread::join(
        rt,
        || real_time(rt, &mut owner, &queue),
        || thread::join(rt, || work(rt, &queue), || work(rt, &queue)),
    );
    let played = played.ok()?;
    owner.collect(LENT);
    let all = first.wrapping_add(second) == played.sent && owner.lent() == 0;
    Some((played, all))
}

fn main(rt: HostRuntime) -> io::Result<()> {
    let Some((played, all)) = run(&rt, rt.alloc()) else {
        return println!(rt; "out of memory, or no clock");
    };
    eprintln!(rt; "the longest callback took {:?}", played.longest)?;
    println!(rt;
        "sent blocks: {}, each was read and came back: {all}",
        0 < played.sent
    )
}
