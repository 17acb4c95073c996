//! An owner that lends payloads to eight threads, which return them.
use crate::answers::all;
use crate::owners::{Lent, Owner};
use crate::sent::{are_all_once, number_of, write_ends};
use crate::shared_rows::{Shared, is_whole, shared_heap};
use rlsf_base::memory::Layout;
use rlsf_example_libraries::MessageQueue;
use rlsf_shared_heap::{OwnerHeap, Returns};
use std::alloc::{AllocError, Global};
use std::process::Abort;
use std::sync::Wait;
use std::test::Fail;
use std::thread;
use std::thread::Threads;

/// The payloads on their way to a giver, the thread that returns them. After a `None` no more come.
type Queue<'r> = MessageQueue<Option<Lent<'r>>>;

/// How many threads return payloads, how many payloads there are, and how many of them may be lent at once.
const GIVERS: usize = 8;

const COUNT: usize = 1_000_000;

const LENT: usize = 1000;

/// Lends a payload, once there is room.
fn lend<'r, R: Wait>(rt: &R, owner: &mut Owner<'r>, layout: Layout) -> Lent<'r> {
    for _ in rt.forever() {
        if let Some(payload) = owner.allocate_lent(layout) {
            return payload;
        }
        thread::yield_now();
    }
    unreachable!()
}

/// Lends payloads of several lengths, each with its number at both ends. Then sends each giver a `None`.
fn lend_all<'r, R: Wait + Abort>(rt: &R, owner: &mut Owner<'r>, queue: &Queue<'r>) {
    for number in 0..COUNT {
        let layout = Layout::from_size_align(16 + number % 100, 16).expect(rt, "a layout");
        let mut payload = lend(rt, owner, layout);
        write_ends(payload.as_mut_slice(), number as u64);
        queue.wait_and_send(rt, Some(payload));
    }
    for _ in 0..GIVERS {
        queue.wait_and_send(rt, None);
    }
}

/// Receives payloads, and returns them to their owner. Returns the numbers in them.
fn give_back<'r, R: Wait>(
    rt: &R,
    alloc: Global,
    queue: &Queue<'r>,
) -> Result<Vec<u64>, AllocError> {
    let mut numbers = Vec::with_capacity(alloc, COUNT)?;
    for _ in rt.forever() {
        let Some(payload) = queue.wait_and_receive(rt) else {
            return Ok(numbers);
        };
        let number = number_of(payload.as_slice());
        payload.free(rt);
        numbers.push(number)?;
    }
    unreachable!()
}

/// Lends all payloads, and returns the numbers that each giver read.
fn of_all<'r, R: Threads + Wait + Abort + Sync>(
    rt: &R,
    alloc: Global,
    owner: &mut Owner<'r>,
) -> Result<Vec<Result<Vec<u64>, AllocError>>, AllocError> {
    let queue = MessageQueue::new(alloc, LENT)?;
    let (_, numbers) = thread::join(
        rt,
        || lend_all(rt, owner, &queue),
        || thread::map_indices(rt, alloc, GIVERS, &|_| give_back(rt, alloc, &queue)),
    );
    numbers
}

#[test]
fn all_payloads_of_eight_givers_come_back(rt: HostRuntime) -> Result<(), Fail> {
    let heap = shared_heap(rt.alloc())?.into_inner();
    let mut returns = Returns::new(rt.alloc(), &heap, LENT)?;
    let mut owner = OwnerHeap::new(heap, &mut returns);
    let numbers = of_all(&rt, rt.alloc(), &mut owner)?;
    let once = are_all_once(rt.alloc(), &numbers, COUNT)?;
    owner.collect(LENT);
    let is_empty = match owner.try_into_heap() {
        Ok(heap) => is_whole(Shared::new(heap)),
        Err(_) => false,
    };
    all(&rt, &[once, is_empty]);
    Ok(())
}
