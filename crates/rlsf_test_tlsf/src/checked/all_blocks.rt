//! The blocks of several pools, and a reset.
//!
//! A range of 1,024 bytes is one chunk, of which all but the last 32 bytes are free. A payload of 100 bytes has a block of 128
//! there: 16 before the payload, and 100, rounded up to a multiple of 32.

use crate::checked::calls::{Step, answers_all};
use crate::checked::pools::{START, Small, small};
use crate::pools::are;
use std::process::Abort;

const THREE_POOLS: &[Step] = &[
    Step::Next(0, 0),
    Step::Insert(4096, 1024, Ok(1024)),
    Step::Insert(8192, 1024, Ok(1024)),
    Step::Insert(9216, 1024, Ok(1024)),
    Step::Totals([0, 0, 3 * 992, 992]),
];

/// Passes if the free blocks of three pools are listed.
fn are_listed(rt: &impl Abort, pool: &Small) {
    let mut numbers = [7; 10];
    let three = [START, 992, 0, 8192, 992, 0, 9216, 992, 0, 7];
    are(rt, &[pool.list(START, &mut numbers)], &[3]);
    are(rt, &numbers, &three);
    let two = [8192, 992, 0, 9216, 992, 0, 9216, 992, 0, 7];
    are(rt, &[pool.list(START + 1, &mut numbers)], &[2]);
    are(rt, &numbers, &two);
}

const ONE_PAYLOAD: &[Step] = &[
    Step::Next(4097, 8192),
    Step::Next(9217, 0),
    // The block that was freed last is taken.
    Step::Allocate(100, 16, Ok(9232)),
    Step::Totals([1, 128, 3 * 992 - 128, 992]),
    Step::Deallocate(9232, Ok(())),
    Step::RemoveLast(true),
    Step::Totals([0, 0, 2 * 992, 992]),
    Step::Next(8193, 0),
];

#[test]
fn blocks_of_all_pools_are_found(rt: HostRuntime) {
    let mut pool = small(&rt, 65536);
    answers_all(&mut pool, &rt, THREE_POOLS);
    are_listed(&rt, &pool);
    answers_all(&mut pool, &rt, ONE_PAYLOAD);
}

const WRITTEN: &[Step] = &[
    Step::Insert(4096, 1024, Ok(1024)),
    Step::Allocate(100, 16, Ok(4112)),
    Step::Write(4112, 0, &[7; 100], Ok(())),
];

const READ_AGAIN: &[Step] = &[
    Step::Totals([0; 4]),
    Step::Insert(4096, 1024, Ok(1024)),
    Step::Allocate(100, 16, Ok(4112)),
    // The links of the free block were in the payload's first 16 bytes.
    Step::Sevens(4112, 16, 84),
];

#[test]
fn a_reset_keeps_the_bytes_of_the_memory(rt: HostRuntime) {
    let mut pool = small(&rt, 1024);
    answers_all(&mut pool, &rt, WRITTEN);
    let mut pool = pool.reset();
    answers_all(&mut pool, &rt, READ_AGAIN);
}
