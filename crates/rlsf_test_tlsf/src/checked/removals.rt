//! Ranges that are removed, and ranges that aren't.
//!
//! A chunk of 1,024 bytes has 992 before its end. A payload of 900 bytes has a block of 928 there, and 64 are left.

use super::calls::{Step, answers_all};
use super::pools::small;
use rlsf_checked::CheckedError;

/// Three pools of 1,024 bytes, with a gap behind the first one. The first two are full: a payload lives in each.
const THREE_POOLS: &[Step] = &[
    Step::Insert(4096, 1024, Ok(1024)),
    Step::Allocate(900, 16, Ok(4112)),
    Step::Insert(8192, 1024, Ok(1024)),
    Step::Allocate(900, 16, Ok(8208)),
    Step::Insert(9216, 1024, Ok(1024)),
];

const NO_POOL: &[Step] = &[Step::Remove(4096, 1024, Err(CheckedError::NotChunks))];

const ONLY_POOLS: &[Step] = &[
    Step::Remove(0, 0, Err(CheckedError::NotChunks)),
    Step::Remove(4096, 0, Err(CheckedError::NotChunks)),
    Step::Remove(4096, 992, Err(CheckedError::NotChunks)),
    Step::Remove(4096, 1025, Err(CheckedError::NotChunks)),
    Step::Remove(4128, 992, Err(CheckedError::NotChunks)),
    Step::Remove(4095, 1025, Err(CheckedError::NotChunks)),
    Step::Remove(5120, 1024, Err(CheckedError::NotChunks)),
    Step::Remove(8192, 1536, Err(CheckedError::NotChunks)),
    Step::Remove(8704, 512, Err(CheckedError::NotChunks)),
    Step::Remove(9216, 1056, Err(CheckedError::NotChunks)),
    Step::Remove(4096, usize::MAX, Err(CheckedError::NotChunks)),
    Step::Remove(usize::MAX, usize::MAX, Err(CheckedError::NotChunks)),
    // Contiguous pools are not removed together.
    Step::Remove(8192, 2048, Err(CheckedError::NotChunks)),
    Step::Remove(8192, 1024, Err(CheckedError::InUse)),
    Step::Deallocate(8208, Ok(())),
    Step::Remove(8192, 1024, Ok(())),
    Step::Remove(8192, 1024, Err(CheckedError::NotChunks)),
    Step::Remove(9216, 1024, Ok(())),
    Step::Remove(9216, 0, Err(CheckedError::NotChunks)),
    // The first pool has its payload.
    Step::Totals([1, 928, 64, 64]),
];

const EARLIER_POOL_WHILE_A_LATER_ONE_IS_USED: &[Step] = &[
    Step::Write(8208, 0, &[7; 900], Ok(())),
    Step::Remove(4096, 1024, Err(CheckedError::InUse)),
    Step::Deallocate(4112, Ok(())),
    Step::Remove(4096, 1024, Ok(())),
    Step::Totals([1, 928, 64 + 992, 992]),
    // The last pool is still the third one, whose range is behind.
    Step::Insert(4096, 1024, Err(CheckedError::NotBehind)),
    Step::Sevens(8208, 0, 900),
];

const LAST_POOL_IS_INSERTED_AGAIN: &[Step] = &[
    // A part of it is no pool, even from 9,216 on when the start is rounded up.
    Step::Remove(9209, 1031, Err(CheckedError::NotChunks)),
    Step::Remove(9216, 1024, Ok(())),
    Step::Allocate(900, 16, Err(CheckedError::NoRoom)),
    Step::Insert(9216, 1024, Ok(1024)),
    Step::Allocate(900, 16, Ok(9232)),
    Step::Remove(9216, 1024, Err(CheckedError::InUse)),
];

/// A pool from its start as inserted, 5 bytes behind a multiple of 32, with 1,024 bytes that are appended.
const ONE_LONGER_POOL: &[Step] = &[
    Step::Insert(4101, 1051, Ok(1051)),
    Step::Append(5152, 1024, Ok(1024)),
    Step::Insert(8192, 1024, Ok(1024)),
];

const POOL_AS_IT_HAS_GROWN: &[Step] = &[
    Step::Remove(4101, 1051, Err(CheckedError::NotChunks)),
    Step::Remove(5152, 1024, Err(CheckedError::NotChunks)),
    Step::Remove(4128, 2048, Err(CheckedError::NotChunks)),
    Step::Remove(4101, 2075, Ok(())),
    Step::Totals([0, 0, 992, 992]),
];

/// The pools of an allocator, and the calls then.
static SCRIPTS: [(&[Step], &[Step]); 5] = [
    (&[], NO_POOL),
    (THREE_POOLS, ONLY_POOLS),
    (THREE_POOLS, EARLIER_POOL_WHILE_A_LATER_ONE_IS_USED),
    (THREE_POOLS, LAST_POOL_IS_INSERTED_AGAIN),
    (ONE_LONGER_POOL, POOL_AS_IT_HAS_GROWN),
];

#[test]
fn ranges_are_removed(rt: HostRuntime) {
    for (pools, steps) in &SCRIPTS {
        let mut pool = small(&rt, 65536);
        answers_all(&mut pool, &rt, pools);
        answers_all(&mut pool, &rt, steps);
    }
}
