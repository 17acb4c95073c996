//! Pools of objects: filled, emptied in another order and filled again, written, and each refusal.
//!
//! A memory from the address 4096 on loses 32 bytes to the word behind its last block. An object of 16 bytes takes 32 of the
//! others.

use crate::pools::{are, layout_of, none_is_wrong, zeros};
use rlsf_example_libraries::{Objects, SetError, TakeError, UnknownHandle};
use std::process::Abort;

/// A pool of objects of so many bytes at multiples of an alignment, in a memory of a start and a length.
fn pool(
    rt: &(impl Abort + AllocGlobal),
    memory: (usize, usize),
    size: usize,
    align: usize,
) -> Objects {
    let layout = layout_of(rt, size, align);
    Objects::new(rt.alloc(), zeros(rt, memory.0, memory.1), layout)
}

/// What a pool is asked, and what it must answer.
#[derive(Clone, Copy)]
enum Step {
    /// An object is taken.
    Take(Result<usize, TakeError>),
    /// The one with this handle is returned.
    GiveBack(usize, Result<(), UnknownHandle>),
    /// These bytes are written into one, from an offset on.
    Set(usize, usize, &'static [u8], Result<(), SetError>),
    /// The bytes of one.
    Get(usize, Result<&'static [u8], UnknownHandle>),
    /// How many are out.
    Len(usize),
}

/// Whether the pool answers so.
fn is_right(pool: &mut Objects, step: Step) -> bool {
    match step {
        Step::Take(answer) => pool.take() == answer,
        Step::GiveBack(handle, answer) => pool.give_back(handle) == answer,
        Step::Set(handle, offset, bytes, answer) => pool.set(handle, offset, bytes) == answer,
        Step::Get(handle, answer) => pool.get(handle) == answer,
        Step::Len(len) => pool.len() == len,
    }
}

/// The index of the first step on a pool with a wrong result.
fn first_wrong(pool: &mut Objects, steps: &[Step]) -> Option<usize> {
    for (index, step) in steps.iter().enumerate() {
        if !is_right(pool, *step) {
            return Some(index);
        }
    }
    None
}

const ZEROS: &[u8] = &[0; 16];

const EMPTIED_IN_ANOTHER_ORDER: &[Step] = &[
    Step::Take(Ok(0)),
    Step::Take(Ok(1)),
    Step::Take(Ok(2)),
    Step::Take(Ok(3)),
    Step::Take(Ok(4)),
    Step::Take(Ok(5)),
    Step::Take(Ok(6)),
    Step::Take(Err(TakeError::NoRoom)),
    Step::Len(7),
    Step::GiveBack(3, Ok(())),
    Step::GiveBack(0, Ok(())),
    Step::GiveBack(6, Ok(())),
    Step::GiveBack(1, Ok(())),
    Step::GiveBack(5, Ok(())),
    Step::GiveBack(2, Ok(())),
    Step::GiveBack(4, Ok(())),
    Step::Len(0),
    Step::Take(Ok(7)),
    Step::Take(Ok(8)),
    Step::Take(Ok(9)),
    Step::Take(Ok(10)),
    Step::Take(Ok(11)),
    Step::Take(Ok(12)),
    Step::Take(Ok(13)),
    Step::Take(Err(TakeError::NoRoom)),
    Step::Len(7),
    // A handle that was returned never comes again.
    Step::GiveBack(0, Err(UnknownHandle)),
    Step::GiveBack(1, Err(UnknownHandle)),
    Step::GiveBack(2, Err(UnknownHandle)),
    Step::GiveBack(3, Err(UnknownHandle)),
    Step::GiveBack(4, Err(UnknownHandle)),
    Step::GiveBack(5, Err(UnknownHandle)),
    Step::GiveBack(6, Err(UnknownHandle)),
    Step::Get(0, Err(UnknownHandle)),
    Step::Get(1, Err(UnknownHandle)),
    Step::Get(2, Err(UnknownHandle)),
    Step::Get(3, Err(UnknownHandle)),
    Step::Get(4, Err(UnknownHandle)),
    Step::Get(5, Err(UnknownHandle)),
    Step::Get(6, Err(UnknownHandle)),
];

const ONE_IS_WRITTEN: &[Step] = &[
    Step::Take(Ok(0)),
    Step::Take(Ok(1)),
    Step::Take(Ok(2)),
    Step::Set(1, 2, b"abc", Ok(())),
    Step::Get(0, Ok(ZEROS)),
    Step::Get(1, Ok(b"\0\0abc\0\0\0\0\0\0\0\0\0\0\0")),
    Step::Get(2, Ok(ZEROS)),
    Step::Set(0, 0, b"0123456789abcdef", Ok(())),
    Step::Set(1, 13, b"xyz", Ok(())),
    Step::Get(0, Ok(b"0123456789abcdef")),
    Step::Get(1, Ok(b"\0\0abc\0\0\0\0\0\0\0\0xyz")),
    Step::Get(2, Ok(ZEROS)),
];

const TAKEN_AGAIN: &[Step] = &[
    Step::Take(Ok(0)),
    Step::Set(0, 0, b"0123456789abcdef", Ok(())),
    Step::GiveBack(0, Ok(())),
    Step::Take(Ok(1)),
    Step::Get(1, Ok(ZEROS)),
];

const REFUSED_WRITES: &[Step] = &[
    Step::Set(0, 99, b"", Err(SetError::UnknownHandle)),
    Step::Take(Ok(0)),
    Step::Set(0, 14, b"xyz", Err(SetError::OutOfRange)),
    Step::Set(0, 17, b"", Err(SetError::OutOfRange)),
    Step::Set(0, usize::MAX, b"xy", Err(SetError::OutOfRange)),
    Step::Set(0, 16, b"", Ok(())),
    Step::Get(0, Ok(ZEROS)),
];

const TOO_SMALL: &[Step] = &[Step::Take(Err(TakeError::NoRoom))];

/// How many bytes the pool is over, and its steps.
static SCRIPTS: [(usize, &[Step]); 5] = [
    (256, EMPTIED_IN_ANOTHER_ORDER),
    (256, ONE_IS_WRITTEN),
    (64, TAKEN_AGAIN),
    (64, REFUSED_WRITES),
    (63, TOO_SMALL),
];

#[test]
fn objects(rt: HostRuntime) {
    for (len, steps) in &SCRIPTS {
        let mut pool = pool(&rt, (4096, *len), 16, 8);
        none_is_wrong(&rt, first_wrong(&mut pool, steps));
    }
}

/// The start and the length of a memory, the size and the alignment of its objects, and how many may be out at once.
static CAPACITIES: [(usize, usize, usize, usize, usize); 16] = [
    (4096, 63, 16, 8, 0),
    (4096, 64, 16, 8, 1),
    (4096, 255, 16, 8, 6),
    (4096, 256, 16, 8, 7),
    // The pool begins at the next multiple of 32.
    (4097, 286, 16, 8, 6),
    (4097, 287, 16, 8, 7),
    // At multiples of 32 an object of 40 bytes takes 96.
    (4096, 288, 40, 32, 2),
    // Of 752 bytes, with 16 more, 100 fill a pool up to its end.
    (4096, 76831, 752, 16, 99),
    (4096, 76832, 752, 16, 100),
    // One of 700 bytes needs a block of 736, and a free one of 768 is sure to serve. The first object needs 800 bytes of the pool,
    // and each further one 736 and 736 more.
    (4096, 799, 700, 1, 0),
    (4096, 800, 700, 1, 1),
    (4096, 6687, 700, 1, 4),
    (4096, 6688, 700, 1, 5),
    // At multiples of 64 one of 64 bytes needs up to 128. The first needs 160 bytes, and each further one 128 and 96 more.
    (4096, 160, 64, 64, 1),
    (4096, 1279, 64, 64, 5),
    (4096, 1280, 64, 64, 6),
];

/// The number of objects until a pool has no room for one, at most 200.
fn taken(pool: &mut Objects) -> usize {
    for count in 0..200 {
        if pool.take() == Err(TakeError::NoRoom) {
            return count;
        }
    }
    200
}

#[test]
fn capacities(rt: HostRuntime) {
    for (start, len, size, align, capacity) in &CAPACITIES {
        let mut pool = pool(&rt, (*start, *len), *size, *align);
        are(&rt, &[pool.capacity(), taken(&mut pool)], &[*capacity; 2]);
    }
}
