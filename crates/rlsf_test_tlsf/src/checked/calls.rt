//! Scripts of calls, each with what it answers. Payloads lie at the first multiple of their alignment that leaves 16 bytes before it, and
//! blocks are as short as multiples of 32 allow.

use super::pools::{START, Small, at, number, small};
use crate::bytes::is_all;
use crate::pools::{all, layout_of, passes, zeros};
use rlsf_base::memory::Range;
use rlsf_checked::{CheckedError, CheckedTlsf};
use std::process::Abort;

/// A call, and what it answers.
#[derive(Clone, Copy)]
pub(super) enum Step {
    Insert(usize, usize, Result<usize, CheckedError>),
    Append(usize, usize, Result<usize, CheckedError>),
    Allocate(usize, usize, Result<usize, CheckedError>),
    Deallocate(usize, Result<(), CheckedError>),
    Reallocate(usize, usize, Result<usize, CheckedError>),
    ReallocateThere(usize, usize, Result<usize, CheckedError>),
    Usable(usize, Result<usize, CheckedError>),
    Payload(usize, Result<usize, CheckedError>),
    Write(usize, usize, &'static [u8], Result<(), CheckedError>),
    Read(usize, usize, Result<[u8; 4], CheckedError>),
    Copy(usize, usize, usize, Result<(), CheckedError>),
    Fill(usize, u8, Result<(), CheckedError>),
    Block(usize, usize, usize, bool),
    Remove(usize, usize, Result<(), CheckedError>),
    RemoveLast(bool),
    /// The address at which the first block from another address on begins, or 0.
    Next(usize, usize),
    /// How many payloads there are, the used and the free bytes, and the bytes of the longest free block.
    Totals([usize; 4]),
    /// A payload, an offset, and how many bytes are read from there on, up to 900. Each of them is 7.
    Sevens(usize, usize, usize),
}

/// How many bytes a payload has.
fn len_of(pool: &Small, rt: &impl Abort, addr: usize) -> Result<usize, CheckedError> {
    Ok(pool.payload(at(rt, addr))?.len())
}

/// Four bytes of a payload from an offset on.
fn read_four(
    pool: &Small,
    rt: &impl Abort,
    addr: usize,
    offset: usize,
) -> Result<[u8; 4], CheckedError> {
    let mut bytes = [9; 4];
    pool.read(at(rt, addr), offset, &mut bytes)?;
    Ok(bytes)
}

/// Whether the block at this place of the iteration is this one.
fn has_block(pool: &Small, place: usize, start: usize, size: usize, is_used: bool) -> bool {
    match pool.blocks().nth(place) {
        Some(block) => block.as_ptr().start == start
            && block.size() == size
            && block.is_occupied() == is_used,
        None => false,
    }
}

/// The address at which the first block from another address on begins, or 0.
fn next(pool: &Small, from: usize) -> usize {
    match pool.next_block(from) {
        Some(block) => block.as_ptr().start,
        None => 0,
    }
}

/// How many payloads there are, the used and the free bytes, and the bytes of the longest free block.
fn totals(pool: &Small) -> [usize; 4] {
    let totals = pool.totals();
    [totals.payloads, totals.used, totals.free, totals.longest]
}

/// Whether so many bytes of a payload from an offset on are all 7.
fn has_sevens(pool: &Small, rt: &impl Abort, addr: usize, offset: usize, len: usize) -> bool {
    let mut bytes = [0; 900];
    let read = &mut bytes[..len.min(900)];
    pool.read(at(rt, addr), offset, read).is_ok() && is_all(read, 7)
}

/// Whether a call on ranges, on all blocks or on all of a payload has its expected result.
fn is_so(pool: &mut Small, rt: &impl Abort, step: &Step) -> bool {
    match step {
        Step::Remove(start, len, wanted) => pool.remove_pool(Range {
            start: *start,
            len: *len,
        }) == *wanted,
        Step::RemoveLast(wanted) => pool.remove_last() == *wanted,
        Step::Next(from, wanted) => next(pool, *from) == *wanted,
        Step::Totals(wanted) => totals(pool) == *wanted,
        Step::Sevens(addr, offset, len) => has_sevens(pool, rt, *addr, *offset, *len),
        Step::Copy(from, to, len, wanted) => pool.copy(at(rt, *from), at(rt, *to), *len) == *wanted,
        Step::Fill(addr, value, wanted) => pool.fill(at(rt, *addr), *value) == *wanted,
        _ => false,
    }
}

/// Whether a call on a payload has its expected result.
fn answers_as(pool: &mut Small, rt: &impl Abort, step: &Step) -> bool {
    match step {
        Step::Insert(start, len, wanted) => pool.insert(Range {
            start: *start,
            len: *len,
        }) == *wanted,
        Step::Append(start, len, wanted) => pool.append(Range {
            start: *start,
            len: *len,
        }) == *wanted,
        Step::Allocate(size, align, wanted) => number(pool.allocate(layout_of(rt, *size, *align)))
            == *wanted,
        Step::Deallocate(addr, wanted) => pool.deallocate(at(rt, *addr)) == *wanted,
        Step::Reallocate(addr, size, wanted) => number(pool.reallocate(at(rt, *addr), *size))
            == *wanted,
        Step::ReallocateThere(addr, size, wanted) => number(pool.reallocate_no_move(
            at(rt, *addr),
            *size,
        )) == *wanted,
        Step::Usable(addr, wanted) => pool.usable_size(at(rt, *addr)) == *wanted,
        Step::Payload(addr, wanted) => len_of(pool, rt, *addr) == *wanted,
        Step::Write(addr, offset, bytes, wanted) => pool.write(at(rt, *addr), *offset, bytes)
            == *wanted,
        Step::Read(addr, offset, wanted) => read_four(pool, rt, *addr, *offset) == *wanted,
        Step::Block(place, start, size, is_used) => has_block(
            pool, *place, *start, *size, *is_used,
        ),
        _ => is_so(pool, rt, step),
    }
}

/// Passes if the calls have their expected results, one after another.
pub(super) fn answers_all(pool: &mut Small, rt: &impl Abort, steps: &[Step]) {
    for (index, step) in steps.iter().enumerate() {
        passes(rt, answers_as(pool, rt, step), index);
    }
}

const SIZES: &[Step] = &[
    Step::Insert(4096, 1024, Ok(1024)),
    Step::Allocate(100, 32, Ok(4128)),
    Step::Usable(4128, Ok(128)),
    Step::Payload(4128, Ok(128)),
    Step::Allocate(10, 1, Ok(4272)),
    Step::Write(4128, 5, &[1, 2, 3], Ok(())),
    Step::ReallocateThere(4128, 128, Ok(4128)),
    Step::ReallocateThere(4128, 129, Err(CheckedError::NoRoom)),
    Step::Reallocate(4128, 200, Ok(4320)),
    Step::Usable(4320, Ok(224)),
    Step::Usable(4128, Err(CheckedError::UnknownAddress)),
    Step::Read(4320, 4, Ok([0, 1, 2, 3])),
    Step::Block(0, 4096, 160, false),
    Step::Block(1, 4256, 32, true),
    Step::Block(2, 4288, 256, true),
    Step::Block(3, 4544, 544, false),
    Step::Deallocate(4320, Ok(())),
    Step::Deallocate(4272, Ok(())),
    Step::Block(0, 4096, 992, false),
];

const RANGES: &[Step] = &[
    Step::Append(4096, 128, Err(CheckedError::NotNext)),
    Step::Insert(4000, 200, Err(CheckedError::OutsideMemory)),
    Step::Insert(4096, 1025, Err(CheckedError::OutsideMemory)),
    Step::Insert(4096, 63, Err(CheckedError::TooShort)),
    // From 4128 on, 96 bytes of the range can be taken, after 28 that are skipped.
    Step::Insert(4100, 127, Ok(124)),
    Step::Insert(4223, 200, Err(CheckedError::NotBehind)),
    Step::Insert(4224, 64, Ok(64)),
    Step::Append(4288, 833, Err(CheckedError::OutsideMemory)),
    Step::Append(4320, 128, Err(CheckedError::NotNext)),
    Step::Append(4288, 63, Err(CheckedError::TooShort)),
    // With 12 first-level rows chunks have a greatest length, so the range is a chunk of its own.
    Step::Append(4288, 140, Ok(128)),
    Step::Block(0, 4224, 32, false),
    Step::Block(1, 4288, 96, false),
    Step::Insert(5120, 0, Err(CheckedError::TooShort)),
];

const REFUSALS: &[Step] = &[
    Step::Insert(4096, 1024, Ok(1024)),
    Step::Allocate(100, 1, Ok(4112)),
    Step::Allocate(960, 1, Err(CheckedError::NoRoom)),
    Step::Reallocate(4112, 18446744073709551615, Err(CheckedError::NoLayout)),
    Step::Reallocate(4112, 9223372036854775808, Err(CheckedError::NoLayout)),
    Step::Reallocate(4112, 9223372036854775807, Err(CheckedError::NoRoom)),
    Step::ReallocateThere(4112, 9223372036854775808, Err(CheckedError::NoLayout)),
    Step::ReallocateThere(4112, 1000, Err(CheckedError::NoRoom)),
    Step::Write(4112, 112, &[1], Err(CheckedError::OutOfRange)),
    Step::Write(
        4112,
        18446744073709551615,
        &[1],
        Err(CheckedError::OutOfRange),
    ),
    Step::Write(4112, 112, &[], Ok(())),
    Step::Read(4112, 109, Err(CheckedError::OutOfRange)),
    Step::Read(4112, 108, Ok([0, 0, 0, 0])),
    Step::Deallocate(4112, Ok(())),
    Step::Deallocate(4112, Err(CheckedError::UnknownAddress)),
];

const COPIES: &[Step] = &[
    Step::Insert(4096, 1024, Ok(1024)),
    Step::Allocate(100, 1, Ok(4112)),
    Step::Allocate(20, 1, Ok(4240)),
    Step::Write(4112, 0, &[1, 2, 3, 4], Ok(())),
    Step::Write(4240, 0, &[5, 6, 7, 8], Ok(())),
    Step::Copy(4112, 4240, 2, Ok(())),
    Step::Read(4112, 0, Ok([1, 2, 3, 4])),
    Step::Read(4240, 0, Ok([1, 2, 7, 8])),
    Step::Copy(4112, 4240, 49, Err(CheckedError::OutOfRange)),
    Step::Fill(4240, 7, Ok(())),
    Step::Sevens(4240, 0, 48),
    Step::Read(4112, 0, Ok([1, 2, 3, 4])),
];

const ALIGNED: &[Step] = &[
    Step::Insert(4096, 1024, Ok(1024)),
    Step::Allocate(65, 64, Ok(4160)),
    Step::Usable(4160, Ok(96)),
    // 90 isn't rounded up to 128, a multiple of the alignment.
    Step::ReallocateThere(4160, 90, Ok(4160)),
    Step::Usable(4160, Ok(96)),
];

static SCRIPTS: [&[Step]; 5] = [SIZES, RANGES, REFUSALS, COPIES, ALIGNED];

#[test]
fn scripts(rt: HostRuntime) {
    for script in &SCRIPTS {
        answers_all(&mut small(&rt, 1024), &rt, script);
    }
}

/// Passes if every call on this address of a payload is refused.
fn is_strange(pool: &mut Small, rt: &impl Abort, addr: usize) {
    let strange = CheckedError::UnknownAddress;
    let steps = [
        Step::Usable(addr, Err(strange)),
        Step::Payload(addr, Err(strange)),
        Step::Read(addr, 0, Err(strange)),
        Step::Write(addr, 0, &[1], Err(strange)),
        Step::Copy(addr, 4112, 0, Err(strange)),
        Step::Copy(4112, addr, 0, Err(strange)),
        Step::Fill(addr, 1, Err(strange)),
        Step::Reallocate(addr, 18446744073709551615, Err(strange)),
        Step::ReallocateThere(addr, 18446744073709551615, Err(strange)),
        Step::Deallocate(addr, Err(strange)),
    ];
    answers_all(pool, rt, &steps);
}

/// A payload of 100 bytes at 4112.
const ONE_PAYLOAD: &[Step] = &[
    Step::Insert(4096, 1024, Ok(1024)),
    Step::Allocate(100, 1, Ok(4112)),
];

/// Addresses at which no payload lies: before, in and behind the memory, and in the payload that lies at 4112.
static STRANGE: [usize; 14] = [
    1,
    16,
    4095,
    4096,
    4097,
    4104,
    4111,
    4113,
    4120,
    4128,
    5104,
    5120,
    5136,
    18446744073709551615,
];

#[test]
fn strange_addresses_are_refused(rt: HostRuntime) {
    let mut pool = small(&rt, 1024);
    answers_all(&mut pool, &rt, ONE_PAYLOAD);
    for addr in &STRANGE {
        is_strange(&mut pool, &rt, *addr);
    }
    answers_all(&mut pool, &rt, &[Step::Usable(4112, Ok(112))]);
}

#[test]
fn classes_are_tested(rt: HostRuntime) {
    let alloc = rt.alloc();
    let too_many_rows = CheckedTlsf::<u8, u8, 9, 4>::new(alloc, zeros(&rt, START, 64)).err();
    let no_rows = CheckedTlsf::<u8, u8, 0, 4>::new(alloc, zeros(&rt, START, 64)).err();
    let no_power_of_two = CheckedTlsf::<u8, u8, 8, 3>::new(alloc, zeros(&rt, START, 64)).err();
    let too_many_classes = CheckedTlsf::<u8, u8, 8, 16>::new(alloc, zeros(&rt, START, 64)).err();
    let most = CheckedTlsf::<u8, u8, 8, 8>::new(alloc, zeros(&rt, START, 64)).err();
    let errors = [
        too_many_rows,
        no_rows,
        no_power_of_two,
        too_many_classes,
        most,
    ];
    let invalid = Some(CheckedError::InvalidClasses);
    all(&rt, &[errors == [invalid, invalid, invalid, invalid, None]]);
}

/// Chunks of any length.
type Growing = CheckedTlsf<u64, u64, 59, 8>;

/// What is taken of a range, of a few bytes behind it and of more, where the last chunk grows.
fn grown(pool: &mut Growing) -> [Result<usize, CheckedError>; 3] {
    [
        pool.insert(Range {
            start: 4096,
            len: 128,
        }),
        pool.append(Range {
            start: 4224,
            len: 31,
        }),
        pool.append(Range {
            start: 4224,
            len: 70,
        }),
    ]
}

/// The size of the first block.
fn first_size(pool: &Growing) -> Option<usize> {
    match pool.blocks().next() {
        Some(block) => Some(block.size()),
        None => None,
    }
}

#[test]
fn the_last_chunk_grows(rt: HostRuntime) {
    let pool = Growing::new(rt.alloc(), zeros(&rt, START, 1024));
    let mut pool = pool.expect(&rt, "an allocator");
    let taken = grown(&mut pool);
    let expected = [Ok(128), Err(CheckedError::TooShort), Ok(64)];
    all(&rt, &[taken == expected, first_size(&pool) == Some(160)]);
}
