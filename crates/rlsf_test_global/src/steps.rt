//! Calls as entries of tables, each with its expected result: an address, a number of bytes, 0 for done, or the number of an error.
//! They are calls of the value under the lock, and of the allocator with its lock.

ghost use Rattle.rlsf_base.specs.Layout.{IsLayout};

use crate::answers::all;
use rlsf_base::memory::{Addr, Layout};
use rlsf_global::GlobalError;
use std::num::NonZeroUsize;

/// A call. Addresses, sizes, alignments and new sizes are in the order of its arguments.
#[derive(Clone, Copy)]
pub enum Step {
    Alloc(usize, usize),
    Allocate(usize, usize),
    Dealloc(usize, usize, usize),
    Deallocate(usize),
    Realloc(usize, usize, usize, usize),
    Reallocate(usize, usize, usize),
    NoMove(usize, usize, usize, usize),
    Usable(usize),
    /// Writes so many bytes at an offset: 1, 2, ..
    Write(usize, usize, usize),
    /// Reads so many bytes at an offset, which are 1, 2, ..
    Read(usize, usize, usize),
}

/// What the call of a step is passed: its address, its layout, and another size that goes with the alignment.
#[derive(Clone, Copy)]
pub struct Arguments {
    pub addr: Addr,
    pub layout: Layout,
    pub new_size: usize,
    pub ghost valid: { IsLayout new_size layout.align },
}

/// The address, the size, the alignment and the new size in a step: 1 if it has no address, and those of no bytes if it has no size.
fn numbers_of(step: Step) -> (usize, usize, usize, usize) {
    match step {
        Step::Alloc(size, align) | Step::Allocate(size, align) => (1, size, align, size),
        Step::Dealloc(addr, size, align) | Step::Reallocate(addr, size, align) => {
            (addr, size, align, size)
        }
        Step::Realloc(addr, size, align, new_size) | Step::NoMove(addr, size, align, new_size) => {
            (addr, size, align, new_size)
        }
        Step::Write(addr, _, _) | Step::Read(addr, _, _) => (addr, 0, 1, 0),
        Step::Deallocate(addr) | Step::Usable(addr) => (addr, 0, 1, 0),
    }
}

/// What the call of a step is passed; nothing where it names no address or no layout.
pub fn arguments_of(step: Step) -> Option<Arguments> {
    let (addr, size, align, new_size) = numbers_of(step);
    let addr = NonZeroUsize::new(addr)?;
    match (
        Layout::from_size_align(size, align),
        Layout::from_size_align(new_size, align),
    ) {
        (Ok(layout), Ok(_)) => Some(Arguments {
            addr,
            layout,
            new_size,
        }),
        _ => None,
    }
}

/// What is written and read.
static RISING: [u8; 40] = [
    1, 2, 3, 4, 5, 6, 7, 8, 9, 10, 11, 12, 13, 14, 15, 16, 17, 18, 19, 20, 21, 22, 23, 24, 25, 26,
    27, 28, 29, 30, 31, 32, 33, 34, 35, 36, 37, 38, 39, 40,
];

/// So many bytes that are written, or read.
pub fn rising(len: usize) -> Option<&'static [u8]> {
    RISING.get(..len)
}

/// The number of an address, or that of the error.
pub fn placed(answer: Result<Addr, GlobalError>) -> usize {
    match answer {
        Ok(addr) => addr.get(),
        Err(error) => error as usize,
    }
}

/// 0 where a call was done, or the number of the error.
pub fn done(answer: Result<(), GlobalError>) -> usize {
    match answer {
        Ok(()) => 0,
        Err(error) => error as usize,
    }
}

/// A number of bytes, or the number of the error.
pub fn counted(answer: Result<usize, GlobalError>) -> usize {
    match answer {
        Ok(size) => size,
        Err(error) => error as usize,
    }
}

/// What the bytes are that a read goes into. A read that is refused has to leave them.
pub const UNREAD: [u8; 40] = [77; 40];

/// 0 if a read returned the first of the bytes that are written, or the number of the error.
pub fn told(answer: Result<(), GlobalError>, bytes: &[u8; 40], len: usize) -> usize {
    match answer {
        Ok(()) if bytes.get(..len) == rising(len) => 0,
        Err(error) if *bytes == UNREAD => error as usize,
        _ => OTHER_BYTES,
    }
}

/// The result if bytes aren't those that they should be.
const OTHER_BYTES: usize = 99;

/// The result if a step can't be done, since it names no address, no layout or too many bytes.
pub const NO_STEP: usize = 98;

pub const NO_ROOM: usize = GlobalError::NoRoom as usize;

pub const UNKNOWN_ADDRESS: usize = GlobalError::UnknownAddress as usize;

pub const WRONG_LAYOUT: usize = GlobalError::WrongLayout as usize;

const OUT_OF_RANGE: usize = GlobalError::OutOfRange as usize;

#[test]
fn errors_have_their_numbers(rt: HostRuntime) {
    let numbers = [
        NO_ROOM,
        UNKNOWN_ADDRESS,
        WRONG_LAYOUT,
        GlobalError::TableMemory as usize,
        OUT_OF_RANGE,
        GlobalError::JournalMemory as usize,
    ];
    all(&rt, &[numbers == [1, 2, 3, 4, 5, 6]]);
}

/// How many bytes an allocator has, from 65536 on, and calls with their results.
pub type Run = (usize, &'static [(Step, usize)]);

/// Runs that both kinds of allocators have.
pub static ALIKE: [Run; 7] = [
    (131072, &FREED),
    (131072, &WRITES),
    (131072, &READS),
    (131072, &MOVES),
    (131072, &STAYS),
    (131072, &SHRINKS),
    (131072, &ASKED),
];

/// Two allocations, the second of which needs another page. One that coalesces joins it with the first, if it is there.
pub static PAGES: [Run; 2] = [
    (
        196608,
        &[
            (Step::Allocate(1, 1), 65552),
            (Step::Allocate(70000, 1), 65584),
        ],
    ),
    (
        131072,
        &[
            (Step::Allocate(1, 1), 65552),
            (Step::Allocate(70000, 1), NO_ROOM),
        ],
    ),
];

/// The same of one that doesn't coalesce.
pub static SMALL_PAGES: [Run; 1] = [(
    196608,
    &[
        (Step::Allocate(1, 1), 65552),
        (Step::Allocate(70000, 1), 131088),
    ],
)];

/// An address that is strange, one that was freed, and one that was freed and provided again, which is live then.
const FREED: [(Step, usize); 16] = [
    (Step::Allocate(1, 1), 65552),
    (Step::Deallocate(65552), 0),
    (Step::Deallocate(65552), UNKNOWN_ADDRESS),
    (Step::Deallocate(7), UNKNOWN_ADDRESS),
    (Step::Dealloc(65552, 1, 1), UNKNOWN_ADDRESS),
    (Step::Usable(65552), UNKNOWN_ADDRESS),
    (Step::Read(65552, 0, 1), UNKNOWN_ADDRESS),
    (Step::Read(65552, 0, 0), UNKNOWN_ADDRESS),
    (Step::Write(65552, 0, 0), UNKNOWN_ADDRESS),
    (Step::Realloc(65552, 1, 1, 2), UNKNOWN_ADDRESS),
    (Step::Reallocate(65552, 1, 1), UNKNOWN_ADDRESS),
    (Step::NoMove(65552, 1, 1, 2), UNKNOWN_ADDRESS),
    (Step::Alloc(1, 1), 65552),
    (Step::Dealloc(65552, 1, 1), 0),
    (Step::Allocate(1, 1), 65552),
    (Step::Deallocate(65552), 0),
];

/// Bytes past the usable ones, and a layout that wasn't asked for.
const WRITES: [(Step, usize); 6] = [
    (Step::Allocate(1, 1), 65552),
    (Step::Write(65552, 10, 7), OUT_OF_RANGE),
    (Step::Write(65552, 10, 6), 0),
    (Step::Read(65552, 10, 6), 0),
    (Step::Dealloc(65552, 2, 1), WRONG_LAYOUT),
    (Step::Dealloc(65552, 1, 1), 0),
];

const READS: [(Step, usize); 6] = [
    (Step::Allocate(1, 1), 65552),
    (Step::Read(65552, 16, 0), 0),
    (Step::Read(65552, 17, 0), OUT_OF_RANGE),
    (Step::Read(65552, usize::MAX, 1), OUT_OF_RANGE),
    (Step::Read(7, usize::MAX, 1), UNKNOWN_ADDRESS),
    (Step::Usable(65552), 16),
];

/// A payload that gets another alignment moves, and its old address isn't live any more.
const MOVES: [(Step, usize); 8] = [
    (Step::Allocate(40, 8), 65552),
    (Step::Write(65552, 0, 40), 0),
    (Step::Reallocate(65552, 10, 64), 65664),
    (Step::Usable(65664), 32),
    (Step::Read(65664, 0, 10), 0),
    (Step::Deallocate(65552), UNKNOWN_ADDRESS),
    (Step::Deallocate(65664), 0),
    (Step::Deallocate(65664), UNKNOWN_ADDRESS),
];

/// The layout that counts is the one that was last asked for.
const STAYS: [(Step, usize); 4] = [
    (Step::Alloc(40, 8), 65552),
    (Step::NoMove(65552, 40, 8, 100), 65552),
    (Step::NoMove(65552, 40, 8, 20), WRONG_LAYOUT),
    (Step::NoMove(65552, 100, 8, 70000), NO_ROOM),
];

/// A payload that gets shorter in place: fewer bytes are usable, the next payload lies behind them, and the other bytes are
/// unchanged.
const SHRINKS: [(Step, usize); 11] = [
    (Step::Alloc(100, 8), 65552),
    (Step::Usable(65552), 112),
    (Step::Write(65552, 0, 40), 0),
    (Step::NoMove(65552, 100, 8, 20), 65552),
    (Step::Usable(65552), 48),
    (Step::Read(65552, 0, 40), 0),
    (Step::Alloc(1, 1), 65616),
    (Step::Read(65552, 0, 40), 0),
    (Step::Dealloc(65552, 100, 8), WRONG_LAYOUT),
    (Step::Dealloc(65552, 20, 8), 0),
    (Step::Dealloc(65616, 1, 1), 0),
];

/// A payload is freed by the layout with which it was allocated.
const ASKED: [(Step, usize); 6] = [
    (Step::Alloc(40, 8), 65552),
    (Step::Usable(65552), 48),
    (Step::Dealloc(65552, 41, 8), WRONG_LAYOUT),
    (Step::Dealloc(65552, 40, 16), WRONG_LAYOUT),
    (Step::Dealloc(65552, 40, 8), 0),
    (Step::Usable(65552), UNKNOWN_ADDRESS),
];
