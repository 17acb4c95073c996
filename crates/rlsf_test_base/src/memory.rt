//! Tests of the calls of a memory.

ghost use Rattle.std.specs.Prelude.{◌≡◌, ◌%◌, ◌^◌, ◌<◌, ◌≤◌, [], length, IsTrue};
ghost use Rattle.rlsf_base.specs.Range.{LiesIn};
ghost use Rattle.rlsf_base.specs.RawParts.{CanStart, LiesAtBlock};
ghost use Rattle.rlsf_base.specs.Space.{IsWord};

use crate::answers::{all, passes};
use rlsf_base::memory::{Memory, MemoryError, OpenMemory, Range, RawParts};
use std::alloc::Global;
use std::mem::size_of;
use std::process::Abort;
use std::rt::Files;
use std::{fs, thread};

const MAX: usize = usize::MAX;

/// What a memory is asked, and what it must answer.
#[derive(Clone, Copy)]
enum Step {
    /// Writes the word at an address.
    SetWord(usize, u64),
    /// Reads the word at an address.
    Word(usize, u64),
    /// Reads the word at an address, counted as one touch.
    Load(usize, u64),
    /// Counts one touch.
    Touch,
    /// Copies the bytes of a range to an address.
    Copy(Range, usize),
    /// Fills a range with a byte.
    Fill(Range, u8),
    /// Reads the bytes of a range.
    Bytes(Range, &'static [u8]),
}

/// Whether the range lies in the memory.
fn has(memory: &Memory, range: Range) -> bool
    ensures { IsTrue result → LiesIn range memory.now.start (length memory.now.bytes) }
{
    match range.start.checked_sub(memory.start()) {
        Some(offset) => offset <= memory.len() && range.len <= memory.len() - offset,
        None => false,
    }
}

/// Whether the memory has a word at the address.
fn has_word(memory: &Memory, addr: usize) -> bool
    ensures { IsTrue result → IsWord memory.now addr }
{
    addr % 8 == 0
        && has(
            memory,
            Range {
                start: addr,
                len: 8,
            },
        )
}

/// Copies the bytes of a range, if the memory has both places.
fn copied(memory: &mut Memory, range: Range, to: usize) -> bool {
    let place = Range {
        start: to,
        len: range.len,
    };
    let is_inside = has(memory, range) && has(memory, place);
    if is_inside {
        memory.copy_within(range, to);
    }
    is_inside
}

/// Fills a lent range, if the memory has it, and returns whether the range has the requested length.
fn filled(memory: &mut Memory, range: Range, byte: u8) -> bool {
    if !has(memory, range) {
        return false;
    }
    let lent = memory.slice_mut(range);
    lent.fill(byte);
    lent.len() == range.len
}

/// Whether the memory answers so. It doesn't where it lacks the place.
fn is_right(memory: &mut Memory, step: Step) -> bool {
    match step {
        Step::SetWord(addr, word) => {
            let is_inside = has_word(memory, addr);
            if is_inside {
                memory.set_word(addr, word);
            }
            is_inside
        }
        Step::Word(addr, word) => has_word(memory, addr) && memory.word(addr) == word,
        Step::Load(addr, word) => has_word(memory, addr) && memory.load(addr) == word,
        Step::Touch => {
            memory.touch();
            true
        }
        Step::Copy(range, to) => copied(memory, range, to),
        Step::Fill(range, byte) => filled(memory, range, byte),
        Step::Bytes(range, bytes) => has(memory, range) && memory.slice(range) == bytes,
    }
}

/// The index of the first step with a wrong result.
fn first_wrong(memory: &mut Memory, steps: &[Step]) -> Option<usize> {
    for (index, step) in steps.iter().enumerate() {
        if !is_right(memory, *step) {
            return Some(index);
        }
    }
    None
}

/// Whether a new memory has this start and length, and each step has its expected result.
fn goes_so(alloc: Global, start: usize, len: usize, steps: &[Step]) -> bool {
    let Ok(mut memory) = Memory::new(alloc, start, len) else {
        return false;
    };
    first_wrong(&mut memory, steps) == None && memory.start() == start && memory.len() == len
}

/// A start, a length, and why there is no such memory.
static REFUSED: [(usize, usize, Option<MemoryError>); 9] = [
    (0, 5, Some(MemoryError::ZeroStart)),
    (0, MAX, Some(MemoryError::ZeroStart)),
    (1, MAX, Some(MemoryError::TooLong)),
    (2, MAX - 1, Some(MemoryError::TooLong)),
    (MAX, 0, None),
    // So long that the system isn't asked.
    (1, MAX - 1, Some(MemoryError::OutOfMemory)),
    (4096, 1 << 63, Some(MemoryError::OutOfMemory)),
    (4096, 1 << 62, Some(MemoryError::OutOfMemory)),
    // No system has such a block.
    (4096, 1 << 60, Some(MemoryError::OutOfMemory)),
];

#[test]
fn refuses_in_order(rt: HostRuntime) {
    for (start, len, error) in &REFUSED {
        let refused = Memory::new(rt.alloc(), *start, *len).err();
        passes(&rt, refused == *error, *len);
    }
}

#[test]
fn as_large_as_a_list_of_bytes(rt: HostRuntime) {
    let size = size_of::<Memory>();
    let answers = [size == size_of::<Vec<u8>>(), size == 3 * size_of::<usize>()];
    all(&rt, &answers);
}

#[test]
fn errors_have_numbers(rt: HostRuntime) {
    let numbers = [
        MemoryError::ZeroStart as u8,
        MemoryError::TooLong as u8,
        MemoryError::OutOfMemory as u8,
    ];
    all(&rt, &[numbers == [1, 2, 3]]);
}

/// The range without a byte at the greatest address.
const NONE: Range = Range { start: MAX, len: 0 };

const EMPTY: &[Step] = &[
    Step::Fill(NONE, 0),
    Step::Copy(NONE, MAX),
    Step::Bytes(NONE, &[]),
];

const WORD_BETWEEN_ADDRESSES: &[Step] = &[
    Step::SetWord(4104, 0x0807060504030201),
    Step::Bytes(
        Range {
            start: 4102,
            len: 12,
        },
        &[0, 0, 1, 2, 3, 4, 5, 6, 7, 8, 0, 0],
    ),
    Step::Word(4104, 0x0807060504030201),
    Step::Touch,
    Step::Load(4104, 0x0807060504030201),
    Step::Word(4112, 0),
];

const WORD_AT_THE_GREATEST_ADDRESSES: &[Step] = &[
    Step::SetWord(MAX - 15, MAX as u64 - 1),
    Step::Word(MAX - 15, MAX as u64 - 1),
    Step::Word(MAX - 23, 0),
];

/// The address of the last word of a mebibyte.
const LAST: usize = 4096 + (1 << 20) - 8;

const FIRST_AND_LAST_WORD_OF_A_MEBIBYTE: &[Step] = &[
    Step::SetWord(4096, 0x0807060504030201),
    Step::SetWord(LAST, MAX as u64),
    Step::Word(4104, 0),
    Step::Word(LAST - 8, 0),
    Step::Word(4096, 0x0807060504030201),
    Step::Word(LAST, MAX as u64),
];

/// All addresses of a memory of 16 bytes.
const ALL: Range = Range {
    start: 4096,
    len: 16,
};

const COPY_UP: &[Step] = &[
    Step::SetWord(4096, 0x0807060504030201),
    Step::SetWord(4104, 0x100f0e0d0c0b0a09),
    Step::Copy(
        Range {
            start: 4096,
            len: 12,
        },
        4100,
    ),
    Step::Bytes(ALL, &[1, 2, 3, 4, 1, 2, 3, 4, 5, 6, 7, 8, 9, 10, 11, 12]),
];

const COPY_DOWN: &[Step] = &[
    Step::SetWord(4096, 0x0807060504030201),
    Step::SetWord(4104, 0x100f0e0d0c0b0a09),
    Step::Copy(
        Range {
            start: 4100,
            len: 12,
        },
        4096,
    ),
    Step::Bytes(
        ALL,
        &[5, 6, 7, 8, 9, 10, 11, 12, 13, 14, 15, 16, 13, 14, 15, 16],
    ),
];

const LENT_RANGE: &[Step] = &[
    Step::SetWord(4096, 0x0807060504030201),
    Step::SetWord(4104, 0x100f0e0d0c0b0a09),
    Step::Fill(
        Range {
            start: 4099,
            len: 3,
        },
        0,
    ),
    Step::Bytes(
        Range {
            start: 4096,
            len: 8,
        },
        &[1, 2, 3, 0, 0, 0, 7, 8],
    ),
];

/// A start, a length, and the steps of the memory.
static SCRIPTS: [(usize, usize, &[Step]); 7] = [
    (MAX, 0, EMPTY),
    (4097, 23, WORD_BETWEEN_ADDRESSES),
    (MAX - 23, 23, WORD_AT_THE_GREATEST_ADDRESSES),
    (4096, 1 << 20, FIRST_AND_LAST_WORD_OF_A_MEBIBYTE),
    (4096, 16, COPY_UP),
    (4096, 16, COPY_DOWN),
    (4096, 16, LENT_RANGE),
];

#[test]
fn steps(rt: HostRuntime) {
    for (start, len, steps) in &SCRIPTS {
        let is_so = goes_so(rt.alloc(), *start, *len, steps);
        passes(&rt, is_so, *len);
    }
}

/// The number in front of the first space.
fn first_number(text: &str) -> Option<usize> {
    let (word, _) = text.split_once(' ')?;
    word.parse().ok()
}

/// How many bytes of addresses the process has, by the pages that the system reports.
fn mapped(rt: &(impl Abort + Files + AllocGlobal)) -> usize {
    let sizes = fs::read_to_string(rt, "/proc/self/statm").expect(rt, "a file");
    let pages = first_number(&sizes).expect(rt, "a number");
    pages.saturating_mul(4096)
}

/// Frees 512 MiB of memories, each as long as those that the test counts. Under `rt try` a process keeps 256 MiB of freed memory, to find
/// uses of it. What is freed from then on takes the place of what was freed before.
fn free_memories(rt: &(impl Abort + AllocGlobal)) {
    for _ in 0..512 {
        let memory = OpenMemory::reserve(rt.alloc(), 4096, 1 << 20);
        memory.expect(rt, "a memory").free();
    }
}

// Those of each start are 32 MiB together, so a process that stays below 16 MiB more than before has freed them.
#[test]
fn dropped_memories_are_given_back(rt: HostRuntime) {
    let steps = [Step::SetWord(4104, 1), Step::Word(4104, 1)];
    free_memories(&rt);
    let before = mapped(&rt);
    for round in 0..96 {
        // Multiples of 16, of 8 and of 1.
        let start = 4096 + [0, 8, 1][round % 3];
        let is_so = goes_so(rt.alloc(), start, 1 << 20, &steps);
        let then = mapped(&rt);
        all(&rt, &[is_so, then.saturating_sub(before) < 1 << 24]);
    }
}

/// A memory of the bytes that another memory left, at the addresses from `start` on.
fn readdressed(alloc: Global, start: usize, len: usize, parts: RawParts) -> Memory
    requires { LiesAtBlock parts × (parts.bytes.out ≡ []) × (parts.len ≡ len) × (parts.start % 16 ≡ start % 16) × CanStart start len }
    ensures start { result.start ≡ start }
    ensures bytes { result.bytes ≡ parts.bytes.bytes }
{
    let block = parts.release();
    unsafe { Memory::from_raw_parts(alloc, block, start, len) }
}

const MOVED: &[Step] = &[
    Step::SetWord(8192, 3),
    Step::Bytes(
        Range {
            start: 8192,
            len: 17,
        },
        &[3, 0, 0, 0, 0, 0, 0, 0, 1, 2, 3, 4, 5, 6, 7, 8, 0],
    ),
];

/// Whether a block keeps its bytes from one memory to the next. The second is dropped before the answer.
fn block_keeps_its_bytes(first: Global, second: Global, len: usize) -> bool
    requires { (24 ≤ len) × (len < 2 ^ 32) }
{
    let Ok(mut memory) = Memory::new(first, 4096, len) else {
        return false;
    };
    let before = first_wrong(&mut memory, &[Step::SetWord(4104, 0x0807060504030201)]);
    if memory.start() != 4096 || memory.len() != len {
        return false;
    }
    let parts = memory.into_raw_parts();
    let is_told = parts.start == 4096 && parts.len == len;
    let mut moved = readdressed(second, 8192, len, parts);
    let is_placed = moved.start() == 8192 && moved.len() == len;
    before == None && is_told && is_placed && first_wrong(&mut moved, MOVED) == None
}

// The block has 96 MiB, so a process that has 64 MiB more than before hasn't freed it.
#[test]
fn dropped_memory_leaves_the_block_of_its_caller(rt: HostRuntime) {
    let before = mapped(&rt);
    let is_kept = block_keeps_its_bytes(rt.alloc(), rt.alloc(), 3 << 25);
    let then = mapped(&rt);
    all(&rt, &[is_kept, then.saturating_sub(before) > 1 << 26]);
}

const WRITTEN: &[Step] = &[
    Step::SetWord(4096, 0x0807060504030201),
    Step::SetWord(4104, 0x100f0e0d0c0b0a09),
];

const SEEN: &[Step] = &[Step::Bytes(
    ALL,
    &[1, 2, 3, 4, 5, 6, 7, 8, 9, 10, 11, 12, 13, 14, 15, 16],
)];

#[test]
fn crosses_threads(rt: HostRuntime) {
    let mut memory = Memory::new(rt.alloc(), 4096, 16).expect(&rt, "a memory");
    let before = first_wrong(&mut memory, WRITTEN);
    let child = thread::spawn(&rt, move || memory).ok();
    let mut back = child.expect(&rt, "a thread").join(&rt);
    let after = first_wrong(&mut back, SEEN);
    let is_same = back.start() == 4096 && back.len() == 16;
    all(&rt, &[before == None, after == None, is_same]);
}
