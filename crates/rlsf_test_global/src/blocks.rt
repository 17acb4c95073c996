//! The blocks that calls leave, by their words in the memory.

use crate::answers::{all, memory};
use crate::runs::first_wrong;
use crate::steps::{PAGES, Step};
use rlsf_base::memory::Memory;
use rlsf_global::Locked;
use std::process::Abort;
use std::sync::Wait;

/// The word at an address, if the memory has it.
fn word_at(memory: &Memory, addr: usize) -> Option<u64> {
    let offset = addr.checked_sub(memory.start())?;
    if addr % 8 == 0 && offset <= memory.len() && memory.len() - offset >= 8 {
        Some(memory.word(addr))
    } else {
        None
    }
}

/// The address of the first word that isn't the one beside it.
fn first_wrong_word(memory: &Memory, words: &[(usize, u64)]) -> Option<usize> {
    for (addr, word) in words {
        if word_at(memory, *addr) != Some(*word) {
            return Some(*addr);
        }
    }
    None
}

/// A used block of 32 bytes, one of 70016, a free one of 126528 and the chunk's end.
static GROWN: [(usize, u64); 10] = [
    (65536, 33),
    (65544, 0),
    (65568, 70017),
    (65576, 65536),
    (135584, 126528),
    (135592, 65568),
    (135600, 0),
    (135608, 0),
    (262112, 35),
    (262120, 135584),
];

/// Passes if calls on an allocator over so many bytes have the results beside them, and leave these words.
fn leave(
    rt: &(impl Abort + AllocGlobal + Wait),
    len: usize,
    steps: &[(Step, usize)],
    words: &[(usize, u64)],
) {
    let mut locked = Locked::<()>::new(rt.alloc(), memory(rt, rt.alloc(), len));
    let step = first_wrong(rt, &mut locked, steps);
    let word = first_wrong_word(locked.memory_ref(), words);
    all(rt, &[step.is_none(), word.is_none()]);
}

#[test]
fn a_chunk_that_grew(rt: HostRuntime) {
    let (len, steps) = PAGES[0];
    leave(&rt, len, steps, &GROWN);
}

/// A free block of 64 bytes, a used one of 96 with the word before its payload, a free one of 65344, and the end.
static MOVED: [(usize, u64); 13] = [
    (65536, 64),
    (65544, 0),
    (65552, 0),
    (65560, 0),
    (65600, 97),
    (65608, 65536),
    (65656, 65600),
    (65696, 65344),
    (65704, 65600),
    (65712, 0),
    (65720, 0),
    (131040, 35),
    (131048, 65696),
];

#[test]
fn a_payload_that_moved(rt: HostRuntime) {
    let steps = [
        (Step::Allocate(40, 8), 65552),
        (Step::Reallocate(65552, 10, 64), 65664),
    ];
    leave(&rt, 131072, &steps, &MOVED);
}
