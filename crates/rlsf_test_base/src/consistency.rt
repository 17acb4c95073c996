//! Tests of the check of a pool, on one whose words docs/TLSF.md describes: 256 bytes at 4096, in 8 rows of 8 classes. Blocks 4096 and
//! 4160 of 32 bytes are free, and so is block 4224 of 96. Blocks 4128 and 4192 of 32 are used.

ghost use Rattle.std.specs.Prelude.{◌≡◌, ◌<◌, ◌≤◌, length};

use crate::answers::{all, passes};
use rlsf_base::memory::{Layout, Memory, Range};
use rlsf_blocks::consistency_check::{are_consistent, is_consistent};
use rlsf_table::ClassTable;
use rlsf_tlsf::Tlsf;
use std::process::Abort;

const ALL: Range = Range {
    start: 4096,
    len: 256,
};

/// The words of the pool, eight to a line.
const WORDS: [u64; 32] = [
    32, 0, 0, 4160, 33, 4096, 0, 0, 32, 4128, 4096, 0, 33, 4160, 0, 0, 96, 4192, 0, 0, 0, 0, 0, 0,
    0, 0, 0, 0, 35, 4224, 0, 0,
];

/// Which of these words matter: headers, and the links of free blocks.
const MATTERS: [bool; 32] = [
    true, true, true, true, true, true, false, false, true, true, true, true, true, true, false,
    false, true, true, true, true, false, false, false, false, false, false, false, false, true,
    true, false, false,
];

/// Writes the words of the pool.
fn write_words(memory: &mut Memory)
    requires { (memory.old.start ≡ 4096) × (256 ≤ length memory.old.bytes) }
    ensures { (memory.new.start ≡ 4096) × (length memory.new.bytes ≡ length memory.old.bytes) }
{
    for i in 0..32 {
        memory.set_word(4096 + 8 * i, WORDS[i]);
    }
}

/// Returns the class table of the pool. The class of 32 bytes is the first of row 0, and that of 96 the fifth of row 1.
fn table_of(memory: &mut Memory) -> ClassTable<8, 8>
    ensures { (memory.new.start ≡ memory.old.start) × (length memory.new.bytes ≡ length memory.old.bytes) }
{
    let mut table = ClassTable::new();
    table.put(&mut memory.inner, 0, 0, 4160);
    table.put(&mut memory.inner, 1, 4, 4224);
    table
}

/// Returns whether a memory and a table are consistent over a range.
fn is_right(memory: &Memory, table: &ClassTable<8, 8>, range: Range) -> bool {
    is_consistent(&memory.inner, table, range)
}

/// Writes a wrong word in place of the one at an index, and then the right one again. Returns whether the check finds the wrong word, and
/// accepts the right one.
fn finds(memory: &mut Memory, table: &ClassTable<8, 8>, i: usize, wrong: u64) -> bool
    requires index { i < 32 }
    requires place { (memory.old.start ≡ 4096) × (length memory.old.bytes ≡ 256) }
    ensures { (memory.new.start ≡ 4096) × (length memory.new.bytes ≡ 256) }
{
    let addr = 4096 + 8 * i;
    memory.set_word(addr, wrong);
    let found = !is_right(memory, table, ALL);
    memory.set_word(addr, WORDS[i]);
    found && is_right(memory, table, ALL)
}

/// Whether wrong words at an index are found: one of another flag, one of another length or address, and another one.
fn finds_wrong_words(memory: &mut Memory, table: &ClassTable<8, 8>, i: usize) -> [bool; 5]
    requires index { i < 32 }
    requires place { (memory.old.start ≡ 4096) × (length memory.old.bytes ≡ 256) }
    ensures { (memory.new.start ≡ 4096) × (length memory.new.bytes ≡ 256) }
{
    let right = WORDS[i];
    [
        finds(memory, table, i, right ^ 1),
        finds(memory, table, i, right ^ 2),
        finds(memory, table, i, right.wrapping_add(32)),
        finds(memory, table, i, right.wrapping_sub(32)),
        finds(memory, table, i, right ^ 0x4545_4545_4545_4545),
    ]
}

/// The memory of the pool, all of whose bytes are 0 yet.
fn zeros(rt: &(impl Abort + AllocGlobal)) -> Memory
    ensures { (result.start ≡ 4096) × (length result.bytes ≡ 256) }
{
    Memory::new(rt.alloc(), 4096, 256).expect(rt, "a memory")
}

#[test]
fn each_wrong_word_is_found(rt: HostRuntime) {
    let mut memory = zeros(&rt);
    write_words(&mut memory);
    let table = table_of(&mut memory);
    all(&rt, &[is_right(&memory, &table, ALL)]);
    for i in 0..32 {
        let found = finds_wrong_words(&mut memory, &table, i);
        passes(&rt, found == [MATTERS[i]; 5], i);
    }
}

/// A start, a length, and whether the pool is consistent over that range.
static RANGES: [(usize, usize, bool); 9] = [
    // From the second block on, up to the sentinel, and past the memory.
    (4097, 255, false),
    (4096, 224, false),
    (4096, 255, false),
    (4096, 257, false),
    (8192, 32, false),
    (usize::MAX, usize::MAX, false),
    // No address is left, once the start is rounded.
    (4097, 31, true),
    (0, 0, true),
    (usize::MAX, 1, true),
];

#[test]
fn other_tables_and_ranges(rt: HostRuntime) {
    let mut memory = zeros(&rt);
    write_words(&mut memory);
    let mut table = table_of(&mut memory);
    for (index, (start, len, wanted)) in RANGES.iter().enumerate() {
        let range = Range {
            start: *start,
            len: *len,
        };
        passes(&rt, is_right(&memory, &table, range) == *wanted, index);
    }
    // The head of a class is a used block.
    table.put(&mut memory.inner, 0, 1, 4128);
    let used = is_right(&memory, &table, ALL);
    // A table without a block.
    let none = is_right(&memory, &ClassTable::new(), ALL);
    all(&rt, &[!used, !none]);
}

#[test]
fn an_allocator_is_consistent(rt: HostRuntime) {
    let mut pool: Tlsf<u8, u8, 8, 8> = Tlsf::new(zeros(&rt));
    pool.insert_free_block(ALL);
    let layout = Layout::from_size_align_unchecked(40, 16);
    let first = pool.allocate(layout);
    let second = pool.allocate(layout);
    let before = first.is_some() && second.is_some() && pool.is_consistent(ALL);
    if let Some(addr) = second {
        pool.deallocate(addr, layout.align());
    }
    let after = pool.is_consistent(ALL);
    // A chunk doesn't begin at the second block.
    let part = pool.is_consistent(Range {
        start: 4160,
        len: 192,
    });
    all(&rt, &[before, after, !part]);
}

/// Pools as numbers, and whether the words are those of a heap over them. The second pool is 64 bytes at 4352: its one block is free, and
/// leads the list of 32 bytes, whose others lie in the first pool.
static POOLS: [(&[usize], bool); 13] = [
    (&[4096, 256, 4352, 64], true),
    (&[4352, 64, 4096, 256], true),
    (&[4096, 320], true),
    (&[4065, 351], true),
    (&[4096, 256, 4352, 64, 4417, 31], true),
    (&[4096, 256, 4352, 64, 8192], true),
    // Without one of them, part of one, and more than them.
    (&[4096, 256], false),
    (&[4352, 64], false),
    (&[4096, 256, 4352, 32], false),
    (&[4128, 224, 4352, 64], false),
    (&[4096, 256, 4352, 96], false),
    (&[4096, 256, 4352, 64, 4416, 31], false),
    (&[], false),
];

/// Returns whether the words of a memory and a table are those of a heap over some pools.
fn are_right(memory: &Memory, table: &ClassTable<8, 8>, pools: &[usize]) -> bool {
    are_consistent(&memory.inner, table, pools)
}

/// Writes the words of the second pool, and the link to it.
fn write_second_pool(memory: &mut Memory)
    requires { (memory.old.start ≡ 4096) × (length memory.old.bytes ≡ 512) }
    ensures { (memory.new.start ≡ 4096) × (length memory.new.bytes ≡ 512) }
{
    memory.set_word(4184, 4352);
    memory.set_word(4352, 32);
    memory.set_word(4368, 4160);
    memory.set_word(4384, 35);
    memory.set_word(4392, 4352);
}

#[test]
fn words_of_two_pools(rt: HostRuntime) {
    let mut memory = Memory::new(rt.alloc(), 4096, 512).expect(&rt, "a memory");
    write_words(&mut memory);
    write_second_pool(&mut memory);
    let mut table = table_of(&mut memory);
    table.put(&mut memory.inner, 0, 0, 4352);
    for (index, (pools, wanted)) in POOLS.iter().enumerate() {
        passes(&rt, are_right(&memory, &table, pools) == *wanted, index);
    }
    // A heap without a pool.
    all(&rt, &[are_right(&memory, &ClassTable::new(), &[])]);
}
