//! Allocators with their pools, their results as numbers, and the words of their memories.

ghost use Rattle.std.specs.Prelude.{◌≡◌, ◌+◌, ◌≤◌, replicate};
ghost use Rattle.rlsf_base.specs.Range.{LiesIn, range_at};
ghost use Rattle.rlsf_model_sizes.specs.SizeClass.{IsValid};
ghost use Rattle.rlsf_test_tlsf.specs.Rows.{TakesRow};

use rlsf::int::BitPattern;
use rlsf::{Addr, Layout, Memory, Range, Tlsf};
use std::num::NonZeroUsize;
use std::process::Abort;

/// The shapes of most tests: chunks up to 8160 bytes, up to 131,072 bytes, and of any length.
pub(crate) type Small = Tlsf<u8, u8, 8, 8>;

pub(crate) type Wide = Tlsf<u16, u16, 12, 16>;

pub(crate) type Long = Tlsf<u64, u64, 59, 8>;

/// The layout of so many bytes at a multiple of a power of two.
pub(crate) fn layout_of(rt: &impl Abort, size: usize, align: usize) -> Layout
    ensures { (result.size ≡ size) × (result.align ≡ align) }
{
    Layout::from_size_align(size, align).expect(rt, "a layout")
}

/// A memory of so many bytes from an address on, all of them 0.
pub(crate) fn zeros(rt: &(impl Abort + AllocGlobal), start: usize, len: usize) -> Memory
    ensures start { result.start ≡ start }
    ensures bytes { result.bytes ≡ replicate len 0 }
{
    Memory::new(rt.alloc(), start, len).expect(rt, "memory")
}

/// Passes if the answers are the expected ones. Otherwise the failure shows an expected one that isn't there.
pub(crate) fn are(rt: &impl Abort, answers: &[usize], expected: &[usize]) {
    passes(rt, answers.len() == expected.len(), answers.len());
    for (index, wanted) in expected.iter().enumerate() {
        let answer = answers.get(index).copied();
        passes(rt, answer == Some(*wanted), *wanted);
    }
}

/// Passes if an answer is true. A number, as the index of a step, helps to find it.
pub(crate) fn passes(rt: &impl Abort, answer: bool, number: usize) {
    assert!(rt; answer, "at {number}");
}

/// Passes if all answers are true.
pub(crate) fn all(rt: &impl Abort, answers: &[bool]) {
    for (index, answer) in answers.iter().enumerate() {
        passes(rt, *answer, index);
    }
}

/// Passes if no step has another result than expected.
pub(crate) fn none_is_wrong(rt: &impl Abort, wrong: Option<usize>) {
    if let Some(step) = wrong {
        passes(rt, false, step);
    }
}

/// A step of a test, and its expected result.
#[derive(Clone, Copy)]
pub(crate) enum Step {
    /// Allocates for a size and an alignment: the payload's address, or 0.
    Allocate(usize, usize, usize),
    /// As above, and deallocates the payload.
    GiveBack(usize, usize, usize),
    /// Reads the word at an address.
    Word(usize, u64),
}

/// An allocator over a memory of these addresses, with the pool that was inserted, and the answer to that, or 0.
pub(crate) fn with_inserted<
    FLBitmap: BitPattern,
    SLBitmap: BitPattern,
    const FLLEN: usize,
    const SLLEN: usize,
>(
    rt: &(impl Abort + AllocGlobal),
    addresses: Range,
    pool: Range,
) -> (Tlsf<FLBitmap, SLBitmap, FLLEN, SLLEN>, usize)
    requires shape { IsValid FLBitmap.width SLBitmap.width FLLEN SLLEN }
    requires inside { LiesIn pool addresses.start addresses.len }
    ensures { TakesRow FLLEN pool result.0.state }
{
    let mut tlsf = Tlsf::new(zeros(rt, addresses.start, addresses.len));
    let taken = number(tlsf.insert_free_block_ptr(pool));
    (tlsf, taken)
}

/// An allocator over so many bytes from the address 4096 on, all of which are its pool.
pub(crate) fn with_pool(rt: &(impl Abort + AllocGlobal), len: usize) -> Small
    ensures { TakesRow 8 (range_at 4096 len) result.state }
{
    let mut tlsf = Small::new(zeros(rt, 4096, len));
    tlsf.insert_free_block(Range { start: 4096, len });
    tlsf
}

/// As above, in the wide shape.
pub(crate) fn wide(rt: &(impl Abort + AllocGlobal), len: usize) -> Wide
    ensures { TakesRow 12 (range_at 4096 len) result.state }
{
    let mut tlsf = Wide::new(zeros(rt, 4096, len));
    tlsf.insert_free_block(Range { start: 4096, len });
    tlsf
}

/// An address as a number, 0 if there is none.
pub(crate) fn number(addr: Option<Addr>) -> usize {
    addr.map_or(0, NonZeroUsize::get)
}

/// The address that is allocated for a layout, or 0; or 1, if there is no such layout. The payload is deallocated, unless it is to
/// stay.
fn asked<FLBitmap: BitPattern, SLBitmap: BitPattern, const FLLEN: usize, const SLLEN: usize>(
    tlsf: &mut Tlsf<FLBitmap, SLBitmap, FLLEN, SLLEN>,
    size: usize,
    align: usize,
    stays: bool,
) -> usize {
    let Ok(layout) = Layout::from_size_align(size, align) else {
        return 1;
    };
    match tlsf.allocate(layout) {
        Some(addr) => {
            if !stays {
                tlsf.deallocate(addr, layout.align());
            }
            addr.get()
        }
        None => 0,
    }
}

/// The word at an address, where the memory has one there.
pub(crate) fn word_at(memory: &Memory, addr: usize) -> Option<u64> {
    let offset = addr.checked_sub(memory.start())?;
    if addr % 8 == 0 && offset < memory.len() && memory.len() - offset >= 8 {
        Some(memory.word(addr))
    } else {
        None
    }
}

/// Whether a step has its expected result.
fn goes_so<FLBitmap: BitPattern, SLBitmap: BitPattern, const FLLEN: usize, const SLLEN: usize>(
    tlsf: &mut Tlsf<FLBitmap, SLBitmap, FLLEN, SLLEN>,
    step: Step,
) -> bool {
    match step {
        Step::Allocate(size, align, addr) => asked(tlsf, size, align, true) == addr,
        Step::GiveBack(size, align, addr) => asked(tlsf, size, align, false) == addr,
        Step::Word(addr, word) => word_at(tlsf.memory_ref(), addr) == Some(word),
    }
}

/// The index of the first step with a wrong result.
fn first_wrong<FLBitmap: BitPattern, SLBitmap: BitPattern, const FLLEN: usize, const SLLEN: usize>(
    tlsf: &mut Tlsf<FLBitmap, SLBitmap, FLLEN, SLLEN>,
    steps: &[Step],
) -> Option<usize> {
    for (index, step) in steps.iter().enumerate() {
        if !goes_so(tlsf, *step) {
            return Some(index);
        }
    }
    None
}

/// Passes if each step has its expected result.
pub(crate) fn takes_steps<
    FLBitmap: BitPattern,
    SLBitmap: BitPattern,
    const FLLEN: usize,
    const SLLEN: usize,
>(rt: &impl Abort, tlsf: &mut Tlsf<FLBitmap, SLBitmap, FLLEN, SLLEN>, steps: &[Step]) {
    none_is_wrong(rt, first_wrong(tlsf, steps));
}

/// Inserts a pool into a memory and does the steps. Passes if each has its expected result. Returns the allocator, and the bytes
/// used, or 0. The memory and the pool are a start and a length.
pub(crate) fn inserts<
    FLBitmap: BitPattern,
    SLBitmap: BitPattern,
    const FLLEN: usize,
    const SLLEN: usize,
>(
    rt: &(impl Abort + AllocGlobal),
    memory: (usize, usize),
    pool: (usize, usize),
    steps: &[Step],
) -> (Tlsf<FLBitmap, SLBitmap, FLLEN, SLLEN>, usize)
    requires shape { IsValid FLBitmap.width SLBitmap.width FLLEN SLLEN }
    requires inside { (memory.0 ≤ pool.0) × (pool.0 + pool.1 ≤ memory.0 + memory.1) }
{
    let addresses = Range {
        start: memory.0,
        len: memory.1,
    };
    let inserted = Range {
        start: pool.0,
        len: pool.1,
    };
    let (mut tlsf, taken) = with_inserted(rt, addresses, inserted);
    takes_steps(rt, &mut tlsf, steps);
    (tlsf, taken)
}
