//! Heaps to which ranges of a memory are lent. Each range goes back with all of its bytes, wherever it begins and however long it is.
ghost use Rattle.std.specs.Prelude.{◌≡◌, true, length};
ghost use Rattle.rlsf_base.specs.declared.memory.range.Range.{Range};
ghost use Rattle.rlsf_base.specs.Piece.{IsFull};
ghost use Rattle.rlsf_base.specs.Range.{AreApart, LiesIn};
ghost use Rattle.rlsf_model.specs.Insert.{IsUntouched};
ghost use Rattle.rlsf_heap.specs.Heap.{IsLent, lent_bytes};
ghost use Rattle.rlsf_heap.specs.Lending.{HasPool, KeepsPlace, KeepsPools};
ghost use Rattle.rlsf_heap.specs.Settled.{IsSettled};

use crate::answers::are;
use rlsf_base::memory::{OpenMemory, Part, Range};
use rlsf_heap::Heap;
use std::alloc::Global;
use std::process::Abort;

/// 12 rows of 16 classes, with chunks of up to 131,072 bytes.
type Small = Heap<u16, u16, 12, 16>;

/// Lends a range, inserts it and reclaims it. Returns the number of bytes taken, and of those that come back.
fn back_and_forth(heap: Small, part: Part, range: Range) -> Option<[usize; 2]>
    requires empty { (r : Range) → IsUntouched heap.state.chunks r }
    requires lies { LiesIn range heap.memory.start (length heap.memory.bytes) }
    requires lent { heap.lent ≡ true }
    requires part { (part.home ≡ heap.identity.home) × (range.start ≡ part.start) × (range.len ≡ length part.bytes) × IsFull part }
{
    let mut heap = heap;
    heap.lend(part);
    match heap.insert_free_block_ptr(range) {
        Some(taken) => {
            let part = heap.reclaim_pool(range, taken.get())?;
            Some([taken.get(), part.len()])
        }
        None => {
            let part = heap.reclaim_pool(range, 0)?;
            Some([0, part.len()])
        }
    }
}

/// Does that in a new heap. The range lies in it.
fn round_trip(alloc: Global, start: usize, len: usize) -> Option<[usize; 2]> {
    if start < 4096 || start > 8192 || len > 4096 {
        return None;
    }
    let memory = OpenMemory::new(alloc, 4096, 16384).ok()?;
    let mut heap = Small::over_lent(memory);
    let range = Range { start, len };
    let part = heap.reclaim(range);
    back_and_forth(heap, part, range)
}

/// The lengths of ranges, and the numbers of bytes taken at the addresses 8192, 8177, 8176 and 8161: the first multiple of 32 is 0, 15, 16 and
/// 31 bytes behind them.
const TAKEN: [(usize, [usize; 4]); 10] = [
    (0, [0, 0, 0, 0]),
    (15, [0, 0, 0, 0]),
    (16, [0, 0, 0, 0]),
    (31, [0, 0, 0, 0]),
    (32, [0, 0, 0, 0]),
    (63, [0, 0, 0, 0]),
    (64, [64, 0, 0, 0]),
    (95, [64, 79, 80, 95]),
    (127, [96, 111, 112, 127]),
    (128, [128, 111, 112, 127]),
];

/// Passes if a range at an address takes so many bytes, and comes back.
fn returns(rt: &(impl Abort + AllocGlobal), start: usize, len: usize, taken: usize) {
    let answers = round_trip(rt.alloc(), start, len).unwrap_or([9999, 9999]);
    are(rt, &answers, &[taken, len]);
}

#[test]
fn ranges_of_any_length_go_back(rt: HostRuntime) {
    for (len, taken) in TAKEN {
        let [first, second, third, fourth] = taken;
        returns(&rt, 8192, len, first);
        returns(&rt, 8177, len, second);
        returns(&rt, 8176, len, third);
        returns(&rt, 8161, len, fourth);
    }
}

/// Three ranges that lie apart, the second one below the first.
const FIRST: Range = Range {
    start: 16384,
    len: 1024,
};

const BELOW: Range = Range {
    start: 4101,
    len: 500,
};

const LAST: Range = Range {
    start: 20011,
    len: 1000,
};

/// Inserts a lent range. Returns the number of bytes taken.
fn insert(heap: &mut Small, range: Range) -> usize
    requires lies { LiesIn range heap.old.memory.start (length heap.old.memory.bytes) }
    requires untouched { IsUntouched heap.old.state.chunks range }
    requires lent { IsLent heap.old range }
    ensures heap { KeepsPlace heap.old heap.new }
    ensures lent { lent_bytes heap.new ≡ lent_bytes heap.old }
    ensures pool { HasPool heap.new.state.chunks range result }
    ensures pools { KeepsPools heap.old.state.chunks heap.new.state.chunks range }
    ensures untouched { (r : Range) → IsUntouched heap.old.state.chunks r → AreApart range r → IsUntouched heap.new.state.chunks r }
    ensures settled { IsSettled heap.old.memory → IsSettled heap.new.memory }
{
    match heap.insert_free_block_ptr(range) {
        Some(taken) => taken.get(),
        None => 0,
    }
}

/// Inserts the three ranges, and reclaims each. Returns the numbers of bytes taken, and of those that come back.
fn three(heap: Small) -> Option<[usize; 6]>
    requires empty { (r : Range) → IsUntouched heap.state.chunks r }
    requires place { (heap.memory.start ≡ 4096) × (length heap.memory.bytes ≡ 32768) × (heap.lent ≡ true) }
    requires lent { (r : Range) → LiesIn r 4096 32768 → IsLent heap r }
{
    let mut heap = heap;
    let first = insert(&mut heap, FIRST);
    let below = insert(&mut heap, BELOW);
    let last = insert(&mut heap, LAST);
    let below_len = heap.reclaim_pool(BELOW, below)?.len();
    let first_len = heap.reclaim_pool(FIRST, first)?.len();
    let last_len = heap.reclaim_pool(LAST, last)?.len();
    Some([first, below, last, first_len, below_len, last_len])
}

/// Does that in a new heap.
fn new_three(alloc: Global) -> Option<[usize; 6]> {
    let memory = OpenMemory::new(alloc, 4096, 32768).ok()?;
    three(Small::over_lent(memory))
}

#[test]
fn ranges_that_lie_apart_go_back(rt: HostRuntime) {
    // The first multiples of 32 are 0, 27 and 21 bytes behind the starts.
    let answers = new_three(rt.alloc()).unwrap_or([0; 6]);
    are(&rt, &answers, &[1024, 475, 981, 1024, 500, 1000]);
}

/// Takes a range in no chunk out of a heap, to be lent to it.
fn take(heap: &mut Small, range: Range) -> Part
    requires lies { LiesIn range heap.old.memory.start (length heap.old.memory.bytes) }
    requires untouched { IsUntouched heap.old.state.chunks range }
    requires range { IsLent heap.old range }
    requires lent { (heap.old.lent ≡ true) × IsSettled heap.old.memory }
    ensures heap { KeepsPlace heap.old heap.new }
    ensures settled { IsSettled heap.new.memory }
    ensures state { heap.new.state ≡ heap.old.state }
    ensures others { (r : Range) → IsLent heap.old r → AreApart range r → IsLent heap.new r }
    ensures part { (result.home ≡ heap.new.identity.home) × (range.start ≡ result.start) × (range.len ≡ length result.bytes) × IsFull result }
{
    heap.reclaim(range)
}

/// Lends a range, inserts it and reclaims it, twice. Returns the numbers of bytes taken, and of those that come back at last.
fn lent_again(heap: Small, part: Part, range: Range) -> Option<[usize; 3]>
    requires empty { (r : Range) → IsUntouched heap.state.chunks r }
    requires lies { LiesIn range heap.memory.start (length heap.memory.bytes) }
    requires lent { (heap.lent ≡ true) × IsSettled heap.memory }
    requires part { (part.home ≡ heap.identity.home) × (range.start ≡ part.start) × (range.len ≡ length part.bytes) × IsFull part }
{
    let mut heap = heap;
    heap.lend(part);
    let taken = insert(&mut heap, range);
    let part = heap.reclaim_pool(range, taken)?;
    heap.lend(part);
    let again = insert(&mut heap, range);
    Some([taken, again, heap.reclaim_pool(range, again)?.len()])
}

/// Does that in a new heap.
fn new_lent_again(alloc: Global) -> Option<[usize; 3]> {
    let memory = OpenMemory::new(alloc, 4096, 32768).ok()?;
    let mut heap = Small::over_lent(memory);
    let part = take(&mut heap, LAST);
    lent_again(heap, part, LAST)
}

#[test]
fn a_range_is_lent_again(rt: HostRuntime) {
    let answers = new_lent_again(rt.alloc()).unwrap_or([0; 3]);
    are(&rt, &answers, &[981, 981, 1000]);
}

/// Lends two ranges, inserts both, and reclaims the first. Returns the numbers of bytes taken, and where the bytes that come back begin, and
/// how many these are.
fn one_of_two(heap: Small, first: Part, second: Part) -> Option<[usize; 4]>
    requires empty { (r : Range) → IsUntouched heap.state.chunks r }
    requires place { (heap.memory.start ≡ 4096) × (length heap.memory.bytes ≡ 32768) × (heap.lent ≡ true) }
    requires first { (first.home ≡ heap.identity.home) × (first.start ≡ 16384) × (length first.bytes ≡ 1024) × IsFull first }
    requires second { (second.home ≡ heap.identity.home) × (second.start ≡ 4101) × (length second.bytes ≡ 500) × IsFull second }
{
    let mut heap = heap;
    heap.lend(first);
    heap.lend(second);
    let first = insert(&mut heap, FIRST);
    let second = insert(&mut heap, BELOW);
    let part = heap.reclaim_pool(FIRST, first)?;
    Some([first, second, part.start(), part.len()])
}

/// Takes both ranges out of a heap first.
fn both(heap: Small) -> Option<[usize; 4]>
    requires empty { (r : Range) → IsUntouched heap.state.chunks r }
    requires place { (heap.memory.start ≡ 4096) × (length heap.memory.bytes ≡ 32768) × (heap.lent ≡ true) }
    requires lent { (r : Range) → LiesIn r 4096 32768 → IsLent heap r }
    requires settled { IsSettled heap.memory }
{
    let mut heap = heap;
    let first = take(&mut heap, FIRST);
    let second = take(&mut heap, BELOW);
    one_of_two(heap, first, second)
}

/// Does that in a new heap.
fn new_one_of_two(alloc: Global) -> Option<[usize; 4]> {
    let memory = OpenMemory::new(alloc, 4096, 32768).ok()?;
    both(Small::over_lent(memory))
}

#[test]
fn one_of_two_lent_ranges_goes_back(rt: HostRuntime) {
    let answers = new_one_of_two(rt.alloc()).unwrap_or([0; 4]);
    are(&rt, &answers, &[1024, 475, 16384, 1024]);
}
