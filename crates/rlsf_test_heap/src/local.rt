//! Collections in a heap.
//!
//! What the collections do is in functions over any allocator, so that their proofs have no heap in them: that takes less time. One
//! function makes a heap and does any of the cases, since each call that passes a heap as an allocator takes the prover some seconds.
use crate::answers::{all, are};
use crate::in_place::{
    grow_by_the_block_behind, keep_texts, move_to_grow, refuse_to_grow, shrink_and_grow_again,
    shrink_to_a_few,
};
use crate::sizes::serve_each_size;
use rlsf_base::memory::{OpenMemory, Range};
use rlsf_heap::Heap;
use rlsf_local_heap::{LocalHeap, Tenant};
use std::alloc::{AllocError, Allocator};
use std::collections::{BTreeMap, HashMap, VecDeque};
use std::mem::ManuallyDrop;
use std::process::Abort;
use std::test::Fail;

/// 12 rows of 16 classes, with chunks of up to 131,072 bytes.
type Small = Box<Heap<u16, u16, 12, 16>>;

/// A heap over a range of another's memory.
type Room = Tenant<u16, u16, 12, 16>;

/// A heap with a pool of so many bytes.
fn local(rt: &(impl Abort + AllocGlobal), len: usize) -> LocalHeap<Small> {
    LocalHeap::<Small>::new(rt.alloc(), len).expect(rt, "memory")
}

/// The pool has one free block again, which has all of it but 32 bytes. It is in the last class of the row.
fn is_whole(heap: LocalHeap<Small>, row: usize) -> bool {
    let Some(heap) = heap.into_heap() else {
        return false;
    };
    if row >= 12 {
        return false;
    }
    let first = heap.first_free(row, 15);
    match Box::into_inner(heap).try_into_memory() {
        Ok(memory) => {
            memory.free();
            first.is_some_and(|addr| addr.get() == 4096)
        }
        Err(_) => false,
    }
}

/// How many payloads are out, the bytes of their blocks, and the other bytes.
fn counts_of(heap: &LocalHeap<Small>) -> [usize; 3] {
    [heap.live(), heap.used(), heap.free()]
}

/// What collections do in a heap: the functions of these names.
#[derive(Clone, Copy)]
pub(crate) enum Case {
    GrowAndShrink,
    KeepValues,
    RefuseUntilRoomComes,
    FillAndClear,
    GrowByTheBlockBehind,
    ShrinkAndGrowAgain,
    ShrinkToAFew,
    RefuseToGrow,
    MoveToGrow,
    KeepTexts,
    ServeEachSize,
}

/// What a case finds: what `counts` returns at a time, or other numbers, as a length, a value, or 1 for true.
pub(crate) type Found = [[usize; 3]; 5];

/// Numbers that a case doesn't use.
pub(crate) const NOTHING: [usize; 3] = [0; 3];

/// Does a case. `counts` returns how many payloads are out, the bytes of their blocks, and the other bytes.
fn found<A: Allocator + Copy, F: Fn() -> [usize; 3]>(
    alloc: A,
    counts: F,
    case: Case,
) -> Result<Found, AllocError>
    requires { F.IsAlwaysCallable counts }
{
    match case {
        Case::GrowAndShrink => grow_and_shrink(alloc, counts),
        Case::KeepValues => keep_values(alloc),
        Case::RefuseUntilRoomComes => refuse_until_room_comes(alloc, counts),
        Case::FillAndClear => fill_and_clear(alloc),
        Case::GrowByTheBlockBehind => grow_by_the_block_behind(alloc, counts),
        Case::ShrinkAndGrowAgain => shrink_and_grow_again(alloc, counts),
        Case::ShrinkToAFew => shrink_to_a_few(alloc, counts),
        Case::RefuseToGrow => refuse_to_grow(alloc, counts),
        Case::MoveToGrow => move_to_grow(alloc, counts),
        Case::KeepTexts => keep_texts(alloc),
        Case::ServeEachSize => serve_each_size(alloc, counts),
    }
}

/// What a case has to find. A payload's block has 16 bytes before it, and is rounded up to a multiple of 32.
fn expected(case: Case) -> Found {
    match case {
        Case::GrowAndShrink => [[1000, 1000, 2], [1, 1, 0], [1, 1, 0], NOTHING, NOTHING],
        Case::KeepValues => [[49, 40, 0], NOTHING, NOTHING, NOTHING, NOTHING],
        // 3,016 bytes are rounded up to 3,040, and 1,616 to 1,632.
        Case::RefuseUntilRoomComes => [
            [1, 3040, 1056],
            [1, 3040, 1056],
            [1, 1632, 2464],
            [1, 5, 5],
            NOTHING,
        ],
        Case::FillAndClear => [NOTHING; 5],
        Case::GrowByTheBlockBehind => [
            [1, 3040, 1056],
            [1, 4032, 64],
            [3000, 4000, 1],
            NOTHING,
            NOTHING,
        ],
        // What is left of 4,096 bytes is no block for 1,000.
        Case::ShrinkAndGrowAgain => [
            [1, 4032, 64],
            [1, 1024, 3072],
            [125, 1, 0],
            [1, 4032, 64],
            [1, 0, 0],
        ],
        // 64 and 24 bytes, of which the second are rounded up to 32.
        Case::ShrinkToAFew => [
            [1, 64, 4032],
            [1, 32, 4064],
            [0, 0, 4096],
            [6, 1, 0],
            [6, 25, 0],
        ],
        Case::RefuseToGrow => [
            [2, 2048, 2048],
            [2, 2048, 2048],
            [2000, 2000, 1],
            [1, 7, 0],
            NOTHING,
        ],
        // 116 and 24 bytes are rounded up to 128 and 32, and 216 to 224.
        Case::MoveToGrow => [
            [2, 160, 3936],
            [2, 256, 3840],
            [25, 50, 1],
            [7, 0, 0],
            NOTHING,
        ],
        Case::KeepTexts => [[10, 1, 3], NOTHING, NOTHING, NOTHING, NOTHING],
        // Of 32, 32, 64 and 32 bytes, and of 8,224 and 65,568.
        Case::ServeEachSize => [
            [4, 160, 130912],
            [1, 3, 5],
            [6, 73952, 57120],
            [0, 160, 4096],
            NOTHING,
        ],
    }
}

/// Passes if this is what a case has to find.
fn is_found(rt: &impl Abort, case: Case, found: Found) {
    for (numbers, wanted) in found.iter().zip(expected(case).iter()) {
        are(rt, numbers, wanted);
    }
}

/// Passes if a case finds what it has to.
fn goes<A: Allocator + Copy, F: Fn() -> [usize; 3]>(
    rt: &impl Abort,
    alloc: A,
    counts: F,
    case: Case,
) -> Result<(), Fail>
    requires { F.IsAlwaysCallable counts }
{
    is_found(rt, case, found(alloc, counts, case)?);
    Ok(())
}

/// Does a case in a heap of `len` bytes, which are 4,096, 16,384 or 131,072. Passes if it has its expected results, and leaves the heap with
/// one free block.
pub(crate) fn passes_in_a_heap(
    rt: &(impl Abort + AllocGlobal),
    len: usize,
    case: Case,
) -> Result<(), Fail> {
    let heap = local(rt, len);
    goes(rt, &heap, || counts_of(&heap), case)?;
    are(rt, &[heap.size()], &[len]);
    are(rt, &counts_of(&heap), &[0, 0, len]);
    // Of 4,064 bytes, of 16,352 or of 131,040.
    let row = match len {
        4096 => 6,
        16384 => 8,
        _ => 11,
    };
    all(rt, &[is_whole(heap, row)]);
    Ok(())
}

/// Whether the first number and the last of a thousand are right.
fn are_a_thousand(numbers: &[u32]) -> [usize; 3] {
    let first = numbers.get(0).copied() == Some(0);
    let last = numbers.get(999).copied() == Some(999);
    [first as usize, last as usize, 0]
}

/// Whether the numbers are 0, 1 and 2, and each letter is an `a`.
fn are_cut(numbers: &[u32], text: &str) -> [usize; 3] {
    let numbers = numbers == [0, 1, 2].as_slice();
    let letters = text.bytes().all(|byte| byte == b'a');
    [numbers as usize, letters as usize, 0]
}

/// A vector and a text grow to a thousand each, and the vector shrinks.
fn grow_and_shrink<A: Allocator + Copy, F: Fn() -> [usize; 3]>(
    alloc: A,
    counts: F,
) -> Result<Found, AllocError>
    requires { F.IsAlwaysCallable counts }
{
    let mut numbers = Vec::new(alloc);
    let mut text = String::new(alloc);
    for n in 0..1000u32 {
        numbers.push(n)?;
        text.push('a')?;
    }
    let [live, _, _] = counts();
    let lengths = [numbers.len(), text.len(), live];
    let full = are_a_thousand(numbers.as_slice());
    numbers.truncate(3);
    numbers.shrink_to_fit();
    let cut = are_cut(numbers.as_slice(), text.as_str());
    Ok([lengths, full, cut, NOTHING, NOTHING])
}

#[test]
fn vectors_and_texts_grow_and_shrink(rt: HostRuntime) -> Result<(), Fail> {
    passes_in_a_heap(&rt, 16384, Case::GrowAndShrink)
}

/// A tree of boxes, a table and a queue keep forty values each. Returns one of each.
fn keep_values<A: Allocator + Copy>(alloc: A) -> Result<Found, AllocError> {
    let mut tree = BTreeMap::new(alloc);
    let mut table = HashMap::new(alloc);
    let mut queue = VecDeque::new(alloc);
    for n in 0..40u64 {
        tree.insert(n, Box::new(alloc, n * n)?)?;
        table.insert(n, n + 1)?;
        queue.push_back(n)?;
    }
    let square = match tree.get(&7) {
        Some(square) => **square as usize,
        None => 0,
    };
    let next = table.get(&39).copied().unwrap_or(0) as usize;
    let first = queue.pop_front().unwrap_or(1) as usize;
    Ok([[square, next, first], NOTHING, NOTHING, NOTHING, NOTHING])
}

#[test]
fn maps_queues_and_boxes_keep_their_values(rt: HostRuntime) -> Result<(), Fail> {
    passes_in_a_heap(&rt, 16384, Case::KeepValues)
}

/// A vector takes most of a heap of 4,096 bytes, and a box gets room once it is dropped.
fn refuse_until_room_comes<A: Allocator + Copy, F: Fn() -> [usize; 3]>(
    alloc: A,
    counts: F,
) -> Result<Found, AllocError>
    requires { F.IsAlwaysCallable counts }
{
    let first: Vec<u8, A> = Vec::with_capacity(alloc, 3000)?;
    let before = counts();
    let refused = Box::new(alloc, [0u64; 200]).is_err() as usize;
    let after = counts();
    drop(first);
    let second = Box::new(alloc, [5u64; 200])?;
    let then = counts();
    let values = [refused, second[0] as usize, second[199] as usize];
    Ok([before, after, then, values, NOTHING])
}

#[test]
fn a_full_heap_refuses_until_room_comes(rt: HostRuntime) -> Result<(), Fail> {
    passes_in_a_heap(&rt, 4096, Case::RefuseUntilRoomComes)
}

/// A million boxes, a hundred at a time.
fn fill_and_clear<A: Allocator + Copy>(alloc: A) -> Result<Found, AllocError> {
    let mut boxes = Vec::new(alloc);
    for n in 0..1_000_000u64 {
        boxes.push(Box::new(alloc, n)?)?;
        if boxes.len() == 100 {
            boxes.clear();
        }
    }
    Ok([NOTHING; 5])
}

#[test]
fn no_byte_leaks(rt: HostRuntime) -> Result<(), Fail> {
    passes_in_a_heap(&rt, 16384, Case::FillAndClear)
}

/// A box that is never dropped.
fn lose<A: Allocator>(alloc: A) -> Result<(), AllocError> {
    let _lost = unsafe { ManuallyDrop::new_unchecked(Box::new(alloc, 7u64)?) };
    Ok(())
}

#[test]
fn a_range_with_a_block_out_stays(rt: HostRuntime) -> Result<(), Fail> {
    let memory = OpenMemory::reserve(rt.alloc(), 4096, 8192).expect(&rt, "memory");
    let mut pool = Heap::<u16, u16, 12, 16>::new(memory);
    pool.insert_free_block_ptr(Range {
        start: 4096,
        len: 8192,
    });
    let room = Room::new(&mut pool, rt.alloc(), 2032).expect(&rt, "room");
    are(&rt, &[room.heap().size(), pool.live()], &[2032, 1]);
    lose(room.heap())?;
    let ended = room.end(&mut pool);
    all(&rt, &[!ended, pool.live() == 1]);
    Ok(())
}
