//! Heaps whose payloads have to lie at given addresses.
ghost use Rattle.std.specs.Prelude.{◌≡◌, ◌↔◌, [], ◌∷◌, ◌≤◌, false, true, length};
ghost use Rattle.rlsf_base.specs.Changes.{IsAllOwn};
ghost use Rattle.rlsf_base.specs.Range.{range_at};
ghost use Rattle.rlsf_model.specs.Sized.{live_count};
ghost use Rattle.rlsf_test_heap.specs.Slots.{AreSlotsOf, IsSlotOf};

use crate::answers::{all, are, none_is_wrong};
use rlsf_base::memory::{Layout, OpenMemory, Range};
use rlsf_heap::{Heap, Payload};
use std::process::Abort;

/// Chunks of up to 8,160 bytes, in 8 rows of 8 classes.
pub(crate) type Small = Heap<u8, u8, 8, 8>;

/// Chunks of up to 32 bytes and a sentinel, in one class.
type Single = Heap<u8, u8, 1, 1>;

/// Chunks of any length.
type Long = Heap<u64, u64, 59, 8>;

/// A memory of `len` raw bytes at the addresses from `start` on.
fn memory(rt: &(impl Abort + AllocGlobal), start: usize, len: usize) -> OpenMemory
    ensures start { result.start ≡ start }
    ensures len { length result.bytes ≡ len }
    ensures own { IsAllOwn result.out }
{
    OpenMemory::reserve(rt.alloc(), start, len).expect(rt, "memory")
}

/// The layout of so many bytes at a multiple of a power of two.
pub(crate) fn layout(rt: &impl Abort, size: usize, align: usize) -> Layout
    ensures { (result.size ≡ size) × (result.align ≡ align) }
{
    Layout::from_size_align(size, align).expect(rt, "a layout")
}

/// The address of a payload, or 0.
fn address(payload: &Option<Payload>) -> usize {
    match payload {
        Some(payload) => payload.addr(),
        None => 0,
    }
}

/// Deallocates a payload, if there is one.
pub(crate) fn give_back(heap: &mut Small, payload: Option<Payload>)
    requires { IsSlotOf heap.old.identity payload }
    ensures { heap.new.identity ≡ heap.old.identity }
{
    if let Some(payload) = payload {
        heap.deallocate(payload);
    }
}

/// Whether a heap returns its memory, which is then deallocated. A heap with a live payload is dropped.
fn ends(heap: Small) -> bool
    ensures { (result ≡ true) ↔ ((live_count heap.state ≡ 0) × (heap.lent ≡ false)) }
{
    match heap.try_into_memory() {
        Ok(memory) => {
            memory.free();
            true
        }
        Err(_) => false,
    }
}

/// The address of the newest free block of a class, or 0.
pub(crate) fn newest(heap: &Small, fl: usize, sl: usize) -> usize {
    if fl >= 8 || sl >= 8 {
        return 0;
    }
    match heap.first_free(fl, sl) {
        Some(addr) => addr.get(),
        None => 0,
    }
}

/// The bitmap of the classes of a row that have a free block.
fn classes(heap: &Small, fl: usize) -> usize {
    if fl >= 8 {
        return 0;
    }
    heap.sl_bitmap(fl) as usize
}

/// A heap whose pool is the first `len` bytes from the address 4096 on.
fn small(rt: &(impl Abort + AllocGlobal), len: usize) -> Small
    requires { len ≤ 8192 }
{
    let mut heap = Small::new(memory(rt, 4096, 8192));
    heap.insert_free_block(Range { start: 4096, len });
    heap
}

/// A step of a test, and its expected result. Three slots or four hold its payloads.
#[derive(Clone, Copy)]
enum Step {
    /// Allocates a payload for a size and an alignment into a slot: its address, or 0.
    Allocate(usize, usize, usize, usize),
    /// Returns the length of the payload in a slot, or 0.
    Len(usize, usize),
    /// Deallocates the payload in a slot.
    Free(usize),
    /// Returns the number of live payloads.
    Live(usize),
    /// Finds the newest free block of a class: its address, or 0.
    Newest(usize, usize, usize),
    /// Returns the bitmap of the rows that have a free block.
    Rows(usize),
    /// Returns the bitmap of the classes of a row that have a free block.
    Classes(usize, usize),
}

/// Allocates a payload into a slot. Returns its address, or 0.
fn allocated_at(
    heap: &mut Small,
    slots: &mut [Option<Payload>],
    slot: usize,
    size: usize,
    align: usize,
) -> usize
    requires own { AreSlotsOf heap.old.identity slots.old }
    ensures identity { heap.new.identity ≡ heap.old.identity }
    ensures own { AreSlotsOf heap.old.identity slots.new }
{
    let Ok(layout) = Layout::from_size_align(size, align) else {
        return usize::MAX;
    };
    if slot >= slots.len() {
        return usize::MAX;
    }
    let payload = heap.allocate(layout);
    let addr = address(&payload);
    slots[slot] = payload;
    addr
}

/// Deallocates the payload in a slot. Returns whether there was one.
fn freed_at(heap: &mut Small, slots: &mut [Option<Payload>], slot: usize) -> bool
    requires own { AreSlotsOf heap.old.identity slots.old }
    ensures identity { heap.new.identity ≡ heap.old.identity }
    ensures own { AreSlotsOf heap.old.identity slots.new }
{
    if slot >= slots.len() {
        return false;
    }
    let payload = slots[slot].take();
    let some = payload.is_some();
    give_back(heap, payload);
    some
}

/// The length of the payload in a slot, or 0.
fn len_at(slots: &[Option<Payload>], slot: usize) -> usize {
    match slots.get(slot) {
        Some(Some(payload)) => payload.len(),
        _ => 0,
    }
}

/// Whether a step has its expected result.
fn goes_so(heap: &mut Small, slots: &mut [Option<Payload>], step: Step) -> bool
    requires own { AreSlotsOf heap.old.identity slots.old }
    ensures identity { heap.new.identity ≡ heap.old.identity }
    ensures own { AreSlotsOf heap.old.identity slots.new }
{
    match step {
        Step::Allocate(slot, size, align, wanted) => {
            allocated_at(heap, slots, slot, size, align) == wanted
        }
        Step::Len(slot, wanted) => len_at(slots, slot) == wanted,
        Step::Free(slot) => freed_at(heap, slots, slot),
        Step::Live(wanted) => heap.live() == wanted,
        Step::Newest(fl, sl, wanted) => newest(heap, fl, sl) == wanted,
        Step::Rows(wanted) => heap.fl_bitmap() as usize == wanted,
        Step::Classes(fl, wanted) => classes(heap, fl) == wanted,
    }
}

/// The index of the first step with another result.
fn first_wrong(heap: &mut Small, slots: &mut [Option<Payload>], steps: &[Step]) -> Option<usize>
    requires { AreSlotsOf heap.old.identity slots.old }
{
    for (index, step) in steps.iter().enumerate() {
        if !goes_so(heap, slots, *step) {
            return Some(index);
        }
    }
    None
}

/// Passes if each step on a heap with a pool of `len` bytes has its expected result, and the heap returns its memory after them, or
/// doesn't.
fn take_steps(rt: &(impl Abort + AllocGlobal), len: usize, steps: &[Step], last: bool)
    requires { len ≤ 8192 }
{
    let mut heap = small(rt, len);
    let mut slots = [None, None, None, None];
    none_is_wrong(rt, first_wrong(&mut heap, &mut slots, steps));
    all(rt, &[ends(heap) == last]);
}

#[test]
fn two_payloads_fit_in_96_bytes(rt: HostRuntime) {
    let steps = [
        Step::Allocate(0, 0, 1, 4112),
        Step::Allocate(1, 0, 1, 4144),
        Step::Allocate(2, 0, 1, 0),
        Step::Live(2),
        Step::Free(0),
        Step::Free(1),
        // One free block, of 64 bytes.
        Step::Live(0),
        Step::Newest(1, 0, 4096),
        Step::Rows(2),
        Step::Classes(1, 1),
    ];
    take_steps(&rt, 96, &steps, true);
}

#[test]
fn newest_free_block_is_taken(rt: HostRuntime) {
    let steps = [
        Step::Allocate(0, 0, 1, 4112),
        Step::Allocate(1, 0, 1, 4144),
        Step::Allocate(2, 0, 1, 4176),
        Step::Allocate(3, 0, 1, 4208),
        Step::Free(0),
        Step::Free(2),
        Step::Newest(0, 0, 4160),
        Step::Newest(1, 4, 4224),
        Step::Rows(3),
        Step::Classes(0, 1),
        Step::Classes(1, 16),
        Step::Allocate(0, 0, 1, 4176),
    ];
    take_steps(&rt, 256, &steps, false);
}

#[test]
fn aligned_payloads(rt: HostRuntime) {
    let wide = [
        Step::Allocate(0, 1, 4096, 8192),
        Step::Len(0, 32),
        Step::Newest(6, 7, 8224),
    ];
    take_steps(&rt, 8192, &wide, false);
    let steps = [
        Step::Allocate(0, 0, 1, 4112),
        Step::Allocate(1, 1, 64, 4160),
        Step::Len(1, 32),
        Step::Newest(2, 0, 4192),
    ];
    take_steps(&rt, 256, &steps, false);
}

#[test]
fn chunks_of_one_block(rt: HostRuntime) {
    let mut heap = Single::new(memory(&rt, 4096, 256));
    let taken = heap.insert_free_block_ptr(Range {
        start: 4096,
        len: 200,
    });
    let layout = layout(&rt, 0, 1);
    let first = heap.allocate(layout);
    let second = heap.allocate(layout);
    let third = heap.allocate(layout);
    let fourth = heap.allocate(layout);
    are(
        &rt,
        &[
            taken.map_or(0, |n| n.get()),
            address(&first),
            address(&second),
            address(&third),
            address(&fourth),
        ],
        &[192, 4240, 4176, 4112, 0],
    );
}

/// A heap with chunks of any length, that has one chunk of 256 bytes.
fn with_chunk(rt: &(impl Abort + AllocGlobal)) -> Long
    ensures chunk { result.state.chunks ≡ range_at 4096 256 ∷ [] }
    ensures idle { result.state.used ≡ [] }
    ensures place { (result.memory.start ≡ 4096) × (length result.memory.bytes ≡ 1024) }
    ensures own { result.lent ≡ false }
{
    let mut heap = Long::new(memory(rt, 4096, 1024));
    heap.insert_free_block(Range {
        start: 4096,
        len: 256,
    });
    heap
}

/// Allocates a payload, appends `len` bytes behind the chunk, and allocates again. Returns the first payload's address, the
/// bytes taken, and the second payload's address.
fn appended(heap: &mut Long, layout: Layout, len: usize) -> [usize; 3]
    requires chunk { heap.old.state.chunks ≡ range_at 4096 256 ∷ [] }
    requires place { (heap.old.memory.start ≡ 4096) × (length heap.old.memory.bytes ≡ 1024) }
    requires len { len ≤ 512 }
    requires own { heap.old.lent ≡ false }
{
    let first = heap.allocate(layout);
    let taken = heap.append_free_block_ptr(Range { start: 4352, len });
    let second = heap.allocate(layout);
    [address(&first), taken, address(&second)]
}

#[test]
fn chunk_grows(rt: HostRuntime) {
    let mut heap = with_chunk(&rt);
    let answers = appended(&mut heap, layout(&rt, 384, 1), 256);
    are(&rt, &answers, &[0, 256, 4112]);
    let mut heap = with_chunk(&rt);
    let answers = appended(&mut heap, layout(&rt, 0, 1), 31);
    are(&rt, &answers, &[4112, 0, 4144]);
}

/// Tries to remove the chunk while a payload is out, and once it is back.
fn tried(heap: &mut Long, layout: Layout) -> Option<[bool; 2]>
    requires { heap.old.state.chunks ≡ range_at 4096 256 ∷ [] }
{
    let pool = Range {
        start: 4096,
        len: 256,
    };
    let payload = heap.allocate(layout)?;
    if heap.try_remove_pool(pool) {
        return None;
    }
    heap.deallocate(payload);
    Some([false, heap.try_remove_pool(pool)])
}

#[test]
fn pool_with_a_payload_out_stays(rt: HostRuntime) {
    let mut heap = with_chunk(&rt);
    let answers = tried(&mut heap, layout(&rt, 0, 1));
    all(&rt, &[answers == Some([false, true])]);
}

/// Checks the chunk while a payload is out, and once it is back.
fn checked(heap: &mut Long, layout: Layout) -> Option<[bool; 2]>
    requires { heap.old.state.chunks ≡ range_at 4096 256 ∷ [] }
{
    let pool = Range {
        start: 4096,
        len: 256,
    };
    let payload = heap.allocate(layout)?;
    let while_out = heap.is_consistent(pool);
    heap.deallocate(payload);
    Some([while_out, heap.is_consistent(pool)])
}

#[test]
fn pool_with_a_payload_out_is_consistent(rt: HostRuntime) {
    let mut heap = with_chunk(&rt);
    let answers = checked(&mut heap, layout(&rt, 40, 1));
    all(&rt, &[answers == Some([true, true])]);
}

#[test]
fn removed_pool_serves_nothing(rt: HostRuntime) {
    let mut heap = with_chunk(&rt);
    let pool = Range {
        start: 4096,
        len: 256,
    };
    let block = heap.iter_blocks(pool).next().map(|b| b.size());
    are(
        &rt,
        &[heap.chunk_end(4096), block.unwrap_or(0)],
        &[4352, 224],
    );
    heap.remove_pool(pool);
    are(&rt, &[address(&heap.allocate(layout(&rt, 17, 1)))], &[0]);
}
