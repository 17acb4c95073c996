//! Heaps whose payloads have to lie at given addresses once they have another size.
ghost use Rattle.std.specs.Prelude.{◌≡◌, ◌≤◌, length};
ghost use Rattle.rlsf_heap.specs.Heap.{IsWritten};
ghost use Rattle.rlsf_heap.specs.Settled.{IsSettled};
ghost use Rattle.rlsf_test_heap.specs.Slots.{AreWrittenOf, IsWrittenOf};

use crate::answers::none_is_wrong;
use crate::rows::{Small, give_back, newest};
use rlsf_base::memory::{Layout, OpenMemory, Range};
use rlsf_heap::Payload;
use std::process::Abort;

/// A heap whose pool is the first `len` bytes from the address 4096 on. No byte of its memory is raw.
pub(crate) fn small(rt: &(impl Abort + AllocGlobal), len: usize) -> Small
    requires { len ≤ 8192 }
    ensures { IsSettled result.memory }
{
    let memory = OpenMemory::new(rt.alloc(), 4096, 8192).expect(rt, "memory");
    let mut heap = Small::new(memory);
    heap.insert_free_block(Range { start: 4096, len });
    heap
}

/// What is done to a payload. Its result is the payload's address, or 0 if there is none.
#[derive(Clone, Copy)]
enum Call {
    /// Allocates it for a size, and makes each of its bytes 5.
    Fill(usize),
    /// Changes its size. The result is 0 if that is refused.
    Resize(usize),
    /// As above, without a move.
    ResizeThere(usize),
    /// Returns its address.
    Addr,
    /// Returns its length.
    Len,
    /// Returns 1 if at least so many bytes at its beginning are 5, and else 0.
    Fives(usize),
    /// Deallocates it. The result is 0.
    Free,
}

/// A step of a test, and its expected result.
#[derive(Clone, Copy)]
enum Step {
    /// Does this to the payload in a slot.
    Does(usize, Call, usize),
    /// Finds the newest free block of a class: its address, or 0.
    Newest(usize, usize, usize),
    /// Returns the bitmap of the rows that have a free block.
    Rows(usize),
}

/// Allocates a payload, each byte of which is 5. Returns it with its address, or 0.
fn filled(heap: &mut Small, size: usize) -> (Option<Payload>, usize)
    requires settled { IsSettled heap.old.memory }
    ensures identity { heap.new.identity ≡ heap.old.identity }
    ensures own { IsWrittenOf heap.old.identity result.0 }
    ensures settled { IsSettled heap.new.memory }
{
    let Ok(layout) = Layout::from_size_align(size, 1) else {
        return (None, 0);
    };
    let Some(mut payload) = heap.allocate(layout) else {
        return (None, 0);
    };
    payload.fill(5);
    let addr = payload.addr();
    (Some(payload), addr)
}

/// Changes the size of a payload, and returns it with its address, or with 0 if that is refused.
fn resized(heap: &mut Small, payload: Payload, size: usize) -> (Option<Payload>, usize)
    requires identity { payload.identity ≡ heap.old.identity }
    requires written { IsWritten payload }
    requires settled { IsSettled heap.old.memory }
    ensures identity { heap.new.identity ≡ heap.old.identity }
    ensures own { IsWrittenOf heap.old.identity result.0 }
    ensures settled { IsSettled heap.new.memory }
{
    match heap.reallocate(payload, size) {
        Ok(payload) => {
            let addr = payload.addr();
            (Some(payload), addr)
        }
        Err(payload) => (Some(payload), 0),
    }
}

/// The same without a move.
fn resized_there(heap: &mut Small, payload: Payload, size: usize) -> (Option<Payload>, usize)
    requires identity { payload.identity ≡ heap.old.identity }
    requires written { IsWritten payload }
    requires settled { IsSettled heap.old.memory }
    ensures identity { heap.new.identity ≡ heap.old.identity }
    ensures own { IsWrittenOf heap.old.identity result.0 }
    ensures settled { IsSettled heap.new.memory }
{
    match heap.reallocate_no_move(payload, size) {
        Ok(payload) => {
            let addr = payload.addr();
            (Some(payload), addr)
        }
        Err(payload) => (Some(payload), 0),
    }
}

/// The number of bytes at the beginning of a payload that are 5.
fn fives(payload: &Payload) -> usize
    requires { IsWritten payload.now }
{
    payload
        .as_slice()
        .iter()
        .position(|byte| *byte != 5)
        .unwrap_or(payload.len())
}

/// What is read of a payload.
fn read(payload: &Payload, call: Call) -> usize
    requires { IsWritten payload.now }
{
    match call {
        Call::Addr => payload.addr(),
        Call::Len => payload.len(),
        Call::Fives(len) => (fives(payload) >= len) as usize,
        _ => 0,
    }
}

/// Makes a call, and returns the payload with the result.
fn changed(heap: &mut Small, payload: Option<Payload>, call: Call) -> (Option<Payload>, usize)
    requires own { IsWrittenOf heap.old.identity payload }
    requires settled { IsSettled heap.old.memory }
    ensures identity { heap.new.identity ≡ heap.old.identity }
    ensures own { IsWrittenOf heap.old.identity result.0 }
    ensures settled { IsSettled heap.new.memory }
{
    match (call, payload) {
        (Call::Fill(size), None) => filled(heap, size),
        (_, None) => (None, 0),
        (Call::Resize(size), Some(payload)) => resized(heap, payload, size),
        (Call::ResizeThere(size), Some(payload)) => resized_there(heap, payload, size),
        (Call::Free, Some(payload)) => {
            heap.deallocate_written(payload);
            (None, 0)
        }
        (_, Some(payload)) => {
            let answer = read(&payload, call);
            (Some(payload), answer)
        }
    }
}

/// Makes a call on the payload in a slot.
fn changed_at(heap: &mut Small, slots: &mut [Option<Payload>], slot: usize, call: Call) -> usize
    requires own { AreWrittenOf heap.old.identity slots.old }
    requires settled { IsSettled heap.old.memory }
    ensures identity { heap.new.identity ≡ heap.old.identity }
    ensures own { AreWrittenOf heap.old.identity slots.new }
    ensures len { length slots.new ≡ length slots.old }
    ensures settled { IsSettled heap.new.memory }
{
    if slot >= slots.len() {
        return usize::MAX;
    }
    let (payload, answer) = changed(heap, slots[slot].take(), call);
    slots[slot] = payload;
    answer
}

/// Whether a step has its expected result.
fn goes_so(heap: &mut Small, slots: &mut [Option<Payload>], step: Step) -> bool
    requires own { AreWrittenOf heap.old.identity slots.old }
    requires settled { IsSettled heap.old.memory }
    ensures identity { heap.new.identity ≡ heap.old.identity }
    ensures own { AreWrittenOf heap.old.identity slots.new }
    ensures len { length slots.new ≡ length slots.old }
    ensures settled { IsSettled heap.new.memory }
{
    match step {
        Step::Does(slot, call, wanted) => changed_at(heap, slots, slot, call) == wanted,
        Step::Newest(fl, sl, wanted) => newest(heap, fl, sl) == wanted,
        Step::Rows(wanted) => heap.fl_bitmap() as usize == wanted,
    }
}

/// The index of the first step with another result.
fn first_wrong(heap: &mut Small, slots: &mut [Option<Payload>], steps: &[Step]) -> Option<usize>
    requires own { AreWrittenOf heap.old.identity slots.old }
    requires settled { IsSettled heap.old.memory }
    ensures own { AreWrittenOf heap.new.identity slots.new }
    ensures len { length slots.new ≡ length slots.old }
{
    for (index, step) in steps.iter().enumerate() {
        if !goes_so(heap, slots, *step) {
            return Some(index);
        }
    }
    None
}

/// Passes if each step on a heap with a pool of `len` bytes has its expected result. The payloads that are left are deallocated,
/// slot by slot.
fn take_steps(rt: &(impl Abort + AllocGlobal), len: usize, steps: &[Step])
    requires { len ≤ 8192 }
{
    let mut heap = small(rt, len);
    let mut slots = [None, None, None];
    none_is_wrong(rt, first_wrong(&mut heap, &mut slots, steps));
    let [first, second, third] = slots;
    give_back(&mut heap, first);
    give_back(&mut heap, second);
    give_back(&mut heap, third);
}

#[test]
fn payload_gets_shorter_in_place(rt: HostRuntime) {
    let steps = [
        Step::Does(1, Call::Fill(17), 4112),
        Step::Does(1, Call::Len, 48),
        Step::Does(1, Call::Resize(0), 4112),
        Step::Does(0, Call::Fill(0), 4144),
    ];
    take_steps(&rt, 96, &steps);
}

#[test]
fn payload_moves_into_the_block_before_it(rt: HostRuntime) {
    let steps = [
        Step::Does(0, Call::Fill(0), 4112),
        Step::Does(1, Call::Fill(40), 4144),
        Step::Does(2, Call::Fill(100), 4208),
        Step::Does(0, Call::Free, 0),
        Step::Does(1, Call::ResizeThere(70), 0),
        Step::Does(1, Call::Addr, 4144),
        Step::Newest(0, 0, 4096),
        Step::Does(1, Call::Resize(70), 4112),
        Step::Does(1, Call::Len, 80),
        // The payload of 48 bytes is kept, and there is no free block.
        Step::Does(1, Call::Fives(48), 1),
        Step::Rows(0),
        Step::Does(1, Call::Resize(200), 0),
        Step::Does(1, Call::Addr, 4112),
        Step::Does(1, Call::Len, 80),
        Step::Rows(0),
    ];
    take_steps(&rt, 256, &steps);
}

#[test]
fn rest_behind_a_moved_payload_is_free(rt: HostRuntime) {
    let steps = [
        Step::Does(0, Call::Fill(17), 4112),
        Step::Does(1, Call::Fill(40), 4176),
        Step::Does(2, Call::Fill(50), 4240),
        Step::Does(0, Call::Free, 0),
        Step::Does(1, Call::Resize(70), 4112),
        Step::Does(1, Call::Len, 80),
        Step::Does(1, Call::Fives(48), 1),
        Step::Newest(0, 0, 4192),
    ];
    take_steps(&rt, 256, &steps);
}

#[test]
fn sizes_without_a_move(rt: HostRuntime) {
    let steps = [
        Step::Does(0, Call::Fill(17), 4112),
        Step::Does(1, Call::Fill(0), 4176),
        Step::Does(0, Call::ResizeThere(100), 0),
        // Its block has 160 bytes, 16 of them before the payload, and there is no free block.
        Step::Does(1, Call::ResizeThere(140), 4176),
        Step::Does(1, Call::Len, 144),
        Step::Rows(0),
        Step::Does(0, Call::ResizeThere(0), 4112),
        Step::Newest(0, 0, 4128),
        Step::Does(0, Call::ResizeThere(48), 4112),
        Step::Does(0, Call::Len, 48),
        Step::Rows(0),
    ];
    take_steps(&rt, 256, &steps);
}
