//! Payloads that are known by their address alone.
ghost use Rattle.std.specs.Prelude.{◌≡◌, ◌≤◌};
ghost use Rattle.rlsf_heap.specs.Settled.{IsSettled};
ghost use Rattle.rlsf_test_heap.specs.Slots.{IsHeld};

use crate::answers::{are, is_some, none_is_wrong};
use crate::resized_rows::small;
use crate::rows::{Small, layout};
use rlsf_base::memory::Layout;
use rlsf_heap::ThinPayload;
use std::process::Abort;

/// Allocates a payload, and returns its address and the payload.
fn allocated(rt: &impl Abort, heap: &mut Small, size: usize, align: usize) -> (usize, ThinPayload)
    requires { IsSettled heap.old.memory }
    ensures held { IsHeld heap.new.identity result.0 align result.1.of }
    ensures identity { heap.new.identity ≡ heap.old.identity }
    ensures settled { IsSettled heap.new.memory }
{
    let (addr, payload) = heap.allocate_thin(layout(rt, size, align)).with_addr();
    is_some(rt, addr);
    (addr, payload)
}

/// How a payload gets another size.
#[derive(Clone, Copy)]
pub(crate) enum Call {
    /// It keeps its alignment, and may move.
    Resize,
    /// As above, without a move.
    ResizeThere,
    /// It moves into a new one.
    Move,
    /// Its alignment isn't passed. It may move.
    ResizeAny,
    /// As above, without a move.
    ResizeAnyThere,
}

/// A call on a payload, for so many bytes: the address that it has then, and its length.
pub(crate) type Step = (Call, usize, usize, usize);

/// Makes a call. Returns the address and the alignment that the payload has then, and the payload.
fn resized(
    heap: &mut Small,
    held: (usize, usize, ThinPayload),
    call: Call,
    wanted: Layout,
) -> (usize, usize, ThinPayload)
    requires held { IsHeld heap.old.identity held.0 held.1 held.2.of }
    requires settled { IsSettled heap.old.memory }
    ensures held { IsHeld heap.new.identity result.0 result.1 result.2.of }
    ensures identity { heap.new.identity ≡ heap.old.identity }
    ensures settled { IsSettled heap.new.memory }
{
    let (addr, align, payload) = held;
    let size = wanted.size();
    match call {
        Call::Resize => match heap.reallocate_thin(addr, payload, size, align) {
            Ok(payload) => of_align(payload, align),
            Err(payload) => of_align(payload, align),
        },
        Call::ResizeThere => match heap.reallocate_thin_no_move(addr, payload, size, align) {
            Ok(payload) => of_align(payload, align),
            Err(payload) => of_align(payload, align),
        },
        Call::Move => match heap.move_thin(addr, payload, wanted) {
            Ok(payload) => of_align(payload, wanted.align()),
            Err(payload) => of_align(payload, align),
        },
        Call::ResizeAny => match heap.reallocate_thin_unknown_align(addr, payload, wanted) {
            Ok(payload) => {
                let (to, payload) = payload.with_addr();
                let align = if to == addr { align } else { wanted.align() };
                (to, align, payload)
            }
            Err(payload) => of_align(payload, align),
        },
        Call::ResizeAnyThere => match heap.resize_thin_unknown_align(addr, payload, wanted) {
            Ok(payload) => of_align(payload, align),
            Err(payload) => of_align(payload, align),
        },
    }
}

/// A payload with its address and its alignment.
fn of_align(payload: ThinPayload, align: usize) -> (usize, usize, ThinPayload)
    ensures { (result.0 ≡ payload.addr) × (result.1 ≡ align) × (result.2.of ≡ payload.of) }
{
    let (addr, payload) = payload.with_addr();
    (addr, align, payload)
}

/// Makes the calls on a payload of an address and an alignment, and deallocates it. Returns the index of the first call with another
/// result, or after which another number of payloads is live.
fn first_wrong(
    rt: &impl Abort,
    heap: &mut Small,
    held: (usize, usize, ThinPayload),
    live: usize,
    steps: &[Step],
) -> Option<usize>
    requires held { IsHeld heap.old.identity held.0 held.1 held.2.of }
    requires settled { IsSettled heap.old.memory }
    ensures identity { heap.new.identity ≡ heap.old.identity }
{
    let mut held = held;
    let mut wrong = None;
    for (index, (call, size, wanted, wanted_len)) in steps.iter().enumerate() {
        let (addr, align, payload) = resized(heap, held, *call, layout(rt, *size, 16));
        let (len, payload) = heap.usable_thin(addr, payload);
        let is_right = addr == *wanted && len == *wanted_len && heap.live() == live;
        if !is_right && wrong.is_none() {
            wrong = Some(index);
        }
        held = (addr, align, payload);
    }
    let (addr, _, payload) = held;
    heap.deallocate_thin_written(addr, payload);
    wrong
}

/// Passes if the calls on a payload in a new heap have their expected results. It is allocated for a size and an alignment, at an
/// address. The pool is the first `len` bytes from the address 4096 on.
pub(crate) fn go_so(
    rt: &(impl Abort + AllocGlobal),
    len: usize,
    first: (usize, usize, usize),
    steps: &[Step],
)
    requires { len ≤ 8192 }
{
    let (size, align, wanted) = first;
    let mut heap = small(rt, len);
    let (addr, payload) = allocated(rt, &mut heap, size, align);
    let wrong = first_wrong(rt, &mut heap, (addr, align, payload), 1, steps);
    none_is_wrong(rt, wrong);
    are(rt, &[addr], &[wanted]);
}

/// As above, in a pool of 512 bytes, with another payload of 100 bytes behind it, at an address.
pub(crate) fn go_so_before_another(
    rt: &(impl Abort + AllocGlobal),
    first: (usize, usize, usize),
    behind: usize,
    steps: &[Step],
) {
    let (size, align, wanted) = first;
    let mut heap = small(rt, 512);
    let (addr, payload) = allocated(rt, &mut heap, size, align);
    let (other_addr, other) = allocated(rt, &mut heap, 100, 16);
    let wrong = first_wrong(rt, &mut heap, (addr, align, payload), 2, steps);
    heap.deallocate_thin_written(other_addr, other);
    none_is_wrong(rt, wrong);
    are(rt, &[addr, other_addr], &[wanted, behind]);
}

/// Allocates a payload of zeros, finds its length, and deallocates it. Returns the length, or 0 without room.
fn served(heap: &mut Small, layout: Layout) -> usize {
    let (addr, payload) = heap.allocate_thin_zeroed(layout).with_addr();
    if addr == 0 {
        return 0;
    }
    let (len, payload) = heap.usable_thin(addr, payload);
    heap.deallocate_thin_written(addr, payload);
    len
}

#[test]
fn zeroed_payload_is_found_by_its_address(rt: HostRuntime) {
    let mut heap = small(&rt, 512);
    let answers = [
        served(&mut heap, Layout::from_size_align_unchecked(100, 16)),
        served(&mut heap, Layout::from_size_align_unchecked(500, 16)),
        heap.live(),
    ];
    are(&rt, &answers, &[112, 0, 0]);
}

/// The address of a payload that is allocated and isn't deallocated.
fn kept(heap: &mut Small, layout: Layout) -> usize
    requires { IsSettled heap.old.memory }
    ensures { IsSettled heap.new.memory }
{
    let (addr, _) = heap.allocate_thin(layout).with_addr();
    addr
}

#[test]
fn payload_without_room_is_none(rt: HostRuntime) {
    let mut heap = small(&rt, 512);
    let none = kept(&mut heap, Layout::from_size_align_unchecked(500, 16));
    let (addr, payload) = allocated(&rt, &mut heap, 400, 16);
    heap.deallocate_thin(addr, payload);
    are(&rt, &[none, heap.live()], &[0, 0]);
}

static STAYS_OR_MOVES: [Step; 4] = [
    // Refused.
    (Call::ResizeThere, 200, 4112, 112),
    (Call::Resize, 150, 4368, 176),
    // Refused.
    (Call::Resize, 1000, 4368, 176),
    // It needs a block of 192 bytes, as it has.
    (Call::ResizeThere, 170, 4368, 176),
];

#[test]
fn payload_stays_or_moves(rt: HostRuntime) {
    go_so_before_another(&rt, (100, 16, 4112), 4240, &STAYS_OR_MOVES);
}

static MOVES: [Step; 2] = [
    (Call::Move, 200, 4240, 208),
    // Refused.
    (Call::Move, 1000, 4240, 208),
];

#[test]
fn payload_moves_into_a_new_one(rt: HostRuntime) {
    go_so(&rt, 512, (100, 16, 4112), &MOVES);
}
