//! Reallocations, over numbers and payloads.

ghost use Rattle.std.specs.Prelude.{◌≡◌, ◌≢◌, ◌↔◌, ◌≤◌, IsTrue, Some};
ghost use Rattle.rlsf_model.specs.Callers.{align_at};
ghost use Rattle.rlsf_malloc_calls.specs.Calls.{IsPayloadAt, IsLiveAligned, IsReady, aligned_for};
ghost use Rattle.rlsf_malloc_calls.specs.Replies.{reply_number};
ghost use Rattle.rlsf_malloc_calls.specs.Resizing.{Resizes, ResizesAligned, ResizesAny, ResizesInPlace, ResizesThere, ResizesWide};

use crate::calls::{allocate_aligned, at_least_16};
use crate::replies::Reply;
use rlsf_base::memory::Layout;
use rlsf_heap::{Heap, ThinPayload};
use rlsf_int::BitPattern;

/// Returns whether a payload has the alignment 16. Those of wider alignments begin at multiples of 32.
fn is_narrow<F: BitPattern, S: BitPattern, const FLLEN: usize, const SLLEN: usize>(
    heap: &Heap<F, S, FLLEN, SLLEN>,
    addr: usize,
) -> bool
    requires { IsLiveAligned heap.now addr }
    ensures { IsTrue result ↔ (align_at heap.now.state addr ≡ Some 16) }
{
    // By this call the state is known to be well-formed.
    heap.memory_ref();
    addr % 32 != 0
}

/// Changes the size of the payload at an address, and moves it if necessary.
fn resize<F: BitPattern, S: BitPattern, const FLLEN: usize, const SLLEN: usize>(
    heap: &mut Heap<F, S, FLLEN, SLLEN>,
    addr: usize,
    payload: ThinPayload,
    size: usize,
    align: usize,
) -> Reply
    requires { IsReady heap.old × IsPayloadAt heap.old addr payload.of × (addr ≢ 0) × (payload.addr ≡ addr) × (payload.of.align ≡ align) }
    ensures { Resizes SLLEN heap.old payload.of size align (reply_number result) result.payload.of heap.new }
{
    match heap.reallocate_thin(addr, payload, size, align) {
        Ok(payload) => Reply::changed(payload),
        Err(payload) => Reply { number: 0, payload },
    }
}

/// Changes the size of the payload at an address, whose alignment is known, and moves it if necessary; allocates one if the address is 0.
pub fn resize_aligned<F: BitPattern, S: BitPattern, const FLLEN: usize, const SLLEN: usize>(
    heap: &mut Heap<F, S, FLLEN, SLLEN>,
    addr: usize,
    payload: ThinPayload,
    size: usize,
    align: usize,
) -> Reply
    requires { IsReady heap.old × IsPayloadAt heap.old addr payload.of × (payload.addr ≡ addr) × (addr ≢ 0 → payload.of.align ≡ aligned_for align) }
    ensures { ResizesAligned SLLEN heap.old addr payload.of size align (reply_number result) result.payload.of heap.new }
{
    let align = at_least_16(align);
    if addr == 0 {
        return Reply::changed(allocate_aligned(heap, size, align));
    }
    // The most frequent alignment has code of its own, in which the compiler computes nothing by it.
    if align == 16 {
        return resize(heap, addr, payload, size, 16);
    }
    resize_known(heap, addr, payload, size, align)
}

/// Changes the size of the payload at an address as `resize` does.
// Out of line, since wide alignments are rare: so the compiler needs no frame where a payload of the alignment 16 stays.
#[inline(never)]
fn resize_known<F: BitPattern, S: BitPattern, const FLLEN: usize, const SLLEN: usize>(
    heap: &mut Heap<F, S, FLLEN, SLLEN>,
    addr: usize,
    payload: ThinPayload,
    size: usize,
    align: usize,
) -> Reply
    requires { IsReady heap.old × IsPayloadAt heap.old addr payload.of × (addr ≢ 0) × (payload.addr ≡ addr) × (payload.of.align ≡ align) }
    ensures { Resizes SLLEN heap.old payload.of size align (reply_number result) result.payload.of heap.new }
{
    resize(heap, addr, payload, size, align)
}

/// Changes the size of a payload of a wide alignment, which isn't known. It stays at its address, with its alignment, if the bytes of its
/// block and of a free block behind it suffice. Else it moves into a payload of the alignment 16.
// Out of line, since wide alignments are rare. So the compiler needs no frame of it where a payload of the alignment 16 stays.
#[inline(never)]
fn resize_wide<F: BitPattern, S: BitPattern, const FLLEN: usize, const SLLEN: usize>(
    heap: &mut Heap<F, S, FLLEN, SLLEN>,
    addr: usize,
    payload: ThinPayload,
    size: usize,
) -> Reply
    requires { IsReady heap.old × IsPayloadAt heap.old addr payload.of × (addr ≢ 0) × (payload.addr ≡ addr) }
    ensures { ResizesWide SLLEN heap.old payload.of size (reply_number result) result.payload.of heap.new }
{
    let Ok(layout) = Layout::from_size_align(size, 16) else {
        return Reply { number: 0, payload };
    };
    match heap.reallocate_thin_unknown_align(addr, payload, layout) {
        Ok(payload) => Reply::changed(payload),
        Err(payload) => Reply { number: 0, payload },
    }
}

/// Changes the size of the payload at an address, and moves it if necessary; allocates one if the address is 0.
pub fn resize_any<F: BitPattern, S: BitPattern, const FLLEN: usize, const SLLEN: usize>(
    heap: &mut Heap<F, S, FLLEN, SLLEN>,
    addr: usize,
    payload: ThinPayload,
    size: usize,
) -> Reply
    requires { IsReady heap.old × IsPayloadAt heap.old addr payload.of × (payload.addr ≡ addr) × (addr ≢ 0 → 16 ≤ payload.of.align) }
    ensures { ResizesAny SLLEN heap.old addr payload.of size (reply_number result) result.payload.of heap.new }
{
    if addr == 0 {
        return Reply::changed(allocate_aligned(heap, size, 16));
    }
    // By this call it is known that the payload is live.
    let (_, payload) = heap.usable_thin(addr, payload);
    if is_narrow(heap, addr) {
        resize(heap, addr, payload, size, 16)
    } else {
        resize_wide(heap, addr, payload, size)
    }
}

/// Changes the size of the payload at an address without moving it, whatever its alignment is.
fn resize_there<F: BitPattern, S: BitPattern, const FLLEN: usize, const SLLEN: usize>(
    heap: &mut Heap<F, S, FLLEN, SLLEN>,
    addr: usize,
    payload: ThinPayload,
    size: usize,
) -> Reply
    requires { IsReady heap.old × IsPayloadAt heap.old addr payload.of × (addr ≢ 0) × (payload.addr ≡ addr) }
    ensures { ResizesThere heap.old payload.of size (reply_number result) result.payload.of heap.new }
{
    // Of the layout only the size counts.
    let Ok(layout) = Layout::from_size_align(size, 16) else {
        return Reply { number: 0, payload };
    };
    match heap.resize_thin_unknown_align(addr, payload, layout) {
        Ok(payload) => Reply::changed(payload),
        Err(payload) => Reply { number: 0, payload },
    }
}

/// Changes the size of the payload at an address without moving it. Does nothing if the address is 0.
pub fn resize_in_place<F: BitPattern, S: BitPattern, const FLLEN: usize, const SLLEN: usize>(
    heap: &mut Heap<F, S, FLLEN, SLLEN>,
    addr: usize,
    payload: ThinPayload,
    size: usize,
) -> Reply
    requires { IsReady heap.old × IsPayloadAt heap.old addr payload.of × (payload.addr ≡ addr) × (addr ≢ 0 → 16 ≤ payload.of.align) }
    ensures { ResizesInPlace heap.old addr payload.of size (reply_number result) result.payload.of heap.new }
{
    if addr == 0 {
        return Reply { number: 0, payload };
    }
    resize_there(heap, addr, payload, size)
}
