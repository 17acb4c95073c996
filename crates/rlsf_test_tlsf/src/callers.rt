//! Runs of the programs of `rlsf_example_functions`, whose clauses don't say when they succeed.

use crate::pools::{all, are, layout_of, number};
use rlsf::Layout;
use rlsf_example_functions::{
    Buffer, Cache, Note, allocate_all, fill_all, filled, free_all, over_one_range, over_pages,
    over_rations, read_back, replace_message, with_budget, with_pool,
};
use std::alloc::Global;

/// Allocates 300 payloads, fills them, reads four of them and deallocates all. Returns whether the four were read back.
#[tactic(auto, using(rlsf::specs::Live::live_none))]
fn are_read_back(alloc: Global, layout: Layout) -> Option<bool> {
    let align = layout.align();
    let mut pool = with_pool(alloc, 299, layout)?;
    let mut addrs = Vec::new(alloc);
    allocate_all(&mut pool, layout, 300, &mut addrs)?;
    fill_all(&mut pool, align, addrs.as_slice());
    let found = [
        read_back(&pool, align, addrs.as_slice(), 0),
        read_back(&pool, align, addrs.as_slice(), 255),
        read_back(&pool, align, addrs.as_slice(), 256),
        read_back(&pool, align, addrs.as_slice(), 299),
    ];
    free_all(&mut pool, align, addrs);
    Some(found == [Some(0), Some(255), Some(0), Some(43)])
}

#[test]
fn many_payloads_are_read_back(rt: HostRuntime) {
    let are_read = are_read_back(rt.alloc(), layout_of(&rt, 16, 8));
    all(&rt, &[are_read == Some(true)]);
}

/// Places of the buffer, at the ends of payloads and beside them, and the bytes there.
static PUSHED: [(usize, Option<u8>); 7] = [
    (0, Some(0)),
    (15, Some(15)),
    (16, Some(16)),
    (79, Some(79)),
    (80, Some(80)),
    (99, Some(99)),
    (100, None),
];

/// Whether a buffer's bytes are those.
fn has_pushed(bytes: &[u8]) -> bool {
    for (place, byte) in &PUSHED {
        if bytes.get(*place).copied() != *byte {
            return false;
        }
    }
    true
}

/// Pushes the bytes from 0 to 99. Returns whether each was pushed.
fn push_all(buffer: &mut Buffer) -> bool {
    for byte in 0..100 {
        if !buffer.push(byte) {
            return false;
        }
    }
    true
}

/// Whether a hundred bytes are pushed and the buffer has them.
fn are_pushed(alloc: Global, layout: Layout) -> Option<bool> {
    let mut buffer = Buffer::new(with_pool(alloc, 1, layout)?)?;
    Some(push_all(&mut buffer) && has_pushed(buffer.bytes()))
}

#[test]
fn buffer_of_100_bytes(rt: HostRuntime) {
    // The payload has 16 bytes, then 80 and then 144, beside the one before.
    let are_pushed = are_pushed(rt.alloc(), layout_of(&rt, 144, 8));
    all(&rt, &[are_pushed == Some(true)]);
}

/// Puts three messages into a cache for two.
fn put_three(alloc: Global) -> Option<()> {
    let layout = Layout::from_size_align_unchecked(16, 8);
    let mut cache = Cache::new(alloc, 2, layout)?;
    cache.put(b"first");
    cache.put(b"second");
    cache.put(b"third");
    Some(())
}

/// Writes a note. Returns whether it can be read, and another can be made in the same pool.
fn is_noted(alloc: Global, layout: Layout) -> Option<bool> {
    let mut note = Note::new(with_pool(alloc, 0, layout)?, 16)?;
    note.write(b"note");
    let is_read = note.bytes().get(..4) == Some(b"note".as_slice());
    // The pool has room for one payload, so the first one is freed.
    let again = Note::new(note.into_pool(), 16);
    Some(is_read && again.is_some())
}

#[test]
fn cache_and_note(rt: HostRuntime) {
    let layout = layout_of(&rt, 16, 8);
    let is_put = put_three(rt.alloc()).is_some();
    let is_noted = is_noted(rt.alloc(), layout) == Some(true);
    all(&rt, &[is_put, is_noted]);
}

/// Replaces a message by a frame. Returns whether the two frames have different addresses.
fn is_replaced(alloc: Global) -> Option<bool> {
    let message = Layout::from_size_align_unchecked(64, 16);
    let frame = Layout::from_size_align_unchecked(4096, 16);
    let mut pool = with_budget(alloc, 1, 4128, frame)?;
    let (second, third) = replace_message(&mut pool, message, frame);
    Some(second != third)
}

#[test]
fn message_is_replaced_by_a_frame(rt: HostRuntime) {
    let is_replaced = is_replaced(rt.alloc());
    all(&rt, &[is_replaced == Some(true)]);
}

/// The byte that is read of a payload over pages.
fn read_over_pages(alloc: Global) -> Option<u8> {
    let mut pages = over_pages(alloc, 65536)?;
    filled(&mut pages, Layout::from_size_align_unchecked(16, 8), 7, 3)
}

/// The addresses of two payloads over one range.
fn placed_over_one_range(alloc: Global, layout: Layout) -> Option<[usize; 2]> {
    let mut range = over_one_range(alloc, 65536)?;
    Some([
        number(range.allocate(layout)),
        number(range.allocate(layout)),
    ])
}

/// The addresses of two payloads over two rations, and of one more, or 0.
fn placed_over_rations(alloc: Global, layout: Layout) -> Option<[usize; 3]> {
    let mut rations = over_rations(alloc, 65536, 2)?;
    Some([
        number(rations.allocate(layout)),
        number(rations.allocate(layout)),
        number(rations.allocate(layout)),
    ])
}

#[test]
fn allocators_over_sources(rt: HostRuntime) {
    // A payload of 16 bytes needs a block of 32, and a pool of 64 bytes, which begins 16 bytes before the payload.
    let layout = layout_of(&rt, 16, 8);
    all(&rt, &[read_over_pages(rt.alloc()) == Some(7)]);
    let range = placed_over_one_range(rt.alloc(), layout);
    are(&rt, &range.unwrap_or([0; 2]), &[65552, 65616]);
    let rations = placed_over_rations(rt.alloc(), layout);
    are(&rt, &rations.unwrap_or([0; 3]), &[65552, 65616, 0]);
}
