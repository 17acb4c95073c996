//! Payloads whose bytes are lent, to read and to write.

ghost use Rattle.std.specs.Prelude.{◌≡◌, ◌<◌, ℕ, IfSome, IsSome};
ghost use Rattle.rlsf_base.specs.Addr.{at};
ghost use Rattle.rlsf_model.specs.Callers.{align_at};

use super::bytes::{copy_front, is_all};
use super::pools::{Long, Small, Wide, are, layout_of, number, wide, with_inserted, with_pool};
use rlsf::int::BitPattern;
use rlsf::{Addr, Layout, Range, Tlsf};

/// Allocates a payload, fills it with a byte, reads it at an offset, and deallocates it. Returns what was read.
fn filled(tlsf: &mut Small, layout: Layout, byte: u8, offset: usize) -> Option<u8>
    requires { offset < layout.size }
    ensures { IfSome result (λ read. read ≡ byte) }
{
    let addr = tlsf.allocate(layout)?;
    tlsf.payload_mut(addr).fill(byte);
    let bytes = tlsf.payload(addr);
    let read = bytes[offset];
    tlsf.deallocate(addr, layout.align());
    Some(read)
}

/// Bytes that were read, as numbers, 0 if there is none.
pub(crate) fn numbers(first: Option<u8>, second: Option<u8>) -> [usize; 2] {
    [first.unwrap_or(0) as usize, second.unwrap_or(0) as usize]
}

/// Allocates a payload and leaves bytes in its front, as many as there is room for. What was live stays live.
fn put(tlsf: &mut Small, layout: Layout, bytes: &[u8]) -> Option<Addr>
    ensures live { IfSome result (λ addr. IsSome (align_at tlsf.new.state (at addr))) }
    ensures stays { (a : ℕ) → IsSome (align_at tlsf.old.state a) → IsSome (align_at tlsf.new.state a) }
{
    let addr = tlsf.allocate(layout)?;
    copy_front(bytes, tlsf.payload_mut(addr));
    Some(addr)
}

/// Where a payload lies, or 0 if it has other bytes than it should have.
pub(crate) fn place(addr: Addr, bytes: &[u8], expected: &[u8]) -> usize {
    if bytes == expected { addr.get() } else { 0 }
}

/// Where three payloads lie, whose bytes were left one after the other, or 0 for one that doesn't have them then.
fn neighbours(
    tlsf: &mut Small,
    layouts: (Layout, Layout, Layout),
    bytes: (&[u8], &[u8], &[u8]),
) -> Option<[usize; 3]> {
    let one = put(tlsf, layouts.0, bytes.0)?;
    let two = put(tlsf, layouts.1, bytes.1)?;
    let three = put(tlsf, layouts.2, bytes.2)?;
    Some([
        place(one, tlsf.payload(one), bytes.0),
        place(two, tlsf.payload(two), bytes.1),
        place(three, tlsf.payload(three), bytes.2),
    ])
}

/// The word in the first bytes, or 0 if there are fewer than eight.
fn front_word(bytes: &[u8]) -> usize {
    match bytes.first_chunk::<8>() {
        Some(front) => u64::from_le_bytes(*front) as usize,
        None => 0,
    }
}

/// Allocates a payload and writes its first word. What was live stays live.
fn put_word(tlsf: &mut Wide, layout: Layout, word: u64) -> Option<Addr>
    ensures live { IfSome result (λ addr. IsSome (align_at tlsf.new.state (at addr))) }
    ensures stays { (a : ℕ) → IsSome (align_at tlsf.old.state a) → IsSome (align_at tlsf.new.state a) }
{
    let addr = tlsf.allocate(layout)?;
    copy_front(&word.to_le_bytes(), tlsf.payload_mut(addr));
    Some(addr)
}

/// The addresses of two payloads, whose first words were written one after the other, and the words that are there then.
fn words(tlsf: &mut Wide, layout: Layout, first: u64, second: u64) -> Option<[usize; 4]> {
    let one = put_word(tlsf, layout, first)?;
    let two = put_word(tlsf, layout, second)?;
    Some([
        one.get(),
        two.get(),
        front_word(tlsf.payload(one)),
        front_word(tlsf.payload(two)),
    ])
}

/// The address of a payload, or 0, and how many of its bytes are lent, to read and to write.
fn lent<FLBitmap: BitPattern, SLBitmap: BitPattern, const FLLEN: usize, const SLLEN: usize>(
    tlsf: &mut Tlsf<FLBitmap, SLBitmap, FLLEN, SLLEN>,
    layout: Layout,
) -> [usize; 3] {
    let Some(addr) = tlsf.allocate(layout) else {
        return [0; 3];
    };
    let read = tlsf.payload(addr).len();
    [addr.get(), read, tlsf.payload_mut(addr).len()]
}

/// Leaves other bytes than zeros in the pool: a payload that has nearly all of it is filled and deallocated.
fn dirty(tlsf: &mut Long, layout: Layout) -> Option<()> {
    let addr = tlsf.allocate(layout)?;
    tlsf.payload_mut(addr).fill(255);
    tlsf.deallocate(addr, layout.align());
    Some(())
}

/// Where a payload lies that is allocated with zeros, and its number of usable bytes; or 1 if one of them isn't 0. It is deallocated.
fn zeroed(tlsf: &mut Long, layout: Layout) -> Option<[usize; 2]> {
    let addr = tlsf.allocate_zeroed(layout)?;
    let bytes = tlsf.payload(addr);
    let place = if is_all(bytes, 0) { addr.get() } else { 1 };
    let answers = [place, bytes.len()];
    tlsf.deallocate(addr, layout.align());
    Some(answers)
}

/// Sizes and alignments, and address and number of usable bytes of the first payload of a pool that begins at 4096.
pub(crate) const ZEROED: [[usize; 4]; 10] = [
    [0, 1, 4112, 16],
    [1, 1, 4112, 16],
    [17, 16, 4112, 48],
    [65536, 16, 4112, 65552],
    [0, 64, 4160, 0],
    [1, 64, 4160, 32],
    [65536, 64, 4160, 65536],
    [0, 4096, 8192, 0],
    [17, 4096, 8192, 32],
    [65536, 4096, 8192, 65536],
];

#[test]
fn payloads_are_allocated_with_zeros(rt: HostRuntime) {
    let pool = Range {
        start: 4096,
        len: 131072,
    };
    let (mut tlsf, taken) = with_inserted::<u64, u64, 59, 8>(&rt, pool, pool);
    are(&rt, &[taken], &[131072]);
    let most = layout_of(&rt, 100000, 1);
    for [size, align, addr, usable] in ZEROED {
        are(&rt, &[dirty(&mut tlsf, most).is_some() as usize], &[1]);
        let layout = layout_of(&rt, size, align);
        let answers = zeroed(&mut tlsf, layout).unwrap_or([0; 2]);
        are(&rt, &answers, &[addr, usable]);
    }
    let refused = tlsf.allocate_zeroed(layout_of(&rt, 131072, 1));
    are(&rt, &[number(refused)], &[0]);
}

#[test]
fn page_is_lent(rt: HostRuntime) {
    let layout = layout_of(&rt, 1, 4096);
    let mut tlsf = with_pool(&rt, 8192);
    are(&rt, &lent(&mut tlsf, layout), &[8192, 32, 32]);
}

#[test]
fn payload_without_bytes_is_lent(rt: HostRuntime) {
    let layout = layout_of(&rt, 0, 32);
    let mut tlsf = wide(&rt, 65536);
    are(&rt, &lent(&mut tlsf, layout), &[4128, 0, 0]);
}

#[test]
fn neighbours_keep_their_bytes(rt: HostRuntime) {
    let layouts = (
        layout_of(&rt, 0, 1),
        layout_of(&rt, 40, 1),
        layout_of(&rt, 100, 1),
    );
    let mut tlsf = with_pool(&rt, 256);
    let reads = neighbours(&mut tlsf, layouts, (&[1; 16], &[2; 48], &[3; 112]));
    are(&rt, &reads.unwrap_or([0; 3]), &[4112, 4144, 4208]);
}

#[test]
fn filled_reads_back(rt: HostRuntime) {
    let layout = layout_of(&rt, 100, 1);
    let mut tlsf = with_pool(&rt, 256);
    let first = filled(&mut tlsf, layout, 7, 99);
    // It was deallocated: else there would be no room for another.
    let second = filled(&mut tlsf, layout, 8, 0);
    are(&rt, &numbers(first, second), &[7, 8]);
}

#[test]
fn words_read_back(rt: HostRuntime) {
    let layout = layout_of(&rt, 8, 8);
    let mut tlsf = wide(&rt, 65536);
    let answers = words(&mut tlsf, layout, 42, 56).unwrap_or([0; 4]);
    are(&rt, &answers, &[4112, 4144, 42, 56]);
}
