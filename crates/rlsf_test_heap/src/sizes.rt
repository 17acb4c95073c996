//! Blocks of each kind of size and alignment in an allocator of collections: a case of `local.rt`, over any allocator. And how long a
//! payload of units is.
use crate::answers::are;
use crate::local::{Case, Found, NOTHING, passes_in_a_heap};
use rlsf_heap::unit_payload_len;
use std::alloc::{AllocError, Allocator};
use std::test::Fail;

/// The byte at a place, or 0.
fn byte_at(bytes: &[u8], place: usize) -> usize {
    match bytes.get(place) {
        Some(byte) => *byte as usize,
        None => 0,
    }
}

/// Fills a vector with the numbers 0, 1, .. up to 250, and then 0 again. Returns the first byte and the last of `len`.
fn both_ends<A: Allocator>(mut bytes: Vec<u8, A>, len: usize) -> Result<[usize; 2], AllocError> {
    for n in 0..len {
        bytes.push((n % 251) as u8)?;
    }
    let bytes = bytes.as_slice();
    Ok([byte_at(bytes, 0), byte_at(bytes, len.saturating_sub(1))])
}

/// Boxes of 0, 1, 33 and 16 bytes, the last at a multiple of 16, and vectors of 8,193 bytes and of 64 KiB.
pub(crate) fn serve_each_size<A: Allocator + Copy, F: Fn() -> [usize; 3]>(
    alloc: A,
    counts: F,
) -> Result<Found, AllocError>
    requires { F.IsAlwaysCallable counts }
{
    let _empty = Box::new(alloc, ())?;
    let one = Box::new(alloc, 1u8)?;
    let odd = Box::new(alloc, [3u8; 33])?;
    let wide = Box::new(alloc, 5u128)?;
    let small = counts();
    let values = [*one as usize, odd[32] as usize, *wide as usize];
    let bytes = Vec::with_capacity(alloc, 8193)?;
    let words: Vec<u128, A> = Vec::with_capacity(alloc, 4096)?;
    let large = counts();
    let [first, last] = both_ends(bytes, 8193)?;
    Ok([
        small,
        values,
        large,
        [first, last, words.capacity()],
        NOTHING,
    ])
}

#[test]
fn each_size_has_its_block(rt: HostRuntime) -> Result<(), Fail> {
    passes_in_a_heap(&rt, 131072, Case::ServeEachSize)
}

// The least length that is at least the size, and 16 less than a multiple of 32.
#[test]
fn each_size_has_its_length(rt: HostRuntime) {
    let lens = [
        unit_payload_len(0),
        unit_payload_len(1),
        unit_payload_len(16),
        unit_payload_len(17),
        unit_payload_len(48),
        unit_payload_len(49),
        unit_payload_len(1001),
        unit_payload_len(65536),
    ];
    are(&rt, &lens, &[16, 16, 16, 48, 48, 80, 1008, 65552]);
}
