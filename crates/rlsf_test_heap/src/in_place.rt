//! Vectors that grow and shrink in place. Where a second block of the size has no room, one that moved would be refused.
//!
//! They are cases of `local.rt`, over any allocator, and return what they find. `counts` returns how many payloads are out, the bytes of
//! their blocks, and the other bytes.
use crate::local::{Case, Found, NOTHING, passes_in_a_heap};
use std::alloc::{AllocError, Allocator};
use std::test::Fail;

/// A vector of so many bytes, with no room for more. They are 0, 1, .. up to 250, and then 0 again.
fn bytes_of<A: Allocator + Copy>(alloc: A, len: usize) -> Result<Vec<u8, A>, AllocError> {
    let mut bytes = Vec::with_capacity(alloc, len)?;
    for n in 0..len {
        bytes.push((n % 251) as u8)?;
    }
    Ok(bytes)
}

/// Whether these bytes are at these places.
fn has_bytes(bytes: &[u8], expected: &[(usize, u8)]) -> bool {
    for (place, byte) in expected {
        if bytes.get(*place).copied() != Some(*byte) {
            return false;
        }
    }
    true
}

static OF_3000: [(usize, u8); 4] = [(0, 0), (250, 250), (251, 0), (2999, 238)];

static OF_2000: [(usize, u8); 2] = [(0, 0), (1999, 242)];

/// A vector of 3,000 bytes gets room for 4,000.
pub(crate) fn grow_by_the_block_behind<A: Allocator + Copy, F: Fn() -> [usize; 3]>(
    alloc: A,
    counts: F,
) -> Result<Found, AllocError>
    requires { F.IsAlwaysCallable counts }
{
    let mut bytes = bytes_of(alloc, 3000)?;
    let before = counts();
    bytes.reserve_exact(1000)?;
    let after = counts();
    let kept = has_bytes(bytes.as_slice(), &OF_3000) as usize;
    let sizes = [bytes.len(), bytes.capacity(), kept];
    Ok([before, after, sizes, NOTHING, NOTHING])
}

/// A vector of the first 125 squares, with room for 375 words.
fn squares_of<A: Allocator + Copy>(alloc: A) -> Result<Vec<u64, A>, AllocError> {
    let mut words = Vec::with_capacity(alloc, 375)?;
    for n in 0..125u64 {
        words.push(n * n)?;
    }
    Ok(words)
}

/// Whether there are 125 words, the first and the last of which are squares.
fn are_squares(words: &[u64]) -> bool {
    words.len() == 125 && words.first().copied() == Some(0) && words.last().copied() == Some(15376)
}

/// A vector of 125 words gets room for 500, shrinks, and gets that room once more: the bytes behind it are a free block meanwhile.
pub(crate) fn shrink_and_grow_again<A: Allocator + Copy, F: Fn() -> [usize; 3]>(
    alloc: A,
    counts: F,
) -> Result<Found, AllocError>
    requires { F.IsAlwaysCallable counts }
{
    let mut words = squares_of(alloc)?;
    words.reserve_exact(375)?;
    let grown = counts();
    words.shrink_to_fit();
    let shrunk = counts();
    let kept = [words.capacity(), are_squares(words.as_slice()) as usize, 0];
    words.reserve_exact(375)?;
    let again = counts();
    let kept_again = are_squares(words.as_slice()) as usize;
    Ok([grown, shrunk, kept, again, [kept_again, 0, 0]])
}

/// A vector with room for 375 words shrinks to six of them, to one, and to none.
pub(crate) fn shrink_to_a_few<A: Allocator + Copy, F: Fn() -> [usize; 3]>(
    alloc: A,
    counts: F,
) -> Result<Found, AllocError>
    requires { F.IsAlwaysCallable counts }
{
    let mut words = squares_of(alloc)?;
    words.truncate(6);
    words.shrink_to_fit();
    let six = counts();
    let last = words.last().copied().unwrap_or(0) as usize;
    let of_six = words.capacity();
    words.truncate(1);
    words.shrink_to_fit();
    let one = counts();
    let of_one = words.capacity();
    words.clear();
    words.shrink_to_fit();
    let none = counts();
    let places = [of_six, of_one, words.capacity()];
    Ok([six, one, none, places, [of_six, last, words.len()]])
}

/// A vector of 2,000 bytes is refused 1,000 more.
pub(crate) fn refuse_to_grow<A: Allocator + Copy, F: Fn() -> [usize; 3]>(
    alloc: A,
    counts: F,
) -> Result<Found, AllocError>
    requires { F.IsAlwaysCallable counts }
{
    let mut bytes = bytes_of(alloc, 2000)?;
    let behind = Box::new(alloc, 7u64)?;
    let before = counts();
    let refused = bytes.reserve_exact(1000).is_err() as usize;
    let after = counts();
    let same = has_bytes(bytes.as_slice(), &OF_2000) as usize;
    let sizes = [bytes.len(), bytes.capacity(), same];
    Ok([
        before,
        after,
        sizes,
        [refused, *behind as usize, 0],
        NOTHING,
    ])
}

/// A vector of the numbers below 25, with no room for more.
fn numbers_of<A: Allocator + Copy>(alloc: A) -> Result<Vec<u32, A>, AllocError> {
    let mut words = Vec::with_capacity(alloc, 25)?;
    for n in 0..25u32 {
        words.push(n)?;
    }
    Ok(words)
}

/// Whether three of the numbers below 25 are at their places.
fn are_numbers(words: &[u32]) -> bool {
    words.first().copied() == Some(0)
        && words.get(12).copied() == Some(12)
        && words.get(24).copied() == Some(24)
}

/// A vector of 25 words of 4 bytes has a used block behind it, and gets room for 50.
pub(crate) fn move_to_grow<A: Allocator + Copy, F: Fn() -> [usize; 3]>(
    alloc: A,
    counts: F,
) -> Result<Found, AllocError>
    requires { F.IsAlwaysCallable counts }
{
    let mut words = numbers_of(alloc)?;
    let behind = Box::new(alloc, 7u64)?;
    let before = counts();
    words.reserve_exact(25)?;
    let after = counts();
    let kept = are_numbers(words.as_slice()) as usize;
    let sizes = [words.len(), words.capacity(), kept];
    Ok([before, after, sizes, [*behind as usize, 0, 0], NOTHING])
}

/// A text of so many letters.
fn text_of<A: Allocator + Copy>(alloc: A, len: usize) -> Result<String<A>, AllocError> {
    let mut text = String::new(alloc);
    for _ in 0..len {
        text.push('x')?;
    }
    Ok(text)
}

/// How many texts there are, whether the one at 9 is right, and the length of the one at 3.
fn read_texts<A: Allocator>(texts: &[String<A>]) -> [usize; 3] {
    match (texts.get(9), texts.get(3)) {
        (Some(one), Some(other)) => {
            let is_right = one.as_str() == "xxxxxxxxx";
            [texts.len(), is_right as usize, other.len()]
        }
        _ => NOTHING,
    }
}

/// Texts of 0 to 19 letters in a vector that grows, and is cut to ten of them.
pub(crate) fn keep_texts<A: Allocator + Copy>(alloc: A) -> Result<Found, AllocError> {
    let mut texts = Vec::with_capacity(alloc, 1)?;
    for n in 0..20usize {
        texts.push(text_of(alloc, n)?)?;
    }
    texts.truncate(10);
    texts.shrink_to_fit();
    let read = read_texts(texts.as_slice());
    Ok([read, NOTHING, NOTHING, NOTHING, NOTHING])
}

#[test]
fn a_vector_grows_into_the_free_block_behind_it(rt: HostRuntime) -> Result<(), Fail> {
    passes_in_a_heap(&rt, 4096, Case::GrowByTheBlockBehind)
}

#[test]
fn a_vector_that_shrinks_returns_bytes(rt: HostRuntime) -> Result<(), Fail> {
    passes_in_a_heap(&rt, 4096, Case::ShrinkAndGrowAgain)
}

#[test]
fn a_vector_that_shrinks_to_a_few_values_has_a_short_block(rt: HostRuntime) -> Result<(), Fail> {
    passes_in_a_heap(&rt, 4096, Case::ShrinkToAFew)
}

#[test]
fn a_refused_growth_changes_nothing(rt: HostRuntime) -> Result<(), Fail> {
    passes_in_a_heap(&rt, 4096, Case::RefuseToGrow)
}

#[test]
fn a_vector_moves_if_the_block_behind_it_is_used(rt: HostRuntime) -> Result<(), Fail> {
    passes_in_a_heap(&rt, 4096, Case::MoveToGrow)
}

#[test]
fn values_that_own_blocks_stay_in_a_growing_vector(rt: HostRuntime) -> Result<(), Fail> {
    passes_in_a_heap(&rt, 4096, Case::KeepTexts)
}
