//! Size classes. An allocator's first-level rows begin at the powers of two from 32 on, and each row has `SLLEN` classes
//! of equal width.
//!
//! Each function except `request_size` is generic over an allocator's parameters: `class_of` over the length of a row alone,
//! and `search_start` over both lengths. The parameters must be valid:
//! - `FLLEN`, the number of rows, is at least 1 and at most the number of bits of `FLBitmap`.
//! - `SLLEN`, the number of classes of a row, is a power of two and at most the number of bits of `SLBitmap`.
//!
//! The size of a block is a nonzero multiple of 32, in bytes. A class is named by its row, counted from 0, and its place
//! in the row. If its condition holds, no function panics or refuses its arguments. No function asks the system for
//! memory, and each does constant work.

ghost use Rattle.std.specs.Prelude.{◌≡◌, ◌/◌, ℕ, ◌%◌, ◌^◌, ◌<◌, ◌≤◌, ◌+◌, ◌*◌, ◌-◌, IsTrue, IfSome, IfNone, MatchOption};
ghost use Rattle.rlsf_base.specs.ClassLaws.{MappedIsFirstReaching, UnmappedIsEnough, UnmappedBeginsItsClass, UnreachedIsNotUnmapped, LongestBlockHasAClass, PoolIsOneChunk, PoolContainsItsAllocation};
ghost use Rattle.rlsf_base.specs.SearchStart.{IsSearchStart, NoneReaches};
ghost use Rattle.rlsf_model_sizes.specs.SizeClass.{SizeClass, IsValid, is_row_length, class_of, class_start, reaching_class};
ghost use Rattle.rlsf_model_sizes.specs.Sizes as sizes;

use crate::memory::Layout;
use crate::rounding::next_multiple_of_32;
use rlsf_int::BitPattern;

/// Returns the class of a block of `size` bytes. Returns `None` if and only if the class is past the last row.
///
/// `size` must be a nonzero multiple of 32.
pub fn map_floor<
    FLBitmap: BitPattern,
    SLBitmap: BitPattern,
    const FLLEN: usize,
    const SLLEN: usize,
>(size: usize) -> Option<(usize, usize)>
    requires parameters { IsValid FLBitmap.width SLBitmap.width FLLEN SLLEN }
    requires size { sizes.IsSize size }
    ensures { result ≡ sizes.map_floor FLLEN SLLEN size }
{
    within_rows::<FLLEN>(class_of::<SLLEN>(size))
}

/// Returns the first class that reaches `size`: each of its blocks has at least `size` bytes. Returns `None` if and only
/// if the class is past the last row. With 60 rows or more, the result can be the first class of the row that begins at
/// `2^64`; no block has this class.
///
/// `size` must be a nonzero multiple of 32.
pub fn map_ceil<FLBitmap: BitPattern, SLBitmap: BitPattern, const FLLEN: usize, const SLLEN: usize>(
    size: usize,
) -> Option<(usize, usize)>
    requires parameters { IsValid FLBitmap.width SLBitmap.width FLLEN SLLEN }
    requires size { sizes.IsSize size }
    ensures { result ≡ sizes.map_ceil FLLEN SLLEN size }
{
    // Each class that reaches a size is in one of 60 rows. With as many, no row has to be tested.
    if FLLEN >= 60 {
        Some(reaching_class::<SLLEN>(size))
    } else {
        within_rows::<FLLEN>(reaching_class::<SLLEN>(size))
    }
}

/// Returns where the search for a block of `size` bytes begins: a row, and a place in it. The classes that reach `size` are
/// those from there on. Returns `None` only if no class of the rows reaches `size`.
///
/// In rows of 32 classes or fewer, the place may be `SLLEN`, which is behind the last one. This takes fewer instructions than
/// to find the first place of the next row.
///
/// `size` must be a nonzero multiple of 32.
pub fn search_start<const FLLEN: usize, const SLLEN: usize>(size: usize) -> Option<(usize, usize)>
    requires parameters { IsValid 128 128 FLLEN SLLEN }
    requires size { sizes.IsSize size }
    ensures { MatchOption result (NoneReaches FLLEN SLLEN size) (λ at. IsSearchStart FLLEN SLLEN size at.0 at.1) }
{
    if SLLEN <= 32 {
        let (row, parts) = reaching_parts::<SLLEN>(size);
        within_rows::<FLLEN>((row - 5, parts - SLLEN))
    } else {
        map_ceil::<u128, u128, FLLEN, SLLEN>(size)
    }
}

/// Returns the least size, in bytes, of the first class that reaches `size`. Returns `None` if and only if `map_ceil`
/// returns `None`, or a class whose sizes don't fit in a `usize`.
///
/// `size` must be a nonzero multiple of 32.
pub fn map_ceil_and_unmap<
    FLBitmap: BitPattern,
    SLBitmap: BitPattern,
    const FLLEN: usize,
    const SLLEN: usize,
>(size: usize) -> Option<usize>
    requires parameters { IsValid FLBitmap.width SLBitmap.width FLLEN SLLEN }
    requires size { sizes.IsSize size }
    ensures { result ≡ sizes.map_ceil_and_unmap FLLEN SLLEN size }
{
    let least = round_up::<SLLEN>(size)?;
    match max_pool_size::<FLBitmap, SLBitmap, FLLEN, SLLEN>() {
        Some(end) => { if least < end { Some(least) } else { None } }
        None => Some(least),
    }
}

/// Returns the length of the longest chunk, in bytes. The one block of such a chunk is 32 bytes shorter and has a class.
/// Returns `None` if and only if each size that fits in a `usize` has a class.
pub fn max_pool_size<
    FLBitmap: BitPattern,
    SLBitmap: BitPattern,
    const FLLEN: usize,
    const SLLEN: usize,
>() -> Option<usize>
    requires parameters { IsValid FLBitmap.width SLBitmap.width FLLEN SLLEN }
    ensures { result ≡ sizes.max_pool_size FLLEN }
{
    if FLLEN < 59 {
        Some(1 << (FLLEN + 5))
    } else {
        None
    }
}

/// Returns the sought size of `layout`: the length of block, in bytes, that it needs.
pub fn request_size(layout: Layout) -> usize
    ensures value { result ≡ sizes.request_size layout.size layout.align }
    ensures size { sizes.IsSize result }
{
    next_multiple_of_32(layout.size() + layout.align().saturating_sub(16) + 16)
}

/// Returns the least length, in bytes, of a chunk whose block has a class that reaches the sought size of `layout`.
/// Returns `None` if and only if no chunk has such a block.
pub fn pool_size_to_contain_allocation<
    FLBitmap: BitPattern,
    SLBitmap: BitPattern,
    const FLLEN: usize,
    const SLLEN: usize,
>(layout: Layout) -> Option<usize>
    requires parameters { IsValid FLBitmap.width SLBitmap.width FLLEN SLLEN }
    ensures { result ≡ sizes.pool_size_to_contain_allocation FLLEN SLLEN layout.size layout.align }
{
    let least = map_ceil_and_unmap::<FLBitmap, SLBitmap, FLLEN, SLLEN>(request_size(layout))?;
    Some(least + 32)
}

/// Returns the length, in bytes, of a chunk that refuses no allocation and no reallocation within these bounds:
/// - Each payload has at most the size and the alignment of `layout`.
/// - At most `count` payloads are live in the chunk before each allocation and each reallocation.
///
/// The sizes, and the order of the calls, don't matter. The length is about twice the bytes in use. If the alignment is
/// 16 or less, it is the least such length: each shorter chunk refuses some of these calls. Memory of that length becomes
/// such a chunk if it begins at a multiple of 32.
///
/// Returns `None` if and only if one of these holds:
/// - No class reaches the sought size.
/// - The length doesn't fit in a `usize`.
/// - The length is greater than that of the longest chunk.
pub fn pool_size_for_payloads<
    FLBitmap: BitPattern,
    SLBitmap: BitPattern,
    const FLLEN: usize,
    const SLLEN: usize,
>(count: usize, layout: Layout) -> Option<usize>
    requires parameters { IsValid FLBitmap.width SLBitmap.width FLLEN SLLEN }
    ensures { result ≡ sizes.pool_size_for_payloads FLLEN SLLEN count layout.size layout.align }
{
    let size = request_size(layout);
    let least = map_ceil_and_unmap::<FLBitmap, SLBitmap, FLLEN, SLLEN>(size)?;
    let used = count.checked_mul(size)?;
    let free = count.checked_mul(least - 32)?;
    let len = used.checked_add(free)?.checked_add(least + 32)?;
    within_longest::<FLBitmap, SLBitmap, FLLEN, SLLEN>(len)
}

/// Returns the length, in bytes, of a chunk that refuses no allocation and no reallocation within these bounds:
/// - Each payload that a call requests has at most the size and the alignment of `layout`.
/// - At most `count` payloads are live in the chunk before each allocation and each reallocation.
/// - The blocks of these payloads have at most `bytes` bytes together. The block of a payload has at most as many bytes as
///   `request_size` returns for its layout.
///
/// If few payloads are large, the length is shorter than that of `pool_size_for_payloads`. If `bytes` is `count` times the
/// sought size of `layout`, both lengths are equal. Memory of that length becomes such a chunk if it begins at a multiple
/// of 32.
///
/// Returns `None` if and only if one of these holds:
/// - No class reaches the sought size.
/// - The length doesn't fit in a `usize`.
/// - The length is greater than that of the longest chunk.
pub fn pool_size_for_budget<
    FLBitmap: BitPattern,
    SLBitmap: BitPattern,
    const FLLEN: usize,
    const SLLEN: usize,
>(count: usize, bytes: usize, layout: Layout) -> Option<usize>
    requires parameters { IsValid FLBitmap.width SLBitmap.width FLLEN SLLEN }
    ensures { result ≡ sizes.pool_size_for_budget FLLEN SLLEN count bytes layout.size layout.align }
{
    let least = map_ceil_and_unmap::<FLBitmap, SLBitmap, FLLEN, SLLEN>(request_size(layout))?;
    let free = count.checked_mul(least - 32)?;
    let len = bytes.checked_add(free)?.checked_add(least + 32)?;
    within_longest::<FLBitmap, SLBitmap, FLLEN, SLLEN>(len)
}

/// Returns the length of a chunk that has room for exactly `count` payloads of `size` bytes, and the size to request.
/// Both are in bytes.
///
/// Suppose that all payloads are requested with that size, and with an alignment of 16 or less. The chunk then refuses an
/// allocation if and only if `count` payloads are live, so no byte is lost to fragmentation. The size to request is that
/// of the payload of the least block that has room for `size` bytes and begins a class.
///
/// Returns `None` if and only if one of these holds:
/// - No class has such a block.
/// - The length doesn't fit in a `usize`.
/// - The length is greater than that of the longest chunk.
pub fn pool_size_for_objects<
    FLBitmap: BitPattern,
    SLBitmap: BitPattern,
    const FLLEN: usize,
    const SLLEN: usize,
>(count: usize, size: usize) -> Option<(usize, usize)>
    requires parameters { IsValid FLBitmap.width SLBitmap.width FLLEN SLLEN }
    ensures { result ≡ sizes.pool_size_for_objects FLLEN SLLEN count size }
{
    let sought = (size.checked_add(47)? - 31).next_multiple_of(32);
    let block = map_ceil_and_unmap::<FLBitmap, SLBitmap, FLLEN, SLLEN>(sought)?;
    let len = count.checked_mul(block)?.checked_add(32)?;
    let pool = within_longest::<FLBitmap, SLBitmap, FLLEN, SLLEN>(len)?;
    Some((pool, block - 16))
}

/// Does nothing. Its contract states the laws of size classes, so that a check proves them:
/// - `first`: `map_ceil` returns the first class that reaches the size; no class before it does.
/// - `enough`: `map_ceil_and_unmap` returns at least the size.
/// - `begins`: the class of `map_ceil` begins at what `map_ceil_and_unmap` returns.
/// - `unreached`: if `map_ceil` returns `None`, so does `map_ceil_and_unmap`.
/// - `longest`: if `max_pool_size` returns a length, a block 32 bytes shorter has a class, and one of that length has
///   none.
/// - `one_chunk`: no length that `pool_size_to_contain_allocation` returns is greater than that of `max_pool_size`.
/// - `contained`: a chunk of a length that `pool_size_to_contain_allocation` returns has a block that reaches the sought
///   size of the layout.
pub fn laws()
    ensures first { MappedIsFirstReaching }
    ensures enough { UnmappedIsEnough }
    ensures begins { UnmappedBeginsItsClass }
    ensures unreached { UnreachedIsNotUnmapped }
    ensures longest { LongestBlockHasAClass }
    ensures one_chunk { PoolIsOneChunk }
    ensures contained { PoolContainsItsAllocation }
{}

// A chunk's length, if it is no longer than the longest one.
fn within_longest<
    FLBitmap: BitPattern,
    SLBitmap: BitPattern,
    const FLLEN: usize,
    const SLLEN: usize,
>(len: usize) -> Option<usize>
    requires parameters { IsValid FLBitmap.width SLBitmap.width FLLEN SLLEN }
    ensures { result ≡ sizes.chunk_length FLLEN len }
{
    match max_pool_size::<FLBitmap, SLBitmap, FLLEN, SLLEN>() {
        Some(most) => { if len <= most { Some(len) } else { None } }
        None => Some(len),
    }
}

// A class, if its row is one of the allocator's.
fn within_rows<const FLLEN: usize>(class: (usize, usize)) -> Option<(usize, usize)>
    requires { 0 < FLLEN }
    ensures { (c : SizeClass) → class ≡ sizes.indices c → result ≡ sizes.valid_indices FLLEN c }
{
    if class.0 < FLLEN { Some(class) } else { None }
}

/// Returns the class of `size`, in bytes, if a row has `SLLEN` classes. Its row may be past an allocator's last row.
///
/// `size` must be at least 32. `SLLEN` must be a power of two, at most 128.
// The exponent of its row, 5 in the first one, is the position of its highest one, 63 less the zeros before it. With that at
// position 63, the leading positions, one more than a place has, are the number SLLEN + place.
pub fn class_of<const SLLEN: usize>(size: usize) -> (usize, usize)
    requires parameters { IsTrue (is_row_length SLLEN) }
    requires size { 32 ≤ size }
    ensures { result ≡ sizes.indices (class_of SLLEN size) }
{
    let leading = size.leading_zeros();
    let parts = (size << leading) >> (63 - SLLEN.trailing_zeros());
    (58 - leading as usize, parts - SLLEN)
}

/// Returns the class of a block of `size` bytes, as `class_of` does, in fewer instructions.
///
/// `size` must be at least 32, and below `2^59`, as each block of a memory is. `SLLEN` must be a power of two, at most 128.
// An odd number isn't 0, so the compiler leaves out a test for 0 before it looks for the highest one.
pub fn class_of_block<const SLLEN: usize>(size: usize) -> (usize, usize)
    requires parameters { IsTrue (is_row_length SLLEN) }
    requires size { (32 ≤ size) × (size < 2 ^ 59) }
    ensures { result ≡ sizes.indices (class_of SLLEN size) }
{
    let row = (2 * size + 1).ilog2() as usize - 6;
    (row, (scaled::<SLLEN>(size) >> row) - SLLEN)
}

// A size of the first row as a number of that row's classes. Halved for each row behind the first, that of any size is SLLEN + place.
fn scaled<const SLLEN: usize>(size: usize) -> usize
    requires parameters { IsTrue (is_row_length SLLEN) }
    requires size { size < 2 ^ 59 }
    ensures { (k : ℕ) → 5 ≤ k → result / 2 ^ (k - 5) ≡ size * SLLEN / 2 ^ k }
{
    if SLLEN >= 32 {
        size * (SLLEN / 32)
    } else {
        size / (32 / SLLEN)
    }
}

// The first class that reaches a size. At 2 * SLLEN parts the next row begins, at its first place. There is no branch here, since
// nothing foretells which way it would go.
fn reaching_class<const SLLEN: usize>(size: usize) -> (usize, usize)
    requires parameters { IsTrue (is_row_length SLLEN) }
    requires size { 32 ≤ size }
    ensures { result ≡ sizes.indices (reaching_class SLLEN size) }
{
    let (row, parts) = reaching_parts::<SLLEN>(size);
    (row + parts / SLLEN - 6, parts % SLLEN)
}

// The row of a size, by its exponent, and the number SLLEN + place of the first of its classes that reaches the size: what is
// below the leading ones counts them up. The number is 2 * SLLEN if no class of the row does.
fn reaching_parts<const SLLEN: usize>(size: usize) -> (usize, usize)
    requires parameters { IsTrue (is_row_length SLLEN) }
    requires size { 32 ≤ size }
    ensures row { (5 ≤ result.0) × (result.0 < 64) × (2 ^ result.0 ≤ size) × (size < 2 * 2 ^ result.0) }
    ensures parts { (size * SLLEN ≤ result.1 * 2 ^ result.0) × (result.1 * 2 ^ result.0 < size * SLLEN + 2 ^ result.0) }
{
    let row = size.ilog2();
    let parts = (((size << (63 - row)) - 1) >> (63 - SLLEN.trailing_zeros())) + 1;
    (row as usize, parts)
}

// A size rounded up to where the first class that reaches it begins. `None` where that is past a `usize`.
fn round_up<const SLLEN: usize>(size: usize) -> Option<usize>
    requires parameters { IsTrue (is_row_length SLLEN) }
    requires size { 32 ≤ size }
    ensures start { IfSome result (λ n. n * SLLEN ≡ class_start SLLEN (reaching_class SLLEN size)) }
    ensures past { IfNone result (2 ^ 64 * SLLEN ≤ class_start SLLEN (reaching_class SLLEN size)) }
{
    // The width of a class of the size's row, less one; 0 where that is no more than a byte.
    let rest = (usize::MAX >> (SLLEN.trailing_zeros() + 1)) >> (63 - size.ilog2());
    Some(size.checked_add(rest)? & !rest)
}
