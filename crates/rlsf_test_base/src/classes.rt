//! Tests of size classes.

ghost use Rattle.rlsf_model_sizes.specs.SizeClass.{IsValid};
ghost use Rattle.rlsf_model_sizes.specs.Sizes as sizes;

use crate::answers::{all, passes};
use crate::pools::{Shape, are_long_enough};
use rlsf_base::classes::{
    map_ceil, map_ceil_and_unmap, map_floor, max_pool_size, pool_size_to_contain_allocation,
    request_size,
};
use rlsf_base::memory::Layout;
use rlsf_int::BitPattern;
use std::process::Abort;

/// What is computed of a size.
type Row = (
    Option<(usize, usize)>,
    Option<(usize, usize)>,
    Option<usize>,
);

fn row<F: BitPattern, S: BitPattern, const FLLEN: usize, const SLLEN: usize>(size: usize) -> Row
    requires parameters { IsValid F.width S.width FLLEN SLLEN }
    requires size { sizes.IsSize size }
{
    (
        map_floor::<F, S, FLLEN, SLLEN>(size),
        map_ceil::<F, S, FLLEN, SLLEN>(size),
        map_ceil_and_unmap::<F, S, FLLEN, SLLEN>(size),
    )
}

/// Passes if what is computed of each size is the expected value beside it.
fn are<F: BitPattern, S: BitPattern, const FLLEN: usize, const SLLEN: usize>(
    rt: &impl Abort,
    rows: &[(usize, Row)],
)
    requires parameters { IsValid F.width S.width FLLEN SLLEN }
{
    for (size, expected) in rows {
        let is_size = *size != 0 && *size % 32 == 0;
        let is_so = is_size && row::<F, S, FLLEN, SLLEN>(*size) == *expected;
        passes(rt, is_so, *size);
    }
}

const EIGHT_BY_EIGHT: &[(usize, Row)] = &[
    (32, (Some((0, 0)), Some((0, 0)), Some(32))),
    (64, (Some((1, 0)), Some((1, 0)), Some(64))),
    (96, (Some((1, 4)), Some((1, 4)), Some(96))),
    (416, (Some((3, 5)), Some((3, 5)), Some(416))),
    (448, (Some((3, 6)), Some((3, 6)), Some(448))),
    (544, (Some((4, 0)), Some((4, 1)), Some(576))),
    (2016, (Some((5, 7)), Some((6, 0)), Some(2048))),
    (7680, (Some((7, 7)), Some((7, 7)), Some(7680))),
    (8160, (Some((7, 7)), None, None)),
    (8192, (None, None, None)),
];

#[test]
fn eight_rows_of_eight(rt: HostRuntime) {
    are::<u8, u8, 8, 8>(&rt, EIGHT_BY_EIGHT);
}

/// The greatest size.
const LAST: usize = usize::MAX - 31;

const SIXTY_FOUR_BY_SIXTY_FOUR: &[(usize, Row)] = &[
    (32, (Some((0, 0)), Some((0, 0)), Some(32))),
    (96, (Some((1, 32)), Some((1, 32)), Some(96))),
    (70016, (Some((11, 4)), Some((11, 5)), Some(70656))),
    (LAST, (Some((58, 63)), Some((59, 0)), None)),
];

#[test]
fn other_rows(rt: HostRuntime) {
    are::<u8, u8, 8, 1>(&rt, &[(96, (Some((1, 0)), Some((2, 0)), Some(128)))]);
    are::<u8, u8, 1, 1>(&rt, &[(32, (Some((0, 0)), Some((0, 0)), Some(32)))]);
    are::<u64, u64, 64, 64>(&rt, SIXTY_FOUR_BY_SIXTY_FOUR);
    are::<u64, u64, 59, 8>(&rt, &[(LAST, (Some((58, 7)), None, None))]);
}

const MOST_CLASSES: &[(usize, Row)] = &[
    (32, (Some((0, 0)), Some((0, 0)), Some(32))),
    (96, (Some((1, 64)), Some((1, 64)), Some(96))),
    (416, (Some((3, 80)), Some((3, 80)), Some(416))),
    (544, (Some((4, 8)), Some((4, 8)), Some(544))),
    (8160, (Some((7, 127)), Some((7, 127)), Some(8160))),
    (8192, (Some((8, 0)), Some((8, 0)), Some(8192))),
    (70016, (Some((11, 8)), Some((11, 9)), Some(70144))),
    (1048608, (Some((15, 0)), Some((15, 1)), Some(1056768))),
    (
        9223372036854775808,
        (Some((58, 0)), Some((58, 0)), Some(9223372036854775808)),
    ),
    (
        18374686479671623648,
        (Some((58, 126)), Some((58, 127)), Some(18374686479671623680)),
    ),
    (
        18374686479671623680,
        (Some((58, 127)), Some((58, 127)), Some(18374686479671623680)),
    ),
    (18374686479671623712, (Some((58, 127)), Some((59, 0)), None)),
    (LAST, (Some((58, 127)), Some((59, 0)), None)),
];

#[test]
fn most_rows_of_most_classes(rt: HostRuntime) {
    are::<u128, u128, 128, 128>(&rt, MOST_CLASSES);
}

#[test]
fn longest_chunks(rt: HostRuntime) {
    let ends = [
        max_pool_size::<u8, u8, 1, 8>(),
        max_pool_size::<u8, u8, 8, 8>(),
        max_pool_size::<u16, u8, 12, 8>(),
        max_pool_size::<u64, u64, 58, 8>(),
        max_pool_size::<u64, u64, 59, 8>(),
        max_pool_size::<u64, u64, 60, 8>(),
        max_pool_size::<u128, u128, 128, 128>(),
    ];
    let expected = [
        Some(64),
        Some(8192),
        Some(131072),
        Some(1 << 63),
        None,
        None,
        None,
    ];
    all(&rt, &[ends == expected]);
}

#[test]
fn pools_for_one_allocation(rt: HostRuntime) {
    let one = Layout::from_size_align_unchecked(1, 1);
    let middling = Layout::from_size_align_unchecked(2000, 1);
    let large = Layout::from_size_align_unchecked(8000, 1);
    let pools = [
        pool_size_to_contain_allocation::<u8, u8, 8, 8>(one),
        pool_size_to_contain_allocation::<u8, u8, 8, 8>(middling),
        pool_size_to_contain_allocation::<u8, u8, 8, 8>(large),
    ];
    let is_least = request_size(one) == 32;
    all(&rt, &[is_least, pools == [Some(64), Some(2080), None]]);
}

const HALF: usize = 1 << 63;

/// A size, an alignment, and the length of a pool for it.
static POOLS: [(usize, usize, usize); 6] = [
    (1, 1, 64),
    (2000, 1, 2048),
    (8000, 1, 8064),
    (HALF - 1, 1, 9295429630892703776),
    (HALF - 16, 16, 9223372036854775840),
    (0, HALF, 9223372036854775840),
];

#[test]
fn pools_for_one_allocation_of_most_classes(rt: HostRuntime) {
    for (size, align, len) in &POOLS {
        let layout = Layout::from_size_align(*size, *align).expect(&rt, "a layout");
        let pool = pool_size_to_contain_allocation::<u128, u128, 128, 128>(layout);
        passes(&rt, pool == Some(*len), *size);
    }
}

/// Whether the class is one, and is that of a size which begins it.
fn begins(row: Row, class: Option<(usize, usize)>) -> bool {
    let (floor, ceil, _) = row;
    class.is_some() && floor == class && floor == ceil
}

/// Whether the number is a size and its three answers keep the laws.
fn laws_hold<F: BitPattern, S: BitPattern, const FLLEN: usize, const SLLEN: usize>(
    size: usize,
) -> bool
    requires parameters { IsValid F.width S.width FLLEN SLLEN }
{
    if size == 0 || size % 32 != 0 {
        return false;
    }
    let (_, ceil, least) = row::<F, S, FLLEN, SLLEN>(size);
    match least {
        Some(least) if size <= least && least % 32 == 0 => {
            begins(row::<F, S, FLLEN, SLLEN>(least), ceil)
        }
        Some(_) => false,
        None => ceil.is_none() || ceil == Some((59, 0)),
    }
}

/// Whether the longest chunk keeps its laws.
fn chunk_laws_hold<F: BitPattern, S: BitPattern, const FLLEN: usize, const SLLEN: usize>() -> bool
    requires parameters { IsValid F.width S.width FLLEN SLLEN }
{
    match max_pool_size::<F, S, FLLEN, SLLEN>() {
        Some(end) if end > 32 && end % 32 == 0 => {
            map_floor::<F, S, FLLEN, SLLEN>(end - 32).is_some()
                && map_floor::<F, S, FLLEN, SLLEN>(end).is_none()
        }
        Some(_) => false,
        None => FLLEN >= 59,
    }
}

/// Whether the laws hold of all sizes up to `2^14`, of ten around each greater power of two, and of the longest chunk. The lengths
/// of pools that are computed for one allocation have to be enough, too.
fn all_laws_hold<
    FLBitmap: BitPattern,
    SLBitmap: BitPattern,
    const FLLEN: usize,
    const SLLEN: usize,
>(rt: &(impl Abort + AllocGlobal), shape: Shape<'_, FLBitmap, SLBitmap, FLLEN, SLLEN>) -> bool
    requires parameters { IsValid FLBitmap.width SLBitmap.width FLLEN SLLEN }
{
    for i in 1..=512 {
        if !laws_hold::<FLBitmap, SLBitmap, FLLEN, SLLEN>(32 * i) {
            return false;
        }
    }
    for k in 14u32..64 {
        for i in 0..10 {
            let size = (1usize << k).wrapping_sub(160).wrapping_add(32 * i);
            if !laws_hold::<FLBitmap, SLBitmap, FLLEN, SLLEN>(size) {
                return false;
            }
        }
    }
    chunk_laws_hold::<FLBitmap, SLBitmap, FLLEN, SLLEN>() && are_long_enough(rt, shape)
}

#[test]
fn laws_of_rows_of_8_bits(rt: HostRuntime) {
    let answers = [
        all_laws_hold::<u8, u8, 1, 1>(&rt, None),
        all_laws_hold::<u8, u8, 1, 2>(&rt, None),
        all_laws_hold::<u8, u8, 1, 4>(&rt, None),
        all_laws_hold::<u8, u8, 1, 8>(&rt, None),
        all_laws_hold::<u8, u8, 3, 4>(&rt, None),
        all_laws_hold::<u8, u8, 5, 4>(&rt, None),
        all_laws_hold::<u8, u8, 8, 1>(&rt, None),
        all_laws_hold::<u8, u8, 8, 8>(&rt, None),
        all_laws_hold::<u16, u8, 3, 4>(&rt, None),
        all_laws_hold::<u16, u8, 11, 4>(&rt, None),
        all_laws_hold::<u16, u8, 16, 4>(&rt, None),
    ];
    all(&rt, &answers);
}

#[test]
fn laws_of_rows_of_16_and_32_classes(rt: HostRuntime) {
    let answers = [
        all_laws_hold::<u16, u16, 3, 16>(&rt, None),
        all_laws_hold::<u16, u16, 11, 16>(&rt, None),
        all_laws_hold::<u16, u16, 16, 16>(&rt, None),
        all_laws_hold::<u16, u32, 3, 16>(&rt, None),
        all_laws_hold::<u16, u32, 11, 16>(&rt, None),
        all_laws_hold::<u16, u32, 16, 16>(&rt, None),
        all_laws_hold::<u16, u32, 3, 32>(&rt, None),
        all_laws_hold::<u16, u32, 11, 32>(&rt, None),
        all_laws_hold::<u16, u32, 16, 32>(&rt, None),
        all_laws_hold::<u32, u32, 20, 32>(&rt, None),
        all_laws_hold::<u32, u32, 27, 32>(&rt, None),
        all_laws_hold::<u32, u32, 28, 32>(&rt, None),
        all_laws_hold::<u32, u32, 29, 32>(&rt, None),
        all_laws_hold::<u32, u32, 32, 32>(&rt, None),
    ];
    all(&rt, &answers);
}

#[test]
fn laws_of_most_rows(rt: HostRuntime) {
    let answers = [
        all_laws_hold::<u64, u64, 58, 8>(&rt, None),
        all_laws_hold::<u64, u64, 59, 8>(&rt, None),
        all_laws_hold::<u64, u64, 60, 8>(&rt, None),
        all_laws_hold::<u64, u64, 61, 8>(&rt, None),
        all_laws_hold::<u64, u64, 64, 8>(&rt, None),
        all_laws_hold::<usize, usize, 64, 64>(&rt, None),
        all_laws_hold::<u128, u128, 128, 128>(&rt, None),
    ];
    all(&rt, &answers);
}
