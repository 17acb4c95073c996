//! Worked values of the operations, and each of them through the bound.

ghost use Rattle.std.specs.Prelude.{◌≡◌, ◌≢◌, ◌+◌, ◌^◌, ◌<◌, ◌≤◌, ℕ, false, true, IfNone, IfSome};
ghost use Rattle.rlsf_int.specs.Bits.{bit};

use crate::answers::all;
use rlsf_int::BinInteger;

/// The number of positions, through the bound.
fn positions<F: BinInteger>() -> u32
    ensures all { result ≡ F.width }
    ensures limit { result ≤ 128 }
{
    F::BITS
}

/// The value without a one, through the bound.
fn empty<F: BinInteger>() -> F
    ensures { (i : ℕ) → bit (F.pattern result) i ≡ false }
{
    F::ZERO
}

/// Moves the first one from `start` on to the position `to`, and returns its old position.
fn move_first<F: BinInteger>(map: &mut F, start: u32, to: u32) -> Option<u32>
    requires { to < F.BITS }
    ensures from { IfSome result (λ k. (start ≤ k) × (k < F.BITS) × (bit (F.pattern map.old) k ≡ true)) }
    ensures first { IfSome result (λ k. (i : ℕ) → start ≤ i → i < k → bit (F.pattern map.old) i ≡ false) }
    ensures put { IfSome result (λ k. bit (F.pattern map.new) to ≡ true) }
    ensures taken { IfSome result (λ k. k ≢ to → bit (F.pattern map.new) k ≡ false) }
    ensures others { IfSome result (λ k. (j : ℕ) → j ≢ k → j ≢ to → bit (F.pattern map.new) j ≡ bit (F.pattern map.old) j) }
    ensures none { IfNone result ((i : ℕ) → start ≤ i → i < F.BITS → bit (F.pattern map.old) i ≡ false) }
{
    let first = map.bit_scan_forward(start);
    if first >= F::BITS {
        return None;
    }
    map.clear_bit(first);
    map.set_bit(to);
    Some(first)
}

/// How many ones there are. A caller of any type learns that no position from the width on has one.
fn count<F: BinInteger>(map: &F) -> u32
    ensures { F.pattern map.now < 2 ^ F.width }
{
    map.count_ones()
}

/// The trailing zeros, the leading zeros, the first one from `start` on, and four positions there.
fn reads<F: BinInteger>(map: &F, start: u32) -> [u32; 4]
    requires { start < 128 }
{
    [
        map.trailing_zeros(),
        map.leading_zeros(),
        map.bit_scan_forward(start),
        map.extract_u32(start..start + 4),
    ]
}

/// Whether there is a one at the position, through the bound.
fn has<F: BinInteger>(map: &F, i: u32) -> bool {
    map.get_bit(i)
}

/// A run of ones, through the bound.
fn run<F: BinInteger>(start: u32, end: u32) -> F
    requires ordered { start ≤ end }
    requires within { end ≤ F.BITS }
{
    F::ones(start..end)
}

/// A run of ones that may pass the width, through the bound.
fn cut_run<F: BinInteger>(start: u32, end: u32) -> F
    requires { start ≤ end }
{
    F::ones_truncated(start..end)
}

/// The value with a one at the position, through the bound.
fn with<F: BinInteger>(mut map: F, i: u32) -> F {
    map.set_bit(i);
    map
}

/// The value without a one at the position, through the bound.
fn without<F: BinInteger>(mut map: F, i: u32) -> F {
    map.clear_bit(i);
    map
}

/// The value rounded up, through the bound.
fn rounded<F: BinInteger>(map: F, fp: u32) -> Option<F> {
    map.checked_ceil_fix(fp)
}

#[test]
fn bits_of_each_type(rt: HostRuntime) {
    let signed = [
        positions::<i8>(),
        positions::<i16>(),
        positions::<i32>(),
        positions::<i64>(),
        positions::<i128>(),
        positions::<isize>(),
    ];
    let unsigned = [
        positions::<u8>(),
        positions::<u16>(),
        positions::<u32>(),
        positions::<u64>(),
        positions::<u128>(),
        positions::<usize>(),
    ];
    let expected = [8, 16, 32, 64, 128, 64];
    all(&rt, &[signed == expected, unsigned == expected]);
}

#[test]
fn zero_of_each_type(rt: HostRuntime) {
    let answers = [
        empty::<i8>() == 0,
        empty::<i16>() == 0,
        empty::<i32>() == 0,
        empty::<i64>() == 0,
        empty::<i128>() == 0,
        empty::<isize>() == 0,
        empty::<u8>() == 0,
        empty::<u16>() == 0,
        empty::<u32>() == 0,
        empty::<u64>() == 0,
        empty::<u128>() == 0,
        empty::<usize>() == 0,
    ];
    all(&rt, &answers);
}

#[test]
fn worked_values(rt: HostRuntime) {
    let answers = [
        0b1010_u8.bit_scan_forward(2) == 3,
        0b1010_u8.bit_scan_forward(4) == 8,
        (-1_i8).extract_u32(4..8) == 15,
        0x12_3456_789A_u64.extract_u32(4..40) == 0x2345_6789,
        i8::ones(0..8) == -1,
        i8::ones(7..8) == -128,
        u8::ones(8..8) == 0,
        u8::ones_truncated(6..20) == 192,
        u8::ones_truncated(9..20) == 0,
        0x11_u8.checked_ceil_fix(4) == Some(0x20),
        0xF1_u8.checked_ceil_fix(4) == None,
        (-7_i8).checked_ceil_fix(3) == Some(0),
        127_i8.checked_ceil_fix(3) == None,
        (-1_i8).checked_ceil_fix(7) == Some(0),
        1_i8.checked_ceil_fix(7) == None,
        (-1_i8).checked_ceil_fix(8) == None,
        BinInteger::trailing_zeros(&0_u8) == 8,
        BinInteger::leading_zeros(&0_u8) == 8,
        BinInteger::count_ones(&0_u8) == 0,
        !0_u8.get_bit(8),
    ];
    all(&rt, &answers);
}

#[test]
fn reads_through_the_bound(rt: HostRuntime) {
    let answers = [
        reads(&0b0101_1000_u8, 4) == [3, 1, 4, 0b0101],
        reads(&-88_i8, 4) == [3, 0, 5, 0b1010],
        reads(&((1 << 100) + 12_u128), 98) == [2, 27, 100, 0b0100],
        reads(&-(1_i128 << 100), 98) == [100, 0, 100, 0b1100],
        count(&88_u8) == 3,
        count(&-88_i8) == 3,
        count(&((1 << 100) + 12_u128)) == 3,
        count(&-(1_i128 << 100)) == 28,
        has(&88_u8, 6),
        !has(&88_u8, 7),
        has(&-88_i8, 7),
        !has(&-88_i8, 6),
        has(&(1_u128 << 100), 100),
        !has(&(1_u128 << 100), 228),
        has(&-1_i128, 127),
        !has(&-1_i128, 128),
    ];
    all(&rt, &answers);
}

#[test]
fn makes_through_the_bound(rt: HostRuntime) {
    let answers = [
        run::<u8>(2, 5) == 28,
        run::<i8>(6, 8) == -64,
        run::<u128>(64, 65) == 18_446_744_073_709_551_616,
        run::<i128>(127, 128) == i128::MIN,
        cut_run::<u8>(7, 9) == 128,
        cut_run::<i8>(8, 9) == 0,
        cut_run::<u128>(0, 200) == u128::MAX,
        cut_run::<i128>(127, 200) == i128::MIN,
    ];
    all(&rt, &answers);
}

#[test]
fn writes_through_the_bound(rt: HostRuntime) {
    let mut map = 0b1001_0001_u8;
    let moved = move_first(&mut map, 1, 6) == Some(4) && map == 0b1100_0001;
    let left = move_first(&mut map, 8, 6) == None && map == 0b1100_0001;
    let answers = [
        with(1_u8, 7) == 129,
        with(1_i8, 7) == -127,
        with(1_u8, 8) == 1,
        with(0_u128, 64) == 18_446_744_073_709_551_616,
        with(0_i128, 127) == i128::MIN,
        without(255_u8, 0) == 254,
        without(-1_i8, 7) == 127,
        without(-1_i8, 8) == -1,
        without(u128::MAX, 127) == u128::MAX / 2,
        without(-1_i128, 127) == i128::MAX,
        moved,
        left,
    ];
    all(&rt, &answers);
}

#[test]
fn rounds_through_the_bound(rt: HostRuntime) {
    let answers = [
        rounded(9_u8, 3) == Some(16),
        rounded(-9_i8, 3) == Some(-8),
        rounded(5_u128, 2) == Some(8),
        rounded(u128::MAX, 1) == None,
        rounded(-9_i128, 3) == Some(-8),
        rounded(0_i128, 128) == Some(0),
    ];
    all(&rt, &answers);
}
