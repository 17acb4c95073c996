//! The trait of the integers that serve as bitmaps, and the meaning of their values.

ghost use Rattle.std.specs.Prelude.{◌≡◌, ◌+◌, ◌<◌, ◌≤◌, ℕ, ℤ, false, ◌&&◌, ◌||◌, not, nat_eq, nat_lt, nat_le, option_map};
ghost use Rattle.rlsf_int.specs.Bits.{bit, IsFirstOne, IsLeadingZeros, ones_below};
ghost use Rattle.rlsf_int.specs.Ceilings.{IsCheckedCeiling};
ghost use Rattle.rlsf_int.specs.Values.{IsOneToOne, IsSpelled, IsValue};

use crate::private::Sealed;
use std::ops::Range;
use std::{fmt, ops};

/// The meaning of a value: the set of the positions of its ones in two's complement. The lowest
/// position is 0.
///
/// It has no code and no parent. It is a trait below `BinInteger` for structs that know their bitmaps by their widths alone.
/// A proof over a bound carries every parent of the trait, so a trait without parents keeps the proofs of these structs short.
pub trait BitPattern {
    // The number of positions.
    ghost width: { ℕ };

    ghost width_limit: { width ≤ 128 };

    // The number whose ones, in binary, are at the positions of the value's ones.
    ghost pattern: { Self → ℕ };

    // The pattern is below `2 ^ width`, two values with one pattern are equal, and every number
    // below `2 ^ width` is a value's pattern.
    ghost one_to_one: { IsOneToOne (IsValue Self.row) width pattern };
}

/// What the allocator needs of its bitmaps, as operations on sets of positions.
///
/// `BinInteger` has all of it under the original's names. It is a trait of its own for functions that are generic over
/// bitmaps: a proof over a bound carries every parent of the trait.
pub trait Bitmap: BitPattern + Copy + Sealed {
    /// Returns the value without a one.
    fn empty() -> Self
        ensures { Self.pattern result ≡ 0 };

    /// Sets the position, which must be below the number of positions. It tests no bound.
    fn insert_within(&mut self, i: u32)
        requires { i < Self.width }
        ensures { (j : ℕ) → bit (Self.pattern self.new) j ≡ (bit (Self.pattern self.old) j || nat_eq j i) };

    /// Returns the least position of a one from `start` on, or the number of positions if there is none.
    fn first_from(&self, start: u32) -> u32
        ensures { IsFirstOne Self.width (Self.pattern self.now) start result };
}

/// The integer types that serve as bitmaps: operations on the positions of a value's ones, under the original's names.
///
/// A position is that of a binary digit; the lowest is 0. A range of positions has its start and
/// not its end.
pub trait BinInteger: Bitmap
    + Clone
    + Copy
    + PartialEq
    + Eq
    + Ord
    + PartialOrd
    + ops::Add<Output = Self>
    + ops::Sub<Output = Self>
    + ops::Mul<Output = Self>
    + ops::Div<Output = Self>
    + ops::Rem<Output = Self>
    + Sized
    + ops::AddAssign
    + ops::SubAssign
    + ops::MulAssign
    + ops::DivAssign
    + ops::RemAssign
    + fmt::Debug
    + Send
    + Sync
    + 'static
    + Sealed {
    /// Returns the value that has no one.
    const ZERO: Self;

    ghost ZERO: { Self };

    /// The number of positions of a value, which is the size of the type in bits.
    const BITS: u32;

    ghost BITS: { ℕ };

    // The value as a number. It is below 0 if the type is signed and the highest position has a one.
    ghost number: { Self → ℤ };

    // The greatest number of the type.
    ghost greatest: { ℕ };

    /// Returns the value whose ones are at the positions of the range. The range must be in order and
    /// not past `BITS`.
    fn ones(range: Range<u32>) -> Self
        requires ordered { range.start ≤ range.end }
        requires within { range.end ≤ BITS }
        ensures { (i : ℕ) → bit (Self.pattern result) i ≡ (nat_le range.start i && nat_lt i range.end) };

    /// Returns the value whose ones are at the positions of the range. The range must be in order; its
    /// positions from `BITS` on are dropped.
    fn ones_truncated(range: Range<u32>) -> Self
        requires { range.start ≤ range.end }
        ensures { (i : ℕ) → bit (Self.pattern result) i ≡ (nat_le range.start i && (nat_lt i range.end && nat_lt i BITS)) }
    {
        Self::ones(range.start.min(Self::BITS)..range.end.min(Self::BITS))
    }

    /// Returns the least position of a one, or `BITS` if there is none.
    fn trailing_zeros(&self) -> u32
        ensures { IsFirstOne BITS (Self.pattern self.now) 0 result };

    /// Returns the number of positions above the greatest position of a one, which is `BITS` if there is
    /// none.
    fn leading_zeros(&self) -> u32
        ensures { IsLeadingZeros BITS (Self.pattern self.now) result };

    /// Returns the number of ones.
    fn count_ones(&self) -> u32
        ensures count { result ≡ ones_below (Self.pattern self.now) BITS }
        // The condition on a value in the law of `BitPattern`.
        ensures value { IsValue Self.row self.now };

    /// Returns the least position of a one from `start` on, or `BITS` if there is none.
    fn bit_scan_forward(&self, start: u32) -> u32
        ensures { IsFirstOne BITS (Self.pattern self.now) start result };

    /// Returns the ones at the positions of the range, moved down by the range's start. Of these the
    /// lowest 32 are kept. The range must be in order; it may pass `BITS`, where no ones are.
    fn extract_u32(&self, range: Range<u32>) -> u32
        requires { range.start ≤ range.end }
        ensures { (i : ℕ) → bit result i ≡ (bit (Self.pattern self.now) (range.start + i) && (nat_lt (range.start + i) range.end && nat_lt i 32)) };

    /// Returns whether there is a one at the position. From `BITS` on there is none.
    fn get_bit(&self, i: u32) -> bool
        ensures { result ≡ (bit (Self.pattern self.now) i && nat_lt i BITS) }
    {
        i < Self::BITS && self.bit_scan_forward(i) == i
    }

    /// Sets the position. From `BITS` on nothing changes.
    fn set_bit(&mut self, i: u32)
        ensures { (j : ℕ) → bit (Self.pattern self.new) j ≡ (bit (Self.pattern self.old) j || (nat_eq j i && nat_lt i BITS)) };

    /// Clears the position, which may be clear already. From `BITS` on nothing changes.
    fn clear_bit(&mut self, i: u32)
        ensures { (j : ℕ) → bit (Self.pattern self.new) j ≡ (bit (Self.pattern self.old) j && not (nat_eq j i && nat_lt i BITS)) };

    /// Rounds up a fixed-point number whose lowest `fp` digits are its fraction. Returns the least
    /// multiple of `2 ^ fp` that isn't below the value, and `None` exactly if that isn't a number of the
    /// type. If `fp` is at least `BITS`, it returns 0 for 0, and otherwise `None`.
    fn checked_ceil_fix(self, fp: u32) -> Option<Self>
        ensures { IsCheckedCeiling BITS greatest fp (number self) (option_map number result) };

    ghost zero_has_no_one: { (i : ℕ) → bit (Self.pattern ZERO) i ≡ false };

    ghost bits_is_width: { BITS ≡ Self.width };

    // The numbers of the type end at `greatest`. Each is its pattern's number, less `2 ^ BITS` if
    // that is above `greatest`.
    ghost number_is: { (x : Self) → IsValue Self.row x → IsSpelled Self.width greatest (Self.pattern x) (number x) };
}
