//! `i64` as a bitmap.

ghost use Rattle.std.specs.Prelude.{◌-◌, ◌^◌, pos, refl};
ghost use Rattle.std.specs.Int.{w64, cast_unsigned};
ghost use Rattle.std.proofs.Common.{lit≤};
ghost use Rattle.rlsf_int.specs.Bits.{bit-zero};
ghost use Rattle.rlsf_int.specs.Laws.{signed-IsOneToOne, signed-IsSpelled};

use crate::int::{BinInteger, BitPattern, Bitmap};
use crate::private::Sealed;
use std::ops::Range;

impl Sealed for i64 {}

impl BitPattern for i64 {
    ghost width = { 64 };

    ghost width_limit = { lit≤ tt };

    ghost pattern = { cast_unsigned w64 };

    ghost one_to_one = { signed-IsOneToOne w64 };
}

impl Bitmap for i64 {
    fn empty() -> i64 {
        0
    }

    fn insert_within(&mut self, i: u32) {
        *self = (self.cast_unsigned() | 1 << i).cast_signed();
    }

    fn first_from(&self, start: u32) -> u32 {
        self.bit_scan_forward(start)
    }
}

impl BinInteger for i64 {
    const ZERO: i64 = 0;

    ghost ZERO = { pos 0 };

    const BITS: u32 = 64;

    ghost BITS = { 64 };

    ghost number = { λ z. z };

    ghost greatest = { 2 ^ 63 - 1 };

    fn ones(range: Range<u32>) -> i64 {
        u64::ones(range).cast_signed()
    }

    fn trailing_zeros(&self) -> u32 {
        BinInteger::trailing_zeros(&self.cast_unsigned())
    }

    fn leading_zeros(&self) -> u32 {
        BinInteger::leading_zeros(&self.cast_unsigned())
    }

    fn count_ones(&self) -> u32 {
        BinInteger::count_ones(&self.cast_unsigned())
    }

    fn bit_scan_forward(&self, start: u32) -> u32 {
        self.cast_unsigned().bit_scan_forward(start)
    }

    fn extract_u32(&self, range: Range<u32>) -> u32 {
        self.cast_unsigned().extract_u32(range)
    }

    fn set_bit(&mut self, i: u32) {
        if i < Self::BITS {
            self.insert_within(i);
        }
    }

    fn clear_bit(&mut self, i: u32) {
        if i < Self::BITS {
            *self = (self.cast_unsigned() & !(1 << i)).cast_signed();
        }
    }

    fn checked_ceil_fix(self, fp: u32) -> Option<i64> {
        if fp >= Self::BITS {
            return if self == 0 { Some(0) } else { None };
        }
        let fraction = ((1_u64 << fp) - 1).cast_signed();
        match self.checked_add(fraction) {
            Some(sum) => Some(sum & !fraction),
            None => None,
        }
    }

    ghost zero_has_no_one = { bit-zero };

    ghost bits_is_width = { refl };

    ghost number_is = { signed-IsSpelled w64 };
}
