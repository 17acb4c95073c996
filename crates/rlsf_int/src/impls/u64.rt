//! `u64` as a bitmap.

ghost use Rattle.std.specs.Prelude.{◌-◌, ◌^◌, pos, refl};
ghost use Rattle.std.specs.Int.{w64};
ghost use Rattle.std.proofs.Common.{lit≤};
ghost use Rattle.rlsf_int.specs.Bits.{bit-zero};
ghost use Rattle.rlsf_int.specs.Laws.{unsigned-IsOneToOne, unsigned-IsSpelled};

use crate::impls::lowest;
use crate::int::{BinInteger, BitPattern, Bitmap};
use crate::private::Sealed;
use std::ops::Range;

impl Sealed for u64 {}

impl BitPattern for u64 {
    ghost width = { 64 };

    ghost width_limit = { lit≤ tt };

    ghost pattern = { λ n. n };

    ghost one_to_one = { unsigned-IsOneToOne w64 };
}

impl Bitmap for u64 {
    fn empty() -> u64 {
        0
    }

    fn insert_within(&mut self, i: u32) {
        *self |= 1 << i;
    }

    fn first_from(&self, start: u32) -> u32 {
        self.bit_scan_forward(start)
    }
}

impl BinInteger for u64 {
    const ZERO: u64 = 0;

    ghost ZERO = { 0 };

    const BITS: u32 = 64;

    ghost BITS = { 64 };

    ghost number = { pos };

    ghost greatest = { 2 ^ 64 - 1 };

    fn ones(range: Range<u32>) -> u64 {
        if range.start == range.end {
            Self::ZERO
        } else {
            (u64::MAX << range.start) & (u64::MAX >> (Self::BITS - range.end))
        }
    }

    fn trailing_zeros(&self) -> u32 {
        (*self).trailing_zeros()
    }

    fn leading_zeros(&self) -> u32 {
        (*self).leading_zeros()
    }

    fn count_ones(&self) -> u32 {
        (*self).count_ones()
    }

    fn bit_scan_forward(&self, start: u32) -> u32 {
        if start >= Self::BITS {
            Self::BITS
        } else {
            (*self & (u64::MAX << start)).trailing_zeros()
        }
    }

    fn extract_u32(&self, range: Range<u32>) -> u32 {
        let value = *self;
        if range.start >= Self::BITS {
            0
        } else {
            let moved = (value >> range.start & u32::MAX as u64) as u32;
            lowest(moved, range.end - range.start)
        }
    }

    fn set_bit(&mut self, i: u32) {
        if i < Self::BITS {
            self.insert_within(i);
        }
    }

    fn clear_bit(&mut self, i: u32) {
        if i < Self::BITS {
            *self &= !(1 << i);
        }
    }

    fn checked_ceil_fix(self, fp: u32) -> Option<u64> {
        if fp >= Self::BITS {
            return if self == 0 { Some(0) } else { None };
        }
        let fraction = (1 << fp) - 1;
        match self.checked_add(fraction) {
            Some(sum) => Some(sum & !fraction),
            None => None,
        }
    }

    ghost zero_has_no_one = { bit-zero };

    ghost bits_is_width = { refl };

    ghost number_is = { unsigned-IsSpelled w64 };
}
