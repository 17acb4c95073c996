//! `u16` as a bitmap.

ghost use Rattle.std.specs.Prelude.{◌-◌, ◌^◌, pos, refl};
ghost use Rattle.std.specs.Int.{w16};
ghost use Rattle.std.proofs.Common.{lit≤};
ghost use Rattle.rlsf_int.specs.Bits.{bit-zero};
ghost use Rattle.rlsf_int.specs.Laws.{unsigned-IsOneToOne, unsigned-IsSpelled};

use crate::impls::lowest;
use crate::int::{BinInteger, BitPattern, Bitmap};
use crate::private::Sealed;
use std::ops::Range;

impl Sealed for u16 {}

impl BitPattern for u16 {
    ghost width = { 16 };

    ghost width_limit = { lit≤ tt };

    ghost pattern = { λ n. n };

    ghost one_to_one = { unsigned-IsOneToOne w16 };
}

impl Bitmap for u16 {
    fn empty() -> u16 {
        0
    }

    fn insert_within(&mut self, i: u32) {
        *self |= 1 << i;
    }

    fn first_from(&self, start: u32) -> u32 {
        self.bit_scan_forward(start)
    }
}

impl BinInteger for u16 {
    const ZERO: u16 = 0;

    ghost ZERO = { 0 };

    const BITS: u32 = 16;

    ghost BITS = { 16 };

    ghost number = { pos };

    ghost greatest = { 2 ^ 16 - 1 };

    fn ones(range: Range<u32>) -> u16 {
        if range.start == range.end {
            Self::ZERO
        } else {
            (u16::MAX << range.start) & (u16::MAX >> (Self::BITS - range.end))
        }
    }

    fn trailing_zeros(&self) -> u32 {
        (*self).trailing_zeros()
    }

    fn leading_zeros(&self) -> u32 {
        (*self).leading_zeros()
    }

    fn count_ones(&self) -> u32 {
        (*self).count_ones()
    }

    fn bit_scan_forward(&self, start: u32) -> u32 {
        if start >= Self::BITS {
            Self::BITS
        } else {
            (*self & (u16::MAX << start)).trailing_zeros()
        }
    }

    fn extract_u32(&self, range: Range<u32>) -> u32 {
        let value = *self;
        if range.start >= Self::BITS {
            0
        } else {
            let moved = u32::from(value >> range.start);
            lowest(moved, range.end - range.start)
        }
    }

    fn set_bit(&mut self, i: u32) {
        if i < Self::BITS {
            self.insert_within(i);
        }
    }

    fn clear_bit(&mut self, i: u32) {
        if i < Self::BITS {
            *self &= !(1 << i);
        }
    }

    fn checked_ceil_fix(self, fp: u32) -> Option<u16> {
        if fp >= Self::BITS {
            return if self == 0 { Some(0) } else { None };
        }
        let fraction = (1 << fp) - 1;
        match self.checked_add(fraction) {
            Some(sum) => Some(sum & !fraction),
            None => None,
        }
    }

    ghost zero_has_no_one = { bit-zero };

    ghost bits_is_width = { refl };

    ghost number_is = { unsigned-IsSpelled w16 };
}
