//! `usize` as a bitmap.

ghost use Rattle.std.specs.Prelude.{◌-◌, ◌^◌, pos, refl};
ghost use Rattle.std.specs.Int.{w64};
ghost use Rattle.std.proofs.Common.{lit≤};
ghost use Rattle.rlsf_int.specs.Bits.{bit-zero};
ghost use Rattle.rlsf_int.specs.Laws.{unsigned-IsOneToOne, unsigned-IsSpelled};

use crate::impls::lowest;
use crate::int::{BinInteger, BitPattern, Bitmap};
use crate::private::Sealed;
use std::ops::Range;

impl Sealed for usize {}

impl BitPattern for usize {
    ghost width = { 64 };

    ghost width_limit = { lit≤ tt };

    ghost pattern = { λ n. n };

    ghost one_to_one = { unsigned-IsOneToOne w64 };
}

impl Bitmap for usize {
    fn empty() -> usize {
        0
    }

    fn insert_within(&mut self, i: u32) {
        *self |= 1 << i;
    }

    fn first_from(&self, start: u32) -> u32 {
        self.bit_scan_forward(start)
    }
}

impl BinInteger for usize {
    const ZERO: usize = 0;

    ghost ZERO = { 0 };

    const BITS: u32 = 64;

    ghost BITS = { 64 };

    ghost number = { pos };

    ghost greatest = { 2 ^ 64 - 1 };

    fn ones(range: Range<u32>) -> usize {
        if range.start == range.end {
            Self::ZERO
        } else {
            (usize::MAX << range.start) & (usize::MAX >> (Self::BITS - range.end))
        }
    }

    fn trailing_zeros(&self) -> u32 {
        (*self).trailing_zeros()
    }

    fn leading_zeros(&self) -> u32 {
        (*self).leading_zeros()
    }

    fn count_ones(&self) -> u32 {
        (*self).count_ones()
    }

    fn bit_scan_forward(&self, start: u32) -> u32 {
        if start >= Self::BITS {
            Self::BITS
        } else {
            (*self & (usize::MAX << start)).trailing_zeros()
        }
    }

    fn extract_u32(&self, range: Range<u32>) -> u32 {
        let value = *self;
        if range.start >= Self::BITS {
            0
        } else {
            let moved = (value >> range.start & u32::MAX as usize) as u32;
            lowest(moved, range.end - range.start)
        }
    }

    fn set_bit(&mut self, i: u32) {
        if i < Self::BITS {
            self.insert_within(i);
        }
    }

    fn clear_bit(&mut self, i: u32) {
        if i < Self::BITS {
            *self &= !(1 << i);
        }
    }

    fn checked_ceil_fix(self, fp: u32) -> Option<usize> {
        if fp >= Self::BITS {
            return if self == 0 { Some(0) } else { None };
        }
        let fraction = (1 << fp) - 1;
        match self.checked_add(fraction) {
            Some(sum) => Some(sum & !fraction),
            None => None,
        }
    }

    ghost zero_has_no_one = { bit-zero };

    ghost bits_is_width = { refl };

    ghost number_is = { unsigned-IsSpelled w64 };
}
