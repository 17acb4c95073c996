//! An allocator of offsets that refuses each call that its caller may not make, in place of conditions.

ghost use Rattle.std.specs.Prelude.{◌≡◌, ◌≤◌, ◌<◌, ◌+◌, ◌-◌, ◌*◌, ◌/◌, ◌^◌, ◌↔◌, ◌⊎◌, ℕ, None, max, is_some, true, IfErr, IfOk, IsErrOf, IsOk, OnErr};
ghost use Rattle.std.specs.Map.Iter.{GivesInOrder};
ghost use Rattle.rlsf_model_sizes.specs.PowerOfTwo.{IsPowerOfTwo};
ghost use Rattle.rlsf_offsets.specs.Blocks.{AreStats};
ghost use Rattle.rlsf_offsets.specs.Checked.{IsAllocation, IsGrowth, IsRangeReallocation, if_range_live, len_or};
ghost use Rattle.rlsf_offsets.specs.Iteration.{ArePieces};
ghost use Rattle.rlsf_offsets.specs.Offsets as offsets;
ghost use Rattle.rlsf_offsets.specs.Offsets.{IsRangeAllocated, IsRangeDeallocated, IsDivided, IsSpaceGrown, IsRangeReallocated, KeepsRanges, SucceedsFor, len_at};
ghost use Rattle.rlsf_offsets.specs.Units.{IsFreeRun, KeepsSpaceSized, KeepsSizedFor, KeepsSizedThere, SizesSpace, limit_of};
ghost use Rattle.rlsf_offsets.specs.declared.error.OffsetError.TheVariants.{BadUnit, NoRoom, OutOfMemory, TooLong, TooShort};

use crate::error::OffsetError;
use crate::marks::Marks;
use crate::offsets::{OffsetTlsf, greater};
use crate::pieces::{Piece, Pieces};
use crate::stats::Stats;
use rlsf_base::memory::MemoryError;
use std::alloc::Global;
use std::marker::Model;

/// An `OffsetTlsf` whose calls have no conditions: each call tests its arguments, and refuses those that a caller may not pass.
///
/// It has a mark, one byte, for each unit that the space can get. After `new`, it requests nothing from the system.
#[derive(Drop)]
pub struct CheckedOffsets<const UNIT: usize> {
    inner: OffsetTlsf<UNIT>,
    marks: Marks,
}

impl<const UNIT: usize> Model for CheckedOffsets<UNIT> {
    ghost use Rattle.rlsf_offsets.specs.Marks.{IsCheckedSpace};
    ghost use Rattle.rlsf_offsets.specs.Units.{Offsets};

    ghost Value = { Offsets };

    ghost view = { λ o. o.inner };

    ghost invariant = { λ o. IsCheckedSpace UNIT o.inner o.marks };
}

impl<const UNIT: usize> CheckedOffsets<UNIT> {
    /// Creates an allocator of a space of `len` bytes that can grow to `limit` bytes, as `OffsetTlsf::with_limit` does.
    ///
    /// Returns:
    ///
    /// - `BadUnit` if and only if `UNIT` isn't a power of two;
    /// - else `TooLong` if and only if the space can get more than `2^56` units;
    /// - else `OutOfMemory` if the system refuses the shadow or the marks.
    pub fn new(alloc: Global, len: usize, limit: usize) -> Result<Self, OffsetError>
        ensures bad_unit { IsErrOf result BadUnit ↔ (IsPowerOfTwo UNIT → ⊥) }
        ensures too_long { IsErrOf result TooLong ↔ (IsPowerOfTwo UNIT × (2 ^ 56 < max (len / UNIT) (limit / UNIT))) }
        ensures refused { IfErr result (λ e. (e ≡ BadUnit) ⊎ (e ≡ TooLong) ⊎ (e ≡ OutOfMemory)) }
        ensures units { IfOk result (λ space. (space.units ≡ len / UNIT) × (limit_of space ≡ max (len / UNIT) (limit / UNIT))) }
        ensures empty { IfOk result (λ space. (o : ℕ) → len_at UNIT space o ≡ None) }
        ensures free { IfOk result (λ space. IsFreeRun space 0 (len / UNIT)) }
        ensures sized { IfOk result (λ space. SizesSpace space) }
    {
        if !is_power(UNIT) {
            return Err(OffsetError::BadUnit);
        }
        let inner = match OffsetTlsf::with_limit(alloc, len, limit) {
            Ok(inner) => inner,
            Err(MemoryError::TooLong) => return Err(OffsetError::TooLong),
            Err(_) => return Err(OffsetError::OutOfMemory),
        };
        let Some(marks) = Marks::new(alloc, greater(len / UNIT, limit / UNIT)) else {
            return Err(OffsetError::OutOfMemory);
        };
        Ok(CheckedOffsets { inner, marks })
    }

    /// Returns whether a range is live at an offset.
    fn is_live(&self, offset: usize) -> bool
        ensures { result ≡ is_some (len_at UNIT self.now offset) }
    {
        // Opens the invariant for the prover: the unit isn't 0.
        let _ = &self.marks;
        offset % UNIT == 0 && self.marks.get(offset / UNIT)
    }

    /// Returns the length of the space in bytes, a multiple of the unit.
    pub fn space_len(&self) -> usize
        ensures value { result ≡ self.now.units * UNIT }
        ensures divided { IsDivided UNIT self.now }
    {
        self.inner.space_len()
    }

    /// Allocates a range as `OffsetTlsf::allocate` does, and returns its offset.
    ///
    /// Refuses, and changes nothing:
    ///
    /// - `BadAlign` if and only if `align` isn't a power of two;
    /// - else `TooLong` if and only if the space has fewer than `len` bytes;
    /// - else `NoRoom` if and only if no free range has a class that reaches the sought units.
    ///
    /// Completes in constant time: at most 27 word accesses.
    pub fn allocate(&mut self, len: usize, align: usize) -> Result<usize, OffsetError>
        ensures allocated { IfOk result (λ offset. IsRangeAllocated UNIT self.old self.new len align offset) }
        ensures which { IsAllocation UNIT self.old len align result }
        ensures room { IsPowerOfTwo align → (o m : ℕ) → IsFreeRun self.old o m → 9 * (offsets.units_of_bytes UNIT len + offsets.units_of_bytes UNIT align - 1) ≤ 8 * m → IsOk result }
        ensures within { IsPowerOfTwo align → SucceedsFor UNIT self.old len align (IsOk result) }
        ensures sized { KeepsSizedFor self.old self.new (offsets.units_of_bytes UNIT len) (offsets.units_of_bytes UNIT align) }
        ensures same { OnErr result (KeepsRanges UNIT self.old self.new) }
        ensures touches { self.new.shadow.memory.touches ≤ self.old.shadow.memory.touches + 27 }
    {
        if !is_power(align) {
            return Err(OffsetError::BadAlign);
        }
        match self.inner.allocate(len, align) {
            Some(offset) => {
                self.marks.set(offset / UNIT, true);
                Ok(offset)
            }
            None => Err(allocation_error(len, self.inner.space_len())),
        }
    }

    /// Deallocates the range at `offset`. Returns `UnknownOffset` if and only if none is live there. Then nothing changes.
    ///
    /// An offset that was deallocated and allocated again is live, so a call with it can't be refused.
    ///
    /// Completes in constant time: at most 33 word accesses.
    pub fn deallocate(&mut self, offset: usize) -> Result<(), OffsetError>
        ensures deallocated { IfOk result (λ x. IsRangeDeallocated UNIT self.old self.new offset) }
        ensures which { result ≡ if_range_live (len_at UNIT self.old offset) tt }
        ensures sized { KeepsSpaceSized self.old self.new }
        ensures same { OnErr result (KeepsRanges UNIT self.old self.new) }
        ensures touches { self.new.shadow.memory.touches ≤ self.old.shadow.memory.touches + 33 }
    {
        if !self.is_live(offset) {
            return Err(OffsetError::UnknownOffset);
        }
        self.inner.deallocate(offset);
        self.marks.set(offset / UNIT, false);
        Ok(())
    }

    /// Changes the length of the range at `offset` in place, as `OffsetTlsf::reallocate_in_place` does.
    ///
    /// Refuses, and changes nothing:
    ///
    /// - `UnknownOffset` if and only if no range is live there;
    /// - else `NoRoom` if and only if it had fewer units, and no free range that begins at its end has the rest.
    ///
    /// Completes in constant time: at most 26 word accesses.
    pub fn reallocate_in_place(&mut self, offset: usize, len: usize) -> Result<(), OffsetError>
        ensures reallocated { IfOk result (λ x. IsRangeReallocated UNIT self.old self.new len offset) }
        ensures which { IsRangeReallocation UNIT self.old offset len result }
        ensures sized { KeepsSizedThere self.old self.new (offset / UNIT) (offsets.units_of_bytes UNIT len) }
        ensures same { OnErr result (KeepsRanges UNIT self.old self.new) }
        ensures touches { self.new.shadow.memory.touches ≤ self.old.shadow.memory.touches + 26 }
    {
        if !self.is_live(offset) {
            return Err(OffsetError::UnknownOffset);
        }
        if !self.inner.reallocate_in_place(offset, len) {
            return Err(OffsetError::NoRoom);
        }
        Ok(())
    }

    /// Makes the space `len` bytes long, as `OffsetTlsf::grow` does.
    ///
    /// Refuses, and changes nothing:
    ///
    /// - `TooLong` if and only if `len` has more units than the limit;
    /// - `TooShort` if and only if the space has more units.
    ///
    /// Completes in constant time: at most 34 word accesses.
    pub fn grow(&mut self, len: usize) -> Result<(), OffsetError>
        ensures grown { IfOk result (λ x. IsSpaceGrown UNIT self.old self.new len) }
        ensures which { IsGrowth UNIT self.old len result }
        ensures sized { KeepsSpaceSized self.old self.new }
        ensures same { OnErr result (KeepsRanges UNIT self.old self.new) }
        ensures touches { self.new.shadow.memory.touches ≤ self.old.shadow.memory.touches + 34 }
    {
        if !self.inner.grow(len) {
            return Err(growth_error(len / UNIT, self.inner.space_len() / UNIT));
        }
        Ok(())
    }

    /// Returns the length in bytes of the range at `offset`, or `UnknownOffset` if and only if none is live there.
    ///
    /// Completes in constant time.
    pub fn len(&self, offset: usize) -> Result<usize, OffsetError>
        ensures { result ≡ len_or (len_at UNIT self.now offset) }
    {
        if !self.is_live(offset) {
            return Err(OffsetError::UnknownOffset);
        }
        Ok(self.inner.len(offset))
    }

    /// Returns an iterator over the free ranges and the live ranges, as `OffsetTlsf::pieces` does.
    pub fn pieces(&self) -> Pieces<'_, UNIT>
        ensures pieces { ArePieces UNIT self.now result }
        ensures runs { GivesInOrder Piece }
    {
        self.inner.pieces()
    }

    /// Returns the totals of the space, as `OffsetTlsf::stats` does.
    pub fn stats(&self) -> Stats
        ensures { AreStats UNIT self.now result }
    {
        self.inner.stats()
    }
}

/// Returns whether a number is a power of two.
fn is_power(n: usize) -> bool
    ensures { (result ≡ true) ↔ IsPowerOfTwo n }
{
    n.is_power_of_two()
}

/// Returns why a range of so many bytes was refused in a space of so many.
fn allocation_error(len: usize, space: usize) -> OffsetError
    ensures { ((result ≡ TooLong) × (space < len)) ⊎ ((result ≡ NoRoom) × (len ≤ space)) }
{
    if space < len {
        OffsetError::TooLong
    } else {
        OffsetError::NoRoom
    }
}

/// Returns why a space of `now` units was refused so many.
fn growth_error(units: usize, now: usize) -> OffsetError
    ensures { ((result ≡ TooShort) × (units < now)) ⊎ ((result ≡ TooLong) × (now ≤ units)) }
{
    if units < now {
        OffsetError::TooShort
    } else {
        OffsetError::TooLong
    }
}
