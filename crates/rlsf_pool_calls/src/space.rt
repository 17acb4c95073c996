//! A space of units that a program divides into ranges.

ghost use Rattle.std.specs.Prelude.{◌≡◌};
ghost use Rattle.rlsf_pool_calls.specs.Spaces.{AllocatesIn, FreesIn, GrowsIn, IsSpaceMade, ResizesIn, TellsIn, TotalsIn, answer_for, code_for, ended_space, number_for, refused_for, space_status, stats_in, space_units};

use crate::answers::{Answer, OK};
use crate::pool::crosses;
use rlsf_blocks::{NO_TOTALS, Totals};
use rlsf_offsets::{CheckedOffsets, OffsetError, Stats};
use std::alloc::Global;

/// There is no space. `OffsetError` has no such number.
pub(crate) const NO_SPACE: usize = 8;

/// A checked allocator of units, or the number of the error because of which there is none.
#[derive(Drop)]
pub enum OffsetSpace {
    /// No allocator.
    Refused(usize),
    /// An allocator that counts in units.
    Ready(CheckedOffsets<1>),
}

impl OffsetSpace {
    /// Returns a space of `units` free units that can grow to `limit`.
    pub fn new(alloc: Global, units: usize, limit: usize) -> OffsetSpace
        ensures { IsSpaceMade units limit result }
    {
        match CheckedOffsets::new(alloc, units, limit) {
            Ok(space) => OffsetSpace::Ready(space),
            Err(error) => OffsetSpace::Refused(number(error)),
        }
    }

    /// Returns 0, or the error because of which there is no allocator.
    pub fn status(&mut self) -> usize
        ensures { (result ≡ space_status self.old) × (self.new ≡ self.old) }
    {
        match self {
            OffsetSpace::Refused(error) => *error,
            OffsetSpace::Ready(_) => OK,
        }
    }

    /// Returns the number of units of the space.
    pub fn units(&mut self) -> usize
        ensures { (result ≡ space_units self.old) × (self.new ≡ self.old) }
    {
        match self {
            OffsetSpace::Refused(_) => 0,
            OffsetSpace::Ready(space) => space.space_len(),
        }
    }

    /// Allocates a range.
    pub fn allocate(&mut self, units: usize, align: usize) -> Answer
        ensures { AllocatesIn self.old units align result self.new }
    {
        match self {
            OffsetSpace::Refused(_) => no_space(),
            OffsetSpace::Ready(space) => to_number(space.allocate(units, align)),
        }
    }

    /// Deallocates a range.
    pub fn free(&mut self, offset: usize) -> usize
        ensures { FreesIn self.old offset result self.new }
    {
        match self {
            OffsetSpace::Refused(_) => NO_SPACE,
            OffsetSpace::Ready(space) => to_code(space.deallocate(offset)),
        }
    }

    /// Changes the number of units of a range in place.
    pub fn resize(&mut self, offset: usize, units: usize) -> usize
        ensures { ResizesIn self.old offset units result self.new }
    {
        match self {
            OffsetSpace::Refused(_) => NO_SPACE,
            OffsetSpace::Ready(space) => to_code(space.reallocate_in_place(offset, units)),
        }
    }

    /// Makes the space longer.
    pub fn grow(&mut self, units: usize) -> usize
        ensures { GrowsIn self.old units result self.new }
    {
        match self {
            OffsetSpace::Refused(_) => NO_SPACE,
            OffsetSpace::Ready(space) => to_code(space.grow(units)),
        }
    }

    /// Returns the number of units of a range.
    pub fn len(&mut self, offset: usize) -> Answer
        ensures { TellsIn self.old offset result × (self.new ≡ self.old) }
    {
        match self {
            OffsetSpace::Refused(_) => no_space(),
            OffsetSpace::Ready(space) => to_number(space.len(offset)),
        }
    }

    /// Returns the totals of the space.
    pub fn stats(&mut self) -> Totals
        ensures { TotalsIn self.old result × (self.new ≡ self.old) }
    {
        match self {
            OffsetSpace::Refused(_) => NO_TOTALS,
            OffsetSpace::Ready(space) => to_totals(space.stats()),
        }
    }
}

/// Returns the space unchanged. Its bound shows that everything a space owns may move to another thread between two calls.
pub fn handed_over(space: OffsetSpace) -> OffsetSpace
    ensures { result ≡ space }
{
    crosses(space)
}

/// Drops a space. Returns what is left of it: no space.
pub fn finish(space: OffsetSpace) -> OffsetSpace
    ensures { result ≡ ended_space }
{
    let _ = space;
    OffsetSpace::Refused(OK)
}

/// Drops a space.
pub fn discard(space: OffsetSpace) {
    let _ = space;
}

/// Returns the number of an error.
fn number(error: OffsetError) -> usize
    ensures { result ≡ number_for error }
{
    match error {
        OffsetError::BadUnit => 1,
        OffsetError::BadAlign => 2,
        OffsetError::UnknownOffset => 3,
        OffsetError::TooLong => 4,
        OffsetError::TooShort => 5,
        OffsetError::NoRoom => 6,
        OffsetError::OutOfMemory => 7,
    }
}

/// Returns the totals of a space for C.
fn to_totals(stats: Stats) -> Totals
    ensures { stats_in result ≡ stats }
{
    Totals {
        payloads: stats.ranges,
        used: stats.used,
        free: stats.free,
        longest: stats.longest,
    }
}

/// Returns the answer where there is no space.
fn no_space() -> Answer
    ensures { result ≡ refused_for 8 }
{
    Answer {
        error: NO_SPACE,
        value: 0,
    }
}

/// Returns a number or an error as an `Answer`.
fn to_number(outcome: Result<usize, OffsetError>) -> Answer
    ensures { result ≡ answer_for outcome }
{
    match outcome {
        Ok(value) => Answer { error: OK, value },
        Err(error) => Answer {
            error: number(error),
            value: 0,
        },
    }
}

/// Returns 0, or the number of the error.
fn to_code(outcome: Result<(), OffsetError>) -> usize
    ensures { result ≡ code_for outcome }
{
    match outcome {
        Ok(()) => OK,
        Err(error) => number(error),
    }
}
