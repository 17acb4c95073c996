//! The allocator of offsets.
ghost use Rattle.std.specs.Prelude.{◌≡◌, ◌≤◌, ◌<◌, ◌+◌, ◌-◌, ◌*◌, ◌/◌, ◌^◌, ◌↔◌, ◌⊎◌, ℕ, Some, None, true, false, IfErr, IfOk, IfNone, IfSome, IsErrOf, IsSome, max};
ghost use Rattle.rlsf_model_sizes.specs.PowerOfTwo.{IsPowerOfTwo};
ghost use Rattle.rlsf_offsets.specs.Offsets as offsets;
ghost use Rattle.rlsf_offsets.specs.Offsets.{HasRoomForBytes, IsRangeAllocated, IsRangeDeallocated, IsDivided, IsFullFor, IsSpaceGrown, IsRangeReallocated, KeepsRanges, SucceedsFor, len_at};
ghost use Rattle.std.specs.Map.Iter.{GivesInOrder};
ghost use Rattle.rlsf_offsets.specs.Iteration.{ArePieces};
ghost use Rattle.rlsf_offsets.specs.Blocks.{AreStats};
ghost use Rattle.rlsf_offsets.specs.Units.{IsEmpty, IsFreeRun, KeepsSpaceSized, KeepsSizedFor, KeepsSizedThere, SizesSpace, limit_of};

use crate::pieces::{Piece, Pieces};
use crate::stats::Stats;
use crate::units::{SHADOW, UnitTlsf};
use rlsf_base::memory::MemoryError;
use std::alloc::Global;
use std::marker::Model;

/// An allocator of ranges of a space that it neither reads nor writes, as the memory of a GPU, a file, or numbers.
///
/// A range is an offset and a length in bytes. Both are multiples of `UNIT`, a power of two. Live ranges lie in the space, and no two of them
/// have a byte in common (`IsDivided`).
///
/// The allocator keeps a shadow of the space: 32 bytes for each unit that the space can get, and 32 more. The system reserves it, but memory is resident only where the
/// shadow was written. Dropping the allocator deallocates it.
///
/// The documentation of a call bounds its cost in word accesses, as that of `Tlsf` defines them. None is in the space.
#[derive(Drop)]
pub struct OffsetTlsf<const UNIT: usize> {
    inner: UnitTlsf,
}

impl<const UNIT: usize> Model for OffsetTlsf<UNIT> {
    ghost use Rattle.std.specs.Prelude.{◌<◌, ◌*◌, ◌^◌};
    ghost use Rattle.rlsf_model_sizes.specs.PowerOfTwo.{IsPowerOfTwo};
    ghost use Rattle.rlsf_offsets.specs.Units.{Offsets};

    ghost Value = { Offsets };

    ghost view = { λ o. o.inner };

    ghost invariant = { λ o. IsPowerOfTwo UNIT × (o.inner.units * UNIT < 2 ^ 64) };
}

impl<const UNIT: usize> OffsetTlsf<UNIT> {
    /// Creates an allocator of a space of `len` bytes, all of which are free. Bytes behind the last complete unit are not used. The space can't
    /// grow: `with_limit` makes one that can.
    ///
    /// Returns `TooLong` if and only if the space has more than `2^56` units, and `OutOfMemory` if the system refuses the shadow.
    ///
    /// The space is sized for `count` ranges of up to `n` units at multiples of up to `a` units if `pool_size_for_payloads` of `rlsf::classes`
    /// returns at most the bytes of the shadow for `count` payloads of `32 * (n - 1)` bytes with the alignment `32 * a` (`sized`).
    /// While `count` or fewer of such ranges are live, one more is then never refused.
    ///
    /// `UNIT` must be a power of two.
    ///
    /// Takes constant time: no byte of the shadow is written but some words.
    ///
    /// From `crates/rlsf_example_offsets/src/main.rt`:
    ///
    /// ```
    /// let Ok(mut memory) = OffsetTlsf::<256>::new(rt.alloc(), 256 * MIB) else {
    ///     return println!(rt; "out of memory");
    /// };
    /// ```
    pub fn new(alloc: Global, len: usize) -> Result<Self, MemoryError>
        requires { IsPowerOfTwo UNIT }
        ensures too_long { IsErrOf result MemoryError.TooLong ↔ (2 ^ 56 < len / UNIT) }
        ensures refused { IfErr result (λ e. (e ≡ MemoryError.TooLong) ⊎ (e ≡ MemoryError.OutOfMemory)) }
        ensures units { IfOk result (λ space. (space.units ≡ len / UNIT) × (limit_of space ≡ len / UNIT)) }
        ensures empty { IfOk result (λ space. (o : ℕ) → len_at UNIT space o ≡ None) }
        ensures free { IfOk result (λ space. IsFreeRun space 0 (len / UNIT)) }
        ensures sized { IfOk result (λ space. SizesSpace space) }
    {
        Self::with_limit(alloc, len, len)
    }

    /// Creates an allocator of a space of `len` bytes that can grow to `limit` bytes, as `new` does. If `limit` is less than `len`, the space
    /// can't grow. The shadow has room for all units that the space can get.
    ///
    /// Returns `TooLong` if and only if the space can get more than `2^56` units, and `OutOfMemory` if the system refuses the shadow.
    ///
    /// `UNIT` must be a power of two.
    pub fn with_limit(alloc: Global, len: usize, limit: usize) -> Result<Self, MemoryError>
        requires { IsPowerOfTwo UNIT }
        ensures too_long { IsErrOf result MemoryError.TooLong ↔ (2 ^ 56 < max (len / UNIT) (limit / UNIT)) }
        ensures refused { IfErr result (λ e. (e ≡ MemoryError.TooLong) ⊎ (e ≡ MemoryError.OutOfMemory)) }
        ensures units { IfOk result (λ space. (space.units ≡ len / UNIT) × (limit_of space ≡ max (len / UNIT) (limit / UNIT))) }
        ensures empty { IfOk result (λ space. (o : ℕ) → len_at UNIT space o ≡ None) }
        ensures free { IfOk result (λ space. IsFreeRun space 0 (len / UNIT)) }
        ensures sized { IfOk result (λ space. SizesSpace space) }
    {
        let units = len / UNIT;
        let most = greater(units, limit / UNIT);
        let inner = UnitTlsf::new(alloc, units, most)?;
        Ok(OffsetTlsf { inner })
    }

    /// Makes the space `len` bytes long. Bytes behind its last complete unit are not used. The new units are free, and live ranges stay.
    ///
    /// Returns whether the space has the length now: if and only if it had no more units, and `len` has no more than the limit. Otherwise
    /// nothing changes.
    ///
    /// Completes in constant time: at most 34 word accesses.
    pub fn grow(&mut self, len: usize) -> bool
        ensures grown { result ≡ true → IsSpaceGrown UNIT self.old self.new len }
        ensures which { (result ≡ true) ↔ ((self.old.units ≤ len / UNIT) × (len / UNIT ≤ limit_of self.old)) }
        ensures stay { (o : ℕ) → IsSome (len_at UNIT self.old o) → IsSome (len_at UNIT self.new o) }
        ensures sized { KeepsSpaceSized self.old self.new }
        ensures same { result ≡ false → KeepsRanges UNIT self.old self.new }
        ensures touches { self.new.shadow.memory.touches ≤ self.old.shadow.memory.touches + 34 }
    {
        // Opens the invariant for the prover: the unit isn't 0.
        let _ = &self.inner;
        self.inner.grow(len / UNIT)
    }

    /// Returns the length of the space in bytes, a multiple of the unit.
    ///
    /// Completes in constant time.
    pub fn space_len(&self) -> usize
        ensures value { result ≡ self.now.units * UNIT }
        ensures divided { IsDivided UNIT self.now }
    {
        self.inner.units() * UNIT
    }

    /// Allocates a range for `len` bytes, and returns its offset, a multiple of `align` and of the unit. Its length is `len` rounded up to a
    /// multiple of the unit, or one unit if `len` is 0. The range is the front of the newest free range of the first class that has a free range
    /// and reaches the sought units: those of the range and, of an alignment of `a` units, `a - 1` more. What the alignment leaves in front of the
    /// range is free again once the range is deallocated.
    ///
    /// Returns `None` if and only if no free range has a class that reaches the sought units; then nothing changes. With 8 classes for each power of
    /// two, it is never refused if so many units and an eighth of them are free side by side (`room`), nor within bounds that the space is
    /// sized for.
    ///
    /// `align` must be a power of two, and may be less than the unit.
    ///
    /// Completes in constant time: at most 27 word accesses.
    ///
    /// From `crates/rlsf_example_offsets/src/main.rt`:
    ///
    /// ```
    /// let vertices = memory.allocate(40 * MIB, 256)?;
    /// let texture = memory.allocate(64 * MIB, 65536)?;
    /// ```
    pub fn allocate(&mut self, len: usize, align: usize) -> Option<usize>
        requires { IsPowerOfTwo align }
        ensures allocated { IfSome result (λ offset. IsRangeAllocated UNIT self.old self.new len align offset) }
        ensures refused { (result ≡ None) ↔ IsFullFor UNIT self.old len align }
        ensures room { (o m : ℕ) → IsFreeRun self.old o m → 9 * (offsets.units_of_bytes UNIT len + offsets.units_of_bytes UNIT align - 1) ≤ 8 * m → IsSome result }
        ensures within { SucceedsFor UNIT self.old len align (IsSome result) }
        ensures sized { KeepsSizedFor self.old self.new (offsets.units_of_bytes UNIT len) (offsets.units_of_bytes UNIT align) }
        ensures same { IfNone result (KeepsRanges UNIT self.old self.new) }
        ensures touches { self.new.shadow.memory.touches ≤ self.old.shadow.memory.touches + 27 }
    {
        // Opens the invariant for the prover: the unit isn't 0.
        let _ = &self.inner;
        let units = units_for::<UNIT>(len);
        let step = units_for::<UNIT>(align);
        let first = self.inner.allocate(units, step)?;
        Some(first * UNIT)
    }

    /// Deallocates the range at `offset`. It is joined with the free range before it and the free range behind it, if they exist.
    ///
    /// A range must be live at `offset`.
    ///
    /// Completes in constant time: at most 33 word accesses.
    ///
    /// From `crates/rlsf_example_offsets/src/main.rt`:
    ///
    /// ```
    /// memory.deallocate(texture);
    /// memory.deallocate(vertices);
    /// let frame = memory.allocate(100 * MIB, 65536)?;
    /// ```
    pub fn deallocate(&mut self, offset: usize)
        requires { IsSome (len_at UNIT self.old offset) }
        ensures deallocated { IsRangeDeallocated UNIT self.old self.new offset }
        ensures sized { KeepsSpaceSized self.old self.new }
        ensures touches { self.new.shadow.memory.touches ≤ self.old.shadow.memory.touches + 33 }
    {
        self.inner.deallocate(offset / UNIT);
    }

    /// Changes the length of the range at `offset` to `len` bytes, rounded up to units as `allocate` does. The range stays at its offset. What
    /// it no longer has is free, and what it gains was the front of the free range behind it.
    ///
    /// Returns whether the range has the length now: if and only if it had as many units, or a free range that begins at its end has the rest.
    /// Otherwise nothing changes.
    ///
    /// A range must be live at `offset`.
    ///
    /// Completes in constant time: at most 26 word accesses.
    ///
    /// From `crates/rlsf_example_offsets/src/main.rt`:
    ///
    /// ```
    /// let shadows = memory.allocate(32 * MIB, 65536)?;
    /// memory.reallocate_in_place(shadows, 16 * MIB);
    /// ```
    pub fn reallocate_in_place(&mut self, offset: usize, len: usize) -> bool
        requires { IsSome (len_at UNIT self.old offset) }
        ensures reallocated { result ≡ true → IsRangeReallocated UNIT self.old self.new len offset }
        ensures room { (result ≡ true) ↔ HasRoomForBytes UNIT self.old offset len }
        ensures stay { (o : ℕ) → IsSome (len_at UNIT self.old o) → IsSome (len_at UNIT self.new o) }
        ensures sized { KeepsSizedThere self.old self.new (offset / UNIT) (offsets.units_of_bytes UNIT len) }
        ensures same { result ≡ false → KeepsRanges UNIT self.old self.new }
        ensures touches { self.new.shadow.memory.touches ≤ self.old.shadow.memory.touches + 26 }
    {
        // Opens the invariant for the prover: the unit isn't 0.
        let _ = &self.inner;
        let units = units_for::<UNIT>(len);
        self.inner.reallocate_in_place(offset / UNIT, units)
    }

    /// Returns the length in bytes of the range at `offset`.
    ///
    /// A range must be live at `offset`.
    ///
    /// Completes in constant time.
    pub fn len(&self, offset: usize) -> usize
        requires { IsSome (len_at UNIT self.now offset) }
        ensures value { len_at UNIT self.now offset ≡ Some result }
        ensures inside { (0 < result) × (offset + result ≤ self.now.units * UNIT) }
    {
        self.inner.len(offset / UNIT) * UNIT
    }

    /// Returns an iterator over the free ranges and the live ranges, in order of offset. What the alignment of a live range leaves in front of
    /// it belongs to its piece.
    ///
    /// Completes in constant time. So does each step of the iteration, whose reads are not counted as word accesses.
    ///
    /// From `crates/rlsf_example_offsets/src/main.rt`:
    ///
    /// ```
    /// for piece in memory.pieces() {
    ///     let Piece {
    ///         offset,
    ///         len,
    ///         is_free,
    ///     } = piece;
    ///     let state = if is_free { "free" } else { "used" };
    ///     println!(rt; "{offset}: {len} bytes {state}")?;
    /// }
    /// ```
    pub fn pieces(&self) -> Pieces<'_, UNIT>
        ensures pieces { ArePieces UNIT self.now result }
        ensures runs { GivesInOrder Piece }
    {
        let blocks = self.inner.blocks();
        Pieces { blocks }
    }

    /// Returns the totals of the space: the number of live ranges, their bytes, the free bytes, and the bytes of the longest free range. Live
    /// and free ranges total the length of the space.
    ///
    /// Takes time proportional to the number of ranges.
    pub fn stats(&self) -> Stats
        ensures { AreStats UNIT self.now result }
    {
        let totals = self.inner.totals();
        let used = in_bytes::<UNIT>(totals.used);
        let free = in_bytes::<UNIT>(totals.free);
        let longest = in_bytes::<UNIT>(totals.longest);
        Stats {
            ranges: totals.payloads,
            used,
            free,
            longest,
        }
    }
}

/// Returns how many bytes of the space so many bytes of the shadow are for.
fn in_bytes<const UNIT: usize>(shadow: usize) -> usize
    requires { shadow / 32 * UNIT < 2 ^ 64 }
    ensures { result ≡ shadow / 32 * UNIT }
{
    shadow / SHADOW * UNIT
}

/// Returns how many units so many bytes take: the fewest that have them, and at least one.
fn units_for<const UNIT: usize>(bytes: usize) -> usize
    requires { 0 < UNIT }
    ensures value { result ≡ offsets.units_of_bytes UNIT bytes }
    ensures some { 0 < result }
{
    bytes.saturating_sub(1) / UNIT + 1
}

/// Returns the greater of two numbers.
pub(crate) fn greater(a: usize, b: usize) -> usize
    ensures value { result ≡ max a b }
    ensures first { a ≤ result }
{
    if a < b { b } else { a }
}
