//! The allocator of units: ranges of numbers from 0 on, by the payloads of a shadow.
//!
//! Each unit of the space has 32 bytes of the shadow, a memory that an allocator divides. Alignments are in units. A range of `k`
//! units with the alignment `a` is a payload of `32 * (k - 1)` bytes with the alignment `32 * a`: it begins 32 bytes before the payload, ends
//! where the payload's block ends, and has exactly `k` units. The shadow begins 32 bytes before a multiple of `2^62`, so that its first unit is
//! a multiple of each alignment. It has one unit more than the space can get, for the sentinel.
ghost use Rattle.std.specs.Prelude.{◌≡◌, ◌≤◌, ◌<◌, ◌+◌, ◌-◌, ◌*◌, ◌/◌, ◌^◌, ◌↔◌, ◌⊎◌, ℕ, length, Some, None, true, false, IfErr, IfOk, IfNone, IfSome, IsErrOf, IsSome};
ghost use Rattle.std.specs.Map.Iter.{GivesInOrder};
ghost use Rattle.rlsf_base.specs.MemoryCalls as memories;
ghost use Rattle.rlsf_model_sizes.specs.PowerOfTwo.{IsPowerOfTwo};
ghost use Rattle.rlsf_offsets.specs.Blocks.{AreAllBlocks, AreSpaceTotals, AreWithinSpace};
ghost use Rattle.rlsf_offsets.specs.Units.{HasRoomInPlace, IsEmpty, IsFreeRun, HasNoRoomFor, IsUnitAllocator, IsLonger, IsReleased, IsReserved, IsRangeResized, IsSpace, IsSpaceUnchanged};
ghost use Rattle.rlsf_offsets.specs.Units.{KeepsSpaceSized, KeepsSizedFor, KeepsSizedThere, SizesSpace, SucceedsWithin, limit_of, place, units_at, whole_shadow};
ghost use Rattle.rlsf_base.specs.Range.{range_at};
ghost use Rattle.rlsf_blocks.specs.Laws.{read_from};
ghost use Rattle.rlsf_tlsf.specs.Allocator.{allocator};
ghost use Rattle.rlsf_tlsf.specs.Bounds.{KeepsAllBounds};
ghost use Rattle.rlsf_tlsf.specs.Results.{KeepsFrameOfPools};

use rlsf_base::memory::{Layout, MemoryError, OpenMemory, Range};
use rlsf_blocks::{BlockInfo, Blocks, Totals, totals_of, usable_bytes, walk_blocks};
use rlsf_table::ClassTable;
use rlsf_tlsf::GhostState;
use rlsf_tlsf::core_calls::{allocate_in, append_in, deallocate_in, insert_in, resize_in};
use std::alloc::Global;
use std::marker::Model;

/// The bytes of the shadow for each unit.
pub(crate) const SHADOW: usize = 32;

/// Where the shadow of the second unit begins.
const ORIGIN: usize = 1 << 62;

/// Where the shadow of the first unit begins.
pub(crate) const START: usize = ORIGIN - SHADOW;

/// The greatest number of units of a space.
const MOST: usize = 1 << 56;

/// An allocator of ranges of units.
pub(crate) struct UnitTlsf {
    memory: OpenMemory,
    table: ClassTable<59, 8>,
    state: GhostState,
    units: usize,
}

impl Model for UnitTlsf {
    ghost use Rattle.rlsf_tlsf.specs.Allocator.{allocator};
    ghost use Rattle.rlsf_offsets.specs.Units.{IsUnitAllocator, Offsets, offsets};

    ghost Value = { Offsets };

    ghost view = { λ o. offsets o.units (allocator o.memory o.table o.state.state) };

    ghost invariant = { λ o. IsUnitAllocator o.units o.memory o.table o.state.state };
}

impl Drop for UnitTlsf {
    fn drop(self) {
        let UnitTlsf {
            memory,
            table: _,
            state: _,
            units: _,
        } = self;
        memory.free();
    }
}

impl UnitTlsf {
    /// Creates an allocator of a space of `units` units, none of which is in a live range. It can grow to `most` units.
    ///
    /// Returns `TooLong` if and only if `most` is above `2^56`, and `OutOfMemory` if the system refuses the shadow.
    pub(crate) fn new(alloc: Global, units: usize, most: usize) -> Result<UnitTlsf, MemoryError>
        requires { units ≤ most }
        ensures too_long { IsErrOf result MemoryError.TooLong ↔ (2 ^ 56 < most) }
        ensures refused { IfErr result (λ e. (e ≡ MemoryError.TooLong) ⊎ (e ≡ MemoryError.OutOfMemory)) }
        ensures units { IfOk result (λ space. (space.units ≡ units) × (limit_of space ≡ most)) }
        ensures empty { IfOk result (λ space. IsEmpty space) }
        ensures free { IfOk result (λ space. IsFreeRun space 0 units) }
        ensures sized { IfOk result (λ space. SizesSpace space) }
    {
        if most > MOST {
            return Err(MemoryError::TooLong);
        }
        Ok(over(shadow(alloc, most)?, units, most))
    }

    /// Returns the number of units of the space.
    pub(crate) fn units(&self) -> usize
        ensures value { result ≡ self.now.units }
        ensures few { self.now.units ≤ 2 ^ 56 }
        ensures space { IsSpace self.now }
    {
        self.units
    }

    /// Allocates a range of exactly `units` units, whose first one is a multiple of `align`, and returns its first unit.
    ///
    /// Returns `None` if and only if no free range has a class that reaches `units + align - 1` units; then nothing changes.
    pub(crate) fn allocate(&mut self, units: usize, align: usize) -> Option<usize>
        requires some { 0 < units }
        requires align { IsPowerOfTwo align }
        ensures reserved { IfSome result (λ first. IsReserved self.old self.new units align first) }
        ensures refused { (result ≡ None) ↔ HasNoRoomFor self.old (units + align - 1) }
        ensures room { (o m : ℕ) → IsFreeRun self.old o m → 9 * (units + align - 1) ≤ 8 * m → IsSome result }
        ensures within { SucceedsWithin self.old units align (IsSome result) }
        ensures sized { KeepsSizedFor self.old self.new units align }
        ensures same { IfNone result (IsSpaceUnchanged self.old self.new) }
        ensures touches { self.new.shadow.memory.touches ≤ self.old.shadow.memory.touches + 27 }
    {
        // Each free range is shorter.
        if units.saturating_add(align - 1) > self.units {
            return None;
        }
        let layout = Layout::from_size_align_unchecked(SHADOW * (units - 1), SHADOW * align);
        let payload = allocate_in(&mut self.memory, &mut self.table, &mut self.state, layout)?;
        Some((payload.start - ORIGIN) / SHADOW)
    }

    /// Deallocates the live range that begins at a unit.
    pub(crate) fn deallocate(&mut self, first: usize)
        requires { IsSome (units_at self.old first) }
        ensures released { IsReleased self.old self.new first }
        ensures sized { KeepsSpaceSized self.old self.new }
        ensures touches { self.new.shadow.memory.touches ≤ self.old.shadow.memory.touches + 33 }
    {
        let addr = place_of(first, self.units);
        deallocate_in(
            &mut self.memory,
            &mut self.table,
            &mut self.state,
            addr,
            None,
        );
    }

    /// Gives the live range that begins at a unit `units` units, and leaves it where it is. Returns whether it has them.
    ///
    /// Returns `true` if and only if the range had so many units, or a free range that begins at its end has the rest. Otherwise nothing
    /// changes.
    pub(crate) fn reallocate_in_place(&mut self, first: usize, units: usize) -> bool
        requires some { 0 < units }
        requires live { IsSome (units_at self.old first) }
        ensures resized { result ≡ true → IsRangeResized self.old self.new units first }
        ensures room { (result ≡ true) ↔ HasRoomInPlace self.old first units }
        ensures sized { KeepsSizedThere self.old self.new first units }
        ensures same { result ≡ false → IsSpaceUnchanged self.old self.new }
        ensures touches { self.new.shadow.memory.touches ≤ self.old.shadow.memory.touches + 26 }
    {
        // The space is shorter.
        if units > self.units {
            return false;
        }
        let layout = Layout::from_size_align_unchecked(SHADOW * (units - 1), SHADOW);
        let addr = place_of(first, self.units);
        resize_in(
            &mut self.memory,
            &mut self.table,
            &mut self.state,
            addr,
            None,
            layout,
        )
    }

    /// Makes the space `units` units long. The new ones are free, and the ranges stay. Returns whether it has so many.
    ///
    /// Returns `true` if and only if it had no more, and can have as many. Otherwise nothing changes.
    pub(crate) fn grow(&mut self, units: usize) -> bool
        ensures longer { result ≡ true → IsLonger self.old self.new units }
        ensures which { (result ≡ true) ↔ ((self.old.units ≤ units) × (units ≤ limit_of self.old)) }
        ensures sized { KeepsSpaceSized self.old self.new }
        ensures same { result ≡ false → IsSpaceUnchanged self.old self.new }
        ensures touches { self.new.shadow.memory.touches ≤ self.old.shadow.memory.touches + 34 }
    {
        if can_have(self.memory.len(), self.units, units) {
            lengthen(
                &mut self.memory,
                &mut self.table,
                &mut self.state,
                self.units,
                units,
            );
            self.units = units;
            return true;
        }
        false
    }

    /// Returns the number of units of the live range that begins at a unit.
    pub(crate) fn len(&self, first: usize) -> usize
        requires { IsSome (units_at self.now first) }
        ensures units { units_at self.now first ≡ Some result }
        ensures inside { (0 < result) × (first + result ≤ self.now.units) }
    {
        usable_bytes(&self.memory, place_of(first, self.units)).len / SHADOW + 1
    }

    /// Returns the blocks of the shadow, used and free, in order.
    pub(crate) fn blocks(&self) -> Blocks<'_>
        ensures blocks { AreAllBlocks self.now result }
        ensures within { AreWithinSpace self.now.units result }
        ensures runs { GivesInOrder BlockInfo }
    {
        let len = chunk_len(self.units);
        walk_blocks(&self.memory, Range { start: START, len })
    }

    /// Returns the totals of the shadow, in its bytes.
    pub(crate) fn totals(&self) -> Totals
        ensures totals { AreSpaceTotals self.now result }
        ensures few { (result.used ≤ 32 * self.now.units) × (result.free ≤ 32 * self.now.units) × (result.longest ≤ 32 * self.now.units) }
    {
        // Opens the invariant for the prover: the memory represents the state.
        let _ = &self.memory;
        totals_of(self.blocks())
    }
}

/// Returns the address of the payload for a range that begins at a unit.
fn place_of(first: usize, units: usize) -> usize
    requires { (first < units) × (units ≤ 2 ^ 56) }
    ensures { result ≡ place first }
{
    ORIGIN + SHADOW * first
}

/// Returns the length of the chunk that the shadow of so many units is. No unit makes none.
fn chunk_len(units: usize) -> usize
    requires { units ≤ 2 ^ 56 }
    ensures some { 0 < units → result ≡ 32 * units + 32 }
    ensures none { units ≡ 0 → result ≡ 0 }
{
    if units == 0 {
        0
    } else {
        SHADOW * units + SHADOW
    }
}

/// Reserves the shadow of a space of up to so many units. None of its bytes is written.
fn shadow(alloc: Global, units: usize) -> Result<OpenMemory, MemoryError>
    requires { units ≤ 2 ^ 56 }
    ensures memory { IfOk result (λ m. memories.IsReservedMemory m (2 ^ 62 - 32) (32 * units + 32)) }
    ensures refused { IfErr result (λ e. e ≡ MemoryError.OutOfMemory) }
{
    OpenMemory::reserve(alloc, ORIGIN - SHADOW, SHADOW * units + SHADOW)
}

/// Returns whether a space of `now` units, whose shadow has so many bytes, can have `units` units.
fn can_have(bytes: usize, now: usize, units: usize) -> bool
    requires { 32 ≤ bytes }
    ensures { (result ≡ true) ↔ ((now ≤ units) × (units ≤ bytes / 32 - 1)) }
{
    now <= units && units < bytes / SHADOW
}

/// Makes the units of a space that has `from` units free up to a number of them, which it then has.
fn lengthen(
    memory: &mut OpenMemory,
    table: &mut ClassTable<59, 8>,
    state: &mut GhostState,
    from: usize,
    to: usize,
)
    requires kept { IsUnitAllocator from memory.old table.old state.old.state }
    requires longer { from ≤ to }
    requires room { 32 * to + 32 ≤ length memory.old.bytes }
    ensures kept { IsUnitAllocator to memory.new table.new state.new.state }
    ensures bounds { KeepsAllBounds 8 (read_from memory.old state.old.state) (read_from memory.new state.new.state) }
    ensures frame { KeepsFrameOfPools (allocator memory.old table.old state.old.state) (allocator memory.new table.new state.new.state) }
    ensures touches { memory.new.touches ≤ memory.old.touches + 34 }
{
    if from == 0 {
        insert_in(memory, table, state, first_units(to));
        return;
    }
    append_in(memory, table, state, units_behind(from, to));
}

/// Returns the range of the shadow for so many first units, with the sentinel behind them.
fn first_units(to: usize) -> Range
    requires { to ≤ 2 ^ 56 }
    ensures { result ≡ whole_shadow to }
{
    Range {
        start: START,
        len: SHADOW * to + SHADOW,
    }
}

/// Returns the range of the shadow behind the sentinel of a space of `from` units, up to that of one of `to`.
fn units_behind(from: usize, to: usize) -> Range
    requires { (from ≤ to) × (to ≤ 2 ^ 56) }
    ensures { result ≡ range_at (2 ^ 62 + 32 * from) (32 * (to - from)) }
{
    Range {
        start: ORIGIN + SHADOW * from,
        len: SHADOW * (to - from),
    }
}

/// Makes so many units of a space free, which can have `most`.
fn over(memory: OpenMemory, units: usize, most: usize) -> UnitTlsf
    requires few { (units ≤ most) × (most ≤ 2 ^ 56) }
    requires memory { memories.IsReservedMemory memory (2 ^ 62 - 32) (32 * most + 32) }
    ensures units { (result.units ≡ units) × (limit_of result ≡ most) }
    ensures empty { IsEmpty result }
    ensures sized { SizesSpace result }
{
    // Opens the memory's invariant for the prover: no address is 0, and each fits in a word.
    let _ = memory.len();
    let mut memory = memory;
    let mut table = ClassTable::new();
    let mut state = GhostState::new();
    insert_in(&mut memory, &mut table, &mut state, first_units(units));
    UnitTlsf {
        memory,
        table,
        state,
        units,
    }
}
