//! Memories of a block that the caller owns.
ghost use Rattle.std.specs.Prelude.{◌≡◌, ℕ, List, [], ◌%◌, length};
ghost use denote.RawPtr.{◌+ₚ◌};
ghost use Rattle.std.specs.Borrow.{sem};
ghost use Rattle.rlsf_base.specs.Changes.{IsAllOwn, IsOwn, left};
ghost use Rattle.rlsf_base.specs.RawParts.{CanStart, LiesAtBlock, TakesParts};
ghost use Rattle.rlsf_base.specs.Space.{range_of};
ghost use Rattle.rlsf_base.specs.OpenSpace.{place_in, IsAway, IsOwned};
ghost use Rattle.rlsf_base.specs.Steps.Ownership.{IsInBlock, bytes_at_pointer, room_at, units_from};

use super::Memory;
use super::block::{Base, Bytes, RawParts, adopt, adopt_none, adopt_room};
use super::counters::Counters;
use super::open_memory::OpenMemory;
use super::zeroed::no_supplier;
use std::alloc::Global;

impl OpenMemory {
    /// Creates a memory of the caller's room for `len` bytes at `block`, at the addresses from `start` on. The bytes are
    /// raw, so that it takes as long for many bytes as for few. The system gets no block back when the memory is freed:
    /// `into_raw_parts` returns the room.
    ///
    /// # Safety
    ///
    /// The caller must own room for `len` bytes at `block`, and gives it up. `start` must be a multiple of 8 and not zero,
    /// `start + len` must not be past the greatest address, and `len` must be below 2^59. If `start` is a multiple of 16,
    /// `block` must be aligned to 16, else to 8.
    pub unsafe fn from_raw_parts(
        alloc: Global,
        block: *mut u8,
        start: usize,
        len: usize,
    ) -> OpenMemory
        requires* { sem 𝓛 (room_at block start len) ∗ ⌜ CanStart start len ⌝ }
        ensures start { result.start ≡ start }
        ensures len { length result.bytes ≡ len }
        ensures counts { (result.touches ≡ 0) × (result.copied ≡ 0) }
        ensures block { (result.view.base.ptr ≡ block) × (place_in result.view start ≡ 0) }
        ensures own { IsAllOwn result.out }
    {
        let bytes = adopt_room(block, start, len);
        OpenMemory::over(alloc, block, start, len, bytes)
    }

    /// Creates a memory of the `len` addresses from `start` on, of which it owns no byte: all are out. The byte at `start` is to
    /// lie at `block`, which may not be null. No byte there has to be accessible.
    ///
    /// Bytes are lent to the memory by `put_back` or `put_room`, as a part that `Part::from_raw` makes of the caller's bytes at a
    /// range. `take_out` and `into_raw` of the part return them.
    ///
    /// `start` must be a multiple of 8 and not zero, `start + len` must not be past the greatest address, and `len` must be below
    /// 2^59.
    pub fn over_addresses(alloc: Global, block: *mut u8, start: usize, len: usize) -> OpenMemory
        requires bounds { CanStart start len }
        requires some { IsInBlock block }
        ensures start { result.start ≡ start }
        ensures len { length result.bytes ≡ len }
        ensures counts { (result.touches ≡ 0) × (result.copied ≡ 0) }
        ensures block { (result.view.base.ptr ≡ block) × (place_in result.view start ≡ 0) }
        ensures away { IsAway result (range_of result) }
        ensures out { result.out ≡ left 0 len [] }
    {
        let bytes = adopt_none(block, start, len);
        OpenMemory::over(alloc, block, start, len, bytes)
    }

    /// Does nothing. Its contract states that `Part::from_raw` can make a part of the caller's bytes at this memory's addresses.
    pub fn takes_parts(&self)
        ensures { TakesParts self.now }
    {
        let _ = self.shift.wrapping_neg();
    }

    /// Consumes the memory and returns its parts, with the first byte as the first of the block. `release_room` of the parts
    /// passes the room to the caller, if no byte is out, and `release_lent` the bytes that aren't. A block of the system is never
    /// deallocated.
    ///
    /// The address of the first byte must be a multiple of 8.
    pub fn into_raw_parts(self) -> RawParts
        requires start { self.start % 8 ≡ 0 }
        ensures base { result.base.ptr ≡ self.view.base.ptr +ₚ place_in self.view self.start }
        ensures start { result.start ≡ self.start }
        ensures len { result.len ≡ length self.bytes }
        ensures block { LiesAtBlock result }
        ensures bytes { result.bytes.bytes ≡ self.bytes }
        ensures out { result.bytes.out ≡ self.out }
        ensures own { IsOwned self (range_of self) → IsOwn result.bytes.out 0 result.len }
    {
        let start = self.start();
        let len = self.len();
        let OpenMemory {
            base,
            shift: _,
            len_and_skip,
            bytes,
            counters: _,
            supplier,
        } = self;
        supplier.end();
        let (base, bytes) = bytes.from_first(base, len_and_skip % 16);
        RawParts {
            base,
            start,
            len,
            bytes,
        }
    }

    // A memory of bytes that lie at the caller's block.
    fn over(alloc: Global, block: *mut u8, start: usize, len: usize, bytes: Bytes) -> OpenMemory
        requires place { (bytes.at ≡ block) × (bytes.skip ≡ 0) × (length bytes.bytes ≡ len) × (bytes.units ≡ units_from start len) }
        requires bounds { CanStart start len }
        ensures start { result.start ≡ start }
        ensures bytes { result.bytes ≡ bytes.bytes }
        ensures counts { (result.touches ≡ 0) × (result.copied ≡ 0) }
        ensures block { (result.view.base.ptr ≡ block) × (place_in result.view start ≡ 0) }
        ensures out { result.out ≡ bytes.out }
    {
        OpenMemory {
            base: Base::at(block),
            shift: start.wrapping_neg(),
            len_and_skip: len * 32 + 16,
            bytes,
            counters: Counters::new(),
            supplier: no_supplier(alloc),
        }
    }
}

impl Memory {
    /// Creates a memory of the caller's `len` bytes at `block`, at the addresses from `start` on. The bytes keep their
    /// values. The system gets no block back when the memory is dropped: `into_raw_parts` returns the bytes.
    ///
    /// # Safety
    ///
    /// The caller must own the `len` bytes at `block`, with values, and gives them up. `start` must be a multiple of 8 and
    /// not zero, `start + len` must not be past the greatest address, and `len` must be below 2^59. If `start` is a multiple
    /// of 16, `block` must be aligned to 16, else to 8.
    pub unsafe fn from_raw_parts(alloc: Global, block: *mut u8, start: usize, len: usize) -> Memory
        ghost bytes: { List ℕ }
        requires* { sem 𝓛 (bytes_at_pointer block start bytes) ∗ ⌜ (length bytes ≡ len) × CanStart start len ⌝ }
        ensures start { result.start ≡ start }
        ensures bytes { result.bytes ≡ bytes }
        ensures counts { (result.touches ≡ 0) × (result.copied ≡ 0) }
        ensures block { (result.view.base.ptr ≡ block) × (place_in result.view start ≡ 0) }
    {
        let bytes = adopt(block, start);
        Memory::over(alloc, block, start, len, bytes)
    }

    /// Consumes the memory and returns its parts, with the first byte as the first of the block. `release` of the parts passes
    /// the bytes to the caller. A block of the system is never deallocated.
    ///
    /// The address of the first byte must be a multiple of 8.
    pub fn into_raw_parts(self) -> RawParts
        requires { self.start % 8 ≡ 0 }
        ensures base { result.base.ptr ≡ self.view.base.ptr +ₚ place_in self.view self.start }
        ensures start { result.start ≡ self.start }
        ensures len { result.len ≡ length self.bytes }
        ensures block { LiesAtBlock result }
        ensures bytes { result.bytes.bytes ≡ self.bytes }
        ensures out { result.bytes.out ≡ [] }
    {
        let Memory { inner } = self;
        inner.into_raw_parts()
    }

    // A memory of bytes that lie at the caller's block.
    fn over(alloc: Global, block: *mut u8, start: usize, len: usize, bytes: Bytes) -> Memory
        requires place { (bytes.at ≡ block) × (bytes.skip ≡ 0) × (length bytes.bytes ≡ len) × (bytes.out ≡ []) × (bytes.units ≡ units_from start len) }
        requires bounds { CanStart start len }
        ensures start { result.start ≡ start }
        ensures bytes { result.bytes ≡ bytes.bytes }
        ensures counts { (result.touches ≡ 0) × (result.copied ≡ 0) }
        ensures block { (result.view.base.ptr ≡ block) × (place_in result.view start ≡ 0) }
    {
        Memory {
            inner: OpenMemory::over(alloc, block, start, len, bytes),
        }
    }
}
