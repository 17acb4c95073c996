//! A memory from which bytes can leave.
ghost use Rattle.std.specs.Prelude.{◌≡◌, ◌+◌, ◌-◌, ◌%◌, ◌^◌, ◌<◌, ◌≤◌, ◌⊎◌, ◌↔◌, [], length, IfOk, IsOk, IsErrOf};
ghost use Rattle.std.specs.Borrow.{sem};
ghost use Rattle.rlsf_base.specs.MemoryCalls.{IsReservedMemory, IsSpaceWith, IsZeroed};
ghost use Rattle.rlsf_base.specs.OpenSpace.{IsHere, IsOwned, IsReadable, IsWritable, SameOwn, StaysHere, WritesWord, out_with};
ghost use Rattle.rlsf_base.specs.Range.{end_of, range_at, LiesIn};
ghost use Rattle.rlsf_base.specs.Space.{bytes_in, word_range, range_of, word_at, with_bytes};

use super::MemoryError;
use super::block::{Base, Bytes};
use super::copying::{copy_bytes, copy_in_slice, copy_units};
use super::counters::Counters;
use super::range::Range;
use super::view::View;
use super::zeroed::{Supplier, take_raw, take_zeroed};
use std::alloc::Global;
use std::marker::Model;
use std::mem::size_of;

/// A memory from which bytes can leave. Each byte is in one of three states:
///
/// - here: the memory owns it, and it has a value
/// - raw: the memory owns it, and it has no value before it is written
/// - out: a `Part` owns it
///
/// It is one block of the system. Each multiple of 8 is the address of an aligned word. Each multiple of 16 is the address of an
/// aligned unit of 16 bytes, which can leave as aligned room. `from_raw_parts` makes a memory of the caller's block
/// instead. For contracts alone, it counts word accesses (touches) and copied bytes. It is as large as a `Vec<u8>`. It has
/// no `Drop`: `free` deallocates it.
pub struct OpenMemory {
    pub(crate) base: Base,
    // What is added to an address to get its place in the block: the address of the block's first byte, negated.
    pub(crate) shift: usize,
    // 32 times the length, 16 if the block is the caller's, and the place of the first byte in the block, which is below 16.
    pub(crate) len_and_skip: usize,
    pub(crate) bytes: Bytes,
    pub(crate) counters: Counters,
    // Out of reach of every call but those that create a memory or end it.
    pub(crate) supplier: Supplier,
}

const _: () = prove!(size_of::<OpenMemory>() == size_of::<Vec<u8>>());

impl Model for OpenMemory {
    ghost use Rattle.rlsf_base.specs.Space.{Space};

    ghost Value = { Space };

    ghost use Rattle.rlsf_base.specs.Steps.Block.{IsMemory, memory_of};

    ghost view = { λ m. memory_of m.base m.shift m.len_and_skip m.bytes m.counters.touches m.counters.copied };

    ghost invariant = { λ m. IsMemory m.base m.shift m.len_and_skip m.bytes m.supplier };
}

impl OpenMemory {
    ghost use Rattle.rlsf_base.specs.Lends.{LendsOpenBytes};

    /// Creates a memory of `len` zero bytes, all here, at the addresses from `start` on. If `len` is zero, the system is not asked
    /// for memory.
    ///
    /// Returns the first of these errors that applies:
    /// - `ZeroStart` if `start` is zero
    /// - `TooLong` if `start + len` is past the greatest address
    /// - `OutOfMemory` if the system has no such block
    pub fn new(alloc: Global, start: usize, len: usize) -> Result<OpenMemory, MemoryError>
        ensures zero_start { IsErrOf result MemoryError.ZeroStart ↔ (start ≡ 0) }
        ensures too_long { IsErrOf result MemoryError.TooLong ↔ ((1 ≤ start) × (2 ^ 64 ≤ start + len)) }
        ensures empty { (1 ≤ start) × (start < 2 ^ 64) × (len ≡ 0) → IsOk result }
        ensures memory { IfOk result (λ m. IsZeroed m start len) }
    {
        addressed(start, len)?;
        match take_zeroed(alloc, start % 16, len) {
            Some((base, bytes, supplier)) => Ok(OpenMemory {
                base,
                shift: (start - start % 16).wrapping_neg(),
                len_and_skip: len * 32 + start % 16,
                bytes,
                counters: Counters::new(),
                supplier,
            }),
            None => Err(MemoryError::OutOfMemory),
        }
    }

    /// Creates a memory of `len` raw bytes at the addresses from `start` on, in a time that doesn't depend on `len`. If `len`
    /// is zero, the system is not asked for memory.
    ///
    /// Returns the same errors as `new`.
    pub fn reserve(alloc: Global, start: usize, len: usize) -> Result<OpenMemory, MemoryError>
        ensures zero_start { IsErrOf result MemoryError.ZeroStart ↔ (start ≡ 0) }
        ensures too_long { IsErrOf result MemoryError.TooLong ↔ ((1 ≤ start) × (2 ^ 64 ≤ start + len)) }
        ensures empty { (1 ≤ start) × (start < 2 ^ 64) × (len ≡ 0) → IsOk result }
        ensures memory { IfOk result (λ m. IsReservedMemory m start len) }
    {
        addressed(start, len)?;
        match take_raw(alloc, start % 16, len) {
            Some((base, bytes, supplier)) => Ok(OpenMemory {
                base,
                shift: (start - start % 16).wrapping_neg(),
                len_and_skip: len * 32 + start % 16,
                bytes,
                counters: Counters::new(),
                supplier,
            }),
            None => Err(MemoryError::OutOfMemory),
        }
    }

    /// Deallocates the memory, unless its block is the caller's: that stays. No byte may be out.
    // Out of line, since it runs once in a memory's life: so the compiler keeps the block's base in a register in the other calls.
    #[inline(never)]
    pub fn free(self)
        requires { IsOwned self (range_of self) }
    {
        let OpenMemory {
            base,
            shift: _,
            len_and_skip,
            bytes,
            counters: _,
            supplier,
        } = self;
        if len_and_skip / 16 % 2 == 1 {
            supplier.let_go(bytes);
        } else {
            supplier.give_back(base, len_and_skip % 16, len_and_skip / 32, bytes);
        }
    }

    /// Returns the address of the first byte.
    pub fn start(&self) -> usize
        ensures value { result ≡ self.now.start }
        ensures bounds { (0 < self.now.start) × (self.now.start + length self.now.bytes < 2 ^ 64) }
    {
        self.shift.wrapping_neg() + self.len_and_skip % 16
    }

    /// Returns the number of bytes.
    pub fn len(&self) -> usize
        ensures value { result ≡ length self.now.bytes }
        ensures bounds { (0 < self.now.start) × (self.now.start + length self.now.bytes < 2 ^ 64) }
    {
        self.len_and_skip / 32
    }

    /// Does nothing. Its contract states that a memory has fewer than `2^59` bytes.
    pub fn is_below_limit(&self)
        ensures { length self.now.bytes < 2 ^ 59 }
    {
        let _ = &self.len_and_skip;
    }

    /// Returns a view of the memory. It stays a view of this memory, whatever is written there.
    pub fn view(&self) -> View
        ensures { result ≡ self.now.view }
    {
        View::new(self.base, self.shift)
    }

    /// Returns the bytes of `range`, which must lie in the memory and be here.
    pub fn slice(&self, range: Range) -> &[u8]
        requires place { LiesIn range self.now.start (length self.now.bytes) }
        requires here { IsHere self.now range }
        ensures { result.now ≡ bytes_in self.now range }
    {
        self.slice_at(self.view(), range)
    }

    // The same, by a view.
    #[inline(always)]
    fn slice_at(&self, view: View, range: Range) -> &[u8]
        requires place { LiesIn range self.now.start (length self.now.bytes) }
        requires here { IsHere self.now range }
        requires view { view ≡ self.now.view }
        ensures { result.now ≡ bytes_in self.now range }
    {
        self.bytes
            .slice(view.base, view.place(range.start), range.len)
    }

    /// Returns the bytes of `range`, for reading and writing. When the borrow ends, the memory has the bytes that were
    /// written. Nothing else changes.
    ///
    /// `range` must lie in the memory, and its bytes must be here.
    pub fn slice_mut(&mut self, range: Range) -> &mut [u8]
        requires place { LiesIn range self.old.start (length self.old.bytes) }
        requires here { IsHere self.old range }
        ensures* writes_back { sem 𝓛 (LendsOpenBytes self.entry range.start range.len result) }
        ensures value { result.now ≡ bytes_in self.old range }
    {
        let view = self.view();
        self.slice_mut_at(view, range)
    }

    // The same, by a view.
    #[inline(always)]
    fn slice_mut_at(&mut self, view: View, range: Range) -> &mut [u8]
        requires place { LiesIn range self.old.start (length self.old.bytes) }
        requires here { IsHere self.old range }
        requires view { view ≡ self.old.view }
        ensures* writes_back { sem 𝓛 (LendsOpenBytes self.entry range.start range.len result) }
        ensures value { result.now ≡ bytes_in self.old range }
    {
        self.bytes
            .slice_mut(view.base, view.place(range.start), range.len)
    }

    /// Returns the word at `addr`: the 8 bytes there, the least significant byte first.
    ///
    /// `addr` must be a multiple of 8. The 8 bytes must lie in the memory and be here.
    pub fn word(&self, addr: usize) -> u64
        requires { IsReadable self.now addr }
        ensures { result ≡ word_at self.now addr }
    {
        self.word_at(self.view(), addr)
    }

    // The same, by a view.
    #[inline(always)]
    fn word_at(&self, view: View, addr: usize) -> u64
        requires place { IsReadable self.now addr }
        requires view { view ≡ self.now.view }
        ensures { result ≡ word_at self.now addr }
    {
        let b = self.slice_at(view, word_range(addr));
        // As one array, which LLVM reads at once: of eight bytes it would read some alone, where a caller asks for part of the word.
        // There are eight, so `None` doesn't come.
        match b.first_chunk::<8>() {
            Some(chunk) => u64::from_le_bytes(*chunk),
            None => 0,
        }
    }

    /// Returns the word at `addr`, as `word` does, and counts one touch. Nothing else changes.
    ///
    /// `addr` must be a multiple of 8. The 8 bytes must lie in the memory and be here.
    pub fn load(&mut self, addr: usize) -> u64
        requires { IsReadable self.old addr }
        ensures word { result ≡ word_at self.old addr }
        ensures start { self.new.start ≡ self.old.start }
        ensures bytes { self.new.bytes ≡ self.old.bytes }
        ensures touches { self.new.touches ≡ self.old.touches + 1 }
        ensures copied { self.new.copied ≡ self.old.copied }
        ensures view { self.new.view ≡ self.old.view }
        ensures out { self.new.out ≡ self.old.out }
    {
        let view = self.view();
        self.load_at(view, addr)
    }

    /// Returns the word at `addr` by a view of the memory, as `load` does, and counts one touch. Nothing else changes.
    ///
    /// `view` must be a view of this memory. `addr` must be a multiple of 8. The 8 bytes must lie in the memory and be here.
    #[inline(always)]
    pub fn load_at(&mut self, view: View, addr: usize) -> u64
        requires place { IsReadable self.old addr }
        requires view { view ≡ self.old.view }
        ensures word { result ≡ word_at self.old addr }
        ensures start { self.new.start ≡ self.old.start }
        ensures bytes { self.new.bytes ≡ self.old.bytes }
        ensures touches { self.new.touches ≡ self.old.touches + 1 }
        ensures copied { self.new.copied ≡ self.old.copied }
        ensures view { self.new.view ≡ self.old.view }
        ensures out { self.new.out ≡ self.old.out }
    {
        let word = self.word_at(view, addr);
        self.touch();
        word
    }

    /// Writes `word` to the 8 bytes at `addr`, the least significant byte first, and counts one touch. The 8 bytes are then
    /// here. No other byte changes.
    ///
    /// `addr` must be a multiple of 8. The 8 bytes must lie in the memory, and none may be out.
    pub fn set_word(&mut self, addr: usize, word: u64)
        requires { IsWritable self.old addr }
        ensures { WritesWord self.old self.new addr word }
    {
        let view = self.view();
        self.set_word_at(view, addr, word);
    }

    /// Writes `word` to the 8 bytes at `addr` by a view of the memory, as `set_word` does, and counts one touch. No other
    /// byte changes.
    ///
    /// `view` must be a view of this memory. `addr` must be a multiple of 8. The 8 bytes must lie in the memory, and none may
    /// be out.
    #[inline(always)]
    pub fn set_word_at(&mut self, view: View, addr: usize, word: u64)
        requires place { IsWritable self.old addr }
        requires view { view ≡ self.old.view }
        ensures { WritesWord self.old self.new addr word }
    {
        self.bytes
            .write_word(view.base, view.place(addr), word.to_le_bytes());
        self.touch();
    }

    /// Counts one touch. Nothing else changes.
    pub fn touch(&mut self)
        ensures start { self.new.start ≡ self.old.start }
        ensures bytes { self.new.bytes ≡ self.old.bytes }
        ensures touches { self.new.touches ≡ self.old.touches + 1 }
        ensures copied { self.new.copied ≡ self.old.copied }
        ensures view { self.new.view ≡ self.old.view }
        ensures out { self.new.out ≡ self.old.out }
    {
        self.counters.count_touch();
    }

    /// Copies the bytes of `range` to the same number of bytes from `to` on, and adds this number to the copied bytes. The
    /// two ranges may overlap: the bytes written are those of `range` before the call. They are then here. No other byte
    /// changes.
    ///
    /// Both must lie in the memory. The bytes of `range` must be here, and none of those from `to` on may be out.
    #[inline(always)]
    pub fn copy_within(&mut self, range: Range, to: usize)
        requires from { LiesIn range self.old.start (length self.old.bytes) }
        requires to { LiesIn (range_at to range.len) self.old.start (length self.old.bytes) }
        requires here { IsHere self.old range }
        requires own { IsOwned self.old (range_at to range.len) }
        ensures memory { IsSpaceWith self.old self.new (with_bytes self.old to (bytes_in self.old range)) (out_with self.old (range_at to range.len)) }
        ensures len { length self.new.bytes ≡ length self.old.bytes }
        ensures counts { (self.new.touches ≡ self.old.touches) × (self.new.copied ≡ self.old.copied + range.len) }
        ensures own { SameOwn self.old self.new }
        ensures here { IsHere self.new (range_at to range.len) }
        ensures stays { StaysHere self.old self.new }
    {
        let view = self.view();
        let (from, place) = (view.place(range.start), view.place(to));
        copy_bytes(&mut self.bytes, view.base, from, place, range.len);
        self.counters.count_copy(range.len);
    }

    /// Copies as `copy_within` does, by a view of the memory and in units of 16 bytes. It is faster: the bytes from `to` on begin no
    /// later than `range`, or behind it, so no test is needed whether both overlap.
    ///
    /// `view` must be a view of this memory, and the length of `range` a multiple of 16. Both ranges must lie in the memory. The bytes
    /// of `range` must be here, and none of those from `to` on may be out.
    #[inline(always)]
    pub fn copy_units_at(&mut self, view: View, range: Range, to: usize)
        requires from { LiesIn range self.old.start (length self.old.bytes) }
        requires to { LiesIn (range_at to range.len) self.old.start (length self.old.bytes) }
        requires here { IsHere self.old range }
        requires own { IsOwned self.old (range_at to range.len) }
        requires view { view ≡ self.old.view }
        requires units { (range.len % 16 ≡ 0) × ((end_of range ≤ to) ⊎ (to ≤ range.start)) }
        ensures memory { IsSpaceWith self.old self.new (with_bytes self.old to (bytes_in self.old range)) (out_with self.old (range_at to range.len)) }
        ensures len { length self.new.bytes ≡ length self.old.bytes }
        ensures counts { (self.new.touches ≡ self.old.touches) × (self.new.copied ≡ self.old.copied + range.len) }
        ensures own { SameOwn self.old self.new }
        ensures here { IsHere self.new (range_at to range.len) }
        ensures stays { StaysHere self.old self.new }
    {
        let (from, place) = (view.place(range.start), view.place(to));
        copy_units(&mut self.bytes, view.base, from, place, range.len);
        self.counters.count_copy(range.len);
    }

    /// Copies as `copy_within` does, in a memory of which no byte is raw or out. It is faster: the compiler copies by
    /// `memmove` between bytes that it knows to have values.
    ///
    /// Both ranges must lie in the memory.
    pub fn copy_within_whole(&mut self, range: Range, to: usize)
        requires from { LiesIn range self.old.start (length self.old.bytes) }
        requires to { LiesIn (range_at to range.len) self.old.start (length self.old.bytes) }
        requires whole { self.old.out ≡ [] }
        ensures start { self.new.start ≡ self.old.start }
        ensures bytes { self.new.bytes ≡ with_bytes self.old to (bytes_in self.old range) }
        ensures len { length self.new.bytes ≡ length self.old.bytes }
        ensures touches { self.new.touches ≡ self.old.touches }
        ensures copied { self.new.copied ≡ self.old.copied + range.len }
        ensures view { self.new.view ≡ self.old.view }
        ensures out { self.new.out ≡ [] }
    {
        let start = self.start();
        let (base, first, len) = (self.base, self.len_and_skip % 16, self.len());
        let bytes = self.bytes.slice_mut(base, first, len);
        let from = range.start - start;
        copy_in_slice(bytes, from, range.len, to - start);
        self.counters.count_copy(range.len);
    }
}

// Refuses a range that begins at zero or passes the greatest address.
fn addressed(start: usize, len: usize) -> Result<(), MemoryError>
    ensures zero_start { IsErrOf result MemoryError.ZeroStart ↔ (start ≡ 0) }
    ensures too_long { IsErrOf result MemoryError.TooLong ↔ ((1 ≤ start) × (2 ^ 64 ≤ start + len)) }
    ensures ok { IsOk result ↔ ((1 ≤ start) × (start + len < 2 ^ 64)) }
{
    if start == 0 {
        return Err(MemoryError::ZeroStart);
    }
    if usize::MAX - start < len {
        return Err(MemoryError::TooLong);
    }
    Ok(())
}

fn word_range(addr: usize) -> Range
    ensures { result ≡ word_range addr }
{
    Range {
        start: addr,
        len: 8,
    }
}
