//! Addresses, ranges and layouts, and the one block of bytes that they refer to.
ghost use Rattle.std.specs.Prelude.{◌≡◌, ◌+◌, ◌^◌, ◌<◌, ◌≤◌, ◌↔◌, length, replicate, IfOk, IsOk, IsErrOf};
ghost use Rattle.std.specs.Borrow.{sem};
ghost use Rattle.rlsf_base.specs.Range.{range_at, LiesIn};
ghost use Rattle.rlsf_base.specs.Space.{bytes_in, IsWord, word_at, with_word, with_bytes};

use std::alloc::Global;
use std::marker::Model;
use std::mem::size_of;

pub(crate) mod block;
pub(crate) mod copying;
pub(crate) mod counters;
pub(crate) mod filling;
mod layout;
pub mod ledger;
mod open_memory;
mod opening;
mod part;
mod range;
mod raw_parts;
mod thin_bytes;
mod unit_payload;
mod view;
pub(crate) mod zeroed;

pub use block::RawParts;
pub use layout::{Layout, LayoutError};
pub use open_memory::OpenMemory;
pub use part::Part;
pub use range::{Addr, Range};
pub use thin_bytes::ThinBytes;
pub use unit_payload::UnitPayload;
pub use view::View;

/// The reason why a `Memory` was not created. Each error has a number.
#[derive(Clone, Copy, Debug, PartialEq, Eq)]
pub enum MemoryError {
    /// The start is zero, which is no address.
    ZeroStart = 1,
    /// The end is past the greatest address.
    TooLong = 2,
    /// The system has no block of this length.
    OutOfMemory = 3,
}

/// The address space that allocators divide up: `len` bytes at the addresses from `start` on.
///
/// It is one block of the system, aligned so that each multiple of 8 is the address of an aligned word. For contracts
/// alone, it counts word accesses (touches) and copied bytes. It is as large as a `Vec<u8>`.
pub struct Memory {
    /// The same memory, for code that takes bytes out of it. They are back whenever the `Memory` is used as a whole.
    pub inner: OpenMemory,
}

const _: () = prove!(size_of::<Memory>() == size_of::<Vec<u8>>());

impl Model for Memory {
    ghost use Rattle.std.specs.Prelude.{◌≡◌, []};
    ghost use Rattle.rlsf_base.specs.Space.{Space};

    ghost Value = { Space };

    ghost view = { λ m. m.inner };

    ghost invariant = { λ m. m.inner.out ≡ [] };
}

impl Drop for Memory {
    fn drop(self) {
        let Memory { inner } = self;
        inner.free();
    }
}

impl Memory {
    ghost use Rattle.rlsf_base.specs.Lends.{LendsSpaceBytes};

    /// Creates a memory of `len` zero bytes at the addresses from `start` on. If `len` is zero, the system is not asked
    /// for memory.
    ///
    /// Returns the first of these errors that applies:
    /// - `ZeroStart` if `start` is zero
    /// - `TooLong` if `start + len` is past the greatest address
    /// - `OutOfMemory` if the system has no such block
    pub fn new(alloc: Global, start: usize, len: usize) -> Result<Memory, MemoryError>
        ensures zero_start { IsErrOf result MemoryError.ZeroStart ↔ (start ≡ 0) }
        ensures too_long { IsErrOf result MemoryError.TooLong ↔ ((1 ≤ start) × (2 ^ 64 ≤ start + len)) }
        ensures empty { (1 ≤ start) × (start < 2 ^ 64) × (len ≡ 0) → IsOk result }
        ensures start { IfOk result (λ m. m.start ≡ start) }
        ensures bytes { IfOk result (λ m. m.bytes ≡ replicate len 0) }
        ensures counts { IfOk result (λ m. (m.touches ≡ 0) × (m.copied ≡ 0)) }
    {
        Ok(Memory {
            inner: OpenMemory::new(alloc, start, len)?,
        })
    }

    /// Returns the address of the first byte.
    pub fn start(&self) -> usize
        ensures value { result ≡ self.now.start }
        ensures bounds { (0 < self.now.start) × (self.now.start + length self.now.bytes < 2 ^ 64) }
    {
        self.inner.start()
    }

    /// Returns the number of bytes.
    pub fn len(&self) -> usize
        ensures value { result ≡ length self.now.bytes }
        ensures bounds { (0 < self.now.start) × (self.now.start + length self.now.bytes < 2 ^ 64) }
    {
        self.inner.len()
    }

    /// Returns a view of the memory. It stays a view of this memory, whatever is written there.
    pub fn view(&self) -> View
        ensures { result ≡ self.now.view }
    {
        self.inner.view()
    }

    /// Returns the bytes of `range`, which must lie in the memory.
    pub fn slice(&self, range: Range) -> &[u8]
        requires { LiesIn range self.now.start (length self.now.bytes) }
        ensures { result.now ≡ bytes_in self.now range }
    {
        self.inner.slice(range)
    }

    /// Returns the bytes of `range`, for reading and writing. When the borrow ends, the memory has the bytes that were
    /// written. Nothing else changes.
    ///
    /// `range` must lie in the memory.
    pub fn slice_mut(&mut self, range: Range) -> &mut [u8]
        requires { LiesIn range self.old.start (length self.old.bytes) }
        ensures* writes_back { sem 𝓛 (LendsSpaceBytes self.entry range.start range.len result) }
        ensures value { result.now ≡ bytes_in self.old range }
    {
        self.inner.slice_mut(range)
    }

    /// Returns the word at `addr`: the 8 bytes there, the least significant byte first.
    ///
    /// `addr` must be a multiple of 8, and the 8 bytes must lie in the memory.
    pub fn word(&self, addr: usize) -> u64
        requires { IsWord self.now addr }
        ensures { result ≡ word_at self.now addr }
    {
        self.inner.word(addr)
    }

    /// Returns the word at `addr`, as `word` does, and counts one touch. Nothing else changes.
    ///
    /// `addr` must be a multiple of 8, and the 8 bytes must lie in the memory.
    pub fn load(&mut self, addr: usize) -> u64
        requires { IsWord self.old addr }
        ensures word { result ≡ word_at self.old addr }
        ensures start { self.new.start ≡ self.old.start }
        ensures bytes { self.new.bytes ≡ self.old.bytes }
        ensures touches { self.new.touches ≡ self.old.touches + 1 }
        ensures copied { self.new.copied ≡ self.old.copied }
        ensures view { self.new.view ≡ self.old.view }
    {
        self.inner.load(addr)
    }

    /// Returns the word at `addr` by a view of the memory, as `load` does, and counts one touch. Nothing else changes.
    ///
    /// `view` must be a view of this memory. `addr` must be a multiple of 8, and the 8 bytes must lie in the memory.
    #[inline(always)]
    pub fn load_at(&mut self, view: View, addr: usize) -> u64
        requires place { IsWord self.old addr }
        requires view { view ≡ self.old.view }
        ensures word { result ≡ word_at self.old addr }
        ensures start { self.new.start ≡ self.old.start }
        ensures bytes { self.new.bytes ≡ self.old.bytes }
        ensures touches { self.new.touches ≡ self.old.touches + 1 }
        ensures copied { self.new.copied ≡ self.old.copied }
        ensures view { self.new.view ≡ self.old.view }
    {
        self.inner.load_at(view, addr)
    }

    /// Writes `word` to the 8 bytes at `addr`, the least significant byte first, and counts one touch. No other byte
    /// changes.
    ///
    /// `addr` must be a multiple of 8, and the 8 bytes must lie in the memory.
    pub fn set_word(&mut self, addr: usize, word: u64)
        requires { IsWord self.old addr }
        ensures start { self.new.start ≡ self.old.start }
        ensures bytes { self.new.bytes ≡ with_word self.old addr word }
        ensures len { length self.new.bytes ≡ length self.old.bytes }
        ensures touches { self.new.touches ≡ self.old.touches + 1 }
        ensures copied { self.new.copied ≡ self.old.copied }
        ensures view { self.new.view ≡ self.old.view }
    {
        self.inner.set_word(addr, word);
    }

    /// Writes `word` to the 8 bytes at `addr` by a view of the memory, as `set_word` does, and counts one touch. No other
    /// byte changes.
    ///
    /// `view` must be a view of this memory. `addr` must be a multiple of 8, and the 8 bytes must lie in the memory.
    #[inline(always)]
    pub fn set_word_at(&mut self, view: View, addr: usize, word: u64)
        requires place { IsWord self.old addr }
        requires view { view ≡ self.old.view }
        ensures start { self.new.start ≡ self.old.start }
        ensures bytes { self.new.bytes ≡ with_word self.old addr word }
        ensures len { length self.new.bytes ≡ length self.old.bytes }
        ensures touches { self.new.touches ≡ self.old.touches + 1 }
        ensures copied { self.new.copied ≡ self.old.copied }
        ensures view { self.new.view ≡ self.old.view }
    {
        self.inner.set_word_at(view, addr, word);
    }

    /// Counts one touch. Nothing else changes.
    pub fn touch(&mut self)
        ensures start { self.new.start ≡ self.old.start }
        ensures bytes { self.new.bytes ≡ self.old.bytes }
        ensures touches { self.new.touches ≡ self.old.touches + 1 }
        ensures copied { self.new.copied ≡ self.old.copied }
        ensures view { self.new.view ≡ self.old.view }
    {
        self.inner.touch();
    }

    /// Copies the bytes of `range` to the same number of bytes from `to` on, and adds this number to the copied bytes.
    /// The two ranges may overlap: the bytes written are those of `range` before the call. No other byte changes.
    ///
    /// Both must lie in the memory.
    pub fn copy_within(&mut self, range: Range, to: usize)
        requires from { LiesIn range self.old.start (length self.old.bytes) }
        requires to { LiesIn (range_at to range.len) self.old.start (length self.old.bytes) }
        ensures start { self.new.start ≡ self.old.start }
        ensures bytes { self.new.bytes ≡ with_bytes self.old to (bytes_in self.old range) }
        ensures len { length self.new.bytes ≡ length self.old.bytes }
        ensures touches { self.new.touches ≡ self.old.touches }
        ensures copied { self.new.copied ≡ self.old.copied + range.len }
        ensures view { self.new.view ≡ self.old.view }
    {
        self.inner.copy_within_whole(range, to);
    }
}
