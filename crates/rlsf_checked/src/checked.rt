//! The allocator with a mark for each address at which a payload may be live.

ghost use Rattle.std.specs.Prelude.{◌≡◌, ◌≢◌, ◌≤◌, ◌<◌, ◌+◌, ◌*◌, ◌^◌, ℕ, length, drop, take, nat_le, is_some, if◌then◌else◌, IfErr, IfOk, IfSome, IsErrOf, IsOk, IsSome, None, OnErr, OnOk, Some, ◌↔◌};
ghost use Rattle.std.specs.Map.Iter.{GivesInOrder};
ghost use Rattle.rlsf_base.specs.Addr.{at};
ghost use Rattle.rlsf_model_sizes.specs.PowerOfTwo.{IsPowerOfTwo};
ghost use Rattle.rlsf_base.specs.Range.{range_at};
ghost use Rattle.rlsf_model_sizes.specs.SizeClass.{IsValid};
ghost use Rattle.rlsf_model_sizes.specs.Sizes.{max_pool_size};
ghost use Rattle.rlsf_base.specs.Space.{range_of};
ghost use Rattle.rlsf_model.specs.Allocate.{Allocates};
ghost use Rattle.rlsf_model.specs.Callers.{align_at, bytes_at, written_over};
ghost use Rattle.rlsf_model.specs.Insert.{Appends, Inserts, aligned_part, cut};
ghost use Rattle.rlsf_model.specs.NoMove.{ReallocatesWithoutMove};
ghost use Rattle.rlsf_model.specs.Reallocate.{Reallocates};
ghost use Rattle.rlsf_model.specs.Release.{Deallocates};
ghost use Rattle.rlsf_model.specs.Run.{Fills};
ghost use Rattle.rlsf_model.specs.Sized.{live_bytes, live_count};
ghost use Rattle.rlsf_model.specs.State.{empty};
ghost use Rattle.rlsf_blocks.specs.Blocks.{AreBlocks, walked};
ghost use Rattle.rlsf_tlsf.specs.Allocator.{IsRepresented, Stands, Steps};
ghost use Rattle.rlsf_tlsf.specs.Bounds.{KeepsAllBounds, KeepsBounds, TakesRoom};
ghost use Rattle.rlsf_tlsf.specs.Results.{IsAllocated, IsResized, KeepsFrameOfPools};
ghost use Rattle.rlsf_checked.specs.Answers.{IsInsertAnswer, IsRefusedBy, append_answer, fits, if_in_range, if_live, is_next, is_within, addr_in, refusal_at, taken};
ghost use Rattle.rlsf_checked.specs.declared.error.CheckedError.TheVariants.{InvalidClasses, NoRoom, OutOfMemory, UnknownAddress};
ghost use Rattle.rlsf_checked.specs.Pools.{no_pools, with_longer_last, with_pool};
ghost use Rattle.rlsf_checked.specs.Results.{IsDeallocatedIfLive, IsReallocatedSameAlign, RefusesUnchanged, RefusesUntouched};
ghost use Rattle.rlsf_checked.specs.Results.{KeepsCheckedFrame, KeepsCheckedFrameInPlace, KeepsCheckedFrameMoving};
ghost use Rattle.rlsf_checked.specs.Sizing.{AddsCheckedRoom, KeepsBoundsSameAlign, KeepsCheckedRoom, TakesCheckedRoomAgain};

use crate::bytes::write_at;
use crate::classes::are_valid;
use crate::error::CheckedError;
use crate::marks::{align_of, mark_of, no_marks};
use crate::pools::Pools;
use rlsf_base::memory::{Addr, Layout, Memory, Range};
use rlsf_blocks::{BlockInfo, Blocks};
use rlsf_codes::Codes;
use rlsf_int::{BitPattern, Bitmap};
use rlsf_tlsf::Tlsf;
use std::alloc::Global;
use std::marker::Model;

/// An allocator whose calls have no preconditions: each call tests its arguments, and refuses those that a caller may not pass.
///
/// A mark is a byte for each 16 addresses of the memory. It records whether a payload begins there, and with which alignment. Each call
/// reads one mark and writes at most two. The pools are listed, so that the blocks of all of them can be found. After `new`, only `insert`
/// requests memory from the system, for the list of pools, and not for the first pool.
///
/// The documentation of a call bounds its cost in word accesses, as that of `Tlsf` defines them. Reads and writes of marks aren't counted.
#[derive(Drop)]
pub struct CheckedTlsf<
    FLBitmap: BitPattern,
    SLBitmap: BitPattern,
    const FLLEN: usize,
    const SLLEN: usize,
> {
    pub(crate) heap: Tlsf<FLBitmap, SLBitmap, FLLEN, SLLEN>,
    pub(crate) marks: Codes<u8>,
    pub(crate) pools: Pools,
}

impl<FLBitmap: BitPattern, SLBitmap: BitPattern, const FLLEN: usize, const SLLEN: usize> Model
    for CheckedTlsf<FLBitmap, SLBitmap, FLLEN, SLLEN> {
    ghost use Rattle.rlsf_checked.specs.Checked.{Checked, checked};
    ghost use Rattle.rlsf_checked.specs.Steps.Lists.{listed};
    ghost use Rattle.rlsf_checked.specs.Steps.Standing.{IsChecked};

    ghost Value = { Checked };

    ghost view = { λ t. checked t.heap (listed t.pools) };

    ghost invariant = { λ t. IsChecked FLLEN SLLEN t.heap t.marks (listed t.pools) };
}

impl<FLBitmap: Bitmap, SLBitmap: Bitmap, const FLLEN: usize, const SLLEN: usize> CheckedTlsf<
    FLBitmap,
    SLBitmap,
    FLLEN,
    SLLEN,
> {
    /// Creates an allocator over the memory, without a pool. The system is asked for the marks: a byte for each 16 addresses.
    ///
    /// Returns `InvalidClasses` exactly if the parameters are invalid. They are valid if both of these hold:
    ///
    /// - `FLLEN`, the number of first-level rows, is between 1 and the number of bits of `FLBitmap`.
    /// - `SLLEN`, the number of classes of a row, is a power of two and at most the number of bits of `SLBitmap`.
    ///
    /// Else returns `OutOfMemory` if the system refuses the marks. On an error the memory is dropped.
    ///
    /// Takes time proportional to the length of the memory, for the marks, and to the number of classes. No word of the memory is
    /// accessed.
    pub fn new(alloc: Global, memory: Memory) -> Result<Self, CheckedError>
        ensures invalid { IsErrOf result InvalidClasses ↔ (IsValid FLBitmap.width SLBitmap.width FLLEN SLLEN → ⊥) }
        ensures refused { IfErr result (λ e. e ≢ InvalidClasses → e ≡ OutOfMemory) }
        ensures state { IfOk result (λ t. t.heap.state ≡ empty) }
        ensures live { IfOk result (λ t. (live_count t.heap.state ≡ 0) × (live_bytes t.heap.state ≡ 0)) }
        ensures memory { IfOk result (λ t. t.heap.memory ≡ memory) }
        ensures pools { IfOk result (λ t. t.pools ≡ no_pools memory.start) }
        ensures stands { IfOk result (λ t. Stands FLLEN SLLEN t.heap) }
    {
        if !are_valid::<FLBitmap, SLBitmap, FLLEN, SLLEN>() {
            return Err(CheckedError::InvalidClasses);
        }
        let Some(marks) = no_marks(alloc, &memory) else {
            return Err(CheckedError::OutOfMemory);
        };
        let pools = Pools::new(alloc, memory.start());
        Ok(CheckedTlsf {
            heap: Tlsf::new(memory),
            marks,
            pools,
        })
    }
}

impl<
    FLBitmap: BitPattern,
    SLBitmap: BitPattern,
    const FLLEN: usize,
    const SLLEN: usize,
> CheckedTlsf<FLBitmap, SLBitmap, FLLEN, SLLEN> {
    /// Returns the memory, for reading. Its words and the class table encode the state (`represented`).
    ///
    /// Completes in constant time.
    pub fn memory_ref(&self) -> &Memory
        ensures memory { result.now ≡ self.now.heap.memory }
        ensures stands { Stands FLLEN SLLEN self.now.heap }
        ensures represented { IsRepresented FLLEN SLLEN self.now.heap }
    {
        self.heap.memory_ref()
    }

    /// Returns the alignment of the payload at an address, or `None` if none is live there.
    pub(crate) fn alignment(&self, addr: Addr) -> Option<usize>
        ensures value { result ≡ align_at self.now.heap.state (at addr) }
        ensures live { IfSome result (λ align. IsSome (align_at self.now.heap.state (at addr))) }
        ensures power { IfSome result (λ align. IsPowerOfTwo align) }
    {
        let mark = self.marks.get(addr.get());
        if mark == 0 {
            return None;
        }
        Some(align_of(mark))
    }

    /// Inserts a range of the memory. Its aligned part becomes free chunks. No chunk has fewer than 64 bytes.
    ///
    /// Returns the number of bytes from the start of the range to the end of its last chunk. The range becomes the last pool, up to that
    /// end. All payloads keep their bytes.
    ///
    /// If nothing is live, a range sizes the allocator for some bounds (`IsSizedFor`) under two conditions: its start is a multiple of 32,
    /// and its length is at least `pool_size_for_payloads` of these bounds. For a budget (`pool_size_for_budget`, `IsSizedForBudget`)
    /// payloads may be live.
    ///
    /// Refuses, and changes nothing:
    ///
    /// - `OutsideMemory` exactly if the range doesn't lie in the memory.
    /// - else `NotBehind` exactly if the range begins before the end of the last pool.
    /// - else `OutOfMemory` if another pool is the last one and the system is out of memory for the list of pools.
    /// - else `TooShort` exactly if no chunk can be made of the range.
    ///
    /// At most 13 word accesses for each chunk that it makes. No byte is copied.
    pub fn insert(&mut self, range: Range) -> Result<usize, CheckedError>
        ensures step { OnOk result (Steps FLLEN SLLEN self.old.heap self.new.heap (Inserts FLLEN self.old.heap.state range (taken result))) }
        ensures result { IfOk result (λ n. self.new.pools ≡ with_pool self.old.pools (range_at range.start n)) }
        ensures room { AddsCheckedRoom FLLEN SLLEN range self.old.heap.state self.new.heap.state result }
        ensures bounds { KeepsAllBounds SLLEN self.old.heap.state self.new.heap.state }
        ensures refused { RefusesUnchanged self.old self.new (IsInsertAnswer FLLEN self.old range result) result }
        ensures frame { KeepsFrameOfPools self.old.heap self.new.heap }
        ensures touches { self.new.heap.memory.touches ≤ self.old.heap.memory.touches + 13 * length (cut (max_pool_size FLLEN) (aligned_part range)) }
    {
        if !lies_in(self.heap.memory_ref(), range) {
            return Err(CheckedError::OutsideMemory);
        }
        if range.start < self.pools.last.start + self.pools.last.len {
            return Err(CheckedError::NotBehind);
        }
        if !self.pools.reserve() {
            return Err(CheckedError::OutOfMemory);
        }
        let Some(taken) = self.heap.insert_free_block_ptr(range) else {
            return Err(CheckedError::TooShort);
        };
        let len = taken.get();
        self.pools.add(Range {
            start: range.start,
            len,
        });
        Ok(len)
    }

    /// Appends a range of the memory, which begins at the end of the last pool, to that pool. Returns the number of bytes taken. All
    /// payloads keep their bytes.
    ///
    /// If chunks have a greatest length, the range becomes chunks of its own. Else the last chunk grows by the length of the range, rounded
    /// down to a multiple of 32.
    ///
    /// Refuses, and changes nothing:
    ///
    /// - `OutsideMemory` exactly if the range doesn't lie in the memory.
    /// - else `NotNext` exactly if the range doesn't begin at the end of the last pool, or no range was inserted.
    /// - else `TooShort` exactly if no byte of the range can be taken.
    ///
    /// At most 13 word accesses for each chunk that it makes, and at most 34 if a chunk grows. No byte is copied.
    pub fn append(&mut self, range: Range) -> Result<usize, CheckedError>
        ensures step { IfOk result (λ n. Steps FLLEN SLLEN self.old.heap self.new.heap (Appends FLLEN self.old.heap.state range n)) }
        ensures result { IfOk result (λ n. self.new.pools ≡ with_longer_last self.old.pools n) }
        ensures bounds { KeepsAllBounds SLLEN self.old.heap.state self.new.heap.state }
        ensures room { KeepsCheckedRoom SLLEN self.old.heap.state self.new.heap.state }
        ensures refused { RefusesUnchanged self.old self.new (result ≡ append_answer FLLEN self.old range) result }
        ensures frame { KeepsFrameOfPools self.old.heap self.new.heap }
        ensures touches { self.new.heap.memory.touches ≤ self.old.heap.memory.touches
            + (if is_some (max_pool_size FLLEN) then 13 * length (cut (max_pool_size FLLEN) (aligned_part range)) else 34) }
    {
        if !lies_in(self.heap.memory_ref(), range) {
            return Err(CheckedError::OutsideMemory);
        }
        let pool = self.pools.last;
        if !is_next(pool.start, pool.len, range.start) {
            return Err(CheckedError::NotNext);
        }
        let taken = self.heap.append_free_block_ptr(range);
        if taken == 0 {
            return Err(CheckedError::TooShort);
        }
        self.pools.extend(taken);
        Ok(taken)
    }

    /// Allocates a payload for a layout. Returns its address, a multiple of the alignment. The payload has at least `layout.size()` usable
    /// bytes, and less than 32 more.
    ///
    /// Returns `NoRoom` exactly if no free block has a class that reaches the sought size. Then nothing changes.
    ///
    /// Never refuses a payload within bounds (`IsSizedFor`) or a budget (`IsSizedForBudget`) that the allocator is sized for.
    ///
    /// Completes in constant time: at most 27 word accesses, whatever the pools contain. No byte is copied.
    ///
    /// From `crates/rlsf_test_tlsf/src/checked/kept.rt`:
    ///
    /// ```
    /// let addr = pool.allocate(layout)?;
    /// pool.write(addr, 0, bytes)?;
    /// pool.deallocate(addr)
    /// ```
    pub fn allocate(&mut self, layout: Layout) -> Result<Addr, CheckedError>
        ensures step { Steps FLLEN SLLEN self.old.heap self.new.heap (Allocates SLLEN self.old.heap.state layout.size layout.align (addr_in result)) }
        ensures result { IfOk result (λ addr. IsAllocated self.old.heap.state self.new.heap.state layout.size layout.align (at addr)) }
        ensures room { TakesRoom SLLEN self.old.heap.state self.new.heap.state layout.size layout.align (IsOk result) }
        ensures bounds { KeepsBounds SLLEN self.old.heap.state self.new.heap.state layout.size layout.align }
        ensures refused { RefusesUnchanged self.old self.new (IfErr result (λ e. e ≡ NoRoom)) result }
        ensures frame { KeepsCheckedFrame self.old self.new }
        ensures touches { self.new.heap.memory.touches ≤ self.old.heap.memory.touches + 27 }
    {
        let Some(addr) = self.heap.allocate(layout) else {
            return Err(CheckedError::NoRoom);
        };
        self.marks.set(addr.get(), mark_of(layout.align()));
        Ok(addr)
    }

    /// Deallocates a payload. Returns `UnknownAddress` exactly if none is live at the address. Then nothing changes.
    ///
    /// An address that was deallocated and allocated again is live, so a call with it can't be refused.
    ///
    /// Completes in constant time: at most 32 word accesses, whatever the pools contain. No byte is copied.
    pub fn deallocate(&mut self, addr: Addr) -> Result<(), CheckedError>
        ensures step { OnOk result (Steps FLLEN SLLEN self.old.heap self.new.heap (Deallocates self.old.heap.state (at addr))) }
        ensures result { IsDeallocatedIfLive self.old.heap.state self.new.heap.state (at addr) result }
        ensures bounds { KeepsAllBounds SLLEN self.old.heap.state self.new.heap.state }
        ensures refused { RefusesUntouched self.old self.new (result ≡ if_live (align_at self.old.heap.state (at addr)) tt) result }
        ensures frame { KeepsCheckedFrame self.old self.new }
        ensures touches { self.new.heap.memory.touches ≤ self.old.heap.memory.touches + 32 }
    {
        match self.alignment(addr) {
            None => Err(CheckedError::UnknownAddress),
            Some(align) => {
                self.heap.deallocate(addr, align);
                self.marks.set(addr.get(), 0);
                Ok(())
            }
        }
    }

    /// Changes the size of a payload, and keeps its alignment. Returns its address. As many of its first bytes as both sizes have are kept.
    ///
    /// The payload doesn't move if its block and a free one behind it suffice. Else it moves into the free block before it, if that block
    /// suffices together with these. Else it moves into a new block, which is allocated while the payload is still live.
    ///
    /// Refuses, and changes nothing:
    ///
    /// - `UnknownAddress` exactly if no payload is live at the address.
    /// - else `NoLayout` exactly if the size and the alignment together are above 2^63.
    /// - else `NoRoom` exactly if the reference model refuses.
    ///
    /// Never refuses to resize a live payload within bounds (`IsSizedFor`) or a budget (`IsSizedForBudget`) that the allocator is sized for.
    ///
    /// At most 66 word accesses, whatever the pools contain. At most the bytes that the payload had are copied.
    pub fn reallocate(&mut self, addr: Addr, size: usize) -> Result<Addr, CheckedError>
        ensures step { refusal_at self.old.heap.state (at addr) size ≡ None
            → Steps FLLEN SLLEN self.old.heap self.new.heap (Reallocates SLLEN self.old.heap.state (at addr) size (addr_in result)) }
        ensures result { IfOk result (λ to. IsReallocatedSameAlign self.old.heap.state self.new.heap.state (at addr) size (at to)) }
        ensures room { TakesCheckedRoomAgain SLLEN self.old.heap.state self.new.heap.state (at addr) size result }
        ensures bounds { KeepsBoundsSameAlign SLLEN self.old.heap.state (at addr) size self.new.heap.state }
        ensures refused { RefusesUnchanged self.old self.new (IsRefusedBy (refusal_at self.old.heap.state (at addr) size) result) result }
        ensures frame { KeepsCheckedFrameMoving (at addr) self.old self.new }
        ensures touches { self.new.heap.memory.touches ≤ self.old.heap.memory.touches + 66 }
    {
        let Some(align) = self.alignment(addr) else {
            return Err(CheckedError::UnknownAddress);
        };
        let Ok(layout) = Layout::from_size_align(size, align) else {
            return Err(CheckedError::NoLayout);
        };
        let Some(moved) = self.heap.reallocate(addr, layout) else {
            return Err(CheckedError::NoRoom);
        };
        let (left, mark) = (addr.get(), mark_of(align));
        self.marks.set(left, 0);
        self.marks.set(moved.get(), mark);
        Ok(moved)
    }

    /// Changes the size of a payload without moving it, and keeps its alignment. Returns its address. As many of its first bytes as both
    /// sizes have are kept, and none is copied.
    ///
    /// Refuses, and changes nothing:
    ///
    /// - `UnknownAddress` exactly if no payload is live at the address.
    /// - else `NoLayout` exactly if the size and the alignment together are above 2^63.
    /// - else `NoRoom` exactly if its block and a free one behind it don't suffice.
    ///
    /// Completes in constant time: at most 25 word accesses, whatever the pools contain.
    pub fn reallocate_no_move(&mut self, addr: Addr, size: usize) -> Result<Addr, CheckedError>
        ensures step { refusal_at self.old.heap.state (at addr) size ≡ None
            → Steps FLLEN SLLEN self.old.heap self.new.heap (ReallocatesWithoutMove self.old.heap.state (at addr) size (addr_in result)) }
        ensures result { IfOk result (λ to. IsResized self.old.heap.state self.new.heap.state (at addr) size (at to)) }
        ensures bounds { KeepsBoundsSameAlign SLLEN self.old.heap.state (at addr) size self.new.heap.state }
        ensures refused { RefusesUnchanged self.old self.new (IsRefusedBy (refusal_at self.old.heap.state (at addr) size) result) result }
        ensures frame { KeepsCheckedFrameInPlace (at addr) self.old self.new }
        ensures touches { self.new.heap.memory.touches ≤ self.old.heap.memory.touches + 25 }
    {
        let Some(align) = self.alignment(addr) else {
            return Err(CheckedError::UnknownAddress);
        };
        let Ok(layout) = Layout::from_size_align(size, align) else {
            return Err(CheckedError::NoLayout);
        };
        let Some(to) = self.heap.reallocate_no_move(addr, layout) else {
            return Err(CheckedError::NoRoom);
        };
        Ok(to)
    }

    /// Returns the number of usable bytes of a payload: those requested, and less than 32 more.
    ///
    /// Returns `UnknownAddress` exactly if no payload is live at the address.
    ///
    /// Completes in constant time. Its word accesses are not counted.
    pub fn usable_size(&self, addr: Addr) -> Result<usize, CheckedError>
        ensures { result ≡ if_live (align_at self.now.heap.state (at addr)) (length (bytes_at self.now.heap.state (at addr))) }
    {
        let Some(_) = self.alignment(addr) else {
            return Err(CheckedError::UnknownAddress);
        };
        Ok(self.heap.allocation_usable_size(addr))
    }

    /// Returns all usable bytes of a payload.
    ///
    /// Returns `UnknownAddress` exactly if no payload is live at the address.
    ///
    /// Completes in constant time. Its word accesses are not counted.
    pub fn payload(&self, addr: Addr) -> Result<&[u8], CheckedError>
        ensures when { IsOk result ↔ IsSome (align_at self.now.heap.state (at addr)) }
        ensures refused { IfErr result (λ e. e ≡ UnknownAddress) }
        ensures value { IfOk result (λ bytes. bytes.now ≡ bytes_at self.now.heap.state (at addr)) }
    {
        let Some(_) = self.alignment(addr) else {
            return Err(CheckedError::UnknownAddress);
        };
        Ok(self.heap.payload(addr))
    }

    /// Returns the used and free blocks of the last pool in address order. The sentinels at the ends of chunks are left out.
    ///
    /// Completes in constant time. So does each step of the iteration, whose reads are not counted as word accesses.
    pub fn blocks(&self) -> Blocks<'_>
        ensures blocks { AreBlocks self.now.heap.state (walked self.now.pools.last) result }
        ensures runs { GivesInOrder BlockInfo }
    {
        self.heap.iter_blocks(self.pools.last)
    }

    /// Reads `bytes.len()` bytes of a payload into `bytes`, from an offset on.
    ///
    /// Returns `UnknownAddress` exactly if no payload is live at the address, else `OutOfRange` exactly if the bytes go past the usable
    /// ones. Then `bytes` is unchanged.
    ///
    /// Takes time proportional to `bytes.len()`. Its word accesses are not counted.
    pub fn read(&self, addr: Addr, offset: usize, bytes: &mut [u8]) -> Result<(), CheckedError>
        ensures answer { result ≡ if_in_range (align_at self.now.heap.state (at addr)) (fits offset (length bytes.old) (bytes_at self.now.heap.state (at addr))) }
        ensures read { OnOk result (bytes.new ≡ take (length bytes.old) (drop offset (bytes_at self.now.heap.state (at addr)))) }
        ensures refused { OnErr result (bytes.new ≡ bytes.old) }
    {
        let Some(_) = self.alignment(addr) else {
            return Err(CheckedError::UnknownAddress);
        };
        let payload = self.heap.payload(addr);
        if !reaches(offset, bytes.len(), payload.len()) {
            return Err(CheckedError::OutOfRange);
        }
        bytes.copy_from_slice(&payload[offset..offset + bytes.len()]);
        Ok(())
    }

    /// Overwrites bytes of a payload, from an offset on. Its other bytes are unchanged, and so is everything else.
    ///
    /// Returns `UnknownAddress` exactly if no payload is live at the address, else `OutOfRange` exactly if the bytes go past the usable
    /// ones. Then nothing changes.
    ///
    /// Takes time proportional to the number of bytes: at most 3 word accesses, whatever the pools contain.
    pub fn write(&mut self, addr: Addr, offset: usize, bytes: &[u8]) -> Result<(), CheckedError>
        ensures step { OnOk result (Steps FLLEN SLLEN self.old.heap self.new.heap (Fills self.old.heap.state (at addr)
            (written_over self.old.heap.state (at addr) offset bytes.now))) }
        ensures result { OnOk result (bytes_at self.new.heap.state (at addr) ≡ written_over self.old.heap.state (at addr) offset bytes.now) }
        ensures bounds { KeepsAllBounds SLLEN self.old.heap.state self.new.heap.state }
        ensures blocks { live_bytes self.new.heap.state ≡ live_bytes self.old.heap.state }
        ensures refused { RefusesUntouched self.old self.new (result ≡ if_in_range (align_at self.old.heap.state (at addr))
            (fits offset (length bytes.now) (bytes_at self.old.heap.state (at addr)))) result }
        ensures frame { KeepsCheckedFrameInPlace (at addr) self.old self.new }
        ensures touches { self.new.heap.memory.touches ≤ self.old.heap.memory.touches + 3 }
    {
        let Some(_) = self.alignment(addr) else {
            return Err(CheckedError::UnknownAddress);
        };
        if !reaches(offset, bytes.len(), self.heap.allocation_usable_size(addr)) {
            return Err(CheckedError::OutOfRange);
        }
        write_at(self.heap.payload_mut(addr), offset, bytes);
        Ok(())
    }
}

/// Returns whether a range lies in a memory.
pub(crate) fn lies_in(memory: &Memory, range: Range) -> bool
    ensures { result ≡ is_within (range_of memory.now) range }
{
    range.lies_in(Range {
        start: memory.start(),
        len: memory.len(),
    })
}

/// Returns whether an address is the end of a range that isn't empty.
fn is_next(start: usize, len: usize, addr: usize) -> bool
    requires { start + len < 2 ^ 64 }
    ensures { result ≡ is_next (range_at start len) addr }
{
    0 < len && addr == start + len
}

/// Returns whether `len` bytes from an offset on are among the first `usable`.
fn reaches(offset: usize, len: usize, usable: usize) -> bool
    ensures { result ≡ nat_le (offset + len) usable }
{
    offset <= usable && len <= usable - offset
}
