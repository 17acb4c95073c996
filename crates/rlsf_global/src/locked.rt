//! The value behind the lock: an allocator over pages, and the table of its live addresses.

ghost use Rattle.std.specs.Prelude.{◌≡◌, ◌↔◌, ◌+◌, ◌≤◌, ◌<◌, ◌^◌, [], length, nat_le, IfOk, IfSome, IsErrOf, IsNone, None, OnErr, OnOk, drop, take};
ghost use Rattle.std.specs.List.{splice};
ghost use Rattle.std.specs.Vec.{vec_capacity};
ghost use Rattle.rlsf_base.specs.Addr.{at};
ghost use Rattle.rlsf_base.specs.Layout.{IsLayout};
ghost use Rattle.rlsf_base.specs.Space.{range_of};
ghost use Rattle.rlsf_global.specs.Memory.{BoundsOnResize, IfUnasked};
ghost use Rattle.rlsf_global.specs.Results.{HeapAllocated, HeapDeallocated, HeapMoved, HeapReallocated, HeapResized, HeapWritten};
ghost use Rattle.rlsf_global.specs.Results.{IsLockedUnchanged, IsLockedUntouched};
ghost use Rattle.rlsf_global.specs.Results.{KeepsLocked, KeepsLockedMoving, KeepsLockedResizing, KeepsLockedWriting, ReservesCodes};
ghost use Rattle.rlsf_model.specs.Allocate.{HasRoomFor};
ghost use Rattle.rlsf_model_global.specs.declared.error.GlobalError.TheVariants.{UnknownAddress};
ghost use Rattle.rlsf_model_global.specs.Heap.{beginning, content_at, layout_at};
ghost use Rattle.rlsf_model_global.specs.Moves.{HeapReallocates, HeapReallocatesAs, HeapReallocatesThere};
ghost use Rattle.rlsf_model_global.specs.Rows.{IsSorted};
ghost use Rattle.rlsf_model_global.specs.Steps.{HeapAllocates, HeapDeallocates, HeapDeallocatesAs, HeapReads, HeapUsable, HeapWrites};

use crate::live_table::LiveTable;
use crate::moves::{PagedTlsf, move_away, resize};
use crate::release::release;
use crate::rows::{row_of, rows_of};
use rlsf_base::memory::{Addr, Layout, Memory, Range};
use rlsf_flex::{FlexTlsf, GlobalTlsfOptions, Source};
use rlsf_model_global::GlobalError;
use std::alloc::Global;
use std::marker::Model;

/// The value behind the lock: an allocator over the page source, and the table of its live addresses. An entry of the table is a live
/// address and its last layout. By an invariant of the type, the table lists exactly the live payloads, in the order of their addresses. It
/// has a code of two bytes for each multiple of 16 in the memory. The documentation of a call says how many codes it reads or writes at most.
///
/// Every call leaves the memory at its place. It leaves each byte as it is that belongs to no block before and after it, or that the
/// source hasn't provided after it (`KeepsMemory`). An error other than `NoRoom` leaves the memory unchanged, with both counts: nothing was tried.
#[derive(Drop)]
pub struct Locked<Options: GlobalTlsfOptions> {
    flex: PagedTlsf<Options>,
    rows: LiveTable,
}

impl<Options: GlobalTlsfOptions> Model for Locked<Options> {
    ghost use Rattle.rlsf_global.specs.Locked.{IsListed, LockedContents, locked_contents};

    ghost Value = { LockedContents };

    ghost view = { λ l. locked_contents l.flex l.rows };

    ghost invariant = { λ l. IsListed l.flex l.rows };
}

impl<Options: GlobalTlsfOptions> Locked<Options> {
    ghost use Rattle.rlsf_global.specs.Locked.{LockedStands};

    /// Creates an allocator whose source has the complete memory as its space. Nothing is live.
    ///
    /// The system is asked nothing: the first allocation asks it for the codes of the table.
    ///
    /// Completes in constant time.
    pub fn new(alloc: Global, memory: Memory) -> Self
        ensures heap { result.heap ≡ beginning (range_of memory) Options.COALESCE_POOLS }
        ensures memory { result.memory ≡ memory }
        ensures stands { LockedStands result }
    {
        let space = Range {
            start: memory.start(),
            len: memory.len(),
        };
        Locked {
            flex: FlexTlsf::new(memory, Source::new(space)),
            rows: LiveTable::new(alloc, space.start, space.len),
        }
    }

    /// Returns the memory, for reading.
    ///
    /// Completes in constant time.
    pub fn memory_ref(&self) -> &Memory
        ensures memory { result.now ≡ self.now.memory }
        ensures stands { LockedStands self.now }
    {
        self.flex.memory_ref()
    }

    /// Allocates a payload for a layout. Returns its address.
    ///
    /// Refuses, and changes nothing:
    ///
    /// - `TableMemory` if the system is out of memory for the codes of the table, and only if they have no room yet. Then nothing else was
    ///   tried.
    /// - else `NoRoom` exactly if there is no room and no memory came.
    ///
    /// If there is room, at most 27 word accesses, whatever the pools contain, and two codes of the table. No byte is copied. The first
    /// call asks the system for an eighth of the memory's length, for the codes, of which nothing is written. Once it was granted, no call
    /// asks the system (`table`, `frame`). Where the source provides memory, the codes of that are written.
    pub fn allocate(&mut self, layout: Layout) -> Result<Addr, GlobalError>
        ensures step { HeapAllocates self.old.heap layout result self.new.heap }
        ensures result { IfOk result (λ addr. HeapAllocated self.old.heap self.new.heap layout (at addr)) }
        ensures refused { OnErr result (IsLockedUnchanged self.old self.new) }
        ensures unasked { IfUnasked result (self.new.memory ≡ self.old.memory) }
        ensures frame { KeepsLocked self.old self.new }
        ensures touches { HasRoomFor 64 self.old.heap.flex.machine layout.size layout.align → self.new.memory.touches ≤ self.old.memory.touches + 27 }
        ensures table { ReservesCodes result self.old.live self.new.live }
    {
        if self.rows.reserve().is_err() {
            return Err(GlobalError::TableMemory);
        }
        let Some(addr) = self.flex.allocate(layout) else {
            return Err(GlobalError::NoRoom);
        };
        let end = self.flex.source_ref().end();
        self.rows.put((addr, layout), end);
        Ok(addr)
    }

    /// Allocates a payload for a layout, which becomes its last layout. Returns its address.
    ///
    /// Refuses, and changes nothing:
    ///
    /// - `TableMemory` if the system is out of memory for the codes of the table, and only if they have no room yet. Then nothing else was
    ///   tried.
    /// - else `NoRoom` exactly if there is no room and no memory came.
    ///
    /// Costs as much as `allocate`.
    pub fn alloc(&mut self, layout: Layout) -> Result<Addr, GlobalError>
        ensures step { HeapAllocates self.old.heap layout result self.new.heap }
        ensures result { IfOk result (λ addr. HeapAllocated self.old.heap self.new.heap layout (at addr)) }
        ensures refused { OnErr result (IsLockedUnchanged self.old self.new) }
        ensures unasked { IfUnasked result (self.new.memory ≡ self.old.memory) }
        ensures frame { KeepsLocked self.old self.new }
        ensures touches { HasRoomFor 64 self.old.heap.flex.machine layout.size layout.align → self.new.memory.touches ≤ self.old.memory.touches + 27 }
        ensures table { ReservesCodes result self.old.live self.new.live }
    {
        self.allocate(layout)
    }

    /// Deallocates a payload. Returns `UnknownAddress` exactly if the address isn't live. Then nothing changes.
    ///
    /// An address that was deallocated and allocated again is live, so a call with it can't be refused.
    ///
    /// Completes in constant time: at most 32 word accesses, whatever the pools contain, and two codes of the table. No byte is
    /// copied. The system is asked nothing.
    pub fn deallocate(&mut self, addr: Addr) -> Result<(), GlobalError>
        ensures step { HeapDeallocates self.old.heap (at addr) result self.new.heap }
        ensures result { OnOk result (HeapDeallocated self.old.heap self.new.heap (at addr)) }
        ensures unknown { IsErrOf result UnknownAddress ↔ (layout_at self.old.heap (at addr) ≡ None) }
        ensures refused { OnErr result (IsLockedUntouched self.old self.new) }
        ensures frame { KeepsLocked self.old self.new }
        ensures touches { self.new.memory.touches ≤ self.old.memory.touches + 32 }
    {
        let Some(row) = row_of(&self.flex, &mut self.rows, addr) else {
            // Only a live address has an entry, so nothing is deallocated twice.
            return Err(GlobalError::UnknownAddress);
        };
        release(&mut self.flex, &mut self.rows, addr, row);
        Ok(())
    }

    /// Deallocates a payload whose last layout is `layout`.
    ///
    /// Refuses, and changes nothing:
    ///
    /// - `UnknownAddress` exactly if the address isn't live.
    /// - else `WrongLayout` exactly if `layout` isn't the last layout of the payload.
    ///
    /// An address that was deallocated and allocated again with the same layout is live, so a call with it can't be refused.
    ///
    /// Costs as much as `deallocate`.
    pub fn dealloc(&mut self, addr: Addr, layout: Layout) -> Result<(), GlobalError>
        ensures step { HeapDeallocatesAs self.old.heap (at addr) layout result self.new.heap }
        ensures result { OnOk result (HeapDeallocated self.old.heap self.new.heap (at addr)) }
        ensures unknown { IsErrOf result UnknownAddress ↔ (layout_at self.old.heap (at addr) ≡ None) }
        ensures refused { OnErr result (IsLockedUntouched self.old self.new) }
        ensures frame { KeepsLocked self.old self.new }
        ensures touches { self.new.memory.touches ≤ self.old.memory.touches + 32 }
    {
        let Some(row) = row_of(&self.flex, &mut self.rows, addr) else {
            // Refused before the layout is compared: an address without an entry has none.
            return Err(GlobalError::UnknownAddress);
        };
        if row.1 != layout {
            return Err(GlobalError::WrongLayout);
        }
        release(&mut self.flex, &mut self.rows, addr, row);
        Ok(())
    }

    /// Changes the size of a payload whose last layout is `layout`, and keeps its alignment. Returns its address. The first bytes, as many
    /// as both sizes have, are kept.
    ///
    /// With `ENABLE_REALLOCATION`, the allocator reallocates the payload, which doesn't move if that is possible. Without it, the payload
    /// moves into a new one, which is allocated while the old one is still live.
    ///
    /// Refuses, and changes nothing:
    ///
    /// - `UnknownAddress` exactly if the address isn't live.
    /// - else `WrongLayout` exactly if `layout` isn't the last layout of the payload.
    /// - else `NoRoom` exactly if there is no room and no memory came.
    ///
    /// The table needs no memory.
    ///
    /// `new_size` is the size of a layout with that alignment.
    ///
    /// If there is room, at most 66 word accesses with `ENABLE_REALLOCATION`, and 59 without it, whatever the pools contain. At most three
    /// codes of the table. With `ENABLE_REALLOCATION` at most the bytes that the payload had are copied, and none if it has room to stay.
    /// Without it, at most as many as both sizes have.
    pub fn realloc(
        &mut self,
        addr: Addr,
        layout: Layout,
        new_size: usize,
    ) -> Result<Addr, GlobalError>
        requires { IsLayout new_size layout.align }
        ensures step { HeapReallocatesAs Options.ENABLE_REALLOCATION self.old.heap (at addr) layout new_size result self.new.heap }
        ensures result { IfOk result (λ to. HeapReallocated Options.ENABLE_REALLOCATION self.old.heap self.new.heap (at addr) layout new_size (at to)) }
        ensures unknown { IsErrOf result UnknownAddress ↔ (layout_at self.old.heap (at addr) ≡ None) }
        ensures refused { OnErr result (IsLockedUnchanged self.old self.new) }
        ensures unasked { IfUnasked result (self.new.memory ≡ self.old.memory) }
        ensures frame { KeepsLockedResizing Options.ENABLE_REALLOCATION (at addr) layout.size new_size self.old self.new }
        ensures touches { BoundsOnResize Options.ENABLE_REALLOCATION self.old.heap.flex.machine (at addr) new_size layout.align self.old.memory self.new.memory }
    {
        let Some(row) = row_of(&self.flex, &mut self.rows, addr) else {
            return Err(GlobalError::UnknownAddress);
        };
        if row.1 != layout {
            return Err(GlobalError::WrongLayout);
        }
        let wanted = Layout::from_size_align_unchecked(new_size, layout.align());
        let Some(moved) = resize(&mut self.flex, addr, layout, wanted) else {
            return Err(GlobalError::NoRoom);
        };
        let end = self.flex.source_ref().end();
        self.rows.move_row(addr, (moved, wanted), end);
        Ok(moved)
    }

    /// Moves a payload into a new one, which is allocated for another layout while the old one is still live. Returns its address. As many
    /// of its first bytes as both have are kept. The alignment may be another.
    ///
    /// Refuses, and changes nothing:
    ///
    /// - `UnknownAddress` exactly if the address isn't live.
    /// - else `NoRoom` exactly if there is no room and no memory came.
    ///
    /// The table needs no memory.
    ///
    /// If there is room, at most 59 word accesses, whatever the pools contain, and three codes of the table. The kept bytes are copied.
    pub fn reallocate(&mut self, addr: Addr, layout: Layout) -> Result<Addr, GlobalError>
        ensures step { HeapReallocates self.old.heap (at addr) layout result self.new.heap }
        ensures result { IfOk result (λ to. HeapMoved self.old.heap self.new.heap (at addr) layout (at to)) }
        ensures unknown { IsErrOf result UnknownAddress ↔ (layout_at self.old.heap (at addr) ≡ None) }
        ensures refused { OnErr result (IsLockedUnchanged self.old self.new) }
        ensures unasked { IfUnasked result (self.new.memory ≡ self.old.memory) }
        ensures frame { KeepsLockedMoving (at addr) layout.size result self.old self.new }
        ensures touches { HasRoomFor 64 self.old.heap.flex.machine layout.size layout.align → self.new.memory.touches ≤ self.old.memory.touches + 59 }
    {
        let Some(row) = row_of(&self.flex, &mut self.rows, addr) else {
            return Err(GlobalError::UnknownAddress);
        };
        let align = row.1.align();
        let keep = layout.size().min(self.flex.allocation_usable_size(addr));
        let Some(to) = move_away(&mut self.flex, addr, align, keep, layout) else {
            return Err(GlobalError::NoRoom);
        };
        let end = self.flex.source_ref().end();
        self.rows.move_row(addr, (to, layout), end);
        Ok(to)
    }

    /// Changes the size of a payload whose last layout is `layout` without moving it, and keeps its alignment. Returns its address. The
    /// first bytes, as many as both sizes have, are kept.
    ///
    /// Refuses, and changes nothing:
    ///
    /// - `UnknownAddress` exactly if the address isn't live.
    /// - else `WrongLayout` exactly if `layout` isn't the last layout of the payload.
    /// - else `NoRoom` exactly if the bytes there don't suffice.
    ///
    /// `new_size` is the size of a layout with that alignment.
    ///
    /// Completes in constant time: at most 25 word accesses, whatever the pools contain, and two codes of the table. No byte is
    /// copied. The system is asked nothing.
    pub fn reallocate_no_move(
        &mut self,
        addr: Addr,
        layout: Layout,
        new_size: usize,
    ) -> Result<Addr, GlobalError>
        requires { IsLayout new_size layout.align }
        ensures step { HeapReallocatesThere self.old.heap (at addr) layout new_size result self.new.heap }
        ensures result { IfOk result (λ to. HeapResized self.old.heap self.new.heap (at addr) layout new_size (at to)) }
        ensures unknown { IsErrOf result UnknownAddress ↔ (layout_at self.old.heap (at addr) ≡ None) }
        ensures refused { OnErr result (IsLockedUnchanged self.old self.new) }
        ensures unasked { IfUnasked result (self.new.memory ≡ self.old.memory) }
        ensures frame { KeepsLocked self.old self.new }
        ensures touches { self.new.memory.touches ≤ self.old.memory.touches + 25 }
    {
        let Some(row) = row_of(&self.flex, &mut self.rows, addr) else {
            return Err(GlobalError::UnknownAddress);
        };
        if row.1 != layout {
            return Err(GlobalError::WrongLayout);
        }
        let wanted = Layout::from_size_align_unchecked(new_size, layout.align());
        let Some(to) = self.flex.reallocate_no_move(addr, wanted) else {
            return Err(GlobalError::NoRoom);
        };
        let end = self.flex.source_ref().end();
        self.rows.replace((to, wanted), end);
        Ok(to)
    }

    /// Returns the number of usable bytes of a payload: those requested, and less than 32 more.
    ///
    /// Returns `UnknownAddress` exactly if the address isn't live.
    ///
    /// Completes in constant time: one code of the table is read. Its word accesses are not counted.
    pub fn allocation_usable_size(&self, addr: Addr) -> Result<usize, GlobalError>
        ensures step { HeapUsable self.now.heap (at addr) result }
        ensures unknown { IsErrOf result UnknownAddress ↔ (layout_at self.now.heap (at addr) ≡ None) }
        ensures len { IfOk result (λ n. n ≡ length (content_at self.now.heap (at addr))) }
    {
        if !self.rows.has_row(addr) {
            return Err(GlobalError::UnknownAddress);
        }
        Ok(self.flex.allocation_usable_size(addr))
    }

    /// Reads `bytes.len()` bytes of a payload into `bytes`, from an offset on.
    ///
    /// Returns `UnknownAddress` exactly if the address isn't live, else `OutOfRange` exactly if the bytes go past the usable ones. Then
    /// `bytes` is unchanged.
    ///
    /// Takes time proportional to `bytes.len()`. One code of the table is read. Its word accesses are not counted.
    pub fn read_payload(
        &self,
        addr: Addr,
        offset: usize,
        bytes: &mut [u8],
    ) -> Result<(), GlobalError>
        ensures step { HeapReads self.now.heap (at addr) offset bytes.old result bytes.new }
        ensures unknown { IsErrOf result UnknownAddress ↔ (layout_at self.now.heap (at addr) ≡ None) }
        ensures told { OnOk result (bytes.new ≡ take (length bytes.old) (drop offset (content_at self.now.heap (at addr)))) }
        ensures refused { OnErr result (bytes.new ≡ bytes.old) }
    {
        if !self.rows.has_row(addr) {
            return Err(GlobalError::UnknownAddress);
        }
        let payload = self.flex.payload(addr);
        if !fits(offset, bytes.len(), payload.len()) {
            return Err(GlobalError::OutOfRange);
        }
        bytes.copy_from_slice(&payload[offset..offset + bytes.len()]);
        Ok(())
    }

    /// Overwrites bytes of a payload, from an offset on. Its other bytes are unchanged, and so is everything else.
    ///
    /// Returns `UnknownAddress` exactly if the address isn't live, else `OutOfRange` exactly if the bytes go past the usable ones. Then
    /// nothing changes.
    ///
    /// Takes time proportional to `bytes.len()`: at most 3 word accesses, and one code of the table.
    pub fn write_payload(
        &mut self,
        addr: Addr,
        offset: usize,
        bytes: &[u8],
    ) -> Result<(), GlobalError>
        ensures step { HeapWrites self.old.heap (at addr) offset bytes.now result self.new.heap }
        ensures result { OnOk result (HeapWritten self.old.heap self.new.heap (at addr) offset bytes.now) }
        ensures unknown { IsErrOf result UnknownAddress ↔ (layout_at self.old.heap (at addr) ≡ None) }
        ensures refused { OnErr result (IsLockedUntouched self.old self.new) }
        ensures frame { KeepsLockedWriting self.old self.new }
        ensures touches { self.new.memory.touches ≤ self.old.memory.touches + 3 }
    {
        let Some(_row) = row_of(&self.flex, &mut self.rows, addr) else {
            return Err(GlobalError::UnknownAddress);
        };
        if !fits(offset, bytes.len(), self.flex.allocation_usable_size(addr)) {
            return Err(GlobalError::OutOfRange);
        }
        write_at(self.flex.payload_mut(addr), offset, bytes);
        Ok(())
    }
}

impl<Options: GlobalTlsfOptions> Locked<Options> {
    /// Returns the number of live payloads.
    ///
    /// Completes in constant time.
    pub fn live(&self) -> usize
        ensures live { result ≡ length self.now.heap.asked }
        ensures few { result < 2 ^ 62 }
    {
        self.rows.len()
    }

    /// Returns the live addresses with their last layouts, in the order of the addresses. They replace the elements of `rows`.
    ///
    /// Returns `None` exactly if the capacity of `rows` is less than `live` returns.
    ///
    /// The memory is dropped. The system is asked nothing. Takes time proportional to the memory's length.
    pub fn into_rows(self, mut rows: Vec<(Addr, Layout)>) -> Option<Vec<(Addr, Layout)>>
        ensures rows { IfSome result (λ listed. listed.items ≡ self.heap.asked) }
        ensures sorted { IfSome result (λ listed. IsSorted listed.items) }
        ensures short { IsNone result ↔ (vec_capacity rows < length self.heap.asked) }
    {
        if rows.capacity() < self.live() {
            return None;
        }
        rows.clear();
        Some(self.listed_in(rows))
    }

    /// Returns the live addresses with their last layouts, in the order of the addresses, in an empty `Vec` with room for all.
    pub(crate) fn listed_in(self, rows: Vec<(Addr, Layout)>) -> Vec<(Addr, Layout)>
        requires none { rows.items ≡ [] }
        requires room { length self.heap.asked ≤ vec_capacity rows }
        ensures rows { result.items ≡ self.heap.asked }
        ensures sorted { IsSorted result.items }
    {
        let Locked { flex, rows: table } = self;
        rows_of(&flex, table, rows)
    }
}

/// Returns whether `len` bytes from an offset on are among the first `usable`.
fn fits(offset: usize, len: usize, usable: usize) -> bool
    ensures { result ≡ nat_le (offset + len) usable }
{
    offset <= usable && len <= usable - offset
}

/// Overwrites bytes of a payload, from an offset on.
fn write_at(payload: &mut [u8], offset: usize, bytes: &[u8])
    requires { offset + length bytes.now ≤ length payload.old }
    ensures bytes { payload.new ≡ splice payload.old offset (offset + length bytes.now) bytes.now }
    ensures len { length payload.new ≡ length payload.old }
{
    payload[offset..offset + bytes.len()].copy_from_slice(bytes);
}
