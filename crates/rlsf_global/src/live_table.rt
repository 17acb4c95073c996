//! The table of live payloads.

ghost use Rattle.std.specs.Prelude.{◌≡◌, ◌<◌, ◌≤◌, ◌+◌, ◌^◌, [], length, is_some, None, OnErr, OnOk, IsSome};
ghost use Rattle.rlsf_base.specs.Addr.{at};
ghost use Rattle.rlsf_codes.specs.Codes.{HasCode, codes_for};
ghost use Rattle.rlsf_global.specs.LiveRows.{AreAddresses, AreCoded, HasCodes, code_in, code_of, looked};
ghost use Rattle.rlsf_model_global.specs.Rows.{IsSorted, key, put, row_at, without_row};

mod entries;

use crate::live_table::entries::GhostEntries;
use rlsf_base::memory::{Addr, Layout};
use rlsf_codes::Codes;
use std::alloc::{AllocError, Global};
use std::marker::Model;

/// A table of live payloads: addresses, each with its last layout. Contracts see the entries in the order of their addresses.
///
/// Each multiple of 16 in the memory has a code of two bytes. It is 0 where no payload begins, and else it has the alignment and the last
/// bits of the size. A payload has less than 32 bytes more than were requested, so its length in the memory determines the other bits.
///
/// A call reads or writes the code of one address, or those of two, however many payloads are live. The codes count them (`looks`), but for
/// `has_row`. Where the source provided memory, a call also stores zeros as the codes of that, which aren't counted.
#[derive(Drop)]
pub(crate) struct LiveTable {
    codes: Codes<u16>,
    // How many payloads are live.
    live: usize,
    // The entries, as ghost data.
    entries: GhostEntries,
}

impl Model for LiveTable {
    ghost use Rattle.rlsf_global.specs.LiveRows.{IsLiveTable, LiveRows, live_rows};

    ghost Value = { LiveRows };

    ghost view = { λ t. live_rows t.entries.rows t.codes };

    ghost invariant = { λ t. IsLiveTable t.codes t.entries.rows t.live };
}

impl LiveTable {
    /// Creates a table without entries, for the addresses of a memory of `len` bytes from `start` on. It requests no memory.
    pub(crate) fn new(alloc: Global, start: usize, len: usize) -> LiveTable
        ensures rows { result.rows ≡ [] }
        ensures space { result.space ≡ codes_for start len 0 }
        ensures looks { result.looks ≡ 0 }
    {
        LiveTable {
            codes: Codes::new(alloc, start, len, 0),
            live: 0,
            entries: GhostEntries::new(),
        }
    }

    /// Returns how many entries there are.
    pub(crate) fn len(&self) -> usize
        ensures len { result ≡ length self.now.rows }
        ensures few { result < 2 ^ 62 }
    {
        self.live
    }

    /// Reserves room for all codes, and writes none of them. If there is room, the system is asked nothing.
    pub(crate) fn reserve(&mut self) -> Result<(), AllocError>
        ensures rows { self.new.rows ≡ self.old.rows }
        ensures room { OnOk result (HasCodes self.new) }
        ensures refused { OnErr result (HasCodes self.old → ⊥) }
        ensures space { self.new.space ≡ self.old.space }
        ensures looks { self.new.looks ≡ self.old.looks }
    {
        self.codes.reserve()
    }

    /// Returns whether an address has an entry, and counts no code.
    pub(crate) fn has_row(&self, addr: Addr) -> bool
        ensures { result ≡ is_some (row_at (at addr) self.now.rows) }
    {
        self.codes.get(addr.get()) != 0
    }

    /// Returns the code of an address: 0 if it has no entry.
    pub(crate) fn look(&mut self, addr: Addr) -> u16
        ensures code { result ≡ code_in (row_at (at addr) self.old.rows) }
        ensures table { self.new ≡ looked self.old }
    {
        self.codes.look(addr.get())
    }

    /// Inserts an entry. There is room for all codes, and its address has none. All codes of addresses before `end` are then stored.
    pub(crate) fn put(&mut self, row: (Addr, Layout), end: usize)
        requires room { HasCodes self.old }
        requires fresh { row_at (key row) self.old.rows ≡ None }
        requires place { HasCode self.old.space (key row) }
        ensures rows { self.new.rows ≡ put row self.old.rows }
        ensures room { HasCodes self.new }
        ensures space { self.new.space ≡ self.old.space }
        ensures looks { self.new.looks ≡ self.old.looks + 1 }
    {
        let places = self.codes.before(row.0.get()) + 1;
        self.codes.cover(places.max(self.codes.before(end)));
        self.codes.set(row.0.get(), code_of(row.1));
        self.live += 1;
        self.entries.put(row);
    }

    /// Removes the entry of an address, which has one.
    pub(crate) fn remove(&mut self, addr: Addr)
        requires live { IsSome (row_at (at addr) self.old.rows) }
        ensures rows { self.new.rows ≡ without_row (at addr) self.old.rows }
        ensures room { HasCodes self.new }
        ensures space { self.new.space ≡ self.old.space }
        ensures looks { self.new.looks ≡ self.old.looks + 1 }
    {
        self.codes.set(addr.get(), 0);
        self.live -= 1;
        self.entries.remove(addr);
    }

    /// Replaces the entry of an address by one with the same address. All codes of addresses before `end` are then stored.
    pub(crate) fn replace(&mut self, row: (Addr, Layout), end: usize)
        requires live { IsSome (row_at (key row) self.old.rows) }
        ensures rows { self.new.rows ≡ put row (without_row (key row) self.old.rows) }
        ensures room { HasCodes self.new }
        ensures space { self.new.space ≡ self.old.space }
        ensures looks { self.new.looks ≡ self.old.looks + 1 }
    {
        self.codes.cover(self.codes.before(end));
        self.codes.set(row.0.get(), code_of(row.1));
        self.entries.remove(row.0);
        self.entries.put(row);
    }

    /// Replaces the entry of an address by one that may have another address. No other entry has that. All codes of addresses before `end`
    /// are then stored.
    pub(crate) fn move_row(&mut self, addr: Addr, row: (Addr, Layout), end: usize)
        requires live { IsSome (row_at (at addr) self.old.rows) }
        requires fresh { row_at (key row) (without_row (at addr) self.old.rows) ≡ None }
        requires place { HasCode self.old.space (key row) }
        ensures rows { self.new.rows ≡ put row (without_row (at addr) self.old.rows) }
        ensures room { HasCodes self.new }
        ensures space { self.new.space ≡ self.old.space }
        ensures looks { self.new.looks ≤ self.old.looks + 2 }
    {
        if row.0.get() == addr.get() {
            self.replace(row, end);
        } else {
            self.remove(addr);
            self.put(row, end);
        }
    }

    /// Takes the table apart. Returns its codes.
    pub(crate) fn into_codes(self) -> Codes<u16>
        ensures codes { AreCoded result self.rows }
        ensures sorted { IsSorted self.rows }
        ensures addresses { AreAddresses self.rows }
    {
        let LiveTable {
            codes,
            live: _,
            entries: _,
        } = self;
        codes
    }
}

/// Returns the code of a layout.
fn code_of(layout: Layout) -> u16
    ensures { result ≡ code_of layout }
{
    (1 + layout.size() % 32) as u16 + 32 * layout.align().ilog2() as u16
}
