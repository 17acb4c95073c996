//! The entries of a table of live payloads, as ghost data: they take no bytes and no time.

ghost use Rattle.std.specs.Prelude.{◌≡◌, ℕ, List, []};
ghost use Rattle.std.specs.Borrow.{ftrue};
ghost use Rattle.rlsf_base.specs.Addr.{at};
ghost use Rattle.rlsf_model_global.specs.Rows.{Row, put, without_row};

use rlsf_base::memory::{Addr, Layout};
use std::marker::{Model, Send, Sync};

/// The entries in the order of their addresses.
#[derive(Drop)]
pub(crate) struct GhostEntries {
    pub(crate) ghost rows: { List Row },
}

const _: () = prove!(size_of::<GhostEntries>() == 0);

impl Model for GhostEntries {
    ghost also_owns = { λ _. ftrue };
}

unsafe impl Send for GhostEntries {}

unsafe impl Sync for GhostEntries {}

impl GhostEntries {
    /// Returns no entries.
    pub(crate) fn new() -> GhostEntries
        ensures { result.rows ≡ [] }
    {
        GhostEntries {}
    }

    /// Replaces the entries by others, which the entries before and three numbers determine.
    fn advance(&mut self, x: usize, y: usize, z: usize)
        ghost to: { ℕ → ℕ → ℕ → List Row → List Row }
        ensures { self.new.rows ≡ to x y z self.old.rows }
    {}

    /// Inserts an entry. It takes the place of one with its address.
    pub(crate) fn put(&mut self, row: (Addr, Layout))
        ensures { self.new.rows ≡ put row self.old.rows }
    {
        self.advance(row.0.get(), row.1.size, row.1.align);
    }

    /// Removes the entry of an address, if it has one.
    pub(crate) fn remove(&mut self, addr: Addr)
        ensures { self.new.rows ≡ without_row (at addr) self.old.rows }
    {
        self.advance(addr.get(), 0, 0);
    }
}
