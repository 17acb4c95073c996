//! Handles, and the place of the bytes of each.

ghost use Rattle.std.specs.Prelude.{◌≡◌, ◌+◌, length, [], ◌∷◌, ◌++◌, None, IfOk, IfNone, OnErr, nat_eq};
ghost use Rattle.std.specs.Map.{lookup, remove_entry, set_value};

use rlsf::Addr;
use std::alloc::{AllocError, Global};
use std::collections::BTreeMap;
use std::marker::Model;

/// The place of a list of bytes: the address of its payload, and its length.
#[derive(Clone, Copy)]
pub(crate) struct Spot {
    pub(crate) addr: Addr,
    pub(crate) len: usize,
}

/// Handles with their spots. Handles count up from 0, and a removed handle is never used again.
#[derive(Drop)]
pub(crate) struct Handles {
    rows: BTreeMap<usize, Spot>,
    next: usize,
}

impl Model for Handles {
    ghost use Rattle.rlsf_example_libraries.specs.Handled.{HandleRows, AreBelow};

    ghost Value = { HandleRows };

    ghost view = { λ h. record { rows = h.rows.entries; next = h.next } };

    ghost invariant = { λ h. AreBelow h.rows.entries h.next };
}

impl Handles {
    /// Creates a list without a handle.
    pub(crate) fn new(alloc: Global) -> Handles
        ensures rows { result.rows ≡ [] }
        ensures next { result.next ≡ 0 }
    {
        Handles {
            rows: BTreeMap::new(alloc),
            next: 0,
        }
    }

    /// Returns the number of handles.
    pub(crate) fn len(&self) -> usize
        ensures { result ≡ length self.now.rows }
    {
        self.rows.len()
    }

    /// Adds a new handle with its spot, and returns the handle.
    ///
    /// Returns an error if the system is out of memory, or if every number was a handle already; then nothing changes.
    pub(crate) fn add(&mut self, spot: Spot) -> Result<usize, AllocError>
        ensures added { IfOk result (λ handle. self.new.rows ≡ self.old.rows ++ (handle, spot) ∷ []) }
        ensures new { IfOk result (λ handle. lookup (nat_eq handle) self.old.rows ≡ None) }
        ensures counts { IfOk result (λ handle. (handle ≡ self.old.next) × (self.new.next ≡ self.old.next + 1)) }
        ensures refused { OnErr result (self.new ≡ self.old) }
    {
        let handle = self.next;
        let next = handle.checked_add(1).ok_or(AllocError)?;
        self.rows.insert(handle, spot)?;
        self.next = next;
        Ok(handle)
    }

    /// Returns the spot of a handle, or `None` if there is no such handle.
    pub(crate) fn get(&self, handle: usize) -> Option<Spot>
        ensures { result ≡ lookup (nat_eq handle) self.now.rows }
    {
        self.rows.get(&handle).copied()
    }

    /// Changes the spot of a handle. Does nothing if there is no such handle.
    pub(crate) fn set(&mut self, handle: usize, spot: Spot)
        ensures rows { self.new.rows ≡ set_value (nat_eq handle) self.old.rows spot }
        ensures next { self.new.next ≡ self.old.next }
    {
        if let Some(old) = self.rows.get_mut(&handle) {
            *old = spot;
        }
    }

    /// Removes a handle, and returns its spot. Returns `None` if there is no such handle; then nothing changes.
    pub(crate) fn remove(&mut self, handle: usize) -> Option<Spot>
        ensures spot { result ≡ lookup (nat_eq handle) self.old.rows }
        ensures rows { self.new.rows ≡ remove_entry (nat_eq handle) self.old.rows }
        ensures gone { lookup (nat_eq handle) self.new.rows ≡ None }
        ensures next { self.new.next ≡ self.old.next }
        ensures absent { IfNone result (self.new ≡ self.old) }
    {
        self.rows.remove(&handle)
    }
}
