//! Strings as an interpreter has them: handles to lists of bytes that grow.

ghost use Rattle.std.specs.Prelude.{◌≡◌, ◌+◌, ◌↔◌, ℕ, [], ◌++◌, None, Some, IfOk, OnOk, OnErr, IsErr, IsErrOf, IsSomeAnd, length, nat_eq};
ghost use Rattle.std.specs.Map.{lookup, remove_entry, set_value};
ghost use Rattle.rlsf_base.specs.Space.{range_of};
ghost use Rattle.std.specs.Map.Iter.{GivesInOrder};
ghost use Rattle.rlsf_blocks.specs.Blocks.{IsInOrder};
ghost use Rattle.rlsf_example_libraries.specs.Budgets.{AreFewStrings};
ghost use Rattle.rlsf_example_libraries.specs.Stored.{FitsPool, used_count};
ghost use Rattle.rlsf_example_libraries.specs.Strings.{IsShort, IsShortWith, joined_of, with_string};
ghost use Rattle.rlsf_example_libraries.specs.declared.strings.StringError.TheVariants as string_error;

use crate::items::Items;
use crate::objects::UnknownHandle;
use rlsf::{BlockInfo, Blocks, Memory};
use std::alloc::{AllocError, Global};
use std::marker::Model;

/// Why no string was created, or none grew.
#[derive(Clone, Copy, Debug, PartialEq, Eq)]
pub enum StringError {
    /// There is no string with that handle.
    UnknownHandle,
    /// The memory of the strings has no room for the bytes.
    NoRoom,
    /// The system has no memory for the table of handles or for a copy, or every number was a handle already.
    OutOfMemory,
}

impl From<AllocError> for StringError {
    ghost from_gives = { λ _ e. e ≡ string_error.OutOfMemory };

    fn from(_error: AllocError) -> StringError {
        StringError::OutOfMemory
    }
}

impl From<UnknownHandle> for StringError {
    ghost from_gives = { λ _ e. e ≡ string_error.UnknownHandle };

    fn from(_error: UnknownHandle) -> StringError {
        StringError::UnknownHandle
    }
}

/// Strings by handle, in a memory of their own.
///
/// Handles count up from 0, and the handle of a string that was dropped is never used again.
#[derive(Drop)]
pub struct Strings {
    items: Items,
    alloc: Global,
}

impl Model for Strings {
    ghost use Rattle.std.specs.Prelude.{◌≡◌};
    ghost use Rattle.rlsf_example_libraries.specs.Strings.{Texts};

    ghost Value = { Texts };

    ghost view = { λ s. record { strings = s.items.lists; next = s.items.next; memory = s.items.memory } };

    ghost invariant = { λ s. s.items.align ≡ 1 };
}

impl Strings {
    /// Creates a pool without a string. All strings are stored in `memory`.
    pub fn new(alloc: Global, memory: Memory) -> Strings
        ensures { result ≡ record { strings = []; next = 0; memory = range_of memory } }
    {
        Strings {
            items: Items::new(alloc, memory, 1),
            alloc,
        }
    }

    /// Returns the number of strings.
    pub fn len(&self) -> usize
        ensures { result ≡ length self.now.strings }
    {
        self.items.len()
    }

    /// Creates an empty string, and returns its new handle.
    ///
    /// Returns `NoRoom` if the memory has no room, or `OutOfMemory` if the system has no memory for the handle; then nothing
    /// changes. There is room if there is no string and the memory is long enough for one, and while the strings are within
    /// bounds for which the memory is long enough (`AreFewStrings`).
    pub fn create(&mut self) -> Result<usize, StringError>
        ensures made { IfOk result (λ handle. (handle ≡ self.old.next)
            × (self.new ≡ with_string self.old handle [])) }
        ensures new { IfOk result (λ handle. lookup (nat_eq handle) self.old.strings ≡ None) }
        ensures known { IsErrOf result string_error.UnknownHandle → ⊥ }
        ensures room { self.old.strings ≡ [] → FitsPool self.old.memory 0 1 → IsErrOf result string_error.NoRoom → ⊥ }
        ensures enough { (count longest : ℕ) → AreFewStrings self.old count longest → IsErrOf result string_error.NoRoom → ⊥ }
        ensures refused { OnErr result (self.new ≡ self.old) }
    {
        self.items.add(&[])
    }

    /// Appends bytes to a string. No other string changes.
    ///
    /// Returns `UnknownHandle` if and only if there is no string with that handle, or `NoRoom` if the memory has no room; then
    /// nothing changes. There is room within the bounds of `AreFewStrings`.
    pub fn append(&mut self, handle: usize, more: &[u8]) -> Result<(), StringError>
        ensures appended { OnOk result (IsSomeAnd (lookup (nat_eq handle) self.old.strings) (λ old.
            self.new ≡ record self.old { strings = set_value (nat_eq handle) self.old.strings (old ++ more.now) })) }
        ensures unknown { IsErrOf result string_error.UnknownHandle ↔ (lookup (nat_eq handle) self.old.strings ≡ None) }
        ensures enough { (count longest : ℕ) → AreFewStrings self.old count longest → IsShortWith self.old handle (length more.now) longest
            → IsErrOf result string_error.NoRoom → ⊥ }
        ensures refused { OnErr result (self.new ≡ self.old) }
    {
        self.items.append(handle, more)
    }

    /// Creates a string of the bytes of `left` and then those of `right`, and returns its new handle. The two don't change.
    ///
    /// Returns `UnknownHandle` if and only if there is no string with one of the two handles. Returns `NoRoom` if the memory has
    /// no room, or `OutOfMemory` if the system has no memory for a copy or the handle. Then nothing changes. There is room within
    /// the bounds of `AreFewStrings`.
    pub fn concat(&mut self, left: usize, right: usize) -> Result<usize, StringError>
        ensures joined { IfOk result (λ handle. (handle ≡ self.old.next)
            × IsSomeAnd (joined_of left right self.old.strings) (λ bytes. self.new ≡ with_string self.old handle bytes)) }
        ensures new { IfOk result (λ handle. lookup (nat_eq handle) self.old.strings ≡ None) }
        ensures unknown { IsErrOf result string_error.UnknownHandle ↔ (joined_of left right self.old.strings ≡ None) }
        ensures enough { (count longest : ℕ) → AreFewStrings self.old count longest → IsShort (joined_of left right self.old.strings) longest
            → IsErrOf result string_error.NoRoom → ⊥ }
        ensures refused { OnErr result (self.new ≡ self.old) }
    {
        let bytes = self.joined(left, right)?;
        self.items.add(bytes.as_slice())
    }

    /// Returns the bytes of two strings, one after the other.
    fn joined(&self, left: usize, right: usize) -> Result<Vec<u8>, StringError>
        ensures bytes { IfOk result (λ v. joined_of left right self.now.strings ≡ Some v.items) }
        ensures unknown { IsErrOf result string_error.UnknownHandle ↔ (joined_of left right self.now.strings ≡ None) }
        ensures room { IsErrOf result string_error.NoRoom → ⊥ }
    {
        let left = self.bytes(left)?;
        let right = self.bytes(right)?;
        let mut joined = Vec::from_slice(self.alloc, left)?;
        joined.extend_from_slice(right)?;
        Ok(joined)
    }

    /// Drops a string. Then its handle is unknown. No other string changes.
    ///
    /// Returns an error if and only if there is no string with that handle; then nothing changes.
    pub fn drop_string(&mut self, handle: usize) -> Result<(), UnknownHandle>
        ensures dropped { OnOk result (self.new ≡ record self.old { strings = remove_entry (nat_eq handle) self.old.strings }) }
        ensures gone { lookup (nat_eq handle) self.new.strings ≡ None }
        ensures unknown { IsErr result ↔ (lookup (nat_eq handle) self.old.strings ≡ None) }
        ensures refused { OnErr result (self.new ≡ self.old) }
    {
        self.items.remove(handle)
    }

    /// Returns the bytes of a string. Returns an error if and only if there is no string with that handle.
    pub fn bytes(&self, handle: usize) -> Result<&[u8], UnknownHandle>
        ensures bytes { IfOk result (λ bytes. lookup (nat_eq handle) self.now.strings ≡ Some bytes.now) }
        ensures unknown { OnErr result (lookup (nat_eq handle) self.now.strings ≡ None) }
    {
        self.items.get(handle)
    }

    /// Returns the blocks of the pool, used and free, in address order. There is one used block for each string.
    pub fn blocks(&self) -> Blocks<'_>
        ensures used { used_count result ≡ length self.now.strings }
        ensures order { IsInOrder result }
        ensures runs { GivesInOrder BlockInfo }
    {
        self.items.blocks()
    }
}
