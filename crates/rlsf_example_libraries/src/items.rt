//! Lists of bytes by handle, each in a payload of one store. `objects` and `strings` use them.

ghost use Rattle.std.specs.Prelude.{◌≡◌, ◌≤◌, ◌+◌, ◌↔◌, ℕ, [], ◌∷◌, ◌++◌, List, None, Some, IfOk, OnOk, OnErr, IsErr, IsErrOf, IsSomeAnd, length, nat_eq, replicate};
ghost use Rattle.std.specs.Map.{lookup, remove_entry};
ghost use Rattle.rlsf_base.specs.Addr.{at};
ghost use Rattle.rlsf_base.specs.Space.{SamePlace, range_of};
ghost use Rattle.std.specs.Map.Iter.{GivesInOrder};
ghost use Rattle.rlsf_blocks.specs.Blocks.{IsInOrder};
ghost use Rattle.rlsf_example_libraries.specs.Handled.{IsShortWithMore, with_handled_bytes, with_list};
ghost use Rattle.rlsf_example_libraries.specs.Objects.{set_answer};
ghost use Rattle.rlsf_example_libraries.specs.Budgets.{HasBudgetOf};
ghost use Rattle.rlsf_model_sizes.specs.Sizes.{request_size};
ghost use Rattle.rlsf_base.specs.declared.memory.range.Range as declared_range;
ghost use Rattle.rlsf_model.specs.Insert.{aligned_part};
ghost use Rattle.rlsf_model.specs.Uniform.{IsUniform};
ghost use Rattle.rlsf_example_libraries.specs.Tiles.{HasTileFor, KeepsUniform};
ghost use Rattle.rlsf_example_libraries.specs.Stored.{FitsPool, KeepsAt, HasSame, Place, used_count, with_bytes_over};
ghost use Rattle.rlsf_example_libraries.specs.declared.objects.TakeError.TheVariants.{NoRoom};
ghost use Rattle.rlsf_example_libraries.specs.declared.strings.StringError.TheVariants as string_error;

use crate::handles::{Handles, Spot};
use crate::objects::{SetError, TakeError, UnknownHandle};
use crate::store::Store;
use crate::strings::StringError;
use rlsf::{BlockInfo, Blocks, Layout, Memory};
use std::alloc::{AllocError, Global};
use std::marker::Model;

/// Lists of bytes by handle, whose payloads all have one alignment.
#[derive(Drop)]
pub(crate) struct Items {
    store: Store,
    handles: Handles,
    align: usize,
}

impl Model for Items {
    ghost use Rattle.rlsf_example_libraries.specs.Handled.{Handled, IsHandled, handled_by};

    ghost Value = { Handled };

    ghost view = { λ s. handled_by s.store s.align s.handles };

    ghost invariant = { λ s. IsHandled s.store s.align s.handles.rows };
}

impl Items {
    /// Creates items without a list of bytes, over a memory that becomes the pool.
    pub(crate) fn new(alloc: Global, memory: Memory, align: usize) -> Items
        ensures empty { result.lists ≡ [] }
        ensures next { result.next ≡ 0 }
        ensures align { result.align ≡ align }
        ensures memory { result.memory ≡ range_of memory }
        ensures uniform { (len : ℕ) → 64 ≤ (aligned_part (range_of memory)).len → IsUniform len (aligned_part (range_of memory)) result.state }
    {
        Items {
            store: Store::new(memory),
            handles: Handles::new(alloc),
            align,
        }
    }

    /// Returns the number of lists.
    pub(crate) fn len(&self) -> usize
        ensures { result ≡ length self.now.lists }
    {
        self.handles.len()
    }

    /// Adds a list of bytes under a new handle, and returns the handle.
    ///
    /// Returns `NoRoom` if the pool has no room for the list, or `OutOfMemory` if the system has no memory for the handle; then
    /// no list changes.
    pub(crate) fn add(&mut self, bytes: &[u8]) -> Result<usize, StringError>
        requires { self.old.align ≡ 1 }
        ensures added { IfOk result (λ handle. (handle ≡ self.old.next)
            × (self.new ≡ with_list self.old handle bytes.now self.new.state)) }
        ensures new { IfOk result (λ handle. lookup (nat_eq handle) self.old.lists ≡ None) }
        ensures known { IsErrOf result string_error.UnknownHandle → ⊥ }
        ensures room { self.old.lists ≡ [] → FitsPool self.old.memory (length bytes.now) 1 → IsErrOf result string_error.NoRoom → ⊥ }
        ensures enough { (live size : ℕ) → HasBudgetOf self.old live size → length bytes.now ≤ size → IsErrOf result string_error.NoRoom → ⊥ }
        ensures refused { OnErr result (self.new ≡ record self.old { state = self.new.state }) }
    {
        let Some(addr) = self.store.add(bytes) else {
            return Err(StringError::NoRoom);
        };
        let spot = Spot {
            addr,
            len: bytes.len(),
        };
        let handle = keep(&mut self.store, &mut self.handles, spot, 1)?;
        Ok(handle)
    }

    /// Adds as many zeros as a layout has bytes under a new handle, and returns the handle.
    ///
    /// Returns `NoRoom` if the pool has no room for them, or `OutOfMemory` if the system has no memory for the handle; then no
    /// list changes.
    pub(crate) fn add_zeros(&mut self, layout: Layout) -> Result<usize, TakeError>
        requires { self.old.align ≡ layout.align }
        ensures added { IfOk result (λ handle. (handle ≡ self.old.next)
            × (self.new ≡ with_list self.old handle (replicate layout.size 0) self.new.state)) }
        ensures new { IfOk result (λ handle. lookup (nat_eq handle) self.old.lists ≡ None) }
        ensures room { self.old.lists ≡ [] → FitsPool self.old.memory layout.size layout.align → IsErrOf result NoRoom → ⊥ }
        ensures enough { (live size : ℕ) → HasBudgetOf self.old live size → layout.size ≤ size → IsErrOf result NoRoom → ⊥ }
        ensures tiled { (c : declared_range.Range) → HasTileFor self.old.state c layout.size layout.align (length self.old.lists) → IsErrOf result NoRoom → ⊥ }
        ensures uniform { layout.align ≤ 32 → KeepsUniform self.old.state self.new.state (request_size layout.size layout.align) }
        ensures refused { OnErr result (self.new ≡ record self.old { state = self.new.state }) }
    {
        let Some(addr) = self.store.add_zeros(layout) else {
            return Err(TakeError::NoRoom);
        };
        let spot = Spot {
            addr,
            len: layout.size,
        };
        let handle = keep(&mut self.store, &mut self.handles, spot, layout.align)?;
        Ok(handle)
    }

    /// Returns the bytes of a handle, or an error if there is no such handle.
    pub(crate) fn get(&self, handle: usize) -> Result<&[u8], UnknownHandle>
        ensures known { IfOk result (λ bytes. lookup (nat_eq handle) self.now.lists ≡ Some bytes.now) }
        ensures unknown { OnErr result (lookup (nat_eq handle) self.now.lists ≡ None) }
    {
        let Some(spot) = self.handles.get(handle) else {
            return Err(UnknownHandle);
        };
        Ok(self.store.read(spot.addr, spot.len))
    }

    /// Overwrites the bytes of a handle from `offset` on.
    ///
    /// Returns `UnknownHandle` if there is no such handle, else `OutOfRange` if `bytes` reaches past the end of the list; then
    /// nothing changes.
    pub(crate) fn write(
        &mut self,
        handle: usize,
        offset: usize,
        bytes: &[u8],
    ) -> Result<(), SetError>
        ensures answer { result ≡ set_answer (lookup (nat_eq handle) self.old.lists) (offset + length bytes.now) }
        ensures written { OnOk result (IsSomeAnd (lookup (nat_eq handle) self.old.lists) (λ old.
            self.new ≡ with_handled_bytes self.old handle (with_bytes_over old offset bytes.now) self.new.state)) }
        ensures uniform { (len : ℕ) → KeepsUniform self.old.state self.new.state len }
        ensures refused { OnErr result (self.new ≡ self.old) }
    {
        let Some(spot) = self.handles.get(handle) else {
            return Err(SetError::UnknownHandle);
        };
        if offset > spot.len || bytes.len() > spot.len - offset {
            return Err(SetError::OutOfRange);
        }
        self.store.write(spot.addr, offset, bytes);
        Ok(())
    }

    /// Appends bytes to those of a handle. Returns `UnknownHandle` if there is no such handle, or `NoRoom` if the pool has no room;
    /// then no list changes.
    pub(crate) fn append(&mut self, handle: usize, more: &[u8]) -> Result<(), StringError>
        requires { self.old.align ≡ 1 }
        ensures appended { OnOk result (IsSomeAnd (lookup (nat_eq handle) self.old.lists) (λ old.
            self.new ≡ with_handled_bytes self.old handle (old ++ more.now) self.new.state)) }
        ensures unknown { IsErrOf result string_error.UnknownHandle ↔ (lookup (nat_eq handle) self.old.lists ≡ None) }
        ensures enough { (live size : ℕ) → HasBudgetOf self.old live size → IsShortWithMore self.old handle (length more.now) size → IsErrOf result string_error.NoRoom → ⊥ }
        ensures refused { OnErr result (self.new ≡ record self.old { state = self.new.state }) }
    {
        let Some(spot) = self.handles.get(handle) else {
            return Err(StringError::UnknownHandle);
        };
        let Some(len) = spot.len.checked_add(more.len()) else {
            return Err(StringError::NoRoom);
        };
        let Some(addr) = self.store.append(spot.addr, spot.len, more) else {
            return Err(StringError::NoRoom);
        };
        self.handles.set(handle, Spot { addr, len });
        Ok(())
    }

    /// Removes a handle, and deallocates its payload. Returns an error if there is no such handle; then nothing changes.
    pub(crate) fn remove(&mut self, handle: usize) -> Result<(), UnknownHandle>
        ensures removed { OnOk result ((self.new ≡ record self.old { lists = remove_entry (nat_eq handle) self.old.lists; state = self.new.state })
            × (lookup (nat_eq handle) self.new.lists ≡ None)) }
        ensures unknown { IsErr result ↔ (lookup (nat_eq handle) self.old.lists ≡ None) }
        ensures uniform { (len : ℕ) → KeepsUniform self.old.state self.new.state len }
        ensures refused { OnErr result (self.new ≡ self.old) }
    {
        let Some(spot) = self.handles.remove(handle) else {
            return Err(UnknownHandle);
        };
        self.store.remove(spot.addr, self.align);
        Ok(())
    }

    /// Returns the blocks of the pool, used and free, in address order. There is one used block for each list.
    pub(crate) fn blocks(&self) -> Blocks<'_>
        ensures used { used_count result ≡ length self.now.lists }
        ensures order { IsInOrder result }
        ensures runs { GivesInOrder BlockInfo }
    {
        self.store.blocks()
    }
}

/// Adds a new handle for the list that a store got last. If the system has no memory for the handle, the payload is deallocated.
fn keep(
    store: &mut Store,
    handles: &mut Handles,
    spot: Spot,
    align: usize,
) -> Result<usize, AllocError>
    requires { (before : List Place) × (p : Place) × KeepsAt store.old (before ++ p ∷ []) × (p.addr ≡ at spot.addr) × (p.align ≡ align) }
    ensures kept { IfOk result (λ handle. (store.new ≡ store.old) × (handle ≡ handles.old.next)
        × (handles.new ≡ record { rows = handles.old.rows ++ (handle, spot) ∷ []; next = handle + 1 })) }
    ensures new { IfOk result (λ handle. lookup (nat_eq handle) handles.old.rows ≡ None) }
    ensures given_back { OnErr result ((before : List Place) (p : Place) → KeepsAt store.old (before ++ p ∷ [])
        → p.addr ≡ at spot.addr → p.align ≡ align → HasSame store.old store.new (before ++ [])) }
    ensures refused { OnErr result (handles.new ≡ handles.old) }
    ensures uniform { (len : ℕ) → KeepsUniform store.old.heap.state store.new.heap.state len }
    ensures place { SamePlace store.old.heap.memory store.new.heap.memory }
{
    let added = handles.add(spot);
    if added.is_err() {
        store.remove(spot.addr, align);
    }
    added
}
