//! A pool of objects of one size and alignment, each named by a handle.

ghost use Rattle.std.specs.Prelude.{◌≡◌, ◌<◌, ◌≤◌, ◌+◌, ◌↔◌, [], ◌∷◌, ◌++◌, None, Some, IfOk, OnOk, OnErr, IsErr, IsErrOf, length, nat_eq, replicate};
ghost use Rattle.std.specs.Map.{lookup, remove_entry};
ghost use Rattle.rlsf_model_sizes.specs.Sizes as sizes;
ghost use Rattle.rlsf_base.specs.Space.{range_of};
ghost use Rattle.std.specs.Map.Iter.{GivesInOrder};
ghost use Rattle.rlsf_blocks.specs.Blocks.{IsInOrder};
ghost use Rattle.rlsf_model.specs.Insert.{aligned_part};
ghost use Rattle.rlsf_example_libraries.specs.Objects.{Writes, set_answer};
ghost use Rattle.rlsf_example_libraries.specs.Objects as objects;
ghost use Rattle.rlsf_example_libraries.specs.Stored.{FitsPool, used_count};
ghost use Rattle.rlsf_example_libraries.specs.declared.objects.TakeError.TheVariants.{NoRoom, OutOfMemory};

use crate::items::Items;
use crate::store::pool_len;
use rlsf::{BlockInfo, Blocks, Layout, Memory, classes};
use std::alloc::{AllocError, Global};
use std::marker::Model;

/// Why no object was taken out of a pool.
#[derive(Clone, Copy, Debug, PartialEq, Eq)]
pub enum TakeError {
    /// The number of objects that are out is the pool's capacity.
    NoRoom,
    /// The system has no memory for the table of handles, or every number was a handle already.
    OutOfMemory,
}

impl From<AllocError> for TakeError {
    ghost from_gives = { λ _ e. e ≡ OutOfMemory };

    fn from(_error: AllocError) -> TakeError {
        TakeError::OutOfMemory
    }
}

/// No object with that handle is out.
#[derive(Clone, Copy, Debug, PartialEq, Eq)]
pub struct UnknownHandle;

/// Why no bytes were written into an object.
#[derive(Clone, Copy, Debug, PartialEq, Eq)]
pub enum SetError {
    /// No object with that handle is out.
    UnknownHandle,
    /// The bytes reach past the end of the object.
    OutOfRange,
}

/// A pool of objects of one layout, in a memory of its own.
///
/// Handles count up from 0, and the handle of an object that was taken back is never used again.
#[derive(Drop)]
pub struct Objects {
    items: Items,
    layout: Layout,
    // The greatest number of objects that are out at once. While fewer are out, the pool has room for one more.
    capacity: usize,
}

impl Model for Objects {
    ghost use Rattle.rlsf_example_libraries.specs.Capacities.{IsObjectPool};
    ghost use Rattle.rlsf_example_libraries.specs.Objects.{Pool};

    ghost Value = { Pool };

    ghost view = { λ o. record { objects = o.items.lists; next = o.items.next; size = o.layout.size; align = o.layout.align; memory = o.items.memory; capacity = o.capacity } };

    ghost invariant = { λ o. IsObjectPool o.items o.layout.size o.layout.align o.capacity };
}

impl Objects {
    /// Creates a pool over a memory. No object is out. The memory's length determines the capacity: how many objects may be out
    /// at once.
    ///
    /// - Suppose that the memory begins at a multiple of 32 and has the length that `classes::pool_size_for_objects` returns. At
    ///   an alignment of 16 or less, the capacity for objects of the size that it returns is the number that was passed to it.
    /// - If the block of an object doesn't begin a size class, or the alignment is above 32, the capacity is the greatest `n` for
    ///   which `classes::pool_size_for_payloads(n - 1, layout)` is at most the length.
    pub fn new(alloc: Global, memory: Memory, layout: Layout) -> Objects
        ensures pool { result ≡ record { objects = []; next = 0; size = layout.size; align = layout.align; memory = range_of memory; capacity = result.capacity } }
        ensures capacity { result.capacity ≡ objects.capacity_of (aligned_part (range_of memory)).len layout.size layout.align }
    {
        let capacity = capacity_of(pool_len(&memory), layout);
        Objects {
            items: Items::new(alloc, memory, layout.align),
            layout,
            capacity,
        }
    }

    /// Returns the capacity: the greatest number of objects that are out at once.
    pub fn capacity(&self) -> usize
        ensures { result ≡ self.now.capacity }
    {
        self.capacity
    }

    /// Returns the number of objects that are out.
    pub fn len(&self) -> usize
        ensures value { result ≡ length self.now.objects }
        ensures most { result ≤ self.now.capacity }
    {
        self.items.len()
    }

    /// Takes an object of zeros out of the pool, and returns its new handle.
    ///
    /// Returns one of these errors; then nothing changes:
    /// - `NoRoom` if and only if the number of objects that are out is the capacity. A pool of which no object is out, and whose
    ///   memory is long enough for one, has room.
    /// - `OutOfMemory` otherwise, if the system has no memory for the handle.
    pub fn take(&mut self) -> Result<usize, TakeError>
        ensures taken { IfOk result (λ handle. (handle ≡ self.old.next)
            × (self.new ≡ record self.old { objects = self.old.objects ++ (handle, replicate self.old.size 0) ∷ []; next = handle + 1 })) }
        ensures new { IfOk result (λ handle. lookup (nat_eq handle) self.old.objects ≡ None) }
        ensures full { IsErrOf result NoRoom ↔ (length self.old.objects ≡ self.old.capacity) }
        ensures room { self.old.objects ≡ [] → FitsPool self.old.memory self.old.size self.old.align → IsErrOf result NoRoom → ⊥ }
        ensures refused { OnErr result (self.new ≡ self.old) }
    {
        if self.items.len() == self.capacity {
            return Err(TakeError::NoRoom);
        }
        self.items.add_zeros(self.layout)
    }

    /// Takes an object back. Then its handle is unknown, and the pool has room for one more. No other object changes.
    ///
    /// Returns an error if and only if no object with that handle is out; then nothing changes.
    pub fn give_back(&mut self, handle: usize) -> Result<(), UnknownHandle>
        ensures given_back { OnOk result (self.new ≡ record self.old { objects = remove_entry (nat_eq handle) self.old.objects }) }
        ensures gone { lookup (nat_eq handle) self.new.objects ≡ None }
        ensures room { OnOk result (length self.new.objects < self.new.capacity) }
        ensures unknown { IsErr result ↔ (lookup (nat_eq handle) self.old.objects ≡ None) }
        ensures refused { OnErr result (self.new ≡ self.old) }
    {
        self.items.remove(handle)
    }

    /// Returns the bytes of an object. Returns an error if and only if no object with that handle is out.
    pub fn get(&self, handle: usize) -> Result<&[u8], UnknownHandle>
        ensures bytes { IfOk result (λ bytes. lookup (nat_eq handle) self.now.objects ≡ Some bytes.now) }
        ensures len { IfOk result (λ bytes. length bytes.now ≡ self.now.size) }
        ensures unknown { OnErr result (lookup (nat_eq handle) self.now.objects ≡ None) }
    {
        self.items.get(handle)
    }

    /// Overwrites the bytes of one object from `offset` on. No other object changes.
    ///
    /// Returns `UnknownHandle` if and only if no object with that handle is out. Otherwise returns `OutOfRange` if and only if
    /// `bytes` reaches past its end. Then nothing changes.
    pub fn set(&mut self, handle: usize, offset: usize, bytes: &[u8]) -> Result<(), SetError>
        ensures answer { result ≡ set_answer (lookup (nat_eq handle) self.old.objects) (offset + length bytes.now) }
        ensures written { OnOk result (Writes self.old handle offset bytes.now self.new) }
        ensures refused { OnErr result (self.new ≡ self.old) }
    {
        self.items.write(handle, offset, bytes)
    }

    /// Returns the blocks of the pool, used and free, in address order. There is one used block for each object that is out.
    pub fn blocks(&self) -> Blocks<'_>
        ensures used { used_count result ≡ length self.now.objects }
        ensures order { IsInOrder result }
        ensures runs { GivesInOrder BlockInfo }
    {
        self.items.blocks()
    }
}

/// Returns how many objects of a layout a pool of `len` bytes is sure to hold.
fn capacity_of(len: usize, layout: Layout) -> usize
    ensures { result ≡ objects.capacity_of len layout.size layout.align }
{
    let Some(least) = classes::pool_size_to_contain_allocation::<u64, u64, 59, 8>(layout) else {
        return 0;
    };
    if len < least {
        return 0;
    }
    let block = request_size(layout);
    if layout.align <= 32 && least == block + 32 {
        (len - 32) / block
    } else {
        (len - least) / (least - 64).saturating_add(block) + 1
    }
}

/// Returns the least length of a block for a layout. Its payload begins 16 bytes into it, or up to `align - 16` bytes later.
fn request_size(layout: Layout) -> usize
    ensures { result ≡ sizes.request_size layout.size layout.align }
{
    (layout.size() + layout.align().max(16)).next_multiple_of(32)
}
