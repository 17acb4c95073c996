//! Lists of bytes, each in a payload of one allocator. `messages` and `items` use them.

ghost use Rattle.std.specs.Prelude.{◌≡◌, ◌≤◌, ◌+◌, ◌∷◌, ◌++◌, ℕ, List, [], length, replicate, IfNone, IfSome, IsSome};
ghost use Rattle.std.specs.List.{splice};
ghost use Rattle.std.specs.Map.Iter.{GivesInOrder};
ghost use Rattle.rlsf_base.specs.Addr.{at};
ghost use Rattle.rlsf_base.specs.Range.{range_at};
ghost use Rattle.rlsf_base.specs.Space.{SamePlace, bytes_in, range_of};
ghost use Rattle.rlsf_blocks.specs.Blocks.{IsInOrder};
ghost use Rattle.rlsf_model.specs.Insert.{aligned_part};
ghost use Rattle.rlsf_example_libraries.specs.Budgets.{HasBudgetFor};
ghost use Rattle.rlsf_model_sizes.specs.Sizes.{request_size};
ghost use Rattle.rlsf_base.specs.declared.memory.range.Range as declared_range;
ghost use Rattle.rlsf_model.specs.Uniform.{IsUniform};
ghost use Rattle.rlsf_example_libraries.specs.Tiles.{HasTileFor, KeepsUniform};
ghost use Rattle.rlsf_example_libraries.specs.Stored.{AppendsAt, FitsPool, HasAmong, KeepsAt, HasSame, KeepsAll, Place, WritesOver, place, used_count};

use rlsf::{Addr, BlockInfo, Blocks, Layout, Memory, Range, Tlsf};
use std::marker::Model;
use std::num::NonZeroUsize;

/// The allocator of these libraries: chunks of any length, and eight size classes in each row.
pub type Heap = Tlsf<u64, u64, 59, 8>;

/// An allocator over one pool. Each of its payloads begins with a list of bytes.
#[derive(Drop)]
pub(crate) struct Store {
    heap: Heap,
    pool: Range,
}

impl Model for Store {
    ghost use Rattle.rlsf_example_libraries.specs.Stored.{StoreContents, store_contents};

    ghost Value = { StoreContents };

    ghost view = { λ s. store_contents s.heap s.pool };
}

impl Store {
    /// Creates a store without a list, over a memory that becomes its pool.
    pub(crate) fn new(memory: Memory) -> Store
        ensures empty { KeepsAt result [] }
        ensures place { SamePlace memory result.heap.memory }
        ensures uniform { (len : ℕ) → 64 ≤ (aligned_part (range_of memory)).len → IsUniform len (aligned_part (range_of memory)) result.heap.state }
        ensures touches { result.heap.memory.touches ≤ memory.touches + 13 }
    {
        let start = memory.start();
        let len = memory.len();
        let mut heap = Tlsf::new(memory);
        let taken = heap.insert_free_block_ptr(Range { start, len });
        let len = taken.map_or(0, NonZeroUsize::get);
        Store {
            heap,
            pool: Range { start, len },
        }
    }

    /// Stores bytes in a new payload, and returns its address. Returns `None` if there is no room; then no list changes.
    pub(crate) fn add(&mut self, bytes: &[u8]) -> Option<Addr>
        ensures stored { IfSome result (λ addr. (places : List Place) → KeepsAt self.old places
            → HasAmong self.old self.new places [] (place (at addr) 1 (length bytes.now)) bytes.now) }
        ensures refused { IfNone result (KeepsAll self.old self.new) }
        ensures room { KeepsAt self.old [] → FitsPool (range_of self.old.heap.memory) (length bytes.now) 1 → IsSome result }
        ensures enough { (places : List Place) (live size : ℕ) → HasBudgetFor self.old places live size 1 → length bytes.now ≤ size → IsSome result }
        ensures place { SamePlace self.old.heap.memory self.new.heap.memory }
        ensures touches { self.new.heap.memory.touches ≤ self.old.heap.memory.touches + 30 }
    {
        let Ok(layout) = Layout::from_size_align(bytes.len(), 1) else {
            return None;
        };
        let addr = self.heap.allocate(layout)?;
        write_at(self.heap.payload_mut(addr), 0, bytes);
        Some(addr)
    }

    /// Stores as many zeros as a layout has bytes, at its alignment, and returns their address. Returns `None` if there is no
    /// room; then no list changes.
    pub(crate) fn add_zeros(&mut self, layout: Layout) -> Option<Addr>
        ensures stored { IfSome result (λ addr. (places : List Place) → KeepsAt self.old places
            → HasAmong self.old self.new places [] (place (at addr) layout.align layout.size) (replicate layout.size 0)) }
        ensures refused { IfNone result (KeepsAll self.old self.new) }
        ensures room { KeepsAt self.old [] → FitsPool (range_of self.old.heap.memory) layout.size layout.align → IsSome result }
        ensures enough { (places : List Place) (live size : ℕ) → HasBudgetFor self.old places live size layout.align → layout.size ≤ size → IsSome result }
        ensures tiled { (places : List Place) (c : declared_range.Range) → KeepsAt self.old places → HasTileFor self.old.heap.state c layout.size layout.align (length places) → IsSome result }
        ensures uniform { (places : List Place) → KeepsAt self.old places → layout.align ≤ 32
            → KeepsUniform self.old.heap.state self.new.heap.state (request_size layout.size layout.align) }
        ensures place { SamePlace self.old.heap.memory self.new.heap.memory }
        ensures touches { self.new.heap.memory.touches ≤ self.old.heap.memory.touches + 30 }
    {
        let addr = self.heap.allocate_zeroed(layout)?;
        Some(addr)
    }

    /// Returns the `len` bytes that are stored at an address.
    pub(crate) fn read(&self, addr: Addr, len: usize) -> &[u8]
        requires { (before after : List Place) × (p : Place) × KeepsAt self.now (before ++ p ∷ after) × (p.addr ≡ at addr) × (p.len ≡ len) }
        ensures bytes { result.now ≡ bytes_in self.now.heap.memory (range_at (at addr) len) }
        ensures len { length result.now ≡ len }
    {
        &self.heap.payload(addr)[..len]
    }

    /// Overwrites the bytes that are stored at an address, from `offset` on.
    pub(crate) fn write(&mut self, addr: Addr, offset: usize, bytes: &[u8])
        requires { (before after : List Place) × (p : Place) × KeepsAt self.old (before ++ p ∷ after) × (p.addr ≡ at addr) × (offset + length bytes.now ≤ p.len) }
        ensures stored { WritesOver self.old self.new (at addr) offset bytes.now }
        ensures uniform { (places : List Place) (len : ℕ) → KeepsAt self.old places → KeepsUniform self.old.heap.state self.new.heap.state len }
        ensures place { SamePlace self.old.heap.memory self.new.heap.memory }
        ensures touches { self.new.heap.memory.touches ≤ self.old.heap.memory.touches + 3 }
    {
        write_at(self.heap.payload_mut(addr), offset, bytes);
    }

    /// Stores more bytes behind the `len` bytes that are stored at an address. Their payload may move. Returns its address, or
    /// `None` if there is no room; then no list changes.
    pub(crate) fn append(&mut self, addr: Addr, len: usize, more: &[u8]) -> Option<Addr>
        requires { (before after : List Place) × (p : Place) × KeepsAt self.old (before ++ p ∷ after) × (p.addr ≡ at addr) × (p.align ≡ 1) × (p.len ≡ len) }
        ensures stored { IfSome result (λ to. AppendsAt self.old self.new (at addr) len more.now (at to)) }
        ensures refused { IfNone result (KeepsAll self.old self.new) }
        ensures enough { (places : List Place) (live size : ℕ) → HasBudgetFor self.old places live size 1 → len + length more.now ≤ size → IsSome result }
        ensures place { SamePlace self.old.heap.memory self.new.heap.memory }
        ensures touches { self.new.heap.memory.touches ≤ self.old.heap.memory.touches + 69 }
    {
        let size = len.checked_add(more.len())?;
        let Ok(layout) = Layout::from_size_align(size, 1) else {
            return None;
        };
        let to = self.heap.reallocate(addr, layout)?;
        write_at(self.heap.payload_mut(to), len, more);
        Some(to)
    }

    /// Deallocates the payload at an address, which has this alignment.
    pub(crate) fn remove(&mut self, addr: Addr, align: usize)
        requires { (before after : List Place) × (p : Place) × KeepsAt self.old (before ++ p ∷ after) × (p.addr ≡ at addr) × (p.align ≡ align) }
        ensures removed { (before after : List Place) (p : Place) → KeepsAt self.old (before ++ p ∷ after) → p.addr ≡ at addr → p.align ≡ align
            → HasSame self.old self.new (before ++ after) }
        ensures uniform { (len : ℕ) → KeepsUniform self.old.heap.state self.new.heap.state len }
        ensures place { SamePlace self.old.heap.memory self.new.heap.memory }
        ensures touches { self.new.heap.memory.touches ≤ self.old.heap.memory.touches + 32 }
    {
        self.heap.deallocate(addr, align);
    }

    /// Returns the blocks of the pool, used and free, in address order.
    pub(crate) fn blocks(&self) -> Blocks<'_>
        requires { (places : List Place) × KeepsAt self.now places }
        ensures used { (places : List Place) → KeepsAt self.now places → used_count result ≡ length places }
        ensures order { IsInOrder result }
        ensures runs { GivesInOrder BlockInfo }
    {
        self.heap.iter_blocks(self.pool)
    }
}

/// Overwrites the bytes of a payload from `offset` on.
fn write_at(payload: &mut [u8], offset: usize, bytes: &[u8])
    requires { offset + length bytes.now ≤ length payload.old }
    ensures bytes { payload.new ≡ splice payload.old offset (offset + length bytes.now) bytes.now }
    ensures len { length payload.new ≡ length payload.old }
{
    payload[offset..offset + bytes.len()].copy_from_slice(bytes);
}

/// Returns the length of the pool of a memory: its part from the first multiple of 32 to the last.
pub(crate) fn pool_len(memory: &Memory) -> usize
    ensures { result ≡ (aligned_part (range_of memory.now)).len }
{
    let skipped = (32 - memory.start() % 32) % 32;
    memory.len().saturating_sub(skipped) / 32 * 32
}
